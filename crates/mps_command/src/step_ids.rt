//! Lists of numbers of steps.
ghost use Rattle.std.specs.Prelude.{◌≡◌, [], ◌∷◌, IfOk, MatchResult};

use mps_base::StepId;
use std::alloc::{AllocError, Global};
use std::marker::Model;
use std::slice;

/// The numbers of some steps, in order.
#[derive(Debug, Drop)]
pub struct StepIds {
    kept: Kept,
}

// One number is kept without allocating.
#[derive(Debug, Drop)]
enum Kept {
    One(StepId),
    Many(Vec<StepId>),
}

impl Model for StepIds {
    ghost use Rattle.std.specs.Prelude.{ℕ, List};

    ghost Value = { List ℕ };

    ghost use Rattle.mps_command.specs.Private.Kept.{numbers};

    ghost view = { λ s. numbers s.kept };
}

impl StepIds {
    /// The list of these numbers in their order; the vector is kept and not copied.
    pub fn of(ids: Vec<StepId>) -> StepIds
        ensures { result ≡ ids.items }
    {
        StepIds {
            kept: Kept::Many(ids),
        }
    }

    /// The list of this number alone. It does not allocate, so a step can be undone when out of memory.
    pub fn one(id: StepId) -> StepIds
        ensures { result ≡ id ∷ [] }
    {
        StepIds {
            kept: Kept::One(id),
        }
    }

    /// The numbers in order, borrowed: one slice, however they are stored.
    pub fn as_slice(&self) -> &[StepId]
        ensures { result.now ≡ self.now }
    {
        match &self.kept {
            Kept::One(id) => slice::from_ref(id),
            Kept::Many(ids) => ids.as_slice(),
        }
    }

    /// The vector, or as the error the one number that is stored without a vector: a caller that needs a vector for it
    /// decides about memory itself. It does not allocate.
    pub fn try_into_vec(self) -> Result<Vec<StepId>, StepId>
        ensures { MatchResult result (λ ids. ids.items ≡ self) (λ id. self ≡ id ∷ []) }
    {
        let StepIds { kept } = self;
        match kept {
            Kept::One(id) => Err(id),
            Kept::Many(ids) => Ok(ids),
        }
    }

    /// A copy of the list, O(numbers). A list made by `one` does not allocate; it fails only when out of memory.
    pub fn copy(&self, alloc: Global) -> Result<StepIds, AllocError>
        ensures { IfOk result (λ ids. ids ≡ self.now) }
    {
        let kept = match &self.kept {
            Kept::One(id) => Kept::One(*id),
            Kept::Many(ids) => Kept::Many(Vec::from_slice(alloc, ids.as_slice())?),
        };
        Ok(StepIds { kept })
    }
}
