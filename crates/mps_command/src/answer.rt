//! What participants are answered.
ghost use Rattle.std.specs.Prelude.{◌≡◌, IfOk};
ghost use Rattle.mps_command.specs.declared.answer.Refusal.TheVariants.{Memory as OutOfMemory};

use crate::shown_text::ShownText;
use crate::step_ids::StepIds;
use mps_base::{Message, StepId};
use std::alloc::{AllocError, AllocFailed, Global};
use thiserror::Error;

/// Why a role's type doesn't allow an act now: the first of these that applies.
#[derive(Clone, Copy, Debug, PartialEq, Eq, Error)]
pub enum Violation {
    #[error("the role's part has ended")]
    Ended,
    #[error("the type allows another kind of act")]
    WrongAct,
    #[error("the type names another peer")]
    WrongPeer,
    #[error("the value is of another sort")]
    WrongSort,
    #[error("the choice has no such label")]
    NoLabel,
    #[error("nothing is queued from the peer")]
    NothingQueued,
    #[error("the message that waits is of another sort or label")]
    Mismatch,
}

/// Why a command was refused. Nothing has changed then.
#[derive(Clone, Copy, Debug, PartialEq, Eq, Error)]
pub enum Refusal {
    #[error(transparent)]
    Violation(Violation),
    #[error("no step of this number survives")]
    NoStep,
    #[error("the step is another role's")]
    NotYours,
    #[error("step {} is a commit, which nothing takes back", by.number())]
    Final { by: StepId },
    #[error("step {} depends on it", by.number())]
    Needed { by: StepId },
    #[error("no mark of this name survives")]
    NoMark,
    #[error("no number or no entry is left")]
    Full,
    #[error("out of memory")]
    Memory,
}

impl From<AllocError> for Refusal {
    ghost from_gives = { λ _ e. e ≡ OutOfMemory };

    // Lets `?` turn a failed allocation into `Memory`.
    fn from(_e: AllocError) -> Refusal {
        Refusal::Memory
    }
}

impl<T: Drop> From<AllocFailed<T>> for Refusal {
    ghost from_gives = { λ _ e. e ≡ OutOfMemory };

    // Lets `?` turn a failed allocation into `Memory`; what the allocation gives back is dropped.
    fn from(_e: AllocFailed<T>) -> Refusal {
        Refusal::Memory
    }
}

/// An accepted step: its number, and the message that a receipt or a pick took.
#[derive(Debug, Drop)]
pub struct Done {
    pub id: StepId,
    pub got: Option<Message>,
}

impl Done {
    /// A copy that shares nothing with the answer. Only a text that was received allocates; it fails only when out of
    /// memory.
    pub fn copy(&self, alloc: Global) -> Result<Done, AllocError>
        ensures { IfOk result (λ done. done ≡ self.now) }
    {
        let got = match &self.got {
            Some(message) => Some(message.copy(alloc)?),
            None => None,
        };
        Ok(Done { id: self.id, got })
    }
}

/// The answer to a command.
#[derive(Debug, Drop)]
pub enum Answer {
    /// A new step.
    Done(Done),
    /// The numbers of the steps that were taken back, the newest first.
    Undone(StepIds),
    /// How many entries the journal has, and the numbers of the role's steps that others took back.
    News { length: u64, ids: StepIds },
    /// The session, as it is shown.
    Shown(ShownText),
    /// Nothing has changed.
    Refused(Refusal),
}

impl Answer {
    /// A copy that shares nothing with the answer. Received texts, shown sessions and lists of several numbers
    /// allocate; it fails only when out of memory.
    pub fn copy(&self, alloc: Global) -> Result<Answer, AllocError>
        ensures { IfOk result (λ answer. answer ≡ self.now) }
    {
        Ok(match self {
            Answer::Done(done) => Answer::Done(done.copy(alloc)?),
            Answer::Undone(ids) => Answer::Undone(ids.copy(alloc)?),
            Answer::News { length, ids } => Answer::News {
                length: *length,
                ids: ids.copy(alloc)?,
            },
            Answer::Shown(text) => Answer::Shown(text.copy(alloc)?),
            Answer::Refused(refusal) => Answer::Refused(*refusal),
        })
    }
}
