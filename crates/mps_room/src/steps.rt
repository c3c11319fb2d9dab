//! Whose each step is, and where its entry stands.
ghost use Rattle.std.specs.Prelude.{◌≡◌, ◌==◌, ℕ, false, ◌++◌, ◌∷◌, [], OnOk};
ghost use Rattle.std.specs.Option.{option_and_then, option_map_or};
ghost use Rattle.mps_room.specs.Private.Owners.{owns, HasSpace};
ghost use Rattle.mps_room.specs.Private.Narrow.{place_of};

use mps_base::{Role, StepId};
use std::alloc::{AllocError, Global};

/// Of the steps that a number was given to, in the order of the numbers, whose each is and at which place of the
/// journal its entry stands.
#[derive(Drop)]
pub(crate) struct Steps {
    pub(crate) owners: Vec<u8>,
    pub(crate) places: Vec<u32>,
}

impl Steps {
    /// The index of a journal without steps. It does not allocate.
    pub(crate) fn new(alloc: Global) -> Steps
        ensures owners { result.owners.items ≡ [] }
        ensures places { result.places.items ≡ [] }
    {
        Steps {
            owners: Vec::new(alloc),
            places: Vec::new(alloc),
        }
    }

    /// Reserves memory for one more step. It asks first whether there is any, since most often there is, and `reserve`
    /// is a call. Out of memory is the only error; owners and places are unchanged then.
    #[inline(always)]
    pub(crate) fn reserve_one(&mut self) -> Result<(), AllocError>
        ensures owners { self.new.owners.items ≡ self.old.owners.items }
        ensures places { self.new.places.items ≡ self.old.places.items }
        ensures space { OnOk result (HasSpace self.new) }
    {
        if self.owners.len() == self.owners.capacity() {
            self.owners.reserve(1)?;
        }
        if self.places.len() == self.places.capacity() {
            self.places.reserve(1)?;
        }
        Ok(())
    }

    /// Appends a step, under the next number: its role, and the place of its entry in the journal. Memory was reserved,
    /// so it can't fail.
    #[inline(always)]
    pub(crate) fn push(&mut self, role: Role, place: u32)
        requires { HasSpace self.old }
        ensures owners { self.new.owners.items ≡ self.old.owners.items ++ role ∷ [] }
        ensures places { self.new.places.items ≡ self.old.places.items ++ place ∷ [] }
    {
        self.owners.push_reserved(role.index() as u8);
        self.places.push_reserved(place);
    }

    /// The role that did the step of that number, also of one taken back since; `None` where the number wasn't given
    /// out. O(1): numbers begin with 1.
    pub(crate) fn owner_of(&self, id: StepId) -> Option<Role>
        ensures { (p : ℕ) → owns self.now.owners.items p id ≡ option_map_or (λ owner. owner == p) result false }
    {
        let k = id.number().checked_sub(1)?;
        Some(Role::new(*self.owners.get(k as usize)?))
    }

    /// The place in the journal of the entry of the step of that number; `None` without a number, or where it wasn't
    /// given out. O(1): numbers begin with 1.
    #[inline(always)]
    pub(crate) fn place_of(&self, id: Option<StepId>) -> Option<u32>
        ensures { result ≡ option_and_then (place_of self.now.places.items) id }
    {
        let k = id?.number().checked_sub(1)?;
        Some(*self.places.get(k as usize)?)
    }
}
