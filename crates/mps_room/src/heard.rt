//! What each role hears of: the entries in which another role took back steps of its own.
ghost use Rattle.std.specs.Prelude.{◌≡◌, ◌≢◌, ℕ, ◌+◌, ◌<◌, ◌≤◌, ◌==◌, [], ◌∷◌, ◌++◌, false, map, length, vec_len};
ghost use Rattle.std.specs.Prelude.{vec_capacity, slice_index_or, OnOk};
ghost use Rattle.std.specs.List.{list_any};
ghost use Rattle.mps_room.specs.Private.Heard.{hears, with_place};
ghost use Rattle.mps_room.specs.Private.Owners.{owns};

use crate::steps::Steps;
use mps_base::{Role, StepId};
use std::alloc::{AllocError, Global};

/// For each role a list of the places of the entries that it hears of, in order.
#[derive(Drop)]
pub(crate) struct Heard {
    pub(crate) lists: [Vec<u32>; 8],
    // how many roles there are
    pub(crate) count: usize,
}

impl Heard {
    /// Empty lists for `count` roles, 2 to 8. It does not allocate.
    pub(crate) fn new(alloc: Global, count: usize) -> Heard
        ensures count { result.count ≡ count }
        ensures each { length result.lists ≡ 8 }
        ensures lists { (p : ℕ) → slice_index_or (map (λ l. l.items) result.lists) p [] ≡ [] }
    {
        Heard {
            lists: [
                Vec::new(alloc),
                Vec::new(alloc),
                Vec::new(alloc),
                Vec::new(alloc),
                Vec::new(alloc),
                Vec::new(alloc),
                Vec::new(alloc),
                Vec::new(alloc),
            ],
            count,
        }
    }

    /// The places, in the journal and in order, of the entries in which others took back steps of the role; empty for a
    /// role that isn't there. O(1).
    pub(crate) fn list(&self, role: Role) -> &[u32]
        requires few { self.now.count ≤ 8 }
        requires each { length self.now.lists ≡ 8 }
        ensures role { role < self.now.count
            → result.now ≡ slice_index_or (map (λ l. l.items) self.now.lists) role [] }
        ensures none { self.now.count ≤ role → result.now ≡ [] }
    {
        if role.index() >= self.count {
            return &[];
        }
        self.lists[role.index()].as_slice()
    }

    /// Reserves memory for one more place in the list of each role but the asker, since the command may take back steps
    /// of any. Out of memory is the only error: some lists may have more capacity then, and none has another content.
    #[inline(never)]
    pub(crate) fn reserve(&mut self, asker: Role) -> Result<(), AllocError>
        requires few { self.old.count ≤ 8 }
        requires each { length self.old.lists ≡ 8 }
        ensures count { self.new.count ≡ self.old.count }
        ensures each { length self.new.lists ≡ 8 }
        ensures lists { map (λ l. l.items) self.new.lists ≡ map (λ l. l.items) self.old.lists }
        ensures space { OnOk result ((k : ℕ) (d : _) → k < self.old.count → k ≢ asker
            → vec_len (slice_index_or self.new.lists k d) < vec_capacity (slice_index_or self.new.lists k d)) }
    {
        for k in 0..self.count {
            if k != asker.index() {
                reserve_at(&mut self.lists, k)?;
            }
        }
        Ok(())
    }

    /// Appends the place of an entry to the list of each role but the asker of whose steps one was taken back. Memory
    /// was reserved, so it can't fail.
    #[inline(never)]
    pub(crate) fn note(&mut self, steps: &Steps, asker: Role, ids: &[StepId], place: u32)
        requires few { self.old.count ≤ 8 }
        requires each { length self.old.lists ≡ 8 }
        requires space { (k : ℕ) (d : _) → k < self.old.count → k ≢ asker
            → vec_len (slice_index_or self.old.lists k d) < vec_capacity (slice_index_or self.old.lists k d) }
        ensures count { self.new.count ≡ self.old.count }
        ensures each { length self.new.lists ≡ 8 }
        ensures lists { (p : ℕ) (d : _) → p < self.old.count → (slice_index_or self.new.lists p d).items
            ≡ with_place (hears (owns steps.now.owners.items p) p asker ids.now) place
            (slice_index_or self.old.lists p d).items }
    {
        let lost = losers(steps, ids);
        for k in 0..self.count {
            if lost[k] && k != asker.index() {
                push_at(&mut self.lists, k, place);
            }
        }
    }
}

// Reserves memory for one more place in the list at `k`. Apart, so that its contract says that the other lists stay.
fn reserve_at(lists: &mut [Vec<u32>; 8], k: usize) -> Result<(), AllocError>
    requires { k < length lists.old }
    ensures each { length lists.new ≡ length lists.old }
    ensures here { (d : _) → (slice_index_or lists.new k d).items ≡ (slice_index_or lists.old k d).items }
    ensures others { (i : ℕ) (d : _) → i ≢ k → slice_index_or lists.new i d ≡ slice_index_or lists.old i d }
    ensures space { OnOk result
        ((d : _) → vec_len (slice_index_or lists.new k d) < vec_capacity (slice_index_or lists.new k d)) }
{
    lists[k].reserve(1)
}

// Appends a place to the list at `k`, which has space for it. Apart, so that its contract says that the other lists
// stay.
fn push_at(lists: &mut [Vec<u32>; 8], k: usize, place: u32)
    requires list { k < length lists.old }
    requires space { (d : _) → vec_len (slice_index_or lists.old k d) < vec_capacity (slice_index_or lists.old k d) }
    ensures each { length lists.new ≡ length lists.old }
    ensures here { (d : _) → (slice_index_or lists.new k d).items ≡ (slice_index_or lists.old k d).items ++ place ∷ [] }
    ensures others { (i : ℕ) (d : _) → i ≢ k → slice_index_or lists.new i d ≡ slice_index_or lists.old i d }
{
    lists[k].push_reserved(place);
}

// For each of 8 roles whether one of these steps is its own. O(steps given); it does not allocate.
fn losers(steps: &Steps, ids: &[StepId]) -> [bool; 8]
    ensures { (p : ℕ) → p < 8 → slice_index_or result p false ≡ list_any (owns steps.now.owners.items p) ids.now }
{
    let mut lost = [false; 8];
    for id in ids {
        if let Some(owner) = steps.owner_of(*id) {
            // the owners of a room are below 8, which isn't asked of these
            let place = owner.index();
            if place < 8 {
                lost[place] = true;
            }
        }
    }
    lost
}
