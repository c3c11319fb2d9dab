//! What others took back.
ghost use Rattle.std.specs.Prelude.{◌≡◌, ◌++◌, ℕ, ◌<◌, ◌≤◌, List, IfOk, OnOk};
ghost use Rattle.std.specs.List.{filter, AllByRecursion};
ghost use Rattle.mps_room.specs.Journal.{is_own, news};
ghost use Rattle.mps_room.specs.Private.Heard.{places, undone_at};
ghost use Rattle.mps_room.specs.Private.Owners.{owns};
ghost use Rattle.mps_room.specs.Private.Narrow.{journal_of};

use crate::journal::Journal;
use crate::steps::Steps;
use mps_base::{Role, StepId};
use std::alloc::{AllocError, Global};

/// The numbers of the role's steps that entries of other roles took back, after the first `known` entries, oldest entry
/// first. Only the entries of `heard` are visited: a binary search, and then O(their steps). It fails only when out of
/// memory.
pub(crate) fn news(
    alloc: Global,
    journal: &Journal,
    steps: &Steps,
    heard: &[u32],
    role: Role,
    known: u64,
) -> Result<Vec<StepId>, AllocError>
    requires owned { (p n : ℕ) → is_own (journal_of journal.now.entries) p n ≡ owns steps.now.owners.items p n }
    requires heard { heard.now ≡ places (journal_of journal.now.entries) role }
    ensures { IfOk result (λ ids. ids.items ≡ news (journal_of journal.now.entries) role known) }
{
    let mut ids = Vec::new(alloc);
    let told = after(heard, known);
    for place in told {
        push_own(steps, role, undone_at(journal, *place), &mut ids)?;
    }
    Ok(ids)
}

// The places from `known` on, of places that rise: found by binary search, O(log places).
fn after(places: &[u32], known: u64) -> &[u32]
    ensures { (early late : List ℕ) → places.now ≡ early ++ late → AllByRecursion (λ k. k < known) early
        → AllByRecursion (λ k. known ≤ k) late → result.now ≡ late }
{
    let first = places.partition_point(|place| u64::from(*place) < known);
    &places[first..]
}

// The numbers of the steps that the entry at this place took back, borrowed; none where it is a new step, or there is no such
// entry. Apart, since the journal doesn't know the messages that receipts took.
#[tactic(auto, using(crate::proofs::Tracing::undone_alike))]
fn undone_at(journal: &Journal, place: u32) -> &[StepId]
    ensures { result.now ≡ undone_at (journal_of journal.now.entries) place }
{
    journal.undone_at(place)
}

// Appends those of the numbers that are of the role's steps. When out of memory some may be appended; the list is
// dropped then.
fn push_own(
    steps: &Steps,
    role: Role,
    ids: &[StepId],
    out: &mut Vec<StepId>,
) -> Result<(), AllocError>
    ensures { OnOk result (out.new.items ≡ out.old.items ++ filter (owns steps.now.owners.items role) ids.now) }
{
    for id in ids {
        if owns(steps, role, *id) {
            out.push(*id)?;
        }
    }
    Ok(())
}

// Whether the step of that number is the role's; no role owns a number that wasn't given out. O(1).
fn owns(steps: &Steps, role: Role, id: StepId) -> bool
    ensures { result ≡ owns steps.now.owners.items role id }
{
    steps.owner_of(id).is_some_and(|owner| owner.is(role))
}
