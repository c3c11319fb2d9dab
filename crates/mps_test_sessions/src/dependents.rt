//! mps_links: the least step that depends on another, all that do, and the least commit among them.
ghost use Rattle.std.specs.Prelude.{◌≡◌, ◌<◌, [], IsTrue, IsSome};
ghost use Rattle.mps_history.specs.Steps.{step_of};
ghost use Rattle.mps_arena.specs.KeyedSteps.{steps};
ghost use Rattle.mps_arena.specs.Neighbours.{first_waiting};
ghost use Rattle.mps_links.specs.Marks.{marked_keys, AreMarksClosed};

use mps_arena::{Arena, Before, Key};
use mps_base::{Act, Message, Name, Role, StepId};
use mps_links::*;
use std::alloc::AllocGlobal;
use std::process::Abort;

// The roles by their places.
const A: u8 = 0;

const B: u8 = 1;

const C: u8 = 2;

const H: u8 = 7;

// What a role does: the role, and its peer.
#[derive(Clone, Copy)]
enum Deed {
    Gives(u8, u8),
    Takes(u8, u8),
    Marks(u8),
    Commits(u8),
}

use Deed::{Commits, Gives, Marks, Takes};

// The first send of the pair that isn't received.
fn first_waiting(arena: &Arena, from: Role, to: Role) -> Option<Key>
    requires from { from < 8 }
    requires to { to < 8 }
    ensures { result ≡ first_waiting arena.now.keyed_steps from to }
{
    let mut first = None;
    let mut at = arena.last_send(from, to);
    for _ in 0..arena.len() {
        let Some(key) = at else {
            return first;
        };
        if arena.receipt(key).is_some() {
            return first;
        }
        first = at;
        at = arena.prev_send(key);
    }
    first
}

// Puts the step of the deed after all others.
fn add(rt: &(impl Abort + AllocGlobal), arena: &mut Arena, deed: Deed)
    requires none { marked_keys arena.old.keyed_steps ≡ [] }
    ensures none { marked_keys arena.new.keyed_steps ≡ [] }
{
    arena.reserve_one().expect(rt, "memory");
    let before = Before { at: 0, bound: None };
    let name = Name::read(b"x").expect(rt, "a name");
    let (Gives(role, _) | Takes(role, _) | Marks(role) | Commits(role)) = deed;
    assert!(rt; role < 8, "one of 8 roles");
    let role = Role::new(role);
    match deed {
        Gives(_, to) => {
            assert!(rt; to < 8, "one of 8 roles");
            let act = Act::Out {
                to: Role::new(to),
                message: Message::Label(name),
            };
            arena.add(role, act, before, None);
        }
        Takes(_, from) => {
            assert!(rt; from < 8, "one of 8 roles");
            let from = Role::new(from);
            let source = first_waiting(arena, from, role);
            assert!(rt; source.is_some(), "a message waits");
            let act = Act::In { from, slot: None };
            arena.add(role, act, before, source);
        }
        Marks(_) => {
            let act = Act::Mark(name);
            arena.add(role, act, before, None);
        }
        Commits(_) => {
            arena.add(role, Act::Commit, before, None);
        }
    }
}

// The arena of these deeds.
fn play(rt: &(impl Abort + AllocGlobal), deeds: &[Deed]) -> Arena
    ensures none { marked_keys result.keyed_steps ≡ [] }
{
    let mut arena = Arena::new(rt.alloc());
    for deed in deeds {
        add(rt, &mut arena, *deed);
    }
    arena
}

// The number of a step that is there.
fn present(rt: &impl Abort, arena: &Arena, number: u64) -> StepId
    ensures { IsSome (step_of (steps arena.now.keyed_steps) result) }
{
    let id = StepId::new(number);
    arena.by_id(id).expect(rt, "a step");
    id
}

// Marks what depends on the step, and takes the marked steps out: their numbers, the newest first.
fn undo(rt: &(impl Abort + AllocGlobal), arena: &mut Arena, number: u64) -> Vec<u64>
    requires none { marked_keys arena.old.keyed_steps ≡ [] }
{
    let id = present(rt, arena, number);
    let count = mark_from(arena, id);
    let mut gone = Vec::new(rt.alloc());
    for _ in 0..count {
        marks_stay_closed();
        assert!(rt; arena.len() > 0, "a step is left");
        let key = newest_marked(arena).expect(rt, "a marked step");
        gone.push(arena.remove(key).id.number())
            .expect(rt, "memory");
    }
    assert!(rt; newest_marked(arena).is_none(), "no marked step is left");
    gone
}

// Each step depends on the one before.
const CHAIN: &[Deed] = &[Gives(A, B), Takes(B, A), Gives(B, C), Takes(C, B)];

// b takes the first of two messages: steps 2 and 3 depend on 1, and nothing on 2 or 3.
const TWO_SENDS: &[Deed] = &[Gives(A, B), Gives(A, B), Takes(B, A)];

// Both the receipt 2 and the send 3 depend on 1.
const SENT_AGAIN: &[Deed] = &[Gives(A, B), Takes(B, A), Gives(A, B)];

// Two pairs that have nothing to do with each other: 3 depends on 1, 4 on 2.
const TWO_PAIRS: &[Deed] = &[Gives(A, B), Gives(C, H), Takes(B, A), Takes(H, C)];

// Marks are steps of their role: 4 depends on 2 and on the mark 3, and h's mark 6 on nothing.
const WITH_MARKS: &[Deed] = &[
    Marks(A),
    Gives(A, B),
    Marks(B),
    Takes(B, A),
    Marks(B),
    Marks(H),
];

// Two ways from a to h.
const TWO_WAYS: &[Deed] = &[
    Gives(A, B),
    Gives(A, C),
    Takes(B, A),
    Takes(C, A),
    Gives(B, H),
    Gives(C, H),
    Takes(H, B),
    Takes(H, C),
];

// What was done, a step, and the least step that depends on it; 0 where there is none.
const LEAST: &[(&[Deed], u64, u64)] = &[
    // the receipt, the next step of the role, or none
    (CHAIN, 1, 2),
    (CHAIN, 2, 3),
    (CHAIN, 4, 0),
    // the next send comes before the receipt, or the receipt before the next send
    (TWO_SENDS, 1, 2),
    (TWO_SENDS, 2, 0),
    (SENT_AGAIN, 1, 2),
    // not step 3, which is of the other pair
    (TWO_PAIRS, 2, 4),
    // marks, as steps of their roles
    (WITH_MARKS, 1, 2),
    (WITH_MARKS, 2, 4),
    (WITH_MARKS, 3, 4),
    (WITH_MARKS, 6, 0),
    // not step 3, which received step 1
    (TWO_WAYS, 2, 4),
];

// The least step that depends on this one after these deeds; 0 where there is none.
fn least_after(rt: &(impl Abort + AllocGlobal), deeds: &[Deed], number: u64) -> u64 {
    let arena = play(rt, deeds);
    match least_dependent(&arena, present(rt, &arena, number)) {
        Some(id) => id.number(),
        None => 0,
    }
}

// `mps_links::least_dependent` finds the least number of another step that depends on this one.
#[test]
fn the_least_step_that_depends_is_found(rt: HostRuntime) {
    for (deeds, number, want) in LEAST {
        assert_eq!(&rt; least_after(&rt, deeds, *number), *want, "of {number}");
    }
}

// What was done, a step, and the steps that go where it is taken back.
const REMOVED: &[(&[Deed], u64, &[u64])] = &[
    // a step and all behind it
    (CHAIN, 1, &[4, 3, 2, 1]),
    (CHAIN, 2, &[4, 3, 2]),
    (CHAIN, 4, &[4]),
    // a send that wasn't received goes alone
    (TWO_SENDS, 1, &[3, 2, 1]),
    (TWO_SENDS, 2, &[2]),
    // the other pair stays
    (TWO_PAIRS, 1, &[3, 1]),
    (TWO_PAIRS, 2, &[4, 2]),
    // b's mark 3 stays, or goes with what b did after it; h's mark stays
    (WITH_MARKS, 1, &[5, 4, 2, 1]),
    (WITH_MARKS, 3, &[5, 4, 3]),
    // by c's way alone; by b's, and h's step after it
    (TWO_WAYS, 2, &[8, 6, 4, 2]),
    (TWO_WAYS, 3, &[8, 7, 5, 3]),
];

// These go after the deeds where the step of that number is taken back, and no others.
fn removes(rt: &(impl Abort + AllocGlobal), deeds: &[Deed], number: u64, want: &[u64]) {
    let mut arena = play(rt, deeds);
    let gone = undo(rt, &mut arena, number);
    assert_eq!(rt; gone.as_slice(), want, "from {number}");
    assert_eq!(rt;
        arena.len(),
        deeds.len().saturating_sub(gone.len()),
        "what is left from {number}"
    );
}

// `mps_links::mark_from` marks just the step and all that depend on it. `newest_marked` gives them so that each can be
// removed.
#[test]
fn just_the_step_and_what_depends_on_it_go(rt: HostRuntime) {
    for (deeds, number, want) in REMOVED {
        removes(&rt, deeds, *number, want);
    }
}

// What was done, a step from which marks are set and unset, another step, and what goes where that one is taken back.
const UNMARKED: &[(&[Deed], u64, u64, &[u64])] = &[
    (CHAIN, 1, 4, &[4]),
    (TWO_PAIRS, 1, 2, &[4, 2]),
    (TWO_WAYS, 3, 2, &[8, 6, 4, 2]),
];

// What goes after the deeds where the second step is taken back, once marks from the first are unset.
fn gone_unmarked(
    rt: &(impl Abort + AllocGlobal),
    deeds: &[Deed],
    first: u64,
    second: u64,
) -> Vec<u64> {
    let mut arena = play(rt, deeds);
    let id = present(rt, &arena, first);
    mark_from(&mut arena, id);
    unmark(&mut arena);
    undo(rt, &mut arena, second)
}

// `mps_links::unmark` takes all marks off: afterwards just the second step and what depends on it are marked and go.
#[test]
fn unmark_leaves_no_mark(rt: HostRuntime) {
    for (deeds, first, second, want) in UNMARKED {
        let gone = gone_unmarked(&rt, deeds, *first, *second);
        assert_eq!(&rt; gone.as_slice(), *want, "from {second}");
    }
}

// Commits of all, before, between and after what a gives b and b gives h. Commit 1 of c depends on nothing.
const SETTLED: &[Deed] = &[
    Commits(C),
    Gives(A, B),
    Takes(B, A),
    Commits(H),
    Commits(B),
    Gives(B, H),
    Commits(B),
    Takes(H, B),
    Commits(H),
    Commits(A),
];

// The least commit among the step and all that depend on it; 0 where there is none. Marks are set for it, and unset.
fn least_from(rt: &(impl Abort + AllocGlobal), arena: &mut Arena, number: u64) -> u64
    requires none { marked_keys arena.old.keyed_steps ≡ [] }
    ensures none { marked_keys arena.new.keyed_steps ≡ [] }
{
    let id = present(rt, arena, number);
    mark_from(arena, id);
    let least = least_final(arena);
    unmark(arena);
    match least {
        Some(id) => id.number(),
        None => 0,
    }
}

// What was done, a step, and the least commit among it and what depends on it; 0 where there is none.
const COMMITS: &[(&[Deed], u64, u64)] = &[
    // no commit
    (CHAIN, 1, 0),
    (WITH_MARKS, 1, 0),
    // the commit itself, on which nothing depends
    (SETTLED, 1, 1),
    // b's first commit, after its receipt
    (SETTLED, 2, 5),
    (SETTLED, 3, 5),
    // the commit itself, before h's second one
    (SETTLED, 4, 4),
    // what comes after b's second send: its next commit, and then h's
    (SETTLED, 6, 7),
    (SETTLED, 8, 9),
    (SETTLED, 9, 9),
    // a's commit itself
    (SETTLED, 10, 10),
];

// The least commit among the step and all that depend on it, after these deeds; 0 where there is none.
fn least_commit(rt: &(impl Abort + AllocGlobal), deeds: &[Deed], number: u64) -> u64 {
    let mut arena = play(rt, deeds);
    least_from(rt, &mut arena, number)
}

// `mps_links::least_final` finds the least number of a marked commit, where a step and all that depend on it are
// marked.
#[test]
fn the_least_marked_commit_is_found(rt: HostRuntime) {
    for (deeds, number, want) in COMMITS {
        assert_eq!(&rt; least_commit(&rt, deeds, *number), *want, "from {number}");
    }
}

// A history of that many steps: 500 messages from b to c, and then marks of a. Of the first 1,000 steps the last so
// many depend on their first.
fn marks_at(rt: &(impl Abort + AllocGlobal), marked: u64, steps: u64) {
    let mut arena = Arena::new(rt.alloc());
    for _ in 0..500_u64 {
        add(rt, &mut arena, Gives(B, C));
        add(rt, &mut arena, Takes(C, B));
    }
    for _ in 1000..steps {
        add(rt, &mut arena, Marks(A));
    }
    let from = present(rt, &arena, 1001_u64.saturating_sub(marked));
    assert_eq!(rt;
        mark_from(&mut arena, from) as u64,
        marked,
        "the count of marked steps"
    );
}

// `mps_links::mark_from` marks 10 steps, whatever the others are. `bench/marks` counts what it costs among 10,000.
#[test]
fn mark_from_marks_10_of_10_000(rt: HostRuntime) {
    marks_at(&rt, 10, 10_000);
}

// `mps_links::mark_from` marks 100 steps, whatever the others are. `bench/marks` counts what it costs among 10,000.
#[test]
fn mark_from_marks_100_of_10_000(rt: HostRuntime) {
    marks_at(&rt, 100, 10_000);
}

// `mps_links::mark_from` marks 1,000 steps, whatever the others are. `bench/marks` counts what it costs among 10,000.
#[test]
fn mark_from_marks_1_000_of_10_000(rt: HostRuntime) {
    marks_at(&rt, 1_000, 10_000);
}

// `mps_links::mark_from` marks 10 steps, whatever the others are. `bench/marks` counts what it costs among 100,000.
#[test]
fn mark_from_marks_10_of_100_000(rt: HostRuntime) {
    marks_at(&rt, 10, 100_000);
}

// `mps_links::mark_from` marks 100 steps, whatever the others are. `bench/marks` counts what it costs among 100,000.
#[test]
fn mark_from_marks_100_of_100_000(rt: HostRuntime) {
    marks_at(&rt, 100, 100_000);
}

// `mps_links::mark_from` marks 1,000 steps, whatever the others are. `bench/marks` counts what it costs among 100,000.
#[test]
fn mark_from_marks_1_000_of_100_000(rt: HostRuntime) {
    marks_at(&rt, 1_000, 100_000);
}
