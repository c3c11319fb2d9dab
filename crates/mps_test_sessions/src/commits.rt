//! mps_session: a commit stays, and so does all that it depends on.
//! Rows are a `Line` of `steps` each: a role is told the new step's number and what it took (`-`: nothing), or why not.
use crate::choices::giving;
use crate::rollbacks::TWO_PAIRS;
use crate::steps::Line::{Asks, Count, GoesBack, Keeps, Moves, RollsBack, Step, Undoes, Waits};
use crate::steps::{A, A_TO_B_TO_C, Ask, B, C, Line, opened, play, play_anew, role_of, types};
use mps_base::StepId;
use mps_command::Command;
use mps_session::*;
use std::alloc::AllocGlobal;
use std::process::Abort;

// Where a gives b ints, b settles what it took, and then a.
const SETTLED: &[Line] = &[
    Asks(A, Ask::Mark("m"), "1 -"),
    Asks(A, Ask::Send(B, "1"), "2 -"),
    Asks(B, Ask::Receive(A, "x"), "3 1"),
    Asks(B, Ask::Commit, "4 -"),
    // what would take back the commit 4, or is needed for it
    GoesBack(A, "m", "Final 4"),
    RollsBack(A, 1, "Final 4"),
    Undoes(A, 2, "Needed 3"),
    Undoes(B, 4, "Final 4"),
    Undoes(B, 3, "Needed 4"),
    Undoes(A, 4, "NotYours"),
    // of the commits 4 and 5 the least is named
    Asks(A, Ask::Commit, "5 -"),
    RollsBack(A, 1, "Final 4"),
    Count(5, 5),
    // the fourth step: number 4, b settled
    Step(3, "4 1 settled 1 -"),
    Moves("1 -; 2 1; 3 1; 4 -; 5 -; "),
    Keeps(B, "x", "1"),
];

// What comes after a commit goes as ever, and what stands in no relation to one.
const AFTER_A_COMMIT: &[Line] = &[
    Asks(A, Ask::Send(B, "1"), "1 -"),
    Asks(A, Ask::Commit, "2 -"),
    Asks(A, Ask::Mark("m"), "3 -"),
    // no step of a follows the mark
    GoesBack(A, "m", ""),
    Asks(A, Ask::Send(B, "2"), "4 -"),
    Asks(B, Ask::Receive(A, "x"), "5 1"),
    Asks(B, Ask::Receive(A, "y"), "6 2"),
    // the second int is taken back, and the first one received anew
    GoesBack(A, "m", "6 4 "),
    Waits(A, B, 0, "-"),
    RollsBack(B, 5, "5 "),
    Waits(A, B, 0, "1"),
    // the commit itself stays, and what it depends on
    RollsBack(A, 1, "Final 2"),
    Undoes(A, 3, "Ok"),
    Undoes(A, 2, "Final 2"),
    Count(2, 6),
];

// Of two commits the lesser number is named, whichever role's it is.
const THE_LEAST_IS_NAMED: &[Line] = &[
    Asks(A, Ask::Mark("m"), "1 -"),
    Asks(A, Ask::Send(B, "1"), "2 -"),
    Asks(B, Ask::Receive(A, "x"), "3 1"),
    Asks(B, Ask::Mark("k"), "4 -"),
    Asks(A, Ask::Commit, "5 -"),
    Asks(B, Ask::Commit, "6 -"),
    Asks(B, Ask::Commit, "7 -"),
    RollsBack(B, 3, "Final 6"),
    GoesBack(B, "k", "Final 6"),
    RollsBack(A, 2, "Final 5"),
    GoesBack(A, "m", "Final 5"),
    RollsBack(B, 7, "Final 7"),
    Count(7, 7),
];

// The lines come out as they are wanted where a gives b ints.
pub(super) fn play_giving(rt: &(impl Abort + AllocGlobal), lines: &[Line]) {
    let mut session = opened(rt, giving(rt));
    play(rt, &mut session, lines);
}

// `mps_session::Session::rollback`, `back` and `undo` refuse with `Final` to take back a commit, and name the least.
// Other steps go as ever.
#[test]
fn a_commit_is_never_taken_back(rt: HostRuntime) {
    play_giving(&rt, SETTLED);
    play_giving(&rt, AFTER_A_COMMIT);
    play_giving(&rt, THE_LEAST_IS_NAMED);
}

// A commit of a role that has nothing to do with the step.
const A_STRANGERS: &[Line] = &[
    Asks(C, Ask::Commit, "1 -"),
    Asks(A, Ask::Send(B, "1"), "2 -"),
    RollsBack(A, 2, "2 "),
    Count(1, 2),
];

// A commit at the end of a role's part.
const AT_THE_END: &[Line] = &[
    Asks(A, Ask::Send(B, "1"), "1 -"),
    Asks(A, Ask::Send(B, "2"), "Ended"),
    Asks(A, Ask::Commit, "2 -"),
    Undoes(A, 1, "Needed 2"),
    RollsBack(A, 1, "Final 2"),
];

// `mps_session::Session::forward` of a commit makes final what it depends on, and nothing else. A role may commit when
// its part has ended.
#[test]
fn a_commit_makes_final_only_what_it_depends_on(rt: HostRuntime) {
    play_anew(&rt, TWO_PAIRS, A_STRANGERS);
    play_anew(&rt, TWO_PAIRS, AT_THE_END);
}

// c commits at the end of the relay.
const RELAYED: &[Line] = &[
    Asks(A, Ask::Send(B, "5"), "1 -"),
    Asks(B, Ask::Receive(A, "x"), "2 5"),
    Asks(B, Ask::Send(C, "7"), "3 -"),
    Asks(C, Ask::Receive(B, "y"), "4 7"),
    Asks(C, Ask::Commit, "5 -"),
];

// All five steps are still there, and each rollback that reaches step 4 is refused.
const STILL_RELAYED: &[Line] = &[
    Count(5, 5),
    RollsBack(A, 1, "Final 5"),
    RollsBack(B, 3, "Final 5"),
    Count(5, 5),
];

// Whether `would` names the fifth step to a, which asks for a rollback of the first.
fn would_be_final(rt: &impl Abort, session: &mut Session) -> bool {
    let role = role_of(rt, session, A);
    let by = StepId::new(5);
    session.would(role, &Command::Rollback(StepId::new(1))) == Err(Refusal::Final { by })
}

// `mps_session::Session::would` names the commit, and marks nothing: the rollback is refused as before.
#[test]
fn would_names_the_commit_and_changes_nothing(rt: HostRuntime) {
    let mut session = opened(&rt, types(&rt, A_TO_B_TO_C));
    play(&rt, &mut session, RELAYED);
    assert!(rt;
        would_be_final(&rt, &mut session),
        "would names the commit 5"
    );
    play(&rt, &mut session, STILL_RELAYED);
}
