//! mps_session: a rollback or a return to a mark takes back what depends on the step, and nothing else.
//! Rows are a `Line` of `steps` each: a role is told the new step's number and what it took (`-`: nothing), or why not.
use crate::choices::{ask_often, giving, looping};
use crate::commits::play_giving;
use crate::steps::Line::{Asks, Count, GoesBack, Keeps, Moves, RollsBack, Undoes, Waits};
use crate::steps::{
    A, A_TO_B_TO_C, Ask, B, C, FROM_A, Line, Row, TO_B, opened, play, play_anew, role_of,
};
use mps_base::{Sort, StepId};
use mps_session::*;
use std::process::Abort;

const D: u8 = 3;

// Each step depends on the first. a may send again, and the next number is 5.
const ALL: &[Line] = &[
    Asks(A, Ask::Send(B, "5"), "1 -"),
    Asks(B, Ask::Receive(A, "x"), "2 5"),
    Asks(B, Ask::Send(C, "7"), "3 -"),
    Asks(C, Ask::Receive(B, "y"), "4 7"),
    RollsBack(A, 1, "4 3 2 1 "),
    Count(0, 4),
    Keeps(B, "x", "-"),
    Keeps(C, "y", "-"),
    Asks(A, Ask::Send(B, "6"), "5 -"),
];

// From b's receipt on: what a sent waits again, and can be received again.
const ALL_BUT_THE_SEND: &[Line] = &[
    Asks(A, Ask::Send(B, "5"), "1 -"),
    Asks(B, Ask::Receive(A, "x"), "2 5"),
    Asks(B, Ask::Send(C, "7"), "3 -"),
    Asks(C, Ask::Receive(B, "y"), "4 7"),
    RollsBack(B, 2, "4 3 2 "),
    Waits(A, B, 0, "5"),
    Moves("1 5; "),
    Asks(B, Ask::Receive(A, "x"), "5 5"),
];

// A role takes back its own surviving steps alone.
const WHOSE: &[Line] = &[
    Asks(A, Ask::Send(B, "5"), "1 -"),
    Asks(B, Ask::Receive(A, "x"), "2 5"),
    RollsBack(A, 3, "NoStep"),
    RollsBack(B, 1, "NotYours"),
    RollsBack(A, 2, "NotYours"),
    RollsBack(C, 1, "NotYours"),
    Count(2, 2),
    RollsBack(B, 2, "2 "),
    RollsBack(B, 2, "NoStep"),
    Count(1, 2),
];

// What is played where a gives b an int, and b one to c.
const RELAYED: &[&[Line]] = &[ALL, ALL_BUT_THE_SEND, WHOSE];

// `mps_session::Session::rollback` removes just the step and all that depend on it, newest first, or says why not.
#[test]
fn a_rollback_takes_just_the_step_and_what_depends_on_it(rt: HostRuntime) {
    for lines in RELAYED {
        play_anew(&rt, A_TO_B_TO_C, lines);
    }
}

// a gives b an int, and c gives d one.
pub(super) const TWO_PAIRS: &[&[Row]] = &[
    &[TO_B],
    &[FROM_A],
    &[(true, D, Sort::Int)],
    &[(false, C, Sort::Int)],
];

// Steps 2 and 4 of the other pair stay, and d keeps what it received.
const STRANGERS_STAY: &[Line] = &[
    Asks(A, Ask::Send(B, "1"), "1 -"),
    Asks(C, Ask::Send(D, "2"), "2 -"),
    Asks(B, Ask::Receive(A, "x"), "3 1"),
    Asks(D, Ask::Receive(C, "y"), "4 2"),
    RollsBack(A, 1, "3 1 "),
    Moves("2 2; 4 2; "),
    Keeps(D, "y", "2"),
];

// `mps_session::Session::rollback` leaves steps that don't depend on the one taken back, also those with numbers in
// between.
#[test]
fn a_rollback_leaves_steps_that_do_not_depend(rt: HostRuntime) {
    play_anew(&rt, TWO_PAIRS, STRANGERS_STAY);
}

// A return takes back what follows the mark, which stays, so a second return takes nothing. Marks are a role's own.
const TO_THE_MARK: &[Line] = &[
    GoesBack(A, "m", "NoMark"),
    Asks(A, Ask::Mark("m"), "1 -"),
    GoesBack(A, "m", ""),
    Asks(A, Ask::Send(B, "1"), "2 -"),
    Asks(B, Ask::Receive(A, "x"), "3 1"),
    GoesBack(B, "m", "NoMark"),
    GoesBack(A, "m", "3 2 "),
    GoesBack(A, "m", ""),
    Undoes(A, 1, "Ok"),
    GoesBack(A, "m", "NoMark"),
];

// a marks m, k and m again: a return goes to the last surviving mark of the name.
const TO_THE_LAST_MARK: &[Line] = &[
    Asks(A, Ask::Mark("m"), "1 -"),
    Asks(A, Ask::Send(B, "1"), "2 -"),
    Asks(A, Ask::Mark("k"), "3 -"),
    Asks(A, Ask::Mark("m"), "4 -"),
    Asks(A, Ask::Send(B, "2"), "5 -"),
    Asks(B, Ask::Mark("m"), "6 -"),
    GoesBack(B, "k", "NoMark"),
    GoesBack(A, "m", "5 "),
    GoesBack(A, "k", "4 "),
    GoesBack(A, "m", "3 2 "),
    GoesBack(A, "k", "NoMark"),
    GoesBack(B, "m", ""),
    Moves("1 -; 6 -; "),
];

// What is played where a gives b ints.
const MARKED: &[&[Line]] = &[TO_THE_MARK, TO_THE_LAST_MARK];

// `mps_session::Session::back` is the rollback of the role's first step after its last mark of that name, or `NoMark`.
#[test]
fn a_return_goes_to_the_last_mark_of_the_name(rt: HostRuntime) {
    for lines in MARKED {
        play_giving(&rt, lines);
    }
}

// b's pick is taken back, and then a's choice, so a may choose the other branch.
const OTHER_BRANCH: &[Line] = &[
    Asks(A, Ask::Choose(B, "go"), "1 -"),
    Asks(B, Ask::Pick(A), "2 go"),
    Asks(B, Ask::Send(A, "\"good day\""), "3 -"),
    Asks(A, Ask::Receive(B, "w"), "4 \"good day\""),
    RollsBack(B, 2, "4 3 2 "),
    Waits(A, B, 0, "go"),
    RollsBack(A, 1, "1 "),
    Asks(A, Ask::Choose(B, "stop"), "5 -"),
    Asks(B, Ask::Pick(A), "6 stop"),
    Asks(B, Ask::Pick(A), "Ended"),
];

// `mps_session::Session::rollback` of a pick: the label waits again. Of a choice: another one may be made.
#[test]
fn a_choice_rolled_back_can_be_made_anew(rt: HostRuntime) {
    let mut session = opened(&rt, looping(&rt));
    play(&rt, &mut session, OTHER_BRANCH);
}

// 500 messages wait, at the places 0 to 499, and 1,000 numbers were given out.
const HALF: &[Line] = &[
    Waits(A, B, 499, "1"),
    Waits(A, B, 500, "-"),
    Count(500, 1000),
];

// Whether there are 500 numbers, from 1000 down to 501.
fn are_upper_half(ids: &StepIds) -> bool {
    match ids.as_slice() {
        [first, .., last] => {
            ids.as_slice().len() == 500 && first.number() == 1000 && last.number() == 501
        }
        _ => false,
    }
}

// Whether a takes the upper half of its thousand steps back.
fn takes_half_back(rt: &impl Abort, session: &mut Session) -> bool {
    match session.rollback(role_of(rt, session, A), StepId::new(501)) {
        Ok(ids) => are_upper_half(&ids),
        Err(_) => false,
    }
}

// `mps_session::Session::rollback`: of 1,000 sends of one role those from 501 on are taken back, newest first.
#[test]
fn a_rollback_takes_the_upper_half_of_a_thousand_sends(rt: HostRuntime) {
    let mut session = opened(&rt, giving(&rt));
    ask_often(&rt, &mut session, A, Ask::Send(B, "1"), 1000);
    assert!(rt;
        takes_half_back(&rt, &mut session),
        "500 steps, from 1000 down to 501"
    );
    play(&rt, &mut session, HALF);
}
