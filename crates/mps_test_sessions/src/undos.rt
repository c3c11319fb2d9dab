//! mps_session: an undo removes a step on which none depends, and else names the least that does.
//! Rows are a `Line` of `steps` each: a role is told the new step's number and what it took (`-`: nothing), or why not.
use crate::choices::{ask_often, giving, looping};
use crate::commits::play_giving;
use crate::steps::Line::{Asks, Count, Keeps, Moves, Undoes, Waits};
use crate::steps::{
    A, A_TO_B_TO_C, Ask, B, C, FROM_A, Line, Row, TO_B, answer, opened, play, play_anew, undone,
};
use mps_session::*;
use std::alloc::AllocGlobal;
use std::process::Abort;

// A send can be undone once its receipt is. Slot and queue are as before then.
const WAITS_FOR_THE_RECEIPT: &[Line] = &[
    Asks(A, Ask::Send(B, "5"), "1 -"),
    Asks(B, Ask::Receive(A, "x"), "2 5"),
    Undoes(A, 1, "Needed 2"),
    Count(2, 2),
    Keeps(B, "x", "5"),
    Undoes(B, 2, "Ok"),
    Keeps(B, "x", "-"),
    Waits(A, B, 0, "5"),
    Undoes(A, 1, "Ok"),
    Waits(A, B, 0, "-"),
    Count(0, 2),
];

// Steps that aren't there, and steps of another role, which is told before what depends on them.
const BY_NAME: &[Line] = &[
    Asks(B, Ask::Receive(A, "x"), "NothingQueued"),
    Asks(A, Ask::Receive(B, "x"), "WrongAct"),
    Asks(A, Ask::Send(C, "5"), "WrongPeer"),
    Asks(A, Ask::Send(B, "true"), "WrongSort"),
    Undoes(B, 7, "NoStep"),
    Undoes(B, 0, "NoStep"),
    Asks(A, Ask::Send(B, "5"), "1 -"),
    Undoes(B, 1, "NotYours"),
    Asks(B, Ask::Receive(A, "x"), "2 5"),
    // whether others depend on it or not
    Undoes(C, 1, "NotYours"),
    Undoes(A, 2, "NotYours"),
    Undoes(A, 3, "NoStep"),
    Count(2, 2),
];

// What is played where a gives b an int, and b one to c.
const RELAYED: &[&[Line]] = &[WAITS_FOR_THE_RECEIPT, BY_NAME];

// `mps_session::Session::undo` removes a role's own surviving step on which no other depends, or says why not and
// changes nothing.
#[test]
fn an_undo_takes_a_step_on_which_none_depends(rt: HostRuntime) {
    for lines in RELAYED {
        play_anew(&rt, A_TO_B_TO_C, lines);
    }
}

// a gives b two ints.
const TWICE: &[&[Row]] = &[&[TO_B, TO_B], &[FROM_A, FROM_A]];

// A message whose receipt is undone waits in front of the other.
const TO_THE_FRONT: &[Line] = &[
    Asks(A, Ask::Send(B, "1"), "1 -"),
    Asks(A, Ask::Send(B, "2"), "2 -"),
    Asks(B, Ask::Receive(A, "x"), "3 1"),
    Undoes(B, 3, "Ok"),
    Asks(B, Ask::Receive(A, "x"), "4 1"),
];

// A message whose send is undone waits no more.
const GONE: &[Line] = &[
    Asks(A, Ask::Send(B, "1"), "1 -"),
    Asks(B, Ask::Receive(A, "x"), "2 1"),
    Undoes(B, 2, "Ok"),
    Undoes(A, 1, "Ok"),
    Asks(A, Ask::Send(B, "9"), "3 -"),
    Asks(B, Ask::Receive(A, "x"), "4 9"),
];

// A slot is bound to what it was before its newest receipt.
const BOUND_AS_BEFORE: &[Line] = &[
    Asks(A, Ask::Send(B, "1"), "1 -"),
    Asks(A, Ask::Send(B, "2"), "2 -"),
    Asks(B, Ask::Receive(A, "x"), "3 1"),
    Asks(B, Ask::Receive(A, "x"), "4 2"),
    Keeps(B, "x", "2"),
    Undoes(B, 4, "Ok"),
    Keeps(B, "x", "1"),
    Waits(A, B, 0, "2"),
    Waits(A, B, 1, "-"),
];

// Both the next send, 2, and the receipt, 3, depend on step 1.
const NEEDED_BY_A_SEND: &[Line] = &[
    Asks(A, Ask::Send(B, "1"), "1 -"),
    Asks(A, Ask::Send(B, "2"), "2 -"),
    Asks(B, Ask::Receive(A, "x"), "3 1"),
    Undoes(A, 1, "Needed 2"),
];

// Here the receipt has the lesser number.
const NEEDED_BY_A_RECEIPT: &[Line] = &[
    Asks(A, Ask::Send(B, "1"), "1 -"),
    Asks(B, Ask::Receive(A, "x"), "2 1"),
    Asks(A, Ask::Send(B, "2"), "3 -"),
    Undoes(A, 1, "Needed 2"),
];

// The number of an undone step isn't given out again.
const NEVER_AGAIN: &[Line] = &[
    Asks(A, Ask::Send(B, "1"), "1 -"),
    Undoes(A, 1, "Ok"),
    Asks(A, Ask::Send(B, "2"), "2 -"),
    Undoes(A, 1, "NoStep"),
];

// What is played where a gives b two ints.
const GIVEN_TWICE: &[&[Line]] = &[
    TO_THE_FRONT,
    GONE,
    BOUND_AS_BEFORE,
    NEEDED_BY_A_SEND,
    NEEDED_BY_A_RECEIPT,
    NEVER_AGAIN,
];

// `mps_session::Session::undo` leaves queue and slot as before the step, and of the steps that depend on it names the
// least.
#[test]
fn an_undo_leaves_queue_and_slot_as_before(rt: HostRuntime) {
    for lines in GIVEN_TWICE {
        play_anew(&rt, TWICE, lines);
    }
}

// A pick, a choice and a mark are undone; then another branch is chosen.
const OTHER_BRANCH: &[Line] = &[
    Asks(A, Ask::Mark("m"), "1 -"),
    Asks(A, Ask::Choose(B, "go"), "2 -"),
    Asks(B, Ask::Pick(A), "3 go"),
    Undoes(B, 3, "Ok"),
    Asks(B, Ask::Send(A, "\"good day\""), "WrongAct"),
    Waits(A, B, 0, "go"),
    Asks(B, Ask::Pick(A), "4 go"),
    Undoes(A, 2, "Needed 4"),
    Undoes(B, 4, "Ok"),
    Undoes(A, 2, "Ok"),
    Asks(A, Ask::Choose(B, "stop"), "5 -"),
    Asks(B, Ask::Pick(A), "6 stop"),
    Undoes(A, 1, "Needed 5"),
    Asks(B, Ask::Mark("n"), "7 -"),
    Undoes(B, 7, "Ok"),
    Moves("1 -; 5 stop; 6 stop; "),
];

// `mps_session::Session::undo` of a pick or a choice takes the role's type back too. A mark is needed by the role's
// next step.
#[test]
fn an_undone_choice_can_be_made_anew(rt: HostRuntime) {
    let mut session = opened(&rt, looping(&rt));
    play(&rt, &mut session, OTHER_BRANCH);
}

// After 1,000 sends.
const MANY: &[Line] = &[Undoes(A, 1, "Needed 2"), Count(1000, 1000)];

// After all of them are undone. 1,000 numbers were given out.
const NONE_LEFT: &[Line] = &[Undoes(A, 1, "NoStep"), Waits(A, B, 0, "-"), Count(0, 1000)];

// a takes its step of that number back.
fn undoes(rt: &(impl Abort + AllocGlobal), session: &mut Session, number: u64) {
    assert!(rt;
        undone(rt, session, A, number).as_str() == "Ok",
        "step {number} stays"
    );
}

// Takes the steps of a back, from that number on downwards.
fn undo_all(rt: &(impl Abort + AllocGlobal), session: &mut Session, last: u64) {
    for k in 0..last {
        undoes(rt, session, last - k);
    }
}

// `mps_session::Session::undo`: a role's 1,000 sends are undone one by one, the newest first, and nothing is left but
// their numbers.
#[test]
fn a_thousand_sends_are_undone_newest_first(rt: HostRuntime) {
    let mut session = opened(&rt, giving(&rt));
    ask_often(&rt, &mut session, A, Ask::Send(B, "1"), 1000);
    play(&rt, &mut session, MANY);
    undo_all(&rt, &mut session, 1000);
    play(&rt, &mut session, NONE_LEFT);
}

// Sends and takes the send back at once, so many times.
fn send_and_undo(rt: &(impl Abort + AllocGlobal), session: &mut Session, times: u64) {
    for k in 0..times {
        let _ = answer(rt, session, A, Ask::Send(B, "1"));
        undoes(rt, session, k + 1);
    }
}

// 1,000 numbers were given out, and none comes again.
const AFTER_THEM: &[Line] = &[
    Asks(A, Ask::Send(B, "2"), "1001 -"),
    Asks(B, Ask::Receive(A, "x"), "1002 2"),
    Undoes(A, 1001, "Needed 1002"),
    Undoes(A, 1000, "NoStep"),
    Count(2, 1002),
];

// `mps_session::Session::undo` of each of 1,000 sends at once: the session then goes on as a new one, with the number
// 1,001.
#[test]
fn no_number_of_a_thousand_undone_sends_comes_again(rt: HostRuntime) {
    let mut session = opened(&rt, giving(&rt));
    send_and_undo(&rt, &mut session, 1000);
    play(&rt, &mut session, AFTER_THEM);
}

// x, y and x again are bound, and the receipts undone; then y takes the first message.
const BOUND_AGAIN: &[Line] = &[
    Asks(A, Ask::Send(B, "1"), "1 -"),
    Asks(A, Ask::Send(B, "2"), "2 -"),
    Asks(A, Ask::Send(B, "3"), "3 -"),
    Asks(B, Ask::Receive(A, "x"), "4 1"),
    Asks(B, Ask::Receive(A, "y"), "5 2"),
    Asks(B, Ask::Receive(A, "x"), "6 3"),
    Keeps(B, "x", "3"),
    Keeps(B, "y", "2"),
    Undoes(B, 6, "Ok"),
    Keeps(B, "x", "1"),
    Keeps(B, "y", "2"),
    Undoes(B, 5, "Ok"),
    Keeps(B, "x", "1"),
    Keeps(B, "y", "-"),
    Undoes(B, 4, "Ok"),
    Keeps(B, "x", "-"),
    Asks(B, Ask::Receive(A, "y"), "7 1"),
    Keeps(B, "y", "1"),
];

// `mps_session::Session::undo` of a receipt gives its slot what it had before, and leaves the other slot.
#[test]
fn an_undone_receipt_gives_its_slot_what_it_had(rt: HostRuntime) {
    play_giving(&rt, BOUND_AGAIN);
}
