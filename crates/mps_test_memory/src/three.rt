//! mps_room: three commands of one role to a new room, of which the first two are refused whatever memory there is.

use crate::outcomes::{Outcome, Until, answered, refused};
use crate::parties::{Party, Roomed, ran_out};
use crate::rows::VERDICT;
use mps_base::{Name, Role, StepId, Value};
use mps_command::{Answer, Command, Forward, Refusal, Violation};
use std::alloc::Global;

// Asks for a's receipt from b.
fn receive(room: &mut Roomed, slot: Name) -> Option<Answer> {
    let from = Role::new(1);
    room.ask(
        Role::new(0),
        Command::Forward(Forward::Receive { from, slot }),
    )
}

// Asks for a's undo of a step that isn't there.
fn undo(room: &mut Roomed) -> Option<Answer> {
    room.ask(Role::new(0), Command::Undo(StepId::new(9)))
}

// Asks for a's message to b.
fn send(room: &mut Roomed) -> Option<Answer> {
    let (to, value) = (Role::new(1), Value::Int(5));
    room.ask(Role::new(0), Command::Forward(Forward::Send { to, value }))
}

// Whether the answer is that step 1 is done.
fn is_first(answer: &Answer) -> bool {
    matches!(answer, Answer::Done(done) if done.id.number() == 1 && done.got.is_none())
}

// Whether the answer is that the role may not do that now.
fn is_wrong_act(answer: &Answer) -> bool {
    matches!(
        answer,
        Answer::Refused(Refusal::Violation(Violation::WrongAct))
    )
}

// Whether the answer is that there is no such step.
fn is_no_step(answer: &Answer) -> bool {
    matches!(answer, Answer::Refused(Refusal::NoStep))
}

// Asks for the first two: whether they are refused for their own reasons.
fn are_refused(room: &mut Roomed, slot: Name) -> Option<bool> {
    let is_wrong = is_wrong_act(&receive(room, slot)?);
    Some(is_no_step(&undo(room)?) && is_wrong)
}

// Whether the room stands as before, and now does the send.
fn goes_on(room: &mut Roomed, before: &[u8]) -> Option<bool> {
    if room.state()?.as_slice() != before {
        return Some(false);
    }
    Some(is_first(&send(room)?))
}

// What it comes to that the first two are refused so, or aren't, and the third is answered so.
fn judged(room: &mut Roomed, before: &[u8], are_refused: bool, sent: &Answer) -> Option<Outcome> {
    if !are_refused {
        return Some(Outcome::Other);
    }
    if ran_out(sent) {
        refused(goes_on(room, before)?)
    } else {
        answered(is_first(sent))
    }
}

// Asks the room for the three.
fn three_asked_of(room: &mut Roomed, before: &[u8], slot: Name, until: Until) -> Option<Outcome> {
    if until == Until::Before {
        return Some(Outcome::Reached);
    }
    let are_refused = are_refused(room, slot)?;
    let sent = send(room)?;
    if until == Until::After {
        return Some(Outcome::Reached);
    }
    judged(room, before, are_refused, &sent)
}

/// Asks a new room for a receipt, an undo and a send.
pub fn three_asked(alloc: Global, until: Until) -> Option<Outcome> {
    let slot = Name::read(b"x")?;
    let mut room = Roomed::new(alloc, VERDICT)?;
    let before = room.state()?;
    three_asked_of(&mut room, before.as_slice(), slot, until)
}
