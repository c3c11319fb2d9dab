//! mps_session: the gist of an accepted command says what its journal keeps of it.
ghost use Rattle.std.specs.Prelude.{IsSome};
ghost use Rattle.mps_command.specs.Changes.{change_of};

use crate::steps::{A, A_TO_B_TO_C, Ask, B, C, command, opened, types};
use crate::words::name;
use mps_base::{Role, StepId};
use mps_command::{Command, Refusal};
use mps_session::*;
use std::alloc::AllocGlobal;
use std::process::Abort;

// A gist in numbers: that of a new step and of the one that it took from, that of an undone step, or how many steps
// were taken back and the newest of them.
#[derive(Clone, Copy, Debug, PartialEq)]
enum Numbers {
    Stepped(u64, u64),
    Undid(u64),
    TookBack(usize, u64),
}

// The number, 0 for none.
fn number(id: Option<StepId>) -> u64 {
    match id {
        Some(id) => id.number(),
        None => 0,
    }
}

// The gist in numbers.
fn in_numbers(gist: Gist) -> Numbers {
    match gist {
        Gist::Stepped { id, source } => Numbers::Stepped(id.number(), number(source)),
        Gist::Undid(id) => Numbers::Undid(id.number()),
        Gist::TookBack(ids) => Numbers::TookBack(ids.len(), number(ids.first().copied())),
    }
}

// What the role's command comes to.
fn attempt(session: &mut Session, place: u8, command: Command) -> Result<Numbers, Refusal>
    requires { IsSome (change_of command) }
{
    let role = Role::new(place);
    if role.index() >= session.roles() {
        return Err(Refusal::NoStep);
    }
    match session.attempt(role, &command) {
        Ok((_answer, gist)) => Ok(in_numbers(gist)),
        Err(refusal) => Err(refusal),
    }
}

// The role takes the step.
fn takes(
    rt: &(impl Abort + AllocGlobal),
    session: &mut Session,
    place: u8,
    ask: Ask,
    wanted: Numbers,
) {
    let found = attempt(session, place, Command::Forward(command(rt, ask)));
    assert_eq!(rt; found, Ok(wanted), "the gist of a step");
}

// Five steps: a mark of a, the send from a to b, its receipt, and the send from b to c with its receipt.
fn relayed(rt: &(impl Abort + AllocGlobal)) -> Session {
    let mut session = opened(rt, types(rt, A_TO_B_TO_C));
    takes(rt, &mut session, A, Ask::Mark("m"), Numbers::Stepped(1, 0));
    takes(
        rt,
        &mut session,
        A,
        Ask::Send(B, "5"),
        Numbers::Stepped(2, 0),
    );
    takes(
        rt,
        &mut session,
        B,
        Ask::Receive(A, "x"),
        Numbers::Stepped(3, 2),
    );
    takes(
        rt,
        &mut session,
        B,
        Ask::Send(C, "7"),
        Numbers::Stepped(4, 0),
    );
    takes(
        rt,
        &mut session,
        C,
        Ask::Receive(B, "y"),
        Numbers::Stepped(5, 4),
    );
    session
}

// `mps_session::Session::attempt` gives the gist of each step, which `relayed` compares: receipts 3 and 5 name the
// sends 2 and 4.
#[test]
fn the_gist_of_a_receipt_names_its_send(rt: HostRuntime) {
    relayed(&rt);
}

// `mps_session::Session::attempt`: the gist of an undo is the number of the step, 5.
#[test]
fn the_gist_of_an_undo_names_its_step(rt: HostRuntime) {
    let mut session = relayed(&rt);
    let found = attempt(&mut session, C, Command::Undo(StepId::new(5)));
    assert_eq!(rt; found, Ok(Numbers::Undid(5)), "the gist of the undo of 5");
}

// `mps_session::Session::attempt`: the gist of a rollback lists the steps, newest first. Here these are 5, 4 and 3, so
// three of which the first is 5.
#[test]
fn the_gist_of_a_rollback_lists_the_steps_newest_first(rt: HostRuntime) {
    let mut session = relayed(&rt);
    let found = attempt(&mut session, B, Command::Rollback(StepId::new(3)));
    assert_eq!(rt;
        found,
        Ok(Numbers::TookBack(3, 5)),
        "the gist of the rollback to 3"
    );
}

// `mps_session::Session::attempt`: the gist of a return lists the steps, newest first. Here these are 5, 4, 3 and 2,
// since the mark 1 stays, so four of which the first is 5.
#[test]
fn the_gist_of_a_return_leaves_the_mark(rt: HostRuntime) {
    let mut session = relayed(&rt);
    let found = attempt(&mut session, A, Command::Back(name(&rt, "m")));
    assert_eq!(rt;
        found,
        Ok(Numbers::TookBack(4, 5)),
        "the gist of the return to mark 1"
    );
}

// `mps_session::Session::attempt` gives no gist of a refused command: step 3 received what step 2 sent.
#[test]
fn a_refused_command_has_no_gist(rt: HostRuntime) {
    let mut session = relayed(&rt);
    let found = attempt(&mut session, A, Command::Undo(StepId::new(2)));
    let by = StepId::new(3);
    assert_eq!(rt; found, Err(Refusal::Needed { by }), "step 3 needs step 2");
}
