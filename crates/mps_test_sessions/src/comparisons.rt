//! mps_session: two sessions are the same where each role did the same, and a refused rollback changes nothing.
ghost use Rattle.std.specs.Prelude.{◌≡◌};
ghost use Rattle.mps_global.specs.Global.{plain};
ghost use Rattle.mps_local.specs.Outcome.{AreProjections};
ghost use Rattle.mps_local.specs.declared.merging.Merging.TheVariants.{Plain};

use crate::open_protocols::{choice, int, protocol};
use crate::steps::{A, Ask, B, C, command, role_of};
use crate::words::name;
use mps_base::{Sort, StepId};
use mps_command::{Answer, Change, Refusal, StepIds};
use mps_global::{Global, Protocol};
use mps_session::*;
use std::alloc::AllocGlobal;
use std::process::Abort;

const D: u8 = 3;

// What a role does.
#[derive(Clone, Copy)]
enum Turn {
    Does(u8, Ask),
    // it takes its step of that number back
    Undoes(u8, u64),
}

use Turn::{Does, Undoes};

// a gives b an int and a text, c gives d an int, and a tells b `ok` or `no`.
fn two_pairs(rt: &(impl Abort + AllocGlobal)) -> Protocol {
    let told = choice(rt, "a", "b", &["ok", "no"], Global::End);
    let beside = int(rt, "c", "d", told);
    let (from, to) = (name(rt, "a"), name(rt, "b"));
    let text = Global::message(rt.alloc(), from, to, Sort::Text, beside).expect(rt, "memory");
    protocol(rt, &["a", "b", "c", "d"], int(rt, "a", "b", text))
}

// Whether the turn was taken, and not refused.
fn is_taken(answer: Answer) -> bool {
    matches!(answer, Answer::Done(_) | Answer::Undone(_))
}

// The role that takes the turn.
fn taker(turn: Turn) -> u8 {
    match turn {
        Does(place, _) | Undoes(place, _) => place,
    }
}

// What is asked for in the turn.
fn asked(rt: &(impl Abort + AllocGlobal), turn: Turn) -> Change {
    match turn {
        Does(_, ask) => Change::Forward(command(rt, ask)),
        Undoes(_, number) => Change::Undo(StepId::new(number)),
    }
}

// The turn is taken, and isn't refused.
fn take(rt: &(impl Abort + AllocGlobal), session: &mut Session, turn: Turn)
    ensures { session.new.types ≡ session.old.types }
{
    let role = role_of(rt, session, taker(turn));
    let answer = session.serve(role, asked(rt, turn));
    assert!(rt; is_taken(answer), "an answer is a refusal");
}

// The turns are taken, one after the other.
fn take_all(rt: &(impl Abort + AllocGlobal), session: &mut Session, turns: &[Turn])
    ensures { session.new.types ≡ session.old.types }
{
    for turn in turns {
        take(rt, session, *turn);
    }
}

// A new session of the protocol after these turns.
fn after(rt: &(impl Abort + AllocGlobal), protocol: &Protocol, turns: &[Turn]) -> Session
    ensures { AreProjections Plain protocol.now.roles.items (plain protocol.now.body) result.types }
{
    let mut session = open_protocol(rt.alloc(), protocol).expect(rt, "a session");
    take_all(rt, &mut session, turns);
    session
}

// Whether two sessions of the protocol are the same after these turns.
fn are_same(
    rt: &(impl Abort + AllocGlobal),
    protocol: &Protocol,
    first: &[Turn],
    second: &[Turn],
) -> bool {
    let a = after(rt, protocol, first);
    let b = after(rt, protocol, second);
    same(&a, &b)
}

// The turns of two sessions, and whether these are the same.
#[derive(Clone, Copy)]
struct Row(&'static [Turn], &'static [Turn], bool);

// Two marks and a commit, of any role; ints and texts of a, b's receipt, and what c and d do beside them.
const MARK_M: Ask = Ask::Mark("m");

const MARK_K: Ask = Ask::Mark("k");

const COMMIT: Ask = Ask::Commit;

const SEND_5: Turn = Does(A, Ask::Send(B, "5"));

const SEND_6: Turn = Does(A, Ask::Send(B, "6"));

const SAY_X: Turn = Does(A, Ask::Send(B, "\"x\""));

const SAY_Y: Turn = Does(A, Ask::Send(B, "\"y\""));

const TAKE: Turn = Does(B, Ask::Receive(A, "x"));

const BESIDE: Turn = Does(C, Ask::Send(D, "7"));

const TAKE_BESIDE: Turn = Does(D, Ask::Receive(C, "x"));

const ROWS: &[Row] = &[
    Row(&[], &[], true),
    // the order across roles
    Row(
        &[Does(A, MARK_M), Does(C, MARK_M)],
        &[Does(C, MARK_M), Does(A, MARK_M)],
        true,
    ),
    Row(
        &[SEND_5, BESIDE, TAKE, TAKE_BESIDE],
        &[BESIDE, TAKE_BESIDE, SEND_5, TAKE],
        true,
    ),
    // the order of one role
    Row(
        &[Does(A, MARK_M), Does(A, MARK_K)],
        &[Does(A, MARK_K), Does(A, MARK_M)],
        false,
    ),
    Row(
        &[Does(A, COMMIT), Does(A, MARK_M)],
        &[Does(A, MARK_M), Does(A, COMMIT)],
        false,
    ),
    // commits of two roles
    Row(
        &[Does(A, COMMIT), Does(C, COMMIT)],
        &[Does(C, COMMIT), Does(A, COMMIT)],
        true,
    ),
    Row(&[Does(A, COMMIT)], &[Does(A, MARK_M)], false),
    // a step that was taken back, and another number
    Row(&[SEND_5, Undoes(A, 1)], &[], true),
    Row(&[SEND_5, Undoes(A, 1), SEND_5], &[SEND_5], true),
    // another value, another text, another label
    Row(&[SEND_5], &[SEND_6], false),
    Row(&[SEND_5, SAY_X], &[SEND_5, SAY_Y], false),
    Row(
        &[SEND_5, SAY_X, Does(A, Ask::Choose(B, "ok"))],
        &[SEND_5, SAY_X, Does(A, Ask::Choose(B, "no"))],
        false,
    ),
    // another slot
    Row(
        &[SEND_5, TAKE],
        &[SEND_5, Does(B, Ask::Receive(A, "y"))],
        false,
    ),
    // one step more, of the first role and of the last
    Row(&[], &[Does(A, MARK_M)], false),
    Row(
        &[Does(D, MARK_M)],
        &[Does(D, MARK_M), Does(D, MARK_M)],
        false,
    ),
    // the same mark of another role
    Row(&[Does(A, MARK_M)], &[Does(B, MARK_M)], false),
];

// Whether the sessions of the row are as it says, whichever is compared with the other.
fn is_compared(rt: &(impl Abort + AllocGlobal), protocol: &Protocol, row: &Row) -> bool {
    are_same(rt, protocol, row.0, row.1) == row.2 && are_same(rt, protocol, row.1, row.0) == row.2
}

// `mps_session::same` is true exactly where each role did the same, whatever the order across roles and the numbers.
#[test]
fn sessions_are_the_same_where_each_role_did_the_same(rt: HostRuntime) {
    let protocol = two_pairs(&rt);
    for (place, row) in ROWS.iter().enumerate() {
        assert!(rt; is_compared(&rt, &protocol, row), "row {place} (from 0)");
    }
}

// Whether the session is the same as one that never tried.
fn is_untried(
    rt: &(impl Abort + AllocGlobal),
    protocol: &Protocol,
    session: &Session,
    turns: &[Turn],
) -> bool
    requires { AreProjections Plain protocol.now.roles.items (plain protocol.now.body) session.now.types }
{
    let untried = after(rt, protocol, turns);
    same(session, &untried) && session.issued() == untried.issued()
}

// What a is answered that rolls its first step back.
fn rolled_back(rt: &impl Abort, session: &mut Session) -> Result<StepIds, Refusal>
    ensures { session.new.types ≡ session.old.types }
{
    let role = role_of(rt, session, A);
    session.rollback(role, StepId::new(1))
}

// Whether these are the steps 4, 3 and 1.
fn are_three(ids: &StepIds) -> bool {
    match ids.as_slice() {
        [first, second, third] => {
            first.number() == 4 && second.number() == 3 && third.number() == 1
        }
        _ => false,
    }
}

// Whether these steps were taken back.
fn are_back(answer: Result<StepIds, Refusal>) -> bool {
    match answer {
        Ok(ids) => are_three(&ids),
        Err(_) => false,
    }
}

// Whether the rollback was refused for want of memory.
fn is_out_of_memory(answer: &Result<StepIds, Refusal>) -> bool {
    matches!(answer, Err(Refusal::Memory))
}

// What a rolls back that takes its first step back. Where memory runs out for the answer, the session
// is the same as one that never tried, and a second try takes the steps.
fn takes_back_at_last(
    rt: &(impl Abort + AllocGlobal),
    protocol: &Protocol,
    turns: &[Turn],
) -> bool {
    let mut session = after(rt, protocol, turns);
    let mut answer = rolled_back(rt, &mut session);
    if is_out_of_memory(&answer) {
        assert!(rt;
            is_untried(rt, protocol, &session, turns),
            "a refusal changed something"
        );
        answer = rolled_back(rt, &mut session);
    }
    are_back(answer)
}

// `mps_session::Session::rollback`: a rolls step 1 back, with 3 and 4, which depend on it. Memory for the answer is
// requested last: where a run refuses it, as the README of mps_session says, nothing may have changed.
#[test]
fn a_rollback_refused_for_memory_can_be_asked_again(rt: HostRuntime) {
    let turns = [SEND_5, BESIDE, TAKE, SAY_X, TAKE_BESIDE];
    assert!(rt;
        takes_back_at_last(&rt, &two_pairs(&rt), &turns),
        "steps 4, 3 and 1 are taken back, and a refusal changes nothing"
    );
}

// Why a may not roll its first step back. The session is then the same as one that never tried.
fn refused(
    rt: &(impl Abort + AllocGlobal),
    protocol: &Protocol,
    turns: &[Turn],
) -> Option<Refusal> {
    let mut session = after(rt, protocol, turns);
    let refusal = rolled_back(rt, &mut session).err();
    assert!(rt;
        is_untried(rt, protocol, &session, turns),
        "a refusal changed something"
    );
    refusal
}

// `mps_session::Session::rollback`: b's commit, step 3, depends on a's step 1, so the rollback is refused, and the
// session is as if it was never asked.
#[test]
fn a_refused_rollback_changes_nothing(rt: HostRuntime) {
    let turns = [SEND_5, TAKE, Does(B, COMMIT), SAY_X];
    let by = StepId::new(3);
    assert_eq!(rt;
        refused(&rt, &two_pairs(&rt), &turns),
        Some(Refusal::Final { by }),
        "the refusal of a's rollback"
    );
}
