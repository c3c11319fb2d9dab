//! mps_session: `serve_all` answers a list of requests one after the other.
ghost use Rattle.std.specs.Prelude.{◌≡◌, ◌<◌, length};
ghost use Rattle.std.specs.List.{AllByRecursion};

use crate::steps::Line::{Count, Keeps, Moves, Waits};
use crate::steps::{
    A, A_TO_B_TO_C, Ask, B, C, Line, command, gone, opened, play, role_of, text, told, types,
};
use crate::words::name;
use mps_base::{Name, Role, StepId};
use mps_command::{Answer, Change, Forward};
use mps_session::*;
use std::alloc::AllocGlobal;
use std::process::Abort;

// What a role asks for, also of what is to be taken back.
#[derive(Clone, Copy)]
enum Wish {
    Step(Ask),
    Undo(u64),
    Rollback(u64),
    Back(&'static str),
}

// The role's place, what it asks for, and what it is answered.
type Row = (u8, Wish, &'static str);

// The command that is asked for.
fn asked(rt: &(impl Abort + AllocGlobal), wish: Wish) -> Change {
    match wish {
        Wish::Step(ask) => Change::Forward(command(rt, ask)),
        Wish::Undo(number) => Change::Undo(StepId::new(number)),
        Wish::Rollback(number) => Change::Rollback(StepId::new(number)),
        Wish::Back(mark) => Change::Back(name(rt, mark)),
    }
}

// The requests of the rows, in order.
fn requests(rt: &(impl Abort + AllocGlobal), session: &Session, rows: &[Row]) -> Vec<(Role, Change)>
    ensures { AllByRecursion (λ request. request.0 < length session.now.types) result.items }
{
    let mut all = Vec::new(rt.alloc());
    for (place, wish, _) in rows {
        let role = role_of(rt, session, *place);
        let command = asked(rt, *wish);
        all.push((role, command)).expect(rt, "memory");
    }
    all
}

// What a role is answered.
fn shown(rt: &(impl Abort + AllocGlobal), answer: Answer) -> String {
    match answer {
        Answer::Done(done) => told(rt, &Ok(done)),
        Answer::Undone(ids) => gone(rt, &Ok(ids)),
        Answer::Refused(refusal) => gone(rt, &Err(refusal)),
        Answer::News { .. } | Answer::Shown(_) => text(rt, b"no answer of a session"),
    }
}

// What each role asks for, and is told: a step's number and what it took, the steps taken back, or why not.
const TEN_AND_MORE: &[Row] = &[
    (
        B,
        Wish::Step(Ask::Receive(A, "x")),
        "Violation(NothingQueued)",
    ),
    (A, Wish::Step(Ask::Mark("m")), "1 -"),
    (A, Wish::Step(Ask::Send(B, "5")), "2 -"),
    (B, Wish::Step(Ask::Receive(A, "x")), "3 5"),
    (A, Wish::Undo(2), "Needed 3"),
    (B, Wish::Undo(2), "NotYours"),
    (B, Wish::Step(Ask::Send(C, "7")), "4 -"),
    (C, Wish::Step(Ask::Receive(B, "y")), "5 7"),
    (B, Wish::Undo(3), "Needed 4"),
    (B, Wish::Rollback(4), "5 4 "),
    (B, Wish::Undo(3), "3 "),
    (C, Wish::Back("m"), "NoMark"),
    (A, Wish::Back("m"), "2 "),
    (A, Wish::Undo(2), "NoStep"),
    (A, Wish::Step(Ask::Send(B, "6")), "6 -"),
    (A, Wish::Step(Ask::Commit), "7 -"),
    (A, Wish::Undo(7), "Final 7"),
    (A, Wish::Rollback(6), "Final 7"),
];

// What survives: a's mark 1, its send 6, which waits, and its commit 7. The slots of the steps taken back are empty.
const LEFT: &[Line] = &[
    Moves("1 -; 6 6; 7 -; "),
    Count(3, 7),
    Waits(A, B, 0, "6"),
    Keeps(B, "x", "-"),
    Keeps(C, "y", "-"),
];

// The answer of the row of that place is the one that is wanted.
fn is_answered(rt: &(impl Abort + AllocGlobal), answer: Answer, row: &Row) {
    assert_eq!(rt;
        shown(rt, answer).as_str(),
        row.2,
        "the answer that wants {}",
        row.2
    );
}

// The answers are those that the rows want.
fn are_answered(rt: &(impl Abort + AllocGlobal), answers: Vec<Answer>, rows: &[Row]) {
    assert_eq!(rt; answers.len(), rows.len(), "an answer for each row");
    for (answer, row) in answers.into_iter().zip(rows) {
        is_answered(rt, answer, row);
    }
}

// `mps_session::Session::serve_all` answers each request of a list as it is due after those before it, and leaves what
// they lead to.
#[test]
fn each_request_is_answered_after_those_before_it(rt: HostRuntime) {
    let mut session = opened(&rt, types(&rt, A_TO_B_TO_C));
    let requests = requests(&rt, &session, TEN_AND_MORE);
    let answers = session.serve_all(requests).expect(&rt, "memory");
    are_answered(&rt, answers, TEN_AND_MORE);
    play(&rt, &mut session, LEFT);
}

// A request of the role: its mark, or the undo of the step of that number.
fn mark_or_undo(role: Role, turn: u64, mark: Name) -> (Role, Change)
    ensures { result.0 ≡ role }
{
    if turn.is_multiple_of(2) {
        (role, Change::Forward(Forward::Mark { name: mark }))
    } else {
        (role, Change::Undo(StepId::new(turn / 2 + 1)))
    }
}

// So many requests of the role, marks and their undos by turns.
fn marks_and_undos(
    rt: &(impl Abort + AllocGlobal),
    session: &Session,
    count: u64,
) -> Vec<(Role, Change)>
    ensures { AllByRecursion (λ request. request.0 < length session.now.types) result.items }
{
    let mut all = Vec::new(rt.alloc());
    let role = role_of(rt, session, A);
    let mark = name(rt, "m");
    for turn in 0..count {
        all.push(mark_or_undo(role, turn, mark))
            .expect(rt, "memory");
    }
    all
}

// No step, but the numbers of 500 marks.
const MARKED_AND_UNDONE: &[Line] = &[Count(0, 500), Moves("")];

// `mps_session::Session::serve_all` takes long lists: 1,000 requests are 500 marks, each undone by the next request.
#[test]
fn a_list_of_a_thousand_requests_is_served(rt: HostRuntime) {
    let mut session = opened(&rt, types(&rt, A_TO_B_TO_C));
    let requests = marks_and_undos(&rt, &session, 1_000);
    let answers = session.serve_all(requests).expect(&rt, "memory");
    assert_eq!(rt; answers.len(), 1_000, "an answer for each request");
    play(&rt, &mut session, MARKED_AND_UNDONE);
}
