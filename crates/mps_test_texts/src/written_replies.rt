//! mps_line: each answer is written as its one text.
use mps_base::{Message, Name, StepId, Value};
use mps_command::{Answer, Done, Refusal, ShownText, StepIds, Violation};
use mps_line::Reply;
use std::alloc::AllocGlobal;
use std::process::Abort;

// The reply is written as this line, after a `#`.
fn is_written(rt: &(impl Abort + AllocGlobal), reply: &Reply, line: &str) {
    let mut out = Vec::from_slice(rt.alloc(), b"#").expect(rt, "memory");
    reply.write(&mut out).expect(rt, "memory");
    assert!(rt;
        out.as_slice() == line.as_bytes(),
        "the reply written as {line}"
    );
}

// The answer is written as this line, after a `#`.
fn is_answer(rt: &(impl Abort + AllocGlobal), answer: Answer, line: &str) {
    is_written(rt, &Reply::Answer(answer), line);
}

// The answer that this step is done, and took this, is written so.
fn is_done(rt: &(impl Abort + AllocGlobal), number: u64, got: Option<Message>, line: &str) {
    let id = StepId::new(number);
    is_answer(rt, Answer::Done(Done { id, got }), line);
}

// The answer that this step is done, and took this value, is written so.
fn is_taken(rt: &(impl Abort + AllocGlobal), number: u64, value: Value, line: &str) {
    is_done(rt, number, Some(Message::Value(value)), line);
}

// `mps_line::Reply::write` appends a new step's number and what the step took: nothing, a truth value, an int, a label,
// a text.
#[test]
fn a_step_done_is_written_with_what_it_took(rt: HostRuntime) {
    is_done(&rt, 1, None, "#done 1");
    is_done(&rt, 0, None, "#done 0");
    is_taken(
        &rt,
        u64::MAX,
        Value::Bool(true),
        "#done 18446744073709551615 true",
    );
    is_taken(&rt, 2, Value::Int(-5), "#done 2 -5");
    let ok = Name::read(b"ok").expect(&rt, "a name");
    is_done(&rt, 6, Some(Message::Label(ok)), "#done 6 ok");
    let good_day = Value::read(rt.alloc(), b"\"good day\"").expect(&rt, "a value");
    is_taken(&rt, 4, good_day, "#done 4 \"good day\"");
}

// The list of these numbers.
fn listed(rt: &(impl Abort + AllocGlobal), numbers: &[u64]) -> StepIds {
    let mut ids = Vec::new(rt.alloc());
    for number in numbers {
        ids.push(StepId::new(*number)).expect(rt, "memory");
    }
    StepIds::of(ids)
}

// Numbers of steps, and the line.
const UNDONE: &[(&[u64], &str)] = &[
    (&[], "#undone"),
    (&[1], "#undone 1"),
    (&[4, 3, 2, 1], "#undone 4 3 2 1"),
    (&[0, u64::MAX], "#undone 0 18446744073709551615"),
];

// `mps_line::Reply::write` appends the numbers of the steps taken back, in their order. The last list is kept without a
// vector.
#[test]
fn steps_undone_are_written_in_order(rt: HostRuntime) {
    for (numbers, line) in UNDONE {
        is_answer(&rt, Answer::Undone(listed(&rt, numbers)), line);
    }
    is_answer(
        &rt,
        Answer::Undone(StepIds::one(StepId::new(7))),
        "#undone 7",
    );
}

// How many entries the journal has, numbers of steps, and the line.
const NEWS: &[(u64, &[u64], &str)] = &[
    (0, &[], "#news 0"),
    (5, &[], "#news 5"),
    (5, &[4], "#news 5 4"),
    (
        100_000,
        &[3, 2, u64::MAX],
        "#news 100000 3 2 18446744073709551615",
    ),
];

// The answer to a question for news is written so.
fn is_news(rt: &(impl Abort + AllocGlobal), length: u64, numbers: &[u64], line: &str) {
    let ids = listed(rt, numbers);
    is_answer(rt, Answer::News { length, ids }, line);
}

// `mps_line::Reply::write` appends the length of the journal, and the numbers in their order.
#[test]
fn news_are_written_with_the_length_of_the_journal(rt: HostRuntime) {
    for (length, numbers, line) in NEWS {
        is_news(&rt, *length, numbers, line);
    }
}

// `mps_line::Reply::write` appends a shown session as it is.
#[test]
fn a_shown_session_is_written_as_it_is(rt: HostRuntime) {
    let text = Vec::from_slice(rt.alloc(), b"{\"history\":[]}").expect(&rt, "memory");
    is_answer(&rt, Answer::Shown(ShownText::of(text)), "#{\"history\":[]}");
}

// Each violation, and its line.
const VIOLATIONS: &[(Violation, &str)] = &[
    (Violation::Ended, "#refused ended"),
    (Violation::WrongAct, "#refused wrongact"),
    (Violation::WrongPeer, "#refused wrongpeer"),
    (Violation::WrongSort, "#refused wrongsort"),
    (Violation::NoLabel, "#refused nolabel"),
    (Violation::NothingQueued, "#refused nothingqueued"),
    (Violation::Mismatch, "#refused mismatch"),
];

// The refusal is written as this line.
fn is_refused(rt: &(impl Abort + AllocGlobal), refusal: Refusal, line: &str) {
    is_answer(rt, Answer::Refused(refusal), line);
}

// `mps_line::Reply::write` appends each reason for which a room refuses a command, `needed` and `final` with the step.
#[test]
fn each_refusal_of_a_room_is_written(rt: HostRuntime) {
    for (violation, line) in VIOLATIONS {
        is_refused(&rt, Refusal::Violation(*violation), line);
    }
    is_refused(&rt, Refusal::NoStep, "#refused nostep");
    is_refused(&rt, Refusal::NotYours, "#refused notyours");
    is_refused(&rt, Refusal::NoMark, "#refused nomark");
    is_refused(&rt, Refusal::Full, "#refused full");
    is_refused(&rt, Refusal::Memory, "#refused memory");
    let by = StepId::new(2);
    is_refused(&rt, Refusal::Needed { by }, "#refused needed 2");
    is_refused(&rt, Refusal::Final { by }, "#refused final 2");
    let by = StepId::new(u64::MAX);
    is_refused(
        &rt,
        Refusal::Final { by },
        "#refused final 18446744073709551615",
    );
}

// `mps_line::Reply::write` appends each refusal that a script, a conversation or a server gives by itself.
#[test]
fn each_refusal_that_no_room_gives_is_written(rt: HostRuntime) {
    is_written(&rt, &Reply::BadLine, "#refused line");
    is_written(&rt, &Reply::NoSession, "#refused nosession");
    is_written(&rt, &Reply::NoRole, "#refused norole");
    is_written(&rt, &Reply::Taken, "#refused taken");
    is_written(&rt, &Reply::Number, "#refused number");
    is_written(&rt, &Reply::Busy, "#refused busy");
    is_written(&rt, &Reply::Unkept, "#refused journal");
    is_written(&rt, &Reply::Elsewhere, "#refused elsewhere");
}
