//! mps_command: a copy of a command, a change, an answer or a list of numbers is equal to it.
use crate::words::{name, two_roles};
use mps_base::{Role, Roles, StepId};
use mps_command::*;
use mps_line::{Reply, append_answer, read_answer, read_command};
use std::alloc::AllocGlobal;
use std::process::Abort;

// A line for each command, and for each sort of value.
const COMMANDS: &[&str] = &[
    "send b \"good day\"",
    "send b -7",
    "send b true",
    "choose b ok",
    "recv b x",
    "pick b",
    "mark m",
    "commit",
    "undo 3",
    "rollback 4",
    "back m",
    "news 9",
    "show",
    "stand",
];

// How the command is shown.
fn shown(rt: &(impl Abort + AllocGlobal), command: &Command) -> String {
    format!(in rt.alloc(); "{command:?}").expect(rt, "memory")
}

// Whether the command and its copy are shown alike.
fn is_copied(rt: &(impl Abort + AllocGlobal), command: &Command) -> bool {
    let copied = command.copy(rt.alloc()).expect(rt, "memory");
    shown(rt, command).as_str() == shown(rt, &copied).as_str()
}

// The command of this line.
fn read(rt: &(impl Abort + AllocGlobal), roles: &Roles, line: &str) -> Command {
    read_command(rt.alloc(), roles, line.as_bytes()).expect(rt, "a command")
}

// `mps_command::Command::copy` gives an equal command. Two are compared by how they are shown (`Debug`).
#[test]
fn a_copied_command_is_shown_alike(rt: HostRuntime) {
    let roles = two_roles(&rt);
    for line in COMMANDS {
        assert!(rt;
            is_copied(&rt, &read(&rt, &roles, line)),
            "the copy of `{line}`"
        );
    }
}

// How the change is shown.
fn shown_change(rt: &(impl Abort + AllocGlobal), change: &Change) -> String {
    format!(in rt.alloc(); "{change:?}").expect(rt, "memory")
}

// The change and its copy are shown alike.
fn copies(rt: &(impl Abort + AllocGlobal), change: Change) {
    let copied = change.copy(rt.alloc()).expect(rt, "memory");
    let shown = shown_change(rt, &change);
    assert_eq!(rt;
        shown.as_str(),
        shown_change(rt, &copied).as_str(),
        "the copied change"
    );
}

// `mps_command::Change::copy` gives an equal change: a pick, a commit, an undo, a rollback, a return. The numbers stand
// for any.
#[test]
fn a_copied_change_is_shown_alike(rt: HostRuntime) {
    let from = Role::new(1);
    copies(&rt, Change::Forward(Forward::Pick { from }));
    copies(&rt, Change::Forward(Forward::Commit));
    copies(&rt, Change::Undo(StepId::new(3)));
    copies(&rt, Change::Rollback(StepId::new(4)));
    copies(&rt, Change::Back(name(&rt, "m")));
}

// The text of a copy of the answer, if it shows a session.
fn shown_again(rt: &(impl Abort + AllocGlobal), answer: &Answer) -> Option<ShownText> {
    match answer.copy(rt.alloc()).expect(rt, "memory") {
        Answer::Shown(text) => Some(text),
        _ => None,
    }
}

// `mps_command::Answer::copy` keeps the text of a shown session, byte by byte: any text that begins with a brace.
#[test]
fn a_copied_show_keeps_each_byte(rt: HostRuntime) {
    let text = ShownText::of(Vec::from_slice(rt.alloc(), b"{1 ~}").expect(&rt, "memory"));
    assert_eq!(rt;
        text.as_bytes(),
        b"{1 ~}".as_slice(),
        "the text as it was given"
    );
    let again = shown_again(&rt, &Answer::Shown(text)).expect(&rt, "a text");
    assert_eq!(rt; again.as_bytes(), b"{1 ~}".as_slice(), "the copied text");
}

// The list of these numbers.
fn listed(rt: &(impl Abort + AllocGlobal), numbers: &[u64]) -> StepIds {
    let mut ids = Vec::new(rt.alloc());
    for number in numbers {
        ids.push(StepId::new(*number)).expect(rt, "memory");
    }
    StepIds::of(ids)
}

// A copy of the list.
fn copy_of(rt: &(impl Abort + AllocGlobal), ids: StepIds) -> StepIds {
    match Answer::Undone(ids).copy(rt.alloc()).expect(rt, "memory") {
        Answer::Undone(undone) => undone,
        _ => StepIds::of(Vec::new(rt.alloc())),
    }
}

// Whether the list has these numbers.
fn has_numbers(ids: &StepIds, wanted: &[u64]) -> bool {
    let mut pairs = ids.as_slice().iter().zip(wanted);
    ids.as_slice().len() == wanted.len() && pairs.all(|(id, number)| id.number() == *number)
}

// A copy of the list of these numbers has them.
fn copies_list(rt: &(impl Abort + AllocGlobal), numbers: &[u64]) {
    let copied = copy_of(rt, listed(rt, numbers));
    assert!(rt; has_numbers(&copied, numbers), "the copy of {numbers:?}");
}

// `mps_command::Answer::copy` keeps a list of step numbers: of none, of one without a vector and with one, of two.
#[test]
fn a_copied_list_has_its_numbers(rt: HostRuntime) {
    copies_list(&rt, &[]);
    assert!(rt;
        has_numbers(&copy_of(&rt, StepIds::one(StepId::new(7))), &[7]),
        "the copy of 7 without a vector"
    );
    copies_list(&rt, &[7]);
    copies_list(&rt, &[5, 3]);
}

// Whether the list gives up that number alone.
fn gives_number(ids: StepIds, number: u64) -> bool {
    matches!(ids.try_into_vec(), Err(id) if id.is(StepId::new(number)))
}

// Whether the list gives up a vector of these two numbers.
fn gives_two(ids: StepIds, first: u64, second: u64) -> bool {
    match ids.try_into_vec() {
        Ok(ids) => ids.as_slice() == [StepId::new(first), StepId::new(second)].as_slice(),
        Err(_) => false,
    }
}

// `mps_command::StepIds::try_into_vec`: a list of one number that is kept without a vector gives the number, any other
// its vector.
#[test]
fn a_list_gives_up_its_vector_or_its_one_number(rt: HostRuntime) {
    assert!(rt;
        gives_number(StepIds::one(StepId::new(7)), 7),
        "the number 7"
    );
    assert!(rt;
        gives_two(listed(&rt, &[5, 3]), 5, 3),
        "the numbers 5 and 3"
    );
}

// How the answer is shown.
fn shown_answer(rt: &(impl Abort + AllocGlobal), answer: &Answer) -> String {
    format!(in rt.alloc(); "{answer:?}").expect(rt, "memory")
}

// Whether the answer and its copy are shown alike.
fn is_copied_answer(rt: &(impl Abort + AllocGlobal), answer: &Answer) -> bool {
    let copied = answer.copy(rt.alloc()).expect(rt, "memory");
    shown_answer(rt, answer).as_str() == shown_answer(rt, &copied).as_str()
}

// The answer of the reply, if it is one.
fn answered(reply: Reply) -> Option<Answer> {
    match reply {
        Reply::Answer(answer) => Some(answer),
        _ => None,
    }
}

// The answer of the line.
fn answer(rt: &(impl Abort + AllocGlobal), line: &str) -> Answer {
    let reply = read_answer(rt.alloc(), line.as_bytes()).expect(rt, "a reply");
    answered(reply).expect(rt, "an answer")
}

// Lines of answers: what a step took, or nothing; steps taken back, or none; news; refusals with a number and without.
const ANSWERS: &[&str] = &[
    "done 6 ok",
    "done 6 \"good day\"",
    "done 6",
    "undone 5 3",
    "undone",
    "news 9 5 3",
    "refused final 6",
    "refused needed 6",
    "refused ended",
];

// `mps_command::Answer::copy` gives an equal answer, by how it is shown. The last is a list of one number without a
// vector.
#[test]
fn a_copied_answer_is_shown_alike(rt: HostRuntime) {
    for line in ANSWERS {
        assert!(rt;
            is_copied_answer(&rt, &answer(&rt, line)),
            "the copy of `{line}`"
        );
    }
    let one = Answer::Undone(StepIds::one(StepId::new(6)));
    assert!(rt;
        is_copied_answer(&rt, &one),
        "the copy of 6 without a vector"
    );
}

// Lines of answers with numbers.
const LINES: &[&str] = &["done 2 5", "undone 4 3 2 1", "news 5 3 2"];

// Whether the line is that of a copy of its answer.
fn is_copied_line(rt: &(impl Abort + AllocGlobal), line: &str) -> bool {
    let copied = answer(rt, line).copy(rt.alloc()).expect(rt, "memory");
    let mut text = Vec::new(rt.alloc());
    append_answer(&copied, &mut text).expect(rt, "memory");
    text.as_slice() == line.as_bytes()
}

// `mps_command::Answer::copy` gives an answer that is written as the line of which the first was read.
#[test]
fn a_copied_answer_is_written_as_the_same_line(rt: HostRuntime) {
    for line in LINES {
        assert!(rt; is_copied_line(&rt, line), "the copy of `{line}`");
    }
}

// The list of the numbers from 1 to the last.
fn listed_to(rt: &(impl Abort + AllocGlobal), last: u64) -> StepIds {
    let mut ids = Vec::new(rt.alloc());
    for number in 0..last {
        ids.push(StepId::new(number + 1)).expect(rt, "memory");
    }
    StepIds::of(ids)
}

// Whether the numbers rise from 1 on.
fn rise(ids: &StepIds) -> bool {
    let mut before = 0;
    for id in ids.as_slice() {
        if id.number().checked_sub(1) != Some(before) {
            return false;
        }
        before = id.number();
    }
    true
}

// Whether a copy of the list of the numbers from 1 to the last has them all.
fn is_copied_to(rt: &(impl Abort + AllocGlobal), last: u64) -> bool {
    let copied = copy_of(rt, listed_to(rt, last));
    copied.as_slice().len() as u64 == last && rise(&copied)
}

// `mps_command::Answer::copy` keeps each number of a list, in order, of short lists and of a long one.
#[test]
fn a_copied_list_of_a_thousand_numbers_keeps_their_order(rt: HostRuntime) {
    for last in [5, 7, 1_000] {
        assert!(rt;
            is_copied_to(&rt, last),
            "the copy of the numbers up to {last}"
        );
    }
}
