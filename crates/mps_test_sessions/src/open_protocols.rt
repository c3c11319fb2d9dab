//! mps_session: a protocol that has no fault, and types for all roles, gives a session; else its first fault is named.
//! Rows are a `Line` of `steps` each: a role is told the new step's number and what it took (`-`: nothing), or why not.
use crate::steps::Line::Asks;
use crate::steps::{A, Ask, B, C, Line, play};
use crate::words::{name, variable};
use mps_base::{Name, Role, Sort};
use mps_global::{Branches, Global, GlobalFault, Protocol};
use mps_session::*;
use std::alloc::AllocGlobal;
use std::process::Abort;

// One role gives another an int.
pub(super) fn int(rt: &(impl Abort + AllocGlobal), from: &str, to: &str, next: Global) -> Global {
    let (from, to) = (name(rt, from), name(rt, to));
    Global::message(rt.alloc(), from, to, Sort::Int, next).expect(rt, "memory")
}

// The loop of the variable.
fn looped(rt: &(impl Abort + AllocGlobal), text: &str, body: Global) -> Global {
    Global::rec(rt.alloc(), variable(rt, text), body).expect(rt, "memory")
}

// Where the loop X begins anew.
fn again(rt: &impl Abort) -> Global {
    Global::Var(variable(rt, "X"))
}

// The branch of the label in front of the others.
fn more(rt: &(impl Abort + AllocGlobal), label: &str, next: Global, others: Branches) -> Branches {
    Branches::more(rt.alloc(), name(rt, label), next, others).expect(rt, "memory")
}

// A role's choice between these branches.
fn chosen(rt: &impl Abort, from: &str, to: &str, branches: Branches) -> Global {
    Global::Choice {
        sender: name(rt, from),
        receiver: name(rt, to),
        branches,
    }
}

// One role chooses one of the labels. After the last comes `last`, after each other the end.
pub(super) fn choice(
    rt: &(impl Abort + AllocGlobal),
    from: &str,
    to: &str,
    labels: &[&str],
    last: Global,
) -> Global {
    let mut branches = Branches::NoMore;
    let mut next = last;
    for label in labels.iter().rev() {
        branches = more(rt, label, next, branches);
        next = Global::End;
    }
    chosen(rt, from, to, branches)
}

// The names of these letters.
pub(super) fn names(rt: &(impl Abort + AllocGlobal), letters: &[&str]) -> Vec<Name> {
    let mut names = Vec::new(rt.alloc());
    for text in letters {
        names.push(name(rt, text)).expect(rt, "memory");
    }
    names
}

// The protocol of these roles.
pub(super) fn protocol(
    rt: &(impl Abort + AllocGlobal),
    letters: &[&str],
    body: Global,
) -> Protocol {
    let roles = names(rt, letters);
    Protocol { roles, body }
}

// Why the protocol of these roles isn't opened, None where it is.
fn fault(rt: &(impl Abort + AllocGlobal), letters: &[&str], body: Global) -> Option<ProtocolFault> {
    open_protocol(rt.alloc(), &protocol(rt, letters, body)).err()
}

// The lines come out as they are wanted in a new session of the protocol of so many roles.
fn plays(rt: &(impl Abort + AllocGlobal), letters: &[&str], body: Global, lines: &[Line]) {
    let protocol = protocol(rt, letters, body);
    let mut session = open_protocol(rt.alloc(), &protocol).expect(rt, "a session");
    assert_eq!(rt; session.roles(), letters.len(), "a role for each name");
    play(rt, &mut session, lines);
}

// a gives b an int, b gives c one, and c tells a `ok` or `no`.
fn relay(rt: &(impl Abort + AllocGlobal)) -> Global {
    let told = choice(rt, "c", "a", &["ok", "no"], Global::End);
    int(rt, "a", "b", int(rt, "b", "c", told))
}

// Each role does its part.
const RELAYED: &[Line] = &[
    Asks(A, Ask::Send(B, "5"), "1 -"),
    Asks(B, Ask::Receive(A, "x"), "2 5"),
    Asks(B, Ask::Send(C, "7"), "3 -"),
    Asks(C, Ask::Receive(B, "y"), "4 7"),
    Asks(C, Ask::Choose(A, "ok"), "5 -"),
    Asks(A, Ask::Pick(C), "6 ok"),
];

// `mps_session::open_protocol` gives a new session, in which each role can do its part of `relay` to the end.
#[test]
fn each_role_of_an_opened_protocol_can_reach_its_end(rt: HostRuntime) {
    plays(&rt, &["a", "b", "c"], relay(&rt), RELAYED);
}

// In a loop, a goes on or stops; at go, the eighth role gives it an int.
fn looping(rt: &(impl Abort + AllocGlobal)) -> Global {
    let go = more(rt, "go", int(rt, "h", "a", again(rt)), Branches::NoMore);
    let branches = more(rt, "stop", Global::End, go);
    looped(rt, "X", chosen(rt, "a", "h", branches))
}

const EIGHT: &[&str] = &["a", "b", "c", "d", "e", "f", "g", "h"];

// A turn of the loop and its end, between a and h, the role at place 7. b takes no part, so it has ended at once.
const LOOPED: &[Line] = &[
    Asks(A, Ask::Choose(7, "go"), "1 -"),
    Asks(7, Ask::Pick(A), "2 go"),
    Asks(7, Ask::Send(A, "5"), "3 -"),
    Asks(A, Ask::Receive(7, "x"), "4 5"),
    Asks(A, Ask::Choose(7, "stop"), "5 -"),
    Asks(7, Ask::Pick(A), "6 stop"),
    Asks(7, Ask::Pick(A), "Ended"),
    Asks(B, Ask::Pick(A), "Ended"),
];

// `mps_session::open_protocol` gives a session of the most roles, 8, of which six take no part in the loop of the
// others.
#[test]
fn a_loop_of_two_among_eight_roles_opens(rt: HostRuntime) {
    plays(&rt, EIGHT, looping(&rt), LOOPED);
}

// The third of three roles has no type in the protocol, for the choice of that number.
fn is_unmergeable(rt: &(impl Abort + AllocGlobal), body: Global, choice: usize) {
    let role = Role::new(C);
    let found = fault(rt, &["a", "b", "c"], body);
    assert_eq!(rt;
        found,
        Some(ProtocolFault::Unmergeable { role, choice }),
        "at choice {choice}"
    );
}

// An int from a to c behind the last of two labels, which a tells b.
fn told_to_one(rt: &(impl Abort + AllocGlobal)) -> Global {
    let told = int(rt, "a", "c", Global::End);
    choice(rt, "a", "b", &["r", "l"], told)
}

// An int from a to c behind the last of two labels, which b tells a behind the last of two that a tells b.
fn told_behind_two(rt: &(impl Abort + AllocGlobal)) -> Global {
    let told = int(rt, "a", "c", Global::End);
    let inner = choice(rt, "b", "a", &["p", "q"], told);
    choice(rt, "a", "b", &["r", "l"], inner)
}

// `mps_session::open_protocol` names branches that differ for c, which takes no part in the choice: at one, it gets an
// int. Choices are counted in preorder from 0. Of one that fails in another, the inner one is named.
#[test]
fn branches_that_differ_are_named_by_role_and_choice(rt: HostRuntime) {
    is_unmergeable(&rt, told_to_one(&rt), 0);
    is_unmergeable(&rt, told_behind_two(&rt), 1);
}

// a tells c of its choice by a label.
fn told_by_a_label(rt: &(impl Abort + AllocGlobal), label: &str) -> Global {
    choice(rt, "a", "c", &[label], Global::End)
}

// c is told of both branches, by labels of its own.
fn told_by_labels(rt: &(impl Abort + AllocGlobal)) -> Global {
    let second = more(rt, "r", told_by_a_label(rt, "y"), Branches::NoMore);
    let branches = more(rt, "l", told_by_a_label(rt, "x"), second);
    chosen(rt, "a", "b", branches)
}

// c is told `y`.
const TOLD: &[Line] = &[
    Asks(A, Ask::Choose(B, "r"), "1 -"),
    Asks(A, Ask::Choose(C, "y"), "2 -"),
    Asks(C, Ask::Pick(A), "3 y"),
    Asks(B, Ask::Pick(A), "4 r"),
];

// `mps_session::open_protocol_by` opens by full merging what `open_protocol` refuses.
#[test]
fn a_role_that_is_told_by_labels_has_a_session_by_full_merging(rt: HostRuntime) {
    is_unmergeable(&rt, told_by_labels(&rt), 0);
    let protocol = protocol(&rt, &["a", "b", "c"], told_by_labels(&rt));
    let opened = open_protocol_by(rt.alloc(), Merging::Full, &protocol);
    let mut session = opened.expect(&rt, "a session");
    play(&rt, &mut session, TOLD);
}

// One label more than a choice may have.
const SEVENTEEN: &[&str] = &[
    "a", "b", "c", "d", "e", "f", "g", "h", "i", "j", "k", "l", "m", "n", "o", "p", "q",
];

// A loop in a loop of the same variable.
fn shadowed(rt: &(impl Abort + AllocGlobal)) -> Global {
    let inner = looped(rt, "X", int(rt, "a", "b", again(rt)));
    looped(rt, "X", int(rt, "a", "b", inner))
}

// Two loops, one in the other, without an act.
fn unguarded(rt: &(impl Abort + AllocGlobal)) -> Global {
    looped(rt, "X", looped(rt, "Y", again(rt)))
}

// What two roles a and b say in a protocol that has that fault.
fn faulty(rt: &(impl Abort + AllocGlobal), fault: GlobalFault) -> Global {
    match fault {
        GlobalFault::UnknownRole => int(rt, "a", "z", Global::End),
        GlobalFault::SelfMessage => int(rt, "a", "a", Global::End),
        GlobalFault::DoubleLabel => choice(rt, "a", "b", &["l", "l"], Global::End),
        GlobalFault::TooManyBranches => choice(rt, "a", "b", SEVENTEEN, Global::End),
        GlobalFault::Unbound => int(rt, "a", "b", again(rt)),
        GlobalFault::Shadowed => shadowed(rt),
        _ => unguarded(rt),
    }
}

// Faults of nodes.
const FAULTS: &[GlobalFault] = &[
    GlobalFault::UnknownRole,
    GlobalFault::SelfMessage,
    GlobalFault::DoubleLabel,
    GlobalFault::TooManyBranches,
    GlobalFault::Unbound,
    GlobalFault::Shadowed,
    GlobalFault::Unguarded,
];

// `mps_session::open_protocol` names a protocol's fault, here seven of the twelve. `protocols` of mps_test_texts has
// all of them.
#[test]
fn the_fault_of_a_protocol_is_named(rt: HostRuntime) {
    for wanted in FAULTS {
        let found = fault(&rt, &["a", "b"], faulty(&rt, *wanted));
        assert_eq!(rt;
            found,
            Some(ProtocolFault::Global(*wanted)),
            "a protocol with {wanted:?}"
        );
    }
}

// `mps_session::open_protocol` names the first of several faults: an unknown role before a message to itself and a
// variable without a `rec`. Two roles of one name are a fault of the roles.
#[test]
fn of_several_faults_the_first_is_named(rt: HostRuntime) {
    let unknown = ProtocolFault::Global(GlobalFault::UnknownRole);
    let body = int(&rt, "z", "z", again(&rt));
    assert_eq!(rt;
        fault(&rt, &["a", "b"], body),
        Some(unknown),
        "an unknown role comes first"
    );
    let double = ProtocolFault::Global(GlobalFault::DoubleRole);
    assert_eq!(rt;
        fault(&rt, &["a", "a"], Global::End),
        Some(double),
        "one name for two roles"
    );
}
