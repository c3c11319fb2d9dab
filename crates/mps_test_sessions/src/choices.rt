//! mps_session: sessions with loops and choices, which types open one, and that a session gives out 100,000 numbers.
//! Rows are a `Line` of `steps` each: a role is told the new step's number and what it took (`-`: nothing), or why not.
use crate::steps::Line::{Asks, Count, Keeps, Moves, Step, Undoes, Waits};
use crate::steps::{A, Ask, B, C, Line, Opening, answer, opened, opens_so, play, role_of};
use crate::tables::are_labels;
use crate::words::{more, name, variable};
use mps_base::{Name, Role, Sort, Value};
use mps_local::{Branches, Local};
use mps_session::*;
use std::alloc::AllocGlobal;
use std::process::Abort;

// The branches of two labels, each with the type after it.
fn either(
    rt: &(impl Abort + AllocGlobal),
    labels: [&str; 2],
    first: Local,
    second: Local,
) -> Branches {
    let others = more(rt, labels[1], second, Branches::NoMore);
    more(rt, labels[0], first, others)
}

// The branches of `ok` and `no`, after which the part ends.
fn ok_or_no(rt: &(impl Abort + AllocGlobal)) -> Branches {
    either(rt, ["ok", "no"], Local::End, Local::End)
}

// A choice that is made.
fn chooses(peer: u8, branches: Branches) -> Local {
    let peer = Role::new(peer);
    Local::Select { peer, branches }
}

// A choice that is taken.
fn picks(peer: u8, branches: Branches) -> Local {
    let peer = Role::new(peer);
    Local::Branch { peer, branches }
}

// An output.
fn send(rt: &(impl Abort + AllocGlobal), to: u8, sort: Sort, next: Local) -> Local {
    Local::send(rt.alloc(), Role::new(to), sort, next).expect(rt, "memory")
}

// An input.
fn recv(rt: &(impl Abort + AllocGlobal), from: u8, sort: Sort, next: Local) -> Local {
    Local::recv(rt.alloc(), Role::new(from), sort, next).expect(rt, "memory")
}

// The loop X.
fn looped(rt: &(impl Abort + AllocGlobal), body: Local) -> Local {
    Local::rec(rt.alloc(), variable(rt, "X"), body).expect(rt, "memory")
}

// Where the loop X begins anew.
fn again(rt: &impl Abort) -> Local {
    Local::Var(variable(rt, "X"))
}

// A list of two types.
fn two(rt: &(impl Abort + AllocGlobal), a: Local, b: Local) -> Vec<Local> {
    vec![in rt.alloc(); a, b].expect(rt, "memory")
}

// A list of three types.
fn three(rt: &(impl Abort + AllocGlobal), a: Local, b: Local, c: Local) -> Vec<Local> {
    vec![in rt.alloc(); a, b, c].expect(rt, "memory")
}

// a gives b an int, b gives c an int, and c tells a `ok` or `no`.
fn verdict(rt: &(impl Abort + AllocGlobal)) -> Vec<Local> {
    let a = send(rt, B, Sort::Int, picks(C, ok_or_no(rt)));
    let b = recv(rt, A, Sort::Int, send(rt, C, Sort::Int, Local::End));
    let c = recv(rt, B, Sort::Int, chooses(A, ok_or_no(rt)));
    three(rt, a, b, c)
}

// a tells b to go on, and gets a text from it, or to stop.
pub(super) fn looping(rt: &(impl Abort + AllocGlobal)) -> Vec<Local> {
    let told = recv(rt, B, Sort::Text, again(rt));
    let tells = send(rt, A, Sort::Text, again(rt));
    let a = chooses(B, either(rt, ["go", "stop"], told, Local::End));
    let b = picks(A, either(rt, ["go", "stop"], tells, Local::End));
    two(rt, looped(rt, a), looped(rt, b))
}

// What a role is expected to do: the word for it, the peer, the sort and the labels.
type Shown<'a> = (&'a str, u8, Option<Sort>, &'a [&'a str]);

// The session shows this for the role at that place.
fn shows(rt: &impl Abort, session: &Session, place: u8, wanted: &Shown<'_>) {
    // what an `Expect` may hold: the prover covers a function with one only where it names these
    let _held: Option<(Role, Sort, Name)> = None;
    let role = role_of(rt, session, place);
    let none: &[Name] = &[];
    let (word, peer, sort, labels) = match session.expect(role) {
        Expect::End => ("end", Role::new(A), None, none),
        Expect::Send(peer, sort) => ("send", peer, Some(sort), none),
        Expect::Recv(peer, sort) => ("recv", peer, Some(sort), none),
        Expect::Select(peer, labels) => ("choose", peer, None, labels),
        Expect::Branch(peer, labels) => ("pick", peer, None, labels),
    };
    assert!(rt;
        word == wanted.0
            && peer.is(Role::new(wanted.1))
            && sort == wanted.2
            && are_labels(labels, wanted.3),
        "the role at place {place}: found {word} {peer:?} {sort:?} {labels:?}, wanted {wanted:?}"
    );
}

// Lines with their answers: two turns of the loop, of which the second ends it. After `go` a has to receive first.
const ROUND: &[Line] = &[
    Asks(A, Ask::Choose(B, "go"), "1 -"),
    Asks(B, Ask::Pick(A), "2 go"),
    Asks(B, Ask::Send(A, "\"good day\""), "3 -"),
    Asks(A, Ask::Choose(B, "stop"), "WrongAct"),
    Asks(A, Ask::Receive(B, "w"), "4 \"good day\""),
    Asks(A, Ask::Choose(B, "stop"), "5 -"),
    Asks(B, Ask::Pick(A), "6 stop"),
    Asks(B, Ask::Pick(A), "Ended"),
    Count(6, 6),
    Keeps(A, "w", "\"good day\""),
];

// `mps_session::Session::forward` follows a type round its loop, and refuses with `Ended` once it is left.
#[test]
fn a_role_ends_once_it_has_left_its_loop(rt: HostRuntime) {
    let mut session = opened(&rt, looping(&rt));
    play(&rt, &mut session, ROUND);
}

// The ints of a and b are given and received.
const RELAY: &[Line] = &[
    Asks(A, Ask::Send(B, "5"), "1 -"),
    Asks(B, Ask::Receive(A, "x"), "2 5"),
    Asks(B, Ask::Send(C, "7"), "3 -"),
    Asks(C, Ask::Receive(B, "y"), "4 7"),
];

// Lines with their answers: each step that the types do not allow is refused by the first reason, and changes nothing.
const NAMED: &[Line] = &[
    // before the first step
    Asks(B, Ask::Receive(A, "x"), "NothingQueued"),
    Asks(A, Ask::Receive(B, "x"), "WrongAct"),
    Asks(A, Ask::Send(C, "5"), "WrongPeer"),
    Asks(A, Ask::Send(B, "true"), "WrongSort"),
    Count(0, 0),
    Asks(A, Ask::Send(B, "5"), "1 -"),
    Asks(B, Ask::Receive(A, "x"), "2 5"),
    Asks(B, Ask::Send(C, "7"), "3 -"),
    Asks(C, Ask::Receive(B, "y"), "4 7"),
    // where c has to choose, and a to pick
    Asks(C, Ask::Choose(A, "maybe"), "NoLabel"),
    Asks(C, Ask::Choose(B, "maybe"), "WrongPeer"),
    Asks(C, Ask::Send(A, "1"), "WrongAct"),
    Asks(A, Ask::Pick(C), "NothingQueued"),
    Asks(A, Ask::Pick(B), "WrongPeer"),
    Asks(C, Ask::Choose(A, "ok"), "5 -"),
    Asks(A, Ask::Pick(C), "6 ok"),
    // at the end, where a mark is still allowed
    Asks(A, Ask::Mark("e"), "7 -"),
    Asks(A, Ask::Send(B, "1"), "Ended"),
    Asks(C, Ask::Choose(A, "ok"), "Ended"),
    // no refused step took a number
    Count(7, 7),
    Moves("1 5; 2 5; 3 7; 4 7; 5 ok; 6 ok; 7 -; "),
];

// `mps_session::Session::forward` refuses with the violation that applies, the first of them, and a refusal changes
// nothing.
#[test]
fn a_refusal_names_the_first_violation(rt: HostRuntime) {
    let mut session = opened(&rt, verdict(&rt));
    play(&rt, &mut session, NAMED);
}

// What a and b are expected to do at first.
const FIRST: &[(u8, Shown<'static>)] = &[
    (A, ("send", B, Some(Sort::Int), &[])),
    (B, ("recv", A, Some(Sort::Int), &[])),
];

// What each role is expected to do once the ints are received.
const LAST: &[(u8, Shown<'static>)] = &[
    (A, ("pick", C, None, &["ok", "no"])),
    // an end has no peer, and a is named for it
    (B, ("end", A, None, &[])),
    (C, ("choose", A, None, &["ok", "no"])),
];

// The session shows each of these.
fn shows_each(rt: &impl Abort, session: &Session, wanted: &[(u8, Shown<'_>)]) {
    for (place, shown) in wanted {
        shows(rt, session, *place, shown);
    }
}

// `mps_session::Session::expect` shows what the role's type begins with, in a new session and after four steps.
#[test]
fn expect_shows_what_a_role_may_do_next(rt: HostRuntime) {
    let mut session = opened(&rt, verdict(&rt));
    shows_each(&rt, &session, FIRST);
    play(&rt, &mut session, RELAY);
    shows_each(&rt, &session, LAST);
}

// `mps_session::Session::expect` shows what the unfolded type begins with: not the loop, but its choice.
#[test]
fn expect_shows_what_the_body_of_a_loop_begins_with(rt: HostRuntime) {
    let session = opened(&rt, looping(&rt));
    shows_each(&rt, &session, &[(A, ("choose", B, None, &["go", "stop"]))]);
}

// Plays the lines where a and b have these types, which don't fit each other.
fn unfitting(rt: &(impl Abort + AllocGlobal), a: Local, b: Local, lines: &[Line]) {
    let mut session = opened(rt, two(rt, a, b));
    play(rt, &mut session, lines);
}

// b is to pick, and a value waits.
const VALUE_FOR_A_LABEL: &[Line] = &[
    Asks(A, Ask::Send(B, "5"), "1 -"),
    Asks(B, Ask::Pick(A), "Mismatch"),
    Waits(A, B, 0, "5"),
];

// b is to pick, and a label waits that is none of its branches'.
const UNKNOWN_LABEL: &[Line] = &[
    Asks(A, Ask::Choose(B, "maybe"), "1 -"),
    Asks(B, Ask::Pick(A), "Mismatch"),
    Waits(A, B, 0, "maybe"),
];

// b is to receive, and a label waits.
const LABEL_FOR_A_VALUE: &[Line] = &[
    Asks(A, Ask::Choose(B, "ok"), "1 -"),
    Asks(B, Ask::Receive(A, "s"), "Mismatch"),
    Waits(A, B, 0, "ok"),
];

// `mps_session::Session::forward` refuses a pick of a value as `Mismatch`, and the value still waits. With a protocol's
// types this can't happen.
#[test]
fn a_value_that_is_picked_stays_in_the_queue(rt: HostRuntime) {
    let a = send(&rt, B, Sort::Int, Local::End);
    unfitting(&rt, a, picks(A, ok_or_no(&rt)), VALUE_FOR_A_LABEL);
}

// `mps_session::Session::forward` refuses a pick of a label that no branch has as `Mismatch`, and the label still
// waits.
#[test]
fn a_label_of_no_branch_stays_in_the_queue(rt: HostRuntime) {
    let a = chooses(B, more(&rt, "maybe", Local::End, Branches::NoMore));
    unfitting(&rt, a, picks(A, ok_or_no(&rt)), UNKNOWN_LABEL);
}

// `mps_session::Session::forward` refuses a receipt of a label as `Mismatch`, and the label still waits.
#[test]
fn a_label_that_is_received_stays_in_the_queue(rt: HostRuntime) {
    let b = recv(&rt, A, Sort::Int, Local::End);
    unfitting(&rt, chooses(B, ok_or_no(&rt)), b, LABEL_FOR_A_VALUE);
}

// 16 labels, as many as a choice may have.
const LETTERS: &[&str] = &[
    "a", "b", "c", "d", "e", "f", "g", "h", "i", "j", "k", "l", "m", "n", "o", "p",
];

// A branch that ends for each of the letters.
fn sixteen(rt: &(impl Abort + AllocGlobal)) -> Branches {
    let mut branches = Branches::NoMore;
    for label in LETTERS.iter().rev() {
        branches = more(rt, label, Local::End, branches);
    }
    branches
}

// The type of the role at that place, of eight: the last makes a choice of sixteen labels, and the first takes it.
fn wide_at(rt: &(impl Abort + AllocGlobal), place: u8) -> Local {
    match place {
        0 => picks(7, sixteen(rt)),
        7 => chooses(A, sixteen(rt)),
        _ => Local::End,
    }
}

// The types of the eight.
fn wide(rt: &(impl Abort + AllocGlobal)) -> Vec<Local> {
    let mut types = Vec::new(rt.alloc());
    for place in 0..8u8 {
        types.push(wide_at(rt, place)).expect(rt, "memory");
    }
    types
}

// What the last of eight roles chooses, and what the first picks.
const SIXTEEN: &[&[Line]] = &[
    &[
        Asks(7, Ask::Choose(A, "a"), "1 -"),
        Asks(A, Ask::Pick(7), "2 a"),
    ],
    &[
        Asks(7, Ask::Choose(A, "h"), "1 -"),
        Asks(A, Ask::Pick(7), "2 h"),
    ],
    &[
        Asks(7, Ask::Choose(A, "p"), "1 -"),
        Asks(A, Ask::Pick(7), "2 p"),
    ],
];

// The lines come out as they are wanted in a new session of the eight.
fn plays_among_eight(rt: &(impl Abort + AllocGlobal), lines: &[Line]) {
    let mut session = opened(rt, wide(rt));
    assert_eq!(rt; session.roles(), 8, "eight roles");
    play(rt, &mut session, lines);
}

// `mps_session::Session::forward` among the most roles, 8, with the most labels, 16: the first, a middle and the last
// label are chosen and picked.
#[test]
fn eight_roles_choose_among_sixteen_labels(rt: HostRuntime) {
    for lines in SIXTEEN {
        plays_among_eight(&rt, lines);
    }
}

// After 100,000 marks of a. What a type does not allow is still refused as that.
const FULL: &[Line] = &[
    Asks(A, Ask::Send(B, "1"), "WrongAct"),
    Asks(A, Ask::Choose(B, "go"), "Full"),
    Asks(B, Ask::Mark("m"), "Full"),
    Count(100_000, 100_000),
    // the last step: number 100000, a left the mark m
    Step(99_999, "100000 0 left 0 m"),
    // a step that is taken back gives its number back to nobody
    Undoes(A, 100_000, "Ok"),
    Asks(A, Ask::Mark("m"), "Full"),
    Count(99_999, 100_000),
];

// The role at this place asks so many times, whatever it is answered.
pub(super) fn ask_often(
    rt: &(impl Abort + AllocGlobal),
    session: &mut Session,
    place: u8,
    ask: Ask,
    times: u32,
) {
    for _ in 0..times {
        let _ = answer(rt, session, place, ask);
    }
}

// `mps_session::Session::forward` gives out 100,000 numbers (`MAX_NUMBERS`), and refuses further steps as `Full`, also
// after an undo.
#[test]
fn a_session_is_full_after_100_000_numbers(rt: HostRuntime) {
    let mut session = opened(&rt, looping(&rt));
    ask_often(&rt, &mut session, A, Ask::Mark("m"), 100_000);
    play(&rt, &mut session, FULL);
}

// b keeps what a gives it, in a loop.
pub(super) fn giving(rt: &(impl Abort + AllocGlobal)) -> Vec<Local> {
    let gives = looped(rt, send(rt, B, Sort::Int, again(rt)));
    let takes = looped(rt, recv(rt, A, Sort::Int, again(rt)));
    two(rt, gives, takes)
}

// The k-th of many slots.
fn slot_name(rt: &(impl Abort + AllocGlobal), k: i64) -> Name {
    name(
        rt,
        format!(in rt.alloc(); "s{k}").expect(rt, "memory").as_str(),
    )
}

// Gives b the k-th value.
fn give(rt: &impl Abort, session: &mut Session, k: i64) {
    let (role, to) = (role_of(rt, session, A), Role::new(B));
    let value = Value::Int(k);
    assert!(rt;
        session.forward(role, Forward::Send { to, value }).is_ok(),
        "the send of {k}"
    );
}

// Keeps the value that came first from a in b's k-th slot.
fn keep(rt: &(impl Abort + AllocGlobal), session: &mut Session, k: i64) {
    let (role, from) = (role_of(rt, session, B), Role::new(A));
    let slot = slot_name(rt, k);
    assert!(rt;
        session
            .forward(role, Forward::Receive { from, slot })
            .is_ok(),
        "the receipt into slot s{k}"
    );
}

// Whether the value is that number.
fn is_int(value: Option<&Value>, wanted: i64) -> bool {
    match value {
        Some(Value::Int(kept)) => *kept == wanted,
        _ => false,
    }
}

// Whether b's k-th slot has its value.
fn is_filled(rt: &(impl Abort + AllocGlobal), session: &Session, k: i64) -> bool {
    let role = role_of(rt, session, B);
    is_int(session.slot(role, &slot_name(rt, k)), k)
}

// `mps_session::Session::slot` finds each of 1,000 slots of a role by its name, and none of a name that isn't bound.
#[test]
fn each_of_a_thousand_slots_is_found_by_name(rt: HostRuntime) {
    let mut session = opened(&rt, giving(&rt));
    for k in 0..1000i64 {
        give(&rt, &mut session, k);
        keep(&rt, &mut session, k);
    }
    for k in 0..1000i64 {
        assert!(rt; is_filled(&rt, &session, k), "slot s{k} of b has {k}");
    }
    assert!(rt; !is_filled(&rt, &session, 1000), "slot s1000 is not bound");
}

// As many inputs from the peer, and then one from that last one.
fn long(rt: &(impl Abort + AllocGlobal), count: usize, peer: u8, last: u8) -> Local {
    let mut t = recv(rt, last, Sort::Int, Local::End);
    for _ in 0..count {
        t = recv(rt, peer, Sort::Int, t);
    }
    t
}

// As many branches that end, and a last one in which something comes from that peer.
fn broad(rt: &(impl Abort + AllocGlobal), count: usize, last: u8) -> Local {
    let mut branches = more(rt, "l", long(rt, 0, B, last), Branches::NoMore);
    for _ in 0..count {
        branches = more(rt, "l", Local::End, branches);
    }
    chooses(B, branches)
}

// That comes of opening a session with the type, of which this is said, and an end.
fn opens_with_an_end(rt: &(impl Abort + AllocGlobal), what: &str, t: Local, wanted: Opening) {
    opens_so(rt, what, two(rt, t, Local::End), wanted);
}

// At the end of a's type stands a peer of the session, b, the role itself, a, or no role of the session, c.
const PEERS: &[(&str, u8, Opening)] = &[
    (
        "at the end of a's type b",
        B,
        Opening::Fault(A, LocalFault::TooManyNodes),
    ),
    ("at the end of a's type a", A, Opening::BadPeer(A)),
    ("at the end of a's type c", C, Opening::BadPeer(A)),
];

// `mps_session::Session::open` tells a bad peer before the size of the type, however large that is: so many inputs, or
// branches, as would run the stack out where a function calls itself for each.
#[test]
fn a_bad_peer_is_told_before_the_size_of_a_type(rt: HostRuntime) {
    for (what, last, wanted) in PEERS {
        opens_with_an_end(&rt, what, long(&rt, 1_000_000, B, *last), *wanted);
        opens_with_an_end(&rt, what, broad(&rt, 100_000, *last), *wanted);
    }
}

// So many inputs and an end, with the end as a node; an end alone for less than two nodes.
fn of_nodes(rt: &(impl Abort + AllocGlobal), nodes: usize) -> Local {
    match nodes.checked_sub(2) {
        Some(inputs) => long(rt, inputs, B, B),
        None => Local::End,
    }
}

// A choice of so many nodes in all, with at most 61 of them in a branch, since a path has 64 at most.
fn with_nodes(rt: &(impl Abort + AllocGlobal), count: usize) -> Local {
    let mut branches = Branches::NoMore;
    let mut left = count.saturating_sub(1);
    for label in LETTERS {
        let nodes = left.min(61);
        left = left.saturating_sub(nodes.max(1));
        branches = more(rt, label, of_nodes(rt, nodes), branches);
        if left == 0 {
            break;
        }
    }
    chooses(B, branches)
}

// `mps_session::Session::open` takes a type of 256 nodes, the most, and names the fault of one more.
#[test]
fn a_type_of_256_nodes_opens_and_one_more_is_a_fault(rt: HostRuntime) {
    opens_with_an_end(&rt, "256 nodes", with_nodes(&rt, 256), Opening::Opened);
    let fault = Opening::Fault(A, LocalFault::TooManyNodes);
    opens_with_an_end(&rt, "257 nodes", with_nodes(&rt, 257), fault);
}

// That comes of opening a session with these two types, of which this is said, and an end.
fn opens_of(rt: &(impl Abort + AllocGlobal), what: &str, a: Local, b: Local, wanted: Opening) {
    opens_so(rt, what, three(rt, a, b, Local::End), wanted);
}

// `mps_session::Session::open` tells a type's fault, and whose it is. Two kinds are tried here, all in
// mps_test_texts/local_faults.
#[test]
fn a_fault_of_a_type_is_told_with_its_role(rt: HostRuntime) {
    let fault = Opening::Fault(B, LocalFault::Unguarded);
    opens_of(
        &rt,
        "b with an unguarded loop",
        Local::End,
        looped(&rt, again(&rt)),
        fault,
    );
    let fault = Opening::Fault(B, LocalFault::NoBranches);
    opens_of(
        &rt,
        "b with no branches",
        Local::End,
        chooses(A, Branches::NoMore),
        fault,
    );
}

// `mps_session::Session::open` tells the least of two roles with a faulty type. a has 64 inputs and the end, 65 levels,
// one too many. Then it has one less, and only b has a fault, a variable that no `rec` binds.
#[test]
fn the_least_role_with_a_faulty_type_is_told(rt: HostRuntime) {
    let first = Opening::Fault(A, LocalFault::TooDeep);
    opens_of(
        &rt,
        "a of 65 levels",
        long(&rt, 63, B, B),
        again(&rt),
        first,
    );
    let second = Opening::Fault(B, LocalFault::Unbound);
    opens_of(
        &rt,
        "a of 64 levels",
        long(&rt, 62, B, B),
        again(&rt),
        second,
    );
}

// `mps_session::Session::open` tells a bad peer before a fault, though the fault is a lesser role's: of three roles
// none is at place 3.
#[test]
fn a_bad_peer_is_told_before_a_fault(rt: HostRuntime) {
    let stranger = long(&rt, 0, A, 3);
    opens_of(
        &rt,
        "a fault of a, and a peer of b at place 3",
        again(&rt),
        stranger,
        Opening::BadPeer(B),
    );
}
