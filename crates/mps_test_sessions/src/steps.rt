//! mps_session: a step is accepted or refused by name, moves its message, binds its slot, and shows in the session.
//! Rows are values of `Line`: a role is told the new step's number and what it took (`-` for nothing), or why not.
ghost use Rattle.std.specs.Prelude.{◌<◌, length};

use crate::words::{name, value};
use mps_base::{Act, Message, Name, Role, Sort, StepId, Value};
use mps_local::Local;
use mps_session::*;
use std::alloc::AllocGlobal;
use std::process::Abort;

// The roles by their places.
pub(super) const A: u8 = 0;

pub(super) const B: u8 = 1;

pub(super) const C: u8 = 2;

// What a role asks for, with the peer's place.
#[derive(Clone, Copy)]
pub(super) enum Ask {
    Send(u8, &'static str),
    Choose(u8, &'static str),
    Receive(u8, &'static str),
    Pick(u8),
    Mark(&'static str),
    Commit,
}

// The command that is asked for.
pub(super) fn command(rt: &(impl Abort + AllocGlobal), ask: Ask) -> Forward {
    match ask {
        Ask::Send(to, text) => Forward::Send {
            to: Role::new(to),
            value: value(rt, text),
        },
        Ask::Choose(to, label) => Forward::Choose {
            to: Role::new(to),
            label: name(rt, label),
        },
        Ask::Receive(from, slot) => Forward::Receive {
            from: Role::new(from),
            slot: name(rt, slot),
        },
        Ask::Pick(from) => Forward::Pick {
            from: Role::new(from),
        },
        Ask::Mark(mark) => Forward::Mark {
            name: name(rt, mark),
        },
        Ask::Commit => Forward::Commit,
    }
}

// The role at this place, which the session has.
pub(super) fn role_of(rt: &impl Abort, session: &Session, place: u8) -> Role
    ensures { result < length session.now.types }
{
    let role = Role::new(place);
    assert!(rt;
        role.index() < session.roles(),
        "the role at place {place} is of the session"
    );
    role
}

// The text that the value is written as.
fn spelled(rt: &(impl Abort + AllocGlobal), value: &Value) -> String {
    let mut bytes = Vec::new(rt.alloc());
    value.write(&mut bytes).expect(rt, "memory");
    String::from_utf8(bytes).expect(rt, "a text")
}

// The text of these bytes.
pub(super) fn text(rt: &(impl Abort + AllocGlobal), bytes: &[u8]) -> String {
    let bytes = Vec::from_slice(rt.alloc(), bytes).expect(rt, "memory");
    String::from_utf8(bytes).expect(rt, "a text")
}

// What a message says, as it is written, and a dash where there is none.
fn written(rt: &(impl Abort + AllocGlobal), message: Option<&Message>) -> String {
    match message {
        Some(Message::Value(value)) => spelled(rt, value),
        Some(Message::Label(label)) => text(rt, label.as_bytes()),
        None => text(rt, b"-"),
    }
}

// A step that was taken: its number and what it took.
fn done(rt: &(impl Abort + AllocGlobal), done: &Done) -> String {
    let number = done.id.number();
    let got = written(rt, done.got.as_ref());
    format!(in rt.alloc(); "{number} {got}").expect(rt, "memory")
}

// The refusal of a step.
fn refusal(rt: &(impl Abort + AllocGlobal), refusal: Refusal) -> String {
    let shown = match refusal {
        Refusal::Violation(fault) => format!(in rt.alloc(); "{fault:?}"),
        _ => format!(in rt.alloc(); "{refusal:?}"),
    };
    shown.expect(rt, "memory")
}

// What a role is answered: the step's number and what it took, or the refusal.
pub(super) fn told(rt: &(impl Abort + AllocGlobal), answer: &Result<Done, Refusal>) -> String {
    match answer {
        Ok(taken) => done(rt, taken),
        Err(fault) => refusal(rt, *fault),
    }
}

// What the role at this place is answered.
pub(super) fn answer(
    rt: &(impl Abort + AllocGlobal),
    session: &mut Session,
    place: u8,
    ask: Ask,
) -> String {
    let role = role_of(rt, session, place);
    told(rt, &session.forward(role, command(rt, ask)))
}

// The refusal of an undo or a rollback, and the step that is in its way.
fn refused(rt: &(impl Abort + AllocGlobal), refusal: Refusal) -> String {
    let shown = match refusal {
        Refusal::Final { by } => format!(in rt.alloc(); "Final {}", by.number()),
        Refusal::Needed { by } => format!(in rt.alloc(); "Needed {}", by.number()),
        _ => format!(in rt.alloc(); "{refusal:?}"),
    };
    shown.expect(rt, "memory")
}

// What the role at this place is answered where it takes the step of that number back.
pub(super) fn undone(
    rt: &(impl Abort + AllocGlobal),
    session: &mut Session,
    place: u8,
    number: u64,
) -> String {
    let role = role_of(rt, session, place);
    match session.undo(role, StepId::new(number)).err() {
        Some(refusal) => refused(rt, refusal),
        None => text(rt, b"Ok"),
    }
}

// The numbers of the steps that were taken back.
fn numbers(rt: &(impl Abort + AllocGlobal), ids: &StepIds) -> String {
    let mut all = String::new(rt.alloc());
    for id in ids.as_slice() {
        let one = format!(in rt.alloc(); "{} ", id.number()).expect(rt, "memory");
        all.push_str(one.as_str()).expect(rt, "memory");
    }
    all
}

// The numbers of the steps that were taken back, or the refusal.
pub(super) fn gone(rt: &(impl Abort + AllocGlobal), answer: &Result<StepIds, Refusal>) -> String {
    match answer {
        Ok(ids) => numbers(rt, ids),
        Err(refusal) => refused(rt, *refusal),
    }
}

// What the role at this place is answered where it takes the step of that number back with all that
// depend on it.
fn rolled_back(
    rt: &(impl Abort + AllocGlobal),
    session: &mut Session,
    place: u8,
    number: u64,
) -> String {
    let role = role_of(rt, session, place);
    gone(rt, &session.rollback(role, StepId::new(number)))
}

// What the role at this place is answered where it goes back to the mark.
fn went_back(
    rt: &(impl Abort + AllocGlobal),
    session: &mut Session,
    place: u8,
    mark: &str,
) -> String {
    let role = role_of(rt, session, place);
    gone(rt, &session.back(role, &name(rt, mark)))
}

// The value that the role keeps in the slot, and a dash where the slot is empty.
fn kept(rt: &(impl Abort + AllocGlobal), session: &Session, place: u8, slot: &str) -> String {
    let role = role_of(rt, session, place);
    match session.slot(role, &name(rt, slot)) {
        Some(value) => spelled(rt, value),
        None => text(rt, b"-"),
    }
}

// The message that waits from one role to another at that place, and a dash where none does.
fn waiting(
    rt: &(impl Abort + AllocGlobal),
    session: &Session,
    from: u8,
    to: u8,
    k: usize,
) -> String {
    written(rt, session.message(Role::new(from), Role::new(to), k))
}

// What a name says, and a dash where there is none.
fn named(rt: &(impl Abort + AllocGlobal), name: Option<&Name>) -> String {
    match name {
        Some(name) => text(rt, name.as_bytes()),
        None => text(rt, b"-"),
    }
}

// The word for an act of the role, and the place of the peer.
fn deed(role: Role, act: &Act) -> (&'static str, usize) {
    match act {
        Act::Out { to, .. } => ("gave", to.index()),
        Act::In { from, .. } => ("took", from.index()),
        Act::Mark(_) => ("left", role.index()),
        Act::Commit => ("settled", role.index()),
    }
}

// What an act gave, its slot, or its mark.
fn moved_by(rt: &(impl Abort + AllocGlobal), act: &Act) -> String {
    match act {
        Act::Out { message, .. } => written(rt, Some(message)),
        Act::In { slot, .. } => named(rt, slot.as_ref()),
        Act::Mark(mark) => named(rt, Some(mark)),
        Act::Commit => named(rt, None),
    }
}

// A step: its number, its role, what it did and the peer, and what it gave, the slot, or the mark.
fn shown(rt: &(impl Abort + AllocGlobal), id: StepId, role: Role, act: &Act) -> String {
    let (did, peer) = deed(role, act);
    let what = moved_by(rt, act);
    let (number, place) = (id.number(), role.index());
    format!(in rt.alloc(); "{number} {place} {did} {peer} {what}").expect(rt, "memory")
}

// The k-th step that survives, and a dash where there is none.
fn step(rt: &(impl Abort + AllocGlobal), session: &Session, k: usize) -> String {
    match session.step(k) {
        Some((id, role, act)) => shown(rt, id, role, act),
        None => text(rt, b"-"),
    }
}

// A number, and the message that its step moved.
fn one_moved(rt: &(impl Abort + AllocGlobal), id: StepId, message: Option<&Message>) -> String {
    let (number, message) = (id.number(), written(rt, message));
    format!(in rt.alloc(); "{number} {message}; ").expect(rt, "memory")
}

// The number of each step, with the message that it moved.
fn moved(rt: &(impl Abort + AllocGlobal), session: &Session) -> String {
    let mut all = String::new(rt.alloc());
    for (step, message) in session.moves() {
        all.push_str(one_moved(rt, step.id, message).as_str())
            .expect(rt, "memory");
    }
    all
}

// What is done to a session or looked up in it, with what comes of it.
#[derive(Clone, Copy)]
pub(super) enum Line {
    // a role asks, and is answered
    Asks(u8, Ask, &'static str),
    // a role takes the step of that number back
    Undoes(u8, u64, &'static str),
    // a role takes the step of that number back, and all that depend on it
    RollsBack(u8, u64, &'static str),
    // a role goes back to a mark
    GoesBack(u8, &'static str, &'static str),
    // the message of that place that waits from one role to another
    Waits(u8, u8, usize, &'static str),
    // what a role keeps in a slot
    Keeps(u8, &'static str, &'static str),
    // the step of that place
    Step(usize, &'static str),
    // all steps, each with the message that it moved
    Moves(&'static str),
    // how many steps survive, and how many numbers were given out
    Count(usize, u64),
}

use Line::{Asks, Count, GoesBack, Keeps, Moves, RollsBack, Step, Undoes, Waits};

// The text found in that row is the wanted one.
fn is_told(rt: &impl Abort, row: usize, found: String, wanted: &str) {
    assert!(rt;
        found.as_str() == wanted,
        "row {row} (from 0): found {found}, wanted {wanted}"
    );
}

// The line, in that row, comes out as it is wanted.
fn play_line(rt: &(impl Abort + AllocGlobal), session: &mut Session, row: usize, line: Line) {
    match line {
        Asks(place, ask, wanted) => is_told(rt, row, answer(rt, session, place, ask), wanted),
        Undoes(place, id, wanted) => is_told(rt, row, undone(rt, session, place, id), wanted),
        RollsBack(place, id, wanted) => is_told(
            rt,
            row,
            rolled_back(rt, session, place, id),
            wanted,
        ),
        GoesBack(place, mark, wanted) => is_told(
            rt,
            row,
            went_back(rt, session, place, mark),
            wanted,
        ),
        Waits(from, to, k, wanted) => is_told(rt, row, waiting(rt, session, from, to, k), wanted),
        Keeps(place, slot, wanted) => is_told(rt, row, kept(rt, session, place, slot), wanted),
        Step(k, wanted) => is_told(rt, row, step(rt, session, k), wanted),
        Moves(wanted) => is_told(rt, row, moved(rt, session), wanted),
        Count(steps, numbers) => {
            let found = (session.len(), session.issued());
            assert_eq!(rt;
                found,
                (steps, numbers),
                "the steps and the numbers, row {row} (from 0)"
            );
        }
    }
}

// Each line comes out as it is wanted.
pub(super) fn play(rt: &(impl Abort + AllocGlobal), session: &mut Session, lines: &[Line]) {
    for (row, line) in lines.iter().enumerate() {
        play_line(rt, session, row, *line);
    }
}

// A new session of these types.
pub(super) fn opened(rt: &(impl Abort + AllocGlobal), types: Vec<Local>) -> Session {
    Session::open(rt.alloc(), types).expect(rt, "a session")
}

// An output (at true) or an input of a type, with the peer and the sort.
pub(super) type Row = (bool, u8, Sort);

// The act of the row in front of `next`.
fn in_front(rt: &(impl Abort + AllocGlobal), row: &Row, next: Local) -> Local {
    let peer = Role::new(row.1);
    let made = if row.0 {
        Local::send(rt.alloc(), peer, row.2, next)
    } else {
        Local::recv(rt.alloc(), peer, row.2, next)
    };
    made.expect(rt, "memory")
}

// The type of these rows.
fn type_of(rt: &(impl Abort + AllocGlobal), rows: &[Row]) -> Local {
    let mut t = Local::End;
    for row in rows.iter().rev() {
        t = in_front(rt, row, t);
    }
    t
}

// The types of these rows, the first role's first.
pub(super) fn types(rt: &(impl Abort + AllocGlobal), rows: &[&[Row]]) -> Vec<Local> {
    let mut types = Vec::new(rt.alloc());
    for row in rows {
        types.push(type_of(rt, row)).expect(rt, "memory");
    }
    types
}

// Plays the lines on a new session of the types of these rows.
pub(super) fn play_anew(rt: &(impl Abort + AllocGlobal), rows: &[&[Row]], lines: &[Line]) {
    let mut session = opened(rt, types(rt, rows));
    play(rt, &mut session, lines);
}

// a gives b an int, and then b gives c one.
pub(super) const A_TO_B_TO_C: &[&[Row]] = &[
    &[(true, B, Sort::Int)],
    &[(false, A, Sort::Int), (true, C, Sort::Int)],
    &[(false, B, Sort::Int)],
];

// Each step, and what waits and is kept before and after it; then what the session shows of all four.
const RELAY: &[Line] = &[
    Waits(A, B, 0, "-"),
    Asks(A, Ask::Send(B, "5"), "1 -"),
    Waits(A, B, 0, "5"),
    Waits(A, B, 1, "-"),
    Waits(B, C, 0, "-"),
    Keeps(B, "x", "-"),
    Asks(B, Ask::Receive(A, "x"), "2 5"),
    Waits(A, B, 0, "-"),
    Keeps(B, "x", "5"),
    Asks(B, Ask::Send(C, "7"), "3 -"),
    Waits(B, C, 0, "7"),
    Waits(A, B, 0, "-"),
    Asks(C, Ask::Receive(B, "y"), "4 7"),
    Waits(B, C, 0, "-"),
    Count(4, 4),
    // steps by their places: number, role, deed, peer, and the value or the slot
    Step(0, "1 0 gave 1 5"),
    Step(1, "2 1 took 0 x"),
    Step(2, "3 1 gave 2 7"),
    Step(3, "4 2 took 1 y"),
    Step(4, "-"),
    Moves("1 5; 2 5; 3 7; 4 7; "),
    Keeps(B, "x", "5"),
    Keeps(C, "y", "7"),
    Keeps(B, "y", "-"),
    // nothing waits between other places, also where no role is
    Waits(0, 3, 0, "-"),
    Waits(3, 1, 0, "-"),
    Waits(255, 255, 0, "-"),
];

// `mps_session::Session::forward` does the steps that the types allow. `message`, `slot`, `step` and `moves` show what
// they led to.
#[test]
fn accepted_steps_show_in_the_session(rt: HostRuntime) {
    play_anew(&rt, A_TO_B_TO_C, RELAY);
}

// What the types do not allow, before the first step, and then at the end of a's part.
const REFUSALS: &[Line] = &[
    Asks(B, Ask::Receive(A, "x"), "NothingQueued"),
    Asks(B, Ask::Receive(C, "x"), "WrongPeer"),
    Asks(B, Ask::Send(C, "1"), "WrongAct"),
    Asks(A, Ask::Send(C, "5"), "WrongPeer"),
    Asks(A, Ask::Send(C, "true"), "WrongPeer"),
    Asks(A, Ask::Send(B, "true"), "WrongSort"),
    Asks(A, Ask::Receive(B, "x"), "WrongAct"),
    // nothing has changed, and no number was given out
    Count(0, 0),
    Moves(""),
    Waits(A, B, 0, "-"),
    Asks(A, Ask::Send(B, "5"), "1 -"),
    Asks(A, Ask::Send(B, "5"), "Ended"),
    Asks(A, Ask::Receive(B, "x"), "Ended"),
    Count(1, 1),
    Waits(A, B, 0, "5"),
    Waits(A, B, 1, "-"),
];

// `mps_session::Session::forward` refuses what a role's type does not allow, by the first reason, and then nothing has
// changed.
#[test]
fn a_refused_step_changes_nothing(rt: HostRuntime) {
    play_anew(&rt, A_TO_B_TO_C, REFUSALS);
}

// a gives an int, and b takes a bool.
const UNFITTING: &[&[Row]] = &[&[(true, B, Sort::Int)], &[(false, A, Sort::Bool)]];

// The int waits as before, and the slot is empty.
const MISMATCH: &[Line] = &[
    Asks(A, Ask::Send(B, "5"), "1 -"),
    Asks(B, Ask::Receive(A, "x"), "Mismatch"),
    Waits(A, B, 0, "5"),
    Keeps(B, "x", "-"),
    Count(1, 1),
];

// `mps_session::Session::forward` refuses the receipt of a value of another sort as `Mismatch`, and changes nothing.
// With a protocol's types this can't happen.
#[test]
fn a_value_of_another_sort_is_a_mismatch(rt: HostRuntime) {
    play_anew(&rt, UNFITTING, MISMATCH);
}

// a gives b a text, a bool and an int.
const EACH_SORT: &[&[Row]] = &[
    &[
        (true, B, Sort::Text),
        (true, B, Sort::Bool),
        (true, B, Sort::Int),
    ],
    &[
        (false, A, Sort::Text),
        (false, A, Sort::Bool),
        (false, A, Sort::Int),
    ],
];

// The values wait, are received and kept as they were given, in their order.
const VALUES: &[Line] = &[
    Asks(A, Ask::Send(B, "\"good day\""), "1 -"),
    Asks(A, Ask::Send(B, "true"), "2 -"),
    Asks(A, Ask::Send(B, "-7"), "3 -"),
    Waits(A, B, 0, "\"good day\""),
    Waits(A, B, 1, "true"),
    Waits(A, B, 2, "-7"),
    Asks(B, Ask::Receive(A, "x"), "4 \"good day\""),
    Asks(B, Ask::Receive(A, "y"), "5 true"),
    Asks(B, Ask::Receive(A, "z"), "6 -7"),
    Keeps(B, "x", "\"good day\""),
    Keeps(B, "y", "true"),
    Keeps(B, "z", "-7"),
    Step(0, "1 0 gave 1 \"good day\""),
];

// `mps_session::Session::forward` passes values of each sort on unchanged.
#[test]
fn values_of_each_sort_are_passed_unchanged(rt: HostRuntime) {
    play_anew(&rt, EACH_SORT, VALUES);
}

// An output of an int to b, and an input of one from a.
pub(super) const TO_B: Row = (true, B, Sort::Int);

pub(super) const FROM_A: Row = (false, A, Sort::Int);

// a gives b three ints.
const THREE: &[&[Row]] = &[&[TO_B, TO_B, TO_B], &[FROM_A, FROM_A, FROM_A]];

// b receives into x, y and x again.
const AGAIN: &[Line] = &[
    Asks(A, Ask::Send(B, "1"), "1 -"),
    Asks(A, Ask::Send(B, "2"), "2 -"),
    Asks(A, Ask::Send(B, "3"), "3 -"),
    Waits(A, B, 0, "1"),
    Waits(A, B, 1, "2"),
    Waits(A, B, 2, "3"),
    Asks(B, Ask::Receive(A, "x"), "4 1"),
    Keeps(B, "x", "1"),
    Asks(B, Ask::Receive(A, "y"), "5 2"),
    Keeps(B, "x", "1"),
    Keeps(B, "y", "2"),
    Asks(B, Ask::Receive(A, "x"), "6 3"),
    Keeps(B, "x", "3"),
    Keeps(B, "y", "2"),
    Keeps(A, "x", "-"),
    Moves("1 1; 2 2; 3 3; 4 1; 5 2; 6 3; "),
];

// `mps_session::Session::slot` gives the value of the newest receipt into the slot; other slots and roles keep theirs.
#[test]
fn a_slot_has_the_value_of_its_newest_receipt(rt: HostRuntime) {
    play_anew(&rt, THREE, AGAIN);
}

// Marks before and after a's only act; they move no message.
const MARKS: &[Line] = &[
    Asks(A, Ask::Mark("m"), "1 -"),
    Asks(A, Ask::Send(B, "5"), "2 -"),
    // a mark is taken at the end of a part too
    Asks(A, Ask::Mark("m"), "3 -"),
    Count(3, 3),
    Waits(A, B, 0, "5"),
    Step(0, "1 0 left 0 m"),
    Step(2, "3 0 left 0 m"),
    Moves("1 -; 2 5; 3 -; "),
];

// `mps_session::Session::forward` of a mark is a step with a number, always allowed, which leaves type, queues and
// slots as they are.
#[test]
fn a_mark_is_a_step_that_is_always_allowed(rt: HostRuntime) {
    play_anew(&rt, A_TO_B_TO_C, MARKS);
}

// What comes of opening a session: a fault names the place of a role.
#[derive(Clone, Copy)]
pub(super) enum Opening {
    Opened,
    RoleCount,
    BadPeer(u8),
    Fault(u8, LocalFault),
}

// The fault of the opening, if it has one.
fn fault_of(opening: Opening) -> Option<OpenFault> {
    match opening {
        Opening::Opened => None,
        Opening::RoleCount => Some(OpenFault::RoleCount),
        Opening::BadPeer(place) => Some(OpenFault::BadPeer {
            role: Role::new(place),
        }),
        Opening::Fault(place, fault) => Some(OpenFault::Local {
            role: Role::new(place),
            fault,
        }),
    }
}

// That comes of opening a session with the types, of which this is said.
pub(super) fn opens_so(
    rt: &(impl Abort + AllocGlobal),
    what: &str,
    types: Vec<Local>,
    wanted: Opening,
) {
    let wanted = fault_of(wanted);
    let fault = Session::open(rt.alloc(), types).err();
    assert!(rt;
        fault == wanted,
        "{what}: found {fault:?}, wanted {wanted:?}"
    );
}

// Types: nothing; an output to a; an output to a and then an input from c.
const END: &[Row] = &[];

const TO_A: &[Row] = &[(true, A, Sort::Int)];

const FROM_C: &[Row] = &[(true, A, Sort::Int), (false, C, Sort::Int)];

// What is said of types, their rows, and what comes of opening a session with them.
const OPENINGS: &[(&str, &[&[Row]], Opening)] = &[
    // 2 to 8 roles, and one too few or too many
    ("one role", &[END], Opening::RoleCount),
    ("2 roles", &[END; 2], Opening::Opened),
    ("8 roles", &[END; 8], Opening::Opened),
    ("9 roles", &[END; 9], Opening::RoleCount),
    // of two bad peers that of the least role is told
    ("a of two names a", &[TO_A, TO_A], Opening::BadPeer(A)),
    ("b of two names c", &[&[TO_B], FROM_C], Opening::BadPeer(B)),
    ("both of two", &[TO_A, FROM_C], Opening::BadPeer(A)),
    // of three roles c is one
    ("b of three", &[&[TO_B], FROM_C, END], Opening::Opened),
];

// `mps_session::Session::open` takes the types of 2 to 8 roles that name other roles alone, and else tells the fault
// and the role.
#[test]
fn types_of_2_to_8_roles_open_a_session(rt: HostRuntime) {
    for (what, rows, wanted) in OPENINGS {
        opens_so(&rt, what, types(&rt, rows), *wanted);
    }
}
