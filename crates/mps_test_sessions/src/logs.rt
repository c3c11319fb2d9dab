//! mps_log, mps_arena, mps_queues: steps with links are an ordered list, and what waits is what isn't received.
ghost use Rattle.std.specs.Prelude.{◌<◌, IsTrue, IsSome};
ghost use Rattle.mps_arena.specs.Neighbours.{first_waiting, CanGo};

use mps_arena::{Arena, Before, Key};
use mps_base::{Act, Message, Name, Role, Step, StepId, Text, Value};
use mps_log::*;
use std::alloc::AllocGlobal;
use std::process::Abort;

mod random;

// A name, or a text.
#[derive(Clone, Copy, PartialEq)]
enum Word {
    X,
    Y,
    Z,
    Ok,
    No,
    SoBeIt,
    Empty,
}

// What a role does: it sends a number, a text or a label, receives into a slot, picks, marks, or commits.
#[derive(Clone, Copy)]
enum Deed {
    Send(u8, i64),
    Tell(u8, Word),
    Choose(u8, Word),
    Receive(u8, Word),
    Pick(u8),
    Mark(Word),
    Commit,
}

use Deed::{Choose, Commit, Mark, Pick, Receive, Send, Tell};

// The letters of the word.
fn letters(word: Word) -> &'static [u8] {
    match word {
        Word::X => b"x",
        Word::Y => b"y",
        Word::Z => b"z",
        Word::Ok => b"ok",
        Word::No => b"no",
        Word::SoBeIt => b"so be it",
        Word::Empty => b"",
    }
}

// The name of these letters.
fn name(rt: &impl Abort, word: Word) -> Name {
    Name::read(letters(word)).expect(rt, "a name")
}

// The role of that place.
fn role(place: u8) -> Role
    ensures { result < 8 }
{
    Role::new(place % 8)
}

// Whether a message waits.
fn waits(log: &Log, from: Role, to: Role) -> bool
    requires from { from < 8 }
    requires to { to < 8 }
    ensures { IsTrue result → IsSome (first_waiting log.now.keyed_steps from to) }
{
    let _steps = log.steps();
    log.message(from, to, 0).is_some()
}

// Whether the step of the key may go.
fn may_go(arena: &Arena, key: Key) -> bool
    ensures { IsTrue result → CanGo arena.now.keyed_steps key }
{
    let is_there = arena.id(key).is_some();
    let is_last = arena.next_of_role(key).is_none();
    let is_unreceived = arena.receipt(key).is_none();
    is_there && is_last && is_unreceived
}

// The step of the key with what was there before it and its mark, if there is one.
fn found(arena: &Arena, key: Key) -> Option<(&Step, Before, bool)> {
    let _number = arena.id(key)?;
    Some((arena.get(key), arena.before(key), arena.marked(key)))
}

// The role takes the message that waits first, if one does. It tells the number.
fn take(
    rt: &impl Abort,
    log: &mut Log,
    place: u8,
    peer: u8,
    slot: Option<Word>,
    at: u16,
) -> Option<StepId> {
    let own = role(place);
    let from = role(peer);
    if !waits(log, from, own) {
        return None;
    }
    let joined = match slot {
        Some(word) => log.receive(own, from, Some(&name(rt, word)), at),
        None => log.receive(own, from, None, at),
    };
    Some(joined.expect(rt, "memory"))
}

// The role sends that. It tells the number.
fn give(rt: &impl Abort, log: &mut Log, place: u8, to: u8, message: Message, at: u16) -> StepId {
    log.send(role(place), role(to), message, at)
        .expect(rt, "memory")
}

// The text of these letters.
fn text(rt: &(impl Abort + AllocGlobal), word: Word) -> Message {
    let bytes = Vec::from_slice(rt.alloc(), letters(word)).expect(rt, "memory");
    Message::Value(Value::Text(Text::new(bytes).expect(rt, "a text")))
}

// The role does that, if it may. It tells the number.
fn play(
    rt: &(impl Abort + AllocGlobal),
    log: &mut Log,
    place: u8,
    deed: Deed,
    at: u16,
) -> Option<StepId> {
    match deed {
        Send(to, n) => Some(give(rt, log, place, to, Message::Value(Value::Int(n)), at)),
        Tell(to, word) => Some(give(rt, log, place, to, text(rt, word), at)),
        Choose(to, label) => Some(give(rt, log, place, to, Message::Label(name(rt, label)), at)),
        Receive(from, slot) => take(rt, log, place, from, Some(slot), at),
        Pick(from) => take(rt, log, place, from, None, at),
        Mark(word) => {
            let joined = log.mark(role(place), name(rt, word), at);
            Some(joined.expect(rt, "memory"))
        }
        Commit => Some(log.commit(role(place), at).expect(rt, "memory")),
    }
}

// Takes the step of the key out, if it may go. It tells the number.
fn remove(log: &mut Log, key: Key) -> Option<StepId> {
    if may_go(log.steps(), key) {
        Some(log.remove(key).id)
    } else {
        None
    }
}

// Whether the message is the one that was given.
fn is_given(message: Option<&Message>, given: Option<Deed>) -> bool {
    match (message, given) {
        (None, None) => true,
        (Some(Message::Value(Value::Int(n))), Some(Send(_, number))) => *n == number,
        (Some(Message::Value(Value::Text(text))), Some(Tell(_, word))) => text.as_bytes()
            == letters(word),
        (Some(Message::Label(label)), Some(Choose(_, word))) => label.is_spelled(letters(word)),
        _ => false,
    }
}

// Whether the value is that of what was given.
fn is_kept(value: Option<&Value>, given: Option<Deed>) -> bool {
    match (value, given) {
        (None, None | Some(Choose(..))) => true,
        (Some(Value::Int(n)), Some(Send(_, number))) => *n == number,
        (Some(Value::Text(text)), Some(Tell(_, word))) => text.as_bytes() == letters(word),
        _ => false,
    }
}

// Whether the act is that deed.
fn is_act(act: &Act, deed: Deed) -> bool {
    match (act, deed) {
        (Act::Out { to, message }, Send(peer, _) | Tell(peer, _) | Choose(peer, _)) => {
            to.is(Role::new(peer)) && is_given(Some(message), Some(deed))
        }
        (Act::In { from, slot }, Receive(peer, word)) => match slot {
            Some(slot) => from.is(Role::new(peer)) && slot.is_spelled(letters(word)),
            None => false,
        },
        (Act::In { from, slot }, Pick(peer)) => from.is(Role::new(peer)) && slot.is_none(),
        (Act::Mark(name), Mark(word)) => name.is_spelled(letters(word)),
        (Act::Commit, Commit) => true,
        _ => false,
    }
}

// The number of the step of the key; 0 where there is none.
fn number(arena: &Arena, key: Option<Key>) -> u64 {
    match key {
        Some(key) => match arena.id(key) {
            Some(id) => id.number(),
            None => 0,
        },
        None => 0,
    }
}

// What the step of the key is linked to: what stands after it and before it, of all, of its role
// and of the sends of its pair; its receipt; its source.
fn links(arena: &Arena, key: Key) -> [Option<Key>; 8] {
    [
        arena.next(key),
        arena.prev(key),
        arena.next_of_role(key),
        arena.prev_of_role(key),
        arena.next_send(key),
        arena.prev_send(key),
        arena.receipt(key),
        arena.source(key),
    ]
}

// The role, what it did, where it stood, and the number of the receipt to which its slot was bound.
#[derive(Clone, Copy)]
struct Row(u8, Deed, u16, u64);

const A: u8 = 0;

const B: u8 = 1;

const C: u8 = 2;

// Each row joins, and the numbers go on from `first`.
fn plays(rt: &(impl Abort + AllocGlobal), log: &mut Log, first: u64, rows: &[Row]) {
    for (row, want) in rows.iter().zip(first..) {
        let id = play(rt, log, row.0, row.1, row.2).expect(rt, "it joins");
        assert_eq!(rt; id.number(), want, "the number of step {want}");
    }
}

// Whether the step of that number is the row's, and not marked.
fn is_row(arena: &Arena, id: u64, row: &Row) -> bool {
    let Some(key) = arena.by_id(StepId::new(id)) else {
        return false;
    };
    let Some((step, before, marked)) = found(arena, key) else {
        return false;
    };
    let bound = number(arena, before.bound);
    let is_step = step.id.number() == id && step.role.is(Role::new(row.0));
    is_step && is_act(&step.act, row.1) && before.at == row.2 && bound == row.3 && !marked
}

// The steps from that number on are those of the rows.
fn are_rows(rt: &impl Abort, arena: &Arena, first: u64, rows: &[Row]) {
    for (row, id) in rows.iter().zip(first..) {
        assert!(rt; is_row(arena, id, row), "step {id}");
    }
}

// The numbers of what the step of that number is linked to; none where there is no such step.
fn numbers(arena: &Arena, id: u64) -> Option<[u64; 8]> {
    let key = arena.by_id(StepId::new(id))?;
    let [
        next,
        prev,
        next_of_role,
        prev_of_role,
        next_send,
        prev_send,
        receipt,
        source,
    ] = links(arena, key);
    Some([
        number(arena, next),
        number(arena, prev),
        number(arena, next_of_role),
        number(arena, prev_of_role),
        number(arena, next_send),
        number(arena, prev_send),
        number(arena, receipt),
        number(arena, source),
    ])
}

// How many numbers lead to a step.
fn known(arena: &Arena) -> usize {
    let mut known = 0usize;
    for id in 0..=arena.issued() as u64 {
        if arena.by_id(StepId::new(id)).is_some() {
            known = known.saturating_add(1);
        }
    }
    known
}

// Each step, by its number, is linked to these.
fn are_linked(rt: &impl Abort, arena: &Arena, rows: &[(u64, Option<[u64; 8]>)]) {
    for row in rows {
        let id = row.0;
        assert_eq!(rt; numbers(arena, id), row.1, "step {id}");
    }
}

// The newest step of each of the first four roles.
fn last_of_roles(arena: &Arena) -> [u64; 4] {
    [
        number(arena, arena.last_of(role(0))),
        number(arena, arena.last_of(role(1))),
        number(arena, arena.last_of(role(2))),
        number(arena, arena.last_of(role(7))),
    ]
}

// The newest sends of pairs.
fn last_sends(arena: &Arena) -> [u64; 5] {
    [
        number(arena, arena.last_send(role(A), role(B))),
        number(arena, arena.last_send(role(B), role(A))),
        number(arena, arena.last_send(role(A), role(C))),
        number(arena, arena.last_send(role(C), role(A))),
        number(arena, arena.last_send(role(7), role(7))),
    ]
}

// The oldest and the newest step.
fn outer(arena: &Arena) -> [u64; 2] {
    [number(arena, arena.first()), number(arena, arena.last())]
}

// Takes the steps of these numbers out.
fn take_all_out(rt: &impl Abort, log: &mut Log, ids: &[u64]) {
    for id in ids {
        let key = log.steps().by_id(StepId::new(*id)).expect(rt, "a key");
        let gone = remove(log, key).expect(rt, "it may go");
        assert_eq!(rt;
            gone.number(),
            *id,
            "the number of the step that goes, {id}"
        );
    }
}

// None of the steps of these numbers may go.
fn none_may_go(rt: &impl Abort, log: &Log, ids: &[u64]) {
    for id in ids {
        let key = log.steps().by_id(StepId::new(*id)).expect(rt, "a key");
        assert!(rt; !may_go(log.steps(), key), "step {id}");
    }
}

// Nine steps of a, b and c; their nodes stand for any. Only b's second receipt finds its slot bound, by step 3.
const WORKED: &[Row] = &[
    Row(A, Send(B, 10), 0, 0),
    Row(A, Send(B, 20), 1, 0),
    Row(B, Receive(A, Word::X), 5, 0),
    Row(A, Choose(C, Word::Ok), 2, 0),
    Row(C, Mark(Word::Z), 8, 0),
    Row(B, Receive(A, Word::X), 6, 3),
    Row(B, Send(A, 30), 7, 0),
    Row(C, Pick(A), 8, 0),
    Row(A, Send(B, 40), 3, 0),
];

// Each number, and what its step is linked to, in the order of `links`; 0 is no link.
const WORKED_LINKS: &[(u64, Option<[u64; 8]>)] = &[
    (0, None),
    (1, Some([2, 0, 2, 0, 2, 0, 3, 0])),
    (2, Some([3, 1, 4, 1, 9, 1, 6, 0])),
    (3, Some([4, 2, 6, 0, 0, 0, 0, 1])),
    (4, Some([5, 3, 9, 2, 0, 0, 8, 0])),
    (5, Some([6, 4, 8, 0, 0, 0, 0, 0])),
    (6, Some([7, 5, 7, 3, 0, 0, 0, 2])),
    (7, Some([8, 6, 0, 6, 0, 0, 0, 0])),
    (8, Some([9, 7, 0, 5, 0, 0, 0, 4])),
    (9, Some([0, 8, 0, 4, 0, 2, 0, 0])),
    (10, None),
];

// Each number, and what its step is linked to after steps 7, 9, 6 and 8 are taken out, in this order.
const LEFT_LINKS: &[(u64, Option<[u64; 8]>)] = &[
    (1, Some([2, 0, 2, 0, 2, 0, 3, 0])),
    (2, Some([3, 1, 4, 1, 0, 1, 0, 0])),
    (3, Some([4, 2, 0, 0, 0, 0, 0, 1])),
    (4, Some([5, 3, 0, 2, 0, 0, 0, 0])),
    (5, Some([0, 4, 0, 0, 0, 0, 0, 0])),
    (6, None),
    (7, None),
    (8, None),
    (9, None),
];

// Two steps more, which get the next numbers, 10 and 11.
const MORE: &[Row] = &[Row(B, Receive(A, Word::Y), 6, 0), Row(A, Send(B, 50), 3, 0)];

// The links then.
const MORE_LINKS: &[(u64, Option<[u64; 8]>)] = &[
    (1, Some([2, 0, 2, 0, 2, 0, 3, 0])),
    (2, Some([3, 1, 4, 1, 11, 1, 10, 0])),
    (3, Some([4, 2, 10, 0, 0, 0, 0, 1])),
    (4, Some([5, 3, 11, 2, 0, 0, 0, 0])),
    (5, Some([10, 4, 0, 0, 0, 0, 0, 0])),
    (9, None),
    (10, Some([11, 5, 0, 3, 0, 0, 0, 2])),
    (11, Some([0, 10, 0, 4, 0, 2, 0, 0])),
];

// A log without steps.
fn empty(rt: &(impl Abort + AllocGlobal)) -> Log {
    Log::new(rt.alloc()).expect(rt, "memory")
}

// Whether these are the oldest and the newest step, the newest of a, b, c and h, and the newest sends of pairs.
fn has_ends(arena: &Arena, ends: [u64; 2], of_roles: [u64; 4], sends: [u64; 5]) -> bool {
    outer(arena) == ends && last_of_roles(arena) == of_roles && last_sends(arena) == sends
}

// What is there after the nine steps.
fn is_as_worked(rt: &impl Abort, log: &Log) {
    let arena = log.steps();
    are_linked(rt, arena, WORKED_LINKS);
    are_rows(rt, arena, 1, WORKED);
    assert!(rt;
        has_ends(arena, [1, 9], [9, 7, 8, 0], [9, 7, 4, 0, 0]),
        "the ends of nine steps"
    );
    assert_eq!(rt;
        (arena.len(), arena.issued()),
        (9, 9),
        "nine steps and numbers"
    );
    none_may_go(rt, log, &[1, 2, 3, 4, 5, 6]);
}

// What is there after four of them are gone.
fn is_as_left(rt: &impl Abort, log: &Log) {
    let arena = log.steps();
    are_linked(rt, arena, LEFT_LINKS);
    assert!(rt;
        has_ends(arena, [1, 5], [4, 3, 5, 0], [2, 0, 4, 0, 0]),
        "the ends once four are gone"
    );
    assert_eq!(rt;
        (arena.len(), arena.issued()),
        (5, 9),
        "five steps, nine numbers"
    );
    none_may_go(rt, log, &[1, 2]);
}

// What is there after two more.
fn is_as_more(rt: &impl Abort, log: &Log) {
    let arena = log.steps();
    are_linked(rt, arena, MORE_LINKS);
    are_rows(rt, arena, 10, MORE);
    assert!(rt;
        has_ends(arena, [1, 11], [11, 10, 5, 0], [11, 0, 4, 0, 0]),
        "the ends after two more"
    );
    assert_eq!(rt;
        (arena.len(), arena.issued()),
        (7, 11),
        "seven steps, eleven numbers"
    );
}

// `mps_log::Log` keeps steps with links as an ordered list: as steps come and go, look-ups of mps_arena give what was
// worked out by hand.
#[test]
fn links_follow_as_steps_come_and_go(rt: HostRuntime) {
    let mut log = empty(&rt);
    assert!(rt;
        has_ends(log.steps(), [0, 0], [0, 0, 0, 0], [0, 0, 0, 0, 0]),
        "no ends at first"
    );
    plays(&rt, &mut log, 1, WORKED);
    is_as_worked(&rt, &log);
    take_all_out(&rt, &mut log, &[7, 9, 6, 8]);
    is_as_left(&rt, &log);
    plays(&rt, &mut log, 10, MORE);
    is_as_more(&rt, &log);
}

// Whether the pair's k-th message is that number.
fn waits_at(log: &Log, from: u8, to: u8, k: usize, n: i64) -> bool {
    is_given(log.message(role(from), role(to), k), Some(Send(to, n)))
}

// Whether the role keeps that in its slot.
fn keeps(rt: &impl Abort, log: &Log, place: u8, slot: Word, given: Option<Deed>) -> bool {
    is_kept(log.value(role(place), &name(rt, slot)), given)
}

// `mps_log::Log::message` gives what waits in the order of the sends, 0 first. Each receipt takes the first, and binds
// its slot.
#[test]
fn messages_wait_in_the_order_of_their_sends(rt: HostRuntime) {
    let mut log = empty(&rt);
    for n in 0..1000i64 {
        play(&rt, &mut log, A, Send(B, n), 0).expect(&rt, "it joins");
    }
    assert!(rt;
        waits_at(&log, A, B, 0, 0) && waits_at(&log, A, B, 999, 999),
        "messages 0 and 999"
    );
    assert!(rt;
        log.message(role(A), role(B), 1000).is_none(),
        "no message 1000"
    );
    for n in 0..1000i64 {
        assert!(rt; waits_at(&log, A, B, 0, n), "message {n}");
        play(&rt, &mut log, B, Receive(A, Word::X), 0).expect(&rt, "it joins");
        assert!(rt; keeps(&rt, &log, B, Word::X, Some(Send(B, n))), "value {n}");
    }
    assert!(rt;
        log.message(role(A), role(B), 0).is_none(),
        "no message is left"
    );
    // of each message a send and a receipt
    assert_eq!(rt;
        (log.steps().len(), log.steps().issued()),
        (2000, 2000),
        "two steps for each message"
    );
}

// Three messages, an int, a text and an int, and three receipts into one slot, each bound before by the one before it.
const THRICE: &[Row] = &[
    Row(A, Send(B, 1), 0, 0),
    Row(A, Tell(B, Word::No), 0, 0),
    Row(A, Send(B, 3), 0, 0),
    Row(B, Receive(A, Word::X), 0, 0),
    Row(B, Receive(A, Word::X), 1, 4),
    Row(B, Receive(A, Word::X), 2, 5),
];

// The receipt of that number goes: its message waits again, and the slot has what it had before.
fn gives_back(rt: &impl Abort, log: &mut Log, id: u64, message: Option<Deed>, kept: Option<Deed>) {
    take_all_out(rt, log, &[id]);
    assert!(rt;
        is_given(log.message(role(A), role(B), 0), message),
        "after {id}"
    );
    assert!(rt; keeps(rt, log, B, Word::X, kept), "after {id}");
}

// `mps_log::Log::remove` of the receipts, 6 to 4: the message waits again, in front, and the slot has what it had
// before.
#[test]
fn a_slot_gets_back_what_it_had_before(rt: HostRuntime) {
    let mut log = empty(&rt);
    plays(&rt, &mut log, 1, THRICE);
    are_rows(&rt, log.steps(), 1, THRICE);
    assert!(rt;
        keeps(&rt, &log, B, Word::X, Some(Send(B, 3))),
        "x keeps the third message"
    );
    gives_back(&rt, &mut log, 6, Some(Send(B, 3)), Some(Tell(B, Word::No)));
    gives_back(&rt, &mut log, 5, Some(Tell(B, Word::No)), Some(Send(B, 1)));
    gives_back(&rt, &mut log, 4, Some(Send(B, 1)), None);
}

// Texts, one without a byte, and labels, which are given and then taken.
const SAID: &[Row] = &[
    Row(A, Tell(B, Word::SoBeIt), 0, 0),
    Row(A, Choose(B, Word::Ok), 0, 0),
    Row(A, Tell(B, Word::Empty), 0, 0),
    Row(A, Choose(B, Word::No), 0, 0),
    Row(B, Receive(A, Word::X), 0, 0),
    Row(B, Pick(A), 0, 0),
    Row(B, Receive(A, Word::Y), 0, 0),
    Row(B, Receive(A, Word::Z), 0, 0),
];

// `mps_log::Log::message` and `Log::value` give texts and labels as they were given. A label in a slot, here in z, is
// no value.
#[test]
fn texts_and_labels_are_kept_as_they_were_given(rt: HostRuntime) {
    let mut log = empty(&rt);
    plays(&rt, &mut log, 1, &SAID[..4]);
    for (row, k) in SAID[..4].iter().zip(0..) {
        assert!(rt;
            is_given(log.message(role(A), role(B), k), Some(row.1)),
            "message {k}"
        );
    }
    plays(&rt, &mut log, 5, &SAID[4..]);
    are_rows(&rt, log.steps(), 1, SAID);
    assert!(rt;
        keeps(&rt, &log, B, Word::X, Some(Tell(B, Word::SoBeIt))),
        "the text in x"
    );
    assert!(rt;
        keeps(&rt, &log, B, Word::Y, Some(Tell(B, Word::Empty))),
        "the empty text in y"
    );
    assert!(rt;
        keeps(&rt, &log, B, Word::Z, None),
        "a label in z is no value"
    );
}

// The pair's number.
fn of_pair(from: u8, to: u8) -> i64 {
    i64::from(from) * 8 + i64::from(to)
}

// What was sent from one to the other is received, and nothing is left there.
fn crosses(rt: &(impl Abort + AllocGlobal), log: &mut Log, from: u8, to: u8) {
    let n = of_pair(from, to);
    assert!(rt; waits_at(log, from, to, 0, n), "from {from} to {to}");
    play(rt, log, to, Receive(from, Word::X), 0).expect(rt, "it joins");
    assert!(rt;
        keeps(rt, log, to, Word::X, Some(Send(to, n))),
        "from {from} to {to}"
    );
    assert!(rt;
        log.message(role(from), role(to), 0).is_none(),
        "from {from} to {to}"
    );
}

// `mps_log::Log::message`: each of the 64 ordered pairs of 8 roles, a role with itself too, has a queue of its own.
#[test]
fn each_pair_of_roles_has_its_own_queue(rt: HostRuntime) {
    let mut log = empty(&rt);
    for pair in 0..64u8 {
        let (from, to) = (pair / 8, pair % 8);
        play(&rt, &mut log, from, Send(to, of_pair(from, to)), 0).expect(&rt, "it joins");
    }
    for pair in 0..64u8 {
        crosses(&rt, &mut log, pair / 8, pair % 8);
    }
    // of each pair a send and a receipt
    assert_eq!(rt;
        log.steps().len(),
        128,
        "a send and a receipt of each of 64 pairs"
    );
}

// `mps_log::Log` and its `Arena`: 100 steps come and go, one by one. Each is kept at the same place (its key), and has
// a number of its own.
#[test]
fn a_number_is_never_given_out_again(rt: HostRuntime) {
    let mut log = empty(&rt);
    let mut place = None;
    for id in 1..=100u64 {
        plays(&rt, &mut log, id, &[Row(A, Send(B, 0), 0, 0)]);
        let key = log.steps().by_id(StepId::new(id));
        assert!(rt;
            place.is_none() || place == key,
            "the place of {id} is used again"
        );
        place = key;
        assert_eq!(rt; known(log.steps()), 1, "step {id} alone is known");
        take_all_out(&rt, &mut log, &[id]);
    }
    assert_eq!(rt;
        (log.steps().len(), log.steps().issued()),
        (0, 100),
        "no step, 100 numbers"
    );
}

// A mark of role A, put into the arena under the next number.
fn noted(rt: &impl Abort, arena: &mut Arena, id: u64) -> Key {
    let key = arena.reserve_one().expect(rt, "memory");
    let act = Act::Mark(name(rt, Word::X));
    let before = Before { at: 0, bound: None };
    let added = arena.add(role(A), act, before, None);
    assert_eq!(rt; added, StepId::new(id), "the number of mark {id}");
    assert_eq!(rt; arena.by_id(added), Some(key), "the key of mark {id}");
    key
}

// Whether the step of the key is marked.
fn is_marked(arena: &Arena, key: Key) -> bool {
    matches!(found(arena, key), Some((_, _, true)))
}

// `mps_arena::Arena::set_mark` marks one step, as a rollback marks what it takes. These are not the marks that roles
// leave.
#[test]
fn set_mark_marks_one_step_alone(rt: HostRuntime) {
    let mut arena = Arena::new(rt.alloc());
    let first = noted(&rt, &mut arena, 1);
    let second = noted(&rt, &mut arena, 2);
    arena.set_mark(first, true);
    assert!(rt;
        is_marked(&arena, first) && !is_marked(&arena, second),
        "the first mark alone"
    );
    arena.set_mark(second, true);
    arena.set_mark(first, false);
    assert!(rt;
        !is_marked(&arena, first) && is_marked(&arena, second),
        "the second mark alone"
    );
}
