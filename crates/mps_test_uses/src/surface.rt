//! The crates from mps_base to mps_cell: each name that callers use, once, with its arguments: whoever renames one
//! finds it here, or in lines_and_servers.rt. The comment of a test begins with the crates, and with those of their
//! names, that it has. A call that requires what can't be shown in a line is made by a function that requires the same.
//! The text is RELAY of sessions.rt: a, b and c are its roles at the places 0, 1 and 2.
ghost use Rattle.std.specs.Prelude.{◌≡◌, ◌<◌, ◌≤◌, ◌^◌, [], None, IsSome, IsTrue, IfOk, length, false};
ghost use Rattle.mps_arena.specs.Keys.{last_key};
ghost use Rattle.mps_arena.specs.KeyedSteps.{HasSmallPeer, keyed_at, keys_of, steps};
ghost use Rattle.mps_arena.specs.Neighbours.{CanGo, IsSource};
ghost use Rattle.mps_base.specs.Effects.{effect};
ghost use Rattle.mps_command.specs.Changes.{change_of};
ghost use Rattle.mps_global.specs.Global.{plain as global_type};
ghost use Rattle.mps_global.specs.Faults.{fault_of};
ghost use Rattle.mps_history.specs.Steps.{receives, sends, step_of};
ghost use Rattle.mps_links.specs.Marks.{AreMarksClosed, marked_keys};
ghost use Rattle.mps_local.specs.Local.{plain};
ghost use Rattle.mps_local.specs.Shape.{AllPeers};
ghost use Rattle.mps_machine.specs.Machine.{initial};
ghost use Rattle.mps_queues.specs.Fronts.{AreFronts};
ghost use Rattle.mps_table.specs.Graph.{HasNext, IsNode};

use crate::rooms::relay;
use crate::sessions::RELAY;
use mps_arena::{Arena, Before, Key, Step};
use mps_base::{Act, Message, Name, Role, Roles, Sort, StepId, Value, VarName};
use mps_cell::{Busy, Cell, Held, Leave, Pass, PassFault, Pause, meet};
use mps_command::{Answer, Command};
use mps_global::{GlobalFault, Protocol, check};
use mps_links::{least_dependent, least_final, mark_from, unmark};
use mps_local::{Local, LocalFault, ProjectFault, project, write_local};
use mps_monitor::{Advance, Forward, Violation, judge};
use mps_queues::Queues;
use mps_room::{Caller, Room, Solo, Told, call_numbered};
use mps_session::{Expect, OpenFault, ProtocolFault, Refusal, Session, open_protocol, same};
use mps_stores::Stores;
use mps_table::{Node, Table, compile};
use mps_text::{TextFault, TextKind, read_protocol, write_protocol};
use std::alloc::{AllocError, Global};
use std::cmp::Ordering;
use std::process::Abort;
use std::sync::Wait;
use std::test::Fail;

// The roles at the places 0 and 1.
pub(crate) fn a() -> Role
    ensures { result ≡ 0 }
{
    Role::new(0)
}

pub(crate) fn b() -> Role
    ensures { result ≡ 1 }
{
    Role::new(1)
}

// ---- names, values and acts

// mps_base: `Name::read`, `VarName::read`, `Roles::of`, `count`, `find` and `name`: of the roles a and b the
// second, b, has place 1.
#[test]
fn a_role_of_mps_base_is_found_by_its_name(rt: HostRuntime) -> Result<(), Fail> {
    let alloc = rt.alloc();
    let first = Name::read(b"a").expect(&rt, "a name");
    let second = Name::read(b"b").expect(&rt, "a name");
    assert!(rt; VarName::read(b"X").is_some(), "X is a variable");
    let roles = Roles::of(alloc, &[first, second])?;
    assert_eq!(rt; roles.count(), 2, "the count of the roles a and b");
    assert_eq!(rt; roles.find(&second), Some(b()), "the place of b");
    assert!(rt; roles.name(b()).is_spelled(b"b"), "the name at place 1, b");
    Ok(())
}

// mps_base: `Value::read`, `write`, `sort` and `copy`: the text 5 is the int 5, is written as it was, and copied.
#[test]
fn a_value_of_mps_base_is_read_written_and_copied(rt: HostRuntime) -> Result<(), Fail> {
    let alloc = rt.alloc();
    let value = Value::read(alloc, b"5")?;
    let mut out = Vec::new(alloc);
    value.write(&mut out)?;
    assert!(rt; value.sort() == Sort::Int, "the sort of 5, int");
    assert_eq!(rt; out.as_slice(), b"5".as_slice(), "5 as it is written");
    let copied = value.copy(alloc)?;
    assert!(rt; matches!(copied, Value::Int(5)), "the copy of 5");
    Ok(())
}

// The kind of an act: an output is 0, an input 1, a mark 2, a commit 3.
fn kind_of(act: &Act) -> u8 {
    match act {
        Act::Out {
            to: _,
            message: Message::Value(_),
        } => 0,
        Act::Out {
            to: _,
            message: Message::Label(_),
        } => 0,
        Act::In { from: _, slot: _ } => 1,
        Act::Mark(_) => 2,
        Act::Commit => 3,
    }
}

// mps_base: `Act` and `Message`: `kind_of` names each of them, and numbers the acts for this test; of two that are
// made, a commit is 3 there, and an input 1.
#[test]
fn each_act_of_mps_base_is_named(rt: HostRuntime) {
    assert_eq!(rt; kind_of(&Act::Commit), 3, "the kind of a commit");
    assert_eq!(rt;
        kind_of(&Act::In {
            from: a(),
            slot: None
        }),
        1,
        "the kind of an input"
    );
}

// ---- protocols and types

// mps_text: `read_protocol` and `write_protocol`, mps_global: `check`: the relay's text is read, has no fault, and is
// written as it was.
#[test]
fn a_protocol_is_read_checked_and_written_by_mps_text(rt: HostRuntime) -> Result<(), Fail> {
    let alloc = rt.alloc();
    let protocol = read_protocol(alloc, RELAY)?;
    check(&protocol)?;
    let text = write_protocol(alloc, &protocol)?;
    assert_eq!(rt; text.as_slice(), RELAY, "the text of the relay");
    Ok(())
}

// Whether a text of too many nodes has such faults, of the text and of the protocol.
fn are_of_size(text: TextFault, protocol: GlobalFault, local: LocalFault) -> bool {
    let TextFault { at: _, kind } = text;
    kind == TextKind::TooManyNodes
        && protocol == GlobalFault::TooManyNodes
        && local == LocalFault::TooManyNodes
}

// mps_text: `TextFault` and `TextKind`, mps_global: `GlobalFault`, mps_local: `LocalFault`: each has the fault of too
// many nodes.
#[test]
fn each_kind_of_fault_can_be_too_many_nodes(rt: HostRuntime) {
    let text = TextFault {
        at: 0,
        kind: TextKind::TooManyNodes,
    };
    assert!(rt;
        are_of_size(text, GlobalFault::TooManyNodes, LocalFault::TooManyNodes),
        "too many nodes, of a text, a protocol and a local type"
    );
}

// The type of a role, as text.
fn type_of(alloc: Global, roles: &Roles, tree: &Local) -> Result<Vec<u8>, AllocError>
    requires { AllPeers (λ peer. peer < length roles.now) (plain tree.now) }
{
    let copied = tree.copy(alloc)?;
    drop(copied);
    write_local(alloc, roles, tree)
}

// The type of a role of a protocol.
fn projected(alloc: Global, protocol: &Protocol, role: Role) -> Result<Local, ProjectFault>
    requires well_formed { fault_of protocol.now.roles.items (global_type protocol.now.body) ≡ None }
    requires in_session { role < length protocol.now.roles.items }
{
    project(alloc, protocol, role)
}

// mps_table: `compile`, `Table::first` and `expect`: the table of `end` shows at its first node that the type has
// ended.
#[test]
fn a_table_of_mps_table_shows_the_end(rt: HostRuntime) -> Result<(), Fail> {
    let table = compile(rt.alloc(), &Local::End)?;
    assert!(rt;
        matches!(table.expect(table.first()), Expect::End),
        "the first node of `end`"
    );
    Ok(())
}

// The node after that one.
fn node_after(table: &Table, node: Node, choice: Option<usize>) -> Node
    requires { HasNext table.now node choice }
{
    table.after(node, choice)
}

// mps_monitor: `judge`: a send is allowed where it is expected, and goes on; where the type has ended it is `Ended`.
#[test]
fn a_send_is_judged_by_mps_monitor(rt: HostRuntime) -> Result<(), Fail> {
    let sent = Forward::Send {
        to: b(),
        value: Value::Int(5),
    };
    assert!(rt;
        judge(Expect::Send(b(), Sort::Int), &sent, None) == Ok(Advance::Next),
        "the expected send goes on"
    );
    assert!(rt;
        judge(Expect::End, &sent, None) == Err(Violation::Ended),
        "a send after the end is refused as that"
    );
    Ok(())
}

// ---- steps with links

// A step joins, and is there.
fn add(arena: &mut Arena, role: Role, act: Act, source: Option<Key>) -> Result<Key, AllocError>
    requires role { role < 8 }
    requires peer { HasSmallPeer (effect act) }
    requires source { IsSource arena.old.keyed_steps role (effect act) source }
{
    let key = arena.reserve_one()?;
    arena.add(role, act, Before { at: 0, bound: None }, source);
    Ok(key)
}

// The arena has one step, of a, with this key.
fn has_one(rt: &impl Abort, arena: &Arena, key: Option<Key>) {
    assert_eq!(rt; arena.first(), key, "the first step");
    assert_eq!(rt; arena.last(), key, "the last step");
    assert_eq!(rt; arena.last_of(a()), key, "the last step of a");
}

// mps_arena: `Arena::by_id`, `first`, `last`, `last_of` and `last_send`: the one step, a commit of a, has the number 1,
// and is the first, the last and a's last; nothing was sent.
#[test]
fn a_step_of_mps_arena_is_found_by_its_links(rt: HostRuntime) -> Result<(), Fail> {
    let mut arena = Arena::new(rt.alloc());
    add(&mut arena, a(), Act::Commit, None)?;
    let key = arena.by_id(StepId::new(1));
    assert!(rt; key.is_some(), "the number 1 leads to a step");
    has_one(&rt, &arena, key);
    assert!(rt; arena.last_send(a(), b()).is_none(), "no send from a to b");
    Ok(())
}

// A step and its neighbours.
fn neighbours(arena: &Arena, key: Key) -> (Role, [Option<Key>; 7])
    requires { IsSome (keyed_at key arena.now.keyed_steps) }
{
    let Step {
        id: _,
        role,
        act: _,
    } = arena.get(key);
    let keys = [
        arena.next(key),
        arena.prev(key),
        arena.next_of_role(key),
        arena.prev_of_role(key),
        arena.next_send(key),
        arena.prev_send(key),
        arena.receipt(key),
    ];
    (*role, keys)
}

// A step is marked and goes.
fn mark_and_remove(arena: &mut Arena, key: Key) -> bool
    requires some { IsSome (keyed_at key arena.old.keyed_steps) }
    requires goes { CanGo arena.old.keyed_steps key }
{
    let marked = arena.marked(key);
    arena.remove(key);
    marked
}

// The step is marked.
fn set_mark(arena: &mut Arena, key: Key)
    requires { IsSome (keyed_at key arena.old.keyed_steps) }
{
    arena.set_mark(key, true);
}

// mps_queues: `Queues::new` and `front`: in new queues nothing waits. The calls that require more are in the functions
// below.
#[test]
fn nothing_waits_in_new_queues_of_mps_queues(rt: HostRuntime) {
    let queues = Queues::new();
    assert!(rt;
        queues.front(a(), b()).is_none(),
        "no message from a to b waits"
    );
}

// A send is put after the others of its pair.
fn push(queues: &mut Queues, key: Key) {
    queues.push(a(), b(), key);
}

// The first send that waits is taken off.
fn take(queues: &mut Queues, arena: &Arena) -> Option<Key>
    requires { AreFronts arena.now.keyed_steps queues.old }
{
    queues.take(arena, a(), b())
}

// It is put back in front.
fn put_back(queues: &mut Queues, arena: &Arena)
    requires fronts { AreFronts arena.now.keyed_steps queues.old }
    requires some { IsSome (last_key None (keys_of (receives 0 1) arena.now.keyed_steps)) }
{
    queues.put_back(arena, a(), b());
}

// The last send is dropped.
fn drop_last(queues: &mut Queues, arena: &Arena)
    requires fronts { AreFronts arena.now.keyed_steps queues.old }
    requires some { IsSome (last_key None (keys_of (sends 0 1) arena.now.keyed_steps)) }
{
    queues.drop_last(arena, a(), b());
}

// mps_stores: `Stores::new`, `bind`, `get`, `entries` and `unbind`: x of a is bound to a key, found alone, and unbound.
#[test]
fn a_name_is_bound_and_found_in_mps_stores(rt: HostRuntime) -> Result<(), Fail> {
    let mut arena = Arena::new(rt.alloc());
    let key = arena.reserve_one()?;
    let name = Name::read(b"x").expect(&rt, "a name");
    let mut stores = Stores::new(rt.alloc())?;
    assert!(rt; stores.bind(a(), &name, key)?.is_none(), "x was not bound");
    assert_eq!(rt; stores.get(a(), &name), Some(key), "the key of x");
    assert_eq!(rt; stores.entries(a()).len(), 1, "the count of bound names");
    stores.unbind(a(), &name, None);
    Ok(())
}

// Whether the step has a dependent, how many depend on it, and the least commit among these.
fn dependents(arena: &mut Arena, id: StepId) -> (Option<StepId>, usize, Option<StepId>)
    requires present { IsSome (step_of (steps arena.old.keyed_steps) id) }
    requires unmarked { marked_keys arena.old.keyed_steps ≡ [] }
{
    let least = least_dependent(&*arena, id);
    let count = mark_from(arena, id);
    let commit = least_final(&*arena);
    unmark(arena);
    (least, count, commit)
}

// ---- sessions

// A session in which `a` sent a number.
fn sent(alloc: Global) -> Result<Session, Fail>
    ensures { IfOk result (λ s. length s.types ≡ 3) }
{
    let protocol = read_protocol(alloc, RELAY)?;
    let mut session = open_protocol(alloc, &protocol)?;
    if session.roles() != 3 {
        return Err("three roles".into());
    }
    let value = Value::Int(5);
    session.forward(a(), Forward::Send { to: b(), value })?;
    Ok(session)
}

// mps_session: `Session::issued`, `len`, `step`, `message`, `undo` and `expect`: the one send, step 1 at place 0, waits
// for b; its undo leaves what a's type began with.
#[test]
fn a_send_waits_in_a_session_of_mps_session(rt: HostRuntime) -> Result<(), Fail> {
    let mut session = sent(rt.alloc())?;
    let found = (session.len(), session.issued());
    assert_eq!(rt; found, (1, 1), "the steps and the numbers");
    assert!(rt; session.step(0).is_some(), "the step at place 0");
    assert!(rt;
        session.message(a(), b(), 0).is_some(),
        "the send to b waits"
    );
    session.undo(a(), StepId::new(1))?;
    assert!(rt;
        matches!(session.expect(a()), Expect::Send(_, Sort::Int)),
        "a send is expected again"
    );
    Ok(())
}

// mps_session: `Session::back`, `would`, `rollback` and `slot`, where a sent step 1 (`sent`): a return without a mark
// and a rollback of a step that isn't there, 2, are refused; one of step 1 takes it back alone. b received nothing, so
// its slot m is empty.
#[test]
fn a_sent_step_is_rolled_back_in_mps_session(rt: HostRuntime) -> Result<(), Fail> {
    let mut session = sent(rt.alloc())?;
    let name = Name::read(b"m").expect(&rt, "a name");
    assert!(rt;
        matches!(session.back(a(), &name), Err(Refusal::NoMark)),
        "the return to m finds no mark"
    );
    assert!(rt;
        session.would(a(), &Command::Rollback(StepId::new(2))) == Err(Refusal::NoStep),
        "the rollback of 2 finds no step"
    );
    assert!(rt;
        session.rollback(a(), StepId::new(1))?.as_slice().len() == 1,
        "the rollback of 1 takes one step back"
    );
    assert!(rt;
        session.slot(b(), &name).is_none(),
        "the slot m of b is empty"
    );
    Ok(())
}

// mps_session: `same`: a session is the same as itself.
#[test]
fn a_session_of_mps_session_is_the_same_as_itself(rt: HostRuntime) -> Result<(), Fail> {
    let session = sent(rt.alloc())?;
    assert!(rt; same(&session, &session), "a session and itself");
    Ok(())
}

// mps_session: `Session::open`: no types open no session, since there are 2 to 8 roles.
#[test]
fn no_types_open_no_session_of_mps_session(rt: HostRuntime) {
    let none = Session::open(rt.alloc(), Vec::new(rt.alloc()));
    assert!(rt;
        matches!(none, Err(OpenFault::RoleCount)),
        "no types are refused as RoleCount"
    );
}

// Whether a protocol gives no session for the fault of one of its roles.
fn is_unmergeable(fault: ProtocolFault) -> bool {
    match fault {
        ProtocolFault::Global(_) => false,
        ProtocolFault::Unmergeable { role: _, choice: _ } => true,
        ProtocolFault::Memory => false,
    }
}

// ---- rooms and their callers

// mps_room: `Room::open`, `apply`, `entries`, `entry`, `session`, `command`, `news` and `show`: a mark is accepted, and
// is the one entry, at place 0, with its step and its command; the news tell that there is one entry.
#[test]
fn a_mark_is_an_entry_of_a_room_of_mps_room(rt: HostRuntime) -> Result<(), Fail> {
    let alloc = rt.alloc();
    let (names, session) = relay(alloc)?;
    let mut room = Room::open(alloc, names, session);
    let name = Name::read(b"m").expect(&rt, "a name");
    let done = room.apply(a(), Command::Forward(Forward::Mark { name }));
    assert!(rt; matches!(done, Answer::Done(_)), "the mark is accepted");
    assert_eq!(rt; room.entries(), 1, "the count of entries");
    assert!(rt; room.entry(0)?.is_some(), "the entry at place 0");
    assert_eq!(rt; room.session().len(), 1, "the count of steps");
    assert!(rt; room.command(0)?.is_some(), "the command of entry 0");
    let (length, _) = room.news(a(), 0)?;
    assert_eq!(rt; length, 1, "the count of entries in the news");
    let _shown = room.show()?;
    Ok(())
}

// What the caller keeps of its numbered commands after the command.
fn kept_after<C: Caller>(caller: &mut C, command: Command) -> bool
    requires { IsSome (change_of command) }
{
    let told = call_numbered(caller, 1, command);
    match told {
        Told::Fresh => caller.last() == 1 && caller.kept().is_some(),
        Told::Kept => false,
        Told::Wrong => false,
        Told::Refused(_) => false,
    }
}

// mps_room: `Solo::new`, `call_numbered`, `Caller::roles` and `call`: a caller keeps the number 1 of an accepted mark,
// and gives commands without a number. No step has the number 9.
#[test]
fn a_caller_of_mps_room_keeps_its_number(rt: HostRuntime) -> Result<(), Fail> {
    let alloc = rt.alloc();
    let (names, session) = relay(alloc)?;
    let mut caller = Solo::new(Room::open(alloc, names, session), a());
    let name = Name::read(b"m").expect(&rt, "a name");
    assert!(rt;
        kept_after(&mut caller, Command::Forward(Forward::Mark { name })),
        "the number of the mark is kept"
    );
    assert_eq!(rt; caller.roles().count(), 3, "the count of roles");
    let answer = caller.call(Command::Undo(StepId::new(9)));
    assert!(rt;
        matches!(answer, Answer::Refused(Refusal::NoStep)),
        "the undo of 9 finds no step"
    );
    Ok(())
}

// ---- cells

// A pause that counts.
#[derive(Drop)]
struct Once(u64);

impl Pause for Once {
    fn pause(&mut self) {
        self.0 = 1;
    }
}

// Whether a pass gets its answers: that step 9 isn't there, by each kind of call, and that its journal is empty.
fn passes_answer<R: Wait>(rt: &R, pass: Pass<'_>) -> bool {
    let mut pass = pass;
    let mut pause = Once(0);
    let called = pass.call(rt, Command::Undo(StepId::new(9)));
    let paused = pass.call_with(rt, Command::Undo(StepId::new(9)), &mut pause);
    let tried = pass.try_call(Command::Undo(StepId::new(9)));
    matches!(called, Answer::Refused(_))
        && matches!(paused, Answer::Refused(_))
        && pause.0 == 1
        && tried.is_ok()
        && pass.front() == 0
        && pass.seen() == 0
        && pass.role() == a()
}

// Whether the pass of the first role gets its answers.
fn first_answers<R: Wait>(rt: &R, cell: &mut Cell) -> bool {
    let Ok(mut all) = cell.passes() else {
        return false;
    };
    all.truncate(1);
    match all.pop() {
        Some(pass) => passes_answer(rt, pass),
        None => false,
    }
}

// mps_cell: `Cell::open`, `passes` and `close`, `Pass::call` and others: a pass calls its cell, which gives its passes
// once, and the room when it is closed.
#[test]
fn a_pass_calls_its_cell_of_mps_cell(rt: HostRuntime) -> Result<(), Fail> {
    let alloc = rt.alloc();
    let (names, session) = relay(alloc)?;
    let mut cell = Cell::open(alloc, names, session)?;
    assert!(rt;
        first_answers(&rt, &mut cell),
        "the pass of a: an undo of 9, called in three ways, and no entry"
    );
    assert!(rt;
        matches!(cell.passes(), Err(PassFault::Given)),
        "the second passes: they were given"
    );
    assert!(rt; cell.close().is_some(), "the room is given back");
    Ok(())
}

// A pass is called as any caller, and leaves.
fn leave<R: Wait>(rt: &R, pass: Pass<'_>) -> Leave {
    let mut held = Held { rt, pass };
    let _refused = held.call(Command::Undo(StepId::new(9)));
    held.pass.leave()
}

// How long the journal was found where the room was out.
fn found(busy: Busy) -> u64 {
    busy.found
}

// The room of a cell that is closed with what a pass left.
fn close_with(cell: Cell, leave: Leave) -> Option<Room>
    requires { leave.cell ≡ cell.cell }
{
    cell.close_with(leave)
}

// What two passes of a cell have seen is compared.
fn compare(first: &mut Pass<'_>, second: &mut Pass<'_>) -> Ordering
    requires { second.old.cell ≡ first.old.cell }
{
    meet(first, second)
}
