//! mps_text, mps_base, mps_local, mps_table, mps_session, mps_links: calls that make something, or look at it, are
//! answered as with ample memory, or report that memory ran out and change nothing.
ghost use Rattle.std.specs.Prelude.{◌≡◌, ◌<◌, ◌∷◌, [], None, IfOk, IfSome, length, IsSome};
ghost use Rattle.mps_arena.specs.KeyedSteps.{steps};
ghost use Rattle.mps_global.specs.Global.{plain as global_type};
ghost use Rattle.mps_global.specs.Faults.{fault_of};
ghost use Rattle.mps_history.specs.Steps.{step_of};
ghost use Rattle.mps_links.specs.Marks.{marked_keys};
ghost use Rattle.mps_local.specs.Outcome.{AreProjections};
ghost use Rattle.mps_local.specs.declared.merging.Merging.TheVariants.{Plain};

use crate::outcomes::{Came, Outcome, Until, answered, came_to, refused};
use crate::parties::opened;
use crate::rows::PROTOCOL;
use mps_arena::{Arena, Before};
use mps_base::{Act, Name, Role, RoleFault, Roles, StepId, Value};
use mps_command::{Command, Forward, Refusal, StepIds};
use mps_global::{Protocol, check};
use mps_links::{least_dependent, least_final, mark_from};
use mps_local::{Local, LocalFault, ProjectFault, project};
use mps_session::{OpenFault, ProtocolFault, Session, open_protocol, same};
use mps_table::compile;
use mps_text::{TextFault, TextKind, read_protocol, write_protocol};
use std::alloc::Global;

// The protocol, which has no fault.
fn protocol(alloc: Global) -> Option<Protocol>
    ensures { IfSome result (λ p. fault_of p.roles.items (global_type p.body) ≡ None) }
{
    let protocol = read_protocol(alloc, PROTOCOL).ok()?;
    check(&protocol).ok()?;
    Some(protocol)
}

// The protocol as text.
fn wanted_text(alloc: Global) -> Option<Vec<u8>> {
    let Ok(wanted) = read_protocol(alloc, PROTOCOL) else {
        return None;
    };
    write_protocol(alloc, &wanted).ok()
}

fn is_the_protocol(alloc: Global, protocol: &Protocol) -> Option<bool> {
    let Ok(text) = write_protocol(alloc, protocol) else {
        return None;
    };
    Some(text == wanted_text(alloc)?)
}

// What comes of reading the protocol.
fn reading_judged(alloc: Global, read: Result<Protocol, TextFault>) -> Option<Outcome> {
    match read {
        Ok(protocol) => answered(is_the_protocol(alloc, &protocol)?),
        Err(fault) if fault.kind == TextKind::Memory => refused(read_protocol(
            alloc, PROTOCOL,
        ).is_ok()),
        Err(_) => Some(Outcome::Other),
    }
}

/// Reads a protocol.
pub fn reads_a_protocol(alloc: Global, until: Until) -> Option<Outcome> {
    if until == Until::Before {
        return Some(Outcome::Reached);
    }
    let read = read_protocol(alloc, PROTOCOL);
    if until == Until::After {
        return Some(Outcome::Reached);
    }
    reading_judged(alloc, read)
}

fn roles_made(alloc: Global, names: &[Name]) -> Came {
    match Roles::of(alloc, names) {
        Ok(roles) => came_to(roles.count() == names.len()),
        Err(RoleFault::Memory) => Came::Memory,
        Err(_) => Came::Other,
    }
}

// Makes the list of these roles.
fn makes_roles_of(alloc: Global, names: &[Name], until: Until) -> Option<Outcome> {
    if until == Until::Before {
        return Some(Outcome::Reached);
    }
    let made = roles_made(alloc, names);
    if until == Until::After {
        return Some(Outcome::Reached);
    }
    match made {
        Came::Memory => refused(roles_made(alloc, names) == Came::Wanted),
        made => answered(made == Came::Wanted),
    }
}

/// Makes the list of roles.
pub fn makes_roles(alloc: Global, until: Until) -> Option<Outcome> {
    let protocol = protocol(alloc)?;
    makes_roles_of(alloc, protocol.roles.as_slice(), until)
}

// What the first role does in the protocol.
fn first_type(alloc: Global, protocol: &Protocol) -> Result<Local, ProjectFault>
    requires { fault_of protocol.now.roles.items (global_type protocol.now.body) ≡ None }
{
    if protocol.roles.len() == 0 {
        return Err(ProjectFault::Memory);
    }
    project(alloc, protocol, Role::new(0))
}

fn type_made(alloc: Global, protocol: &Protocol) -> Came
    requires { fault_of protocol.now.roles.items (global_type protocol.now.body) ≡ None }
{
    match first_type(alloc, protocol) {
        Ok(Local::Rec { .. }) => Came::Wanted,
        Err(ProjectFault::Memory) => Came::Memory,
        _ => Came::Other,
    }
}

// Projects this protocol on its first role.
fn projects_it(alloc: Global, protocol: &Protocol, until: Until) -> Option<Outcome>
    requires { fault_of protocol.now.roles.items (global_type protocol.now.body) ≡ None }
{
    if until == Until::Before {
        return Some(Outcome::Reached);
    }
    let made = type_made(alloc, protocol);
    if until == Until::After {
        return Some(Outcome::Reached);
    }
    match made {
        Came::Memory => refused(type_made(alloc, protocol) == Came::Wanted),
        made => answered(made == Came::Wanted),
    }
}

/// Projects the protocol on its first role.
pub fn projects(alloc: Global, until: Until) -> Option<Outcome> {
    let protocol = protocol(alloc)?;
    projects_it(alloc, &protocol, until)
}

fn table_made(alloc: Global, tree: &Local) -> Came {
    match compile(alloc, tree) {
        Ok(_) => Came::Wanted,
        Err(LocalFault::Memory) => Came::Memory,
        Err(_) => Came::Other,
    }
}

// Makes the table of the type.
fn compiles_it(alloc: Global, tree: &Local, until: Until) -> Option<Outcome> {
    if until == Until::Before {
        return Some(Outcome::Reached);
    }
    let made = table_made(alloc, tree);
    if until == Until::After {
        return Some(Outcome::Reached);
    }
    match made {
        Came::Memory => refused(table_made(alloc, tree) == Came::Wanted),
        made => answered(made == Came::Wanted),
    }
}

// What the first role does.
fn first_tree(alloc: Global) -> Option<Local> {
    let protocol = protocol(alloc)?;
    first_type(alloc, &protocol).ok()
}

/// Makes the table of the first role's type.
pub fn compiles(alloc: Global, until: Until) -> Option<Outcome> {
    let tree = first_tree(alloc)?;
    compiles_it(alloc, &tree, until)
}

// Two types, of which either has nothing to say.
fn silence(alloc: Global) -> Option<Vec<Local>> {
    Some(vec![in alloc; Local::End, Local::End].ok()?)
}

fn session_made(alloc: Global, types: Vec<Local>) -> Came {
    match Session::open(alloc, types) {
        Ok(session) => came_to(session.roles() == 2),
        Err(OpenFault::Memory) => Came::Memory,
        Err(_) => Came::Other,
    }
}

/// Opens a session of types.
pub fn opens_a_session(alloc: Global, until: Until) -> Option<Outcome> {
    let types = silence(alloc)?;
    if until == Until::Before {
        return Some(Outcome::Reached);
    }
    let made = session_made(alloc, types);
    if until == Until::After {
        return Some(Outcome::Reached);
    }
    match made {
        Came::Memory => refused(session_made(alloc, silence(alloc)?) == Came::Wanted),
        made => answered(made == Came::Wanted),
    }
}

fn protocol_opened(alloc: Global, protocol: &Protocol) -> Came {
    match open_protocol(alloc, protocol) {
        Ok(session) => came_to(session.roles() == 3),
        Err(ProtocolFault::Memory) => Came::Memory,
        Err(_) => Came::Other,
    }
}

// Opens a session of this protocol.
fn opens_it(alloc: Global, protocol: &Protocol, until: Until) -> Option<Outcome> {
    if until == Until::Before {
        return Some(Outcome::Reached);
    }
    let opened = protocol_opened(alloc, protocol);
    if until == Until::After {
        return Some(Outcome::Reached);
    }
    match opened {
        Came::Memory => refused(protocol_opened(alloc, protocol) == Came::Wanted),
        opened => answered(opened == Came::Wanted),
    }
}

/// Opens a session of the protocol.
pub fn opens_a_protocol(alloc: Global, until: Until) -> Option<Outcome> {
    let protocol = protocol(alloc)?;
    opens_it(alloc, &protocol, until)
}

// The first role commits: the number of that step.
fn committed(session: &mut Session) -> Option<StepId>
    ensures { session.new.types ≡ session.old.types }
{
    if session.roles() == 0 {
        return None;
    }
    match session.forward(Role::new(0), Forward::Commit) {
        Ok(done) => Some(done.id),
        Err(_) => None,
    }
}

// Asks the session whether it would accept a rollback that this commit stands in the way of.
fn asks_beside(session: &mut Session, id: StepId, until: Until) -> Option<Outcome> {
    let first = StepId::new(1);
    if session.roles() == 0 {
        return None;
    }
    if until == Until::Before {
        return Some(Outcome::Reached);
    }
    let would = session.would(Role::new(0), &Command::Rollback(first));
    if until == Until::After {
        return Some(Outcome::Reached);
    }
    answered(id.is(first) && would == Err(Refusal::Final { by: first }))
}

/// Asks a session whether it would accept a rollback that a commit stands in the way of.
pub fn asks_whether(alloc: Global, until: Until) -> Option<Outcome> {
    let (_, mut session) = opened(alloc)?;
    let id = committed(&mut session)?;
    asks_beside(&mut session, id, until)
}

// A new session of the protocol.
fn session_of(alloc: Global, protocol: &Protocol) -> Option<Session>
    ensures { IfSome result (λ session. AreProjections Plain
        protocol.now.roles.items (global_type protocol.now.body) session.types) }
{
    match open_protocol(alloc, protocol) {
        Ok(session) => Some(session),
        Err(_) => None,
    }
}

// Compares the sessions.
fn compares_both(first: &Session, second: &Session, until: Until) -> Option<Outcome>
    requires types { first.now.types ≡ second.now.types }
{
    if until == Until::Before {
        return Some(Outcome::Reached);
    }
    let is_same = same(first, second);
    if until == Until::After {
        return Some(Outcome::Reached);
    }
    answered(is_same)
}

// Compares two sessions of this protocol.
fn compares_two(alloc: Global, protocol: &Protocol, until: Until) -> Option<Outcome> {
    let first = session_of(alloc, protocol)?;
    let second = session_of(alloc, protocol)?;
    compares_both(&first, &second, until)
}

/// Compares two sessions.
pub fn compares(alloc: Global, until: Until) -> Option<Outcome> {
    let protocol = protocol(alloc)?;
    compares_two(alloc, &protocol, until)
}

// a sends.
fn sent(session: &mut Session) -> bool
    requires { 1 < length session.old.types }
    ensures { session.new.types ≡ session.old.types }
{
    let (to, value) = (Role::new(1), Value::Int(5));
    session
        .forward(Role::new(0), Forward::Send { to, value })
        .is_ok()
}

// b receives what a sent.
fn received(session: &mut Session, slot: Name) -> bool
    requires { 1 < length session.old.types }
    ensures { session.new.types ≡ session.old.types }
{
    let from = Role::new(0);
    session
        .forward(Role::new(1), Forward::Receive { from, slot })
        .is_ok()
}

// A new session of the protocol in which b received what a sent.
fn relayed(alloc: Global, protocol: &Protocol) -> Option<Session>
    ensures { IfSome result (λ session. AreProjections Plain
        protocol.now.roles.items (global_type protocol.now.body) session.types) }
{
    let slot = Name::read(b"x")?;
    let mut session = session_of(alloc, protocol)?;
    if session.roles() >= 2 && sent(&mut session) && received(&mut session, slot) {
        Some(session)
    } else {
        None
    }
}

// Whether these are both steps, the newest first.
fn are_both(ids: &StepIds) -> bool {
    matches!(ids.as_slice(), [second, first] if second.number() == 2 && first.number() == 1)
}

// Whether the session is the same as the one that never tried, and now both steps are taken back.
fn goes_on(session: &mut Session, untried: &Session) -> bool
    requires role { 0 < length session.old.types }
    requires types { session.old.types ≡ untried.now.types }
{
    if !same(session, untried) || session.issued() != untried.issued() {
        return false;
    }
    match session.rollback(Role::new(0), StepId::new(1)) {
        Ok(ids) => are_both(&ids),
        Err(_) => false,
    }
}

// Rolls the first step back, beside a session in which that is never tried.
fn rolled_back(session: &mut Session, untried: &Session, until: Until) -> Option<Outcome>
    requires types { session.old.types ≡ untried.now.types }
{
    if session.roles() < 1 {
        return None;
    }
    if until == Until::Before {
        return Some(Outcome::Reached);
    }
    let rolled = session.rollback(Role::new(0), StepId::new(1));
    if until == Until::After {
        return Some(Outcome::Reached);
    }
    match rolled {
        Ok(ids) => answered(are_both(&ids)),
        Err(Refusal::Memory) => refused(goes_on(session, untried)),
        Err(_) => Some(Outcome::Other),
    }
}

// Rolls the first step back in a session of this protocol, beside one in which that is never tried.
fn rolls_back_one(alloc: Global, protocol: &Protocol, until: Until) -> Option<Outcome> {
    let mut session = relayed(alloc, protocol)?;
    let untried = relayed(alloc, protocol)?;
    rolled_back(&mut session, &untried, until)
}

/// Rolls a step back. Where memory runs out, the session is compared with one in which that was never tried.
pub fn rolls_back_beside(alloc: Global, until: Until) -> Option<Outcome> {
    let protocol = protocol(alloc)?;
    rolls_back_one(alloc, &protocol, until)
}

// ---- links

// Puts a mark of the first role after all other steps.
fn add_a_mark(arena: &mut Arena) -> Option<()>
    requires none { marked_keys arena.old.keyed_steps ≡ [] }
    ensures none { marked_keys arena.new.keyed_steps ≡ [] }
{
    arena.reserve_one().ok()?;
    let before = Before { at: 0, bound: None };
    let act = Act::Mark(Name::read(b"m")?);
    arena.add(Role::new(0), act, before, None);
    Some(())
}

// Puts three of them there.
fn add_three_marks(arena: &mut Arena) -> Option<()>
    requires none { marked_keys arena.old.keyed_steps ≡ [] }
    ensures none { marked_keys arena.new.keyed_steps ≡ [] }
{
    add_a_mark(arena)?;
    add_a_mark(arena)?;
    add_a_mark(arena)
}

// An arena with three marks of the first role.
fn three_marks(alloc: Global) -> Option<Arena>
    ensures none { IfSome result (λ arena. marked_keys arena.keyed_steps ≡ []) }
{
    let mut arena = Arena::new(alloc);
    match add_three_marks(&mut arena) {
        Some(()) => Some(arena),
        None => None,
    }
}

// The number of a step that is there.
fn present(arena: &Arena, number: u64) -> Option<StepId>
    ensures { IfSome result (λ id. IsSome (step_of (steps arena.now.keyed_steps) id)) }
{
    let id = StepId::new(number);
    match arena.by_id(id) {
        Some(_) => Some(id),
        None => None,
    }
}

// Looks for the least step that depends on the first.
fn finds_in(arena: &Arena, until: Until) -> Option<Outcome> {
    let id = present(arena, 1)?;
    if until == Until::Before {
        return Some(Outcome::Reached);
    }
    let found = least_dependent(arena, id);
    if until == Until::After {
        return Some(Outcome::Reached);
    }
    answered(found.map(|by| by.number()) == Some(2))
}

/// Looks for the least step that depends on one.
pub fn finds_a_dependent(alloc: Global, until: Until) -> Option<Outcome> {
    let arena = three_marks(alloc)?;
    finds_in(&arena, until)
}

// Puts a commit of the first role after all other steps.
fn add_a_commit(arena: &mut Arena) -> Option<()>
    requires none { marked_keys arena.old.keyed_steps ≡ [] }
    ensures none { marked_keys arena.new.keyed_steps ≡ [] }
{
    arena.reserve_one().ok()?;
    let before = Before { at: 0, bound: None };
    arena.add(Role::new(0), Act::Commit, before, None);
    Some(())
}

// Looks for the least commit among the second step and all that depend on it.
fn finds_a_commit_in(arena: &mut Arena, until: Until) -> Option<Outcome>
    requires none { marked_keys arena.old.keyed_steps ≡ [] }
{
    let id = present(arena, 2)?;
    mark_from(arena, id);
    if until == Until::Before {
        return Some(Outcome::Reached);
    }
    let found = least_final(arena);
    if until == Until::After {
        return Some(Outcome::Reached);
    }
    answered(found.map(|by| by.number()) == Some(4))
}

/// Looks for the least commit among a step and all that depend on it.
pub fn finds_a_commit(alloc: Global, until: Until) -> Option<Outcome> {
    let mut arena = three_marks(alloc)?;
    add_a_commit(&mut arena)?;
    finds_a_commit_in(&mut arena, until)
}

// Marks the second step and all that depend on it.
fn marks_in(arena: &mut Arena, until: Until) -> Option<Outcome>
    requires none { marked_keys arena.old.keyed_steps ≡ [] }
{
    let id = present(arena, 2)?;
    if until == Until::Before {
        return Some(Outcome::Reached);
    }
    let count = mark_from(arena, id);
    if until == Until::After {
        return Some(Outcome::Reached);
    }
    answered(count == 2)
}

/// Marks a step and all that depend on it.
pub fn marks_from(alloc: Global, until: Until) -> Option<Outcome> {
    let mut arena = three_marks(alloc)?;
    marks_in(&mut arena, until)
}
