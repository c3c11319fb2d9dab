//! The shown state, as a JSON value.
ghost use Rattle.std.specs.Prelude.{◌≡◌, ◌<◌, ◌++◌, ◌∷◌, List, IfOk, OnOk, length, map};
ghost use Rattle.std.specs.List.{flat_map, range_with_len};
ghost use Rattle.mps_history.specs.Steps.{numbers, steps_of};
ghost use Rattle.mps_local.specs.Actions.{head};
ghost use Rattle.mps_session.specs.SessionState.{session_view, moves_of};
ghost use Rattle.mps_show.specs.Private.Rows.{own_number};
ghost use Rattle.mps_show.specs.Shown.{row, step_shown, queue_shown, queues_from, queues_shown, waiting_shown};
ghost use Rattle.mps_show.specs.Shown.{head_shown, number_shown, binding_shown, role_shown, roles_shown, shown};
ghost use Rattle.serde_json.specs.View.{view};

use crate::json_parts;
use crate::text_heads::put_head;
use mps_base::{Role, Roles, Step};
use mps_session::Session;
use serde_json::{Value as Json, json};
use std::alloc::{AllocError, Global};

/// The state of the session as a JSON value: an object of its history, its queues and its roles, the same as
/// `write_show` writes. O(roles * steps). It fails only when out of memory; what was made is dropped then.
pub fn show(alloc: Global, names: &Roles, session: &Session) -> Result<Json, AllocError>
    requires { length names.now ≡ length session.now.types }
    ensures { IfOk result (λ v. view v
        ≡ shown names.now session.now.types session.now.state.history) }
{
    let history = history(alloc, names, session)?;
    let queues = queues(alloc, names, session)?;
    let roles = roles(alloc, names, session)?;
    json!(in alloc; {"history": history, "queues": queues, "roles": roles})
}

// Makes a JSON array of the surviving steps in order, each as `json_parts::step` makes it, with the message that it gave
// or took. It fails only when out of memory; what was made is dropped then.
fn history(alloc: Global, names: &Roles, session: &Session) -> Result<Json, AllocError>
    requires { length names.now ≡ length session.now.types }
    ensures { IfOk result (λ v. view v ≡ row (map (step_shown names.now) (moves_of session.now))) }
{
    let mut rows = Vec::with_capacity(alloc, session.len())?;
    for moved in session.moves() {
        rows.push(json_parts::step(alloc, names, moved.0, moved.1)?)?;
    }
    Ok(Json::Array(rows))
}

// Makes a JSON array of the queues that aren't empty, by sender and then by receiver. It fails only when out of memory.
fn queues(alloc: Global, names: &Roles, session: &Session) -> Result<Json, AllocError>
    requires { length names.now ≡ length session.now.types }
    ensures { IfOk result (λ v. view v
        ≡ row (queues_shown names.now (length session.now.types) (session_view session.now))) }
{
    let n = session.roles();
    let mut rows = Vec::new(alloc);
    // places of roles are below 8, so they fit
    for p in 0..n {
        push_queues(alloc, names, session, Role::new(p as u8), &mut rows)?;
    }
    Ok(Json::Array(rows))
}

// Appends the queues from one role that aren't empty, by receiver. When out of memory some may be appended; the array
// is dropped then.
fn push_queues(
    alloc: Global,
    names: &Roles,
    session: &Session,
    from: Role,
    rows: &mut Vec<Json>,
) -> Result<(), AllocError>
    requires count { length names.now ≡ length session.now.types }
    requires from { from < length session.now.types }
    ensures { OnOk result (map view rows.new.items ≡ map view rows.old.items
        ++ queues_from names.now (length session.now.types) (session_view session.now) from) }
{
    let n = session.roles();
    // places of roles are below 8, so they fit
    for q in 0..n {
        push_queue(alloc, names, session, from, Role::new(q as u8), rows)?;
    }
    Ok(())
}

// Appends the queue from one role to another as `[from, to, messages]`, unless it is empty. It fails only when out of
// memory, and appends nothing then.
fn push_queue(
    alloc: Global,
    names: &Roles,
    session: &Session,
    from: Role,
    to: Role,
    rows: &mut Vec<Json>,
) -> Result<(), AllocError>
    requires count { length names.now ≡ length session.now.types }
    requires from { from < length session.now.types }
    requires to { to < length session.now.types }
    ensures { OnOk result (map view rows.new.items ≡ map view rows.old.items
        ++ queue_shown names.now from to ((session_view session.now).queue from to)) }
{
    let messages = messages(alloc, session, from, to)?;
    if messages.is_empty() {
        return Ok(());
    }
    let mut parts = Vec::with_capacity(alloc, 3)?;
    parts.push(json_parts::role(alloc, names, from)?)?;
    parts.push(json_parts::role(alloc, names, to)?)?;
    parts.push(Json::Array(messages))?;
    rows.push(Json::Array(parts))?;
    Ok(())
}

// Makes JSON values of the messages that wait from one role to another, the oldest first. It fails only when out of
// memory.
fn messages(alloc: Global, session: &Session, from: Role, to: Role) -> Result<Vec<Json>, AllocError>
    ensures { IfOk result (λ all. map view all.items
        ≡ map waiting_shown ((session_view session.now).queue from to)) }
{
    let mut all = Vec::new(alloc);
    for message in session.waiting(from, to) {
        all.push(json_parts::waiting(alloc, message)?)?;
    }
    Ok(all)
}

// Makes a JSON array of the roles, in their order in the session. It fails only when out of memory.
fn roles(alloc: Global, names: &Roles, session: &Session) -> Result<Json, AllocError>
    requires { length names.now ≡ length session.now.types }
    ensures { IfOk result (λ v. view v
        ≡ row (roles_shown names.now session.now.types session.now.state.history)) }
{
    let n = session.roles();
    let mut rows = Vec::with_capacity(alloc, n)?;
    // places of roles are below 8, so they fit
    for p in 0..n {
        rows.push(participant(alloc, names, session, Role::new(p as u8))?)?;
    }
    Ok(Json::Array(rows))
}

// Makes a JSON object of a role: what its type allows next, the numbers of its steps, its name, and its slots. It fails
// only when out of memory.
fn participant(
    alloc: Global,
    names: &Roles,
    session: &Session,
    role: Role,
) -> Result<Json, AllocError>
    requires count { length names.now ≡ length session.now.types }
    requires role { role < length session.now.types }
    ensures { IfOk result (λ v. view v
        ≡ role_shown names.now (numbers (steps_of role session.now.state.history)) role
        ((session_view session.now).participant role)) }
{
    let expects = expects(alloc, names, session, role)?;
    let past = past(alloc, session, role)?;
    let name = json_parts::role(alloc, names, role)?;
    let store = store(alloc, session, role)?;
    json!(in alloc; {"expects": expects, "past": past, "role": name, "store": store})
}

// Makes a JSON string of what the role's type allows next, in the words of `put_head`. These are ASCII, so out of
// memory is the only error.
fn expects(alloc: Global, names: &Roles, session: &Session, role: Role) -> Result<Json, AllocError>
    requires count { length names.now ≡ length session.now.types }
    requires role { role < length session.now.types }
    ensures { IfOk result (λ v. view v
        ≡ head_shown names.now (head ((session_view session.now).participant role).to_come)) }
{
    let mut words = Vec::new(alloc);
    put_head(&mut words, names, session, role)?;
    match String::from_utf8(words) {
        Ok(words) => Ok(Json::String(words)),
        Err(_) => unreachable!(),
    }
}

// Makes a JSON array of the numbers of the role's surviving steps. O(steps of all roles). It fails only when out of
// memory.
fn past(alloc: Global, session: &Session, role: Role) -> Result<Json, AllocError>
    ensures { IfOk result (λ v. view v
        ≡ row (map number_shown (numbers (steps_of role session.now.state.history)))) }
{
    let mut all = Vec::new(alloc);
    for moved in session.moves() {
        push_own(role, moved.0, &mut all)?;
    }
    Ok(Json::Array(all))
}

// Appends the number of the step, if it is one of the role. It fails only when out of memory, and appends nothing then.
fn push_own(role: Role, step: &Step, all: &mut Vec<Json>) -> Result<(), AllocError>
    ensures { OnOk result (map view all.new.items ≡ map view all.old.items ++ own_number role step.now) }
{
    if !step.role.is(role) {
        return Ok(());
    }
    Ok(all.push(Json::from(step.id.number()))?)
}

// Makes a JSON array of the role's slots, each with its value, in the order in which they were first bound. It fails
// only when out of memory.
fn store(alloc: Global, session: &Session, role: Role) -> Result<Json, AllocError>
    requires { role < length session.now.types }
    ensures { IfOk result (λ v. view v
        ≡ row (map binding_shown ((session_view session.now).participant role).store)) }
{
    let count = session.slots(role);
    let mut all = Vec::with_capacity(alloc, count)?;
    for k in 0..count {
        // never: so many are bound
        let Some(binding) = session.binding(role, k) else {
            unreachable!()
        };
        all.push(json_parts::binding(alloc, binding.0, binding.1)?)?;
    }
    Ok(Json::Array(all))
}
