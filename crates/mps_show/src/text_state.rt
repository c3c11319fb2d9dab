//! The shown state, written as text at once.
ghost use Rattle.std.specs.Prelude.{◌≡◌, ◌<◌, ◌++◌, ◌∷◌, [], ℕ, List, IfOk, OnOk, OnErr, length, map, replicate, codes};
ghost use Rattle.std.specs.Prelude.{false};
ghost use Rattle.std.specs.List.{flat_map, range_with_len};
ghost use Rattle.mps_history.specs.Steps.{newest_of, numbers, steps_of};
ghost use Rattle.mps_local.specs.Actions.{head};
ghost use Rattle.mps_session.specs.SessionState.{session_view, moves_of};
ghost use Rattle.mps_show.specs.Plain.{IsPlain, ArePlainItems, AreShown};
ghost use Rattle.mps_show.specs.Private.Rows.{joined, behind, past_text, ArePasts};
ghost use Rattle.mps_show.specs.Shown.{row, role_name, step_shown, queue_shown, queues_from, queues_shown};
ghost use Rattle.mps_show.specs.Shown.{waiting_shown, head_shown, binding_shown, role_shown, roles_shown};
ghost use Rattle.mps_base.specs.Spaced.{spaced};
ghost use Rattle.mps_show.specs.Shown.{head_tokens, newest_shown, shown, show_text, stand_text};
ghost use Rattle.serde_json.specs.View.{items_of};
ghost use Rattle.serde_json.specs.Written.{compact_text};

use crate::past::Past;
use crate::pieces::Decimal;
use crate::text_heads::put_head;
use crate::text_parts::{put_binding, put_comma, put_role, put_step, put_waiting};
use mps_base::{Message, Role, Roles};
use mps_session::{Queue, Session};
use std::alloc::AllocError;

// For how many bytes a step there is room in the beginning: more than steps with short names and numbers take.
const STEP_BYTES: usize = 64;

/// Appends the state of the session as compact JSON: an object of its history, its queues and its roles. O(steps). Out
/// of memory is the only error, and leaves `out` unchanged: the text is made in a buffer of its own, which an empty
/// `out` takes over.
pub fn write_show(names: &Roles, session: &Session, out: &mut Vec<u8>) -> Result<(), AllocError>
    requires { length names.now ≡ length session.now.types }
    ensures text { OnOk result (out.new.items ≡ out.old.items
        ++ show_text names.now session.now.types session.now.state.history) }
    ensures shown { OnOk result (AreShown (show_text names.now session.now.types session.now.state.history)) }
    ensures err { OnErr result (out.new.items ≡ out.old.items) }
{
    // a buffer of its own: lack of memory midway leaves `out` as it was; at 100,000 steps nothing saturates
    let room = session.len().saturating_mul(STEP_BYTES);
    let mut text = Vec::with_capacity(*out.allocator(), room)?;
    put_state(&mut text, names, session)?;
    if out.is_empty() {
        *out = text;
        return Ok(());
    }
    out.extend_from_slice(&text)
}

/// Appends what the role's type allows next, in words, as `write_show` has them: `end`, or an act's word, the peer, and a
/// sort or labels. Out of memory is the only error: a part may stand in `out` then.
pub fn write_expects(
    names: &Roles,
    session: &Session,
    role: Role,
    out: &mut Vec<u8>,
) -> Result<(), AllocError>
    requires count { length names.now ≡ length session.now.types }
    requires role { role < length session.now.types }
    ensures text { OnOk result (out.new.items ≡ out.old.items
        ++ spaced (head_tokens names.now (head ((session_view session.now).participant role).to_come))) }
{
    put_head(out, names, session, role)
}

/// Appends how the role stands as compact JSON: an object of what its type allows next, its newest step, and its slots.
/// O(slots). Out of memory is the only error: a part may stand in `out` then.
pub fn write_stand(
    names: &Roles,
    session: &Session,
    role: Role,
    out: &mut Vec<u8>,
) -> Result<(), AllocError>
    requires count { length names.now ≡ length session.now.types }
    requires role { role < length session.now.types }
    ensures text { OnOk result (out.new.items ≡ out.old.items
        ++ stand_text names.now session.now.types session.now.state.history role) }
    ensures shown { OnOk result (AreShown (stand_text names.now session.now.types session.now.state.history role)) }
{
    out.extend_from_slice(b"{\"expects\":")?;
    put_expects(out, names, session, role)?;
    out.extend_from_slice(b",\"newest\":")?;
    put_newest(out, names, session, role)?;
    out.extend_from_slice(b",\"store\":")?;
    put_store(out, session, role)?;
    Ok(out.push(b'}')?)
}

// Appends the role's newest step as a JSON array, or `null` where it has none. When out of memory a part may stand in
// `out`; the caller drops it.
fn put_newest(
    out: &mut Vec<u8>,
    names: &Roles,
    session: &Session,
    role: Role,
) -> Result<(), AllocError>
    requires count { length names.now ≡ length session.now.types }
    requires role { role < length session.now.types }
    ensures text { OnOk result (out.new.items ≡ out.old.items
        ++ compact_text (newest_shown names.now (newest_of role (moves_of session.now)))) }
    ensures plain { OnOk result (IsPlain (newest_shown names.now (newest_of role (moves_of session.now)))) }
{
    match session.newest_of(role) {
        Some((step, moved)) => {
            let mut number = Decimal::new();
            number.set(step.id.number());
            put_step(out, names, step, &number, moved)
        }
        None => out.extend_from_slice(b"null"),
    }
}

// Appends the whole state as a JSON object. When out of memory a part may stand in `out`, which is `write_show`'s
// buffer.
fn put_state(out: &mut Vec<u8>, names: &Roles, session: &Session) -> Result<(), AllocError>
    requires { length names.now ≡ length session.now.types }
    ensures text { OnOk result (out.new.items ≡ out.old.items
        ++ compact_text (shown names.now session.now.types session.now.state.history)) }
    ensures plain { OnOk result (IsPlain (shown names.now session.now.types session.now.state.history)) }
{
    let mut pasts = Past::of_roles(*out.allocator(), session.roles())?;
    out.extend_from_slice(b"{\"history\":")?;
    put_history(out, names, session, &mut pasts)?;
    out.extend_from_slice(b",\"queues\":")?;
    put_queues(out, names, session)?;
    out.extend_from_slice(b",\"roles\":")?;
    put_roles(out, names, session, &pasts)?;
    Ok(out.push(b'}')?)
}

// Appends the surviving steps as a JSON array, in order, and the number of each to its role's past. When out of memory
// a part may stand in both; the caller drops them.
fn put_history(
    out: &mut Vec<u8>,
    names: &Roles,
    session: &Session,
    pasts: &mut [Past],
) -> Result<(), AllocError>
    requires count { length names.now ≡ length session.now.types }
    requires pasts { pasts.old ≡ replicate (length session.now.types) [] }
    ensures text { OnOk result (out.new.items
        ≡ out.old.items ++ compact_text (row (map (step_shown names.now) (moves_of session.now)))) }
    ensures plain { OnOk result (IsPlain (row (map (step_shown names.now) (moves_of session.now)))) }
    ensures pasts { OnOk result (ArePasts pasts.new session.now.state.history) }
    ensures count { length pasts.new ≡ length session.now.types }
{
    out.push(b'[')?;
    let mut later = false;
    let mut number = Decimal::new();
    for moved in session.moves() {
        put_comma(out, later)?;
        number.set(moved.0.id.number());
        put_step(out, names, moved.0, &number, moved.1)?;
        let past = &mut pasts[moved.0.role.index()];
        past.put(&number)?;
        later = true;
    }
    Ok(out.push(b']')?)
}

// Appends the queues that aren't empty as a JSON array, by sender and then by receiver. When out of memory a part may
// stand in `out`; the caller drops it.
fn put_queues(out: &mut Vec<u8>, names: &Roles, session: &Session) -> Result<(), AllocError>
    requires { length names.now ≡ length session.now.types }
    ensures text { OnOk result (out.new.items ≡ out.old.items
        ++ compact_text (row (queues_shown names.now (length session.now.types) (session_view session.now)))) }
    ensures plain { OnOk result
        (IsPlain (row (queues_shown names.now (length session.now.types) (session_view session.now)))) }
{
    out.push(b'[')?;
    let n = session.roles();
    let mut later = false;
    // places of roles are below 8, so they fit
    for p in 0..n {
        later = put_queues_from(out, names, session, Role::new(p as u8), later)?;
    }
    Ok(out.push(b']')?)
}

// Appends the queues from one role that aren't empty, by receiver. `later` says whether a comma is due; the same is
// returned for what comes next. When out of memory a part may stand in `out`; the caller drops it.
fn put_queues_from(
    out: &mut Vec<u8>,
    names: &Roles,
    session: &Session,
    from: Role,
    later: bool,
) -> Result<bool, AllocError>
    requires count { length names.now ≡ length session.now.types }
    requires from { from < length session.now.types }
    ensures text { OnOk result (out.new.items ≡ out.old.items
        ++ joined later (queues_from names.now (length session.now.types) (session_view session.now) from)) }
    ensures behind { IfOk result (λ now. now
        ≡ behind later (queues_from names.now (length session.now.types) (session_view session.now) from)) }
    ensures plain { OnOk result (ArePlainItems
        (items_of (queues_from names.now (length session.now.types) (session_view session.now) from))) }
{
    let n = session.roles();
    let mut now = later;
    // places of roles are below 8, so they fit
    for q in 0..n {
        now = put_queue(out, names, session, from, Role::new(q as u8), now)?;
    }
    Ok(now)
}

// Appends the queue from one role to another, unless it is empty. `later` says whether a comma is due; the same is
// returned for what comes next. When out of memory a part may stand in `out`; the caller drops it.
fn put_queue(
    out: &mut Vec<u8>,
    names: &Roles,
    session: &Session,
    from: Role,
    to: Role,
    later: bool,
) -> Result<bool, AllocError>
    requires count { length names.now ≡ length session.now.types }
    requires from { from < length session.now.types }
    requires to { to < length session.now.types }
    ensures text { OnOk result (out.new.items ≡ out.old.items
        ++ joined later (queue_shown names.now from to ((session_view session.now).queue from to))) }
    ensures behind { IfOk result (λ now. now
        ≡ behind later (queue_shown names.now from to ((session_view session.now).queue from to))) }
    ensures plain { OnOk result (ArePlainItems
        (items_of (queue_shown names.now from to ((session_view session.now).queue from to)))) }
{
    let mut waiting = session.waiting(from, to);
    let Some(first) = waiting.next() else {
        return Ok(later);
    };
    put_comma(out, later)?;
    put_messages(out, names, from, to, first, waiting)?;
    Ok(true)
}

// Appends a queue as `[from,to,[messages]]`; the first message comes apart, since the caller took it to see whether
// there is one. When out of memory a part may stand in `out`; the caller drops it.
fn put_messages(
    out: &mut Vec<u8>,
    names: &Roles,
    from: Role,
    to: Role,
    first: &Message,
    others: Queue<'_>,
) -> Result<(), AllocError>
    requires from { from < length names.now }
    requires to { to < length names.now }
    ensures text { OnOk result (out.new.items ≡ out.old.items ++ compact_text (row
        (role_name names.now from ∷ role_name names.now to
        ∷ row (map waiting_shown (first.now ∷ others.entry)) ∷ []))) }
    ensures plain { OnOk result (IsPlain (row (role_name names.now from ∷ role_name names.now to
        ∷ row (map waiting_shown (first.now ∷ others.entry)) ∷ []))) }
{
    out.push(b'[')?;
    put_role(out, names, from)?;
    out.push(b',')?;
    put_role(out, names, to)?;
    out.extend_from_slice(b",[")?;
    put_waiting(out, first)?;
    for message in others {
        out.push(b',')?;
        put_waiting(out, message)?;
    }
    out.extend_from_slice(b"]]")
}

// Appends the roles as a JSON array, in their order in the session. When out of memory a part may stand in `out`; the
// caller drops it.
fn put_roles(
    out: &mut Vec<u8>,
    names: &Roles,
    session: &Session,
    pasts: &[Past],
) -> Result<(), AllocError>
    requires count { length names.now ≡ length session.now.types }
    requires pasts { ArePasts pasts.now session.now.state.history }
    requires each { length pasts.now ≡ length session.now.types }
    ensures text { OnOk result (out.new.items ≡ out.old.items
        ++ compact_text (row (roles_shown names.now session.now.types session.now.state.history))) }
    ensures plain { OnOk result (IsPlain (row (roles_shown names.now session.now.types session.now.state.history))) }
{
    out.push(b'[')?;
    let n = session.roles();
    // places of roles are below 8, so they fit
    for p in 0..n {
        put_comma(out, p > 0)?;
        put_participant(out, names, session, Role::new(p as u8), &pasts[p])?;
    }
    Ok(out.push(b']')?)
}

// Appends a role as a JSON object: what its type allows next, the numbers of its steps, its name, and its slots. When
// out of memory a part may stand in `out`; the caller drops it.
fn put_participant(
    out: &mut Vec<u8>,
    names: &Roles,
    session: &Session,
    role: Role,
    past: &Past,
) -> Result<(), AllocError>
    requires count { length names.now ≡ length session.now.types }
    requires role { role < length session.now.types }
    requires past { past.now ≡ past_text role session.now.state.history }
    ensures text { OnOk result (out.new.items ≡ out.old.items ++ compact_text
        (role_shown names.now (numbers (steps_of role session.now.state.history)) role
        ((session_view session.now).participant role))) }
    ensures plain { OnOk result (IsPlain (role_shown names.now (numbers (steps_of role session.now.state.history)) role
        ((session_view session.now).participant role))) }
{
    out.extend_from_slice(b"{\"expects\":")?;
    put_expects(out, names, session, role)?;
    out.extend_from_slice(b",\"past\":")?;
    past.write(out)?;
    out.extend_from_slice(b",\"role\":")?;
    put_role(out, names, role)?;
    out.extend_from_slice(b",\"store\":")?;
    put_store(out, session, role)?;
    Ok(out.push(b'}')?)
}

// Appends what the role's type allows next as a JSON string. Its words need no escapes. When out of memory a part may
// stand in `out`; the caller drops it.
fn put_expects(
    out: &mut Vec<u8>,
    names: &Roles,
    session: &Session,
    role: Role,
) -> Result<(), AllocError>
    requires count { length names.now ≡ length session.now.types }
    requires role { role < length session.now.types }
    ensures text { OnOk result (out.new.items ≡ out.old.items
        ++ compact_text (head_shown names.now (head ((session_view session.now).participant role).to_come))) }
    ensures plain { OnOk result (IsPlain
        (head_shown names.now (head ((session_view session.now).participant role).to_come))) }
{
    out.push(b'"')?;
    put_head(out, names, session, role)?;
    Ok(out.push(b'"')?)
}

// Appends the role's slots as a JSON array, each with its value, in the order in which they were first bound. When out
// of memory a part may stand in `out`; the caller drops it.
fn put_store(out: &mut Vec<u8>, session: &Session, role: Role) -> Result<(), AllocError>
    requires { role < length session.now.types }
    ensures text { OnOk result (out.new.items ≡ out.old.items
        ++ compact_text (row (map binding_shown ((session_view session.now).participant role).store))) }
    ensures plain { OnOk result
        (IsPlain (row (map binding_shown ((session_view session.now).participant role).store))) }
{
    out.push(b'[')?;
    let count = session.slots(role);
    for k in 0..count {
        // never: so many are bound
        let Some(binding) = session.binding(role, k) else {
            unreachable!()
        };
        put_comma(out, k > 0)?;
        put_binding(out, binding.0, binding.1)?;
    }
    Ok(out.push(b']')?)
}
