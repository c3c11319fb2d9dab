//! Parts of a shown state, as JSON values.
ghost use Rattle.std.specs.Prelude.{◌≡◌, ◌<◌, ◌++◌, ◌∷◌, [], List, Option, IfOk, OnOk, length, map, codes};
ghost use Rattle.std.specs.Option.{option_copied};
ghost use Rattle.std.specs.Str.{IsAscii};
ghost use Rattle.mps_session.specs.Peers.{IsPeerKnown, IsKnown};
ghost use Rattle.mps_show.specs.Shown.{role_name, value_shown, moved_shown, waiting_shown, taken_shown, out_shown};
ghost use Rattle.mps_show.specs.Shown.{in_shown, act_shown, step_shown, binding_shown};
ghost use Rattle.serde_json.specs.Data.{string};
ghost use Rattle.serde_json.specs.View.{view};

use mps_base::{Act, Message, Name, Role, Roles, Step, Value};
use serde_json::{Value as Json, json};
use std::alloc::{AllocError, Global};
use std::str;

// Makes a JSON string of bytes below 128, which are UTF-8 as they are. It fails only when out of memory.
fn text(alloc: Global, bytes: &[u8]) -> Result<Json, AllocError>
    requires { IsAscii bytes.now }
    ensures { IfOk result (λ v. view v ≡ string bytes.now) }
{
    match str::from_utf8(bytes) {
        Ok(text) => Json::try_from_str(alloc, text),
        Err(_) => unreachable!(),
    }
}

// Makes a JSON string of a name, whose bytes are ASCII, as `text` asks. It fails only when out of memory.
fn name(alloc: Global, name: &Name) -> Result<Json, AllocError>
    ensures { IfOk result (λ v. view v ≡ string name.now) }
{
    text(alloc, name.as_bytes())
}

/// Makes a JSON string of the name of a role, which has to be one of `names`. It fails only when out of memory.
pub(crate) fn role(alloc: Global, names: &Roles, role: Role) -> Result<Json, AllocError>
    requires { role < length names.now }
    ensures { IfOk result (λ v. view v ≡ role_name names.now role) }
{
    name(alloc, &names.name(role))
}

// Makes a JSON value of a session's value: a number, `true` or `false`, or a string of a text's content. It fails only
// when out of memory.
fn value(alloc: Global, value: &Value) -> Result<Json, AllocError>
    ensures { IfOk result (λ v. view v ≡ value_shown value.now) }
{
    match value {
        Value::Int(n) => Ok(Json::from(*n)),
        Value::Bool(b) => Ok(Json::Bool(*b)),
        Value::Text(words) => text(alloc, words.as_bytes()),
    }
}

// Makes a JSON value of a message in a step: a label is a plain string, since the step's word, as `choose`, tells it
// from a text. It fails only when out of memory.
fn moved(alloc: Global, message: &Message) -> Result<Json, AllocError>
    ensures { IfOk result (λ v. view v ≡ moved_shown message.now) }
{
    match message {
        Message::Value(content) => value(alloc, content),
        Message::Label(label) => name(alloc, label),
    }
}

/// Makes a JSON value of a message in a queue: a label is an object, `{"label": name}`, since nothing else tells it
/// from a text. It fails only when out of memory.
pub(crate) fn waiting(alloc: Global, message: &Message) -> Result<Json, AllocError>
    ensures { IfOk result (λ v. view v ≡ waiting_shown message.now) }
{
    match message {
        Message::Value(content) => value(alloc, content),
        Message::Label(label) => {
            let label = name(alloc, label)?;
            json!(in alloc; {"label": label})
        }
    }
}

/// Makes the JSON array of a slot and its value: `[slot, value]`. It fails only when out of memory.
pub(crate) fn binding(alloc: Global, slot: &Name, kept: &Value) -> Result<Json, AllocError>
    ensures { IfOk result (λ v. view v ≡ binding_shown (slot.now, kept.now)) }
{
    let mut parts = Vec::with_capacity(alloc, 2)?;
    parts.push(name(alloc, slot)?)?;
    parts.push(value(alloc, kept)?)?;
    Ok(Json::Array(parts))
}

/// Makes the JSON array of a step: number, role, word and arguments, and at the end the message that it gave or took.
/// It fails only when out of memory.
pub(crate) fn step(
    alloc: Global,
    names: &Roles,
    step: &Step,
    moved: Option<&Message>,
) -> Result<Json, AllocError>
    requires { IsKnown (length names.now) step.now }
    ensures { IfOk result (λ v. view v ≡ step_shown names.now (step.now, option_copied moved.entry)) }
{
    let mut parts = Vec::with_capacity(alloc, 6)?;
    parts.push(Json::from(step.id.number()))?;
    parts.push(role(alloc, names, step.role)?)?;
    push_act(alloc, names, &step.act, moved, &mut parts)?;
    Ok(Json::Array(parts))
}

// Appends to a step's array the act's word, its arguments and its message. When out of memory some may be appended; the
// array is dropped then.
fn push_act(
    alloc: Global,
    names: &Roles,
    act: &Act,
    moved: Option<&Message>,
    parts: &mut Vec<Json>,
) -> Result<(), AllocError>
    requires { IsPeerKnown (length names.now) act.now }
    ensures { OnOk result (map view parts.new.items
        ≡ map view parts.old.items ++ act_shown names.now act.now (option_copied moved.entry)) }
{
    match act {
        Act::Out { to, message } => push_out(alloc, names, *to, message, parts),
        Act::In { from, slot } => push_in(alloc, names, *from, slot, moved, parts),
        Act::Mark(mark) => push_mark(alloc, mark, parts),
        Act::Commit => push_commit(alloc, parts),
    }
}

// Appends to a step's array `send` or `choose`, the peer and the message. When out of memory some may be appended; the
// array is dropped then.
fn push_out(
    alloc: Global,
    names: &Roles,
    to: Role,
    message: &Message,
    parts: &mut Vec<Json>,
) -> Result<(), AllocError>
    requires { to < length names.now }
    ensures { OnOk result (map view parts.new.items
        ≡ map view parts.old.items ++ out_shown names.now to message.now) }
{
    let word = match message {
        Message::Value(_) => "send",
        Message::Label(_) => "choose",
    };
    parts.push(Json::try_from_str(alloc, word)?)?;
    parts.push(role(alloc, names, to)?)?;
    parts.push(moved(alloc, message)?)?;
    Ok(())
}

// Appends to a step's array `recv`, the peer, the slot and the message, or `pick`, the peer and the label. When out of
// memory some may be appended; the array is dropped then.
fn push_in(
    alloc: Global,
    names: &Roles,
    from: Role,
    slot: &Option<Name>,
    moved: Option<&Message>,
    parts: &mut Vec<Json>,
) -> Result<(), AllocError>
    requires { from < length names.now }
    ensures { OnOk result (map view parts.new.items
        ≡ map view parts.old.items ++ in_shown names.now from slot.now (option_copied moved.entry)) }
{
    match slot {
        Some(slot) => {
            parts.push(Json::try_from_str(alloc, "recv")?)?;
            parts.push(role(alloc, names, from)?)?;
            parts.push(name(alloc, slot)?)?;
        }
        None => {
            parts.push(Json::try_from_str(alloc, "pick")?)?;
            parts.push(role(alloc, names, from)?)?;
        }
    }
    push_taken(alloc, moved, parts)
}

// Appends to a step's array the message that was taken, if there is one; a surviving receipt always has one. It fails
// only when out of memory.
fn push_taken(
    alloc: Global,
    taken: Option<&Message>,
    parts: &mut Vec<Json>,
) -> Result<(), AllocError>
    ensures { OnOk result (map view parts.new.items
        ≡ map view parts.old.items ++ taken_shown (option_copied taken.entry)) }
{
    if let Some(message) = taken {
        parts.push(moved(alloc, message)?)?;
    }
    Ok(())
}

// Appends to a step's array `mark` and the mark's name. When out of memory some may be appended; the array is dropped
// then.
fn push_mark(alloc: Global, mark: &Name, parts: &mut Vec<Json>) -> Result<(), AllocError>
    ensures { OnOk result (map view parts.new.items
        ≡ map view parts.old.items ++ string (codes "mark") ∷ string mark.now ∷ []) }
{
    parts.push(Json::try_from_str(alloc, "mark")?)?;
    parts.push(name(alloc, mark)?)?;
    Ok(())
}

// Appends to a step's array the word `commit`, which has no arguments. It fails only when out of memory. Apart, as each
// act has its function.
fn push_commit(alloc: Global, parts: &mut Vec<Json>) -> Result<(), AllocError>
    ensures { OnOk result (map view parts.new.items
        ≡ map view parts.old.items ++ string (codes "commit") ∷ []) }
{
    parts.push(Json::try_from_str(alloc, "commit")?)?;
    Ok(())
}
