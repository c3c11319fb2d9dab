//! Parts of a shown state, written as text at once.
ghost use Rattle.std.specs.Prelude.{◌≡◌, ◌<◌, ◌++◌, ◌∷◌, [], ℕ, List, Option, OnOk, length, codes, decimal, true};
ghost use Rattle.std.specs.List.{AllByRecursion};
ghost use Rattle.std.specs.Option.{option_copied};
ghost use Rattle.mps_base.specs.Texts.{IsPlainByte};
ghost use Rattle.mps_base.specs.declared.action.Message.TheVariants.{Label};
ghost use Rattle.mps_session.specs.Peers.{IsPeerKnown, IsKnown};
ghost use Rattle.mps_show.specs.Plain.{IsPlain, ArePlainItems};
ghost use Rattle.mps_show.specs.Shown.{role_name, value_shown, moved_shown, waiting_shown, taken_shown, out_shown};
ghost use Rattle.mps_show.specs.Shown.{in_shown, act_shown, step_shown, binding_shown};
ghost use Rattle.serde_json.specs.Data.{string, number};
ghost use Rattle.serde_json.specs.Find.{of_integer};
ghost use Rattle.serde_json.specs.View.{items_of};
ghost use Rattle.serde_json.specs.Written.{comma_if, compact_text, items_text};

use crate::pieces::{Decimal, put_name};
use mps_base::{Act, Message, Name, Role, Roles, Step, Value};
use std::alloc::AllocError;

// Appends a JSON string of bytes that need no escapes: printable ASCII without quote and backslash. Out of memory is
// the only error, and appends nothing.
#[inline(always)]
fn put_string(out: &mut Vec<u8>, bytes: &[u8]) -> Result<(), AllocError>
    requires { AllByRecursion IsPlainByte bytes.now }
    ensures text { OnOk result (out.new.items ≡ out.old.items ++ compact_text (string bytes.now)) }
    ensures plain { OnOk result (IsPlain (string bytes.now)) }
{
    // for both quotes too, so that nothing below fails
    out.reserve(bytes.len() + 2)?;
    out.push_reserved(b'"');
    out.extend_from_slice(bytes)?;
    out.push_reserved(b'"');
    Ok(())
}

/// Appends a comma where `later` says that something stands before it in the array. It fails only when out of memory,
/// and appends nothing then.
pub(crate) fn put_comma(out: &mut Vec<u8>, later: bool) -> Result<(), AllocError>
    ensures { OnOk result (out.new.items ≡ out.old.items ++ comma_if later) }
{
    if later {
        out.push(b',')?;
    }
    Ok(())
}

/// Appends the name of a role, which has to be one of `names`, as a JSON string. It fails only when out of memory, and
/// appends nothing then.
#[inline(always)]
pub(crate) fn put_role(out: &mut Vec<u8>, names: &Roles, role: Role) -> Result<(), AllocError>
    requires { role < length names.now }
    ensures text { OnOk result (out.new.items ≡ out.old.items ++ compact_text (role_name names.now role)) }
    ensures plain { OnOk result (IsPlain (role_name names.now role)) }
{
    put_name(out, &names.name(role))
}

// Appends an integer as a JSON number, in decimal, with a `-` if it is below 0. When out of memory the `-` may stand in
// `out` alone; the caller drops it.
#[inline(always)]
fn put_int(out: &mut Vec<u8>, n: i64) -> Result<(), AllocError>
    ensures { OnOk result (out.new.items ≡ out.old.items ++ compact_text (number (of_integer n))) }
{
    if n < 0 {
        out.push(b'-')?;
    }
    let mut digits = Decimal::new();
    digits.set(n.unsigned_abs());
    digits.put(out)
}

// Appends a value as JSON: a number, `true` or `false`, or a string, since a text's content needs no escapes. When out
// of memory no clause says what `out` has; the caller drops it.
#[inline(always)]
fn put_value(out: &mut Vec<u8>, value: &Value) -> Result<(), AllocError>
    ensures text { OnOk result (out.new.items ≡ out.old.items ++ compact_text (value_shown value.now)) }
    ensures plain { OnOk result (IsPlain (value_shown value.now)) }
{
    match value {
        Value::Int(n) => put_int(out, *n),
        Value::Bool(true) => out.extend_from_slice(b"true"),
        Value::Bool(false) => out.extend_from_slice(b"false"),
        Value::Text(text) => put_string(out, text.as_bytes()),
    }
}

// Appends a message of a step as JSON: a label is a plain string, since the step's word tells it from a text. When out
// of memory no clause says what `out` has; the caller drops it.
#[inline(always)]
fn put_moved(out: &mut Vec<u8>, message: &Message) -> Result<(), AllocError>
    ensures text { OnOk result (out.new.items ≡ out.old.items ++ compact_text (moved_shown message.now)) }
    ensures plain { OnOk result (IsPlain (moved_shown message.now)) }
{
    match message {
        Message::Value(value) => put_value(out, value),
        Message::Label(label) => put_name(out, label),
    }
}

/// Appends a message of a queue as JSON: a label is an object, since nothing else tells it from a text. When out of
/// memory a part may stand in `out`; the caller drops it.
pub(crate) fn put_waiting(out: &mut Vec<u8>, message: &Message) -> Result<(), AllocError>
    ensures text { OnOk result (out.new.items ≡ out.old.items ++ compact_text (waiting_shown message.now)) }
    ensures plain { OnOk result (IsPlain (waiting_shown message.now)) }
{
    match message {
        Message::Value(value) => put_value(out, value),
        Message::Label(label) => put_label(out, label),
    }
}

// Appends a label of a queue as a JSON object, `{"label":name}`. When out of memory a part may stand in `out`; the
// caller drops it.
fn put_label(out: &mut Vec<u8>, label: &Name) -> Result<(), AllocError>
    ensures text { OnOk result (out.new.items ≡ out.old.items ++ compact_text (waiting_shown (Label label.now))) }
    ensures plain { OnOk result (IsPlain (waiting_shown (Label label.now))) }
{
    out.extend_from_slice(b"{\"label\":")?;
    put_name(out, label)?;
    Ok(out.push(b'}')?)
}

/// Appends a step as a JSON array: number, role, word and arguments, and at the end the message that it gave or took.
/// The caller has the number in decimal, since it may need it again. When out of memory a part may stand in `out`; the
/// caller drops it.
pub(crate) fn put_step(
    out: &mut Vec<u8>,
    names: &Roles,
    step: &Step,
    number: &Decimal,
    moved: Option<&Message>,
) -> Result<(), AllocError>
    requires known { IsKnown (length names.now) step.now }
    requires number { number.now ≡ decimal step.now.id }
    ensures text { OnOk result (out.new.items
        ≡ out.old.items ++ compact_text (step_shown names.now (step.now, option_copied moved.entry))) }
    ensures plain { OnOk result (IsPlain (step_shown names.now (step.now, option_copied moved.entry))) }
{
    out.push(b'[')?;
    number.put(out)?;
    out.push(b',')?;
    put_role(out, names, step.role)?;
    put_act(out, names, &step.act, moved)
}

// Appends the rest of a step's array after its role: the act's word, its arguments, its message, and the bracket. When
// out of memory a part may stand in `out`; the caller drops it.
fn put_act(
    out: &mut Vec<u8>,
    names: &Roles,
    act: &Act,
    moved: Option<&Message>,
) -> Result<(), AllocError>
    requires { IsPeerKnown (length names.now) act.now }
    ensures text { OnOk result (out.new.items ≡ out.old.items
        ++ items_text true (items_of (act_shown names.now act.now (option_copied moved.entry)))) }
    ensures plain { OnOk result (ArePlainItems (items_of (act_shown names.now act.now (option_copied moved.entry)))) }
{
    match act {
        Act::Out { to, message } => put_out(out, names, *to, message),
        Act::In { from, slot } => put_in(out, names, *from, slot, moved),
        Act::Mark(mark) => put_mark(out, mark),
        Act::Commit => put_commit(out),
    }
}

// Appends the rest of a step's array for `send` or `choose`: the word, the peer, the message, and the bracket. When out
// of memory a part may stand in `out`; the caller drops it.
fn put_out(out: &mut Vec<u8>, names: &Roles, to: Role, message: &Message) -> Result<(), AllocError>
    requires { to < length names.now }
    ensures text { OnOk result (out.new.items
        ≡ out.old.items ++ items_text true (items_of (out_shown names.now to message.now))) }
    ensures plain { OnOk result (ArePlainItems (items_of (out_shown names.now to message.now))) }
{
    match message {
        Message::Value(_) => out.extend_from_slice(b",\"send\",")?,
        Message::Label(_) => out.extend_from_slice(b",\"choose\",")?,
    }
    put_role(out, names, to)?;
    out.push(b',')?;
    put_moved(out, message)?;
    Ok(out.push(b']')?)
}

// Appends the rest of a step's array for `recv` (peer, slot, message) or `pick` (peer, label), with the bracket. When
// out of memory a part may stand in `out`; the caller drops it.
fn put_in(
    out: &mut Vec<u8>,
    names: &Roles,
    from: Role,
    slot: &Option<Name>,
    moved: Option<&Message>,
) -> Result<(), AllocError>
    requires { from < length names.now }
    ensures text { OnOk result (out.new.items ≡ out.old.items
        ++ items_text true (items_of (in_shown names.now from slot.now (option_copied moved.entry)))) }
    ensures plain { OnOk result
        (ArePlainItems (items_of (in_shown names.now from slot.now (option_copied moved.entry)))) }
{
    match slot {
        Some(slot) => {
            out.extend_from_slice(b",\"recv\",")?;
            put_role(out, names, from)?;
            out.push(b',')?;
            put_name(out, slot)?;
        }
        None => {
            out.extend_from_slice(b",\"pick\",")?;
            put_role(out, names, from)?;
        }
    }
    put_taken(out, moved)
}

// Appends the message that was taken, if there is one, and the bracket that ends the step's array. When out of memory a
// part may stand in `out`; the caller drops it.
fn put_taken(out: &mut Vec<u8>, moved: Option<&Message>) -> Result<(), AllocError>
    ensures text { OnOk result (out.new.items
        ≡ out.old.items ++ items_text true (items_of (taken_shown (option_copied moved.entry)))) }
    ensures plain { OnOk result (ArePlainItems (items_of (taken_shown (option_copied moved.entry)))) }
{
    if let Some(message) = moved {
        out.push(b',')?;
        put_moved(out, message)?;
    }
    Ok(out.push(b']')?)
}

// Appends the rest of a step's array for a mark: the word, its name, and the bracket. When out of memory a part may
// stand in `out`; the caller drops it.
fn put_mark(out: &mut Vec<u8>, mark: &Name) -> Result<(), AllocError>
    ensures text { OnOk result (out.new.items
        ≡ out.old.items ++ items_text true (items_of (string (codes "mark") ∷ string mark.now ∷ []))) }
    ensures plain { OnOk result (ArePlainItems (items_of (string (codes "mark") ∷ string mark.now ∷ []))) }
{
    out.extend_from_slice(b",\"mark\",")?;
    put_name(out, mark)?;
    Ok(out.push(b']')?)
}

// Appends the rest of a step's array for a commit: the word and the bracket. It fails only when out of memory, and appends
// nothing then. Apart, since its proof alone is given the lemma `words_stand`.
#[tactic(auto, using(crate::proofs::Texts::words_stand))]
fn put_commit(out: &mut Vec<u8>) -> Result<(), AllocError>
    ensures text { OnOk result (out.new.items
        ≡ out.old.items ++ items_text true (items_of (string (codes "commit") ∷ []))) }
    ensures plain { OnOk result (ArePlainItems (items_of (string (codes "commit") ∷ []))) }
{
    out.extend_from_slice(b",\"commit\"]")
}

/// Appends a slot and its value as a JSON array, `[slot,value]`. When out of memory a part may stand in `out`; the
/// caller drops it.
pub(crate) fn put_binding(out: &mut Vec<u8>, slot: &Name, value: &Value) -> Result<(), AllocError>
    ensures text { OnOk result (out.new.items
        ≡ out.old.items ++ compact_text (binding_shown (slot.now, value.now))) }
    ensures plain { OnOk result (IsPlain (binding_shown (slot.now, value.now))) }
{
    out.push(b'[')?;
    put_name(out, slot)?;
    out.push(b',')?;
    put_value(out, value)?;
    Ok(out.push(b']')?)
}
