//! Values as text.
ghost use Rattle.std.specs.Prelude.{◌≡◌, ◌≢◌, ℕ, ◌<◌, Bool, List, length, IfOk, IfSome, IfNone, OnOk, OnErr, IsErrOf};
ghost use Rattle.std.specs.Prelude.{◌++◌};
ghost use Rattle.std.specs.List.{AllByRecursion};
ghost use Rattle.mps_base.specs.Appends.{AppendsSuch};
ghost use Rattle.mps_base.specs.Names.{IsName};
ghost use Rattle.mps_base.specs.Texts.{IsText};
ghost use Rattle.mps_base.specs.Values.{SpellsValue, IsShown, bool_word, quoted};
ghost use Rattle.mps_base.specs.declared.value.Value.{Value};
ghost use Rattle.mps_base.specs.declared.value.Value.TheVariants as values;

use crate::number::{read_int, write_int};
use crate::value::{Text, Value, is_text};
use std::alloc::{AllocError, Global};
use thiserror::Error;

/// Why no value was read.
#[derive(Clone, Copy, Debug, PartialEq, Eq, Error)]
pub enum ValueFault {
    #[error("no value is spelled so")]
    Bad,
    #[error("out of memory")]
    Memory,
}

impl Value {
    /// Reads all of the bytes as one value: an integer, `true` or `false`, or a text between quotes. `Bad` for bytes
    /// that spell no value; `Memory` only for a text, whose bytes are copied.
    #[tactic(auto, using(crate::proofs::Values::no_value, crate::proofs::Values::quoted_same))]
    pub fn read(alloc: Global, bytes: &[u8]) -> Result<Value, ValueFault>
        ensures read { IfOk result (SpellsValue bytes.now) }
        ensures bad { IsErrOf result ValueFault.Bad → (v : Value) → SpellsValue bytes.now v → ⊥ }

        // Only a text takes memory.
        ensures memory { IsErrOf result ValueFault.Memory
            → (text : List ℕ) × SpellsValue bytes.now (values.Text text) }
    {
        if let Some(n) = read_int(bytes) {
            return Ok(Value::Int(n));
        }
        if let Some(b) = read_bool(bytes) {
            return Ok(Value::Bool(b));
        }
        match unquoted(bytes) {
            Some(inside) => read_text(alloc, inside),
            None => Err(ValueFault::Bad),
        }
    }

    /// Appends the value to `out` as it is spelled: an integer, `true` or `false`, or a text between quotes; at most
    /// 258 bytes. Out of memory is the only error, and leaves `out` unchanged.
    pub fn write(&self, out: &mut Vec<u8>) -> Result<(), AllocError>
        ensures ok { OnOk result
            (AppendsSuch (λ text. SpellsValue text self.now) out.old.items out.new.items) }
        ensures err { OnErr result (out.new.items ≡ out.old.items) }
    {
        match self {
            Value::Int(n) => write_int(*n, out),
            Value::Bool(true) => out.extend_from_slice(b"true"),
            Value::Bool(false) => out.extend_from_slice(b"false"),
            Value::Text(text) => write_quoted(text.as_bytes(), out),
        }
    }
}

/// A law: each value has one spelling, a text spells at most one value, and no value is spelled like a name. So values
/// can be compared as text.
#[tactic(auto, using(crate::proofs::Values::same_spelling))]
pub fn one_spelling()
    ensures spelling { (a b : List ℕ) (v : Value) → SpellsValue a v → SpellsValue b v → a ≡ b }
    ensures value { (a : List ℕ) (v w : Value) → SpellsValue a v → SpellsValue a w → v ≡ w }
    ensures no_name { (a : List ℕ) (v : Value) → SpellsValue a v → IsName a → ⊥ }
{}

/// A law: the spelling of a value has at least one byte and no line break, so it can stand as a token of a line.
#[tactic(auto, using(crate::proofs::Values::shown))]
pub fn one_line()
    ensures some { (a : List ℕ) (v : Value) → SpellsValue a v → 0 < length a }
    ensures shown { (a : List ℕ) (v : Value) → SpellsValue a v → AllByRecursion IsShown a }
{}

// The truth value that the bytes spell, `true` or `false`, or `None` for other bytes.
fn read_bool(bytes: &[u8]) -> Option<bool>
    ensures read { IfSome result (λ b. bytes.now ≡ bool_word b) }
    ensures none { IfNone result ((b : Bool) → bytes.now ≢ bool_word b) }
{
    match bytes {
        b"true" => Some(true),
        b"false" => Some(false),
        _ => None,
    }
}

// The bytes between the first and the last, where these two are quotes; else `None`. What stands between isn't tested:
// `read_text` does that.
fn unquoted(bytes: &[u8]) -> Option<&[u8]>
    ensures found { IfSome result (λ inside. bytes.now ≡ quoted inside.now) }
    ensures none { IfNone result ((inside : List ℕ) → bytes.now ≢ quoted inside) }
{
    match bytes {
        [b'"', inside @ .., b'"'] => Some(inside),
        _ => None,
    }
}

// Makes a text value of a copy of these bytes, which stood between quotes. They are tested before memory is asked for,
// so bytes that are no text are `Bad` even when out of memory.
fn read_text(alloc: Global, inside: &[u8]) -> Result<Value, ValueFault>
    ensures read { IfOk result (λ v. (v ≡ values.Text inside.now) × IsText inside.now) }
    ensures bad { IsErrOf result ValueFault.Bad → ¬ IsText inside.now }
    ensures memory { IsErrOf result ValueFault.Memory → IsText inside.now }
{
    if !is_text(inside) {
        return Err(ValueFault::Bad);
    }
    let text = Text::from_slice(alloc, inside).map_err(|_| ValueFault::Memory)?;
    Ok(Value::Text(text))
}

// Appends a text's bytes between quotes to `out`. No byte of a text needs an escape. Memory is reserved once for all,
// so an error leaves `out` unchanged.
fn write_quoted(bytes: &[u8], out: &mut Vec<u8>) -> Result<(), AllocError>
    requires { IsText bytes.now }
    ensures ok { OnOk result (out.new.items ≡ out.old.items ++ quoted bytes.now) }
    ensures err { OnErr result (out.new.items ≡ out.old.items) }
{
    // for both quotes too, so that nothing below fails
    out.reserve(bytes.len() + 2)?;
    out.push(b'"')?;
    out.extend_from_slice(bytes)?;
    Ok(out.push(b'"')?)
}
