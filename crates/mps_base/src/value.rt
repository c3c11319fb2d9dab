//! Values and their sorts.
ghost use Rattle.std.specs.Prelude.{◌≡◌, ◌↔◌, true, IsTrue, IsSome, IfSome, IfOk};
ghost use Rattle.std.specs.List.{AllByRecursion};
ghost use Rattle.mps_base.specs.Sorts.{sort_word, same_sort, sort_of, fits};
ghost use Rattle.mps_base.specs.Texts.{IsText, IsPlainByte};
ghost use Rattle.mps_base.specs.declared.value.Sort.{Sort};
ghost use Rattle.mps_base.specs.declared.value.Value.{Value};

use std::alloc::{AllocError, Global};
use std::marker::Model;

/// The sort of a value.
#[derive(Clone, Copy, Debug, PartialEq, Eq)]
pub enum Sort {
    Int,
    Bool,
    Text,
}

impl Sort {
    /// The sort's word in protocol texts, which is reserved: `int`, `bool` or `text`.
    pub fn word(&self) -> &'static [u8]
        ensures { result.now ≡ sort_word self.now }
    {
        match self {
            Sort::Int => b"int",
            Sort::Bool => b"bool",
            Sort::Text => b"text",
        }
    }

    /// Whether both are the same sort: `==` on copies, so that callers need no references.
    pub fn is(self, other: Sort) -> bool
        ensures { result ≡ same_sort self other }
    {
        matches!(
            (self, other),
            (Sort::Int, Sort::Int) | (Sort::Bool, Sort::Bool) | (Sort::Text, Sort::Text)
        )
    }
}

/// A law: the definition `same_sort` is equality of sorts, and a value fits its own sort alone.
pub fn a_value_has_one_sort()
    ensures same { (s t : Sort) → (same_sort s t ≡ true) ↔ (s ≡ t) }
    ensures own { (v : Value) (s : Sort) → (fits v s ≡ true) ↔ (sort_of v ≡ s) }
{}

/// How many bytes a text may have at most.
pub const MAX_TEXT: usize = 256;

/// The content of a text value: 0 to 256 bytes from the space to `~`, without `"` and `\`.
#[derive(Debug, Drop)]
pub struct Text {
    bytes: Vec<u8>,
}

impl Model for Text {
    ghost use Rattle.std.specs.Prelude.{ℕ, List};
    ghost use Rattle.mps_base.specs.Texts.{IsText};

    ghost Value = { List ℕ };

    ghost view = { λ t. t.bytes.items };

    ghost invariant = { λ t. IsText t.bytes.items };
}

impl Text {
    /// Makes a text of these bytes, which are kept and not copied. `None` where they are more than 256, or one may not
    /// stand in a text; they are dropped then.
    pub fn new(bytes: Vec<u8>) -> Option<Text>
        ensures some { IsSome result ↔ IsText bytes.items }
        ensures text { IfSome result (λ text. text ≡ bytes.items) }
    {
        if is_text(&bytes) {
            Some(Text { bytes })
        } else {
            None
        }
    }

    /// A text of a copy of these bytes, which the caller has tested. It fails only when out of memory. Apart from
    /// `new`, which keeps the vector that it is given.
    #[inline(never)]
    pub(crate) fn from_slice(alloc: Global, bytes: &[u8]) -> Result<Text, AllocError>
        requires { IsText bytes.now }
        ensures { IfOk result (λ text. text ≡ bytes.now) }
    {
        Ok(Text {
            bytes: Vec::from_slice(alloc, bytes)?,
        })
    }

    /// The bytes of the text without quotes: 0 to 256, borrowed.
    pub fn as_bytes(&self) -> &[u8]
        ensures bytes { result.now ≡ self.now }
        ensures text { IsText self.now }
    {
        &self.bytes
    }

    /// A copy of the text, in memory of its own. It fails only when out of memory.
    pub fn copy(&self, alloc: Global) -> Result<Text, AllocError>
        ensures { IfOk result (λ text. text ≡ self.now) }
    {
        Text::from_slice(alloc, self.as_bytes())
    }
}

// Whether the bytes may be a text: at most 256, each from the space to `~` and neither `"` nor `\`, so that none needs
// an escape.
pub(crate) fn is_text(bytes: &[u8]) -> bool
    ensures { IsTrue result ↔ IsText bytes.now }
{
    bytes.len() <= MAX_TEXT && are_plain(bytes)
}

// Whether each byte may stand in a text. The loop has no early exit, so the compiler vectorises it: sixteen bytes at a
// time.
fn are_plain(bytes: &[u8]) -> bool
    ensures { IsTrue result ↔ AllByRecursion IsPlainByte bytes.now }
{
    let mut plain = true;
    for byte in bytes {
        plain &= is_plain(*byte);
    }
    plain
}

// Whether the byte may stand in a text without an escape: from the space to `~`, and neither `"` nor `\`.
fn is_plain(byte: u8) -> bool
    ensures { IsTrue result ↔ IsPlainByte byte }
{
    (b' '..=b'~').contains(&byte) && byte != b'"' && byte != b'\\'
}

/// A value that one role sends to another.
#[derive(Debug, Drop)]
pub enum Value {
    Int(i64),
    Bool(bool),
    Text(Text),
}

impl Value {
    /// The sort to which the value belongs; each value belongs to exactly one.
    pub fn sort(&self) -> Sort
        ensures { result ≡ sort_of self.now }
    {
        match self {
            Value::Int(_) => Sort::Int,
            Value::Bool(_) => Sort::Bool,
            Value::Text(_) => Sort::Text,
        }
    }

    /// Whether the value is of that sort: what a local type asks of a message.
    pub fn fits(&self, sort: Sort) -> bool
        ensures { result ≡ fits self.now sort }
    {
        self.sort().is(sort)
    }

    /// A copy that shares nothing with the value. Only a text allocates, at most 256 bytes; it fails only when out of
    /// memory.
    pub fn copy(&self, alloc: Global) -> Result<Value, AllocError>
        ensures { IfOk result (λ value. value ≡ self.now) }
    {
        Ok(match self {
            Value::Int(n) => Value::Int(*n),
            Value::Bool(b) => Value::Bool(*b),
            Value::Text(text) => Value::Text(text.copy(alloc)?),
        })
    }
}
