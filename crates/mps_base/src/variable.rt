//! Names of recursion variables, kept inline.
ghost use Rattle.std.specs.Prelude.{◌≡◌, ◌↔◌, IsTrue, IsSome, IfSome};
ghost use Rattle.std.specs.List.{AllByRecursion};
ghost use Rattle.mps_base.specs.Names.{IsVariable, is_variable_byte};

use crate::inline::{Inline, MAX_WORD};
use std::marker::Model;

/// The name of a recursion variable: 1 to 32 capital letters, digits and `_`, the first a letter.
#[derive(Clone, Copy, Debug, PartialEq, Eq)]
pub struct VarName(Inline);

impl Model for VarName {
    ghost use Rattle.std.specs.Prelude.{ℕ, List, refl};
    ghost use Rattle.mps_base.specs.Names.{IsVariable};

    ghost Value = { List ℕ };

    ghost view = { λ n. n.0 };

    ghost invariant = { λ n. IsVariable n.0 };

    ghost inverse = { λ l. record { 0 = l } };
}

impl VarName {
    /// Makes a variable's name of these bytes, which are copied without allocating. `None` where they are not 1 to 32
    /// capital letters, digits and `_` with a letter first.
    pub fn read(bytes: &[u8]) -> Option<VarName>
        ensures some { IsSome result ↔ IsVariable bytes.now }
        ensures name { IfSome result (λ name. name ≡ bytes.now) }
    {
        if is_variable(bytes) {
            Some(VarName(Inline::of(bytes)))
        } else {
            None
        }
    }

    /// The bytes of the name: 1 to 32, borrowed. The clause `name` says for callers' proofs that they spell a variable.
    pub fn as_bytes(&self) -> &[u8]
        ensures bytes { result.now ≡ self.now }
        ensures name { IsVariable self.now }
    {
        self.0.as_bytes()
    }

    /// Whether both names have the same bytes: `==` on references, with a contract. By it a variable finds its `rec`.
    pub fn is(&self, other: &VarName) -> bool
        ensures { IsTrue result ↔ (self.now ≡ other.now) }
    {
        self.as_bytes() == other.as_bytes()
    }
}

// Whether the bytes spell a variable: 1 to 32 of them, a capital letter first, and then capital letters, digits and
// `_`.
fn is_variable(bytes: &[u8]) -> bool
    ensures { IsTrue result ↔ IsVariable bytes.now }
{
    match bytes {
        [] => false,
        [first, ..] => {
            first.is_ascii_uppercase() && bytes.len() <= MAX_WORD && has_variable_bytes(bytes)
        }
    }
}

// Whether each byte is a capital letter, a digit or `_`, in whatever number and order.
fn has_variable_bytes(bytes: &[u8]) -> bool
    ensures { IsTrue result ↔ AllByRecursion (λ c. IsTrue (is_variable_byte c)) bytes.now }
{
    bytes.iter().all(|byte| byte.is_ascii_uppercase() || byte.is_ascii_digit() || *byte == b'_')
}
