//! Names, kept inline.
ghost use Rattle.std.specs.Prelude.{◌≡◌, ◌↔◌, ◌<◌, ◌≤◌, length, take, slice_index, IsTrue, IsSome, IfSome};
ghost use Rattle.std.specs.List.{AllByRecursion};
ghost use Rattle.std.specs.Str.{bytes_eq};
ghost use Rattle.std.specs.Cmp.{partial_equiv_from_equiv};
ghost use Rattle.std.specs.Cmp.Lexicographic.{nat_list_eq_equiv};
ghost use Rattle.std.specs.Cmp.Rules.{hashing};
ghost use Rattle.std.specs.Hash as fed;
ghost use Rattle.std.proofs.Common.{rules};
ghost use Rattle.mps_base.specs.Names.{IsName, IsNoneOf, is_lower, is_name_byte, structure_words, sort_words};
ghost use Rattle.mps_base.specs.Names.{bool_words, reserved_words};

use crate::inline::{Inline, MAX_WORD};
use std::hash::{Hash, Hasher};
use std::marker::Model;

/// How many bytes a name may have.
pub const MAX_NAME: usize = MAX_WORD;

/// The name of a role, a label, a slot or a mark: 1 to 32 small letters, digits and `_`, the first
/// a letter, and no reserved word.
#[derive(Clone, Copy, Debug)]
pub struct Name(Inline);

impl Model for Name {
    ghost use Rattle.std.specs.Prelude.{ℕ, List, refl};
    ghost use Rattle.mps_base.specs.Names.{IsName};

    ghost Value = { List ℕ };

    ghost view = { λ n. n.0 };

    ghost invariant = { λ n. IsName n.0 };

    ghost inverse = { λ l. record { 0 = l } };
}

impl PartialEq for Name {
    ghost eq = { bytes_eq };

    ghost laws = { partial_equiv_from_equiv nat_list_eq_equiv };

    // The `==` of names, for maps and derived types: whether both have the same bytes.
    fn eq(&self, other: &Name) -> bool {
        self.is(other)
    }
}

impl Eq for Name {
    ghost laws = { nat_list_eq_equiv };
}

impl Hash for Name {
    ghost hash_input = { fed.str };

    ghost respects_eq = { Prim.search (hashing, rules) };

    // Hashes the name as a `str` is hashed: its bytes, and then 0xff, which stands in no name, so that no name's input
    // is the beginning of another's.
    fn hash<H: Hasher>(&self, state: &mut H) {
        state.write(self.as_bytes());
        state.write_u8(0xff);
    }
}

impl Name {
    /// Makes a name of these bytes, which are copied without allocating. `None` where they are not 1 to 32 small
    /// letters, digits and `_` with a letter first, or where they are a reserved word.
    pub fn read(bytes: &[u8]) -> Option<Name>
        ensures some { IsSome result ↔ IsName bytes.now }
        ensures name { IfSome result (λ name. name ≡ bytes.now) }
    {
        if !begins_as_name(bytes) || !is_free(bytes) {
            return None;
        }
        Some(Name(name_bytes(bytes)?))
    }

    /// The bytes of the name without padding: 1 to 32, borrowed. The clause `name` says for callers' proofs that they
    /// spell a name.
    pub fn as_bytes(&self) -> &[u8]
        ensures bytes { result.now ≡ self.now }
        ensures name { IsName self.now }
    {
        self.0.as_bytes()
    }

    /// A copy of 32 bytes: the name's, and after them bytes of which nothing is promised. One copy of fixed size takes
    /// less than one of the name's own length; the caller knows that length.
    #[inline(always)]
    pub fn padded(&self) -> [u8; MAX_NAME]
        ensures bytes { take (length self.now) result ≡ self.now }
        ensures name { IsName self.now }
    {
        self.0.padded()
    }

    /// Whether both names have the same bytes. `==` calls it; unlike that method it has a contract.
    pub fn is(&self, other: &Name) -> bool
        ensures { IsTrue result ↔ (self.now ≡ other.now) }
    {
        self.is_spelled(other.as_bytes())
    }

    /// Whether the name has exactly these bytes, which may be any: so a look-up needs no `Name` of the bytes that it is
    /// given. O(bytes).
    pub fn is_spelled(&self, bytes: &[u8]) -> bool
        ensures { IsTrue result ↔ (self.now ≡ bytes.now) }
    {
        self.0.is_spelled(bytes)
    }
}

// Whether there are 1 to 32 bytes, of which the first is a small letter: the tests of a name that take O(1), made
// before each byte is looked at.
fn begins_as_name(bytes: &[u8]) -> bool
    ensures { IsTrue result ↔ ((0 < length bytes.now) × (length bytes.now ≤ 32)
        × IsTrue (is_lower (slice_index bytes.now 0))) }
{
    match bytes {
        [] => false,
        [first, ..] => first.is_ascii_lowercase() && bytes.len() <= MAX_NAME,
    }
}

// The bytes as a word, or `None` where one of them is no small letter, digit or `_`. They are tested and copied in one
// pass, and not in two.
fn name_bytes(bytes: &[u8]) -> Option<Inline>
    requires { length bytes.now ≤ 32 }
    ensures some { IsSome result ↔ AllByRecursion (λ c. IsTrue (is_name_byte c)) bytes.now }
    ensures word { IfSome result (λ word. word ≡ bytes.now) }
{
    let mut word = Inline::empty();
    for byte in bytes {
        if !(byte.is_ascii_lowercase() || byte.is_ascii_digit() || *byte == b'_') {
            return None;
        }
        word.push(*byte);
    }
    Some(word)
}

// Whether the bytes are no reserved word. Those have three to five bytes, so the length alone answers for most names.
fn is_free(bytes: &[u8]) -> bool
    ensures { IsTrue result ↔ IsNoneOf reserved_words bytes.now }
{
    bytes.len() < 3 || bytes.len() > 5 || is_no_word(bytes)
}

// Whether the bytes are none of the eight reserved words. Apart from `is_free` and not inlined, since the length
// answers for most names.
#[inline(never)]
fn is_no_word(bytes: &[u8]) -> bool
    ensures { IsTrue result ↔ IsNoneOf reserved_words bytes.now }
{
    is_no_structure(bytes) && is_no_sort(bytes) && is_no_bool(bytes)
}

// Whether the bytes are none of `roles`, `rec`, `end`, the words of a protocol's structure. Apart, as the definition
// `structure_words` is: the reserved words come in three lists.
fn is_no_structure(bytes: &[u8]) -> bool
    ensures { IsTrue result ↔ IsNoneOf structure_words bytes.now }
{
    bytes != b"roles".as_slice() && bytes != b"rec".as_slice() && bytes != b"end".as_slice()
}

// Whether the bytes are none of `int`, `bool`, `text`, the words of sorts. Apart, as the definition `sort_words` is.
fn is_no_sort(bytes: &[u8]) -> bool
    ensures { IsTrue result ↔ IsNoneOf sort_words bytes.now }
{
    bytes != b"int".as_slice() && bytes != b"bool".as_slice() && bytes != b"text".as_slice()
}

// Whether the bytes are neither `true` nor `false`, which spell values. Apart, as the definition `bool_words` is.
fn is_no_bool(bytes: &[u8]) -> bool
    ensures { IsTrue result ↔ IsNoneOf bool_words bytes.now }
{
    bytes != b"true".as_slice() && bytes != b"false".as_slice()
}
