//! Short words, kept inline.
ghost use Rattle.std.specs.Prelude.{◌≡◌, ◌↔◌, ◌<◌, ◌≤◌, [], ◌∷◌, ◌++◌, length, take, IsTrue};

use std::marker::Model;

/// How many bytes a word may have.
pub(crate) const MAX_WORD: usize = 32;

/// A word of at most 32 bytes, kept without allocating.
#[derive(Clone, Copy, Debug, PartialEq, Eq)]
pub(crate) struct Inline {
    // as wide as a word: a byte would leave gaps in each value that holds a name, and each move would carry them
    len: usize,
    // zeros after the word
    bytes: [u8; 32],
}

impl Model for Inline {
    ghost use Rattle.std.specs.Prelude.{ℕ, ◌-◌, ◌++◌, List, length, take, replicate};
    ghost use Rattle.mps_base.specs.Private.Inline.{IsKept};

    ghost Value = { List ℕ };

    ghost use Rattle.mps_base.specs.Private.Refilled.{refilled};

    ghost view = { λ n. take n.len n.bytes };

    ghost invariant = { λ n. IsKept n.len n.bytes };

    ghost inverse = { λ l. record { len = length l; bytes = l ++ replicate (32 - length l) 0 } };

    ghost inverse_ok = { refilled };
}

impl Inline {
    /// The word of these bytes, which are copied: at most 32, of any values; names and variables test theirs first. It
    /// does not allocate.
    pub(crate) fn of(bytes: &[u8]) -> Inline
        requires short { length bytes.now ≤ 32 }
        ensures { result ≡ bytes.now }
    {
        let mut kept = [0; MAX_WORD];
        kept[..bytes.len()].copy_from_slice(bytes);
        Inline {
            len: bytes.len(),
            bytes: kept,
        }
    }

    /// The word of no bytes, to which `push` adds them one by one, as they are tested.
    pub(crate) fn empty() -> Inline
        ensures { result ≡ [] }
    {
        Inline {
            len: 0,
            bytes: [0; MAX_WORD],
        }
    }

    /// Appends a byte to the word, which must have fewer than 32. It does not allocate.
    pub(crate) fn push(&mut self, byte: u8)
        requires { length self.old < 32 }
        ensures { self.new ≡ self.old ++ byte ∷ [] }
    {
        self.bytes[self.len] = byte;
        self.len += 1;
    }

    /// Whether the word has exactly these bytes. They are compared one by one in place, not by a call of memcmp, since
    /// most words are short.
    pub(crate) fn is_spelled(&self, bytes: &[u8]) -> bool
        ensures { IsTrue result ↔ (self.now ≡ bytes.now) }
    {
        self.len == bytes.len()
            && self
                .as_bytes()
                .iter()
                .zip(bytes)
                .all(|pair| pair.0 == pair.1)
    }

    /// A copy of all 32 bytes of the storage: the word, and after it bytes of which nothing is promised. One copy of
    /// fixed size takes less than one of the word's own length.
    #[inline(always)]
    pub(crate) fn padded(&self) -> [u8; MAX_WORD]
        ensures { take (length self.now) result ≡ self.now }
    {
        self.bytes
    }

    /// The bytes of the word without the padding: 0 to 32, borrowed.
    pub(crate) fn as_bytes(&self) -> &[u8]
        ensures { result.now ≡ self.now }
    {
        &self.bytes[..self.len]
    }
}
