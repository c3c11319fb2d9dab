//! Seals.
ghost use Rattle.std.specs.Prelude.{◌≡◌, ◌++◌, ℕ, List, [], IfOk, OnOk, OnErr, IfSome, IfNone, take};
ghost use Rattle.mps_base.specs.Numbers.{IsNumberText};
ghost use Rattle.mps_seal.specs.Seals.{first_seal, next_seal, seal_text, sealed};

use hex::encode_to_slice;
use mps_base::write_number;
use sha2::{Digest, Sha256};
use std::alloc::{AllocError, Global};
use std::marker::Model;

/// How many bytes a seal takes at the end of a line: a space, and sixteen hexadecimal digits.
pub const SEAL_BYTES: usize = 17;

// How many bytes of a digest a seal is.
const KEPT: usize = 8;

/// The seal of a line and of all lines before it: the first 64 bits of a SHA-256, as in a chain of hashes. It is no
/// signature: whoever can write a journal can write its seals.
#[derive(Clone, Copy, Debug)]
pub struct Seal([u8; KEPT]);

impl Model for Seal {
    ghost use Rattle.std.specs.Prelude.{◌≡◌, ℕ, List, length};

    ghost Value = { List ℕ };

    ghost view = { λ s. s.0 };

    ghost invariant = { λ s. length s.0 ≡ 8 };

    ghost inverse = { λ l. record { 0 = l } };
}

// The first 8 bytes of a SHA-256 digest as a seal: 64 bits are enough to see a mistake, and a seal is no signature.
fn seal_of_digest(digest: [u8; 32]) -> Seal
    ensures { result ≡ take 8 digest }
{
    let [a, b, c, d, e, f, g, h, ..] = digest;
    Seal([a, b, c, d, e, f, g, h])
}

impl Seal {
    /// The seal before the first line: over the protocol's text, an LF, and the session's number in decimal; so a
    /// journal of another protocol or session is seen. It fails only when out of memory, for the number's digits.
    pub fn first(alloc: Global, protocol: &[u8], session: u64) -> Result<Seal, AllocError>
        ensures { IfOk result (λ seal. (number : List ℕ) × IsNumberText number session
            × (seal ≡ first_seal protocol.now number)) }
    {
        let mut number = Vec::new(alloc);
        write_number(session, &mut number)?;
        let mut hasher = Sha256::new();
        hasher.update(protocol);
        hasher.update(b"\n");
        hasher.update(number.as_slice());
        Ok(seal_of_digest(hasher.finalize()))
    }

    /// The seal of the line after this one: over this seal and that line, as in a hash chain. O(line); it does not
    /// allocate.
    pub fn next(&self, line: &[u8]) -> Seal
        ensures { result ≡ next_seal self.now line.now }
    {
        let mut hasher = Sha256::new();
        hasher.update(self.0.as_slice());
        hasher.update(line);
        seal_of_digest(hasher.finalize())
    }

    // The seal as it stands at the end of a line: a space and 16 hexadecimal digits, small letters.
    fn text(&self) -> [u8; SEAL_BYTES]
        ensures { result ≡ seal_text self.now }
    {
        let mut text = [b' '; SEAL_BYTES];
        let _ = encode_to_slice(self.0.as_slice(), &mut text[1..]);
        text
    }

    /// Appends to a line, the one after this seal, its own seal, and returns that. Out of memory is the only error, and
    /// leaves the line unchanged.
    pub fn close(&self, line: &mut Vec<u8>) -> Result<Seal, AllocError>
        ensures next { IfOk result (λ seal. seal ≡ next_seal self.now line.old.items) }
        ensures ok { OnOk result (line.new.items ≡ sealed self.now line.old.items) }
        ensures err { OnErr result (line.new.items ≡ line.old.items) }
    {
        let seal = self.next(line.as_slice());
        line.extend_from_slice(&seal.text())?;
        Ok(seal)
    }

    /// The seal of an empty line after this one, where `line` is that seal alone; else `None`. A journal has such a
    /// line where its sealed lines begin. It does not allocate.
    pub fn alone(&self, line: &[u8]) -> Option<Seal>
        ensures some { IfSome result (λ seal. line.now ≡ sealed self.now []) }
        ensures next { IfSome result (λ seal. seal ≡ next_seal self.now []) }
        ensures none { IfNone result (line.now ≡ sealed self.now [] → ⊥) }
    {
        let seal = self.next(b"");
        if line == seal.text().as_slice() {
            Some(seal)
        } else {
            None
        }
    }

    /// The line, which comes without its LF, less its seal, and that seal, by which the next line is read; `None` where it
    /// doesn't end with the seal that is due after this one, as a line that was changed or cut, that follows a changed
    /// one, or that is of another journal. O(line); it does not allocate.
    pub fn read<'l>(&self, line: &'l [u8]) -> Option<(&'l [u8], Seal)>
        ensures some { IfSome result (λ r. line.now ≡ sealed self.now r.0.now) }
        ensures next { IfSome result (λ r. r.1 ≡ next_seal self.now r.0.now) }
        ensures none { IfNone result ((body : List ℕ) → line.now ≡ sealed self.now body → ⊥) }
    {
        let count = line.len().checked_sub(SEAL_BYTES)?;
        let (body, text) = line.split_at(count);
        let seal = self.next(body);
        if text == seal.text().as_slice() {
            Some((body, seal))
        } else {
            None
        }
    }
}
