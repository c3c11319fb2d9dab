//! Names and numbers, each appended by a copy of fixed size: one takes less than a copy of the text's own length.
ghost use Rattle.std.specs.Prelude.{◌≡◌, ◌≤◌, ◌++◌, [], OnOk, length, take, decimal};
ghost use Rattle.mps_show.specs.Plain.{IsPlain};
ghost use Rattle.serde_json.specs.Data.{string};
ghost use Rattle.serde_json.specs.Written.{compact_text};

use itoa::write_digits;
use mps_base::Name;
use mps_base::name::MAX_NAME;
use std::alloc::AllocError;
use std::marker::Model;

// How many digits a number has at most.
const MAX_DIGITS: usize = 20;

// Appends the first `len` of the bytes: all of them are appended, and those behind are cut off. It fails only when out
// of memory, and appends nothing then.
#[inline(always)]
fn put_first(out: &mut Vec<u8>, bytes: &[u8], len: usize) -> Result<(), AllocError>
    requires { len ≤ length bytes.now }
    ensures { OnOk result (out.new.items ≡ out.old.items ++ take len bytes.now) }
{
    out.extend_from_slice(bytes)?;
    out.truncate(out.len() - (bytes.len() - len));
    Ok(())
}

/// Appends a name as a JSON string; its bytes need no escapes. It fails only when out of memory, and appends nothing
/// then.
#[inline(always)]
pub(crate) fn put_name(out: &mut Vec<u8>, name: &Name) -> Result<(), AllocError>
    ensures text { OnOk result (out.new.items ≡ out.old.items ++ compact_text (string name.now)) }
    ensures plain { OnOk result (IsPlain (string name.now)) }
{
    let len = name.as_bytes().len();
    let mut quoted = [b'"'; MAX_NAME + 2];
    quoted[1..1 + MAX_NAME].copy_from_slice(&name.padded());
    quoted[len + 1] = b'"';
    put_first(out, &quoted, len + 2)
}

/// A number in decimal, which is written in place, since a new one for each number takes more.
#[derive(Drop)]
pub(crate) struct Decimal {
    // where the digits begin, which end at MAX_DIGITS
    start: usize,
    bytes: [u8; 2 * MAX_DIGITS],
}

impl Model for Decimal {
    ghost use Rattle.std.specs.Prelude.{ℕ, ◌-◌, ◌≤◌, List, take, drop};

    ghost Value = { List ℕ };

    ghost view = { λ d. take (20 - d.start) (drop d.start d.bytes) };

    ghost invariant = { λ d. d.start ≤ 20 };
}

impl Decimal {
    /// No digits yet: `set` writes some.
    #[inline(always)]
    pub(crate) fn new() -> Decimal
        ensures { result ≡ [] }
    {
        Decimal {
            start: MAX_DIGITS,
            bytes: [0; 2 * MAX_DIGITS],
        }
    }

    /// Writes this number in place of the one before. It does not allocate.
    #[inline(always)]
    pub(crate) fn set(&mut self, n: u64)
        ensures { self.new ≡ decimal n }
    {
        self.start = write_digits(n, &mut self.bytes, MAX_DIGITS);
    }

    /// Appends the digits. It fails only when out of memory, and appends nothing then.
    #[inline(always)]
    pub(crate) fn put(&self, out: &mut Vec<u8>) -> Result<(), AllocError>
        ensures { OnOk result (out.new.items ≡ out.old.items ++ self.now) }
    {
        let bytes = &self.bytes[self.start..self.start + MAX_DIGITS];
        put_first(out, bytes, MAX_DIGITS - self.start)
    }
}
