//! Texts as values in the lines of events.
ghost use Rattle.std.specs.Prelude.{◌≡◌, ◌<◌, ◌≤◌, ◌++◌, IfOk, OnOk, length, take};
ghost use Rattle.mps_watch.specs.Values.{digit, escaped, quoted};

use std::alloc::{AllocError, Global};

// How many bytes a value has at most. With the rest of its event it is within the 1,024 bytes that standard error is given in one
// call, so that the events of several threads don't mix.
const LONGEST: usize = 880;

// How many bytes of a text are told where all would be longer.
const FRONT: usize = 219;

// The digit of sixteen with that value.
fn digit(value: u8) -> u8
    requires { value < 16 }
    ensures { result ≡ digit value }
{
    if value < 10 {
        b'0' + value
    } else {
        b'a' - 10 + value
    }
}

// Appends a byte as it stands within quotation marks.
fn write_escaped(byte: u8, out: &mut Vec<u8>) -> Result<(), AllocError>
    ensures { OnOk result (out.new.items ≡ out.old.items ++ escaped byte) }
{
    match byte {
        b'"' | b'\\' => out.extend_from_slice(&[b'\\', byte]),
        b' '..=b'~' => out.extend_from_slice(&[byte]),
        _ => out.extend_from_slice(&[b'\\', b'x', digit(byte / 16), digit(byte % 16)]),
    }
}

// The bytes in quotation marks, in one line whatever they are. Out of memory is the only error. O(bytes).
fn quoted(alloc: Global, bytes: &[u8]) -> Result<Vec<u8>, AllocError>
    ensures { IfOk result (λ text. text.items ≡ quoted bytes.now) }
{
    let mut text = Vec::new(alloc);
    text.push(b'"')?;
    for byte in bytes {
        write_escaped(*byte, &mut text)?;
    }
    text.push(b'"')?;
    Ok(text)
}

/// The bytes in quotation marks, in one line whatever they are, or, where that is longer than 880 bytes, the first 219 so. Out of
/// memory is the only error. O(bytes).
#[tactic(auto, using(crate::proofs::Sizes::quoted_size))]
pub fn value(alloc: Global, bytes: &[u8]) -> Result<Vec<u8>, AllocError>
    ensures whole { IfOk result (λ text. length (quoted bytes.now) ≤ 880 → text.items ≡ quoted bytes.now) }
    ensures front { IfOk result (λ text. 880 < length (quoted bytes.now) → text.items ≡ quoted (take 219 bytes.now)) }
    ensures short { IfOk result (λ text. length text.items ≤ 880) }
{
    let text = quoted(alloc, bytes)?;
    if text.len() <= LONGEST {
        return Ok(text);
    }
    quoted(alloc, bytes.get(..FRONT).unwrap_or(bytes))
}
