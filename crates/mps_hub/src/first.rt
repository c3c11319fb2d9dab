//! The first line of a connection.
ghost use Rattle.std.specs.Prelude.{◌≡◌, ◌+◌, ◌<◌, ◌≤◌, ◌^◌, ◌∷◌, [], ℕ, IfOk, IfSome, IfNone};
ghost use Rattle.std.specs.Io.KnownBytes.{Consumes};
ghost use Rattle.mps_dev.specs.Reads.{max_reads};
ghost use Rattle.mps_hub.specs.First.{HasStopped, HasNoFirstLine, IsFirstLine, IsJoin};

use mps_base::Name;
use mps_dev::{MAX_READS, Source};
use mps_line::{LineFault, read_join};
use mps_lines::{MAX_LINE, keep};
use std::alloc::{AllocError, Global};

// Reads one byte. None says that the read failed, or that the reader came to its end.
fn read_byte<R: Source>(reader: &mut R) -> Option<u8>
    requires { R.calls reader.old < 2 ^ 63 }
    ensures calls { R.calls reader.new ≡ R.calls reader.old + 1 }
    ensures byte { IfSome result (λ byte. Consumes (R.remaining reader.old) (R.remaining reader.new) (byte ∷ [])) }
    ensures none { IfNone result (Consumes (R.remaining reader.old) (R.remaining reader.new) []) }
    ensures stopped { IfNone result (HasStopped R.Source reader.old reader.new) }
    ensures counted { IfSome result (λ _. (R.failed_calls reader.new ≡ R.failed_calls reader.old)
        × (R.ends reader.new ≡ R.ends reader.old)) }
{
    let mut byte = [0u8];
    match reader.read(&mut byte) {
        Ok(1) => Some(byte[0]),
        _ => None,
    }
}

/// Reads the first line of a connection, one byte a call, so that what comes after its LF is left for the conversation.
///
/// Of a line of more than 512 bytes the first 513 are kept, which say that it is too long. `None` where a read failed,
/// the reader came to its end, or it was read from `MAX_READS` times, before an LF.
pub fn first_line<R: Source>(alloc: Global, reader: &mut R) -> Result<Option<Vec<u8>>, AllocError>
    requires reads { R.calls reader.old < 2 ^ 62 }
    ensures line { IfOk result (λ found. IfSome found (λ line.
        IsFirstLine R.Source reader.old reader.new line.items)) }
    ensures none { IfOk result (λ found. IfNone found (HasNoFirstLine R.Source reader.old reader.new)) }
    ensures reads { R.calls reader.new ≤ R.calls reader.old + max_reads }
{
    let mut line = Vec::new(alloc);
    for _ in 0..MAX_READS {
        let Some(byte) = read_byte(reader) else {
            return Ok(None);
        };
        if byte == b'\n' {
            return Ok(Some(line));
        }
        keep(&mut line, &[byte])?;
    }
    Ok(None)
}

/// The session and the role that the line asks for, of which the front was kept.
pub fn asked_for(kept: &[u8]) -> Option<(u64, Name)>
    ensures some { IfSome result (λ r. IsJoin kept.now r.0 r.1) }
    ensures none { IfNone result ((session : ℕ) (name : _) → IsJoin kept.now session name → ⊥) }
{
    if kept.len() > MAX_LINE {
        return None;
    }
    match read_join(kept) {
        Ok(found) => Some(found),
        Err(LineFault::Bad) => None,
        Err(LineFault::Memory) => None,
    }
}
