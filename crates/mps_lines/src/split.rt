//! Where lines end, and what is kept of one that comes.
ghost use Rattle.std.specs.Prelude.{◌≡◌, ◌<◌, ◌≤◌, ◌++◌, OnOk, OnErr, IfSome, IfNone, length, take};
ghost use Rattle.std.specs.Prelude.{slice_index};
ghost use Rattle.mps_lines.specs.Lines.{HasNoBreak, front, most_kept};

use memchr::memchr;
use std::alloc::AllocError;

/// How many bytes a line may have, without the LF that ends it.
pub const MAX_LINE: usize = 512;

/// How many bytes of a line are kept while it comes: one more than a line may have, which tells
/// that it is too long.
pub const MOST_KEPT: usize = MAX_LINE + 1;

/// The place of the first LF, where the first line ends, or `None`. O(bytes), by memchr.
pub fn line_end(bytes: &[u8]) -> Option<usize>
    ensures within { IfSome result (λ k. k < length bytes.now) }
    ensures end { IfSome result (λ k. slice_index bytes.now k ≡ 10) }
    ensures before { IfSome result (λ k. HasNoBreak (take k bytes.now)) }
    ensures none { IfNone result (HasNoBreak bytes.now) }
{
    memchr(b'\n', bytes)
}

/// Appends a piece to what is kept of a line's front, up to 513 bytes in all; the others are dropped, since one byte
/// over the limit shows that the line is too long. Out of memory is the only error, and appends nothing.
#[inline(never)]
pub fn keep(line: &mut Vec<u8>, piece: &[u8]) -> Result<(), AllocError>
    requires { length line.old.items ≤ most_kept }
    ensures ok { OnOk result (line.new.items ≡ front (line.old.items ++ piece.now)) }
    ensures err { OnErr result (line.new.items ≡ line.old.items) }
{
    let space = MOST_KEPT - line.len();
    let count = space.min(piece.len());
    line.extend_from_slice(&piece[..count])
}
