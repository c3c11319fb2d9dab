//! Lines that wait, and a rest.
ghost use Rattle.std.specs.Prelude.{◌≡◌, ◌≤◌, [], length, take, drop, slice_get, IfOk, OnOk, OnErr};
ghost use Rattle.std.specs.Char.{is_ascii};
ghost use Rattle.std.specs.List.{list_all};
ghost use Rattle.mps_lines.specs.Cuts.{cut, fed, last_of, line_of, nothing};

use crate::line::Line;
use crate::split::{MAX_LINE, MOST_KEPT, line_end};
use bytes::BytesMut;
use memchr::memrchr;
use std::alloc::{AllocError, Global};
use std::marker::Model;

/// The lines of bytes that come in pieces. Of a rest `MOST_KEPT` bytes are kept at most.
#[derive(Drop)]
pub struct Lines {
    // the lines that wait, each with its LF, and then the rest
    bytes: BytesMut,
    // how long the rest is
    rest_len: usize,
}

impl Model for Lines {
    ghost use Rattle.std.specs.Prelude.{◌≡◌, ◌≤◌, length, map};
    ghost use Rattle.mps_lines.specs.Cuts.{Pending, cut, line_of};
    ghost use Rattle.mps_lines.specs.Lines.{most_kept};

    ghost Value = { Pending };

    ghost view = { λ s. record {
      waiting = map line_of (cut s.bytes.items).lines;
      rest = (cut s.bytes.items).rest;
    } };

    ghost invariant = { λ s. (s.rest_len ≡ length (cut s.bytes.items).rest) × (s.rest_len ≤ most_kept) };
}

impl Lines {
    /// Lines to which no byte has come. It does not allocate; the allocator is kept for `feed`.
    pub fn new(alloc: Global) -> Lines
        ensures { result ≡ nothing }
    {
        Lines {
            bytes: BytesMut::new(alloc),
            rest_len: 0,
        }
    }

    /// Takes a piece of any length: the lines that it ends wait after the others, and what follows its last LF is the
    /// rest, of which 513 bytes are kept at most. Out of memory is the only error, and takes nothing of the piece.
    pub fn feed(&mut self, piece: &[u8]) -> Result<(), AllocError>
        ensures ok { OnOk result (self.new ≡ fed self.old piece.now) }
        ensures err { OnErr result (self.new ≡ self.old) }
    {
        let start = last_start(piece);
        // a piece with an LF ends the old rest, and a rest of its own begins
        let had = if start == 0 { self.rest_len } else { 0 };
        let count = (MOST_KEPT - had).min(piece.len() - start);
        self.bytes.extend_from_slice(&piece[..start + count])?;
        self.rest_len = had + count;
        Ok(())
    }

    /// Removes and returns the first line that waits, without its LF, or `None` where only a rest is left. Out of
    /// memory is the only error, and the line still waits then.
    pub fn next_line(&mut self) -> Result<Option<Line>, AllocError>
        ensures first { IfOk result (λ line. line ≡ slice_get self.old.waiting 0) }
        ensures others { OnOk result (self.new.waiting ≡ drop 1 self.old.waiting) }
        ensures rest { self.new.rest ≡ self.old.rest }
        ensures err { OnErr result (self.new ≡ self.old) }
    {
        let whole = self.bytes.len() - self.rest_len;
        let Some(k) = line_end(&self.bytes.as_slice()[..whole]) else {
            return Ok(None);
        };
        let line = take_line(&mut self.bytes, k)?;
        // its LF
        self.bytes.advance(1);
        Ok(Some(line))
    }

    /// At the end of the input: removes and returns the rest as a last line without an LF, or `None` where it is empty.
    /// No line may wait. Out of memory is the only error, and removes nothing.
    pub fn finish(&mut self) -> Result<Option<Line>, AllocError>
        requires { self.old.waiting ≡ [] }
        ensures last { IfOk result (λ line. line ≡ last_of self.old.rest) }
        ensures ok { OnOk result (self.new ≡ nothing) }
        ensures err { OnErr result (self.new ≡ self.old) }
    {
        let count = self.rest_len;
        if count == 0 {
            return Ok(None);
        }
        let line = take_line(&mut self.bytes, count)?;
        self.rest_len = 0;
        Ok(Some(line))
    }
}

// Removes the first `count` bytes as a line: `TooLong`, `NotAscii`, or a text, which shares their block in place of a
// copy. Only a text may fail, when out of memory, and removes nothing then.
fn take_line(bytes: &mut BytesMut, count: usize) -> Result<Line, AllocError>
    requires { count ≤ length bytes.old.items }
    ensures line { IfOk result (λ line. line ≡ line_of (take count bytes.old.items)) }
    ensures rest { OnOk result (bytes.new.items ≡ drop count bytes.old.items) }
    ensures err { OnErr result (bytes.new.items ≡ bytes.old.items) }
{
    if count > MAX_LINE {
        bytes.advance(count);
        return Ok(Line::TooLong);
    }
    if !is_ascii(&bytes.as_slice()[..count]) {
        bytes.advance(count);
        return Ok(Line::NotAscii);
    }
    Ok(Line::Text(bytes.freeze_to(count)?))
}

// Whether each byte is below 128. The loop has no early exit, so the compiler vectorises it, where std's `is_ascii`
// ends at the first other byte.
fn is_ascii(bytes: &[u8]) -> bool
    ensures { result ≡ list_all is_ascii bytes.now }
{
    let mut largest = 0;
    for &byte in bytes {
        largest = byte.max(largest);
    }
    largest < 128
}

// Where the rest of a piece begins: after its last LF, or at 0 where it has none. Found from the end, by memrchr.
fn last_start(piece: &[u8]) -> usize
    ensures within { result ≤ length piece.now }
    ensures rest { drop result piece.now ≡ (cut piece.now).rest }
{
    match memrchr(b'\n', piece) {
        Some(k) => k + 1,
        None => 0,
    }
}
