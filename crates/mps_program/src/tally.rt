//! What is heard of the answers to a script.
ghost use Rattle.std.specs.Prelude.{◌≡◌, ◌+◌, ◌-◌, ◌<◌, ◌≤◌, ◌%◌, ◌^◌, ◌++◌, ◌↔◌, ◌⊎◌, ℕ, IsTrue, List, [], None, length, slice_index, take};
ghost use Rattle.std.specs.Io.{WritesAtMost};
ghost use Rattle.std.specs.Io.KnownBytes.{WriteAppends};
ghost use Rattle.mps_dev.specs.Calls.{failures_after, TakesSome};
ghost use Rattle.mps_lines.specs.Cuts.{cut};
ghost use Rattle.mps_lines.specs.Lines.{HasNoBreak};
ghost use Rattle.mps_program.specs.Heard.{HasHeard, HasPassed, begun, first_refusal, inner_of, late_after, late_of, refusals, taken_by, wrapped};
ghost use Rattle.mps_program.specs.Private.Heard.{IsHearing};

use mps_dev::{Failed, Sink};
use mps_lines::line_end;
use std::cell::Cell;

/// How many answers there were, and how many of them were refusals. As a sink it keeps nothing else of them.
#[derive(Debug, Drop)]
pub struct Tally {
    lines: u64,
    refused: u64,
    // the next byte belongs to an answer that has begun
    within: bool,
}

impl Tally {
    /// A tally that has heard nothing yet.
    pub fn new() -> Tally
        ensures { HasHeard result [] }
    {
        Tally {
            lines: 0,
            refused: 0,
            within: false,
        }
    }

    /// How many answers have ended, modulo 2^64.
    pub fn lines(&self) -> u64
        ensures { (heard : List ℕ) → HasHeard self.now heard → result ≡ length (cut heard).lines % 2 ^ 64 }
    {
        self.lines
    }

    /// How many answers, one that has begun included, are refusals, modulo 2^64.
    pub fn refused(&self) -> u64
        ensures { (heard : List ℕ) → HasHeard self.now heard → result ≡ refusals (begun heard) % 2 ^ 64 }
    {
        self.refused
    }

    // Whether the last answer that was heard has ended. Where none was heard, none is open either.
    fn has_ended(&self) -> bool
        ensures { (heard : List ℕ) → HasHeard self.now heard → IsTrue result ↔ (cut heard).rest ≡ [] }
    {
        !self.within
    }

    // Hears the front of the bytes, up to the end of its line, and gives the rest. Of all answers only refusals begin
    // with an r.
    fn hear_line<'b>(&mut self, bytes: &'b [u8]) -> &'b [u8]
        requires { 0 < length bytes.now }
        ensures shorter { length result.now < length bytes.now }
        ensures heard { (all : List ℕ) → IsHearing self.old bytes.now all → IsHearing self.new result.now all }
    {
        if !self.within && bytes[0] == b'r' {
            self.refused = u64::wrapping_add(self.refused, 1);
        }
        match line_end(bytes) {
            Some(end) => {
                self.within = false;
                self.lines = u64::wrapping_add(self.lines, 1);
                &bytes[end + 1..]
            }
            None => {
                self.within = true;
                &[]
            }
        }
    }

    // Hears the bytes that come next, line by line.
    fn hear(&mut self, bytes: &[u8])
        ensures { (heard : List ℕ) → HasHeard self.old heard → HasHeard self.new (heard ++ bytes.now) }
    {
        let mut rest = bytes;
        'lines: while !rest.is_empty() {
            rest = self.hear_line(rest);
        }
    }
}

impl Sink for Tally {
    ghost taken = { λ _. None };

    ghost failed_calls = { λ _. 0 };

    // Hears all of the bytes, and keeps none.
    fn write(&mut self, bytes: &[u8]) -> Result<usize, Failed>
        ensures within { WritesAtMost result bytes.now }
        ensures progress { TakesSome result bytes.now }
        ensures failures { 0 ≡ failures_after result 0 }
        ensures bytes { WriteAppends None None result bytes.now }

        ensures all { result ≡ Ok (length bytes.now) }
        ensures heard { (heard : List ℕ) → HasHeard self.old heard → HasHeard self.new (heard ++ bytes.now) }
    {
        self.hear(bytes);
        Ok(bytes.len())
    }
}

/// A sink that takes answers until one of them is a refusal, and no more then. It notes that for the source of the
/// script, `Until`.
#[derive(Drop)]
pub struct Strict<'c, W> {
    inner: W,
    tally: Tally,
    noted: &'c Cell<bool>,
    // how often more was to be taken after a refusal
    late: u64,
}

impl<'c, W> Strict<'c, W> {
    /// Passes answers on to this sink, and notes in `noted` when one was a refusal.
    pub fn new(inner: W, noted: &'c Cell<bool>) -> Strict<'c, W>
        ensures inner { inner_of result ≡ inner }
        ensures late { late_of result ≡ 0 }
        ensures passed { HasPassed result [] }
    {
        Strict {
            inner,
            tally: Tally::new(),
            noted,
            late: 0,
        }
    }

    /// The number of the line whose refusal was taken whole, counted from 1, modulo 2^64, if one was.
    pub fn refused(&self) -> Option<u64>
        ensures { (passed : List ℕ) → HasPassed self.now passed → result ≡ wrapped (first_refusal (cut passed).lines) }
    {
        if self.tally.refused() > 0 && self.tally.has_ended() {
            Some(self.tally.lines())
        } else {
            None
        }
    }

    // Notes whether a refusal was taken whole, for the `Until` that reads the script.
    fn note(&self) {
        self.noted.set(self.refused().is_some());
    }
}

// How many bytes the line takes that comes first, with its LF; all of the bytes, where none ends it.
fn line_length(bytes: &[u8]) -> usize
    ensures within { result ≤ length bytes.now }
    ensures some { 0 < length bytes.now → 0 < result }
    ensures line { HasNoBreak (take (result - 1) bytes.now) }
    ensures whole { (result ≡ length bytes.now) ⊎ ((0 < result) × (slice_index bytes.now (result - 1) ≡ 10)) }
{
    match line_end(bytes) {
        Some(end) => end + 1,
        None => bytes.len(),
    }
}

impl<'c, W: Sink> Sink for Strict<'c, W> {
    ghost taken = { λ s. W.taken (inner_of s) };

    ghost failed_calls = { λ s. W.failed_calls (inner_of s) + late_of s };

    // Passes on the front of the bytes, one line at most, so that nothing after a refusal is passed on. Where the inner
    // sink fails, so does this, and nothing is counted of it. Once a refusal was taken whole, each write fails and is
    // counted as late, and the inner sink isn't called.
    fn write(&mut self, bytes: &[u8]) -> Result<usize, Failed>
        requires { W.failed_calls (inner_of self.old) + late_of self.old < 2 ^ 63 }
        ensures within { WritesAtMost result bytes.now }
        ensures progress { TakesSome result bytes.now }
        ensures failures { W.failed_calls (inner_of self.new) + late_of self.new ≡ failures_after result (W.failed_calls (inner_of self.old) + late_of self.old) }
        ensures bytes { WriteAppends (W.taken (inner_of self.old)) (W.taken (inner_of self.new)) result bytes.now }

        ensures passed { (passed : List ℕ) → HasPassed self.old passed → HasPassed self.new (passed ++ taken_by result bytes.now) }
        ensures late { (passed : List ℕ) → HasPassed self.old passed → late_of self.new ≡ late_after (first_refusal (cut passed).lines) (late_of self.old) }
    {
        if self.refused().is_some() {
            self.late += 1;
            return Err(Failed);
        }
        let end = line_length(bytes);
        let count = self.inner.write(&bytes[..end])?;
        self.tally.hear(&bytes[..count]);
        self.note();
        Ok(count)
    }
}
