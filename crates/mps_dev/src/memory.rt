ghost use Rattle.std.specs.Prelude.{◌≡◌, ◌+◌, ◌^◌, ◌<◌, ◌↔◌, min, [], ◌++◌, length, take, drop, map, vec_items, IfOk};
ghost use Rattle.std.specs.Prelude.{OnErr, IsErr, Some, None, Ok};
ghost use Rattle.std.specs.Io.{ReadsAtMost, WritesAtMost};
ghost use Rattle.std.specs.Io.KnownBytes.{ReadConsumes, WriteAppends};
ghost use Rattle.std.specs.List.{concat, flat_map, slice_index_or};
ghost use Rattle.std.proofs.Common.{arith};
ghost use Rattle.mps_dev.specs.Calls.{ends_after, failures_after, TakesSome};
ghost use Rattle.mps_dev.specs.Pieces.{IsFailingCall, calls_of, first_piece, left_from, non_empty, past};

use super::{Failed, Sink, Source};
use std::alloc::{AllocError, Global};
use std::marker::Model;

/// A source over memory: it gives pieces in order, and fails from a given call on. A read gives bytes of one piece, at
/// most what is left of it, and passes over empty pieces.
#[derive(Debug, Drop)]
pub struct Pieces {
    pieces: Vec<Vec<u8>>,
    next: usize,
    given: usize,
    fails_from: Option<u64>,
    answered: u64,
    ends: u64,
    failed_calls: u64,
}

impl Model for Pieces {
    ghost use Rattle.std.specs.Prelude.{map, vec_items};
    ghost use Rattle.mps_dev.specs.Pieces.{Script, left_from};

    ghost Value = { Script };

    ghost view = { λ s. record {
      pieces = left_from s.next s.given (map vec_items s.pieces.items);
      fails_from = s.fails_from;
      answered = s.answered;
      ends = s.ends;
      failed_calls = s.failed_calls;
    } };
}

impl Pieces {
    /// A source for tests that gives `pieces` in order. Its calls fail from the call `fails_from` on, counted from 1,
    /// or never where that is `None`. The pieces are kept, not copied, so it does not allocate.
    pub fn new(pieces: Vec<Vec<u8>>, fails_from: Option<u64>) -> Self
        ensures script { result ≡ record {
          pieces = non_empty (map vec_items pieces.items);
          fails_from = fails_from;
          answered = 0;
          ends = 0;
          failed_calls = 0;
        } }
        ensures bytes { concat result.pieces ≡ flat_map vec_items pieces.items }
    {
        Pieces {
            pieces,
            next: 0,
            given: 0,
            fails_from,
            answered: 0,
            ends: 0,
            failed_calls: 0,
        }
    }
}

impl Source for Pieces {
    ghost remaining = { λ s. Some (concat s.pieces) };

    ghost calls = { calls_of };

    ghost failed_calls = { λ s. s.failed_calls };

    ghost ends = { λ s. s.ends };

    ghost fewer_failed = { λ s. Prim.omega arith };

    // Copies bytes of the next piece that isn't empty, as many as `buf` has room for. A call that fails leaves the
    // pieces and `buf` unchanged. Each call adds 1 to one of the three counts: failed, ended or answered.
    fn read(&mut self, buf: &mut [u8]) -> Result<usize, Failed>
        requires { calls_of self.old < 2 ^ 63 }
        ensures within { ReadsAtMost result buf.new }
        ensures calls { calls_of self.new ≡ calls_of self.old + 1 }
        ensures failures { self.new.failed_calls ≡ failures_after result self.old.failed_calls }
        ensures ends { self.new.ends ≡ ends_after result buf.old self.old.ends }
        ensures bytes { ReadConsumes (Some (concat self.old.pieces)) (Some (concat self.new.pieces))
            result buf.new }

        // It fails exactly from the given call on, and loses nothing then.
        ensures fails { IsErr result ↔ IsFailingCall self.old.fails_from (calls_of self.old + 1) }
        ensures kept { OnErr result (self.new.pieces ≡ self.old.pieces) }
        ensures untouched { OnErr result (buf.new ≡ buf.old) }
        ensures schedule { self.new.fails_from ≡ self.old.fails_from }

        // Else it gives as much of the next piece as there is room for.
        ensures count { IfOk result (λ n.
            n ≡ min (length (first_piece self.old.pieces)) (length buf.old)) }
        ensures given { IfOk result (λ n.
            buf.new ≡ take n (first_piece self.old.pieces) ++ drop n buf.old) }
        ensures left { IfOk result (λ n. self.new.pieces ≡ non_empty (past n self.old.pieces)) }
    {
        let call = self.answered + self.ends + self.failed_calls + 1;
        if self.fails_from.is_some_and(|first| first <= call) {
            self.failed_calls += 1;
            return Err(Failed);
        }
        let (next, given) = first_left(&self.pieces, self.next, self.given);
        let n = match self.pieces.get(next) {
            Some(piece) => copy_front(&piece[given..], buf),
            None => 0,
        };
        self.next = next;
        self.given = given + n;
        if n == 0 && !buf.is_empty() {
            self.ends += 1;
        } else {
            self.answered += 1;
        }
        Ok(n)
    }
}

// Skips pieces that are used up or empty: gives the piece of the next byte, and the byte's place in it, from the byte
// `given` of the piece `next` on. Where no byte is left, the piece is one past the last. O(pieces skipped).
fn first_left(pieces: &[Vec<u8>], mut next: usize, mut given: usize) -> (usize, usize)
    ensures same { left_from result.0 result.1 (map vec_items pieces.now)
        ≡ left_from next given (map vec_items pieces.now) }
    ensures found { result.0 < length pieces.now
        → result.1 < length (slice_index_or (map vec_items pieces.now) result.0 []) }
{
    while next < pieces.len() && given >= pieces[next].len() {
        next += 1;
        given = 0;
    }
    (next, given)
}

// Copies the front of `from` over the front of `to`, as many bytes as both have, and returns that number. The rest of
// `to` is unchanged. Apart from `read`, since slices are copied only between equal lengths.
fn copy_front(from: &[u8], to: &mut [u8]) -> usize
    ensures count { result ≡ min (length from.now) (length to.old) }
    ensures copied { to.new ≡ take result from.now ++ drop result to.old }
{
    let n = from.len().min(to.len());
    to[..n].copy_from_slice(&from[..n]);
    n
}

/// A sink over memory that takes so many bytes in all, and then fails. It keeps what it took.
#[derive(Debug, Drop)]
pub struct Short {
    bytes: Vec<u8>,
    room: usize,
    failed_calls: u64,
}

impl Model for Short {
    ghost use Rattle.std.specs.Prelude.{◌+◌, ◌≤◌, vec_len, vec_capacity};
    ghost use Rattle.mps_dev.specs.Short.{Tray};

    ghost Value = { Tray };

    ghost view = { λ s. record {
      bytes = s.bytes.items;
      room = s.room;
      failed_calls = s.failed_calls;
    } };

    ghost invariant = { λ s. vec_len s.bytes + s.room ≤ vec_capacity s.bytes };
}

impl Short {
    /// A sink for tests that takes `room` bytes in all, and has taken none. All memory is allocated here, O(room), and
    /// none by a write. It fails only when out of memory.
    pub fn new(alloc: Global, room: usize) -> Result<Self, AllocError>
        ensures { IfOk result (λ s. s ≡ record { bytes = []; room = room; failed_calls = 0 }) }
    {
        Ok(Short {
            bytes: Vec::with_capacity(alloc, room)?,
            room,
            failed_calls: 0,
        })
    }

    /// The bytes that were taken so far, oldest first, at most `room`. They are borrowed, not copied.
    pub fn bytes(&self) -> &[u8]
        ensures { result.now ≡ self.now.bytes }
    {
        self.bytes.as_slice()
    }
}

impl Sink for Short {
    ghost taken = { λ s. Some s.bytes };

    ghost failed_calls = { λ s. s.failed_calls };

    // Takes as many bytes as there is room for, which may be fewer than come. It fails only where bytes come and no
    // room is left; then the bytes taken stay as they were, and the failure is counted.
    fn write(&mut self, bytes: &[u8]) -> Result<usize, Failed>
        requires { self.old.failed_calls < 2 ^ 63 }
        ensures within { WritesAtMost result bytes.now }
        ensures progress { TakesSome result bytes.now }
        ensures failures { self.new.failed_calls ≡ failures_after result self.old.failed_calls }
        ensures bytes { WriteAppends (Some self.old.bytes) (Some self.new.bytes) result bytes.now }

        ensures fails { IsErr result ↔ ((0 < length bytes.now) × (self.old.room ≡ 0)) }
        ensures count { IfOk result (λ n. n ≡ min self.old.room (length bytes.now)) }
        ensures room { IfOk result (λ n. self.old.room ≡ n + self.new.room) }
        ensures full { OnErr result (self.new.room ≡ self.old.room) }
    {
        if self.room == 0 && !bytes.is_empty() {
            self.failed_calls += 1;
            return Err(Failed);
        }
        let n = self.room.min(bytes.len());
        // never out of memory: `new` allocated for all bytes that it takes
        let Ok(()) = self.bytes.extend_from_slice(&bytes[..n]) else {
            unreachable!()
        };
        self.room -= n;
        Ok(n)
    }
}

/// A sink that takes all bytes and keeps none. It never fails.
#[derive(Clone, Copy, Debug)]
pub struct Discard;

impl Sink for Discard {
    ghost taken = { λ _. None };

    ghost failed_calls = { λ _. 0 };

    // Takes all of the bytes and stores none, as /dev/null does: for callers that only count what is written.
    fn write(&mut self, bytes: &[u8]) -> Result<usize, Failed>
        ensures within { WritesAtMost result bytes.now }
        ensures progress { TakesSome result bytes.now }
        ensures failures { 0 ≡ failures_after result 0 }
        ensures bytes { WriteAppends None None result bytes.now }

        ensures all { result ≡ Ok (length bytes.now) }
    {
        Ok(bytes.len())
    }
}
