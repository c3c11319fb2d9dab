ghost use Rattle.std.specs.Prelude.{◌≡◌, ℕ, ◌+◌, ◌^◌, ◌<◌, ◌≤◌, List, Option};
ghost use Rattle.std.specs.Io.{ReadsAtMost, WritesAtMost};
ghost use Rattle.std.specs.Io.KnownBytes.{ReadConsumes, WriteAppends};
ghost use Rattle.mps_dev.specs.Calls.{ends_after, failures_after, TakesSome};

use thiserror::Error;

/// A device failed. What is known of the bytes that it has left, or took, is as before the call.
#[derive(Clone, Copy, Debug, PartialEq, Eq, Error)]
#[error("the device failed")]
pub struct Failed;

/// What bytes are read from, one call at a time. The devices here allocate nothing of their own in a read.
pub trait Source {
    // The bytes that reads will give from here on, where they are known.
    ghost remaining: { Self → Option (List ℕ) };

    // How many times `read` was called.
    ghost calls: { Self → ℕ };

    // How many of these calls failed.
    ghost failed_calls: { Self → ℕ };

    // How many of them ended: they answered that nothing is left, though there was room for it.
    ghost ends: { Self → ℕ };

    /// Reads some bytes into the front of `buf`, and returns how many. `Ok(0)` with room in `buf` is the end. After
    /// `Failed` no byte is lost, as far as the bytes are known; nothing is promised of what `buf` has then.
    fn read(&mut self, buf: &mut [u8]) -> Result<usize, Failed>
        requires { calls self.old < 2 ^ 63 }
        ensures within { ReadsAtMost result buf.new }
        ensures calls { calls self.new ≡ calls self.old + 1 }
        ensures failures { failed_calls self.new ≡ failures_after result (failed_calls self.old) }
        ensures ends { ends self.new ≡ ends_after result buf.old (ends self.old) }
        ensures bytes { ReadConsumes (remaining self.old) (remaining self.new) result buf.new };

    // No call failed and ended too.
    ghost fewer_failed: { (s : Self) → failed_calls s + ends s ≤ calls s };
}

/// What bytes are written to, one call at a time. The devices here allocate nothing of their own in a write.
pub trait Sink {
    // The bytes taken so far, where they are known.
    ghost taken: { Self → Option (List ℕ) };

    // How many calls of `write` failed.
    ghost failed_calls: { Self → ℕ };

    /// Takes some bytes from the front of `bytes`, and returns how many, which may be fewer than all. To take none of
    /// some is `Failed`. After `Failed` none was taken, as far as what was taken is known.
    fn write(&mut self, bytes: &[u8]) -> Result<usize, Failed>
        requires { failed_calls self.old < 2 ^ 63 }
        ensures within { WritesAtMost result bytes.now }
        ensures progress { TakesSome result bytes.now }
        ensures failures { failed_calls self.new ≡ failures_after result (failed_calls self.old) }
        ensures bytes { WriteAppends (taken self.old) (taken self.new) result bytes.now };
}
