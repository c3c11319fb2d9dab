ghost use Rattle.std.specs.Prelude.{◌≡◌, ◌+◌, ◌≤◌};

use super::{Failed, Sink, Source};
use std::io::{Read, Write};

/// A source over one of std's readers: a call of `read` is one read of it. Each `io::Error` is
/// `Failed`, one of kind `Interrupted` too, so a caller that wants to go on reads again.
#[derive(Debug, Drop)]
pub struct OverRead<R> {
    inner: R,
    calls: u64,
    failed_calls: u64,
    ends: u64,
    ghost fewer_failed: { failed_calls + ends ≤ calls },
}

impl<R> OverRead<R> {
    ghost use Rattle.mps_dev.specs.Standard.{reader_of, calls_of, failed_reads_of, ends_of};

    /// A source over this reader, with each count at 0. Nothing is read or allocated yet.
    pub fn new(inner: R) -> Self
        ensures reader { reader_of result ≡ inner }
        ensures calls { calls_of result ≡ 0 }
        ensures failures { failed_reads_of result ≡ 0 }
        ensures ends { ends_of result ≡ 0 }
    {
        OverRead {
            inner,
            calls: 0,
            failed_calls: 0,
            ends: 0,
        }
    }

    /// Gives the reader back, as the last read left it. The counts are dropped.
    pub fn into_inner(self) -> R
        ensures { result ≡ reader_of self }
    {
        let OverRead { inner, .. } = self;
        inner
    }
}

impl<R: Read> Source for OverRead<R> {
    ghost use Rattle.mps_dev.specs.Standard.{reader_of, calls_of, failed_reads_of, ends_of};

    ghost remaining = { λ s. R.remaining (reader_of s) };

    ghost calls = { calls_of };

    ghost failed_calls = { failed_reads_of };

    ghost ends = { ends_of };

    ghost fewer_failed = { λ s. s.fewer_failed };

    // One read of the reader, also after an end or a failure. Only `Ok(0)` with room in `buf` counts as an end. On an
    // error the kind is dropped, and nothing is promised of what `buf` has.
    fn read(&mut self, buf: &mut [u8]) -> Result<usize, Failed> {
        self.calls += 1;
        match self.inner.read(buf) {
            Ok(n) => {
                if n == 0 && !buf.is_empty() {
                    self.ends += 1;
                }
                Ok(n)
            }
            Err(_) => {
                self.failed_calls += 1;
                Err(Failed)
            }
        }
    }
}

/// A sink over one of std's writers: a call of `write` is one write to it. Each `io::Error` is `Failed`, one of kind
/// `Interrupted` too, and so is an `Ok(0)` for some bytes. Nothing is flushed: a writer that keeps bytes back, as a
/// `BufWriter` does, is flushed by whoever takes it out again.
#[derive(Debug, Drop)]
pub struct OverWrite<W> {
    inner: W,
    failed_calls: u64,
}

impl<W> OverWrite<W> {
    ghost use Rattle.mps_dev.specs.Standard.{writer_of, failed_writes_of};

    /// A sink over this writer, with the count of failures at 0. Nothing is written or allocated yet.
    pub fn new(inner: W) -> Self
        ensures writer { writer_of result ≡ inner }
        ensures failures { failed_writes_of result ≡ 0 }
    {
        OverWrite {
            inner,
            failed_calls: 0,
        }
    }

    /// The writer, to read.
    pub fn get_ref(&self) -> &W
        ensures { result.now ≡ writer_of self.now }
    {
        &self.inner
    }

    /// Gives the writer back, as the last write left it, unflushed. The count of failures is dropped.
    pub fn into_inner(self) -> W
        ensures { result ≡ writer_of self }
    {
        let OverWrite { inner, .. } = self;
        inner
    }
}

impl<W: Write> Sink for OverWrite<W> {
    ghost use Rattle.mps_dev.specs.Standard.{writer_of, failed_writes_of};

    ghost taken = { λ s. W.contents (writer_of s) };

    ghost failed_calls = { failed_writes_of };

    // One write to the writer, also after a failure. `Ok(0)` for some bytes is a failure, so loops over writes make
    // progress. The kind of an error is dropped; only the failure is counted.
    fn write(&mut self, bytes: &[u8]) -> Result<usize, Failed> {
        match self.inner.write(bytes) {
            Ok(n) if n > 0 || bytes.is_empty() => Ok(n),
            _ => {
                self.failed_calls += 1;
                Err(Failed)
            }
        }
    }
}
