//! A script that is read until one of its lines is refused.
ghost use Rattle.std.specs.Prelude.{◌≡◌, ◌+◌, ◌<◌, ◌^◌, ◌⊎◌, IsErr};
ghost use Rattle.std.specs.Io.{ReadsAtMost};
ghost use Rattle.std.specs.Io.KnownBytes.{ReadConsumes};
ghost use Rattle.std.proofs.Common.{arith};
ghost use Rattle.mps_dev.specs.Calls.{ends_after, failures_after};
ghost use Rattle.mps_program.specs.Until.{late_reads_of, script_of};

use mps_dev::{Failed, Source};
use std::cell::Cell;

/// A source of a script's lines. Once it is noted that an answer was a refusal, it is read no more, and each read fails.
/// No clause knows what is noted.
#[derive(Drop)]
pub struct Until<'c, S> {
    source: S,
    refused: &'c Cell<bool>,
    // how often more was to be read after a refusal
    late: u64,
}

impl<'c, S> Until<'c, S> {
    /// Reads from the source until `refused` says that an answer was a refusal, as `Strict` notes there.
    pub fn new(source: S, refused: &'c Cell<bool>) -> Until<'c, S>
        ensures source { script_of result ≡ source }
        ensures late { late_reads_of result ≡ 0 }
    {
        Until {
            source,
            refused,
            late: 0,
        }
    }

    /// Takes the source out again, as the last read left it.
    pub fn into_source(self) -> S
        ensures { result ≡ script_of self.entry }
    {
        let Until { source, .. } = self;
        source
    }
}

impl<'c, S: Source> Source for Until<'c, S> {
    ghost remaining = { λ s. S.remaining (script_of s) };

    ghost calls = { λ s. S.calls (script_of s) + late_reads_of s };

    ghost failed_calls = { λ s. S.failed_calls (script_of s) + late_reads_of s };

    ghost ends = { λ s. S.ends (script_of s) };

    ghost fewer_failed = { λ s. Prim.omega (arith, S.fewer_failed (script_of s)) };

    // Reads from the source. Once a refusal is noted, the source isn't asked any more, and each read fails.
    fn read(&mut self, buf: &mut [u8]) -> Result<usize, Failed>
        requires { S.calls (script_of self.old) + late_reads_of self.old < 2 ^ 63 }
        ensures within { ReadsAtMost result buf.new }
        ensures calls { S.calls (script_of self.new) + late_reads_of self.new ≡ S.calls (script_of self.old) + late_reads_of self.old + 1 }
        ensures failures { S.failed_calls (script_of self.new) + late_reads_of self.new ≡ failures_after result (S.failed_calls (script_of self.old) + late_reads_of self.old) }
        ensures ends { S.ends (script_of self.new) ≡ ends_after result buf.old (S.ends (script_of self.old)) }
        ensures bytes { ReadConsumes (S.remaining (script_of self.old)) (S.remaining (script_of self.new)) result buf.new }

        ensures late { (late_reads_of self.new ≡ late_reads_of self.old) ⊎ ((script_of self.new ≡ script_of self.old) × IsErr result) }
    {
        if self.refused.get() {
            self.late += 1;
            return Err(Failed);
        }
        self.source.read(buf)
    }
}
