//! The file of a journal while it is written.
ghost use Rattle.std.specs.Prelude.{◌≡◌, ◌<◌, ◌^◌, ◌++◌, ◌∷◌, [], ℕ, List, Option, true, false, OnOk, OnErr};
ghost use Rattle.std.specs.Io.KnownBytes.{Appends};
ghost use Rattle.std.specs.List.{flat_map};
ghost use Rattle.mps_lines.specs.Lines.{ended};
ghost use Rattle.mps_keeper.specs.Books.{TookLines, TookMore, TookSealed, TookBrokenOff};
ghost use Rattle.mps_wire.specs.Sending.{TookFront};

use crate::recorder::Recorder;
use crate::sealing::end_line;
use mps_dev::{Failed, Sink};
use mps_seal::Seal;
use mps_wire::sending::send_all;
use std::alloc::Global;
use thiserror::Error;

/// Lines are not recorded.
#[derive(Clone, Copy, Debug, PartialEq, Eq, Error)]
#[error("the lines are not recorded")]
pub struct NotRecorded;

/// A sink of lines. Once a write failed it takes no more.
#[derive(Drop)]
pub struct Book<W: Sink> {
    sink: W,
    lines: u64,
    // of the newest line
    seal: Seal,
    whole: bool,
    ghost few: { whole ≡ true → W.failed_calls sink < 2 ^ 63 },
}

impl<W: Sink> Book<W> {
    ghost use Rattle.mps_keeper.specs.BookParts.{sink_of, lines_of, seal_of, taken_of, whole_of};

    /// A book over a sink that has so many lines, of which the newest has this seal.
    pub fn new(sink: W, lines: u64, seal: Seal) -> Book<W>
        requires { W.failed_calls sink < 2 ^ 63 }
        ensures sink { sink_of result ≡ sink }
        ensures lines { lines_of result ≡ lines }
        ensures seal { seal_of result ≡ seal }
        ensures whole { whole_of result ≡ true }
    {
        Book {
            sink,
            lines,
            seal,
            whole: true,
        }
    }

    /// How many lines it has.
    pub fn lines(&self) -> u64
        ensures { result ≡ lines_of self.now }
    {
        self.lines
    }

    /// The seal of the newest line.
    pub fn seal(&self) -> Seal
        ensures { result ≡ seal_of self.now }
    {
        self.seal
    }

    /// Whether each line that came is there.
    pub fn is_whole(&self) -> bool
        ensures { result ≡ whole_of self.now }
    {
        self.whole
    }

    /// The sink.
    pub fn sink(&self) -> &W
        ensures { result.now ≡ sink_of self.now }
    {
        &self.sink
    }

    /// Takes no more lines.
    pub fn lose(&mut self)
        ensures whole { whole_of self.new ≡ false }
        ensures sink { sink_of self.new ≡ sink_of self.old }
        ensures lines { lines_of self.new ≡ lines_of self.old }
        ensures taken { taken_of self.new ≡ taken_of self.old }
    {
        self.whole = false;
    }

    /// Adds lines, each with its seal and its LF, after which it has so many, and the newest has this seal. After a failure
    /// nothing is added any more.
    #[tactic(auto, using(crate::proofs::Taking::no_front))]
    pub fn append(&mut self, text: &[u8], lines: u64, seal: Seal) -> Result<(), NotRecorded>
        ensures taken { OnOk result (Appends (W.taken (sink_of self.old)) (W.taken (sink_of self.new)) text.now) }
        ensures front { OnErr result (TookFront (W.taken (sink_of self.old)) (W.taken (sink_of self.new)) text.now) }
        ensures still { whole_of self.old ≡ false → sink_of self.new ≡ sink_of self.old }
        ensures lines { OnOk result (lines_of self.new ≡ lines) }
        ensures seal { OnOk result (seal_of self.new ≡ seal) }
        ensures same_seal { OnErr result (seal_of self.new ≡ seal_of self.old) }
        ensures before { OnOk result (whole_of self.old ≡ true) }
        ensures ok { OnOk result (whole_of self.new ≡ true) }
        ensures err { OnErr result (whole_of self.new ≡ false) }
        ensures more { TookMore (W.taken (sink_of self.old)) (W.taken (sink_of self.new)) }
        ensures count { OnErr result (lines_of self.new ≡ lines_of self.old) }
        ensures added { (start : Option (List ℕ)) (lines : List (List ℕ)) (next : List (List ℕ))
            → text.now ≡ flat_map ended next
            → TookLines start lines (W.taken (sink_of self.old))
            → OnOk result (TookLines start (lines ++ next) (W.taken (sink_of self.new))) }
        ensures broken_off { (start : Option (List ℕ)) (lines : List (List ℕ)) (next : List (List ℕ))
            → text.now ≡ flat_map ended next
            → TookLines start lines (W.taken (sink_of self.old))
            → OnErr result (TookBrokenOff start lines next (W.taken (sink_of self.new))) }
    {
        if !self.whole {
            return Err(NotRecorded);
        }
        match send_all(&mut self.sink, text) {
            Ok(()) => {
                self.lines = lines;
                self.seal = seal;
                Ok(())
            }
            Err(Failed) => {
                self.whole = false;
                Err(NotRecorded)
            }
        }
    }

    /// Adds the mark, a seal alone, which is no entry's line: from there on each line has its seal.
    pub fn mark(&mut self, alloc: Global) -> Result<(), NotRecorded>
        ensures marked { OnOk result (TookSealed (taken_of self.old) ([] ∷ []) (taken_of self.new)) }
        ensures lines { OnOk result (lines_of self.new ≡ lines_of self.old) }
    {
        let lines = self.lines;
        self.record(&mut Vec::new(alloc), lines)
    }

    // Adds one line more, which has neither seal nor LF yet, after which it has so many.
    #[tactic(auto, using(crate::proofs::Sealed::sealed_none))]
    fn record(&mut self, line: &mut Vec<u8>, lines: u64) -> Result<(), NotRecorded>
        ensures recorded { OnOk result (TookSealed (taken_of self.old) (line.old.items ∷ []) (taken_of self.new)) }
        ensures still { whole_of self.old ≡ false → TookSealed (taken_of self.old) [] (taken_of self.new) }
        ensures lines { OnOk result (lines_of self.new ≡ lines) }
        ensures before { OnOk result (whole_of self.old ≡ true) }
        ensures after { OnOk result (whole_of self.new ≡ true) }
        ensures more { TookMore (W.taken (sink_of self.old)) (W.taken (sink_of self.new)) }
    {
        if !self.is_whole() {
            return Err(NotRecorded);
        }
        let Ok(seal) = end_line(&self.seal, line) else {
            return Err(NotRecorded);
        };
        self.append(line.as_slice(), lines, seal)
    }
}

/// A book that one caller has for itself: it waits for nobody.
impl<W: Sink> Recorder for Book<W> {
    ghost use Rattle.mps_keeper.specs.BookParts.{taken_of, whole_of};

    ghost records = { λ _. true };

    ghost taken = { taken_of };

    ghost whole = { whole_of };

    ghost Place = { Unit {0} };

    ghost place = { λ _. tt };

    fn records(&self) -> bool {
        true
    }

    fn is_whole(&self) -> bool {
        self.whole
    }

    #[tactic(auto, using(crate::proofs::Sealed::took_same))]
    fn add(&mut self, nth: u64, line: &mut Vec<u8>) {
        if self.lines.checked_add(1) != Some(nth) || self.record(line, nth).is_err() {
            self.lose();
        }
    }

    #[tactic(auto, using(crate::proofs::Sealed::sealed_none))]
    fn settle(&mut self, _lines: u64) {}

    #[tactic(auto, using(crate::proofs::Sealed::sealed_none))]
    fn lose(&mut self) {
        self.whole = false;
    }
}
