//! A role's caller in a connection.
ghost use Rattle.std.specs.Prelude.{◌≡◌, ◌∷◌, ℕ, Bool, true, false, List, [], Option, IsTrue};
ghost use Rattle.mps_command.specs.declared.command.Command.{Command as Asked};
ghost use Rattle.mps_room.specs.Journal.{is_accepted};
ghost use Rattle.mps_keeper.specs.Books.{TookMore, TookSealed, bytes_of};
ghost use Rattle.mps_line.specs.JournalLines.{SpellsJournalLine};
ghost use Rattle.mps_keeper.specs.Recorded.{IsRecorded};

use crate::gate::Gate;
use crate::recorder::{Recordable, Recorder};
use mps_base::Roles;
use mps_command::{Answer, Command, Refusal};
use mps_line::{has_journal_line, write_journal_line};
use mps_room::Caller;

/// A role's caller in a connection: a gate runs before each command that is called, and what is accepted is recorded.
/// Once a line is lost, what the caller is answered may not be told on.
#[derive(Drop)]
pub struct Guest<'g, G, K, C> {
    gate: &'g G,
    connection: u64,
    // how many commands were called
    commands: u64,
    pub recorder: K,
    pub inner: C,
    // where the line of a command is made
    line: Vec<u8>,
}

impl<'g, G: Gate, K: Recorder, C: Recordable> Guest<'g, G, K, C> {
    /// A caller behind the gate, of the connection with that number, whose commands the recorder records. It waits until
    /// what the caller has seen is recorded, since a line that comes again is answered without a call.
    ///
    /// A line is made in `line`. With space for `LONGEST_LINE` bytes, and where the recorder has space for a line of the role
    /// (`Hold::make_space`), none is lost for want of memory.
    #[tactic(auto, using(crate::proofs::Sealed::sealed_none))]
    pub fn new(
        gate: &'g G,
        connection: u64,
        recorder: K,
        inner: C,
        line: Vec<u8>,
    ) -> Guest<'g, G, K, C>
        ensures inner { result.inner ≡ inner }
        ensures same { K.records result.recorder ≡ K.records recorder }
        ensures place { K.place result.recorder ≡ K.place recorder }
        ensures once { K.whole result.recorder ≡ true → K.whole recorder ≡ true }
        ensures settled { TookSealed (K.taken recorder) [] (K.taken result.recorder) }
        ensures more { TookMore (bytes_of (K.taken recorder)) (bytes_of (K.taken result.recorder)) }
        ensures idle { K.records recorder ≡ false → result.recorder ≡ recorder }
    {
        let mut recorder = recorder;
        if recorder.records() {
            recorder.settle(inner.seen());
        }
        Guest {
            gate,
            connection,
            commands: 0,
            recorder,
            inner,
            line,
        }
    }

    // Counts one more command, and stops at the gate.
    fn stop(&mut self)
        ensures recorder { self.new.recorder ≡ self.old.recorder }
        ensures inner { self.new.inner ≡ self.old.inner }
    {
        self.commands = self.commands.saturating_add(1);
        self.gate.before(self.connection, self.commands);
    }

    // Puts the line of the command into the buffer. Says whether it is there.
    fn put_line(&mut self, number: Option<u64>, command: &Command) -> bool
        ensures recorder { self.new.recorder ≡ self.old.recorder }
        ensures inner { self.new.inner ≡ self.old.inner }
        ensures put { IsTrue result → SpellsJournalLine
            (C.names self.old.inner) self.new.line.items (C.role self.old.inner) number command.now }
    {
        self.line.clear();
        let role = self.inner.own_role();
        // asked here too, since `call` has no premise: not each command comes from a line
        if !has_journal_line(self.inner.roles(), role, command) {
            return false;
        }
        write_journal_line(self.inner.roles(), role, number, command, &mut self.line).is_ok()
    }

    // Records the line where the command was accepted, and else waits for what it was shown.
    fn record(&mut self, accepted: bool, put: bool)
        ensures inner { self.new.inner ≡ self.old.inner }
        ensures same { K.records self.new.recorder ≡ K.records self.old.recorder }
        ensures place { K.place self.new.recorder ≡ K.place self.old.recorder }
        ensures once { K.whole self.new.recorder ≡ true → K.whole self.old.recorder ≡ true }
        ensures added { K.whole self.new.recorder ≡ true → accepted ≡ true
            → IsTrue put × TookSealed (K.taken self.old.recorder) (self.old.line.items ∷ []) (K.taken self.new.recorder) }
        ensures settled { accepted ≡ false → TookSealed (K.taken self.old.recorder) [] (K.taken self.new.recorder) }
        ensures over { K.whole self.old.recorder ≡ false
            → TookSealed (K.taken self.old.recorder) [] (K.taken self.new.recorder) }
        ensures more { TookMore (bytes_of (K.taken self.old.recorder)) (bytes_of (K.taken self.new.recorder)) }
    {
        let shown = self.inner.seen();
        if !accepted {
            self.recorder.settle(shown);
        } else if put {
            self.recorder.add(shown, &mut self.line);
        } else {
            self.recorder.lose();
        }
    }
}

// Whether the answer accepts a change.
pub(crate) fn is_accepted(answer: &Answer) -> bool
    ensures { result ≡ is_accepted answer.now }
{
    match answer {
        Answer::Done(_) => true,
        Answer::Undone(_) => true,
        _ => false,
    }
}

impl<'g, G: Gate, K: Recorder, C: Recordable> Caller for Guest<'g, G, K, C> {
    ghost names = { λ r. C.names r.inner };

    ghost role = { λ r. C.role r.inner };

    ghost made = { λ r. C.made r.inner };

    ghost calls = { λ r c a s. IsRecorded K.Recorder C.Caller r.recorder r.inner c s.recorder s.inner a };

    ghost last = { λ r. C.last r.inner };

    ghost kept = { λ r. C.kept r.inner };

    ghost may_tell = { λ r. K.whole r.recorder };

    fn roles(&self) -> &Roles {
        self.inner.roles()
    }

    // Not inlined, so that commands with a number keep no space for this.
    #[tactic(auto, using(crate::proofs::Sealed::sealed_none))]
    #[inline(never)]
    fn call(&mut self, command: Command) -> Answer {
        self.stop();
        if !self.recorder.records() {
            return self.inner.call(command);
        }
        // spelled before the call, into which the command moves
        let put = self.put_line(None, &command);
        let answer = self.inner.call(command);
        self.record(is_accepted(&answer), put);
        answer
    }

    fn last(&self) -> u64 {
        self.inner.last()
    }

    fn kept(&self) -> Option<&Answer> {
        self.inner.kept()
    }

    #[tactic(auto, using(crate::proofs::Sealed::sealed_none))]
    fn call_next(&mut self, number: u64, command: Command) -> Result<(), Refusal> {
        self.stop();
        if !self.recorder.records() {
            return self.inner.call_next(number, command);
        }
        // spelled before the call, into which the command moves
        let put = self.put_line(Some(number), &command);
        let came = self.inner.call_next(number, command);
        self.record(came.is_ok(), put);
        came
    }

    fn may_tell(&self) -> bool {
        self.recorder.is_whole()
    }

    ghost keeps = { λ r. C.keeps r.inner };

    ghost same_names = { λ r c a s t. C.same_names r.inner c a s.inner t.call };

    ghost same_role = { λ r c a s t. C.same_role r.inner c a s.inner t.call };

    ghost grows = { λ r c a s t. C.grows r.inner c a s.inner t.call };
}
