//! What a line would be answered.
ghost use Rattle.std.specs.Prelude.{◌≡◌, ◌≢◌, ◌<◌, ℕ, None, Some, Err, All, length, slice_get};
ghost use Rattle.mps_line.specs.declared.write_replies.Reply.TheVariants.{NoRole as Nobody};
ghost use Rattle.mps_room.specs.Journal.{answer_to, refusal_of};
ghost use Rattle.mps_room.specs.Numbers.{last_of, IsPosition};
ghost use Rattle.mps_room.specs.declared.numbers.Position.TheVariants.{Next};
ghost use Rattle.mps_embed.specs.Embedded.{Foretells, ForetellsWhole, foretold_of, newest_at};

use crate::embedded::Embedded;
use mps_base::Role;
use mps_command::{Answer, Command, Refusal};
use mps_dev::Sink;
use mps_line::laws::one_numbered;
use mps_line::{LineFault, Reply, read_numbered};
use mps_lines::MAX_LINE;
use mps_room::{Caller, Position};
use mps_wire::may_ask;
use std::alloc::Global;

// Where the number of a line stands, where the newest accepted one is that. A line without a number stands next.
fn position(last: u64, number: Option<u64>) -> Position
    ensures none { number ≡ None → result ≡ Next }
    ensures some { (n : ℕ) → number ≡ Some n → IsPosition last n result }
{
    match number {
        Some(n) => Position::of(last, n),
        None => Position::Next,
    }
}

impl<W: Sink> Embedded<W> {
    // The number of the role's newest accepted numbered command, 0 before the first.
    fn last_of(&self, role: Role) -> u64
        requires { role < length self.now.room.types }
        ensures { result ≡ last_of (newest_at self.now role) }
    {
        if self.guest.inner.role.is(role) {
            return self.guest.inner.numbers.last();
        }
        self.numbers[role.index()].last()
    }

    // Why that command of the role would be refused, lack of memory aside.
    fn judge(&mut self, role: Role, command: &Command) -> Result<(), Reply>
        requires known { role < length self.old.room.types }
        ensures same { self.new ≡ self.old }
        ensures judged { result ≡ foretold_of (refusal_of
            (answer_to self.old.room.names self.old.room.types self.old.room.journal role command.now)) }
    {
        let solo = &mut self.guest.inner;
        match solo.room.would(role, command) {
            Ok(()) => Ok(()),
            Err(refusal) => Err(Reply::Answer(Answer::Refused(refusal))),
        }
    }

    // Why that line of the role would be refused, or `Ok` where it would be accepted.
    fn foresee(&mut self, role: Role, line: &[u8]) -> Result<(), Reply>
        requires known { role < length self.old.room.types }
        ensures same { self.new ≡ self.old }
        ensures foretold { Foretells self.old role line.now result }
    {
        if !self.guest.may_tell() {
            return Err(Reply::Unkept);
        }
        self.foresee_whole(role, line)
    }

    // The same of a room that isn't lost.
    fn foresee_whole(&mut self, role: Role, line: &[u8]) -> Result<(), Reply>
        requires known { role < length self.old.room.types }
        ensures same { self.new ≡ self.old }
        ensures foretold { ForetellsWhole self.old role line.now result }
    {
        if line.len() > MAX_LINE {
            return Err(Reply::BadLine);
        }
        // for the proof alone
        one_numbered();
        let names = self.guest.inner.room.names();
        // for the proof alone: no name stands twice
        let _few = names.count();
        let (number, command) = match read_numbered(self.alloc, names, line) {
            Ok(read) => read,
            Err(LineFault::Bad) => return Err(Reply::BadLine),
            Err(LineFault::Memory) => return Err(Reply::Answer(Answer::Refused(Refusal::Memory))),
        };
        if !may_ask(false, &command) {
            return Err(Reply::BadLine);
        }
        match position(self.last_of(role), number) {
            Position::Last => Ok(()),
            Position::Next => self.judge(role, &command),
            Position::Elsewhere => Err(Reply::Number),
        }
    }

    /// Why that line would be refused as a command of the role of that name, lack of memory for what it does aside; `Ok` where
    /// it would be accepted, is a question, or has the number of the newest accepted one, whose answer would be told again.
    /// Nothing changes.
    pub fn would(&mut self, role: &[u8], line: &[u8]) -> Result<(), Reply>
        ensures same { self.new ≡ self.old }
        ensures known { (place : ℕ) → slice_get self.old.room.names place ≡ Some role.now
            → Foretells self.old place line.now result }
        ensures unknown { All (λ name. name ≢ role.now) self.old.room.names → result ≡ Err Nobody }
    {
        let names = self.guest.inner.room.names();
        // looked at for the proof alone: there is a name for each type
        let _few = names.count();
        match names.find_spelled(role) {
            Some(place) => self.foresee(place, line),
            None => Err(Reply::NoRole),
        }
    }
}
