//! How a session is brought to where a recorded journal left it.
ghost use Rattle.std.specs.Prelude.{◌≡◌, ◌≢◌, ◌+◌, length, ℕ, Err, Ok, true, None, IsTrue, false, ◌<◌, ◌≤◌, ◌^◌, ◌↔◌};
ghost use Rattle.std.specs.Prelude.{IfOk, IfErr, OnOk, get_or};
ghost use Rattle.mps_command.specs.declared.answer.Answer.TheVariants.{Refused as Denied};
ghost use Rattle.mps_command.specs.declared.answer.Refusal.TheVariants as refusals;
ghost use Rattle.mps_keeper.specs.Restored.{IsCalled, IsNext, IsRefused, LineRestored, kept_after, standing_of};
ghost use Rattle.mps_keeper.specs.RestoredFaults.{of_reading, IsRestoredTo, IsFaultOf, IsFaulty, IsBodyFault, IsUncalled};
ghost use Rattle.mps_keeper.specs.RestoredFaults.{IsNextRestored};
ghost use Rattle.mps_keeper.specs.RestoredFaults.{FaultFrom, RestoredFrom};
ghost use Rattle.mps_keeper.specs.RestoredFaults.{IsNoLine, ReadsMore};
ghost use Rattle.mps_keeper.specs.declared.restore.RestoreFault.TheVariants.{Memory as OutOfMemory};
ghost use Rattle.mps_room.specs.Journal.{is_accepted};
ghost use Rattle.mps_room.specs.Numbers.{newest_of};
ghost use Rattle.std.specs.Io.KnownBytes.{Consumes, IsAtEnd};

use crate::chain::{Chain, WrongSeal};
use crate::guest::is_accepted;
use crate::restored_room::RestoredRoom;
use mps_base::Role;
use mps_command::{Answer, Refusal};
use mps_dev::{MAX_READS, Source};
use mps_line::{JournalLine, LineFault, read_journal_line};
use mps_lines::line_end;
use mps_room::Position;
use mps_seal::Seal;
use std::alloc::{AllocError, Global};
use thiserror::Error;

/// Why a session was not restored from a journal.
#[derive(Clone, Copy, Debug, PartialEq, Eq, Error)]
pub enum RestoreFault {
    /// A read failed, or the source gives more than is ever read.
    #[error("a read failed")]
    Read,
    #[error("out of memory")]
    Memory,
    /// The first line that was not restored, counted from 1, spells no command.
    #[error("line {line} spells no command")]
    Unreadable { line: u64 },
    /// The command of the first line that was not restored, counted from 1, is not accepted.
    #[error("the command of line {line} isn't accepted")]
    Refused { line: u64 },
    /// The first line that was not restored, counted from 1, doesn't end in its seal: it, or one before it, was changed; or
    /// it has no LF, and isn't what a write that broke off may have left.
    #[error("line {line} isn't as it was written")]
    Changed { line: u64 },
}

impl From<AllocError> for RestoreFault {
    ghost from_gives = { λ _ e. e ≡ OutOfMemory };

    fn from(_e: AllocError) -> RestoreFault {
        RestoreFault::Memory
    }
}

/// How many bytes of a journal are asked for at a time: few, since most files are short.
pub const JOURNAL_BLOCK: usize = 4_096;

/// Of a source with more bytes than these no more is read. A journal has fewer (`a_full_journal_is_read`).
pub const MOST_BYTES: usize = 67_108_864;

/// How many commands were restored, how many bytes the lines have with their LFs, and how they end.
#[derive(Clone, Copy, Debug)]
pub struct Restored {
    pub lines: u64,
    pub bytes: usize,
    pub chain: Chain,
}

// Why that line can't be read.
fn of_reading(at: u64, fault: LineFault) -> RestoreFault
    ensures { result ≡ of_reading at fault }
{
    match fault {
        LineFault::Bad => RestoreFault::Unreadable { line: at },
        LineFault::Memory => RestoreFault::Memory,
    }
}

// Whether the answer accepts the command of that line.
fn of_answer(at: u64, answer: &Answer) -> Result<(), RestoreFault>
    ensures accepted { OnOk result (is_accepted answer.now ≡ true) }
    ensures fault { IfErr result
        (IsUncalled ((is_accepted answer.now ≡ false) × (answer.now ≢ Denied refusals.Memory)) at) }
{
    match answer {
        Answer::Refused(Refusal::Memory) => Err(RestoreFault::Memory),
        answer if is_accepted(answer) => Ok(()),
        _ => Err(RestoreFault::Refused { line: at }),
    }
}

impl RestoredRoom {
    // Whether a command of the role may have that number, or none.
    fn is_next(&self, role: Role, number: Option<u64>) -> bool
        requires { role < length self.now.room.types }
        ensures { IsTrue result ↔ IsNext (get_or (newest_of self.now.numbers.items) role None) number }
    {
        match number {
            Some(n) => matches!(
                Position::of(self.numbers[role.index()].last(), n),
                Position::Next
            ),
            None => true,
        }
    }

    // Gives the command of that line to its role, and keeps the answer where it has a number.
    fn call(&mut self, at: u64, asked: JournalLine) -> Result<(), RestoreFault>
        requires { asked.role < length self.old.room.types }
        ensures names { self.new.room.names ≡ self.old.room.names }
        ensures types { self.new.room.types ≡ self.old.room.types }
        ensures ok { OnOk result (IsCalled self.old.room.names self.old.room.types (standing_of self.old) asked.role
            asked.number asked.command (standing_of self.new)) }
        ensures fault { IfErr result (IsUncalled (IsRefused self.old.room.names self.old.room.types (standing_of self.old)
            asked.role asked.number asked.command) at) }
    {
        let JournalLine {
            role,
            number,
            command,
        } = asked;
        if !self.is_next(role, number) {
            return Err(RestoreFault::Refused { line: at });
        }
        let answer = self.room.apply(role, command);
        of_answer(at, &answer)?;
        self.keep(role, number, answer);
        Ok(())
    }

    // Keeps the answer for the role under that number, if there is one.
    fn keep(&mut self, role: Role, number: Option<u64>, answer: Answer)
        requires { role < length self.old.room.types }
        ensures room { self.new.room ≡ self.old.room }
        ensures kept { newest_of self.new.numbers.items
            ≡ kept_after (newest_of self.old.numbers.items) role number answer }
    {
        if let Some(n) = number {
            self.numbers[role.index()].keep(n, answer);
        }
    }

    // Restores what that line says.
    fn restore_line(&mut self, alloc: Global, at: u64, line: &[u8]) -> Result<(), RestoreFault>
        ensures names { self.new.room.names ≡ self.old.room.names }
        ensures types { self.new.room.types ≡ self.old.room.types }
        ensures ok { OnOk result (LineRestored self.old.room.names self.old.room.types (standing_of self.old) line.now
            (standing_of self.new)) }
        ensures faulty { IfErr result
            (IsBodyFault self.old.room.names self.old.room.types (standing_of self.old) line.now at) }
    {
        match read_journal_line(alloc, self.room.names(), line) {
            Ok(asked) => self.call(at, asked),
            Err(fault) => Err(of_reading(at, fault)),
        }
    }

    // Restores that line of a file, where the lines before it were read so. Says how many commands it has, one or none.
    fn restore_next(
        &mut self,
        alloc: Global,
        chain: &mut Chain,
        at: u64,
        line: &[u8],
    ) -> Result<u64, RestoreFault>
        ensures one { IfOk result (λ count. count ≤ 1) }
        ensures names { self.new.room.names ≡ self.old.room.names }
        ensures types { self.new.room.types ≡ self.old.room.types }
        ensures ok { IfOk result (IsNextRestored self.old.room.names self.old.room.types chain.old (standing_of self.old)
            line.now chain.new (standing_of self.new)) }
        ensures faulty { IfErr result (IsFaulty self.old.room.names self.old.room.types chain.old (standing_of self.old)
            line.now at) }
    {
        match chain.read(line) {
            Ok(Some(body)) => {
                self.restore_line(alloc, at, body)?;
                Ok(1)
            }
            Ok(None) => Ok(0),
            Err(WrongSeal) => Err(RestoreFault::Changed { line: at }),
        }
    }

    /// Gives the command of each whole line to its role, in order, where this is the seal before the first. Each line has to
    /// end in its seal, but for those before the mark; each command has to be accepted, and each number has to be the next
    /// one of its role. A rest without LF has to be what a write that broke off may have left, and is not run. After a
    /// fault the lines before it are restored.
    pub fn restore_lines(
        &mut self,
        alloc: Global,
        first: Seal,
        bytes: &[u8],
    ) -> Result<Restored, RestoreFault>
        ensures names { self.new.room.names ≡ self.old.room.names }
        ensures types { self.new.room.types ≡ self.old.room.types }
        ensures ok { IfOk result (IsRestoredTo self.old.room.names self.old.room.types first (standing_of self.old)
            bytes.now (standing_of self.new)) }
        ensures err { IfErr result (IsFaultOf self.old.room.names self.old.room.types first (standing_of self.old)
            bytes.now) }
    {
        let mut chain = Chain::new(first);
        let mut rest = bytes;
        let mut lines = 0;
        let mut at = 0;
        while let Some(k) = line_end(rest) {
            lines += self.restore_next(alloc, &mut chain, at + 1, &rest[..k])?;
            at += 1;
            rest = &rest[k + 1..];
        }
        if !chain.is_torn(rest) {
            return Err(RestoreFault::Changed { line: at + 1 });
        }
        Ok(Restored {
            lines,
            bytes: bytes.len() - rest.len(),
            chain,
        })
    }

    /// The same with all that the source gives.
    pub fn restore_from<R: Source>(
        &mut self,
        alloc: Global,
        first: Seal,
        reader: &mut R,
    ) -> Result<Restored, RestoreFault>
        requires { R.calls reader.old < 2 ^ 62 }
        ensures names { self.new.room.names ≡ self.old.room.names }
        ensures types { self.new.room.types ≡ self.old.room.types }
        ensures ok { IfOk result (RestoredFrom self.old.room.names self.old.room.types R.Source first
            (standing_of self.old) reader.old reader.new (standing_of self.new)) }
        ensures err { IfErr result (FaultFrom self.old.room.names self.old.room.types R.Source first
            (standing_of self.old) reader.old reader.new) }
    {
        let all = read_all(alloc, reader)?;
        self.restore_lines(alloc, first, all.as_slice())
    }
}

// Reads once, and adds what was read. Says whether that was the end.
fn read_once<R: Source>(
    reader: &mut R,
    all: &mut Vec<u8>,
    block: &mut [u8],
) -> Result<bool, RestoreFault>
    requires space { 0 < length block.old }
    requires reads { R.calls reader.old < 2 ^ 63 }
    ensures reads { R.calls reader.new ≡ R.calls reader.old + 1 }
    ensures more { OnOk result
        (ReadsMore (R.remaining reader.old) (R.remaining reader.new) all.old.items all.new.items) }
    ensures end { result ≡ Ok true → IsAtEnd (R.remaining reader.new) }
    ensures no_line { IfErr result IsNoLine }
{
    let Ok(count) = reader.read(block) else {
        return Err(RestoreFault::Read);
    };
    all.extend_from_slice(&block[..count])?;
    Ok(count == 0)
}

// All that the source gives.
fn read_all<R: Source>(alloc: Global, reader: &mut R) -> Result<Vec<u8>, RestoreFault>
    requires { R.calls reader.old < 2 ^ 62 }
    ensures bytes { IfOk result (λ all. Consumes (R.remaining reader.old) (R.remaining reader.new) all.items) }
    ensures end { OnOk result (IsAtEnd (R.remaining reader.new)) }
    ensures no_line { IfErr result IsNoLine }
{
    let mut all = Vec::new(alloc);
    let mut block = vec![in alloc; 0u8; JOURNAL_BLOCK]?;
    for _ in 0..MAX_READS {
        if read_once(reader, &mut all, block.as_mut_slice())? {
            return Ok(all);
        }
        if all.len() > MOST_BYTES {
            return Err(RestoreFault::Read);
        }
    }
    Err(RestoreFault::Read)
}
