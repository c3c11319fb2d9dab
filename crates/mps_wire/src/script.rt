//! A script over streams.
ghost use Rattle.std.specs.Prelude.{◌≡◌, ◌+◌, ◌<◌, ◌≤◌, ◌^◌, ◌++◌, ℕ, List, [], length, map, OnOk, OnErr};
ghost use Rattle.std.specs.Io.KnownBytes.{Appends};
ghost use Rattle.mps_base.specs.Appends.{AppendsSuch};
ghost use Rattle.mps_command.specs.declared.command.Command.TheVariants.{News, Show};
ghost use Rattle.mps_local.specs.Local.{plain};
ghost use Rattle.mps_machine.specs.Machine.{initial};
ghost use Rattle.mps_wire.specs.Private.Places.{TakesBytes, TakesEnd, answering_of, place_of_run};
ghost use Rattle.mps_wire.specs.Sending.{TookFront};
ghost use Rattle.mps_lines.specs.Lines.{ended, front, most_kept};
ghost use Rattle.mps_dev.specs.Reads.{max_reads};
ghost use Rattle.mps_wire.specs.Runs.{Going, Replayed, ScriptRan, of_opening};
ghost use Rattle.mps_wire.specs.Private.Turns.{Turned};
ghost use Rattle.mps_wire.specs.Script.{AnswersLine};
ghost use Rattle.mps_wire.specs.Private.Commands.{IsReplied};
ghost use Rattle.mps_wire.specs.Streams.{streams};
ghost use Rattle.mps_wire.specs.declared.script.ReplayFault.TheVariants.{Memory as OutOfMemory};

use crate::reply::may_ask;
use crate::sending::send_all;
use mps_base::{Role, Roles};
use mps_command::{Command, Refusal};
use mps_dev::{MAX_READS, Sink, Source};
use mps_line::laws::one_script_line;
use mps_line::{LineFault, append_answer, read_script_line, write_bad_line, write_refused};
use mps_lines::{MAX_LINE, keep, line_end};
use mps_local::Local;
use mps_room::Room;
use mps_session::{OpenFault, Session};
use std::alloc::{AllocError, Global};
use thiserror::Error;

/// How many bytes are asked for at a time.
pub const SCRIPT_BLOCK: usize = 65_536;

/// Why a script was not run to its end.
#[derive(Clone, Copy, Debug, PartialEq, Eq, Error)]
pub enum ReplayFault {
    #[error(transparent)]
    Open(OpenFault),
    #[error("the script can't be read")]
    ReadFault,
    #[error("the answers can't be written")]
    WriteFault,
    #[error("the script was read from too often")]
    Turns,
    #[error("out of memory")]
    Memory,
}

impl From<AllocError> for ReplayFault {
    ghost from_gives = { λ _ e. e ≡ OutOfMemory };

    // Lets `?` turn a failed allocation into `Memory`.
    fn from(_e: AllocError) -> ReplayFault {
        ReplayFault::Memory
    }
}

impl From<OpenFault> for ReplayFault {
    ghost from_gives = { λ fault e. e ≡ of_opening fault };

    // Lets `?` turn a fault of opening into this one; out of memory is `Memory`, as at any other moment.
    fn from(fault: OpenFault) -> ReplayFault {
        match fault {
            OpenFault::Memory => ReplayFault::Memory,
            fault => ReplayFault::Open(fault),
        }
    }
}

// Appends the answer to `news`. When out of memory a part may stand in `answers`; the run is given up then. Not
// inlined, so that other lines keep no space for it.
#[inline(never)]
fn reply_with_news(
    room: &Room,
    role: Role,
    known: u64,
    answers: &mut Vec<u8>,
) -> Result<(), AllocError>
    ensures { OnOk result (IsReplied room.now.names room.now.types room.now.journal role (News known)
        room.now.journal answers.old.items answers.new.items) }
{
    append_answer(&room.answer_news(role, known), answers)
}

// Appends the answer to `show`. When out of memory a part may stand in `answers`; the run is given up then. Not
// inlined, so that other lines keep no space for it.
#[inline(never)]
fn reply_with_show(room: &Room, answers: &mut Vec<u8>) -> Result<(), AllocError>
    ensures { (role : ℕ) → OnOk result (IsReplied room.now.names room.now.types room.now.journal role Show
        room.now.journal answers.old.items answers.new.items) }
{
    append_answer(&room.answer_show(), answers)
}

// Gives the role's command to the room, and appends the answer. When out of memory the command may have been run, with a
// part of its answer in `answers`; the run is given up then. Questions are taken out before `apply`, which tells them
// apart too, so that other lines keep no space for their answers.
fn reply_to_command(
    room: &mut Room,
    role: Role,
    command: Command,
    answers: &mut Vec<u8>,
) -> Result<(), AllocError>
    requires { role < length room.old.types }
    ensures names { room.new.names ≡ room.old.names }
    ensures types { room.new.types ≡ room.old.types }
    ensures answer { OnOk result (IsReplied room.old.names room.old.types room.old.journal role command
        room.new.journal answers.old.items answers.new.items) }
{
    match command {
        Command::News(known) => reply_with_news(room, role, known, answers),
        Command::Show => reply_with_show(room, answers),
        change => append_answer(&room.apply(role, change), answers),
    }
}

// Runs a line of the script, if it spells a command, and appends the reply; a line over 512 bytes is unreadable. When out
// of memory the command may have been run, with a part of its reply in `answers`; the run is given up then. Apart from
// `answer_line`, so that each way out leads to the LF.
fn reply_to_line(
    alloc: Global,
    room: &mut Room,
    line: &[u8],
    answers: &mut Vec<u8>,
) -> Result<(), AllocError>
    ensures names { room.new.names ≡ room.old.names }
    ensures types { room.new.types ≡ room.old.types }
    ensures reply { OnOk result (AppendsSuch (λ text. AnswersLine room.old.names room.old.types
        line.now room.old.journal text room.new.journal)
        answers.old.items answers.new.items) }
{
    // for the proof alone
    one_script_line();
    if line.len() > MAX_LINE {
        return write_bad_line(answers);
    }
    let names = room.names();
    // for the proof alone: no name stands twice
    let _few = names.count();
    match read_script_line(alloc, names, line) {
        Ok(request) => {
            let (role, command) = request;
            if !may_ask(false, &command) {
                return write_bad_line(answers);
            }
            reply_to_command(room, role, command, answers)
        }
        Err(LineFault::Bad) => write_bad_line(answers),
        Err(LineFault::Memory) => write_refused(&Refusal::Memory, answers),
    }
}

// `reply_to_line`, and an LF after the reply. Apart, since a line that came whole and one that came in pieces both go
// here.
#[inline(always)]
fn answer_line(
    alloc: Global,
    room: &mut Room,
    line: &[u8],
    answers: &mut Vec<u8>,
) -> Result<(), AllocError>
    ensures names { room.new.names ≡ room.old.names }
    ensures types { room.new.types ≡ room.old.types }
    ensures answer { OnOk result ((text : List ℕ)
        × (answers.new.items ≡ answers.old.items ++ ended text)
        × AnswersLine room.old.names room.old.types line.now room.old.journal
        text room.new.journal) }
{
    reply_to_line(alloc, room, line, answers)?;
    answers.push(b'\n')?;
    Ok(())
}

// A script while it runs.
#[derive(Drop)]
struct ScriptRun {
    room: Room,
    // the front of the line that comes
    line: Vec<u8>,
    // the answers that wait to be written
    answers: Vec<u8>,
    alloc: Global,
}

impl ScriptRun {
    // Answers the line whose pieces were kept, and clears it for the next one. After an error the line stays; the run
    // is given up then.
    fn answer_line_kept(&mut self) -> Result<(), AllocError>
        ensures names { self.new.room.names ≡ self.old.room.names }
        ensures types { self.new.room.types ≡ self.old.room.types }
        ensures next { OnOk result (self.new.line.items ≡ []) }
        ensures answer { OnOk result ((text : List ℕ)
            × (self.new.answers.items ≡ self.old.answers.items ++ ended text)
            × answering_of self.old self.old.line.items self.old.room.journal
            text self.new.room.journal) }
    {
        let line = self.line.as_slice();
        answer_line(self.alloc, &mut self.room, line, &mut self.answers)?;
        self.line.clear();
        Ok(())
    }

    // Answers the line that ends with these bytes: one that came whole where it stands, without a copy, and one that
    // came in pieces after they are joined.
    fn end_line(&mut self, bytes: &[u8]) -> Result<(), AllocError>
        requires { length self.old.line.items ≤ most_kept }
        ensures names { self.new.room.names ≡ self.old.room.names }
        ensures types { self.new.room.types ≡ self.old.room.types }
        ensures next { OnOk result (self.new.line.items ≡ []) }
        ensures answer { OnOk result ((text : List ℕ)
            × (self.new.answers.items ≡ self.old.answers.items ++ ended text)
            × answering_of self.old (front (self.old.line.items ++ bytes.now)) self.old.room.journal
            text self.new.room.journal) }
    {
        if !self.line.is_empty() {
            keep(&mut self.line, bytes)?;
            return self.answer_line_kept();
        }
        // it came whole, and is answered where it stands
        answer_line(self.alloc, &mut self.room, bytes, &mut self.answers)
    }

    // Takes bytes that were read, and answers each line that they end. A rest without an LF is kept, up to 513 bytes.
    // When out of memory the lines before were run; the run is given up then.
    fn feed(&mut self, bytes: &[u8]) -> Result<(), AllocError>
        requires { length self.old.line.items ≤ most_kept }
        ensures names { self.new.room.names ≡ self.old.room.names }
        ensures types { self.new.room.types ≡ self.old.room.types }
        ensures short { OnOk result (length self.new.line.items ≤ most_kept) }
        ensures answered { OnOk result (TakesBytes (answering_of self.old) [] bytes.now
            (place_of_run self.old) (place_of_run self.new)) }
    {
        let mut rest = bytes;
        while let Some(k) = line_end(rest) {
            self.end_line(&rest[..k])?;
            rest = &rest[k + 1..];
        }
        keep(&mut self.line, rest)
    }

    // At the end of the script: answers a last line that no LF ends, if there is one. When out of memory the line may
    // have been run; the run is given up then.
    fn finish(&mut self) -> Result<(), AllocError>
        ensures names { self.new.room.names ≡ self.old.room.names }
        ensures types { self.new.room.types ≡ self.old.room.types }
        ensures answered { OnOk result (TakesEnd (answering_of self.old) []
            (place_of_run self.old) (place_of_run self.new)) }
        ensures empty { OnOk result (self.new.line.items ≡ []) }
    {
        if self.line.is_empty() {
            return Ok(());
        }
        self.answer_line_kept()
    }
}

// One round of `replay_session`: reads once, answers the lines that are whole then, at the end also a rest without an
// LF, and writes the answers. Returned is whether that was the end.
fn read_and_answer<R: Source, W: Sink>(
    reader: &mut R,
    writer: &mut W,
    run: &mut ScriptRun,
    block: &mut [u8],
) -> Result<bool, ReplayFault>
    requires short { length run.old.line.items ≤ most_kept }
    requires none_wait { run.old.answers.items ≡ [] }
    requires space { 0 < length block.old }
    requires reads { R.calls reader.old < 2 ^ 63 }
    requires writes { W.failed_calls writer.old < 2 ^ 63 }
    ensures names { run.new.room.names ≡ run.old.room.names }
    ensures types { run.new.room.types ≡ run.old.room.types }
    ensures short { OnOk result (length run.new.line.items ≤ most_kept) }
    ensures none_wait { OnOk result (run.new.answers.items ≡ []) }
    ensures reads { R.calls reader.new ≡ R.calls reader.old + 1 }
    ensures step { (first : _)
        → Going (answering_of run.old) [] first (streams R.Source W.Sink reader.old writer.old)
        run.old.line.items run.old.room.journal
        → Turned (answering_of run.old) [] first (streams R.Source W.Sink reader.old writer.old)
        (streams R.Source W.Sink reader.new writer.new)
        run.new.line.items run.new.room.journal result }
{
    let Ok(count) = reader.read(block) else {
        return Err(ReplayFault::ReadFault);
    };
    if count == 0 {
        run.finish()?;
    } else {
        run.feed(&block[..count])?;
    }
    // after a failure a front of the answers may be written, and all still wait; the run is given up
    if send_all(writer, run.answers.as_slice()).is_err() {
        return Err(ReplayFault::WriteFault);
    }
    run.answers.clear();
    Ok(count == 0)
}

/// Runs the script that the reader gives in a new room of this session, which is before its first step, and writes an
/// answer to each line. Returns the room; after a fault it is dropped, with the answers that aren't written.
///
/// The answers to the lines of one read are written before the next read. A last line needs no LF. A read asks for
/// `SCRIPT_BLOCK` bytes, and there are at most `MAX_READS` reads.
pub fn replay_session<R: Source, W: Sink>(
    alloc: Global,
    reader: &mut R,
    writer: &mut W,
    roles: Roles,
    session: Session,
) -> Result<Room, ReplayFault>
    requires new { session.state ≡ initial }
    requires named { length roles ≡ length session.types }
    requires reads { R.calls reader.old < 2 ^ 62 }
    requires writes { W.failed_calls writer.old < 2 ^ 62 }
    ensures outcome { ScriptRan roles session.types
        (streams R.Source W.Sink reader.old writer.old)
        (streams R.Source W.Sink reader.new writer.new) result }
    ensures reads { R.calls reader.new ≤ R.calls reader.old + max_reads }
{
    let mut run = ScriptRun {
        room: Room::open(alloc, roles, session),
        line: Vec::new(alloc),
        answers: Vec::new(alloc),
        alloc,
    };
    let mut block = vec![in alloc; 0u8; SCRIPT_BLOCK]?;
    for _ in 0..MAX_READS {
        if read_and_answer(reader, writer, &mut run, block.as_mut_slice())? {
            return Ok(run.room);
        }
    }
    Err(ReplayFault::Turns)
}

/// `Session::open` and `replay_session` in one, for types that needn't fit each other. Where no session is opened,
/// nothing is read or written.
pub fn replay<R: Source, W: Sink>(
    alloc: Global,
    reader: &mut R,
    writer: &mut W,
    roles: Roles,
    types: Vec<Local>,
) -> Result<Room, ReplayFault>
    requires named { length roles ≡ length types.items }
    requires reads { R.calls reader.old < 2 ^ 62 }
    requires writes { W.failed_calls writer.old < 2 ^ 62 }
    ensures outcome { Replayed roles (map plain types.items)
        (streams R.Source W.Sink reader.old writer.old)
        (streams R.Source W.Sink reader.new writer.new) result }
    ensures reads { R.calls reader.new ≤ R.calls reader.old + max_reads }
{
    let session = Session::open(alloc, types)?;
    replay_session(alloc, reader, writer, roles, session)
}
