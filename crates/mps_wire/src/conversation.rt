//! A conversation over streams.
ghost use Rattle.std.specs.Prelude.{◌≡◌, ◌+◌, ◌<◌, ◌≤◌, ◌^◌, ◌++◌, ℕ, List, length, Some, Err, OnOk, OnErr, IfNone};
ghost use Rattle.std.specs.Prelude.{Bool, false};
ghost use Rattle.mps_command.specs.declared.answer.Answer.{Answer as Response};
ghost use Rattle.mps_command.specs.declared.command.Command.{Command as Asked};
ghost use Rattle.mps_lines.specs.Lines.{most_kept};
ghost use Rattle.mps_wire.specs.Conversations.{RepliesInTime, ConversesLine, ConversesBrokenOff, reply_of};
ghost use Rattle.mps_wire.specs.declared.conversation.Broken.TheVariants.{Memory as OutOfMemory, Untold as MayNot};
ghost use Rattle.mps_wire.specs.Endings.{EndedAs};
ghost use Rattle.mps_wire.specs.Private.Endings.{TurnedTo, IsBrokenOff, IsWholly, TakesOn, TakesBrokenOff};
ghost use Rattle.mps_wire.specs.Private.Endings.{failed_by};
ghost use Rattle.mps_dev.specs.Reads.{max_reads};
ghost use Rattle.mps_wire.specs.Runs.{Going};
ghost use Rattle.mps_wire.specs.Streams.{streams};

use crate::reply::{Outcome, write_outcome};
use crate::sending::send_all;
use crate::waiting::{NoVigil, Vigil, take_line_waiting};
use mps_dev::{Failed, MAX_READS, Sink, Source};
use mps_lines::{keep, line_end};
use mps_room::Caller;
use std::alloc::{AllocError, AllocFailed, Global};
use thiserror::Error;

/// How many bytes a conversation asks for at a time.
pub const CONVERSATION_BLOCK: usize = 4_096;

// The space that is kept for the next reply, in bytes. What a longer one took is given back.
const LARGEST_KEPT: usize = 65_536;

/// How a conversation ended.
#[derive(Clone, Copy, Debug, PartialEq, Eq)]
pub enum Ending {
    /// The reader came to its end.
    Closed,
    /// A read failed.
    ReadFault,
    /// A write failed.
    WriteFault,
    /// It was read from as often as it may be.
    Turns,
    /// Memory ran out.
    Memory,
    /// What the caller was answered may not be told on.
    Untold,
}

/// Why no more lines are answered.
#[derive(Clone, Copy, Debug, PartialEq, Eq, Error)]
pub enum Broken {
    #[error("a write failed")]
    Write,
    #[error("out of memory")]
    Memory,
    #[error("the answer may not be told on")]
    Untold,
}

impl From<AllocError> for Broken {
    ghost from_gives = { λ _ e. e ≡ OutOfMemory };

    // Lets `?` turn a failed allocation into `Memory`.
    fn from(_e: AllocError) -> Broken {
        Broken::Memory
    }
}

impl<T: Drop> From<AllocFailed<T>> for Broken {
    ghost from_gives = { λ _ e. e ≡ OutOfMemory };

    // Lets `?` turn a failed allocation into `Memory`; what the allocation gives back is dropped.
    fn from(_e: AllocFailed<T>) -> Broken {
        Broken::Memory
    }
}

// A conversation while it goes on.
#[derive(Drop)]
struct Conversation {
    // the front of the line that comes
    line: Vec<u8>,
    // the text of the newest reply
    text: Vec<u8>,
    alloc: Global,
}

impl Conversation {
    // Writes the reply to a line, with an LF, unless the caller says that it may not be told: then `Untold`, and
    // nothing is written. The text is made first, so nothing is written when out of memory either; after `Write` a
    // front of it may be.
    fn tell<C: Caller, W: Sink>(
        &mut self,
        caller: &C,
        writer: &mut W,
        outcome: Outcome,
    ) -> Result<(), Broken>
        requires { W.failed_calls writer.old < 2 ^ 63 }
        ensures line { self.new.line.items ≡ self.old.line.items }
        ensures writes { W.failed_calls writer.new ≡ W.failed_calls writer.old + failed_by result }
        ensures ok { (waits : Bool) (line : List ℕ) (start : C)
            → RepliesInTime C.Caller waits line start (reply_of outcome (C.kept caller.now)) caller.now
            → OnOk result
            (IsWholly (ConversesLine C.Caller waits) line start caller.now (W.taken writer.old) (W.taken writer.new)) }
        ensures err { (waits : Bool) (line : List ℕ) (start : C)
            → RepliesInTime C.Caller waits line start (reply_of outcome (C.kept caller.now)) caller.now
            → OnErr result (IsBrokenOff (ConversesBrokenOff C.Caller waits) line start caller.now (W.taken writer.old)
            (W.taken writer.new)) }
        ensures untold { result ≡ Err MayNot → C.may_tell caller.now ≡ false }
    {
        self.text.clear();
        write_outcome(caller, &outcome, &mut self.text)?;
        self.text.push(b'\n')?;
        if !caller.may_tell() {
            return Err(Broken::Untold);
        }
        let sent = send_all(writer, self.text.as_slice());
        if self.text.capacity() > LARGEST_KEPT {
            self.text = Vec::new(self.alloc);
        }
        match sent {
            Ok(()) => Ok(()),
            Err(Failed) => Err(Broken::Write),
        }
    }

    // Takes bytes that were read, and runs and answers each line that they end before it looks at the next one. A rest
    // without an LF is kept, up to 513 bytes. After an error the lines before were answered; the one at hand may have
    // been run.
    fn feed<C: Caller, V: Vigil, W: Sink>(
        &mut self,
        caller: &mut C,
        vigil: &mut V,
        writer: &mut W,
        bytes: &[u8],
    ) -> Result<(), Broken>
        requires short { length self.old.line.items ≤ most_kept }
        requires writes { W.failed_calls writer.old < 2 ^ 63 }
        ensures writes { W.failed_calls writer.new ≡ W.failed_calls writer.old + failed_by result }
        ensures short { OnOk result (length self.new.line.items ≤ most_kept) }
        ensures waits { V.waits vigil.new ≡ V.waits vigil.old }
        ensures ok { OnOk result
            (TakesOn (ConversesLine C.Caller (V.waits vigil.old)) bytes.now self.old.line.items caller.old (W.taken writer.old)
            self.new.line.items caller.new (W.taken writer.new)) }
        ensures err { OnErr result
            (TakesBrokenOff (ConversesLine C.Caller (V.waits vigil.old)) (ConversesBrokenOff C.Caller (V.waits vigil.old))
            bytes.now self.old.line.items caller.old (W.taken writer.old) caller.new (W.taken writer.new)) }
        ensures untold { result ≡ Err MayNot → C.may_tell caller.new ≡ false }
    {
        let mut rest = bytes;
        while let Some(k) = line_end(rest) {
            let piece = &rest[..k];
            let outcome = if self.line.is_empty() {
                // it came whole, and is answered where it stands
                take_line_waiting(self.alloc, caller, vigil, piece)
            } else {
                keep(&mut self.line, piece)?;
                take_line_waiting(self.alloc, caller, vigil, self.line.as_slice())
            };
            self.tell(&*caller, writer, outcome)?;
            self.line.clear();
            rest = &rest[k + 1..];
        }
        keep(&mut self.line, rest)?;
        Ok(())
    }
}

// One round of `converse`: reads once, and answers the lines that are whole then. Returned is how the conversation
// ended, or `None` where it goes on.
fn read_and_answer<C: Caller, V: Vigil, R: Source, W: Sink>(
    caller: &mut C,
    vigil: &mut V,
    reader: &mut R,
    writer: &mut W,
    going: &mut Conversation,
    block: &mut [u8],
) -> Option<Ending>
    requires short { length going.old.line.items ≤ most_kept }
    requires space { 0 < length block.old }
    requires reads { R.calls reader.old < 2 ^ 63 }
    requires writes { W.failed_calls writer.old < 2 ^ 63 }
    ensures short { IfNone result (length going.new.line.items ≤ most_kept) }
    ensures reads { R.calls reader.new ≡ R.calls reader.old + 1 }
    ensures waits { V.waits vigil.new ≡ V.waits vigil.old }
    ensures step { (start : C) (first : _)
        → Going (ConversesLine C.Caller (V.waits vigil.old)) start first
        (streams R.Source W.Sink reader.old writer.old) going.old.line.items caller.old
        → TurnedTo (ConversesLine C.Caller (V.waits vigil.old)) (ConversesBrokenOff C.Caller (V.waits vigil.old)) start first
        (streams R.Source W.Sink reader.old writer.old) (streams R.Source W.Sink reader.new writer.new)
        going.new.line.items caller.new result }
    ensures untold { result ≡ Some Ending.Untold → C.may_tell caller.new ≡ false }
{
    let Ok(count) = reader.read(block) else {
        return Some(Ending::ReadFault);
    };
    if count == 0 {
        return Some(Ending::Closed);
    }
    match going.feed(caller, vigil, writer, &block[..count]) {
        Ok(()) => None,
        Err(Broken::Write) => Some(Ending::WriteFault),
        Err(Broken::Memory) => Some(Ending::Memory),
        Err(Broken::Untold) => Some(Ending::Untold),
    }
}

/// Runs each line of the reader as a command of the caller, and writes its answer before it looks at the next one. A read
/// asks for `CONVERSATION_BLOCK` bytes, and there are at most `MAX_READS` reads.
///
/// A line may begin with a number (`read_numbered`). A client that lost the answer sends the same line again: it isn't
/// run a second time, and its answer is written again. At the end a rest without an LF isn't run.
///
/// After `Closed`, `ReadFault` or `Turns` each whole line that was read is answered; after `WriteFault` or `Memory` only
/// the first of them, and the last answer may be cut or missing; after `Untold` the last one's answer isn't written.
pub fn converse<C: Caller, R: Source, W: Sink>(
    alloc: Global,
    caller: &mut C,
    reader: &mut R,
    writer: &mut W,
) -> Ending
    requires reads { R.calls reader.old < 2 ^ 62 }
    requires writes { W.failed_calls writer.old < 2 ^ 62 }
    ensures ending { EndedAs (ConversesLine C.Caller false) (ConversesBrokenOff C.Caller false) caller.old
        (streams R.Source W.Sink reader.old writer.old) (streams R.Source W.Sink reader.new writer.new)
        caller.new result }
    ensures reads { R.calls reader.new ≤ R.calls reader.old + max_reads }
    ensures untold { result ≡ Ending.Untold → C.may_tell caller.new ≡ false }

    // What no call changes is as before.
    ensures fixed { (f : C → ℕ)
        → ((c : C) (x : Asked) (a : Response) (d : C) → C.calls c x a d → f d ≡ f c) → f caller.new ≡ f caller.old }
{
    converse_waiting(alloc, caller, &mut NoVigil, reader, writer)
}

/// The same with a vigil, by which the answers to lines wait that say so.
pub fn converse_waiting<C: Caller, V: Vigil, R: Source, W: Sink>(
    alloc: Global,
    caller: &mut C,
    vigil: &mut V,
    reader: &mut R,
    writer: &mut W,
) -> Ending
    requires reads { R.calls reader.old < 2 ^ 62 }
    requires writes { W.failed_calls writer.old < 2 ^ 62 }
    ensures ending { EndedAs (ConversesLine C.Caller (V.waits vigil.old)) (ConversesBrokenOff C.Caller (V.waits vigil.old))
        caller.old (streams R.Source W.Sink reader.old writer.old) (streams R.Source W.Sink reader.new writer.new)
        caller.new result }
    ensures reads { R.calls reader.new ≤ R.calls reader.old + max_reads }
    ensures untold { result ≡ Ending.Untold → C.may_tell caller.new ≡ false }

    // What no call changes is as before.
    ensures fixed { (f : C → ℕ)
        → ((c : C) (x : Asked) (a : Response) (d : C) → C.calls c x a d → f d ≡ f c) → f caller.new ≡ f caller.old }
{
    let mut going = Conversation {
        line: Vec::new(alloc),
        text: Vec::new(alloc),
        alloc,
    };
    let Ok(mut block) = vec![in alloc; 0u8; CONVERSATION_BLOCK] else {
        return Ending::Memory;
    };
    for _ in 0..MAX_READS {
        if let Some(ending) = read_and_answer(
            caller,
            vigil,
            reader,
            writer,
            &mut going,
            block.as_mut_slice(),
        ) {
            return ending;
        }
    }
    Ending::Turns
}
