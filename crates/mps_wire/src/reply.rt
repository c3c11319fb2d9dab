//! The reply to one line of a conversation.
ghost use Rattle.std.specs.Prelude.{◌≡◌, OnOk, OnErr, IsSome, IsTrue, ◌↔◌};
ghost use Rattle.std.specs.Io.{StartsWith};
ghost use Rattle.mps_base.specs.Appends.{AppendsSuch};
ghost use Rattle.mps_command.specs.Changes.{change_of};
ghost use Rattle.mps_line.specs.Replies.{SpellsReply};
ghost use Rattle.mps_wire.specs.Private.Commands.{RepliesToNumbered};
ghost use Rattle.mps_wire.specs.Conversations.{RepliesTo, reply_of};
ghost use Rattle.mps_wire.specs.Uncalled.{MayAsk};

use mps_command::{Answer, Command, Refusal};
use mps_line::laws::one_numbered;
use mps_line::{LineFault, Reply, append_answer, read_numbered};
use mps_lines::MAX_LINE;
use mps_room::{Caller, Told, call_numbered};
use std::alloc::{AllocError, Global};

/// What a line of a conversation came to. No memory is needed to have it, so it is there also where there is none for
/// its text.
#[derive(Debug, Drop)]
pub enum Outcome {
    /// It is replied so.
    Reply(Reply),
    /// It has the answer that the caller keeps.
    Kept,
}

// Gives the caller a command with its number, and returns the outcome. An accepted answer is not copied: `Kept` says
// that the caller has it. Not inlined, so that lines without a number keep no space for it.
#[inline(never)]
fn take_numbered<C: Caller>(caller: &mut C, number: u64, command: Command) -> Outcome
    requires { IsSome (change_of command) }
    ensures { RepliesToNumbered C.Caller caller.old number command (reply_of result (C.kept caller.new)) caller.new }
{
    match call_numbered(caller, number, command) {
        Told::Fresh => Outcome::Kept,
        Told::Kept => Outcome::Kept,
        Told::Wrong => Outcome::Reply(Reply::Number),
        Told::Refused(refusal) => Outcome::Reply(Reply::Answer(Answer::Refused(refusal))),
    }
}

/// Whether the command may be asked: `stand` only where lines may wait.
pub fn may_ask(waits: bool, command: &Command) -> bool
    ensures { IsTrue result ↔ MayAsk waits command.now }
{
    match command {
        Command::Forward(_) => true,
        Command::Undo(_) => true,
        Command::Rollback(_) => true,
        Command::Back(_) => true,
        Command::News(_) => true,
        Command::Show => true,
        Command::Stand => waits,
    }
}

/// Runs a line as a command of the caller, if it spells one that may be asked, and returns what is to be replied. A line
/// over 512 bytes or unreadable is `BadLine`, and one for whose text there is no memory is refused with `Memory`: neither
/// calls the caller. It can't fail. `waits` says whether lines may wait; this one doesn't.
pub fn take_line<C: Caller>(alloc: Global, caller: &mut C, waits: bool, line: &[u8]) -> Outcome
    ensures { RepliesTo C.Caller waits line.now caller.old (reply_of result (C.kept caller.new)) caller.new }
{
    // for the proof alone
    one_numbered();
    if line.len() > MAX_LINE {
        return Outcome::Reply(Reply::BadLine);
    }
    let roles = caller.roles();
    // for the proof alone: no name stands twice
    let _few = roles.count();
    match read_numbered(alloc, roles, line) {
        Ok((Some(number), command)) => take_numbered(caller, number, command),
        Ok((None, command)) => {
            if !may_ask(waits, &command) {
                return Outcome::Reply(Reply::BadLine);
            }
            Outcome::Reply(Reply::Answer(caller.call(command)))
        }
        Err(LineFault::Bad) => Outcome::Reply(Reply::BadLine),
        Err(LineFault::Memory) => Outcome::Reply(Reply::Answer(Answer::Refused(Refusal::Memory))),
    }
}

/// Appends the reply that the outcome stands for, without a line break; a kept answer is looked up at the caller. When
/// out of memory a part may stand in `out`; the outcome is still there, so it can be asked for again.
pub fn write_outcome<C: Caller>(
    caller: &C,
    outcome: &Outcome,
    out: &mut Vec<u8>,
) -> Result<(), AllocError>
    ensures ok { OnOk result (AppendsSuch
        (λ text. SpellsReply text (reply_of outcome.now (C.kept caller.now))) out.old.items out.new.items) }
    ensures err { OnErr result (StartsWith out.new.items out.old.items) }
{
    match outcome {
        Outcome::Reply(reply) => reply.write(out),
        Outcome::Kept => match caller.kept() {
            Some(answer) => append_answer(answer, out),
            // no outcome of `take_line` leads here: it gives `Outcome::Kept` only where an answer is kept
            None => Reply::Number.write(out),
        },
    }
}
