//! The lines of a conversation.
ghost use Rattle.std.specs.Prelude.{ℕ, List, Option, IfNone, IfOk, IfSome, IsErrOf, IsTrue, ◌↔◌};
ghost use Rattle.mps_base.specs.declared.value.Value.TheVariants as values;
ghost use Rattle.mps_command.specs.declared.command.Command.{Command};
ghost use Rattle.mps_command.specs.declared.command.Command.TheVariants as commands;
ghost use Rattle.mps_command.specs.declared.command.Forward.TheVariants as steps;
ghost use Rattle.mps_line.specs.Commands.{MayHaveNumber, SpellsNumbered, SpellsWait};

use crate::line_parts::{after_word, split_number};
use crate::read_commands::{LineFault, read_command};
use mps_base::Roles;
use mps_command::Command;
use std::alloc::Global;

/// Reads all of the bytes as a line of a conversation: a command, or a number below 2^64, a space, and a command that
/// asks for a change. `Bad` for other bytes, as a number before a question; `Memory` only where a text is sent.
pub fn read_numbered(
    alloc: Global,
    roles: &Roles,
    bytes: &[u8],
) -> Result<(Option<u64>, Command), LineFault>
    ensures read { IfOk result (λ r. SpellsNumbered roles.now bytes.now r.0 r.1) }
    ensures bad { IsErrOf result LineFault.Bad → (number : Option ℕ) (command : Command)
        → SpellsNumbered roles.now bytes.now number command → ⊥ }

    // Only the sending of a text takes memory.
    ensures memory { IsErrOf result LineFault.Memory → (number : Option ℕ) × (to : ℕ) × (text : List ℕ)
        × SpellsNumbered roles.now bytes.now number (commands.Forward (steps.Send to (values.Text text))) }
{
    let Some((number, rest)) = split_number(bytes) else {
        let command = read_command(alloc, roles, bytes)?;
        return Ok((None, command));
    };
    let command = read_command(alloc, roles, rest)?;
    if !asks_for_change(&command) {
        return Err(LineFault::Bad);
    }
    Ok((Some(number), command))
}

/// What stands in a line that begins with `wait`: for how many milliseconds its answer may wait, and the line that is
/// answered, which is not read here. `None` for any other line.
pub fn split_wait(bytes: &[u8]) -> Option<(u64, &[u8])>
    ensures read { IfSome result (λ r. SpellsWait bytes.now r.0 r.1.now) }
    ensures none { IfNone result ((limit : ℕ) (line : List ℕ) → SpellsWait bytes.now limit line → ⊥) }
{
    split_number(after_word(bytes, b"wait")?)
}

/// Whether the command asks for a change, and not a question: only such a command may have a number, and joins the
/// journal.
pub fn asks_for_change(command: &Command) -> bool
    ensures { IsTrue result ↔ MayHaveNumber command.now }
{
    match command {
        Command::Forward(_) => true,
        Command::Undo(_) => true,
        Command::Rollback(_) => true,
        Command::Back(_) => true,
        Command::News(_) => false,
        Command::Show => false,
        Command::Stand => false,
    }
}
