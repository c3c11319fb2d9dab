//! How commands are written.
ghost use Rattle.std.specs.Prelude.{◌≡◌, IfOk, OnOk, OnErr, IsTrue, ◌↔◌};
ghost use Rattle.std.specs.Io.{StartsWith};
ghost use Rattle.mps_base.specs.Appends.{AppendsSuch};
ghost use Rattle.mps_command.specs.declared.command.Command.TheVariants as commands;
ghost use Rattle.mps_line.specs.Tokens.{SpellsLine};
ghost use Rattle.mps_line.specs.Commands.{verb_word, verb_of, arguments, SpellsCommand, NamesRolesOf};
ghost use Rattle.mps_line.specs.Private.Commands.{TakesArguments};

use crate::line_parts::{write_count, write_name, write_role, write_step};
use mps_base::Roles;
use mps_command::{Command, Forward};
use std::alloc::{AllocError, Global};

/// The command's line in a buffer of its own, without a line break. The roles that it names have to be among these. It
/// fails only when out of memory.
pub fn write_command(alloc: Global, roles: &Roles, command: &Command) -> Result<Vec<u8>, AllocError>
    requires known { NamesRolesOf roles.now command.now }
    ensures { IfOk result (λ line. SpellsCommand roles.now line.items command.now) }
{
    let mut line = Vec::new(alloc);
    append_command(roles, command, &mut line)?;
    Ok(line)
}

/// Appends the command's line to `out`, without a line break. The roles that it names have to be among these. Out of
/// memory is the only error, and leaves `out` unchanged.
pub fn append_command(roles: &Roles, command: &Command, out: &mut Vec<u8>) -> Result<(), AllocError>
    requires known { NamesRolesOf roles.now command.now }
    ensures ok { OnOk result (AppendsSuch
        (λ text. SpellsCommand roles.now text command.now) out.old.items out.new.items) }
    ensures err { OnErr result (out.new.items ≡ out.old.items) }
{
    let before = out.len();
    let written = push_command(roles, command, out);
    if written.is_err() {
        out.truncate(before);
    }
    written
}

/// `append_command` without the clean-up, for writers of longer lines, which truncate the whole themselves: when out of
/// memory a part may stand in `out`.
pub(crate) fn push_command(
    roles: &Roles,
    command: &Command,
    out: &mut Vec<u8>,
) -> Result<(), AllocError>
    requires known { NamesRolesOf roles.now command.now }
    ensures ok { OnOk result (AppendsSuch
        (λ text. SpellsCommand roles.now text command.now) out.old.items out.new.items) }
    ensures err { OnErr result (StartsWith out.new.items out.old.items) }
{
    out.extend_from_slice(verb_word(command))?;
    if !takes_arguments(command) {
        return Ok(());
    }
    out.push(b' ')?;
    write_arguments(roles, command, out)
}

// Appends what stands after the verb and a space. When out of memory a part may stand in `out`; the caller truncates
// it.
fn write_arguments(roles: &Roles, command: &Command, out: &mut Vec<u8>) -> Result<(), AllocError>
    requires known { NamesRolesOf roles.now command.now }
    ensures ok { OnOk result (AppendsSuch
        (λ text. SpellsLine roles.now text (arguments command.now)) out.old.items out.new.items) }
    ensures err { OnErr result (StartsWith out.new.items out.old.items) }
{
    match command {
        Command::Forward(step) => write_forward(roles, step, out),
        Command::Undo(id) => write_step(*id, out),
        Command::Rollback(id) => write_step(*id, out),
        Command::Back(name) => write_name(name, out),
        Command::News(known) => write_count(*known, out),
        Command::Show => Ok(()),
        Command::Stand => Ok(()),
    }
}

// `write_arguments` for a step forward: its peer, and a value, a label or a slot, or a mark's name. When out of memory
// a part may stand in `out`; the caller truncates it.
fn write_forward(roles: &Roles, step: &Forward, out: &mut Vec<u8>) -> Result<(), AllocError>
    requires known { NamesRolesOf roles.now (commands.Forward step.now) }
    ensures ok { OnOk result (AppendsSuch
        (λ text. SpellsLine roles.now text (arguments (commands.Forward step.now)))
        out.old.items out.new.items) }
    ensures err { OnErr result (StartsWith out.new.items out.old.items) }
{
    match step {
        Forward::Send { to, value } => {
            write_role(roles, *to, out)?;
            out.push(b' ')?;
            value.write(out)
        }
        Forward::Choose { to, label } => {
            write_role(roles, *to, out)?;
            out.push(b' ')?;
            write_name(label, out)
        }
        Forward::Receive { from, slot } => {
            write_role(roles, *from, out)?;
            out.push(b' ')?;
            write_name(slot, out)
        }
        Forward::Pick { from } => write_role(roles, *from, out),
        Forward::Mark { name } => write_name(name, out),
        Forward::Commit => Ok(()),
    }
}

// Whether something stands after the command's verb, so that a space is due: for all but `commit`, `show` and `stand`. Apart, as
// the definition `TakesArguments` is, by which `read_arguments` goes too; the proof of `push_command` cites both
// directions.
fn takes_arguments(command: &Command) -> bool
    ensures { IsTrue result ↔ TakesArguments command.now }
{
    match command {
        Command::Forward(Forward::Commit) => false,
        Command::Forward(_) => true,
        Command::Undo(_) => true,
        Command::Rollback(_) => true,
        Command::Back(_) => true,
        Command::News(_) => true,
        Command::Show => false,
        Command::Stand => false,
    }
}

// The command's verb, its first word in a line: what `split_verb` and `lone_command` read.
fn verb_word(command: &Command) -> &'static [u8]
    ensures { result.now ≡ verb_word (verb_of command.now) }
{
    match command {
        Command::Forward(Forward::Send { .. }) => b"send",
        Command::Forward(Forward::Choose { .. }) => b"choose",
        Command::Forward(Forward::Receive { .. }) => b"recv",
        Command::Forward(Forward::Pick { .. }) => b"pick",
        Command::Forward(Forward::Mark { .. }) => b"mark",
        Command::Forward(Forward::Commit) => b"commit",
        Command::Undo(_) => b"undo",
        Command::Rollback(_) => b"rollback",
        Command::Back(_) => b"back",
        Command::News(_) => b"news",
        Command::Show => b"show",
        Command::Stand => b"stand",
    }
}
