//! The lines of a journal that is kept in a file.
ghost use Rattle.std.specs.Prelude.{◌≡◌, ℕ, Option, IfOk, OnOk, OnErr, IsErrOf, IsTrue, ◌↔◌};
ghost use Rattle.std.specs.Io.{StartsWith};
ghost use Rattle.mps_base.specs.Appends.{AppendsSuch};
ghost use Rattle.mps_command.specs.declared.command.Command.{Command as Asked};
ghost use Rattle.mps_line.specs.JournalLines.{SpellsJournalLine, CanBeWritten};
ghost use Rattle.mps_line.specs.Commands.{NamesRolesOf};

use crate::line_parts::{read_role, split_at_space, write_count, write_role};
use crate::read_commands::LineFault;
use crate::read_conversations::{asks_for_change, read_numbered};
use crate::write_commands::push_command;
use mps_base::{Role, Roles};
use mps_command::{Command, Forward};
use std::alloc::{AllocError, Global};

/// What a line keeps: a role's command that was accepted, and its number if it had one.
#[derive(Debug, Drop)]
pub struct JournalLine {
    pub role: Role,
    pub number: Option<u64>,
    pub command: Command,
}

// Whether the peer of the command is one of these roles; true where it names none. Apart, as each of the three parts of
// `CanBeWritten` has a test of its own: this one is `NamesRolesOf`.
fn names_roles(roles: &Roles, command: &Command) -> bool
    ensures { IsTrue result ↔ NamesRolesOf roles.now command.now }
{
    match command {
        Command::Forward(
            Forward::Send { to: peer, .. }
            | Forward::Choose { to: peer, .. }
            | Forward::Receive { from: peer, .. }
            | Forward::Pick { from: peer },
        ) => peer.index() < roles.count(),
        _ => true,
    }
}

/// Whether the role's command can be written in a journal: the role and the command's peer are among these, and it asks
/// for a change. Callers ask it before `write_journal_line`, which requires it.
pub fn has_journal_line(roles: &Roles, role: Role, command: &Command) -> bool
    ensures { IsTrue result ↔ CanBeWritten roles.now role command.now }
{
    role.index() < roles.count() && asks_for_change(command) && names_roles(roles, command)
}

/// Appends the line of a role's accepted command to `out`, without a line break: role, number if it has one, command.
/// Out of memory is the only error, and leaves `out` unchanged.
pub fn write_journal_line(
    roles: &Roles,
    role: Role,
    number: Option<u64>,
    command: &Command,
    out: &mut Vec<u8>,
) -> Result<(), AllocError>
    requires { CanBeWritten roles.now role command.now }
    ensures ok { OnOk result (AppendsSuch
        (λ text. SpellsJournalLine roles.now text role number command.now) out.old.items out.new.items) }
    ensures err { OnErr result (out.new.items ≡ out.old.items) }
{
    let before = out.len();
    let written = write_parts(roles, role, number, command, out);
    if written.is_err() {
        out.truncate(before);
    }
    written
}

// The writing of `write_journal_line`: when out of memory a part may stand in `out`, which the caller truncates. Apart, so
// that each `?` leads back to where it does.
fn write_parts(
    roles: &Roles,
    role: Role,
    number: Option<u64>,
    command: &Command,
    out: &mut Vec<u8>,
) -> Result<(), AllocError>
    requires { CanBeWritten roles.now role command.now }
    ensures ok { OnOk result (AppendsSuch
        (λ text. SpellsJournalLine roles.now text role number command.now) out.old.items out.new.items) }
    ensures err { OnErr result (StartsWith out.new.items out.old.items) }
{
    write_role(roles, role, out)?;
    out.push(b' ')?;
    if let Some(n) = number {
        write_count(n, out)?;
        out.push(b' ')?;
    }
    push_command(roles, command, out)
}

/// Reads all of the bytes as a journal's line: a role's name, a number if there is one, and a command that asks for a
/// change. `Bad` for other bytes; `Memory` only where a text is sent. After an error nothing is kept.
pub fn read_journal_line(
    alloc: Global,
    roles: &Roles,
    bytes: &[u8],
) -> Result<JournalLine, LineFault>
    ensures read { IfOk result (λ k. SpellsJournalLine roles.now bytes.now k.role k.number k.command) }
    ensures bad { IsErrOf result LineFault.Bad → (role : ℕ) (number : Option ℕ) (command : Asked)
        → SpellsJournalLine roles.now bytes.now role number command → ⊥ }
{
    let Some((name, rest)) = split_at_space(bytes) else {
        return Err(LineFault::Bad);
    };
    let Some(role) = read_role(roles, name) else {
        return Err(LineFault::Bad);
    };
    let (number, command) = read_numbered(alloc, roles, rest)?;
    // a question has no line; where there is a number, it was looked at already
    if !asks_for_change(&command) {
        return Err(LineFault::Bad);
    }
    Ok(JournalLine {
        role,
        number,
        command,
    })
}
