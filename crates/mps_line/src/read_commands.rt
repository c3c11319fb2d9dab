//! Command lines, and the lines of a script.
ghost use Rattle.std.specs.Prelude.{◌≡◌, ◌≢◌, ℕ, List, [], ◌∷◌, IfOk, IfSome, IfNone, IsErrOf};
ghost use Rattle.mps_base.specs.Names.{IsNoneOf};
ghost use Rattle.mps_base.specs.Spaced.{spaced};
ghost use Rattle.mps_base.specs.declared.value.Value.{Value};
ghost use Rattle.mps_base.specs.declared.value.Value.TheVariants as values;
ghost use Rattle.mps_command.specs.declared.command.Command.{Command};
ghost use Rattle.mps_command.specs.declared.command.Command.TheVariants as commands;
ghost use Rattle.mps_command.specs.declared.command.Forward.TheVariants as steps;
ghost use Rattle.mps_line.specs.declared.read_commands.LineFault.TheVariants.{Memory as OutOfMemory};
ghost use Rattle.mps_line.specs.declared.read_commands.Verb.{Verb};
ghost use Rattle.mps_line.specs.Tokens.{RoleAt, Called, Worth, SpellsLine};
ghost use Rattle.mps_line.specs.Commands.{verb_word, verb_of, arguments, SpellsCommand, SpellsScriptLine};
ghost use Rattle.mps_line.specs.Private.Commands.{lone_verbs, TakesArguments};

use crate::line_parts::{after_word, read_count, read_role, read_step, split_role};
use mps_base::{Name, Role, Roles, Value, ValueFault};
use mps_command::{Command, Forward};
use std::alloc::{AllocError, AllocFailed, Global};
use thiserror::Error;

/// Why a line was not read.
#[derive(Clone, Copy, Debug, PartialEq, Eq, Error)]
pub enum LineFault {
    #[error("no line is spelled so")]
    Bad,
    #[error("out of memory")]
    Memory,
}

impl From<AllocError> for LineFault {
    ghost from_gives = { λ _ e. e ≡ OutOfMemory };

    // Lets `?` turn a failed allocation into `Memory`.
    fn from(_e: AllocError) -> LineFault {
        LineFault::Memory
    }
}

impl<T: Drop> From<AllocFailed<T>> for LineFault {
    ghost from_gives = { λ _ e. e ≡ OutOfMemory };

    // Lets `?` turn a failed allocation into `Memory`; what the allocation gives back is dropped.
    fn from(_e: AllocFailed<T>) -> LineFault {
        LineFault::Memory
    }
}

/// The first word of a command.
#[derive(Clone, Copy, Debug, PartialEq, Eq)]
pub enum Verb {
    Send,
    Choose,
    Receive,
    Pick,
    Mark,
    Commit,
    Undo,
    Rollback,
    Back,
    News,
    Show,
    Stand,
}

/// Reads all of the bytes as a line of a script: a role's name and its command. `Bad` for other bytes; `Memory` only
/// where a text is sent. The length isn't limited here: callers refuse lines over 512 bytes.
pub fn read_script_line(
    alloc: Global,
    roles: &Roles,
    bytes: &[u8],
) -> Result<(Role, Command), LineFault>
    ensures read { IfOk result (λ r. SpellsScriptLine roles.now bytes.now r.0 r.1) }
    ensures bad { IsErrOf result LineFault.Bad → (role : ℕ) (command : Command)
        → SpellsScriptLine roles.now bytes.now role command → ⊥ }

    // Only the sending of a text takes memory.
    ensures memory { IsErrOf result LineFault.Memory → (role : ℕ) × (to : ℕ) × (text : List ℕ)
        × SpellsScriptLine roles.now bytes.now role (commands.Forward (steps.Send to (values.Text text))) }
{
    let Some(parts) = split_role(roles, bytes) else {
        return Err(LineFault::Bad);
    };
    let (role, rest) = parts;
    let command = read_command(alloc, roles, rest)?;
    Ok((role, command))
}

/// Reads all of the bytes as a command. `Bad` for other bytes; `Memory` only where a text is sent.
pub fn read_command(alloc: Global, roles: &Roles, bytes: &[u8]) -> Result<Command, LineFault>
    ensures read { IfOk result (SpellsCommand roles.now bytes.now) }
    ensures bad { IsErrOf result LineFault.Bad → (command : Command)
        → SpellsCommand roles.now bytes.now command → ⊥ }

    // Only the sending of a text takes memory.
    ensures memory { IsErrOf result LineFault.Memory → (to : ℕ) × (text : List ℕ)
        × SpellsCommand roles.now bytes.now (commands.Forward (steps.Send to (values.Text text))) }
{
    // without a verb and a space the whole can only be one of the verbs that take no arguments
    let Some((verb, rest)) = split_verb(bytes) else {
        return match lone_command(bytes) {
            Some(command) => Ok(command),
            None => Err(LineFault::Bad),
        };
    };
    read_arguments(alloc, roles, verb, rest)
}

// The command whose verb takes no arguments and is all of the bytes: `commit`, `show` or `stand`; else `None`.
fn lone_command(verb: &[u8]) -> Option<Command>
    ensures read { IfSome result (λ command. verb.now ≡ verb_word (verb_of command)) }
    ensures alone { IfSome result (λ command. arguments command ≡ []) }
    ensures none { IfNone result (IsNoneOf lone_verbs verb.now) }
{
    match verb {
        b"commit" => Some(Command::Forward(Forward::Commit)),
        b"show" => Some(Command::Show),
        b"stand" => Some(Command::Stand),
        _ => None,
    }
}

// The verb in front, and the bytes after it and a space, or `None`. `commit`, `show` and `stand` are found too, and refused by
// `read_argument`. `send` and `recv` are matched whole and the others by two letters: a measured choice, since to match
// all whole takes more instructions in each line.
fn split_verb(bytes: &[u8]) -> Option<(Verb, &[u8])>
    ensures read { IfSome result (λ r. bytes.now ≡ spaced (verb_word r.0 ∷ r.1.now ∷ [])) }
    ensures none { IfNone result ((verb : Verb) (rest : List ℕ)
        → bytes.now ≢ spaced (verb_word verb ∷ rest ∷ [])) }
{
    match bytes {
        [b's', b'e', b'n', b'd', b' ', rest @ ..] => Some((Verb::Send, rest)),
        [b'r', b'e', b'c', b'v', b' ', rest @ ..] => Some((Verb::Receive, rest)),
        [b'c', b'h', ..] => Some((Verb::Choose, after_word(bytes, b"choose")?)),
        [b'p', ..] => Some((Verb::Pick, after_word(bytes, b"pick")?)),
        [b'm', ..] => Some((Verb::Mark, after_word(bytes, b"mark")?)),
        [b'u', ..] => Some((Verb::Undo, after_word(bytes, b"undo")?)),
        [b'r', b'o', ..] => Some((Verb::Rollback, after_word(bytes, b"rollback")?)),
        [b'b', ..] => Some((Verb::Back, after_word(bytes, b"back")?)),
        [b'n', ..] => Some((Verb::News, after_word(bytes, b"news")?)),
        [b's', b'h', ..] => Some((Verb::Show, after_word(bytes, b"show")?)),
        [b's', b't', ..] => Some((Verb::Stand, after_word(bytes, b"stand")?)),
        [b'c', b'o', ..] => Some((Verb::Commit, after_word(bytes, b"commit")?)),
        _ => None,
    }
}

// Reads all of the bytes as the arguments of the verb, and makes the command. `Bad` for other bytes; `Memory` only
// where a text is sent.
fn read_arguments(
    alloc: Global,
    roles: &Roles,
    verb: Verb,
    bytes: &[u8],
) -> Result<Command, LineFault>
    ensures verb { IfOk result (λ command. verb_of command ≡ verb) }
    ensures some { IfOk result TakesArguments }
    ensures read { IfOk result (λ command. SpellsLine roles.now bytes.now (arguments command)) }
    ensures bad { IsErrOf result LineFault.Bad → (command : Command) → verb_of command ≡ verb
        → TakesArguments command → SpellsLine roles.now bytes.now (arguments command) → ⊥ }
    ensures send { IsErrOf result LineFault.Memory → verb ≡ Verb.Send }
    ensures memory { IsErrOf result LineFault.Memory → (to : ℕ) × (text : List ℕ)
        × SpellsLine roles.now bytes.now (RoleAt to ∷ Worth (values.Text text) ∷ []) }
{
    match verb {
        Verb::Send => {
            let (to, value) = read_role_and_value(alloc, roles, bytes)?;
            Ok(Command::Forward(Forward::Send { to, value }))
        }
        Verb::Choose => {
            let (to, label) = read_role_and_name(roles, bytes)?;
            Ok(Command::Forward(Forward::Choose { to, label }))
        }
        Verb::Receive => {
            let (from, slot) = read_role_and_name(roles, bytes)?;
            Ok(Command::Forward(Forward::Receive { from, slot }))
        }
        verb => match read_argument(roles, verb, bytes) {
            Some(command) => Ok(command),
            None => Err(LineFault::Bad),
        },
    }
}

// Reads all of the bytes as the one argument of the verb, or `None`; `commit`, `show` and `stand` take none. Apart from the
// verbs of two arguments, since it does not allocate.
fn read_argument(roles: &Roles, verb: Verb, bytes: &[u8]) -> Option<Command>
    requires send { verb ≢ Verb.Send }
    requires choose { verb ≢ Verb.Choose }
    requires receive { verb ≢ Verb.Receive }
    ensures verb { IfSome result (λ command. verb_of command ≡ verb) }
    ensures some { IfSome result TakesArguments }
    ensures read { IfSome result (λ command. SpellsLine roles.now bytes.now (arguments command)) }
    ensures none { IfNone result ((command : Command) → verb_of command ≡ verb
        → TakesArguments command → SpellsLine roles.now bytes.now (arguments command) → ⊥) }
{
    match verb {
        Verb::Pick => Some(Command::Forward(Forward::Pick {
            from: read_role(roles, bytes)?,
        })),
        Verb::Mark => Some(Command::Forward(Forward::Mark {
            name: Name::read(bytes)?,
        })),
        Verb::Undo => Some(Command::Undo(read_step(bytes)?)),
        Verb::Rollback => Some(Command::Rollback(read_step(bytes)?)),
        Verb::Back => Some(Command::Back(Name::read(bytes)?)),
        Verb::News => Some(Command::News(read_count(bytes)?)),
        _ => None,
    }
}

// Reads all of the bytes as a role's name, a space, and the name of a label or a slot; else `Bad`. It does not
// allocate, so it is never `Memory`.
#[inline(always)]
fn read_role_and_name(roles: &Roles, bytes: &[u8]) -> Result<(Role, Name), LineFault>
    ensures read { IfOk result
        (λ r. SpellsLine roles.now bytes.now (RoleAt r.0 ∷ Called r.1 ∷ [])) }
    ensures bad { IsErrOf result LineFault.Bad → (role : ℕ) (name : List ℕ)
        → SpellsLine roles.now bytes.now (RoleAt role ∷ Called name ∷ []) → ⊥ }
    ensures memory { IsErrOf result LineFault.Memory → ⊥ }
{
    let Some(parts) = split_role(roles, bytes) else {
        return Err(LineFault::Bad);
    };
    let (role, rest) = parts;
    match Name::read(rest) {
        Some(name) => Ok((role, name)),
        None => Err(LineFault::Bad),
    }
}

// Reads all of the bytes as a role's name, a space, and the value to send; else `Bad`. Only a text allocates, and may
// be `Memory`.
fn read_role_and_value(
    alloc: Global,
    roles: &Roles,
    bytes: &[u8],
) -> Result<(Role, Value), LineFault>
    ensures read { IfOk result
        (λ r. SpellsLine roles.now bytes.now (RoleAt r.0 ∷ Worth r.1 ∷ [])) }
    ensures bad { IsErrOf result LineFault.Bad → (to : ℕ) (value : Value)
        → SpellsLine roles.now bytes.now (RoleAt to ∷ Worth value ∷ []) → ⊥ }
    ensures memory { IsErrOf result LineFault.Memory → (to : ℕ) × (text : List ℕ)
        × SpellsLine roles.now bytes.now (RoleAt to ∷ Worth (values.Text text) ∷ []) }
{
    let Some(parts) = split_role(roles, bytes) else {
        return Err(LineFault::Bad);
    };
    let (to, text) = parts;
    match Value::read(alloc, text) {
        Ok(value) => Ok((to, value)),
        Err(ValueFault::Bad) => Err(LineFault::Bad),
        Err(ValueFault::Memory) => Err(LineFault::Memory),
    }
}
