//! Entries in little memory.
ghost use Rattle.std.specs.Prelude.{◌≡◌, ◌+◌, ◌≤◌, length, map, IfOk};
ghost use Rattle.mps_base.specs.Names.{IsName};
ghost use Rattle.mps_base.specs.Texts.{IsText};
ghost use Rattle.mps_command.specs.declared.command.Command.TheVariants as commands;
ghost use Rattle.mps_command.specs.declared.command.Forward.TheVariants as steps;
ghost use Rattle.mps_room.specs.Journal.{undone_by};
ghost use Rattle.mps_room.specs.Private.Forms.{answer_in, command_in, cut, role_in, HasList, HasWord};
ghost use Rattle.mps_room.specs.Private.Narrow.{given_in};

use mps_base::{Message, Name, Role, StepId, Text, Value};
use mps_command::{Command, Forward};
use std::alloc::{AllocError, Global};
use std::slice;

/// An accepted command with its answer, in 16 bytes, where an `Entry` takes 144: what it was decides what there is to keep.
/// Of a name or a text it has the place and the size among the words of the journal, of the numbers that were taken back
/// the place of their list. A receipt names the entry of its send in place of the message that it took.
#[derive(Clone, Copy, Debug)]
pub(crate) enum Form {
    Sent {
        pair: Pair,
        id: u32,
        number: i64,
    },
    Told {
        pair: Pair,
        truth: bool,
        id: u32,
    },
    Wrote {
        pair: Pair,
        id: u32,
        start: u32,
        size: u32,
    },
    Chose {
        pair: Pair,
        size: u8,
        id: u32,
        start: u32,
    },
    Received {
        pair: Pair,
        size: u8,
        id: u32,
        place: u32,
        start: u32,
    },
    Picked {
        pair: Pair,
        id: u32,
        place: u32,
    },
    Marked {
        role: u8,
        size: u8,
        id: u32,
        start: u32,
    },
    Committed {
        role: u8,
        id: u32,
    },
    Undone {
        role: u8,
        id: StepId,
    },
    RolledBack {
        role: u8,
        list: u32,
        id: StepId,
    },
    WentBack {
        role: u8,
        size: u8,
        start: u32,
        list: u32,
    },
}

// A journal is mostly written: what a line keeps of its entry is these bytes, and those of a name or a text.
const _: () = prove!(size_of::<Form>() == 16);

/// Whose step it is, and with whom.
#[derive(Clone, Copy, Debug)]
pub(crate) struct Pair {
    role: u8,
    peer: u8,
}

impl Pair {
    /// The role and its peer in one byte each: places of roles are below 256.
    pub(crate) fn of(role: Role, peer: Role) -> Pair
        ensures role { result.role ≡ role }
        ensures peer { result.peer ≡ peer }
    {
        Pair {
            role: role.index() as u8,
            peer: peer.index() as u8,
        }
    }

    // The peer as a role: the receiver of a send or a choice, the sender of a receipt or a pick.
    fn peer(self) -> Role
        ensures { result ≡ self.peer }
    {
        Role::new(self.peer)
    }
}

impl Form {
    /// The role whose entry it is, which each form has in a byte.
    pub(crate) fn role(&self) -> Role
        ensures { result ≡ role_in self.now }
    {
        Role::new(match self {
            Form::Sent { pair, .. }
            | Form::Told { pair, .. }
            | Form::Wrote { pair, .. }
            | Form::Chose { pair, .. }
            | Form::Received { pair, .. }
            | Form::Picked { pair, .. } => pair.role,
            Form::Marked { role, .. }
            | Form::Committed { role, .. }
            | Form::Undone { role, .. }
            | Form::RolledBack { role, .. }
            | Form::WentBack { role, .. } => *role,
        })
    }

    /// The command that was accepted, made anew. Only a send of a text allocates; it fails only when out of memory.
    pub(crate) fn command(&self, words: &[u8], alloc: Global) -> Result<Command, AllocError>
        requires { HasWord words.now self.now }
        ensures { IfOk result (λ command. command ≡ command_in words.now self.now) }
    {
        Ok(match self {
            Form::Sent { pair, number, .. } => send(*pair, Value::Int(*number)),
            Form::Told { pair, truth, .. } => send(*pair, Value::Bool(*truth)),
            Form::Wrote {
                pair,
                start,
                size,
                ..
            } => send(*pair, Value::Text(text_at(words, *start, *size, alloc)?)),
            Form::Chose {
                pair,
                size,
                start,
                ..
            } => Command::Forward(Forward::Choose {
                to: pair.peer(),
                label: name_at(words, *start, *size),
            }),
            Form::Received {
                pair,
                size,
                start,
                ..
            } => Command::Forward(Forward::Receive {
                from: pair.peer(),
                slot: name_at(words, *start, *size),
            }),
            Form::Picked { pair, .. } => Command::Forward(Forward::Pick { from: pair.peer() }),
            Form::Marked { size, start, .. } => Command::Forward(Forward::Mark {
                name: name_at(words, *start, *size),
            }),
            Form::Committed { .. } => Command::Forward(Forward::Commit),
            Form::Undone { id, .. } => Command::Undo(*id),
            Form::RolledBack { id, .. } => Command::Rollback(*id),
            Form::WentBack { size, start, .. } => Command::Back(name_at(words, *start, *size)),
        })
    }

    /// The message that the entry's step gave, copied; `None` where it gave none. Only a text allocates; it fails only
    /// when out of memory.
    pub(crate) fn given(&self, words: &[u8], alloc: Global) -> Result<Option<Message>, AllocError>
        requires { HasWord words.now self.now }
        ensures { IfOk result (λ message. message ≡ given_in (command_in words.now self.now)) }
    {
        Ok(match self {
            Form::Sent { number, .. } => Some(Message::Value(Value::Int(*number))),
            Form::Told { truth, .. } => Some(Message::Value(Value::Bool(*truth))),
            Form::Wrote { start, size, .. } => Some(Message::Value(Value::Text(text_at(
                words, *start, *size, alloc,
            )?))),
            Form::Chose { size, start, .. } => Some(Message::Label(name_at(words, *start, *size))),
            Form::Received { .. }
            | Form::Picked { .. }
            | Form::Marked { .. }
            | Form::Committed { .. }
            | Form::Undone { .. }
            | Form::RolledBack { .. }
            | Form::WentBack { .. } => None,
        })
    }

    /// The numbers of the steps that the entry took back, borrowed, the newest first; none for a new step.
    pub(crate) fn undone<'a>(&'a self, lists: &'a [Vec<StepId>]) -> &'a [StepId]
        requires { HasList (length lists.now) self.now }
        ensures { result.now ≡ undone_by (answer_in (map (λ l. l.items) lists.now) self.now) }
    {
        match self {
            Form::Undone { id, .. } => slice::from_ref(id),
            Form::RolledBack { list, .. } | Form::WentBack { list, .. } => {
                lists[*list as usize].as_slice()
            }
            _ => &[],
        }
    }
}

// The send of that value.
fn send(pair: Pair, value: Value) -> Command
    ensures { result ≡ commands.Forward (steps.Send pair.peer value) }
{
    Command::Forward(Forward::Send {
        to: pair.peer(),
        value,
    })
}

// The bytes of a name or a text.
fn cut(words: &[u8], start: u32, size: u32) -> &[u8]
    requires { start + size ≤ length words.now }
    ensures { result.now ≡ cut words.now start size }
{
    let from = start as usize;
    &words[from..from + size as usize]
}

// The name that stands there. Its bytes are tested once more, which always succeeds, since they were a name's.
fn name_at(words: &[u8], start: u32, size: u8) -> Name
    requires there { start + size ≤ length words.now }
    requires name { IsName (cut words.now start size) }
    ensures { result ≡ cut words.now start size }
{
    Name::read(cut(words, start, u32::from(size))).unwrap()
}

// The text that stands there, copied; its bytes are tested once more, likewise. It fails only when out of memory.
fn text_at(words: &[u8], start: u32, size: u32, alloc: Global) -> Result<Text, AllocError>
    requires there { start + size ≤ length words.now }
    requires text { IsText (cut words.now start size) }
    ensures { IfOk result (λ text. text ≡ cut words.now start size) }
{
    let bytes = Vec::from_slice(alloc, cut(words, start, size))?;
    Ok(Text::new(bytes).unwrap())
}
