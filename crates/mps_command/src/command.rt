//! What participants ask for.
ghost use Rattle.std.specs.Prelude.{◌≡◌, IfOk};

use mps_base::{Name, Role, StepId, Value};
use std::alloc::{AllocError, Global};

/// A step that a role wants to take.
#[derive(Debug, Drop)]
pub enum Forward {
    /// Give the peer a value.
    Send { to: Role, value: Value },
    /// Choose the branch of the label, and tell the peer.
    Choose { to: Role, label: Name },
    /// Take the value that came first from the peer, and keep it in the slot.
    Receive { from: Role, slot: Name },
    /// Take the label that came first from the peer, and go into its branch.
    Pick { from: Role },
    /// Leave a checkpoint, to which the role can go back.
    Mark { name: Name },
    /// Make this step, and with it all that it depends on, final: nothing takes it back.
    Commit,
}

impl Forward {
    /// A copy that shares nothing with the step. Only a send of a text allocates; it fails only when out of memory.
    pub fn copy(&self, alloc: Global) -> Result<Forward, AllocError>
        ensures { IfOk result (λ command. command ≡ self.now) }
    {
        Ok(match self {
            Forward::Send { to, value } => Forward::Send {
                to: *to,
                value: value.copy(alloc)?,
            },
            Forward::Choose { to, label } => Forward::Choose {
                to: *to,
                label: *label,
            },
            Forward::Receive { from, slot } => Forward::Receive {
                from: *from,
                slot: *slot,
            },
            Forward::Pick { from } => Forward::Pick { from: *from },
            Forward::Mark { name } => Forward::Mark { name: *name },
            Forward::Commit => Forward::Commit,
        })
    }
}

/// What a role asks for that may change the session.
#[derive(Debug, Drop)]
pub enum Change {
    /// Take a step.
    Forward(Forward),
    /// Take back the role's own step of that number, on which no other depends.
    Undo(StepId),
    /// Take back the role's own step of that number, and all that depend on it.
    Rollback(StepId),
    /// Take back all that the role did after its last mark of that name, and all that depends on it.
    Back(Name),
}

impl Change {
    /// A copy that shares nothing with the change. Only a send of a text allocates; it fails only when out of memory.
    pub fn copy(&self, alloc: Global) -> Result<Change, AllocError>
        ensures { IfOk result (λ change. change ≡ self.now) }
    {
        Ok(match self {
            Change::Forward(step) => Change::Forward(step.copy(alloc)?),
            Change::Undo(id) => Change::Undo(*id),
            Change::Rollback(id) => Change::Rollback(*id),
            Change::Back(mark) => Change::Back(*mark),
        })
    }
}

/// What a role asks of a room.
#[derive(Debug, Drop)]
pub enum Command {
    /// Take a step.
    Forward(Forward),
    /// Take back the role's own step of that number, on which no other depends.
    Undo(StepId),
    /// Take back the role's own step of that number, and all that depend on it.
    Rollback(StepId),
    /// Take back all that the role did after its last mark of that name, and all that depends on it.
    Back(Name),
    /// Tell which of the role's steps others took back after that many entries of the journal.
    News(u64),
    /// Show the session.
    Show,
    /// Tell how the role itself stands.
    Stand,
}

impl Command {
    /// A copy that shares nothing with the command. Only a send of a text allocates; it fails only when out of memory.
    pub fn copy(&self, alloc: Global) -> Result<Command, AllocError>
        ensures { IfOk result (λ command. command ≡ self.now) }
    {
        Ok(match self {
            Command::Forward(step) => Command::Forward(step.copy(alloc)?),
            Command::Undo(id) => Command::Undo(*id),
            Command::Rollback(id) => Command::Rollback(*id),
            Command::Back(mark) => Command::Back(*mark),
            Command::News(known) => Command::News(*known),
            Command::Show => Command::Show,
            Command::Stand => Command::Stand,
        })
    }
}
