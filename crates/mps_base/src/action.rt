//! What participants do: messages, acts and numbered steps.
ghost use Rattle.std.specs.Prelude.{◌≡◌, ◌<◌, ◌^◌, ◌==◌, nat_lt, IfOk};

use crate::name::Name;
use crate::value::Value;
use std::alloc::{AllocError, Global};
use std::marker::Model;

/// A role of a session, by its place in the list of roles, from 0.
#[derive(Clone, Copy, Debug, PartialEq, Eq, PartialOrd, Ord, Hash)]
pub struct Role(
    // as wide as a word: a byte would leave gaps in each value that holds a role, and each move would carry them
    usize,
);

impl Model for Role {
    ghost use Rattle.std.specs.Prelude.{ℕ, ◌<◌, ◌^◌};

    ghost Value = { ℕ };

    ghost view = { λ r. r.0 };

    ghost invariant = { λ r. r.0 < 2 ^ 8 };

    ghost inverse = { λ n. record { 0 = n } };
}

impl Role {
    /// The role at this place, from 0. Any byte is taken: a session has at most 8 roles, and may have no such role.
    pub const fn new(index: u8) -> Role
        ensures { result ≡ index }
    {
        Role(index as usize)
    }

    /// The place of the role in the session's list of roles, from 0, as an index of arrays; below 256.
    pub fn index(self) -> usize
        ensures place { result ≡ self }
        ensures small { result < 2 ^ 8 }
    {
        self.0
    }

    /// Whether both are the same role: `==` on copies, so that callers need no references.
    pub fn is(self, other: Role) -> bool
        ensures { result ≡ (self == other) }
    {
        self.0 == other.0
    }
}

/// The number of a step: 1 for a session's first, and never used again.
#[derive(Clone, Copy, Debug, PartialEq, Eq, PartialOrd, Ord, Hash)]
pub struct StepId(u64);

impl Model for StepId {
    ghost use Rattle.std.specs.Prelude.{ℕ};

    ghost Value = { ℕ };

    ghost view = { λ s. s.0 };

    ghost inverse = { λ n. record { 0 = n } };
}

impl StepId {
    /// The step of this number. Any number is taken: a session may have no such step, and none has the number 0.
    pub const fn new(number: u64) -> StepId
        ensures { result ≡ number }
    {
        StepId(number)
    }

    /// The number as an integer, as it is shown and written: 1 for the first step that a session accepts.
    pub fn number(self) -> u64
        ensures number { result ≡ self }
        ensures small { result < 2 ^ 64 }
    {
        self.0
    }

    /// Whether both are the same number: `==` on copies, so that callers need no references.
    pub fn is(self, other: StepId) -> bool
        ensures { result ≡ (self == other) }
    {
        self.0 == other.0
    }

    /// Whether this number is smaller than the other. Numbers rise in the order of acceptance, so within one session
    /// this says whether the step was accepted earlier.
    pub fn is_before(self, other: StepId) -> bool
        ensures { result ≡ nat_lt self other }
    {
        self.0 < other.0
    }
}

/// What a queue holds: a value, or the label of a choice.
#[derive(Debug, Drop)]
pub enum Message {
    Value(Value),
    Label(Name),
}

impl Message {
    /// A copy that shares nothing with the message. Only a text allocates, at most 256 bytes; it fails only when out of
    /// memory.
    pub fn copy(&self, alloc: Global) -> Result<Message, AllocError>
        ensures { IfOk result (λ message. message ≡ self.now) }
    {
        Ok(match self {
            Message::Value(value) => Message::Value(value.copy(alloc)?),
            Message::Label(label) => Message::Label(*label),
        })
    }
}

/// What a role did. A receipt without a slot is a pick: it took a label. A commit is a step that nothing takes back.
#[derive(Debug, Drop)]
pub enum Act {
    Out { to: Role, message: Message },
    In { from: Role, slot: Option<Name> },
    Mark(Name),
    Commit,
}

impl Act {
    /// A copy that shares nothing with the act. Only an act with a text allocates, at most 256 bytes; it fails only
    /// when out of memory.
    pub fn copy(&self, alloc: Global) -> Result<Act, AllocError>
        ensures { IfOk result (λ act. act ≡ self.now) }
    {
        Ok(match self {
            Act::Out { to, message } => Act::Out {
                to: *to,
                message: message.copy(alloc)?,
            },
            Act::In { from, slot } => Act::In {
                from: *from,
                slot: *slot,
            },
            Act::Mark(mark) => Act::Mark(*mark),
            Act::Commit => Act::Commit,
        })
    }
}

/// An accepted act, with its number and the role whose act it is.
#[derive(Debug, Drop)]
pub struct Step {
    pub id: StepId,
    pub role: Role,
    pub act: Act,
}

impl Step {
    /// A copy of the step, with the same number and role. Only a step with a text allocates, at most 256 bytes; it
    /// fails only when out of memory.
    pub fn copy(&self, alloc: Global) -> Result<Step, AllocError>
        ensures { IfOk result (λ step. step ≡ self.now) }
    {
        Ok(Step {
            id: self.id,
            role: self.role,
            act: self.act.copy(alloc)?,
        })
    }
}
