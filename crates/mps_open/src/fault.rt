//! Why a text gives no session.
ghost use Rattle.std.specs.Prelude.{◌≡◌};
ghost use Rattle.mps_open.specs.declared.fault.Fault.TheVariants.{Memory as OutOfMemory, Protocol as InProtocol};
ghost use Rattle.mps_open.specs.Faults.{number_of, of_text, place_of, protocol_number, text_number};

use mps_base::{Name, Role};
use mps_global::GlobalFault;
use mps_text::{TextFault, TextKind};
use std::alloc::AllocError;
use thiserror::Error;

/// Why a text gives no session.
#[derive(Clone, Copy, Debug, PartialEq, Eq, Error)]
pub enum Fault {
    /// The text has this fault, the first one, at that byte.
    #[error("at byte {at}: {kind}")]
    Text {
        at: usize,
        kind: TextKind,
    },
    /// The protocol has this fault, the first one.
    #[error("{0}")]
    Protocol(GlobalFault),
    /// The role, the first such, has no one type for the branches of that choice of others. Choices are counted in
    /// preorder, from 0.
    #[error("no one type of role {} stands for all branches of choice {choice}", role.index())]
    Projection {
        role: Role,
        /// The role's name.
        name: Name,
        choice: usize,
    },
    /// Memory ran out.
    #[error("out of memory")]
    Memory,
}

impl From<AllocError> for Fault {
    ghost from_gives = { λ _ fault. fault ≡ OutOfMemory };

    // Lets `?` turn a failed allocation into `Memory`.
    fn from(_: AllocError) -> Fault {
        Fault::Memory
    }
}

impl From<TextFault> for Fault {
    ghost from_gives = { λ f fault. fault ≡ of_text f.at f.kind };

    // Lets `?` turn a fault of the text into this one; out of memory is `Memory`, without a byte.
    fn from(fault: TextFault) -> Fault {
        match fault.kind {
            TextKind::Memory => Fault::Memory,
            kind => Fault::Text { at: fault.at, kind },
        }
    }
}

impl From<GlobalFault> for Fault {
    ghost from_gives = { λ f fault. fault ≡ InProtocol f };

    // Lets `?` turn a fault of `check` into this one.
    fn from(fault: GlobalFault) -> Fault {
        Fault::Protocol(fault)
    }
}

impl Fault {
    /// The number of the fault, for callers that have no enums: 1 for memory, 16 to 21 for a text, 32 to 43 for a
    /// protocol, and 48 plus the role's place, from 0, for a projection. Within each group in the order of
    /// docs/FORMATS.md.
    pub fn number(&self) -> u32
        ensures { result ≡ number_of self.now }
    {
        match self {
            Fault::Memory => 1,
            Fault::Text { kind, .. } => text_number(*kind),
            Fault::Protocol(fault) => protocol_number(*fault),
            Fault::Projection { role, .. } => 48 + role.index() as u32,
        }
    }

    /// Where the fault is: for a text the byte, from 0; for a projection the choice, in preorder from 0; else 0. The
    /// second of the two numbers that callers in C get, after `number`.
    pub fn place(&self) -> u64
        ensures { result ≡ place_of self.now }
    {
        match self {
            Fault::Text { at, .. } => *at as u64,
            Fault::Projection { choice, .. } => *choice as u64,
            Fault::Protocol(_) | Fault::Memory => 0,
        }
    }
}

// The number of a text's fault, 16 to 21; lack of memory has 1 wherever it comes up.
fn text_number(kind: TextKind) -> u32
    ensures { result ≡ text_number kind }
{
    match kind {
        TextKind::TooLong => 16,
        TextKind::Word => 17,
        TextKind::Unexpected => 18,
        TextKind::TooManyNodes => 19,
        TextKind::TooDeep => 20,
        TextKind::Trailing => 21,
        TextKind::Memory => 1,
    }
}

// The number of a protocol's fault, 32 to 43, in the order of `GlobalFault`.
fn protocol_number(fault: GlobalFault) -> u32
    ensures { result ≡ protocol_number fault }
{
    match fault {
        GlobalFault::RoleCount => 32,
        GlobalFault::DoubleRole => 33,
        GlobalFault::TooManyNodes => 34,
        GlobalFault::TooDeep => 35,
        GlobalFault::UnknownRole => 36,
        GlobalFault::SelfMessage => 37,
        GlobalFault::DoubleLabel => 38,
        GlobalFault::TooManyBranches => 39,
        GlobalFault::NoBranches => 40,
        GlobalFault::Unbound => 41,
        GlobalFault::Shadowed => 42,
        GlobalFault::Unguarded => 43,
    }
}
