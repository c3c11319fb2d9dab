//! Sessions of protocols.
ghost use Rattle.std.specs.Prelude.{◌≡◌, None, map, IfOk, IfErr, OnOk};
ghost use Rattle.mps_fidelity.specs.Fidelity.{AreOfOneProtocol};
ghost use Rattle.mps_global.specs.Global.{plain as global_type};
ghost use Rattle.mps_global.specs.Faults.{fault_of};
ghost use Rattle.mps_local.specs.Local.{plain};
ghost use Rattle.mps_local.specs.Outcome.{AreProjections};
ghost use Rattle.mps_local.specs.declared.merging.Merging.TheVariants.{Plain};
ghost use Rattle.mps_machine.specs.Machine.{initial};
ghost use Rattle.mps_session.specs.Protocols.{of_projection, HasNoSession};
ghost use Rattle.mps_session.specs.declared.protocol.ProtocolFault.TheVariants.{Global as HasFault, Memory as OutOfMemory};

use crate::open::OpenFault;
use crate::session::Session;
use mps_base::Role;
use mps_global::{GlobalFault, Protocol, check};
use mps_local::{Local, Merging, ProjectFault, project_all_by};
use std::alloc::{AllocError, Global};
use thiserror::Error;

/// Why no session of a protocol is opened.
#[derive(Clone, Copy, Debug, PartialEq, Eq, Error)]
pub enum ProtocolFault {
    /// The protocol isn't well-formed.
    #[error("{0}")]
    Global(GlobalFault),
    /// The role, the first such, has no one type for the branches of a choice of others. Choices are
    /// counted in preorder, from 0.
    #[error("no one type of role {} stands for all branches of choice {choice}", role.index())]
    Unmergeable { role: Role, choice: usize },
    #[error("out of memory")]
    Memory,
}

impl From<GlobalFault> for ProtocolFault {
    ghost from_gives = { λ e fault. fault ≡ HasFault e };

    // Lets `?` turn a fault of `check` into this one.
    fn from(fault: GlobalFault) -> ProtocolFault {
        ProtocolFault::Global(fault)
    }
}

impl From<ProjectFault> for ProtocolFault {
    ghost from_gives = { λ e fault. fault ≡ of_projection e };

    // Lets `?` turn a fault of `project_all` into this one, case by case.
    fn from(fault: ProjectFault) -> ProtocolFault {
        match fault {
            ProjectFault::Unmergeable { role, choice } => ProtocolFault::Unmergeable {
                role,
                choice,
            },
            ProjectFault::Memory => ProtocolFault::Memory,
        }
    }
}

impl From<AllocError> for ProtocolFault {
    ghost from_gives = { λ _ fault. fault ≡ OutOfMemory };

    // Lets `?` turn a failed allocation into `Memory`.
    fn from(_: AllocError) -> ProtocolFault {
        ProtocolFault::Memory
    }
}

/// A session before its first step, of types that the caller has shown to be the projections of one protocol; no
/// command is ever refused with `Mismatch` there. Out of memory is the only error, and drops the types.
pub fn open_types(alloc: Global, types: Vec<Local>) -> Result<Session, AllocError>
    requires { AreOfOneProtocol (map plain types.items) }
    ensures { IfOk result (λ session. session ≡ record { types = map plain types.items; state = initial }) }
{
    match Session::open(alloc, types) {
        Ok(session) => Ok(session),
        Err(OpenFault::Memory) => Err(AllocError),
        // projections of one protocol have no such fault
        Err(OpenFault::RoleCount) => unreachable!(),
        Err(OpenFault::BadPeer { .. }) => unreachable!(),
        Err(OpenFault::Local { .. }) => unreachable!(),
    }
}

/// A session of the protocol before its first step: the protocol is checked, and each role's type is its projection by
/// plain merging. The error is the first fault, or `Memory` where memory ran out before one was found. No command is
/// ever refused with `Mismatch` there.
pub fn open_protocol(alloc: Global, protocol: &Protocol) -> Result<Session, ProtocolFault>
    ensures faultless { OnOk result
        (fault_of protocol.now.roles.items (global_type protocol.now.body) ≡ None) }
    ensures types { IfOk result (λ session. AreProjections Plain
        protocol.now.roles.items (global_type protocol.now.body) session.types) }
    ensures new { IfOk result (λ session. session.state ≡ initial) }
    ensures of_one_protocol { IfOk result (λ session. AreOfOneProtocol session.types) }
    ensures fault { IfErr result
        (HasNoSession Plain protocol.now.roles.items (global_type protocol.now.body)) }
{
    open_protocol_by(alloc, Merging::Plain, protocol)
}

/// `open_protocol` by the merging that is given.
pub fn open_protocol_by(
    alloc: Global,
    merging: Merging,
    protocol: &Protocol,
) -> Result<Session, ProtocolFault>
    ensures faultless { OnOk result
        (fault_of protocol.now.roles.items (global_type protocol.now.body) ≡ None) }
    ensures types { IfOk result (λ session. AreProjections merging
        protocol.now.roles.items (global_type protocol.now.body) session.types) }
    ensures new { IfOk result (λ session. session.state ≡ initial) }
    ensures of_one_protocol { IfOk result (λ session. AreOfOneProtocol session.types) }
    ensures fault { IfErr result
        (HasNoSession merging protocol.now.roles.items (global_type protocol.now.body)) }
{
    check(protocol)?;
    let types = project_all_by(alloc, merging, protocol)?;
    Ok(open_types(alloc, types)?)
}
