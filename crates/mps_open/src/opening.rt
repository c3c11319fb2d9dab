//! What the sessions of a protocol begin with.
ghost use Rattle.std.specs.Prelude.{◌≡◌, map, None, IfOk, IfErr};
ghost use Rattle.std.specs.Coded.{codes};
ghost use Rattle.mps_fidelity.specs.Fidelity.{AreOfOneProtocol};
ghost use Rattle.mps_global.specs.Global.{plain as global_type};
ghost use Rattle.mps_global.specs.Faults.{fault_of};
ghost use Rattle.mps_local.specs.Local.{plain};
ghost use Rattle.mps_local.specs.Outcome.{AreNotAll, AreProjections};
ghost use Rattle.mps_local.specs.Private.Codes.{coded_local};
ghost use Rattle.mps_local.specs.declared.merging.Merging.TheVariants.{Plain};
ghost use Rattle.mps_machine.specs.Machine.{initial};
ghost use Rattle.mps_open.specs.Faults.{GivesNoOpening, GivesNoSession};
ghost use Rattle.mps_open.specs.Texts.{AreTypesOf, IsProtocolText};

use crate::fault::Fault;
use mps_base::{RoleFault, Roles};
use mps_global::{Protocol, check};
use mps_local::{Local, Merging, ProjectFault, copy_all, project_all_by};
use mps_session::{Session, open_types};
use mps_text::read_protocol;
use std::alloc::{AllocError, Global};

/// A protocol without faults, each role of which has a type: what its sessions begin with.
#[derive(Drop)]
pub struct Opening {
    pub protocol: Protocol,
    /// The names of its roles.
    pub roles: Roles,
    /// How its choices were merged for roles that take no part in them.
    pub merging: Merging,
    /// The type of each role, in order.
    pub types: Vec<Local>,
    ghost faultless: { fault_of protocol.roles.items (global_type protocol.body) ≡ None },
    ghost named: { roles ≡ protocol.roles.items },
    ghost projected: { AreProjections merging protocol.roles.items (global_type protocol.body) (map plain types.items) } by { Prim.hlevel (codes, coded_local) },
}

// The roles of a protocol without faults, whose names are 2 to 8 and distinct, as `check` found. So out of memory is
// the only error.
fn roles_of(alloc: Global, protocol: &Protocol) -> Result<Roles, AllocError>
    requires { fault_of protocol.now.roles.items (global_type protocol.now.body) ≡ None }
    ensures { IfOk result (λ roles. roles ≡ protocol.now.roles.items) }
{
    match Roles::of(alloc, protocol.roles.as_slice()) {
        Ok(roles) => Ok(roles),
        Err(RoleFault::Memory) => Err(AllocError),
        // a protocol without faults has 2 to 8 roles of different names
        Err(RoleFault::RoleCount) => unreachable!(),
        Err(RoleFault::DoubleRole) => unreachable!(),
    }
}

// The `Fault` of a failed projection: `Memory`, or the role, with its name, that has no projection. Apart from a
// `From`, since the name is looked up in the protocol.
fn unprojected(merging: Merging, protocol: &Protocol, fault: ProjectFault) -> Fault
    requires faultless { fault_of protocol.now.roles.items (global_type protocol.now.body) ≡ None }
    requires fault { AreNotAll merging protocol.now.roles.items (global_type protocol.now.body) fault }
    ensures { GivesNoOpening merging protocol.now.roles.items (global_type protocol.now.body) result }
{
    match fault {
        ProjectFault::Memory => Fault::Memory,
        ProjectFault::Unmergeable { role, choice } => Fault::Projection {
            role,
            name: protocol.roles[role.index()],
            choice,
        },
    }
}

impl Opening {
    /// Checks the protocol, and projects it to each of its roles by that kind of merging: what all of its sessions share,
    /// made once. The error is the first fault, or `Memory` where memory ran out before one was found; the protocol is
    /// dropped then.
    pub fn of(alloc: Global, merging: Merging, protocol: Protocol) -> Result<Opening, Fault>
        ensures protocol { IfOk result (λ opening. opening.protocol ≡ protocol) }
        ensures merging { IfOk result (λ opening. opening.merging ≡ merging) }
        ensures fault { IfErr result (GivesNoOpening merging protocol.roles.items (global_type protocol.body)) }
    {
        check(&protocol)?;
        let types = match project_all_by(alloc, merging, &protocol) {
            Ok(types) => types,
            Err(fault) => return Err(unprojected(merging, &protocol, fault)),
        };
        let roles = roles_of(alloc, &protocol)?;
        Ok(Opening {
            protocol,
            roles,
            merging,
            types,
        })
    }

    /// `Opening::of` of the protocol that the text spells, at most 65,536 bytes. Faults of the text come first, then
    /// those of the protocol.
    pub fn of_text(alloc: Global, merging: Merging, text: &[u8]) -> Result<Opening, Fault>
        ensures read { IfOk result (λ opening.
            IsProtocolText text.now opening.protocol.roles.items (global_type opening.protocol.body)) }
        ensures merging { IfOk result (λ opening. opening.merging ≡ merging) }
        ensures types { IfOk result
            (λ opening. AreTypesOf merging text.now opening.roles (map plain opening.types.items)) }
        ensures fault { IfErr result (GivesNoSession merging text.now) }
    {
        let protocol = read_protocol(alloc, text)?;
        Opening::of(alloc, merging, protocol)
    }

    /// A new session of the protocol, with copies of the types, so that more can be opened. It fails only when out of
    /// memory. No command is ever refused with `Mismatch` there.
    pub fn session(&self, alloc: Global) -> Result<Session, AllocError>
        ensures new { IfOk result (λ s. s ≡ record { types = map plain self.now.types.items; state = initial }) }
        ensures of_one_protocol { IfOk result (λ s. AreOfOneProtocol s.types) }
    {
        open_types(alloc, copy_all(alloc, &self.types)?)
    }

    /// The names of the roles, and the only session of the protocol, which takes the types in place of copies. It fails
    /// only when out of memory, and drops all then.
    pub fn into_session(self, alloc: Global) -> Result<(Roles, Session), AllocError>
        ensures roles { IfOk result (λ r. r.0 ≡ self.roles) }
        ensures new { IfOk result (λ r. r.1 ≡ record { types = map plain self.types.items; state = initial }) }
        ensures of_one_protocol { IfOk result (λ r. AreOfOneProtocol r.1.types) }
    {
        let Opening {
            protocol: _,
            roles,
            merging: _,
            types,
        } = self;
        let session = open_types(alloc, types)?;
        Ok((roles, session))
    }
}

/// The roles and a new session of the protocol that the text spells, by plain merging. The first fault is returned. No
/// command is ever refused with `Mismatch` there.
pub fn open_text(alloc: Global, text: &[u8]) -> Result<(Roles, Session), Fault>
    ensures types { IfOk result (λ r. AreTypesOf Plain text.now r.0 r.1.types) }
    ensures new { IfOk result (λ r. r.1.state ≡ initial) }
    ensures of_one_protocol { IfOk result (λ r. AreOfOneProtocol r.1.types) }
    ensures fault { IfErr result (GivesNoSession Plain text.now) }
{
    open_text_by(alloc, Merging::Plain, text)
}

/// `open_text` by the merging that is given, which is `Opening::of_text` and `into_session` in one.
pub fn open_text_by(alloc: Global, merging: Merging, text: &[u8]) -> Result<(Roles, Session), Fault>
    ensures types { IfOk result (λ r. AreTypesOf merging text.now r.0 r.1.types) }
    ensures new { IfOk result (λ r. r.1.state ≡ initial) }
    ensures of_one_protocol { IfOk result (λ r. AreOfOneProtocol r.1.types) }
    ensures fault { IfErr result (GivesNoSession merging text.now) }
{
    let opening = Opening::of_text(alloc, merging, text)?;
    Ok(opening.into_session(alloc)?)
}
