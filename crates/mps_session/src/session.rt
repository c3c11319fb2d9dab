//! The session.
ghost use Rattle.std.specs.Prelude.{◌≡◌, ◌↔◌, ℕ, map, IfOk, IsErrOf, OnOk};
ghost use Rattle.mps_base.specs.RoleLists.{HasRoleCount};
ghost use Rattle.mps_local.specs.Local.{plain};
ghost use Rattle.mps_local.specs.declared.faults.LocalFault.{LocalFault};
ghost use Rattle.mps_machine.specs.Machine as machine;
ghost use Rattle.mps_session.specs.Peers.{IsFirstBad, IsFirstFaulty, CanOpen};

use crate::configuration::Configuration;
use crate::open::{OpenFault, first_bad_peer, first_bad_peer_of_any_size, first_faulty, opening};
use mps_base::{MAX_ROLES, MIN_ROLES};
use mps_local::Local;
use std::alloc::Global;
use std::marker::Model;

/// How many numbers a session gives out at most, counting steps that were taken back; then steps are refused as `Full`,
/// and undos still accepted.
pub const MAX_NUMBERS: u64 = 100_000;

/// One conversation of 2 to 8 roles: their types, and the steps that they did.
#[derive(Drop)]
pub struct Session {
    pub(crate) types: Vec<Local>,
    pub(crate) configuration: Configuration,
}

impl Model for Session {
    ghost use Rattle.std.specs.Prelude.{map};
    ghost use Rattle.std.specs.Coded.{codes};
    ghost use Rattle.mps_local.specs.Local.{plain};
    ghost use Rattle.mps_local.specs.Private.Codes.{coded_local};
    ghost use Rattle.mps_session.specs.SessionState.{SessionState};

    ghost Value = { SessionState };

    ghost coded = { Prim.hlevel (codes, coded_local) };

    ghost use Rattle.mps_session.specs.Private.Configurations.{lists_of, state_of};
    ghost use Rattle.mps_session.specs.Private.Invariant.{IsAtRest};

    ghost view = { λ s. record { types = map plain s.types.items; state = state_of (lists_of s.configuration) } };

    ghost invariant = { λ s. IsAtRest (map plain s.types.items) (lists_of s.configuration) };
}

impl Session {
    /// A session before its first step, of any types, of any size: they needn't fit each other. The first that applies
    /// is the fault: the count of roles, a peer that a type names, another fault of a type, out of memory. The types
    /// are dropped then.
    pub fn open(alloc: Global, types: Vec<Local>) -> Result<Session, OpenFault>
        ensures opened { IfOk result (λ session. session
            ≡ record { types = map plain types.items; state = machine.initial }) }
        ensures can { OnOk result (CanOpen (map plain types.items)) }
        ensures count { IsErrOf result OpenFault.RoleCount
            ↔ ¬ HasRoleCount (map plain types.items) }
        ensures peer { (role : ℕ) → IsErrOf result (OpenFault.BadPeer role)
            → IsFirstBad (map plain types.items) role }
        ensures local { (role : ℕ) (fault : LocalFault) → IsErrOf result (OpenFault.Local role fault)
            → IsFirstFaulty (map plain types.items) role fault }
        ensures memory { IsErrOf result OpenFault.Memory → CanOpen (map plain types.items) }
    {
        let n = types.len();
        if n < MIN_ROLES || n > MAX_ROLES {
            return Err(OpenFault::RoleCount);
        }
        if let Some((role, fault)) = first_faulty(types.as_slice()) {
            // A bad peer is reported before any other fault. Such types may be too deep to recurse into, but no session
            // comes of them, so they may be taken apart.
            return Err(match first_bad_peer_of_any_size(types) {
                Some(role) => OpenFault::BadPeer { role },
                None => OpenFault::Local { role, fault },
            });
        }
        if let Some(role) = first_bad_peer(types.as_slice()) {
            return Err(OpenFault::BadPeer { role });
        }
        let configuration = opening(alloc, types.as_slice())?;
        Ok(Session {
            types,
            configuration,
        })
    }
}
