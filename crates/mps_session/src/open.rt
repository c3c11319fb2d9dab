//! Which types a session can be opened with.
ghost use Rattle.std.specs.Prelude.{◌≡◌, ◌↔◌, ◌≤◌, IsTrue, IfSome, IfNone, IfOk, length, map, vec_len};
ghost use Rattle.mps_local.specs.Local.{plain, plain_branches};
ghost use Rattle.mps_local.specs.Shape.{AllBranchPeers, IsOtherRole};
ghost use Rattle.mps_session.specs.Private.Configurations.{lists_of};
ghost use Rattle.mps_session.specs.Private.Opening.{IsOpening, AreStarts};
ghost use Rattle.mps_session.specs.Peers.{HasPeers, HavePeers, IsFirstBad, IsLeastFaulty, AreFaultless};
ghost use Rattle.mps_session.specs.declared.open.OpenFault.TheVariants.{Memory as OutOfMemory};

use crate::configuration::Configuration;
use crate::cursor::Cursor;
use mps_base::Role;
use mps_local::peers::is_other;
use mps_local::{Branches, Local, LocalFault, first_fault};
use mps_log::Log;
use mps_table::compile;
use std::alloc::{AllocError, Global};
use thiserror::Error;

/// Why a session can't be opened.
#[derive(Clone, Copy, Debug, PartialEq, Eq, Error)]
pub enum OpenFault {
    #[error("a session has 2 to 8 roles")]
    RoleCount,
    #[error("the type of role {} names itself or no role of the session", role.index())]
    BadPeer { role: Role },
    #[error("the type of role {}: {fault}", role.index())]
    Local { role: Role, fault: LocalFault },
    #[error("out of memory")]
    Memory,
}

impl From<AllocError> for OpenFault {
    ghost from_gives = { λ _ e. e ≡ OutOfMemory };

    // Lets `?` turn a failed allocation into `Memory`.
    fn from(_e: AllocError) -> OpenFault {
        OpenFault::Memory
    }
}

// Whether each peer that the role's type names is another of the `n` roles. The recursion is as deep as the type, so it
// is for types within the limits.
#[cycle(peers)]
fn has_peers(n: usize, role: usize, t: &Local) -> bool
    ensures { IsTrue result ↔ HasPeers n role (plain t.now) }
{
    match t {
        Local::End | Local::Var(_) => true,
        Local::Rec(_, body) => has_peers(n, role, body),
        Local::Send { peer, next, .. } | Local::Recv { peer, next, .. } => {
            is_other(n, role, *peer) && has_peers(n, role, next)
        }
        Local::Select { peer, branches } | Local::Branch { peer, branches } => {
            is_other(n, role, *peer) && have_peers(n, role, branches)
        }
    }
}

// `has_peers` for the types of a choice's branches: whether each peer that they name is another of the `n` roles.
#[cycle(peers)]
fn have_peers(n: usize, role: usize, branches: &Branches) -> bool
    ensures { IsTrue result ↔ AllBranchPeers (IsOtherRole n role) (plain_branches branches.now) }
{
    match branches {
        Branches::NoMore => true,
        Branches::More { next, others, .. } => {
            has_peers(n, role, next) && have_peers(n, role, others)
        }
    }
}

/// The least role whose type names itself or no role of the session, or `None`. For types without a fault, which have
/// at most 256 nodes: the recursion is no deeper, and the types stay.
pub(crate) fn first_bad_peer(types: &[Local]) -> Option<Role>
    requires few { length types.now ≤ 8 }
    requires faultless { AreFaultless (map plain types.now) }
    ensures bad { IfSome result (IsFirstBad (map plain types.now)) }
    ensures none { IfNone result (HavePeers (map plain types.now)) }
{
    let n = types.len();
    for (i, t) in types.iter().enumerate() {
        if !has_peers(n, i, t) {
            // there are at most 8 types, so the place fits
            return Some(Role::new(i as u8));
        }
    }
    None
}

/// `first_bad_peer` for types of any size, with faults or not: recursion could overflow the stack, so they are taken
/// apart in loops and dropped.
pub(crate) fn first_bad_peer_of_any_size(mut types: Vec<Local>) -> Option<Role>
    requires { vec_len types ≤ 8 }
    ensures bad { IfSome result (IsFirstBad (map plain types.items)) }
    ensures none { IfNone result (HavePeers (map plain types.items)) }
{
    let count = types.len();
    let mut found = None;
    // from the last type on, so what is found last is the least
    while let Some(t) = types.pop() {
        let role = types.len();
        if !t.names_others(count, role) {
            // there are at most 8 types, so the place fits
            found = Some(Role::new(role as u8));
        }
    }
    found
}

/// The least role whose type has a fault, with the type's first fault, or `None`. The types may be of any size; it does
/// not allocate.
pub(crate) fn first_faulty(types: &[Local]) -> Option<(Role, LocalFault)>
    requires { length types.now ≤ 8 }
    ensures faulty { IfSome result (λ r. IsLeastFaulty (map plain types.now) r.0 r.1) }
    ensures none { IfNone result (AreFaultless (map plain types.now)) }
{
    for (i, t) in types.iter().enumerate() {
        if let Some(fault) = first_fault(t) {
            // there are at most 8 types, so the place fits
            return Some((Role::new(i as u8), fault));
        }
    }
    None
}

/// The configuration before the first step: each role at the first node of its table, and an empty log. The types have
/// no fault, so out of memory is the only error.
pub(crate) fn opening(alloc: Global, types: &[Local]) -> Result<Configuration, AllocError>
    requires faultless { AreFaultless (map plain types.now) }
    requires few { length types.now ≤ 8 }
    ensures { IfOk result (λ c. IsOpening (map plain types.now) (lists_of c)) }
{
    Ok(Configuration {
        cursors: cursors(alloc, types)?,
        log: Log::new(alloc)?,
        alloc,
    })
}

// For each type, in order, its table and first node. The types have no fault, so out of memory is the only error;
// tables made so far are dropped.
fn cursors(alloc: Global, types: &[Local]) -> Result<Vec<Cursor>, AllocError>
    requires faultless { AreFaultless (map plain types.now) }
    ensures { IfOk result (λ all. AreStarts (map plain types.now) all.items) }
{
    let mut all = Vec::with_capacity(alloc, types.len())?;
    for t in types {
        // the types have no fault, so memory ran out
        let Ok(table) = compile(alloc, t) else {
            return Err(AllocError);
        };
        let node = table.first();
        all.push(Cursor { table, node })?;
    }
    Ok(all)
}
