//! The roles of a session.
ghost use Rattle.std.specs.Prelude.{◌≡◌, ◌≢◌, ℕ, ◌<◌, ◌≤◌, ◌↔◌, Option, Some, List, length, All, IsTrue, IsSome};
ghost use Rattle.std.specs.Prelude.{IsErrOf, IfOk, IfSome, IfNone, OnOk, slice_get};
ghost use Rattle.mps_base.specs.Names.{IsName};
ghost use Rattle.mps_base.specs.RoleLists.{HasRoleCount, AreDistinct, AreRoles};

use crate::action::Role;
use crate::name::Name;
use std::alloc::{AllocError, Global};
use std::marker::Model;
use thiserror::Error;

/// How many roles a session has at least.
pub const MIN_ROLES: usize = 2;

/// How many roles a session has at most.
pub const MAX_ROLES: usize = 8;

/// Why names are not the roles of a session.
#[derive(Clone, Copy, Debug, PartialEq, Eq, Error)]
pub enum RoleFault {
    #[error("a session has 2 to 8 roles")]
    RoleCount,
    #[error("two roles have the same name")]
    DoubleRole,
    #[error("out of memory")]
    Memory,
}

/// The roles of a session: 2 to 8 distinct names, in order.
#[derive(Debug, Drop)]
pub struct Roles {
    names: Vec<Name>,
}

impl Model for Roles {
    ghost use Rattle.std.specs.Prelude.{ℕ, List};
    ghost use Rattle.mps_base.specs.RoleLists.{AreRoles};

    ghost Value = { List (List ℕ) };

    ghost view = { λ r. r.names.items };

    ghost invariant = { λ r. AreRoles r.names.items };
}

impl Roles {
    /// Makes the roles of a session from names, which are copied and keep their order. The first that applies is the
    /// error: not 2 to 8 names, two the same, out of memory.
    pub fn of(alloc: Global, names: &[Name]) -> Result<Roles, RoleFault>
        ensures roles { IfOk result (λ roles. roles ≡ names.now) }
        ensures accepted { OnOk result (AreRoles names.now) }

        ensures count { IsErrOf result RoleFault.RoleCount ↔ ¬ HasRoleCount names.now }
        ensures double { IsErrOf result RoleFault.DoubleRole
            ↔ (HasRoleCount names.now × ¬ AreDistinct names.now) }
        ensures memory { IsErrOf result RoleFault.Memory → AreRoles names.now }
    {
        if names.len() < MIN_ROLES || names.len() > MAX_ROLES {
            return Err(RoleFault::RoleCount);
        }
        if !are_distinct(names) {
            return Err(RoleFault::DoubleRole);
        }
        let names = Vec::from_slice(alloc, names).map_err(|_| RoleFault::Memory)?;
        Ok(Roles { names })
    }

    /// How many roles there are, 2 to 8. O(1). The clause `distinct` says for callers' proofs that no two have one
    /// name.
    pub fn count(&self) -> usize
        ensures count { result ≡ length self.now }
        ensures some { 2 ≤ result }
        ensures few { result ≤ 8 }
        ensures distinct { AreDistinct self.now }
    {
        self.names.len()
    }

    /// The role of that name, or `None` where no role has it: `find_spelled` for callers that have a `Name`. At most 8
    /// names are compared; it does not allocate.
    pub fn find(&self, name: &Name) -> Option<Role>
        ensures found { IfSome result (λ role. slice_get self.now role ≡ Some name.now) }
        ensures none { IfNone result (All (λ other. other ≢ name.now) self.now) }
        ensures only { (role : ℕ) → slice_get self.now role ≡ Some name.now → result ≡ Some role }
    {
        self.find_spelled(name.as_bytes())
    }

    /// The role whose name these bytes spell, or `None`. The bytes may be any, so a reader of lines needs no `Name` of
    /// them first. At most 8 names are compared; it does not allocate.
    #[tactic(auto, using(crate::proofs::RoleLists::one_place, crate::proofs::RoleLists::no_place))]
    pub fn find_spelled(&self, bytes: &[u8]) -> Option<Role>
        ensures name { IsSome result → IsName bytes.now }
        ensures found { IfSome result (λ role. slice_get self.now role ≡ Some bytes.now) }
        ensures none { IfNone result (All (λ other. other ≢ bytes.now) self.now) }
        ensures only { (role : ℕ) → slice_get self.now role ≡ Some bytes.now → result ≡ Some role }
    {
        let place = find_name(&self.names, bytes)?;
        // looked at for the proof alone, which then knows that the bytes are a name's
        let _name = self.names[place].as_bytes();
        // there are at most 8, so the place fits
        Some(Role::new(place as u8))
    }

    /// The name of a role, which has to be one of these; it is copied, and does not allocate.
    pub fn name(&self, role: Role) -> Name
        requires { role < length self.now }
        ensures { slice_get self.now role ≡ Some result }
    {
        self.names[role.index()]
    }

    /// A copy of the names in memory of its own, at most 8. It fails only when out of memory.
    pub fn copy(&self, alloc: Global) -> Result<Roles, AllocError>
        ensures { IfOk result (λ roles. roles ≡ self.now) }
    {
        Ok(Roles {
            names: Vec::from_slice(alloc, &self.names)?,
        })
    }
}

// The place of the first name that these bytes spell, or `None`. Apart, since `find_spelled` and `are_distinct` both
// use it.
fn find_name(names: &[Name], bytes: &[u8]) -> Option<usize>
    ensures found { IfSome result (λ place. slice_get names.now place ≡ Some bytes.now) }
    ensures none { IfNone result (All (λ other. other ≢ bytes.now) names.now) }
{
    names.iter().position(|name| name.is_spelled(bytes))
}

// Whether no name stands twice: each is compared with those after it, 28 comparisons for 8 names. The recursion is at
// most 9 deep then.
fn are_distinct(names: &[Name]) -> bool
    ensures { IsTrue result ↔ AreDistinct names.now }
{
    match names {
        [] => true,
        [first, rest @ ..] => find_name(rest, first.as_bytes()).is_none() && are_distinct(rest),
    }
}
