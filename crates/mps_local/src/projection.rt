//! What one role of a protocol does in it.
ghost use Rattle.std.specs.Prelude.{◌≡◌, ◌+◌, ◌<◌, ◌≤◌, ◌∷◌, ℕ, suc, List, Option, Some, None, length, map, IsTrue};
ghost use Rattle.std.specs.Prelude.{IfOk, IfErr, IsSome, MatchOption, position};
ghost use Rattle.std.specs.List.{AllByRecursion};
ghost use Rattle.std.specs.Str.{bytes_eq};
ghost use Rattle.mps_global.specs.Global.{GlobalType, plain as global_type, plain_branches as global_branches};
ghost use Rattle.mps_global.specs.Faults.{node_count as global_nodes, depth as global_depth, fault_of};
ghost use Rattle.mps_local.specs.Local.{LocalType, plain, plain_branches};
ghost use Rattle.mps_local.specs.Merged.{IsUnmergeable};
ghost use Rattle.mps_local.specs.Projection.{place_of, with_message, with_choice, projection, projections};
ghost use Rattle.mps_local.specs.Projection.{choice_count, branch_choices, examined, examined_in, first_unmerged};
ghost use Rattle.mps_local.specs.Shape.{node_count, depth, AllPeers, IsOtherRole};
ghost use Rattle.mps_local.specs.Outcome.{IsUnmerged, AreProjections, AreNotAll};
ghost use Rattle.mps_local.specs.Private.Outcome.{IsDone, AreDone, AreUnmerged};
ghost use Rattle.mps_local.specs.declared.merging.Merging.{Merging as MergingKind};
ghost use Rattle.mps_local.specs.declared.merging.Merging.TheVariants.{Plain};

use crate::loops::{choice_count, is_idle};
use crate::merging::{MergeFault, Merging, merged};
use crate::{Branches, Local};
use mps_base::{Name, Role, Sort};
use mps_global::{Global, Protocol};
use std::alloc::{self, AllocError, AllocFailed};
use thiserror::Error;

/// Why a protocol is not projected.
#[derive(Clone, Copy, Debug, PartialEq, Eq, Error)]
pub enum ProjectFault {
    /// No type of the role stands for each branch of a choice of others. Choices are counted in
    /// preorder, from 0.
    #[error("no one type of a role stands for all branches of choice {choice}")]
    Unmergeable { role: Role, choice: usize },
    #[error("out of memory")]
    Memory,
}

impl From<AllocError> for ProjectFault {
    ghost use Rattle.mps_local.specs.declared.projection.ProjectFault.TheVariants.{Memory};

    ghost from_gives = { λ _ fault. fault ≡ Memory };

    // Lets `?` turn a failed allocation into `Memory`.
    fn from(_: AllocError) -> ProjectFault {
        ProjectFault::Memory
    }
}

impl<T: Drop> From<AllocFailed<T>> for ProjectFault {
    ghost use Rattle.mps_local.specs.declared.projection.ProjectFault.TheVariants.{Memory};

    ghost from_gives = { λ _ fault. fault ≡ Memory };

    // Lets `?` turn a failed allocation into `Memory`; what the allocation gives back is dropped.
    fn from(_: AllocFailed<T>) -> ProjectFault {
        ProjectFault::Memory
    }
}

/// The projection of a protocol without faults to the role (Honda, Yoshida, Carbone 2008), by plain merging: the
/// branches of a choice of others have to project to equal types. `Unmergeable` names the role and the first choice
/// where they don't. The stack grows with the levels of the tree, of which there are at most 64.
pub fn project(alloc: alloc::Global, protocol: &Protocol, role: Role) -> Result<Local, ProjectFault>
    requires well_formed { fault_of protocol.now.roles.items (global_type protocol.now.body) ≡ None }
    requires in_session { role < length protocol.now.roles.items }
    ensures ok { IfOk result
        (λ t. projection Plain protocol.now.roles.items role (global_type protocol.now.body)
        ≡ Some (plain t)) }
    ensures peers { IfOk result
        (λ t. AllPeers (λ peer. peer < length protocol.now.roles.items) (plain t)) }
    // It is refused only where there is no projection or no memory.
    ensures fault { IfErr result
        (IsUnmerged Plain protocol.now.roles.items role 0 (global_type protocol.now.body)) }
{
    project_by(alloc, Merging::Plain, protocol, role)
}

/// `project` by the merging that is given. By full merging the branches of a choice of others have to project to types
/// that one type stands for, which picks among the labels of all (Deniélou, Yoshida, ESOP 2012).
pub fn project_by(
    alloc: alloc::Global,
    merging: Merging,
    protocol: &Protocol,
    role: Role,
) -> Result<Local, ProjectFault>
    requires well_formed { fault_of protocol.now.roles.items (global_type protocol.now.body) ≡ None }
    requires in_session { role < length protocol.now.roles.items }
    ensures ok { IfOk result
        (λ t. projection merging protocol.now.roles.items role (global_type protocol.now.body)
        ≡ Some (plain t)) }
    ensures peers { IfOk result
        (λ t. AllPeers (λ peer. peer < length protocol.now.roles.items) (plain t)) }
    // It is refused only where there is no projection or no memory.
    ensures fault { IfErr result
        (IsUnmerged merging protocol.now.roles.items role 0 (global_type protocol.now.body)) }
{
    // how many choices the protocol has isn't needed
    let (local, _) = project_tree(alloc, merging, &protocol.roles, &protocol.body, role, 0)?;
    Ok(local)
}

/// The projections of a protocol without faults to all of its roles, in their order, by plain merging. The first role
/// without a projection is named, with the choice. After an error the types made so far are dropped.
pub fn project_all(alloc: alloc::Global, protocol: &Protocol) -> Result<Vec<Local>, ProjectFault>
    requires { fault_of protocol.now.roles.items (global_type protocol.now.body) ≡ None }
    ensures ok { IfOk result (λ types. AreProjections Plain
        protocol.now.roles.items (global_type protocol.now.body) (map plain types.items)) }
    ensures peers { IfOk result (λ types. AllByRecursion
        (AllPeers (λ peer. peer < length protocol.now.roles.items)) (map plain types.items)) }
    ensures fault { IfErr result
        (AreNotAll Plain protocol.now.roles.items (global_type protocol.now.body)) }
{
    project_all_by(alloc, Merging::Plain, protocol)
}

/// `project_all` by the merging that is given.
pub fn project_all_by(
    alloc: alloc::Global,
    merging: Merging,
    protocol: &Protocol,
) -> Result<Vec<Local>, ProjectFault>
    requires { fault_of protocol.now.roles.items (global_type protocol.now.body) ≡ None }
    ensures ok { IfOk result (λ types. AreProjections merging
        protocol.now.roles.items (global_type protocol.now.body) (map plain types.items)) }
    ensures peers { IfOk result (λ types. AllByRecursion
        (AllPeers (λ peer. peer < length protocol.now.roles.items)) (map plain types.items)) }
    ensures fault { IfErr result
        (AreNotAll merging protocol.now.roles.items (global_type protocol.now.body)) }
{
    let mut types = Vec::with_capacity(alloc, protocol.roles.len())?;
    for place in 0..protocol.roles.len() {
        // the place is below 8, as a protocol without faults has at most 8 roles
        let t = project_by(alloc, merging, protocol, Role::new(place as u8))?;
        types.push(t)?;
    }
    Ok(types)
}

/// A law: the local types of a protocol without faults, by either kind of merging, name other roles of the protocol as
/// peers, and have no more nodes and no more levels than the global type.
pub fn projection_laws()
    ensures peers { (merging : MergingKind) (roles : List (List ℕ)) (role : ℕ)
        (tree : GlobalType) (t : LocalType)
        → fault_of roles tree ≡ None → projection merging roles role tree ≡ Some t
        → AllPeers (IsOtherRole (length roles) role) t }
    ensures no_larger { (merging : MergingKind) (roles : List (List ℕ)) (role : ℕ)
        (tree : GlobalType) (t : LocalType)
        → fault_of roles tree ≡ None → projection merging roles role tree ≡ Some t
        → node_count t ≤ global_nodes tree }
    ensures no_deeper { (merging : MergingKind) (roles : List (List ℕ)) (role : ℕ)
        (tree : GlobalType) (t : LocalType)
        → fault_of roles tree ≡ None → projection merging roles role tree ≡ Some t
        → depth t ≤ global_depth tree }
    ensures limits { (merging : MergingKind) (roles : List (List ℕ)) (role : ℕ)
        (tree : GlobalType) (t : LocalType)
        → fault_of roles tree ≡ None → projection merging roles role tree ≡ Some t
        → (node_count t ≤ 256) × (depth t ≤ 64) }
{}

// Projects a tree whose first choice has the number `number` in the protocol, counted in preorder from 0. It returns
// the type, and the number of the first choice after the tree, so that faults can name choices.
#[cycle(project)]
#[tactic(auto, using(crate::proofs::Examined::message_done, crate::proofs::Examined::choice_fails_in_a_branch, crate::proofs::Examined::choice_done, crate::proofs::Examined::choice_fails))]
fn project_tree(
    alloc: alloc::Global,
    merging: Merging,
    roles: &[Name],
    tree: &Global,
    role: Role,
    number: usize,
) -> Result<(Local, usize), ProjectFault>
    requires few { length roles.now ≤ 8 }
    requires within { number + choice_count (global_type tree.now) ≤ 256 }
    ensures ok { IfOk result
        (λ r. IsDone merging roles.now role number (global_type tree.now) (plain r.0) r.1) }
    ensures fault { IfErr result (IsUnmerged merging roles.now role number (global_type tree.now)) }
{
    match tree {
        Global::End => Ok((Local::End, number)),
        Global::Var(name) => Ok((Local::Var(*name), number)),
        Global::Rec(name, body) => {
            if is_idle(&*roles, name, body, role) {
                // its choices are counted, and none is looked at
                return Ok((Local::End, number + choice_count(body)));
            }
            let (rest, after) = project_tree(alloc, merging, &*roles, body, role, number)?;
            let local = Local::rec(alloc, *name, rest)?;
            Ok((local, after))
        }
        Global::Message {
            sender,
            receiver,
            sort,
            next,
        } => {
            let (rest, after) = project_tree(alloc, merging, &*roles, next, role, number)?;
            let (from, to) = (role_of(&*roles, sender), role_of(&*roles, receiver));
            let local = with_message(alloc, role, from, to, *sort, rest)?;
            Ok((local, after))
        }
        Global::Choice {
            sender,
            receiver,
            branches,
        } => {
            let (rest, after) = project_branches(
                alloc,
                merging,
                &*roles,
                branches,
                role,
                number + 1,
            )?;
            let (from, to) = (role_of(&*roles, sender), role_of(&*roles, receiver));
            match with_choice(alloc, merging, role, from, to, rest) {
                Ok(local) => Ok((local, after)),
                Err(MergeFault::Memory) => Err(ProjectFault::Memory),
                Err(MergeFault::Unmergeable) => Err(ProjectFault::Unmergeable {
                    role,
                    choice: number,
                }),
            }
        }
    }
}

// `project_tree` for each of a choice's branches, in order: the first choice in them has the number `number`. It
// returns the branches with the same labels, and the number of the first choice after them.
#[cycle(project)]
#[tactic(auto, using(crate::proofs::Examined::first_fails, crate::proofs::Examined::others_fail, crate::proofs::Examined::branches_done))]
fn project_branches(
    alloc: alloc::Global,
    merging: Merging,
    roles: &[Name],
    branches: &mps_global::Branches,
    role: Role,
    number: usize,
) -> Result<(Branches, usize), ProjectFault>
    requires few { length roles.now ≤ 8 }
    requires within { number + branch_choices (global_branches branches.now) ≤ 256 }
    ensures ok { IfOk result
        (λ r. AreDone merging roles.now role number (global_branches branches.now)
        (plain_branches r.0) r.1) }
    ensures fault { IfErr result
        (AreUnmerged merging roles.now role number (global_branches branches.now)) }
{
    match branches {
        mps_global::Branches::NoMore => Ok((Branches::NoMore, number)),
        mps_global::Branches::More {
            label,
            next,
            others,
        } => {
            let (first, between) = project_tree(alloc, merging, &*roles, next, role, number)?;
            let (rest, after) = project_branches(alloc, merging, &*roles, others, role, between)?;
            let more = Branches::more(alloc, *label, first, rest)?;
            Ok((more, after))
        }
    }
}

// The role's type for a message and `rest` after it: an output for its sender, an input for its receiver, and just
// `rest` for each other role. It fails only when out of memory, and drops `rest`.
fn with_message(
    alloc: alloc::Global,
    role: Role,
    sender: Role,
    receiver: Role,
    sort: Sort,
    rest: Local,
) -> Result<Local, AllocError>
    ensures { IfOk result (λ t. plain t ≡ with_message role sender receiver sort (plain rest)) }
{
    if role.is(sender) {
        return Local::send(alloc, receiver, sort, rest);
    }
    if role.is(receiver) {
        return Local::recv(alloc, sender, sort, rest);
    }
    Ok(rest)
}

// The role's type for a choice of these projected branches: a selection for its sender, a branching for its receiver,
// and for each other role the one type that stands for all branches. The branches are dropped with an error.
fn with_choice(
    alloc: alloc::Global,
    merging: Merging,
    role: Role,
    sender: Role,
    receiver: Role,
    branches: Branches,
) -> Result<Local, MergeFault>
    ensures ok { IfOk result (λ t. with_choice merging role sender receiver
        (plain_branches branches) ≡ Some (plain t)) }
    ensures fault { IfErr result
        (IsUnmergeable (with_choice merging role sender receiver (plain_branches branches))) }
{
    if role.is(sender) {
        return Ok(Local::Select {
            peer: receiver,
            branches,
        });
    }
    if role.is(receiver) {
        return Ok(Local::Branch {
            peer: sender,
            branches,
        });
    }
    merged(alloc, merging, branches)
}

/// The role of that name, which is its place in the list. Where no role has the name it is the place after the last,
/// which is no role; a checked protocol has no such name.
pub(crate) fn role_of(names: &[Name], name: &Name) -> Role
    requires few { length names.now ≤ 8 }
    ensures { result ≡ place_of names.now name.now }
{
    // at most 8, so it fits
    Role::new(place_of(names, name) as u8)
}

// The place of the first name that is the same, or the number of names where none is: as the definition `place_of`,
// which is total.
#[tactic(auto, using(crate::proofs::Places::found_place, crate::proofs::Places::no_place))]
fn place_of(names: &[Name], name: &Name) -> usize
    ensures place { result ≡ place_of names.now name.now }
    ensures within { result ≤ length names.now }
{
    match position_of(names, name) {
        Some(place) => place,
        None => names.len(),
    }
}

// The place of the first name that is the same, or `None`. Apart from `place_of`, so that the search has a contract by
// `position` alone.
fn position_of(names: &[Name], name: &Name) -> Option<usize>
    ensures { result ≡ position (bytes_eq name.now) names.now }
{
    names.iter().position(|other| name.is(other))
}
