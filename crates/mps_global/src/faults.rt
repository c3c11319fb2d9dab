//! Which protocols are well-formed.
ghost use Rattle.std.specs.Prelude.{◌≡◌, ◌↔◌, ◌+◌, ◌<◌, ◌≤◌, ◌∷◌, ℕ, List, [], IsTrue, IsOk, IfErr, MatchOption};
ghost use Rattle.std.specs.Prelude.{length, map, nat_lt};
ghost use Rattle.mps_base.specs.RoleLists.{AreRoles};
ghost use Rattle.mps_global.specs.Global.{GlobalType, plain, plain_branches};
ghost use Rattle.mps_global.specs.Faults.{is_among, has_double, labels, node_count, branch_nodes, depth, branch_depth};
ghost use Rattle.mps_global.specs.Path.{edges, level};
ghost use Rattle.mps_global.specs.Faults.{places, branch_places, greatest};
ghost use Rattle.mps_global.specs.Faults.{first_true, pair_tests, label_tests, variable_tests, rec_tests, node_tests};
ghost use Rattle.mps_global.specs.Faults.{first_fault, fault_of};

use crate::path::{Above, is_bound, is_unguarded};
use crate::{Branches, Global, Protocol};
use mps_base::{MAX_ROLES, MIN_ROLES, Name, VarName};
use thiserror::Error;

/// How many nodes a global type has at most; a larger one is `TooManyNodes`.
pub const MAX_NODES: usize = 256;

/// How many nodes stand on the longest path of a global type at most, so that recursion over it needs little stack; a
/// deeper one is `TooDeep`.
pub const MAX_DEPTH: usize = 64;

/// How many branches a choice has at most; one with more is `TooManyBranches`.
pub const MAX_BRANCHES: usize = 16;

/// What is wrong with a protocol.
#[derive(Clone, Copy, Debug, PartialEq, Eq, Error)]
pub enum GlobalFault {
    #[error("a session has 2 to 8 roles")]
    RoleCount,
    #[error("a role is named twice")]
    DoubleRole,
    #[error("the protocol has more than 256 nodes")]
    TooManyNodes,
    #[error("the protocol is more than 64 nodes deep")]
    TooDeep,
    #[error("a message or a choice names no role")]
    UnknownRole,
    #[error("a role sends to itself")]
    SelfMessage,
    #[error("a choice has a label twice")]
    DoubleLabel,
    #[error("a choice has more than 16 branches")]
    TooManyBranches,
    #[error("a choice has no branches")]
    NoBranches,
    #[error("a variable stands outside its `rec`")]
    Unbound,
    #[error("a variable is bound inside its own `rec`")]
    Shadowed,
    #[error("no message or choice stands between a `rec` and its variable")]
    Unguarded,
}

/// Whether a protocol is well-formed, or else its first fault: of its roles, then of its size, then of its nodes in
/// preorder. It does not allocate. The tree may be of any size: nothing goes more than 257 nodes deep into it.
pub fn check(protocol: &Protocol) -> Result<(), GlobalFault>
    ensures ok { IsOk result
        ↔ (fault_of protocol.now.roles.items (plain protocol.now.body) ≡ None) }
    ensures fault { IfErr result
        (λ f. fault_of protocol.now.roles.items (plain protocol.now.body) ≡ Some f) }
{
    let roles = &protocol.roles;
    if roles.len() < MIN_ROLES || roles.len() > MAX_ROLES {
        return Err(GlobalFault::RoleCount);
    }
    if names_twice(roles) {
        return Err(GlobalFault::DoubleRole);
    }
    if nodes_left(&protocol.body, MAX_NODES).is_none() {
        return Err(GlobalFault::TooManyNodes);
    }
    if !is_within(&protocol.body, MAX_DEPTH) {
        return Err(GlobalFault::TooDeep);
    }
    match first_fault(roles, &protocol.body, &Above::Root) {
        None => Ok(()),
        Some(fault) => Err(fault),
    }
}

/// A law: a protocol without faults has the roles of a session (2 to 8, distinct), and its tree is within the limits of
/// nodes and depth.
pub fn protocol_laws()
    ensures roles { (roles : List (List ℕ)) (tree : GlobalType)
        → fault_of roles tree ≡ None → AreRoles roles }
    ensures limits { (roles : List (List ℕ)) (tree : GlobalType)
        → fault_of roles tree ≡ None → (node_count tree ≤ 256) × (depth tree ≤ 64) }
{}

/// A law: `places` lists as many nodes as `node_count` says, and the greatest `level` in it is `depth`. So limits on
/// the two are limits on walks over the list.
pub fn size_laws()
    ensures nodes { (tree : GlobalType) → length (places [] tree) ≡ node_count tree }
    ensures levels { (tree : GlobalType) → greatest (map level (places [] tree)) ≡ depth tree }
{}

// Whether a name stands twice in the list: each is compared with those after it. The list has at most 8 names here, as
// the count is checked first.
fn names_twice(names: &[Name]) -> bool
    ensures { result ≡ has_double names.now }
{
    match names {
        [] => false,
        [first, rest @ ..] => is_among(rest, first) || names_twice(rest),
    }
}

// Whether the name is in the list, which is compared name by name: at most 8 roles.
fn is_among(names: &[Name], name: &Name) -> bool
    ensures { result ≡ is_among names.now name.now }
{
    names.iter().any(|other| other.is(name))
}

// What is left of `limit` after each node of the tree has taken 1, or `None` where there are more nodes. Counting down,
// and not up, ends the walk after `limit` nodes, so no tree overflows the stack.
#[cycle(nodes)]
#[tactic(auto, using(crate::proofs::Sizes::some_node))]
fn nodes_left(tree: &Global, limit: usize) -> Option<usize>
    ensures { MatchOption result
        (limit < node_count (plain tree.now))
        (λ left. left + node_count (plain tree.now) ≡ limit) }
{
    if limit == 0 {
        return None;
    }
    match tree {
        Global::End | Global::Var(_) => Some(limit - 1),
        Global::Rec(_, next) | Global::Message { next, .. } => nodes_left(next, limit - 1),
        Global::Choice { branches, .. } => branch_nodes_left(branches, limit - 1),
    }
}

// `nodes_left` for the trees of a choice's branches, one after the other; the branches themselves take nothing.
#[cycle(nodes)]
fn branch_nodes_left(branches: &Branches, limit: usize) -> Option<usize>
    ensures { MatchOption result
        (limit < branch_nodes (plain_branches branches.now))
        (λ left. left + branch_nodes (plain_branches branches.now) ≡ limit) }
{
    match branches {
        Branches::NoMore => Some(limit),
        Branches::More { next, others, .. } => {
            let left = nodes_left(next, limit)?;
            branch_nodes_left(others, left)
        }
    }
}

// Whether no path from the root has more nodes than `limit`: the test of `TooDeep`. It goes no deeper than that.
#[cycle(levels)]
#[tactic(auto, using(crate::proofs::Sizes::some_depth))]
fn is_within(tree: &Global, limit: usize) -> bool
    ensures { IsTrue result ↔ (depth (plain tree.now) ≤ limit) }
{
    if limit == 0 {
        return false;
    }
    match tree {
        Global::End | Global::Var(_) => true,
        Global::Rec(_, next) | Global::Message { next, .. } => is_within(next, limit - 1),
        Global::Choice { branches, .. } => are_within(branches, limit - 1),
    }
}

// `is_within` for each tree of a choice's branches, which take no level themselves.
#[cycle(levels)]
fn are_within(branches: &Branches, limit: usize) -> bool
    ensures { IsTrue result ↔ (branch_depth (plain_branches branches.now) ≤ limit) }
{
    match branches {
        Branches::NoMore => true,
        Branches::More { next, others, .. } => is_within(next, limit) && are_within(others, limit),
    }
}

// The fault of the first faulty node in preorder, or `None`. `above` is the path from the root to the tree, which tells
// which variables are bound and guarded. Only trees within both limits get here.
#[cycle(walk)]
fn first_fault(roles: &[Name], tree: &Global, above: &Above<'_>) -> Option<GlobalFault>
    ensures { result
        ≡ first_fault roles.now (places (edges above.now) (plain tree.now)) }
{
    if let Some(fault) = node_fault(&*roles, &*tree, &*above) {
        return Some(fault);
    }
    match tree {
        Global::End | Global::Var(_) => None,
        Global::Rec(name, next) => first_fault(&*roles, next, &Above::Loop(&*name, &*above)),
        Global::Message { next, .. } => first_fault(&*roles, next, &Above::Act(&*above)),
        Global::Choice { branches, .. } => {
            first_branch_fault(&*roles, branches, &Above::Act(&*above))
        }
    }
}

// `first_fault` for the trees of a choice's branches, in order. `above` is the path to them, the choice with it.
#[cycle(walk)]
#[tactic(auto, using(crate::proofs::Walks::first_of_both))]
fn first_branch_fault(roles: &[Name], branches: &Branches, above: &Above<'_>) -> Option<GlobalFault>
    ensures { result ≡ first_fault roles.now
        (branch_places (edges above.now) (plain_branches branches.now)) }
{
    match branches {
        Branches::NoMore => None,
        Branches::More { next, others, .. } => match first_fault(&*roles, next, &*above) {
            Some(fault) => Some(fault),
            None => first_branch_fault(&*roles, others, &*above),
        },
    }
}

// The first fault of the node alone, whatever stands below it, or `None`. `above` is the path from the root to the
// node.
fn node_fault(roles: &[Name], node: &Global, above: &Above<'_>) -> Option<GlobalFault>
    ensures { result
        ≡ first_true (node_tests roles.now (edges above.now) (plain node.now)) }
{
    match node {
        Global::End => None,
        Global::Var(name) => variable_fault(name, above),
        Global::Rec(name, _) => rec_fault(name, above),
        Global::Message {
            sender,
            receiver,
            ..
        } => pair_fault(roles, sender, receiver),
        Global::Choice {
            sender,
            receiver,
            branches,
        } => match pair_fault(roles, sender, receiver) {
            Some(fault) => Some(fault),
            None => label_fault(branches),
        },
    }
}

// The fault of a variable on the path `above`: `Unbound` where no `rec` of it stands there, else `Unguarded` where no
// message or choice comes between (contractiveness).
fn variable_fault(name: &VarName, above: &Above<'_>) -> Option<GlobalFault>
    ensures { result ≡ first_true (variable_tests name.now (edges above.now)) }
{
    if !is_bound(name, above) {
        return Some(GlobalFault::Unbound);
    }
    if is_unguarded(name, above) {
        return Some(GlobalFault::Unguarded);
    }
    None
}

// `Shadowed` where another `rec` of the variable stands on the path `above`, else `None`. So a variable's name says
// which `rec` it means.
fn rec_fault(name: &VarName, above: &Above<'_>) -> Option<GlobalFault>
    ensures { result ≡ first_true (rec_tests name.now (edges above.now)) }
{
    if is_bound(name, above) {
        return Some(GlobalFault::Shadowed);
    }
    None
}

// The fault of the two roles of a message or a choice: `UnknownRole` where one isn't among the roles, then
// `SelfMessage` where they are the same.
fn pair_fault(roles: &[Name], sender: &Name, receiver: &Name) -> Option<GlobalFault>
    ensures { result ≡ first_true (pair_tests roles.now sender.now receiver.now) }
{
    if !is_among(roles, sender) || !is_among(roles, receiver) {
        return Some(GlobalFault::UnknownRole);
    }
    if sender.is(receiver) {
        return Some(GlobalFault::SelfMessage);
    }
    None
}

// The fault of a choice's labels, the first that applies: one stands twice, they are more than 16, or there is none.
fn label_fault(branches: &Branches) -> Option<GlobalFault>
    ensures { result ≡ first_true (label_tests (labels (plain_branches branches.now))) }
{
    if has_double_label(branches) {
        return Some(GlobalFault::DoubleLabel);
    }
    if has_more_than(branches, MAX_BRANCHES) {
        return Some(GlobalFault::TooManyBranches);
    }
    match branches {
        Branches::NoMore => Some(GlobalFault::NoBranches),
        Branches::More { .. } => None,
    }
}

// Whether a label stands twice: each is compared with those after it, O(branches^2). Only trees of at most 256 nodes
// get here.
fn has_double_label(branches: &Branches) -> bool
    ensures { result ≡ has_double (labels (plain_branches branches.now)) }
{
    match branches {
        Branches::NoMore => false,
        Branches::More { label, others, .. } => has_label(others, label)
            || has_double_label(others),
    }
}

// Whether one of the branches has that label, compared one by one. O(branches).
fn has_label(branches: &Branches, label: &Name) -> bool
    ensures { result ≡ is_among (labels (plain_branches branches.now)) label.now }
{
    match branches {
        Branches::NoMore => false,
        Branches::More {
            label: other,
            others,
            ..
        } => label.is(other) || has_label(others, label),
    }
}

// Whether there are more branches than `limit`. It looks at no more than `limit` + 1 of them, so a long list costs no
// more.
fn has_more_than(branches: &Branches, limit: usize) -> bool
    ensures { result ≡ nat_lt limit (length (labels (plain_branches branches.now))) }
{
    match branches {
        Branches::NoMore => false,
        Branches::More { others, .. } => limit == 0 || has_more_than(others, limit - 1),
    }
}
