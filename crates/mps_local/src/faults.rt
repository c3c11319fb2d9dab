//! Which local types are well-formed.
ghost use Rattle.std.specs.Prelude.{◌≡◌, ◌≢◌, ◌+◌, ◌<◌, ◌≤◌, ◌↔◌, ℕ, List, [], None, Some, true, IsTrue, MatchOption};
ghost use Rattle.std.specs.Prelude.{length, map, nat_lt};
ghost use Rattle.mps_global.specs.Faults.{is_among, has_double, greatest, first_true, fault_of};
ghost use Rattle.mps_global.specs.Global.{GlobalType};
ghost use Rattle.mps_global.specs.Path.{edges, level};
ghost use Rattle.mps_local.specs.Local.{LocalType, plain, plain_branches};
ghost use Rattle.mps_local.specs.Actions.{labels};
ghost use Rattle.mps_local.specs.Loops.{is_closed, is_guarded, is_unshadowed, is_labelled};
ghost use Rattle.mps_local.specs.Shape.{node_count, branch_nodes, depth, branch_depth};
ghost use Rattle.mps_local.specs.Projection.{projection};
ghost use Rattle.mps_local.specs.LocalFaults.{places, branch_places};
ghost use Rattle.mps_local.specs.LocalFaults.{label_tests, variable_tests, rec_tests, node_tests, fault_at};
ghost use Rattle.mps_local.specs.LocalFaults.{local_fault_of};
ghost use Rattle.mps_local.specs.declared.merging.Merging.{Merging};
ghost use Rattle.mps_local.specs.declared.faults.LocalFault.{LocalFault as Fault};

use crate::{Branches, Local};
use mps_base::{Name, VarName};
use mps_global::faults::{MAX_BRANCHES, MAX_DEPTH, MAX_NODES};
use mps_global::path::{Above, is_bound, is_unguarded};
use std::alloc::AllocError;
use thiserror::Error;

/// What is wrong with a local type, or why no table was made of it.
#[derive(Clone, Copy, Debug, PartialEq, Eq, Error)]
pub enum LocalFault {
    #[error("the type has more than 256 nodes")]
    TooManyNodes,
    #[error("the type is more than 64 nodes deep")]
    TooDeep,
    #[error("a choice has a label twice")]
    DoubleLabel,
    #[error("a choice has more than 16 branches")]
    TooManyBranches,
    #[error("a choice has no branches")]
    NoBranches,
    #[error("a variable stands outside its `rec`")]
    Unbound,
    #[error("a variable is bound inside its own `rec`")]
    Shadowed,
    #[error("no act stands between a `rec` and its variable")]
    Unguarded,
    /// No type has this fault: it is for those who need memory for a type.
    #[error("out of memory")]
    Memory,
}

impl From<AllocError> for LocalFault {
    ghost use Rattle.mps_local.specs.declared.faults.LocalFault.TheVariants.{Memory};

    ghost from_gives = { λ _ fault. fault ≡ Memory };

    // Lets `?` turn a failed allocation into `Memory`.
    fn from(_: AllocError) -> LocalFault {
        LocalFault::Memory
    }
}

/// The first fault of a local type, or `None`: of its size, then of its nodes in preorder. It does not allocate, and is
/// never `Memory`. The type may be of any size: nothing goes more than 257 nodes deep into it.
pub fn first_fault(t: &Local) -> Option<LocalFault>
    ensures { result ≡ local_fault_of (plain t.now) }
{
    if nodes_left(t, MAX_NODES).is_none() {
        return Some(LocalFault::TooManyNodes);
    }
    if !is_within(t, MAX_DEPTH) {
        return Some(LocalFault::TooDeep);
    }
    fault_in(t, &Above::Root)
}

/// A law: a type has no fault exactly where each variable stands in its `rec` and after an act of it (it is closed and
/// contractive), no `rec` has the variable of one around it, each choice has 1 to 16 labels that differ, and the type
/// is within the limits.
pub fn local_fault_laws()
    ensures closed { (t : LocalType) → local_fault_of t ≡ None → is_closed [] t ≡ true }
    ensures guarded { (t : LocalType) → local_fault_of t ≡ None → is_guarded t ≡ true }
    ensures unshadowed { (t : LocalType) → local_fault_of t ≡ None → is_unshadowed [] t ≡ true }
    ensures labelled { (t : LocalType) → local_fault_of t ≡ None → is_labelled t ≡ true }
    ensures limits { (t : LocalType) → local_fault_of t ≡ None
        → (node_count t ≤ 256) × (depth t ≤ 64) }
    ensures no_other { (t : LocalType) → is_closed [] t ≡ true → is_guarded t ≡ true
        → is_unshadowed [] t ≡ true → is_labelled t ≡ true
        → node_count t ≤ 256 → depth t ≤ 64 → local_fault_of t ≡ None }

    // Memory for a type is no matter of the type.
    ensures memory { (t : LocalType) → local_fault_of t ≢ Some Fault.Memory }
{}

/// A law: `places` lists as many nodes as `node_count` says, and the greatest `level` in it is `depth`. So limits on
/// the two are limits on walks over the list.
pub fn local_size_laws()
    ensures nodes { (t : LocalType) → length (places [] t) ≡ node_count t }
    ensures levels { (t : LocalType) → greatest (map level (places [] t)) ≡ depth t }
{}

/// A law: the projection of a protocol without faults to a role, where there is one, has no fault as a local type. So
/// it needs no check of its own.
pub fn projections_have_no_fault()
    ensures { (merging : Merging) (roles : List (List ℕ)) (role : ℕ) (tree : GlobalType) (t : LocalType)
        → fault_of roles tree ≡ None → projection merging roles role tree ≡ Some t
        → local_fault_of t ≡ None }
{}

// What is left of `limit` after each node of the type has taken 1, or `None` where there are more nodes. Counting down,
// and not up, ends the walk after `limit` nodes, so no type overflows the stack.
#[cycle(nodes)]
#[tactic(auto, using(crate::proofs::Sizes::some_node))]
fn nodes_left(t: &Local, limit: usize) -> Option<usize>
    ensures { MatchOption result
        (limit < node_count (plain t.now))
        (λ left. left + node_count (plain t.now) ≡ limit) }
{
    if limit == 0 {
        return None;
    }
    match t {
        Local::End | Local::Var(_) => Some(limit - 1),
        Local::Rec(_, next) | Local::Send { next, .. } | Local::Recv { next, .. } => {
            nodes_left(next, limit - 1)
        }
        Local::Select { branches, .. } | Local::Branch { branches, .. } => {
            branch_nodes_left(branches, limit - 1)
        }
    }
}

// `nodes_left` for the types of a choice's branches, one after the other; the branches themselves take nothing.
#[cycle(nodes)]
fn branch_nodes_left(branches: &Branches, limit: usize) -> Option<usize>
    ensures { MatchOption result
        (limit < branch_nodes (plain_branches branches.now))
        (λ left. left + branch_nodes (plain_branches branches.now) ≡ limit) }
{
    match branches {
        Branches::NoMore => Some(limit),
        Branches::More { next, others, .. } => {
            let left = nodes_left(next, limit)?;
            branch_nodes_left(others, left)
        }
    }
}

// Whether no path from the root has more nodes than `limit`: the test of `TooDeep`. It goes no deeper than that.
#[cycle(levels)]
#[tactic(auto, using(crate::proofs::Sizes::some_depth))]
fn is_within(t: &Local, limit: usize) -> bool
    ensures { IsTrue result ↔ (depth (plain t.now) ≤ limit) }
{
    if limit == 0 {
        return false;
    }
    match t {
        Local::End | Local::Var(_) => true,
        Local::Rec(_, next) | Local::Send { next, .. } | Local::Recv { next, .. } => {
            is_within(next, limit - 1)
        }
        Local::Select { branches, .. } | Local::Branch { branches, .. } => {
            are_within(branches, limit - 1)
        }
    }
}

// `is_within` for each type of a choice's branches, which take no level themselves.
#[cycle(levels)]
fn are_within(branches: &Branches, limit: usize) -> bool
    ensures { IsTrue result ↔ (branch_depth (plain_branches branches.now) ≤ limit) }
{
    match branches {
        Branches::NoMore => true,
        Branches::More { next, others, .. } => is_within(next, limit) && are_within(others, limit),
    }
}

// The fault of the first faulty node in preorder, or `None`. `above` is the path from the root to the type, which tells
// which variables are bound and guarded. Only types within both limits get here.
#[cycle(walk)]
fn fault_in(t: &Local, above: &Above<'_>) -> Option<LocalFault>
    ensures { result ≡ fault_at (places (edges above.now) (plain t.now)) }
{
    if let Some(fault) = node_fault(&*t, &*above) {
        return Some(fault);
    }
    match t {
        Local::End | Local::Var(_) => None,
        Local::Rec(name, next) => fault_in(next, &Above::Loop(&*name, &*above)),
        Local::Send { next, .. } | Local::Recv { next, .. } => {
            fault_in(next, &Above::Act(&*above))
        }
        Local::Select { branches, .. } | Local::Branch { branches, .. } => {
            fault_in_branches(branches, &Above::Act(&*above))
        }
    }
}

// `fault_in` for the types of a choice's branches, in order. `above` is the path to them, the choice with it.
#[cycle(walk)]
#[tactic(auto, using(crate::proofs::Faulty::first_of_both))]
fn fault_in_branches(branches: &Branches, above: &Above<'_>) -> Option<LocalFault>
    ensures { result
        ≡ fault_at (branch_places (edges above.now) (plain_branches branches.now)) }
{
    match branches {
        Branches::NoMore => None,
        Branches::More { next, others, .. } => match fault_in(next, &*above) {
            Some(fault) => Some(fault),
            None => fault_in_branches(others, &*above),
        },
    }
}

// The first fault of the node alone, whatever stands below it, or `None`. `above` is the path from the root to the
// node.
fn node_fault(node: &Local, above: &Above<'_>) -> Option<LocalFault>
    ensures { result ≡ first_true (node_tests (edges above.now) (plain node.now)) }
{
    match node {
        Local::End | Local::Send { .. } | Local::Recv { .. } => None,
        Local::Var(name) => variable_fault(name, above),
        Local::Rec(name, _) => rec_fault(name, above),
        Local::Select { branches, .. } | Local::Branch { branches, .. } => label_fault(branches),
    }
}

// The fault of a variable on the path `above`: `Unbound` where no `rec` of it stands there, else `Unguarded` where no
// act comes between (contractiveness).
fn variable_fault(name: &VarName, above: &Above<'_>) -> Option<LocalFault>
    ensures { result ≡ first_true (variable_tests name.now (edges above.now)) }
{
    if !is_bound(name, above) {
        return Some(LocalFault::Unbound);
    }
    if is_unguarded(name, above) {
        return Some(LocalFault::Unguarded);
    }
    None
}

// `Shadowed` where another `rec` of the variable stands on the path `above`, else `None`. So a variable's name says
// which `rec` it means.
fn rec_fault(name: &VarName, above: &Above<'_>) -> Option<LocalFault>
    ensures { result ≡ first_true (rec_tests name.now (edges above.now)) }
{
    if is_bound(name, above) {
        return Some(LocalFault::Shadowed);
    }
    None
}

// The fault of a choice's labels, the first that applies: one stands twice, they are more than 16, or there is none.
fn label_fault(branches: &Branches) -> Option<LocalFault>
    ensures { result ≡ first_true (label_tests (labels (plain_branches branches.now))) }
{
    if has_double_label(branches) {
        return Some(LocalFault::DoubleLabel);
    }
    if has_more_than(branches, MAX_BRANCHES) {
        return Some(LocalFault::TooManyBranches);
    }
    match branches {
        Branches::NoMore => Some(LocalFault::NoBranches),
        Branches::More { .. } => None,
    }
}

// Whether a label stands twice: each is compared with those after it, O(branches^2). Only types of at most 256 nodes
// get here.
fn has_double_label(branches: &Branches) -> bool
    ensures { result ≡ has_double (labels (plain_branches branches.now)) }
{
    match branches {
        Branches::NoMore => false,
        Branches::More { label, others, .. } => has_label(others, label)
            || has_double_label(others),
    }
}

// Whether one of the branches has that label, compared one by one. O(branches).
fn has_label(branches: &Branches, label: &Name) -> bool
    ensures { result ≡ is_among (labels (plain_branches branches.now)) label.now }
{
    match branches {
        Branches::NoMore => false,
        Branches::More {
            label: other,
            others,
            ..
        } => label.is(other) || has_label(others, label),
    }
}

/// Whether there are more branches than `limit`. It looks at no more than `limit` + 1 of them, so a long list costs no
/// more.
pub(crate) fn has_more_than(branches: &Branches, limit: usize) -> bool
    ensures { result ≡ nat_lt limit (length (labels (plain_branches branches.now))) }
{
    match branches {
        Branches::NoMore => false,
        Branches::More { others, .. } => limit == 0 || has_more_than(others, limit - 1),
    }
}
