//! The one type that stands for several, for a role that takes no part in a choice.
ghost use Rattle.std.specs.Prelude.{◌≡◌, None, Some, IfOk, IfErr, MatchOption};
ghost use Rattle.mps_local.specs.Actions.{branch_at};
ghost use Rattle.mps_local.specs.Local.{plain, plain_branches};
ghost use Rattle.mps_local.specs.Merged.{merge, merge_each, merge_picks, few_picks, merge_by, merge_all, merged};
ghost use Rattle.mps_local.specs.Merged.{without, IsUnmergeable};

use crate::equality::same;
use crate::faults::has_more_than;
use crate::{Branches, Local};
use mps_base::Name;
use mps_global::faults::MAX_BRANCHES;
use std::alloc::{AllocError, Global};
use std::mem;

/// Which branches of a choice can be merged for a role that takes no part in it.
#[derive(Clone, Copy, Debug, PartialEq, Eq)]
pub enum Merging {
    /// Those after which the role does the same (Honda, Yoshida, Carbone, POPL 2008).
    Plain,
    /// Those too that the role tells apart by a label that it picks itself (Deniélou, Yoshida, ESOP 2012).
    Full,
}

/// Why branches aren't merged.
#[derive(Clone, Copy)]
pub(crate) enum MergeFault {
    /// No type stands for all of them.
    Unmergeable,
    Memory,
}

impl From<AllocError> for MergeFault {
    ghost use Rattle.mps_local.specs.declared.merging.MergeFault.TheVariants.{Memory};

    ghost from_gives = { λ _ fault. fault ≡ Memory };

    // Lets `?` turn a failed allocation into `Memory`.
    fn from(_: AllocError) -> MergeFault {
        MergeFault::Memory
    }
}

/// The one type that stands for what follows each label. Branches are merged from the first on, and none is looked at
/// after one that doesn't fit. With an error all are dropped. Plain merging doesn't allocate.
pub(crate) fn merged(
    alloc: Global,
    merging: Merging,
    branches: Branches,
) -> Result<Local, MergeFault>
    ensures ok { IfOk result (λ t. merged merging (plain_branches branches) ≡ Some (plain t)) }
    ensures fault { IfErr result (IsUnmergeable (merged merging (plain_branches branches))) }
{
    match branches.first() {
        Some((_, next, others)) => merge_all(alloc, merging, &others, Box::into_inner(next)),
        None => Err(MergeFault::Unmergeable),
    }
}

// The type that stands for `first` and for what follows each label.
fn merge_all(
    alloc: Global,
    merging: Merging,
    branches: &Branches,
    first: Local,
) -> Result<Local, MergeFault>
    ensures ok { IfOk result
        (λ t. merge_all merging (plain first) (plain_branches branches.now) ≡ Some (plain t)) }
    ensures fault { IfErr result
        (IsUnmergeable (merge_all merging (plain first) (plain_branches branches.now))) }
{
    match branches {
        Branches::NoMore => Ok(first),
        Branches::More { next, others, .. } => {
            let both = merge_by(alloc, merging, first, next)?;
            merge_all(alloc, merging, others, both)
        }
    }
}

// The type that stands for both.
fn merge_by(alloc: Global, merging: Merging, one: Local, other: &Local) -> Result<Local, MergeFault>
    ensures ok { IfOk result
        (λ t. merge_by merging (plain one) (plain other.now) ≡ Some (plain t)) }
    ensures fault { IfErr result (IsUnmergeable (merge_by merging (plain one) (plain other.now))) }
{
    match merging {
        Merging::Plain if same(&one, other) => Ok(one),
        Merging::Plain => Err(MergeFault::Unmergeable),
        Merging::Full => merge(alloc, &one, other),
    }
}

// The type of a role that is ready for both. Both have to begin alike, but for picks from one peer, which may have
// other labels. The stack grows with the levels that both have.
#[cycle(merge)]
fn merge(alloc: Global, one: &Local, other: &Local) -> Result<Local, MergeFault>
    ensures ok { IfOk result (λ t. merge (plain one.now) (plain other.now) ≡ Some (plain t)) }
    ensures fault { IfErr result (IsUnmergeable (merge (plain one.now) (plain other.now))) }
{
    match (one, other) {
        (Local::End, Local::End) => Ok(Local::End),
        (Local::Var(x), Local::Var(y)) if x.is(y) => Ok(Local::Var(*x)),
        (Local::Rec(x, body), Local::Rec(y, rest)) if x.is(y) => {
            let both = merge(alloc, body, rest)?;
            Ok(Local::rec(alloc, *x, both)?)
        }
        (
            Local::Send { peer, sort, next },
            Local::Send {
                peer: to,
                sort: of,
                next: rest,
            },
        ) if peer.is(*to) && sort.is(*of) => {
            let both = merge(alloc, next, rest)?;
            Ok(Local::send(alloc, *peer, *sort, both)?)
        }
        (
            Local::Recv { peer, sort, next },
            Local::Recv {
                peer: from,
                sort: of,
                next: rest,
            },
        ) if peer.is(*from) && sort.is(*of) => {
            let both = merge(alloc, next, rest)?;
            Ok(Local::recv(alloc, *peer, *sort, both)?)
        }
        (
            Local::Select { peer, branches },
            Local::Select {
                peer: to,
                branches: rest,
            },
        ) if peer.is(*to) => Ok(Local::Select {
            peer: *peer,
            branches: merge_each(alloc, branches, rest)?,
        }),
        (
            Local::Branch { peer, branches },
            Local::Branch {
                peer: from,
                branches: rest,
            },
        ) if peer.is(*from) => Ok(Local::Branch {
            peer: *peer,
            branches: few_picks(alloc, branches, rest)?,
        }),
        _ => Err(MergeFault::Unmergeable),
    }
}

// The branches of a choice that the role makes: both have to have the same labels in the same order.
#[cycle(merge)]
fn merge_each(alloc: Global, one: &Branches, other: &Branches) -> Result<Branches, MergeFault>
    ensures ok { IfOk result (λ b. merge_each (plain_branches one.now) (plain_branches other.now)
        ≡ Some (plain_branches b)) }
    ensures fault { IfErr result
        (IsUnmergeable (merge_each (plain_branches one.now) (plain_branches other.now))) }
{
    match (one, other) {
        (Branches::NoMore, Branches::NoMore) => Ok(Branches::NoMore),
        (
            Branches::More {
                label,
                next,
                others,
            },
            Branches::More {
                label: name,
                next: rest,
                others: more,
            },
        ) if label.is(name) => {
            let both = merge(alloc, next, rest)?;
            let after = merge_each(alloc, others, more)?;
            Ok(Branches::more(alloc, *label, both, after)?)
        }
        _ => Err(MergeFault::Unmergeable),
    }
}

// The branches of a choice that the role takes. They can't be merged where they come to more labels than a choice may
// have.
#[cycle(merge)]
fn few_picks(alloc: Global, one: &Branches, other: &Branches) -> Result<Branches, MergeFault>
    ensures ok { IfOk result (λ b. few_picks (plain_branches one.now) (plain_branches other.now)
        ≡ Some (plain_branches b)) }
    ensures fault { IfErr result
        (IsUnmergeable (few_picks (plain_branches one.now) (plain_branches other.now))) }
{
    let picks = merge_picks(alloc, one, other.copy(alloc)?)?;
    if has_more_than(&picks, MAX_BRANCHES) {
        return Err(MergeFault::Unmergeable);
    }
    Ok(picks)
}

// The labels of `one`, and then those that `other` has besides, with what follows a label of both merged. O(branches^2)
// besides the merging.
#[cycle(merge)]
fn merge_picks(alloc: Global, one: &Branches, other: Branches) -> Result<Branches, MergeFault>
    ensures ok { IfOk result (λ b. merge_picks (plain_branches one.now) (plain_branches other)
        ≡ Some (plain_branches b)) }
    ensures fault { IfErr result
        (IsUnmergeable (merge_picks (plain_branches one.now) (plain_branches other))) }
{
    match one {
        Branches::NoMore => Ok(other),
        Branches::More {
            label,
            next,
            others,
        } => {
            let (found, left) = other.take_off(label);
            let both = match found {
                Some(rest) => merge(alloc, next, &rest)?,
                None => next.copy(alloc)?,
            };
            let after = merge_picks(alloc, others, left)?;
            Ok(Branches::more(alloc, *label, both, after)?)
        }
    }
}

impl Branches {
    // What follows the label, if a branch has it, and the branches without that one. O(branches); it doesn't allocate.
    fn take_off(self, label: &Name) -> (Option<Local>, Branches)
        ensures found { MatchOption result.0
            (branch_at label.now (plain_branches self) ≡ None)
            (λ t. branch_at label.now (plain_branches self) ≡ Some (plain t)) }
        ensures left { plain_branches result.1 ≡ without label.now (plain_branches self) }
    {
        match self {
            Branches::NoMore => (None, Branches::NoMore),
            Branches::More {
                label: name,
                next,
                mut others,
            } => {
                if name.is(label) {
                    return (Some(Box::into_inner(next)), Box::into_inner(others));
                }
                let rest = mem::replace(&mut *others, Branches::NoMore);
                let (found, left) = rest.take_off(label);
                *others = left;
                let branches = Branches::More {
                    label: name,
                    next,
                    others,
                };
                (found, branches)
            }
        }
    }
}
