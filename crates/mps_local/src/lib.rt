//! Local types: what one role of a session may do.
//!
//! A `Local` is a role's part of a protocol. `project` makes it, or names the first choice whose branches can't be
//! merged; `first_fault` names the first fault of a type that was built by hand.
//!
//! ```
//! let local = project(alloc, &protocol, Role::new(2))?;
//! let text = write_local(alloc, &roles, &local)?;
//! ```
#![tactic(auto)]

ghost use Rattle.std.specs.Prelude.{◌≡◌, ◌+◌, MatchOption};
ghost use Rattle.mps_local.specs.Local.{plain, plain_branches, NoMore, More};
ghost use Rattle.mps_local.specs.Private.Weights.{weight, branch_weight, waiting_weight};

mod building;
mod copying;
mod equality;
pub mod examples;
pub mod faults;
pub mod laws;
mod loops;
mod merging;
pub mod peers;
pub mod projection;
mod walking;
mod writing;

pub use copying::copy_all;
pub use examples::{worked_actions, worked_projections};
pub use faults::{
    LocalFault, first_fault, local_fault_laws, local_size_laws, projections_have_no_fault,
};
pub use laws::{
    full_merging_goes_further, labels_lead, merging_is_equality, same_is_equality,
    unmerged_is_named,
};
pub use merging::Merging;
use mps_base::{Name, Role, Sort, VarName};
pub use projection::{
    ProjectFault, project, project_all, project_all_by, project_by, projection_laws,
};
use std::mem;
pub use walking::Arms;
pub use writing::write_local;

/// A local type (Honda, Yoshida, Carbone, POPL 2008), with the peers as places in the list of
/// roles.
#[cycle(local)]
pub enum Local {
    End,
    Var(VarName),
    Rec(VarName, Box<Local>),
    Send {
        peer: Role,
        sort: Sort,
        next: Box<Local>,
    },
    Recv {
        peer: Role,
        sort: Sort,
        next: Box<Local>,
    },
    /// Chooses a label and sends it.
    Select {
        peer: Role,
        branches: Branches,
    },
    /// Takes the label that the peer chose.
    Branch {
        peer: Role,
        branches: Branches,
    },
}

/// The branches of a choice, each a label and what follows it.
#[cycle(local)]
pub enum Branches {
    NoMore,
    More {
        label: Name,
        next: Box<Local>,
        others: Box<Branches>,
    },
}

impl Drop for Local {
    // Drops the tree in a loop, since a recursive drop would overflow the stack on a long or deep tree. It does not
    // allocate: trees that still wait hang in boxes that are there already.
    #[tactic(auto, using(crate::proofs::Weights::some_weight))]
    fn drop(mut self) {
        let mut waiting = Branches::NoMore;
        loop {
            match self {
                Local::End | Local::Var(_) => match waiting.first() {
                    None => return,
                    Some((_, next, others)) => {
                        self = Box::into_inner(next);
                        waiting = Box::into_inner(others);
                    }
                },
                Local::Rec(_, next) => self = Box::into_inner(next),
                Local::Send {
                    peer: _,
                    sort: _,
                    next,
                } => self = Box::into_inner(next),
                Local::Recv {
                    peer: _,
                    sort: _,
                    next,
                } => self = Box::into_inner(next),
                Local::Select { peer, branches } | Local::Branch { peer, branches } => {
                    match branches.first() {
                        None => self = Local::End,
                        // the first branch's tree is next: its box takes the rest of the choice, of either kind, and
                        // the other box what waited before
                        Some((label, mut next, mut others)) => {
                            let branches = mem::replace(&mut *others, waiting);
                            self = mem::replace(&mut *next, Local::Select { peer, branches });
                            waiting = Branches::More {
                                label,
                                next,
                                others,
                            };
                        }
                    }
                }
            }
        }
    }
}

impl Drop for Branches {
    // Drops the branches in a loop, one after the other, since a recursive drop would overflow the stack; the tree of
    // each is dropped in a loop too.
    fn drop(mut self) {
        loop {
            match self {
                Branches::NoMore => return,
                Branches::More {
                    label: _,
                    next,
                    others,
                } => {
                    drop(next);
                    self = Box::into_inner(others);
                }
            }
        }
    }
}

impl Branches {
    /// Takes the first branch apart: its label, what follows it, and the others; `None` where there is no branch.
    /// Apart, since its contract says how much is left, by which the loops of `drop` and `names_others` end.
    pub(crate) fn first(self) -> Option<(Name, Box<Local>, Box<Branches>)>
        ensures weight { MatchOption result
            ((branch_weight self ≡ 1) × (waiting_weight self ≡ 0))
            (λ arm. (branch_weight self ≡ weight arm.1.value + branch_weight arm.2.value + 1)
            × (waiting_weight self ≡ weight arm.1.value + waiting_weight arm.2.value)) }
        ensures parts { MatchOption result
            (plain_branches self ≡ NoMore)
            (λ arm. plain_branches self
            ≡ More arm.0 (plain arm.1.value) (plain_branches arm.2.value)) }
    {
        match self {
            Branches::NoMore => None,
            Branches::More {
                label,
                next,
                others,
            } => Some((label, next, others)),
        }
    }
}
