//! Global types: what a whole session may say, as one tree.
//!
//! A `Protocol` has the names of its roles and a `Global`, which is a message, a choice, a recursion, a variable or
//! the end. `check` accepts a protocol without faults, and names the first fault of any other.
//!
//! ```
//! match check(&protocol) {
//!     Ok(()) => {}
//!     Err(fault) => return Err(fault), // GlobalFault::Unguarded for `rec X . X`
//! }
//! ```
#![tactic(auto)]

ghost use Rattle.std.specs.Prelude.{◌≡◌, ◌+◌, MatchOption};
ghost use Rattle.mps_global.specs.Private.Weights.{weight, branch_weight, waiting_weight};

mod building;
pub mod faults;
pub mod path;
mod walking;

pub use faults::{GlobalFault, check, protocol_laws, size_laws};
use mps_base::{Name, Sort, VarName};
use std::mem;
pub use walking::Arms;

/// A global type (Honda, Yoshida, Carbone, POPL 2008), without parallel composition.
#[cycle(global)]
pub enum Global {
    End,
    Var(VarName),
    Rec(VarName, Box<Global>),
    Message {
        sender: Name,
        receiver: Name,
        sort: Sort,
        next: Box<Global>,
    },
    Choice {
        sender: Name,
        receiver: Name,
        branches: Branches,
    },
}

/// The branches of a choice, each a label and what follows it.
#[cycle(global)]
pub enum Branches {
    NoMore,
    More {
        label: Name,
        next: Box<Global>,
        others: Box<Branches>,
    },
}

impl Drop for Global {
    // Drops the tree in a loop, since a recursive drop would overflow the stack on a long or deep tree. It does not
    // allocate: trees that still wait hang in boxes that are there already.
    #[tactic(auto, using(crate::proofs::Weights::some_weight))]
    fn drop(mut self) {
        let mut waiting = Branches::NoMore;
        loop {
            match self {
                Global::End | Global::Var(_) => match waiting.first() {
                    None => return,
                    Some((_, next, others)) => {
                        self = Box::into_inner(next);
                        waiting = Box::into_inner(others);
                    }
                },
                Global::Rec(_, next) => self = Box::into_inner(next),
                Global::Message {
                    sender: _,
                    receiver: _,
                    sort: _,
                    next,
                } => self = Box::into_inner(next),
                Global::Choice {
                    sender,
                    receiver,
                    branches,
                } => match branches.first() {
                    None => self = Global::End,
                    // the first branch's tree is next: its box takes the rest of the choice, and the other box what
                    // waited before
                    Some((label, mut next, mut others)) => {
                        let branches = mem::replace(&mut *others, waiting);
                        let rest = Global::Choice {
                            sender,
                            receiver,
                            branches,
                        };
                        self = mem::replace(&mut *next, rest);
                        waiting = Branches::More {
                            label,
                            next,
                            others,
                        };
                    }
                },
            }
        }
    }
}

impl Drop for Branches {
    // Drops the branches in a loop, one after the other, since a recursive drop would overflow the stack; the tree of
    // each is dropped in a loop too.
    fn drop(mut self) {
        loop {
            match self {
                Branches::NoMore => return,
                Branches::More {
                    label: _,
                    next,
                    others,
                } => {
                    drop(next);
                    self = Box::into_inner(others);
                }
            }
        }
    }
}

impl Branches {
    // Takes the first branch apart: its label, what follows it, and the others; `None` where there is no branch. Apart,
    // since its contract says how much is left, by which the loop of `drop` ends.
    fn first(self) -> Option<(Name, Box<Global>, Box<Branches>)>
        ensures { MatchOption result
            ((branch_weight self ≡ 1) × (waiting_weight self ≡ 0))
            (λ arm. (branch_weight self ≡ weight arm.1.value + branch_weight arm.2.value + 1)
            × (waiting_weight self ≡ weight arm.1.value + waiting_weight arm.2.value)) }
    {
        match self {
            Branches::NoMore => None,
            Branches::More {
                label,
                next,
                others,
            } => Some((label, next, others)),
        }
    }
}

/// The roles of a session in their order, and what they may say.
#[derive(Drop)]
pub struct Protocol {
    pub roles: Vec<Name>,
    pub body: Global,
}
