//! With whom a type speaks, whatever its size.
ghost use Rattle.std.specs.Prelude.{◌↔◌, IsTrue};
ghost use Rattle.mps_local.specs.Local.{plain};
ghost use Rattle.mps_local.specs.Shape.{AllPeers, IsOtherRole};

use crate::{Branches, Local};
use mps_base::Role;
use std::mem;

/// Whether the peer may stand in the type of the role at place `role` of `count` roles: it is one of them, and another
/// than `role`.
pub fn is_other(count: usize, role: usize, peer: Role) -> bool
    ensures { IsTrue result ↔ IsOtherRole count role peer }
{
    peer.index() < count && peer.index() != role
}

impl Local {
    /// Whether each peer in the type is one of the first `count` roles, and another than `role`. The type is taken
    /// apart in a loop and dropped, so it needs neither stack nor memory, whatever its size and shape. O(nodes).
    #[tactic(auto, using(crate::proofs::Weights::some_weight))]
    pub fn names_others(mut self, count: usize, role: usize) -> bool
        ensures { IsTrue result ↔ AllPeers (IsOtherRole count role) (plain self) }
    {
        let mut waiting = Branches::NoMore;
        loop {
            match self {
                Local::End | Local::Var(_) => match waiting.first() {
                    None => return true,
                    Some((_, next, others)) => {
                        self = Box::into_inner(next);
                        waiting = Box::into_inner(others);
                    }
                },
                Local::Rec(_, next) => self = Box::into_inner(next),
                Local::Send {
                    peer,
                    sort: _,
                    next,
                }
                | Local::Recv {
                    peer,
                    sort: _,
                    next,
                } => {
                    self = Box::into_inner(next);
                    if !is_other(count, role, peer) {
                        return false;
                    }
                }
                Local::Select { peer, branches } | Local::Branch { peer, branches } => {
                    if !is_other(count, role, peer) {
                        return false;
                    }
                    match branches.first() {
                        None => self = Local::End,
                        // the first branch's tree is next: its box takes the rest of the choice, of either kind, and
                        // the other box what waited before
                        Some((label, mut next, mut others)) => {
                            let branches = mem::replace(&mut *others, waiting);
                            self = mem::replace(&mut *next, Local::Select { peer, branches });
                            waiting = Branches::More {
                                label,
                                next,
                                others,
                            };
                        }
                    }
                }
            }
        }
    }
}
