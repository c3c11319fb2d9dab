//! When protocols are the same but for the names of variables.
ghost use Rattle.std.specs.Prelude.{◌≡◌, ◌<◌, ◌∷◌, ◌↔◌, ℕ, List, [], map, length, IsTrue, IfOk, IfSome};
ghost use Rattle.mps_local.specs.Local.{plain, plain_branches};
ghost use Rattle.mps_open.specs.Alike.{AreAlike, nameless, nameless_branches, place_of};

use crate::opening::Opening;
use mps_base::{Name, VarName};
use mps_local::{Branches, Local};
use std::alloc::{AllocError, Global};

// The place of a variable's loop among those that it is within, the innermost first, if it is one of them.
fn place_of(name: &VarName, loops: &[VarName]) -> Option<usize>
    ensures { result ≡ place_of name.now loops.now }
{
    let name = name.as_bytes();
    loops.iter().position(|inner| inner.as_bytes() == name)
}

// The loops that the body of one more is within.
fn within(alloc: Global, name: VarName, loops: &[VarName]) -> Result<Vec<VarName>, AllocError>
    ensures { IfOk result (λ inner. inner.items ≡ name ∷ loops.now) }
{
    let mut inner = Vec::with_capacity(alloc, 1 + loops.len())?;
    inner.push(name)?;
    inner.extend_from_slice(loops)?;
    Ok(inner)
}

// Whether the two types are the same but for the names of their loops.
#[cycle(alike)]
fn are_alike(
    alloc: Global,
    one: &Local,
    loops: &[VarName],
    other: &Local,
    other_loops: &[VarName],
) -> Result<bool, AllocError>
    ensures { IfOk result (λ alike. IsTrue alike
        ↔ (nameless loops.now (plain one.now) ≡ nameless other_loops.now (plain other.now))) }
{
    Ok(match (one, other) {
        (Local::End, Local::End) => true,
        (Local::Var(name), Local::Var(other_name)) => {
            match (place_of(name, loops), place_of(other_name, other_loops)) {
                (None, None) => name.is(other_name),
                (place, other_place) => place == other_place,
            }
        }
        (Local::Rec(name, body), Local::Rec(other_name, other_body)) => {
            let inner = within(alloc, *name, loops)?;
            let other_inner = within(alloc, *other_name, other_loops)?;
            are_alike(
                alloc,
                body,
                inner.as_slice(),
                other_body,
                other_inner.as_slice(),
            )?
        }
        (
            Local::Send { peer, sort, next },
            Local::Send {
                peer: other_peer,
                sort: other_sort,
                next: other_next,
            },
        )
        | (
            Local::Recv { peer, sort, next },
            Local::Recv {
                peer: other_peer,
                sort: other_sort,
                next: other_next,
            },
        ) => peer.is(*other_peer)
            && sort.is(*other_sort)
            && are_alike(alloc, next, loops, other_next, other_loops)?,
        (
            Local::Select { peer, branches },
            Local::Select {
                peer: other_peer,
                branches: other_branches,
            },
        )
        | (
            Local::Branch { peer, branches },
            Local::Branch {
                peer: other_peer,
                branches: other_branches,
            },
        ) => peer.is(*other_peer)
            && branches_are(alloc, branches, loops, other_branches, other_loops)?,
        _ => false,
    })
}

// Whether both have the same labels in the same order, and what follows each is the same but for the names of loops.
#[cycle(alike)]
fn branches_are(
    alloc: Global,
    one: &Branches,
    loops: &[VarName],
    other: &Branches,
    other_loops: &[VarName],
) -> Result<bool, AllocError>
    ensures { IfOk result (λ alike. IsTrue alike
        ↔ (nameless_branches loops.now (plain_branches one.now) ≡ nameless_branches other_loops.now (plain_branches other.now))) }
{
    Ok(match (one, other) {
        (Branches::NoMore, Branches::NoMore) => true,
        (
            Branches::More {
                label,
                next,
                others,
            },
            Branches::More {
                label: other_label,
                next: other_next,
                others: other_others,
            },
        ) => label.is(other_label)
            && are_alike(alloc, next, loops, other_next, other_loops)?
            && branches_are(alloc, others, loops, other_others, other_loops)?,
        _ => false,
    })
}

// Whether each type is the same as the one at its place but for the names of variables.
fn all_alike(alloc: Global, types: &[Local], others: &[Local]) -> Result<bool, AllocError>
    ensures { IfOk result (λ alike. IsTrue alike
        ↔ (map (nameless []) (map plain types.now) ≡ map (nameless []) (map plain others.now))) }
{
    match (types, others) {
        ([], []) => Ok(true),
        ([one, rest @ ..], [other, other_rest @ ..]) => {
            Ok(are_alike(alloc, one, &[], other, &[])? && all_alike(alloc, rest, other_rest)?)
        }
        _ => Ok(false),
    }
}

// Whether they are the same names in the same order.
fn are_same(names: &[Name], others: &[Name]) -> bool
    ensures { IsTrue result ↔ (names.now ≡ others.now) }
{
    match (names, others) {
        ([], []) => true,
        ([name, rest @ ..], [other, other_rest @ ..]) => {
            name.is(other) && are_same(rest, other_rest)
        }
        _ => false,
    }
}

impl Opening {
    /// Whether the other protocol is the same for all who take part: it has the same roles, and each has the same type but for
    /// the names of variables. It fails only when out of memory. O(nodes · depth of loops).
    pub fn is_alike(&self, alloc: Global, other: &Opening) -> Result<bool, AllocError>
        ensures { IfOk result (λ alike. IsTrue alike ↔ AreAlike self.now.roles (map plain self.now.types.items)
            other.now.roles (map plain other.now.types.items)) }
    {
        Ok(
            are_same(
                self.protocol.roles.as_slice(),
                other.protocol.roles.as_slice(),
            ) && all_alike(alloc, self.types.as_slice(), other.types.as_slice())?,
        )
    }
}
