//! Which loops of a protocol a role takes no part in.
ghost use Rattle.std.specs.Prelude.{◌≡◌, ◌≤◌, [], length};
ghost use Rattle.std.specs.List.{list_any};
ghost use Rattle.std.specs.Str.{bytes_eq};
ghost use Rattle.mps_global.specs.Global.{plain, plain_branches};
ghost use Rattle.mps_local.specs.Projection.{occurs, occurs_in, is_closed, are_closed, is_idle, choice_count};
ghost use Rattle.mps_local.specs.Projection.{branch_choices};
ghost use Rattle.mps_local.specs.Private.Bound.{names_bound};

use crate::projection::role_of;
use mps_base::{Name, Role, VarName};
use mps_global::{Branches, Global};

// The variables of the `rec`s around a tree, the nearest first.
#[derive(Clone, Copy)]
enum Bound<'a> {
    Nothing,
    Inside(&'a VarName, &'a Bound<'a>),
}

/// Whether the loop `rec name . body` projects to the end for the role: the role neither sends nor receives in the
/// body, and no variable of an outer loop stands there. Without this rule its projection would be an unguarded loop.
pub(crate) fn is_idle(roles: &[Name], name: &VarName, body: &Global, role: Role) -> bool
    requires few { length roles.now ≤ 8 }
    ensures { result ≡ is_idle roles.now role name.now (plain body.now) }
{
    !occurs(roles, body, role) && is_closed(body, &Bound::Inside(name, &Bound::Nothing))
}

// Whether the role sends or receives anywhere in the tree. O(nodes); the recursion is as deep as the tree, at most 64
// levels.
#[cycle(occurs)]
fn occurs(roles: &[Name], tree: &Global, role: Role) -> bool
    requires few { length roles.now ≤ 8 }
    ensures { result ≡ occurs roles.now role (plain tree.now) }
{
    match tree {
        Global::End | Global::Var(_) => false,
        Global::Rec(_, body) => occurs(&*roles, body, role),
        Global::Message {
            sender,
            receiver,
            next,
            ..
        } => {
            role.is(role_of(&*roles, sender))
                || role.is(role_of(&*roles, receiver))
                || occurs(&*roles, next, role)
        }
        Global::Choice {
            sender,
            receiver,
            branches,
        } => {
            role.is(role_of(&*roles, sender))
                || role.is(role_of(&*roles, receiver))
                || occurs_in(&*roles, branches, role)
        }
    }
}

// `occurs` for the trees of a choice's branches: whether the role sends or receives in one of them.
#[cycle(occurs)]
fn occurs_in(roles: &[Name], branches: &Branches, role: Role) -> bool
    requires few { length roles.now ≤ 8 }
    ensures { result ≡ occurs_in roles.now role (plain_branches branches.now) }
{
    match branches {
        Branches::NoMore => false,
        Branches::More { next, others, .. } => {
            occurs(&*roles, next, role) || occurs_in(&*roles, others, role)
        }
    }
}

// Whether each variable of the tree stands in a `rec` of it, or is one of `bound`: it has no free variable. The
// recursion is as deep as the tree, at most 64 levels.
#[cycle(closed)]
fn is_closed(tree: &Global, bound: &Bound<'_>) -> bool
    ensures { result ≡ is_closed (names_bound bound.now) (plain tree.now) }
{
    match tree {
        Global::End => true,
        Global::Var(name) => is_bound(name, &*bound),
        Global::Rec(name, body) => is_closed(body, &Bound::Inside(&*name, &*bound)),
        Global::Message { next, .. } => is_closed(next, &*bound),
        Global::Choice { branches, .. } => are_closed(branches, &*bound),
    }
}

// `is_closed` for each tree of a choice's branches, under the same `bound`.
#[cycle(closed)]
fn are_closed(branches: &Branches, bound: &Bound<'_>) -> bool
    ensures { result ≡ are_closed (names_bound bound.now) (plain_branches branches.now) }
{
    match branches {
        Branches::NoMore => true,
        Branches::More { next, others, .. } => {
            is_closed(next, &*bound) && are_closed(others, &*bound)
        }
    }
}

// Whether the variable is one of `bound`, a linked list on the stack, so that a walk needs no memory.
fn is_bound(name: &VarName, bound: &Bound<'_>) -> bool
    ensures { result ≡ list_any (bytes_eq name.now) (names_bound bound.now) }
{
    match bound {
        Bound::Nothing => false,
        Bound::Inside(other, outer) => name.is(other) || is_bound(name, outer),
    }
}

/// How many choices the tree has, at most 256. The first choice after the tree gets its number by it, where the tree is
/// skipped.
#[cycle(choices)]
pub(crate) fn choice_count(tree: &Global) -> usize
    requires few { choice_count (plain tree.now) ≤ 256 }
    ensures { result ≡ choice_count (plain tree.now) }
{
    match tree {
        Global::End | Global::Var(_) => 0,
        Global::Rec(_, next) | Global::Message { next, .. } => choice_count(next),
        Global::Choice { branches, .. } => 1 + branch_choices(branches),
    }
}

// `choice_count` for the trees of a choice's branches, added up.
#[cycle(choices)]
fn branch_choices(branches: &Branches) -> usize
    requires few { branch_choices (plain_branches branches.now) ≤ 256 }
    ensures { result ≡ branch_choices (plain_branches branches.now) }
{
    match branches {
        Branches::NoMore => 0,
        Branches::More { next, others, .. } => choice_count(next) + branch_choices(others),
    }
}
