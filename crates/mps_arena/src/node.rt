//! Nodes: steps with their neighbours.
ghost use Rattle.std.specs.Prelude.{◌≡◌, ◌<◌, ◌+◌, ◌^◌, ◌==◌, Some, None, is_none, IfOk, IsOk};
ghost use Rattle.mps_base.specs.Effects.{effect};
ghost use Rattle.mps_arena.specs.Matched.{matched_receipt, matched_source};

use mps_base::{Act, Step};
use std::alloc::AllocError;
use std::marker::Model;

/// The place of a step in an arena. It is a step's own while the step stands there, and may be another's later.
#[derive(Clone, Copy, Debug, PartialEq, Eq, PartialOrd, Ord, Hash)]
pub struct Key(u32);

impl Model for Key {
    ghost use Rattle.std.specs.Prelude.{ℕ, ◌+◌, ◌<◌, ◌^◌};

    ghost Value = { ℕ };

    ghost view = { λ k. k.0 };

    ghost invariant = { λ k. k.0 + 1 < 2 ^ 32 };

    ghost inverse = { λ n. record { 0 = n } };
}

impl Key {
    /// The key of a place, which has to be below 2^32 - 1; from there on it is the error of out of memory, since a
    /// `Link` has no room for it.
    pub(crate) fn of(place: usize) -> Result<Key, AllocError>
        ensures key { IfOk result (λ key. key ≡ place) }
        ensures small { IfOk result (λ key. place + 1 < 2 ^ 32) }
        ensures succeeds { place + 1 < 2 ^ 32 → IsOk result }
    {
        if place >= u32::MAX as usize {
            return Err(AllocError);
        }
        Ok(Key(place as u32))
    }

    /// The key of a place that is known to be below 2^32 - 1, as that of reserved memory: `of` without a test, so it
    /// can't fail.
    pub(crate) fn small(place: usize) -> Key
        requires { place + 1 < 2 ^ 32 }
        ensures { result ≡ place }
    {
        Key(place as u32)
    }

    /// Whether both are the same key: `==` on copies, so that callers need no references.
    pub fn is(self, other: Key) -> bool
        ensures { result ≡ (self == other) }
    {
        self.0 == other.0
    }

    /// The place of the key as an index of the slab of nodes, below 2^32 - 1.
    pub(crate) fn place(self) -> usize
        ensures place { result ≡ self }
        ensures small { result + 1 < 2 ^ 32 }
    {
        self.0 as usize
    }
}

/// The key of a neighbour, or none. It is one number, so links are read and written at once, where an `Option<Key>` has
/// a tag and a gap.
#[derive(Clone, Copy)]
pub struct Link(
    // one more than the key; 0 for none
    u32,
);

impl Model for Link {
    ghost use Rattle.std.specs.Prelude.{ℕ, Option};
    ghost use Rattle.mps_arena.specs.Private.Linked.{one_above, one_below, restored};

    ghost Value = { Option ℕ };

    ghost view = { λ l. one_below l.0 };

    ghost inverse = { λ o. record { 0 = one_above o } };

    ghost inverse_ok = { λ l _. restored l };
}

impl Link {
    /// The link to no neighbour, stored as 0.
    pub fn none() -> Link
        ensures { result ≡ None }
    {
        Link(0)
    }

    /// The link to the neighbour of that key, stored as the key plus 1. Each key is below 2^32 - 1, so this fits.
    pub fn to(key: Key) -> Link
        ensures { result ≡ Some key }
    {
        Link(key.0 + 1)
    }

    /// The link for an optional key, as callers outside have it: `to` for one, `none` for none.
    pub fn of(key: Option<Key>) -> Link
        ensures { result ≡ key }
    {
        match key {
            Some(key) => Link::to(key),
            None => Link::none(),
        }
    }

    /// The key of the neighbour, or `None`: the inverse of `of`.
    pub fn key(self) -> Option<Key>
        ensures { result ≡ self }
    {
        if self.0 == 0 {
            None
        } else {
            Some(Key(self.0 - 1))
        }
    }

    /// Whether the link leads to no neighbour: one comparison with 0, without making the key.
    pub fn is_none(self) -> bool
        ensures { result ≡ is_none self }
    {
        self.0 == 0
    }
}

/// What was there before a step, so that it can come back.
#[derive(Clone, Copy, Debug, PartialEq, Eq)]
pub struct Before {
    /// the node of its role's table at which the role stood
    pub at: u16,
    /// the step to which a receipt's slot, or the name of a mark, was bound
    pub bound: Option<Key>,
}

/// A step with its neighbours.
#[derive(Drop)]
pub(crate) struct Node {
    pub(crate) step: Step,
    // the node of its role's table at which the role stood
    pub(crate) at: u16,
    pub(crate) marked: bool,
    // the step to which a receipt's slot, or the name of a mark, was bound
    pub(crate) bound: Link,
    pub(crate) next: Link,
    pub(crate) prev: Link,
    pub(crate) next_of_role: Link,
    pub(crate) prev_of_role: Link,
    pub(crate) next_send: Link,
    pub(crate) prev_send: Link,
    // what the step is matched with: the receipt of a send, the send of a receipt
    pub(crate) matched: Link,
}

/// The receipt that an act is matched with, or `None` where it is no send or choice, or isn't received. `matched` is
/// the link of the act's node, which has two meanings: here it is the receipt.
pub(crate) fn receipt_at(act: &Act, matched: Link) -> Option<Key>
    ensures { result ≡ matched_receipt (effect act.now) matched }
{
    match act {
        Act::Out { .. } => matched.key(),
        _ => None,
    }
}

/// The send that an act is matched with, or `None` where it is no receipt or pick. `matched` is the link of the act's
/// node, which has two meanings: here it is the send.
pub(crate) fn source_at(act: &Act, matched: Link) -> Option<Key>
    ensures { result ≡ matched_source (effect act.now) matched }
{
    match act {
        Act::In { .. } => matched.key(),
        _ => None,
    }
}
