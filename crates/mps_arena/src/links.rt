//! Writes of links, one at a time, and of all that a step joins or leaves; and the look-up by number.
ghost use Rattle.std.specs.Prelude.{◌≡◌, ℕ, ◌+◌, ◌<◌, ◌^◌, ◌==◌, if◌then◌else◌, Some, None};
ghost use Rattle.std.specs.Option.{option_map};
ghost use Rattle.slab.specs.Slab.{get, slab_len, HasRoomFor, ContainsKey};
ghost use Rattle.mps_arena.specs.Private.Links.{joined, parted, indexed_key};
ghost use Rattle.mps_arena.specs.Keys.{is_at};
ghost use Rattle.mps_arena.specs.Private.Rewrites.{Rewrites};

use crate::node::{Key, Link, Node};
use mps_base::StepId;
use slab::Slab;

/// Sets what comes right after the node at `at` in the order of all. Without such a node, nothing changes, so callers
/// needn't ask whether there is a neighbour.
pub(crate) fn set_next(nodes: &mut Slab<Node>, at: Link, to: Link)
    ensures { Rewrites nodes.old nodes.new (λ k n.
        record n { next = if is_at at k then to else n.next }) }
{
    if let Some(key) = at.key() {
        if let Some(node) = nodes.get_mut(key.place()) {
            node.next = to;
        }
    }
}

/// Sets what comes right before the node at `at` in the order of all, as `set_next` does after it. Without such a node,
/// nothing changes. O(1).
pub(crate) fn set_prev(nodes: &mut Slab<Node>, at: Link, to: Link)
    ensures { Rewrites nodes.old nodes.new (λ k n.
        record n { prev = if is_at at k then to else n.prev }) }
{
    if let Some(key) = at.key() {
        if let Some(node) = nodes.get_mut(key.place()) {
            node.prev = to;
        }
    }
}

/// Sets what comes next after the node at `at` among its role's steps. Without such a node, as for a role's first step,
/// nothing changes. O(1).
pub(crate) fn set_next_of_role(nodes: &mut Slab<Node>, at: Link, to: Link)
    ensures { Rewrites nodes.old nodes.new (λ k n.
        record n { next_of_role = if is_at at k then to else n.next_of_role }) }
{
    if let Some(key) = at.key() {
        if let Some(node) = nodes.get_mut(key.place()) {
            node.next_of_role = to;
        }
    }
}

/// Sets what comes next after the node at `at` among its pair's sends. Without such a node, as for a pair's first send,
/// nothing changes. O(1).
pub(crate) fn set_next_send(nodes: &mut Slab<Node>, at: Link, to: Link)
    ensures { Rewrites nodes.old nodes.new (λ k n.
        record n { next_send = if is_at at k then to else n.next_send }) }
{
    if let Some(key) = at.key() {
        if let Some(node) = nodes.get_mut(key.place()) {
            node.next_send = to;
        }
    }
}

/// Sets what the node at `at` is matched with: the receipt of a send, or nothing once the receipt is removed. Without
/// such a node, as for a step that is no receipt, nothing changes. O(1).
pub(crate) fn set_matched(nodes: &mut Slab<Node>, at: Link, to: Link)
    ensures { Rewrites nodes.old nodes.new (λ k n.
        record n { matched = if is_at at k then to else n.matched }) }
{
    if let Some(key) = at.key() {
        if let Some(node) = nodes.get_mut(key.place()) {
            node.matched = to;
        }
    }
}

/// Sets or clears the flag of the node with the key, for `Arena::set_mark`. Without such a node, nothing changes. O(1).
/// Here, as the other writes, which all say `Rewrites`.
pub(crate) fn set_marked(nodes: &mut Slab<Node>, key: Key, marked: bool)
    ensures { Rewrites nodes.old nodes.new (λ k n.
        record n { marked = if k == key then marked else n.marked }) }
{
    if let Some(node) = nodes.get_mut(key.place()) {
        node.marked = marked;
    }
}

/// Inserts a node under the next free key, and links the last node of each of its lists to it, and its send to it. Memory
/// was reserved, so it can't fail. O(1). Apart, since its contract is by the slab alone, and its caller's by the list of
/// steps.
#[inline(always)]
pub(crate) fn join(nodes: &mut Slab<Node>, key: Key, node: Node)
    requires room { HasRoomFor nodes.old 1 }
    requires next { key ≡ nodes.old.vacant_key }
    ensures vacant { get nodes.old key ≡ None }
    ensures nodes { (k : ℕ) → get nodes.new k
        ≡ option_map (joined node key k) (if key == k then Some node else get nodes.old k) }
    ensures len { slab_len nodes.new ≡ slab_len nodes.old + 1 }
{
    let prev = node.prev;
    let prev_of_role = node.prev_of_role;
    let prev_send = node.prev_send;
    let matched = node.matched;
    nodes.insert_reserved(node);
    let link = Link::to(key);
    set_next(nodes, prev, link);
    set_next_of_role(nodes, prev_of_role, link);
    set_next_send(nodes, prev_send, link);
    set_matched(nodes, matched, link);
}

/// Removes a node that is the last of its role, links its neighbours to each other, and frees its send to be received
/// again. Its key is the next that is given. O(1). Apart for its proof, and inlined, so that the node needn't be
/// copied to the caller.
#[inline(always)]
pub(crate) fn part(nodes: &mut Slab<Node>, key: Key) -> Node
    requires { ContainsKey nodes.old key }
    ensures node { get nodes.old key ≡ Some result }
    ensures nodes { (k : ℕ) → get nodes.new k
        ≡ option_map (parted result k) (if key == k then None else get nodes.old k) }
    ensures len { slab_len nodes.new + 1 ≡ slab_len nodes.old }
    ensures next_key { nodes.new.vacant_key ≡ key }
    ensures capacity { nodes.new.capacity ≡ nodes.old.capacity }
    ensures small { key + 1 < 2 ^ 32 }
{
    let node = nodes.remove(key.place());
    let none = Link::none();
    set_next(nodes, node.prev, node.next);
    set_prev(nodes, node.next, node.prev);
    set_next_of_role(nodes, node.prev_of_role, none);
    set_next_send(nodes, node.prev_send, none);
    set_matched(nodes, node.matched, none);
    node
}

/// The key of the step that has the number, from 1, or `None`. The index has the key that the number had; the node there
/// may be gone or be a later step's by now, so its number is compared. O(1). Apart from `Arena::by_id`, since its contract
/// is by the index, and that one's by the list of steps.
pub(crate) fn key_of(nodes: &Slab<Node>, index: &[Key], id: StepId) -> Option<Key>
    ensures { result ≡ indexed_key (get nodes.now) index.now id }
{
    let number = id.number();
    if number == 0 {
        return None;
    }
    let key = *index.get(number as usize - 1)?;
    let node = nodes.get(key.place())?;
    if node.step.id.is(id) { Some(key) } else { None }
}
