//! The first and the last steps: of all, of each role, of each pair.
ghost use Rattle.std.specs.Prelude.{◌≡◌, ℕ, ◌<◌, ◌+◌, ◌*◌, None, Some, false, length, slice_index_or, slice_set};
ghost use Rattle.std.specs.Prelude.{is_none, if◌then◌else◌};
ghost use Rattle.std.specs.Option.{option_or};
ghost use Rattle.mps_base.specs.Effects.{effect};
ghost use Rattle.mps_arena.specs.Private.Ends.{receiver, end_at, with_end};
ghost use Rattle.mps_arena.specs.KeyedSteps.{IsSmall};

use crate::node::{Before, Key, Link, Node};
use mps_base::{Act, Step};

/// The ends of an arena's linked lists: of all steps, of each role's, of each pair's sends. With them a step is
/// appended in O(1).
#[derive(Drop)]
pub(crate) struct Ends {
    pub(crate) first: Link,
    pub(crate) last: Link,
    pub(crate) last_of: [Link; 8],
    // the last send from p to q at p * 8 + q
    pub(crate) last_send: [Link; 64],
}

impl Ends {
    /// The ends of an arena without steps: no link anywhere. It does not allocate.
    pub(crate) fn new() -> Ends
        ensures first { result.first ≡ None }
        ensures last { result.last ≡ None }
        ensures roles { (k : ℕ) → slice_index_or result.last_of k None ≡ None }
        ensures pairs { (k : ℕ) → slice_index_or result.last_send k None ≡ None }
        ensures role_count { length result.last_of ≡ 8 }
        ensures pair_count { length result.last_send ≡ 64 }
    {
        let none = Link::none();
        Ends {
            first: none,
            last: none,
            last_of: [none; 8],
            last_send: [none; 64],
        }
    }

    /// The node of a step that is about to be appended, with links back to the last of each of its lists. `source` is
    /// the send that a receipt takes. Neither the ends nor other nodes are changed yet: `push` and `join` do that.
    pub(crate) fn node_after(&self, step: Step, before: Before, source: Option<Key>) -> Node
        requires small { IsSmall step }
        requires role_count { length self.now.last_of ≡ 8 }
        requires pair_count { length self.now.last_send ≡ 64 }
        ensures { result ≡ record {
          step = step;
          at = before.at;
          bound = before.bound;
          next = None;
          prev = self.now.last;
          next_of_role = None;
          prev_of_role = slice_index_or self.now.last_of step.role None;
          next_send = None;
          prev_send = end_at self.now.last_send step.role (receiver (effect step.act));
          matched = source;
          marked = false;
        } }
    {
        let role = step.role.index();
        let prev_send = match &step.act {
            Act::Out { to, .. } => self.last_send[role * 8 + to.index()],
            _ => Link::none(),
        };
        Node {
            step,
            at: before.at,
            marked: false,
            bound: Link::of(before.bound),
            next: Link::none(),
            prev: self.last,
            next_of_role: Link::none(),
            prev_of_role: self.last_of[role],
            next_send: Link::none(),
            prev_send,
            matched: Link::of(source),
        }
    }

    /// Makes the step, under that key, the last of all, of its role and, for a send, of its pair. Called after
    /// `node_after`, which needs the old ends.
    pub(crate) fn push(&mut self, step: &Step, key: Key)
        requires { IsSmall step.now }
        ensures first { self.new.first ≡ option_or self.old.first (Some key) }
        ensures last { self.new.last ≡ Some key }
        ensures last_of { self.new.last_of ≡ slice_set self.old.last_of step.now.role (Some key) }
        ensures last_send { self.new.last_send
            ≡ with_end self.old.last_send step.now.role (receiver (effect step.now.act)) (Some key) }
    {
        let role = step.role.index();
        if self.first.is_none() {
            self.first = Link::to(key);
        }
        self.last = Link::to(key);
        self.last_of[role] = Link::to(key);
        if let Act::Out { to, .. } = &step.act {
            self.last_send[role * 8 + to.index()] = Link::to(key);
        }
    }

    /// Takes a removed node off the ends: where it was an end, its neighbour is now. It was the last of its role, so a
    /// send was also the last of its pair.
    pub(crate) fn part(&mut self, node: &Node)
        requires { IsSmall node.now.step }
        ensures first { self.new.first ≡ (if is_none node.now.prev then node.now.next else self.old.first) }
        ensures last { self.new.last ≡ (if is_none node.now.next then node.now.prev else self.old.last) }
        ensures last_of { self.new.last_of ≡ slice_set self.old.last_of node.now.step.role node.now.prev_of_role }
        ensures last_send { self.new.last_send
            ≡ with_end self.old.last_send node.now.step.role (receiver (effect node.now.step.act)) node.now.prev_send }
    {
        let role = node.step.role.index();
        if node.prev.is_none() {
            self.first = node.next;
        }
        if node.next.is_none() {
            self.last = node.prev;
        }
        self.last_of[role] = node.prev_of_role;
        if let Act::Out { to, .. } = &node.step.act {
            self.last_send[role * 8 + to.index()] = node.prev_send;
        }
    }
}
