//! The arena.
ghost use Rattle.std.specs.Prelude.{◌≡◌, ◌+◌, ◌^◌, [], ◌∷◌, ◌++◌, ◌==◌, not, false, None, IsTrue, IsOk, OnOk, IfOk};
ghost use Rattle.std.specs.Prelude.{IsSome, Some, map, length, slice_get, ◌<◌};
ghost use Rattle.std.specs.Option.{option_map};
ghost use Rattle.std.specs.List.{filter, find};
ghost use Rattle.mps_base.specs.Effects.{effect};
ghost use Rattle.mps_history.specs.Steps.{sends, without};
ghost use Rattle.mps_arena.specs.Keys.{first_key, last_key};
ghost use Rattle.mps_arena.specs.KeyedSteps.{steps, any_step, of_role, keys_of, keyed_at, with_mark, HasSmallPeer};
ghost use Rattle.mps_arena.specs.KeyedSteps.{AreSound};
ghost use Rattle.mps_arena.specs.Neighbours.{IsSource, CanGo, next_in, prev_in, next_of_role_in, prev_of_role_in};
ghost use Rattle.mps_arena.specs.Neighbours.{next_send_in, prev_send_in, receipt_in, source_in, id_in};

use crate::ends::Ends;
use crate::links::{join, key_of, part, set_marked};
use crate::node::{Before, Key, Node, receipt_at, source_at};
use mps_base::{Act, Role, Step, StepId};
use slab::Slab;
use std::alloc::{AllocError, Global};
use std::marker::Model;

/// Steps in order, the oldest first, each under a key and with its neighbours.
#[derive(Drop)]
pub struct Arena {
    nodes: Slab<Node>,
    ends: Ends,
    // the key that number n + 1 had, at n
    index: Vec<Key>,
}

impl Model for Arena {
    ghost use Rattle.mps_arena.specs.KeyedSteps.{ArenaState};

    ghost Value = { ArenaState };

    ghost use Rattle.mps_arena.specs.Private.Views.{arena_value, IsArena};

    ghost view = { arena_value };

    ghost invariant = { IsArena };
}

impl Arena {
    /// An arena with no steps. It does not allocate; the allocator is kept for `reserve_one`.
    pub fn new(alloc: Global) -> Arena
        ensures keyed_steps { result.keyed_steps ≡ [] }
        ensures issued { result.issued ≡ 0 }
    {
        Arena {
            nodes: Slab::new(alloc),
            ends: Ends::new(),
            index: Vec::new(alloc),
        }
    }

    /// Reserves memory for one more step, and returns the key that it will have. The only call that allocates,
    /// amortised O(1). Out of memory, or 2^32 - 1 keys in use, is the only error; steps and numbers are unchanged then.
    #[inline(always)]
    pub fn reserve_one(&mut self) -> Result<Key, AllocError>
        ensures space { OnOk result (IsTrue self.new.has_space) }
        ensures key { IfOk result (λ key. key ≡ self.new.next_key) }
        ensures keyed_steps { self.new.keyed_steps ≡ self.old.keyed_steps }
        ensures issued { self.new.issued ≡ self.old.issued }
        ensures next { self.new.next_key ≡ self.old.next_key }
        ensures succeeds { IsTrue self.old.has_space → IsOk result }
    {
        self.nodes.reserve(1)?;
        self.index.reserve(1)?;
        Key::of(self.nodes.vacant_key())
    }

    /// Appends an act of the role as a step, unmarked, in O(1), and returns its number, the next one. A receipt or a
    /// pick comes with its `source`, the first unreceived send of its pair. Memory has to be reserved, so it can't
    /// fail.
    #[inline(always)]
    pub fn add(&mut self, role: Role, act: Act, before: Before, source: Option<Key>) -> StepId
        requires space { IsTrue self.old.has_space }
        requires role { role < 8 }
        requires peer { HasSmallPeer (effect act) }
        requires source { IsSource self.old.keyed_steps role (effect act) source }
        ensures number { result ≡ self.old.issued + 1 }
        ensures fresh { keyed_at self.old.next_key self.old.keyed_steps ≡ None }
        ensures keyed_steps { self.new.keyed_steps ≡ self.old.keyed_steps ++ record {
          key = self.old.next_key;
          step = record { id = result; role = role; act = act };
          before = before;
          marked = false;
        } ∷ [] }
        ensures issued { self.new.issued ≡ self.old.issued + 1 }
        ensures sound { AreSound self.new.keyed_steps }
    {
        // found again, so that no caller can give another
        let key = Key::small(self.nodes.vacant_key());
        let id = StepId::new(self.index.len() as u64 + 1);
        let node = self.ends.node_after(Step { id, role, act }, before, source);
        self.ends.push(&node.step, key);
        join(&mut self.nodes, key, node);
        self.index.push_reserved(key);
        id
    }

    /// Removes and returns a step that is the last of its role and, if it is a send or a choice, isn't received. O(1);
    /// it does not allocate. The number is never given out again, the key is the next to be used.
    #[inline(always)]
    pub fn remove(&mut self, key: Key) -> Step
        requires { CanGo self.old.keyed_steps key }
        ensures step { option_map (λ e. e.step) (keyed_at key self.old.keyed_steps) ≡ Some result }
        ensures keyed_steps { self.new.keyed_steps ≡ filter (λ e. not (e.key == key)) self.old.keyed_steps }
        ensures history { steps self.new.keyed_steps
            ≡ without (steps self.old.keyed_steps) (λ m. m == result.id) }
        ensures issued { self.new.issued ≡ self.old.issued }
        ensures sound { AreSound self.new.keyed_steps }
        // the place is the next to be used again, and what was reserved stays so
        ensures key { self.new.next_key ≡ key }
        ensures space { IsTrue self.old.has_space → IsTrue self.new.has_space }
    {
        let node = part(&mut self.nodes, key);
        self.ends.part(&node);
        node.step
    }

    /// How many steps there are now. The clause `sound` is for callers' proofs, as of `steps_are_sound`.
    pub fn len(&self) -> usize
        ensures count { result ≡ length self.now.keyed_steps }
        // numbers rise, no key stands twice, and no receipt comes before its send
        ensures sound { AreSound self.now.keyed_steps }
    {
        self.nodes.len()
    }

    /// The key of the k-th step in order, from 0, or `None` where there are not so many. O(k): it walks from the
    /// oldest.
    pub fn nth(&self, k: usize) -> Option<Key>
        ensures { result ≡ slice_get (keys_of any_step self.now.keyed_steps) k }
    {
        if k >= self.len() {
            return None;
        }
        let mut at = self.first()?;
        for _ in 0..k {
            at = self.next(at)?;
        }
        Some(at)
    }

    /// How many numbers were given out: also to steps that were removed since, so it never falls.
    pub fn issued(&self) -> usize
        ensures { result ≡ self.now.issued }
    {
        self.index.len()
    }

    /// The key of the step right after this one in the order of all; `None` for the newest, and where no step has the
    /// key. O(1).
    pub fn next(&self, key: Key) -> Option<Key>
        ensures { result ≡ next_in self.now.keyed_steps key }
    {
        self.nodes.get(key.place())?.next.key()
    }

    /// The key of the step right before this one in the order of all; `None` for the oldest, and where no step has the
    /// key. O(1).
    pub fn prev(&self, key: Key) -> Option<Key>
        ensures { result ≡ prev_in self.now.keyed_steps key }
    {
        self.nodes.get(key.place())?.prev.key()
    }

    /// The key of the next step of the same role; `None` for its newest, and where no step has the key. O(1).
    pub fn next_of_role(&self, key: Key) -> Option<Key>
        ensures { result ≡ next_of_role_in self.now.keyed_steps key }
    {
        self.nodes.get(key.place())?.next_of_role.key()
    }

    /// The key of the previous step of the same role; `None` for its oldest, and where no step has the key. O(1).
    pub fn prev_of_role(&self, key: Key) -> Option<Key>
        ensures { result ≡ prev_of_role_in self.now.keyed_steps key }
    {
        self.nodes.get(key.place())?.prev_of_role.key()
    }

    /// The key of the next send or choice of the same pair, sender and receiver; `None` for its newest, and where the
    /// key is no send's. O(1).
    pub fn next_send(&self, key: Key) -> Option<Key>
        ensures { result ≡ next_send_in self.now.keyed_steps key }
    {
        self.nodes.get(key.place())?.next_send.key()
    }

    /// The key of the previous send or choice of the same pair, sender and receiver; `None` for its oldest, and where
    /// the key is no send's. O(1).
    pub fn prev_send(&self, key: Key) -> Option<Key>
        ensures { result ≡ prev_send_in self.now.keyed_steps key }
    {
        self.nodes.get(key.place())?.prev_send.key()
    }

    /// The key of the receipt that took the message of a send or a choice; `None` where it still waits, and where the
    /// key is no send's. O(1).
    pub fn receipt(&self, key: Key) -> Option<Key>
        ensures { result ≡ receipt_in self.now.keyed_steps key }
    {
        let node = self.nodes.get(key.place())?;
        receipt_at(&node.step.act, node.matched)
    }

    /// The key of the send or choice whose message a receipt or a pick took; `None` where the key is of no such step.
    /// O(1).
    pub fn source(&self, key: Key) -> Option<Key>
        ensures { result ≡ source_in self.now.keyed_steps key }
    {
        let node = self.nodes.get(key.place())?;
        source_at(&node.step.act, node.matched)
    }

    /// The number of the step; `None` where no step has the key. So it tells whether `get`, `before` and `marked` may
    /// be called.
    pub fn id(&self, key: Key) -> Option<StepId>
        ensures { result ≡ id_in self.now.keyed_steps key }
    {
        Some(self.nodes.get(key.place())?.step.id)
    }

    /// The step of the key, which has to be there (`id` tells), borrowed. O(1).
    pub fn get(&self, key: Key) -> &Step
        requires { IsSome (keyed_at key self.now.keyed_steps) }
        ensures { option_map (λ e. e.step) (keyed_at key self.now.keyed_steps) ≡ Some result.now }
    {
        &self.nodes[key.place()].step
    }

    /// What was there before the step of the key, which has to be there: the node at which its role stood, and the step
    /// to which the name that it binds was bound; for undoing it. O(1).
    pub fn before(&self, key: Key) -> Before
        requires { IsSome (keyed_at key self.now.keyed_steps) }
        ensures { option_map (λ e. e.before) (keyed_at key self.now.keyed_steps) ≡ Some result }
    {
        let node = &self.nodes[key.place()];
        Before {
            at: node.at,
            bound: node.bound.key(),
        }
    }

    /// Whether the step of the key, which has to be there, has its flag set: the one that `set_mark` sets, not a `Mark`
    /// that a role left.
    pub fn marked(&self, key: Key) -> bool
        requires { IsSome (keyed_at key self.now.keyed_steps) }
        ensures { option_map (λ e. e.marked) (keyed_at key self.now.keyed_steps) ≡ Some result }
    {
        self.nodes[key.place()].marked
    }

    /// Sets or clears the flag of the step, by which walks note where they were. Where no step has the key, nothing
    /// changes. O(1).
    pub fn set_mark(&mut self, key: Key, marked: bool)
        ensures keyed_steps { self.new.keyed_steps ≡ map (with_mark key marked) self.old.keyed_steps }
        ensures issued { self.new.issued ≡ self.old.issued }
        ensures space { self.new.has_space ≡ self.old.has_space }
        ensures key { self.new.next_key ≡ self.old.next_key }
    {
        set_marked(&mut self.nodes, key, marked);
    }

    /// The key of the step that has the number, or `None` where it was removed or never given out. O(1): numbers have
    /// an index.
    pub fn by_id(&self, id: StepId) -> Option<Key>
        ensures { result
            ≡ option_map (λ e. e.key) (find (λ e. e.step.id == id) self.now.keyed_steps) }
    {
        key_of(&self.nodes, self.index.as_slice(), id)
    }

    /// The key of the oldest step, or `None` without steps. O(1).
    pub fn first(&self) -> Option<Key>
        ensures { result ≡ first_key (keys_of any_step self.now.keyed_steps) }
    {
        self.ends.first.key()
    }

    /// The key of the newest step, or `None` without steps. O(1).
    pub fn last(&self) -> Option<Key>
        ensures { result ≡ last_key None (keys_of any_step self.now.keyed_steps) }
    {
        self.ends.last.key()
    }

    /// The key of the role's newest step, or `None` where it has none. O(1).
    pub fn last_of(&self, role: Role) -> Option<Key>
        requires { role < 8 }
        ensures { result ≡ last_key None (keys_of (of_role role) self.now.keyed_steps) }
    {
        self.ends.last_of[role.index()].key()
    }

    /// The key of the newest send or choice from one role to the other, received or not, or `None`. O(1).
    pub fn last_send(&self, from: Role, to: Role) -> Option<Key>
        requires from { from < 8 }
        requires to { to < 8 }
        ensures { result ≡ last_key None (keys_of (sends from to) self.now.keyed_steps) }
    {
        self.ends.last_send[from.index() * 8 + to.index()].key()
    }
}
