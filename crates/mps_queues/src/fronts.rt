//! The queues by their fronts.
ghost use Rattle.std.specs.Prelude.{◌≡◌, ℕ, ◌<◌, ◌+◌, ◌*◌, ◌==◌, not, List, [], ◌∷◌, ◌++◌, Some, None, IsTrue, IsSome};
ghost use Rattle.std.specs.Prelude.{slice_get};
ghost use Rattle.std.specs.List.{filter};
ghost use Rattle.mps_history.specs.Steps.{sends, receives};
ghost use Rattle.mps_arena.specs.Keys.{last_key};
ghost use Rattle.mps_arena.specs.KeyedSteps.{KeyedStep, keys_of, AreSound};
ghost use Rattle.mps_arena.specs.Neighbours.{first_waiting};
ghost use Rattle.mps_queues.specs.Fronts.{front_at, waiting_keys, AreFronts};
ghost use Rattle.mps_queues.specs.Private.Fronts.{taken, returned, dropped};

use mps_arena::{Arena, Key, Link, steps_are_sound};
use mps_base::Role;
use std::marker::Model;

/// Of each pair of roles the first send that isn't received. With the chain of the pair's sends, which the arena keeps,
/// it says the whole queue: that send and all after it.
#[derive(Drop)]
pub struct Queues {
    // that from p to q at p * 8 + q
    fronts: [Link; 64],
}

impl Model for Queues {
    ghost use Rattle.std.specs.Prelude.{◌≡◌, ℕ, List, Option, length};

    ghost Value = { List (Option ℕ) };

    ghost view = { λ q. q.fronts };

    ghost invariant = { λ q. length q.fronts ≡ 64 };
}

// The front of a queue after its first send is received: the pair's next send, or none. Apart from `take`, which stores
// it in the array.
fn taken_front(arena: &Arena, front: Link) -> Link
    ensures { result ≡ taken arena.now.keyed_steps front }
{
    match front.key() {
        Some(front) => Link::of(arena.next_send(front)),
        None => Link::none(),
    }
}

// The front of a queue after the pair's last receipt is undone: the send before the old front or, where nothing waited,
// the pair's last send. Apart from `put_back`, as `taken_front` from `take`.
fn returned_front(arena: &Arena, last: Option<Key>, front: Link) -> Link
    ensures { result ≡ returned arena.now.keyed_steps last front }
{
    match front.key() {
        Some(front) => Link::of(arena.prev_send(front)),
        None => Link::of(last),
    }
}

// The front of a queue after the pair's last send is undone: none where that send was the front, else as before. Apart
// from `drop_last`, as `taken_front` from `take`.
fn dropped_front(last: Option<Key>, front: Link) -> Link
    ensures { result ≡ dropped last front }
{
    match (last, front.key()) {
        (Some(last), Some(first)) if last.is(first) => Link::none(),
        _ => front,
    }
}

impl Queues {
    /// The queues of 8 roles in which nothing waits: 64 fronts, kept inline. It does not allocate.
    pub fn new() -> Queues
        ensures { AreFronts [] result }
    {
        let none = Link::none();
        Queues { fronts: [none; 64] }
    }

    /// The key of the first send from one role to the other that isn't received, or `None` where nothing waits. O(1).
    pub fn front(&self, from: Role, to: Role) -> Option<Key>
        requires from { from < 8 }
        requires to { to < 8 }
        ensures { (es : List KeyedStep) → AreFronts es self.now → result ≡ first_waiting es from to }
    {
        self.fronts[from.index() * 8 + to.index()].key()
    }

    /// The key of the k-th send from one role to the other that isn't received, from 0, or `None` where not so many
    /// wait. O(k): it walks from the front.
    pub fn nth(&self, arena: &Arena, from: Role, to: Role, k: usize) -> Option<Key>
        requires from { from < 8 }
        requires to { to < 8 }
        requires fronts { AreFronts arena.now.keyed_steps self.now }
        ensures { result ≡ slice_get (waiting_keys arena.now.keyed_steps from to) k }
    {
        // for the proof alone
        steps_are_sound(arena);
        let mut at = self.front(from, to)?;
        for _ in 0..k {
            at = arena.next_send(at)?;
        }
        Some(at)
    }

    /// Appends a send to its pair's queue. Only an empty queue changes, since the arena links the sends; so the send
    /// may join the arena before that or after. O(1).
    pub fn push(&mut self, from: Role, to: Role, key: Key)
        requires from { from < 8 }
        requires to { to < 8 }
        ensures { (es : List KeyedStep) (e : KeyedStep) → AreFronts es self.old → AreSound es
            → IsTrue (sends from to e.step) → e.key ≡ key → AreFronts (es ++ e ∷ []) self.new }
    {
        let at = from.index() * 8 + to.index();
        if self.fronts[at].is_none() {
            self.fronts[at] = Link::to(key);
        }
    }

    /// Removes the first send from its pair's queue, before its receipt joins the arena, and returns its key; `None`
    /// where nothing waits, and then nothing changes. O(1).
    pub fn take(&mut self, arena: &Arena, from: Role, to: Role) -> Option<Key>
        requires from { from < 8 }
        requires to { to < 8 }
        requires fronts { AreFronts arena.now.keyed_steps self.old }
        ensures first { result ≡ first_waiting arena.now.keyed_steps from to }
        ensures fronts { (e : KeyedStep) → IsTrue (receives from to e.step)
            → AreFronts (arena.now.keyed_steps ++ e ∷ []) self.new }
    {
        // for the proof alone
        steps_are_sound(arena);
        let at = from.index() * 8 + to.index();
        let front = self.fronts[at];
        self.fronts[at] = taken_front(arena, front);
        front.key()
    }

    /// Undoes `take`: the send of the pair's last receipt is in front of the queue again. Called before the receipt
    /// leaves the arena. O(1).
    pub fn put_back(&mut self, arena: &Arena, from: Role, to: Role)
        requires from { from < 8 }
        requires to { to < 8 }
        requires fronts { AreFronts arena.now.keyed_steps self.old }
        requires some { IsSome (last_key None (keys_of (receives from to) arena.now.keyed_steps)) }
        ensures { (k : ℕ) → last_key None (keys_of (receives from to) arena.now.keyed_steps) ≡ Some k
            → AreFronts (filter (λ e. not (e.key == k)) arena.now.keyed_steps) self.new }
    {
        // for the proof alone
        steps_are_sound(arena);
        let at = from.index() * 8 + to.index();
        let front = self.fronts[at];
        let last = arena.last_send(from, to);
        self.fronts[at] = returned_front(arena, last, front);
    }

    /// Undoes `push`: the pair's last send is in its queue no more. Called before the send leaves the arena, and only
    /// for one that isn't received. O(1).
    pub fn drop_last(&mut self, arena: &Arena, from: Role, to: Role)
        requires from { from < 8 }
        requires to { to < 8 }
        requires fronts { AreFronts arena.now.keyed_steps self.old }
        requires some { IsSome (last_key None (keys_of (sends from to) arena.now.keyed_steps)) }
        ensures { (k : ℕ) → last_key None (keys_of (sends from to) arena.now.keyed_steps) ≡ Some k
            → AreFronts (filter (λ e. not (e.key == k)) arena.now.keyed_steps) self.new }
    {
        // for the proof alone
        steps_are_sound(arena);
        let at = from.index() * 8 + to.index();
        let front = self.fronts[at];
        let last = arena.last_send(from, to);
        self.fronts[at] = dropped_front(last, front);
    }
}
