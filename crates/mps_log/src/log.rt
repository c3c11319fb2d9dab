//! The log.
ghost use Rattle.std.specs.Prelude.{◌≡◌, ◌<◌, ◌+◌, ◌==◌, ℕ, List, [], not, Some, None, IfOk, OnOk, OnErr, IsSome};
ghost use Rattle.std.specs.Prelude.{IfSome, length, slice_get};
ghost use Rattle.std.specs.List.{filter};
ghost use Rattle.std.specs.Option.{option_copied, option_map, option_and_then};
ghost use Rattle.mps_base.specs.declared.action.Act.TheVariants.{Out, In, Mark, Commit};
ghost use Rattle.mps_history.specs.Steps.{without, unreceived};
ghost use Rattle.mps_arena.specs.KeyedSteps.{steps, keyed_at, AreSound};
ghost use Rattle.mps_arena.specs.Neighbours.{id_in, first_waiting, CanGo};
ghost use Rattle.mps_queues.specs.Fronts.{AreFronts};
ghost use Rattle.std.specs.Map.Iter.{deref_pair};
ghost use Rattle.mps_base.specs.declared.value.Value.{Value};
ghost use Rattle.mps_stores.specs.Stores.{Naming, slot_of, mark_of, bindings, AreStores};
ghost use Rattle.mps_log.specs.Joins.{HasJoined};
ghost use Rattle.mps_log.specs.Shown.{shown};
ghost use Rattle.mps_log.specs.Values.{message_of, message_sent, message_taken, value_taken, kept_in};
ghost use Rattle.mps_log.specs.Values.{kept_by, last_mark};

use crate::moves::Moves;
use crate::queue::Queue;
use mps_arena::{Arena, Before, Key};
use mps_base::{Act, Message, Name, Role, Step, StepId, Value};
use mps_queues::Queues;
use mps_stores::Stores;
use std::alloc::{AllocError, Global};
use std::marker::Model;

/// The surviving steps, the oldest first, with the queues and the slots that they lead to, and each role's last mark of
/// each name. Each message is kept once, in the step that gave it.
#[derive(Drop)]
pub struct Log {
    pub(crate) arena: Arena,
    queues: Queues,
    slots: Stores,
    marks: Stores,
    // whether a commit has ever joined: where none has, a rollback needn't look for one
    pub(crate) had_commit: bool,
}

impl Model for Log {
    ghost use Rattle.mps_log.specs.Logged.{Logged};
    ghost use Rattle.mps_log.specs.Private.Logged.{log_value, IsLog};

    ghost Value = { Logged };

    ghost view = { log_value };

    ghost invariant = { IsLog };
}

// Before a step is removed, undoes its binding: its name, if it binds one, is bound again to what it was before. For
// slots and for marks alike, so apart from `give_back`.
#[inline(always)]
fn unbind(stores: &mut Stores, arena: &Arena, key: Key, name: Option<&Name>)
    requires can { CanGo arena.now.keyed_steps key }
    requires sound { AreSound arena.now.keyed_steps }
    ensures { (naming : Naming) → AreStores naming arena.now.keyed_steps stores.old
        → option_map (λ e. naming e.step.act) (keyed_at key arena.now.keyed_steps) ≡ Some (option_copied name.entry)
        → AreStores naming (filter (λ e. not (e.key == key)) arena.now.keyed_steps) stores.new }
{
    if let Some(name) = name {
        stores.unbind(arena.get(key).role, name, arena.before(key).bound);
    }
}

// Before a step is removed, undoes its effect on queues and stores: a send's message leaves its queue, a receipt's is
// in front of it again, and the step's name is bound again as before. The fields come one by one, since the arena is
// borrowed beside them.
#[inline(always)]
fn give_back(queues: &mut Queues, slots: &mut Stores, marks: &mut Stores, arena: &Arena, key: Key)
    requires can { CanGo arena.now.keyed_steps key }
    requires sound { AreSound arena.now.keyed_steps }
    requires fronts { AreFronts arena.now.keyed_steps queues.old }
    requires slots { AreStores slot_of arena.now.keyed_steps slots.old }
    requires marks { AreStores mark_of arena.now.keyed_steps marks.old }
    ensures fronts { AreFronts (filter (λ e. not (e.key == key)) arena.now.keyed_steps) queues.new }
    ensures slots { AreStores slot_of (filter (λ e. not (e.key == key)) arena.now.keyed_steps) slots.new }
    ensures marks { AreStores mark_of (filter (λ e. not (e.key == key)) arena.now.keyed_steps) marks.new }
{
    let step = arena.get(key);
    match &step.act {
        Act::Out { to, .. } => queues.drop_last(arena, step.role, *to),
        Act::In { from, slot } => {
            unbind(slots, arena, key, slot.as_ref());
            queues.put_back(arena, *from, step.role);
        }
        Act::Mark(name) => unbind(marks, arena, key, Some(name)),
        Act::Commit => {}
    }
}

// The message that the step of the key, which has to be there, gave, borrowed; `None` where it is no send or choice.
pub(crate) fn message_at(arena: &Arena, key: Key) -> Option<&Message>
    requires { IsSome (keyed_at key arena.now.keyed_steps) }
    ensures { option_copied result ≡ message_of arena.now.keyed_steps key }
{
    match &arena.get(key).act {
        Act::Out { message, .. } => Some(message),
        _ => None,
    }
}

// The message that the receipt or pick of the key took, which is stored in the step that gave it; `None` where the key
// is of no such step. O(1).
pub(crate) fn taken_at(arena: &Arena, key: Key) -> Option<&Message>
    ensures { option_copied result ≡ message_taken arena.now.keyed_steps key }
{
    let source = arena.source(key)?;
    message_at(arena, source)
}

// The value that the receipt of the key took, borrowed; `None` where it took a label, or the key is of no receipt.
fn value_at(arena: &Arena, receipt: Key) -> Option<&Value>
    ensures { option_copied result ≡ value_taken arena.now.keyed_steps receipt }
{
    match taken_at(arena, receipt) {
        Some(Message::Value(value)) => Some(value),
        _ => None,
    }
}

impl Log {
    /// A log without steps. It allocates the lists of the two stores; out of memory is the only error. The allocator is
    /// kept for later growth.
    pub fn new(alloc: Global) -> Result<Log, AllocError>
        ensures keyed_steps { IfOk result (λ log. log.keyed_steps ≡ []) }
        ensures issued { IfOk result (λ log. log.issued ≡ 0) }
    {
        Ok(Log {
            arena: Arena::new(alloc),
            queues: Queues::new(),
            slots: Stores::new(alloc)?,
            marks: Stores::new(alloc)?,
            had_commit: false,
        })
    }

    /// How many numbers were given out: also to steps that were removed since, so it never falls. The next step gets
    /// this number plus 1.
    #[inline(always)]
    pub fn issued(&self) -> usize
        ensures { result ≡ self.now.issued }
    {
        self.arena.issued()
    }

    /// How many steps there are now, also those that are chosen. The clause `sound` is for callers' proofs.
    #[inline(always)]
    pub fn len(&self) -> usize
        ensures count { result ≡ length self.now.keyed_steps }
        ensures sound { AreSound self.now.keyed_steps }
    {
        self.arena.len()
    }

    /// The k-th step in order, from 0, or `None` where there are not so many. O(k): it walks from the oldest.
    pub fn step(&self, k: usize) -> Option<&Step>
        ensures { option_copied result ≡ slice_get (steps self.now.keyed_steps) k }
    {
        let key = self.arena.nth(k)?;
        Some(self.arena.get(key))
    }

    /// An iterator over the steps in order, each with the message that it gave or took. It does not allocate.
    pub fn moves(&self) -> Moves<'_>
        ensures { result ≡ shown self.now.keyed_steps self.now.keyed_steps }
    {
        Moves::of(&self.arena)
    }

    /// The arena, which has the steps with their links, to read: for tests, which compare it with plain lists. The
    /// clause `sound` is for callers' proofs.
    pub fn steps(&self) -> &Arena
        ensures keyed_steps { result.now.keyed_steps ≡ self.now.keyed_steps }
        ensures issued { result.now.issued ≡ self.now.issued }
        ensures sound { AreSound self.now.keyed_steps }
    {
        &self.arena
    }

    /// The k-th message that waits from one role to another, from 0, or `None` where not so many wait. O(k). Any roles
    /// may be named: for one that can't be there, at place 8 or more, nothing waits.
    pub fn message(&self, from: Role, to: Role, k: usize) -> Option<&Message>
        ensures { option_copied result
            ≡ slice_get (unreceived from to (steps self.now.keyed_steps)) k }
    {
        let arena = &self.arena;
        if from.index() >= 8 || to.index() >= 8 {
            return None;
        }
        let key = self.queues.nth(arena, from, to, k)?;
        message_at(arena, key)
    }

    /// The first message that waits from one role to another, with the number of the step that gave it, or `None`.
    /// O(1). Any roles may be named: for one that can't be there, at place 8 or more, nothing waits.
    pub fn first_sent(&self, from: Role, to: Role) -> Option<(StepId, &Message)>
        ensures message { option_map (λ sent. sent.1.now) result
            ≡ slice_get (unreceived from to (steps self.now.keyed_steps)) 0 }
        ensures step { option_map (λ sent. sent.0) result
            ≡ option_and_then (id_in self.now.keyed_steps) (first_waiting self.now.keyed_steps from to) }
        // by its number the message is found again
        ensures gives { IfSome result (λ sent.
            message_sent (steps self.now.keyed_steps) sent.0 ≡ Some sent.1.now) }
    {
        let arena = &self.arena;
        if from.index() >= 8 || to.index() >= 8 {
            return None;
        }
        let key = self.queues.front(from, to)?;
        let step = arena.get(key);
        match &step.act {
            Act::Out { message, .. } => Some((step.id, message)),
            // never: the front of a queue is a send
            _ => None,
        }
    }

    /// The role's value in the slot: what the newest receipt into it took, borrowed; `None` where the slot isn't bound.
    /// O(1).
    pub fn value(&self, role: Role, slot: &Name) -> Option<&Value>
        requires { role < 8 }
        ensures { option_copied result ≡ kept_in self.now.keyed_steps role slot.now }
    {
        let receipt = self.slots.get(role, slot)?;
        value_at(&self.arena, receipt)
    }

    /// The key of the role's last mark of the name, or `None` where none survives: what a return to a mark starts from.
    /// O(1).
    pub fn last_mark(&self, role: Role, name: &Name) -> Option<Key>
        requires { role < 8 }
        ensures { result ≡ last_mark self.now.keyed_steps role name.now }
    {
        self.marks.get(role, name)
    }

    /// How many slots of the role are bound now, for `binding` to list. O(1).
    pub fn slots(&self, role: Role) -> usize
        requires { role < 8 }
        ensures { result ≡ length (bindings slot_of role self.now.keyed_steps) }
    {
        self.slots.count(role)
    }

    /// The role's slot that was first bound as the k-th, from 0, and the value in it, or `None` where fewer are bound.
    /// O(1).
    pub fn binding(&self, role: Role, k: usize) -> Option<(&Name, &Value)>
        requires { role < 8 }
        ensures { option_map (deref_pair {K = List ℕ} {X = Value}) result
            ≡ option_and_then (kept_by self.now.keyed_steps)
            (slice_get (bindings slot_of role self.now.keyed_steps) k) }
    {
        let bound = self.slots.nth(role, k)?;
        let value = value_at(&self.arena, *bound.1)?;
        Some((bound.0, value))
    }

    /// An iterator over the messages that wait from one role to another, in order of sending. It does not allocate. Any
    /// roles may be named: for one that can't be there, at place 8 or more, nothing waits.
    pub fn waiting(&self, from: Role, to: Role) -> Queue<'_>
        ensures { result ≡ unreceived from to (steps self.now.keyed_steps) }
    {
        let arena = &self.arena;
        if from.index() >= 8 || to.index() >= 8 {
            return Queue::of(arena, from, to, None);
        }
        let first = self.queues.front(from, to);
        Queue::of(arena, from, to, first)
    }

    /// Appends a send or a choice under the next number, and its message to the pair's queue. `at` is the node at which
    /// the role stood before, for `remove` to tell. Out of memory is the only error, and changes nothing.
    #[inline(always)]
    pub fn send(
        &mut self,
        role: Role,
        to: Role,
        message: Message,
        at: u16,
    ) -> Result<StepId, AllocError>
        requires role { role < 8 }
        requires to { to < 8 }
        ensures id { IfOk result (λ id. id ≡ self.old.issued + 1) }
        ensures joined { OnOk result (HasJoined self.old self.new role (Out to message) at) }
        ensures err { OnErr result (self.new ≡ self.old) }
    {
        let key = self.arena.reserve_one()?;
        // nothing fails from here on
        self.queues.push(role, to, key);
        let act = Act::Out { to, message };
        let before = Before { at, bound: None };
        Ok(self.arena.add(role, act, before, None))
    }

    /// Appends a receipt or a pick under the next number. It takes the first message that waits, which has to be there,
    /// and binds a receipt's slot. `at` is the node at which the role stood before. Out of memory is the only error,
    /// and changes nothing.
    pub fn receive(
        &mut self,
        role: Role,
        from: Role,
        slot: Option<&Name>,
        at: u16,
    ) -> Result<StepId, AllocError>
        requires role { role < 8 }
        requires from { from < 8 }
        requires waits { IsSome (first_waiting self.old.keyed_steps from role) }
        ensures id { IfOk result (λ id. id ≡ self.old.issued + 1) }
        ensures joined { OnOk result (HasJoined self.old self.new role (In from (option_copied slot.entry)) at) }
        ensures err { OnErr result (self.new ≡ self.old) }
    {
        let key = self.arena.reserve_one()?;
        let bound = match slot {
            Some(slot) => self.slots.bind(role, slot, key)?,
            None => None,
        };
        // nothing fails from here on
        let source = self.queues.take(&self.arena, from, role);
        let slot = slot.copied();
        let act = Act::In { from, slot };
        Ok(self.arena.add(role, act, Before { at, bound }, source))
    }

    /// Appends a mark under the next number, and binds its name to it, as the role's last of the name. `at` is the node
    /// at which the role stood before. Out of memory is the only error, and changes nothing.
    pub fn mark(&mut self, role: Role, name: Name, at: u16) -> Result<StepId, AllocError>
        requires { role < 8 }
        ensures id { IfOk result (λ id. id ≡ self.old.issued + 1) }
        ensures joined { OnOk result (HasJoined self.old self.new role (Mark name) at) }
        ensures err { OnErr result (self.new ≡ self.old) }
    {
        let key = self.arena.reserve_one()?;
        let bound = self.marks.bind(role, &name, key)?;
        let act = Act::Mark(name);
        Ok(self.arena.add(role, act, Before { at, bound }, None))
    }

    /// Appends a commit under the next number; it is in no queue and no store. `at` is the node at which the role stood
    /// before. Out of memory is the only error, and changes nothing.
    pub fn commit(&mut self, role: Role, at: u16) -> Result<StepId, AllocError>
        requires { role < 8 }
        ensures id { IfOk result (λ id. id ≡ self.old.issued + 1) }
        ensures joined { OnOk result (HasJoined self.old self.new role Commit at) }
        ensures err { OnErr result (self.new ≡ self.old) }
    {
        // the key isn't needed: a commit is in no queue and no store
        self.arena.reserve_one()?;
        self.had_commit = true;
        let before = Before { at, bound: None };
        Ok(self.arena.add(role, Act::Commit, before, None))
    }

    /// Removes and returns a step that is the last of its role and, if it is a send or a choice, isn't received. Its
    /// effect on queue, slot and mark is undone too. It does not allocate, and can't fail. O(1), but O(names) where a
    /// slot or a mark is bound no more, to keep the order of the others.
    #[inline(always)]
    pub fn remove(&mut self, key: Key) -> Step
        requires { CanGo self.old.keyed_steps key }
        ensures step { option_map (λ e. e.step) (keyed_at key self.old.keyed_steps) ≡ Some result }
        ensures keyed_steps { self.new.keyed_steps ≡ filter (λ e. not (e.key == key)) self.old.keyed_steps }
        ensures history { steps self.new.keyed_steps
            ≡ without (steps self.old.keyed_steps) (λ m. m == result.id) }
        ensures issued { self.new.issued ≡ self.old.issued }
        ensures sound { AreSound self.new.keyed_steps }
    {
        give_back(
            &mut self.queues,
            &mut self.slots,
            &mut self.marks,
            &self.arena,
            key,
        );
        self.arena.remove(key)
    }
}
