//! The steps of a log by their keys: which step comes next or before, what a receipt took, and what depends on a step.
//! Those that only ask the arena have their contracts by a log's value, `Logged`, which has nothing of what an arena
//! reserved.
ghost use Rattle.std.specs.Prelude.{◌≡◌, ◌<◌, ◌==◌, ℕ, None, Some, IsSome};
ghost use Rattle.std.specs.List.{find};
ghost use Rattle.std.specs.Option.{option_copied, option_map};
ghost use Rattle.mps_history.specs.Steps.{newest_of, step_of};
ghost use Rattle.mps_history.specs.Dependence.{least, dependents};
ghost use Rattle.mps_arena.specs.Keys.{last_key};
ghost use Rattle.mps_arena.specs.KeyedSteps.{steps, keys_of, of_role, keyed_at, AreSound};
ghost use Rattle.mps_arena.specs.Neighbours.{next_of_role_in, prev_of_role_in, CanGo};
ghost use Rattle.mps_log.specs.Shown.{shown};
ghost use Rattle.mps_log.specs.Values.{message_taken};

use crate::log::{Log, taken_at};
use crate::moves::moved_at;
use mps_arena::{Before, Key};
use mps_base::{Message, Role, Step, StepId};
use mps_links::least_dependent;

impl Log {
    /// The key of the step that has the number, or `None` where it doesn't survive. O(1), by the arena, which callers
    /// don't see. The clause `sound` is for callers' proofs.
    #[inline(always)]
    pub fn by_id(&self, id: StepId) -> Option<Key>
        ensures key { result
            ≡ option_map (λ e. e.key) (find (λ e. e.step.id == id) self.now.keyed_steps) }
        ensures sound { AreSound self.now.keyed_steps }
    {
        self.arena.by_id(id)
    }

    /// The step of the key, which has to be there (`by_id` gives such a key), borrowed from the arena. O(1).
    #[inline(always)]
    pub fn get(&self, key: Key) -> &Step
        requires { IsSome (keyed_at key self.now.keyed_steps) }
        ensures { option_map (λ e. e.step) (keyed_at key self.now.keyed_steps) ≡ Some result.now }
    {
        self.arena.get(key)
    }

    /// What was there before the step of the key, which has to be there: the node at which its role stood, and the step
    /// to which the name that it binds was bound; for undoing it. O(1).
    #[inline(always)]
    pub fn before(&self, key: Key) -> Before
        requires { IsSome (keyed_at key self.now.keyed_steps) }
        ensures { option_map (λ e. e.before) (keyed_at key self.now.keyed_steps) ≡ Some result }
    {
        self.arena.before(key)
    }

    /// The key of the role's newest step, or `None` where it has none. O(1), by the arena, which callers don't see.
    #[inline(always)]
    pub fn last_of(&self, role: Role) -> Option<Key>
        requires { role < 8 }
        ensures { result ≡ last_key None (keys_of (of_role role) self.now.keyed_steps) }
    {
        self.arena.last_of(role)
    }

    /// The role's newest step, with the message that it gave or took, borrowed; `None` where it has none. O(1).
    pub fn newest_of(&self, role: Role) -> Option<(&Step, Option<&Message>)>
        requires { role < 8 }
        ensures { option_map (λ item. (item.0.now, option_copied item.1)) result
            ≡ newest_of role (shown self.now.keyed_steps self.now.keyed_steps) }
    {
        let key = self.arena.last_of(role)?;
        Some((self.arena.get(key), moved_at(&self.arena, key)))
    }

    /// The key of the next step of the same role; `None` for its newest, and where no step has the key. O(1), by the
    /// arena, which callers don't see. The clause `sound` is for callers' proofs.
    #[inline(always)]
    pub fn next_of_role(&self, key: Key) -> Option<Key>
        ensures next { result ≡ next_of_role_in self.now.keyed_steps key }
        ensures sound { AreSound self.now.keyed_steps }
    {
        self.arena.next_of_role(key)
    }

    /// The key of the previous step of the same role; `None` for its oldest, and where no step has the key. O(1), by
    /// the arena, which callers don't see.
    #[inline(always)]
    pub fn prev_of_role(&self, key: Key) -> Option<Key>
        ensures { result ≡ prev_of_role_in self.now.keyed_steps key }
    {
        self.arena.prev_of_role(key)
    }

    /// The message that the receipt or pick of the key took, borrowed from the step that gave it; `None` where the key
    /// is of no such step. O(1).
    #[inline(always)]
    pub fn taken(&self, key: Key) -> Option<&Message>
        ensures { option_copied result ≡ message_taken self.now.keyed_steps key }
    {
        taken_at(&self.arena, key)
    }

    /// The least number of another step that depends on this one, or `None`: then the step may be removed, as the
    /// clause `free` says in terms of the log. O(1); it does not allocate.
    #[inline(always)]
    pub fn least_dependent(&self, id: StepId) -> Option<StepId>
        requires present { IsSome (step_of (steps self.now.keyed_steps) id) }
        ensures least { result ≡ least (dependents (steps self.now.keyed_steps) id) }
        // a step on which nothing depends may be removed
        ensures free { result ≡ None → (k : ℕ)
            → option_map (λ e. e.key) (find (λ e. e.step.id == id) self.now.keyed_steps) ≡ Some k
            → CanGo self.now.keyed_steps k }
    {
        least_dependent(&self.arena, id)
    }
}
