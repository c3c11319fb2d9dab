//! Steps that are chosen, to be taken back together. The arena marks each: a flag, which has nothing to do with the
//! marks that roles leave, nor choosing steps with the choices that roles make.
ghost use Rattle.std.specs.Prelude.{◌≡◌, [], None, map, length, IsSome, IfSome};
ghost use Rattle.mps_history.specs.Steps.{step_of, within};
ghost use Rattle.mps_history.specs.Dependence.{consequences, least};
ghost use Rattle.mps_history.specs.Commits.{commits_from};
ghost use Rattle.mps_arena.specs.Keys.{last_key};
ghost use Rattle.mps_arena.specs.KeyedSteps.{steps, AreSound};
ghost use Rattle.mps_arena.specs.Neighbours.{CanGo};
ghost use Rattle.mps_links.specs.Marks.{marked_keys, AreMarksClosed, marked_by, unmarked, marked_commits};

use crate::log::Log;
use mps_arena::Key;
use mps_base::StepId;
use mps_links::{least_final, mark_from, newest_marked, unmark};

impl Log {
    /// Chooses the step of that number and all that depend on it, and returns how many. No step may be chosen already.
    /// It sets flags in the arena, does not allocate, and `choose_none` undoes it. O(chosen steps).
    pub fn choose_from(&mut self, id: StepId) -> usize
        requires present { IsSome (step_of (steps self.old.keyed_steps) id) }
        requires unmarked { marked_keys self.old.keyed_steps ≡ [] }
        ensures marks { self.new.keyed_steps
            ≡ map (marked_by (consequences (steps self.old.keyed_steps) id)) self.old.keyed_steps }
        ensures count { result ≡ length (within (steps self.old.keyed_steps)
            (consequences (steps self.old.keyed_steps) id)) }
        ensures closed { AreMarksClosed self.new.keyed_steps }
        ensures commits { marked_commits self.new.keyed_steps ≡ commits_from (steps self.old.keyed_steps) id }
        ensures issued { self.new.issued ≡ self.old.issued }
        ensures sound { AreSound self.new.keyed_steps }
    {
        mark_from(&mut self.arena, id)
    }

    /// The newest chosen step, or `None`, where each step that depends on a chosen one is chosen. So nothing depends on
    /// it, and `remove` may take it. O(1). The clause `sound` is for callers' proofs.
    #[inline(always)]
    pub fn newest_chosen(&self) -> Option<Key>
        requires closed { AreMarksClosed self.now.keyed_steps }
        ensures newest { result ≡ last_key None (marked_keys self.now.keyed_steps) }
        ensures none { result ≡ None → marked_keys self.now.keyed_steps ≡ [] }
        ensures free { IfSome result (λ key. CanGo self.now.keyed_steps key) }
        ensures sound { AreSound self.now.keyed_steps }
    {
        newest_marked(&self.arena)
    }

    /// The least number of a chosen commit, or `None`, where each step that depends on a chosen one is chosen. It does
    /// not allocate. Unproved: O(1) where no commit has ever joined, else O(chosen steps).
    #[inline(always)]
    pub fn least_final(&self) -> Option<StepId>
        requires closed { AreMarksClosed self.now.keyed_steps }
        ensures least { result ≡ least (marked_commits self.now.keyed_steps) }
    {
        if !self.had_commit {
            return None;
        }
        least_final(&self.arena)
    }

    /// Leaves no step chosen, where each step that depends on a chosen one is chosen; steps stay. O(chosen steps), and
    /// it can't fail.
    pub fn choose_none(&mut self)
        requires closed { AreMarksClosed self.old.keyed_steps }
        ensures keyed_steps { self.new.keyed_steps ≡ map unmarked self.old.keyed_steps }
        ensures issued { self.new.issued ≡ self.old.issued }
        ensures sound { AreSound self.new.keyed_steps }
    {
        unmark(&mut self.arena);
    }
}
