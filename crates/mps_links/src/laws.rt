//! Laws of marks, for whoever removes the marked steps, the newest first.
ghost use Rattle.std.specs.Prelude.{◌≡◌, ◌==◌, ◌+◌, ◌++◌, ◌∷◌, [], ℕ, Bool, List, Some, None, not, map, length};
ghost use Rattle.std.specs.List.{filter};
ghost use Rattle.mps_history.specs.Steps.{within, without};
ghost use Rattle.mps_history.specs.Dependence.{consequences};
ghost use Rattle.mps_history.specs.Commits.{commits_from};
ghost use Rattle.mps_arena.specs.Keys.{last_key};
ghost use Rattle.mps_arena.specs.KeyedSteps.{KeyedStep, steps, keyed_at, AreSound};
ghost use Rattle.mps_links.specs.Marks.{marked_keys, marked_steps, AreMarksClosed, marked_by, unmarked_steps};
ghost use Rattle.mps_links.specs.Marks.{marked_commits};

/// A law: removing the newest marked step leaves marks closed: each step that depends on a marked one is still marked.
/// The invariant of the loop that removes them.
pub fn marks_stay_closed()
    ensures { (es : List KeyedStep) (k : ℕ) → AreSound es → AreMarksClosed es
        → last_key None (marked_keys es) ≡ Some k
        → AreMarksClosed (filter (λ e. not (e.key == k)) es) }
{}

/// A law: removing the newest marked step leaves the unmarked ones, and all marked ones but the last. So the loop ends,
/// with the history without the marked ones.
pub fn marked_steps_go()
    ensures stay { (es : List KeyedStep) (k : ℕ) → AreSound es
        → last_key None (marked_keys es) ≡ Some k
        → unmarked_steps (filter (λ e. not (e.key == k)) es) ≡ unmarked_steps es }
    ensures fewer { (es : List KeyedStep) (k : ℕ) → AreSound es
        → last_key None (marked_keys es) ≡ Some k
        → length (marked_keys (filter (λ e. not (e.key == k)) es)) + 1 ≡ length (marked_keys es) }
    ensures last { (es : List KeyedStep) (k : ℕ) (e : KeyedStep) → AreSound es
        → last_key None (marked_keys es) ≡ Some k → keyed_at k es ≡ Some e
        → marked_steps es ≡ marked_steps (filter (λ e. not (e.key == k)) es) ++ e.step ∷ [] }
    ensures left { (es : List KeyedStep) → last_key None (marked_keys es) ≡ None
        → unmarked_steps es ≡ steps es }
    ensures unmarked { (es : List KeyedStep) (set : ℕ → Bool)
        → unmarked_steps (map (marked_by set) es) ≡ without (steps es) set }
    ensures marked { (es : List KeyedStep) (set : ℕ → Bool)
        → marked_steps (map (marked_by set) es) ≡ within (steps es) set }
    ensures count { (es : List KeyedStep) (set : ℕ → Bool)
        → length (marked_keys (map (marked_by set) es)) ≡ length (within (steps es) set) }
    ensures commits { (es : List KeyedStep) (n : ℕ)
        → marked_commits (map (marked_by (consequences (steps es) n)) es) ≡ commits_from (steps es) n }
{}
