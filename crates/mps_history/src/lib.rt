//! Histories of steps: which step depends on which, what is left without some of them, and when two histories differ
//! only in the order of independent steps.
//!
//! Definitions and their laws; there is no code here. A history is a list of steps whose numbers rise. `DependsOn` is
//! dependence through any number of links, `consequences` is a step with all that depend on it, and `without` takes
//! steps out. The crates above prove their code against these.
#![tactic(auto)]

ghost use Rattle.std.specs.Prelude.{◌≡◌, ◌↔◌, ◌⊎◌, ℕ, ◌<◌, ◌==◌, Bool, List, [], ◌∷◌, ◌++◌, Some, IsTrue};
ghost use Rattle.mps_base.specs.declared.action.Step.{Step};
ghost use Rattle.mps_history.specs.Steps.{IsIn, IsRising, step_of, within, without};
ghost use Rattle.mps_history.specs.Dependence.{DependsOn, IsClosed, consequences, is_matched};
ghost use Rattle.mps_history.specs.Removals.{without_future, both_futures};
ghost use Rattle.mps_history.specs.Swaps.{is_matched_after};

/// A law: where numbers rise, `step_of` finds each step by its number. What it finds in any history stands there, and
/// has the number. So steps may be named by numbers.
pub fn found_by_number()
    ensures found { (h : List Step) (s : Step) → IsRising h → IsIn s h → step_of h s.id ≡ Some s }
    ensures only { (h : List Step) (n : ℕ) (s : Step) → step_of h n ≡ Some s
        → IsIn s h × (s.id ≡ n) }
{}

/// A law: a step depends on earlier steps alone, so dependence has no cycles.
pub fn dependence_goes_back()
    ensures { (h : List Step) (t s : Step) → DependsOn h t s → s.id < t.id }
{}

/// A law: the consequences of a step are the step and all that depend on it through one or more direct dependences
/// (happened-before: Lamport 1978), and no other. What depends on one of them is one of them.
pub fn consequences_are_reaching()
    ensures members { (h : List Step) (s t : Step) → IsRising h → IsIn s h → IsIn t h →
        (IsTrue (consequences h s.id t.id) ↔ ((t ≡ s) ⊎ DependsOn h t s)) }
    ensures closed { (h : List Step) (n : ℕ) → IsRising h → IsClosed h (consequences h n) }
{}

/// A law: nothing depends on a step that was just appended, and removing it again gives the old history: the base case
/// of proofs by induction on histories.
pub fn a_last_step_is_alone()
    ensures alone { (h : List Step) (s : Step) → IsRising (h ++ s ∷ []) →
        within (h ++ s ∷ []) (consequences (h ++ s ∷ []) s.id) ≡ s ∷ [] }
    ensures removed { (h : List Step) (s : Step) → IsRising (h ++ s ∷ []) →
        without (h ++ s ∷ []) (λ m. m == s.id) ≡ h }
{}

/// A law: the consequences of a step are the least closed set that has it: any set that is closed under dependence and
/// has the step has all of them. So a rollback removes no more than it has to.
pub fn consequences_are_least()
    ensures { (h : List Step) (n : ℕ) (set : ℕ → Bool) (t : Step)
        → IsClosed h set → IsTrue (set n) → IsIn t h → IsTrue (consequences h n t.id) → IsTrue (set t.id) }
{}

/// A law, confluence of rollbacks: of two removals, each of a step with all that depends on it, either may come first,
/// and the history without both is left. Where the second step depends on the first, its removal has nothing left to
/// do.
pub fn removals_commute()
    ensures both { (h : List Step) (m n : ℕ) → IsRising h
        → without_future (without_future h m) n ≡ without h (both_futures h m n) }
    ensures either_order { (h : List Step) (m n : ℕ) → IsRising h
        → without_future (without_future h m) n ≡ without_future (without_future h n) m }
    ensures nothing_left { (h : List Step) (m n : ℕ) → IsRising h → IsTrue (consequences h m n)
        → without_future (without_future h m) n ≡ without_future h m }
{}

/// A law: where numbers rise, whether a step receives what the one right before it sends can be told from the steps
/// before both (`is_matched_after`), and agrees with `is_matched`, which counts by numbers in the whole history. So
/// proofs about exchanges of neighbours needn't look at what follows.
pub fn neighbours_match_by_place()
    ensures { (a b : List Step) (s t : Step) → IsRising (a ++ s ∷ t ∷ b) →
        is_matched (a ++ s ∷ t ∷ b) s t ≡ is_matched_after a s t }
{}
