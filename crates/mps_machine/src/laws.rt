//! Laws of the rule, of replay and of the plain machine.
ghost use Rattle.std.specs.Prelude.{◌≡◌, ◌≢◌, ◌↔◌, ℕ, ◌+◌, ◌<◌, ◌==◌, ◌++◌, List, [], ◌∷◌, Some, None, Ok, IsSome};
ghost use Rattle.std.specs.Prelude.{IsTrue, length, false};
ghost use Rattle.std.specs.List.{filter};
ghost use Rattle.mps_base.specs.declared.action.Act.{Act};
ghost use Rattle.mps_base.specs.declared.action.Step.{Step};
ghost use Rattle.mps_command.specs.declared.command.Change.{Change};
ghost use Rattle.mps_command.specs.declared.command.Forward.{Forward};
ghost use Rattle.mps_command.specs.declared.command.Command.TheVariants as commands;
ghost use Rattle.mps_local.specs.Local.{LocalType};
ghost use Rattle.mps_history.specs.Steps.{IsIn, IsRising, sends, receives, unreceived, within, without};
ghost use Rattle.mps_history.specs.Dependence.{depends_on, is_matched, consequences, IsClosed};
ghost use Rattle.mps_history.specs.Swaps.{Swaps, is_matched_after};
ghost use Rattle.mps_machine.specs.View.{View, opening};
ghost use Rattle.mps_machine.specs.Rule.{moved, rule, replay};
ghost use Rattle.mps_machine.specs.Violations.{violation};
ghost use Rattle.mps_machine.specs.Alike.{LooksAlike};
ghost use Rattle.mps_machine.specs.Faults.{fault};
ghost use Rattle.mps_machine.specs.Machine.{State, initial, Request, serve, after, view_of, IsSound};
ghost use Rattle.mps_machine.specs.Undoing.{UndoesSteps, RefusesNeeded, RefusesFinal, RemovesFutures, ReturnsToMarks};
ghost use Rattle.mps_machine.specs.Undoing.{UndosCommute, RollbacksCommute, KeepsCommits};

/// A law: the rule, a partial function, is defined for an act exactly where `violation` finds none: the two definitions
/// agree.
pub fn the_rule_is_defined()
    ensures { (v : View) (s : Step) → IsSome (rule v s) ↔ (violation v s.role s.act ≡ None) }
{}

/// A law: a role's verdict depends on the place in its own type and on its own incoming queues alone: where two views
/// agree on these, its acts are allowed alike, fail for the same reason and take the same message, and the views agree
/// afterwards; two sessions refuse its steps forward alike, `Full` aside. What others do changes nothing for it, unless
/// they send it something. So a monitor for each role is enough.
pub fn a_verdict_is_local()
    ensures violation { (v w : View) (p : ℕ) (act : Act) → LooksAlike p v w
        → violation v p act ≡ violation w p act }
    ensures allowed { (v w : View) (s : Step) → LooksAlike s.role v w → (IsSome (rule v s) ↔ IsSome (rule w s)) }
    ensures taken { (v w : View) (p : ℕ) (act : Act) → LooksAlike p v w → moved v p act ≡ moved w p act }
    ensures kept { (v w x y : View) (s : Step) → LooksAlike s.role v w → rule v s ≡ Some x → rule w s ≡ Some y
        → LooksAlike s.role x y }
    ensures unseen { (v w : View) (s : Step) (p : ℕ) → rule v s ≡ Some w → s.role ≢ p
        → sends s.role p s ≡ false → LooksAlike p v w }
    ensures answered { (types others : List LocalType) (st other : State) (p : ℕ) (step : Forward)
        → LooksAlike p (view_of types st.history) (view_of others other.history)
        → fault types st p (commands.Forward step)
        ≡ fault others other p (commands.Forward step) }
{}

/// A law: as many messages wait between two roles as the one has sent less those that the other has received: none is
/// lost, and none is made up.
pub fn queues_count()
    ensures { (types : List LocalType) (h : List Step) (v : View) (p q : ℕ)
        → replay (opening types) h ≡ Some v
        → length (v.queue p q) + length (filter (receives p q) h) ≡ length (filter (sends p q) h) }
{}

/// A law: what waits between two roles is what the one sent and the other hasn't received, in the order of the sends:
/// queues are first in, first out.
pub fn queues_are_what_is_unreceived()
    ensures { (types : List LocalType) (h : List Step) (v : View) (p q : ℕ)
        → replay (opening types) h ≡ Some v → v.queue p q ≡ unreceived p q h }
{}

/// A law: neighbours of different roles may be exchanged, unless the second receives what the first sends; the replay
/// comes to the same view. Up to such exchanges a history is a trace (Mazurkiewicz 1977).
pub fn neighbours_commute()
    ensures { (types : List LocalType) (a b : List Step) (s t : Step) (w : View) →
        replay (opening types) (a ++ s ∷ t ∷ b) ≡ Some w → s.role ≢ t.role
        → is_matched_after a s t ≡ false
        → replay (opening types) (a ++ t ∷ s ∷ b) ≡ Some w }
{}

/// A law: steps of different roles that are both allowed may come in either order, and lead to one view (the square of
/// concurrency theory). So no step of others takes away what a role may do.
pub fn steps_of_different_roles_commute()
    ensures { (v w x : View) (s t : Step) → rule v s ≡ Some w → rule v t ≡ Some x → s.role ≢ t.role
        → (y : View) × (rule w t ≡ Some y) × (rule x s ≡ Some y) }
{}

/// A law: where no step depends on `s`, the history without `s` has a replay too, and the rule allows `s` after it and
/// comes to the view of the whole: undone and done again, as in the loop lemma of Danos, Krivine (CONCUR 2004).
pub fn an_unneeded_step_can_be_removed()
    ensures { (types : List LocalType) (h : List Step) (s : Step) (w : View)
        → IsRising h → IsIn s h → ((t : Step) → IsIn t h → depends_on h t s ≡ false)
        → replay (opening types) h ≡ Some w →
        (x : View) × (replay (opening types) (without h (λ m. m == s.id)) ≡ Some x)
        × (rule x s ≡ Some w) }
{}

/// A law: the history without a step and all that depends on it has a replay, and these steps lead on from there to the
/// view of the whole. So a rollback can itself be undone by doing the steps again.
pub fn consequences_can_be_removed()
    ensures { (types : List LocalType) (h : List Step) (n : ℕ) (w : View)
        → IsRising h → replay (opening types) h ≡ Some w →
        (x : View) × (replay (opening types) (without h (consequences h n)) ≡ Some x)
        × (replay x (within h (consequences h n)) ≡ Some w) }
{}

/// A law: in a history that has a replay, a receipt comes after the send that it is matched with, so dependence between
/// roles goes back in time too.
pub fn a_receipt_follows_its_send()
    ensures { (types : List LocalType) (h : List Step) (s t : Step) (w : View)
        → IsRising h → IsIn s h → IsIn t h →
        replay (opening types) h ≡ Some w → IsTrue (is_matched h s t) → s.id < t.id }
{}

/// A law, the invariant of sessions: after any commands of any roles the numbers of the surviving steps rise below the
/// next number, and these steps have a replay. Each command keeps this.
pub fn every_state_is_sound()
    ensures served { (types : List LocalType) (st : State) (p : ℕ) (command : Change)
        → IsSound types st → IsSound types (serve types st p command).1 }
    ensures always { (types : List LocalType) (requests : List Request)
        → IsSound types (after types initial requests) }
{}

/// A law: a sound state has the view to which its surviving steps replay. So a session can be restored from its steps
/// alone.
pub fn a_state_is_its_replay()
    ensures { (types : List LocalType) (st : State) → IsSound types st
        → replay (opening types) st.history ≡ Some (view_of types st.history) }
{}

/// A law: on a step that was just done nothing depends, and without it the history is the one from before. If it is no
/// commit its role can undo it, and only the next number differs then. An undo of a commit is refused as `Final`, names
/// the commit, and changes nothing.
pub fn an_undo_gives_the_old_history()
    ensures { (types : List LocalType) (st : State) → IsSound types st → UndoesSteps types st }
{}

/// A law: an undo of a role's own surviving step, which is no commit, is refused as `Needed` exactly where another
/// surviving step depends on it, directly or through others. The least of these is named.
pub fn an_undo_is_refused_where_needed()
    ensures { (types : List LocalType) (st : State) → IsSound types st → RefusesNeeded st }
{}

/// A law: an undo of a role's own surviving step is refused as final exactly where the step is a commit, which is
/// named. A rollback of it is refused as final exactly where the step is a commit or a surviving commit depends on it,
/// and the least of these is named. Such a refusal changes nothing.
pub fn a_commit_is_refused_as_final()
    ensures { (types : List LocalType) (st : State) → IsSound types st → RefusesFinal st }
{}

/// A law: a rollback that no commit stands in the way of is accepted, and removes exactly the chosen step and its
/// causal future, all that depend on it.
pub fn a_rollback_removes_the_causal_future()
    ensures { (types : List LocalType) (st : State) → IsSound types st → RemovesFutures st }
{}

/// A law: of two undos that are accepted, by any roles, either may come first: undos of different steps are
/// independent, as Lanese, Phillips, Ulidowski ask of reversible computations (An axiomatic approach to reversible
/// computation, FoSSaCS 2020).
pub fn undos_commute()
    ensures { (types : List LocalType) (st : State) → IsSound types st → UndosCommute st }
{}

/// A law: of two rollbacks that are accepted, by any roles, either may come first: the same state is left, without the
/// steps and all that depend on them (confluence of rollbacks). Where the second step depends on the first, or is it,
/// nothing is left to do.
pub fn rollbacks_commute()
    ensures { (types : List LocalType) (st : State) → IsSound types st → RollbacksCommute st }
{}

/// A law: a return to a mark is a rollback of the role's first step after its last mark of the name, and removes
/// nothing where there is none. It is refused exactly where no such mark survives.
pub fn a_return_goes_to_the_last_mark()
    ensures { (types : List LocalType) (st : State) → IsSound types st → ReturnsToMarks st }
{}

/// A law: whatever any roles ask for, in any order, a surviving commit survives, and so does each step on which it
/// depends: its causal past.
pub fn what_a_commit_rests_on_survives()
    ensures { (types : List LocalType) (st : State) → IsSound types st → KeepsCommits types st }
{}
