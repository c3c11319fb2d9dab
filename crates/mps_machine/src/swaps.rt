//! When two histories lead to the same view.
ghost use Rattle.std.specs.Prelude.{◌≡◌, ◌↔◌, ℕ, List, Some};
ghost use Rattle.mps_base.specs.declared.action.Step.{Step};
ghost use Rattle.mps_local.specs.Local.{LocalType};
ghost use Rattle.mps_history.specs.Swaps.{Swaps};
ghost use Rattle.mps_machine.specs.View.{View, opening};
ghost use Rattle.mps_machine.specs.Rule.{replay};
ghost use Rattle.mps_machine.specs.Machine.{State, Request, view_of, IsSound};
ghost use Rattle.mps_machine.specs.Runs.{survivors};

/// A law: two histories that have a replay lead to the same view exactly where one becomes the other, numbers aside, by
/// exchanges of neighbours of different roles of which the second doesn't receive what the first sends (the traces of
/// Mazurkiewicz, 1977). Such exchanges keep the replay and its view.
pub fn equal_views_are_swaps()
    ensures swapped { (types : List LocalType) (k h : List Step) (v w : View) →
        replay (opening types) k ≡ Some v → replay (opening types) h ≡ Some w → v ≡ w → Swaps k h }
    ensures equal { (types : List LocalType) (k h : List Step) (v w : View) →
        replay (opening types) k ≡ Some v → replay (opening types) h ≡ Some w → Swaps k h → v ≡ w }
    ensures kept { (types : List LocalType) (k h : List Step) (v : View) →
        replay (opening types) k ≡ Some v → Swaps k h → replay (opening types) h ≡ Some v }
{}

/// A law: two histories that have a replay lead to the same view exactly where each role did the same in both. So two
/// sessions are compared role by role, whatever the order across roles.
pub fn equal_pasts_are_equal_views()
    ensures views { (types : List LocalType) (k h : List Step) (v w : View) →
        replay (opening types) k ≡ Some v → replay (opening types) h ≡ Some w →
        ((p : ℕ) → (v.participant p).past ≡ (w.participant p).past) → v ≡ w }
    ensures pasts { (v w : View) (p : ℕ) → v ≡ w
        → (v.participant p).past ≡ (w.participant p).past }
{}

/// A law: two runs of any commands, undos, rollbacks and returns among them, come to the same exactly where their
/// surviving steps are exchanges of each other (causal consistency: Danos, Krivine, CONCUR 2004). What was done and
/// undone on the way leaves no trace.
pub fn runs_agree_up_to_swaps()
    ensures runs { (types : List LocalType) (requests others : List Request)
        → (view_of types (survivors types requests) ≡ view_of types (survivors types others))
        ↔ Swaps (survivors types requests) (survivors types others) }
    ensures states { (types : List LocalType) (st other : State) → IsSound types st → IsSound types other
        → ((view_of types st.history ≡ view_of types other.history) ↔ Swaps st.history other.history) }
{}

/// A law: to be exchanges of each other is reflexive, symmetric and transitive on histories that have a replay, so
/// causal equivalence is an equivalence.
pub fn swaps_are_an_equivalence()
    ensures reflexive { (h : List Step) → Swaps h h }
    ensures symmetric { (types : List LocalType) (k h : List Step) (v : View)
        → replay (opening types) k ≡ Some v → Swaps k h → Swaps h k }
    ensures transitive { (types : List LocalType) (k h l : List Step) (v : View)
        → replay (opening types) k ≡ Some v → Swaps k h → Swaps h l → Swaps k l }
{}
