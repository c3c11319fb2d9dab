//! What holds of the definitions that the contracts cite.
ghost use Rattle.std.specs.Prelude.{◌≡◌, ℕ, Bool, ◌==◌, not, List, [], ◌∷◌, ◌++◌, map, Some, None};
ghost use Rattle.std.specs.List.{filter};
ghost use Rattle.mps_history.specs.Slots.{bound, unbound, value_in};
ghost use Rattle.mps_arena.specs.KeyedSteps.{KeyedStep, keyed_at, with_mark, AreSound};
ghost use Rattle.mps_stores.specs.Stores.{Keys, Naming, bindings, IsBinding, AreStores};

/// A law: `unbound` undoes `bound`: a binding that is undone leaves the store as it was, in the same order.
pub fn bindings_come_back()
    ensures { (name : List ℕ) (key : ℕ) (store : Keys) →
        unbound name (value_in name store) (bound name key store) ≡ store }
{}

/// A law: a step that binds no name of the kind may be appended to an arena without a change of the stores.
pub fn idle_steps_may_join()
    ensures { (naming : Naming) (es : List KeyedStep) (e : KeyedStep) (stores : List Keys) →
        AreStores naming es stores → naming e.step.act ≡ None → AreStores naming (es ++ e ∷ []) stores }
{}

/// A law: a step that binds no name of the kind may be removed from an arena, wherever it stands, without a change of
/// the stores.
pub fn idle_steps_may_go()
    ensures { (naming : Naming) (es : List KeyedStep) (e : KeyedStep) (stores : List Keys) →
        AreStores naming es stores → AreSound es → keyed_at e.key es ≡ Some e → naming e.step.act ≡ None →
        AreStores naming (filter (λ other. not (other.key == e.key)) es) stores }
{}

/// A law: where the arena sets or clears a step's flag, by which walks note where they were, the stores stay.
pub fn marks_leave_stores()
    ensures { (naming : Naming) (es : List KeyedStep) (key : ℕ) (marked : Bool) (stores : List Keys) →
        AreStores naming es stores → AreStores naming (map (with_mark key marked) es) stores }
{}

/// A law: what a name is bound to is the key of a step of its role that binds it, so it can be looked up.
pub fn bindings_are_steps()
    ensures { (naming : Naming) (es : List KeyedStep) (p key : ℕ) (name : List ℕ) →
        AreSound es → value_in name (bindings naming p es) ≡ Some key →
        (e : KeyedStep) × (keyed_at key es ≡ Some e) × IsBinding naming p name e }
{}
