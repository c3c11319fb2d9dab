//! Laws of sessions whose opening types are the projections of one protocol without faults, by either kind of merging.
ghost use Rattle.std.specs.Prelude.{◌≡◌, ◌≢◌, ℕ, List, Some, None};
ghost use Rattle.std.specs.List.{AllByRecursion};
ghost use Rattle.mps_base.specs.declared.action.Act.{Act};
ghost use Rattle.mps_base.specs.declared.action.Step.{Step};
ghost use Rattle.mps_command.specs.declared.answer.Violation.TheVariants.{Mismatch};
ghost use Rattle.mps_command.specs.declared.command.Change.{Change};
ghost use Rattle.mps_global.specs.Global.{GlobalType};
ghost use Rattle.mps_global.specs.Faults.{fault_of};
ghost use Rattle.mps_local.specs.Local.{LocalType};
ghost use Rattle.mps_local.specs.Projection.{projection};
ghost use Rattle.mps_local.specs.declared.merging.Merging.TheVariants.{Plain};
ghost use Rattle.mps_machine.specs.View.{View, opening};
ghost use Rattle.mps_machine.specs.Rule.{replay};
ghost use Rattle.mps_machine.specs.Violations.{violation};
ghost use Rattle.mps_machine.specs.Machine.{Request, State, IsSound, initial, view_of, serve, answers, after};
ghost use Rattle.mps_fidelity.specs.Duality.{AreDual};
ghost use Rattle.mps_fidelity.specs.Fidelity.{AreOfOneProtocol, IsFaithful, IsHalfDuplex, mismatch};

/// A law: what two roles of a protocol without faults do towards each other by plain merging is dual (Honda,
/// Vasconcelos, Kubo 1998): what one sends the other receives. A role that has ended counts as dual to any.
pub fn projections_are_dual()
    ensures { (roles : List (List ℕ)) (tree : GlobalType) (p q : ℕ) (t u : LocalType)
        → fault_of roles tree ≡ None → p ≢ q
        → projection Plain roles p tree ≡ Some t → projection Plain roles q tree ≡ Some u → AreDual p q t u }
{}

/// A law: between two roles messages never wait in both directions (half-duplex, as in Cécé, Finkel 2005), after any
/// history that has a replay, in each sound state, and so after any commands, undos and rollbacks among them.
pub fn queues_are_half_duplex()
    ensures replayed { (types : List LocalType) (h : List Step) (v : View) (p q : ℕ)
        → AreOfOneProtocol types → replay (opening types) h ≡ Some v
        → p ≢ q → IsHalfDuplex v p q }
    ensures sound { (types : List LocalType) (st : State) (p q : ℕ)
        → AreOfOneProtocol types → IsSound types st
        → p ≢ q → IsHalfDuplex (view_of types st.history) p q }
    ensures always { (types : List LocalType) (requests : List Request) (p q : ℕ)
        → AreOfOneProtocol types
        → p ≢ q → IsHalfDuplex (view_of types (after types initial requests).history) p q }
{}

/// A law, session fidelity: the first message that waits for a role is of the sort, or has one of the labels, that the
/// role's type expects from its sender, after any history that has a replay, in each sound state, and after any
/// commands.
pub fn sessions_are_faithful()
    ensures replayed { (types : List LocalType) (h : List Step) (v : View)
        → AreOfOneProtocol types → replay (opening types) h ≡ Some v → IsFaithful v }
    ensures sound { (types : List LocalType) (st : State)
        → AreOfOneProtocol types → IsSound types st → IsFaithful (view_of types st.history) }
    ensures always { (types : List LocalType) (requests : List Request)
        → AreOfOneProtocol types
        → IsFaithful (view_of types (after types initial requests).history) }
{}

/// A law: so no act is refused for the message that waits: no violation is a `Mismatch`, nor is an answer in a sound
/// state, nor any answer to a list of requests.
pub fn nothing_is_a_mismatch()
    ensures violation { (types : List LocalType) (h : List Step) (v : View) (p : ℕ) (act : Act)
        → AreOfOneProtocol types → replay (opening types) h ≡ Some v
        → violation v p act ≢ Some Mismatch }
    ensures served { (types : List LocalType) (st : State) (p : ℕ) (command : Change)
        → AreOfOneProtocol types → IsSound types st → (serve types st p command).0 ≢ mismatch }
    ensures always { (types : List LocalType) (requests : List Request)
        → AreOfOneProtocol types
        → AllByRecursion (λ a. a ≢ mismatch) (answers types initial requests) }
{}
