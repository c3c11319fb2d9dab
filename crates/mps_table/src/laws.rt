//! What holds of the definitions that the contracts cite.
ghost use Rattle.std.specs.Prelude.{◌≡◌, ℕ, Option, Some};
ghost use Rattle.mps_local.specs.Local.{LocalType};
ghost use Rattle.mps_local.specs.Unfolding.{unfolded};
ghost use Rattle.mps_local.specs.Actions.{Head, Begins, head, type_left};
ghost use Rattle.mps_table.specs.Graph.{Graph, IsNode, HasNext};
ghost use Rattle.mps_table.specs.Standing.{StandsFor};

/// A law: a node that stands for a type is a node of the table, and may be followed wherever something is left of the
/// type. A node shows one head, since a type begins in one way.
pub fn nodes_lead()
    ensures node { (g : Graph) (node : ℕ) (t : LocalType) → StandsFor g node t → IsNode g node }
    ensures next { (g : Graph) (node : ℕ) (choice : Option ℕ) (t u : LocalType)
        → StandsFor g node t → type_left t choice ≡ Some u → HasNext g node choice }
    ensures heads { (h : Head) (t : LocalType) → Begins h (unfolded t) → head t ≡ h }
{}
