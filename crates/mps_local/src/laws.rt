//! What holds of the definitions that the contracts cite.
ghost use Rattle.std.specs.Prelude.{◌≡◌, ◌≢◌, ◌↔◌, ℕ, List, [], true, Some, None, IsSome, length, slice_get};
ghost use Rattle.std.specs.List.{AllByRecursion};
ghost use Rattle.mps_base.specs.RoleLists.{AreDistinct};
ghost use Rattle.mps_global.specs.Global.{GlobalType};
ghost use Rattle.mps_global.specs.Faults.{fault_of};
ghost use Rattle.mps_local.specs.Local.{LocalType, Branches};
ghost use Rattle.mps_local.specs.Actions.{branch_at, labels, nexts};
ghost use Rattle.mps_local.specs.Merged.{same, same_branches, merged};
ghost use Rattle.mps_local.specs.Projection.{projection, examined, first_unmerged};
ghost use Rattle.mps_local.specs.declared.merging.Merging.{Merging as MergingKind};
ghost use Rattle.mps_local.specs.declared.merging.Merging.TheVariants.{Plain, Full};

/// A law: each label has its type at the same place; where no label stands twice, that is what follows the label. So a
/// branch may be found by the place of its label.
pub fn labels_lead()
    ensures paired { (b : Branches) → length (nexts b) ≡ length (labels b) }
    ensures lead { (b : Branches) (place : ℕ) (label : List ℕ) → AreDistinct (labels b)
        → slice_get (labels b) place ≡ Some label → branch_at label b ≡ slice_get (nexts b) place }
    ensures placed { (b : Branches) (label : List ℕ) (t : LocalType) → branch_at label b ≡ Some t
        → (place : ℕ) × (slice_get (labels b) place ≡ Some label)
        × (slice_get (nexts b) place ≡ Some t) }
{}

/// A law: `same` and `same_branches` are equality of types and of branches: they pass over no node, and over nothing in
/// one.
pub fn same_is_equality()
    ensures types { (t u : LocalType) → (same t u ≡ true) ↔ (t ≡ u) }
    ensures branches { (b c : Branches) → (same_branches b c ≡ true) ↔ (b ≡ c) }
{}

/// A law: by plain merging branches merge to a type exactly where there is at least one, and each goes on with that type.
pub fn merging_is_equality()
    ensures merged { (b : Branches) (t : LocalType) → (merged Plain b ≡ Some t)
        ↔ ((nexts b ≢ []) × AllByRecursion (λ u. u ≡ t) (nexts b)) }
{}

/// A law: where a role has no projection a choice is named, and only there, whatever number the first choice has. So
/// each refusal of `project` has a place.
pub fn unmerged_is_named()
    ensures named { (merging : MergingKind) (roles : List (List ℕ)) (role number : ℕ)
        (tree : GlobalType) → projection merging roles role tree ≡ None
        → IsSome (first_unmerged merging roles role (examined roles role number tree)) }
    ensures none { (merging : MergingKind) (roles : List (List ℕ)) (role number : ℕ)
        (tree : GlobalType) (t : LocalType) → projection merging roles role tree ≡ Some t
        → first_unmerged merging roles role (examined roles role number tree) ≡ None }
{}

/// A law: where plain merging gives a projection, full merging gives the same one. So a protocol that needs no full
/// merging has the same sessions by it.
pub fn full_merging_goes_further()
    ensures { (roles : List (List ℕ)) (role : ℕ) (tree : GlobalType) (t : LocalType)
        → fault_of roles tree ≡ None → projection Plain roles role tree ≡ Some t
        → projection Full roles role tree ≡ Some t }
{}
