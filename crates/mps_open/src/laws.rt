//! What the text of a protocol gives.
ghost use Rattle.std.specs.Prelude.{◌≡◌, ◌≢◌, ◌∷◌, [], ℕ, List};
ghost use Rattle.mps_fidelity.specs.Fidelity.{AreOfOneProtocol};
ghost use Rattle.mps_base.specs.declared.value.Sort.TheVariants.{Int, Text};
ghost use Rattle.mps_local.specs.Local.{LocalType, End, Rec, Var, Send, Recv, Select, Branch, NoMore, More};
ghost use Rattle.mps_local.specs.declared.merging.Merging.{Merging};
ghost use Rattle.mps_open.specs.Alike.{nameless};
ghost use Rattle.mps_open.specs.Texts.{AreTypesOf};

/// A law: the types of a text are those of one protocol without faults, so that no role ever finds a message that its type
/// doesn't expect.
pub fn a_text_has_one_protocol()
    ensures { (merging : Merging) (text : List ℕ) (roles : List (List ℕ)) (types : List LocalType)
        → AreTypesOf merging text roles types → AreOfOneProtocol types }
{}

/// A law: types are alike that differ in the name of a variable alone, and not where a variable leads back to another loop, or
/// to none. A loop within one of the same name has its variables.
pub fn names_are_no_matter()
    ensures names { (x y : List ℕ) → nameless [] (Rec x (Var x)) ≡ nameless [] (Rec y (Var y)) }
    ensures loops { (x y : List ℕ) → x ≢ y
        → nameless [] (Rec x (Rec y (Var x))) ≢ nameless [] (Rec x (Rec y (Var y))) }
    ensures inner { (x y : List ℕ) → x ≢ y → nameless [] (Rec x (Rec x (Var x))) ≡ nameless [] (Rec x (Rec y (Var y))) }
    ensures free { (x y : List ℕ) → x ≢ y → nameless [] (Var x) ≢ nameless [] (Var y) }
{}

/// A law: all else matters, on worked types.
pub fn all_else_matters()
    ensures loops { nameless [] (Rec (88 ∷ []) End) ≢ nameless [] End }
    ensures peers { nameless [] (Send 0 Int End) ≢ nameless [] (Send 1 Int End) }
    ensures sorts { nameless [] (Recv 0 Int End) ≢ nameless [] (Recv 0 Text End) }
    ensures acts { nameless [] (Send 0 Int End) ≢ nameless [] (Recv 0 Int End) }
    ensures labels { nameless [] (Select 0 (More (97 ∷ []) End NoMore)) ≢ nameless [] (Select 0 (More (98 ∷ []) End NoMore)) }
    ensures branches { nameless [] (Branch 0 (More (97 ∷ []) End (More (98 ∷ []) End NoMore)))
        ≢ nameless [] (Branch 0 (More (97 ∷ []) End NoMore)) }
    ensures inside { nameless [] (Rec (88 ∷ []) (Branch 0 (More (97 ∷ []) End (More (98 ∷ []) (Var (88 ∷ [])) NoMore))))
        ≡ nameless [] (Rec (89 ∷ []) (Branch 0 (More (97 ∷ []) End (More (98 ∷ []) (Var (89 ∷ [])) NoMore)))) }
{}
