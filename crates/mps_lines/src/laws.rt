//! Laws of lines.
ghost use Rattle.std.specs.Prelude.{◌≡◌, ℕ, List};
ghost use Rattle.std.specs.List.{concat, fold};
ghost use Rattle.mps_lines.specs.Lines.{IsSplit};
ghost use Rattle.mps_lines.specs.Cuts.{cut, fed, nothing, pending_of};

/// A law: bytes are lines and a rest in one way alone, which is how they are cut.
pub fn one_split()
    ensures split { (bytes : List ℕ) → IsSplit bytes (cut bytes).lines (cut bytes).rest }
    ensures only { (bytes : List ℕ) (lines : List (List ℕ)) (rest : List ℕ)
        → IsSplit bytes lines rest → cut bytes ≡ record { lines = lines; rest = rest } }
{}

/// A law: feeding bytes piece by piece gives the same lines and rest as feeding them at once, wherever they are cut.
pub fn pieces_give_the_whole()
    ensures { (pieces : List (List ℕ)) → fold fed nothing pieces ≡ pending_of (concat pieces) }
{}
