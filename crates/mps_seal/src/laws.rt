//! Laws of seals.
ghost use Rattle.std.specs.Prelude.{◌≡◌, ℕ, List};
ghost use Rattle.mps_seal.specs.Seals.{sealed};

/// A law: after the same seal, different lines are different bytes once they are sealed, so a sealed line is read back as
/// the one that was sealed. Of the hash it asks its length alone: the line itself stands before its seal.
pub fn one_line()
    ensures { (before line other : List ℕ) → sealed before line ≡ sealed before other → line ≡ other }
{}
