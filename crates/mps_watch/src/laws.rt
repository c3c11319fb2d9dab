//! Laws of what is told.
ghost use Rattle.std.specs.Prelude.{◌≡◌, ◌<◌, ◌^◌, ℕ, List, All, true};
ghost use Rattle.std.specs.List.{list_all};
ghost use Rattle.mps_watch.specs.Values.{is_shown, quoted};

/// A law: a value has only bytes from the space to `~`, whatever text it is of. So it stands in one line, and nobody who
/// sends bytes can make up an event.
pub fn one_line()
    ensures { (bytes : List ℕ) → All (λ b. b < 2 ^ 8) bytes → list_all is_shown (quoted bytes) ≡ true }
{}
