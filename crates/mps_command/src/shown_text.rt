//! Shown sessions, as text.
ghost use Rattle.std.specs.Prelude.{◌≡◌, IfOk};
ghost use Rattle.mps_command.specs.Shown.{IsShownText};

use std::alloc::{AllocError, Global};
use std::marker::Model;

/// A session as it is shown: a text on one line, which begins with a brace as no other answer does.
#[derive(Debug, Drop)]
pub struct ShownText {
    bytes: Vec<u8>,
}

impl Model for ShownText {
    ghost use Rattle.std.specs.Prelude.{ℕ, List};

    ghost Value = { List ℕ };

    ghost use Rattle.mps_command.specs.Shown.{IsShownText};

    ghost view = { λ s. s.bytes.items };

    ghost invariant = { λ s. IsShownText s.bytes.items };
}

impl ShownText {
    /// Makes a shown text of these bytes, which are kept and not copied. They have to begin with a brace and be
    /// printable ASCII; the caller proves that, so nothing is tested here.
    pub fn of(bytes: Vec<u8>) -> ShownText
        requires { IsShownText bytes.items }
        ensures { result ≡ bytes.items }
    {
        ShownText { bytes }
    }

    /// The bytes of the text, at least the brace and no line break; they are borrowed.
    pub fn as_bytes(&self) -> &[u8]
        ensures bytes { result.now ≡ self.now }
        ensures shown { IsShownText self.now }
    {
        self.bytes.as_slice()
    }

    /// A copy of the text, in memory of its own, O(bytes). It fails only when out of memory.
    pub fn copy(&self, alloc: Global) -> Result<ShownText, AllocError>
        ensures { IfOk result (λ text. text ≡ self.now) }
    {
        let bytes = Vec::from_slice(alloc, self.as_bytes())?;
        Ok(ShownText { bytes })
    }
}
