//! The numbers of a role's steps, which are collected while the history is written.
ghost use Rattle.std.specs.Prelude.{◌≡◌, ◌∷◌, ◌++◌, [], IfOk, OnOk, replicate, drop};

use crate::pieces::Decimal;
use std::alloc::{AllocError, Global};
use std::marker::Model;

/// The numbers of a role's steps as text, each after a comma.
#[derive(Drop)]
pub(crate) struct Past {
    text: Vec<u8>,
}

impl Model for Past {
    ghost use Rattle.std.specs.Prelude.{ℕ, List};

    ghost Value = { List ℕ };

    ghost view = { λ p. p.text.items };
}

impl Past {
    /// So many roles' pasts, without steps. It fails only when out of memory.
    pub(crate) fn of_roles(alloc: Global, count: usize) -> Result<Vec<Past>, AllocError>
        ensures { IfOk result (λ pasts. pasts.items ≡ replicate count []) }
    {
        let mut pasts = Vec::with_capacity(alloc, count)?;
        for _ in 0..count {
            pasts.push(Past {
                text: Vec::new(alloc),
            })?;
        }
        Ok(pasts)
    }

    /// Appends a comma and the number. When out of memory the comma may stand there alone; the caller drops it.
    #[inline(always)]
    pub(crate) fn put(&mut self, number: &Decimal) -> Result<(), AllocError>
        ensures { OnOk result (self.new ≡ self.old ++ 44 ∷ number.now) }
    {
        self.text.push(b',')?;
        number.put(&mut self.text)
    }

    /// Appends the numbers to `out` as a JSON array. When out of memory a part may stand in `out`; the caller drops it.
    pub(crate) fn write(&self, out: &mut Vec<u8>) -> Result<(), AllocError>
        ensures { OnOk result (out.new.items ≡ out.old.items ++ 91 ∷ (drop 1 self.now ++ 93 ∷ [])) }
    {
        out.push(b'[')?;
        if let [_comma, numbers @ ..] = self.text.as_slice() {
            out.extend_from_slice(numbers)?;
        }
        Ok(out.push(b']')?)
    }
}
