//! Why the words give no order.
ghost use Rattle.std.specs.Prelude.{◌≡◌};
ghost use Rattle.mps_words.specs.Uses.{Says};
ghost use Rattle.mps_words.specs.declared.faults.UseFault.TheVariants.{Memory as OutOfMemory};

use std::alloc::{AllocError, AllocFailed, Global};
use thiserror::Error;

/// Why the words give no order.
#[derive(Debug, Drop, Error)]
pub enum UseFault {
    /// The words are none of the program's; the text says what is wrong, or how the program is used.
    #[error("{text}")]
    Usage { text: String },
    /// Memory ran out.
    #[error("refused memory")]
    Memory,
}

impl From<AllocError> for UseFault {
    ghost from_gives = { λ _ fault. fault ≡ OutOfMemory };

    // A failed allocation is `Memory`.
    fn from(_: AllocError) -> Self {
        UseFault::Memory
    }
}

impl<T: Drop> From<AllocFailed<T>> for UseFault {
    ghost from_gives = { λ _ fault. fault ≡ OutOfMemory };

    // A failed allocation is `Memory`; what it gives back is dropped.
    fn from(_: AllocFailed<T>) -> Self {
        UseFault::Memory
    }
}

/// The fault of use that says this, or that memory ran out for the text.
pub(crate) fn usage(alloc: Global, what: &str) -> UseFault
    ensures { Says what.now result }
{
    match String::from_str(alloc, what) {
        Ok(text) => UseFault::Usage { text },
        Err(_) => UseFault::Memory,
    }
}
