//! From the text of a protocol to what its sessions begin with, and to a new session.
//!
//! ```
//! let (roles, session) = open_text(alloc, b"roles a b ; a -> b : int . end")?;
//! ```
#![tactic(auto)]

pub mod alike;
pub mod choice;
pub mod fault;
pub mod laws;
pub mod opening;

pub use choice::choice_text;
pub use fault::Fault;
pub use mps_local::Merging;
pub use opening::{Opening, open_text, open_text_by};
