//! A room in the caller's own process: each line of a role is answered at once, as in a conversation of that role.
//!
//! ```
//! let mut room = FileRoom::open(alloc, b"roles a b ; a -> b : int . end")?;
//! room.line(b"a", b"1 send b 5");
//! room.write_answer(&mut out)?;
//! ```
#![tactic(auto)]

pub mod diary;
pub mod embedded;
mod filling;
mod foresight;
pub mod kept;
pub mod laws;

pub use diary::Diary;
pub use embedded::Embedded;
pub use filling::choice_into;
pub use kept::{FileFault, FileOf, FileRoom};
