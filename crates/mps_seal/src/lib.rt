//! Seals of a journal's lines: each is over the seal before and the line, so a line that is changed, moved or doubled is
//! seen, and where lines are dropped, unless they are the last.
//!
//! ```
//! let first = Seal::first(alloc, b"roles a b ; end", 1)?;
//! first.close(&mut line)?; // "a mark m" in the line becomes "a mark m " and sixteen hexadecimal digits
//! first.read(line.as_slice()) // Some: `a mark m`, and the seal that the next line goes by
//! ```
#![tactic(auto)]

pub mod laws;
pub mod seal;

pub use seal::{SEAL_BYTES, Seal};
