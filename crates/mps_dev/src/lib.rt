//! Readers and writers that count: two traits of devices, `Source` and `Sink`, with devices over std's readers and
//! writers and over memory. Code above is proved once, for every device.
//!
//! A device counts its calls, its failures and its ends, so a contract can say how often each happened, whatever
//! the device gives.
//!
//! ```
//! let mut source = OverRead::new(text.as_slice());
//! let count = source.read(&mut buffer)?;
//! ```
#![tactic(auto)]

mod memory;
mod standard;
mod traits;

pub use memory::{Discard, Pieces, Short};
pub use standard::{OverRead, OverWrite};
pub use traits::{Failed, Sink, Source};

/// How often a source is read from at most: for a script, a conversation, a first line and a journal.
pub const MAX_READS: u64 = 1_000_000;
