//! Cells: one room, which a pass for each role calls from any thread. No holder of a pass can tell the session from
//! one that answered all passes one after the other.
//!
//! `Cell` opens a room and deals its passes once; a `Pass` calls it, tries it without waiting, or asks how long the
//! journal is. `meet` compares what two passes have seen.
//!
//! ```
//! let mut cell = Cell::open(alloc, names, session)?;
//! let mut passes = cell.passes()?;
//! ```
#![tactic(auto)]

pub mod cell;
pub mod held;
pub mod laws;
mod meeting;
pub mod origin;
pub mod pass;
pub mod rule;
mod turns;
pub mod view;

pub use cell::{Cell, Deal, PassFault};
pub use held::Held;
pub use pass::{Busy, Leave, Pass, Pause, Straight, meet};
