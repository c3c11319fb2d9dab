//! The surviving steps of a session with all that leads from one to another: the links of steps, the queues, the
//! slots and the marks.
//!
//! The main type is `Log`. A step joins with its message, and a step on which no other depends is removed; queues,
//! slots and marks follow.
//!
//! ```
//! let id = log.send(a, b, Message::Value(value), 0)?;
//! log.receive(b, a, Some(&slot), 0)?;
//! let kept = log.value(b, &slot);
//! ```
#![tactic(auto)]

mod chosen;
mod links;
mod log;
mod moves;
mod queue;

pub use log::Log;
pub use moves::Moves;
pub use mps_arena::{Before, Key};
pub use queue::Queue;
