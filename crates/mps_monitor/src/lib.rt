//! What the monitor of one role answers to a command: whether the role's type allows it.
//!
//! `judge` names the first violation, or allows the command. `next_node` does so for a role that stands at a node of
//! its table, and says at which node it then stands. Neither keeps a state or allocates.
//!
//! ```
//! match next_node(&table, node, &command, first) {
//!     Ok(next) => node = next,
//!     Err(violation) => return Err(violation),
//! }
//! ```
#![tactic(auto)]

mod stepping;
mod verdict;

pub use mps_command::{Forward, Violation};
pub use stepping::next_node;
pub use verdict::{Advance, judge, the_machine_moves_the_same};
