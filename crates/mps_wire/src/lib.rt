//! Scripts and conversations over streams: lines from blocks of bytes, and the answers to them.
//!
//! `replay_session` runs a script of all roles' commands on a session. `converse` is one role's conversation over any
//! reader and writer: a line, and then its answer.
//!
//! ```
//! let mut caller = Solo::new(Room::open(alloc, names, session), a);
//! let ending = converse(alloc, &mut caller, &mut reader, &mut writer);
//! ```
#![tactic(auto)]

pub mod conversation;
pub mod examples;
pub mod laws;
pub mod reply;
pub mod script;
pub mod sending;
pub mod waiting;

pub use conversation::{Ending, converse, converse_waiting};
pub use mps_lines::{Line, Lines};
pub use reply::{Outcome, may_ask, take_line, write_outcome};
pub use script::{ReplayFault, replay, replay_session};
pub use waiting::{Awaited, NoVigil, Vigil, take_line_waiting};
