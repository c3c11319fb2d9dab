//! Sessions: what roles send and receive, each step remembered, and what they undo.
//!
//! The main type is `Session`. `open_protocol` opens one for a protocol, and `Session::open` one for types of one's
//! own.
//!
//! ```
//! let mut session = open_protocol(alloc, &protocol)?;
//! let done = session.forward(Role::new(0), Forward::Send { to: Role::new(1), value })?;
//! session.undo(Role::new(0), done.id)?;
//! ```
#![tactic(auto)]

mod alike;
mod attempt;
mod configuration;
mod cursor;
mod forward;
pub mod gist;
pub mod open;
pub mod protocol;
mod rollback;
mod serve;
mod serve_all;
pub mod session;
mod showing;
mod undo;
mod would;

pub use alike::same;
pub use gist::Gist;
pub use mps_command::{Command, Done, Forward, Refusal, StepIds, Violation};
pub use mps_local::{LocalFault, Merging};
pub use mps_log::{Moves, Queue};
pub use mps_table::Expect;
pub use open::OpenFault;
pub use protocol::{ProtocolFault, open_protocol, open_protocol_by, open_types};
pub use session::{MAX_NUMBERS, Session};
