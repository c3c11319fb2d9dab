//! Rooms: a session with the names of its roles, a journal of what it accepted, and news of what others took back.
//! Callers: who gives a role's commands, with numbers where an answer may get lost.
//!
//! The main types are `Room` and, for one role of it, `Solo`, which is a `Caller`.
//!
//! ```
//! let mut room = Room::open(alloc, names, session);
//! let answer = room.apply(Role::new(0), Command::Undo(StepId::new(1)));
//! let mut caller = Solo::new(room, Role::new(0));
//! let told = call_numbered(&mut caller, 1, Command::Undo(StepId::new(2)));
//! ```
#![tactic(auto)]

pub mod caller;
mod change;
pub mod entry;
pub mod examples;
mod form;
mod heard;
mod journal;
pub mod laws;
mod news;
pub mod numbers;
pub mod room;
mod shown;
pub mod solo;
mod steps;

pub use caller::{Caller, call_numbered};
pub use entry::Entry;
pub use mps_command::{Answer, Command, ShownText};
pub use numbers::{Numbered, Numbers, Position, Told};
pub use room::{MAX_ENTRIES, Room};
pub use solo::Solo;
