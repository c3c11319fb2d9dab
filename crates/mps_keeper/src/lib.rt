//! Sessions that outlive the process: a file keeps each accepted command, and a later process goes on from it.
//!
//! A recorded line is a role's name and a line of its conversation that asks for a change (`read_journal_line` of
//! mps_line). A `Book` is the file while it is written, and a `Guest` is a caller whose accepted commands a
//! `Recorder` records.
#![tactic(auto)]

pub mod book;
mod chain;
pub mod gate;
pub mod guest;
pub mod keeper;
pub mod laws;
mod recordable;
pub mod recorder;
pub mod restore;
pub mod restored_room;
mod sealing;

pub use book::{Book, NotRecorded};
pub use chain::Chain;
pub use gate::{Gate, Unguarded};
pub use guest::Guest;
pub use keeper::{Disk, Hold, Keeper, LONGEST_LINE};
pub use recorder::{Recordable, Recorder};
pub use restore::{RestoreFault, Restored};
pub use restored_room::RestoredRoom;
