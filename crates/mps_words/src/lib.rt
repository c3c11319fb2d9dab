//! The command line of the program: the words that it is called with, and the order that they give.
#![tactic(auto)]

mod command;
mod faults;
mod words;

pub use command::{JournalFolder, Order, ProtocolFile, Task, Watched};
pub use faults::UseFault;
pub use mps_local::Merging;
pub use mps_watch::Detail;
pub use words::{order, words_of};
