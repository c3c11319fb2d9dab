//! The program: it checks protocols, runs and compares scripts of commands on multiparty sessions, and serves such
//! sessions.
#![tactic(auto)]

mod check;
mod comparison;
mod counting;
mod entrance;
mod entry;
mod faults;
mod files;
mod flaws;
mod folder;
mod hosting;
mod journals;
mod kept;
mod load;
mod own_files;
mod progress;
mod rooms;
mod running;
mod serving;
mod tally;
mod until;
mod watched;
mod watching;

pub use check::{check_file, lines_of, write_types};
pub use comparison::{Tallies, compare_files, verdict_of};
pub use entrance::Entrance;
pub use entry::{carry_out, end, end_after, end_with, obey, program};
pub use faults::{ToolFault, fault_line, status};
pub use files::{Noted, open_file, read_text};
pub use hosting::{HostService, host_file};
pub use journals::{Sessions, record_sessions};
pub use load::load_opening;
pub use mps_file::{FileKeeper, JournalDisk, JournalFile};
pub use own_files::OwnFiles;
pub use rooms::rooms_of;
pub use running::run_file;
pub use serving::{Service, serve_file, serve_to};
pub use tally::{Strict, Tally};
pub use until::Until;
pub use watched::Watched;
pub use watching::Watching;
