//! The files of sessions' journals: opened, brought to their whole lines, and written.
//!
//! ```
//! let file = OwnFile::Raw(Descriptor::open_locked(path)?);
//! let restored = restore(alloc, protocol, session, &file, &mut room)?;
//! if torn(&file, &restored)? > 0 { .. }
//! ```
#![tactic(auto)]

pub mod descriptor;
pub mod journal_file;
pub mod own_file;
pub mod recorder;
pub mod rest;

pub use descriptor::Descriptor;
pub use journal_file::{
    About, FileKeeper, JournalDisk, JournalFile, LOOK, Note, PAUSE, Unsynced, held, parted,
    store_name,
};
pub use own_file::OwnFile;
pub use recorder::RecorderStream;
pub use rest::{cut_off, marked, restore, torn};
