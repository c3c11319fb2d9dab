//! The lines of a script and of a conversation, and the lines that answer them.
//!
//! A `Reply` is whatever may answer a line. Each command has one spelling, and each reply at most one, which are read
//! and written here; a line that spells none is `LineFault::Bad`.
//!
//! ```
//! let (role, command) = read_script_line(alloc, &roles, b"a undo 3")?;
//! let (number, command) = read_numbered(alloc, &roles, b"4 undo 3")?;
//! let reply = read_answer(alloc, b"undone 4 3")?;
//! ```
#![tactic(auto)]

mod answer_texts;
pub mod journal_lines;
pub mod laws;
mod line_parts;
pub mod read_commands;
pub mod read_conversations;
mod read_refusals;
pub mod read_replies;
pub mod write_commands;
pub mod write_replies;

pub use answer_texts::answer_has_text;
pub use journal_lines::{JournalLine, has_journal_line, read_journal_line, write_journal_line};
pub use read_commands::{LineFault, read_command, read_script_line};
pub use read_conversations::{asks_for_change, read_numbered, split_wait};
pub use read_replies::{read_answer, read_join};
pub use write_commands::{append_command, write_command};
pub use write_replies::{
    Reply, append_answer, write_answer, write_bad_line, write_kept, write_refused,
};
