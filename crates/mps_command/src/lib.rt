//! What participants of a session ask for, and what they are answered.
//!
//! A `Command` is either a `Change` (a step forward, an undo, a rollback, a return to a mark) or a question (`News`,
//! `Show`). An `Answer` says what came of it, or names the `Refusal`.
//!
//! ```
//! let command = Command::Undo(StepId::new(3));
//! let again = command.copy(alloc)?;
//! ```
#![tactic(auto)]

pub mod answer;
pub mod command;
pub mod shown_text;
pub mod step_ids;

pub use answer::{Answer, Done, Refusal, Violation};
pub use command::{Change, Command, Forward};
pub use shown_text::ShownText;
pub use step_ids::StepIds;
