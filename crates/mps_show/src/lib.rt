//! What a session shows, as JSON: its history, its queues and its roles.
//!
//! `write_show` appends the text, on one line; `show` gives the same as a JSON value.
//!
//! ```
//! write_show(&names, &session, &mut out)?;
//! let value = show(alloc, &names, &session)?;
//! ```
#![tactic(auto)]

mod examples;
mod json_parts;
mod json_state;
mod laws;
mod past;
mod pieces;
mod text_heads;
mod text_parts;
mod text_state;

pub use examples::worked_states;
pub use json_state::show;
pub use laws::{a_shown_text_is_one_line, a_shown_value_has_one_text};
pub use text_state::{write_expects, write_show, write_stand};
