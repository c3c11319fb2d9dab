//! The plain machine of a session: a list of steps and the next number, with its answers to each command.
//!
//! Definitions and their laws; there is no code here. `serve` is the answer to a command and the state after it,
//! `replay` what a history leads to, and `violation` why a type doesn't allow an act. Every state that commands lead
//! to has a replay (`every_state_is_sound`), a commit stays and all that it depends on with it
//! (`what_a_commit_rests_on_survives`), and thirty-five worked sessions show what the definitions come to
//! (`worked_sessions`).
#![tactic(auto)]

pub mod examples;
pub mod laws;
pub mod runs;
pub mod swaps;
