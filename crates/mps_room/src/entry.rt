//! Entries of a journal.

use mps_base::Role;
use mps_command::{Answer, Command};

/// A command that was accepted, with its role and its answer.
#[derive(Debug, Drop)]
pub struct Entry {
    pub role: Role,
    pub command: Command,
    pub answer: Answer,
}
