//! What runs before each command of a connection.

/// What runs before a connection's pass is given a command. A test can hold the command there.
pub trait Gate {
    /// Both are counted from 1: connections as they are accepted, and the commands of each that are given to its pass.
    /// A line that can't be read gives none, and neither does one whose number is not the next.
    fn before(&self, connection: u64, command: u64);
}

/// No gate.
#[derive(Drop)]
pub struct Unguarded;

impl Gate for Unguarded {
    fn before(&self, _connection: u64, _command: u64) {}
}
