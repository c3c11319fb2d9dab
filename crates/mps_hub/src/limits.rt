//! What a server asks of its connections.

use crate::patience::FIRST_LINE;
use std::time::Duration;

/// What a server asks of its connections.
#[derive(Clone, Copy, Debug, PartialEq, Eq)]
pub struct Limits {
    /// How many are accepted. `None` is all that come: each has to send its first line within `FIRST_LINE` seconds
    /// then, and one that can't be accepted is passed over. No more than `MAX_OPEN` are open at once in any case.
    pub connections: Option<u64>,
    /// How long one may send nothing, or take none of its answers. `None` is for ever.
    pub idle: Option<Duration>,
    /// Whether a session of which lines are lost ends the server. Else it ends that session's connections alone.
    pub strict: bool,
    /// How many entries of its session each role may make, which is for whoever makes the hub (`Hub::sharing`). `None` is as
    /// many as the journal takes.
    pub share: Option<u64>,
}

impl Limits {
    // How long the first line is waited for.
    pub(crate) fn first_line(&self) -> Option<Duration> {
        match self.connections {
            Some(_) => None,
            None => Some(Duration::from_secs(FIRST_LINE)),
        }
    }
}
