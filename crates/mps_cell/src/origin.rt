//! What the table of a cell is told when it is made.

use mps_room::{Numbers, Room};
use std::snapshot::Snapshot;

/// The room and its roles' newest numbered commands as the cell was opened, and the number of its session.
#[derive(Drop)]
pub struct Origin {
    pub room: Snapshot<Room>,
    pub numbers: Snapshot<Vec<Numbers>>,
    pub session: u64,
}
