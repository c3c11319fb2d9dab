//! The rooms that a server begins with.
ghost use Rattle.std.specs.Prelude.{◌≡◌, ◌≤◌, IfOk, All, length, map};
ghost use Rattle.mps_local.specs.Local.{plain};
ghost use Rattle.mps_file.specs.Rooms.{IsNewRoom};

use mps_hub::RestoredRoom;
use mps_open::Opening;
use std::alloc::{AllocError, Global};

// A room of a new session.
pub(crate) fn room_of(alloc: Global, opening: &Opening) -> Result<RestoredRoom, AllocError>
    ensures { IfOk result (IsNewRoom opening.now.roles (map plain opening.now.types.items)) }
{
    let session = opening.session(alloc)?;
    RestoredRoom::new(alloc, opening.roles.copy(alloc)?, session)
}

/// A room of a new session for each of so many.
#[tactic(auto, using(crate::proofs::Naming::new_named))]
pub fn rooms_of(
    alloc: Global,
    opening: &Opening,
    sessions: u64,
) -> Result<Vec<RestoredRoom>, AllocError>
    requires few { sessions ≤ 16 }
    ensures count { IfOk result (λ rooms. length rooms.items ≡ sessions) }
    ensures new { IfOk result (λ rooms.
        All (IsNewRoom opening.now.roles (map plain opening.now.types.items)) rooms.items) }
    ensures named { IfOk result (λ rooms. All (λ r. r.room.names ≡ opening.now.roles) rooms.items) }
{
    let mut rooms = Vec::with_capacity(alloc, sessions as usize)?;
    for _ in 0..sessions {
        rooms.push_reserved(room_of(alloc, opening)?);
    }
    Ok(rooms)
}
