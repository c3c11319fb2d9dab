//! A room as a recorded journal leaves it.
ghost use Rattle.std.specs.Prelude.{◌≡◌, length, None, [], IfOk, All};
ghost use Rattle.mps_machine.specs.Machine.{initial};

use mps_base::Roles;
use mps_room::{Numbers, Room};
use mps_session::Session;
use std::alloc::{AllocError, Global};

/// A session's room, and of each role, in order, the newest of its numbered commands that were accepted.
#[derive(Drop)]
pub struct RestoredRoom {
    pub room: Room,
    pub numbers: Vec<Numbers>,
    ghost each: { length numbers.items ≡ length room.types },
}

impl RestoredRoom {
    /// That of a session in which nothing was done yet.
    pub fn new(alloc: Global, names: Roles, session: Session) -> Result<RestoredRoom, AllocError>
        requires count { length names ≡ length session.types }
        requires fresh { session.state ≡ initial }
        ensures room { IfOk result (λ r. r.room ≡ record { names = names; types = session.types; journal = [] }) }
        ensures none { IfOk result (λ r. All (λ n. n.newest ≡ None) r.numbers.items) }
    {
        let numbers = Numbers::of_each(alloc, names.count())?;
        Ok(RestoredRoom {
            room: Room::open(alloc, names, session),
            numbers,
        })
    }
}
