//! How many entries of a session each of its roles may make.
ghost use Rattle.std.specs.Prelude.{◌≡◌, ◌≤◌, IfOk};
ghost use Rattle.std.specs.Option.{option_map};

use mps_base::Role;
use mps_keeper::RestoredRoom;
use mps_room::Room;
use std::alloc::{AllocError, Global};
use std::sync::atomic::{AtomicU64, Ordering};

/// How many roles a session has at most.
pub(crate) const ROLES: usize = 8;

/// How many entries of its session each role may make, and how many each made so far, of some sessions.
#[derive(Drop)]
pub struct Shares {
    /// How many entries of its session a role may make.
    pub most: u64,
    // of the roles of the first session, of the next, and so on
    made: Vec<AtomicU64>,
}

// How many entries of the room each role made.
fn made_in(room: &Room) -> Result<[u64; ROLES], AllocError> {
    let mut counts = [0u64; ROLES];
    for k in 0..room.entries() {
        if let Some(role) = role_of(room, k)? {
            count_one(&mut counts, role);
        }
    }
    Ok(counts)
}

// The role that made the k-th entry.
fn role_of(room: &Room, k: u64) -> Result<Option<Role>, AllocError> {
    match room.command(k)? {
        Some((role, _command)) => Ok(Some(role)),
        None => Ok(None),
    }
}

// Counts one entry more of the role.
fn count_one(counts: &mut [u64; ROLES], role: Role) {
    if let Some(count) = counts.get_mut(role.index()) {
        *count = count.saturating_add(1);
    }
}

impl Shares {
    /// So many entries for each role of these sessions, if that is limited. Those that are in the journals count. O(entries).
    pub fn of(
        alloc: Global,
        most: Option<u64>,
        rooms: &[RestoredRoom],
    ) -> Result<Option<Shares>, AllocError>
        ensures { IfOk result (λ found. option_map (λ s. s.most) found ≡ most) }
    {
        let Some(most) = most else {
            return Ok(None);
        };
        let mut made = Vec::new(alloc);
        for room in rooms {
            push_counts(&mut made, made_in(&room.room)?)?;
        }
        Ok(Some(Shares { most, made }))
    }

    // How many entries the role of the session at that place may still make.
    pub(crate) fn left(&self, place: usize, role: Role) -> u64
        ensures { result ≤ self.now.most }
    {
        let made = match self.count_of(place, role) {
            Some(count) => count.load(Ordering::SeqCst),
            None => 0,
        };
        self.most.saturating_sub(made)
    }

    // Stores how many it may still make.
    pub(crate) fn keep(&self, place: usize, role: Role, left: u64) {
        if let Some(count) = self.count_of(place, role) {
            count.store(self.most.saturating_sub(left), Ordering::SeqCst);
        }
    }

    // How many the role of the session at that place made.
    fn count_of(&self, place: usize, role: Role) -> Option<&AtomicU64> {
        let at = place.saturating_mul(ROLES).saturating_add(role.index());
        self.made.get(at)
    }
}

// Appends the counts of a session.
fn push_counts(made: &mut Vec<AtomicU64>, counts: [u64; ROLES]) -> Result<(), AllocError> {
    for count in counts {
        made.push(AtomicU64::new(count))?;
    }
    Ok(())
}
