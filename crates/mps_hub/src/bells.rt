//! Bells, by which roles sleep until others do what they wait for. What a bell says is no matter of the session.

ghost use Rattle.std.specs.Prelude.{◌<◌};

use crate::shares::ROLES;
use mps_wire::Awaited;
use std::alloc::{AllocError, Global};
use std::sync::Wait;
use std::sync::atomic::AtomicU64;
use std::sync::atomic::Ordering::SeqCst;
use std::time::Duration;

// What a bell says: that nobody sleeps by it;
const STILL: u64 = 0;
// that its role may sleep until steps are taken back;
const FOR_NEWS: u64 = 1;
// that it may until then, or until something is sent to it;
const FOR_MESSAGE: u64 = 2;
// that it rang since something came;
const CALLED: u64 = 3;
// that steps were taken back since its role heard of it.
const TAKEN_BACK: u64 = 4;

// Of the number of a watch so much is known to who looks at the client.
const LOW: u64 = 0xffff_ffff;

/// What a role hears that waits.
#[derive(Clone, Copy, PartialEq, Eq)]
pub(crate) enum Heard {
    Nothing,
    /// What it waits for may be there.
    Something,
    /// Steps were taken back, and it waits for a message.
    TakenBack,
}

/// A role's bell.
#[derive(Drop)]
pub struct Bell {
    state: AtomicU64,
    // how often it was begun to look at what the role's client does
    watches: AtomicU64,
    // the newest of these times at which it did something
    came: AtomicU64,
}

// What a bell says whose role sleeps.
fn asleep(awaited: Awaited) -> u64
    ensures { result < 5 }
{
    match awaited {
        Awaited::News => FOR_NEWS,
        Awaited::Message => FOR_MESSAGE,
    }
}

impl Bell {
    fn new() -> Bell {
        Bell {
            state: AtomicU64::new(STILL),
            watches: AtomicU64::new(0),
            came: AtomicU64::new(0),
        }
    }

    // Has it say something else, if it says that. Whether it did.
    fn change(&self, from: u64, to: u64) -> bool {
        self.state
            .compare_exchange(from, to, SeqCst, SeqCst)
            .is_ok()
    }

    // Nothing was said by it.
    fn reset(&self) {
        self.state.store(STILL, SeqCst);
    }

    // Nobody waits any more.
    pub(crate) fn end(&self) {
        let state = self.state.load(SeqCst);
        if state != TAKEN_BACK {
            self.change(state, STILL);
        }
    }

    // Rings since something was sent to the role.
    pub(crate) fn call(&self) {
        if self.state.load(SeqCst) != FOR_MESSAGE {
            return;
        }
        // before the wake-up: else the role that is woken finds the bell set, and sleeps again (tests/wakeups)
        if self.change(FOR_MESSAGE, CALLED) {
            self.state.wake_one();
        }
    }

    // Rings since steps were taken back, and says so until a wait was told.
    pub(crate) fn tell(&self) {
        let state = self.state.swap(TAKEN_BACK, SeqCst);
        if state == FOR_MESSAGE || state == FOR_NEWS {
            self.state.wake_one();
        }
    }

    // What is heard by a role that waits so. Where the bell rang it may ring again from now on.
    pub(crate) fn heard(&self, awaited: Awaited) -> Heard {
        let sleeping = asleep(awaited);
        let state = self.state.load(SeqCst);
        if state == sleeping {
            return Heard::Nothing;
        }
        // where it rings meanwhile, that is heard the next time
        self.change(state, sleeping);
        if state == TAKEN_BACK && sleeping == FOR_MESSAGE {
            return Heard::TakenBack;
        }
        Heard::Something
    }

    // Sleeps until it rings, but no longer than that. It may also come back for no reason.
    pub(crate) fn sleep<R: Wait>(&self, rt: &R, awaited: Awaited, time: Duration) {
        self.state.park_timeout(rt, asleep(awaited) as u32, time);
    }

    // From now on it is looked at what the client does: the number of this watch.
    pub(crate) fn watch(&self) -> u64 {
        self.watches.fetch_add(1, SeqCst).wrapping_add(1)
    }

    // Whether the client did something in the watch of that number.
    pub(crate) fn has_come(&self, watch: u64) -> bool {
        self.came.load(SeqCst) == watch
    }

    // The client did something, as a watch of such a number says.
    fn client_came(&self, low: u64) {
        let watch = self.watches.load(SeqCst);
        if watch & LOW == low {
            // before it rings: else the role that is woken doesn't find it
            self.came.store(watch, SeqCst);
            if self.change(FOR_MESSAGE, CALLED) || self.change(FOR_NEWS, CALLED) {
                self.state.wake_one();
            }
        }
    }
}

/// A bell for each role of so many sessions.
#[derive(Drop)]
pub(crate) struct Bells {
    bells: Vec<Bell>,
}

impl Bells {
    // Bells of so many sessions.
    pub(crate) fn new(alloc: Global, sessions: usize) -> Result<Bells, AllocError> {
        let count = sessions.saturating_mul(ROLES);
        let mut bells = Vec::with_capacity(alloc, count)?;
        for _ in 0..count {
            bells.push(Bell::new())?;
        }
        Ok(Bells { bells })
    }

    // That bell, if there is one.
    pub(crate) fn at(&self, at: usize) -> Option<&Bell> {
        self.bells.get(at)
    }

    // Has the bells of a session, of which that is the first, begin anew.
    pub(crate) fn reset(&self, first: usize) {
        for bell in self.from(first) {
            bell.reset();
        }
    }

    // The bells of a session of which that is the first.
    pub(crate) fn from(&self, first: usize) -> &[Bell] {
        match self.bells.get(first..first.saturating_add(ROLES)) {
            Some(bells) => bells,
            None => &[],
        }
    }

    // The client of the role of that bell did something, as a watch of such a number says.
    pub(crate) fn client_came(&self, at: usize, low: u64) {
        if let Some(bell) = self.at(at) {
            bell.client_came(low);
        }
    }
}

// What names the watch of that number at that bell.
pub(crate) fn token_of(at: usize, watch: u64) -> usize {
    ((watch & LOW) << 32 | at as u64 & LOW) as usize
}

// The bell that it names, and what it says of the watch's number.
pub(crate) fn bell_of(token: usize) -> (usize, u64) {
    ((token as u64 & LOW) as usize, token as u64 >> 32)
}
