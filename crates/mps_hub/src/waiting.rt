//! Answers that wait for what other roles do.
ghost use Rattle.std.specs.Prelude.{◌≡◌};
ghost use Rattle.std.specs.Option.{is_some};

use crate::bells::{Bell, Heard};
use crate::lookout::Lookout;
use crate::patience::moment_after;
use crate::shares::ROLES;
use mps_base::Role;
use mps_wire::{Awaited, Vigil};
use std::alloc::Global;
use std::net::TcpStream;
use std::sync::{Arc, Wait};
use std::time::{Clock, Duration, Instant};

/// By what the answers of some sessions wait: the bells of a lookout from this one on, in the order of the sessions.
#[derive(Drop)]
pub struct Waits {
    lookout: Arc<Lookout, Global>,
    first: usize,
}

/// A role's bell, and where it is among the bells of its server.
#[derive(Clone, Copy)]
pub(crate) struct RoleBell<'t> {
    lookout: &'t Lookout,
    at: usize,
    bell: &'t Bell,
}

impl Waits {
    /// By the bells of that lookout, the first of which is the first of the first session.
    pub fn new(lookout: Arc<Lookout, Global>, first: usize) -> Waits {
        Waits { lookout, first }
    }

    // The first bell of the session at that place.
    fn first_of(&self, place: usize) -> usize {
        self.first.saturating_add(place.saturating_mul(ROLES))
    }

    // The bells of the session at that place.
    pub(crate) fn bells_of(&self, place: usize) -> &[Bell] {
        self.lookout.bells_from(self.first_of(place))
    }

    // The bell of that role of the session at that place.
    pub(crate) fn bell_of(&self, place: usize, role: Role) -> Option<RoleBell<'_>> {
        let bell = self.bells_of(place).get(role.index())?;
        Some(RoleBell {
            lookout: &self.lookout,
            at: self.first_of(place).saturating_add(role.index()),
            bell,
        })
    }
}

// A wait while it goes on.
#[derive(Drop)]
struct Nap<'s> {
    // the client's connection, where it can be looked at
    stream: Option<&'s TcpStream>,
    // the number of the watch for it, once there is one
    watch: Option<u64>,
    // when the answer waits no longer
    until: Option<Instant>,
}

impl<'s> Nap<'s> {
    // Whether the client sent more, or is gone, or can't be looked at.
    fn has_come(&mut self, role: RoleBell<'_>) -> bool {
        let Some(stream) = self.stream else {
            return false;
        };
        if self.watch.is_none() {
            self.watch = role.lookout.watch(stream, role.at);
        }
        match self.watch {
            Some(watch) => role.bell.has_come(watch),
            None => true,
        }
    }

    // For how long the answer waits still, where it does.
    fn left<R: Clock>(&mut self, rt: &R, role: RoleBell<'_>) -> Option<Duration> {
        let now = Instant::now(rt).ok()?;
        let left = self.until?.saturating_duration_since(now);
        if left.is_zero() || self.has_come(role) {
            return None;
        }
        Some(left)
    }

    // Sleeps until what is awaited may be there; `false` where the answer waits no longer.
    fn rest<R: Wait + Clock>(&mut self, rt: &R, role: RoleBell<'_>, awaited: Awaited) -> bool {
        for _ in rt.forever() {
            match role.bell.heard(awaited) {
                Heard::Something => return true,
                Heard::TakenBack => return false,
                Heard::Nothing => {}
            }
            let Some(left) = self.left(rt, role) else {
                return false;
            };
            role.bell.sleep(rt, awaited, left);
        }
        unreachable!()
    }

    // It is over.
    fn end(&mut self, role: RoleBell<'_>) {
        role.bell.end();
        if let (Some(stream), Some(_watch)) = (self.stream, self.watch.take()) {
            role.lookout.leave(stream);
        }
    }
}

/// By what the answers to a role's lines wait.
#[derive(Drop)]
pub(crate) struct RoleVigil<'t, 's, R> {
    rt: &'t R,
    // whether they may
    waits: bool,
    role: Option<RoleBell<'t>>,
    nap: Nap<'s>,
}

impl<'t, 's, R> RoleVigil<'t, 's, R> {
    // Of that role of the session at that place. While an answer waits the client is looked at, if it has a connection.
    pub(crate) fn new(
        rt: &'t R,
        waits: Option<&'t Waits>,
        place: usize,
        role: Role,
        stream: Option<&'s TcpStream>,
    ) -> RoleVigil<'t, 's, R>
        ensures { result.waits ≡ is_some waits.entry }
    {
        RoleVigil {
            rt,
            waits: waits.is_some(),
            role: match waits {
                Some(waits) => waits.bell_of(place, role),
                None => None,
            },
            nap: Nap {
                stream,
                watch: None,
                until: None,
            },
        }
    }
}

impl<'t, 's, R: Wait + Clock> Vigil for RoleVigil<'t, 's, R> {
    ghost waits = { λ v. v.waits };

    fn waits(&self) -> bool {
        self.waits
    }

    fn begin(&mut self, limit: Duration) {
        if let Some(role) = self.role {
            self.nap.until = moment_after(self.rt, limit.min(role.lookout.longest));
        }
    }

    fn rest(&mut self, awaited: Awaited) -> bool {
        match self.role {
            Some(role) => self.nap.rest(self.rt, role, awaited),
            None => false,
        }
    }

    fn end(&mut self) {
        if let Some(role) = self.role {
            self.nap.end(role);
        }
    }
}
