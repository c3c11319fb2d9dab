//! The connections that are open, which can all be ended at once.

use crate::limits::Limits;
use crate::overhearing::Watcher;
use crate::patience::moment_after;
use mps_watch::Watch;
use std::alloc::{AllocError, Global};
use std::net::{Shutdown, TcpStream};
use std::sync::{Arc, Condvar, Mutex, Wait};
use std::time::{Clock, Duration, Instant};

// For how many seconds the lines that run are waited for where a server ends.
const DRAIN: u64 = 1;

// For how many milliseconds it isn't looked whether it was told to, while no connection is accepted.
const LOOK: u64 = 100;

// An open connection, how many came before it, and the session that it joined, if it did.
#[derive(Drop)]
struct Visitor {
    stream: Arc<TcpStream, Global>,
    came: u64,
    session: Option<u64>,
}

impl Visitor {
    // Ends the connection: its reads come back.
    fn end(&self) {
        let _ended = self.stream.shutdown(Shutdown::Both);
    }
}

// The connections that are open, each at its place, of which there are so many at most, and how many came so far.
#[derive(Drop)]
struct Visitors {
    // as many as ever were taken at once
    places: Vec<Option<Visitor>>,
    most: usize,
    came: u64,
    closed: bool,
}

impl Visitors {
    // A place that is free: one that was left, or the next.
    fn free(&self) -> Option<usize> {
        match self.places.iter().position(|place| place.is_none()) {
            Some(place) => Some(place),
            None if self.places.len() < self.most => Some(self.places.len()),
            None => None,
        }
    }

    // Whether nobody is here.
    fn is_empty(&self) -> bool {
        self.places.iter().all(|place| place.is_none())
    }

    // Puts the visitor to that place.
    fn put(&mut self, place: usize, visitor: Visitor) -> Result<(), AllocError> {
        if place < self.places.len() {
            self.places[place] = Some(visitor);
        } else {
            self.places.push(Some(visitor))?;
        }
        Ok(())
    }

    // Ends the oldest connection that joined no session, if there is one.
    fn end_oldest(&self) {
        let outside = self
            .places
            .iter()
            .flatten()
            .filter(|visitor| visitor.session.is_none());
        if let Some(oldest) = outside.min_by_key(|visitor| visitor.came) {
            oldest.end();
        }
    }
}

/// The connections that are let in. Once the lobby is closed no more are.
#[derive(Drop)]
pub(crate) struct Lobby {
    limits: Limits,
    // who watches them
    watcher: Watcher,
    // whether the oldest that joined no session makes room for the next one
    yields: bool,
    inside: Mutex<Visitors>,
    // woken when a connection left, or the lobby was closed
    left: Condvar,
}

impl Lobby {
    // A lobby with so many places, where the oldest that joined no session may make room for the next one.
    pub(crate) fn new(
        alloc: Global,
        most: usize,
        yields: bool,
        limits: Limits,
        watcher: Watcher,
    ) -> Lobby {
        let inside = Visitors {
            places: Vec::new(alloc),
            most,
            came: 0,
            closed: false,
        };
        Lobby {
            limits,
            watcher,
            yields,
            inside: Mutex::new(inside),
            left: Condvar::new(),
        }
    }

    // Who watches the connections, if somebody does.
    pub(crate) fn watch(&self) -> Option<&Watch> {
        self.watcher.watch()
    }

    // What is asked of the connections.
    pub(crate) fn limits(&self) -> Limits {
        self.limits
    }

    // Waits until there is a place for one more. Says whether one is let in. Where there is none, the oldest connection that
    // joined no session is ended, if that may be, so that those that say nothing keep nobody out.
    pub(crate) fn lets_in<R: Wait>(&self, rt: &R) -> bool {
        let inside = self.inside.lock(rt);
        if self.yields && inside.free().is_none() {
            inside.end_oldest();
        }
        let inside = self.left.wait_while(rt, inside, |inside| {
            !inside.closed && inside.free().is_none()
        });
        !inside.closed
    }

    // Lets a connection in, if there is a place for it, and gives the place and the stream.
    pub(crate) fn enter<R: Wait>(
        &self,
        rt: &R,
        alloc: Global,
        stream: TcpStream,
    ) -> Option<(usize, Arc<TcpStream, Global>)> {
        let stream = Arc::new(alloc, stream).ok()?;
        let shared = Arc::try_clone(&stream).ok()?;
        let mut inside = self.inside.lock(rt);
        if inside.closed {
            return None;
        }
        let place = inside.free()?;
        let came = inside.came;
        inside.came = came.saturating_add(1);
        let visitor = Visitor {
            stream: shared,
            came,
            session: None,
        };
        inside.put(place, visitor).ok()?;
        Some((place, stream))
    }

    // The connection at that place joined the session.
    pub(crate) fn joined<R: Wait>(&self, rt: &R, place: usize, session: u64) {
        let mut inside = self.inside.lock(rt);
        if let Some(Some(visitor)) = inside.places.get_mut(place) {
            visitor.session = Some(session);
        }
    }

    // The connection at that place has ended.
    pub(crate) fn leave<R: Wait>(&self, rt: &R, place: usize) {
        let mut inside = self.inside.lock(rt);
        if place < inside.places.len() {
            inside.places[place] = None;
        }
        drop(inside);
        self.left.notify_all();
    }

    // Ends the connections that joined the session.
    pub(crate) fn end_session<R: Wait>(&self, rt: &R, session: u64) {
        let inside = self.inside.lock(rt);
        for visitor in inside.places.iter().flatten() {
            if visitor.session == Some(session) {
                visitor.end();
            }
        }
    }

    // Waits until all connections have ended. Where the server is told to end meanwhile, it ends them.
    pub(crate) fn wait_for_end<R: Wait + Clock + Eprint>(&self, rt: &R, watch: &Watch) {
        for _ in rt.forever() {
            if watch.is_ending() {
                watch.ending(rt);
                return self.drain(rt);
            }
            let inside = self.inside.lock(rt);
            if inside.is_empty() {
                return;
            }
            let (_inside, _result) = self
                .left
                .wait_timeout(rt, inside, Duration::from_millis(LOOK));
        }
    }

    // Ends the connections once the lines that they run are answered: their readers, which are woken, read no more where the
    // server ends. Those that haven't ended within a second are ended then.
    fn drain<R: Wait + Clock>(&self, rt: &R) {
        let inside = self.inside.lock(rt);
        for visitor in inside.places.iter().flatten() {
            let _heard = visitor.stream.shutdown(Shutdown::Read);
        }
        drop(inside);
        if let Some(until) = moment_after(rt, Duration::from_secs(DRAIN)) {
            self.wait_until(rt, until);
        }
        self.close(rt);
    }

    // Waits until all connections have ended, or that moment.
    fn wait_until<R: Wait + Clock>(&self, rt: &R, until: Instant) {
        let mut inside = self.inside.lock(rt);
        for _ in rt.forever() {
            let Ok(now) = Instant::now(rt) else {
                return;
            };
            let left = until.saturating_duration_since(now);
            if left.is_zero() || inside.is_empty() {
                return;
            }
            let (guard, _result) = self.left.wait_timeout(rt, inside, left);
            inside = guard;
        }
    }

    // Ends all connections, and lets no more in.
    pub(crate) fn close<R: Wait>(&self, rt: &R) {
        let mut inside = self.inside.lock(rt);
        if inside.closed {
            return;
        }
        inside.closed = true;
        for visitor in inside.places.iter().flatten() {
            visitor.end();
        }
        drop(inside);
        self.left.notify_all();
    }
}
