//! What clients do while answers of theirs wait: one thread looks at all of them.

use crate::bells::{Bell, Bells, bell_of, token_of};
use crate::shares::ROLES;
use mio::unix::SourceFd;
use mio::{Events, Interest, Poll, Registry, Token, Waker};
use std::alloc::{AllocError, Global};
use std::io::ErrorKind;
use std::net::{Net, TcpStream};
use std::os::fd::AsRawFd;
use std::sync::{Arc, Condvar, Mutex, Wait};
use std::thread::Threads;
use std::time::Duration;
use std::{io, thread};

// How many clients are looked at in one go.
const BATCH: usize = 256;

// What ends the thread.
const OVER: usize = usize::MAX;

/// By what the answers of a server wait: a bell for each role of its sessions, and a thread that looks whether the clients whose
/// answers wait send more, or are gone. The thread ends with it.
pub struct Lookout {
    // how long an answer waits at most
    pub(crate) longest: Duration,
    registry: Registry,
    waker: Waker,
    bells: Arc<Bells, Global>,
    // the first of the bells that no session has
    free: Mutex<Vec<usize>>,
    // woken when a session gives its bells back
    given: Condvar,
}

// Rings the bell of each client that sends more, or is gone, until it is over.
fn look(mut poll: Poll, mut events: Events, bells: Arc<Bells, Global>) {
    for _ in 0..u64::MAX {
        if poll.poll(&mut events, None).is_err() {
            return;
        }
        for event in events.iter() {
            let Token(token) = event.token();
            if token == OVER {
                return;
            }
            let (at, watch) = bell_of(token);
            bells.client_came(at, watch);
        }
    }
}

// The first bell of each of so many sessions.
fn first_bells(alloc: Global, sessions: usize) -> Result<Vec<usize>, AllocError> {
    let mut firsts = Vec::with_capacity(alloc, sessions)?;
    for place in 0..sessions {
        firsts.push(place.saturating_mul(ROLES))?;
    }
    Ok(firsts)
}

// The bells of so many sessions, and the first of each.
fn bells_of(
    alloc: Global,
    sessions: usize,
) -> Result<(Arc<Bells, Global>, Vec<usize>), AllocError> {
    let bells = Arc::new(alloc, Bells::new(alloc, sessions)?)?;
    Ok((bells, first_bells(alloc, sessions)?))
}

impl Lookout {
    /// Of a server with so many sessions at most, whose answers wait so long at most.
    pub fn start<R: Threads + Net>(
        rt: &R,
        alloc: Global,
        sessions: usize,
        longest: Duration,
    ) -> io::Result<Arc<Lookout, Global>> {
        let poll = Poll::new(rt)?;
        let registry = poll.registry().try_clone()?;
        let waker = Waker::new(&registry, Token(OVER))?;
        let events = Events::with_capacity(alloc, BATCH)?;
        let (bells, free) = bells_of(alloc, sessions)?;
        let theirs = Arc::try_clone(&bells)?;
        if thread::spawn(rt, move || look(poll, events, theirs)).is_err() {
            return Err(io::Error::from(ErrorKind::WouldBlock));
        }
        let lookout = Lookout {
            longest,
            registry,
            waker,
            bells,
            free: Mutex::new(free),
            given: Condvar::new(),
        };
        Ok(Arc::new(alloc, lookout)?)
    }

    // The bells of a session of which that is the first.
    pub(crate) fn bells_from(&self, first: usize) -> &[Bell] {
        self.bells.from(first)
    }

    // Bells for one session more: the first. Where all are in use it waits for a session that ends.
    pub(crate) fn take<R: Wait>(&self, rt: &R) -> usize {
        let mut free = self.free.lock(rt);
        for _ in rt.forever() {
            if let Some(first) = free.pop() {
                self.bells.reset(first);
                return first;
            }
            free = self.given.wait(rt, free);
        }
        unreachable!()
    }

    // Gives them back.
    pub(crate) fn give<R: Wait>(&self, rt: &R, first: usize) {
        // it was taken, so there is space
        let _kept = self.free.lock(rt).push(first);
        self.given.notify_one();
    }

    // Looks from now on whether the client of the role of that bell sends more, or is gone: the number of this watch, where that
    // can be seen.
    pub(crate) fn watch(&self, stream: &TcpStream, at: usize) -> Option<u64> {
        let watch = self.bells.at(at)?.watch();
        let fd = stream.as_raw_fd();
        let token = Token(token_of(at, watch));
        self.registry
            .register(&mut SourceFd(&fd), token, Interest::READABLE)
            .ok()?;
        Some(watch)
    }

    // Looks no longer.
    pub(crate) fn leave(&self, stream: &TcpStream) {
        let fd = stream.as_raw_fd();
        let _left = self.registry.deregister(&mut SourceFd(&fd));
    }
}

impl Drop for Lookout {
    // Ends the thread.
    fn drop(self) {
        let _woken = self.waker.wake();
        let Self {
            longest: _,
            registry: _,
            waker: _,
            bells: _,
            free: _,
            given: _,
        } = self;
    }
}
