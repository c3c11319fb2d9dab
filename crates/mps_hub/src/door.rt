//! Where connections come from.
ghost use Rattle.std.specs.Prelude.{◌≡◌, ◌↔◌, IfOk, IfErr, IsOk};
ghost use Rattle.std.specs.IoError.{error_kind};

use crate::server::ServeFault;
use libc::types::pollfd;
use std::alloc::Global;
use std::io;
use std::io::ErrorKind;
use std::net::{Net, Shutdown, SocketAddr, TcpListener, TcpStream};
use std::os::fd::{AsRawFd, OwnedFd, RawFd};
use std::os::unix::net::UnixStream;
use std::sync::Wait;
use std::time::Clock;

/// How many connections of a listener are open at once at most. Others wait in the system's queue.
pub const MAX_OPEN: usize = 1_024;

/// A connection that came, and what was read of it already.
#[derive(Drop)]
pub struct Arrival {
    pub stream: TcpStream,
    /// Its first bytes, up to its first LF or further, where they were read.
    pub ahead: Vec<u8>,
}

/// What comes through a door.
#[derive(Drop)]
pub enum Coming {
    Came(Arrival),
    /// No connection can be had now.
    Failed(ServeFault),
    /// No connection comes any more.
    Over,
}

/// Where the connections of a hub come from.
pub trait Door {
    /// How many may be inside at once.
    fn places(&self) -> usize;

    /// Whether, where all places are taken, the oldest that joined no session is ended for the next one.
    fn yields(&self) -> bool;

    /// The next connection, which is waited for.
    fn next<R: Wait + Clock>(&self, rt: &R, alloc: Global) -> Coming;

    /// One that came has ended.
    fn left<R: Wait>(&self, rt: &R);

    /// Lets no more come, and wakes who waits for the next.
    fn shut<R: Wait>(&self, rt: &R);
}

/// A listener, where those who come are let in.
#[derive(Drop)]
pub struct Street {
    listener: TcpListener,
    // of a listener that is lent: one end of a pair, at which who waits for a connection looks too
    bell: Option<UnixStream>,
    // what a waker shuts: the other end, or else the listener's socket, as a stream, since a listener has no `shutdown`
    rope: TcpStream,
}

/// With it a call that waits for a connection at a listener comes back.
#[derive(Drop)]
pub struct Waker {
    rope: TcpStream,
}

impl Waker {
    /// Wakes who waits there, and who will.
    pub fn wake(&self) {
        let _rung = self.rope.shutdown(Shutdown::Both);
    }
}

impl Street {
    /// With this listener, which is shut once no more are let in.
    pub fn own(listener: TcpListener) -> io::Result<Street> {
        let rope = TcpStream::from(OwnedFd::from(listener.try_clone()?));
        Ok(Street {
            listener,
            bell: None,
            rope,
        })
    }

    /// With one that others have too. It is never shut, so that who comes once no more are let in waits there for others; and it
    /// doesn't block any more.
    pub fn lent(net: &impl Net, listener: TcpListener) -> io::Result<Street> {
        let (bell, rope) = UnixStream::pair(net)?;
        listener.set_nonblocking(true)?;
        Ok(Street {
            listener,
            bell: Some(bell),
            rope: TcpStream::from(OwnedFd::from(rope)),
        })
    }

    /// What wakes who waits for a connection there.
    pub fn waker(&self) -> io::Result<Waker> {
        Ok(Waker {
            rope: self.rope.try_clone()?,
        })
    }

    // Accepts the next connection. One that is gone before it is accepted is passed over. None where who waits is woken, and the
    // listener is lent.
    pub(crate) fn accept(&self) -> Result<Option<TcpStream>, ServeFault> {
        for _ in 0..u64::MAX {
            if self.is_rung() {
                return Ok(None);
            }
            match self.listener.accept() {
                Err(error) if is_passing(&error, self.bell.is_some()) => {}
                found => return Ok(Some(accepted(found)?)),
            }
        }
        Err(ServeFault::Accept)
    }

    // Whether who waits is woken, where the listener is lent; till then it waits until somebody comes there.
    fn is_rung(&self) -> bool {
        let Some(bell) = &self.bell else {
            return false;
        };
        let mut looked = [
            awaited(self.listener.as_raw_fd()),
            awaited(bell.as_raw_fd()),
        ];
        let _ready = libc::net::poll(&mut looked, -1);
        looked[1].revents != 0
    }
}

// What is looked at: whether something comes at that descriptor.
fn awaited(fd: RawFd) -> pollfd {
    pollfd {
        fd,
        events: libc::net::POLLIN,
        revents: 0,
    }
}

// The connection that was accepted, or why none is any more.
fn accepted(found: io::Result<(TcpStream, SocketAddr)>) -> Result<TcpStream, ServeFault>
    ensures came { IsOk result ↔ IsOk found }
    ensures fault { IfErr found (λ error. IfErr result (λ fault.
        (fault ≡ ServeFault.Memory) ↔ (error_kind error ≡ ErrorKind.OutOfMemory))) }
{
    match found {
        Ok((stream, _)) => Ok(stream),
        Err(error) if error.kind() == ErrorKind::OutOfMemory => Err(ServeFault::Memory),
        Err(_) => Err(ServeFault::Accept),
    }
}

// Whether that error of `accept` is of the connection, which is gone again, or which others have accepted, where they have the
// listener too, or of the wait for it, and no reason to accept no more.
fn is_passing(error: &io::Error, lent: bool) -> bool {
    match error.kind() {
        ErrorKind::ConnectionAborted | ErrorKind::Interrupted => true,
        ErrorKind::WouldBlock => lent,
        _ => false,
    }
}

impl Door for Street {
    fn places(&self) -> usize {
        MAX_OPEN
    }

    fn yields(&self) -> bool {
        true
    }

    fn next<R: Wait + Clock>(&self, _rt: &R, alloc: Global) -> Coming {
        match self.accept() {
            Ok(Some(stream)) => Coming::Came(Arrival {
                stream,
                ahead: Vec::new(alloc),
            }),
            Ok(None) => Coming::Over,
            Err(fault) => Coming::Failed(fault),
        }
    }

    fn left<R: Wait>(&self, _rt: &R) {}

    fn shut<R: Wait>(&self, _rt: &R) {
        let _rung = self.rope.shutdown(Shutdown::Both);
    }
}
