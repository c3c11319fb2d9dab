//! Where the connections of a server come from.
ghost use Rattle.std.specs.Prelude.{◌≡◌, ◌↔◌, IfErr, IfOk, IsTrue};
ghost use Rattle.mps_program.specs.Served.{IsAtPort, IsBindFault, IsPortFor};

use crate::faults::ToolFault;
use mps_hub::Street;
use os::FromRawFd;
use std::io;
use std::io::ErrorKind;
use std::net::{IpAddr, Ipv4Addr, Net, SocketAddr, TcpListener, TcpStream};
use std::os::fd::AsRawFd;

// How many connections may wait to be accepted.
const BACKLOG: i32 = 1_024;

/// A port of 127.0.0.1, where 0 is any that is free, and what listens there already, if something does.
#[derive(Drop)]
pub struct Entrance {
    port: u16,
    listener: Option<TcpListener>,
}

/// Where those who come at a port are let in.
#[derive(Drop)]
pub(crate) struct Listening {
    pub(crate) street: Street,
    pub(crate) port: u16,
}

// The port of a listener that was to have this one, where 0 is any that is free.
fn port_of<'a>(listener: &TcpListener, wanted: u16) -> Result<u16, ToolFault<'a>>
    ensures port { IfOk result (IsPortFor wanted) }
    ensures fault { IfErr result IsBindFault }
{
    if wanted != 0 {
        return Ok(wanted);
    }
    match listener.local_addr() {
        Ok(addr) => Ok(addr.port()),
        Err(why) => Err(ToolFault::Bind { why: Some(why) }),
    }
}

// A listener at this port of 127.0.0.1, and the port that it has.
pub(crate) fn listen<'a, R: Net<Listener = TcpListener, Stream = TcpStream>>(
    rt: &R,
    port: u16,
) -> Result<(TcpListener, u16), ToolFault<'a>>
    ensures port { IfOk result (λ r. IsPortFor port r.1) }
    ensures fault { IfErr result IsBindFault }
{
    match TcpListener::bind(rt, SocketAddr::from((Ipv4Addr::LOCALHOST, port))) {
        Ok(listener) => {
            // std asks for 128; where the system doesn't let more wait, it stays so
            let _same = libc::net::listen(listener.as_raw_fd(), BACKLOG);
            let found = port_of(&listener, port)?;
            Ok((listener, found))
        }
        Err(why) => Err(ToolFault::Bind { why: Some(why) }),
    }
}

// Whether that address is one of this machine alone, by version 4 of IP, at this port, where 0 is any.
fn is_at(addr: &SocketAddr, port: u16) -> bool
    ensures { IsTrue result ↔ IsAtPort port addr.now }
{
    match addr.ip() {
        IpAddr::V4(ip) => ip.is_loopback() && (port == 0 || addr.port() == port),
        IpAddr::V6(_) => false,
    }
}

// What this process was given as that descriptor, if it is a socket of this machine alone, at this port, that can listen.
fn given(descriptor: u64, port: u16) -> io::Result<TcpListener> {
    let Ok(descriptor) = i32::try_from(descriptor) else {
        return Err(io::Error::from(ErrorKind::InvalidInput));
    };
    let listener = unsafe { TcpListener::from_raw_fd(descriptor) };
    if !is_at(&listener.local_addr()?, port) {
        return Err(io::Error::from(ErrorKind::AddrNotAvailable));
    }
    // one that listens already goes on, and as many may wait there as the system lets
    if libc::net::listen(descriptor, i32::MAX) != 0 {
        return Err(io::Error::from_raw_os_error(os::errno()));
    }
    Ok(listener)
}

impl Entrance {
    /// At that port alone.
    pub fn at(port: u16) -> Entrance
        ensures { result.port ≡ port }
    {
        Entrance {
            port,
            listener: None,
        }
    }

    /// At that port; with a descriptor, what this process was given as that, as systemd gives sockets. That has to be called
    /// before anything is opened that could have the number.
    pub fn of<'a>(port: u16, descriptor: Option<u64>) -> Result<Entrance, ToolFault<'a>>
        ensures port { IfOk result (λ entrance. entrance.port ≡ port) }
        ensures fault { IfErr result IsBindFault }
    {
        let listener = match descriptor {
            Some(number) => match given(number, port) {
                Ok(listener) => Some(listener),
                Err(why) => return Err(ToolFault::Bind { why: Some(why) }),
            },
            None => None,
        };
        Ok(Entrance { port, listener })
    }

    // What listens there, and its port.
    pub(crate) fn open<'a, R: Net<Listener = TcpListener, Stream = TcpStream>>(
        self,
        rt: &R,
    ) -> Result<Listening, ToolFault<'a>>
        ensures port { IfOk result (λ r. IsPortFor self.port r.port) }
        ensures fault { IfErr result IsBindFault }
    {
        let Entrance { port, listener } = self;
        match listener {
            Some(listener) => {
                let port = port_of(&listener, port)?;
                opened(Street::lent(rt, listener), port)
            }
            None => {
                let (listener, port) = listen(rt, port)?;
                opened(Street::own(listener), port)
            }
        }
    }
}

// What listens at that port, if it does.
fn opened<'a>(street: io::Result<Street>, port: u16) -> Result<Listening, ToolFault<'a>>
    ensures port { IfOk result (λ r. r.port ≡ port) }
    ensures fault { IfErr result IsBindFault }
{
    match street {
        Ok(street) => Ok(Listening { street, port }),
        Err(why) => Err(ToolFault::Bind { why: Some(why) }),
    }
}
