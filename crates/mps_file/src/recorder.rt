//! A recorder: another process on this machine, which keeps a session's journal as a file would.
ghost use Rattle.std.specs.Prelude.{◌≡◌, ◌≤◌, ℕ, true, false, IfOk, IfSome, IfNone, length};
ghost use Rattle.mps_file.specs.Recorders.{AsksFor, GivesJournal, IsNumberAfter, SaysKept};

use mps_base::{read_number, write_number};
use std::alloc::{AllocError, Global};
use std::io;
use std::io::{ErrorKind, Read, Write};
use std::net::{Ipv4Addr, Net, SocketAddr, TcpListener, TcpStream};
use std::sync::atomic::{AtomicU64, Ordering};

// How long a line of a recorder is at most, without its LF.
const LONGEST: usize = 64;

/// A session's journal that a recorder keeps, by a connection for this session alone. It is read once, from its beginning, and
/// then added to.
#[derive(Drop)]
pub struct RecorderStream {
    stream: TcpStream,
    // how many bytes the recorder gave, and how many of these aren't read yet
    given: u64,
    unread: AtomicU64,
    // how many bytes it has by what was written
    len: AtomicU64,
}

// The number after the word, where that is all of the line.
fn number_after(word: &[u8], line: &[u8]) -> Option<u64>
    ensures some { IfSome result (IsNumberAfter word.now line.now) }
{
    read_number(line.strip_prefix(word)?)
}

// How many bytes the journal has that the line gives; or why there is none. By `WouldBlock` another server has it.
fn given_by(line: &[u8]) -> io::Result<u64>
    ensures { IfOk result (GivesJournal line.now) }
{
    match number_after(b"journal ", line) {
        Some(bytes) => Ok(bytes),
        None if line == b"elsewhere".as_slice() => Err(io::Error::from(ErrorKind::WouldBlock)),
        None => Err(io::Error::from(ErrorKind::InvalidData)),
    }
}

// Whether the line says that so many bytes are kept.
fn says_kept(line: &[u8], bytes: u64) -> bool
    ensures { result ≡ true → SaysKept line.now bytes }
{
    number_after(b"kept ", line) == Some(bytes)
}

// The line that asks for the session of that protocol, with its LF.
fn asking(alloc: Global, session: u64, protocol: &[u8]) -> Result<Vec<u8>, AllocError>
    ensures { IfOk result (λ line. AsksFor session protocol.now line.items) }
{
    let mut line = Vec::new(alloc);
    line.extend_from_slice(b"open ")?;
    write_number(session, &mut line)?;
    line.push(b' ')?;
    line.extend_from_slice(protocol)?;
    line.push(b'\n')?;
    Ok(line)
}

// Reads the recorder's next line, byte by byte, since its bytes may follow. Returned is how many there are, without the LF.
fn read_line(stream: &TcpStream, line: &mut [u8; LONGEST]) -> io::Result<usize>
    ensures { IfOk result (λ n. n ≤ 64) }
{
    let mut stream = stream;
    let mut byte = [0u8];
    for at in 0..LONGEST {
        stream.read_exact(&mut byte)?;
        if byte[0] == b'\n' {
            return Ok(at);
        }
        line[at] = byte[0];
    }
    Err(io::Error::from(ErrorKind::InvalidData))
}

impl RecorderStream {
    /// The session's journal, from the recorder at that port of 127.0.0.1. It fails by `WouldBlock` where another server has
    /// the session, or may have it, and by `InvalidData` where the recorder refuses it, as one of another protocol.
    pub fn open<R: AllocGlobal + Net<Listener = TcpListener, Stream = TcpStream>>(
        rt: &R,
        port: u16,
        session: u64,
        protocol: &[u8],
    ) -> io::Result<RecorderStream> {
        let stream = TcpStream::connect(rt, SocketAddr::from((Ipv4Addr::LOCALHOST, port)))?;
        stream.set_nodelay(true)?;
        let asked = asking(rt.alloc(), session, protocol)?;
        let mut writer = &stream;
        writer.write_all(asked.as_slice())?;
        let mut line = [0u8; LONGEST];
        let end = read_line(&stream, &mut line)?;
        let given = given_by(&line[..end])?;
        Ok(RecorderStream {
            stream,
            given,
            unread: AtomicU64::new(given),
            len: AtomicU64::new(given),
        })
    }

    /// How many bytes it gave.
    pub fn given(&self) -> u64 {
        self.given
    }

    /// Asks whether all that was written is kept, and the session is this server's still, and waits for the answer.
    pub fn confirm(&self) -> io::Result<()> {
        let mut writer = &self.stream;
        writer.write_all(b"\n")?;
        let mut line = [0u8; LONGEST];
        let end = read_line(&self.stream, &mut line)?;
        if says_kept(&line[..end], self.len.load(Ordering::SeqCst)) {
            Ok(())
        } else {
            Err(io::Error::from(ErrorKind::ConnectionAborted))
        }
    }

    /// Reads once of what the recorder gave. A connection that ends before that is a fault.
    pub fn read_once(&self, buf: &mut [u8]) -> io::Result<usize>
        ensures { IfOk result (λ n. n ≤ length buf.new) }
    {
        let unread = self.unread.load(Ordering::SeqCst);
        let most = buf.len().min(unread as usize);
        if most == 0 {
            return Ok(0);
        }
        let mut stream = &self.stream;
        match stream.read(&mut buf[..most])? {
            0 => Err(io::Error::from(ErrorKind::UnexpectedEof)),
            n => {
                self.unread
                    .store(unread.saturating_sub(n as u64), Ordering::SeqCst);
                Ok(n)
            }
        }
    }

    /// Writes once.
    pub fn write_once(&self, buf: &[u8]) -> io::Result<usize>
        ensures { IfOk result (λ n. n ≤ length buf.now) }
    {
        let mut stream = &self.stream;
        let n = stream.write(buf)?;
        let len = self.len.load(Ordering::SeqCst);
        self.len
            .store(len.saturating_add(n as u64), Ordering::SeqCst);
        Ok(n)
    }
}
