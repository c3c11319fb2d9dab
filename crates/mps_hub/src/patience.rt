//! How long a connection is waited for.

ghost use Rattle.std.specs.Io.{ReadsAtMost, WritesAtMost};

use mps_lines::MAX_LINE;
use mps_watch::{Ear, Watch};
use std::alloc::Global;
use std::io;
use std::io::{ErrorKind, Read, Write};
use std::net::{Shutdown, TcpStream};
use std::time::{Clock, Duration, Instant};

/// For how many seconds a server that accepts connections without end waits for the first line of one.
pub const FIRST_LINE: u64 = 10;

// How often a read or a write is tried again that a signal interrupts.
const INTERRUPTS: u64 = 1_000;

// Reads once, and again where a signal interrupts it: with a time set the system says so also of a process that was
// stopped and goes on.
fn read_on(mut stream: &TcpStream, buf: &mut [u8]) -> io::Result<usize>
    ensures { ReadsAtMost result buf.new }
{
    for _ in 0..INTERRUPTS {
        match stream.read(buf) {
            Err(error) if error.kind() == ErrorKind::Interrupted => {}
            found => return found,
        }
    }
    stream.read(buf)
}

// Reads what comes until a moment, and waits no longer than `longest` for it, and no shorter than `least`: without that
// nothing is read after the moment.
pub(crate) fn read_until<R: Clock>(
    clock: &R,
    stream: &TcpStream,
    until: Instant,
    least: Duration,
    longest: Option<Duration>,
    buf: &mut [u8],
) -> io::Result<usize>
    ensures { ReadsAtMost result buf.new }
{
    let left = until
        .saturating_duration_since(Instant::now(clock)?)
        .max(least);
    if left.is_zero() {
        return Err(io::Error::from(ErrorKind::TimedOut));
    }
    let wait = longest.map_or(left, |longest| left.min(longest));
    stream.set_read_timeout(Some(wait))?;
    read_on(stream, buf)
}

// How many blocks of what a client still sends are read once its connection has ended.
const LINGER_BLOCKS: u64 = 16;

// Reads what the client still sends, for so long a time. If a connection is closed with bytes unread, the system may take
// back the answers that the client hasn't read yet.
pub(crate) fn linger<R: Clock>(rt: &R, stream: &TcpStream, time: Duration) {
    if let Some(until) = moment_after(rt, time) {
        linger_until(rt, stream, until);
    }
}

// The same, until a moment.
pub(crate) fn linger_until<R: Clock>(rt: &R, stream: &TcpStream, until: Instant) {
    let _shut = stream.shutdown(Shutdown::Write);
    let mut block = [0u8; 4_096];
    for _ in 0..LINGER_BLOCKS {
        match read_until(rt, stream, until, Duration::ZERO, None, &mut block) {
            Ok(count) if count > 0 => {}
            _ => return,
        }
    }
}

// How many bytes are read at a time where a first line is awaited.
const PIECE: usize = 512;

// Reads until an LF came, or more than a first line has, and gives all that came; `None` where the connection ended, or its time.
pub(crate) fn first_bytes<R: Read>(alloc: Global, reader: &mut R) -> Option<Vec<u8>> {
    let mut came = Vec::new(alloc);
    let mut piece = [0u8; PIECE];
    for _ in 0..MAX_LINE + 1 {
        let count = reader.read(&mut piece).ok()?;
        let new = piece.get(..count)?;
        came.extend_from_slice(new).ok()?;
        if new.is_empty() {
            return None;
        }
        if new.contains(&b'\n') || came.len() > MAX_LINE {
            return Some(came);
        }
    }
    None
}

// What is there already of a connection, if it is a first line, or more. Nothing is waited for.
pub(crate) fn bytes_there(alloc: Global, stream: &TcpStream) -> Option<Vec<u8>> {
    let mut piece = [0u8; PIECE];
    stream.set_nonblocking(true).ok()?;
    let looked = stream.peek(&mut piece);
    stream.set_nonblocking(false).ok()?;
    let there = piece.get(..looked.ok()?)?;
    if !there.contains(&b'\n') {
        return None;
    }
    let mut came = Vec::with_capacity(alloc, there.len()).ok()?;
    let count = read_on(stream, &mut piece).ok()?;
    came.extend_from_slice(piece.get(..count)?).ok()?;
    Some(came)
}

// For how many milliseconds at least the rest of a line is read that is there already.
const LEAST: u64 = 1;

// The moment after so long a time.
pub(crate) fn moment_after<R: Clock>(clock: &R, time: Duration) -> Option<Instant> {
    Instant::now(clock).ok()?.checked_add(time)
}

/// A connection's stream, to be written to. A write that a signal interrupts is tried again, as a read is.
#[derive(Clone, Copy)]
pub(crate) struct RetryingWriter<'s> {
    pub(crate) stream: &'s TcpStream,
}

impl Write for RetryingWriter<'_> {
    fn write(&mut self, buf: &[u8]) -> io::Result<usize> {
        let mut stream = self.stream;
        for _ in 0..INTERRUPTS {
            match stream.write(buf) {
                Err(error) if error.kind() == ErrorKind::Interrupted => {}
                written => return written,
            }
        }
        stream.write(buf)
    }

    fn flush(&mut self) -> io::Result<()> {
        let mut stream = self.stream;
        stream.flush()
    }
}

/// A connection's stream. Its first line has to have come by a moment, where there is one; after it each line has to come
/// within the time for which the connection may be idle, whole, from the line before it or from its own first byte.
#[derive(Drop)]
pub(crate) struct TimedReader<'s, R> {
    clock: &'s R,
    stream: &'s TcpStream,
    until: Option<Instant>,
    // how long what is there already may be read after that: it may have come while the server worked
    least: Duration,
    idle: Option<Duration>,
    // whether a line has begun whose time begins at the next read: till then those before it are answered
    begun: bool,
    // who watches, and who hears the lines, if somebody does
    watch: Option<&'s Watch>,
    ear: Option<Ear<'s, R>>,
    // whether the time of a line was over
    silent: bool,
}

impl<'s, R: Clock> TimedReader<'s, R> {
    // Waits so long for the first line, and then so long at each read; without an end, where it isn't said how long.
    // None where the system can't do so.
    pub(crate) fn new(
        clock: &'s R,
        stream: &'s TcpStream,
        first: Option<Duration>,
        idle: Option<Duration>,
    ) -> Option<TimedReader<'s, R>> {
        stream.set_read_timeout(idle).ok()?;
        stream.set_write_timeout(idle).ok()?;
        let until = match first {
            Some(first) => Some(moment_after(clock, first)?),
            None => None,
        };
        Some(TimedReader {
            clock,
            stream,
            until,
            least: Duration::ZERO,
            idle,
            begun: false,
            watch: None,
            ear: None,
            silent: false,
        })
    }

    // The same, which reads no more once the server is told to end by who watches it, and whose lines are heard, after what was
    // read ahead.
    pub(crate) fn watched(
        self,
        watch: Option<&'s Watch>,
        ear: Option<Ear<'s, R>>,
        ahead: &[u8],
    ) -> TimedReader<'s, R>
    where
        R: Eprint,
    {
        let mut reader = self;
        reader.watch = watch;
        reader.ear = ear;
        if let Some(ear) = &mut reader.ear {
            ear.hear(ahead);
        }
        reader
    }

    // Whether the time of a line was over.
    pub(crate) fn is_silent(&self) -> bool {
        self.silent
    }
}

impl<R: Clock> TimedReader<'_, R> {
    // This piece came: it goes on with the line that is awaited, or ends a line, and may begin another, which has its own time.
    fn heard(&mut self, piece: &[u8]) -> io::Result<()> {
        let Some(last) = piece.last() else {
            return Ok(());
        };
        if self.until.is_some() && !piece.contains(&b'\n') {
            return Ok(());
        }
        self.begun = *last != b'\n';
        if self.until.is_some() {
            self.stream.set_read_timeout(self.idle)?;
        }
        self.until = None;
        self.least = Duration::from_millis(LEAST);
        Ok(())
    }

    // The time of a line that has begun begins.
    fn begin(&mut self) {
        if self.begun {
            self.until = match self.idle {
                Some(idle) => moment_after(self.clock, idle),
                None => None,
            };
            self.begun = false;
        }
    }
}

impl<R: Clock + Eprint> TimedReader<'_, R> {
    // Reads what comes, as long as there is time for it.
    fn read_in_time(&mut self, buf: &mut [u8]) -> io::Result<usize>
        ensures { ReadsAtMost result buf.new }
    {
        let found = match self.until {
            Some(until) => read_until(self.clock, self.stream, until, self.least, self.idle, buf),
            None => read_on(self.stream, buf),
        };
        if let Err(error) = &found {
            self.silent = matches!(error.kind(), ErrorKind::WouldBlock | ErrorKind::TimedOut);
        }
        found
    }
}

impl<R: Clock + Eprint> Read for TimedReader<'_, R> {
    fn read(&mut self, buf: &mut [u8]) -> io::Result<usize> {
        // what came meanwhile isn't run any more
        if self.watch.is_some_and(|watch| watch.is_ending()) {
            return Ok(0);
        }
        self.begin();
        let count = self.read_in_time(buf)?;
        let piece = &buf[..count];
        if let Some(ear) = &mut self.ear {
            ear.hear(piece);
        }
        self.heard(piece)?;
        Ok(count)
    }
}

/// A reader that gives first what was read ahead.
#[derive(Drop)]
pub(crate) struct LedReader<R> {
    ahead: Vec<u8>,
    given: usize,
    rest: R,
}

impl<R: Drop> LedReader<R> {
    // A reader that gives these bytes, and then what `rest` gives.
    pub(crate) fn new(ahead: Vec<u8>, rest: R) -> LedReader<R> {
        LedReader {
            ahead,
            given: 0,
            rest,
        }
    }

    // The other reader, as the last read left it.
    pub(crate) fn into_rest(self) -> R {
        let LedReader { rest, .. } = self;
        rest
    }
}

impl<R: Read> Read for LedReader<R> {
    fn read(&mut self, buf: &mut [u8]) -> io::Result<usize> {
        if self.given >= self.ahead.len() {
            return self.rest.read(buf);
        }
        let left = &self.ahead[self.given..];
        let count = left.len().min(buf.len());
        buf[..count].copy_from_slice(&left[..count]);
        self.given += count;
        Ok(count)
    }
}
