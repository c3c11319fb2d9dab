//! What is told of a server.

use crate::counts::Counts;
use crate::values::value;
use std::alloc::{AllocError, Global};
use std::io::ErrorKind;
use std::sync::atomic::{AtomicBool, Ordering};
use std::{io, str};

/// How much is told.
#[derive(Clone, Copy, Debug, PartialEq, Eq)]
pub enum Detail {
    /// What befalls the server, its sessions and its connections.
    Events,
    /// Each line and each answer too.
    Lines,
}

/// Why a connection ended.
#[derive(Clone, Copy, Debug, PartialEq, Eq)]
pub enum Ended {
    /// Its client closed it.
    Closed,
    /// Its time was over.
    Silent,
    /// Lines of its session were lost.
    Lost,
    /// The server ends.
    Ending,
    /// For anything else.
    Fault,
}

impl Ended {
    // Its word.
    fn word(self) -> &'static str {
        match self {
            Ended::Closed => "closed",
            Ended::Silent => "silent",
            Ended::Lost => "lost",
            Ended::Ending => "ending",
            Ended::Fault => "fault",
        }
    }
}

/// Whether joins are taken.
#[derive(Clone, Copy, Debug, PartialEq, Eq)]
pub enum Health {
    /// They aren't yet.
    Starting,
    Taken,
    /// They aren't any more.
    Ending,
}

/// A server, for whoever looks after it: what it counts, and what it tells on standard error, a line for each event.
#[derive(Drop)]
pub struct Watch {
    pub counts: Counts,
    pub(crate) alloc: Global,
    detail: Option<Detail>,
    taken: AtomicBool,
    ending: AtomicBool,
    // whether that was told
    told_ending: AtomicBool,
    // whether it was told that connections can't be served, since one came that could
    told_unserved: AtomicBool,
}

// The text in quotation marks, and a `?` where there is no memory for it. A value is ASCII.
fn value_of(value: &Result<Vec<u8>, AllocError>) -> &str {
    match value {
        Ok(value) => str::from_utf8(value.as_slice()).unwrap_or("?"),
        Err(_) => "?",
    }
}

impl Watch {
    /// A server that hasn't begun, of which so much is told; without `detail` nothing.
    pub fn new(alloc: Global, detail: Option<Detail>) -> Result<Watch, AllocError> {
        Ok(Watch {
            counts: Counts::new(alloc)?,
            alloc,
            detail,
            taken: AtomicBool::new(false),
            ending: AtomicBool::new(false),
            told_ending: AtomicBool::new(false),
            told_unserved: AtomicBool::new(false),
        })
    }

    // Whether events are told.
    pub(crate) fn tells(&self) -> bool {
        self.detail.is_some()
    }

    /// Whether each line is told.
    pub fn tells_lines(&self) -> bool {
        self.detail == Some(Detail::Lines)
    }

    /// Whether the server was told to end.
    pub fn is_ending(&self) -> bool {
        self.ending.load(Ordering::SeqCst)
    }

    /// The server is told to end.
    pub fn end(&self) {
        self.ending.store(true, Ordering::SeqCst);
    }

    /// Whether joins are taken.
    pub fn health(&self) -> Health {
        if self.is_ending() {
            Health::Ending
        } else if self.taken.load(Ordering::SeqCst) {
            Health::Taken
        } else {
            Health::Starting
        }
    }

    /// Joins are taken from here on.
    pub fn listening<R: Eprint>(&self, rt: &R, port: u16) {
        self.taken.store(true, Ordering::SeqCst);
        if self.tells() {
            let _told = eprintln!(rt; "<6>listening port={port}");
        }
    }

    /// A session was opened that has so many entries.
    pub fn opened<R: Eprint>(&self, rt: &R, session: u64, entries: u64) {
        self.counts.opened.add(1);
        if self.tells() {
            let _told = eprintln!(rt; "<6>opened session={session} entries={entries}");
        }
    }

    /// A session was let go of that has so many entries.
    pub fn left<R: Eprint>(&self, rt: &R, session: u64, entries: u64) {
        if self.tells() {
            let _told = eprintln!(rt; "<6>left session={session} entries={entries}");
        }
    }

    // The value of what the system says of an error. It has none for a recorder that keeps no more.
    fn reason(&self, why: &io::Error) -> Result<Vec<u8>, AllocError> {
        if why.kind() == ErrorKind::ConnectionAborted {
            return value(self.alloc, b"taken over, or the recorder ended");
        }
        value(self.alloc, why.to_string(self.alloc)?.as_bytes())
    }

    /// Lines of a session were lost, for what the system says; by `ConnectionAborted` its recorder ended, or keeps it for
    /// another server.
    pub fn lost<R: Eprint>(&self, rt: &R, session: u64, why: &io::Error) {
        self.counts.lost.add(1);
        if self.tells() {
            let why = self.reason(why);
            let why = value_of(&why);
            let _told = eprintln!(rt; "<3>lost session={session} why={why}");
        }
    }

    /// There was that fault, for what the system says, if it said something.
    pub fn fault<R: Eprint>(&self, rt: &R, what: &[u8], why: Option<&io::Error>) {
        if !self.tells() {
            return;
        }
        let what = value(self.alloc, what);
        let what = value_of(&what);
        match why {
            Some(why) => {
                let why = self.reason(why);
                let why = value_of(&why);
                let _told = eprintln!(rt; "<3>fault what={what} why={why}");
            }
            None => {
                let _told = eprintln!(rt; "<3>fault what={what}");
            }
        }
    }

    /// A connection couldn't be served, since no descriptor, thread or memory was free. That is told once, until one comes that can.
    pub fn unserved<R: Eprint>(&self, rt: &R) {
        self.counts.unserved.add(1);
        let was_told = self.told_unserved.swap(true, Ordering::SeqCst);
        if self.tells() && !was_told {
            let _told = eprintln!(rt; "<3>unserved");
        }
    }

    /// The server begins to end, which is told once.
    pub fn ending<R: Eprint>(&self, rt: &R) {
        let was_told = self.told_ending.swap(true, Ordering::SeqCst);
        if self.tells() && !was_told {
            let _told = eprintln!(rt; "<6>ending");
        }
    }

    /// The server is over.
    pub fn over<R: Eprint>(&self, rt: &R) {
        if self.tells() {
            let _told = eprintln!(rt; "<6>over");
        }
    }

    /// A connection came. Gives its number, from 1.
    pub fn came(&self) -> u64 {
        self.told_unserved.store(false, Ordering::SeqCst);
        self.counts.here.add(1);
        self.counts.connections.next()
    }

    // A connection joined a session as that role.
    pub(crate) fn joined<R: Eprint>(&self, rt: &R, connection: u64, session: u64, role: &str) {
        self.counts.roles.add(1);
        if self.tells() {
            let _told = eprintln!(rt;
                "<6>joined session={session} role={role} connection={connection}"
            );
        }
    }

    // A connection got no role, by that answer to that line, if it is known.
    pub(crate) fn refused<R: Eprint>(&self, rt: &R, connection: u64, line: &[u8], answer: &[u8]) {
        if !self.tells() {
            return;
        }
        let answer = value(self.alloc, answer);
        let answer = value_of(&answer);
        if line.is_empty() {
            let _told = eprintln!(rt; "<5>refused connection={connection} answer={answer}");
            return;
        }
        let line = value(self.alloc, line);
        let line = value_of(&line);
        let _told = eprintln!(rt; "<5>refused connection={connection} answer={answer} line={line}");
    }

    // A connection that had joined a session as that role ended.
    pub(crate) fn parted<R: Eprint>(
        &self,
        rt: &R,
        connection: u64,
        session: u64,
        role: &str,
        why: Ended,
    ) {
        self.counts.parted.add(1);
        if self.tells() {
            let why = why.word();
            let _told = eprintln!(rt;
                "<6>ended session={session} role={role} connection={connection} why={why}"
            );
        }
    }

    // A connection that had joined no session ended.
    pub(crate) fn went<R: Eprint>(&self, rt: &R, connection: u64, why: Ended) {
        if self.tells() {
            let why = why.word();
            let _told = eprintln!(rt; "<6>ended connection={connection} why={why}");
        }
    }

    // A line came, or an answer was written, as `event` says.
    pub(crate) fn line<R: Eprint>(&self, rt: &R, event: &str, connection: u64, line: &[u8]) {
        let line = value(self.alloc, line);
        let line = value_of(&line);
        let _told = eprintln!(rt; "<7>{event} connection={connection} {event}={line}");
    }
}
