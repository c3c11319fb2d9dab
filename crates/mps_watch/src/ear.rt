//! What goes through one connection, as it is watched.

use crate::counts::{DONE, word_of};
use crate::watch::{Ended, Watch};
use memchr::memchr;
use mps_base::read_number;
use std::alloc::Global;
use std::{mem, str};

// How many bytes of a line, or of an answer, are kept to be told.
const MOST: usize = 512;

/// Which way it goes.
#[derive(Clone, Copy, Debug, PartialEq, Eq)]
pub enum Side {
    /// The lines of the client.
    Lines,
    /// The answers to them.
    Answers,
}

// The session that was joined, and the role's name.
#[derive(Drop)]
struct Joined {
    session: u64,
    role: Vec<u8>,
}

impl Joined {
    // The role's name, which is ASCII.
    fn role(&self) -> &str {
        str::from_utf8(self.role.as_slice()).unwrap_or("?")
    }
}

/// One side of a connection.
#[derive(Drop)]
pub struct Ear<'w, R> {
    rt: &'w R,
    watch: &'w Watch,
    connection: u64,
    side: Side,
    // the front of the line that goes through; its memory is kept for the next that comes in pieces
    line: Vec<u8>,
    // whether the first went through, which isn't known of lines that aren't told
    begun: bool,
    // the client's first line, where it is known before its answer
    asked: Vec<u8>,
    joined: Option<Joined>,
}

impl<'w, R: Eprint> Ear<'w, R> {
    /// Of the connection of that number, of which nothing was heard yet.
    pub fn new(rt: &'w R, watch: &'w Watch, connection: u64, side: Side) -> Ear<'w, R> {
        Ear {
            rt,
            watch,
            connection,
            side,
            line: Vec::new(watch.alloc),
            begun: false,
            asked: Vec::new(watch.alloc),
            joined: None,
        }
    }

    /// The client's first line is in front of these bytes, if there are any.
    pub fn asked(&mut self, bytes: &[u8]) {
        if !self.watch.tells() {
            return;
        }
        let end = bytes
            .iter()
            .position(|byte| *byte == b'\n')
            .unwrap_or(bytes.len());
        let line = bytes.get(..end.min(MOST)).unwrap_or(bytes);
        let _kept = self.asked.extend_from_slice(line);
    }

    /// These bytes went through, after those before them.
    pub fn hear(&mut self, bytes: &[u8]) {
        if !self.watch.tells_lines() && self.hear_untold(bytes) {
            return;
        }
        let mut rest = bytes;
        while !rest.is_empty() {
            let Some(end) = memchr(b'\n', rest) else {
                self.keep(rest);
                return;
            };
            let (piece, more) = rest.split_at(end);
            self.end_line(piece);
            rest = &more[1..];
        }
    }

    // Hears these bytes where lines aren't told, if it takes no more than a look, and gives whether it did: nothing is to be
    // done with a client's lines, and an answer to a step, as most answers are, is counted at once where it comes by itself.
    #[inline(always)]
    fn hear_untold(&self, bytes: &[u8]) -> bool {
        match self.side {
            Side::Lines => true,
            Side::Answers => {
                let done = self.begun && self.line.is_empty() && is_done(bytes);
                if done {
                    self.watch.counts.lines.add_at(self.connection, DONE);
                }
                done
            }
        }
    }

    // Keeps a piece of a line, as far as it is told. Where there is no memory for it, less is.
    fn keep(&mut self, piece: &[u8]) {
        let room = MOST.saturating_sub(self.line.len());
        let kept = piece.get(..room).unwrap_or(piece);
        let _kept = self.line.extend_from_slice(kept);
    }

    // This piece ends a line. Most lines come whole, and are not copied.
    fn end_line(&mut self, piece: &[u8]) {
        if self.line.is_empty() {
            self.hear_line(piece.get(..MOST).unwrap_or(piece));
            return;
        }
        self.keep(piece);
        let mut line = mem::replace(&mut self.line, Vec::new(self.watch.alloc));
        self.hear_line(line.as_slice());
        line.clear();
        self.line = line;
    }

    // A whole line went through.
    fn hear_line(&mut self, line: &[u8]) {
        match self.side {
            Side::Answers if !self.begun => self.answer_first(line),
            Side::Answers => {
                let word = word_of(line);
                self.watch.counts.lines.add(self.connection, word);
            }
            Side::Lines => {}
        }
        if self.begun && self.watch.tells_lines() {
            self.tell(line);
        }
        self.begun = true;
    }

    // Tells a line, or an answer. Not inlined, so that one that is only counted needs no space for it.
    #[inline(never)]
    fn tell(&self, line: &[u8]) {
        let event = match self.side {
            Side::Lines => "line",
            Side::Answers => "answer",
        };
        self.watch.line(self.rt, event, self.connection, line);
    }

    // The first line was answered. Not inlined, as `tell`.
    #[inline(never)]
    fn answer_first(&mut self, line: &[u8]) {
        self.watch.counts.joins.add(self.connection, word_of(line));
        self.joined = joined_by(self.watch.alloc, line);
        match &self.joined {
            Some(joined) => self
                .watch
                .joined(self.rt, self.connection, joined.session, joined.role()),
            None => {
                let asked = self.asked.as_slice();
                self.watch.refused(self.rt, self.connection, asked, line);
            }
        }
        self.asked = Vec::new(self.watch.alloc);
    }

    /// The session that was joined, if one was.
    pub fn session(&self) -> Option<u64> {
        match &self.joined {
            Some(joined) => Some(joined.session),
            None => None,
        }
    }

    /// The connection has ended.
    pub fn end(self, why: Ended) {
        self.watch.counts.gone.add(1);
        match &self.joined {
            Some(joined) => self.watch.parted(
                self.rt,
                self.connection,
                joined.session,
                joined.role(),
                why,
            ),
            None => self.watch.went(self.rt, self.connection, why),
        }
    }
}

// Whether these bytes are one line that says that a step was done.
fn is_done(bytes: &[u8]) -> bool {
    bytes.starts_with(b"done ") && memchr(b'\n', bytes) == Some(bytes.len() - 1)
}

// Whom an answer `joined SESSION ROLE` lets in.
fn joined_by(alloc: Global, answer: &[u8]) -> Option<Joined> {
    let told = answer.strip_prefix(b"joined ")?;
    let end = told.iter().position(|byte| *byte == b' ')?;
    let mut role = Vec::new(alloc);
    role.extend_from_slice(told.get(end + 1..)?).ok()?;
    Some(Joined {
        session: read_number(&told[..end])?,
        role,
    })
}
