//! What a server counts.

use crate::times::Times;
use std::alloc::{AllocError, Global};
use std::sync::atomic::{AtomicU64, Ordering};

/// A count that threads share. Past 2^64 it begins anew.
#[derive(Drop)]
pub struct Count {
    value: AtomicU64,
}

impl Count {
    /// At 0.
    pub fn new() -> Count {
        Count {
            value: AtomicU64::new(0),
        }
    }

    /// Adds so many.
    pub fn add(&self, more: u64) {
        let _before = self.value.fetch_add(more, Ordering::Relaxed);
    }

    /// Adds one, and gives how many there are by it, from 1: a number that no other call gives.
    pub fn next(&self) -> u64 {
        self.value.fetch_add(1, Ordering::Relaxed).wrapping_add(1)
    }

    /// How many there are.
    pub fn value(&self) -> u64 {
        self.value.load(Ordering::Relaxed)
    }
}

/// Which answers a tally counts.
#[derive(Clone, Copy, Debug, PartialEq, Eq)]
pub enum Answers {
    /// Those to first lines.
    Joins,
    /// Those to other lines.
    Lines,
}

impl Answers {
    // Their words. A tally has none of its own, so that its type names no lifetime.
    fn words(self) -> &'static [&'static str] {
        match self {
            Answers::Joins => JOINS,
            Answers::Lines => LINES,
        }
    }
}

// How many shares a tally has, and how many counts stand in each, at least one more than there are words: threads that count in
// different ones write to different lines of the processor's cache.
const SHARES: usize = 8;

const SHARE: usize = 24;

/// How many answers there are of each word, and of all others.
#[derive(Drop)]
pub struct Tally {
    answers: Answers,
    // share by share: one for each word, then one for all others
    counts: Vec<Count>,
}

impl Tally {
    /// Of these answers; nothing was counted yet.
    pub fn new(alloc: Global, answers: Answers) -> Result<Tally, AllocError> {
        let mut counts = Vec::with_capacity(alloc, SHARES * SHARE)?;
        for _ in 0..SHARES * SHARE {
            counts.push(Count::new())?;
        }
        Ok(Tally { answers, counts })
    }

    /// Counts the word, for a connection of that number.
    pub fn add(&self, connection: u64, word: &[u8]) {
        let words = self.answers.words();
        let place = words
            .iter()
            .position(|known| known.as_bytes() == word)
            .unwrap_or(words.len());
        self.add_at(connection, place);
    }

    /// Counts the word at this place of those of the tally, or all others where there is none, for a connection of that number.
    #[inline(always)]
    pub(crate) fn add_at(&self, connection: u64, place: usize) {
        let place = place.min(SHARE - 1);
        let share = (connection % SHARES as u64) as usize;
        if let Some(count) = self.counts.get(share * SHARE + place) {
            count.add(1);
        }
    }

    // How many there are of the word at this place.
    fn value(&self, place: usize) -> u64 {
        let mut all = 0u64;
        for count in self.counts.iter().skip(place).step_by(SHARE) {
            all = all.wrapping_add(count.value());
        }
        all
    }

    /// Appends a line for each word, and for all others.
    pub fn write(&self, alloc: Global, name: &str, out: &mut Vec<u8>) -> Result<(), AllocError> {
        let others = ["other"];
        let words = self.answers.words().iter().chain(&others);
        for (place, word) in words.enumerate() {
            let value = self.value(place);
            let line = format!(in alloc; "{name}{{answer=\"{word}\"}} {value}\n")?;
            out.extend_from_slice(line.as_bytes())?;
        }
        Ok(())
    }
}

// The words of answers to first lines.
const JOINS: &[&str] = &[
    "joined",
    "taken",
    "nosession",
    "norole",
    "line",
    "busy",
    "journal",
    "elsewhere",
    "memory",
];

/// The place of `done` among the words of answers to lines.
pub(crate) const DONE: usize = 0;

// The words of answers to other lines, the most frequent ones first.
const LINES: &[&str] = &[
    "done",
    "undone",
    "nothingqueued",
    "news",
    "shown",
    "needed",
    "final",
    "number",
    "line",
    "ended",
    "wrongact",
    "wrongpeer",
    "wrongsort",
    "nolabel",
    "mismatch",
    "nostep",
    "notyours",
    "nomark",
    "full",
    "memory",
    "journal",
];

/// What a server counts from its start on.
#[derive(Drop)]
pub struct Counts {
    /// Connections that came, and how often one couldn't be served.
    pub connections: Count,
    pub unserved: Count,
    /// Connections that are attended to, and no longer.
    pub here: Count,
    pub gone: Count,
    /// Answers to first lines, by their words, and joined roles that have left.
    pub joins: Tally,
    pub roles: Count,
    pub parted: Count,
    /// Answers to other lines, by their words.
    pub lines: Tally,
    /// How often a session was to be opened, and for how often that is over.
    pub asked: Count,
    pub tried: Count,
    /// Sessions that were opened, and let go of; of which lines were lost; and that could not be opened.
    pub opened: Count,
    pub left: Count,
    pub lost: Count,
    pub refused: Count,
    /// Bytes that were written to journals.
    pub journal_bytes: Count,
    /// Lines that came to wait for the disk, and no longer do; and how long it took.
    pub awaited: Count,
    pub settled: Count,
    pub syncs: Times,
    /// How often sessions were restored, and for how many nanoseconds in all.
    pub restores: Count,
    pub restoring: Count,
}

impl Counts {
    /// All at 0.
    pub fn new(alloc: Global) -> Result<Counts, AllocError> {
        Ok(Counts {
            connections: Count::new(),
            unserved: Count::new(),
            here: Count::new(),
            gone: Count::new(),
            joins: Tally::new(alloc, Answers::Joins)?,
            roles: Count::new(),
            parted: Count::new(),
            lines: Tally::new(alloc, Answers::Lines)?,
            asked: Count::new(),
            tried: Count::new(),
            opened: Count::new(),
            left: Count::new(),
            lost: Count::new(),
            refused: Count::new(),
            journal_bytes: Count::new(),
            awaited: Count::new(),
            settled: Count::new(),
            syncs: Times::new(alloc)?,
            restores: Count::new(),
            restoring: Count::new(),
        })
    }
}

/// The word under which an answer is counted: its first, of a refusal its second, and `shown` of a session that is shown.
pub fn word_of(answer: &[u8]) -> &[u8] {
    if answer.first() == Some(&b'{') {
        return b"shown";
    }
    let told = answer.strip_prefix(b"refused ").unwrap_or(answer);
    match told.iter().position(|byte| *byte == b' ') {
        Some(end) => &told[..end],
        None => told,
    }
}
