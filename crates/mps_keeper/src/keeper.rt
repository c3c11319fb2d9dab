//! The file of a journal that the connections of a session share.
ghost use Rattle.std.specs.Prelude.{◌≡◌, ◌+◌, ◌++◌, [], Bool, true, false, ⊤, IfSome, OnOk, OnErr};
ghost use Rattle.mps_lines.specs.Cuts.{cut};
ghost use Rattle.mps_lines.specs.Lines.{ended};
ghost use Rattle.mps_keeper.specs.Books.{TookSealed};

use crate::book::{Book, NotRecorded};
use crate::recorder::Recorder;
use crate::sealing::end_lines;
use mps_base::Role;
use mps_dev::Sink;
use mps_lines::MAX_LINE;
use mps_seal::SEAL_BYTES;
use std::alloc::{AllocError, Global};
use std::fs::File;
use std::mem;
use std::sync::atomic::{AtomicBool, AtomicU64, Ordering};
use std::sync::{Condvar, Mutex, Wait};

/// How many bytes a line has at most, with its seal and its LF, whose command came as a line of a conversation: a name, a
/// number below 2^64, a command, and two spaces.
pub const LONGEST_LINE: usize = 32 + 1 + 20 + 1 + MAX_LINE + SEAL_BYTES + 1;

/// What stores the lines that were written.
pub trait Disk {
    // What it may say when it is told to store what was written.
    ghost stored: { Self → Bool → Type 0 };

    // What it may say when it is asked whether that is here still.
    ghost confirmed: { Self → Bool → Type 0 };

    /// Says whether all that was written is stored.
    fn sync(&self) -> bool
        ensures { stored self.now result };

    /// Says whether what was written is stored here still, and no other process has taken it over.
    fn confirm(&self) -> bool
        ensures { confirmed self.now result };

    /// Is called once, when the first line is lost, to tell whoever looks after the server.
    fn lost<R: Eprint>(&self, rt: &R);

    /// A line waits to be stored from here on, for whoever counts them.
    fn awaited(&self) {}

    /// One that waited doesn't any more: it is stored, or lost.
    fn settled(&self) {}
}

/// A file that stores what was written each time, and tells nobody of what is lost.
impl Disk for File {
    ghost stored = { λ _ _. ⊤ };

    ghost confirmed = { λ _ _. ⊤ };

    fn sync(&self) -> bool {
        self.sync_data().is_ok()
    }

    // whoever opened it has locked it
    fn confirm(&self) -> bool {
        true
    }

    fn lost<R: Eprint>(&self, _rt: &R) {}
}

// The lines that wait to be written, in order.
#[derive(Drop)]
struct Waiting {
    text: Vec<u8>,
    // how many lines came so far, those that are written included
    lines: u64,
    whole: bool,
}

impl Waiting {
    // Adds the line with an LF. Where memory runs out there is nothing more than before. Apart from `add`, where each failure
    // leads to the same.
    fn push(&mut self, line: &mut Vec<u8>) -> Result<(), AllocError>
        ensures whole { self.new.whole ≡ self.old.whole }
        ensures lines { self.new.lines ≡ self.old.lines }
        ensures text { OnOk result (self.new.text.items ≡ self.old.text.items ++ ended line.old.items) }
        ensures lost { OnErr result (self.new.text.items ≡ self.old.text.items) }
    {
        line.push(b'\n')?;
        self.text.extend_from_slice(line.as_slice())
    }

    // Adds the nth line, from 1, which has to be the next one, with an LF.
    fn add(&mut self, nth: u64, line: &mut Vec<u8>)
        ensures once { self.new.whole ≡ true → self.old.whole ≡ true }
        ensures next { self.new.whole ≡ true → nth ≡ self.old.lines + 1 }
        ensures lines { self.new.whole ≡ true → self.new.lines ≡ nth }
        ensures text { self.new.whole ≡ true
            → self.new.text.items ≡ self.old.text.items ++ ended line.old.items }
        ensures lost { self.new.whole ≡ false → self.new.text.items ≡ self.old.text.items }
    {
        if self.whole && self.lines.checked_add(1) == Some(nth) && self.push(line).is_ok() {
            self.lines = nth;
        } else {
            self.whole = false;
        }
    }
}

// The file, and the space that the lines are handed over in, and get their seals in.
#[derive(Drop)]
struct Writing<W: Sink> {
    book: Book<W>,
    text: Vec<u8>,
    line: Vec<u8>,
    sealed: Vec<u8>,
    // the roles of which a line has space, here and among those that wait
    roles: Vec<Role>,
}

impl<W: Sink> Writing<W> {
    ghost use Rattle.mps_keeper.specs.BookParts.{lines_of, taken_of};

    // Adds the lines that were handed over to the book, which has so many then. They get their seals here, and not where they
    // gather, since others wait there meanwhile.
    #[tactic(auto, using(crate::proofs::Sealed::all_taken))]
    fn record(&mut self, lines: u64) -> Result<(), NotRecorded>
        ensures taken { OnOk result
            (TookSealed (taken_of self.old.book) (cut self.old.text.items).lines (taken_of self.new.book)) }
        ensures lines { OnOk result (lines_of self.new.book ≡ lines) }
        ensures emptied { self.new.text.items ≡ [] }
    {
        self.sealed.clear();
        let last = end_lines(
            self.book.seal(),
            self.text.as_slice(),
            &mut self.line,
            &mut self.sealed,
        );
        self.text.clear();
        match last {
            Ok(seal) => self.book.append(self.sealed.as_slice(), lines, seal),
            Err(AllocError) => Err(NotRecorded),
        }
    }
}

/// The file of a session's journal, one for all of its connections. Lines gather in the order of their entries, and one
/// connection writes all that gathered, and syncs them where that is asked for, for all that wait.
#[derive(Drop)]
pub struct Keeper<W: Sink, D> {
    waiting: Mutex<Waiting>,
    // woken when a line came, or was lost
    came: Condvar,
    // who has it writes
    writing: Mutex<Writing<W>>,
    // where lines are recorded only once the disk says so, and who is told of a lost one
    disk: Option<D>,
    // how many lines are recorded
    recorded: AtomicU64,
    // as `whole` of the lines that wait, for whoever has no lock on them
    lost: AtomicBool,
}

impl<W: Sink + Drop, D: Drop> Keeper<W, D> {
    /// A keeper over this book. Where a disk is given, a line is recorded once it says so, and it is told when one is
    /// lost.
    pub fn new(alloc: Global, book: Book<W>, disk: Option<D>) -> Result<Keeper<W, D>, AllocError> {
        let lines = book.lines();
        let waiting = Waiting {
            text: Vec::new(alloc),
            lines,
            whole: true,
        };
        let writing = Writing {
            book,
            text: Vec::new(alloc),
            line: Vec::with_capacity(alloc, LONGEST_LINE)?,
            sealed: Vec::new(alloc),
            roles: Vec::new(alloc),
        };
        Ok(Keeper {
            waiting: Mutex::new(waiting),
            came: Condvar::new(),
            writing: Mutex::new(writing),
            disk,
            recorded: AtomicU64::new(lines),
            lost: AtomicBool::new(false),
        })
    }
}

impl<W: Sink, D> Keeper<W, D> {
    /// Whether a line was lost.
    pub fn is_broken(&self) -> bool {
        self.lost.load(Ordering::SeqCst)
    }

    // Makes space for a line of the role, unless there is: it has one line here at a time. While nobody writes, since what is
    // written changes places with what waits.
    fn make_space<R: Wait>(&self, rt: &R, role: Role) -> Result<(), AllocError> {
        let mut writing = self.writing.lock(rt);
        if writing.roles.contains(&role) {
            return Ok(());
        }
        let space = LONGEST_LINE.saturating_mul(writing.roles.len() + 1);
        let mut waiting = self.waiting.lock(rt);
        waiting.text.reserve(space)?;
        drop(waiting);
        writing.text.reserve(space)?;
        writing.sealed.reserve(space)?;
        writing.roles.push(role)?;
        Ok(())
    }

    // Whether so many lines are recorded, and none is lost.
    fn has_recorded(&self, lines: u64) -> bool {
        !self.is_broken() && self.recorded.load(Ordering::SeqCst) >= lines
    }

    // Adds the nth line to those that wait, once those before it came. A keeper's, since no other type takes its
    // locks.
    fn gather<R: Wait>(&self, rt: &R, nth: u64, line: &mut Vec<u8>) {
        let mut waiting = self.came.wait_while(rt, self.waiting.lock(rt), |w| {
            w.whole && w.lines.saturating_add(1) < nth
        });
        waiting.add(nth, line);
        drop(waiting);
        self.came.notify_all();
    }

    // Waits until so many lines came. A keeper's, as `gather`.
    fn reach<R: Wait>(&self, rt: &R, lines: u64) {
        let waiting = self
            .came
            .wait_while(rt, self.waiting.lock(rt), |w| w.whole && w.lines < lines);
        drop(waiting);
    }

    // Hands over the lines that wait. Says how many there are now, if none is lost. Apart from `flush`, so that lines may
    // gather while these are written.
    fn hand_over<R: Wait>(&self, rt: &R, text: &mut Vec<u8>) -> Option<u64> {
        let mut waiting = self.waiting.lock(rt);
        if !waiting.whole {
            return None;
        }
        mem::swap(&mut waiting.text, text);
        Some(waiting.lines)
    }
}

impl<W: Sink, D: Disk> Keeper<W, D> {
    ghost use Rattle.mps_keeper.specs.BookParts.{lines_of, taken_of};

    // Gives up the line that is next, and so all after it.
    fn lose<R: Wait + Eprint>(&self, rt: &R) {
        let was_lost = self.lost.swap(true, Ordering::SeqCst);
        let mut waiting = self.waiting.lock(rt);
        waiting.whole = false;
        drop(waiting);
        self.came.notify_all();
        match &self.disk {
            Some(disk) if !was_lost => disk.lost(rt),
            _ => {}
        }
    }

    // Writes the lines that were handed over, and syncs them. Says whether they are recorded. Apart from `flush`,
    // since a function that locks can't say what it did, and this one does.
    fn write(&self, writing: &mut Writing<W>, lines: u64) -> bool
        ensures taken { result ≡ true → TookSealed (taken_of writing.old.book) (cut writing.old.text.items).lines
            (taken_of writing.new.book) }
        ensures lines { result ≡ true → lines_of writing.new.book ≡ lines }
        ensures stored { result ≡ true → IfSome self.now.disk (λ disk. D.stored disk true) }
        ensures emptied { writing.new.text.items ≡ [] }
    {
        let written = writing.record(lines).is_ok();
        match &self.disk {
            Some(disk) => written && disk.sync(),
            None => written,
        }
    }

    // Has the lines recorded that wait, unless they are. Says whether so many are. Meanwhile the disk counts that one waits.
    fn flush<R: Wait + Eprint>(&self, rt: &R, count: u64) -> bool {
        if self.has_recorded(count) {
            return true;
        }
        if let Some(disk) = &self.disk {
            disk.awaited();
        }
        let recorded = self.flush_now(rt, count);
        if let Some(disk) = &self.disk {
            disk.settled();
        }
        recorded
    }

    // The same, unless they are by then. Nothing is written after a failure, and nothing synced, since the next sync may
    // succeed although lines were lost.
    fn flush_now<R: Wait + Eprint>(&self, rt: &R, count: u64) -> bool {
        let mut writing = self.writing.lock(rt);
        if self.has_recorded(count) {
            return true;
        }
        let recorded = match self.hand_over(rt, &mut writing.text) {
            Some(lines) if lines >= count => self.write(&mut writing, lines).then_some(lines),
            _ => None,
        };
        match recorded {
            Some(lines) => self.recorded.store(lines, Ordering::SeqCst),
            None => {
                writing.book.lose();
                self.lose(rt);
            }
        }
        recorded.is_some()
    }

    // Asks the disk whether the lines are here still, while nobody writes. Where they aren't nothing more is recorded. Says
    // whether none is lost.
    fn confirm<R: Wait + Eprint>(&self, rt: &R) -> bool
        ensures confirmed { result ≡ true → IfSome self.now.disk (λ disk. D.confirmed disk true) }
    {
        let Some(disk) = &self.disk else {
            return !self.is_broken();
        };
        let mut writing = self.writing.lock(rt);
        let is_here = !self.is_broken() && disk.confirm();
        if !is_here {
            writing.book.lose();
            self.lose(rt);
        }
        is_here
    }
}

/// One connection's hold of a keeper, or of none.
#[derive(Drop)]
pub struct Hold<'k, R, W: Sink, D> {
    rt: &'k R,
    keeper: Option<&'k Keeper<W, D>>,
    whole: bool,
}

impl<'k, R, W: Sink, D> Hold<'k, R, W, D> {
    ghost use Rattle.mps_keeper.specs.Holds.{keeper_of, records_of, whole_of};
    ghost use Rattle.std.specs.Option.{is_some, option_map};

    /// A hold of the keeper; of none, where nothing is recorded.
    pub fn new(rt: &'k R, keeper: Option<&'k Keeper<W, D>>) -> Hold<'k, R, W, D>
        ensures keeper { keeper_of result ≡ option_map (λ k. k.now) keeper.entry }
        ensures records { records_of result ≡ is_some keeper.entry }
        ensures whole { whole_of result ≡ true }
    {
        Hold {
            rt,
            keeper,
            whole: true,
        }
    }
}

impl<'k, R: Wait, W: Sink, D> Hold<'k, R, W, D> {
    /// Makes space for a line of the role where lines are recorded, so that none is lost for want of memory.
    pub fn make_space(&self, role: Role) -> Result<(), AllocError> {
        match self.keeper {
            Some(keeper) => keeper.make_space(self.rt, role),
            None => Ok(()),
        }
    }
}

impl<'k, R: Wait + Eprint, W: Sink, D: Disk> Hold<'k, R, W, D> {
    ghost use Rattle.mps_keeper.specs.Holds.{keeper_of, records_of, whole_of};

    /// Has nothing told from here on, unless what was recorded is here still. Where no other process can take it over, as a
    /// locked file, that is so as long as no line is lost.
    pub fn confirm(&mut self)
        ensures keeper { keeper_of self.new ≡ keeper_of self.old }
        ensures records { records_of self.new ≡ records_of self.old }
        ensures lost { whole_of self.old ≡ false → whole_of self.new ≡ false }
        ensures confirmed { whole_of self.new ≡ true
            → IfSome (keeper_of self.new) (λ keeper. IfSome keeper.disk (λ disk. D.confirmed disk true)) }
        ensures unrecorded { records_of self.old ≡ false → whole_of self.new ≡ whole_of self.old }
    {
        if let Some(keeper) = self.keeper
            && !keeper.confirm(self.rt)
        {
            self.whole = false;
        }
    }
}

impl<'k, R: Wait + Eprint, W: Sink, D: Disk> Recorder for Hold<'k, R, W, D> {
    ghost use Rattle.std.specs.Prelude.{None, Option};
    ghost use Rattle.mps_keeper.specs.Holds.{keeper_of, records_of, whole_of};
    ghost use Rattle.mps_keeper.specs.declared.keeper.Keeper.{Keeper as KeeperOf};

    ghost records = { records_of };

    ghost taken = { λ _. None };

    ghost whole = { whole_of };

    ghost Place = { Option (KeeperOf W D W.Sink) };

    ghost place = { keeper_of };

    fn records(&self) -> bool {
        self.keeper.is_some()
    }

    fn is_whole(&self) -> bool {
        self.whole
    }

    fn add(&mut self, nth: u64, line: &mut Vec<u8>) {
        let Some(keeper) = self.keeper else {
            return;
        };
        keeper.gather(self.rt, nth, line);
        if !keeper.flush(self.rt, nth) {
            self.whole = false;
        }
    }

    fn settle(&mut self, lines: u64) {
        let Some(keeper) = self.keeper else {
            return;
        };
        // most often they are, and then no lock is taken
        if keeper.has_recorded(lines) {
            return;
        }
        keeper.reach(self.rt, lines);
        if !keeper.flush(self.rt, lines) {
            self.whole = false;
        }
    }

    fn lose(&mut self) {
        if let Some(keeper) = self.keeper {
            keeper.lose(self.rt);
        }
        self.whole = false;
    }
}
