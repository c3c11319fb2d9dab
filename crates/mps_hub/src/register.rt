//! The sessions that are open, and the connections that wait to be let in to each.
//!
//! A session is here from the first join on until its file is closed: what comes meanwhile waits here, so no join is
//! lost, and no two threads open one session. All of it is behind one lock, which nobody holds longer than for one look.
ghost use Rattle.std.specs.Prelude.{◌≤◌, ◌^◌};

use crate::door::{Arrival, Coming, Door};
use std::alloc::{AllocFailed, Global};
use std::collections::{BTreeMap, VecDeque};
use std::mem;
use std::net::{Shutdown, TcpStream};
use std::sync::{Arc, Condvar, Mutex, Wait};
use std::time::{Clock, Duration};

/// How many connections are open at once at most. Others wait in the system's queue.
pub const MOST_CONNECTIONS: u64 = 16_384;

/// How many of them may wait for a session, or be in one; more are refused.
pub const MOST_JOINED: u64 = 15_360;

/// How many of them may still owe their first line: where one more comes, the oldest is ended.
pub const MOST_SILENT: usize = 1_024;

// How many connections are in one session at once at most, those of its roles and some that are refused; and how many may wait
// to be let in.
const PLACES: usize = 64;

// One session.
#[derive(Drop)]
struct Entry {
    // those that are to be let in, the first first
    waiting: VecDeque<Arrival>,
    // how many were let in and haven't left
    inside: u64,
    // since when nobody is inside: where it stands among the vacant ones
    vacant: Option<u64>,
    // lets nobody in any more, though some may wait
    shut: bool,
    // whether it is counted as open: one that was told to go isn't
    counted: bool,
    // stays here though its thread has ended: nobody is let in as long as the server runs
    barred: bool,
    // wakes its thread
    told: Arc<Condvar, Global>,
}

impl Entry {
    // Whether as many wait as may. Where no place is free inside, the oldest that joined nothing makes room for the next.
    fn is_full(&self) -> bool {
        self.waiting.len() >= PLACES
    }
}

// The sessions, and the connections.
#[derive(Drop)]
struct Sessions {
    entries: BTreeMap<u64, Entry>,
    // how many of them are open or about to be, without those that were told to go
    open: u64,
    // those in which nobody is, by the time when the last one left, which is a count
    vacant: BTreeMap<u64, u64>,
    time: u64,
    // those that owe their first line, by when they came, which is a count
    silent: BTreeMap<u64, TcpStream>,
    came: u64,
    connections: u64,
    joined: u64,
    // no more connections come
    over: bool,
    // nor are those that are here waited for
    ending: bool,
}

/// The sessions that are open.
#[derive(Drop)]
pub struct Register {
    most: u64,
    keep: Option<Duration>,
    sessions: Mutex<Sessions>,
    // woken when a connection ended
    left: Condvar,
    // woken when the server ends
    ends: Condvar,
}

/// What becomes of a connection that asks for a session.
#[derive(Drop)]
pub(crate) enum Entered {
    /// The session is open, and its thread lets the connection in.
    Waits,
    /// The session is to be opened, by whoever called.
    First(Arc<Condvar, Global>),
    /// As many sessions are open as may be, and somebody is in each; or as many connections, of all or of this one.
    Full(Arrival),
    /// The session isn't opened again.
    Barred(Arrival),
    /// The server ends.
    Over(Arrival),
    Memory(Arrival),
}

/// What becomes of a session that was let go of.
#[derive(Clone, Copy, Debug, PartialEq, Eq)]
pub(crate) enum Left {
    /// It is gone.
    Gone,
    /// Somebody waits for it, and it is to be opened again.
    Wanted,
    /// Somebody waits for it, but by now as many sessions are open as may be, and somebody is in each.
    Full,
}

// Where there is no memory for the entry: its arrival.
fn without(mut entry: Entry) -> Entered {
    match entry.waiting.pop_front() {
        Some(arrival) => Entered::Memory(arrival),
        None => Entered::Waits,
    }
}

impl Sessions {
    // The session isn't vacant any more.
    fn fill(&mut self, number: u64) {
        let Some(entry) = self.entries.get_mut(&number) else {
            return;
        };
        if let Some(since) = entry.vacant.take() {
            let _was = self.vacant.remove(&since);
        }
    }

    // Nobody is in the session from now on. Where there is no memory to note it, it can't be told to go early.
    fn empty(&mut self, number: u64) {
        let Some(entry) = self.entries.get_mut(&number) else {
            return;
        };
        if entry.vacant.is_some() {
            return;
        }
        let since = self.time;
        if self.vacant.insert(since, number).is_ok() {
            entry.vacant = Some(since);
            self.time = since.saturating_add(1);
        }
    }

    // Says whether one more may be open where so many may be, and makes room for it, if that can be.
    fn has_room(&mut self, most: u64) -> bool {
        for _ in most..=self.open {
            if !self.make_room() {
                return false;
            }
        }
        true
    }

    // Tells the session to go in which nobody has been for the longest time. Says whether there is one.
    fn make_room(&mut self) -> bool {
        let Some((_, number)) = self.vacant.pop_first() else {
            return false;
        };
        let Some(entry) = self.entries.get_mut(&number) else {
            return false;
        };
        entry.vacant = None;
        entry.shut = true;
        entry.counted = false;
        self.open = self.open.saturating_sub(1);
        entry.told.notify_all();
        true
    }

    // Enters a session for which this is the first to come.
    fn begin(&mut self, alloc: Global, number: u64, arrival: Arrival) -> Entered {
        let Ok(told) = Arc::new(alloc, Condvar::new()) else {
            return Entered::Memory(arrival);
        };
        let Ok(own) = Arc::try_clone(&told) else {
            return Entered::Memory(arrival);
        };
        let mut waiting = VecDeque::new(alloc);
        if let Err(AllocFailed { value }) = waiting.push_back(arrival) {
            return Entered::Memory(value);
        }
        let entry = Entry {
            waiting,
            inside: 0,
            vacant: None,
            shut: false,
            counted: true,
            barred: false,
            told,
        };
        if let Err(AllocFailed { value }) = self.entries.insert(number, entry) {
            return without(value.1);
        }
        self.open = self.open.saturating_add(1);
        self.joined = self.joined.saturating_add(1);
        Entered::First(own)
    }

    // Has the arrival wait for the session, if that is open and takes it, and gives what wakes its thread. Else, or where
    // there is no memory for it, gives the arrival back.
    fn wait_in(&mut self, number: u64, arrival: Arrival) -> Result<Arc<Condvar, Global>, Arrival> {
        if self.joined >= MOST_JOINED {
            return Err(arrival);
        }
        self.fill(number);
        let Some(entry) = self.entries.get_mut(&number) else {
            return Err(arrival);
        };
        if entry.barred || entry.is_full() {
            return Err(arrival);
        }
        let Ok(told) = Arc::try_clone(&entry.told) else {
            return Err(arrival);
        };
        if let Err(AllocFailed { value }) = entry.waiting.push_back(arrival) {
            return Err(value);
        }
        self.joined = self.joined.saturating_add(1);
        Ok(told)
    }

    // The session goes.
    fn remove(&mut self, number: u64) {
        if let Some(entry) = self.entries.remove(&number) {
            if entry.counted {
                self.open = self.open.saturating_sub(1);
            }
        }
    }

    // The session is to be opened again.
    fn reopen(&mut self, number: u64) {
        let Some(entry) = self.entries.get_mut(&number) else {
            return;
        };
        entry.shut = false;
        if !entry.counted {
            entry.counted = true;
            self.open = self.open.saturating_add(1);
        }
    }

    // Ends the oldest of those that owe their first line.
    fn end_oldest(&mut self) {
        if let Some((_, stream)) = self.silent.pop_first() {
            let _ended = stream.shutdown(Shutdown::Both);
        }
    }
}

impl Register {
    /// Nothing is open yet. So many sessions may be open at once, and one is let go of when nobody has been in it for so
    /// long; without a time none is.
    pub fn new(alloc: Global, most: u64, keep: Option<Duration>) -> Register {
        let sessions = Sessions {
            entries: BTreeMap::new(alloc),
            open: 0,
            vacant: BTreeMap::new(alloc),
            time: 0,
            silent: BTreeMap::new(alloc),
            came: 0,
            connections: 0,
            joined: 0,
            over: false,
            ending: false,
        };
        Register {
            most,
            keep,
            sessions: Mutex::new(sessions),
            left: Condvar::new(),
            ends: Condvar::new(),
        }
    }

    // Waits until one more connection may be open, and counts it. Where as many are, the oldest that owes its first line is ended.
    pub(crate) fn lets_in<R: Wait>(&self, rt: &R) {
        let mut sessions = self.sessions.lock(rt);
        if sessions.connections >= MOST_CONNECTIONS {
            sessions.end_oldest();
        }
        let mut sessions = self.left.wait_while(rt, sessions, |sessions| {
            sessions.connections >= MOST_CONNECTIONS
        });
        sessions.connections = sessions.connections.saturating_add(1);
    }

    // A connection came that owes its first line, which is ended where the server ends. Gives the number under which it is told of that line, if it could be
    // noted; else it isn't ended for others.
    pub(crate) fn came<R: Wait>(&self, rt: &R, stream: &TcpStream) -> Option<u64> {
        let other = stream.try_clone().ok()?;
        let mut sessions = self.sessions.lock(rt);
        if sessions.ending {
            let _ended = other.shutdown(Shutdown::Both);
            return None;
        }
        if sessions.silent.len() >= MOST_SILENT {
            sessions.end_oldest();
        }
        let number = sessions.came;
        sessions.came = number.saturating_add(1);
        sessions.silent.insert(number, other).ok()?;
        Some(number)
    }

    // The first line of the connection came, or it ended.
    pub(crate) fn spoke<R: Wait>(&self, rt: &R, number: u64) {
        let mut sessions = self.sessions.lock(rt);
        let _stream = sessions.silent.remove(&number);
    }

    // A connection has ended.
    pub(crate) fn ended<R: Wait>(&self, rt: &R) {
        let mut sessions = self.sessions.lock(rt);
        sessions.connections = sessions.connections.saturating_sub(1);
        drop(sessions);
        self.left.notify_one();
    }

    // A connection that was let in, or waited for that, has ended.
    pub(crate) fn parted<R: Wait>(&self, rt: &R) {
        let mut sessions = self.sessions.lock(rt);
        sessions.joined = sessions.joined.saturating_sub(1);
        drop(sessions);
        self.ended(rt);
    }

    // No more connections come: sessions in which nobody is are let go of at once.
    pub(crate) fn close<R: Wait>(&self, rt: &R) {
        let mut sessions = self.sessions.lock(rt);
        sessions.over = true;
        for entry in sessions.entries.values() {
            entry.told.notify_all();
        }
    }

    // The server ends: nobody is let in any more, and those that owe their first line are ended. The thread of each session
    // ends the others.
    pub(crate) fn end<R: Wait>(&self, rt: &R) {
        let mut sessions = self.sessions.lock(rt);
        sessions.ending = true;
        for _ in 0..sessions.silent.len() {
            sessions.end_oldest();
        }
        drop(sessions);
        self.ends.notify_all();
        self.close(rt);
    }

    // Waits until the server ends.
    pub(crate) fn await_end<R: Wait>(&self, rt: &R) {
        let sessions = self.sessions.lock(rt);
        let sessions = self
            .ends
            .wait_while(rt, sessions, |sessions| !sessions.ending);
        drop(sessions);
    }

    // Has the arrival wait for the session, if that is open and takes it; else gives it back.
    pub(crate) fn enter_open<R: Wait>(
        &self,
        rt: &R,
        number: u64,
        arrival: Arrival,
    ) -> Option<Arrival> {
        let mut sessions = self.sessions.lock(rt);
        match sessions.wait_in(number, arrival) {
            Ok(told) => {
                drop(sessions);
                told.notify_all();
                None
            }
            Err(arrival) => Some(arrival),
        }
    }

    // Enters the session for the arrival. Not inlined, since the thread goes on as that of the session.
    #[inline(never)]
    pub(crate) fn enter<R: Wait>(
        &self,
        rt: &R,
        alloc: Global,
        number: u64,
        arrival: Arrival,
    ) -> Entered {
        let mut guard = self.sessions.lock(rt);
        let sessions = &mut *guard;
        if sessions.ending {
            return Entered::Over(arrival);
        }
        let arrival = match sessions.wait_in(number, arrival) {
            Ok(told) => {
                // after the lock, which the thread that is woken needs
                drop(guard);
                told.notify_all();
                return Entered::Waits;
            }
            Err(arrival) => arrival,
        };
        if sessions.joined >= MOST_JOINED {
            return Entered::Full(arrival);
        }
        match sessions.entries.get(&number) {
            Some(entry) if entry.barred => Entered::Barred(arrival),
            Some(entry) if entry.is_full() => Entered::Full(arrival),
            Some(_) => Entered::Memory(arrival),
            None => {
                if !sessions.has_room(self.most) {
                    return Entered::Full(arrival);
                }
                sessions.begin(alloc, number, arrival)
            }
        }
    }

    // Those that wait by now, which are not let in.
    pub(crate) fn turn_away<R: Wait>(
        &self,
        rt: &R,
        alloc: Global,
        number: u64,
    ) -> VecDeque<Arrival> {
        let mut none = VecDeque::new(alloc);
        let mut sessions = self.sessions.lock(rt);
        if let Some(entry) = sessions.entries.get_mut(&number) {
            mem::swap(&mut none, &mut entry.waiting);
        }
        none
    }

    // A connection couldn't be accepted, or had no thread: the oldest that owes its first line makes room.
    pub(crate) fn make_way<R: Wait>(&self, rt: &R) {
        let mut sessions = self.sessions.lock(rt);
        sessions.end_oldest();
    }

    // The session was let go of, and its file is closed: it goes, unless somebody waits for it again.
    pub(crate) fn leave<R: Wait>(&self, rt: &R, number: u64) -> Left {
        let mut guard = self.sessions.lock(rt);
        let sessions = &mut *guard;
        sessions.fill(number);
        let Some(entry) = sessions.entries.get(&number) else {
            return Left::Gone;
        };
        if entry.waiting.is_empty() || sessions.ending {
            sessions.remove(number);
            return Left::Gone;
        }
        if !entry.counted && !sessions.has_room(self.most) {
            return Left::Full;
        }
        sessions.reopen(number);
        Left::Wanted
    }

    // Lets nobody in to the session any more.
    pub(crate) fn bar<R: Wait>(&self, rt: &R, number: u64) {
        let mut guard = self.sessions.lock(rt);
        let sessions = &mut *guard;
        if let Some(entry) = sessions.entries.get_mut(&number) {
            entry.barred = true;
            if entry.counted {
                entry.counted = false;
                sessions.open = sessions.open.saturating_sub(1);
            }
        }
    }
}

/// The connections that come to one session.
#[derive(Drop)]
pub struct Queue<'r> {
    register: &'r Register,
    number: u64,
    told: Arc<Condvar, Global>,
    ghost numbered: { number ≤ 2 ^ 63 },
}

// What the thread of a session does next.
#[derive(Drop)]
enum Next {
    LetIn(Arrival),
    Go,
    // until one comes, or the last one leaves
    Wait,
    // the same, for a while
    WaitEmpty,
}

impl<'r> Queue<'r> {
    // The queue of that session, whose thread is woken by `told`.
    pub(crate) fn new(register: &'r Register, number: u64, told: Arc<Condvar, Global>) -> Queue<'r>
        requires { number ≤ 2 ^ 63 }
    {
        Queue {
            register,
            number,
            told,
        }
    }

    /// The number of the session.
    pub fn number(&self) -> u64
        ensures { result ≤ 2 ^ 63 }
    {
        self.number
    }

    // What is next, by what is there now.
    fn look(&self, sessions: &mut Sessions) -> Next {
        let over = sessions.over;
        let ending = sessions.ending;
        let Some(entry) = sessions.entries.get_mut(&self.number) else {
            return Next::Go;
        };
        if entry.shut || ending {
            return Next::Go;
        }
        if let Some(arrival) = entry.waiting.pop_front() {
            entry.inside = entry.inside.saturating_add(1);
            sessions.fill(self.number);
            return Next::LetIn(arrival);
        }
        if entry.inside > 0 {
            return Next::Wait;
        }
        if over {
            return Next::Go;
        }
        match self.register.keep {
            None => Next::Wait,
            Some(_) => {
                sessions.empty(self.number);
                Next::WaitEmpty
            }
        }
    }
}

impl Door for Queue<'_> {
    fn places(&self) -> usize {
        PLACES
    }

    fn yields(&self) -> bool {
        true
    }

    fn next<R: Wait + Clock>(&self, rt: &R, _alloc: Global) -> Coming {
        let mut sessions = self.register.sessions.lock(rt);
        let mut waited = false;
        for _ in rt.forever() {
            match self.look(&mut *sessions) {
                Next::LetIn(arrival) => return Coming::Came(arrival),
                Next::Go => return Coming::Over,
                Next::WaitEmpty if waited => return Coming::Over,
                Next::Wait => sessions = self.told.wait(rt, sessions),
                Next::WaitEmpty => {
                    let keep = self.register.keep.unwrap_or(Duration::ZERO);
                    let (guard, result) = self.told.wait_timeout(rt, sessions, keep);
                    sessions = guard;
                    waited = result.timed_out();
                }
            }
        }
        unreachable!()
    }

    fn left<R: Wait>(&self, rt: &R) {
        let mut sessions = self.register.sessions.lock(rt);
        if let Some(entry) = sessions.entries.get_mut(&self.number) {
            entry.inside = entry.inside.saturating_sub(1);
        }
        drop(sessions);
        self.told.notify_all();
        self.register.parted(rt);
    }

    fn shut<R: Wait>(&self, rt: &R) {
        let mut sessions = self.register.sessions.lock(rt);
        if let Some(entry) = sessions.entries.get_mut(&self.number) {
            entry.shut = true;
        }
        drop(sessions);
        self.told.notify_all();
    }
}
