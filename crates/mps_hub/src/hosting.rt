//! Sessions that are opened when somebody joins, and let go of when nobody is in them.
ghost use Rattle.std.specs.Prelude.{◌≡◌, ◌≢◌, ◌≤◌, ◌^◌, false, IfOk, IfErr, length};
ghost use Rattle.std.specs.Option.{is_some};
ghost use Rattle.mps_hub.specs.Private.Hosting.{IsHosted};
ghost use Rattle.mps_line.specs.Codes.{code_of};

use crate::attending::{Serving, refuse};
use crate::door::{Arrival, Street};
use crate::first::asked_for;
use crate::limits::Limits;
use crate::lookout::Lookout;
use crate::overhearing::{HeardWriter, Watcher, ears};
use crate::patience::{TimedReader, bytes_there, first_bytes, linger, linger_until, moment_after};
use crate::register::{Entered, Left, Queue, Register};
use crate::server::{ServeFault, is_ending, serve_door, tell_unserved};
use crate::sessions::Hub;
use crate::shares::Shares;
use crate::waiting::Waits;
use mps_base::Roles;
use mps_command::{Answer, Refusal};
use mps_dev::{OverWrite, Sink};
use mps_keeper::{Disk, Keeper, RestoredRoom, Unguarded};
use mps_line::Reply;
use mps_watch::{Ear, Ended, Side};
use std::alloc::{AllocError, Global};
use std::marker::PhantomData;
use std::net::TcpStream;
use std::sync::atomic::{AtomicBool, Ordering};
use std::sync::{Arc, Wait};
use std::thread;
use std::thread::{Scope, Threads};
use std::time::{Clock, Duration};

// For how many milliseconds a server waits after a connection that couldn't be accepted.
const PAUSE: u64 = 100;

// For how many milliseconds what a client still sends is read that is refused by a session's own thread.
const BRIEF: u64 = 100;

/// The greatest number of a session.
pub const GREATEST: u64 = 1 << 63;

/// A session that was opened.
#[derive(Drop)]
pub struct OpenSession<S: Sink, D> {
    /// What its file led to: one room, which lies in a list since a thread's stack would keep the space of each move of it.
    pub rooms: Vec<RestoredRoom>,
    /// What records it: one keeper, or none where nothing is recorded.
    pub keepers: Vec<Option<Keeper<S, D>>>,
    /// Whether it may not be opened again as long as the server runs, once lines of it were lost.
    pub barred: Arc<AtomicBool, Global>,
}

/// Why a session wasn't opened.
#[derive(Drop)]
pub struct NotOpened {
    /// What those are answered who wait for it.
    pub reply: Reply,
    /// Whether it may not be opened again as long as the server runs.
    pub barred: bool,
}

/// What opens sessions.
pub trait Host<S: Sink, D> {
    /// The names of the roles of each session.
    fn roles(&self) -> &Roles;

    /// Opens the session of that number; or says why not.
    fn open(&self, session: u64) -> Result<OpenSession<S, D>, NotOpened>
        requires number { session ≤ 2 ^ 63 }
        ensures one { IfOk result (λ opened. length opened.rooms.items ≡ 1) }
        ensures few { IfOk result (λ opened. length opened.keepers.items ≤ 1) }
        ensures refusal { IfErr result (λ why. code_of why.reply ≢ 0) };

    /// The session is let go of: it has so many entries, and for so many of its connections no thread could be started. What
    /// records it still lives.
    fn leave(&self, session: u64, entries: u64, lost: u64);
}

// How the hosting of a session ended.
#[derive(Drop)]
enum Hosted {
    // it was let go of, and may be opened again
    Left,
    // it couldn't be opened: those who wait are told so
    Shut(Reply),
    // it may not be opened again
    Barred,
}

/// What the connections of a host share.
#[derive(Drop)]
pub struct Hosting<'f, R, S: Sink, D, H> {
    pub rt: &'f R,
    pub alloc: Global,
    /// The sessions that are open.
    pub register: &'f Register,
    /// What opens them.
    pub host: &'f H,
    pub limits: Limits,
    /// By what answers wait, where they may.
    pub lookout: Option<Arc<Lookout, Global>>,
    /// Who watches the connections.
    pub watcher: Watcher,
    /// Of what records a session.
    pub of: PhantomData<Keeper<S, D>>,
}

impl<
    'f,
    R: Threads + Wait + Clock + Eprint + Sync + 'static,
    S: Sink + Send + Drop + 'static,
    D: Disk + Sync + Drop + 'static,
    H: Host<S, D> + Sync,
> Hosting<'f, R, S, D, H> {
    // The first line of the connection, and what came with it; or why none came. One that is too long needs no LF.
    fn line_of(&self, stream: &TcpStream) -> Result<Vec<u8>, Ended> {
        let (first, idle) = (self.limits.first_line(), self.limits.idle);
        let Some(mut timed) = TimedReader::new(self.rt, stream, first, idle) else {
            return Err(Ended::Fault);
        };
        match first_bytes(self.alloc, &mut timed) {
            Some(line) => Ok(line),
            None if is_ending(self.watcher.watch()) => Err(Ended::Ending),
            None if timed.is_silent() => Err(Ended::Silent),
            None => Err(Ended::Closed),
        }
    }

    // The same, while the connection is among those that owe it. Not inlined, since the thread goes on as that of a session.
    #[inline(never)]
    fn owed_line(&self, stream: &TcpStream) -> Result<Vec<u8>, Ended> {
        let number = self.register.came(self.rt, stream);
        if let Some(watch) = self.watcher.watch() {
            watch.counts.here.add(1);
        }
        let line = self.line_of(stream);
        if let Some(watch) = self.watcher.watch() {
            watch.counts.gone.add(1);
        }
        if let Some(number) = number {
            self.register.spoke(self.rt, number);
        }
        line
    }

    // The next connection; none where none can be accepted, or the server ends.
    fn accept(&self, street: &Street) -> Option<TcpStream> {
        let watch = self.watcher.watch();
        if is_ending(watch) {
            return None;
        }
        match street.accept() {
            Ok(stream) => stream,
            Err(_) => {
                tell_unserved(self.rt, watch);
                None
            }
        }
    }

    // The session that the first line of these bytes asks for, if there may be one, with a role of that name; or why not.
    fn session_of(&self, bytes: &[u8]) -> Result<u64, Reply>
        ensures number { IfOk result (λ session. session ≤ 2 ^ 63) }
        ensures refusal { IfErr result (λ reply. code_of reply ≢ 0) }
    {
        let Some(end) = bytes.iter().position(|byte| *byte == b'\n') else {
            return Err(Reply::BadLine);
        };
        let Some((session, name)) = asked_for(&bytes[..end]) else {
            return Err(Reply::BadLine);
        };
        if session == 0 || session > GREATEST {
            return Err(Reply::NoSession);
        }
        match self.host.roles().find(&name) {
            Some(_) => Ok(session),
            None => Err(Reply::NoRole),
        }
    }

    // Tells the client why it isn't let in.
    fn refuse(&self, arrival: &Arrival, reply: &Reply)
        requires { code_of reply.now ≢ 0 }
    {
        let _told = arrival.stream.set_nodelay(true);
        let watch = self.watcher.watch();
        let (_lines, answers) = ears(self.rt, watch, arrival.ahead.as_slice());
        let mut writer = OverWrite::new(HeardWriter::new(&arrival.stream, answers));
        let _refused = refuse(self.alloc, &mut writer, reply);
        let (ear, _untaken) = writer.into_inner().into_ear();
        if let Some(ear) = ear {
            ear.end(Ended::Closed);
        }
    }

    // A connection that came, with its first line, if that is there already.
    fn arrival(&self, stream: TcpStream) -> Arrival {
        let ahead = match bytes_there(self.alloc, &stream) {
            Some(bytes) => bytes,
            None => Vec::new(self.alloc),
        };
        Arrival { stream, ahead }
    }

    // Has a connection let in whose first line is there already, and asks for an open session. Else gives it back.
    fn let_in_at_once(&self, arrival: Arrival) -> Option<Arrival> {
        match self.session_of(arrival.ahead.as_slice()) {
            Ok(session) => self.register.enter_open(self.rt, session, arrival),
            Err(_) => Some(arrival),
        }
    }

    // Attends to a connection that came, up to where it is let in to its session.
    fn receive(&self, arrival: Arrival) {
        let Arrival { stream, ahead } = arrival;
        let line = if ahead.is_empty() {
            self.owed_line(&stream)
        } else {
            Ok(ahead)
        };
        match line {
            Ok(ahead) => match self.session_of(ahead.as_slice()) {
                Ok(session) => self.enter(session, Arrival { stream, ahead }),
                Err(reply) => self.turn_back(Arrival { stream, ahead }, &reply),
            },
            Err(why) => {
                if let Some(watch) = self.watcher.watch() {
                    Ear::new(self.rt, watch, watch.came(), Side::Answers).end(why);
                }
                drop(stream);
                self.register.ended(self.rt);
            }
        }
    }

    // Refuses a connection that wasn't let in.
    fn turn_back(&self, arrival: Arrival, reply: &Reply)
        requires { code_of reply.now ≢ 0 }
    {
        self.refuse(&arrival, reply);
        linger(self.rt, &arrival.stream, Duration::from_secs(1));
        drop(arrival);
        self.register.ended(self.rt);
    }

    // Has the arrival let in to the session, which is opened if it isn't.
    fn enter(&self, session: u64, arrival: Arrival)
        requires { session ≤ 2 ^ 63 }
    {
        match self.register.enter(self.rt, self.alloc, session, arrival) {
            Entered::Waits => {}
            Entered::First(told) => self.keep(&Queue::new(self.register, session, told)),
            Entered::Full(arrival) => self.turn_back(arrival, &Reply::Busy),
            Entered::Barred(arrival) => self.turn_back(arrival, &Reply::Unkept),
            Entered::Over(arrival) => {
                drop(arrival);
                self.register.ended(self.rt);
            }
            Entered::Memory(arrival) => {
                tell_unserved(self.rt, self.watcher.watch());
                drop(arrival);
                self.register.ended(self.rt);
            }
        }
    }

    // Serves the session to those who come, until the queue is over. Says for how many of them no thread could be started.
    fn serve(
        &self,
        queue: &Queue<'_>,
        hub: &mut Hub,
        keepers: &[Option<Keeper<S, D>>],
    ) -> Result<u64, ServeFault>
        requires given { hub.old.given ≡ false }
        requires recorded { length keepers.now ≤ length hub.old.cells }
        ensures same { hub.new.cells ≡ hub.old.cells }
    {
        let desk = match hub.deal() {
            Some(deal) => match hub.desk_of(self.alloc, deal) {
                Ok(desk) => desk,
                Err(_) => return Err(ServeFault::Memory),
            },
            None => unreachable!(),
        };
        let serving = Serving {
            rt: self.rt,
            alloc: self.alloc,
            desk: &desk,
            gate: &Unguarded,
            keepers,
        };
        let served = serve_door(&serving, queue, self.limits, &self.watcher)?;
        Ok(served.lost)
    }

    // The session is let go of. Where it has no room, a call never gave it back.
    fn leave(&self, session: u64, hub: Hub, lost: u64) -> Result<(), AllocError> {
        let mut rooms = hub.close(self.alloc)?;
        if let Some(Some(room)) = rooms.pop() {
            self.host.leave(session, room.entries(), lost);
        }
        Ok(())
    }

    // Serves the session that was opened until the queue is over. When this returns nothing of it is held any more. Not
    // inlined, so that the thread's stack needn't keep space for this while the session is opened.
    #[tactic(auto, using(crate::proofs::Cells::one_named))]
    #[inline(never)]
    fn serve_opened(
        &self,
        queue: &Queue<'_>,
        opened: OpenSession<S, D>,
    ) -> Result<Hosted, AllocError>
        requires one { length opened.rooms.items ≡ 1 }
        requires few { length opened.keepers.items ≤ 1 }
        ensures hosted { IfOk result IsHosted }
    {
        let OpenSession {
            rooms,
            keepers,
            barred,
        } = opened;
        let names = match rooms.first() {
            Some(room) => room.room.names().copy(self.alloc)?,
            None => unreachable!(),
        };
        let shares = Shares::of(self.alloc, self.limits.share, rooms.as_slice())?;
        let hub = Hub::of_restored(self.alloc, &names, queue.number(), rooms)?.sharing(shares);
        let (waits, first) = self.take_bells()?;
        let served = self.serve_hub(queue, hub.waiting(waits), keepers.as_slice());
        self.give_bells(first);
        match served {
            // what records it is kept, so that no other process opens its file
            Err(ServeFault::NoneLeft) if barred.load(Ordering::SeqCst) => {
                self.keep_out(queue.number());
                Ok(Hosted::Barred)
            }
            Ok(()) | Err(ServeFault::NoneLeft) => Ok(Hosted::Left),
            Err(_) => Err(AllocError),
        }
    }

    // By what the answers of one session more wait, where they may, and the first of its bells.
    fn take_bells(&self) -> Result<(Option<Waits>, Option<usize>), AllocError>
        ensures { IfOk result (λ r. is_some r.0 ≡ is_some self.now.lookout) }
    {
        let Some(lookout) = &self.lookout else {
            return Ok((None, None));
        };
        let shared = Arc::try_clone(lookout)?;
        let first = lookout.take(self.rt);
        Ok((Some(Waits::new(shared, first)), Some(first)))
    }

    // The session has these bells no longer.
    fn give_bells(&self, first: Option<usize>) {
        if let (Some(lookout), Some(first)) = (&self.lookout, first) {
            lookout.give(self.rt, first);
        }
    }

    // Serves the session of this hub until the queue is over, and then lets go of it.
    fn serve_hub(
        &self,
        queue: &Queue<'_>,
        mut hub: Hub,
        keepers: &[Option<Keeper<S, D>>],
    ) -> Result<(), ServeFault>
        requires given { hub.given ≡ false }
        requires recorded { length keepers.now ≤ length hub.cells }
        requires waits { hub.waits ≡ is_some self.now.lookout }
    {
        let lost = self.serve(queue, &mut hub, keepers)?;
        match self.leave(queue.number(), hub, lost) {
            Ok(()) => Ok(()),
            Err(AllocError) => Err(ServeFault::Memory),
        }
    }

    // Opens the session of the queue, and serves it until the queue is over.
    fn host_session(&self, queue: &Queue<'_>) -> Hosted
        ensures { IsHosted result }
    {
        match self.host.open(queue.number()) {
            Ok(opened) => {
                let hosted = self.serve_opened(queue, opened);
                if let Some(watch) = self.watcher.watch() {
                    watch.counts.left.add(1);
                }
                match hosted {
                    Ok(hosted) => hosted,
                    Err(AllocError) => {
                        Hosted::Shut(Reply::Answer(Answer::Refused(Refusal::Memory)))
                    }
                }
            }
            Err(NotOpened { barred: true, .. }) => Hosted::Barred,
            Err(NotOpened { reply, .. }) => Hosted::Shut(reply),
        }
    }

    // Lets nobody in to the session any more, and stays until the server ends.
    fn keep_out(&self, session: u64) {
        self.register.bar(self.rt, session);
        self.turn_away(session, &Reply::Unkept);
        self.register.await_end(self.rt);
    }

    // Opens the session as long as somebody wants it.
    fn keep(&self, queue: &Queue<'_>) {
        for _ in self.rt.forever() {
            match self.host_session(queue) {
                Hosted::Left => {}
                Hosted::Shut(reply) => self.turn_away(queue.number(), &reply),
                Hosted::Barred => {
                    self.register.bar(self.rt, queue.number());
                    return self.turn_away(queue.number(), &Reply::Unkept);
                }
            }
            if !self.is_wanted(queue.number()) {
                return;
            }
        }
    }

    // Whether the session, which was let go of, is to be opened again. Those who wait for it while as many are open as may be
    // are refused.
    fn is_wanted(&self, session: u64) -> bool {
        for _ in self.rt.forever() {
            match self.register.leave(self.rt, session) {
                Left::Gone => return false,
                Left::Wanted => return !is_ending(self.watcher.watch()),
                Left::Full => self.turn_away(session, &Reply::Busy),
            }
        }
        unreachable!()
    }

    // Refuses those who wait for the session by now: each is told, and then what all of them still send is read for a while.
    fn turn_away(&self, session: u64, reply: &Reply)
        requires { code_of reply.now ≢ 0 }
    {
        let arrivals = self.register.turn_away(self.rt, self.alloc, session);
        for arrival in &arrivals {
            self.refuse(arrival, reply);
        }
        let until = moment_after(self.rt, Duration::from_millis(BRIEF));
        for arrival in arrivals {
            if let Some(until) = until {
                linger_until(self.rt, &arrival.stream, until);
            }
            drop(arrival);
            self.register.parted(self.rt);
        }
    }
}

// Accepts connections, a thread of the scope for each. Those who wait at the door when it is over aren't let in.
fn accept_all<
    's,
    E,
    R: Threads + Wait + Clock + Eprint + Sync + 'static,
    S: Sink + Send + Drop + 'static,
    D: Disk + Sync + Drop + 'static,
    H: Host<S, D> + Sync,
>(scope: &Scope<'s, E>, hosting: &'s Hosting<'s, R, S, D, H>, street: &Street) {
    let rt = hosting.rt;
    let register = hosting.register;
    for _ in 0..hosting.limits.connections.unwrap_or(u64::MAX) {
        register.lets_in(rt);
        let came = hosting.accept(street);
        if let Some(watch) = hosting.watcher.watch()
            && watch.is_ending()
        {
            watch.ending(rt);
            return register.end(rt);
        }
        match came {
            Some(stream) => {
                let Some(arrival) = hosting.let_in_at_once(hosting.arrival(stream)) else {
                    continue;
                };
                if scope.spawn(move || hosting.receive(arrival)).is_err() {
                    tell_unserved(rt, hosting.watcher.watch());
                    register.ended(rt);
                    register.make_way(rt);
                }
            }
            None => {
                register.ended(rt);
                register.make_way(rt);
                thread::sleep(rt, Duration::from_millis(PAUSE));
            }
        }
    }
    register.close(rt);
}

/// Accepts connections, and has the host open the session of each, unless it is open. It returns when as many have ended as
/// are accepted, and all sessions are let go of; not where one may not be opened again since lines of it were lost. Where who
/// watches the server tells it to end, no more are accepted, and each ends once the line that it runs is answered; those that
/// haven't ended within a second are cut. Then it returns, once what is being opened or stored is done.
pub fn host_all<
    R: Threads + Wait + Clock + Eprint + Sync + 'static,
    S: Sink + Send + Drop + 'static,
    D: Disk + Sync + Drop + 'static,
    H: Host<S, D> + Sync,
>(hosting: &Hosting<'_, R, S, D, H>, street: &Street) {
    thread::scope(thread::scope_env(), hosting.rt, move |scope| {
        accept_all(scope, hosting, street)
    });
}
