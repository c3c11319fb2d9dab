//! A server's connections, a thread for each.
ghost use Rattle.std.specs.Prelude.{◌≡◌, ◌+◌, ◌<◌, ◌≤◌, ◌^◌, ◌↔◌, false, IfOk, IfErr, IfSome, IsOk, IsTrue, OnOk, OnErr, length};
ghost use Rattle.mps_hub.specs.Serving.{IsServeFaultOf};

use crate::attending::{Attended, Serving, Usher};
use crate::desk::Desk;
use crate::door::{Arrival, Coming, Door, Street};
use crate::limits::Limits;
use crate::lobby::Lobby;
use crate::overhearing::{HeardWriter, Watcher, ears};
use crate::patience::{LedReader, TimedReader, linger};
use mps_dev::{OverRead, OverWrite, Sink};
use mps_keeper::{Disk, Gate, Keeper, Unguarded};
use mps_watch::{Ear, Ended, Watch};
use mps_wire::Ending;
use std::alloc::Global;
use std::net::{TcpListener, TcpStream};
use std::sync::{Arc, Wait};
use std::thread::{Scope, Threads};
use std::time::{Clock, Duration};
use std::{io, thread};
use thiserror::Error;

// For how many milliseconds a server that accepts connections without end waits after one that couldn't be accepted.
const PAUSE: u64 = 100;

// A connection whose thread couldn't be started.
#[derive(Drop)]
struct NotStarted;

// For how many seconds what a client still sends is read once its connection has ended.
const LINGER: u64 = 1;

/// How many connections there were: those that ended, and those whose thread couldn't be started, which were closed. Where
/// the server was told to end, those that didn't come are among the first.
#[derive(Clone, Copy, Debug, PartialEq, Eq)]
pub struct Served {
    pub ended: u64,
    pub lost: u64,
}

/// Why no more connections were accepted. Those that ran have ended.
#[derive(Clone, Copy, Debug, PartialEq, Eq, Error)]
pub enum ServeFault {
    #[error("no connection can be accepted")]
    Accept,
    #[error("out of memory")]
    Memory,
    /// Nothing is answered any more that isn't recorded.
    #[error("lines of session {session} were lost")]
    Unrecorded { session: u64 },
    /// Each session has no keeper, or its keeper lost lines.
    #[error("no session is left")]
    NoneLeft,
}

// Whether there is a keeper, and lines of it were lost.
fn is_lost<S: Sink, D>(keeper: &Option<Keeper<S, D>>) -> bool {
    match keeper {
        Some(keeper) => keeper.is_broken(),
        None => false,
    }
}

/// The place of the first keeper of which lines were lost.
pub fn first_lost<S: Sink, D>(keepers: &[Option<Keeper<S, D>>]) -> Option<usize>
    ensures { IfSome result (λ place. place < length keepers.now) }
{
    keepers.iter().position(|keeper| is_lost(keeper))
}

// Whether no more connections are served: lines were lost, and the server is strict, or no session is left that is recorded.
// Once it is so it stays so.
fn is_over<S: Sink, D>(strict: bool, keepers: &[Option<Keeper<S, D>>]) -> bool
    ensures recorded { IsTrue result → 0 < length keepers.now }
{
    if keepers.is_empty() {
        return false;
    }
    if strict {
        first_lost(keepers).is_some()
    } else {
        keepers
            .iter()
            .all(|keeper| keeper.is_none() || is_lost(keeper))
    }
}

// A connection's place in the lobby.
#[derive(Drop)]
struct LobbyPlace<'l, R> {
    rt: &'l R,
    lobby: &'l Lobby,
    place: usize,
}

impl<R: Wait> Usher for LobbyPlace<'_, R> {
    fn joined(&self, session: u64) {
        self.lobby.joined(self.rt, self.place, session);
    }
}

// Ends the connections of each session of which lines were lost; all, where that ends the server.
fn end_lost<R: Wait, G, S: Sink, D, B: Door>(
    serving: &Serving<'_, '_, R, G, S, D>,
    lobby: &Lobby,
    door: &B,
) {
    if is_over(lobby.limits().strict, serving.keepers) {
        lobby.close(serving.rt);
        door.shut(serving.rt);
    }
    let mut session = serving.desk.first();
    for keeper in serving.keepers {
        if is_lost(keeper) {
            lobby.end_session(serving.rt, session);
        }
        session = session.saturating_add(1);
    }
}

// Whether the server was told to end, by who watches it.
pub(crate) fn is_ending(watch: Option<&Watch>) -> bool {
    watch.is_some_and(|watch| watch.is_ending())
}

// Tells who watches the server that a connection couldn't be served, unless it ends.
pub(crate) fn tell_unserved<R: Eprint>(rt: &R, watch: Option<&Watch>) {
    if let Some(watch) = watch
        && !watch.is_ending()
    {
        watch.unserved(rt);
    }
}

// The same, unless none is to be served any more.
fn tell_not_let_in<R: Wait + Eprint, G, S: Sink, D>(
    serving: &Serving<'_, '_, R, G, S, D>,
    lobby: &Lobby,
) {
    if !is_over(lobby.limits().strict, serving.keepers) {
        tell_unserved(serving.rt, lobby.watch());
    }
}

// Whether lines were lost of that session.
fn has_lost<R: Wait, G, S: Sink, D>(serving: &Serving<'_, '_, R, G, S, D>, session: u64) -> bool {
    match session.checked_sub(serving.desk.first()) {
        Some(place) => match serving.keepers.get(place as usize) {
            Some(keeper) => is_lost(keeper),
            None => false,
        },
        None => false,
    }
}

// Why a connection ended, for whoever watches it, once it ended so: lines of its session were lost, or the time of its next
// line was over, or neither.
fn why_ended(watch: Option<&Watch>, attended: Attended, lost: bool, silent: bool) -> Ended {
    match attended {
        Attended::Unrecorded | Attended::Conversed(Ending::Untold) => Ended::Lost,
        _ if lost => Ended::Lost,
        _ if is_ending(watch) => Ended::Ending,
        _ if silent => Ended::Silent,
        Attended::Conversed(Ending::Closed | Ending::ReadFault | Ending::WriteFault)
        | Attended::NoLine
        | Attended::TurnedAway => Ended::Closed,
        Attended::Conversed(Ending::Turns | Ending::Memory) | Attended::Memory => Ended::Fault,
    }
}

// A connection that was attended to so has ended, for whoever watches it. It is silent where the time was over of its next line,
// or for its answers.
fn end_watched<R: Wait + Eprint, G, S: Sink, D>(
    serving: &Serving<'_, '_, R, G, S, D>,
    watch: Option<&Watch>,
    attended: Attended,
    silent: bool,
    ear: Option<Ear<'_, R>>,
) {
    let Some(ear) = ear else {
        return;
    };
    let lost = match ear.session() {
        Some(session) => has_lost(serving, session),
        None => false,
    };
    ear.end(why_ended(watch, attended, lost, silent));
}

// Attends to the connection at that place of the lobby, and closes it. Answers are sent at once (`TCP_NODELAY`), where the
// system can. Of a session of which lines were lost no connection goes on.
fn connection<
    's,
    R: Wait + Clock + Eprint + 'static,
    G: Gate + 'static,
    S: Sink + 'static,
    D: Disk + 'static,
    B: Door,
>(
    serving: &'s Serving<'s, '_, R, G, S, D>,
    lobby: &'s Lobby,
    door: &B,
    number: u64,
    place: usize,
    stream: Arc<TcpStream, Global>,
    ahead: Vec<u8>,
) {
    let rt = serving.rt;
    let limits = lobby.limits();
    // none is waited for where it was read already
    let first = limits.first_line().filter(|_| ahead.is_empty());
    if let Some(timed) = TimedReader::new(rt, &stream, first, limits.idle) {
        let _set = stream.set_nodelay(true);
        let watch = lobby.watch();
        let (lines, answers) = ears(rt, watch, ahead.as_slice());
        let timed = timed.watched(watch, lines, ahead.as_slice());
        let mut reader = OverRead::new(LedReader::new(ahead, timed));
        let mut writer = OverWrite::new(HeardWriter::new(&stream, answers));
        let usher = LobbyPlace { rt, lobby, place };
        let attended = serving.attend_with(
            number,
            &usher,
            Some(&*stream),
            &mut reader,
            &mut writer,
        );
        let (ear, untaken) = writer.into_inner().into_ear();
        let silent = untaken || reader.into_inner().into_rest().is_silent();
        end_watched(serving, watch, attended, silent, ear);
    }
    end_lost(serving, lobby, door);
    linger(rt, &stream, Duration::from_secs(LINGER));
    // the lobby has the other handle, and closes the socket before it lets the next connection in
    drop(stream);
    lobby.leave(rt, place);
    door.left(rt);
}

// How many connections are lost by now, where one more thread was to be started.
fn count_lost<T, E>(lost: u64, started: &Result<T, E>) -> u64
    requires { lost + 1 < 2 ^ 64 }
    ensures started { OnOk started.now (result ≡ lost) }
    ensures lost { OnErr started.now (result ≡ lost + 1) }
    ensures most { result ≤ lost + 1 }
{
    match started {
        Ok(_) => lost,
        Err(_) => lost + 1,
    }
}

// Starts a thread for a connection that came. Where none can be started the connection is closed.
fn let_in<
    's,
    'd,
    E,
    R: Wait + Clock + Eprint + Sync + 'static,
    G: Gate + Sync + 'static,
    S: Sink + Send + 'static,
    D: Disk + Sync + 'static,
    B: Door + Sync,
>(
    scope: &Scope<'s, E>,
    serving: &'s Serving<'s, 'd, R, G, S, D>,
    lobby: &'s Lobby,
    door: &'s B,
    number: u64,
    arrival: Arrival,
) -> Result<(), NotStarted> {
    let rt = serving.rt;
    let Arrival { stream, ahead } = arrival;
    let Some((place, stream)) = lobby.enter(rt, serving.alloc, stream) else {
        door.left(rt);
        return Err(NotStarted);
    };
    let started = scope.spawn(move || connection(
        serving, lobby, door, number, place, stream, ahead,
    ));
    if started.is_err() {
        drop(started);
        lobby.leave(rt, place);
        door.left(rt);
        return Err(NotStarted);
    }
    Ok(())
}

// Accepts connections, a thread of the scope for each, and counts those whose thread couldn't be started.
fn accept_all<
    's,
    'd,
    E,
    R: Wait + Clock + Eprint + Sync + 'static,
    G: Gate + Sync + 'static,
    S: Sink + Send + 'static,
    D: Disk + Sync + 'static,
    B: Door + Sync,
>(
    scope: &Scope<'s, E>,
    serving: &'s Serving<'s, 'd, R, G, S, D>,
    lobby: &'s Lobby,
    door: &'s B,
) -> Result<u64, ServeFault> {
    let limits = lobby.limits();
    let watch = lobby.watch();
    let mut lost = 0;
    for earlier in 0..limits.connections.unwrap_or(u64::MAX) {
        if is_ending(watch) || !lobby.lets_in(serving.rt) {
            return Ok(lost);
        }
        match door.next(serving.rt, serving.alloc) {
            // the listener was shut, or it was knocked at
            Coming::Failed(_) | Coming::Came(_) if is_ending(watch) => return Ok(lost),
            Coming::Came(arrival) => {
                let started = let_in(scope, serving, lobby, door, earlier + 1, arrival);
                if started.is_err() {
                    tell_not_let_in(serving, lobby);
                }
                lost = count_lost(lost, &started);
            }
            Coming::Failed(_) if limits.connections.is_none() => {
                tell_not_let_in(serving, lobby);
                thread::sleep(serving.rt, Duration::from_millis(PAUSE));
            }
            Coming::Failed(fault) => return Err(fault),
            Coming::Over => return Ok(lost),
        }
    }
    Ok(lost)
}

// The door of a caller's listener.
fn street_of(listener: &TcpListener) -> io::Result<Street> {
    Street::own(listener.try_clone()?)
}

/// Accepts connections, attends to each in a thread of its own, and returns when all have ended. A connection whose
/// thread can't be started is closed and counted as lost. After a fault no more are accepted.
///
/// Nothing is answered that isn't recorded. Where a keeper loses lines, the connections of its session are ended; where
/// the limits are strict, all are, and the session is the fault. All are, too, where no session is left.
pub fn serve_recorded<
    R: Threads + Wait + Clock + Eprint + Sync + 'static,
    G: Gate + Sync + 'static,
    S: Sink + Send + 'static,
    D: Disk + Sync + 'static,
>(
    serving: &Serving<'_, '_, R, G, S, D>,
    listener: &TcpListener,
    limits: Limits,
) -> Result<Served, ServeFault>
    requires keepers { length serving.now.keepers.now ≤ length serving.now.desk.now.cells }
    ensures served { IfOk result (λ s. IfSome limits.connections (λ n. s.ended + s.lost ≡ n)) }
    ensures unrecorded { IfErr result
        (IsServeFaultOf limits.strict serving.now.desk.now.first (length serving.now.keepers.now)) }
{
    let Ok(street) = street_of(listener) else {
        return Err(ServeFault::Accept);
    };
    serve_door(serving, &street, limits, &Watcher::nobody())
}

/// The same for connections that come through any door, and for who watches the server. Where they tell it to end, no more are let
/// in, each ends once the line that it runs is answered, and those that haven't ended within a second are cut. It also returns once
/// the door is over, where all that come are accepted.
pub fn serve_door<
    R: Threads + Wait + Clock + Eprint + Sync + 'static,
    G: Gate + Sync + 'static,
    S: Sink + Send + 'static,
    D: Disk + Sync + 'static,
    B: Door + Sync,
>(
    serving: &Serving<'_, '_, R, G, S, D>,
    door: &B,
    limits: Limits,
    watcher: &Watcher,
) -> Result<Served, ServeFault>
    requires keepers { length serving.now.keepers.now ≤ length serving.now.desk.now.cells }
    ensures served { IfOk result (λ s. IfSome limits.connections (λ n. s.ended + s.lost ≡ n)) }
    ensures unrecorded { IfErr result
        (IsServeFaultOf limits.strict serving.now.desk.now.first (length serving.now.keepers.now)) }
{
    let Ok(watcher) = watcher.shared() else {
        return Err(ServeFault::Memory);
    };
    let lobby = &Lobby::new(serving.alloc, door.places(), door.yields(), limits, watcher);
    let accepted = thread::scope(thread::scope_env(), serving.rt, move |scope| {
        let accepted = accept_all(scope, serving, lobby, door);
        if let Some(watch) = lobby.watch() {
            lobby.wait_for_end(serving.rt, watch);
        }
        accepted
    });
    if limits.strict {
        if let Some(place) = first_lost(serving.keepers) {
            return Err(ServeFault::Unrecorded {
                session: serving.desk.first() + place as u64,
            });
        }
    }
    if is_over(limits.strict, serving.keepers) {
        return Err(ServeFault::NoneLeft);
    }
    counted(limits, accepted)
}

// What so many lost connections come to. What the closure of the scope ensures isn't known here, since it borrows the
// desk. So the count is limited by `min`, and faults that tell of lost lines, which can't come, are told as one of
// accepting.
fn counted(limits: Limits, accepted: Result<u64, ServeFault>) -> Result<Served, ServeFault>
    ensures served { IfOk result (λ s. IfSome limits.connections (λ n. s.ended + s.lost ≡ n)) }
    ensures unrecorded { IfErr result (IsServeFaultOf false 0 0) }
{
    let all = limits.connections.unwrap_or(u64::MAX);
    match accepted {
        Ok(lost) => {
            let lost = lost.min(all);
            Ok(Served {
                ended: all - lost,
                lost,
            })
        }
        Err(ServeFault::Memory) => Err(ServeFault::Memory),
        Err(ServeFault::Accept) => Err(ServeFault::Accept),
        Err(ServeFault::Unrecorded { .. } | ServeFault::NoneLeft) => Err(ServeFault::Accept),
    }
}

/// Accepts `n` connections to sessions that aren't recorded, with a gate that runs before each command.
pub fn serve_with<R: Threads + Wait + Clock + Eprint + Sync + 'static, G: Gate + Sync + 'static>(
    rt: &R,
    alloc: Global,
    listener: &TcpListener,
    desk: &Desk<'_>,
    n: u64,
    gate: &G,
) -> Result<Served, ServeFault>
    ensures served { IfOk result (λ s. s.ended + s.lost ≡ n) }
    ensures unrecorded { IfErr result (IsServeFaultOf false desk.now.first 0) }
{
    let limits = Limits {
        connections: Some(n),
        idle: None,
        strict: false,
        share: None,
    };
    let serving = Serving::unrecorded(rt, alloc, desk, gate);
    serve_recorded(&serving, listener, limits)
}

/// Accepts `n` connections to sessions that aren't recorded.
pub fn serve<R: Threads + Wait + Clock + Eprint + Sync + 'static>(
    rt: &R,
    alloc: Global,
    listener: &TcpListener,
    desk: &Desk<'_>,
    n: u64,
) -> Result<Served, ServeFault>
    ensures served { IfOk result (λ s. s.ended + s.lost ≡ n) }
    ensures unrecorded { IfErr result (IsServeFaultOf false desk.now.first 0) }
{
    serve_with(rt, alloc, listener, desk, n, &Unguarded)
}
