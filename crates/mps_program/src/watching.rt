//! How a server is watched: what befalls it is told, its counts are told by HTTP, and it ends with its standard input.
ghost use Rattle.std.specs.Prelude.{◌≡◌, IfErr, IfOk};
ghost use Rattle.mps_program.specs.Served.{IsBindFault};

use crate::counting::answer_all;
use crate::entrance::{Entrance, listen};
use crate::faults::{ToolFault, fault_line, reason_of};
use mps_file::FileKeeper;
use mps_hub::{RestoredRoom, Street, Waker, Watcher};
use mps_watch::Watch;
use mps_words::Watched;
use std::alloc::{AllocError, Global};
use std::fs::File;
use std::io::{ErrorKind, Read};
use std::net::{Net, TcpListener, TcpStream};
use std::rt::Files;
use std::sync::Arc;
use std::thread::Threads;
use std::time::{Clock, Instant};
use std::{io, thread};

// The standard input, by a name of its own, so that a thread may have it.
const INPUT: &str = "/dev/stdin";

// How many nanoseconds a second has.
const SECOND: u64 = 1_000_000_000;

/// Who watches a server, and whether it ends with its input.
#[derive(Drop)]
pub struct Watching {
    pub watch: Arc<Watch, Global>,
    pub drain: bool,
}

/// Who watches the connections.
pub(crate) fn watcher_of(watching: Option<&Watching>) -> Result<Watcher, AllocError> {
    match watching {
        Some(watching) => Watcher::of(&watching.watch),
        None => Ok(Watcher::nobody()),
    }
}

/// The same once more.
pub(crate) fn shared(watching: Option<&Watching>) -> Result<Option<Watching>, AllocError> {
    match watching {
        Some(Watching { watch, drain }) => Ok(Some(Watching {
            watch: Arc::try_clone(watch)?,
            drain: *drain,
        })),
        None => Ok(None),
    }
}

// Tells the counts at that port from here on.
fn count_at<R: Threads + Clock>(
    rt: &R,
    alloc: Global,
    watch: &Arc<Watch, Global>,
    listener: TcpListener,
) -> io::Result<()> {
    let began = rt.since_1970()?.as_secs();
    let watch = Arc::try_clone(watch)?;
    match thread::spawn(rt, move || answer_all(alloc, listener, watch, began)) {
        Ok(_) => Ok(()),
        Err(_) => Err(io::Error::from(ErrorKind::WouldBlock)),
    }
}

/// Who watches a server as the words say; nobody where they say nothing. It opens nothing.
pub(crate) fn watch_of(alloc: Global, watched: Watched) -> Result<Option<Watching>, AllocError> {
    let Watched {
        log,
        metrics,
        drain,
    } = watched;
    if log.is_none() && metrics.is_none() && !drain {
        return Ok(None);
    }
    let watch = Arc::new(alloc, Watch::new(alloc, log)?)?;
    Ok(Some(Watching { watch, drain }))
}

// Counts are told from here on at that port, if there is one.
fn count<'a, R: Net<Listener = TcpListener, Stream = TcpStream> + Threads + Clock>(
    rt: &R,
    alloc: Global,
    watching: Option<&Watching>,
    metrics: Option<u16>,
) -> Result<(), ToolFault<'a>>
    ensures { IfErr result IsBindFault }
{
    let (Some(watching), Some(port)) = (watching, metrics) else {
        return Ok(());
    };
    let (listener, _) = listen(rt, port)?;
    match count_at(rt, alloc, &watching.watch, listener) {
        Ok(()) => Ok(()),
        Err(why) => Err(ToolFault::Bind { why: Some(why) }),
    }
}

/// Where the connections of a server come from: that port, or what it was given as that descriptor, which is looked at before anything
/// else is opened. Then counts are told, as the words say.
pub(crate) fn enter<'a, R: Net<Listener = TcpListener, Stream = TcpStream> + Threads + Clock>(
    rt: &R,
    alloc: Global,
    port: u16,
    descriptor: Option<u64>,
    watching: Option<&Watching>,
    metrics: Option<u16>,
) -> Result<Entrance, ToolFault<'a>>
    ensures port { IfOk result (λ entrance. entrance.port ≡ port) }
    ensures fault { IfErr result IsBindFault }
{
    let entrance = Entrance::of(port, descriptor)?;
    count(rt, alloc, watching, metrics)?;
    Ok(entrance)
}

// Waits until the input ends, and has the server end then.
fn await_end(mut input: File, watch: Arc<Watch, Global>, waker: Waker) {
    let mut block = [0u8; 512];
    for _ in 0..u64::MAX {
        match input.read(&mut block) {
            Ok(0) => break,
            Ok(_) => {}
            Err(error) if error.kind() == ErrorKind::Interrupted => {}
            Err(_) => break,
        }
    }
    watch.end();
    waker.wake();
}

// Has the server end once its standard input has, which lets in those who come there.
fn end_with_input<R: Files<File = File> + Threads>(
    rt: &R,
    street: &Street,
    watch: &Arc<Watch, Global>,
) -> io::Result<()> {
    let waker = street.waker()?;
    let input = File::open(rt, INPUT)?;
    let watch = Arc::try_clone(watch)?;
    match thread::spawn(rt, move || await_end(input, watch, waker)) {
        Ok(_) => Ok(()),
        Err(_) => Err(io::Error::from(ErrorKind::WouldBlock)),
    }
}

/// Joins are taken from here on, at that port, of those who come there.
pub(crate) fn open_door<'a, R: Files<File = File> + Threads + Eprint>(
    rt: &R,
    watching: Option<&Watching>,
    street: &Street,
    port: u16,
) -> Result<(), ToolFault<'a>>
    ensures { IfErr result IsBindFault }
{
    let Some(watching) = watching else {
        return Ok(());
    };
    if watching.drain
        && let Err(why) = end_with_input(rt, street, &watching.watch)
    {
        return Err(ToolFault::Bind { why: Some(why) });
    }
    watching.watch.listening(rt, port);
    Ok(())
}

/// Tells who watches of a fault.
pub(crate) fn tell_watched<R: AllocGlobal + Eprint>(
    rt: &R,
    watching: Option<&Watching>,
    fault: &ToolFault<'_>,
) {
    if let Some(watching) = watching
        && let Ok(line) = fault_line(rt.alloc(), fault)
    {
        // that lines were lost has none, since it was told when they were
        if !line.is_empty() {
            watching.watch.fault(rt, line.as_slice(), reason_of(fault));
        }
    }
}

/// What came of a server that is over. Who watches is told of its fault, if it has one, and of its end.
pub(crate) fn noticed<'a, R: AllocGlobal + Eprint>(
    rt: &R,
    watching: Option<&Watching>,
    done: Result<(), ToolFault<'a>>,
) -> Result<(), ToolFault<'a>>
    ensures { result ≡ done.entry }
{
    if let Err(fault) = &done {
        tell_watched(rt, watching, fault);
    }
    if let Some(watching) = watching {
        watching.watch.over(rt);
    }
    done
}

// For how many nanoseconds that has been so.
fn nanoseconds_since<R: Clock>(rt: &R, began: Instant) -> u64 {
    match Instant::now(rt) {
        Ok(now) => {
            let time = now.saturating_duration_since(began);
            let seconds = time.as_secs().saturating_mul(SECOND);
            seconds.saturating_add(time.subsec_nanos() as u64)
        }
        Err(_) => 0,
    }
}

/// Counts that those of these rooms were restored since that moment that have entries.
pub(crate) fn count_restored<R: Clock>(
    rt: &R,
    watching: Option<&Watching>,
    began: io::Result<Instant>,
    rooms: &[RestoredRoom],
) {
    let restored = rooms.iter().filter(|room| room.room.entries() > 0).count();
    if let (Some(watching), Ok(began)) = (watching, began)
        && restored > 0
    {
        let counts = &watching.watch.counts;
        counts.restores.add(restored as u64);
        counts.restoring.add(nanoseconds_since(rt, began));
    }
}

/// Tells who watches of the sessions that are served, of which the first has that number, and these rooms and keepers; with
/// no keepers all are.
pub(crate) fn tell_opened<R: Eprint>(
    rt: &R,
    watching: Option<&Watching>,
    first: u64,
    rooms: &[RestoredRoom],
    keepers: &[Option<FileKeeper>],
) {
    let Some(watching) = watching else {
        return;
    };
    let mut session = first;
    for (place, room) in rooms.iter().enumerate() {
        let served = match keepers.get(place) {
            Some(keeper) => keeper.is_some(),
            None => true,
        };
        if served {
            watching.watch.opened(rt, session, room.room.entries());
        } else {
            watching.watch.counts.refused.add(1);
        }
        session = session.saturating_add(1);
    }
}
