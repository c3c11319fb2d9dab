//! Sessions served to connections.
ghost use Rattle.std.specs.Prelude.{◌≡◌, ◌+◌, ◌<◌, ◌≤◌, ◌^◌, ℕ, Some, false, length, map, slice_get, All, IfErr, IfOk, OnOk};
ghost use Rattle.std.specs.Option.{option_map};
ghost use Rattle.mps_file.specs.Rooms.{IsRestoredRoom};
ghost use Rattle.mps_local.specs.Local.{plain};
ghost use Rattle.mps_program.specs.Faults.{after_writes, without};
ghost use Rattle.mps_program.specs.Journals.{IsSessionsFault, recorded_of};
ghost use Rattle.mps_program.specs.Served.{AreLinesUpTo, AreSessionLines, HasServed, HasServedUpTo, IfLost};
ghost use Rattle.mps_program.specs.Served.{IsBindFault, IsListeningLine, IsOutFault, IsServeFault};
ghost use Rattle.mps_program.specs.Served.{IsSessionLine, IsTellFault, is_first_served, past_first, served_of};
ghost use Rattle.mps_program.specs.Private.Served.{IsHubFault, TellsPort, TookOne, of_serving};

use crate::entrance::{Entrance, Listening};
use crate::faults::{ToolFault, report, told, without_reason};
use crate::files::tell;
use crate::journals::{Sessions, record_sessions};
use crate::load::load_file;
use crate::own_files::OwnFiles;
use crate::rooms::rooms_of;
use crate::watching::{
    Watching, count_restored, enter, noticed, open_door, tell_opened, tell_watched, watch_of,
    watcher_of,
};
use mps_base::write_number;
use mps_dev::{OverWrite, Sink};
use mps_file::FileKeeper;
use mps_hub::{
    Hub, Limits, Lookout, ServeFault, Serving, Shares, Unguarded, Waits, first_lost, serve_door,
};
use mps_open::Opening;
use mps_room::Room;
use mps_words::{JournalFolder, ProtocolFile, Watched};
use std::alloc::{AllocError, Global};
use std::fs::File;
use std::io;
use std::net::{Net, TcpListener, TcpStream};
use std::rt::Files;
use std::sync::{Arc, Wait};
use std::thread::Threads;
use std::time::{Clock, Duration, Instant};

// The line that tells the port.
fn listening_line(alloc: Global, port: u16) -> Result<Vec<u8>, AllocError>
    ensures { IfOk result (λ line. IsListeningLine port line.items) }
{
    let mut line = Vec::new(alloc);
    line.extend_from_slice(b"listening ")?;
    write_number(port as u64, &mut line)?;
    line.push(b'\n')?;
    Ok(line)
}

// The line that tells how many entries a session's journal has.
fn session_line(alloc: Global, session: u64, entries: u64) -> Result<Vec<u8>, AllocError>
    ensures { IfOk result (λ line. IsSessionLine session entries line.items) }
{
    let mut line = Vec::new(alloc);
    line.extend_from_slice(b"session ")?;
    write_number(session, &mut line)?;
    line.push(b' ')?;
    write_number(entries, &mut line)?;
    line.push(b'\n')?;
    Ok(line)
}

// Tells the port.
pub(crate) fn tell_port<'a, W: Sink>(
    alloc: Global,
    writer: &mut W,
    port: u16,
) -> Result<(), ToolFault<'a>>
    requires { W.failed_calls writer.old < 2 ^ 62 }
    ensures told { OnOk result (TookOne (IsListeningLine port) (W.taken writer.old) (W.taken writer.new)) }
    ensures fault { IfErr result (IsTellFault 1 0) }
    ensures writes { W.failed_calls writer.new ≡ after_writes result (W.failed_calls writer.old) }
{
    let line = listening_line(alloc, port)?;
    tell(writer, line.as_slice())
}

// Tells how many entries the journal of a session has.
fn tell_session<'a, W: Sink>(
    alloc: Global,
    writer: &mut W,
    session: u64,
    entries: u64,
) -> Result<(), ToolFault<'a>>
    requires { W.failed_calls writer.old < 2 ^ 62 }
    ensures told { OnOk result (TookOne (IsSessionLine session entries) (W.taken writer.old) (W.taken writer.new)) }
    ensures fault { IfErr result (IsTellFault 1 0) }
    ensures writes { W.failed_calls writer.new ≡ after_writes result (W.failed_calls writer.old) }
{
    let line = session_line(alloc, session, entries)?;
    tell(writer, line.as_slice())
}

// Whether the first of the sessions was served, which these keepers record, or none.
fn is_first_served(keepers: &[Option<FileKeeper>]) -> bool
    ensures { result ≡ is_first_served keepers.now }
{
    match keepers.first() {
        Some(keeper) => keeper.is_some(),
        None => true,
    }
}

// What records the sessions past the first.
fn past_first(keepers: &[Option<FileKeeper>]) -> &[Option<FileKeeper>]
    ensures { result.now ≡ past_first keepers.now }
{
    match keepers.split_first() {
        Some((_, later)) => later,
        None => &[],
    }
}

// Tells of each session that was served, from this one on, up to the first that is lost.
#[tactic(auto, using(crate::proofs::Telling::any_tell, crate::proofs::Telling::later_tell, crate::proofs::Telling::none_lost))]
fn tell_sessions<'a, W: Sink>(
    alloc: Global,
    writer: &mut W,
    session: u64,
    keepers: &[Option<FileKeeper>],
    rooms: &[Option<Room>],
) -> Result<(), ToolFault<'a>>
    requires few { session + length rooms.now < 2 ^ 64 }
    requires writes { W.failed_calls writer.old < 2 ^ 62 }
    ensures told { OnOk result
        (TookOne (AreSessionLines (served_of session keepers.now rooms.now)) (W.taken writer.old) (W.taken writer.new)) }
    ensures fault { IfErr result (IsTellFault session (length rooms.now)) }
    ensures lost { IfErr result (IfLost (λ k.
        TookOne (AreLinesUpTo (served_of session keepers.now rooms.now) k) (W.taken writer.old) (W.taken writer.new))) }
    ensures writes { W.failed_calls writer.new ≡ after_writes result (W.failed_calls writer.old) }
{
    let Some((first, later)) = rooms.split_first() else {
        return Ok(());
    };
    if is_first_served(keepers) {
        match first {
            Some(room) => tell_session(alloc, writer, session, room.entries())?,
            None => return Err(ToolFault::Lost { session }),
        }
    }
    tell_sessions(alloc, writer, session + 1, past_first(keepers), later)
}

// By what the answers of so many sessions wait, where they may.
pub(crate) fn lookout_of<'a, R: Net + Threads>(
    rt: &R,
    alloc: Global,
    sessions: u64,
    wait: Option<Duration>,
) -> Result<Option<Arc<Lookout, Global>>, ToolFault<'a>>
    ensures fault { IfErr result IsBindFault }
{
    let Some(longest) = wait else {
        return Ok(None);
    };
    match Lookout::start(rt, alloc, sessions as usize, longest) {
        Ok(lookout) => Ok(Some(lookout)),
        Err(why) => Err(ToolFault::Bind { why: Some(why) }),
    }
}

// Why the serving ended.
fn unserved<'a>(fault: ServeFault) -> ToolFault<'a>
    ensures { result ≡ of_serving fault }
{
    match fault {
        ServeFault::Accept => ToolFault::Accept,
        ServeFault::Memory => ToolFault::Memory,
        ServeFault::Unrecorded { session } => ToolFault::JournalBroken { session },
        ServeFault::NoneLeft => ToolFault::Accept,
    }
}

// Where more is to be told, tells on standard error how many connections were closed since no thread could be started
// for them, if any were.
pub(crate) fn tell_lost<R: Eprint>(rt: &R, lost: u64, verbose: bool) {
    if verbose && lost > 0 {
        let _told = eprintln!(rt; "lost {lost}");
    }
}

// Tells the port, and serves the sessions to connections.
fn serve_hub<'a, R, W: Sink>(
    rt: &R,
    writer: &mut W,
    hub: &mut Hub,
    keepers: &[Option<FileKeeper>],
    entrance: Entrance,
    limits: Limits,
    verbose: bool,
    watching: Option<&Watching>,
) -> Result<(), ToolFault<'a>>
where
    R: Files<File = File>
        + AllocGlobal
        + Eprint
        + Net<Listener = TcpListener, Stream = TcpStream>
        + Clock
        + Threads
        + Wait
        + Sync
        + 'static,
    requires given { hub.old.given ≡ false }
    requires recorded { length keepers.now ≤ length hub.old.cells }
    requires writes { W.failed_calls writer.old < 2 ^ 62 }
    ensures first { hub.new.first ≡ hub.old.first }
    ensures same { hub.new.cells ≡ hub.old.cells }
    ensures told { OnOk result (TookOne (TellsPort entrance.port) (W.taken writer.old) (W.taken writer.new)) }
    ensures fault { IfErr result (IsHubFault hub.old.first (length keepers.now)) }
    ensures writes { W.failed_calls writer.new ≡ after_writes result (W.failed_calls writer.old) }
{
    let alloc = rt.alloc();
    let desk = match hub.deal() {
        Some(deal) => hub.desk_of(alloc, deal)?,
        None => unreachable!(),
    };
    let Listening { street, port } = entrance.open(rt)?;
    open_door(rt, watching, &street, port)?;
    tell_port(alloc, writer, port)?;
    let serving = Serving {
        rt,
        alloc,
        desk: &desk,
        gate: &Unguarded,
        keepers,
    };
    let watcher = watcher_of(watching)?;
    match serve_door(&serving, &street, limits, &watcher) {
        Ok(served) => tell_lost(rt, served.lost, verbose),
        // the first that was lost is the fault
        Err(ServeFault::NoneLeft) => {}
        Err(fault) => return Err(unserved(fault)),
    }
    match first_lost(keepers) {
        Some(place) => Err(ToolFault::JournalBroken {
            session: desk.first() + place as u64,
        }),
        None => Ok(()),
    }
}

/// Tells the port, serves the hub's sessions to connections, and then tells how many entries the journal of each session
/// has that was served. The keepers, one for each session, record those that they are not `None` of, and the others aren't
/// served; with none of them nothing is recorded. Where more is to be told (`verbose`), it tells on standard error how many
/// connections were lost, if any were.
///
/// After a fault nothing more is told: the lines of sessions stop before the first that is lost, which the fault names. That
/// lines of a session's journal were lost is one once all is served.
pub fn serve_to<'a, R, W: Sink>(
    rt: &R,
    writer: &mut W,
    hub: Hub,
    keepers: Vec<Option<FileKeeper>>,
    entrance: Entrance,
    limits: Limits,
    verbose: bool,
    watching: Option<&Watching>,
) -> Result<(), ToolFault<'a>>
where
    R: Files<File = File>
        + AllocGlobal
        + Eprint
        + Net<Listener = TcpListener, Stream = TcpStream>
        + Clock
        + Threads
        + Wait
        + Sync
        + 'static,
    requires fresh { hub.given ≡ false }
    requires number { hub.first ≤ 2 ^ 63 }
    requires few { length hub.cells ≤ 16 }
    requires recorded { length keepers.items ≤ length hub.cells }
    requires writes { W.failed_calls writer.old < 2 ^ 62 }
    ensures told { OnOk result
        (HasServed entrance.port hub.first keepers.items hub.cells (W.taken writer.old) (W.taken writer.new)) }
    ensures fault { IfErr result (IsOutFault (length keepers.items) hub.first (length hub.cells)) }
    ensures lost { IfErr result
        (IfLost (HasServedUpTo entrance.port hub.first keepers.items hub.cells (W.taken writer.old) (W.taken writer.new))) }
    ensures writes { W.failed_calls writer.new ≡ after_writes result (W.failed_calls writer.old) }
{
    let first = hub.first();
    let mut hub = hub;
    serve_hub(
        rt, writer, &mut hub, &keepers, entrance, limits, verbose, watching,
    )?;
    let rooms = hub.close(rt.alloc())?;
    tell_sessions(rt.alloc(), writer, first, &keepers, rooms.as_slice())
}

/// How a server runs: its port, the number of its first session, how many sessions it has, its limits, and where the
/// sessions are recorded, if they are.
#[derive(Clone, Copy)]
pub struct Service<'a> {
    pub port: u16,
    pub first: u64,
    pub sessions: u64,
    pub limits: Limits,
    /// How long an answer may wait where its line says so. `None`: no line may say so.
    pub wait: Option<Duration>,
    pub journal: Option<JournalFolder<'a>>,
    /// Who watches it.
    pub watched: Watched,
    /// The descriptor of what listens at that port already, if something does.
    pub listener: Option<u64>,
}

// The rooms of so many sessions, of which the first has that number, and what records them, if something does.
#[tactic(auto, using(crate::proofs::Naming::restored_named, crate::proofs::Naming::new_rooms_restored))]
fn sessions_of<
    'a,
    R: Files<File = File>
        + OwnFiles
        + AllocGlobal
        + Eprint
        + Net<Listener = TcpListener, Stream = TcpStream>
        + Clock,
>(
    rt: &R,
    opening: &Opening,
    first: u64,
    sessions: u64,
    journal: Option<JournalFolder<'a>>,
    verbose: bool,
    watching: Option<&Watching>,
) -> Result<Sessions<'a>, ToolFault<'a>>
    requires number { first ≤ 2 ^ 63 }
    requires few { sessions ≤ 16 }
    ensures rooms { IfOk result (λ r. length r.rooms.items ≡ sessions) }
    ensures keepers { IfOk result (λ r. length r.keepers.items
        ≡ recorded_of (option_map (λ j. j.folder.now) journal.entry) sessions) }
    ensures named { IfOk result (λ r. All (λ room. room.room.names ≡ opening.now.roles) r.rooms.items) }
    ensures restored { IfOk result (λ r.
        All (IsRestoredRoom opening.now.roles (map plain opening.now.types.items)) r.rooms.items) }
    ensures fault { IfErr result (IsSessionsFault (option_map (λ j. j.folder.now) journal.entry) first sessions) }
    ensures refused { IfOk result (λ r.
        All (IsSessionsFault (option_map (λ j. j.folder.now) journal.entry) first sessions) r.refused.items) }
{
    match journal {
        Some(journal) => {
            record_sessions(rt, opening, first, sessions, journal, verbose, watching)
        }
        None => Ok(Sessions {
            rooms: rooms_of(rt.alloc(), opening, sessions)?,
            keepers: Vec::new(rt.alloc()),
            refused: Vec::new(rt.alloc()),
        }),
    }
}

// Tells a fault on standard error, and why, where more is to be told; who watches is told too.
pub(crate) fn tell_fault<R: AllocGlobal + Eprint>(
    rt: &R,
    fault: ToolFault<'_>,
    verbose: bool,
    watching: Option<&Watching>,
) {
    tell_watched(rt, watching, &fault);
    let fault = if verbose {
        fault
    } else {
        without_reason(fault)
    };
    let _told = report(rt, &fault);
}

// Tells on standard error of each session that was refused, while others are served. Where all were, the first is the fault.
fn tell_refused<'a, R: AllocGlobal + Eprint>(
    rt: &R,
    refused: Vec<ToolFault<'a>>,
    sessions: u64,
    verbose: bool,
    watching: Option<&Watching>,
) -> Result<(), ToolFault<'a>>
    ensures { IfErr result (λ fault. (i : ℕ) × (slice_get refused.entry.items i ≡ Some fault)) }
{
    let mut refused = refused;
    let unserved = if refused.len() as u64 == sessions && !refused.is_empty() {
        Some(refused.remove(0))
    } else {
        None
    };
    for fault in refused {
        tell_fault(rt, fault, verbose, watching);
    }
    match unserved {
        Some(fault) => Err(fault),
        None => Ok(()),
    }
}

// Serves sessions of the protocol in the file at a port of 127.0.0.1. A fault says what the system says of it.
fn serve_watched<'a, R>(
    rt: &R,
    file: ProtocolFile<'a>,
    service: Service<'a>,
    entrance: Entrance,
    verbose: bool,
    watching: Option<&Watching>,
) -> Result<(), ToolFault<'a>>
where
    R: Files<File = File>
        + OwnFiles
        + AllocGlobal
        + Print
        + Eprint
        + Net<Listener = TcpListener, Stream = TcpStream>
        + Clock
        + Threads
        + Wait
        + Sync
        + 'static,
    requires number { service.first ≤ 2 ^ 63 }
    requires some { (1 ≤ service.sessions) × (service.sessions ≤ 16) }
    ensures fault { IfErr result (IsServeFault file.entry (option_map (λ j. j.folder.now) service.entry.journal)
        service.entry.first service.entry.sessions) }
{
    let alloc = rt.alloc();
    let opening = load_file(rt, file)?;
    let Service {
        first,
        sessions,
        limits,
        wait,
        journal,
        ..
    } = service;
    let began = Instant::now(rt);
    let Sessions {
        rooms,
        keepers,
        refused,
    } = sessions_of(rt, &opening, first, sessions, journal, verbose, watching)?;
    count_restored(rt, watching, began, rooms.as_slice());
    tell_refused(rt, refused, sessions, verbose, watching)?;
    tell_opened(rt, watching, first, rooms.as_slice(), keepers.as_slice());
    let shares = Shares::of(alloc, limits.share, rooms.as_slice())?;
    let waits = lookout_of(rt, alloc, sessions, wait)?.map(|lookout| Waits::new(lookout, 0));
    let hub = Hub::of_restored(alloc, &opening.roles, first, rooms)?
        .sharing(shares)
        .waiting(waits);
    let mut writer = OverWrite::new(io::writer(rt));
    serve_to(
        rt,
        &mut writer,
        hub,
        keepers,
        entrance,
        limits,
        verbose,
        watching,
    )
}

// The same; who watches is told of its fault, if it has one.
fn serve_from<'a, R>(
    rt: &R,
    file: ProtocolFile<'a>,
    service: Service<'a>,
    verbose: bool,
) -> Result<(), ToolFault<'a>>
where
    R: Files<File = File>
        + OwnFiles
        + AllocGlobal
        + Print
        + Eprint
        + Net<Listener = TcpListener, Stream = TcpStream>
        + Clock
        + Threads
        + Wait
        + Sync
        + 'static,
    requires number { service.first ≤ 2 ^ 63 }
    requires some { (1 ≤ service.sessions) × (service.sessions ≤ 16) }
    ensures fault { IfErr result (IsServeFault file.entry (option_map (λ j. j.folder.now) service.entry.journal)
        service.entry.first service.entry.sessions) }
{
    let alloc = rt.alloc();
    let watching = watch_of(alloc, service.watched)?;
    let watching = watching.as_ref();
    let metrics = service.watched.metrics;
    let served = match enter(rt, alloc, service.port, service.listener, watching, metrics) {
        Ok(entrance) => serve_watched(rt, file, service, entrance, verbose, watching),
        Err(fault) => Err(fault),
    };
    noticed(rt, watching, served)
}

/// Serves sessions of the protocol in the file at a port of 127.0.0.1. Where more is to be told (`verbose`), a fault says
/// what the system says of it, and standard error is told how many connections were lost.
///
/// The protocol is read and checked, the sessions are opened, and where they are recorded they are restored, before the
/// port is bound.
pub fn serve_file<'a, R>(
    rt: &R,
    file: ProtocolFile<'a>,
    service: Service<'a>,
    verbose: bool,
) -> Result<(), ToolFault<'a>>
where
    R: Files<File = File>
        + OwnFiles
        + AllocGlobal
        + Print
        + Eprint
        + Net<Listener = TcpListener, Stream = TcpStream>
        + Clock
        + Threads
        + Wait
        + Sync
        + 'static,
    requires number { service.first ≤ 2 ^ 63 }
    requires some { (1 ≤ service.sessions) × (service.sessions ≤ 16) }
    ensures fault { IfErr result (IsServeFault file.entry (option_map (λ j. j.folder.now) service.entry.journal)
        service.entry.first service.entry.sessions) }
    ensures quiet { verbose ≡ false → IfErr result (λ fault. without fault ≡ fault) }
{
    told(serve_from(rt, file, service, verbose), verbose)
}
