//! Sessions that are opened on demand.
ghost use Rattle.std.specs.Prelude.{◌≡◌, ◌≢◌, ◌≤◌, ◌^◌, false, IfErr, IfOk, length};
ghost use Rattle.std.specs.Option.{option_map};
ghost use Rattle.mps_line.specs.Codes.{code_of};
ghost use Rattle.mps_program.specs.Faults.{without};
ghost use Rattle.mps_program.specs.Hosted.{IsClaimFault, IsDoorFault, IsHostFault};
ghost use Rattle.mps_program.specs.Journals.{IsFolderFault, IsOneFault};

use crate::entrance::{Entrance, Listening};
use crate::faults::{ToolFault, told};
use crate::folder::Keeping;
use crate::journals::Folder;
use crate::kept::kept_text;
use crate::load::load_file;
use crate::own_files::OwnFiles;
use crate::rooms::rooms_of;
use crate::serving::{lookout_of, tell_fault, tell_lost, tell_port};
use crate::watching::{
    Watching, count_restored, enter, noticed, open_door, shared, tell_opened, watch_of, watcher_of,
};
use mps_base::Roles;
use mps_command::{Answer, Refusal};
use mps_dev::OverWrite;
use mps_file::{FileKeeper, JournalDisk, JournalFile, Unsynced};
use mps_hub::{
    Host, Hosting, Limits, NotOpened, OpenSession, Register, RestoredRoom, Street, host_all,
};
use mps_line::Reply;
use mps_open::Opening;
use mps_words::{JournalFolder, ProtocolFile, Watched};
use std::fs::File;
use std::io;
use std::io::ErrorKind;
use std::marker::PhantomData;
use std::net::{Net, TcpListener, TcpStream};
use std::rt::Files;
use std::sync::atomic::{AtomicBool, Ordering};
use std::sync::{Arc, Mutex, Wait};
use std::thread::Threads;
use std::time::{Clock, Duration, Instant};

/// How sessions are hosted: the port, how many may be open, for how long one stays open in which nobody is, the limits of
/// connections, and where the sessions are recorded, if they are.
#[derive(Clone, Copy)]
pub struct HostService<'a> {
    pub port: u16,
    pub open: u64,
    pub keep: Duration,
    pub limits: Limits,
    /// How long an answer may wait where its line says so. `None`: no line may say so.
    pub wait: Option<Duration>,
    pub journal: Option<JournalFolder<'a>>,
    /// Who watches it.
    pub watched: Watched,
    /// The descriptor of what listens at that port already, if something does.
    pub listener: Option<u64>,
}

// Where the sessions are recorded, and what is known of them there.
#[derive(Drop)]
struct Records<'a> {
    journal: JournalFolder<'a>,
    keeping: Mutex<Keeping>,
}

// What all sessions have in common, over what opens their files.
#[derive(Drop)]
struct House<'o, 'a, F> {
    rt: &'o F,
    opening: &'o Opening,
    // the text by which journals are sealed
    protocol: &'o [u8],
    records: Option<Records<'a>>,
    verbose: bool,
    watching: Option<Watching>,
}

impl<
    'o,
    'a,
    F: OwnFiles
        + AllocGlobal
        + Eprint
        + Net<Listener = TcpListener, Stream = TcpStream>
        + Wait
        + Clock,
> House<'o, 'a, F> {
    // Who watches, if somebody does.
    fn watching(&self) -> Option<&Watching> {
        self.watching.as_ref()
    }

    // The folder with that journal.
    fn folder(&self, journal: JournalFolder<'a>) -> Folder<'_, 'a> {
        Folder {
            alloc: self.rt.alloc(),
            opening: self.opening,
            protocol: self.protocol,
            journal,
            verbose: self.verbose,
            watching: self.watching(),
        }
    }

    // The room of the session, as its file leaves it, and what records it.
    fn recorded(
        &self,
        records: &Records<'a>,
        session: u64,
        unsynced: Unsynced,
    ) -> Result<(Vec<RestoredRoom>, Vec<Option<FileKeeper>>), ToolFault<'a>>
        ensures one { IfOk result (λ r. length r.0.items ≡ 1) }
        ensures kept { IfOk result (λ r. length r.1.items ≡ 1) }
        ensures fault { IfErr result (IsOneFault session) }
    {
        let folder = self.folder(records.journal);
        let mut keeping = records.keeping.lock(self.rt);
        let note = folder.note(&mut keeping, session, &unsynced)?;
        let recorder = keeping.recorder();
        drop(keeping);
        let file = folder.open(self.rt, recorder, session)?;
        match folder.open_one(self.rt, session, file, note, unsynced) {
            // the recorder went away while it gave the journal
            Err(ToolFault::JournalLost { session, .. }) if recorder.is_some() => {
                Err(ToolFault::JournalFile {
                    session,
                    why: Some(io::Error::from(ErrorKind::ConnectionReset)),
                })
            }
            opened => opened,
        }
    }

    // The session, as its file leaves it, or a new one where nothing is recorded. In `barred` it is noted where a sync failed.
    fn opened(
        &self,
        session: u64,
        barred: Unsynced,
    ) -> Result<OpenSession<OverWrite<JournalFile>, JournalDisk>, ToolFault<'a>>
        ensures one { IfOk result (λ opened. length opened.rooms.items ≡ 1) }
        ensures few { IfOk result (λ opened. length opened.keepers.items ≤ 1) }
        ensures fault { IfErr result (IsOneFault session) }
    {
        let (rooms, keepers) = match &self.records {
            Some(records) => self.recorded(records, session, Arc::try_clone(&barred)?)?,
            None => {
                let alloc = self.rt.alloc();
                (rooms_of(alloc, self.opening, 1)?, Vec::new(alloc))
            }
        };
        Ok(OpenSession {
            rooms,
            keepers,
            barred,
        })
    }

    // Counts that a session couldn't be opened.
    fn count_refused(&self) {
        if let Some(watching) = self.watching() {
            watching.watch.counts.refused.add(1);
        }
    }

    // Opens the session, while it counts as one that is being opened.
    fn counted(&self, session: u64) -> Tried<'a>
        ensures one { IfOk result.0 (λ opened. length opened.rooms.items ≡ 1) }
        ensures few { IfOk result.0 (λ opened. length opened.keepers.items ≤ 1) }
    {
        if let Some(watching) = self.watching() {
            watching.watch.counts.asked.add(1);
        }
        let tried = self.tried(session);
        if let Some(watching) = self.watching() {
            watching.watch.counts.tried.add(1);
        }
        tried
    }

    // Opens the session.
    fn tried(&self, session: u64) -> Tried<'a>
        ensures one { IfOk result.0 (λ opened. length opened.rooms.items ≡ 1) }
        ensures few { IfOk result.0 (λ opened. length opened.keepers.items ≤ 1) }
    {
        let Ok(barred) = Arc::new(self.rt.alloc(), AtomicBool::new(false)) else {
            return (Err(ToolFault::Memory), false);
        };
        let Ok(other) = Arc::try_clone(&barred) else {
            return (Err(ToolFault::Memory), false);
        };
        let done = self.opened(session, other);
        (done, barred.load(Ordering::SeqCst))
    }
}

// What opening a session comes to, and whether it may not be tried again.
type Tried<'a> = (
    Result<OpenSession<OverWrite<JournalFile>, JournalDisk>, ToolFault<'a>>,
    bool,
);

// Whether another process has the session's file.
fn is_elsewhere(fault: &ToolFault<'_>) -> bool {
    match fault {
        ToolFault::JournalFile { why: Some(why), .. } => why.kind() == ErrorKind::WouldBlock,
        _ => false,
    }
}

// Whether it couldn't be asked for the session's file: its recorder isn't there, or went away.
fn is_unreached(fault: &ToolFault<'_>) -> bool {
    match fault {
        ToolFault::JournalFile { why: Some(why), .. } => matches!(
            why.kind(),
            ErrorKind::ConnectionRefused
                | ErrorKind::ConnectionReset
                | ErrorKind::BrokenPipe
                | ErrorKind::UnexpectedEof
        ),
        _ => false,
    }
}

// What those are told who wait for a session that can't be opened. Where its recorder wasn't reached another server may have
// it by now.
fn reply_to(fault: &ToolFault<'_>) -> Reply
    ensures { code_of result ≢ 0 }
{
    if is_elsewhere(fault) || is_unreached(fault) {
        return Reply::Elsewhere;
    }
    match fault {
        ToolFault::Memory => Reply::Answer(Answer::Refused(Refusal::Memory)),
        _ => Reply::Unkept,
    }
}

impl<
    'o,
    'a,
    F: OwnFiles
        + AllocGlobal
        + Eprint
        + Net<Listener = TcpListener, Stream = TcpStream>
        + Wait
        + Clock,
> Host<OverWrite<JournalFile>, JournalDisk> for House<'o, 'a, F> {
    fn roles(&self) -> &Roles {
        &self.opening.roles
    }

    // That another process has a session is no fault to be told. Not inlined, so that the thread that serves the session
    // needn't keep space for this.
    #[inline(never)]
    fn open(
        &self,
        session: u64,
    ) -> Result<OpenSession<OverWrite<JournalFile>, JournalDisk>, NotOpened> {
        let began = Instant::now(self.rt);
        let (done, barred) = self.counted(session);
        match done {
            Ok(opened) => {
                count_restored(self.rt, self.watching(), began, opened.rooms.as_slice());
                tell_opened(
                    self.rt,
                    self.watching(),
                    session,
                    opened.rooms.as_slice(),
                    opened.keepers.as_slice(),
                );
                Ok(opened)
            }
            Err(fault) => {
                let reply = reply_to(&fault);
                if !is_elsewhere(&fault) {
                    self.count_refused();
                    tell_fault(self.rt, fault, self.verbose, self.watching());
                }
                Err(NotOpened { reply, barred })
            }
        }
    }

    // A session that never had an entry leaves no file.
    fn leave(&self, session: u64, entries: u64, lost: u64) {
        tell_lost(self.rt, lost, self.verbose);
        if let Some(watching) = self.watching() {
            watching.watch.left(self.rt, session, entries);
        }
        let Some(records) = &self.records else {
            return;
        };
        if entries > 0 {
            return;
        }
        let mut keeping = records.keeping.lock(self.rt);
        // one that has begun keeps its file, also where its first entry wasn't written
        if keeping.is_unbegun(session) {
            let _gone = self.folder(records.journal).remove(self.rt, session);
        }
    }
}

// How the sessions are recorded in the folder, which gets their protocol where it has none.
fn records_of<'a, R: Files<File = File> + OwnFiles + AllocGlobal>(
    rt: &R,
    opening: &Opening,
    protocol: &[u8],
    journal: JournalFolder<'a>,
    verbose: bool,
    watching: Option<&Watching>,
) -> Result<Records<'a>, ToolFault<'a>>
    ensures fault { IfErr result (IsFolderFault journal.entry.folder.now) }
{
    let folder = Folder {
        alloc: rt.alloc(),
        opening,
        protocol,
        journal,
        verbose,
        watching,
    };
    Ok(Records {
        journal,
        keeping: Mutex::new(folder.claim(rt)?),
    })
}

// The text by which the sessions' journals are sealed, if they are recorded.
fn sealing_text<'a, R: Files<File = File> + AllocGlobal>(
    rt: &R,
    opening: &Opening,
    journal: Option<JournalFolder<'a>>,
) -> Result<Vec<u8>, ToolFault<'a>>
    ensures fault { IfErr result (IsClaimFault (option_map (λ j. j.folder.now) journal.entry)) }
{
    match journal {
        Some(journal) => kept_text(rt, journal.folder, opening),
        None => Ok(Vec::new(rt.alloc())),
    }
}

// Where those who come are let in. The port is told.
fn open_at<'a, R>(
    rt: &R,
    entrance: Entrance,
    watching: Option<&Watching>,
) -> Result<Street, ToolFault<'a>>
where
    R: Files<File = File>
        + AllocGlobal
        + Print
        + Eprint
        + Net<Listener = TcpListener, Stream = TcpStream>
        + Threads,
    ensures fault { IfErr result IsDoorFault }
{
    let Listening { street, port } = entrance.open(rt)?;
    open_door(rt, watching, &street, port)?;
    tell_port(rt.alloc(), &mut OverWrite::new(io::writer(rt)), port)?;
    Ok(street)
}

// Hosts sessions of the protocol in the file at a port of 127.0.0.1. A fault says what the system says of it.
fn host_watched<'a, R>(
    rt: &R,
    file: ProtocolFile<'a>,
    service: HostService<'a>,
    entrance: Entrance,
    verbose: bool,
    watching: Option<&Watching>,
) -> Result<(), ToolFault<'a>>
where
    R: Files<File = File>
        + OwnFiles
        + AllocGlobal
        + Print
        + Eprint
        + Net<Listener = TcpListener, Stream = TcpStream>
        + Clock
        + Threads
        + Wait
        + Sync
        + 'static,
    ensures fault { IfErr result
        (IsHostFault file.entry (option_map (λ j. j.folder.now) service.entry.journal)) }
{
    let alloc = rt.alloc();
    let opening = load_file(rt, file)?;
    let protocol = sealing_text(rt, &opening, service.journal)?;
    let protocol = protocol.as_slice();
    let records = match service.journal {
        Some(journal) => { Some(records_of(rt, &opening, protocol, journal, verbose, watching)?) }
        None => None,
    };
    let house = House {
        rt,
        opening: &opening,
        protocol,
        records,
        verbose,
        watching: shared(watching)?,
    };
    let keep = service.journal.map(|_| service.keep);
    let register = Register::new(alloc, service.open, keep);
    let lookout = lookout_of(rt, alloc, service.open, service.wait)?;
    let street = open_at(rt, entrance, watching)?;
    let hosting = Hosting {
        rt,
        alloc,
        register: &register,
        host: &house,
        limits: service.limits,
        lookout,
        watcher: watcher_of(watching)?,
        of: PhantomData,
    };
    host_all(&hosting, &street);
    Ok(())
}

// The same; who watches is told of its fault, if it has one.
fn host_from<'a, R>(
    rt: &R,
    file: ProtocolFile<'a>,
    service: HostService<'a>,
    verbose: bool,
) -> Result<(), ToolFault<'a>>
where
    R: Files<File = File>
        + OwnFiles
        + AllocGlobal
        + Print
        + Eprint
        + Net<Listener = TcpListener, Stream = TcpStream>
        + Clock
        + Threads
        + Wait
        + Sync
        + 'static,
    ensures fault { IfErr result
        (IsHostFault file.entry (option_map (λ j. j.folder.now) service.entry.journal)) }
{
    let alloc = rt.alloc();
    let watching = watch_of(alloc, service.watched)?;
    let watching = watching.as_ref();
    let metrics = service.watched.metrics;
    let hosted = match enter(rt, alloc, service.port, service.listener, watching, metrics) {
        Ok(entrance) => host_watched(rt, file, service, entrance, verbose, watching),
        Err(fault) => Err(fault),
    };
    noticed(rt, watching, hosted)
}

/// Hosts sessions of the protocol in the file at a port of 127.0.0.1: each is opened when somebody joins it. Where more is to
/// be told (`verbose`), a fault says what the system says of it.
///
/// The protocol is read and checked, and the folder gets it where it has none, before the port is bound. Then this ends with
/// the process.
pub fn host_file<'a, R>(
    rt: &R,
    file: ProtocolFile<'a>,
    service: HostService<'a>,
    verbose: bool,
) -> Result<(), ToolFault<'a>>
where
    R: Files<File = File>
        + OwnFiles
        + AllocGlobal
        + Print
        + Eprint
        + Net<Listener = TcpListener, Stream = TcpStream>
        + Clock
        + Threads
        + Wait
        + Sync
        + 'static,
    ensures fault { IfErr result
        (IsHostFault file.entry (option_map (λ j. j.folder.now) service.entry.journal)) }
    ensures quiet { verbose ≡ false → IfErr result (λ fault. without fault ≡ fault) }
{
    told(host_from(rt, file, service, verbose), verbose)
}
