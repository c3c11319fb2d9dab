//! The files that record a server's sessions, or the recorder that does in their place.
ghost use Rattle.std.specs.Prelude.{◌≡◌, ◌+◌, ◌<◌, ◌≤◌, ◌^◌, ℕ, Ok, IfErr, IfOk, IfSome, OnOk, All, length, map};
ghost use Rattle.mps_hub.specs.Places.{IsSession};
ghost use Rattle.mps_local.specs.Local.{plain};
ghost use Rattle.mps_file.specs.Rooms.{IsNewRoom, IsRestoredRoom};
ghost use Rattle.mps_program.specs.Journals.{IsFolderFault, IsFileFaultOf, IsJournalFault, IsOneFault};
ghost use Rattle.mps_program.specs.Journals.{of_restoring};
ghost use Rattle.mps_program.specs.declared.faults.ToolFault.TheVariants.{Memory as OutOfMemory};

use crate::faults::ToolFault;
use crate::folder::{
    Begun, Keeping, has_protocol, make_folder, names, open_own, recorder_of, sync_folders,
    unusable, write_whole,
};
use crate::kept::kept_text;
use crate::own_files::OwnFiles;
use crate::progress::Progress;
use crate::rooms::{room_of, rooms_of};
use crate::watching::Watching;
use mps_dev::OverWrite;
use mps_file::{
    About, FileKeeper, JournalDisk, JournalFile, Note, OwnFile, RecorderStream, Unsynced, cut_off,
    held, marked, parted, restore, torn,
};
use mps_hub::RestoredRoom;
use mps_keeper::{Book, Keeper, RestoreFault, Restored};
use mps_open::Opening;
use mps_words::JournalFolder;
use std::alloc::{AllocError, Global};
use std::fs::File;
use std::io::ErrorKind;
use std::net::{Net, TcpListener, TcpStream};
use std::rt::Files;
use std::sync::Arc;
use std::sync::atomic::AtomicBool;
use std::time::Clock;
use std::{fs, io};

// How many bytes the mark of a file has, with its LF.
const MARK: u64 = 18;

// How often a file is made again that another process removed before it was locked.
const REMOVALS: u64 = 100;

/// The rooms of a server's sessions, in order, and what records them: nothing at all, or a keeper for each session that
/// wasn't refused. Of one that was the room is new, or as its file leaves it, and its fault is among `refused`.
#[derive(Drop)]
pub struct Sessions<'a> {
    pub rooms: Vec<RestoredRoom>,
    pub keepers: Vec<Option<FileKeeper>>,
    pub refused: Vec<ToolFault<'a>>,
}

/// What is the same for all journals of a folder, or of a recorder.
#[derive(Drop)]
pub(crate) struct Folder<'o, 'a> {
    pub(crate) alloc: Global,
    pub(crate) opening: &'o Opening,
    /// The protocol's text, by which journals are sealed.
    pub(crate) protocol: &'o [u8],
    pub(crate) journal: JournalFolder<'a>,
    pub(crate) verbose: bool,
    /// Who watches what is written, if somebody does.
    pub(crate) watching: Option<&'o Watching>,
}

// The faults of sessions that were refused while others go on. Where it is strict none does.
#[derive(Drop)]
struct Refusals<'a> {
    strict: bool,
    first: u64,
    sessions: u64,
    faults: Vec<ToolFault<'a>>,
}

impl<'a> Refusals<'a> {
    // What was done for a session; or nothing, where that failed and the others go on. Where memory ran out none does.
    fn or_none<T: Drop>(
        &mut self,
        session: u64,
        done: Result<T, ToolFault<'a>>,
    ) -> Result<Option<T>, ToolFault<'a>>
        requires session { IsSession self.old.first self.old.sessions session }
        requires fault { IfErr done (IsOneFault session) }
        ensures first { self.new.first ≡ self.old.first }
        ensures sessions { self.new.sessions ≡ self.old.sessions }
        ensures ok { IfOk result (λ found. IfSome found (λ x. done.entry ≡ Ok x)) }
        ensures fault { IfErr result (IsFileFaultOf self.old.first self.old.sessions) }
        ensures refused { All (IsFileFaultOf self.old.first self.old.sessions) self.old.faults.items
            → All (IsFileFaultOf self.old.first self.old.sessions) self.new.faults.items }
    {
        match done {
            Ok(value) => Ok(Some(value)),
            Err(ToolFault::Memory) => Err(ToolFault::Memory),
            Err(fault) => {
                if self.strict {
                    return Err(fault);
                }
                self.faults.push(fault)?;
                Ok(None)
            }
        }
    }
}

// The folder's file, once no other process has it; `None` where another process removed it before it was locked.
fn own_locked<R: OwnFiles>(rt: &R, folder: &str, path: &str) -> io::Result<Option<File>> {
    let file = match open_own(rt, folder, path) {
        Ok(file) => file,
        Err(error) if error.kind() == ErrorKind::NotFound => return Ok(None),
        Err(error) => return Err(error),
    };
    if let Err(why) = file.try_lock() {
        return Err(io::Error::from(why));
    }
    let is_there = names(rt, path, &file).unwrap_or(false);
    Ok(if is_there { Some(file) } else { None })
}

// The same, tried again where it was removed.
fn own_file<R: OwnFiles>(rt: &R, folder: &str, path: &str) -> io::Result<File> {
    for _ in 0..REMOVALS {
        if let Some(file) = own_locked(rt, folder, path)? {
            return Ok(file);
        }
    }
    Err(io::Error::from(ErrorKind::NotFound))
}

// Why a session was not restored, as the program tells it.
fn unrestored<'a>(session: u64, fault: RestoreFault) -> ToolFault<'a>
    ensures { result ≡ of_restoring session fault }
{
    match fault {
        RestoreFault::Read => ToolFault::JournalLost { session, why: None },
        RestoreFault::Memory => ToolFault::Memory,
        RestoreFault::Unreadable { line }
        | RestoreFault::Refused { line }
        | RestoreFault::Changed { line } => ToolFault::JournalLine {
            session,
            line,
            why: Some(fault),
        },
    }
}

// The journal of the session can't be used, for what the system says.
fn lost<'a>(session: u64, error: io::Error) -> ToolFault<'a>
    ensures { IsOneFault session result }
{
    if error.kind() == ErrorKind::OutOfMemory {
        return ToolFault::Memory;
    }
    ToolFault::JournalLost {
        session,
        why: Some(error),
    }
}

// Drops the rooms. Not inlined, so that a room has space on the stack meanwhile alone.
#[inline(never)]
fn discard(_rooms: Vec<RestoredRoom>) {}

// A session's file, what was restored from it, and what has to be noted before its first entry, if something has.
#[derive(Drop)]
struct RestoredFile {
    file: Arc<OwnFile, Global>,
    restored: Restored,
    note: Option<Note>,
    unsynced: Unsynced,
}

impl<'o, 'a> Folder<'o, 'a> {
    // Whether the folder has the protocol already. Another one there is a fault.
    fn knows_protocol<R: Files<File = File> + AllocGlobal>(
        &self,
        rt: &R,
    ) -> Result<bool, ToolFault<'a>>
        ensures { IfErr result (IsFolderFault self.now.journal.folder.now) }
    {
        let folder = self.journal.folder;
        let path = format!(in self.alloc; "{folder}/protocol")?;
        has_protocol(rt, folder, path.as_str(), self.protocol)
    }

    // Makes the folder, unless it is there, and opens the file that says which sessions have begun. A folder of another
    // protocol is a fault. A recorder is asked for nothing yet.
    fn enter<R: Files<File = File> + OwnFiles + AllocGlobal>(
        &self,
        rt: &R,
    ) -> Result<Keeping, ToolFault<'a>>
        ensures { IfErr result (IsFolderFault self.now.journal.folder.now) }
    {
        let folder = self.journal.folder;
        if let Some(port) = recorder_of(folder)? {
            return Ok(Keeping::Recorder(port));
        }
        if let Err(error) = make_folder(rt, folder) {
            return Err(unusable(folder, error));
        }
        self.knows_protocol(rt)?;
        match Begun::open(rt, folder, self.journal.sync) {
            Ok(begun) => Ok(Keeping::Folder(begun)),
            Err(error) => Err(unusable(folder, error)),
        }
    }

    // Writes the protocol into the folder, where it has none, while no other server does. A recorder has each session's.
    fn write_protocol<R: Files<File = File> + AllocGlobal>(
        &self,
        rt: &R,
        keeping: &Keeping,
    ) -> Result<(), ToolFault<'a>>
        ensures { IfErr result (IsFolderFault self.now.journal.folder.now) }
    {
        let Keeping::Folder(begun) = keeping else {
            return Ok(());
        };
        if let Err(error) = begun.lock(true) {
            return Err(unusable(self.journal.folder, error));
        }
        let written = self.write_missing(rt);
        let _unlocked = begun.lock(false);
        written
    }

    // The same, once other servers are kept out. One of them may have written it by now.
    fn write_missing<R: Files<File = File> + AllocGlobal>(
        &self,
        rt: &R,
    ) -> Result<(), ToolFault<'a>>
        ensures { IfErr result (IsFolderFault self.now.journal.folder.now) }
    {
        if self.knows_protocol(rt)? {
            return Ok(());
        }
        let folder = self.journal.folder;
        let path = format!(in self.alloc; "{folder}/protocol")?;
        let beside = format!(in self.alloc; "{folder}/protocol.new")?;
        match write_whole(rt, path.as_str(), beside.as_str(), self.protocol) {
            Ok(()) => Ok(()),
            Err(error) => Err(unusable(folder, error)),
        }
    }

    // Has the disk store what the folder has, where it is synced.
    fn sync<R: Files<File = File>>(&self, rt: &R, keeping: &Keeping) -> Result<(), ToolFault<'a>>
        ensures { IfErr result (IsFolderFault self.now.journal.folder.now) }
    {
        if !self.journal.sync || keeping.recorder().is_some() {
            return Ok(());
        }
        let folder = self.journal.folder;
        let parent = format!(in self.alloc; "{folder}/..")?;
        match sync_folders(rt, folder, parent.as_str()) {
            Ok(()) => Ok(()),
            Err(error) => Err(unusable(folder, error)),
        }
    }

    // The journal of the session, by the recorder at that port, or in the folder, where it is locked.
    fn find<R: OwnFiles + AllocGlobal + Net<Listener = TcpListener, Stream = TcpStream>>(
        &self,
        rt: &R,
        recorder: Option<u16>,
        session: u64,
    ) -> io::Result<OwnFile> {
        if let Some(port) = recorder {
            let recorder = RecorderStream::open(rt, port, session, self.protocol)?;
            return Ok(OwnFile::Recorder(recorder));
        }
        let folder = self.journal.folder;
        let path = format!(in self.alloc; "{folder}/{session}.journal")?;
        Ok(OwnFile::Std(own_file(rt, folder, path.as_str())?))
    }

    /// Opens the journal of the session, by the recorder at that port, or in the folder, where it is locked. Not inlined, so
    /// that a thread's stack needn't keep space for this and for what is done with the file at once.
    #[inline(never)]
    pub(crate) fn open<R: OwnFiles + AllocGlobal + Net<Listener = TcpListener, Stream = TcpStream>>(
        &self,
        rt: &R,
        recorder: Option<u16>,
        session: u64,
    ) -> Result<OwnFile, ToolFault<'a>>
        ensures { IfErr result (IsOneFault session) }
    {
        match self.find(rt, recorder, session) {
            Ok(file) => Ok(file),
            Err(why) => Err(ToolFault::JournalFile {
                session,
                why: Some(why),
            }),
        }
    }

    // Brings a new room to where the session's file leaves it, and says how far the file was read. In its place, since each
    // move of a room would take space of the thread's stack.
    fn restore(
        &self,
        session: u64,
        file: &OwnFile,
        room: &mut RestoredRoom,
    ) -> Result<Restored, ToolFault<'a>>
        ensures room { IsNewRoom self.now.opening.now.roles (map plain self.now.opening.now.types.items) room.old
            → OnOk result (IsRestoredRoom self.now.opening.now.roles (map plain self.now.opening.now.types.items) room.new) }
        ensures fault { IfErr result (IsOneFault session) }
    {
        match restore(self.alloc, self.protocol, session, file, room) {
            Ok(restored) => Ok(restored),
            Err(fault) => Err(unrestored(session, fault)),
        }
    }

    // The same, with the file. A session without a note has begun, unless a recorder says that it is new, and so its file ever
    // had the mark: without a line it was lost, and without the mark another was put in its place.
    fn restore_one(
        &self,
        session: u64,
        file: OwnFile,
        note: Option<Note>,
        unsynced: Unsynced,
        room: &mut RestoredRoom,
    ) -> Result<RestoredFile, ToolFault<'a>>
        ensures room { IsNewRoom self.now.opening.now.roles (map plain self.now.opening.now.types.items) room.old
            → OnOk result (IsRestoredRoom self.now.opening.now.roles (map plain self.now.opening.now.types.items) room.new) }
        ensures fault { IfErr result (IsOneFault session) }
    {
        let is_new = note.is_some() || file.is_known_new();
        let file = Arc::new(self.alloc, file)?;
        let restored = self.restore(session, &file, room)?;
        if restored.chain.is_sealed || is_new {
            return Ok(RestoredFile {
                file,
                restored,
                note,
                unsynced,
            });
        }
        if restored.bytes == 0 {
            return Err(lost(session, io::Error::from(ErrorKind::UnexpectedEof)));
        }
        Err(unrestored(session, RestoreFault::Changed { line: 1 }))
    }

    /// What has to be noted before the session's first entry, if something has.
    pub(crate) fn note(
        &self,
        keeping: &mut Keeping,
        session: u64,
        unsynced: &Unsynced,
    ) -> Result<Option<Note>, ToolFault<'a>>
        ensures fault { IfErr result (IsOneFault session) }
    {
        match keeping.note(session, unsynced) {
            Ok(note) => Ok(note),
            Err(why) => Err(lost(session, why)),
        }
    }

    // The same as `restore_one`, by what is known of the sessions that have begun.
    fn restore_begun<R: OwnFiles + AllocGlobal + Net<Listener = TcpListener, Stream = TcpStream>>(
        &self,
        rt: &R,
        keeping: &mut Keeping,
        session: u64,
    ) -> Result<(RestoredRoom, RestoredFile), ToolFault<'a>>
        ensures room { IfOk result
            (λ r. IsRestoredRoom self.now.opening.now.roles (map plain self.now.opening.now.types.items) r.0) }
        ensures fault { IfErr result (IsOneFault session) }
    {
        let unsynced = Arc::new(self.alloc, AtomicBool::new(false))?;
        let note = self.note(keeping, session, &unsynced)?;
        let file = self.open(rt, keeping.recorder(), session)?;
        let mut room = room_of(self.alloc, self.opening)?;
        let read = self.restore_one(session, file, note, unsynced, &mut room)?;
        Ok((room, read))
    }

    // The session's room and file; of a session that was refused a new room.
    #[tactic(auto, using(crate::proofs::Naming::new_restored))]
    fn room_and_file(
        &self,
        found: Option<(RestoredRoom, RestoredFile)>,
    ) -> Result<(RestoredRoom, Option<RestoredFile>), ToolFault<'a>>
        requires { IfSome found
            (λ r. IsRestoredRoom self.now.opening.now.roles (map plain self.now.opening.now.types.items) r.0) }
        ensures room { IfOk result
            (λ r. IsRestoredRoom self.now.opening.now.roles (map plain self.now.opening.now.types.items) r.0) }
        ensures fault { IfErr result (λ fault. fault ≡ OutOfMemory) }
    {
        match found {
            Some((room, read)) => Ok((room, Some(read))),
            None => Ok((room_of(self.alloc, self.opening)?, None)),
        }
    }

    // Restores each session from its file.
    fn restore_all<
        R: OwnFiles
            + AllocGlobal
            + Eprint
            + Net<Listener = TcpListener, Stream = TcpStream>
            + Clock,
    >(
        &self,
        rt: &R,
        keeping: &mut Keeping,
        refusals: &mut Refusals<'a>,
    ) -> Result<(Vec<RestoredRoom>, Vec<Option<RestoredFile>>), ToolFault<'a>>
        requires fits { refusals.old.first + refusals.old.sessions < 2 ^ 64 }
        ensures first { refusals.new.first ≡ refusals.old.first }
        ensures sessions { refusals.new.sessions ≡ refusals.old.sessions }
        ensures rooms { IfOk result (λ r. length r.0.items ≡ refusals.old.sessions) }
        ensures count { IfOk result (λ r. length r.1.items ≡ refusals.old.sessions) }
        ensures restored { IfOk result (λ r. All
            (IsRestoredRoom self.now.opening.now.roles (map plain self.now.opening.now.types.items)) r.0.items) }
        ensures fault { IfErr result (IsFileFaultOf refusals.old.first refusals.old.sessions) }
        ensures refused { All (IsFileFaultOf refusals.old.first refusals.old.sessions) refusals.old.faults.items
            → All (IsFileFaultOf refusals.old.first refusals.old.sessions) refusals.new.faults.items }
    {
        let mut rooms = Vec::new(self.alloc);
        let mut read = Vec::new(self.alloc);
        let mut progress = Progress::new(rt, refusals.sessions);
        for place in 0..refusals.sessions {
            let session = refusals.first + place;
            progress.tell(place);
            let done = self.restore_begun(rt, keeping, session);
            progress.clear();
            let (room, file) = self.room_and_file(refusals.or_none(session, done)?)?;
            rooms.push(room)?;
            read.push(file)?;
        }
        Ok((rooms, read))
    }

    // Cuts so many bytes off the file, past its whole lines. They are added to a file beside it, `K.cut`; where more is to be
    // told, on standard error it is told how many these are. Not inlined, so that the thread's stack keeps space for it only
    // where there are any.
    #[inline(never)]
    fn cut<R: OwnFiles + Eprint>(
        &self,
        rt: &R,
        session: u64,
        file: &OwnFile,
        restored: &Restored,
        count: u64,
    ) -> io::Result<()> {
        let folder = self.journal.folder;
        let path = format!(in self.alloc; "{folder}/{session}.cut")?;
        let beside = OwnFile::Std(open_own(rt, folder, path.as_str())?);
        cut_off(
            self.alloc,
            file,
            restored,
            count,
            &beside,
            self.journal.sync,
        )?;
        if self.verbose {
            let _told = eprintln!(rt; "cut journal {session} {count}");
        }
        Ok(())
    }

    // The two parts of a file, which are watched where somebody watches.
    fn watched(
        &self,
        sink: JournalFile,
        disk: JournalDisk,
    ) -> Result<(JournalFile, JournalDisk), AllocError> {
        let Some(Watching { watch, .. }) = self.watching else {
            return Ok((sink, disk));
        };
        let (written, stored) = (Arc::try_clone(watch)?, Arc::try_clone(watch)?);
        Ok((sink.watched(written), disk.watched(stored)))
    }

    // The keeper of the session, whose file is cut to its whole lines, and marked where its lines had no seals so far.
    fn keeper<R: OwnFiles + Eprint>(
        &self,
        rt: &R,
        session: u64,
        read: RestoredFile,
    ) -> io::Result<FileKeeper> {
        let RestoredFile {
            file,
            restored,
            note,
            unsynced,
        } = read;
        let count = torn(&file, &restored)?;
        if count > 0 {
            self.cut(rt, session, &file, &restored, count)?;
        }
        let about = About {
            session,
            sync: self.journal.sync || file.is_recorder(),
            verbose: self.verbose,
        };
        let chain = marked(self.alloc, &file, &restored)?;
        let again = Arc::try_clone(&file)?;
        let (sink, disk) = parted(self.alloc, file, about, note, unsynced)?;
        held(&again, disk.sync_all())?;
        let (sink, disk) = self.watched(sink, disk)?;
        let book = Book::new(OverWrite::new(sink), restored.lines, chain.seal);
        Ok(Keeper::new(self.alloc, book, Some(disk))?)
    }

    // The same, or how the session's journal fails.
    fn keep<R: OwnFiles + Eprint>(
        &self,
        rt: &R,
        session: u64,
        read: RestoredFile,
    ) -> Result<FileKeeper, ToolFault<'a>>
        ensures { IfErr result (IsOneFault session) }
    {
        match self.keeper(rt, session, read) {
            Ok(kept) => Ok(kept),
            Err(why) => Err(lost(session, why)),
        }
    }

    // The keeper of the session, unless it was refused, or is now.
    fn keep_one<R: OwnFiles + Eprint>(
        &self,
        rt: &R,
        session: u64,
        read: Option<RestoredFile>,
        refusals: &mut Refusals<'a>,
    ) -> Result<Option<FileKeeper>, ToolFault<'a>>
        requires { IsSession refusals.old.first refusals.old.sessions session }
        ensures first { refusals.new.first ≡ refusals.old.first }
        ensures sessions { refusals.new.sessions ≡ refusals.old.sessions }
        ensures fault { IfErr result (IsFileFaultOf refusals.old.first refusals.old.sessions) }
        ensures refused { All (IsFileFaultOf refusals.old.first refusals.old.sessions) refusals.old.faults.items
            → All (IsFileFaultOf refusals.old.first refusals.old.sessions) refusals.new.faults.items }
    {
        match read {
            Some(read) => {
                let done = self.keep(rt, session, read);
                refusals.or_none(session, done)
            }
            None => Ok(None),
        }
    }

    /// Makes the folder, unless it is there, with its protocol, where it has none, and reads which sessions have begun. A
    /// folder of another protocol is a fault.
    pub(crate) fn claim<R: Files<File = File> + OwnFiles + AllocGlobal>(
        &self,
        rt: &R,
    ) -> Result<Keeping, ToolFault<'a>>
        ensures fault { IfErr result (IsFolderFault self.now.journal.folder.now) }
    {
        let keeping = self.enter(rt)?;
        self.write_protocol(rt, &keeping)?;
        self.sync(rt, &keeping)?;
        Ok(keeping)
    }

    // Brings a new room to where this file of the session leaves it, and gives what records it, in a list.
    fn restore_and_keep<R: OwnFiles + Eprint>(
        &self,
        rt: &R,
        session: u64,
        file: OwnFile,
        note: Option<Note>,
        unsynced: Unsynced,
        room: &mut RestoredRoom,
    ) -> Result<Vec<Option<FileKeeper>>, ToolFault<'a>>
        ensures room { IsNewRoom self.now.opening.now.roles (map plain self.now.opening.now.types.items) room.old
            → OnOk result (IsRestoredRoom self.now.opening.now.roles (map plain self.now.opening.now.types.items) room.new) }
        ensures one { IfOk result (λ keepers. length keepers.items ≡ 1) }
        ensures fault { IfErr result (IsOneFault session) }
    {
        let mut keepers = Vec::with_capacity(self.alloc, 1)?;
        let read = self.restore_one(session, file, note, unsynced, room)?;
        keepers.push_reserved(Some(self.keep(rt, session, read)?));
        Ok(keepers)
    }

    /// The room of one session, as this file of it leaves it, and what records it, each in a list. The file is locked as long
    /// as the keeper lives. A session without a note has begun. In `unsynced` the keeper says later whether a sync failed.
    /// Not inlined, as `open`.
    #[inline(never)]
    pub(crate) fn open_one<R: OwnFiles + Eprint>(
        &self,
        rt: &R,
        session: u64,
        file: OwnFile,
        note: Option<Note>,
        unsynced: Unsynced,
    ) -> Result<(Vec<RestoredRoom>, Vec<Option<FileKeeper>>), ToolFault<'a>>
        ensures room { IfOk result (λ r.
            All (IsRestoredRoom self.now.opening.now.roles (map plain self.now.opening.now.types.items)) r.0.items) }
        ensures one { IfOk result (λ r. length r.0.items ≡ 1) }
        ensures kept { IfOk result (λ r. length r.1.items ≡ 1) }
        ensures fault { IfErr result (IsOneFault session) }
    {
        let mut rooms = rooms_of(self.alloc, self.opening, 1)?;
        match self.restore_and_keep(rt, session, file, note, unsynced, &mut rooms[0]) {
            Ok(keepers) => Ok((rooms, keepers)),
            Err(fault) => {
                discard(rooms);
                Err(fault)
            }
        }
    }

    /// Removes the file of a session that never had an entry, whose keeper still locks it, unless it has more than the mark:
    /// then another was put in its place.
    pub(crate) fn remove<R: OwnFiles>(&self, rt: &R, session: u64) -> io::Result<()> {
        let folder = self.journal.folder;
        let name = format!(in self.alloc; "{folder}/{session}.journal")?;
        let about = rt.named_at(name.as_str())?;
        if about.is_file() && about.len() <= MARK {
            rt.remove_own(name.as_str())?;
        }
        Ok(())
    }

    // The keeper of each session that wasn't refused.
    fn keep_all<R: OwnFiles + Eprint>(
        &self,
        rt: &R,
        read: Vec<Option<RestoredFile>>,
        refusals: &mut Refusals<'a>,
    ) -> Result<Vec<Option<FileKeeper>>, ToolFault<'a>>
        requires fits { refusals.old.first + refusals.old.sessions < 2 ^ 64 }
        requires count { length read.items ≡ refusals.old.sessions }
        ensures count { IfOk result (λ keepers. length keepers.items ≡ length read.items) }
        ensures fault { IfErr result (IsFileFaultOf refusals.old.first refusals.old.sessions) }
        ensures refused { All (IsFileFaultOf refusals.old.first refusals.old.sessions) refusals.old.faults.items
            → All (IsFileFaultOf refusals.old.first refusals.old.sessions) refusals.new.faults.items }
    {
        let mut keepers = Vec::with_capacity(self.alloc, read.len())?;
        for one in read {
            let session = refusals.first + keepers.len() as u64;
            let kept = self.keep_one(rt, session, one, refusals)?;
            keepers.push_reserved(kept);
        }
        Ok(keepers)
    }
}

/// The rooms of so many sessions, of which the first has that number, as the folder's journals leave them, and the keeper
/// of each. The folder is made where there is none, and gets the protocol where it has none. A session whose journal can't
/// be used is refused and the others go on, unless the folder is strict.
///
/// The journals are locked as long as the keepers live. Where the folder is of another protocol, or it is strict and a line
/// of a journal isn't accepted, no file is changed; journals that weren't there may have been made, with nothing in them.
///
/// Where the word for the folder is `tcp:PORT`, the recorder at that port of this machine has the journals instead.
pub fn record_sessions<
    'a,
    R: Files<File = File>
        + OwnFiles
        + AllocGlobal
        + Eprint
        + Net<Listener = TcpListener, Stream = TcpStream>
        + Clock,
>(
    rt: &R,
    opening: &Opening,
    first: u64,
    sessions: u64,
    journal: JournalFolder<'a>,
    verbose: bool,
    watching: Option<&Watching>,
) -> Result<Sessions<'a>, ToolFault<'a>>
    requires { first + sessions < 2 ^ 64 }
    ensures count { IfOk result (λ r. length r.rooms.items ≡ sessions) }
    ensures keepers { IfOk result (λ r. length r.keepers.items ≡ sessions) }
    ensures restored { IfOk result (λ r.
        All (IsRestoredRoom opening.now.roles (map plain opening.now.types.items)) r.rooms.items) }
    ensures fault { IfErr result (IsJournalFault journal.entry.folder.now first sessions) }
    ensures refused { IfOk result (λ r. All (IsFileFaultOf first sessions) r.refused.items) }
{
    let alloc = rt.alloc();
    let protocol = kept_text(rt, journal.folder, opening)?;
    let of = Folder {
        alloc,
        opening,
        protocol: protocol.as_slice(),
        journal,
        verbose,
        watching,
    };
    let mut refusals = Refusals {
        strict: journal.strict,
        first,
        sessions,
        faults: Vec::new(alloc),
    };
    let mut keeping = of.enter(rt)?;
    let (rooms, read) = of.restore_all(rt, &mut keeping, &mut refusals)?;
    if (refusals.faults.len() as u64) < sessions {
        of.write_protocol(rt, &keeping)?;
    }
    let keepers = of.keep_all(rt, read, &mut refusals)?;
    of.sync(rt, &keeping)?;
    Ok(Sessions {
        rooms,
        keepers,
        refused: refusals.faults,
    })
}
