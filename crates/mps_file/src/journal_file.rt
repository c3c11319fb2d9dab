//! The file of a session's journal: who writes it, and who has the disk store it.
ghost use Rattle.std.specs.Prelude.{◌≡◌, ◌≤◌, ⊤, IfOk, length};

use crate::own_file::OwnFile;
use libc::types::timespec;
use mps_dev::OverWrite;
use mps_keeper::{Disk, Keeper};
use mps_watch::Watch;
use std::alloc::Global;
use std::fs::File;
use std::io::{ErrorKind, Write};
use std::sync::Arc;
use std::sync::atomic::{AtomicBool, AtomicU64, Ordering};
use std::{io, mem};

// The system's number of the error that there is no such file.
const NO_SUCH_FILE: i32 = 2;

// How many nanoseconds a second has.
const SECOND: u64 = 1_000_000_000;

// The system's number of the newest error at a file, 0 for none.
type NewestError = Arc<AtomicU64, Global>;

// The nanoseconds since some start.
fn nanoseconds() -> u64 {
    let mut time = timespec {
        tv_sec: 0,
        tv_nsec: 0,
    };
    let _told = libc::clock_gettime(libc::CLOCK_MONOTONIC, &mut time);
    let seconds = time.tv_sec.unsigned_abs();
    seconds
        .saturating_mul(SECOND)
        .saturating_add(time.tv_nsec.unsigned_abs())
}

/// A session's journal, to be written to, by `OverWrite`, which counts failures. Once the file has no name any more a write
/// fails, since nobody would find what it has: the next one where each is synced, else one of the next `LOOK`, and the first
/// that comes `PAUSE` after the last look. Before the first write it is noted that the session has begun, where that is due.
/// Where each write is stored at once, one that isn't fails.
#[derive(Drop)]
pub struct JournalFile {
    file: Arc<OwnFile, Global>,
    newest: NewestError,
    note: Option<Note>,
    stores: bool,
    // whether the names are looked at at each write; else how many are left until one looks, and when one looks in any case
    looks: bool,
    left: u64,
    due: u64,
    // whether the disk has stored its name
    named: AtomicBool,
    // who counts what is written
    watch: Option<Arc<Watch, Global>>,
}

/// Of so many writes in a row at least one looks at the names of its file, where not each is synced. A look at each would take
/// longer than the write: where the system keeps exact times, those that it was asked for are stored anew by the next write.
pub const LOOK: u64 = 64;

/// So many nanoseconds after the last look a write looks in any case.
pub const PAUSE: u64 = 10_000_000;

/// That a session has begun, for the folder's file `sessions`; and the folder, where both are synced.
#[derive(Drop)]
pub struct Note {
    pub sessions: File,
    pub line: String,
    pub folder: Option<File>,
    pub unsynced: Unsynced,
}

impl Note {
    // Writes it, and has the disk store it, where it is synced: the folder first, so that what has begun has its file.
    fn write(&mut self) -> io::Result<()> {
        if let Some(folder) = &self.folder {
            synced(folder.sync_all(), &self.unsynced)?;
        }
        self.sessions.write_all(self.line.as_bytes())?;
        if self.folder.is_some() {
            synced(self.sessions.sync_data(), &self.unsynced)?;
        }
        Ok(())
    }
}

/// What stores a session's journal: where it is synced, each time that lines were written. The first loss is told on
/// standard error, `refused journal K`; where more is to be told, what the system said of it too.
#[derive(Drop)]
pub struct JournalDisk {
    file: Arc<OwnFile, Global>,
    newest: NewestError,
    unsynced: Unsynced,
    about: About,
    // who counts how long it takes, and which lines wait
    watch: Option<Arc<Watch, Global>>,
}

/// Whether a sync failed: the system may show lines then that the disk doesn't have.
pub type Unsynced = Arc<AtomicBool, Global>;

/// Which session's journal it is, whether it is synced, and whether more is told where it is lost.
#[derive(Clone, Copy, Debug)]
pub struct About {
    pub session: u64,
    pub sync: bool,
    pub verbose: bool,
}

/// What records a session in a file.
pub type FileKeeper = Keeper<OverWrite<JournalFile>, JournalDisk>;

// Keeps the system's number of the error of a call that failed, and hands the result on.
fn noted<T>(newest: &NewestError, done: io::Result<T>) -> io::Result<T>
    ensures { result ≡ done }
{
    if let Err(error) = &done {
        let code = error.raw_os_error().unwrap_or(0);
        newest.store(code.unsigned_abs() as u64, Ordering::SeqCst);
    }
    done
}

// Notes where a sync failed, and hands the result on.
fn synced(done: io::Result<()>, unsynced: &Unsynced) -> io::Result<()> {
    if done.is_err() {
        unsynced.store(true, Ordering::SeqCst);
    }
    done
}

/// Hands the result of a sync of the file on. Where it failed the file stays open, and so locked, until the process ends: what
/// the system shows of it then, no other process takes for stored.
pub fn held(file: &Arc<OwnFile, Global>, stored: io::Result<()>) -> io::Result<()> {
    if stored.is_err()
        && let Ok(file) = Arc::try_clone(file)
    {
        mem::forget(file);
    }
    stored
}

/// Has the disk store that the file's folder has it (`held`).
pub fn store_name(file: &Arc<OwnFile, Global>) -> io::Result<()> {
    match file.folder()? {
        Some(folder) => held(file, folder.sync_all()),
        None => Ok(()),
    }
}

// The error of that number.
fn error_of(newest: &NewestError) -> io::Error {
    let code = newest.load(Ordering::SeqCst);
    io::Error::from_raw_os_error(i32::try_from(code).unwrap_or(0))
}

/// The file's two parts, for a keeper; the first writes the note before all else, if there is one.
pub fn parted(
    alloc: Global,
    file: Arc<OwnFile, Global>,
    about: About,
    note: Option<Note>,
    unsynced: Unsynced,
) -> io::Result<(JournalFile, JournalDisk)> {
    let newest = Arc::new(alloc, AtomicU64::new(0))?;
    let written = JournalFile {
        file: Arc::try_clone(&file)?,
        newest: Arc::try_clone(&newest)?,
        note,
        stores: false,
        looks: about.sync,
        left: 0,
        due: 0,
        named: AtomicBool::new(true),
        watch: None,
    };
    Ok((
        written,
        JournalDisk {
            file,
            newest,
            unsynced,
            about,
            watch: None,
        },
    ))
}

impl JournalFile {
    /// The file, for one writer. Each write is stored before it counts, where that is said, of a file whose name the disk has
    /// stored.
    pub fn new(alloc: Global, file: Arc<OwnFile, Global>, stores: bool) -> io::Result<JournalFile> {
        Ok(JournalFile {
            file,
            newest: Arc::new(alloc, AtomicU64::new(0))?,
            note: None,
            stores,
            looks: stores,
            left: 0,
            due: 0,
            named: AtomicBool::new(stores),
            watch: None,
        })
    }

    /// The same file, of which what is written is counted.
    pub fn watched(self, watch: Arc<Watch, Global>) -> JournalFile {
        let mut file = self;
        file.watch = Some(watch);
        file
    }

    /// The newest error at the file.
    pub fn newest_error(&self) -> io::Error {
        error_of(&self.newest)
    }

    /// Has the disk store what was written, of a file that still has a name (`held`), and the first time its name too.
    pub fn store(&self) -> io::Result<()> {
        noted(&self.newest, self.look())?;
        noted(&self.newest, held(&self.file, self.file.sync_data()))?;
        if !self.named.load(Ordering::SeqCst) {
            noted(&self.newest, store_name(&self.file))?;
            self.named.store(true, Ordering::SeqCst);
        }
        Ok(())
    }

    // Looks whether the file has a name.
    fn look(&self) -> io::Result<()> {
        if self.file.has_name()? {
            return Ok(());
        }
        Err(io::Error::from_raw_os_error(NO_SUCH_FILE))
    }

    // The same, where it is time for it.
    fn look_at_times(&mut self) -> io::Result<()> {
        let now = nanoseconds();
        if !self.looks && self.left > 0 && now < self.due {
            self.left -= 1;
            return Ok(());
        }
        self.left = LOOK - 1;
        self.due = now.saturating_add(PAUSE);
        self.look()
    }

    // Writes the note that is due. Not inlined, so that later writes keep no space for it.
    #[inline(never)]
    fn write_note(&mut self) -> io::Result<()> {
        match self.note.take() {
            Some(mut note) => note.write(),
            None => Ok(()),
        }
    }

    // Writes once. Apart, so that all of its failures, the look at the names among them, are noted at one place.
    fn write_on(&mut self, buf: &[u8]) -> io::Result<usize>
        ensures { IfOk result (λ count. count ≤ length buf.now) }
    {
        self.look_at_times()?;
        if self.note.is_some() {
            self.write_note()?;
        }
        let mut file = &*self.file;
        let count = file.write(buf)?;
        if let Some(watch) = &self.watch {
            watch.counts.journal_bytes.add(count as u64);
        }
        if self.stores {
            held(&self.file, self.file.sync_data())?;
        }
        Ok(count)
    }
}

impl Write for JournalFile {
    fn write(&mut self, buf: &[u8]) -> io::Result<usize> {
        let written = self.write_on(buf);
        noted(&self.newest, written)
    }

    fn flush(&mut self) -> io::Result<()> {
        Ok(())
    }
}

impl JournalDisk {
    /// The same disk, which counts how long it takes, and which lines wait for it.
    pub fn watched(self, watch: Arc<Watch, Global>) -> JournalDisk {
        let mut disk = self;
        disk.watch = Some(watch);
        disk
    }

    // Tells who watches that lines were lost. What a recorder doesn't keep, since another server has the session by now, or it
    // went away itself, has no error of the system's.
    fn tell_lost<R: Eprint>(&self, rt: &R, watch: &Watch, why: &io::Error) {
        let session = self.about.session;
        if why.raw_os_error() == Some(0) {
            watch.lost(rt, session, &io::Error::from(ErrorKind::ConnectionAborted));
        } else {
            watch.lost(rt, session, why);
        }
    }

    // Has the disk store what was written, and counts how long that took.
    fn timed_sync(&self) -> io::Result<()> {
        let Some(watch) = &self.watch else {
            return self.file.sync_data();
        };
        let began = nanoseconds();
        let stored = self.file.sync_data();
        watch.counts.syncs.add(nanoseconds().saturating_sub(began));
        stored
    }

    /// The newest error at the file.
    pub fn newest_error(&self) -> io::Error {
        error_of(&self.newest)
    }

    /// Has the disk store all of the file, where it is synced.
    pub fn sync_all(&self) -> io::Result<()> {
        if self.about.sync {
            synced(self.file.sync_all(), &self.unsynced)
        } else {
            Ok(())
        }
    }
}

impl Disk for JournalDisk {
    ghost stored = { λ _ _. ⊤ };

    ghost confirmed = { λ _ _. ⊤ };

    fn sync(&self) -> bool {
        if !self.about.sync {
            return true;
        }
        let stored = noted(&self.newest, self.timed_sync());
        // a recorder never shows what it doesn't have
        if self.file.is_recorder() {
            return stored.is_ok();
        }
        synced(stored, &self.unsynced).is_ok()
    }

    fn confirm(&self) -> bool {
        noted(&self.newest, self.file.confirm()).is_ok()
    }

    fn lost<R: Eprint>(&self, rt: &R) {
        let session = self.about.session;
        let _told = eprintln!(rt; "refused journal {session}");
        let why = self.newest_error();
        if self.about.verbose && why.raw_os_error() != Some(0) {
            let _told = eprintln!(rt; "{why}");
        }
        if let Some(watch) = &self.watch {
            self.tell_lost(rt, watch, &why);
        }
    }

    fn awaited(&self) {
        if let Some(watch) = &self.watch {
            watch.counts.awaited.add(1);
        }
    }

    fn settled(&self) {
        if let Some(watch) = &self.watch {
            watch.counts.settled.add(1);
        }
    }
}
