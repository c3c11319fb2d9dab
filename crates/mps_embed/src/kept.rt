//! Rooms that files record.
ghost use Rattle.std.specs.Prelude.{◌≡◌, map, true, IfErr, IfOk};
ghost use Rattle.mps_line.specs.declared.write_replies.Reply.TheVariants.{NoRole as Nobody};
ghost use Rattle.mps_local.specs.Local.{plain};
ghost use Rattle.mps_local.specs.declared.merging.Merging.TheVariants.{Plain};
ghost use Rattle.mps_embed.specs.Kept.{GivesNoRoom, IsFilePlace, IsKeptRoomOf, IsLedRoom, IsOfFile, IsStored, file_number};
ghost use Rattle.mps_keeper.specs.BookParts.{lines_of, seal_of, whole_of};
ghost use Rattle.mps_embed.specs.declared.kept.FileFault.TheVariants.{Room as OfRoom};
ghost use Rattle.mps_open.specs.declared.fault.Fault.TheVariants.{Memory as OutOfMemory};

use crate::diary::Diary;
use crate::embedded::Embedded;
use mps_dev::OverWrite;
use mps_file::{
    Descriptor, JournalFile, OwnFile, cut_off, held, marked, restore, store_name, torn,
};
use mps_keeper::{Book, LONGEST_LINE, Recorder, RestoreFault, Restored, RestoredRoom};
use mps_open::{Fault, Merging, Opening};
use mps_text::write_protocol;
use std::alloc::{AllocError, Global};
use std::io;
use std::io::ErrorKind;
use std::sync::Arc;

/// Why a room isn't opened with its file.
#[derive(Debug, Drop)]
pub enum FileFault {
    /// There is no such room.
    Room(Fault),
    /// Another room, or another process, has the file.
    Elsewhere,
    /// The system refuses something of the file.
    Unusable(io::Error),
    /// The first line that isn't one of this room's journal, counted from 1, and why.
    Line { line: u64, why: RestoreFault },
}

impl From<AllocError> for FileFault {
    ghost from_gives = { λ _ e. e ≡ OfRoom OutOfMemory };

    fn from(_: AllocError) -> FileFault {
        FileFault::Room(Fault::Memory)
    }
}

impl From<Fault> for FileFault {
    ghost from_gives = { λ fault e. e ≡ OfRoom fault };

    fn from(fault: Fault) -> FileFault {
        FileFault::Room(fault)
    }
}

impl From<io::Error> for FileFault {
    ghost from_gives = { λ _ e. IsOfFile e };

    fn from(error: io::Error) -> FileFault {
        match error.kind() {
            ErrorKind::WouldBlock => FileFault::Elsewhere,
            ErrorKind::OutOfMemory => FileFault::Room(Fault::Memory),
            _ => FileFault::Unusable(error),
        }
    }
}

impl From<RestoreFault> for FileFault {
    ghost from_gives = { λ _ e. IsOfFile e };

    fn from(fault: RestoreFault) -> FileFault {
        match fault {
            RestoreFault::Memory => FileFault::Room(Fault::Memory),
            RestoreFault::Read => FileFault::Unusable(io::Error::from(ErrorKind::InvalidData)),
            RestoreFault::Unreadable { line }
            | RestoreFault::Refused { line }
            | RestoreFault::Changed { line } => FileFault::Line { line, why: fault },
        }
    }
}

// The system's number of the error; where it gave none, that of the same kind, or 0.
fn error_number(why: &io::Error) -> u64 {
    let number = why.raw_os_error().unwrap_or(match why.kind() {
        ErrorKind::NotFound => libc::ENOENT,
        ErrorKind::PermissionDenied => libc::EACCES,
        ErrorKind::InvalidInput => libc::EINVAL,
        ErrorKind::InvalidData | ErrorKind::UnexpectedEof => libc::EIO,
        _ => 0,
    });
    number.unsigned_abs() as u64
}

impl FileFault {
    /// The number of the fault, for callers that have no enums: that of the room's fault, and 64 to 68 for one of the file.
    pub fn number(&self) -> u32
        ensures { result ≡ file_number self.now }
    {
        match self {
            FileFault::Room(fault) => fault.number(),
            FileFault::Elsewhere => 64,
            FileFault::Unusable(_) => 65,
            FileFault::Line { why, .. } => match why {
                RestoreFault::Unreadable { .. } => 66,
                RestoreFault::Refused { .. } => 67,
                _ => 68,
            },
        }
    }

    /// Where the fault is: for a line its number, from 1; for what the system refuses its number of the error, or 0; else
    /// the place of the room's fault.
    pub fn place(&self) -> u64
        ensures { IsFilePlace self.now result }
    {
        match self {
            FileFault::Room(fault) => fault.place(),
            FileFault::Elsewhere => 0,
            FileFault::Unusable(why) => error_number(why),
            FileFault::Line { line, .. } => *line,
        }
    }
}

/// Which file a room has: where it is, which session it is of, and whether each line is stored on the disk before it is
/// answered.
#[derive(Clone, Copy, Debug)]
pub struct FileOf<'p> {
    pub path: &'p [u8],
    pub session: u64,
    pub sync: bool,
}

// The greatest number of a session.
const LAST_SESSION: u64 = 1 << 63;

/// A room that may have a file.
pub type FileRoom = Embedded<OverWrite<JournalFile>>;

// Where what is cut off that file is kept: beside it, under the name with `.cut` for `.journal`, or else behind it.
fn beside(alloc: Global, path: &[u8]) -> Result<Vec<u8>, AllocError> {
    let front = path.strip_suffix(b".journal").unwrap_or(path);
    let mut beside = Vec::new(alloc);
    beside.extend_from_slice(front)?;
    beside.extend_from_slice(b".cut")?;
    Ok(beside)
}

// The file that was read so far as `restored` says, cut to its whole lines and marked, as a book that goes on.
fn book_of(
    alloc: Global,
    file: Arc<OwnFile, Global>,
    of: FileOf<'_>,
    restored: &Restored,
) -> io::Result<Book<OverWrite<JournalFile>>>
    ensures whole { IfOk result (λ b. whole_of b ≡ true) }
    ensures lines { IfOk result (λ b. lines_of b ≡ restored.now.lines) }
    ensures seal { restored.now.chain.is_sealed ≡ true → IfOk result (λ b. seal_of b ≡ restored.now.chain.seal) }
{
    let count = torn(&file, restored)?;
    if count > 0 {
        let beside = beside(alloc, of.path)?;
        let beside = OwnFile::Raw(Descriptor::open_to_add(beside.as_slice())?);
        cut_off(alloc, &file, restored, count, &beside, of.sync)?;
    }
    let chain = marked(alloc, &file, restored)?;
    if of.sync {
        held(&file, file.sync_all())?;
        store_name(&file)?;
    }
    let written = JournalFile::new(alloc, file, of.sync)?;
    Ok(Book::new(OverWrite::new(written), restored.lines, chain.seal))
}

// A room of that protocol, as the file leaves it, which its further commands are added to.
#[tactic(auto, using(crate::proofs::Opening::no_memory))]
fn kept_room(alloc: Global, opening: Opening, of: FileOf<'_>) -> Result<FileRoom, FileFault>
    ensures led { IfOk result (IsLedRoom opening.roles (map plain opening.types.items)) }
    ensures whole { IfOk result (λ e. e.whole ≡ true) }
    ensures reply { IfOk result (λ e. e.reply ≡ Nobody) }
    ensures records { IfOk result (λ e. e.records ≡ true) }
    ensures fault { IfErr result IsOfFile }
{
    if of.session == 0 || of.session > LAST_SESSION {
        return Err(FileFault::from(io::Error::from(ErrorKind::InvalidInput)));
    }
    let protocol = write_protocol(alloc, &opening.protocol)?;
    let (roles, session) = opening.into_session(alloc)?;
    let mut room = RestoredRoom::new(alloc, roles, session)?;
    let line = Vec::with_capacity(alloc, LONGEST_LINE)?;
    let file = Descriptor::open_locked(of.path)?;
    let Ok(file) = Arc::new(alloc, OwnFile::Raw(file)) else {
        return Err(FileFault::Room(Fault::Memory));
    };
    let restored = restore(alloc, protocol.as_slice(), of.session, &file, &mut room)?;
    let book = book_of(alloc, file, of, &restored)?;
    Ok(Embedded::of_restored(alloc, room, Some(book), line))
}

impl Diary<OverWrite<JournalFile>> {
    // Has the disk store what its book took, if it has one.
    fn store(&self) -> bool {
        match self.book() {
            Some(book) => book.sink().get_ref().store().is_ok(),
            None => true,
        }
    }
}

impl FileRoom {
    /// A room of the protocol that the text spells, by plain merging, as that file of it leaves it, which its further commands
    /// are added to. The file is made where there is none, and locked as long as the room is open. Sessions are 1 to 2^63, as
    /// a server's.
    ///
    /// What stands past its last whole line is what a write left that broke off: it is cut, and kept beside the file. Where
    /// a line isn't as it was written, or its command isn't accepted, the file stays as it is.
    pub fn open_file(alloc: Global, text: &[u8], of: FileOf<'_>) -> Result<FileRoom, FileFault>
        ensures opened { IfOk result (IsKeptRoomOf Plain text.now) }
        ensures fault { IfErr result (GivesNoRoom Plain text.now) }
    {
        FileRoom::open_file_by(alloc, Merging::Plain, text, of)
    }

    /// `open_file` by the merging that is given. The file says nothing of it: where both kinds give types they are the same.
    pub fn open_file_by(
        alloc: Global,
        merging: Merging,
        text: &[u8],
        of: FileOf<'_>,
    ) -> Result<FileRoom, FileFault>
        ensures opened { IfOk result (IsKeptRoomOf merging text.now) }
        ensures fault { IfErr result (GivesNoRoom merging text.now) }
    {
        let opening = Opening::of_text(alloc, merging, text)?;
        kept_room(alloc, opening, of)
    }

    /// Has the disk store all that was answered so far, where a file records it. Says whether it is stored; where it isn't,
    /// no line is run any more, as where a line can't be written.
    pub fn sync(&mut self) -> bool
        ensures { IsStored self.old result self.new }
    {
        let diary = &mut self.guest.recorder;
        if !diary.records() {
            return true;
        }
        let stored = diary.is_whole() && diary.store();
        if !stored {
            diary.close();
        }
        stored
    }
}
