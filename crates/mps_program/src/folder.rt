//! The folder that records sessions: its protocol, and which of its sessions have begun; or what does in its place.
ghost use Rattle.std.specs.Prelude.{◌≡◌, ◌≢◌, ◌++◌, ℕ, List, codes, IfErr, IfOk, IfSome, IfNone};
ghost use Rattle.mps_program.specs.Journals.{IsFolderFault, NamesRecorder};

use crate::faults::ToolFault;
use crate::own_files::OwnFiles;
use mps_base::read_number;
use mps_file::{Note, Unsynced};
use std::alloc::{AllocError, Global};
use std::collections::BTreeSet;
use std::fs::{DirBuilder, File};
use std::io::{ErrorKind, Write};
use std::os::unix::fs::{DirBuilderExt, FileExt, MetadataExt, OpenOptionsExt};
use std::rt::Files;
use std::sync::Arc;
use std::{fs, io};

// How many bytes the file of a protocol has at most: a text, and an LF, and one byte more.
const MOST_PROTOCOL: u64 = 65_538;

// How many bytes the file of the sessions that have begun is read of at a time at most.
const MOST_BEGUN: u64 = 1 << 26;

/// Makes the folder for its owner alone, unless it is there.
pub(crate) fn make_folder<R: Files>(rt: &R, folder: &str) -> io::Result<()> {
    let mut builder = DirBuilder::new();
    builder.mode(0o700);
    match builder.create(rt, folder) {
        Err(error) if error.kind() != ErrorKind::AlreadyExists => Err(error),
        _ => Ok(()),
    }
}

/// Writes a file for its owner alone, whole or not at all: first under another name, of which an earlier start may have
/// left a file, and someone else a link.
pub(crate) fn write_whole<R: Files<File = File>>(
    rt: &R,
    path: &str,
    beside: &str,
    text: &[u8],
) -> io::Result<()> {
    let _left = fs::remove_file(rt, beside);
    let mut options = File::options();
    options.write(true).create_new(true).mode(0o600);
    let mut file = options.open(rt, beside)?;
    file.write_all(text)?;
    file.write_all(b"\n")?;
    file.sync_all()?;
    fs::rename(rt, beside, path)
}

// Whether these bytes are the text and an LF.
fn is_line(bytes: &[u8], text: &[u8]) -> bool {
    match bytes.split_last() {
        Some((end, front)) => *end == b'\n' && front == text,
        None => false,
    }
}

/// Says whether the folder has the protocol of that text already. Another one there is a fault.
pub(crate) fn has_protocol<'a, R: Files<File = File> + AllocGlobal>(
    rt: &R,
    folder: &'a str,
    path: &str,
    text: &[u8],
) -> Result<bool, ToolFault<'a>>
    ensures { IfErr result (IsFolderFault folder.now) }
{
    match file_bytes(rt, path, MOST_PROTOCOL) {
        Ok(found) if is_line(found.as_slice(), text) => Ok(true),
        Ok(_) => Err(ToolFault::JournalProtocol),
        Err(error) => match error.kind() {
            ErrorKind::NotFound => Ok(false),
            ErrorKind::OutOfMemory => Err(ToolFault::Memory),
            _ => Err(unusable(folder, error)),
        },
    }
}

/// The text that the file has before its LF, as far as it can be read; none where there is none.
pub(crate) fn text_in<R: Files<File = File> + AllocGlobal>(
    rt: &R,
    path: &str,
) -> Result<Option<Vec<u8>>, AllocError> {
    match file_bytes(rt, path, MOST_PROTOCOL) {
        Ok(mut found) => Ok(match found.pop() {
            Some(b'\n') => Some(found),
            _ => None,
        }),
        Err(error) if error.kind() == ErrorKind::OutOfMemory => Err(AllocError),
        Err(_) => Ok(None),
    }
}

/// The folder can't be used, for what the system says.
pub(crate) fn unusable<'a>(folder: &'a str, error: io::Error) -> ToolFault<'a>
    ensures { IsFolderFault folder.now result }
{
    ToolFault::File {
        name: folder,
        why: Some(error),
    }
}

// What the file has, or nothing where that is more than `most` bytes. Nothing but a file is opened, since a pipe might be
// waited for.
fn file_bytes<R: Files + AllocGlobal>(rt: &R, path: &str, most: u64) -> io::Result<Vec<u8>> {
    let about = fs::metadata(rt, path)?;
    if !about.is_file() {
        return Err(io::Error::from(ErrorKind::InvalidInput));
    }
    if about.len() > most {
        return Ok(Vec::new(rt.alloc()));
    }
    fs::read(rt, path)
}

/// Whether the path is the name of this file itself, and of no link to it.
pub(crate) fn names<R: OwnFiles>(rt: &R, path: &str, file: &File) -> io::Result<bool> {
    let named = rt.named_at(path)?;
    let opened = file.metadata()?;
    Ok(named.dev() == opened.dev() && named.ino() == opened.ino())
}

/// Opens a file of the folder to be read and added to, for its owner alone, and makes it where there is none. It has to be
/// the folder's owner's, and no link. Where the path doesn't name it any more once it is open, it isn't found.
pub(crate) fn open_own<R: OwnFiles>(rt: &R, folder: &str, path: &str) -> io::Result<File> {
    let named = rt.named_at(path);
    let is_new = named.is_err();
    // before it is opened, which would make the file that a link leads to
    if named.is_ok_and(|named| named.is_symlink()) {
        return Err(io::Error::from(ErrorKind::InvalidInput));
    }
    let mut options = File::options();
    options.read(true).append(true).create(true).mode(0o600);
    let file = rt.open_own(&options, path)?;
    let about = file.metadata()?;
    if !about.is_file() {
        return Err(io::Error::from(ErrorKind::InvalidInput));
    }
    if !names(rt, path, &file)? {
        return Err(io::Error::from(ErrorKind::NotFound));
    }
    if about.uid() != rt.found_at(folder)?.uid() {
        // so that one start as root shuts nobody out
        if is_new {
            rt.remove_own(path)?;
        }
        return Err(io::Error::from(ErrorKind::PermissionDenied));
    }
    Ok(file)
}

/// Has the disk store which files the folder has, and that it is in its parent.
pub(crate) fn sync_folders<R: Files<File = File>>(
    rt: &R,
    folder: &str,
    parent: &str,
) -> io::Result<()> {
    File::open(rt, folder)?.sync_all()?;
    File::open(rt, parent)?.sync_all()
}

/// The port of the recorder that the word of `--journal` names, `tcp:PORT`; none where it names a folder. Another word that
/// begins so is refused, since whoever wrote it wants no folder of that name.
pub(crate) fn recorder_of<'a>(folder: &'a str) -> Result<Option<u16>, ToolFault<'a>>
    ensures recorder { IfOk result (λ r. IfSome r (NamesRecorder folder.now)) }
    ensures folder { IfOk result (λ r. IfNone r ((rest : List ℕ) → folder.now ≢ codes "tcp:" ++ rest)) }
    ensures fault { IfErr result (IsFolderFault folder.now) }
{
    let Some(digits) = folder.as_bytes().strip_prefix(b"tcp:") else {
        return Ok(None);
    };
    match read_number(digits) {
        Some(port) if 1 <= port && port < 65_536 => Ok(Some(port as u16)),
        _ => Err(unusable(folder, io::Error::from(ErrorKind::InvalidInput))),
    }
}

/// What keeps a server's sessions: a folder, with those of its sessions that have begun, or the recorder at that port.
#[derive(Drop)]
pub(crate) enum Keeping {
    Folder(Begun),
    Recorder(u16),
}

impl Keeping {
    /// The recorder's port, if one keeps them.
    pub(crate) fn recorder(&self) -> Option<u16> {
        match self {
            Keeping::Folder(_) => None,
            Keeping::Recorder(port) => Some(*port),
        }
    }

    /// What has to be noted before the session's first entry is written; nothing where it has begun, or a recorder keeps it,
    /// which knows.
    pub(crate) fn note(&mut self, session: u64, unsynced: &Unsynced) -> io::Result<Option<Note>> {
        match self {
            Keeping::Folder(begun) => begun.note(session, unsynced),
            Keeping::Recorder(_) => Ok(None),
        }
    }

    /// Whether the session surely has no entry, so that its file can go.
    pub(crate) fn is_unbegun(&mut self, session: u64) -> bool {
        match self {
            Keeping::Folder(begun) => begun.has(session).is_ok_and(|has| !has),
            Keeping::Recorder(_) => false,
        }
    }
}

// What a line of the file `sessions` says of a session: that it has begun, or was removed after that.
fn noted(line: &[u8]) -> Option<(u64, bool)> {
    if let Some(number) = line.strip_suffix(b" begun") {
        return Some((read_number(number)?, true));
    }
    let number = line.strip_suffix(b" removed")?;
    Some((read_number(number)?, false))
}

/// The folder's file `sessions`: which of its sessions have begun, so that none is begun anew when its journal is gone. It
/// has a line for each that ever had an entry, `K begun`, and `K removed` where it was removed after that. Other processes
/// add to it too.
#[derive(Drop)]
pub(crate) struct Begun {
    alloc: Global,
    sessions: BTreeSet<u64>,
    file: File,
    // how many bytes of it were read
    read: u64,
    // the folder, where it is synced
    folder: Option<File>,
}

impl Begun {
    /// Opens the file, and reads what it has. Where it is said so, what it notes is synced.
    pub(crate) fn open<R: Files<File = File> + OwnFiles + AllocGlobal>(
        rt: &R,
        folder: &str,
        sync: bool,
    ) -> io::Result<Begun> {
        let path = format!(in rt.alloc(); "{folder}/sessions")?;
        let mut begun = Begun {
            alloc: rt.alloc(),
            sessions: BTreeSet::new(rt.alloc()),
            file: open_own(rt, folder, path.as_str())?,
            read: 0,
            folder: if sync {
                Some(File::open(rt, folder)?)
            } else {
                None
            },
        };
        begun.refresh()?;
        Ok(begun)
    }

    /// Waits until no other process has it locked, and locks it, or unlocks it.
    pub(crate) fn lock(&self, locked: bool) -> io::Result<()> {
        if locked {
            self.file.lock()
        } else {
            self.file.unlock()
        }
    }

    // Reads what was added, up to its last whole line. The newest line about a session holds.
    fn refresh(&mut self) -> io::Result<()> {
        let count = self.file.metadata()?.len().saturating_sub(self.read);
        if count == 0 {
            return Ok(());
        }
        if count > MOST_BEGUN {
            return Err(io::Error::from(ErrorKind::InvalidData));
        }
        let mut text = vec![in self.alloc; 0u8; count as usize]?;
        self.file.read_exact_at(text.as_mut_slice(), self.read)?;
        let Some(last) = text.iter().rposition(|byte| *byte == b'\n') else {
            return Ok(());
        };
        self.take(&text[..last])?;
        self.read = self.read.saturating_add(last as u64);
        Ok(())
    }

    // Takes up what these lines say.
    fn take(&mut self, text: &[u8]) -> Result<(), AllocError> {
        for line in text.split(|byte| *byte == b'\n') {
            match noted(line) {
                Some((session, true)) => {
                    let _is_new = self.sessions.insert(session)?;
                }
                Some((session, false)) => {
                    let _was_there = self.sessions.remove(&session);
                }
                None => {}
            }
        }
        Ok(())
    }

    // Whether the session has begun.
    fn has(&mut self, session: u64) -> io::Result<bool> {
        self.refresh()?;
        Ok(self.sessions.contains(&session))
    }

    // What has to be noted before the session's first entry is written; nothing where it has begun.
    fn note(&mut self, session: u64, unsynced: &Unsynced) -> io::Result<Option<Note>> {
        if self.has(session)? {
            return Ok(None);
        }
        // it begins a line of its own, since a write before it may have broken off
        let line = format!(in self.alloc; "\n{session} begun\n")?;
        let folder = match &self.folder {
            Some(folder) => Some(folder.try_clone()?),
            None => None,
        };
        Ok(Some(Note {
            sessions: self.file.try_clone()?,
            line,
            folder,
            unsynced: Arc::try_clone(unsynced)?,
        }))
    }
}
