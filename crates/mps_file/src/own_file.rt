//! The file of a journal, however it was opened, or what keeps the journal in a file's place.
ghost use Rattle.std.specs.Prelude.{◌≤◌, IfOk, length};

use crate::descriptor::Descriptor;
use crate::recorder::RecorderStream;
use std::fs::File;
use std::io;
use std::io::{ErrorKind, Read, Write};
use std::os::unix::fs::{FileExt, MetadataExt};

// How often a call is tried again that a signal interrupts.
const INTERRUPTS: u64 = 1_000;

/// An open file: one of std, as a server opens it, or one by its descriptor, as a room in a caller's own process does. Or a
/// recorder, which keeps a journal as a file would.
#[derive(Drop)]
pub enum OwnFile {
    Std(File),
    Raw(Descriptor),
    Recorder(RecorderStream),
}

// What a recorder isn't asked to do.
fn unsupported<T>() -> io::Result<T>
    ensures { IfOk result (λ _. ⊥) }
{
    Err(io::Error::from(ErrorKind::Unsupported))
}

impl OwnFile {
    /// Whether it has a name still.
    pub fn has_name(&self) -> io::Result<bool> {
        match self {
            OwnFile::Std(file) => Ok(file.metadata()?.nlink() > 0),
            OwnFile::Raw(file) => file.has_name(),
            OwnFile::Recorder(_) => Ok(true),
        }
    }

    /// Whether whoever keeps it says that it had nothing before: a recorder does. A file that has nothing may have been lost.
    pub fn is_known_new(&self) -> bool {
        match self {
            OwnFile::Std(_) | OwnFile::Raw(_) => false,
            OwnFile::Recorder(recorder) => recorder.given() == 0,
        }
    }

    /// Whether a recorder keeps it.
    pub fn is_recorder(&self) -> bool {
        matches!(self, OwnFile::Recorder(_))
    }

    /// Asks whether what was written is here still. Of a file that is so, since it is locked; a recorder may have handed the
    /// session over to another server.
    pub fn confirm(&self) -> io::Result<()> {
        match self {
            OwnFile::Std(_) | OwnFile::Raw(_) => Ok(()),
            OwnFile::Recorder(recorder) => recorder.confirm(),
        }
    }

    /// How many bytes it has; of a recorder, how many it gave.
    pub fn len(&self) -> io::Result<u64> {
        match self {
            OwnFile::Std(file) => Ok(file.metadata()?.len()),
            OwnFile::Raw(file) => file.len(),
            OwnFile::Recorder(recorder) => Ok(recorder.given()),
        }
    }

    /// Cuts it to so many bytes.
    pub fn set_len(&self, len: u64) -> io::Result<()> {
        match self {
            OwnFile::Std(file) => file.set_len(len),
            OwnFile::Raw(file) => file.set_len(len),
            OwnFile::Recorder(_) => unsupported(),
        }
    }

    /// Has the disk store all of it. Of what a recorder keeps nothing else has to be stored than what `sync_data` stores.
    pub fn sync_all(&self) -> io::Result<()> {
        match self {
            OwnFile::Std(file) => file.sync_all(),
            OwnFile::Raw(file) => file.sync_all(),
            OwnFile::Recorder(_) => Ok(()),
        }
    }

    /// Has the disk store its bytes, and as much else as is needed to read them.
    pub fn sync_data(&self) -> io::Result<()> {
        match self {
            OwnFile::Std(file) => file.sync_data(),
            OwnFile::Raw(file) => file.sync_data(),
            OwnFile::Recorder(recorder) => recorder.confirm(),
        }
    }

    /// The folder that has it, where it was opened by its descriptor: those of files of std a server sees to.
    pub fn folder(&self) -> io::Result<Option<Descriptor>> {
        match self {
            OwnFile::Std(_) | OwnFile::Recorder(_) => Ok(None),
            OwnFile::Raw(file) => Ok(Some(file.folder()?)),
        }
    }

    // Reads once at that place.
    fn read_at(&self, buf: &mut [u8], at: u64) -> io::Result<usize>
        ensures { IfOk result (λ n. n ≤ length buf.new) }
    {
        match self {
            OwnFile::Std(file) => file.read_at(buf, at),
            OwnFile::Raw(file) => file.read_at(buf, at),
            OwnFile::Recorder(_) => unsupported(),
        }
    }

    /// Fills the buffer with what stands at that place. Where less stands there it fails by `UnexpectedEof`.
    pub fn read_exact_at(&self, buf: &mut [u8], at: u64) -> io::Result<()> {
        let mut filled = 0;
        for _ in 0..u64::MAX {
            if filled >= buf.len() {
                return Ok(());
            }
            match self.read_at(&mut buf[filled..], at.saturating_add(filled as u64)) {
                Ok(0) => return Err(io::Error::from(ErrorKind::UnexpectedEof)),
                Ok(n) => filled += n,
                Err(why) if why.kind() == ErrorKind::Interrupted => {}
                Err(why) => return Err(why),
            }
        }
        Err(io::Error::from(ErrorKind::Interrupted))
    }

    // Reads once.
    fn read_once(&self, buf: &mut [u8]) -> io::Result<usize>
        ensures { IfOk result (λ n. n ≤ length buf.new) }
    {
        match self {
            OwnFile::Std(file) => read_std(file, buf),
            OwnFile::Raw(file) => read_raw(file, buf),
            OwnFile::Recorder(recorder) => recorder.read_once(buf),
        }
    }

    // Writes once.
    fn write_once(&self, buf: &[u8]) -> io::Result<usize>
        ensures { IfOk result (λ n. n ≤ length buf.now) }
    {
        match self {
            OwnFile::Std(file) => {
                let mut file = file;
                file.write(buf)
            }
            OwnFile::Raw(file) => {
                let mut file = file;
                file.write(buf)
            }
            OwnFile::Recorder(recorder) => recorder.write_once(buf),
        }
    }
}

// Reads once from the file of std. Apart from `read_once`, as `read_raw`, so that each has one borrow of the buffer.
fn read_std(file: &File, buf: &mut [u8]) -> io::Result<usize>
    ensures { IfOk result (λ n. n ≤ length buf.new) }
{
    let mut file = file;
    file.read(buf)
}

fn read_raw(file: &Descriptor, buf: &mut [u8]) -> io::Result<usize>
    ensures { IfOk result (λ n. n ≤ length buf.new) }
{
    let mut file = file;
    file.read(buf)
}

impl Read for &OwnFile {
    // Reads once, and again where a signal interrupts it.
    fn read(&mut self, buf: &mut [u8]) -> io::Result<usize> {
        for _ in 0..INTERRUPTS {
            match self.read_once(buf) {
                Err(why) if why.kind() == ErrorKind::Interrupted => {}
                read => return read,
            }
        }
        self.read_once(buf)
    }
}

impl Write for &OwnFile {
    // Writes once, and again where a signal interrupts it.
    fn write(&mut self, buf: &[u8]) -> io::Result<usize> {
        for _ in 0..INTERRUPTS {
            match self.write_once(buf) {
                Err(why) if why.kind() == ErrorKind::Interrupted => {}
                written => return written,
            }
        }
        self.write_once(buf)
    }

    fn flush(&mut self) -> io::Result<()> {
        Ok(())
    }
}
