//! Files by their descriptors. Those of std need the runtime to be opened, which a library for C has no part in.
ghost use Rattle.std.specs.Prelude.{◌≤◌, IfOk, length};
ghost use Rattle.std.specs.Io.{ReadsAtMost, WritesAtMost};
ghost use Rattle.libc.specs.Io.{Moved};

use std::io;
use std::io::{ErrorKind, Read, Write};

// How often a call is tried again that a signal interrupts.
const INTERRUPTS: u64 = 1_000;

// How often a file is made again that another process removed before it was locked.
const REMOVALS: u64 = 100;

// How a journal is opened: to be read and added to.
const READ_AND_ADD: i32 = libc::O_RDWR | libc::O_APPEND;

// Who may read and write a file that is made: its owner.
const OWNERS_MODE: u32 = 0o600;

// What the system says of a file's name behind the name that it had.
const REMOVED: &[u8] = b" (deleted)";

// Where the system tells what its descriptors are.
const OPEN_FILES: &[u8] = b"/proc/self/fd/";

// How many bytes such a path has at most: a number of 32 bits has at most 10 digits.
const PATH_BYTES: usize = 24;

/// An open file. It is closed where it is dropped.
#[derive(Debug)]
pub struct Descriptor {
    fd: i32,
}

// What the system said last.
fn newest_error() -> io::Error {
    io::Error::from_raw_os_error(os::errno())
}

// What a call came to that answers 0, or -1.
fn done(status: i32) -> io::Result<()> {
    if status < 0 {
        return Err(newest_error());
    }
    Ok(())
}

// How many bytes a call moved, of so many at most, which answers -1 where it fails.
fn count(moved: isize, most: usize) -> io::Result<usize>
    requires { Moved most moved }
    ensures { IfOk result (λ n. n ≤ most) }
{
    if moved < 0 {
        return Err(newest_error());
    }
    Ok(moved as usize)
}

// A call on an open file that answers 0, or -1.
#[derive(Clone, Copy)]
enum Call {
    Cut(i64),
    SyncAll,
    SyncData,
    Lock,
}

impl Call {
    // Makes it on that descriptor.
    fn make(self, fd: i32) -> io::Result<()> {
        done(match self {
            Call::Cut(len) => libc::ftruncate(fd, len),
            Call::SyncAll => libc::fsync(fd),
            Call::SyncData => libc::fdatasync(fd),
            Call::Lock => libc::flock(fd, libc::LOCK_EX | libc::LOCK_NB),
        })
    }
}

// The path by which the system tells what the descriptor of that number is, and its length. Without an allocation, since a
// line would be lost where there was no memory for it.
fn path_of(fd: i32) -> ([u8; PATH_BYTES], usize)
    ensures { result.1 ≤ length result.0 }
{
    let mut path = [0u8; PATH_BYTES];
    path[..OPEN_FILES.len()].copy_from_slice(OPEN_FILES);
    let mut digits = itoa::Buffer::new();
    let digits = digits.format(fd.unsigned_abs()).as_bytes();
    let end = OPEN_FILES.len() + digits.len();
    path[OPEN_FILES.len()..end].copy_from_slice(digits);
    (path, end)
}

// Where a link at the path leads, in a buffer, and its length there; or why there is none.
fn read_link(path: &[u8], found: &mut [u8; libc::PATH_MAX]) -> io::Result<usize>
    ensures { IfOk result (λ n. n ≤ length found.new) }
{
    let moved = os::readlink(path, found);
    count(moved, found.len())
}

// Fails where the path is a link.
fn refuse_link(path: &[u8]) -> io::Result<()> {
    match read_link(path, &mut [0u8; libc::PATH_MAX]) {
        Ok(_) => Err(io::Error::from_raw_os_error(libc::ELOOP)),
        Err(_) => Ok(()),
    }
}

// The folder of that file.
fn folder_of(path: &[u8]) -> &[u8] {
    match path.iter().rposition(|byte| *byte == b'/') {
        Some(0) => b"/",
        Some(end) => &path[..end],
        None => b".",
    }
}

impl Descriptor {
    // What the system opened, or why it did not.
    fn opened(fd: i32) -> io::Result<Descriptor> {
        done(fd)?;
        Ok(Descriptor { fd })
    }

    /// Opens a file or a folder to be read.
    pub fn open_to_read(path: &[u8]) -> io::Result<Descriptor> {
        Descriptor::opened(os::open_read(path))
    }

    // Opens what is to be read and added to, which has to be no link. Where there is none it is made, for its owner alone.
    fn open_unlocked(path: &[u8]) -> io::Result<Descriptor> {
        // before it is opened, which would make the file that a link leads to
        refuse_link(path)?;
        Descriptor::opened(os::open_with(path, READ_AND_ADD | libc::O_CREAT, OWNERS_MODE))
    }

    /// Opens a file to be read and added to, and locks it as long as it is open: it may be the file of another room. It has to
    /// be a file, and no link; where there is none it is made, for its owner alone.
    pub fn open_to_add(path: &[u8]) -> io::Result<Descriptor> {
        let file = Descriptor::open_unlocked(path)?;
        file.call(Call::Lock)?;
        file.refuse_what_is_no_file()?;
        Ok(file)
    }

    // Fails where it is no file: only a file can be cut, to where it ends. Nobody else may write it meanwhile.
    fn refuse_what_is_no_file(&self) -> io::Result<()> {
        self.set_len(self.len()?)
    }

    // The name that it has, as the system knows it, in a buffer, and its length there.
    fn name(&self, found: &mut [u8; libc::PATH_MAX]) -> io::Result<usize>
        ensures { IfOk result (λ n. n ≤ length found.new) }
    {
        let (path, end) = path_of(self.fd);
        read_link(&path[..end], found)
    }

    /// Whether it has a name still.
    pub fn has_name(&self) -> io::Result<bool> {
        let mut found = [0u8; libc::PATH_MAX];
        let length = self.name(&mut found)?;
        Ok(!found[..length].ends_with(REMOVED))
    }

    /// The folder that has it.
    pub fn folder(&self) -> io::Result<Descriptor> {
        let mut found = [0u8; libc::PATH_MAX];
        let length = self.name(&mut found)?;
        Descriptor::open_to_read(folder_of(&found[..length]))
    }

    // Whether the path is its name, and leads to it by no link. A file whose name ends as that of one that was removed can't be
    // told from such a one, and is refused.
    fn is_at(&self, path: &[u8]) -> io::Result<bool> {
        let mut found = [0u8; libc::PATH_MAX];
        let length = self.name(&mut found)?;
        let mut whole = [0u8; libc::PATH_MAX];
        match done(os::realpath(path, &mut whole)) {
            Err(why) if why.kind() == ErrorKind::NotFound => return Ok(false),
            is_there => is_there?,
        }
        let end = os::name_length(&whole);
        refuse_link(path)?;
        if whole[..end].ends_with(REMOVED) {
            return Err(io::Error::from_raw_os_error(libc::EINVAL));
        }
        Ok(found[..length] == whole[..end])
    }

    /// The file at the path, as `open_to_add` opens it, locked as long as it is open. Where another process, or another room,
    /// has it locked this fails by `WouldBlock`.
    pub fn open_locked(path: &[u8]) -> io::Result<Descriptor> {
        for _ in 0..REMOVALS {
            let file = Descriptor::open_unlocked(path)?;
            file.call(Call::Lock)?;
            // another process may have removed it by then
            if file.is_at(path)? {
                file.refuse_what_is_no_file()?;
                return Ok(file);
            }
        }
        Err(io::Error::from_raw_os_error(libc::ENOENT))
    }

    // Makes the call, and again where a signal interrupts it.
    fn call(&self, call: Call) -> io::Result<()> {
        for _ in 0..INTERRUPTS {
            match call.make(self.fd) {
                Err(why) if why.kind() == ErrorKind::Interrupted => {}
                result => return result,
            }
        }
        call.make(self.fd)
    }

    /// How many bytes it has. Reads begin at its start after this.
    pub fn len(&self) -> io::Result<u64> {
        let end = libc::lseek(self.fd, 0, libc::SEEK_END);
        let start = libc::lseek(self.fd, 0, libc::SEEK_SET);
        match u64::try_from(end) {
            Ok(len) if start == 0 => Ok(len),
            _ => Err(newest_error()),
        }
    }

    /// Cuts it to so many bytes.
    pub fn set_len(&self, len: u64) -> io::Result<()> {
        match i64::try_from(len) {
            Ok(len) => self.call(Call::Cut(len)),
            Err(_) => Err(io::Error::from(ErrorKind::InvalidInput)),
        }
    }

    /// Has the disk store all of it.
    pub fn sync_all(&self) -> io::Result<()> {
        self.call(Call::SyncAll)
    }

    /// Has the disk store its bytes, and as much else as is needed to read them.
    pub fn sync_data(&self) -> io::Result<()> {
        self.call(Call::SyncData)
    }

    /// Reads once at that place.
    pub fn read_at(&self, buf: &mut [u8], at: u64) -> io::Result<usize>
        ensures { IfOk result (λ n. n ≤ length buf.new) }
    {
        let Ok(at) = i64::try_from(at) else {
            return Err(io::Error::from(ErrorKind::InvalidInput));
        };
        let moved = libc::pread(self.fd, buf, at);
        count(moved, buf.len())
    }
}

impl Drop for Descriptor {
    fn drop(self) {
        let Descriptor { fd } = self;
        let _closed = libc::close(fd);
    }
}

impl Read for &Descriptor {
    // Reads once; a read that a signal interrupts is the caller's to try again.
    fn read(&mut self, buf: &mut [u8]) -> io::Result<usize> {
        let moved = libc::read(self.fd, buf);
        count(moved, buf.len())
    }
}

impl Write for &Descriptor {
    // Writes once.
    fn write(&mut self, buf: &[u8]) -> io::Result<usize> {
        let moved = libc::write(self.fd, buf);
        count(moved, buf.len())
    }

    fn flush(&mut self) -> io::Result<()> {
        Ok(())
    }
}
