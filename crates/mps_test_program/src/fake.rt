//! What the tests of this crate share: a machine in memory, its files, and what a program prints on it.
ghost use Rattle.std.specs.Io.{ReadsAtMost, WritesAtMost};
ghost use Rattle.std.specs.Prelude.{◌≤◌, length, IfOk};

use std::alloc::{Allocator, Global};
use std::cell::RefCell;
use std::fmt::Display;
use std::fs::{FileTimes, Metadata, OpenFile, OpenOptions, Permissions};
use std::io::{
    self, BufRead, Cursor, Eprint, Error, ErrorKind, Input, Lines, PipeReader, PipeWriter, Print,
    Read, Seek, SeekFrom, Write,
};
use std::os::fd::BorrowedFd;
use std::os::unix::net::SocketAddr;
use std::path::PathBuf;
use std::rt::Files;

/// Files by name with their texts, what was printed, and what was told on the standard error. The
/// file `torn` opens and can't be read, and that of the name `-` is the standard input.
#[derive(Drop)]
pub struct Machine<'a> {
    alloc: Global,
    files: &'a [(&'a str, &'a str)],
    room: usize,
    printed: RefCell<Vec<u8>>,
    told: RefCell<Vec<u8>>,
}

impl<'a> Machine<'a> {
    /// With these files, and room for so many printed bytes.
    pub fn new(alloc: Global, files: &'a [(&'a str, &'a str)], room: usize) -> Machine<'a> {
        Machine {
            alloc,
            files,
            room,
            printed: RefCell::new(Vec::new(alloc)),
            told: RefCell::new(Vec::new(alloc)),
        }
    }

    /// What was printed, and what was told on the standard error.
    pub fn output(self) -> (Vec<u8>, Vec<u8>) {
        let Machine { printed, told, .. } = self;
        (printed.into_inner(), told.into_inner())
    }
}

fn unsupported() -> Error {
    Error::from(ErrorKind::Unsupported)
}

/// A file that is read. Of one that is torn each read fails.
#[derive(Drop)]
pub struct Text<'a> {
    bytes: Cursor<&'a [u8]>,
    torn: bool,
}

impl Read for Text<'_> {
    fn read(&mut self, buf: &mut [u8]) -> io::Result<usize> {
        if self.torn {
            return Err(unsupported());
        }
        self.bytes.read(buf)
    }
}

impl Write for Text<'_> {
    fn write(&mut self, _buf: &[u8]) -> io::Result<usize> {
        Err(unsupported())
    }

    fn flush(&mut self) -> io::Result<()> {
        Err(unsupported())
    }
}

impl Seek for Text<'_> {
    fn seek(&mut self, _to: SeekFrom) -> io::Result<u64> {
        Err(unsupported())
    }
}

impl OpenFile for Text<'_> {
    fn metadata(&self) -> io::Result<Metadata> {
        Err(unsupported())
    }

    fn set_len(&self, _size: u64) -> io::Result<()> {
        Err(unsupported())
    }

    fn sync_all(&self) -> io::Result<()> {
        Err(unsupported())
    }

    fn sync_data(&self) -> io::Result<()> {
        Err(unsupported())
    }

    fn set_permissions(&self, _perm: Permissions) -> io::Result<()> {
        Err(unsupported())
    }

    fn set_times(&self, _times: FileTimes) -> io::Result<()> {
        Err(unsupported())
    }
}

impl<'a> Files for Machine<'a> {
    type File = Text<'a>;

    type Dir = Text<'a>;

    fn open_file(&self, _how: &OpenOptions, path: &str) -> io::Result<Text<'a>> {
        for (name, text) in self.files {
            if *name == path {
                let bytes = Cursor::new(text.as_bytes());
                let torn = *name == "torn";
                return Ok(Text { bytes, torn });
            }
        }
        Err(Error::from(ErrorKind::NotFound))
    }

    fn open_dir(&self, _path: &str) -> io::Result<Text<'a>> {
        Err(unsupported())
    }

    fn metadata(&self, _path: &str) -> io::Result<Metadata> {
        Err(unsupported())
    }

    fn symlink_metadata(&self, _path: &str) -> io::Result<Metadata> {
        Err(unsupported())
    }

    fn copy(&self, _from: &str, _to: &str) -> io::Result<u64> {
        Err(unsupported())
    }

    fn rename(&self, _from: &str, _to: &str) -> io::Result<()> {
        Err(unsupported())
    }

    fn remove_file(&self, _path: &str) -> io::Result<()> {
        Err(unsupported())
    }

    fn create_dir(&self, _path: &str) -> io::Result<()> {
        Err(unsupported())
    }

    fn remove_dir(&self, _path: &str) -> io::Result<()> {
        Err(unsupported())
    }

    fn remove_dir_all<B: Allocator>(&self, _alloc: B, _path: &str) -> io::Result<()> {
        Err(unsupported())
    }

    // what follows is unsupported by itself too, but takes longer to prove then

    fn canonicalize<B: Allocator>(&self, _alloc: B, _path: &str) -> io::Result<PathBuf<B>> {
        Err(unsupported())
    }

    fn read_link<B: Allocator>(&self, _alloc: B, _path: &str) -> io::Result<PathBuf<B>> {
        Err(unsupported())
    }

    fn hard_link(&self, _original: &str, _link: &str) -> io::Result<()> {
        Err(unsupported())
    }

    fn set_permissions(&self, _path: &str, _perm: Permissions) -> io::Result<()> {
        Err(unsupported())
    }

    fn symlink(&self, _original: &str, _link: &str) -> io::Result<()> {
        Err(unsupported())
    }

    fn pipe(&self) -> io::Result<(PipeReader, PipeWriter)> {
        Err(unsupported())
    }

    fn chown(&self, _path: &str, _uid: Option<u32>, _gid: Option<u32>) -> io::Result<()> {
        Err(unsupported())
    }

    fn lchown(&self, _path: &str, _uid: Option<u32>, _gid: Option<u32>) -> io::Result<()> {
        Err(unsupported())
    }

    fn create_dir_with_mode(&self, _path: &str, _mode: u32) -> io::Result<()> {
        Err(unsupported())
    }

    fn bind_unix(&self, _socket: BorrowedFd<'_>, _addr: &SocketAddr) -> io::Result<()> {
        Err(unsupported())
    }
}

impl Alloc for Machine<'_> {
    type A = Global;

    fn alloc(&self) -> Global {
        self.alloc
    }
}

impl<'a> Input for Machine<'a> {
    type Reader = Cursor<&'a [u8]>;

    fn read_line<A: Allocator + Clone>(&self, _buf: &mut String<A>) -> io::Result<usize> {
        Err(unsupported())
    }

    fn lines<A: Allocator>(&self, alloc: A) -> Lines<Cursor<&'a [u8]>, A> {
        self.reader().lines(alloc)
    }

    fn reader(&self) -> Cursor<&'a [u8]> {
        for (name, text) in self.files {
            if *name == "-" {
                return Cursor::new(text.as_bytes());
            }
        }
        Cursor::new(&[])
    }
}

// Puts the value and the end after what is there.
fn put<D: Display + Drop>(
    alloc: Global,
    to: &RefCell<Vec<u8>>,
    value: D,
    end: &str,
) -> io::Result<()> {
    let text = format!(in alloc; "{value}{end}")?;
    match to.try_borrow_mut() {
        Ok(mut bytes) => Ok(bytes.extend_from_slice(text.as_bytes())?),
        Err(_) => Err(unsupported()),
    }
}

impl Print for Machine<'_> {
    fn print<D: Display + Drop>(&self, value: D) -> io::Result<()> {
        put(self.alloc, &self.printed, value, "")
    }

    fn println<D: Display + Drop>(&self, value: D) -> io::Result<()> {
        put(self.alloc, &self.printed, value, "\n")
    }

    fn write_all(&self, bytes: &[u8]) -> io::Result<()> {
        match self.printed.try_borrow_mut() {
            Ok(mut printed) if bytes.len() <= self.room => Ok(printed.extend_from_slice(bytes)?),
            _ => Err(unsupported()),
        }
    }
}

impl Eprint for Machine<'_> {
    fn eprint<D: Display + Drop>(&self, value: D) -> io::Result<()> {
        put(self.alloc, &self.told, value, "")
    }

    fn eprintln<D: Display + Drop>(&self, value: D) -> io::Result<()> {
        put(self.alloc, &self.told, value, "\n")
    }
}
