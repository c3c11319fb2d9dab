//! The files of recorded sessions, as the threads of sessions open them.

use std::fs::{File, Metadata, OpenOptions};
use std::{fs, io};

/// What the threads of sessions do with the files of a folder, by the path: they are opened, looked at and removed. Of std's
/// `Files` threads can't have any implementation, since the files that it opens needn't be such as cross threads.
pub trait OwnFiles {
    /// Opens the file as the options say.
    fn open_own(&self, options: &OpenOptions, path: &str) -> io::Result<File>;

    /// What the path names, and not what a link there leads to.
    fn named_at(&self, path: &str) -> io::Result<Metadata>;

    /// What a link at the path leads to, or else what the path names.
    fn found_at(&self, path: &str) -> io::Result<Metadata>;

    /// Removes the file.
    fn remove_own(&self, path: &str) -> io::Result<()>;
}

impl OwnFiles for HostRuntime {
    fn open_own(&self, options: &OpenOptions, path: &str) -> io::Result<File> {
        options.open(self, path)
    }

    fn named_at(&self, path: &str) -> io::Result<Metadata> {
        fs::symlink_metadata(self, path)
    }

    fn found_at(&self, path: &str) -> io::Result<Metadata> {
        fs::metadata(self, path)
    }

    fn remove_own(&self, path: &str) -> io::Result<()> {
        fs::remove_file(self, path)
    }
}
