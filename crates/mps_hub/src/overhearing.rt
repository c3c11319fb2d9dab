//! Connections whose lines and answers are heard by who watches the server.

use crate::patience::RetryingWriter;
use mps_watch::{Ear, Side, Watch};
use std::alloc::{AllocError, Global};
use std::io;
use std::io::{ErrorKind, Write};
use std::net::TcpStream;
use std::sync::Arc;

/// Who watches a server's connections, if somebody does.
#[derive(Drop)]
pub struct Watcher {
    watch: Option<Arc<Watch, Global>>,
}

impl Watcher {
    /// Nobody.
    pub fn nobody() -> Watcher {
        Watcher { watch: None }
    }

    /// Whoever that is. It fails only when out of memory.
    pub fn of(watch: &Arc<Watch, Global>) -> Result<Watcher, AllocError> {
        Ok(Watcher {
            watch: Some(Arc::try_clone(watch)?),
        })
    }

    /// The same once more. It fails only when out of memory.
    pub fn shared(&self) -> Result<Watcher, AllocError> {
        match &self.watch {
            Some(watch) => Watcher::of(watch),
            None => Ok(Watcher::nobody()),
        }
    }

    // What they see, if somebody does.
    pub(crate) fn watch(&self) -> Option<&Watch> {
        match &self.watch {
            Some(watch) => Some(watch),
            None => None,
        }
    }
}

/// Who hears the lines of a connection that came, and who hears its answers, if somebody does. Its first line is in front of what was
/// read ahead, if that is anything.
pub(crate) fn ears<'w, R: Eprint>(
    rt: &'w R,
    watch: Option<&'w Watch>,
    ahead: &[u8],
) -> (Option<Ear<'w, R>>, Option<Ear<'w, R>>) {
    let Some(watch) = watch else {
        return (None, None);
    };
    let number = watch.came();
    let mut answers = Ear::new(rt, watch, number, Side::Answers);
    answers.asked(ahead);
    if watch.tells_lines() {
        (
            Some(Ear::new(rt, watch, number, Side::Lines)),
            Some(answers),
        )
    } else {
        (None, Some(answers))
    }
}

/// A connection's stream, to be written to, of which the answers are heard.
#[derive(Drop)]
pub(crate) struct HeardWriter<'s, R> {
    stream: &'s TcpStream,
    ear: Option<Ear<'s, R>>,
    // whether an answer wasn't taken in its time
    untaken: bool,
}

impl<'s, R> HeardWriter<'s, R> {
    // A writer to that stream.
    pub(crate) fn new(stream: &'s TcpStream, ear: Option<Ear<'s, R>>) -> HeardWriter<'s, R> {
        HeardWriter {
            stream,
            ear,
            untaken: false,
        }
    }

    // Who heard the answers, and whether one wasn't taken in its time.
    pub(crate) fn into_ear(self) -> (Option<Ear<'s, R>>, bool) {
        let HeardWriter {
            stream: _,
            ear,
            untaken,
        } = self;
        (ear, untaken)
    }
}

impl<R: Eprint> Write for HeardWriter<'_, R> {
    fn write(&mut self, buf: &[u8]) -> io::Result<usize> {
        let mut writer = RetryingWriter {
            stream: self.stream,
        };
        let written = writer.write(buf);
        if let Err(error) = &written {
            self.untaken = matches!(error.kind(), ErrorKind::WouldBlock | ErrorKind::TimedOut);
        }
        let count = written?;
        if let (Some(ear), Some(written)) = (&mut self.ear, buf.get(..count)) {
            ear.hear(written);
        }
        Ok(count)
    }

    fn flush(&mut self) -> io::Result<()> {
        let mut stream = self.stream;
        stream.flush()
    }
}
