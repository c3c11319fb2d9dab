//! A line at a terminal that tells how far the restoring is.

use std::time::{Clock, Instant};

// For how many milliseconds nothing is told.
const SHORT: u64 = 1_000;

/// So many sessions that are restored one after the other: a terminal at standard error is told from a second on how many are
/// done, and how fast.
#[derive(Drop)]
pub(crate) struct Progress<'r, R> {
    rt: &'r R,
    sessions: u64,
    began: Option<Instant>,
    is_shown: bool,
}

impl<'r, R: Clock + Eprint> Progress<'r, R> {
    /// None is done yet.
    pub(crate) fn new(rt: &'r R, sessions: u64) -> Progress<'r, R> {
        let began = if libc::isatty(libc::STDERR_FILENO) == 1 {
            Instant::now(rt).ok()
        } else {
            None
        };
        Progress {
            rt,
            sessions,
            began,
            is_shown: false,
        }
    }

    // For how many milliseconds that has taken, where it is told.
    fn time(&self) -> Option<u64> {
        let began = self.began?;
        let now = Instant::now(self.rt).ok()?;
        let time = now.saturating_duration_since(began);
        Some(
            time.as_secs()
                .saturating_mul(1_000)
                .saturating_add(time.subsec_millis() as u64),
        )
    }

    /// So many are done, and the next is begun.
    pub(crate) fn tell(&mut self, done: u64) {
        let Some(time) = self.time() else {
            return;
        };
        if time < SHORT {
            return;
        }
        let (all, seconds) = (self.sessions, time / 1_000);
        let rate = done.saturating_mul(1_000) / time;
        let _told = eprint!(self.rt;
            "{done} of {all} sessions restored, {rate} a second, {seconds} s"
        );
        self.is_shown = true;
    }

    /// Takes back what was told, so that something else can be.
    pub(crate) fn clear(&mut self) {
        if self.is_shown {
            let _told = eprint!(self.rt; "\r\x1b[K");
            self.is_shown = false;
        }
    }
}
