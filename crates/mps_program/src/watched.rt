//! A script whose unreadable lines are told on standard error while it is read.
ghost use Rattle.std.specs.Prelude.{◌≡◌};
ghost use Rattle.mps_program.specs.Watched.{source_of};

use crate::flaws::flaw_of;
use mps_base::Roles;
use mps_dev::{Failed, Source};
use mps_lines::{Line, Lines};
use std::alloc::AllocError;

/// A source of a script's lines. Of each line that spells no command it tells the number, counted from 1, and why.
#[derive(Drop)]
pub struct Watched<'r, E, S> {
    rt: &'r E,
    roles: Roles,
    source: S,
    lines: Lines,
    // how many lines were looked at
    number: u64,
    // the last line that was read has no LF yet
    begun: bool,
    // memory ran out, and nothing more is told
    over: bool,
}

impl<'r, E: AllocGlobal + Eprint, S> Watched<'r, E, S> {
    /// Watches the source, of which nothing was read yet, whose lines are of these roles.
    pub fn new(rt: &'r E, roles: Roles, source: S) -> Watched<'r, E, S>
        ensures { source_of result ≡ source }
    {
        Watched {
            rt,
            roles,
            source,
            lines: Lines::new(rt.alloc()),
            number: 0,
            begun: false,
            over: false,
        }
    }

    /// Takes the source out again, as the last read left it.
    pub fn into_source(self) -> S
        ensures { result ≡ source_of self.entry }
    {
        let Watched { source, .. } = self;
        source
    }

    // Counts the line, and tells of it on standard error, if it is unreadable.
    fn look_at(&mut self, line: Line)
        ensures { source_of self.new ≡ source_of self.old }
    {
        // no script has so many lines that this wraps
        self.number = u64::wrapping_add(self.number, 1);
        if let Some(why) = flaw_of(self.rt.alloc(), &self.roles, &line) {
            let number = self.number;
            // a run goes on also where this can't be told
            let _told = eprintln!(self.rt; "line {number} is unreadable: {why}");
        }
    }

    // Looks at each line that these bytes end.
    fn look_on(&mut self, bytes: &[u8]) -> Result<(), AllocError>
        ensures { source_of self.new ≡ source_of self.old }
    {
        self.lines.feed(bytes)?;
        // they end no more lines than they have bytes
        for _ in bytes {
            match self.lines.next_line()? {
                Some(line) => self.look_at(line),
                None => return Ok(()),
            }
        }
        Ok(())
    }

    // Looks at what was read, as long as there is memory for it. Where that is nothing, at the end, a last line without
    // an LF is looked at too.
    fn watch(&mut self, bytes: &[u8])
        ensures { source_of self.new ≡ source_of self.old }
    {
        // at the end the LF that a last line lacks
        let bytes = if bytes.is_empty() && self.begun {
            b"\n".as_slice()
        } else {
            bytes
        };
        if let Some(&last) = bytes.last() {
            self.begun = last != b'\n';
        }
        if !self.over {
            self.over = self.look_on(bytes).is_err();
        }
    }
}

impl<'r, E: AllocGlobal + Eprint, S: Source> Source for Watched<'r, E, S> {
    ghost remaining = { λ w. S.remaining (source_of w) };

    ghost calls = { λ w. S.calls (source_of w) };

    ghost failed_calls = { λ w. S.failed_calls (source_of w) };

    ghost ends = { λ w. S.ends (source_of w) };

    ghost fewer_failed = { λ w. S.fewer_failed (source_of w) };

    // Reads from the source, and looks at what was read. To read nothing into an empty buffer is no end.
    fn read(&mut self, buf: &mut [u8]) -> Result<usize, Failed> {
        let count = self.source.read(buf)?;
        if !buf.is_empty() {
            self.watch(&buf[..count]);
        }
        Ok(count)
    }
}
