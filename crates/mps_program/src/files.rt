//! The files: opening one, reading a text to its end, and writing one.
ghost use Rattle.std.specs.Prelude.{◌≡◌, ◌+◌, ◌<◌, ◌≤◌, ◌^◌, ◌++◌, ℕ, List, length, Ok, Err, IfOk, IfErr, OnErr, OnOk};
ghost use Rattle.mps_dev.specs.Standard.{calls_of};
ghost use Rattle.std.specs.Io.KnownBytes.{Appends, Consumes, IsAtEnd};
ghost use Rattle.mps_program.specs.Faults.{IsFileFault, IsReadFault, IsSameButForReads, after_writes, told_with};
ghost use Rattle.mps_program.specs.Files.{HasReadAtMost, longest, most_read};
ghost use Rattle.mps_program.specs.declared.faults.ToolFault.TheVariants.{Write as NotWritten};
ghost use Rattle.mps_wire.specs.Sending.{TookFront};

use crate::faults::{ToolFault, with_reason};
use mps_dev::{OverRead, Sink, Source};
use mps_text::MAX_TEXT_BYTES;
use mps_wire::sending::send_all;
use std::alloc::Global;
use std::fs::File;
use std::io::Read;
use std::os::fd::AsRawFd;
use std::rt::Files;
use std::{fs, io};

// How many standard streams a process has. They have the descriptors from 0 on.
const STANDARD_STREAMS: i32 = 3;

// The name by which a script is the standard input.
const STANDARD_INPUT: &str = "-";

// Opens `/`, and keeps it if it gets the descriptor of a standard stream, which was closed then. It can neither be read
// nor written.
fn placeholder<R: Files<File = File>>(rt: &R) -> Option<File> {
    let root = File::open(rt, "/").ok()?;
    if root.as_raw_fd() < STANDARD_STREAMS {
        Some(root)
    } else {
        None
    }
}

/// Takes the descriptors of the standard streams that are closed, as long as what is given lives. The system gives the
/// lowest that is free, so a file or a connection would get them else, and what is printed would go there.
pub(crate) fn closed_streams<R: Files<File = File>>(rt: &R) -> [Option<File>; 3] {
    [placeholder(rt), placeholder(rt), placeholder(rt)]
}

// Opens the file of that name. The fault has the name and what the system says.
fn opened<'a, R: Files>(rt: &R, name: &'a str) -> Result<R::File, ToolFault<'a>>
    ensures fault { IfErr result (IsFileFault name.now) }
{
    match fs::open(rt, name) {
        Ok(file) => Ok(file),
        Err(why) => Err(ToolFault::File {
            name,
            why: Some(why),
        }),
    }
}

/// A script that is read: a file, or the standard input.
#[derive(Drop)]
pub(crate) enum Script<F, I> {
    File(F),
    Input(I),
}

impl<F: Read, I: Read> Read for Script<F, I> {
    // Reads from the file, or from the standard input.
    fn read(&mut self, buf: &mut [u8]) -> io::Result<usize> {
        match self {
            Script::File(file) => file.read(buf),
            Script::Input(input) => input.read(buf),
        }
    }
}

/// A reader that keeps what the system said of its newest failed read.
#[derive(Drop)]
pub struct Noted<R> {
    reader: R,
    why: Option<io::Error>,
}

impl<R> Noted<R> {
    // A reader of which no read has failed yet.
    fn new(reader: R) -> Noted<R> {
        Noted { reader, why: None }
    }

    // Keeps the error, which an `OverRead` around this drops, and gives one of its kind in its place.
    fn note(&mut self, error: io::Error) -> io::Error {
        let kind = error.kind();
        self.why = Some(error);
        io::Error::from(kind)
    }
}

impl<R: Read> Read for Noted<R> {
    // Reads once. Of a failed read what the system said is kept.
    fn read(&mut self, buf: &mut [u8]) -> io::Result<usize> {
        match self.reader.read(buf) {
            Ok(count) => Ok(count),
            Err(error) => Err(self.note(error)),
        }
    }
}

/// What was done with the reader. Where a read failed, the fault gets what the system said of it, which the reader has
/// kept.
pub(crate) fn say_why<'a, T, R: Drop>(
    done: Result<T, ToolFault<'a>>,
    reader: OverRead<Noted<R>>,
) -> Result<T, ToolFault<'a>>
    ensures ok { IfOk result (λ x. done.entry ≡ Ok x) }
    ensures err { IfErr result (λ told. (fault : _) × (done.entry ≡ Err fault) × IsSameButForReads fault told) }
    ensures said { IfErr result (λ told. (fault : _) × (why : _) × (done.entry ≡ Err fault) × (told ≡ told_with why fault)) }
{
    let Noted { reader: _, why } = reader.into_inner();
    match done {
        Ok(value) => Ok(value),
        Err(fault) => Err(with_reason(fault, why)),
    }
}

/// A script that is open.
pub(crate) type OpenScript<F, I> = OverRead<Noted<Script<F, I>>>;

/// Opens the script, of which nothing was read yet: the file of that name, or the standard input by `-`.
pub(crate) fn open_script<'a, R: Files + Input>(
    rt: &R,
    name: &'a str,
) -> Result<OpenScript<R::File, R::Reader>, ToolFault<'a>>
    ensures fresh { IfOk result (λ reader. calls_of reader ≡ 0) }
    ensures fault { IfErr result (IsFileFault name.now) }
{
    if name == STANDARD_INPUT {
        return Ok(OverRead::new(Noted::new(Script::Input(rt.reader()))));
    }
    Ok(OverRead::new(Noted::new(Script::File(opened(rt, name)?))))
}

/// Opens the file of that name, of which nothing was read yet.
pub fn open_file<'a, R: Files>(
    rt: &R,
    name: &'a str,
) -> Result<OverRead<Noted<R::File>>, ToolFault<'a>>
    ensures fresh { IfOk result (λ reader. calls_of reader ≡ 0) }
    ensures fault { IfErr result (IsFileFault name.now) }
{
    Ok(OverRead::new(Noted::new(opened(rt, name)?)))
}

/// Reads a text to its end, or one byte more of it than a protocol may have, which tells that it is too long.
pub fn read_text<'a, R: Source>(alloc: Global, reader: &mut R) -> Result<Vec<u8>, ToolFault<'a>>
    requires { R.calls reader.old < 2 ^ 62 }
    ensures bytes { IfOk result
        (λ text. Consumes (R.remaining reader.old) (R.remaining reader.new) text.items) }
    ensures most { HasReadAtMost most_read (R.remaining reader.old) (R.remaining reader.new) }
    ensures long { IfOk result (λ text. length text.items ≤ most_read) }
    ensures whole { IfOk result
        (λ text. length text.items ≤ longest → IsAtEnd (R.remaining reader.new)) }
    ensures reads_well { OnOk result (R.failed_calls reader.new ≡ R.failed_calls reader.old) }
    ensures fault { IfErr result
        (IsReadFault (R.failed_calls reader.old) (R.failed_calls reader.new)) }
{
    let mut text = Vec::new(alloc);
    let mut block = vec![in alloc; 0u8; MAX_TEXT_BYTES + 1]?;
    while text.len() <= MAX_TEXT_BYTES {
        // as much as may still come, so that no more than that is read
        block.truncate(MAX_TEXT_BYTES + 1 - text.len());
        if read_more(reader, block.as_mut_slice(), &mut text)? == 0 {
            return Ok(text);
        }
    }
    Ok(text)
}

// Reads once, and puts what was read after the text. Gives the number of bytes, which is 0 at the end.
fn read_more<'a, R: Source>(
    reader: &mut R,
    block: &mut [u8],
    text: &mut Vec<u8>,
) -> Result<usize, ToolFault<'a>>
    requires { R.calls reader.old < 2 ^ 63 }
    ensures calls { R.calls reader.new ≡ R.calls reader.old + 1 }
    ensures more { IfOk result (λ n. (piece : List ℕ) × (length piece ≡ n)
        × (text.new.items ≡ text.old.items ++ piece)
        × Consumes (R.remaining reader.old) (R.remaining reader.new) piece) }
    ensures most { HasReadAtMost (length block.old)
        (R.remaining reader.old) (R.remaining reader.new) }
    ensures long { IfOk result (λ n. n ≤ length block.old) }
    ensures reads_well { OnOk result (R.failed_calls reader.new ≡ R.failed_calls reader.old) }
    ensures fault { IfErr result
        (IsReadFault (R.failed_calls reader.old) (R.failed_calls reader.new)) }
    ensures end { IfOk result
        (λ n. n ≡ 0 → 0 < length block.old → IsAtEnd (R.remaining reader.new)) }
{
    let Ok(count) = reader.read(block) else {
        return Err(ToolFault::Read { why: None });
    };
    text.extend_from_slice(&block[..count])?;
    Ok(count)
}

/// Writes the bytes. Where a write fails, a front of them may be written.
pub(crate) fn tell<'a, W: Sink>(writer: &mut W, bytes: &[u8]) -> Result<(), ToolFault<'a>>
    requires { W.failed_calls writer.old < 2 ^ 63 }
    ensures told { OnOk result (Appends (W.taken writer.old) (W.taken writer.new) bytes.now) }
    ensures front { OnErr result (TookFront (W.taken writer.old) (W.taken writer.new) bytes.now) }
    ensures fault { IfErr result (λ fault. fault ≡ NotWritten) }
    ensures writes { W.failed_calls writer.new ≡ after_writes result (W.failed_calls writer.old) }
{
    match send_all(writer, bytes) {
        Ok(()) => Ok(()),
        Err(_) => Err(ToolFault::Write),
    }
}
