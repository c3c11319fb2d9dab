//! Running a script from files.
ghost use Rattle.std.specs.Prelude.{◌≡◌, ◌+◌, ◌<◌, ◌≤◌, ◌^◌, ℕ, List, Err, IfErr, IfOk, false, length};
ghost use Rattle.mps_lines.specs.Cuts.{cut};
ghost use Rattle.mps_machine.specs.Machine.{initial};
ghost use Rattle.mps_program.specs.Faults.{IsBreak, IsScriptFault, IsRunFault};
ghost use Rattle.mps_program.specs.Heard.{EndsStrictly, HasPassed, after_strict, first_refusal, inner_of, late_of};

use crate::faults::ToolFault;
use crate::files::{open_script, say_why};
use crate::load::load_file;
use crate::tally::Strict;
use crate::until::Until;
use crate::watched::Watched;
use mps_base::Roles;
use mps_dev::{OverWrite, Sink, Source};
use mps_session::Session;
use mps_wire::script::replay_session;
use mps_words::ProtocolFile;
use std::alloc::Global;
use std::cell::Cell;
use std::rt::Files;
use std::{io, mem};

// Runs the script that the reader gives on this session of these roles, and gives the answers to the sink.
fn run_to_the_end<'a, R: Source, W: Sink>(
    alloc: Global,
    reader: &mut R,
    roles: Roles,
    session: Session,
    writer: &mut W,
) -> Result<(), ToolFault<'a>>
    requires new { session.state ≡ initial }
    requires named { length roles ≡ length session.types }
    requires reads { R.calls reader.old < 2 ^ 62 }
    requires writes { W.failed_calls writer.old < 2 ^ 62 }
    ensures fault { IfErr result IsBreak }
{
    let room = replay_session(alloc, reader, writer, roles, session)?;
    // the program ends with the script, and its memory goes as a whole
    mem::forget(room);
    Ok(())
}

// Runs the script of that name on this session of these roles, and gives the answers to the sink. Where more is to be
// told, standard error is told of each unreadable line.
fn run_script_file<'a, R: Files + Input + AllocGlobal + Eprint, W: Sink>(
    rt: &R,
    script: &'a str,
    roles: Roles,
    session: Session,
    writer: &mut W,
    verbose: bool,
) -> Result<(), ToolFault<'a>>
    requires new { session.state ≡ initial }
    requires named { length roles ≡ length session.types }
    requires writes { W.failed_calls writer.old < 2 ^ 62 }
    ensures fault { IfErr result (IsScriptFault script.now) }
{
    let mut reader = open_script(rt, script)?;
    if !verbose {
        let ran = run_to_the_end(rt.alloc(), &mut reader, roles, session, writer);
        return say_why(ran, reader);
    }
    let mut watched = Watched::new(rt, roles.copy(rt.alloc())?, reader);
    let ran = run_to_the_end(rt.alloc(), &mut watched, roles, session, writer);
    say_why(ran, watched.into_source())
}

// The status of a strict run: 1 where a line was refused, which is told on standard error, else 0. After a refusal the
// run may have broken off with a fault, which isn't told.
fn strict_status<'a, R: Eprint>(
    rt: &R,
    refused: Option<u64>,
    ran: Result<(), ToolFault<'a>>,
) -> Result<u8, ToolFault<'a>>
    ensures status { IfOk result (λ status. status ≤ 1) }
    ensures fault { IfErr result (λ fault. ran.entry ≡ Err fault) }
    ensures ends { result ≡ after_strict refused ran.entry }
{
    match refused {
        Some(line) => {
            // the status is the same where this can't be told
            let _told = eprintln!(rt; "refused at line {line}");
            Ok(1)
        }
        None => {
            ran?;
            Ok(0)
        }
    }
}

// Runs the script that the reader gives, on this session of these roles, up to the first line that is refused, whose
// number is told on standard error. Gives the answers to the sink, and the status: 1 where a line was refused, else 0.
fn run_strictly<'a, E: AllocGlobal + Eprint, R: Source, W: Sink>(
    rt: &E,
    reader: &mut R,
    roles: Roles,
    session: Session,
    writer: &mut Strict<'_, W>,
) -> Result<u8, ToolFault<'a>>
    requires new { session.state ≡ initial }
    requires named { length roles ≡ length session.types }
    requires reads { R.calls reader.old < 2 ^ 62 }
    requires writes { W.failed_calls (inner_of writer.old) + late_of writer.old < 2 ^ 62 }
    ensures status { IfOk result (λ status. status ≤ 1) }
    ensures refused { (passed : List ℕ) → HasPassed writer.new passed → EndsStrictly (first_refusal (cut passed).lines) result }
    ensures fault { IfErr result IsBreak }
{
    let ran = run_to_the_end(rt.alloc(), reader, roles, session, &mut *writer);
    strict_status(rt, writer.refused(), ran)
}

/// Runs the script on a new session of the protocol in the file, and prints the answers. Gives the status, 0. A strict run
/// ends with the first line that is refused, if one is: its number is told on standard error, and the status is 1. A run
/// that isn't strict tells standard error, where more is to be told (`verbose`), which lines are unreadable, and why.
///
/// The protocol is read and checked before the script is opened.
pub fn run_file<'a, R: Files + Input + AllocGlobal + Print + Eprint>(
    rt: &R,
    file: ProtocolFile<'a>,
    script: &'a str,
    strict: bool,
    verbose: bool,
) -> Result<u8, ToolFault<'a>>
    ensures status { IfOk result (λ status. status ≤ 1) }
    ensures not_strict { IfOk result (λ status. strict ≡ false → status ≡ 0) }
    ensures fault { IfErr result (IsRunFault file.entry script.now) }
{
    let opening = load_file(rt, file)?;
    let (roles, session) = opening.into_session(rt.alloc())?;
    let mut writer = OverWrite::new(io::writer(rt));
    if !strict {
        run_script_file(rt, script, roles, session, &mut writer, verbose)?;
        return Ok(0);
    }
    let noted = Cell::new(false);
    let mut writer = Strict::new(writer, &noted);
    // a read may take lines beyond the one that is refused, so unreadable lines aren't told of here
    let mut reader = Until::new(open_script(rt, script)?, &noted);
    let ended = run_strictly(rt, &mut reader, roles, session, &mut writer);
    say_why(ended, reader.into_source())
}
