//! Two scripts compared.
ghost use Rattle.std.specs.Prelude.{◌⊎◌, ◌≡◌, ◌+◌, ◌<◌, ◌≤◌, ◌^◌, length, IsTrue, IfOk, IfErr};
ghost use Rattle.mps_dev.specs.Standard.{calls_of};
ghost use Rattle.mps_machine.specs.Machine.{initial};
ghost use Rattle.mps_program.specs.Compared.{CantCompare, HasCompared, HasRun, HasStopped, Tells, unheard};
ghost use Rattle.mps_program.specs.Private.Compared.{CantFollow, HasFollowed};
ghost use Rattle.mps_program.specs.Faults.{IsCompareFault, IsFileFault, IsScriptsFault};
ghost use Rattle.mps_dev.specs.Reads.{max_reads};

use crate::faults::ToolFault;
use crate::files::{OpenScript, open_script, say_why, tell};
use crate::load::load_file;
use crate::tally::Tally;
use mps_base::Roles;
use mps_dev::{OverWrite, Source};
use mps_room::Room;
use mps_session::{Session, same};
use mps_wire::script::replay_session;
use mps_words::ProtocolFile;
use std::alloc::{AllocError, Global};
use std::io;
use std::rt::Files;

/// What is heard of the answers to two scripts.
#[derive(Drop)]
pub struct Tallies {
    pub first: Tally,
    pub second: Tally,
}

// Runs the script in a room of the session with a copy of the roles, and gives the room. The answers are counted by
// `tally`, and not kept.
fn run_on_copy<'a, R: Source>(
    alloc: Global,
    reader: &mut R,
    tally: &mut Tally,
    roles: &Roles,
    session: Session,
) -> Result<Room, ToolFault<'a>>
    requires new { session.state ≡ initial }
    requires named { length roles.now ≡ length session.types }
    requires reads { R.calls reader.old < 2 ^ 62 }
    ensures ran { IfOk result (λ room. HasRun roles.now session.types
        (unheard R.Source reader.old) (unheard R.Source reader.new) room.journal) }
    ensures types { IfOk result (λ room. room.types ≡ session.types) }
    ensures fault { IfErr result (HasStopped roles.now session.types
        (unheard R.Source reader.old) (unheard R.Source reader.new)) }
    ensures reads { R.calls reader.new ≤ R.calls reader.old + max_reads }
{
    let names = roles.copy(alloc)?;
    Ok(replay_session(alloc, reader, tally, names, session)?)
}

// The line and the status that say whether two sessions are the same: `same` and 0, or `different` and 1.
fn told(alloc: Global, alike: bool) -> Result<(Vec<u8>, u8), AllocError>
    ensures { IfOk result (λ r. Tells (IsTrue alike) r.0.items r.1) }
{
    if alike {
        Ok((Vec::from_slice(alloc, b"same\n")?, 0))
    } else {
        Ok((Vec::from_slice(alloc, b"different\n")?, 1))
    }
}

// Runs the script on a new session, and says by a line and a status whether it is then the same as the first.
fn compared<'a, S: Source>(
    alloc: Global,
    roles: &Roles,
    first: &Session,
    second: Session,
    other: &mut S,
    tally: &mut Tally,
) -> Result<(Vec<u8>, u8), ToolFault<'a>>
    requires types { second.types ≡ first.now.types }
    requires named { length roles.now ≡ length second.types }
    requires new { second.state ≡ initial }
    requires reads { S.calls other.old < 2 ^ 62 }
    ensures verdict { IfOk result (λ r. HasFollowed roles.now first.now
        (unheard S.Source other.old) (unheard S.Source other.new) r.0.items r.1) }
    ensures fault { IfErr result (CantFollow roles.now first.now.types
        (unheard S.Source other.old) (unheard S.Source other.new)) }
    ensures reads { S.calls other.new ≤ S.calls other.old + max_reads }
{
    let second = run_on_copy(alloc, other, tally, roles, second)?;
    Ok(told(alloc, same(first, second.session()))?)
}

/// Runs one script whole and then another, each on a new session of its own, and says whether the sessions are then
/// causally the same, whatever the order across roles and the numbers: by the line `same` and the status 0, or the line
/// `different` and the status 1. The answers to each script are counted. Where the first breaks off, nothing of the
/// second is read.
pub fn verdict_of<'a, R: Source, S: Source>(
    alloc: Global,
    roles: &Roles,
    first: Session,
    second: Session,
    reader: &mut R,
    other: &mut S,
    tallies: &mut Tallies,
) -> Result<(Vec<u8>, u8), ToolFault<'a>>
    requires types { second.types ≡ first.types }
    requires named { length roles.now ≡ length first.types }
    requires first_new { first.state ≡ initial }
    requires second_new { second.state ≡ initial }
    requires first_reads { R.calls reader.old < 2 ^ 62 }
    requires second_reads { S.calls other.old < 2 ^ 62 }
    ensures verdict { IfOk result (λ r. HasCompared roles.now first.types
        (unheard R.Source reader.old) (unheard R.Source reader.new)
        (unheard S.Source other.old) (unheard S.Source other.new) r.0.items r.1) }
    ensures fault { IfErr result (CantCompare roles.now first.types
        (unheard R.Source reader.old) (unheard R.Source reader.new)
        (unheard S.Source other.old) (unheard S.Source other.new)) }
    ensures first_reads { R.calls reader.new ≤ R.calls reader.old + max_reads }
    ensures second_reads { S.calls other.new ≤ S.calls other.old + max_reads }
{
    let first = run_on_copy(alloc, reader, &mut tallies.first, roles, first)?;
    let tally = &mut tallies.second;
    compared(alloc, roles, first.session(), second, other, tally)
}

// Tells on standard error how many lines of that script were refused.
fn tell_refused<R: Eprint>(rt: &R, which: &str, tally: &Tally) {
    let (refused, lines) = (tally.refused(), tally.lines());
    // the verdict is the same where this can't be told
    let _told = eprintln!(rt; "{which} script: {refused} of {lines} lines refused");
}

// Opens both scripts, of which nothing was read yet.
fn open_both<'a, R: Files + Input>(
    rt: &R,
    script: &'a str,
    other: &'a str,
) -> Result<
    (
        OpenScript<R::File, R::Reader>,
        OpenScript<R::File, R::Reader>,
    ),
    ToolFault<'a>,
>
    ensures first_fresh { IfOk result (λ readers. calls_of readers.0 ≡ 0) }
    ensures second_fresh { IfOk result (λ readers. calls_of readers.1 ≡ 0) }
    ensures fault { IfErr result (λ fault.
        IsFileFault script.now fault ⊎ IsFileFault other.now fault) }
{
    let first = open_script(rt, script)?;
    let second = open_script(rt, other)?;
    Ok((first, second))
}

// Compares the scripts in two files, and prints what is said of them. Gives the status. Where more is to be told,
// standard error is told how many lines were refused, if any were.
fn compare_scripts<'a, R: Files + Input + AllocGlobal + Print + Eprint>(
    rt: &R,
    roles: &Roles,
    first: Session,
    second: Session,
    script: &'a str,
    other: &'a str,
    verbose: bool,
) -> Result<u8, ToolFault<'a>>
    requires types { second.types ≡ first.types }
    requires named { length roles.now ≡ length first.types }
    requires first_new { first.state ≡ initial }
    requires second_new { second.state ≡ initial }
    ensures status { IfOk result (λ status. status ≤ 1) }
    ensures fault { IfErr result (IsScriptsFault script.now other.now) }
{
    let (mut reader, mut second_reader) = open_both(rt, script, other)?;
    let mut tallies = Tallies {
        first: Tally::new(),
        second: Tally::new(),
    };
    let verdict = verdict_of(
        rt.alloc(),
        roles,
        first,
        second,
        &mut reader,
        &mut second_reader,
        &mut tallies,
    );
    let (line, status) = say_why(say_why(verdict, reader), second_reader)?;
    if verbose && (tallies.first.refused() > 0 || tallies.second.refused() > 0) {
        tell_refused(rt, "first", &tallies.first);
        tell_refused(rt, "second", &tallies.second);
    }
    tell(&mut OverWrite::new(io::writer(rt)), line.as_slice())?;
    Ok(status)
}

/// Runs the scripts in two files, each on a new session of the protocol in the file, and prints `same` or `different`.
/// Gives the status, 0 or 1. Where more is to be told (`verbose`) and lines were refused, standard error is told how
/// many of each script.
///
/// The protocol is read and checked before a script is opened, and both are opened before the first
/// is read.
pub fn compare_files<'a, R: Files + Input + AllocGlobal + Print + Eprint>(
    rt: &R,
    file: ProtocolFile<'a>,
    script: &'a str,
    other: &'a str,
    verbose: bool,
) -> Result<u8, ToolFault<'a>>
    ensures status { IfOk result (λ status. status ≤ 1) }
    ensures fault { IfErr result (IsCompareFault file.entry script.now other.now) }
{
    let opening = load_file(rt, file)?;
    let first = opening.session(rt.alloc())?;
    let (roles, second) = opening.into_session(rt.alloc())?;
    compare_scripts(rt, &roles, first, second, script, other, verbose)
}
