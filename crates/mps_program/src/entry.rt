//! What the program does, from its words to its exit status.
ghost use Rattle.std.specs.Prelude.{◌≡◌, ◌≢◌, ◌*◌, ◌<◌, ◌≤◌, IfErr, IfOk, None, Some, false};
ghost use Rattle.std.specs.Process.{exit_status};
ghost use Rattle.mps_program.specs.Ends.{EndsAs, IsObeyed, status_after};
ghost use Rattle.mps_program.specs.Faults.{status_of, without};
ghost use Rattle.mps_program.specs.declared.faults.ToolFault.TheVariants.{Open as NoSession};

use crate::check::check_file;
use crate::comparison::compare_files;
use crate::faults::{ToolFault, report, status, told};
use crate::files::closed_streams;
use crate::hosting::{HostService, host_file};
use crate::own_files::OwnFiles;
use crate::running::run_file;
use crate::serving::{Service, serve_file};
use mps_hub::Limits;
use mps_room::MAX_ENTRIES;
use mps_words::{Order, Task, order, words_of};
use std::fs::File;
use std::net::{Net, TcpListener, TcpStream};
use std::process::ExitCode;
use std::rt::{Env, Files};
use std::sync::Wait;
use std::thread::Threads;
use std::time::{Clock, Duration};

/// Carries out a task, and gives the exit status: 1 where two scripts differ, or a strict run met a refusal, else 0.
/// Where more is to be told (`verbose`), a fault says what the system says of it, and standard error is told of the lines
/// of scripts.
pub fn carry_out<'a, R: Files + Input + AllocGlobal + Print + Eprint>(
    rt: &R,
    task: Task<'a>,
    verbose: bool,
) -> Result<u8, ToolFault<'a>>
    ensures status { IfOk result (λ status. status ≤ 1) }
    ensures opened { IfErr result (λ fault. fault ≢ NoSession) }
    ensures quiet { verbose ≡ false → IfErr result (λ fault. without fault ≡ fault) }
{
    told(work_on(rt, task, verbose), verbose)
}

// Carries out a task, and gives the exit status. A fault says what the system says of it.
fn work_on<'a, R: Files + Input + AllocGlobal + Print + Eprint>(
    rt: &R,
    task: Task<'a>,
    verbose: bool,
) -> Result<u8, ToolFault<'a>>
    ensures status { IfOk result (λ status. status ≤ 1) }
    ensures opened { IfErr result (λ fault. fault ≢ NoSession) }
{
    match task {
        Task::Help { text } => {
            if println!(rt; "{text}").is_err() {
                return Err(ToolFault::Write);
            }
        }
        Task::Check { file } => check_file(rt, file)?,
        Task::Run {
            file,
            script,
            strict,
        } => return run_file(rt, file, script, strict, verbose),
        Task::Same {
            file,
            first,
            second,
        } => return compare_files(rt, file, first, second, verbose),
    }
    Ok(0)
}

// How many entries of its session each role may make whose share is so many percent of them; not limited, where it is all.
fn share_of(percent: u64) -> Option<u64>
    ensures part { percent < 100 → result ≡ Some (1000 * percent) }
    ensures all { 100 ≤ percent → result ≡ None }
{
    if percent >= 100 {
        return None;
    }
    Some(MAX_ENTRIES as u64 / 100 * percent)
}

/// Does what the words say, of which the first is the program's name, and gives the exit status: 1
/// where two scripts differ, or a strict run met a refusal, else 0.
pub fn obey<
    'a,
    R: Files<File = File>
        + OwnFiles
        + AllocGlobal
        + Input
        + Print
        + Eprint
        + Net<Listener = TcpListener, Stream = TcpStream>
        + Clock
        + Threads
        + Wait
        + Sync
        + 'static,
>(rt: &R, words: &'a [&'a str]) -> Result<u8, ToolFault<'a>>
    ensures status { IfOk result (λ status. status ≤ 1) }
    ensures opened { IfErr result (λ fault. fault ≢ NoSession) }
{
    // held to the end, so that no file or connection gets a closed standard stream's descriptor
    let _taken = closed_streams(rt);
    match order(rt.alloc(), words)? {
        Order::Serve {
            file,
            port,
            sessions,
            first,
            connections,
            idle,
            wait,
            share,
            journal,
            watched,
            listener,
            verbose,
        } => {
            let limits = Limits {
                connections,
                idle: idle.map(|seconds| Duration::from_secs(seconds)),
                strict: journal.is_some_and(|journal| journal.strict),
                share: share_of(share),
            };
            let service = Service {
                port,
                first,
                sessions,
                limits,
                wait: wait.map(|seconds| Duration::from_secs(seconds)),
                journal,
                watched,
                listener,
            };
            serve_file(rt, file, service, verbose)?;
            Ok(0)
        }
        Order::Host {
            file,
            port,
            open,
            keep,
            idle,
            wait,
            share,
            journal,
            watched,
            listener,
            verbose,
        } => {
            let service = HostService {
                port,
                open,
                keep: Duration::from_secs(keep),
                wait: wait.map(|seconds| Duration::from_secs(seconds)),
                limits: Limits {
                    connections: None,
                    idle: idle.map(|seconds| Duration::from_secs(seconds)),
                    strict: false,
                    share: share_of(share),
                },
                journal,
                watched,
                listener,
            };
            host_file(rt, file, service, verbose)?;
            Ok(0)
        }
        Order::Offline { task, verbose } => carry_out(rt, task, verbose),
    }
}

/// Prints what went wrong, and gives the exit status, which is the same where it can't be printed.
pub fn end<R: AllocGlobal + Eprint>(rt: &R, fault: &ToolFault<'_>) -> ExitCode
    ensures { exit_status result ≡ status_of fault.now }
{
    let _told = report(rt, fault);
    ExitCode::from(status(fault))
}

/// Ends after what was done: gives the exit status, its own or that of its fault, which is printed.
pub fn end_after<R: AllocGlobal + Eprint>(rt: &R, done: Result<u8, ToolFault<'_>>) -> ExitCode
    ensures { exit_status result ≡ status_after done.entry }
{
    match done {
        Ok(status) => ExitCode::from(status),
        Err(fault) => end(rt, &fault),
    }
}

/// Has the work done on the words that the program is called with, and ends after it. Where the words can't be had,
/// nothing is done, and the status is that of a fault of use or of memory.
pub fn end_with<R, F>(rt: &R, work: F) -> ExitCode
where
    R: Env + AllocGlobal + Eprint,
    F: for<'a> FnOnce(&'a [&'a str]) -> Result<u8, ToolFault<'a>>,
    requires { F.IsAlwaysCallable work }
    ensures { EndsAs (λ done. (words : _) × F.post work words done) (exit_status result) }
{
    let words = match words_of(rt) {
        Ok(words) => words,
        Err(fault) => return end(rt, &ToolFault::from(fault)),
    };
    let words: Vec<&str> = match words.iter().map(|word| word.as_str()).collect(rt.alloc()) {
        Ok(words) => words,
        Err(_) => return end(rt, &ToolFault::Memory),
    };
    end_after(rt, work(words.as_slice()))
}

/// Does what the words say that the program is called with, and ends after it.
pub fn program<
    R: Env
        + Files<File = File>
        + OwnFiles
        + AllocGlobal
        + Input
        + Print
        + Eprint
        + Net<Listener = TcpListener, Stream = TcpStream>
        + Clock
        + Threads
        + Wait
        + Sync
        + 'static,
>(rt: &R) -> ExitCode
    ensures { EndsAs IsObeyed (exit_status result) }
{
    end_with(rt, |words| obey(rt, words))
}
