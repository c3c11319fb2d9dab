//! What the program says when it can't go on.
ghost use Rattle.std.specs.Prelude.{◌≡◌, ◌≢◌, Ok, Some, IfOk, IfErr, false};
ghost use Rattle.mps_program.specs.Check.{of_opening};
ghost use Rattle.mps_program.specs.Faults.{IsSameButForReads, as_told, fault_text, of_script, of_use, protocol_word, status_of};
ghost use Rattle.mps_program.specs.Faults.{text_word, told_with, without};
ghost use Rattle.mps_program.specs.declared.faults.ToolFault.TheVariants.{Memory as OutOfMemory, Open as NoSession};

use mps_base::Name;
use mps_global::GlobalFault;
use mps_keeper::RestoreFault;
use mps_open::Fault;
use mps_text::TextKind;
use mps_wire::script::ReplayFault;
use mps_words::UseFault;
use std::alloc::{AllocError, AllocFailed, Global};
use std::error::Error;
use std::{fmt, io, str};

/// Why the program didn't do what it was told. It is displayed as its line.
#[derive(Debug, Drop)]
pub enum ToolFault<'a> {
    /// The words are none of the program's; the text says how to use it.
    Usage {
        text: String,
    },
    /// The file can't be opened, or the folder can't be used; why, as the system says it.
    File {
        name: &'a str,
        why: Option<io::Error>,
    },
    /// The protocol's text has a fault.
    Text {
        at: usize,
        kind: TextKind,
    },
    /// The protocol has a fault.
    Protocol {
        fault: GlobalFault,
    },
    /// The role does not do the same in each branch of that choice, counted in preorder from 0.
    Projection {
        role: Name,
        choice: usize,
    },
    /// No session can be opened with the types.
    Open,
    /// A file can't be read; why, as the system says it.
    Read {
        why: Option<io::Error>,
    },
    /// The answers can't be written.
    Write,
    /// The script was read from too often.
    Turns,
    /// The port can't be listened on; why, as the system says it.
    Bind {
        why: Option<io::Error>,
    },
    /// No connection can be accepted.
    Accept,
    /// The session's cell closed without a room.
    Lost {
        session: u64,
    },
    /// The journal of a session can't be opened, or another process has it; why, as the system says it.
    JournalFile {
        session: u64,
        why: Option<io::Error>,
    },
    /// That line of a session's journal, counted from 1, is not one to go on from; why.
    JournalLine {
        session: u64,
        line: u64,
        why: Option<RestoreFault>,
    },
    /// The folder has sessions of another protocol.
    JournalProtocol,
    /// The journal of a session can't be read, cut or marked, or is gone; why, as the system says it.
    JournalLost {
        session: u64,
        why: Option<io::Error>,
    },
    /// Lines of a session's journal were lost while it was served. That was told then, so it has no line.
    JournalBroken {
        session: u64,
    },
    /// Memory ran out.
    Memory,
}

impl From<AllocError> for ToolFault<'_> {
    ghost from_gives = { λ _ fault. fault ≡ OutOfMemory };

    // A failed allocation is `Memory`.
    fn from(_: AllocError) -> Self {
        ToolFault::Memory
    }
}

impl<T: Drop> From<AllocFailed<T>> for ToolFault<'_> {
    ghost from_gives = { λ _ fault. fault ≡ OutOfMemory };

    // A failed allocation is `Memory`; what it gives back is dropped.
    fn from(_: AllocFailed<T>) -> Self {
        ToolFault::Memory
    }
}

impl From<UseFault> for ToolFault<'_> {
    ghost from_gives = { λ f fault. fault ≡ of_use f };

    // A fault of use, as the program tells it.
    fn from(fault: UseFault) -> Self {
        match fault {
            UseFault::Usage { text } => ToolFault::Usage { text },
            UseFault::Memory => ToolFault::Memory,
        }
    }
}

impl From<Fault> for ToolFault<'_> {
    ghost from_gives = { λ f fault. fault ≡ of_opening f };

    // Why a text gives no session, as the program tells it: a role by its name.
    fn from(fault: Fault) -> Self {
        match fault {
            Fault::Text { at, kind } => ToolFault::Text { at, kind },
            Fault::Protocol(fault) => ToolFault::Protocol { fault },
            Fault::Projection { name, choice, .. } => ToolFault::Projection { role: name, choice },
            Fault::Memory => ToolFault::Memory,
        }
    }
}

impl From<ReplayFault> for ToolFault<'_> {
    ghost from_gives = { λ f fault. fault ≡ of_script f };

    // Why a script was not run to its end, as the program tells it. What the system says of a read isn't known here.
    fn from(fault: ReplayFault) -> Self {
        match fault {
            ReplayFault::Open(_) => ToolFault::Open,
            ReplayFault::ReadFault => ToolFault::Read { why: None },
            ReplayFault::WriteFault => ToolFault::Write,
            ReplayFault::Turns => ToolFault::Turns,
            ReplayFault::Memory => ToolFault::Memory,
        }
    }
}

// The name as a `str`: its bytes are ASCII.
fn text_of(name: &Name) -> &str
    ensures { result.now ≡ name.now }
{
    match str::from_utf8(name.as_bytes()) {
        Ok(text) => text,
        Err(_) => unreachable!(),
    }
}

// The word for a fault of a text.
fn text_word_of(kind: TextKind) -> &'static str
    ensures { result.now ≡ text_word kind }
{
    match kind {
        TextKind::TooLong => "toolong",
        TextKind::Word => "word",
        TextKind::Unexpected => "unexpected",
        TextKind::TooManyNodes => "toomanynodes",
        TextKind::TooDeep => "toodeep",
        TextKind::Trailing => "trailing",
        TextKind::Memory => "memory",
    }
}

// The word for a fault of a protocol.
fn protocol_word_of(fault: GlobalFault) -> &'static str
    ensures { result.now ≡ protocol_word fault }
{
    match fault {
        GlobalFault::RoleCount => "rolecount",
        GlobalFault::DoubleRole => "doublerole",
        GlobalFault::TooManyNodes => "toomanynodes",
        GlobalFault::TooDeep => "toodeep",
        GlobalFault::UnknownRole => "unknownrole",
        GlobalFault::SelfMessage => "selfmessage",
        GlobalFault::DoubleLabel => "doublelabel",
        GlobalFault::TooManyBranches => "toomanybranches",
        GlobalFault::NoBranches => "nobranches",
        GlobalFault::Unbound => "unbound",
        GlobalFault::Shadowed => "shadowed",
        GlobalFault::Unguarded => "unguarded",
    }
}

impl fmt::Display for ToolFault<'_> {
    ghost output = { λ fault. Some (fault_text fault) };

    // Writes the line that tells the fault, without a line break at its end. It does not allocate.
    fn fmt<W: fmt::Write>(&self, f: &mut fmt::Formatter<W>) -> fmt::Result {
        match self {
            ToolFault::Usage { text } => f.write_str(text.as_str()),
            ToolFault::File { name, .. } => write!(f, "refused file {name}"),
            ToolFault::Text { at, kind } => {
                write!(f, "refused text {} {at}", text_word_of(*kind))
            }
            ToolFault::Protocol { fault } => {
                write!(f, "refused protocol {}", protocol_word_of(*fault))
            }
            ToolFault::Projection { role, choice } => {
                write!(f, "refused projection {} {choice}", text_of(role))
            }
            ToolFault::Open => f.write_str("refused open"),
            ToolFault::Read { .. } => f.write_str("refused read"),
            ToolFault::Write => f.write_str("refused write"),
            ToolFault::Turns => f.write_str("refused turns"),
            ToolFault::Bind { .. } => f.write_str("refused bind"),
            ToolFault::Accept => f.write_str("refused accept"),
            ToolFault::Lost { session } => write!(f, "refused lost {session}"),
            ToolFault::JournalFile { session, .. } | ToolFault::JournalLost { session, .. } => {
                write!(f, "refused journal {session}")
            }
            ToolFault::JournalLine { session, line, .. } => {
                write!(f, "refused journal {session} {line}")
            }
            ToolFault::JournalBroken { .. } => Ok(()),
            ToolFault::JournalProtocol => f.write_str("refused journal protocol"),
            ToolFault::Memory => f.write_str("refused memory"),
        }
    }
}

impl Error for ToolFault<'_> {}

/// The line that tells the fault, without a line break at its end. What is said of the words may be several lines.
pub fn fault_line(alloc: Global, fault: &ToolFault<'_>) -> Result<Vec<u8>, AllocError>
    ensures { IfOk result (λ line. line.items ≡ fault_text fault.now) }
{
    Ok(fault.to_string(alloc)?.into_bytes())
}

/// What the system says of a fault of a file, of the port or of a journal, if it is kept.
pub(crate) fn reason_of<'f>(fault: &'f ToolFault<'_>) -> Option<&'f io::Error> {
    match fault {
        ToolFault::File { why, .. } => why.as_ref(),
        ToolFault::Read { why } => why.as_ref(),
        ToolFault::Bind { why } => why.as_ref(),
        ToolFault::JournalFile { why, .. } => why.as_ref(),
        ToolFault::JournalLost { why, .. } => why.as_ref(),
        _ => None,
    }
}

// Prints the line of the fault. Where there is no memory for it, what is displayed of the fault is printed, without
// allocating.
fn report_line<R: AllocGlobal + Eprint>(rt: &R, fault: &ToolFault<'_>) -> io::Result<()> {
    if let Ok(line) = fault_line(rt.alloc(), fault) {
        if let Ok(text) = str::from_utf8(line.as_slice()) {
            return eprintln!(rt; "{text}");
        }
    }
    eprintln!(rt; "{fault}")
}

/// Prints what went wrong, unless that was done when it did, and after it why, if that is kept.
pub(crate) fn report<R: AllocGlobal + Eprint>(rt: &R, fault: &ToolFault<'_>) -> io::Result<()> {
    if let ToolFault::JournalBroken { .. } = fault {
        return Ok(());
    }
    report_line(rt, fault)?;
    if let ToolFault::JournalLine { why: Some(why), .. } = fault {
        return eprintln!(rt; "{why}");
    }
    match reason_of(fault) {
        Some(why) => eprintln!(rt; "{why}"),
        None => Ok(()),
    }
}

/// The fault without what the system says of it.
pub(crate) fn without_reason<'a>(fault: ToolFault<'a>) -> ToolFault<'a>
    ensures without { result ≡ without fault.entry }
    ensures bare { without result ≡ result }
    ensures opened { fault.entry ≢ NoSession → result ≢ NoSession }
{
    match fault {
        ToolFault::File { name, .. } => ToolFault::File { name, why: None },
        ToolFault::Read { .. } => ToolFault::Read { why: None },
        ToolFault::Bind { .. } => ToolFault::Bind { why: None },
        ToolFault::JournalFile { session, .. } => ToolFault::JournalFile { session, why: None },
        ToolFault::JournalLost { session, .. } => ToolFault::JournalLost { session, why: None },
        ToolFault::JournalLine { session, line, .. } => ToolFault::JournalLine {
            session,
            line,
            why: None,
        },
        fault => fault,
    }
}

/// The fault. Where it is a failed read, it gets what the system said, if it said something.
pub(crate) fn with_reason<'a>(fault: ToolFault<'a>, why: Option<io::Error>) -> ToolFault<'a>
    ensures said { result ≡ told_with why fault.entry }
    ensures same { IsSameButForReads fault.entry result }
{
    match (fault, why) {
        (ToolFault::Read { .. }, Some(why)) => ToolFault::Read { why: Some(why) },
        (fault, _) => fault,
    }
}

/// What was done. Where less is to be told (not `verbose`), a fault loses what the system says of it.
pub(crate) fn told<'a, T>(done: Result<T, ToolFault<'a>>, verbose: bool) -> Result<T, ToolFault<'a>>
    ensures told { result ≡ as_told verbose done.entry }
    ensures ok { IfOk result (λ x. done.entry ≡ Ok x) }
    ensures opened { IfErr done.entry (λ fault. fault ≢ NoSession) → IfErr result (λ fault. fault ≢ NoSession) }
    ensures quiet { verbose ≡ false → IfErr result (λ fault. without fault ≡ fault) }
{
    match done {
        Ok(value) => Ok(value),
        Err(fault) if verbose => Err(fault),
        Err(fault) => Err(without_reason(fault)),
    }
}

/// The exit status for the fault: 2 for the words, files and the port, 3 for the protocol and what a
/// journal has, 4 for a device, a lost session and memory.
pub fn status(fault: &ToolFault<'_>) -> u8
    ensures { result ≡ status_of fault.now }
{
    match fault {
        ToolFault::Usage { .. }
        | ToolFault::File { .. }
        | ToolFault::Bind { .. }
        | ToolFault::JournalFile { .. } => 2,
        ToolFault::Text { .. }
        | ToolFault::Protocol { .. }
        | ToolFault::Projection { .. }
        | ToolFault::Open
        | ToolFault::JournalLine { .. }
        | ToolFault::JournalProtocol => 3,
        ToolFault::Read { .. }
        | ToolFault::Write
        | ToolFault::Turns
        | ToolFault::Accept
        | ToolFault::Lost { .. }
        | ToolFault::JournalLost { .. }
        | ToolFault::JournalBroken { .. }
        | ToolFault::Memory => 4,
    }
}
