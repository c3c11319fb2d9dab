//! mps_line, mps_show, mps_wire, mps_hub: lines are read and written, and conversations held, as with ample memory, or
//! it is reported that memory ran out.
ghost use Rattle.std.specs.Prelude.{◌≡◌, false, length, IfSome};
ghost use Rattle.mps_dev.specs.Pieces.{calls_of};

use crate::outcomes::{Came, Outcome, Until, answered, refused};
use crate::parties::{names, opened, opened_of};
use mps_base::{Role, Roles, StepId};
use mps_command::{Answer, StepIds};
use mps_dev::{Pieces, Short};
use mps_hub::{Attended, Desk, Hub, Serving, Unguarded};
use mps_line::{LineFault, append_answer, read_answer, read_command};
use mps_room::{Room, Solo};
use mps_session::Session;
use mps_show::write_show;
use mps_wire::{Ending, converse};
use std::alloc::Global;
use std::sync::Wait;
use std::time::Clock;

// A command, and an answer, with a text that needs memory of its own.
const SAY: &[u8] = b"send c \"a text that is longer than what a value holds in place\"";

pub const TOLD: &[u8] = b"done 2 \"a text that is longer than what a value holds in place\"";

fn command_read(alloc: Global, names: &Roles) -> Came {
    match read_command(alloc, names, SAY) {
        Ok(_) => Came::Wanted,
        Err(LineFault::Memory) => Came::Memory,
        Err(_) => Came::Other,
    }
}

// Reads a command with a text, of these roles.
fn reads_a_command_of(alloc: Global, names: &Roles, until: Until) -> Option<Outcome> {
    if until == Until::Before {
        return Some(Outcome::Reached);
    }
    let read = command_read(alloc, names);
    if until == Until::After {
        return Some(Outcome::Reached);
    }
    match read {
        Came::Memory => refused(command_read(alloc, names) == Came::Wanted),
        read => answered(read == Came::Wanted),
    }
}

/// Reads a command with a text.
pub fn reads_a_command(alloc: Global, until: Until) -> Option<Outcome> {
    let names = names(alloc)?;
    reads_a_command_of(alloc, &names, until)
}

fn answer_read(alloc: Global, line: &[u8]) -> Came {
    match read_answer(alloc, line) {
        Ok(_) => Came::Wanted,
        Err(LineFault::Memory) => Came::Memory,
        Err(_) => Came::Other,
    }
}

/// Reads an answer with a text.
pub fn reads_an_answer(alloc: Global, line: &[u8], until: Until) -> Option<Outcome> {
    if until == Until::Before {
        return Some(Outcome::Reached);
    }
    let read = answer_read(alloc, line);
    if until == Until::After {
        return Some(Outcome::Reached);
    }
    match read {
        Came::Memory => refused(answer_read(alloc, line) == Came::Wanted),
        read => answered(read == Came::Wanted),
    }
}

// Writes the answer at the end of the text.
fn writes_to(answer: &Answer, text: &mut Vec<u8>, until: Until) -> Option<Outcome> {
    if until == Until::Before {
        return Some(Outcome::Reached);
    }
    let is_written = append_answer(answer, text).is_ok();
    if until == Until::After {
        return Some(Outcome::Reached);
    }
    if is_written {
        answered(text.as_slice() == b"undone 12345".as_slice())
    } else {
        refused(b"undone 12345".as_slice().starts_with(text.as_slice()))
    }
}

/// Writes an answer.
pub fn writes_an_answer(alloc: Global, until: Until) -> Option<Outcome> {
    let answer = Answer::Undone(StepIds::one(StepId::new(12_345)));
    let mut text = Vec::new(alloc);
    writes_to(&answer, &mut text, until)
}

// Writes what the session shows at the end of the text.
fn shows_to(names: &Roles, session: &Session, text: &mut Vec<u8>, until: Until) -> Option<Outcome>
    requires { length names.now ≡ length session.now.types }
{
    if until == Until::Before {
        return Some(Outcome::Reached);
    }
    let is_written = write_show(names, session, text).is_ok();
    if until == Until::After {
        return Some(Outcome::Reached);
    }
    if is_written {
        answered(!text.is_empty())
    } else {
        refused(text.is_empty() && write_show(names, session, text).is_ok())
    }
}

/// Writes what a session shows.
pub fn writes_a_show(alloc: Global, until: Until) -> Option<Outcome> {
    let (names, session) = opened(alloc)?;
    let mut text = Vec::new(alloc);
    shows_to(&names, &session, &mut text, until)
}

// ---- conversations

fn in_one_piece(alloc: Global, bytes: &[u8]) -> Option<Vec<Vec<u8>>> {
    let bytes = Vec::from_slice(alloc, bytes).ok()?;
    vec![in alloc; bytes].ok()
}

// Who gives the commands of the first role.
fn solo(alloc: Global, protocol: &[u8]) -> Option<Solo> {
    let (names, session) = opened_of(alloc, protocol)?;
    let room = Room::open(alloc, names, session);
    Some(Solo::new(room, Role::new(0)))
}

// What comes, and what is told, both over memory.
#[derive(Drop)]
struct Streams {
    reader: Pieces,
    writer: Short,
}

// These bytes in one piece, and room for 99 bytes of answers.
fn streams_of(alloc: Global, bytes: &[u8]) -> Option<Streams>
    ensures reads { IfSome result (λ s. calls_of s.reader ≡ 0) }
    ensures writes { IfSome result (λ s. s.writer.failed_calls ≡ 0) }
{
    let pieces = in_one_piece(alloc, bytes)?;
    match Short::new(alloc, 99) {
        Ok(writer) => Some(Streams {
            reader: Pieces::new(pieces, None),
            writer,
        }),
        Err(_) => None,
    }
}

// How the conversation ends.
fn talk(alloc: Global, caller: &mut Solo, streams: &mut Streams) -> Ending
    requires reads { calls_of streams.old.reader ≡ 0 }
    requires writes { streams.old.writer.failed_calls ≡ 0 }
{
    converse(alloc, caller, &mut streams.reader, &mut streams.writer)
}

// Whether a further conversation finds the step, or finds that there is none.
fn finds(alloc: Global, caller: &mut Solo, is_there: bool) -> Option<bool> {
    let wanted = if is_there {
        b"undone 1\n".as_slice()
    } else {
        b"refused nostep\n".as_slice()
    };
    let mut streams = streams_of(alloc, b"undo 1\n")?;
    let ending = talk(alloc, caller, &mut streams);
    Some(streams.writer.bytes() == wanted && ending == Ending::Closed)
}

// What it comes to where this was told, the conversation ended so, the step is there, or isn't, and is found to be so.
fn talk_judged(told: &[u8], ending: Ending, is_there: bool, is_found: bool) -> Option<Outcome> {
    let is_done = told == b"done 1\n".as_slice();
    let is_closed = ending == Ending::Closed;
    if is_done && is_closed {
        answered(is_there && is_found)
    } else if told == b"refused memory\n".as_slice() && is_closed {
        refused(!is_there && is_found)
    } else if is_done && ending == Ending::Memory {
        // the bytes after the last LF weren't kept
        refused(is_there && is_found)
    } else if told.is_empty() && ending == Ending::Memory {
        refused(is_found)
    } else {
        Some(Outcome::Other)
    }
}

// Holds the conversation.
fn converses_over(
    alloc: Global,
    caller: &mut Solo,
    streams: &mut Streams,
    until: Until,
) -> Option<Outcome>
    requires reads { calls_of streams.old.reader ≡ 0 }
    requires writes { streams.old.writer.failed_calls ≡ 0 }
{
    if until == Until::Before {
        return Some(Outcome::Reached);
    }
    let ending = talk(alloc, caller, streams);
    if until == Until::After {
        return Some(Outcome::Reached);
    }
    let is_there = caller.room.entries() == 1;
    let is_found = finds(alloc, caller, is_there)?;
    talk_judged(streams.writer.bytes(), ending, is_there, is_found)
}

// Holds the conversation of these bytes.
fn converses_with(alloc: Global, caller: &mut Solo, bytes: &[u8], until: Until) -> Option<Outcome> {
    let mut streams = streams_of(alloc, bytes)?;
    converses_over(alloc, caller, &mut streams, until)
}

/// Holds a conversation of these bytes, of which `send b 5` is the one whole line.
pub fn converses(alloc: Global, protocol: &[u8], bytes: &[u8], until: Until) -> Option<Outcome> {
    let mut caller = solo(alloc, protocol)?;
    converses_with(alloc, &mut caller, bytes, until)
}

// ---- connections

// A hub of one session of the protocol.
fn hub(alloc: Global) -> Option<Hub>
    ensures { IfSome result (λ h. h.given ≡ false) }
{
    let (names, session) = opened(alloc)?;
    let sessions = vec![in alloc; session].ok()?;
    Hub::of(alloc, &names, sessions).ok()
}

// How the connection ends.
fn connect<R: Wait + Clock + Eprint + 'static>(
    rt: &R,
    alloc: Global,
    desk: &Desk<'_>,
    streams: &mut Streams,
) -> Attended
    requires reads { calls_of streams.old.reader ≡ 0 }
    requires writes { streams.old.writer.failed_calls ≡ 0 }
{
    Serving::unrecorded(rt, alloc, desk, &Unguarded).attend(
        1,
        &mut streams.reader,
        &mut streams.writer,
    )
}

// Whether the pass is back, and a further connection finds the step, or finds that there is none.
fn is_back<R: Wait + Clock + Eprint + 'static>(
    rt: &R,
    alloc: Global,
    desk: &Desk<'_>,
    is_there: bool,
) -> Option<bool> {
    let wanted = if is_there {
        b"joined 1 a\nundone 1\n".as_slice()
    } else {
        b"joined 1 a\nrefused nostep\n".as_slice()
    };
    let mut streams = streams_of(alloc, b"join 1 a\nundo 1\n")?;
    let _ = connect(rt, alloc, desk, &mut streams);
    Some(streams.writer.bytes() == wanted)
}

// Attends to the connection, and judges what it was told.
fn attends_to<R: Wait + Clock + Eprint + 'static>(
    rt: &R,
    alloc: Global,
    desk: &Desk<'_>,
    streams: &mut Streams,
    until: Until,
) -> Option<Outcome>
    requires reads { calls_of streams.old.reader ≡ 0 }
    requires writes { streams.old.writer.failed_calls ≡ 0 }
{
    if until == Until::Before {
        return Some(Outcome::Reached);
    }
    let ended = connect(rt, alloc, desk, streams);
    if until == Until::After {
        return Some(Outcome::Reached);
    }
    told(rt, alloc, desk, streams.writer.bytes(), ended)
}

// What it comes to where the connection was told this, and ended so.
fn told<R: Wait + Clock + Eprint + 'static>(
    rt: &R,
    alloc: Global,
    desk: &Desk<'_>,
    bytes: &[u8],
    ended: Attended,
) -> Option<Outcome> {
    let is_closed = ended == Attended::Conversed(Ending::Closed);
    if bytes == b"joined 1 a\ndone 1\n".as_slice() && is_closed {
        answered(is_back(rt, alloc, desk, true)?)
    } else if bytes == b"joined 1 a\nrefused memory\n".as_slice() && is_closed {
        refused(is_back(rt, alloc, desk, false)?)
    } else if is_untold(bytes, ended) {
        refused(is_back(rt, alloc, desk, true)? || is_back(rt, alloc, desk, false)?)
    } else {
        Some(Outcome::Other)
    }
}

// Whether memory ran out for the first line, or for a later one.
fn is_untold(bytes: &[u8], ended: Attended) -> bool {
    (bytes.is_empty() && ended == Attended::Memory)
        || (bytes == b"joined 1 a\n".as_slice() && ended == Attended::Conversed(Ending::Memory))
}

// Attends to such a connection of the desk.
fn attends_at<R: Wait + Clock + Eprint + 'static>(
    rt: &R,
    alloc: Global,
    desk: &Desk<'_>,
    until: Until,
) -> Option<Outcome> {
    let mut streams = streams_of(alloc, b"join 1 a\nsend b 5\n")?;
    attends_to(rt, alloc, desk, &mut streams, until)
}

/// Attends to a connection that joins and sends one command.
pub fn attends<R: Wait + Clock + Eprint + 'static>(
    rt: &R,
    alloc: Global,
    until: Until,
) -> Option<Outcome> {
    let mut hub = hub(alloc)?;
    let desk = hub.desk(alloc).ok()?;
    attends_at(rt, alloc, &desk, until)
}
