//! mps_line, mps_dev, mps_lines, mps_wire, mps_hub: each name that callers use, once, as surface.rt has those of the
//! crates below them.
ghost use Rattle.std.specs.Prelude.{◌≡◌, ◌≤◌, ◌^◌, IfOk, length, false};
ghost use Rattle.mps_hub.specs.Places.{IsOfSession, IsSession};
ghost use Rattle.mps_line.specs.Commands.{NamesRolesOf};
ghost use Rattle.mps_machine.specs.Machine.{initial};

use crate::rooms::relay;
use crate::surface::a;
use mps_base::{Name, Roles, StepId};
use mps_cell::Pass;
use mps_command::{Answer, Command};
use mps_dev::{OverRead, OverWrite, Pieces, Short, Sink, Source};
use mps_hub::{Desk, Gate, Hub, JoinFault, ServeFault, Served, serve, serve_with};
use mps_line::{
    LineFault, Reply, read_answer, read_command, read_join, read_numbered, read_script_line,
    write_answer, write_command, write_kept,
};
use mps_local::Local;
use mps_room::{Room, Solo};
use mps_session::Refusal;
use mps_wire::{Ending, Line, Lines, ReplayFault, converse, replay, replay_session};
use std::alloc::{AllocError, Global};
use std::net::TcpListener;
use std::process::Abort;
use std::sync::Wait;
use std::test::Fail;
use std::thread::Threads;
use std::time::Clock;

// ---- lines

// mps_line: `read_command`, `read_script_line`, `read_numbered` and `read_join`: `fly` is no command, and `show` may
// have no number, so these lines are `Bad`.
#[test]
fn lines_are_read_by_mps_line(rt: HostRuntime) -> Result<(), Fail> {
    let alloc = rt.alloc();
    let (roles, _) = relay(alloc)?;
    assert!(rt;
        matches!(read_command(alloc, &roles, b"undo 3"), Ok(Command::Undo(_))),
        "the line `undo 3`"
    );
    assert!(rt;
        matches!(
            read_script_line(alloc, &roles, b"a fly"),
            Err(LineFault::Bad)
        ),
        "the script's line `a fly` is bad"
    );
    assert!(rt;
        matches!(read_numbered(alloc, &roles, b"4 show"), Err(LineFault::Bad)),
        "the numbered line `4 show` is bad"
    );
    let (session, name) = read_join(b"join 2 a")?;
    assert_eq!(rt; session, 2, "the session of `join 2 a`");
    assert!(rt; name.is_spelled(b"a"), "the role of `join 2 a`");
    Ok(())
}

// The line of a command.
fn line_of(alloc: Global, roles: &Roles, command: &Command) -> Result<Vec<u8>, AllocError>
    requires { NamesRolesOf roles.now command.now }
{
    write_command(alloc, roles, command)
}

// mps_line: `write_command`, `write_kept` and `write_answer`: a command, a kept answer and a reply are written as
// FORMATS has them.
#[test]
fn lines_are_written_by_mps_line(rt: HostRuntime) -> Result<(), Fail> {
    let alloc = rt.alloc();
    let (roles, _) = relay(alloc)?;
    let undo = line_of(alloc, &roles, &Command::Undo(StepId::new(3)))?;
    assert_eq!(rt; undo.as_slice(), b"undo 3".as_slice(), "the undo of 3");
    let refused = Answer::Refused(Refusal::Full);
    let kept = write_kept(alloc, &refused)?;
    assert_eq!(rt;
        kept.as_slice(),
        b"refused full".as_slice(),
        "the kept answer"
    );
    let reply = write_answer(alloc, &Reply::Answer(refused))?;
    assert_eq!(rt; reply.as_slice(), b"refused full".as_slice(), "the reply");
    Ok(())
}

// Refusals that no room gives have their codes.
fn have_codes(rt: &impl Abort) {
    assert_eq!(rt; Reply::BadLine.code(), 14, "the code of a bad line");
    assert_eq!(rt; Reply::NoSession.code(), 15, "the code of no session");
    assert_eq!(rt; Reply::NoRole.code(), 16, "the code of no role");
    assert_eq!(rt; Reply::Taken.code(), 17, "the code of a taken role");
    assert_eq!(rt; Reply::Number.code(), 19, "the code of a wrong number");
    assert_eq!(rt; Reply::Busy.code(), 20, "the code of a busy server");
    assert_eq!(rt; Reply::Unkept.code(), 21, "the code of a bad journal");
    assert_eq!(rt;
        Reply::Elsewhere.code(),
        22,
        "the code of another server's session"
    );
}

// mps_line: `Reply::code` and `read_answer`: the codes of refusals that no room gives, as in FORMATS; and a reply that
// is no refusal is read.
#[test]
fn refusals_of_mps_line_itself_have_their_codes(rt: HostRuntime) -> Result<(), Fail> {
    have_codes(&rt);
    let joined = read_answer(rt.alloc(), b"joined 1 a")?;
    assert!(rt;
        matches!(
            joined,
            Reply::Joined {
                session: 1,
                name: _
            }
        ),
        "the reply `joined 1 a`"
    );
    Ok(())
}

// ---- devices and streams

// mps_dev: `OverRead::new`, `OverWrite::new`, `Source::read` and `Sink::write`: two bytes are read from std's reader,
// and written to its writer.
#[test]
fn bytes_are_read_and_written_by_mps_dev(rt: HostRuntime) -> Result<(), Fail> {
    let mut buf = [0u8; 4];
    let mut source = OverRead::new(b"ab".as_slice());
    assert!(rt; source.read(&mut buf) == Ok(2), "two bytes are read");
    let mut sink = OverWrite::new(Vec::new(rt.alloc()));
    assert!(rt; sink.write(b"ab") == Ok(2), "two bytes are written");
    Ok(())
}

// mps_lines: `Lines::new`, `feed` and `next_line`: the line `a` comes out of the bytes that are fed, of which the last,
// no ASCII, begins another. mps_wire names these types too.
#[test]
fn a_line_comes_out_of_mps_lines(rt: HostRuntime) -> Result<(), Fail> {
    let mut lines = Lines::new(rt.alloc());
    lines.feed(b"a\n\x80")?;
    match lines.next_line()? {
        Some(Line::Text(text)) => assert_eq!(rt; text.as_slice(), b"a".as_slice(), "the line a"),
        Some(Line::TooLong) => return Err("a text, not one too long".into()),
        Some(Line::NotAscii) => return Err("a text of ASCII".into()),
        None => return Err("a line".into()),
    }
    Ok(())
}

// mps_wire: `replay_session`: a script of one line runs on a session, and makes one entry. 99 bytes are room enough for
// its answer, `done 1`.
#[test]
fn a_script_of_mps_wire_runs_on_a_session(rt: HostRuntime) -> Result<(), Fail> {
    let alloc = rt.alloc();
    let (names, session) = relay(alloc)?;
    let mut reader = Pieces::new(
        vec![in alloc; Vec::from_slice(alloc, b"a send b 5\n")?]?,
        None,
    );
    let mut writer = Short::new(alloc, 99)?;
    match replay_session(alloc, &mut reader, &mut writer, names, session) {
        Ok(room) => assert_eq!(rt; room.entries(), 1, "the entries after one line"),
        Err(_) => return Err("a room".into()),
    }
    Ok(())
}

// mps_wire: `replay`: a script runs on a session of these types, and ends where its answer finds no room: the writer
// takes 0 bytes.
#[test]
fn a_script_of_mps_wire_ends_where_there_is_no_room(rt: HostRuntime) -> Result<(), Fail> {
    let alloc = rt.alloc();
    let (names, _) = relay(alloc)?;
    let types = vec![in alloc; Local::End, Local::End, Local::End]?;
    let mut reader = Pieces::new(vec![in alloc; Vec::from_slice(alloc, b"a mark m")?]?, None);
    let mut writer = Short::new(alloc, 0)?;
    let ran = replay(alloc, &mut reader, &mut writer, names, types);
    assert!(rt;
        matches!(ran, Err(ReplayFault::WriteFault)),
        "no room for the answer"
    );
    Ok(())
}

// mps_wire: `converse`: a conversation of one numbered line runs to its end.
#[test]
fn a_conversation_of_mps_wire_runs_to_its_end(rt: HostRuntime) -> Result<(), Fail> {
    let alloc = rt.alloc();
    let (names, session) = relay(alloc)?;
    let mut caller = Solo::new(Room::open(alloc, names, session), a());
    let mut reader = Pieces::new(
        vec![in alloc; Vec::from_slice(alloc, b"1 send b 5\n")?]?,
        None,
    );
    let mut writer = Short::new(alloc, 99)?;
    let ending = converse(alloc, &mut caller, &mut reader, &mut writer);
    assert!(rt; ending == Ending::Closed, "the end of what is said");
    Ok(())
}

// ---- servers

// Two sessions of the relay.
fn two(alloc: Global) -> Result<Hub, Fail>
    ensures { IfOk result (λ h. h.given ≡ false) }
{
    let (names, first) = relay(alloc)?;
    let (_, second) = relay(alloc)?;
    let sessions = vec![in alloc; first, second]?;
    Ok(Hub::of(alloc, &names, sessions)?)
}

// mps_hub: `Hub::of`, `desk` and `Desk::take`: a desk of the sessions 1 and 2 gives no pass of session 3, nor
// of a role z.
#[test]
fn a_desk_of_mps_hub_refuses_unknown_passes(rt: HostRuntime) -> Result<(), Fail> {
    let alloc = rt.alloc();
    let mut hub = two(alloc)?;
    let name = Name::read(b"z").expect(&rt, "a name");
    let desk = hub.desk(alloc)?;
    assert!(rt;
        matches!(desk.take(&rt, 3, &name), Err(JoinFault::NoSession)),
        "no session 3"
    );
    assert!(rt;
        matches!(desk.take(&rt, 2, &name), Err(JoinFault::NoRole)),
        "no role z"
    );
    Ok(())
}

// mps_hub: `Hub::open` and `close`: a hub of one session gives its room back when it is closed.
#[test]
fn a_hub_of_mps_hub_gives_its_room_back(rt: HostRuntime) -> Result<(), Fail> {
    let alloc = rt.alloc();
    let types = [Local::End, Local::End, Local::End];
    let (names, _) = relay(alloc)?;
    let hub = Hub::open(alloc, &names, &types, 1)?;
    assert!(rt; hub.close(alloc)?.len() == 1, "one room for one session");
    Ok(())
}

// The pass goes back.
fn give<'a, R: Wait>(rt: &R, desk: &Desk<'a>, session: u64, pass: Pass<'a>)
    requires session { IsSession desk.now.first (length desk.now.cells) session }
    requires pass { IsOfSession desk.now session pass }
{
    desk.give(rt, session, pass);
}

// A gate that all pass.
#[derive(Drop)]
struct Open;

impl Gate for Open {
    fn before(&self, _connection: u64, _line: u64) {}
}

// How many connections ended and were lost, of two that were accepted in one way and the other.
fn served<R: Threads + Wait + Clock + Eprint + Sync + 'static>(
    rt: &R,
    alloc: Global,
    listener: &TcpListener,
    desk: &Desk<'_>,
) -> Result<u64, ServeFault> {
    let Served { ended, lost } = serve(rt, alloc, listener, desk, 1)?;
    let gated = serve_with(rt, alloc, listener, desk, 1, &Open)?;
    Ok(u64::wrapping_add(u64::wrapping_add(ended, lost), gated.ended))
}
