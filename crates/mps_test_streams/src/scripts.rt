//! mps_wire: a script's lines are answered in order, whatever pieces they come in and wherever it breaks off.
ghost use Rattle.std.specs.Prelude.{◌≡◌, ◌<◌, ◌^◌};
ghost use Rattle.mps_dev.specs.Pieces.{calls_of};

use crate::pieces::{
    Way, add_line, cut_long_line, empty_lines, fails_from, in_one_piece, in_pieces,
    in_single_bytes, in_two_pieces, refused_lines, room, told_by,
};
use crate::protocols::{RELAY, names, opened, types};
use mps_base::{Role, Sort, VarName};
use mps_dev::{Pieces, Short, Source};
use mps_lines::MAX_LINE;
use mps_local::Local;
use mps_wire::script::SCRIPT_BLOCK;
use mps_wire::{ReplayFault, replay, replay_session};
use std::alloc::Global;
use std::test::Fail;

// A relay's script, and the answers to its lines.
pub(crate) const SCRIPT: &str = "a send b 5\nb recv a x\nb send c 7\nc recv b y\n";

const ANSWERS: &str = "done 1\ndone 2 5\ndone 3\ndone 4 7\n";

// How a run went: what was written, and the fault that ended it.
type Outcome = (Vec<u8>, Option<ReplayFault>);

// Runs a script of the roles a, b and so on, with these types. Gives the fault that ended it.
fn run(
    alloc: Global,
    types: Vec<Local>,
    reader: &mut Pieces,
    writer: &mut Short,
) -> Result<Option<ReplayFault>, Fail>
    requires reads { calls_of reader.old ≡ 0 }
    requires writes { writer.old.failed_calls ≡ 0 }
    ensures reads { calls_of reader.new < 2 ^ 62 }
{
    let roles = names(alloc, types.len())?;
    let fault = replay(alloc, reader, writer, roles, types).err();
    if fault == Some(ReplayFault::Memory) {
        return Err("enough memory".into());
    }
    Ok(fault)
}

// How a run of these pieces goes.
fn outcome(
    alloc: Global,
    types: Vec<Local>,
    pieces: Vec<Vec<u8>>,
    way: Way,
) -> Result<Outcome, Fail> {
    let mut reader = Pieces::new(pieces, way.fails_from);
    let mut writer = Short::new(alloc, way.room)?;
    let fault = run(alloc, types, &mut reader, &mut writer)?;
    Ok((Vec::from_slice(alloc, writer.bytes())?, fault))
}

// Whether the run with these types ends so, with these bytes written.
pub(crate) fn comes_to(
    alloc: Global,
    types: Vec<Local>,
    pieces: Vec<Vec<u8>>,
    way: Way,
    want: &[u8],
    fault: Option<ReplayFault>,
) -> Result<bool, Fail> {
    let (written, found) = outcome(alloc, types, pieces, way)?;
    Ok(written.as_slice() == want && found == fault)
}

// Whether the run of a relay's script in these pieces ends so, with these bytes written.
fn relays(
    alloc: Global,
    pieces: Vec<Vec<u8>>,
    way: Way,
    want: &[u8],
    fault: Option<ReplayFault>,
) -> Result<bool, Fail> {
    comes_to(alloc, types(alloc, RELAY)?, pieces, way, want, fault)
}

// Whether a relay's script, as one piece and in single bytes, runs to its end and is answered so.
fn is_answered(alloc: Global, script: &str, want: &str) -> Result<bool, Fail> {
    let want = want.as_bytes();
    Ok(
        relays(alloc, in_one_piece(alloc, script)?, room(200), want, None)?
            && relays(
                alloc,
                in_single_bytes(alloc, script)?,
                room(200),
                want,
                None,
            )?,
    )
}

const EACH_LINE: &[(&str, &str)] = &[
    // four lines, none, an empty one, and lines that no LF ends
    (SCRIPT, ANSWERS),
    ("", ""),
    ("\n", "refused line\n"),
    ("a send b 5", "done 1\n"),
    (
        "\na send b 5\n\nb recv a x",
        "refused line\ndone 1\nrefused line\ndone 2 5\n",
    ),
    // a refused line changes nothing
    (
        "b recv a x\na send c 5\na send b true\na send b 5\n",
        "refused nothingqueued\nrefused wrongpeer\nrefused wrongsort\ndone 1\n",
    ),
    // the greatest int, 2^63 - 1, and one more
    ("a send b 9223372036854775807\n", "done 1\n"),
    ("a send b 9223372036854775808\n", "refused line\n"),
    // no line has a byte of 128 or more, or a CR before its LF
    ("a send b é\na send b 5\r\n", "refused line\nrefused line\n"),
];

// `mps_wire::replay` answers each line as a room does, in order, and an unreadable one with `refused line`.
#[test]
fn each_line_of_a_script_is_answered_in_order(rt: HostRuntime) -> Result<(), Fail> {
    for (script, want) in EACH_LINE {
        assert!(rt;
            is_answered(rt.alloc(), script, want)?,
            "the answers to {script:?}"
        );
    }
    Ok(())
}

// The lines of a script with each kind of answer, and what they are answered.
const PLAYED: &[(&str, &str)] = &[
    ("a send b 5", "done 1"),
    ("b recv a x", "done 2 5"),
    ("b show", SHOWN),
    ("", "refused line"),
    ("a undo 1", "refused needed 2"),
    ("a rollback 1", "undone 2 1"),
    ("b news 0", "news 3 2"),
    ("b send c 1", "refused wrongact"),
    ("a send b 6", "done 3"),
];

// The session after the first two lines, as it is shown.
const SHOWN: &str =
    r#"{"history":[[1,"a","send","b",5],[2,"b","recv","a","x",5]],"queues":[],"roles":[{"expects":"end","past":[1],"role":"a","store":[]},{"expects":"send c int","past":[2],"role":"b","store":[["x",5]]},{"expects":"recv b int","past":[],"role":"c","store":[]}]}"#;

// The lines of PLAYED as one text, whose last line no LF ends.
const ASKED: &str =
    "a send b 5\nb recv a x\nb show\n\na undo 1\na rollback 1\nb news 0\nb send c 1\na send b 6";

// The answer to the rest after those lines, where the first so many bytes are a whole script.
fn told_of_rest(alloc: Global, rows: &[(&str, &str)], at: usize) -> Result<Vec<u8>, Fail> {
    let mut told = Vec::new(alloc);
    let mut left = at;
    for (line, want) in rows {
        if left <= line.len() {
            if left == line.len() && left > 0 {
                add_line(&mut told, want)?;
            } else if left > 0 {
                add_line(&mut told, "refused line")?;
            }
            return Ok(told);
        }
        left -= line.len() + 1;
    }
    Ok(told)
}

// The answers to a script of the first so many bytes of `ASKED`.
fn told_in_all(alloc: Global, at: usize) -> Result<Vec<u8>, Fail> {
    let mut told = told_by(alloc, PLAYED, at)?;
    told.extend_from_slice(told_of_rest(alloc, PLAYED, at)?.as_slice())?;
    Ok(told)
}

// `mps_wire::replay` writes a script's answers in whatever two pieces it comes.
#[test]
fn any_two_pieces_are_answered_alike(rt: HostRuntime) -> Result<(), Fail> {
    let told = told_in_all(rt.alloc(), ASKED.len())?;
    for at in 0..ASKED.len() + 1 {
        let pieces = in_two_pieces(rt.alloc(), ASKED, at)?;
        assert!(rt;
            relays(rt.alloc(), pieces, room(1_000), &told, None)?,
            "cut at {at}"
        );
    }
    Ok(())
}

// Whether a script of the first so many bytes of `ASKED` is answered in full.
fn is_answered_up_to(alloc: Global, at: usize) -> Result<bool, Fail> {
    let script = ASKED.get(..at).ok_or("a place")?;
    let told = told_in_all(alloc, at)?;
    relays(
        alloc,
        in_one_piece(alloc, script)?,
        room(1_000),
        &told,
        None,
    )
}

// `mps_wire::replay` takes a last line that no LF ends as a line, wherever the script ends.
#[test]
fn a_last_line_without_an_lf_is_answered(rt: HostRuntime) -> Result<(), Fail> {
    for at in 0..ASKED.len() + 1 {
        assert!(rt; is_answered_up_to(rt.alloc(), at)?, "ended at {at}");
    }
    Ok(())
}

// Whether a run stops where the call after so many reads of one byte fails.
fn stops_after_reads(alloc: Global, at: usize) -> Result<bool, Fail> {
    let told = told_by(alloc, PLAYED, at)?;
    let pieces = in_single_bytes(alloc, ASKED)?;
    let fault = Some(ReplayFault::ReadFault);
    relays(
        alloc,
        pieces,
        fails_from(at.saturating_add(1)),
        &told,
        fault,
    )
}

// `mps_wire::replay` has answered the whole lines before the read that fails, and says that a read failed.
#[test]
fn whole_lines_are_answered_before_a_read_that_fails(rt: HostRuntime) -> Result<(), Fail> {
    for at in 0..ASKED.len() + 1 {
        assert!(rt; stops_after_reads(rt.alloc(), at)?, "failed after {at}");
    }
    Ok(())
}

// `mps_wire::replay` has written its answers up to the write that fails, each byte once, and says that a write failed.
#[test]
fn answers_are_written_up_to_a_write_that_fails(rt: HostRuntime) -> Result<(), Fail> {
    let told = told_in_all(rt.alloc(), ASKED.len())?;
    for space in 0..told.len() {
        let pieces = in_one_piece(rt.alloc(), ASKED)?;
        let fault = Some(ReplayFault::WriteFault);
        assert!(rt;
            relays(rt.alloc(), pieces, room(space), &told[..space], fault)?,
            "with room for {space} bytes"
        );
    }
    Ok(())
}

// In a loop, a chooses go or stop; at go, b gives a a text.
const TALK: &str = "roles a b ; rec X . a -> b { go : b -> a : text . X , stop : end }";

// Lines of both roles, two turns of the loop, and what they are answered.
const CHOSEN: &[(&str, &str)] = &[
    ("a mark m", "done 1"),
    ("b pick a", "refused nothingqueued"),
    ("b recv a x", "refused wrongact"),
    ("b pick b", "refused wrongpeer"),
    ("a choose b maybe", "refused nolabel"),
    ("a choose b go", "done 2"),
    ("a choose b go", "refused wrongact"),
    ("b pick a", "done 3 go"),
    ("b send a 5", "refused wrongsort"),
    ("b send a \"good day\"", "done 4"),
    ("a recv b w", "done 5 \"good day\""),
    ("a choose b stop", "done 6"),
    ("a choose b stop", "refused ended"),
    ("b pick a now", "refused line"),
    ("b pick a", "done 7 stop"),
    ("b pick a", "refused ended"),
    ("b mark m", "done 8"),
];

// Whether these lines, as one piece, are answered as they say, by the roles of the protocol.
fn are_answered(alloc: Global, protocol: &str, rows: &[(&str, &str)]) -> Result<bool, Fail> {
    let (mut script, mut want) = (Vec::new(alloc), Vec::new(alloc));
    for (line, answer) in rows {
        add_line(&mut script, line)?;
        add_line(&mut want, answer)?;
    }
    let pieces = vec![in alloc; script]?;
    comes_to(
        alloc,
        types(alloc, protocol)?,
        pieces,
        room(1_000),
        &want,
        None,
    )
}

// `mps_wire::replay` answers the lines of a protocol with a loop and a choice as its types allow.
#[test]
fn a_script_follows_a_loop_and_a_choice(rt: HostRuntime) -> Result<(), Fail> {
    assert!(rt;
        are_answered(rt.alloc(), TALK, CHOSEN)?,
        "17 lines, each answered as its row of CHOSEN says"
    );
    Ok(())
}

// A type that gives the peer numbers without end.
fn counts(alloc: Global, peer: u8) -> Result<Local, Fail> {
    let x = VarName::read(b"X").ok_or("a variable")?;
    let body = Local::send(alloc, Role::new(peer), Sort::Int, Local::Var(x))?;
    Ok(Local::rec(alloc, x, body)?)
}

// The line so many times.
fn repeated(alloc: Global, line: &str, times: u32) -> Result<Vec<u8>, Fail> {
    let mut text = Vec::new(alloc);
    for _ in 0..times {
        add_line(&mut text, line)?;
    }
    Ok(text)
}

// What a script of so many numbers comes to.
fn counted(alloc: Global, numbers: u32) -> Result<Outcome, Fail> {
    let types = vec![in alloc; counts(alloc, 1)?, Local::End]?;
    let pieces = vec![in alloc; repeated(alloc, "a send b 1", numbers)?]?;
    outcome(alloc, types, pieces, room(2_000_000))
}

// `mps_wire::replay` has a journal of 100,000 entries at most: of 100,001 sends the last is refused.
#[test]
fn the_100_001st_send_is_refused_as_full(rt: HostRuntime) -> Result<(), Fail> {
    let (written, fault) = counted(rt.alloc(), 100_001)?;
    assert_eq!(rt; fault, None, "no fault");
    assert!(rt;
        written.starts_with(b"done 1\ndone 2\n"),
        "the first answers"
    );
    assert!(rt;
        written.ends_with(b"done 99999\ndone 100000\nrefused full\n"),
        "the last answers"
    );
    Ok(())
}

// A line of so many bytes that is no command, and a command, in one piece.
fn long_line(alloc: Global, length: usize) -> Result<Vec<Vec<u8>>, Fail> {
    let mut script = vec![in alloc; b'a'; length]?;
    script.extend_from_slice(b"\na send b 5\n")?;
    Ok(vec![in alloc; script]?)
}

// The answers to a line that is no command and to a command.
const LONG_ANSWERED: &[u8] = b"refused line\ndone 1\n";

// Whether such a line is answered so.
fn is_long(alloc: Global, length: usize) -> Result<bool, Fail> {
    relays(
        alloc,
        long_line(alloc, length)?,
        room(200),
        LONG_ANSWERED,
        None,
    )
}

// Whether such a line is answered so where it comes in two pieces.
fn is_long_in_two(alloc: Global, length: usize) -> Result<bool, Fail> {
    let pieces = cut_long_line(alloc, length, "a send b 5")?;
    relays(alloc, pieces, room(200), LONG_ANSWERED, None)
}

// `mps_wire::replay` refuses each long line once, and answers the next. Lines have 512 bytes (MAX_LINE) at most, and a
// block 65,536 (SCRIPT_BLOCK). The limit itself this can't show: so many `a` spell nothing.
#[test]
fn a_long_line_is_refused_once(rt: HostRuntime) -> Result<(), Fail> {
    for length in [
        MAX_LINE,
        MAX_LINE + 1,
        SCRIPT_BLOCK,
        SCRIPT_BLOCK + 1,
        1_000_001,
    ] {
        assert!(rt; is_long(rt.alloc(), length)?, "a line of {length} bytes");
    }
    for length in [MAX_LINE, MAX_LINE + 1, 100_000] {
        assert!(rt;
            is_long_in_two(rt.alloc(), length)?,
            "a line of {length} bytes in two pieces"
        );
    }
    Ok(())
}

// The device that fails.
#[derive(Clone, Copy)]
enum Device {
    Reader,
    Writer,
}

// The fault that ends a run then.
fn fault_of(device: Device) -> ReplayFault {
    match device {
        Device::Reader => ReplayFault::ReadFault,
        Device::Writer => ReplayFault::WriteFault,
    }
}

// The pieces of a relay's script, from which read on reads fail, how many bytes of answers are taken, what these are,
// and the device at which it stops.
type Stop = (
    &'static [&'static str],
    Option<u64>,
    usize,
    &'static str,
    Device,
);

const STOPS: &[Stop] = &[
    // the first read fails
    (&[SCRIPT], Some(1), 1_000, "", Device::Reader),
    // the second read fails, within the second line
    (
        &["a send b 5\nb re", "cv a x\n"],
        Some(2),
        1_000,
        "done 1\n",
        Device::Reader,
    ),
    // three bytes of the first answer are taken
    (&[SCRIPT], None, 3, "don", Device::Writer),
];

// Whether the run stops as the row says.
fn stops(alloc: Global, row: &Stop) -> Result<bool, Fail> {
    let (texts, fails_from, room, want, device) = row;
    let way = Way {
        fails_from: *fails_from,
        room: *room,
    };
    let pieces = in_pieces(alloc, texts)?;
    relays(alloc, pieces, way, want.as_bytes(), Some(fault_of(*device)))
}

// `mps_wire::replay` says which device failed. It has written the answers to the lines read before, as far as they were
// taken.
#[test]
fn the_device_that_failed_is_told(rt: HostRuntime) -> Result<(), Fail> {
    for row in STOPS {
        assert!(rt;
            stops(rt.alloc(), row)?,
            "the end after the answers `{}`",
            row.3
        );
    }
    Ok(())
}

// 4,096 lines of 16 bytes are 65,536 bytes; one more byte ends an empty line.
fn a_block_and_a_byte(alloc: Global) -> Result<Vec<Vec<u8>>, Fail> {
    let mut piece = repeated(alloc, "a send b 123456", 4096)?;
    piece.push(b'\n')?;
    Ok(vec![in alloc; piece]?)
}

// The answers to the lines of the first block.
fn first_answers(alloc: Global) -> Result<Vec<u8>, Fail> {
    let mut answers = Vec::from_slice(alloc, b"done 1\n")?;
    answers.extend_from_slice(repeated(alloc, "refused ended", 4095)?.as_slice())?;
    Ok(answers)
}

// Whether the second read fails after them.
fn has_first(alloc: Global) -> Result<bool, Fail> {
    let answers = first_answers(alloc)?;
    let way = Way {
        fails_from: Some(2),
        room: 100_000,
    };
    let fault = Some(ReplayFault::ReadFault);
    relays(alloc, a_block_and_a_byte(alloc)?, way, &answers, fault)
}

// Whether one more line is answered where it doesn't.
fn has_all(alloc: Global) -> Result<bool, Fail> {
    let mut answers = first_answers(alloc)?;
    add_line(&mut answers, "refused line")?;
    let way = room(100_000);
    relays(alloc, a_block_and_a_byte(alloc)?, way, &answers, None)
}

// `mps_wire::replay` reads 65,536 bytes (SCRIPT_BLOCK) at once, and answers their lines before the next read.
#[test]
fn a_block_is_answered_before_the_next_read(rt: HostRuntime) -> Result<(), Fail> {
    assert!(rt; has_first(rt.alloc())?, "the lines of the first block");
    assert!(rt; has_all(rt.alloc())?, "all lines");
    Ok(())
}

// Whether so many empty lines, each read by itself, end so, with so many of them answered: with 13 bytes each.
fn ends_after_lines(
    alloc: Global,
    pieces: usize,
    lines: usize,
    fault: Option<ReplayFault>,
) -> Result<bool, Fail> {
    let answers = refused_lines(alloc, lines)?;
    relays(
        alloc,
        empty_lines(alloc, pieces)?,
        room(14_000_000),
        &answers,
        fault,
    )
}

// `mps_wire::replay` reads MAX_READS times, 1,000,000, and then ends as `Turns`, unless the last of these reads found
// the end.
#[test]
fn a_script_ends_after_a_million_reads(rt: HostRuntime) -> Result<(), Fail> {
    let turns = Some(ReplayFault::Turns);
    assert!(rt;
        ends_after_lines(rt.alloc(), 1_000_001, 1_000_000, turns)?,
        "a million lines and one more"
    );
    // 999,999 lines, and the millionth read finds the end
    assert!(rt;
        ends_after_lines(rt.alloc(), 999_999, 999_999, None)?,
        "999,999 lines"
    );
    Ok(())
}

// The bytes that are left to read, 20 at most.
fn left(alloc: Global, reader: &mut Pieces) -> Result<Vec<u8>, Fail>
    requires { calls_of reader.old < 2 ^ 62 }
{
    let mut rest = [0u8; 20];
    match reader.read(&mut rest) {
        Ok(count) => Ok(Vec::from_slice(alloc, rest.get(..count).ok_or("a count")?)?),
        Err(_) => Err("a read".into()),
    }
}

// What a run of the lines ends with that has no room for an answer.
fn without_room(alloc: Global, reader: &mut Pieces) -> Result<Option<ReplayFault>, Fail>
    requires { calls_of reader.old ≡ 0 }
    ensures { calls_of reader.new < 2 ^ 62 }
{
    let mut writer = Short::new(alloc, 0)?;
    run(alloc, types(alloc, RELAY)?, reader, &mut writer)
}

// What a run of two lines ends with that has no room for an answer, and what is left to read then.
fn left_unread(alloc: Global) -> Result<(Option<ReplayFault>, Vec<u8>), Fail> {
    let pieces = in_pieces(alloc, &["a send b 5\n", "b recv a x\n"])?;
    let mut reader = Pieces::new(pieces, None);
    let fault = without_room(alloc, &mut reader)?;
    Ok((fault, left(alloc, &mut reader)?))
}

// `mps_wire::replay` writes the answers to what it has read before it reads on: where there is no room, the second line
// is left.
#[test]
fn answers_are_written_before_the_next_read(rt: HostRuntime) -> Result<(), Fail> {
    let (fault, rest) = left_unread(rt.alloc())?;
    assert_eq!(rt; fault, Some(ReplayFault::WriteFault), "the writer is full");
    assert_eq!(rt;
        rest.as_slice(),
        b"b recv a x\n".as_slice(),
        "the second line is left"
    );
    Ok(())
}

// ---- a session that is handed in

// The entries, the steps that survive and the numbers given out after a script, or what failed.
type Left<F> = Result<(u64, usize, u64), F>;

// What a script leaves of the session.
fn left_of(
    alloc: Global,
    reader: &mut Pieces,
    writer: &mut Short,
) -> Result<Left<ReplayFault>, Fail>
    requires reads { calls_of reader.old ≡ 0 }
    requires writes { writer.old.failed_calls ≡ 0 }
{
    let (roles, session) = opened(alloc, RELAY)?;
    match replay_session(alloc, reader, writer, roles, session) {
        Ok(room) => Ok(Ok((
            room.entries(),
            room.session().len(),
            room.session().issued(),
        ))),
        Err(fault) => Ok(Err(fault)),
    }
}

// A relay's script, from which read on reads fail, how many bytes of answers are taken, what these are, and what is
// left of a session that was opened before.
type OnASession = (&'static str, Option<u64>, usize, &'static str, Left<Device>);

const ON_A_SESSION: &[OnASession] = &[
    // scripts to their ends; the undone step is an entry, as is its undo, and its number stays used
    (SCRIPT, None, 200, ANSWERS, Ok((4, 4, 4))),
    ("", None, 200, "", Ok((0, 0, 0))),
    (
        "a send b 5\na undo 1\na send b 6",
        None,
        200,
        "done 1\nundone 1\ndone 2\n",
        Ok((3, 1, 2)),
    ),
    // the first read fails, or the second, which would have found the end
    (SCRIPT, Some(1), 1_000, "", Err(Device::Reader)),
    (SCRIPT, Some(2), 1_000, ANSWERS, Err(Device::Reader)),
    // 8 bytes of answers are taken
    (SCRIPT, None, 8, "done 1\nd", Err(Device::Writer)),
];

// Whether the script is answered so, and leaves that.
fn leaves(alloc: Global, row: &OnASession) -> Result<bool, Fail> {
    let mut reader = Pieces::new(in_one_piece(alloc, row.0)?, row.1);
    let mut writer = Short::new(alloc, row.2)?;
    let left = left_of(alloc, &mut reader, &mut writer)?;
    let want = match row.4 {
        Ok(counts) => Ok(counts),
        Err(device) => Err(fault_of(device)),
    };
    Ok(writer.bytes() == row.3.as_bytes() && left == want)
}

// `mps_wire::replay_session` runs a script on a given session, and gives the room, with an entry for each accepted
// change.
#[test]
fn a_script_runs_on_a_given_session(rt: HostRuntime) -> Result<(), Fail> {
    for row in ON_A_SESSION {
        assert!(rt; leaves(rt.alloc(), row)?, "the room after {:?}", row.0);
    }
    Ok(())
}
