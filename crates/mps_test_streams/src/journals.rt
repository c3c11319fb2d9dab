//! mps_keeper, with mps_line and mps_hub: what is told is recorded, and the lines of a journal restore its session.

ghost use Rattle.std.specs.Prelude.{◌≡◌, false, IfOk};

use crate::protocols::{RELAY, names, opened};
use mps_base::{Role, Roles, StepId};
use mps_command::{Command, Forward};
use mps_dev::{OverRead, Pieces, Short};
use mps_hub::{Attended, Desk, Hub, Serving, Unguarded};
use mps_keeper::{Book, Guest, Recorder, RestoreFault, Restored, RestoredRoom};
use mps_line::{LineFault, has_journal_line, read_journal_line, write_journal_line};
use mps_room::{Caller, Room, Solo};
use mps_seal::Seal;
use mps_wire::{Ending, converse};
use std::alloc::Global;
use std::process::Abort;
use std::sync::Wait;
use std::test::Fail;
use std::time::Clock;

// ---- lines

// A line, and the role and the number that it has; or nothing, where it is unreadable.
const LINES: &[(&str, Option<(u8, Option<u64>)>)] = &[
    // a role, a number or none, and a change; 18446744073709551615 is the greatest number, 2^64 - 1
    ("a send b 5", Some((0, None))),
    ("b 1 recv a x", Some((1, Some(1)))),
    (
        "c 18446744073709551615 undo 3",
        Some((2, Some(18_446_744_073_709_551_615))),
    ),
    ("c 0 mark m", Some((2, Some(0)))),
    ("a commit", Some((0, None))),
    ("a back m", Some((0, None))),
    // questions are not recorded
    ("a show", None),
    ("a news 0", None),
    ("a 1 show", None),
    // no such role, another spelling, a part too few
    ("d send b 5", None),
    ("a send d 5", None),
    ("a  send b 5", None),
    ("a 01 send b 5", None),
    ("a 1  send b 5", None),
    ("a 18446744073709551616 undo 3", None),
    ("a", None),
    (" a send b 5", None),
    ("a send b 5 ", None),
    ("", None),
];

// Whether the line is read with that role and number, or is unreadable.
fn is_read(
    alloc: Global,
    roles: &Roles,
    line: &str,
    found: Option<(u8, Option<u64>)>,
) -> Result<bool, Fail> {
    match read_journal_line(alloc, roles, line.as_bytes()) {
        Ok(read) => Ok(found == Some((read.role.index() as u8, read.number))),
        Err(LineFault::Bad) => Ok(found.is_none()),
        Err(LineFault::Memory) => Ok(false),
    }
}

// `mps_line::read_journal_line` reads a role, a number if there is one, and a change; any other line is `Bad`.
#[test]
fn a_line_of_a_journal_has_role_number_and_change(rt: HostRuntime) -> Result<(), Fail> {
    let roles = names(rt.alloc(), 3)?;
    for (line, found) in LINES {
        assert!(rt;
            is_read(rt.alloc(), &roles, line, *found)?,
            "what `{line}` is read as"
        );
    }
    Ok(())
}

// `mps_line::write_journal_line` appends the line without an LF, here after a `|` and then after the first line.
#[test]
fn a_line_of_a_journal_is_appended(rt: HostRuntime) -> Result<(), Fail> {
    let alloc = rt.alloc();
    let roles = names(alloc, 3)?;
    let mut text = Vec::from_slice(alloc, b"|")?;
    let undo = Command::Undo(StepId::new(3));
    write_journal_line(&roles, Role::new(2), Some(7), &undo, &mut text)?;
    assert_eq!(rt;
        text.as_slice(),
        b"|c 7 undo 3".as_slice(),
        "c's undo, after the `|`"
    );
    let commit = Command::Forward(Forward::Commit);
    write_journal_line(&roles, Role::new(0), None, &commit, &mut text)?;
    assert_eq!(rt;
        text.as_slice(),
        b"|c 7 undo 3a commit".as_slice(),
        "a's commit, after the first line"
    );
    Ok(())
}

// ---- conversations that are kept

// What a asks of the relay; some of it is refused, asks nothing, or comes again.
const ASKED: &[u8] =
    b"1 send b 5\n1 send b 5\n2 undo 9\nshow\n2 mark m\nmark k\n2 mark m\nund\n3 undo 3\n";

// What of it is kept.
const KEPT: &[u8] = b"a 1 send b 5\na 2 mark m\na mark k\na 3 undo 3\n";

// The lines of KEPT with seals, in session 1 of the relay. Seals here were computed by Python's hashlib.
const SEALED: &[u8] = b"a 1 send b 5 c7d5a8b15e5c78c4\na 2 mark m 0b3e8f4d066c445c\n\
a mark k 9f2e668e482afe00\na 3 undo 3 c541aa149bb0fe23\n";

// The seal before the first line of the relay's session 1.
fn first(alloc: Global) -> Result<Seal, Fail> {
    Ok(Seal::first(alloc, RELAY.as_bytes(), 1)?)
}

// A caller with a book.
type Keeping = Guest<'static, Unguarded, Book<Short>, Solo>;

// The caller of the role at that place in a new relay.
fn solo(alloc: Global, place: usize) -> Result<Solo, Fail> {
    let (names, session) = opened(alloc, RELAY)?;
    if place >= session.roles() {
        return Err("a role".into());
    }
    Ok(Solo::new(Room::open(alloc, names, session), Role::new(place as u8)))
}

// The caller of a in a new relay, with a book that has so many lines and takes so many bytes.
fn with_book(alloc: Global, lines: u64, space: usize) -> Result<Keeping, Fail> {
    let solo = solo(alloc, 0)?;
    let book = Book::new(Short::new(alloc, space)?, lines, first(alloc)?);
    Ok(Guest::new(&Unguarded, 1, book, solo, Vec::new(alloc)))
}

// How the conversation ends, and what is told.
fn talked(alloc: Global, caller: &mut Keeping) -> Result<(Ending, Vec<u8>), Fail> {
    let mut reader = Pieces::new(vec![in alloc; Vec::from_slice(alloc, ASKED)?]?, None);
    let mut writer = Short::new(alloc, 2_000)?;
    let ending = converse(alloc, caller, &mut reader, &mut writer);
    Ok((ending, Vec::from_slice(alloc, writer.bytes())?))
}

// How a conversation ends, what is kept of it, whether all was, and what is told.
#[derive(Drop)]
struct Kept {
    ending: Ending,
    lines: Vec<u8>,
    is_whole: bool,
    told: Vec<u8>,
}

// What a conversation comes to where the book has so many lines and takes so many bytes.
fn kept_by(alloc: Global, lines: u64, space: usize) -> Result<Kept, Fail> {
    let mut caller = with_book(alloc, lines, space)?;
    let (ending, told) = talked(alloc, &mut caller)?;
    Ok(Kept {
        ending,
        lines: Vec::from_slice(alloc, caller.recorder.sink().bytes())?,
        is_whole: caller.recorder.is_whole(),
        told,
    })
}

// `mps_keeper::Guest` with a `Book` records just the accepted changes, each once, with their numbers, and tells all
// answers.
#[test]
fn just_what_is_accepted_is_recorded(rt: HostRuntime) -> Result<(), Fail> {
    // a book without lines, with room for more bytes than all lines have
    let kept = kept_by(rt.alloc(), 0, 2_000)?;
    assert!(rt; kept.ending == Ending::Closed, "the conversation is closed");
    assert!(rt; kept.is_whole, "each line is kept");
    assert_eq!(rt; kept.lines.as_slice(), SEALED, "the lines with their seals");
    assert!(rt;
        kept.told.starts_with(b"done 1\ndone 1\nrefused nostep\n{"),
        "the first answers"
    );
    assert!(rt;
        kept.told
            .ends_with(b"}\ndone 2\ndone 3\ndone 2\nrefused line\nundone 3\n"),
        "the last answers"
    );
    Ok(())
}

// Whether a book with room for so many bytes has a front of the lines, and just the answers before the first line that
// it lacks are told. The lines end at the bytes 30, 58, 84 and 112; repeats, refusals and questions are answered too.
fn is_cut(alloc: Global, space: usize) -> Result<bool, Fail> {
    let kept = kept_by(alloc, 0, space)?;
    let answers = kept.told.iter().filter(|&&byte| byte == b'\n').count();
    let wanted = match space {
        0..=29 => 0,
        30..=57 => 4,
        58..=83 => 5,
        _ => 8,
    };
    let is_untold = kept.ending == Ending::Untold && !kept.is_whole;
    let is_front = SEALED.get(..space) == Some(kept.lines.as_slice());
    Ok(is_untold && is_front && answers == wanted)
}

// `mps_keeper::Book` that has 5 lines takes no line of entry 1: nothing is recorded, nothing told, and the end is
// `Untold`.
#[test]
fn a_line_out_of_order_is_neither_kept_nor_told(rt: HostRuntime) -> Result<(), Fail> {
    let kept = kept_by(rt.alloc(), 5, 2_000)?;
    assert!(rt; kept.ending == Ending::Untold, "the end is untold");
    assert!(rt; !kept.is_whole, "a line was lost");
    assert_eq!(rt; kept.lines.len(), 0, "the bytes that are kept");
    assert_eq!(rt; kept.told.len(), 0, "the bytes that are told");
    Ok(())
}

// `mps_keeper::Guest` tells no answer whose line its `Book` doesn't take whole, and none after it, wherever the room
// ends.
#[test]
fn nothing_is_told_that_is_not_kept(rt: HostRuntime) -> Result<(), Fail> {
    for space in 0..SEALED.len() {
        assert!(rt; is_cut(rt.alloc(), space)?, "with room for {space} bytes");
    }
    Ok(())
}

// A recorder that keeps how many lines it was last waited for.
#[derive(Drop)]
struct Waits {
    lines: u64,
    is_whole: bool,
}

impl Recorder for Waits {
    ghost use Rattle.std.specs.Prelude.{None, true};

    ghost records = { λ _. true };

    ghost taken = { λ _. None };

    ghost whole = { λ w. w.is_whole };

    ghost Place = { Unit {0} };

    ghost place = { λ _. tt };

    fn records(&self) -> bool {
        true
    }

    fn is_whole(&self) -> bool {
        self.is_whole
    }

    fn add(&mut self, _nth: u64, _line: &mut Vec<u8>) {}

    fn settle(&mut self, lines: u64) {
        self.lines = lines;
    }

    fn lose(&mut self) {
        self.is_whole = false;
    }
}

// A guest of the caller whose recorder wasn't waited for yet.
fn waiting(alloc: Global, solo: Solo) -> Guest<'static, Unguarded, Waits, Solo> {
    let waits = Waits {
        lines: 0,
        is_whole: true,
    };
    Guest::new(&Unguarded, 1, waits, solo, Vec::new(alloc))
}

// How many lines were waited for when a question, or a refusal, was answered after a step.
fn waited_for(alloc: Global, lines: &[u8]) -> Result<u64, Fail> {
    let mut guest = waiting(alloc, solo(alloc, 0)?);
    let mut reader = OverRead::new(lines);
    let mut writer = Short::new(alloc, 2_000)?;
    match converse(alloc, &mut guest, &mut reader, &mut writer) {
        Ending::Closed => Ok(guest.recorder.lines),
        _ => Err("to its end".into()),
    }
}

// `mps_keeper::Guest` waits (`settle`) before it tells the answer to a question, or a refusal, till the entries that
// its caller saw are recorded. The line of a step is added instead.
#[test]
fn an_answer_waits_till_what_it_tells_of_is_kept(rt: HostRuntime) -> Result<(), Fail> {
    let alloc = rt.alloc();
    let waited = waited_for(alloc, b"mark m\n")?;
    assert_eq!(rt; waited, 0, "the lines waited for, of a step");
    let waited = waited_for(alloc, b"mark m\nnews 0\n")?;
    assert_eq!(rt; waited, 1, "the lines waited for, of a question");
    let waited = waited_for(alloc, b"mark m\nmark m\nundo 9\n")?;
    assert_eq!(rt; waited, 2, "the lines waited for, of a refusal");
    Ok(())
}

// `mps_keeper::Guest` that is new waits till the entry that its caller saw before is recorded.
#[test]
fn a_new_guest_waits_till_what_was_shown_is_kept(rt: HostRuntime) -> Result<(), Fail> {
    let alloc = rt.alloc();
    let mut caller = solo(alloc, 0)?;
    let _marked = caller.call(Command::Forward(Forward::Commit));
    assert_eq!(rt; caller.room.entries(), 1, "the entries before the guest");
    assert_eq!(rt;
        waiting(alloc, caller).recorder.lines,
        1,
        "the lines waited for, of a new guest"
    );
    Ok(())
}

// ---- restoring

// A room of a new relay.
fn relay(alloc: Global) -> Result<RestoredRoom, Fail> {
    let (names, session) = opened(alloc, RELAY)?;
    Ok(RestoredRoom::new(alloc, names, session)?)
}

// A text, and what restoring it comes to: so many lines of so many bytes; or the line that isn't restored, and why.
const TEXTS: &[(&str, Result<(u64, usize), RestoreFault>)] = &[
    // whole lines, and a rest without an LF, which isn't looked at
    ("", Ok((0, 0))),
    ("a send b 5\n", Ok((1, 11))),
    ("a send b 5\nb 1 mark m\nb 2 mark", Ok((2, 22))),
    // an empty line
    ("a send b 5\n\n", Err(RestoreFault::Unreadable { line: 2 })),
    // a may send once; the third line is no line, but the second is told
    (
        "a send b 5\na send b 5\nund\n",
        Err(RestoreFault::Refused { line: 2 }),
    ),
    // a number that isn't the next
    ("a 2 mark m\n", Err(RestoreFault::Refused { line: 1 })),
    (
        "a 1 mark m\na 1 mark m\n",
        Err(RestoreFault::Refused { line: 2 }),
    ),
    (
        "a 1 mark m\na 2 undo 1\na 4 mark m\n",
        Err(RestoreFault::Refused { line: 3 }),
    ),
    // no role
    ("show\n", Err(RestoreFault::Unreadable { line: 1 })),
    // the mark, and lines with their seals
    (" 7b9610c3358da3ab\n", Ok((0, 18))),
    (
        " 7b9610c3358da3ab\na send b 5 9cd97bcda52a45db\nb 1 recv a x e2fc9d77415e488d\n",
        Ok((2, 76)),
    ),
    // a line without a seal stands before the mark
    (
        "a send b 5\n 342f2bebc208f657\nb 1 recv a x ffcf8c797f1ebf74\n",
        Ok((2, 59)),
    ),
    // a changed line, one that stands twice, one without its seal, one after a line that is gone
    (
        " 7b9610c3358da3ab\na send b 6 9cd97bcda52a45db\n",
        Err(RestoreFault::Changed { line: 2 }),
    ),
    (
        " 7b9610c3358da3ab\na send b 5 9cd97bcda52a45db\na send b 5 9cd97bcda52a45db\n",
        Err(RestoreFault::Changed { line: 3 }),
    ),
    (
        " 7b9610c3358da3ab\na send b 5\n",
        Err(RestoreFault::Changed { line: 2 }),
    ),
    (
        " 7b9610c3358da3ab\nb 1 recv a x e2fc9d77415e488d\n",
        Err(RestoreFault::Changed { line: 2 }),
    ),
    // the mark of another session, and no mark
    (
        " b315769fed1e5c8f\n",
        Err(RestoreFault::Changed { line: 1 }),
    ),
    (
        "a send b 5 9cd97bcda52a45db\n",
        Err(RestoreFault::Unreadable { line: 1 }),
    ),
    // what a write that broke off may have left, and what it can't have
    (" 7b9610c3358da3ab", Ok((0, 0))),
    (
        " 7b9610c3358da3ab\na send b 5 9cd97bcda52a45db",
        Ok((0, 18)),
    ),
    ("a send b 5\n\0\0\0", Err(RestoreFault::Changed { line: 2 })),
    // the LF of the last line is another byte
    (" 7b9610c3358da3abJ", Err(RestoreFault::Changed { line: 1 })),
    (
        " 7b9610c3358da3ab\na send b 5 9cd97bcda52a45dbJ",
        Err(RestoreFault::Changed { line: 2 }),
    ),
    // a second mark says nothing
    (
        " 7b9610c3358da3ab\n 3cbadd3fd515a418\n",
        Err(RestoreFault::Unreadable { line: 2 }),
    ),
];

// Whether restoring the text comes to that.
fn is_restored(
    alloc: Global,
    text: &str,
    comes: Result<(u64, usize), RestoreFault>,
) -> Result<bool, Fail> {
    let mut room = relay(alloc)?;
    let restored = room.restore_lines(alloc, first(alloc)?, text.as_bytes());
    Ok(restored.map(|r| (r.lines, r.bytes)) == comes)
}

// `mps_keeper::RestoredRoom::restore_lines` gives each whole line to its role's caller, and names the first line that
// isn't accepted, from 1.
#[test]
fn a_text_is_restored_up_to_its_first_bad_line(rt: HostRuntime) -> Result<(), Fail> {
    for (text, comes) in TEXTS {
        assert!(rt;
            is_restored(rt.alloc(), text, *comes)?,
            "what `{text}` restores"
        );
    }
    Ok(())
}

// The newest number of each role.
fn newest(room: &RestoredRoom) -> [u64; 3] {
    match room.numbers.as_slice() {
        [a, b, c] => [a.last(), b.last(), c.last()],
        _ => [0; 3],
    }
}

// `mps_keeper::RestoredRoom::restore_lines` gives each role its newest number, and the room the four entries of `KEPT`.
#[test]
fn numbers_and_entries_are_restored(rt: HostRuntime) -> Result<(), Fail> {
    let alloc = rt.alloc();
    let mut room = relay(alloc)?;
    assert!(rt;
        room.restore_lines(alloc, first(alloc)?, KEPT).is_ok(),
        "all lines are accepted"
    );
    assert_eq!(rt; room.room.entries(), 4, "the count of entries");
    assert_eq!(rt; newest(&room), [3, 0, 0], "the newest numbers of a, b, c");
    Ok(())
}

// The lines of a journal of three roles, of which two have numbers.
const MIXED: &[u8] = b"a 1 send b 5\nb 1 mark m\na 2 mark k\nb 2 recv a x\nc mark n\n";

// Each entry of the room as a line of a journal, without its number.
fn lines_of(alloc: Global, room: &Room) -> Result<Vec<u8>, Fail> {
    let mut text = Vec::new(alloc);
    for k in 0..room.entries() {
        let Some(entry) = room.entry(k)? else {
            return Err("an entry".into());
        };
        if !has_journal_line(room.names(), entry.role, &entry.command) {
            return Err("a line".into());
        }
        write_journal_line(room.names(), entry.role, None, &entry.command, &mut text)?;
        text.push(b'\n')?;
    }
    Ok(text)
}

// `mps_keeper::RestoredRoom::restore_lines` keeps the order of lines of several roles, and the newest number of each: 2
// of a and b, none of c.
#[test]
fn lines_of_several_roles_are_restored_in_order(rt: HostRuntime) -> Result<(), Fail> {
    let alloc = rt.alloc();
    let mut room = relay(alloc)?;
    assert!(rt;
        room.restore_lines(alloc, first(alloc)?, MIXED).is_ok(),
        "all lines are accepted"
    );
    let wanted: &[u8] = b"a send b 5\nb mark m\na mark k\nb recv a x\nc mark n\n";
    let lines = lines_of(alloc, &room.room)?;
    assert_eq!(rt; lines.as_slice(), wanted, "the entries in order");
    assert_eq!(rt; newest(&room), [2, 2, 0], "the newest numbers of a, b, c");
    Ok(())
}

// `mps_keeper::Book`: what it wrote after its mark is a sealed line, which is read again.
#[test]
fn what_was_recorded_is_read_again(rt: HostRuntime) -> Result<(), Fail> {
    let alloc = rt.alloc();
    let mut book = Book::new(Short::new(alloc, 100)?, 0, first(alloc)?);
    assert!(rt; book.mark(alloc).is_ok(), "the mark is written");
    book.add(1, &mut Vec::from_slice(alloc, b"a send b 5")?);
    let wanted: &[u8] = b" 7b9610c3358da3ab\na send b 5 9cd97bcda52a45db\n";
    assert!(rt; book.is_whole(), "the book has each line");
    assert_eq!(rt; book.lines(), 1, "the count of lines");
    assert_eq!(rt; book.sink().bytes(), wanted, "one line, after the mark");
    Ok(())
}

// ---- sessions

// What a connection is answered that sends these lines.
fn answers<R: Wait + Clock + Eprint + 'static>(
    rt: &R,
    alloc: Global,
    desk: &Desk<'_>,
    lines: &[u8],
) -> Result<Vec<u8>, Fail> {
    let mut reader = Pieces::new(vec![in alloc; Vec::from_slice(alloc, lines)?]?, None);
    let mut writer = Short::new(alloc, 2_000)?;
    let ended = Serving::unrecorded(rt, alloc, desk, &Unguarded).attend(
        1,
        &mut reader,
        &mut writer,
    );
    if ended != Attended::Conversed(Ending::Closed) {
        return Err("another end".into());
    }
    Ok(Vec::from_slice(alloc, writer.bytes())?)
}

// Whether a connection that sends these lines is answered so.
fn is_told<R: Wait + Clock + Eprint + 'static>(
    rt: &R,
    alloc: Global,
    desk: &Desk<'_>,
    lines: &[u8],
    wanted: &[u8],
) -> Result<bool, Fail> {
    Ok(answers(rt, alloc, desk, lines)?.as_slice() == wanted)
}

// a repeats its last line, whose answer is told again, and takes it back, with b's step 2.
const BY_A: &[u8] = b"join 2 a\n1 send b 5\n2 rollback 1\n";

const TOLD_A: &[u8] = b"joined 2 a\ndone 1\nundone 2 1\n";

// b hears that its step 2 is gone.
const BY_B: &[u8] = b"join 2 b\nnews 0\n";

const TOLD_B: &[u8] = b"joined 2 b\nnews 3 2\n";

// A room that two lines led to, of 24 bytes, before a third broke off.
fn restored(alloc: Global) -> Result<RestoredRoom, Fail> {
    let mut lines = OverRead::new(b"a 1 send b 5\nb recv a x\nb mar".as_slice());
    let mut room = relay(alloc)?;
    match room.restore_from(alloc, first(alloc)?, &mut lines) {
        Ok(
            Restored {
                lines: 2,
                bytes: 24,
                chain: _,
            },
        ) => Ok(room),
        _ => Err("not restored".into()),
    }
}

// A hub of session 2, which goes on from lines.
fn hub(alloc: Global) -> Result<Hub, Fail>
    ensures { IfOk result (λ hub. hub.given ≡ false) }
{
    let room = restored(alloc)?;
    let names = room.room.names().copy(alloc)?;
    Ok(Hub::of_restored(alloc, &names, 2, vec![in alloc; room]?)?)
}

// `mps_hub::Desk` of a restored session: a repeats its last line and goes on, and b hears of it.
#[test]
fn a_restored_session_goes_on(rt: HostRuntime) -> Result<(), Fail> {
    let alloc = rt.alloc();
    let mut hub = hub(alloc)?;
    let desk = hub.desk(alloc)?;
    assert!(rt; is_told(&rt, alloc, &desk, BY_A, TOLD_A)?, "what a is told");
    assert!(rt; is_told(&rt, alloc, &desk, BY_B, TOLD_B)?, "what b is told");
    Ok(())
}

// `mps_keeper::RestoredRoom::restore_from` names the first line that isn't accepted, here 2 for a wrong peer, though
// the next is unreadable.
#[test]
fn the_first_bad_line_is_named(rt: HostRuntime) -> Result<(), Fail> {
    let alloc = rt.alloc();
    let mut room = relay(alloc)?;
    let mut lines = OverRead::new(b"a send b 5\nb recv c x\nund\n".as_slice());
    let fault = RestoreFault::Refused { line: 2 };
    assert!(rt;
        room.restore_from(alloc, first(alloc)?, &mut lines)
            .map(|r| r.lines)
            == Err(fault),
        "line 2 is refused"
    );
    Ok(())
}
