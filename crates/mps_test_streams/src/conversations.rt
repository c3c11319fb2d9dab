//! mps_wire: a conversation answers each whole line before the next, in any pieces, wherever it breaks off.
use crate::pieces::{
    Way, cut_long_line, empty_lines, fails_from, in_one_piece, in_single_bytes, in_two_pieces,
    refused_lines, room, told_by,
};
use crate::protocols::{VERDICT, opened};
use mps_base::Role;
use mps_dev::{Pieces, Short};
use mps_lines::MAX_LINE;
use mps_room::{Room, Solo};
use mps_wire::{Ending, converse};
use std::alloc::Global;
use std::test::Fail;

// A new room, called by a.
fn new_solo(alloc: Global) -> Result<Solo, Fail> {
    let (names, session) = opened(alloc, VERDICT)?;
    if session.roles() == 0 {
        return Err("a role".into());
    }
    Ok(Solo::new(Room::open(alloc, names, session), Role::new(0)))
}

// Whether a conversation over these pieces ends so, with these bytes written.
fn talks(
    alloc: Global,
    solo: &mut Solo,
    pieces: Vec<Vec<u8>>,
    way: Way,
    want: &[u8],
    end: Ending,
) -> Result<bool, Fail> {
    let mut reader = Pieces::new(pieces, way.fails_from);
    let mut writer = Short::new(alloc, way.room)?;
    let ending = converse(alloc, solo, &mut reader, &mut writer);
    Ok(ending == end && writer.bytes() == want)
}

// How many entries there are where a conversation in a new room went so.
fn entries_after(
    alloc: Global,
    pieces: Vec<Vec<u8>>,
    way: Way,
    want: &[u8],
    end: Ending,
) -> Result<Option<u64>, Fail> {
    let mut solo = new_solo(alloc)?;
    let went_so = talks(alloc, &mut solo, pieces, way, want, end)?;
    Ok(if went_so {
        Some(solo.room.entries())
    } else {
        None
    })
}

// What is said, how many bytes of answers are taken, the end, the answers, and how many entries there are then.
const LINE_BY_LINE: &[(&str, usize, Ending, &str, u64)] = &[
    // a rest without an LF is not run
    ("send b 5\nund", 100, Ending::Closed, "done 1\n", 1),
    // with room for 3 bytes the first answer breaks off, and no further line is called
    ("send b 5\nmark m\n", 3, Ending::WriteFault, "don", 1),
    ("und\n", 3, Ending::WriteFault, "ref", 0),
    // no line, an empty one, a question, and a line as only a script has it
    ("", 100, Ending::Closed, "", 0),
    ("\n", 100, Ending::Closed, "refused line\n", 0),
    (
        "news 0\na mark m\n",
        100,
        Ending::Closed,
        "news 0\nrefused line\n",
        0,
    ),
];

// `mps_wire::converse` answers each whole line, in order, and says how the conversation ended.
#[test]
fn each_whole_line_is_answered_in_order(rt: HostRuntime) -> Result<(), Fail> {
    for (text, space, end, want, count) in LINE_BY_LINE {
        let pieces = in_one_piece(rt.alloc(), text)?;
        let entries = entries_after(rt.alloc(), pieces, room(*space), want.as_bytes(), *end)?;
        assert_eq!(rt; entries, Some(*count), "the entries after {text:?}");
    }
    Ok(())
}

// What the two lines below are answered.
const TWO_ANSWERS: &[u8] = b"done 1\ndone 2\n";

// How many entries there are where two lines were answered in this much space.
fn entries_in_space(alloc: Global, space: usize, end: Ending) -> Result<Option<u64>, Fail> {
    let pieces = in_one_piece(alloc, "send b 5\nmark m\n")?;
    let want = TWO_ANSWERS.get(..space).ok_or("a place")?;
    entries_after(alloc, pieces, room(space), want, end)
}

// `mps_wire::converse` writes each byte of its answers once, and calls no line before the answer to the one before it
// is written. Each of the two answers has 7 bytes.
#[test]
fn each_byte_of_an_answer_is_written_once(rt: HostRuntime) -> Result<(), Fail> {
    for space in 0..14 {
        let entries = entries_in_space(rt.alloc(), space, Ending::WriteFault)?;
        assert_eq!(rt;
            entries,
            Some(if space < 7 { 1 } else { 2 }),
            "with room for {space} bytes"
        );
    }
    assert_eq!(rt;
        entries_in_space(rt.alloc(), 14, Ending::Closed)?,
        Some(2),
        "with room for both answers"
    );
    Ok(())
}

// Lines of a with numbers and without them, and what they are answered.
const NUMBERED: &[(&str, &str)] = &[
    // a number again, and numbers that are neither the newest nor the next
    ("1 send b 5", "done 1"),
    ("1 send b 5", "done 1"),
    ("3 mark m", "refused number"),
    ("2 mark m", "done 2"),
    ("1 mark m", "refused number"),
    ("0 mark m", "refused number"),
    // the newest number, whatever stands behind it; no number; a refused number, which may come again
    ("2 undo 9", "done 2"),
    ("mark k", "done 3"),
    ("3 undo 9", "refused nostep"),
    ("3 undo 3", "undone 3"),
    ("3 undo 3", "undone 3"),
    // a question has no number, and a number one spelling
    ("4 show", "refused line"),
    ("04 mark m", "refused line"),
];

// Whether the line is answered so.
fn is_answered(alloc: Global, solo: &mut Solo, line: &str, want: &str) -> Result<bool, Fail> {
    let pieces = in_one_piece(alloc, format!(in alloc; "{line}\n")?.as_str())?;
    let want = format!(in alloc; "{want}\n")?;
    talks(
        alloc,
        solo,
        pieces,
        room(100),
        want.as_bytes(),
        Ending::Closed,
    )
}

// `mps_wire::converse` runs a numbered line once, and repeats its answer. Four of these lines are run and accepted.
#[test]
fn a_numbered_line_is_run_once(rt: HostRuntime) -> Result<(), Fail> {
    let mut solo = new_solo(rt.alloc())?;
    for (line, want) in NUMBERED {
        assert!(rt;
            is_answered(rt.alloc(), &mut solo, line, want)?,
            "the answer to `{line}`"
        );
    }
    assert_eq!(rt; solo.room.entries(), 4, "four lines are run");
    Ok(())
}

// The lines of NUMBERED as one text.
const ASKED: &str = concat!(
    "1 send b 5\n1 send b 5\n3 mark m\n2 mark m\n1 mark m\n0 mark m\n2 undo 9\nmark k\n",
    "3 undo 9\n3 undo 3\n3 undo 3\n4 show\n04 mark m\n"
);

// What is said in a conversation, its whole lines with their answers, and how many entries there are then.
#[derive(Clone, Copy)]
struct Talk(&'static str, &'static [(&'static str, &'static str)], u64);

impl Talk {
    // The answers to its first so many bytes.
    fn told(&self, alloc: Global, bytes: usize) -> Result<Vec<u8>, Fail> {
        told_by(alloc, self.1, bytes)
    }

    // How many bytes answer it.
    fn answer_bytes(&self) -> usize {
        let mut bytes = 0usize;
        for (_, want) in self.1 {
            bytes = bytes.saturating_add(want.len()).saturating_add(1);
        }
        bytes
    }
}

// The numbered lines; lines that end without an LF; two steps; a line that is no command.
const TALKS: &[Talk] = &[
    Talk(ASKED, NUMBERED, 4),
    Talk("send b 5\nund", &[("send b 5", "done 1")], 1),
    Talk(
        "send b 5\nmark m\n",
        &[("send b 5", "done 1"), ("mark m", "done 2")],
        2,
    ),
    Talk("und\n", &[("und", "refused line")], 0),
];

// Whether the conversation goes so where it comes in two pieces.
fn is_told_in_two(alloc: Global, talk: &Talk, at: usize) -> Result<bool, Fail> {
    let pieces = in_two_pieces(alloc, talk.0, at)?;
    let told = talk.told(alloc, talk.0.len())?;
    let entries = entries_after(alloc, pieces, room(1_000), &told, Ending::Closed)?;
    Ok(entries == Some(talk.2))
}

// `mps_wire::converse` gives a conversation's answers in whatever two pieces its lines come.
#[test]
fn any_two_pieces_are_answered_alike(rt: HostRuntime) -> Result<(), Fail> {
    for talk in TALKS {
        for at in 0..talk.0.len() + 1 {
            assert!(rt;
                is_told_in_two(rt.alloc(), talk, at)?,
                "cut at {at}: {:?}",
                talk.0
            );
        }
    }
    Ok(())
}

// Whether the first so many bytes are answered line by line. `entries_after` gives `Some` where it went so; how many
// entries there are then isn't compared.
fn is_answered_up_to(alloc: Global, talk: &Talk, at: usize) -> Result<bool, Fail> {
    let text = talk.0.get(..at).ok_or("a place")?;
    let told = talk.told(alloc, at)?;
    let pieces = in_one_piece(alloc, text)?;
    Ok(entries_after(alloc, pieces, room(1_000), &told, Ending::Closed)?.is_some())
}

// `mps_wire::converse` answers the whole lines before any end, and doesn't run the rest.
#[test]
fn a_line_cut_off_by_the_end_is_not_run(rt: HostRuntime) -> Result<(), Fail> {
    for talk in TALKS {
        for at in 0..talk.0.len() + 1 {
            assert!(rt;
                is_answered_up_to(rt.alloc(), talk, at)?,
                "ended at {at}: {:?}",
                talk.0
            );
        }
    }
    Ok(())
}

// Whether the conversation ends where the call after so many reads of one byte fails. `entries_after` gives `Some`
// where it went so; how many entries there are then isn't compared.
fn ends_after_reads(alloc: Global, talk: &Talk, at: usize) -> Result<bool, Fail> {
    let told = talk.told(alloc, at)?;
    let pieces = in_single_bytes(alloc, talk.0)?;
    let way = fails_from(at.saturating_add(1));
    Ok(entries_after(alloc, pieces, way, &told, Ending::ReadFault)?.is_some())
}

// `mps_wire::converse` has answered the whole lines before the read that fails, and says that a read failed. A read
// gives one byte, and the one after the first `at` bytes fails, for each `at` up to the whole text.
#[test]
fn whole_lines_are_answered_before_a_read_that_fails(rt: HostRuntime) -> Result<(), Fail> {
    for talk in TALKS {
        for at in 0..talk.0.len() + 1 {
            assert!(rt;
                ends_after_reads(rt.alloc(), talk, at)?,
                "wanted the answers to the whole lines in the first {at} bytes, and ReadFault: {:?}",
                talk.0
            );
        }
    }
    Ok(())
}

// Whether the conversation ends where a write fails after so many bytes. `entries_after` gives `Some` where it went so;
// how many entries there are then isn't compared.
fn ends_after_bytes(alloc: Global, talk: &Talk, space: usize) -> Result<bool, Fail> {
    let told = talk.told(alloc, talk.0.len())?;
    let told = told.as_slice().get(..space).ok_or("a place")?;
    let pieces = in_one_piece(alloc, talk.0)?;
    Ok(entries_after(alloc, pieces, room(space), told, Ending::WriteFault)?.is_some())
}

// `mps_wire::converse` has written its answers up to the write that fails.
#[test]
fn answers_are_written_up_to_a_write_that_fails(rt: HostRuntime) -> Result<(), Fail> {
    for talk in TALKS {
        for space in 0..talk.answer_bytes() {
            assert!(rt;
                ends_after_bytes(rt.alloc(), talk, space)?,
                "with room for {space} bytes: {:?}",
                talk.0
            );
        }
    }
    Ok(())
}

// How many entries there are after a's line, which is answered so in so much room.
fn entries_once_asked(
    alloc: Global,
    solo: &mut Solo,
    space: usize,
    want: &[u8],
    end: Ending,
) -> Result<Option<u64>, Fail> {
    let line = in_one_piece(alloc, "1 send b 5\n")?;
    let went_so = talks(alloc, solo, line, room(space), want, end)?;
    Ok(if went_so {
        Some(solo.room.entries())
    } else {
        None
    })
}

// `mps_wire::converse` keeps an answer that could not be written with its number: the line again gives it, and there is
// still one entry.
#[test]
fn an_answer_that_was_not_written_is_kept(rt: HostRuntime) -> Result<(), Fail> {
    let mut solo = new_solo(rt.alloc())?;
    let entries = entries_once_asked(rt.alloc(), &mut solo, 0, b"", Ending::WriteFault)?;
    assert_eq!(rt; entries, Some(1), "after the write that failed");
    let entries = entries_once_asked(rt.alloc(), &mut solo, 100, b"done 1\n", Ending::Closed)?;
    assert_eq!(rt; entries, Some(1), "after the line again");
    Ok(())
}

// `mps_wire::converse` refuses each long line once, and answers the next line. The limit of 512 bytes this can't show:
// so many `a` spell nothing, nor is any command so long.
#[test]
fn a_long_line_is_refused_once(rt: HostRuntime) -> Result<(), Fail> {
    for length in [MAX_LINE, MAX_LINE + 1, 100_000] {
        let pieces = cut_long_line(rt.alloc(), length, "send b 5")?;
        let want = b"refused line\ndone 1\n";
        let entries = entries_after(rt.alloc(), pieces, room(100), want, Ending::Closed)?;
        assert!(rt; entries.is_some(), "after a line of {length} bytes");
    }
    Ok(())
}

// So many pieces of one byte, `x`.
fn letters(alloc: Global, count: usize) -> Result<Vec<Vec<u8>>, Fail> {
    let mut pieces = Vec::new(alloc);
    for _ in 0..count {
        pieces.push(vec![in alloc; b'x']?)?;
    }
    Ok(pieces)
}

// So many pieces of one byte, `x` and an LF in turn.
fn letters_and_ends(alloc: Global, count: usize) -> Result<Vec<Vec<u8>>, Fail> {
    let mut pieces = Vec::new(alloc);
    for at in 0..count {
        pieces.push(vec![in alloc; if at % 2 == 0 { b'x' } else { b'\n' }]?)?;
    }
    Ok(pieces)
}

// Whether a conversation over these pieces ends so, with so many lines refused: a million at most, with 13 bytes each.
fn ends_after_lines(
    alloc: Global,
    pieces: Vec<Vec<u8>>,
    lines: usize,
    end: Ending,
) -> Result<bool, Fail> {
    let answers = refused_lines(alloc, lines)?;
    Ok(entries_after(alloc, pieces, room(13_000_000), &answers, end)?.is_some())
}

// `mps_wire::converse` reads MAX_READS times, 1,000,000, and then ends as `Turns`, unless the last of these reads found
// the end.
#[test]
fn a_conversation_ends_after_a_million_reads(rt: HostRuntime) -> Result<(), Fail> {
    let (alloc, turns) = (rt.alloc(), Ending::Turns);
    // one read for each byte: of the first million none ends a line, or every second
    assert!(rt;
        ends_after_lines(alloc, letters(alloc, 1_000_001)?, 0, turns)?,
        "letters alone"
    );
    assert!(rt;
        ends_after_lines(alloc, letters_and_ends(alloc, 1_000_001)?, 500_000, turns)?,
        "letters and LFs in turn"
    );
    // the millionth read finds the end, or the last line
    assert!(rt;
        ends_after_lines(alloc, letters(alloc, 999_999)?, 0, Ending::Closed)?,
        "999,999 letters"
    );
    assert!(rt;
        ends_after_lines(alloc, empty_lines(alloc, 1_000_000)?, 1_000_000, turns)?,
        "a million empty lines"
    );
    Ok(())
}
