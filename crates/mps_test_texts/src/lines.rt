//! mps_lines: the same lines come out whatever pieces the bytes come in, and of too long ones a front is kept.
ghost use Rattle.std.specs.Prelude.{◌≡◌, [], drop, slice_get, IsTrue};

use Told::{NotAscii, Text, TooLong};
use mps_lines::{Line, Lines, MOST_KEPT, keep, line_end};
use std::alloc::AllocGlobal;
use std::process::Abort;

// Five lines: a command, none, a command, one that is not ASCII, and a rest.
const TEXT: &[u8] = b"a send b 5\n\nb recv a x\ncaf\xC3\xA9\na undo 1";

// A line of the most bytes: as many as MAX_LINE.
const LONGEST: &[u8] = &[b'x'; 512];

// What a line is reported as.
#[derive(Clone, Copy)]
enum Told {
    Text(&'static [u8]),
    TooLong,
    NotAscii,
}

// What TEXT is reported as.
const LINES_OF_TEXT: &[Told] = &[
    Text(b"a send b 5"),
    Text(b""),
    Text(b"b recv a x"),
    NotAscii,
    Text(b"a undo 1"),
];

// Whether the line is reported so.
fn is_told(line: &Line, want: Told) -> bool {
    match (line, want) {
        (Line::Text(bytes), Text(text)) => **bytes == *text,
        (Line::TooLong, TooLong) | (Line::NotAscii, NotAscii) => true,
        _ => false,
    }
}

// Whether the lines are reported so, one after the other.
fn all_told(lines: &[Line], want: &[Told]) -> bool {
    if lines.len() != want.len() {
        return false;
    }
    for k in 0..want.len() {
        if !is_told(&lines[k], want[k]) {
            return false;
        }
    }
    true
}

// Keeps the line.
fn put(rt: &impl Abort, told: &mut Vec<Line>, line: Line) {
    told.push(line).expect(rt, "memory");
}

// The line that waits first, if one does.
fn next(rt: &impl Abort, lines: &mut Lines) -> Option<Line>
    ensures first { result ≡ slice_get lines.old.waiting 0 }
    ensures others { lines.new.waiting ≡ drop 1 lines.old.waiting }
{
    lines.next_line().expect(rt, "memory")
}

// Takes each line that waits.
fn take_waiting(rt: &impl Abort, lines: &mut Lines, told: &mut Vec<Line>)
    ensures { lines.new.waiting ≡ [] }
{
    while let Some(line) = next(rt, lines) {
        put(rt, told, line);
    }
}

// Feeds the piece.
fn feed_piece(rt: &impl Abort, lines: &mut Lines, piece: &[u8]) {
    lines.feed(piece).expect(rt, "memory");
}

// Takes each line that waits, and the rest as the last one.
fn take_all(rt: &impl Abort, lines: &mut Lines, told: &mut Vec<Line>) {
    take_waiting(rt, lines, told);
    if let Some(last) = lines.finish().expect(rt, "memory") {
        put(rt, told, last);
    }
}

// The lines of bytes that come in these pieces, each taken as soon as it waits.
fn lines_of(rt: &(impl Abort + AllocGlobal), pieces: &[&[u8]]) -> Vec<Line> {
    let mut lines = Lines::new(rt.alloc());
    let mut told = Vec::new(rt.alloc());
    for piece in pieces {
        feed_piece(rt, &mut lines, piece);
        take_waiting(rt, &mut lines, &mut told);
    }
    take_all(rt, &mut lines, &mut told);
    told
}

// These bytes are told so, in pieces of so many.
fn are_told(rt: &(impl Abort + AllocGlobal), bytes: &[u8], size: usize, want: &[Told]) {
    let mut pieces = Vec::new(rt.alloc());
    for piece in bytes.chunks(size.max(1)) {
        pieces.push(piece).expect(rt, "memory");
    }
    assert!(rt;
        all_told(&lines_of(rt, &pieces), want),
        "in pieces of {size} bytes"
    );
}

// They are told so, wherever they are cut in two.
fn are_told_in_two(rt: &(impl Abort + AllocGlobal), bytes: &[u8], want: &[Told]) {
    for cut in 0..bytes.len() {
        let (front, back) = bytes.split_at(cut);
        assert!(rt;
            all_told(&lines_of(rt, &[front, back]), want),
            "cut at {cut}"
        );
    }
}

// So many letters and then these bytes.
fn letters(rt: &(impl Abort + AllocGlobal), count: usize, end: &[u8]) -> Vec<u8> {
    let mut bytes = vec![in rt.alloc(); b'x'; count].expect(rt, "memory");
    bytes.extend_from_slice(end).expect(rt, "memory");
    bytes
}

// `mps_lines::Lines` that is fed byte by byte reports the five lines that the whole text has.
#[test]
fn single_bytes_give_the_same_lines(rt: HostRuntime) {
    are_told(&rt, TEXT, 1, LINES_OF_TEXT);
}

// `mps_lines::Lines` reports the five lines of the text wherever it is cut in two.
#[test]
fn any_two_pieces_give_the_same_lines(rt: HostRuntime) {
    are_told_in_two(&rt, TEXT, LINES_OF_TEXT);
}

// How many letters stand in front of which bytes, and what they are told as.
const LETTERS: &[(usize, &[u8], Told)] = &[
    // the most bytes, with an LF and as a rest
    (512, b"\n", Text(LONGEST)),
    (512, b"", Text(LONGEST)),
    // one byte more
    (513, b"\n", TooLong),
    (513, b"", TooLong),
    // with a last byte of 128: 512 bytes, and 513, which are too long before all else
    (511, b"\x80\n", NotAscii),
    (512, b"\x80\n", TooLong),
];

// `mps_lines::Lines` tells a line of up to 512 bytes (MAX_LINE); with more it is too long, wherever it is cut in two.
#[test]
fn a_line_of_more_than_512_bytes_is_too_long(rt: HostRuntime) {
    for (count, end, want) in LETTERS {
        are_told_in_two(&rt, &letters(&rt, *count, end), &[*want]);
    }
}

// What a very long line and a short one are told as.
const LONG_AND_SHORT: &[Told] = &[TooLong, Text(b"pick a")];

// Sizes of pieces: a byte, the longest line and one byte more, a block as scripts are read by, and more than all bytes.
const SIZES: &[usize] = &[1, 512, 513, 65_536, 100_000, 200_000];

// `mps_lines::Lines` tells a line far over the limit, of 100,000 bytes, as too long, and the line after it whole, in
// pieces of any size.
#[test]
fn the_line_after_a_very_long_one_is_whole(rt: HostRuntime) {
    let bytes = letters(&rt, 100_000, b"\npick a\n");
    for size in SIZES {
        are_told(&rt, &bytes, *size, LONG_AND_SHORT);
    }
}

// What lines of one byte are told as: of 127, 128 and 255.
const FROM_128_ON: &[Told] = &[Text(b"\x7F"), NotAscii, NotAscii];

// `mps_lines::Lines` tells a line with a byte of 128 or more as no text. All bytes come in one piece, which is shorter
// than 100.
#[test]
fn a_line_with_a_byte_from_128_on_is_no_text(rt: HostRuntime) {
    are_told(&rt, b"\x7F\n\x80\n\xFF", 100, FROM_128_ON);
}

// What three LFs are told as.
const THREE_EMPTY: &[Told] = &[Text(b""); 3];

// `mps_lines::Lines` tells no line of no bytes. Each LF ends one, so three are three lines without a byte, here in
// pieces of two and one.
#[test]
fn each_lf_ends_a_line(rt: HostRuntime) {
    are_told(&rt, b"", 1, &[]);
    are_told(&rt, b"\n\n\n", 2, THREE_EMPTY);
}

// Whether a line that may be there is reported so.
fn is_waiting(line: Option<&Line>, want: Option<Told>) -> bool {
    match (line, want) {
        (Some(line), Some(want)) => is_told(line, want),
        (None, None) => true,
        _ => false,
    }
}

// The line that waits first is reported so, or none waits.
fn is_next(rt: &impl Abort, lines: &mut Lines, want: Option<Told>) {
    assert!(rt;
        is_waiting(next(rt, lines).as_ref(), want),
        "the line that waits first"
    );
}

// Whether none waits.
fn none_waits(rt: &impl Abort, lines: &mut Lines) -> bool
    ensures { IsTrue result → lines.new.waiting ≡ [] }
{
    match next(rt, lines) {
        Some(_) => false,
        None => true,
    }
}

// None waits, and the rest is reported so, if there is one.
fn is_rest(rt: &impl Abort, lines: &mut Lines, want: Option<Told>) {
    assert!(rt; none_waits(rt, lines), "no line waits");
    let rest = lines.finish().expect(rt, "memory");
    assert!(rt; is_waiting(rest.as_ref(), want), "the rest");
}

// `mps_lines::Lines::finish` gives the rest once, if it has a byte. What is fed then begins a new line; `news` waits
// for its LF.
#[test]
fn after_the_rest_a_new_line_begins(rt: HostRuntime) {
    let mut lines = Lines::new(rt.alloc());
    is_rest(&rt, &mut lines, None);
    feed_piece(&rt, &mut lines, b"mark m");
    is_rest(&rt, &mut lines, Some(Text(b"mark m")));
    is_rest(&rt, &mut lines, None);
    feed_piece(&rt, &mut lines, b"ba");
    feed_piece(&rt, &mut lines, b"ck m\nnews");
    is_next(&rt, &mut lines, Some(Text(b"back m")));
    is_next(&rt, &mut lines, None);
}

// So many times two lines, cut within the second.
fn feed_often(rt: &impl Abort, lines: &mut Lines, times: u32) {
    for _ in 0..times {
        feed_piece(rt, lines, b"pick a\nsh");
        feed_piece(rt, lines, b"ow\n");
    }
}

// The two lines.
const PAIR: &[Told] = &[Text(b"pick a"), Text(b"show")];

// So many lines are these two by turns.
fn are_pairs(rt: &impl Abort, told: &[Line], count: usize) {
    assert_eq!(rt; told.len(), count, "the count of lines");
    for pair in told.chunks(2) {
        assert!(rt; all_told(pair, PAIR), "two lines by turns");
    }
}

// `mps_lines::Lines` gives 2,000 lines that wait together in order: a thousand times two, the second of them in two
// pieces.
#[test]
fn lines_that_wait_come_out_in_order(rt: HostRuntime) {
    let mut lines = Lines::new(rt.alloc());
    feed_often(&rt, &mut lines, 1_000);
    let mut told = Vec::new(rt.alloc());
    take_waiting(&rt, &mut lines, &mut told);
    are_pairs(&rt, &told, 2_000);
}

// What is kept of a line that comes in these two pieces.
fn kept(rt: &(impl Abort + AllocGlobal), front: &[u8], back: &[u8]) -> Vec<u8> {
    let mut line = Vec::new(rt.alloc());
    keep(&mut line, front).expect(rt, "memory");
    assert!(rt; line.len() <= MOST_KEPT, "no more than MOST_KEPT bytes");
    keep(&mut line, back).expect(rt, "memory");
    line
}

// `mps_lines::line_end` finds the first LF, at 6, or none. `keep` keeps a short line whole, and of a long one MOST_KEPT
// bytes.
#[test]
fn keep_cuts_a_long_line_and_line_end_finds_its_lf(rt: HostRuntime) {
    assert!(rt; line_end(b"pick a\nshow\n") == Some(6), "an LF at 6");
    assert!(rt; line_end(b"pick a").is_none(), "no LF");
    assert!(rt;
        kept(&rt, b"pick", b" a").as_slice() == b"pick a".as_slice(),
        "a short line is kept whole"
    );
    let long = letters(&rt, 100_000, b"");
    assert!(rt;
        kept(&rt, b"", &long).len() == MOST_KEPT,
        "of a long line MOST_KEPT bytes are kept"
    );
}

// `mps_lines::Lines` takes all bytes in one piece of over a megabyte: one line that is too long, and one that is told
// whole.
#[test]
fn a_piece_of_a_megabyte_is_told_whole(rt: HostRuntime) {
    let bytes = letters(&rt, 1_100_000, b"\npick a\n");
    are_told(&rt, &bytes, 2_000_000, LONG_AND_SHORT);
}
