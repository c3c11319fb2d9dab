//! mps_embed and mps_open, as a user calls them: a room answers each role's lines, or a fault says why there is none.
use crate::sessions::RELAY;
use mps_dev::{Short, Sink};
use mps_embed::{Embedded, FileRoom};
use mps_keeper::{Book, LONGEST_LINE, RestoredRoom};
use mps_open::{Merging, choice_text, open_text};
use mps_seal::Seal;
use std::alloc::Global;
use std::process::Abort;

// How many bytes of an answer are looked at: as many as the longest here has, or more.
const MOST: usize = 16;

// Whether a line of that role gets this answer.
fn gets<W: Sink>(room: &mut Embedded<W>, role: &[u8], line: &[u8], answer: &[u8]) -> bool {
    let mut out = [0u8; MOST];
    room.line(role, line);
    match room.answer_into(&mut out) {
        Ok(n) => n == answer.len() && out.starts_with(answer),
        Err(_) => false,
    }
}

// Whether an entry, of which 8 bytes are looked at, has this front and length. Past the end that is nothing, and 0.
fn has_entry(room: &mut FileRoom, k: u64, front: &[u8], length: usize) -> bool {
    let mut out = [0u8; MOST];
    match room.entry_into(k, &mut out[..8]) {
        Ok(n) => n == length && out.starts_with(front),
        Err(_) => false,
    }
}

// Whether the answer is written so at the end of what the buffer has.
fn writes(room: &FileRoom, out: &mut Vec<u8>, answer: &[u8]) -> bool {
    room.write_answer(out).is_ok() && out.as_slice() == answer
}

// Such lines are answered as they should be, of roles and of a name that is none.
fn embeds(rt: &impl Abort, alloc: Global, room: &mut FileRoom) {
    let mut out = Vec::new(alloc);
    assert!(rt; gets(room, b"a", b"send b 5", b"done 1"), "a's send");
    assert!(rt; gets(room, b"b", b"recv a x", b"done 2 5"), "b's receipt");
    assert!(rt;
        writes(&*room, &mut out, b"done 2 5"),
        "the same answer in a vector"
    );
    assert!(rt; gets(room, b"z", b"mark m", b"refused norole"), "no role z");
    assert!(rt;
        gets(room, b"a", b"stand", b"refused line"),
        "no line waits"
    );
}

// There are two entries, of which the first has 10 bytes, and no third.
fn has_two_entries(rt: &impl Abort, room: &mut FileRoom) {
    assert!(rt; has_entry(room, 0, b"a send b", 10), "the first entry");
    assert!(rt; has_entry(room, 2, b"", 0), "no third entry");
    assert!(rt; room.room().entries() == 2, "two entries");
}

// Each role's numbers are its own.
fn numbers(rt: &impl Abort, room: &mut FileRoom) {
    assert!(rt; gets(room, b"a", b"1 send b 5", b"done 1"), "a's number 1");
    assert!(rt; gets(room, b"b", b"1 mark m", b"done 2"), "b's number 1");
    assert!(rt;
        gets(room, b"a", b"1 send b 5", b"done 1"),
        "a's number 1 again"
    );
    assert!(rt;
        gets(room, b"a", b"3 mark m", b"refused number"),
        "a's number 3 before 2"
    );
}

// Whether the text gives no session, for the fault of that number and place.
fn gives_none(alloc: Global, text: &[u8], number: u32, place: u64) -> bool {
    let fault = open_text(alloc, text).err();
    fault.map(|f| (f.number(), f.place())) == Some((number, place))
}

// `mps_embed::Embedded` answers a line of a role, and one of a name that is no role, and gives answers and entries into
// a buffer.
#[test]
fn an_embedded_room_answers_each_line(rt: HostRuntime) {
    let mut room = FileRoom::open(rt.alloc(), RELAY).ok().expect(&rt, "a room");
    embeds(&rt, rt.alloc(), &mut room);
    has_two_entries(&rt, &mut room);
}

// `mps_embed::Embedded` runs a number of a role once, and each role has numbers of its own.
#[test]
fn each_role_of_an_embedded_room_has_its_own_numbers(rt: HostRuntime) {
    let mut room = FileRoom::open(rt.alloc(), RELAY).ok().expect(&rt, "a room");
    numbers(&rt, &mut room);
}

// Whether that is foreseen of the line of a, with its number.
fn foresees(room: &mut FileRoom, line: &[u8], told: &[u8]) -> bool {
    let mut out = [0u8; MOST];
    match room.would_into(b"a", line, &mut out) {
        Ok(n) => n == told.len() && out.starts_with(told),
        Err(_) => false,
    }
}

// `mps_embed::Embedded` foresees what a line would be answered, and stays as it is: what it foresaw then comes.
#[test]
fn an_embedded_room_foresees_what_it_answers(rt: HostRuntime) {
    let mut room = FileRoom::open(rt.alloc(), RELAY).ok().expect(&rt, "a room");
    assert!(rt;
        foresees(&mut room, b"1 send b 5", b"accepted"),
        "a's first"
    );
    assert!(rt; gets(&mut room, b"a", b"1 send b 5", b"done 1"), "a's send");
    assert!(rt;
        foresees(&mut room, b"1 send b 5", b"accepted"),
        "the same again"
    );
    assert!(rt;
        foresees(&mut room, b"2 send b 5", b"refused ended"),
        "a second send"
    );
    assert!(rt;
        foresees(&mut room, b"4 mark m", b"refused number"),
        "number 4"
    );
}

// Whether b's slot, or what a role wants, is told so.
fn tells(room: &mut FileRoom, role: &[u8], wants: &[u8], held: &[u8]) -> bool {
    let mut out = [0u8; MOST];
    let mut slot = [0u8; MOST];
    let (Ok(n), Ok(m)) = (
        room.expects_into(role, &mut out),
        room.slot_into(role, b"x", &mut slot),
    ) else {
        return false;
    };
    n == wants.len() && out.starts_with(wants) && m == held.len() && slot.starts_with(held)
}

// `mps_embed::Embedded` tells what a role's type wants, and what is in its slot.
#[test]
fn an_embedded_room_tells_how_a_role_stands(rt: HostRuntime) {
    let mut room = FileRoom::open(rt.alloc(), RELAY).ok().expect(&rt, "a room");
    assert!(rt;
        tells(&mut room, b"b", b"recv a int", b""),
        "b, to begin with"
    );
    assert!(rt; gets(&mut room, b"a", b"send b 5", b"done 1"), "a's send");
    assert!(rt;
        gets(&mut room, b"b", b"recv a x", b"done 2 5"),
        "b's receipt"
    );
    assert!(rt;
        tells(&mut room, b"b", b"send c int", b"5"),
        "b, after its receipt"
    );
    assert!(rt; tells(&mut room, b"z", b"", b""), "no role z");
}

// A room whose book takes 48 bytes: the mark has 18 of them.
fn recorded(alloc: Global) -> Option<Embedded<Short>> {
    let (roles, session) = open_text(alloc, RELAY).ok()?;
    let room = RestoredRoom::new(alloc, roles, session).ok()?;
    let first = Seal::first(alloc, RELAY, 1).ok()?;
    let mut book = Book::new(Short::new(alloc, 48).ok()?, 0, first);
    book.mark(alloc).ok()?;
    let line = Vec::with_capacity(alloc, LONGEST_LINE).ok()?;
    Some(Embedded::of_restored(alloc, room, Some(book), line))
}

// `mps_embed::Embedded` answers what is recorded, here a line of 30 bytes; where the next can't be, it answers `refused
// journal` from then on.
#[test]
fn an_embedded_room_tells_what_is_recorded(rt: HostRuntime) {
    let mut room = recorded(rt.alloc()).expect(&rt, "a room");
    assert!(rt; gets(&mut room, b"a", b"1 send b 5", b"done 1"), "a's send");
    assert!(rt;
        gets(&mut room, b"b", b"recv a x", b"refused journal"),
        "b's receipt"
    );
    assert!(rt;
        gets(&mut room, b"a", b"1 send b 5", b"refused journal"),
        "a's again"
    );
}

// `mps_open::open_text` gives a fault, with a number and a place: a malformed word is 17, here at byte 17; a role that
// sends to itself is 37, with the place 0; no type for the role at place 2 is 48 and 2, so 50, with the choice, 0.
#[test]
fn a_text_that_gives_no_session_is_told_why(rt: HostRuntime) {
    let alloc = rt.alloc();
    assert!(rt;
        gives_none(alloc, b"roles a b ; a -> Bc : int . end", 17, 17),
        "a malformed word at byte 17"
    );
    assert!(rt;
        gives_none(alloc, b"roles a b ; a -> a : int . end", 37, 0),
        "a message from a role to itself"
    );
    let unmerged = b"roles a b c ; a -> b { l : a -> c : int . end , r : end }";
    assert!(rt;
        gives_none(alloc, unmerged, 50, 0),
        "no type for c, for choice 0"
    );
}

// A loop that three roles leave together: a label of its own tells c of it.
const ROUNDS: &[u8] =
    b"roles a b c ; rec X . a -> b { more : a -> c { more : c -> a : int . X } , stop : a -> c { stop : end } }";

// `Embedded::open_by` opens a room of a protocol that needs full merging; `open` doesn't.
#[test]
fn three_roles_leave_a_loop_together(rt: HostRuntime) {
    assert!(rt; gives_none(rt.alloc(), ROUNDS, 50, 0), "plainly none");
    let mut room = FileRoom::open_by(rt.alloc(), Merging::Full, ROUNDS)
        .ok()
        .expect(&rt, "a room");
    assert!(rt;
        gets(&mut room, b"a", b"choose b stop", b"done 1"),
        "b is told"
    );
    assert!(rt;
        gets(&mut room, b"a", b"choose c stop", b"done 2"),
        "c is told"
    );
    assert!(rt;
        gets(&mut room, b"c", b"pick a", b"done 3 stop"),
        "c hears of it"
    );
    assert!(rt;
        gets(&mut room, b"c", b"send a 5", b"refused ended"),
        "and has ended"
    );
}

// A protocol whose choices are in one another, in a loop, and one after the other.
const CHOICES: &[u8] =
    b"roles a b c d ; a -> b { l : c -> d : int . b -> a { m : a -> c : int . end , n : end } , r : rec X . d -> c { s : X , t : end } }";

// Whether these are the words of that choice of the text.
fn has_words(alloc: Global, text: &[u8], number: u64, words: &[u8]) -> bool {
    match choice_text(alloc, text, number) {
        Ok(found) => found.as_slice() == words,
        Err(_) => false,
    }
}

// `mps_open::choice_text` gives the words of a choice by its number in preorder; none past the last; and a text that can't be
// read is a fault.
#[test]
fn a_choice_is_told_by_its_number(rt: HostRuntime) {
    let alloc = rt.alloc();
    assert!(rt; has_words(alloc, CHOICES, 0, b"a b l r"), "the first");
    assert!(rt; has_words(alloc, CHOICES, 1, b"b a m n"), "one in it");
    assert!(rt; gives_none(alloc, CHOICES, 50, 1), "it is c's fault");
    assert!(rt; has_words(alloc, CHOICES, 2, b"d c s t"), "the last");
    assert!(rt; has_words(alloc, CHOICES, 3, b""), "no other");
    assert!(rt; choice_text(alloc, b"roles a b", 0).is_err(), "no text");
}
