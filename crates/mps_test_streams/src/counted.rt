//! mps_wire: scripts and conversations make an entry of each accepted line. `bench/talks` counts the instructions of
//! these runs, in the order of the rows here.
use crate::protocols::{names, opened, types};
use mps_base::Role;
use mps_dev::{Discard, Pieces};
use mps_room::{Room, Solo};
use mps_wire::{Ending, converse, replay};
use std::alloc::Global;
use std::test::Fail;

// How many lines each has, in turn.
const LENGTHS: [u64; 3] = [0, 10_000, 40_000];

// a gives b numbers without end.
const NUMBERS: &str = "roles a b c ; rec X . a -> b : int . X";

// A new room in which a gives b numbers.
fn new_room(alloc: Global) -> Result<Room, Fail> {
    let (roles, session) = opened(alloc, NUMBERS)?;
    Ok(Room::open(alloc, roles, session))
}

// These words so many times as a line, each line with its number before it, or none with one.
fn lines(alloc: Global, words: &str, numbered: bool, count: u64) -> Result<Vec<u8>, Fail> {
    let mut text = Vec::new(alloc);
    for before in 0..count {
        if numbered {
            text.extend_from_slice(format!(in alloc; "{} ", before + 1)?.as_bytes())?;
        }
        text.extend_from_slice(words.as_bytes())?;
        text.push(b'\n')?;
    }
    Ok(text)
}

// Runs a script of these lines, and gives how many entries it made.
#[inline(never)]
fn run(alloc: Global, lines: Vec<u8>) -> Result<u64, Fail> {
    let types = types(alloc, NUMBERS)?;
    let roles = names(alloc, types.len())?;
    let mut reader = Pieces::new(vec![in alloc; lines]?, None);
    Ok(replay(alloc, &mut reader, &mut Discard, roles, types)?.entries())
}

// The role talks to the room in these lines. Gives the room.
#[inline(never)]
fn talk(alloc: Global, room: Room, role: Role, lines: Vec<u8>) -> Result<Room, Fail> {
    if role.index() >= room.session().roles() {
        return Err("a role".into());
    }
    let mut solo = Solo::new(room, role);
    let mut reader = Pieces::new(vec![in alloc; lines]?, None);
    match converse(alloc, &mut solo, &mut reader, &mut Discard) {
        Ending::Closed => Ok(solo.room),
        _ => Err("the end of the lines".into()),
    }
}

// The words of a script's lines, and how many entries each line makes.
const SCRIPTS: [(&str, u64); 4] = [
    // steps; steps and their receipts; lines that are refused; lines that are unreadable
    ("a send b 123456", 1),
    ("a send b 123456\nb recv a x", 2),
    ("a send c 123456", 0),
    ("a give b 123456", 0),
];

// `mps_wire::replay` makes an entry of each accepted line, in a script of no lines, of 10,000 and of 40,000.
#[test]
fn each_accepted_line_of_a_script_is_an_entry(rt: HostRuntime) -> Result<(), Fail> {
    let alloc = rt.alloc();
    for (words, made) in SCRIPTS {
        for count in LENGTHS {
            let entries = run(alloc, lines(alloc, words, false, count)?)?;
            assert_eq!(rt; entries, count * made, "{count} lines of {words}");
        }
    }
    Ok(())
}

// How many entries a's conversation in a new room makes.
fn entries_after(alloc: Global, words: &str, numbered: bool, count: u64) -> Result<u64, Fail> {
    let said = lines(alloc, words, numbered, count)?;
    Ok(talk(alloc, new_room(alloc)?, Role::new(0), said)?.entries())
}

// Of a conversation of a whether its lines have numbers, their words, and how many entries they make at most.
const TALKS: [(bool, &str, u64); 5] = [
    // steps, lines that are refused, lines that are unreadable
    (false, "send b 123456", u64::MAX),
    (false, "send c 123456", 0),
    (false, "give b 123456", 0),
    // numbered steps, and the same number again and again
    (true, "send b 123456", u64::MAX),
    (false, "1 send b 123456", 1),
];

// `mps_wire::converse` makes an entry of each accepted line, of a number once, in a conversation of no, 10,000 and
// 40,000 lines.
#[test]
fn each_accepted_line_of_a_conversation_is_an_entry(rt: HostRuntime) -> Result<(), Fail> {
    let alloc = rt.alloc();
    for (numbered, words, most) in TALKS {
        for count in LENGTHS {
            let entries = entries_after(alloc, words, numbered, count)?;
            assert_eq!(rt; entries, count.min(most), "{count} lines of {words}");
        }
    }
    Ok(())
}

// A room in which a gave so many numbers.
fn after_giving(alloc: Global, count: u64) -> Result<Room, Fail> {
    let given = lines(alloc, "send b 123456", false, count)?;
    talk(alloc, new_room(alloc)?, Role::new(0), given)
}

// How many entries there are once b took them.
fn entries_in_turn(alloc: Global, count: u64) -> Result<u64, Fail> {
    let room = after_giving(alloc, count)?;
    let taken = lines(alloc, "recv a x", false, count)?;
    Ok(talk(alloc, room, Role::new(1), taken)?.entries())
}

// `mps_wire::converse` twice in one room: a gives so many numbers, and then b takes them, which makes an entry each.
#[test]
fn each_line_of_two_conversations_is_an_entry(rt: HostRuntime) -> Result<(), Fail> {
    let alloc = rt.alloc();
    for count in LENGTHS {
        assert_eq!(rt;
            entries_in_turn(alloc, count)?,
            2 * count,
            "{count} numbers"
        );
    }
    Ok(())
}
