//! mps_wire: the answer to a line that waits is told once it is another, or the vigil goes on no longer.
ghost use Rattle.std.specs.Prelude.{true};

use crate::pieces::in_one_piece;
use crate::protocols::{VERDICT, opened};
use mps_base::Role;
use mps_dev::{Pieces, Short};
use mps_room::{Room, Solo};
use mps_wire::{Awaited, Ending, Vigil, converse, converse_waiting};
use std::alloc::Global;
use std::test::Fail;
use std::time::Duration;

// A vigil that goes on so many times more, and has counted.
#[derive(Drop)]
struct Counted {
    left: u64,
    messages: u64,
    news: u64,
    milliseconds: u128,
    ended: u64,
}

impl Vigil for Counted {
    ghost waits = { λ _. true };

    fn waits(&self) -> bool {
        true
    }

    fn begin(&mut self, limit: Duration) {
        self.milliseconds = self.milliseconds.saturating_add(limit.as_millis());
    }

    fn rest(&mut self, awaited: Awaited) -> bool {
        match awaited {
            Awaited::Message => self.messages = self.messages.saturating_add(1),
            Awaited::News => self.news = self.news.saturating_add(1),
        }
        if self.left == 0 {
            return false;
        }
        self.left -= 1;
        true
    }

    fn end(&mut self) {
        self.ended = self.ended.saturating_add(1);
    }
}

// A new room, called by b, who receives first.
fn new_solo(alloc: Global) -> Result<Solo, Fail> {
    let (names, session) = opened(alloc, VERDICT)?;
    if session.roles() < 2 {
        return Err("two roles".into());
    }
    Ok(Solo::new(Room::open(alloc, names, session), Role::new(1)))
}

// The vigil after these lines, where it goes on so many times, and they are answered so.
fn counts_of(alloc: Global, left: u64, lines: &str, answers: &str) -> Result<Counted, Fail> {
    let mut solo = new_solo(alloc)?;
    let mut vigil = Counted {
        left,
        messages: 0,
        news: 0,
        milliseconds: 0,
        ended: 0,
    };
    let mut reader = Pieces::new(in_one_piece(alloc, lines)?, None);
    let mut writer = Short::new(alloc, 999)?;
    let ending = converse_waiting(alloc, &mut solo, &mut vigil, &mut reader, &mut writer);
    if ending != Ending::Closed || writer.bytes() != answers.as_bytes() {
        return Err("other answers".into());
    }
    Ok(vigil)
}

// Lines, how often the vigil goes on, the answers, and how often it was asked to wait for a message and for news, for how many
// milliseconds in all, and in how many lines.
const WAITING: &[(&str, u64, &str, [u64; 4])] = &[
    // nothing is there, and nothing comes
    (
        "wait 7 recv a x\n",
        3,
        "refused nothingqueued\n",
        [4, 0, 7, 1],
    ),
    (
        "wait 7 1 recv a x\n",
        0,
        "refused nothingqueued\n",
        [1, 0, 7, 1],
    ),
    ("wait 7 news 0\n", 3, "news 0\n", [0, 4, 7, 1]),
    // any other answer comes at once
    ("wait 7 1 mark m\n", 3, "done 1\n", [0, 0, 7, 1]),
    ("wait 7 recv c x\n", 3, "refused wrongpeer\n", [0, 0, 7, 1]),
    // so does how the role stands, with `wait` or without
    (
        "wait 7 stand\nstand\n",
        3,
        "{\"expects\":\"recv a int\",\"newest\":null,\"store\":[]}\n{\"expects\":\"recv a int\",\"newest\":null,\"store\":[]}\n",
        [0, 0, 7, 1],
    ),
    (
        "1 stand\nwait 7 1 stand\nstand b\n",
        3,
        "refused line\nrefused line\nrefused line\n",
        [0, 0, 7, 1],
    ),
    // the line that follows is read as each is
    ("wait 7 nothing\n", 3, "refused line\n", [0, 0, 7, 1]),
    ("wait 7 wait 7 news 0\n", 3, "refused line\n", [0, 0, 7, 1]),
    ("wait 7 \n", 3, "refused line\n", [0, 0, 7, 1]),
    // a line that doesn't say so doesn't wait
    (
        "recv a x\nnews 0\nwait\n",
        3,
        "refused nothingqueued\nnews 0\nrefused line\n",
        [0, 0, 0, 0],
    ),
    // one line after the other
    (
        "wait 7 news 0\nwait 5 recv a x\n",
        1,
        "news 0\nrefused nothingqueued\n",
        [1, 2, 12, 2],
    ),
];

// Whether the vigil counted that.
fn has_counted(vigil: &Counted, want: &[u64; 4]) -> bool {
    [vigil.messages, vigil.news, vigil.ended] == [want[0], want[1], want[3]]
        && vigil.milliseconds == want[2] as u128
}

// `mps_wire::converse_waiting` makes the call of a line that waits again as long as the vigil goes on and there is nothing yet.
#[test]
fn a_line_waits_as_long_as_its_vigil_goes_on(rt: HostRuntime) -> Result<(), Fail> {
    for (lines, left, answers, want) in WAITING {
        let vigil = counts_of(rt.alloc(), *left, lines, answers)?;
        assert!(rt;
            has_counted(&vigil, want),
            "what was counted over {lines:?}"
        );
    }
    Ok(())
}

// What is answered to these lines where none may wait.
fn answered(alloc: Global, lines: &str) -> Result<Vec<u8>, Fail> {
    let mut solo = new_solo(alloc)?;
    let mut reader = Pieces::new(in_one_piece(alloc, lines)?, None);
    let mut writer = Short::new(alloc, 999)?;
    let _ending = converse(alloc, &mut solo, &mut reader, &mut writer);
    Ok(Vec::from_slice(alloc, writer.bytes())?)
}

// `mps_wire::converse` calls a line bad that wants to wait, and runs nothing; so it does with `stand`.
#[test]
fn without_a_vigil_no_line_waits(rt: HostRuntime) -> Result<(), Fail> {
    let told = answered(rt.alloc(), "wait 7 1 mark m\nstand\nnews 0\n")?;
    assert!(rt;
        told.as_slice() == "refused line\nrefused line\nnews 0\n".as_bytes(),
        "what is answered"
    );
    Ok(())
}
