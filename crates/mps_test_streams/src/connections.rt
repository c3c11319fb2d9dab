//! mps_hub: what a connection comes to, and that its pass, with its steps and newest answer, goes back to the desk.
ghost use Rattle.std.specs.Prelude.{◌≡◌, ◌≤◌, ◌^◌, false, IfOk};

use crate::protocols::{VERDICT, names, opened, types};
use mps_cell::PassFault;
use mps_dev::{Pieces, Short};
use mps_hub::{Attended, Desk, Hub, Serving, Unguarded};
use mps_wire::Ending;
use std::alloc::Global;
use std::sync::Wait;
use std::test::Fail;
use std::time::Clock;

// ---- hubs

// A hub of so many sessions in which c gives its verdict.
fn hub(alloc: Global, sessions: u64) -> Result<Hub, Fail>
    ensures { IfOk result (λ h. h.given ≡ false) }
{
    if sessions == 0 || sessions > 16 {
        return Err("1 to 16 sessions".into());
    }
    let types = types(alloc, VERDICT)?;
    let names = names(alloc, types.len())?;
    Ok(Hub::open(alloc, &names, types.as_slice(), sessions)?)
}

// `mps_hub::Hub::desk` gives the desk, with the passes of two sessions, once, and then says that it was given.
#[test]
fn a_hub_gives_its_desk_once(rt: HostRuntime) -> Result<(), Fail> {
    let mut hub = hub(rt.alloc(), 2)?;
    assert!(rt;
        hub.desk(rt.alloc()).is_ok(),
        "the first call gives the desk"
    );
    assert!(rt;
        matches!(hub.desk(rt.alloc()), Err(PassFault::Given)),
        "the second call says that it was given"
    );
    Ok(())
}

// ---- connections over memory

// A connection: what it sends, from which read on it fails, how many bytes of answers it takes, what these are, and how
// it ends.
type Row<'t> = (&'t [u8], Option<u64>, usize, &'t [u8], Attended);

// Whether the connection comes to what its row says.
fn is_played<R: Wait + Clock + Eprint + 'static>(
    rt: &R,
    alloc: Global,
    desk: &Desk<'_>,
    row: &Row<'_>,
) -> Result<bool, Fail> {
    let (sent, fails_from, space, answers, ended) = row;
    let mut reader = Pieces::new(vec![in alloc; Vec::from_slice(alloc, sent)?]?, *fails_from);
    let mut writer = Short::new(alloc, *space)?;
    let attended = Serving::unrecorded(rt, alloc, desk, &Unguarded).attend(
        1,
        &mut reader,
        &mut writer,
    );
    Ok(writer.bytes() == *answers && attended == *ended)
}

// Each connection comes to what its row says, one after the other, or the failure has its row's place and the wanted
// end.
fn are_played<R: Wait + Clock + Eprint + 'static>(
    rt: &R,
    alloc: Global,
    desk: &Desk<'_>,
    rows: &[Row<'_>],
) -> Result<(), Fail> {
    for (k, row) in rows.iter().enumerate() {
        if !is_played(rt, alloc, desk, row)? {
            return Err(format!(in alloc;
                "row {k} (from 0): other answers than wanted, or another end than {:?}",
                row.4
            )?
            .into());
        }
    }
    Ok(())
}

// The connections come to these rows, one after the other, at the desk of the hub.
fn plays<R: Wait + Clock + Eprint + 'static>(
    rt: &R,
    alloc: Global,
    mut hub: Hub,
    rows: &[Row<'_>],
) -> Result<(), Fail>
    requires { hub.given ≡ false }
{
    let Some(deal) = hub.deal() else {
        return Err("given".into());
    };
    let desk = hub.desk_of(alloc, deal)?;
    are_played(rt, alloc, &desk, rows)
}

// That it joined, and its conversation came to the end of what it sent.
const CLOSED: Attended = Attended::Conversed(Ending::Closed);

// Connections to one session. `join 1 a` and its LF take nine reads, one a byte; 99 bytes are room for all answers.
const JOINS: &[Row<'static>] = &[
    // no such session, which is told before that there is no such role
    (
        b"join 2 a\n",
        None,
        99,
        b"refused nosession\n",
        Attended::TurnedAway,
    ),
    (
        b"join 0 z\n",
        None,
        99,
        b"refused nosession\n",
        Attended::TurnedAway,
    ),
    // no such role, and first lines that spell no join
    (
        b"join 1 z\n",
        None,
        99,
        b"refused norole\n",
        Attended::TurnedAway,
    ),
    (
        b"join 01 a\n",
        None,
        99,
        b"refused line\n",
        Attended::TurnedAway,
    ),
    (b"\n", None, 99, b"refused line\n", Attended::TurnedAway),
    // no LF: the bytes end before it, or the ninth read, of the LF, fails
    (b"joi", None, 99, b"", Attended::NoLine),
    (b"join 1 a", None, 99, b"", Attended::NoLine),
    (b"join 1 a\n", Some(9), 99, b"", Attended::NoLine),
    // a joins, and the rest without an LF is not run
    (
        b"join 1 a\nsend b 5\nund",
        None,
        99,
        b"joined 1 a\ndone 1\n",
        CLOSED,
    ),
    // the undo is made, though two bytes of its answer fit beside the 11 of the first: so the next send is step 2
    (
        b"join 1 a\nundo 1\n",
        None,
        13,
        b"joined 1 a\nun",
        Attended::Conversed(Ending::WriteFault),
    ),
    (
        b"join 1 a\nsend b 6\n",
        None,
        99,
        b"joined 1 a\ndone 2\n",
        CLOSED,
    ),
    // the first answer doesn't fit, or the tenth read, the first after the join, fails: b receives nothing
    (
        b"join 1 b\nrecv a x\n",
        None,
        5,
        b"joine",
        Attended::TurnedAway,
    ),
    (
        b"join 1 b\nrecv a x\n",
        Some(10),
        99,
        b"joined 1 b\n",
        Attended::Conversed(Ending::ReadFault),
    ),
    // b's pass was given back both times
    (
        b"join 1 b\nrecv a x\n",
        None,
        99,
        b"joined 1 b\ndone 3 6\n",
        CLOSED,
    ),
];

// `mps_hub::Serving::attend` answers the first line and then a conversation; however that ends, the pass can be joined
// again.
#[test]
fn a_pass_is_given_back_however_a_conversation_ends(rt: HostRuntime) -> Result<(), Fail> {
    plays(&rt, rt.alloc(), hub(rt.alloc(), 1)?, JOINS)
}

// a's second connection breaks at its tenth read, the first after the join. b receives what its first one sent.
const FAILING: &[Row<'static>] = &[
    (
        b"join 1 a\nsend b 5\n",
        None,
        99,
        b"joined 1 a\ndone 1\n",
        CLOSED,
    ),
    (
        b"join 1 a\n",
        Some(10),
        99,
        b"joined 1 a\n",
        Attended::Conversed(Ending::ReadFault),
    ),
    (
        b"join 1 b\nrecv a x\n",
        None,
        99,
        b"joined 1 b\ndone 2 5\n",
        CLOSED,
    ),
];

// `mps_hub::Serving::attend`: what a connection's commands did stays when the role's next connection breaks.
#[test]
fn steps_stay_when_the_next_connection_breaks(rt: HostRuntime) -> Result<(), Fail> {
    plays(&rt, rt.alloc(), hub(rt.alloc(), 1)?, FAILING)
}

// a's first answer to `1 send b 5` gets lost: there is room for the 11 bytes of `joined` alone.
const REPEATS: &[Row<'static>] = &[
    (
        b"join 1 a\n1 send b 5\n",
        None,
        11,
        b"joined 1 a\n",
        Attended::Conversed(Ending::WriteFault),
    ),
    (
        b"join 1 a\n1 send b 5\n",
        None,
        99,
        b"joined 1 a\ndone 1\n",
        CLOSED,
    ),
    // whatever comes under the newest number, its answer is told
    (
        b"join 1 a\n1 send b 6\n2 mark m\n",
        None,
        99,
        b"joined 1 a\ndone 1\ndone 2\n",
        CLOSED,
    ),
    // b's numbers are its own, and 5 was sent once
    (
        b"join 1 b\n1 recv a x\n",
        None,
        99,
        b"joined 1 b\ndone 3 5\n",
        CLOSED,
    ),
];

// `mps_hub::Serving::attend`: the newest number and its answer go back to the desk with the pass, so a repeat in a
// later connection runs nothing.
#[test]
fn the_newest_answer_goes_back_with_the_pass(rt: HostRuntime) -> Result<(), Fail> {
    plays(&rt, rt.alloc(), hub(rt.alloc(), 1)?, REPEATS)
}

// `mps_hub::Serving::attend` reads a first line of over 512 bytes to its LF and refuses it, and the next connection
// joins. That its length is looked at this can't show: so many `x` spell no join.
#[test]
fn a_long_first_line_is_refused(rt: HostRuntime) -> Result<(), Fail> {
    // one byte more than MAX_LINE
    let mut text = vec![in rt.alloc(); b'x'; 513]?;
    text.push(b'\n')?;
    let refused: &[u8] = b"refused line\n";
    let rows: [Row<'_>; 2] = [
        (text.as_slice(), None, 99, refused, Attended::TurnedAway),
        (b"join 1 a\n", None, 99, b"joined 1 a\n", CLOSED),
    ];
    plays(&rt, rt.alloc(), hub(rt.alloc(), 1)?, &rows)
}

// Connections to two sessions.
const SECOND: &[Row<'static>] = &[
    (
        b"join 2 a\nsend b 5\n",
        None,
        99,
        b"joined 2 a\ndone 1\n",
        CLOSED,
    ),
    // the first step of session 1
    (
        b"join 1 a\nsend b 6\n",
        None,
        99,
        b"joined 1 a\ndone 1\n",
        CLOSED,
    ),
    // of session 2, where a sent 5, the second
    (
        b"join 2 b\nrecv a x\n",
        None,
        99,
        b"joined 2 b\ndone 2 5\n",
        CLOSED,
    ),
    (
        b"join 3 a\n",
        None,
        99,
        b"refused nosession\n",
        Attended::TurnedAway,
    ),
];

// A hub of two sessions that were opened before, of which the first has that number.
fn hub_of_two(alloc: Global, first: u64) -> Result<Hub, Fail>
    requires { first ≤ 2 ^ 63 }
    ensures { IfOk result (λ h. h.given ≡ false) }
{
    let (names, one) = opened(alloc, VERDICT)?;
    let (_, second) = opened(alloc, VERDICT)?;
    if second.roles() != names.count() {
        return Err("three roles".into());
    }
    Ok(Hub::of_numbered(alloc, &names, first, vec![in alloc; one, second]?)?)
}

// `mps_hub::Hub::of_numbered` numbers the sessions that it is handed in their order, here from 1, each with its own
// journal.
#[test]
fn each_session_has_its_own_journal(rt: HostRuntime) -> Result<(), Fail> {
    plays(&rt, rt.alloc(), hub_of_two(rt.alloc(), 1)?, SECOND)
}

// Connections to the sessions 17 and 18, and to numbers that no session has.
const NUMBERED: &[Row<'static>] = &[
    (
        b"join 17 a\nsend b 4\n",
        None,
        99,
        b"joined 17 a\ndone 1\n",
        CLOSED,
    ),
    (
        b"join 18 a\nsend b 5\n",
        None,
        99,
        b"joined 18 a\ndone 1\n",
        CLOSED,
    ),
    (
        b"join 17 b\nrecv a x\n",
        None,
        99,
        b"joined 17 b\ndone 2 4\n",
        CLOSED,
    ),
    (
        b"join 1 a\n",
        None,
        99,
        b"refused nosession\n",
        Attended::TurnedAway,
    ),
    (
        b"join 16 a\n",
        None,
        99,
        b"refused nosession\n",
        Attended::TurnedAway,
    ),
    (
        b"join 19 a\n",
        None,
        99,
        b"refused nosession\n",
        Attended::TurnedAway,
    ),
];

// `mps_hub::Hub::of_numbered` numbers its sessions from the number that it is given, here 17, which stands for any.
#[test]
fn sessions_are_numbered_from_the_given_number(rt: HostRuntime) -> Result<(), Fail> {
    plays(&rt, rt.alloc(), hub_of_two(rt.alloc(), 17)?, NUMBERED)
}

// Each role of both sessions joins.
const EACH_ROLE: &[Row<'static>] = &[
    (b"join 1 a\n", None, 99, b"joined 1 a\n", CLOSED),
    (b"join 1 b\n", None, 99, b"joined 1 b\n", CLOSED),
    (b"join 1 c\n", None, 99, b"joined 1 c\n", CLOSED),
    (b"join 2 a\n", None, 99, b"joined 2 a\n", CLOSED),
    (b"join 2 b\n", None, 99, b"joined 2 b\n", CLOSED),
    (b"join 2 c\n", None, 99, b"joined 2 c\n", CLOSED),
];

// The connections come to these rows, and come a second time.
fn plays_twice<R: Wait + Clock + Eprint + 'static>(
    rt: &R,
    alloc: Global,
    mut hub: Hub,
    rows: &[Row<'_>],
) -> Result<(), Fail>
    requires { hub.given ≡ false }
{
    let Some(deal) = hub.deal() else {
        return Err("given".into());
    };
    let desk = hub.desk_of(alloc, deal)?;
    are_played(rt, alloc, &desk, rows)?;
    are_played(rt, alloc, &desk, rows)
}

// `mps_hub::Serving::attend` gives each pass of two sessions of three roles back: all can join a second time.
#[test]
fn each_pass_of_each_session_can_be_joined_again(rt: HostRuntime) -> Result<(), Fail> {
    plays_twice(&rt, rt.alloc(), hub(rt.alloc(), 2)?, EACH_ROLE)
}
