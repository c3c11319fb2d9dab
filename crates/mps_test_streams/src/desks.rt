//! mps_hub: bad types open no hub, first lines are answered, and passes come back to the desk.
ghost use Rattle.std.specs.Prelude.{◌≡◌, false, IfOk};

use mps_base::{Name, Role, Roles, Sort};
use mps_dev::{Pieces, Short};
use mps_hub::{Attended, Desk, Hub, Lookout, Serving, Unguarded, Waits};
use mps_local::Local;
use mps_session::OpenFault;
use mps_wire::Ending;
use std::alloc::Global;
use std::net::Net;
use std::sync::Wait;
use std::test::Fail;
use std::thread::Threads;
use std::time::{Clock, Duration};

// The roles a and b.
fn two_names(alloc: Global) -> Result<Roles, Fail> {
    let mut all = Vec::new(alloc);
    for text in ["a", "b"] {
        all.push(Name::read(text.as_bytes()).ok_or("a name")?)?;
    }
    Ok(Roles::of(alloc, all.as_slice())?)
}

// The role a gives this peer an int, and b does nothing.
fn giving_to(alloc: Global, peer: u8) -> Result<Vec<Local>, Fail> {
    let mut types = Vec::new(alloc);
    types.push(Local::send(alloc, Role::new(peer), Sort::Int, Local::End)?)?;
    types.push(Local::End)?;
    Ok(types)
}

// A hub with one session in which a gives this peer an int, or why there is none.
fn opened(alloc: Global, peer: u8) -> Result<Result<Hub, OpenFault>, Fail>
    ensures { IfOk result (λ opened. IfOk opened (λ h. h.given ≡ false)) }
{
    let names = two_names(alloc)?;
    let types = giving_to(alloc, peer)?;
    if names.count() != types.len() {
        return Err("as many names as types".into());
    }
    Ok(Hub::open(alloc, &names, types.as_slice(), 1))
}

// Of which role the peer is bad.
fn bad_peer(fault: OpenFault) -> Option<usize> {
    match fault {
        OpenFault::BadPeer { role } => Some(role.index()),
        _ => None,
    }
}

// Of which role the peer is bad, if of any, where a gives this peer an int.
fn refused(alloc: Global, peer: u8) -> Result<Option<usize>, Fail> {
    match opened(alloc, peer)? {
        Ok(_hub) => Ok(None),
        Err(fault) => Ok(bad_peer(fault)),
    }
}

// `mps_hub::Hub::open` says whose peer is bad: a names itself, at place 0, or no role of the two. b, at place 1, is a
// good one.
#[test]
fn a_bad_peer_opens_no_hub(rt: HostRuntime) -> Result<(), Fail> {
    for peer in [0, 2, 255] {
        assert!(rt;
            refused(rt.alloc(), peer)? == Some(0),
            "the peer at place {peer}"
        );
    }
    assert!(rt; refused(rt.alloc(), 1)?.is_none(), "the peer at place 1");
    Ok(())
}

// A hub with one session.
fn hub(alloc: Global) -> Result<Hub, Fail>
    ensures { IfOk result (λ h. h.given ≡ false) }
{
    match opened(alloc, 1)? {
        Ok(hub) => Ok(hub),
        Err(_) => Err("not opened".into()),
    }
}

// What a connection comes to that sends these pieces, each of which is one read at the least. Other answers are a
// failure with the first piece.
fn attended<R: Wait + Clock + Eprint + 'static>(
    rt: &R,
    alloc: Global,
    desk: &Desk<'_>,
    pieces: Vec<Vec<u8>>,
    answers: &[u8],
) -> Result<Attended, Fail> {
    let sent = match pieces.first() {
        Some(piece) => String::from_utf8_lossy(alloc, piece.as_slice())?,
        None => String::new(alloc),
    };
    let mut reader = Pieces::new(pieces, None);
    let mut writer = Short::new(alloc, 99)?;
    let ended = Serving::unrecorded(rt, alloc, desk, &Unguarded).attend(
        1,
        &mut reader,
        &mut writer,
    );
    if writer.bytes() != answers {
        return Err(format!(in alloc; "other answers to {sent}")?.into());
    }
    Ok(ended)
}

// The line, and then so many pieces of one letter.
fn line_and_letters(alloc: Global, line: &[u8], count: usize) -> Result<Vec<Vec<u8>>, Fail> {
    let mut pieces = vec![in alloc; Vec::from_slice(alloc, line)?]?;
    for _ in 0..count {
        pieces.push(vec![in alloc; b'x']?)?;
    }
    Ok(pieces)
}

// The desk of the hub.
fn desk_of(alloc: Global, hub: &mut Hub) -> Result<Desk<'_>, Fail>
    requires { hub.old.given ≡ false }
{
    match hub.deal() {
        Some(deal) => Ok(hub.desk_of(alloc, deal)?),
        None => Err("given".into()),
    }
}

// How a connection ends that joins and sends so many letters.
fn ended_after<R: Wait + Clock + Eprint + 'static>(
    rt: &R,
    alloc: Global,
    desk: &Desk<'_>,
    letters: usize,
) -> Result<Attended, Fail> {
    let pieces = line_and_letters(alloc, b"join 1 a\n", letters)?;
    attended(rt, alloc, desk, pieces, b"joined 1 a\n")
}

// `mps_hub::Serving::attend`: after 1,000,000 reads (MAX_READS), here of a letter each, a conversation ends. That its
// pass went back to the desk, the second connection shows, which joins.
#[test]
fn a_pass_is_given_back_after_a_million_reads(rt: HostRuntime) -> Result<(), Fail> {
    let mut hub = hub(rt.alloc())?;
    let desk = desk_of(rt.alloc(), &mut hub)?;
    for (letters, ending) in [(1_000_001, Ending::Turns), (1, Ending::Closed)] {
        let ended = ended_after(&rt, rt.alloc(), &desk, letters)?;
        assert!(rt; ended == Attended::Conversed(ending), "{letters} letters");
    }
    Ok(())
}

// So many letters, and an LF.
fn long_line(alloc: Global, letters: usize) -> Result<Vec<Vec<u8>>, Fail> {
    let mut line = vec![in alloc; b'x'; letters]?;
    line.push(b'\n')?;
    Ok(vec![in alloc; line]?)
}

// How a connection ends whose first line has so many letters, and that is answered so.
fn ended_at<R: Wait + Clock + Eprint + 'static>(
    rt: &R,
    alloc: Global,
    desk: &Desk<'_>,
    letters: usize,
    answers: &[u8],
) -> Result<Attended, Fail> {
    attended(rt, alloc, desk, long_line(alloc, letters)?, answers)
}

// `mps_hub::Serving::attend` looks for a first line by 1,000,000 reads (MAX_READS), of one byte each: after 999,999
// letters the LF is the millionth byte, after one letter more it is not read.
#[test]
fn a_first_line_is_looked_for_in_a_million_reads(rt: HostRuntime) -> Result<(), Fail> {
    let mut hub = hub(rt.alloc())?;
    let desk = desk_of(rt.alloc(), &mut hub)?;
    let found = ended_at(&rt, rt.alloc(), &desk, 999_999, b"refused line\n")?;
    assert!(rt;
        found == Attended::TurnedAway,
        "the LF is the millionth byte"
    );
    let lost = ended_at(&rt, rt.alloc(), &desk, 1_000_000, b"")?;
    assert!(rt;
        lost == Attended::NoLine,
        "the LF comes after a million bytes"
    );
    Ok(())
}

// First lines, and what they are answered.
const FIRST_LINES: &[(&[u8], &[u8])] = &[
    // the greatest number, 2^64 - 1, and one more
    (b"join 18446744073709551615 a\n", b"refused nosession\n"),
    (b"join 18446744073709551616 a\n", b"refused line\n"),
    // no such role, or no such session, which is told first
    (b"join 1 c\n", b"refused norole\n"),
    (b"join 2 c\n", b"refused nosession\n"),
    // other spellings, a part too few, other lines
    (b"join 1 A\n", b"refused line\n"),
    (b"join 1  a\n", b"refused line\n"),
    (b"join 1 a \n", b"refused line\n"),
    (b"join 1\n", b"refused line\n"),
    (b"1 join 1 a\n", b"refused line\n"),
    (b"send b 5\n", b"refused line\n"),
    // a join
    (b"join 1 b\n", b"joined 1 b\n"),
];

// How a connection ends that sends this line alone, and is answered so.
fn joining<R: Wait + Clock + Eprint + 'static>(
    rt: &R,
    alloc: Global,
    desk: &Desk<'_>,
    line: &[u8],
    answer: &[u8],
) -> Result<Attended, Fail> {
    let pieces = line_and_letters(alloc, line, 0)?;
    attended(rt, alloc, desk, pieces, answer)
}

// `mps_hub::Serving::attend` joins where the first line asks for a role of a session that there are, and else says why
// not.
#[test]
fn a_first_line_joins_or_is_told_why_not(rt: HostRuntime) -> Result<(), Fail> {
    let mut hub = hub(rt.alloc())?;
    let desk = desk_of(rt.alloc(), &mut hub)?;
    for (line, answer) in FIRST_LINES {
        joining(&rt, rt.alloc(), &desk, line, answer)?;
    }
    Ok(())
}

// Whether a's pass is refused as taken while it is, and not once it is given back.
fn is_taken<R: Wait + Clock + Eprint + 'static>(
    rt: &R,
    alloc: Global,
    desk: &Desk<'_>,
) -> Result<bool, Fail> {
    let name = Name::read(b"a").ok_or("a name")?;
    let Ok(pass) = desk.take(rt, 1, &name) else {
        return Err("no pass".into());
    };
    let taken = joining(rt, alloc, desk, b"join 1 a\n", b"refused taken\n")?;
    desk.give(rt, 1, pass);
    let given = joining(rt, alloc, desk, b"join 1 a\n", b"joined 1 a\n")?;
    Ok(taken == Attended::TurnedAway && given == Attended::Conversed(Ending::Closed))
}

// `mps_hub::Desk::take` of a role's pass, till `Desk::give`: a connection that asks for it is answered `refused taken`.
#[test]
fn a_pass_that_is_taken_is_refused(rt: HostRuntime) -> Result<(), Fail> {
    let mut hub = hub(rt.alloc())?;
    let desk = desk_of(rt.alloc(), &mut hub)?;
    assert!(rt;
        is_taken(&rt, rt.alloc(), &desk)?,
        "refused while it is taken, joined once it is given back"
    );
    Ok(())
}

// A hub with one session, whose answers wait for a millisecond at most.
fn waiting_hub<R: Net + Threads>(rt: &R, alloc: Global) -> Result<Hub, Fail>
    ensures { IfOk result (λ h. h.given ≡ false) }
{
    match Lookout::start(rt, alloc, 1, Duration::from_millis(1)) {
        Ok(lookout) => Ok(hub(alloc)?.waiting(Some(Waits::new(lookout, 0)))),
        Err(_) => Err("no lookout".into()),
    }
}

// How a connection of b ends that sends these lines, and is answered so.
fn waited<R: Wait + Clock + Eprint + 'static>(
    rt: &R,
    alloc: Global,
    hub: &mut Hub,
    answers: &[u8],
) -> Result<Attended, Fail>
    requires { hub.old.given ≡ false }
{
    let desk = desk_of(alloc, hub)?;
    let lines = b"join 1 b\nwait 60000 1 recv a x\nwait 60000 news 0\nwait 60000 nothing\n";
    attended(
        rt,
        alloc,
        &desk,
        line_and_letters(alloc, lines, 0)?,
        answers,
    )
}

// `mps_hub::Serving::attend` at a hub that is `waiting`: answers wait where their lines say so, but no longer than a millisecond.
// Else no line may say so.
#[test]
fn answers_wait_where_they_may(rt: HostRuntime) -> Result<(), Fail> {
    let mut waiting = waiting_hub(&rt, rt.alloc())?;
    let answers = b"joined 1 b\nrefused ended\nnews 0\nrefused line\n";
    waited(&rt, rt.alloc(), &mut waiting, answers)?;
    let mut other = hub(rt.alloc())?.waiting(None);
    let answers = b"joined 1 b\nrefused line\nrefused line\nrefused line\n";
    waited(&rt, rt.alloc(), &mut other, answers)?;
    Ok(())
}
