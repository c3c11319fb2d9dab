//! mps_wire: a script runs with the types that it is given, and not at all where these open no session.

use crate::pieces::{in_one_piece, in_single_bytes, room};
use crate::protocols::{name, types};
use crate::scripts::{SCRIPT, comes_to};
use mps_base::{Role, Sort, VarName};
use mps_local::{Branches, Local};
use mps_session::{LocalFault, OpenFault};
use mps_wire::ReplayFault;
use std::alloc::Global;
use std::test::Fail;

// Whether the second line of the script is a mismatch, with these types.
fn mismatches(alloc: Global, a: Local, b: Local, script: &str) -> Result<bool, Fail> {
    let types = vec![in alloc; a, b]?;
    let want = b"done 1\nrefused mismatch\n";
    comes_to(
        alloc,
        types,
        in_one_piece(alloc, script)?,
        room(200),
        want,
        None,
    )
}

// A type that gives b an int.
fn gives(alloc: Global) -> Result<Local, Fail> {
    Ok(Local::send(alloc, Role::new(1), Sort::Int, Local::End)?)
}

// A type that tells b `maybe`.
fn tells(alloc: Global) -> Result<Local, Fail> {
    let branches = Branches::more(alloc, name("maybe")?, Local::End, Branches::NoMore)?;
    Ok(Local::Select {
        peer: Role::new(1),
        branches,
    })
}

// A type that picks `go` or `stop` of a.
fn picks(alloc: Global) -> Result<Local, Fail> {
    let stop = Branches::more(alloc, name("stop")?, Local::End, Branches::NoMore)?;
    let branches = Branches::more(alloc, name("go")?, Local::End, stop)?;
    Ok(Local::Branch {
        peer: Role::new(0),
        branches,
    })
}

// A type that takes a text of a.
fn takes(alloc: Global) -> Result<Local, Fail> {
    Ok(Local::recv(alloc, Role::new(0), Sort::Text, Local::End)?)
}

// Whether a value is refused where one of another sort is expected.
fn refuses_a_value(alloc: Global) -> Result<bool, Fail> {
    let script = "a send b 5\nb recv a x\n";
    mismatches(alloc, gives(alloc)?, takes(alloc)?, script)
}

// Whether a value is refused where a label is expected.
fn refuses_a_value_for_a_label(alloc: Global) -> Result<bool, Fail> {
    let script = "a send b 5\nb pick a\n";
    mismatches(alloc, gives(alloc)?, picks(alloc)?, script)
}

// Whether a label is refused that is none of those expected.
fn refuses_a_label(alloc: Global) -> Result<bool, Fail> {
    let script = "a choose b maybe\nb pick a\n";
    mismatches(alloc, tells(alloc)?, picks(alloc)?, script)
}

// `mps_wire::replay` answers `mismatch` to a receipt or a pick where types don't fit each other, as those of a protocol
// do.
#[test]
fn a_message_of_another_kind_is_a_mismatch(rt: HostRuntime) -> Result<(), Fail> {
    assert!(rt; refuses_a_value(rt.alloc())?, "a value of another sort");
    assert!(rt;
        refuses_a_value_for_a_label(rt.alloc())?,
        "a value for a label"
    );
    assert!(rt; refuses_a_label(rt.alloc())?, "a label of no branch");
    Ok(())
}

// a gives b a text, a text and an int, and b gives a two bools.
const EACH_SORT: &str =
    "roles a b ; a -> b : text . b -> a : bool . a -> b : text . b -> a : bool . a -> b : int . end";

// Each value, the empty text and the least int, -2^63, among them, is sent and received.
const SORTS_ASKED: &str = "a send b \"good day\"\nb recv a x\nb send a true\na recv b y\n\
    a send b \"\"\nb recv a x\nb send a false\na recv b z\n\
    a send b -9223372036854775808\nb recv a x\n";

// What is received is told as it was sent.
const SORTS_TOLD: &[u8] = b"done 1\ndone 2 \"good day\"\ndone 3\ndone 4 true\n\
    done 5\ndone 6 \"\"\ndone 7\ndone 8 false\n\
    done 9\ndone 10 -9223372036854775808\n";

// Whether these pieces are answered so.
fn are_passed(alloc: Global, pieces: Vec<Vec<u8>>) -> Result<bool, Fail> {
    let types = types(alloc, EACH_SORT)?;
    comes_to(alloc, types, pieces, room(200), SORTS_TOLD, None)
}

// `mps_wire::replay` passes values of each sort on unchanged, in one piece and in single bytes.
#[test]
fn values_of_each_sort_are_passed_unchanged(rt: HostRuntime) -> Result<(), Fail> {
    let whole = in_one_piece(rt.alloc(), SORTS_ASKED)?;
    assert!(rt; are_passed(rt.alloc(), whole)?, "in one piece");
    let single = in_single_bytes(rt.alloc(), SORTS_ASKED)?;
    assert!(rt; are_passed(rt.alloc(), single)?, "in single bytes");
    Ok(())
}

// The end, and before it so many outputs to that peer.
fn sends(alloc: Global, peer: u8, count: usize) -> Result<Local, Fail> {
    let mut t = Local::End;
    for _ in 0..count {
        t = Local::send(alloc, Role::new(peer), Sort::Int, t)?;
    }
    Ok(t)
}

// Whether no session opens for a script with these types, for this fault.
fn is_not_opened(alloc: Global, a: Local, b: Local, fault: OpenFault) -> Result<bool, Fail> {
    let types = vec![in alloc; a, b]?;
    let pieces = in_one_piece(alloc, SCRIPT)?;
    comes_to(
        alloc,
        types,
        pieces,
        room(200),
        b"",
        Some(ReplayFault::Open(fault)),
    )
}

// A loop in which nothing is done.
fn idle(alloc: Global) -> Result<Local, Fail> {
    let x = VarName::read(b"X").ok_or("a variable")?;
    Ok(Local::rec(alloc, x, Local::Var(x))?)
}

// Whether so many outputs of a are too many, in this way.
fn is_past_a_limit(alloc: Global, count: usize, fault: LocalFault) -> Result<bool, Fail> {
    let role = Role::new(0);
    is_not_opened(
        alloc,
        sends(alloc, 1, count)?,
        Local::End,
        OpenFault::Local { role, fault },
    )
}

// Whether a, who gives itself an int, is told as bad.
fn is_bad(alloc: Global) -> Result<bool, Fail> {
    let itself = OpenFault::BadPeer { role: Role::new(0) };
    is_not_opened(alloc, sends(alloc, 0, 1)?, Local::End, itself)
}

// Whether the idle loop of b is told.
fn is_unguarded(alloc: Global) -> Result<bool, Fail> {
    let unguarded = OpenFault::Local {
        role: Role::new(1),
        fault: LocalFault::Unguarded,
    };
    is_not_opened(alloc, Local::End, idle(alloc)?, unguarded)
}

// How many outputs of a are too many, in which way: with the end 64 are 65 levels, and 256 are 257 nodes.
const PAST_A_LIMIT: &[(usize, LocalFault)] = &[
    (64, LocalFault::TooDeep),
    (255, LocalFault::TooDeep),
    (256, LocalFault::TooManyNodes),
];

// `mps_wire::replay` says why types open no session, a bad peer, a loop without an act or a limit, and writes nothing.
#[test]
fn types_that_open_no_session_are_told(rt: HostRuntime) -> Result<(), Fail> {
    assert!(rt; is_bad(rt.alloc())?, "a peer that is the role itself");
    assert!(rt; is_unguarded(rt.alloc())?, "a loop without an act");
    for (count, fault) in PAST_A_LIMIT {
        assert!(rt;
            is_past_a_limit(rt.alloc(), *count, *fault)?,
            "{count} outputs"
        );
    }
    Ok(())
}

// Whether a session opens where a gives b so many ints.
fn is_opened(alloc: Global, count: usize) -> Result<bool, Fail> {
    let types = vec![in alloc; sends(alloc, 1, count)?, Local::End]?;
    let script = in_one_piece(alloc, "a send b 5\n")?;
    comes_to(alloc, types, script, room(200), b"done 1\n", None)
}

// `mps_wire::replay` opens a session of 64 levels, the most: 63 outputs and the end.
#[test]
fn types_of_64_levels_open_a_session(rt: HostRuntime) -> Result<(), Fail> {
    assert!(rt; is_opened(rt.alloc(), 63)?, "64 levels");
    Ok(())
}
