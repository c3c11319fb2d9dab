//! mps_cell: a pass calls a numbered command once, and keeps its answer.

use crate::cells::cell;
use crate::numbers;
use crate::numbers::are_numbered;
use crate::texts::{TWO_PAIRS, told};
use mps_base::StepId;
use mps_cell::{Cell, Held};
use mps_command::{Answer, Command};
use mps_room::Caller;
use std::alloc::Global;
use std::process::Abort;
use std::sync::Wait;
use std::test::Fail;

// A line with its number, what it comes to, and which number is the newest then, with its answer.
const NUMBERED: &[numbers::Row<'static>] = &[
    ("1 send b 1", "Fresh", 1, "done 1"),
    ("1 send b 1", "Kept", 1, "done 1"),
    ("3 mark m", "Wrong", 1, "done 1"),
    ("0 mark m", "Wrong", 1, "done 1"),
    ("2 undo 7", "Refused(NoStep)", 1, "done 1"),
    ("2 mark m", "Fresh", 2, "done 2"),
    ("1 mark m", "Wrong", 2, "done 2"),
    ("3 undo 2", "Fresh", 3, "undone 2"),
    ("3 mark m", "Kept", 3, "undone 2"),
];

// What the undo of step 1 is answered by a caller of any kind, where it has so many roles.
fn undone_by_its_bound<C: Caller>(caller: &mut C, roles: usize) -> Option<Answer> {
    if caller.roles().count() != roles {
        return None;
    }
    Some(caller.call(Command::Undo(StepId::new(1))))
}

// Nothing is kept yet.
fn is_fresh<A: Abort, C: Caller>(rt: &A, caller: &C) {
    assert_eq!(rt; caller.last(), 0, "the newest number at first");
    assert!(rt; caller.kept().is_none(), "no answer is kept at first");
}

// What an undo with no number is answered.
fn undone_text<C: Caller>(alloc: Global, caller: &mut C) -> Result<String, Fail> {
    match undone_by_its_bound(caller, 4) {
        Some(answer) => told(alloc, &answer),
        None => Err("four roles".into()),
    }
}

// The rows come to what they say, one after the other, and then an undo with no number.
fn goes_by_numbers<A: Abort, R: Wait>(
    rt: &A,
    alloc: Global,
    caller: &mut Held<'_, '_, R>,
) -> Result<(), Fail> {
    are_numbered(rt, alloc, caller, NUMBERED)?;
    // the three accepted lines; the undo below has no number
    assert_eq!(rt; caller.pass.seen(), 3, "the count of entries");
    let undone = undone_text(alloc, caller)?;
    assert!(rt;
        undone.as_str() == "undone 1",
        "the undo: found {undone}, wanted undone 1"
    );
    assert_eq!(rt; caller.last(), 3, "the newest number after the undo");
    Ok(())
}

// The pass of the first role, and what it waits by.
fn first_waiting<'r, 'a, R: Wait>(rt: &'r R, cell: &'a mut Cell) -> Option<Held<'r, 'a, R>> {
    let mut all = cell.passes().ok()?;
    all.truncate(1);
    Some(Held {
        rt,
        pass: all.pop()?,
    })
}

// `mps_cell::Held` calls a numbered command of its pass once (`Fresh`), keeps its answer (`Kept`), and calls no other
// number (`Wrong`).
#[test]
fn a_pass_calls_a_numbered_command_once(rt: HostRuntime) -> Result<(), Fail> {
    let mut cell = cell(rt.alloc(), TWO_PAIRS)?;
    let mut caller = first_waiting(&rt, &mut cell).ok_or("a pass")?;
    is_fresh(&rt, &caller);
    goes_by_numbers(&rt, rt.alloc(), &mut caller)
}
