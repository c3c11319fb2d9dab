//! mps_room: a numbered command is called once, and a repeat gets its answer.
use crate::texts::{VERDICT, room, told};
use mps_base::{Role, StepId};
use mps_command::{Answer, Command, StepIds};
use mps_line::read_numbered;
use mps_room::{Caller, Numbers, Position, Solo, Told, call_numbered};
use std::alloc::Global;
use std::process::Abort;
use std::test::Fail;

// Each of the numbers stands where its row says.
fn stand(rt: &impl Abort, numbers: &Numbers, rows: &[(u64, Position)]) {
    for (number, position) in rows {
        let found = Position::of(numbers.last(), *number);
        assert!(rt;
            found == *position,
            "the position of number {number}: found {found:?}, wanted {position:?}"
        );
    }
}

// Numbers, and where they stand before any is accepted.
const AT_FIRST: &[(u64, Position)] = &[
    (0, Position::Elsewhere),
    (1, Position::Next),
    (2, Position::Elsewhere),
    (u64::MAX, Position::Elsewhere),
];

// Numbers, and where they stand once number 1 was accepted.
const AFTER_ONE: &[(u64, Position)] = &[
    (0, Position::Elsewhere),
    (1, Position::Last),
    (2, Position::Next),
    (3, Position::Elsewhere),
];

// The answer that step 7 was taken back.
fn undone(alloc: Global) -> Result<Answer, Fail> {
    Ok(Answer::Undone(StepIds::of(vec![in alloc; StepId::new(7)]?)))
}

// Whether it is kept under the number 1.
fn is_kept(alloc: Global, numbers: &Numbers) -> Result<bool, Fail> {
    match numbers.kept() {
        Some(kept) => Ok(told(alloc, kept)?.as_str() == "undone 7" && numbers.last() == 1),
        None => Ok(false),
    }
}

// `mps_room::Numbers` keeps the newest accepted number with its answer, and `Position::of` says which number may come
// next.
#[test]
fn the_newest_number_is_kept_with_its_answer(rt: HostRuntime) -> Result<(), Fail> {
    let answer = undone(rt.alloc())?;
    let mut numbers = Numbers::new();
    assert_eq!(rt; numbers.last(), 0, "the newest number at first");
    assert!(rt; numbers.kept().is_none(), "no answer is kept at first");
    stand(&rt, &numbers, AT_FIRST);
    numbers.keep(1, answer);
    stand(&rt, &numbers, AFTER_ONE);
    assert!(rt;
        is_kept(rt.alloc(), &numbers)?,
        "`undone 7` is kept under the number 1"
    );
    Ok(())
}

// What comes of a line with its number.
fn numbered<C: Caller>(alloc: Global, caller: &mut C, line: &str) -> Result<Told, Fail> {
    let (number, change) = read_numbered(alloc, caller.roles(), line.as_bytes())?;
    let number = number.ok_or("a number")?;
    match change {
        Command::News(_) | Command::Show | Command::Stand => Err(
            "a numbered command that changes something".into(),
        ),
        change => Ok(call_numbered(caller, number, change)),
    }
}

// What comes of a line with its number, in words.
fn came_text<C: Caller>(alloc: Global, caller: &mut C, line: &str) -> Result<String, Fail> {
    let came = numbered(alloc, caller, line)?;
    Ok(format!(in alloc; "{came:?}")?)
}

// The answer that is kept.
fn kept_text<C: Caller>(alloc: Global, caller: &C) -> Result<String, Fail> {
    match caller.kept() {
        Some(answer) => told(alloc, answer),
        None => Err("an answer".into()),
    }
}

// A line with its number, what it comes to, and what is kept then, under which number.
pub(crate) type Row<'a> = (&'a str, &'a str, u64, &'a str);

// The row comes to what it says.
fn is_numbered<A: Abort, C: Caller>(
    rt: &A,
    alloc: Global,
    caller: &mut C,
    row: Row<'_>,
) -> Result<(), Fail> {
    let (line, comes, last, keeps) = row;
    let came = came_text(alloc, caller, line)?;
    assert!(rt;
        came.as_str() == comes,
        "{line}: found {came}, wanted {comes}"
    );
    assert_eq!(rt; caller.last(), last, "the newest number after {line}");
    let kept = kept_text(alloc, caller)?;
    assert!(rt;
        kept.as_str() == keeps,
        "kept after {line}: found {kept}, wanted {keeps}"
    );
    Ok(())
}

// The rows come to what they say, one after the other.
pub(crate) fn are_numbered<A: Abort, C: Caller>(
    rt: &A,
    alloc: Global,
    caller: &mut C,
    rows: &[Row<'_>],
) -> Result<(), Fail> {
    for row in rows {
        is_numbered(rt, alloc, caller, *row)?;
    }
    Ok(())
}

const NUMBERED: &[Row<'static>] = &[
    // a number again, and numbers that are neither the newest nor the next
    ("1 send b 5", "Fresh", 1, "done 1"),
    ("1 send b 5", "Kept", 1, "done 1"),
    ("3 mark m", "Wrong", 1, "done 1"),
    ("2 mark m", "Fresh", 2, "done 2"),
    ("1 mark m", "Wrong", 2, "done 2"),
    ("0 mark m", "Wrong", 2, "done 2"),
    // the newest number, whatever it asks for; a refused number, which may come again
    ("2 undo 9", "Kept", 2, "done 2"),
    ("3 undo 9", "Refused(NoStep)", 2, "done 2"),
    ("3 undo 2", "Fresh", 3, "undone 2"),
    ("3 undo 2", "Kept", 3, "undone 2"),
    ("4 back m", "Refused(NoMark)", 3, "undone 2"),
    ("4 rollback 1", "Fresh", 4, "undone 1"),
    // a commit, which is kept as any step
    ("5 commit", "Fresh", 5, "done 3"),
    ("5 commit", "Kept", 5, "done 3"),
    ("6 undo 3", "Refused(Final { by: StepId(3) })", 5, "done 3"),
];

// The caller of a in a new room.
fn new_solo(alloc: Global) -> Result<Solo, Fail> {
    let room = room(alloc, VERDICT)?;
    if room.session().roles() == 0 {
        return Err("a role".into());
    }
    Ok(Solo::new(room, Role::new(0)))
}

// What the caller is told of the news from the first entry on.
fn news<C: Caller>(alloc: Global, caller: &mut C) -> Result<String, Fail> {
    told(alloc, &caller.call(Command::News(0)))
}

// The rows come to what they say, one after the other. Five of them are called and accepted, so there are five entries,
// and no news, since nobody else took a step back.
fn goes_by_numbers(rt: &impl Abort, alloc: Global, solo: &mut Solo) -> Result<(), Fail> {
    are_numbered(rt, alloc, solo, NUMBERED)?;
    assert_eq!(rt; solo.room.entries(), 5, "the count of entries");
    let told = news(alloc, solo)?;
    assert!(rt;
        told.as_str() == "news 5",
        "the news: found {told}, wanted news 5"
    );
    assert_eq!(rt; solo.last(), 5, "the newest number after the news");
    assert_eq!(rt; solo.roles().count(), 3, "the count of roles");
    Ok(())
}

// `mps_room::call_numbered` calls a number's command once (`Fresh`), keeps its answer (`Kept`), and calls no other
// (`Wrong`).
#[test]
fn a_number_is_called_once_and_its_answer_kept(rt: HostRuntime) -> Result<(), Fail> {
    let mut solo = new_solo(rt.alloc())?;
    goes_by_numbers(&rt, rt.alloc(), &mut solo)
}
