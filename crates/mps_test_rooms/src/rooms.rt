//! mps_room: commands are answered by the journal, which keeps what was accepted, up to 100,000 entries.
use crate::texts::{TWO_PAIRS, VERDICT, asked, room, told};
use mps_base::{Name, Role, StepId};
use mps_command::{Answer, Command, Forward, Refusal};
use mps_room::{Entry, Room};
use std::alloc::Global;
use std::test::Fail;

// a gives b ints in a loop.
const INTS: &str = "roles a b ; rec X . a -> b : int . X";

// a gives b texts in a loop.
const TEXTS: &str = "roles a b ; rec X . a -> b : text . X";

// ---- rows

// A line, and what it is answered.
type Row = (&'static str, &'static str);

// What the role is answered to the command.
fn answered(room: &mut Room, role: Role, command: Command) -> Result<Answer, Fail> {
    if role.index() < room.session().roles() {
        Ok(room.apply(role, command))
    } else {
        Err("a role".into())
    }
}

// How many entries, steps and numbers there are.
fn counts(room: &Room) -> (u64, usize, u64) {
    let session = room.session();
    (room.entries(), session.len(), session.issued())
}

// A role's command and its answer, in words.
fn entry_text(alloc: Global, role: Role, command: &Command, answer: &str) -> Result<String, Fail> {
    let place = role.index();
    Ok(format!(in alloc; "{place} {command:?} {answer}")?)
}

// An entry in words.
fn text_of(alloc: Global, entry: &Entry) -> Result<String, Fail> {
    let answer = told(alloc, &entry.answer)?;
    entry_text(alloc, entry.role, &entry.command, answer.as_str())
}

// The entry at that place, from 0, in words.
fn text_at(alloc: Global, room: &Room, place: u64) -> Result<String, Fail> {
    match room.entry(place)? {
        Some(entry) => text_of(alloc, &entry),
        None => Err("an entry".into()),
    }
}

// The row's entry in words.
fn text_wanted(alloc: Global, room: &Room, row: Row) -> Result<String, Fail> {
    let (role, command) = asked(alloc, room.names(), row.0)?;
    entry_text(alloc, role, &command, row.1)
}

// Whether the entry at the place is that of the row.
fn is_at(alloc: Global, room: &Room, place: u64, row: Row) -> Result<bool, Fail> {
    let wanted = text_wanted(alloc, room, row)?;
    Ok(text_at(alloc, room, place)?.as_str() == wanted.as_str())
}

// The command at the place in words, and whose it is, without its answer.
fn command_at(alloc: Global, room: &Room, place: u64) -> Result<String, Fail> {
    match room.command(place)? {
        Some((role, command)) => entry_text(alloc, role, &command, ""),
        None => Err("a command".into()),
    }
}

// Whether the command at the place is that of the row.
fn is_asked_at(alloc: Global, room: &Room, place: u64, row: Row) -> Result<bool, Fail> {
    let wanted = text_wanted(alloc, room, (row.0, ""))?;
    Ok(command_at(alloc, room, place)?.as_str() == wanted.as_str())
}

// What the line is answered.
fn answer_to(alloc: Global, room: &mut Room, line: &str) -> Result<Answer, Fail> {
    let (role, command) = asked(alloc, room.names(), line)?;
    answered(room, role, command)
}

// The answer is the one that the row wants, or the failure is its line with both.
fn is_wanted(alloc: Global, answer: &Answer, row: Row) -> Result<(), Fail> {
    let (line, wanted) = row;
    let text = told(alloc, answer)?;
    if text.as_str() == wanted {
        Ok(())
    } else {
        Err(format!(in alloc; "{line}: found {text}, wanted {wanted}")?.into())
    }
}

// Whether the answer accepts a command that changes something.
fn accepts(answer: &Answer) -> bool {
    matches!(answer, Answer::Done(_) | Answer::Undone(_))
}

// Whether the row's line was accepted, which is answered as the row says.
fn is_accepted(alloc: Global, room: &mut Room, row: Row) -> Result<bool, Fail> {
    let answer = answer_to(alloc, room, row.0)?;
    is_wanted(alloc, &answer, row)?;
    Ok(accepts(&answer))
}

// Whether the journal has the row's line where it was accepted, and else as many entries as before.
fn is_kept(
    alloc: Global,
    room: &Room,
    row: Row,
    before: u64,
    accepted: bool,
) -> Result<bool, Fail> {
    if accepted {
        Ok(room.entries().checked_sub(1) == Some(before) && is_at(alloc, room, before, row)?)
    } else {
        Ok(room.entries() == before)
    }
}

// Whether the session's value has this text.
fn is_shown(alloc: Global, room: &Room, wanted: &str) -> Result<bool, Fail> {
    Ok(value_text(alloc, room)?.as_str() == wanted)
}

// The row is played: its answer is as it says, and the journal has it where it was accepted.
fn play_row(alloc: Global, room: &mut Room, row: Row) -> Result<(), Fail> {
    let before = room.entries();
    let accepted = is_accepted(alloc, room, row)?;
    if !is_kept(alloc, room, row, before, accepted)? {
        return Err(format!(in alloc; "another entry: {}", row.0)?.into());
    }
    if row.0.ends_with(" show") && !is_shown(alloc, room, row.1)? {
        return Err(format!(in alloc; "another value: {}", row.0)?.into());
    }
    Ok(())
}

// The rows are played one after the other.
fn play(alloc: Global, room: &mut Room, rows: &[Row]) -> Result<(), Fail> {
    for row in rows {
        play_row(alloc, room, *row)?;
    }
    Ok(())
}

// The rows are played one after the other in a new room of the protocol.
fn play_anew(alloc: Global, protocol: &str, rows: &[Row]) -> Result<(), Fail> {
    let mut room = room(alloc, protocol)?;
    play(alloc, &mut room, rows)
}

// ---- a relay with a verdict

// a takes all back. News tells b and c which of their steps went in entry 5, and a nothing of its own rollback.
const ROLLED_BACK: &[Row] = &[
    ("a send b 5", "done 1"),
    ("b recv a x", "done 2 5"),
    ("b send c 7", "done 3"),
    ("c recv b y", "done 4 7"),
    ("a rollback 1", "undone 4 3 2 1"),
    ("b news 0", "news 5 3 2"),
    ("a news 0", "news 5"),
    ("c news 0", "news 5 4"),
    // after the first 4, 5, 9 and 2^64 - 1 entries, of 5
    ("c news 4", "news 5 4"),
    ("c news 5", "news 5"),
    ("c news 9", "news 5"),
    ("c news 18446744073709551615", "news 5"),
];

// The steps that survive the rows below.
const SETTLED_SHOWN: &str =
    r#"{"history":[[1,"a","send","b",5],[2,"b","recv","a","x",5],[3,"b","commit"],[4,"b","send","c",7],[5,"c","recv","b","y",7],[6,"c","mark","m"],[7,"c","commit"],[8,"c","commit"]],"queues":[],"roles":[{"expects":"pick c ok no","past":[1],"role":"a","store":[]},{"expects":"end","past":[2,3,4],"role":"b","store":[["x",5]]},{"expects":"choose a ok no","past":[5,6,7,8],"role":"c","store":[["y",7]]}]}"#;

// b settles what it took, and then c.
const SETTLED: &[Row] = &[
    ("a send b 5", "done 1"),
    ("b recv a x", "done 2 5"),
    ("b commit", "done 3"),
    // what would take back b's commit, or is needed for it
    ("a rollback 1", "refused final 3"),
    ("a undo 1", "refused needed 2"),
    ("b undo 3", "refused final 3"),
    ("b undo 2", "refused needed 3"),
    ("b send c 7", "done 4"),
    ("c recv b y", "done 5 7"),
    ("c mark m", "done 6"),
    ("c commit", "done 7"),
    // what would take back c's commit, 7
    ("c back m", "refused final 7"),
    ("b rollback 4", "refused final 7"),
    ("c commit", "done 8"),
    // what follows the commits can be taken back
    ("c mark k", "done 9"),
    ("c back k", "undone"),
    ("c undo 9", "undone 9"),
    ("b rollback 2", "refused final 3"),
    // nine steps, an empty return and an undo are entries, refusals are none
    ("b news 0", "news 11"),
    ("b show", SETTLED_SHOWN),
];

// Single steps are undone by their roles, which is no news to the others.
const UNDONE: &[Row] = &[
    ("a send b 5", "done 1"),
    ("b recv a x", "done 2 5"),
    ("a undo 1", "refused needed 2"),
    ("b undo 2", "undone 2"),
    ("a undo 1", "undone 1"),
    ("a news 0", "news 4"),
    ("b news 0", "news 4"),
];

// The session after a's send, as it is shown.
const SENT: &str =
    r#"{"history":[[1,"a","send","b",5]],"queues":[["a","b",[5]]],"roles":[{"expects":"pick c ok no","past":[1],"role":"a","store":[]},{"expects":"recv a int","past":[],"role":"b","store":[]},{"expects":"recv b int","past":[],"role":"c","store":[]}]}"#;

// The session after b's receipt, as it is shown.
const RECEIVED: &str =
    r#"{"history":[[1,"a","send","b",5],[2,"b","recv","a","x",5]],"queues":[],"roles":[{"expects":"pick c ok no","past":[1],"role":"a","store":[]},{"expects":"send c int","past":[2],"role":"b","store":[["x",5]]},{"expects":"recv b int","past":[],"role":"c","store":[]}]}"#;

// c tells its verdict; then b takes its receipt back, and all that followed.
const TOLD: &[Row] = &[
    ("a send b 5", "done 1"),
    ("a show", SENT),
    ("b recv a x", "done 2 5"),
    ("c show", RECEIVED),
    ("b send c 7", "done 3"),
    ("c recv b y", "done 4 7"),
    ("c choose a maybe", "refused nolabel"),
    ("a pick c", "refused nothingqueued"),
    ("c choose a ok", "done 5"),
    ("a pick c", "done 6 ok"),
    ("a mark e", "done 7"),
    ("a send b 1", "refused ended"),
    ("b rollback 2", "undone 7 6 5 4 3 2"),
    ("a news 7", "news 8 7 6"),
    ("c news 7", "news 8 5 4"),
];

// Refusals of steps, undos, rollbacks and returns, beside one step that is accepted.
const REFUSED: &[Row] = &[
    ("b recv a x", "refused nothingqueued"),
    ("a recv b x", "refused wrongact"),
    ("a send c 5", "refused wrongpeer"),
    ("a send b true", "refused wrongsort"),
    ("b undo 7", "refused nostep"),
    ("b rollback 7", "refused nostep"),
    ("a send b 5", "done 1"),
    ("b undo 1", "refused notyours"),
    ("b rollback 1", "refused notyours"),
    ("a back m", "refused nomark"),
    ("a undo 0", "refused nostep"),
];

// `mps_room::Room::apply` answers each line as its row says. What is accepted is the journal's next entry, and nothing
// else is.
#[test]
fn each_accepted_line_is_the_next_entry(rt: HostRuntime) -> Result<(), Fail> {
    for rows in [ROLLED_BACK, SETTLED, UNDONE, TOLD, REFUSED] {
        play_anew(rt.alloc(), VERDICT, rows)?;
    }
    Ok(())
}

// ---- a loop

// A return takes back what follows the mark, and a second one nothing. Texts may be empty.
const MARKED: &[Row] = &[
    ("a mark m", "done 1"),
    ("a send b \"good day\"", "done 2"),
    ("b recv a x", "done 3 \"good day\""),
    ("a back m", "undone 3 2"),
    ("a back m", "undone"),
    ("b news 0", "news 5 3"),
    ("a undo 1", "undone 1"),
    ("a back m", "refused nomark"),
    ("a news 0", "news 6"),
    ("a send b \"\"", "done 4"),
    ("b news 4", "news 7"),
];

// `mps_room::Room::apply` keeps a return that takes nothing back as an entry too: `news` counts it.
#[test]
fn a_return_that_takes_nothing_back_is_an_entry(rt: HostRuntime) -> Result<(), Fail> {
    play_anew(rt.alloc(), TEXTS, MARKED)
}

// ---- each kind of entry

// a gives b an int, a bool and a text, and b tells a `ok` or `no`.
const EACH_SORT: &str =
    "roles a b ; a -> b : int . a -> b : bool . a -> b : text . b -> a { ok : end , no : end }";

// The longest name there may be is the slot of the int.
const EACH_KIND: &[Row] = &[
    ("a mark m", "done 1"),
    ("a send b -5", "done 2"),
    ("b recv a a_slot_with_a_name_of_32_letters", "done 3 -5"),
    ("a send b true", "done 4"),
    ("b recv a y", "done 5 true"),
    ("a send b \"good day\"", "done 6"),
    ("b recv a z", "done 7 \"good day\""),
    ("b choose a no", "done 8"),
    ("a pick b", "done 9 no"),
    ("a undo 9", "undone 9"),
    ("b rollback 8", "undone 8"),
    ("a back m", "undone 7 6 5 4 3 2"),
    ("a back m", "undone"),
    ("a mark k", "done 10"),
    ("a back m", "undone 10"),
    ("a rollback 1", "undone 1"),
    ("b commit", "done 11"),
];

// Whether nothing stands in the journal after its entries.
fn has_no_more(room: &Room) -> Result<bool, Fail> {
    let end = room.entries();
    Ok(room.entry(end)?.is_none() && room.command(end)?.is_none())
}

// Whether the rows, of which each is accepted, are the journal's entries. One that isn't its entry is the failure.
fn has_entries(alloc: Global, room: &Room, rows: &[Row]) -> Result<bool, Fail> {
    for (k, row) in rows.iter().enumerate() {
        if !is_at(alloc, room, k as u64, *row)? || !is_asked_at(alloc, room, k as u64, *row)? {
            return Err(row.0.into());
        }
    }
    Ok(room.entries() == rows.len() as u64 && has_no_more(room)?)
}

// Whether the room keeps an entry for each row.
fn keeps_each(alloc: Global, room: &mut Room) -> Result<bool, Fail> {
    play(alloc, room, EACH_KIND)?;
    has_entries(alloc, room, EACH_KIND)
}

// `mps_room::Room::entry` gives each entry with its answer, and `Room::command` the command alone, as they were
// accepted.
#[test]
fn each_kind_of_entry_is_kept_as_it_was_accepted(rt: HostRuntime) -> Result<(), Fail> {
    let mut room = room(rt.alloc(), EACH_SORT)?;
    assert!(rt;
        keeps_each(rt.alloc(), &mut room)?,
        "one entry for each row, and none after them"
    );
    Ok(())
}

// ---- a full journal

// A mark `m` of a.
fn mark(room: &mut Room) -> Result<Answer, Fail> {
    let name = Name::read(b"m").ok_or("a name")?;
    answered(room, Role::new(0), Command::Forward(Forward::Mark { name }))
}

// a's mark and its undo, so many times.
fn mark_and_undo(room: &mut Room, times: u64) -> Result<(), Fail> {
    for k in 0..times {
        let _ = mark(room)?;
        let _ = answered(room, Role::new(0), Command::Undo(StepId::new(k + 1)))?;
    }
    Ok(())
}

// The rows are played once there are 99,998 entries.
fn play_nearly_full(alloc: Global, room: &mut Room, rows: &[Row]) -> Result<(), Fail> {
    mark_and_undo(room, 49_999)?;
    if room.entries() != 99_998 {
        return Err("99,998 entries".into());
    }
    play(alloc, room, rows)
}

// The two marks that survive, with the numbers of the rows below.
const MARKS_SHOWN: &str =
    r#"{"history":[[50000,"a","mark","m"],[50001,"a","mark","m"]],"queues":[],"roles":[{"expects":"send b int","past":[50000,50001],"role":"a","store":[]},{"expects":"recv a int","past":[],"role":"b","store":[]},{"expects":"send d int","past":[],"role":"c","store":[]},{"expects":"recv c int","past":[],"role":"d","store":[]}]}"#;

// 49,999 marks have used up 49,999 numbers, so the next two are 50000 and 50001. With them there are 100,000 entries.
const FULL: &[Row] = &[
    ("a mark m", "done 50000"),
    ("a mark m", "done 50001"),
    ("a mark m", "refused full"),
    ("a undo 50001", "refused full"),
    ("a rollback 50000", "refused full"),
    ("a back m", "refused full"),
    // what is refused anyway has its own reason, and questions are answered
    ("a back k", "refused nomark"),
    ("a undo 50000", "refused needed 50001"),
    ("a undo 1", "refused nostep"),
    ("b recv a x", "refused nothingqueued"),
    ("a news 0", "news 100000"),
    ("a show", MARKS_SHOWN),
];

// `mps_room::Room::apply` refuses as full what it would accept, once the journal has 100,000 entries, the most
// (`MAX_ENTRIES`).
#[test]
fn a_journal_is_full_with_100_000_entries(rt: HostRuntime) -> Result<(), Fail> {
    let mut room = room(rt.alloc(), TWO_PAIRS)?;
    play_nearly_full(rt.alloc(), &mut room, FULL)
}

// Here the last entry is a commit, which stands in the way before it is looked at whether the journal is full.
const FULL_WITH_A_COMMIT: &[Row] = &[
    ("a mark m", "done 50000"),
    ("a commit", "done 50001"),
    ("a commit", "refused full"),
    ("a undo 50001", "refused final 50001"),
    ("a undo 50000", "refused needed 50001"),
    ("a rollback 50000", "refused final 50001"),
    ("a back m", "refused final 50001"),
    ("a news 0", "news 100000"),
];

// `mps_room::Room::apply` on a full journal names the commit that an undo, a rollback or a return would take back.
#[test]
fn a_full_journal_still_names_the_commit(rt: HostRuntime) -> Result<(), Fail> {
    let mut room = room(rt.alloc(), TWO_PAIRS)?;
    play_nearly_full(rt.alloc(), &mut room, FULL_WITH_A_COMMIT)
}

// ---- out of memory

// Whether the answer is that memory ran out.
fn ran_out(answer: &Answer) -> bool {
    matches!(answer, Answer::Refused(Refusal::Memory))
}

// What the line is answered, where memory may run out once: nothing has changed then, and the command is given again.
fn answered_at_last(alloc: Global, room: &mut Room, line: &str) -> Result<Answer, Fail> {
    let before = counts(room);
    let answer = answer_to(alloc, room, line)?;
    if !ran_out(&answer) {
        return Ok(answer);
    }
    if counts(room) == before {
        answer_to(alloc, room, line)
    } else {
        Err("out of memory changes something".into())
    }
}

// The row is answered as it says, where memory may run out once.
fn is_answered_at_last(alloc: Global, room: &mut Room, row: Row) -> Result<(), Fail> {
    let answer = answered_at_last(alloc, room, row.0)?;
    is_wanted(alloc, &answer, row)
}

// `mps_room::Room::apply`: where memory runs out nothing has changed, and the line can be given again. That shows under
// `rt try --test --fail-alloc` alone, which refuses a request for memory on the way.
#[test]
fn a_room_out_of_memory_has_not_changed(rt: HostRuntime) -> Result<(), Fail> {
    let mut room = room(rt.alloc(), VERDICT)?;
    for row in ROLLED_BACK {
        is_answered_at_last(rt.alloc(), &mut room, *row)?;
    }
    Ok(())
}

// ---- long histories

// A new room of ints, with so many marks of a.
fn marked(alloc: Global, times: u64) -> Result<Room, Fail> {
    let mut room = room(alloc, INTS)?;
    for _ in 0..times {
        let _ = mark(&mut room)?;
    }
    Ok(room)
}

// How many steps were taken back.
fn count_taken(answer: &Answer) -> Option<usize> {
    match answer {
        Answer::Undone(ids) => Some(ids.as_slice().len()),
        _ => None,
    }
}

// How many steps a takes back with its first one.
fn taken_back(room: &mut Room) -> Result<Option<usize>, Fail> {
    let answer = answered(room, Role::new(0), Command::Rollback(StepId::new(1)))?;
    Ok(count_taken(&answer))
}

// `mps_room::Room::apply`: a rollback of the first of 1,000 marks takes all back. That is entry 1,001, and no number
// more.
#[test]
fn a_rollback_of_a_thousand_steps_is_one_entry(rt: HostRuntime) -> Result<(), Fail> {
    let mut room = marked(rt.alloc(), 1000)?;
    assert_eq!(rt;
        taken_back(&mut room)?,
        Some(1000),
        "all 1,000 steps are taken back"
    );
    assert_eq!(rt;
        counts(&room),
        (1001, 0, 1000),
        "the entries, steps and numbers"
    );
    Ok(())
}

// What shows the session, as it is answered.
fn shown_text(alloc: Global, room: &mut Room) -> Result<String, Fail> {
    let answer = answered(room, Role::new(0), Command::Show)?;
    told(alloc, &answer)
}

// How the role stands, as it is answered.
fn stand_text(alloc: Global, room: &mut Room, role: Role) -> Result<String, Fail> {
    let answer = answered(room, role, Command::Stand)?;
    told(alloc, &answer)
}

// The text of the value that shows the session.
fn value_text(alloc: Global, room: &Room) -> Result<String, Fail> {
    Ok(room.show()?.to_string(alloc)?)
}

// How long the text is that shows the session, as it is answered and as a value.
fn shown_lengths(alloc: Global, room: &mut Room) -> Result<(usize, usize), Fail> {
    let length = shown_text(alloc, room)?.len();
    Ok((length, value_text(alloc, room)?.len()))
}

// The numbers 1 to 1,100 have 3,293 digits, and stand in the history and in the past of a. Beside the number a step has
// the 17 bytes of `[,"a","mark","m"]`, and 1,099 commas part the steps and the numbers of the past.
const THOUSAND_SHOWN: usize = 2 * (3_293 + 1_099) + 1_100 * 17 + AROUND_THEM.len();

// The session as it is shown without a step.
const AROUND_THEM: &str =
    r#"{"history":[],"queues":[],"roles":[{"expects":"send b int","past":[],"role":"a","store":[]},{"expects":"recv a int","past":[],"role":"b","store":[]}]}"#;

// `mps_room::Room::apply` answers `Stand` of the role that asks, here a after its mark, and b, which did nothing.
#[test]
fn a_room_answers_how_the_asking_role_stands(rt: HostRuntime) -> Result<(), Fail> {
    let mut room = marked(rt.alloc(), 1)?;
    assert_eq!(rt;
        stand_text(rt.alloc(), &mut room, Role::new(0))?.as_str(),
        r#"{"expects":"send b int","newest":[1,"a","mark","m"],"store":[]}"#,
        "a's"
    );
    assert_eq!(rt;
        stand_text(rt.alloc(), &mut room, Role::new(1))?.as_str(),
        r#"{"expects":"recv a int","newest":null,"store":[]}"#,
        "b's"
    );
    Ok(())
}

// `mps_room::Room::show`: its text and its value have the same length, that of 1,100 marks and what stands around them.
#[test]
fn text_and_value_of_1_100_steps_are_equally_long(rt: HostRuntime) -> Result<(), Fail> {
    let mut room = marked(rt.alloc(), 1_100)?;
    let lengths = shown_lengths(rt.alloc(), &mut room)?;
    assert_eq!(rt;
        lengths,
        (THOUSAND_SHOWN, THOUSAND_SHOWN),
        "the length as text and as value"
    );
    Ok(())
}
