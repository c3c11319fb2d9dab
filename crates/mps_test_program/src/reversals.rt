//! mps_program, mps_wire: undos, rollbacks, returns, news and shows in a script are answered as docs/FORMATS.md says.
use crate::parts::answers;
use std::alloc::{AllocError, Global};
use std::process::Abort;
use std::test::Fail;

// A protocol, the lines of a script, and the answer to each.
struct Row(&'static str, &'static [(&'static str, &'static str)]);

// a gives b a number, and then b gives c one, who tells a that it is fine or not.
pub(crate) const RELAY: &str =
    "roles a b c ; a -> b : int . b -> c : int . c -> a { ok : end , no : end }";

// Two pairs that have nothing to do with each other.
pub(crate) const PAIRS: &str = "roles a b c d ; a -> b : int . c -> d : int . end";

// a gives b numbers without end.
pub(crate) const LOOP: &str = "roles a b ; rec X . a -> b : int . X";

const UNDOS: &[Row] = &[
    // a receipt is undone before its send
    Row(
        RELAY,
        &[
            ("a send b 5", "done 1"),
            ("b recv a x", "done 2 5"),
            ("a undo 1", "refused needed 2"),
            ("b undo 2", "undone 2"),
            ("a undo 1", "undone 1"),
        ],
    ),
    // an undone receipt: its message waits in front again
    Row(
        LOOP,
        &[
            ("a send b 1", "done 1"),
            ("a send b 2", "done 2"),
            ("b recv a x", "done 3 1"),
            ("b undo 3", "undone 3"),
            ("b recv a x", "done 4 1"),
        ],
    ),
    // an undone send: its message waits no more
    Row(
        LOOP,
        &[
            ("a send b 1", "done 1"),
            ("b recv a x", "done 2 1"),
            ("b undo 2", "undone 2"),
            ("a undo 1", "undone 1"),
            ("a send b 9", "done 3"),
            ("b recv a x", "done 4 9"),
        ],
    ),
    // the second receipt is undone, and takes the same message again
    Row(
        LOOP,
        &[
            ("a send b 1", "done 1"),
            ("a send b 2", "done 2"),
            ("b recv a x", "done 3 1"),
            ("b recv a x", "done 4 2"),
            ("b undo 4", "undone 4"),
            ("b recv a x", "done 5 2"),
        ],
    ),
    // the least step that depends on the send is named: the next send, or the receipt
    Row(
        LOOP,
        &[
            ("a send b 1", "done 1"),
            ("a send b 2", "done 2"),
            ("b recv a x", "done 3 1"),
            ("a undo 1", "refused needed 2"),
        ],
    ),
    Row(
        LOOP,
        &[
            ("a send b 1", "done 1"),
            ("b recv a x", "done 2 1"),
            ("a send b 2", "done 3"),
            ("a undo 1", "refused needed 2"),
        ],
    ),
    // a number is not given out again
    Row(
        LOOP,
        &[
            ("a send b 1", "done 1"),
            ("a undo 1", "undone 1"),
            ("a send b 2", "done 2"),
            ("a undo 1", "refused nostep"),
        ],
    ),
    // steps and undos that are refused, and change nothing
    Row(
        RELAY,
        &[
            ("b recv a x", "refused nothingqueued"),
            ("a recv b x", "refused wrongact"),
            ("a send c 5", "refused wrongpeer"),
            ("a send b true", "refused wrongsort"),
            ("b undo 7", "refused nostep"),
            ("a send b 5", "done 1"),
            ("b undo 1", "refused notyours"),
            ("a undo 01", "refused line"),
            ("a undo 1", "undone 1"),
        ],
    ),
];

const ROLLBACKS: &[Row] = &[
    // from the first step on: all
    Row(
        RELAY,
        &[
            ("a send b 5", "done 1"),
            ("b recv a x", "done 2 5"),
            ("b send c 7", "done 3"),
            ("c recv b y", "done 4 7"),
            ("a rollback 1", "undone 4 3 2 1"),
        ],
    ),
    // from b's receipt on: the 5 waits again
    Row(
        RELAY,
        &[
            ("a send b 5", "done 1"),
            ("b recv a x", "done 2 5"),
            ("b send c 7", "done 3"),
            ("c recv b y", "done 4 7"),
            ("c rollback 2", "refused notyours"),
            ("b rollback 2", "undone 4 3 2"),
            ("b rollback 2", "refused nostep"),
            ("b recv a x", "done 5 5"),
        ],
    ),
    // c's send does not depend on a's
    Row(
        PAIRS,
        &[
            ("a send b 1", "done 1"),
            ("c send d 2", "done 2"),
            ("a rollback 1", "undone 1"),
            ("d recv c x", "done 3 2"),
        ],
    ),
    // returns to a mark, which stays until it is undone
    Row(
        LOOP,
        &[
            ("a mark m", "done 1"),
            ("a send b 1", "done 2"),
            ("b recv a x", "done 3 1"),
            ("a back m", "undone 3 2"),
            ("a back m", "undone"),
            ("a undo 1", "undone 1"),
            ("a back m", "refused nomark"),
        ],
    ),
];

// a tells b something, b says whether it believes it, and a goes on or stops.
const TALK: &str = "roles a b ; a -> b : text . b -> a : bool . a -> b { go : end , stop : end }";

const QUESTIONS: &[Row] = &[
    // entry 5 took back steps 2 and 3 of b, and 4 of c; a's own rollback is no news to a
    Row(
        RELAY,
        &[
            ("a send b 5", "done 1"),
            ("b recv a x", "done 2 5"),
            ("b send c 7", "done 3"),
            ("c recv b y", "done 4 7"),
            ("a rollback 1", "undone 4 3 2 1"),
            ("b news 0", "news 5 3 2"),
            ("a news 0", "news 5"),
            ("c news 0", "news 5 4"),
            ("c news 9", "news 5"),
        ],
    ),
    // the session before and after a receipt; a zero or a space too many makes a question unreadable
    Row(
        RELAY,
        &[
            ("a send b 5", "done 1"),
            (
                "a show",
                r#"{"history":[[1,"a","send","b",5]],"queues":[["a","b",[5]]],"roles":[{"expects":"pick c ok no","past":[1],"role":"a","store":[]},{"expects":"recv a int","past":[],"role":"b","store":[]},{"expects":"recv b int","past":[],"role":"c","store":[]}]}"#,
            ),
            ("b recv a x", "done 2 5"),
            (
                "c show",
                r#"{"history":[[1,"a","send","b",5],[2,"b","recv","a","x",5]],"queues":[],"roles":[{"expects":"pick c ok no","past":[1],"role":"a","store":[]},{"expects":"send c int","past":[2],"role":"b","store":[["x",5]]},{"expects":"recv b int","past":[],"role":"c","store":[]}]}"#,
            ),
            ("a news 00", "refused line"),
            ("a show ", "refused line"),
        ],
    ),
    // a text, a bool, a mark and a label, as they are shown; b hears that its pick, step 7, is gone
    Row(
        TALK,
        &[
            ("a send b \"good day\"", "done 1"),
            (
                "a show",
                r#"{"history":[[1,"a","send","b","good day"]],"queues":[["a","b",["good day"]]],"roles":[{"expects":"recv b bool","past":[1],"role":"a","store":[]},{"expects":"recv a text","past":[],"role":"b","store":[]}]}"#,
            ),
            ("b recv a x", "done 2 \"good day\""),
            ("b send a true", "done 3"),
            ("a recv b y", "done 4 true"),
            ("a mark m", "done 5"),
            ("a choose b go", "done 6"),
            (
                "b show",
                r#"{"history":[[1,"a","send","b","good day"],[2,"b","recv","a","x","good day"],[3,"b","send","a",true],[4,"a","recv","b","y",true],[5,"a","mark","m"],[6,"a","choose","b","go"]],"queues":[["a","b",[{"label":"go"}]]],"roles":[{"expects":"end","past":[1,4,5,6],"role":"a","store":[["y",true]]},{"expects":"pick a go stop","past":[2,3],"role":"b","store":[["x","good day"]]}]}"#,
            ),
            ("b pick a", "done 7 go"),
            ("a rollback 6", "undone 7 6"),
            ("b news 0", "news 8 7"),
            ("a back m", "undone"),
            ("a undo 5", "undone 5"),
            ("a news 0", "news 10"),
        ],
    ),
];

// Puts the line after the text.
pub(crate) fn put_line(text: &mut String, line: &str) -> Result<(), AllocError> {
    text.push_str(line)?;
    text.push('\n')
}

// The lines of a script, and those of its answers.
fn both(alloc: Global, lines: &[(&str, &str)]) -> Result<(String, String), AllocError> {
    let (mut script, mut want) = (String::new(alloc), String::new(alloc));
    for (line, answer) in lines {
        put_line(&mut script, line)?;
        put_line(&mut want, answer)?;
    }
    Ok((script, want))
}

// Each row's script is answered so.
fn run_rows(rt: &impl Abort, alloc: Global, rows: &[Row]) -> Result<(), Fail> {
    for Row(protocol, lines) in rows {
        let (script, want) = both(alloc, lines)?;
        let found = answers(alloc, protocol, script.as_str())?;
        assert_eq!(rt;
            found.as_slice(),
            want.as_bytes(),
            "the answers to {script:?}"
        );
    }
    Ok(())
}

// `mps_wire::script::replay_session` on a session of `load_opening` (`parts::answers`), as in `mps_tool run`: `undo`
// takes a role's own step back on which no other depends, and is else refused with the reason.
#[test]
fn undo_takes_back_a_step_on_which_none_depends(rt: HostRuntime) -> Result<(), Fail> {
    run_rows(&rt, rt.alloc(), UNDOS)
}

// `mps_wire::script::replay_session` on a session of `load_opening` (`parts::answers`), as in `mps_tool run`: `news`
// tells a role which of its steps others took back, and `show` shows the session, its JSON written out by hand.
#[test]
fn news_tell_what_others_took_back_and_show_shows_it(rt: HostRuntime) -> Result<(), Fail> {
    run_rows(&rt, rt.alloc(), QUESTIONS)
}

// `mps_wire::script::replay_session` on a session of `load_opening` (`parts::answers`), as in `mps_tool run`:
// `rollback` and `back` take a step back with all that depend on it, newest first, and nothing else.
#[test]
fn rollback_and_back_take_back_what_depends_on_a_step(rt: HostRuntime) -> Result<(), Fail> {
    run_rows(&rt, rt.alloc(), ROLLBACKS)
}
