//! mps_show: a session is shown as the JSON of its history and its replay, as text and as value.
ghost use Rattle.std.specs.Prelude.{◌<◌, length};

use crate::texts::{VERDICT, asked, opened};
use mps_base::{Name, Role, Roles, Sort};
use mps_command::Command;
use mps_local::Local;
use mps_session::Session;
use mps_show::{show, write_show, write_stand};
use std::alloc::Global;
use std::test::Fail;

// What roles do in turn, and what is shown then.
type Row = (&'static [&'static str], &'static str);

// Whether the role may do that: a step, an undo or a rollback.
fn is_done(session: &mut Session, role: Role, command: Command) -> bool
    requires { role < length session.old.types }
{
    match command {
        Command::Forward(step) => session.forward(role, step).is_ok(),
        Command::Undo(id) => session.undo(role, id).is_ok(),
        Command::Rollback(id) => session.rollback(role, id).is_ok(),
        _ => false,
    }
}

// The role of the line does what it says, and is not refused.
fn does(alloc: Global, names: &Roles, session: &mut Session, line: &str) -> Result<(), Fail> {
    let (role, command) = asked(alloc, names, line)?;
    if role.index() < session.roles() && is_done(session, role, command) {
        Ok(())
    } else {
        Err(format!(in alloc; "{line} is refused")?.into())
    }
}

// What is shown after other bytes.
fn written(alloc: Global, names: &Roles, session: &Session) -> Result<String, Fail> {
    if names.count() != session.roles() {
        return Err("a name for each role".into());
    }
    let mut written = Vec::from_slice(alloc, b"> ")?;
    write_show(names, session, &mut written)?;
    Ok(String::from_utf8(written)?)
}

// The text of the value that is shown.
fn value_text(alloc: Global, names: &Roles, session: &Session) -> Result<String, Fail> {
    if names.count() != session.roles() {
        return Err("a name for each role".into());
    }
    Ok(show(alloc, names, session)?.to_string(alloc)?)
}

// What is wanted was written after other bytes.
fn is_written(alloc: Global, written: &str, wanted: &str) -> Result<(), Fail> {
    if written.strip_prefix("> ") == Some(wanted) {
        Ok(())
    } else {
        Err(format!(in alloc;
            "after 2 other bytes: found {written}, wanted {wanted} behind them"
        )?.into())
    }
}

// Whether this is shown, after what was written before, and by the value too.
fn shows(alloc: Global, names: &Roles, session: &Session, wanted: &str) -> Result<(), Fail> {
    is_written(alloc, written(alloc, names, session)?.as_str(), wanted)?;
    let value = value_text(alloc, names, session)?;
    if value.as_str() == wanted {
        Ok(())
    } else {
        Err(format!(in alloc; "show: found {value}, wanted {wanted}")?.into())
    }
}

// Whether each row comes out as it is wanted, one after the other in the session.
fn plays(alloc: Global, names: &Roles, session: &mut Session, rows: &[Row]) -> Result<(), Fail> {
    for (lines, wanted) in rows {
        for line in *lines {
            does(alloc, names, session, line)?;
        }
        shows(alloc, names, session, wanted)?;
    }
    Ok(())
}

// Whether each row comes out as it is wanted, one after the other in a new session of the protocol.
fn plays_anew(alloc: Global, protocol: &str, rows: &[Row]) -> Result<(), Fail> {
    let (names, mut session) = opened(alloc, protocol)?;
    plays(alloc, &names, &mut session, rows)
}

// The session of VERDICT (a gives b an int, b gives c one, c tells a `ok` or `no`) before the first step, and after
// each row's lines.
const RELAY: &[Row] = &[
    (
        &[],
        r#"{"history":[],"queues":[],"roles":[{"expects":"send b int","past":[],"role":"a","store":[]},{"expects":"recv a int","past":[],"role":"b","store":[]},{"expects":"recv b int","past":[],"role":"c","store":[]}]}"#,
    ),
    (
        &["a send b 5"],
        r#"{"history":[[1,"a","send","b",5]],"queues":[["a","b",[5]]],"roles":[{"expects":"pick c ok no","past":[1],"role":"a","store":[]},{"expects":"recv a int","past":[],"role":"b","store":[]},{"expects":"recv b int","past":[],"role":"c","store":[]}]}"#,
    ),
    (
        &["b recv a x"],
        r#"{"history":[[1,"a","send","b",5],[2,"b","recv","a","x",5]],"queues":[],"roles":[{"expects":"pick c ok no","past":[1],"role":"a","store":[]},{"expects":"send c int","past":[2],"role":"b","store":[["x",5]]},{"expects":"recv b int","past":[],"role":"c","store":[]}]}"#,
    ),
    (
        &["b send c 7", "c recv b y"],
        r#"{"history":[[1,"a","send","b",5],[2,"b","recv","a","x",5],[3,"b","send","c",7],[4,"c","recv","b","y",7]],"queues":[],"roles":[{"expects":"pick c ok no","past":[1],"role":"a","store":[]},{"expects":"end","past":[2,3],"role":"b","store":[["x",5]]},{"expects":"choose a ok no","past":[4],"role":"c","store":[["y",7]]}]}"#,
    ),
    (
        &["c choose a ok"],
        r#"{"history":[[1,"a","send","b",5],[2,"b","recv","a","x",5],[3,"b","send","c",7],[4,"c","recv","b","y",7],[5,"c","choose","a","ok"]],"queues":[["c","a",[{"label":"ok"}]]],"roles":[{"expects":"pick c ok no","past":[1],"role":"a","store":[]},{"expects":"end","past":[2,3],"role":"b","store":[["x",5]]},{"expects":"end","past":[4,5],"role":"c","store":[["y",7]]}]}"#,
    ),
    (
        &["a pick c"],
        r#"{"history":[[1,"a","send","b",5],[2,"b","recv","a","x",5],[3,"b","send","c",7],[4,"c","recv","b","y",7],[5,"c","choose","a","ok"],[6,"a","pick","c","ok"]],"queues":[],"roles":[{"expects":"end","past":[1,6],"role":"a","store":[]},{"expects":"end","past":[2,3],"role":"b","store":[["x",5]]},{"expects":"end","past":[4,5],"role":"c","store":[["y",7]]}]}"#,
    ),
];

// `mps_show::write_show` and `show` give the history, what waits, and of each role what it expects, did and keeps.
#[test]
fn a_relay_is_shown_with_history_queues_and_roles(rt: HostRuntime) -> Result<(), Fail> {
    plays_anew(rt.alloc(), VERDICT, RELAY)
}

// The session after an undo, a rollback and a step that gets the next number, 5.
const TAKEN_BACK: &[Row] = &[
    (
        &[
            "a send b 5",
            "b recv a x",
            "b send c 7",
            "c recv b y",
            "c undo 4",
        ],
        r#"{"history":[[1,"a","send","b",5],[2,"b","recv","a","x",5],[3,"b","send","c",7]],"queues":[["b","c",[7]]],"roles":[{"expects":"pick c ok no","past":[1],"role":"a","store":[]},{"expects":"end","past":[2,3],"role":"b","store":[["x",5]]},{"expects":"recv b int","past":[],"role":"c","store":[]}]}"#,
    ),
    (
        &["b rollback 2"],
        r#"{"history":[[1,"a","send","b",5]],"queues":[["a","b",[5]]],"roles":[{"expects":"pick c ok no","past":[1],"role":"a","store":[]},{"expects":"recv a int","past":[],"role":"b","store":[]},{"expects":"recv b int","past":[],"role":"c","store":[]}]}"#,
    ),
    (
        &["b recv a z"],
        r#"{"history":[[1,"a","send","b",5],[5,"b","recv","a","z",5]],"queues":[],"roles":[{"expects":"pick c ok no","past":[1],"role":"a","store":[]},{"expects":"send c int","past":[5],"role":"b","store":[["z",5]]},{"expects":"recv b int","past":[],"role":"c","store":[]}]}"#,
    ),
];

// `mps_show::write_show` and `show` show what replaying the surviving steps gives: nothing is left of those taken back.
#[test]
fn steps_taken_back_are_not_shown(rt: HostRuntime) -> Result<(), Fail> {
    plays_anew(rt.alloc(), VERDICT, TAKEN_BACK)
}

// How a role stands, after other bytes.
fn stands(alloc: Global, names: &Roles, session: &Session, role: Role) -> Result<String, Fail> {
    if names.count() != session.roles() || role.index() >= session.roles() {
        return Err("a name for each role".into());
    }
    let mut written = Vec::from_slice(alloc, b"> ")?;
    write_stand(names, session, role, &mut written)?;
    Ok(String::from_utf8(written)?)
}

// What roles do in turn, and how one stands then.
type Stand = (&'static [&'static str], u8, &'static str);

// Whether each row comes out as it is wanted, one after the other in a new session of the protocol.
fn stands_anew(alloc: Global, protocol: &str, rows: &[Stand]) -> Result<(), Fail> {
    let (names, mut session) = opened(alloc, protocol)?;
    for (lines, place, wanted) in rows {
        for line in *lines {
            does(alloc, &names, &mut session, line)?;
        }
        let found = stands(alloc, &names, &session, Role::new(*place))?;
        is_written(alloc, found.as_str(), wanted)?;
    }
    Ok(())
}

// How roles of VERDICT stand before the first step, after a send, a receipt, a mark, a choice and a pick, and after steps
// were taken back, of which one had taken another's.
const STANDS: &[Stand] = &[
    (
        &[],
        0,
        r#"{"expects":"send b int","newest":null,"store":[]}"#,
    ),
    (
        &["a send b 5"],
        0,
        r#"{"expects":"pick c ok no","newest":[1,"a","send","b",5],"store":[]}"#,
    ),
    (
        &["b recv a x"],
        1,
        r#"{"expects":"send c int","newest":[2,"b","recv","a","x",5],"store":[["x",5]]}"#,
    ),
    (
        &["b mark m"],
        1,
        r#"{"expects":"send c int","newest":[3,"b","mark","m"],"store":[["x",5]]}"#,
    ),
    (
        &["b send c 7", "c recv b y", "c choose a ok"],
        2,
        r#"{"expects":"end","newest":[6,"c","choose","a","ok"],"store":[["y",7]]}"#,
    ),
    (
        &["a pick c"],
        0,
        r#"{"expects":"end","newest":[7,"a","pick","c","ok"],"store":[]}"#,
    ),
    (
        &["b rollback 4"],
        0,
        r#"{"expects":"pick c ok no","newest":[1,"a","send","b",5],"store":[]}"#,
    ),
    (
        &[],
        2,
        r#"{"expects":"recv b int","newest":null,"store":[]}"#,
    ),
];

// `mps_show::write_stand` tells of one role what it expects, its newest step that survives, and what it keeps.
#[test]
fn a_role_is_told_how_it_stands(rt: HostRuntime) -> Result<(), Fail> {
    stands_anew(rt.alloc(), VERDICT, STANDS)
}

// a gives b a text, a bool, an int and a text.
const SORTS: &str =
    "roles a b ; a -> b : text . a -> b : bool . a -> b : int . a -> b : text . end";

// Values in the history, in the queue and in slots; -9223372036854775808 is the least int, -2^63.
const EACH_SORT: &[Row] = &[
    (
        &[
            "a send b \"good day\"",
            "a send b true",
            "a send b -9223372036854775808",
            "a send b \"\"",
        ],
        r#"{"history":[[1,"a","send","b","good day"],[2,"a","send","b",true],[3,"a","send","b",-9223372036854775808],[4,"a","send","b",""]],"queues":[["a","b",["good day",true,-9223372036854775808,""]]],"roles":[{"expects":"end","past":[1,2,3,4],"role":"a","store":[]},{"expects":"recv a text","past":[],"role":"b","store":[]}]}"#,
    ),
    // a slot that is bound again keeps its place
    (
        &["b recv a x", "b recv a y", "b mark m", "b recv a x"],
        r#"{"history":[[1,"a","send","b","good day"],[2,"a","send","b",true],[3,"a","send","b",-9223372036854775808],[4,"a","send","b",""],[5,"b","recv","a","x","good day"],[6,"b","recv","a","y",true],[7,"b","mark","m"],[8,"b","recv","a","x",-9223372036854775808]],"queues":[["a","b",[""]]],"roles":[{"expects":"end","past":[1,2,3,4],"role":"a","store":[]},{"expects":"recv a text","past":[5,6,7,8],"role":"b","store":[["x",-9223372036854775808],["y",true]]}]}"#,
    ),
    // what it had comes back in its place
    (
        &["b undo 8", "b undo 7"],
        r#"{"history":[[1,"a","send","b","good day"],[2,"a","send","b",true],[3,"a","send","b",-9223372036854775808],[4,"a","send","b",""],[5,"b","recv","a","x","good day"],[6,"b","recv","a","y",true]],"queues":[["a","b",[-9223372036854775808,""]]],"roles":[{"expects":"end","past":[1,2,3,4],"role":"a","store":[]},{"expects":"recv a int","past":[5,6],"role":"b","store":[["x","good day"],["y",true]]}]}"#,
    ),
];

// `mps_show::write_show` and `show` show texts as strings, ints and bools as they are; slots in the order of first
// receipts.
#[test]
fn values_of_each_sort_are_shown_as_json(rt: HostRuntime) -> Result<(), Fail> {
    plays_anew(rt.alloc(), SORTS, EACH_SORT)
}

// a tells b to go on, and gives it a text, or to stop; again and again.
const CHOICES: &str = "roles a b ; rec X . a -> b { go : a -> b : text . X , stop : end }";

// The label `go` and the text `go`.
const LABELS: &[Row] = &[
    (
        &[],
        r#"{"history":[],"queues":[],"roles":[{"expects":"choose b go stop","past":[],"role":"a","store":[]},{"expects":"pick a go stop","past":[],"role":"b","store":[]}]}"#,
    ),
    (
        &["a choose b go", "a send b \"go\""],
        r#"{"history":[[1,"a","choose","b","go"],[2,"a","send","b","go"]],"queues":[["a","b",[{"label":"go"},"go"]]],"roles":[{"expects":"choose b go stop","past":[1,2],"role":"a","store":[]},{"expects":"pick a go stop","past":[],"role":"b","store":[]}]}"#,
    ),
    (
        &["b pick a", "b recv a x", "a choose b stop"],
        r#"{"history":[[1,"a","choose","b","go"],[2,"a","send","b","go"],[3,"b","pick","a","go"],[4,"b","recv","a","x","go"],[5,"a","choose","b","stop"]],"queues":[["a","b",[{"label":"stop"}]]],"roles":[{"expects":"end","past":[1,2,5],"role":"a","store":[]},{"expects":"pick a go stop","past":[3,4],"role":"b","store":[["x","go"]]}]}"#,
    ),
];

// `mps_show::write_show` and `show`: in a queue a label is an object, so it differs from a text; in a step the verb
// tells them apart.
#[test]
fn a_label_is_shown_unlike_a_text(rt: HostRuntime) -> Result<(), Fail> {
    plays_anew(rt.alloc(), CHOICES, LABELS)
}

// An output (at true) or an input of a type, with the peer and the sort.
type Action = (bool, u8, Sort);

// What eight roles do, whose types are not those of a protocol.
const PARTS: [&[Action]; 8] = [
    &[(true, 7, Sort::Int), (true, 2, Sort::Int)],
    &[(true, 0, Sort::Int)],
    &[(true, 1, Sort::Int)],
    &[],
    &[],
    &[],
    &[],
    &[(false, 0, Sort::Bool)],
];

// The actions one after the other.
fn part(alloc: Global, actions: &[Action]) -> Result<Local, Fail> {
    let mut t = Local::End;
    for (sends, peer, sort) in actions.iter().rev() {
        let peer = Role::new(*peer);
        t = if *sends {
            Local::send(alloc, peer, *sort, t)?
        } else {
            Local::recv(alloc, peer, *sort, t)?
        };
    }
    Ok(t)
}

// The roles a to h.
fn eight_names(alloc: Global) -> Result<Roles, Fail> {
    let mut names = Vec::new(alloc);
    for letter in ["a", "b", "c", "d", "e", "f", "g", "h"] {
        names.push(Name::read(letter.as_bytes()).ok_or("a name")?)?;
    }
    Ok(Roles::of(alloc, &names)?)
}

// The types of the eight.
fn eight_types(alloc: Global) -> Result<Vec<Local>, Fail> {
    let mut types = Vec::new(alloc);
    for actions in PARTS {
        types.push(part(alloc, actions)?)?;
    }
    Ok(types)
}

// Queues stand in the order of senders and then of receivers, whichever step came first.
const EIGHT: &[Row] = &[(
    &[
        "c send b 3",
        "a send h 1",
        "a send c 2",
        "g mark m",
        "b send a 4",
    ],
    r#"{"history":[[1,"c","send","b",3],[2,"a","send","h",1],[3,"a","send","c",2],[4,"g","mark","m"],[5,"b","send","a",4]],"queues":[["a","c",[2]],["a","h",[1]],["b","a",[4]],["c","b",[3]]],"roles":[{"expects":"end","past":[2,3],"role":"a","store":[]},{"expects":"end","past":[5],"role":"b","store":[]},{"expects":"end","past":[1],"role":"c","store":[]},{"expects":"end","past":[],"role":"d","store":[]},{"expects":"end","past":[],"role":"e","store":[]},{"expects":"end","past":[],"role":"f","store":[]},{"expects":"end","past":[4],"role":"g","store":[]},{"expects":"recv a bool","past":[],"role":"h","store":[]}]}"#,
)];

// `mps_show::write_show` and `show` of the most roles, 8: each has its row, also if it did nothing, and queues stand in
// the order of senders and then of receivers.
#[test]
fn each_of_eight_roles_is_shown(rt: HostRuntime) -> Result<(), Fail> {
    let alloc = rt.alloc();
    let mut session = Session::open(alloc, eight_types(alloc)?)?;
    plays(alloc, &eight_names(alloc)?, &mut session, EIGHT)
}
