//! mps_program: texts become sessions, and each fault has its line and its status.
ghost use Rattle.std.specs.Prelude.{◌≡◌, length, IfOk};
ghost use Rattle.mps_machine.specs.Machine.{initial};

use mps_base::{Name, Roles};
use mps_dev::{Pieces, Short};
use mps_global::GlobalFault;
use mps_open::Merging;
use mps_program::{
    Tallies, Tally, ToolFault, check_file, compare_files, fault_line, lines_of, load_opening,
    open_file, read_text, run_file, status, verdict_of, write_types,
};
use mps_session::Session;
use mps_text::TextKind;
use mps_wire::script::replay_session;
use mps_words::ProtocolFile;
use std::alloc::{AllocError, Global};
use std::process::Abort;
use std::test::Fail;

// a gives b an int, and b gives c one.
const RELAY: &str = "roles a b c ; a -> b : int . b -> c : int . end";

// a gives b an int, and c gives d one.
const PAIRS: &str = "roles a b c d ; a -> b : int . c -> d : int . end";

// The text in one piece.
fn whole(alloc: Global, text: &str) -> Result<Vec<Vec<u8>>, AllocError> {
    Ok(vec![in alloc; Vec::from_slice(alloc, text.as_bytes())?]?)
}

// The text in two pieces.
fn halves(alloc: Global, text: &str) -> Result<Vec<Vec<u8>>, Fail> {
    let (front, rest) = text.as_bytes().split_at(text.len() / 2);
    Ok(vec![in alloc;
        Vec::from_slice(alloc, front)?,
        Vec::from_slice(alloc, rest)?,
    ]?)
}

// The roles of the protocol that comes in these pieces, and a new session of it.
fn opened(alloc: Global, pieces: Vec<Vec<u8>>) -> Result<(Roles, Session), ToolFault<'static>>
    ensures named { IfOk result (λ r. length r.0 ≡ length r.1.types) }
    ensures new { IfOk result (λ r. r.1.state ≡ initial) }
{
    let opening = load_opening(alloc, Merging::Plain, &mut Pieces::new(pieces, None))?;
    Ok(opening.into_session(alloc)?)
}

// The answers to the script on a new session of the protocol.
pub(crate) fn answers(alloc: Global, protocol: &str, script: &str) -> Result<Vec<u8>, Fail> {
    let mut reader = Pieces::new(whole(alloc, script)?, None);
    let mut writer = Short::new(alloc, 2_000_000)?;
    let Ok((roles, session)) = opened(alloc, whole(alloc, protocol)?) else {
        return Err("a protocol".into());
    };
    if replay_session(alloc, &mut reader, &mut writer, roles, session).is_err() {
        return Err("a script".into());
    }
    Ok(Vec::from_slice(alloc, writer.bytes())?)
}

// A protocol, a script, and the answers.
struct Script(&'static str, &'static str, &'static str);

// Scripts of accepted lines, of refusals, and of two pairs.
const SCRIPTS: &[Script] = &[
    Script(
        RELAY,
        "a send b 5\nb recv a x\nb send c 7\nc recv b y\n",
        "done 1\ndone 2 5\ndone 3\ndone 4 7\n",
    ),
    Script(
        RELAY,
        "b recv a x\na send c 5\na send b true\na send b 5\n",
        "refused nothingqueued\nrefused wrongpeer\nrefused wrongsort\ndone 1\n",
    ),
    Script(PAIRS, "a send b 1\nc send d 2\n", "done 1\ndone 2\n"),
];

// The greatest int, 2^63 - 1, and one more; and a script without a line.
const NUMBERS: &[Script] = &[
    Script(RELAY, "a send b 9223372036854775807\n", "done 1\n"),
    Script(RELAY, "a send b 9223372036854775808\n", "refused line\n"),
    Script(RELAY, "", ""),
];

// Each script is answered so.
fn plays(rt: &impl Abort, alloc: Global, scripts: &[Script]) -> Result<(), Fail> {
    for Script(protocol, script, want) in scripts {
        let found = answers(alloc, protocol, script)?;
        assert_eq!(rt;
            found.as_slice(),
            want.as_bytes(),
            "the answers to {script:?}"
        );
    }
    Ok(())
}

// `mps_program::load_opening` reads, checks and projects a protocol. The session of its `Opening` answers scripts by
// `replay_session`, as that of `mps_tool run` does.
#[test]
fn a_session_of_a_loaded_protocol_answers_scripts(rt: HostRuntime) -> Result<(), Fail> {
    plays(&rt, rt.alloc(), SCRIPTS)
}

// `mps_wire::script::replay_session` reads an int up to the greatest, and no greater one.
#[test]
fn ints_are_read_up_to_the_greatest(rt: HostRuntime) -> Result<(), Fail> {
    plays(&rt, rt.alloc(), NUMBERS)
}

// Whether the fault is told by this line, is shown so too, and has this status.
fn tells(alloc: Global, fault: &ToolFault<'_>, line: &str, code: u8) -> Result<bool, AllocError> {
    let told = fault_line(alloc, fault)?;
    let shown = format!(in alloc; "{fault}")?;
    Ok(told.as_slice() == line.as_bytes() && shown.as_str() == line && status(fault) == code)
}

// `mps_program::fault_line` and `Display` tell these faults as FORMATS says, each with its `status`. `a b` and 12 stand
// for any.
#[test]
fn nine_faults_have_their_lines_and_statuses(rt: HostRuntime) -> Result<(), Fail> {
    let faults = [
        (
            ToolFault::File {
                name: "a b",
                why: None,
            },
            "refused file a b",
            2,
        ),
        (ToolFault::Open, "refused open", 3),
        (ToolFault::Read { why: None }, "refused read", 4),
        (ToolFault::Write, "refused write", 4),
        (ToolFault::Turns, "refused turns", 4),
        (ToolFault::Bind { why: None }, "refused bind", 2),
        (ToolFault::Accept, "refused accept", 4),
        (ToolFault::Lost { session: 12 }, "refused lost 12", 4),
        (ToolFault::Memory, "refused memory", 4),
    ];
    for (fault, line, code) in &faults {
        assert!(rt;
            tells(rt.alloc(), fault, line, *code)?,
            "the fault told as {line}"
        );
    }
    Ok(())
}

// `mps_program::fault_line` names the role that has no local type and the choice, 12, which stands for any. The
// `status` is 3.
#[test]
fn a_missing_type_is_told_with_role_and_choice(rt: HostRuntime) -> Result<(), Fail> {
    let role = Name::read(b"c").ok_or("a name")?;
    let fault = ToolFault::Projection { role, choice: 12 };
    assert!(rt;
        tells(rt.alloc(), &fault, "refused projection c 12", 3)?,
        "no type for c"
    );
    Ok(())
}

// Each kind of fault that a text shows, at a byte, of which 7 stands for any; TooLong is told at 65536.
const TEXTS: &[(usize, TextKind, &str)] = &[
    (65536, TextKind::TooLong, "refused text toolong 65536"),
    (7, TextKind::TooLong, "refused text toolong 7"),
    (7, TextKind::Word, "refused text word 7"),
    (7, TextKind::Unexpected, "refused text unexpected 7"),
    (7, TextKind::TooManyNodes, "refused text toomanynodes 7"),
    (7, TextKind::TooDeep, "refused text toodeep 7"),
    (7, TextKind::Trailing, "refused text trailing 7"),
];

// `mps_program::fault_line` tells a text's fault by its kind in small letters and the byte. The `status` is 3.
#[test]
fn a_fault_of_a_text_is_told_with_its_byte(rt: HostRuntime) -> Result<(), Fail> {
    for (at, kind, line) in TEXTS {
        let fault = ToolFault::Text {
            at: *at,
            kind: *kind,
        };
        assert!(rt;
            tells(rt.alloc(), &fault, line, 3)?,
            "the fault told as {line}"
        );
    }
    Ok(())
}

// Each fault of a protocol, and its line.
const PROTOCOLS: &[(GlobalFault, &str)] = &[
    (GlobalFault::RoleCount, "refused protocol rolecount"),
    (GlobalFault::DoubleRole, "refused protocol doublerole"),
    (GlobalFault::TooManyNodes, "refused protocol toomanynodes"),
    (GlobalFault::TooDeep, "refused protocol toodeep"),
    (GlobalFault::UnknownRole, "refused protocol unknownrole"),
    (GlobalFault::SelfMessage, "refused protocol selfmessage"),
    (GlobalFault::DoubleLabel, "refused protocol doublelabel"),
    (
        GlobalFault::TooManyBranches,
        "refused protocol toomanybranches",
    ),
    (GlobalFault::NoBranches, "refused protocol nobranches"),
    (GlobalFault::Unbound, "refused protocol unbound"),
    (GlobalFault::Shadowed, "refused protocol shadowed"),
    (GlobalFault::Unguarded, "refused protocol unguarded"),
];

// `mps_program::fault_line` tells a protocol's fault by its name in small letters. The `status` is 3.
#[test]
fn a_fault_of_a_protocol_is_told_by_name(rt: HostRuntime) -> Result<(), Fail> {
    for (fault, line) in PROTOCOLS {
        let fault = ToolFault::Protocol { fault: *fault };
        assert!(rt;
            tells(rt.alloc(), &fault, line, 3)?,
            "the fault told as {line}"
        );
    }
    Ok(())
}

// How many names there are, and how many roles the session has.
fn counts<'a>(
    had: Result<(Roles, Session), ToolFault<'a>>,
) -> Result<(usize, usize), ToolFault<'a>> {
    match had {
        Ok((roles, session)) => Ok((roles.count(), session.roles())),
        Err(fault) => Err(fault),
    }
}

// These numbers, or the line of the fault.
fn counted(
    alloc: Global,
    had: Result<(usize, usize), ToolFault<'_>>,
) -> Result<Vec<u8>, AllocError> {
    match had {
        Ok((names, roles)) => Ok(format!(in alloc; "{names} {roles}")?.into_bytes()),
        Err(fault) => fault_line(alloc, &fault),
    }
}

// The lines of the protocol's roles, or the line of its fault.
fn shown(alloc: Global, pieces: Vec<Vec<u8>>) -> Result<Vec<u8>, AllocError> {
    match load_opening(alloc, Merging::Plain, &mut Pieces::new(pieces, None)) {
        Ok(opening) => lines_of(alloc, &opening),
        Err(fault) => fault_line(alloc, &fault),
    }
}

// What is had of a protocol: a session at once, a session from two pieces, or the lines of its roles.
#[derive(Clone, Copy)]
enum Had {
    Session,
    Loaded,
    Lines,
}

// What is had of the protocol, or the line of its fault.
fn given(alloc: Global, what: Had, protocol: &str) -> Result<Vec<u8>, Fail> {
    match what {
        Had::Session => Ok(counted(alloc, counts(opened(alloc, whole(alloc, protocol)?)))?),
        Had::Loaded => Ok(counted(alloc, counts(opened(alloc, halves(alloc, protocol)?)))?),
        Had::Lines => Ok(shown(alloc, whole(alloc, protocol)?)?),
    }
}

// Of each protocol is had what its row says.
fn gives(rt: &impl Abort, alloc: Global, what: Had, rows: &[(&str, &str)]) -> Result<(), Fail> {
    for (protocol, want) in rows {
        let found = given(alloc, what, protocol)?;
        assert_eq!(rt;
            found.as_slice(),
            want.as_bytes(),
            "what is had of {protocol}"
        );
    }
    Ok(())
}

// Protocols, and the line of their fault: the text's has its byte, that of a projection the role and the choice.
const REFUSED: &[(&str, &str)] = &[
    ("roles a b ; a -> b : int end", "refused text unexpected 25"),
    ("roles a b ; end end", "refused text trailing 16"),
    ("roles a b ; a -> Bc : int . end", "refused text word 17"),
    ("roles a b ; a -> b : int .", "refused text unexpected 26"),
    ("roles a end ; end", "refused text unexpected 8"),
    (
        "roles a b c ; a -> b { l : a -> c : int . end , r : end }",
        "refused projection c 0",
    ),
    (
        "roles a b ; a -> z : int . end",
        "refused protocol unknownrole",
    ),
    (
        "roles a b ; a -> a : int . end",
        "refused protocol selfmessage",
    ),
    ("roles a a ; end", "refused protocol doublerole"),
];

// `mps_program::load_opening` gives no session of a protocol with a fault, and tells the fault.
#[test]
fn a_protocol_with_a_fault_gives_no_session(rt: HostRuntime) -> Result<(), Fail> {
    gives(&rt, rt.alloc(), Had::Session, REFUSED)
}

// Protocols in two pieces, and how many names and roles they have, or the line of their fault.
const LOADED: &[(&str, &str)] = &[
    (RELAY, "3 3"),
    (
        "roles a b ; rec X . a -> b { go : a -> b : int . X , stop : end }",
        "2 2",
    ),
    (
        "roles a b c ; a -> b { l : a -> c : int . end , r : end }",
        "refused projection c 0",
    ),
    ("roles a b ; end end", "refused text trailing 16"),
    ("roles a a ; end", "refused protocol doublerole"),
];

// `mps_program::load_opening` reads a protocol in pieces too, and `into_session` gives as many names as the session has
// roles.
#[test]
fn a_protocol_in_two_pieces_gives_a_session(rt: HostRuntime) -> Result<(), Fail> {
    gives(&rt, rt.alloc(), Had::Loaded, LOADED)
}

// So many blanks in one piece.
fn blanks(alloc: Global, count: usize) -> Result<Vec<Vec<u8>>, Fail> {
    Ok(vec![in alloc; vec![in alloc; b' '; count]?]?)
}

// 65,536 bytes are a text, and one more is not read to its end.
const LONG: &[(usize, &str)] = &[
    (65_536, "refused text unexpected 65536"),
    (70_000, "refused text toolong 65536"),
];

// `mps_program::load_opening` reads a text of 65,536 bytes whole, and of a longer one a byte more, which tells that it
// is too long. Blanks lack a token at their end.
#[test]
fn a_long_text_is_read_one_byte_past_the_limit(rt: HostRuntime) -> Result<(), Fail> {
    for (count, line) in LONG {
        let pieces = blanks(rt.alloc(), *count)?;
        let found = counted(rt.alloc(), counts(opened(rt.alloc(), pieces)))?;
        assert_eq!(rt; found.as_slice(), line.as_bytes(), "of {count} blanks");
    }
    Ok(())
}

// Protocols, and a line for each role: its name and its local type.
const TYPES: &[(&str, &str)] = &[
    (
        "roles a b c ; a -> b : int . b -> c : int . c -> a { ok : end , no : end }\n",
        "a : send b int . pick c { ok : end , no : end }\n\
             b : recv a int . send c int . end\n\
             c : recv b int . choose a { ok : end , no : end }\n",
    ),
    (
        "roles a b c ; a -> b { l : a -> c : int . end , r : a -> c : int . end }",
        "a : choose b { l : send c int . end , r : send c int . end }\n\
             b : pick a { l : end , r : end }\n\
             c : recv a int . end\n",
    ),
    (
        "roles a b c ; rec X . a -> b : int . X",
        "a : rec X . send b int . X\nb : rec X . recv a int . X\nc : end\n",
    ),
    (
        "roles a b c ; rec X . a -> c : int . rec Y . a -> b : int . X",
        "a : rec X . send c int . rec Y . send b int . X\n\
             b : rec X . rec Y . recv a int . X\n\
             c : rec X . recv a int . rec Y . X\n",
    ),
];

// `mps_program::lines_of` gives a line for each role, with its projection, as `mps_tool check` prints it.
#[test]
fn each_role_is_shown_with_its_type(rt: HostRuntime) -> Result<(), Fail> {
    gives(&rt, rt.alloc(), Had::Lines, TYPES)
}

// A choice of 17 labels.
const SEVENTEEN: &str = "roles a b ; a -> b { l1 : end , l2 : end , l3 : end , l4 : end , \
    l5 : end , l6 : end , l7 : end , l8 : end , l9 : end , l10 : end , l11 : end , l12 : end , \
    l13 : end , l14 : end , l15 : end , l16 : end , l17 : end }";

// Protocols without types, and the line of their fault. Choices are counted in preorder, from 0.
const WITHOUT_TYPES: &[(&str, &str)] = &[
    // the branches of that choice differ for c
    (
        "roles a b c ; a -> b { l : a -> c : int . end , r : end }",
        "refused projection c 0",
    ),
    (
        "roles a b c ; a -> b : int . a -> b { l : a -> c : int . end , r : end }",
        "refused projection c 0",
    ),
    (
        "roles a b c ; a -> c { l : b -> a { p : end , q : end } , \
             r : b -> a { p : end , q : a -> c : int . end } }",
        "refused projection c 2",
    ),
    (
        "roles a b c ; a -> c { l : b -> a { p : end , q : a -> c : int . end } , \
             r : b -> a { p : end , q : a -> c : int . end } }",
        "refused projection c 1",
    ),
    (
        "roles a b c ; a -> b { l : b -> a { p : end , q : a -> c : int . end } , r : end }",
        "refused projection c 1",
    ),
    // the protocol has a fault
    ("roles a b ; rec X . X", "refused protocol unguarded"),
    (
        "roles a b ; a -> z : int . end",
        "refused protocol unknownrole",
    ),
    (
        "roles a b ; a -> a : int . end",
        "refused protocol selfmessage",
    ),
    (
        "roles a b ; a -> b { l : end , l : end }",
        "refused protocol doublelabel",
    ),
    (SEVENTEEN, "refused protocol toomanybranches"),
    ("roles a b ; a -> b : int . X", "refused protocol unbound"),
    (
        "roles a b ; rec X . a -> b : int . rec X . a -> b : int . X",
        "refused protocol shadowed",
    ),
    (
        "roles a b ; rec X . rec Y . X",
        "refused protocol unguarded",
    ),
    (
        "roles a b ; z -> z : int . X",
        "refused protocol unknownrole",
    ),
    ("roles a a ; end", "refused protocol doublerole"),
    // the text has one: `end` is no label
    (
        "roles a b ; a -> b { end : end }",
        "refused text unexpected 21",
    ),
];

// `mps_program::load_opening` tells the first fault of a protocol that has no types to show.
#[test]
fn a_protocol_with_a_fault_shows_no_types(rt: HostRuntime) -> Result<(), Fail> {
    gives(&rt, rt.alloc(), Had::Lines, WITHOUT_TYPES)
}

// `mps_program::read_text` reads a text to its end, here one in two pieces.
#[test]
fn a_text_in_two_pieces_is_read_to_its_end(rt: HostRuntime) -> Result<(), Fail> {
    let mut reader = Pieces::new(halves(rt.alloc(), "roles a b ; end")?, None);
    match read_text(rt.alloc(), &mut reader) {
        Ok(text) => assert_eq!(rt;
            text.as_slice(),
            b"roles a b ; end".as_slice(),
            "of a text in two pieces"
        ),
        Err(_) => return Err("a text".into()),
    }
    Ok(())
}

// Whether it is told that a read failed.
fn is_failed_read<T: Drop>(had: Result<T, ToolFault<'_>>) -> bool {
    matches!(had, Err(ToolFault::Read { .. }))
}

// `mps_program::read_text` and `load_opening` tell a failed read, here the second, also where the first gave a whole
// protocol.
#[test]
fn a_read_that_fails_is_told(rt: HostRuntime) -> Result<(), Fail> {
    let mut reader = Pieces::new(whole(rt.alloc(), "roles a")?, Some(2));
    assert!(rt;
        is_failed_read(read_text(rt.alloc(), &mut reader)),
        "by read_text"
    );
    let mut reader = Pieces::new(whole(rt.alloc(), RELAY)?, Some(2));
    assert!(rt;
        is_failed_read(load_opening(rt.alloc(), Merging::Plain, &mut reader)),
        "by load_opening"
    );
    Ok(())
}

// Two scripts for the two pairs; from which call on the reader of the first fails, and that of the
// second; and the line and the status that are told.
struct Scripts(
    &'static str,
    &'static str,
    Option<u64>,
    Option<u64>,
    &'static str,
    u8,
);

// a sends and then c, and the other way round.
const AB: &str = "a send b 1\nc send d 2";

const CD: &str = "c send d 2\na send b 1";

const COMPARED: &[Scripts] = &[
    // two sends of two pairs: in another order, or with another value
    Scripts(AB, CD, None, None, "same\n", 0),
    Scripts(AB, "c send d 2\na send b 3", None, None, "different\n", 1),
    // the order of marks counts within a role, not across roles
    Scripts(
        "a mark m\nc mark m",
        "c mark m\na mark m",
        None,
        None,
        "same\n",
        0,
    ),
    Scripts(
        "a mark m\na mark k",
        "a mark k\na mark m",
        None,
        None,
        "different\n",
        1,
    ),
    // refusals, undone steps and numbers don't count
    Scripts(
        "a send b 3\na undo 1\nb send a 3\na send b 1\nc send d 2",
        AB,
        None,
        None,
        "same\n",
        0,
    ),
    // an unreadable line does nothing; all steps against none
    Scripts("", "what is this", None, None, "same\n", 0),
    Scripts(AB, "", None, None, "different\n", 1),
    // the first read of either script fails
    Scripts(AB, CD, Some(1), None, "refused read", 4),
    Scripts(AB, CD, None, Some(1), "refused read", 4),
];

// What is told of the two scripts, which come in these pieces.
fn told(
    alloc: Global,
    scripts: &Scripts,
    first: Vec<Vec<u8>>,
    second: Vec<Vec<u8>>,
) -> Result<(Vec<u8>, u8), ToolFault<'static>> {
    let mut reader = Pieces::new(first, scripts.2);
    let mut other = Pieces::new(second, scripts.3);
    let mut tallies = Tallies {
        first: Tally::new(),
        second: Tally::new(),
    };
    let opening = load_opening(
        alloc,
        Merging::Plain,
        &mut Pieces::new(whole(alloc, PAIRS)?, None),
    )?;
    let first = opening.session(alloc)?;
    let (roles, second) = opening.into_session(alloc)?;
    verdict_of(
        alloc,
        &roles,
        first,
        second,
        &mut reader,
        &mut other,
        &mut tallies,
    )
}

// What is told of the two scripts, and the status; or the line and the status of the fault.
fn compared(alloc: Global, scripts: &Scripts) -> Result<(Vec<u8>, u8), Fail> {
    let first = whole(alloc, scripts.0)?;
    let second = whole(alloc, scripts.1)?;
    match told(alloc, scripts, first, second) {
        Ok(told) => Ok(told),
        Err(fault) => Ok((fault_line(alloc, &fault)?, status(&fault))),
    }
}

// `mps_program::verdict_of` says `same`, with status 0, where each role did the same in both scripts, else `different`,
// with 1. Where a run breaks off, that is a fault.
#[test]
fn scripts_are_the_same_where_each_role_did_the_same(rt: HostRuntime) -> Result<(), Fail> {
    for scripts in COMPARED {
        let (line, code) = compared(rt.alloc(), scripts)?;
        assert_eq!(rt;
            line.as_slice(),
            scripts.4.as_bytes(),
            "the verdict on {:?} and {:?}",
            scripts.0,
            scripts.1
        );
        assert_eq!(rt;
            code,
            scripts.5,
            "the status for {:?} and {:?}",
            scripts.0, scripts.1
        );
    }
    Ok(())
}

// Whether the fault is that the file isn't there.
fn names_no_file(alloc: Global, fault: Option<ToolFault<'_>>) -> Result<bool, AllocError> {
    match fault {
        Some(fault) => tells(alloc, &fault, "refused file no such file", 2),
        None => Ok(false),
    }
}

// A protocol's file that isn't there.
const NO_FILE: ProtocolFile<'static> = ProtocolFile {
    name: "no such file",
    merging: Merging::Plain,
};

// `mps_program::open_file` and `check_file` name a file that isn't there, on the machine of the test itself. The status
// is 2.
#[test]
fn a_file_that_does_not_open_is_named(rt: HostRuntime) -> Result<(), Fail> {
    let found = open_file(&rt, "no such file").err();
    assert!(rt;
        names_no_file(rt.alloc(), found)?,
        "open_file: wanted `refused file no such file`, status 2"
    );
    let found = check_file(&rt, NO_FILE).err();
    assert!(rt;
        names_no_file(rt.alloc(), found)?,
        "check_file: wanted `refused file no such file`, status 2"
    );
    Ok(())
}

// `mps_program::run_file` and `compare_files` look for the protocol first: that file is named, not the scripts.
#[test]
fn a_protocol_that_does_not_open_is_named_first(rt: HostRuntime) -> Result<(), Fail> {
    let found = run_file(&rt, NO_FILE, "no such script", true, false).err();
    assert!(rt;
        names_no_file(rt.alloc(), found)?,
        "run_file: wanted `refused file no such file`, status 2"
    );
    let found = compare_files(&rt, NO_FILE, "no such script", "nor this", false).err();
    assert!(rt;
        names_no_file(rt.alloc(), found)?,
        "compare_files: wanted `refused file no such file`, status 2"
    );
    Ok(())
}

// A protocol, the room that the writer has, what it is written, and the line of the fault, which is
// empty for none.
struct Written(&'static str, usize, &'static str, &'static str);

// The lines of the relay's roles.
const LINES: &str =
    "a : send b int . end\nb : recv a int . send c int . end\nc : recv b int . end\n";

const WRITTEN: &[Written] = &[
    // room for more than all, for all, and for 8 bytes
    Written(RELAY, 1000, LINES, ""),
    Written(RELAY, LINES.len(), LINES, ""),
    Written(RELAY, 8, "a : send", "refused write"),
    // nothing is written of a protocol with a fault
    Written(
        "roles a b ; rec X . a -> b : int . rec X . end",
        1000,
        "",
        "refused protocol shadowed",
    ),
    Written("roles a b ; end end", 0, "", "refused text trailing 16"),
];

// What is written of the types to a writer with so much room, by a reader of these pieces that fails
// from a call on; and the line of the fault.
fn write_to(
    alloc: Global,
    pieces: Vec<Vec<u8>>,
    fails_from: Option<u64>,
    room: usize,
) -> Result<(Vec<u8>, Vec<u8>), AllocError> {
    let mut reader = Pieces::new(pieces, fails_from);
    let mut writer = Short::new(alloc, room)?;
    let line = match write_types(alloc, Merging::Plain, &mut reader, &mut writer) {
        Ok(()) => Vec::new(alloc),
        Err(fault) => fault_line(alloc, &fault)?,
    };
    Ok((Vec::from_slice(alloc, writer.bytes())?, line))
}

// `mps_program::write_types` writes a line for each role once all is read and checked, or tells why not.
#[test]
fn types_are_written_once_all_is_checked(rt: HostRuntime) -> Result<(), Fail> {
    for Written(protocol, room, lines, fault) in WRITTEN {
        let pieces = halves(rt.alloc(), protocol)?;
        let (found, line) = write_to(rt.alloc(), pieces, None, *room)?;
        assert_eq!(rt;
            found.as_slice(),
            lines.as_bytes(),
            "{protocol} with room for {room}"
        );
        assert_eq!(rt;
            line.as_slice(),
            fault.as_bytes(),
            "{protocol} with room for {room}"
        );
    }
    Ok(())
}

// `mps_program::write_types` writes nothing where the second read fails, though the first gave a whole protocol.
#[test]
fn nothing_is_written_after_a_read_that_failed(rt: HostRuntime) -> Result<(), Fail> {
    let pieces = whole(rt.alloc(), RELAY)?;
    let (found, line) = write_to(rt.alloc(), pieces, Some(2), 1000)?;
    assert_eq!(rt; found.len(), 0, "the bytes written after a failed read");
    assert_eq!(rt;
        line.as_slice(),
        b"refused read".as_slice(),
        "the fault of the failed read"
    );
    Ok(())
}
