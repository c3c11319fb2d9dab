//! mps_line: a line is read exactly where it spells a command, and a command is written as that line.
ghost use Rattle.std.specs.Prelude.{◌≡◌, IfOk};
ghost use Rattle.mps_line.specs.Commands.{NamesRolesOf};

use crate::words::{name, three_roles, two_roles};
use mps_base::{Role, Roles, Value};
use mps_command::{Command, Forward};
use mps_line::laws::{one_command, one_numbered};
use mps_line::{
    LineFault, append_command, read_command, read_numbered, read_script_line, split_wait,
};
use std::alloc::{AllocGlobal, Global};
use std::process::Abort;

// A word and bytes.
fn worded(rt: &(impl Abort + AllocGlobal), word: &str, bytes: &[u8]) -> String {
    let text = std::str::from_utf8(bytes).expect(rt, "a text");
    format!(in rt.alloc(); "{word} {text}").expect(rt, "memory")
}

// A word, the place of a role, and bytes.
fn of_role(rt: &(impl Abort + AllocGlobal), word: &str, role: Role, bytes: &[u8]) -> String {
    let (place, text) = (
        role.index(),
        std::str::from_utf8(bytes).expect(rt, "a text"),
    );
    format!(in rt.alloc(); "{word} {place} {text}").expect(rt, "memory")
}

// A word and a number.
fn numbered(rt: &(impl Abort + AllocGlobal), word: &str, number: u64) -> String {
    format!(in rt.alloc(); "{word} {number}").expect(rt, "memory")
}

// A word alone.
fn alone(rt: &(impl Abort + AllocGlobal), word: &str) -> String {
    word.to_string(rt.alloc()).expect(rt, "memory")
}

// What is given to the role, in words.
fn given(rt: &(impl Abort + AllocGlobal), to: Role, value: &Value) -> String {
    let mut text = Vec::new(rt.alloc());
    value.write(&mut text).expect(rt, "memory");
    of_role(rt, "to", to, &text)
}

// The step that a role wants to take, in words.
fn shown_step(rt: &(impl Abort + AllocGlobal), command: &Forward) -> String {
    match command {
        Forward::Send { to, value } => given(rt, *to, value),
        Forward::Choose { to, label } => of_role(rt, "chooses", *to, label.as_bytes()),
        Forward::Receive { from, slot } => of_role(rt, "from", *from, slot.as_bytes()),
        Forward::Pick { from } => of_role(rt, "picks", *from, b""),
        Forward::Mark { name } => worded(rt, "mark", name.as_bytes()),
        Forward::Commit => alone(rt, "commits"),
    }
}

// The command in words.
fn shown(rt: &(impl Abort + AllocGlobal), command: &Command) -> String {
    match command {
        Command::Forward(step) => shown_step(rt, step),
        Command::Undo(id) => numbered(rt, "undoes", id.number()),
        Command::Rollback(id) => numbered(rt, "takes back", id.number()),
        Command::Back(name) => worded(rt, "goes back to", name.as_bytes()),
        Command::News(known) => numbered(rt, "asks what came after", *known),
        Command::Show => alone(rt, "asks for the session"),
        Command::Stand => alone(rt, "asks how it stands"),
    }
}

// Whether the command is this one in words.
fn is_shown(rt: &(impl Abort + AllocGlobal), command: &Command, text: &str) -> bool {
    shown(rt, command).as_str() == text
}

// ---- lines of a script

// A line, the place of its role, and its command in words: the peer is a place.
const SCRIPT_LINES: &[(&str, usize, &str)] = &[
    // values of each sort; a text may have spaces
    ("a send b \"good day\"", 0, "to 1 \"good day\""),
    ("a send b 5", 0, "to 1 5"),
    ("c send a -5", 2, "to 0 -5"),
    ("c send a true", 2, "to 0 true"),
    ("c send a \" 5 \"", 2, "to 0 \" 5 \""),
    // the other steps; a mark may be called like a command
    ("b recv a x", 1, "from 0 x"),
    ("a choose b ok", 0, "chooses 1 ok"),
    ("c pick a", 2, "picks 0 "),
    ("b mark m", 1, "mark m"),
    ("b mark send", 1, "mark send"),
    ("b mark commit", 1, "mark commit"),
    ("b commit", 1, "commits"),
    ("c commit", 2, "commits"),
    // what takes steps back, and questions
    ("b undo 3", 1, "undoes 3"),
    ("c rollback 0", 2, "takes back 0"),
    ("a back m", 0, "goes back to m"),
    ("c news 7", 2, "asks what came after 7"),
    ("b show", 1, "asks for the session"),
    ("c stand", 2, "asks how it stands"),
];

// Whether the line is read as its row says.
fn is_read(rt: &(impl Abort + AllocGlobal), roles: &Roles, row: &(&str, usize, &str)) -> bool {
    match read_script_line(rt.alloc(), roles, row.0.as_bytes()) {
        Ok((role, command)) => role.index() == row.1 && is_shown(rt, &command, row.2),
        Err(_) => false,
    }
}

// `mps_line::read_script_line` gives the role and the command that a line of a script spells, here of each kind of
// command.
#[test]
fn a_line_of_a_script_is_read_as_its_command(rt: HostRuntime) {
    let roles = three_roles(&rt);
    for row in SCRIPT_LINES {
        assert!(rt; is_read(&rt, &roles, row), "what `{}` is read as", row.0);
    }
}

// Lines that spell no command of a, b or c.
const BAD_LINES: &[&str] = &[
    // a part is missing
    "",
    "a",
    "a ",
    "a send",
    "a send b",
    "a send b ",
    // a space too many, no such role, another spelling
    "a send b  5",
    "a send b 5 ",
    "a send z 5",
    "z send b 5",
    "a Send b 5",
    "a send b 007",
    " a send b 5",
    "a  send b 5",
    // `recv`, `choose`, `pick` and `mark`: a part too many, too few or of another kind, or no such peer
    "a recv b end",
    "a recv b",
    "a recv b \"x\"",
    "a recv b x y",
    "a choose b",
    "a choose b ",
    "a choose b 5",
    "a choose z ok",
    "a choose b ok no",
    "a pick",
    "a pick ",
    "a pick z",
    "a pick b x",
    "a pick b ",
    "a mark",
    "a mark ",
    "a mark end",
    "a mark b m",
    "a mark  m",
    // no space after the verb
    "a sendxb 5",
    "a sender b 5",
    "a sendb 5",
    "a marksm",
    // `commit` has no further part, and one spelling
    "a commit ",
    "a commit x",
    "a commit 1",
    "a  commit",
    " a commit",
    "a Commit",
    "a commits",
    "a commi",
    // no role in front, or a number
    "z commit",
    "commit",
    "commit a",
    "1 a commit",
    "a 1 commit",
    // questions: a space too many, a number in another spelling, no role
    "a show ",
    "a stand ",
    "a stand b",
    "a stan",
    "a news 01",
    "show",
    "news 0",
    // a number stands in no line of a script
    "1 a send b 5",
    "a 1 send b 5",
    "1 send b 5",
];

// Whether the line is read as none of a script.
fn is_bad_line(alloc: Global, roles: &Roles, line: &str) -> bool {
    matches!(
        read_script_line(alloc, roles, line.as_bytes()),
        Err(LineFault::Bad)
    )
}

// `mps_line::read_script_line` says `Bad` of these lines, which spell no command of a role.
#[test]
fn a_line_that_spells_no_command_of_a_role_is_bad(rt: HostRuntime) {
    let roles = three_roles(&rt);
    for line in BAD_LINES {
        assert!(rt;
            is_bad_line(rt.alloc(), &roles, line),
            "`{line}` is no line"
        );
    }
}

// ---- commands alone

// The command as it is written, and what that is read as.
fn again(alloc: Global, roles: &Roles, command: &Command) -> Result<(Vec<u8>, Command), LineFault>
    requires { NamesRolesOf roles.now command.now }
    ensures { IfOk result (λ r. r.1 ≡ command.now) }
{
    let (_one, _distinct) = (one_command(), roles.count());
    let mut line = Vec::new(alloc);
    append_command(roles, command, &mut line)?;
    let read = read_command(alloc, roles, &line);
    prove!(!matches!(&read, Err(LineFault::Bad)));
    Ok((line, read?))
}

// A command's line, and the command in words, with the least int, -2^63, and the greatest number, 2^64 - 1.
const COMMANDS: &[(&str, &str)] = &[
    ("send b 5", "to 1 5"),
    ("send c -9223372036854775808", "to 2 -9223372036854775808"),
    ("send b false", "to 1 false"),
    ("send b \"good day\"", "to 1 \"good day\""),
    ("send b \" 5 \"", "to 1 \" 5 \""),
    ("send b \"\"", "to 1 \"\""),
    ("choose b ok", "chooses 1 ok"),
    ("recv a x", "from 0 x"),
    ("pick a", "picks 0 "),
    ("mark m", "mark m"),
    ("mark undo", "mark undo"),
    ("mark commit", "mark commit"),
    ("commit", "commits"),
    ("choose b commit", "chooses 1 commit"),
    ("undo 3", "undoes 3"),
    ("undo 0", "undoes 0"),
    ("undo 18446744073709551615", "undoes 18446744073709551615"),
    ("rollback 1", "takes back 1"),
    (
        "rollback 18446744073709551615",
        "takes back 18446744073709551615",
    ),
    ("back m", "goes back to m"),
    ("back rollback", "goes back to rollback"),
    ("news 0", "asks what came after 0"),
    (
        "news 18446744073709551615",
        "asks what came after 18446744073709551615",
    ),
    ("show", "asks for the session"),
    ("stand", "asks how it stands"),
];

// Whether the line is read as that command, also when it is written again.
fn is_command(rt: &(impl Abort + AllocGlobal), roles: &Roles, line: &str, text: &str) -> bool {
    let command = read_command(rt.alloc(), roles, line.as_bytes()).expect(rt, "a command");
    one_command();
    let (written, read) = again(rt.alloc(), roles, &command).expect(rt, "the same");
    is_shown(rt, &command, text)
        && is_shown(rt, &read, text)
        && written.as_slice() == line.as_bytes()
}

// `mps_line::read_command` reads the line, `append_command` writes the same line again, and that is read as the same
// command.
#[test]
fn a_command_is_written_as_the_line_it_was_read_of(rt: HostRuntime) {
    let roles = three_roles(&rt);
    for (line, text) in COMMANDS {
        assert!(rt;
            is_command(&rt, &roles, line, text),
            "`{line}` is read and written again"
        );
    }
}

// Lines that spell no command.
const BAD_COMMANDS: &[&str] = &[
    // nothing, a role in front, a space too many, no such peer, another spelling
    "",
    " ",
    "a send b 5",
    "send b  5",
    "send z 5",
    "send b 05",
    // an undo has a number below 2^64, in its one spelling, after one space
    "undo 03",
    "undo",
    "undo ",
    "undo 3 ",
    "undo  3",
    " undo 3",
    "Undo 3",
    "undo +3",
    "undo -1",
    "undo 00",
    "undo 3.0",
    "undo x",
    "undo 3 4",
    "undo3",
    "undo\t3",
    "undo 18446744073709551616",
    "undo 100000000000000000000",
    // another word, or a rollback without such a number
    "undone 3",
    "rollback x",
    "rollback",
    "rollback 03",
    "rollback 18446744073709551616",
    "roll 3",
    // marks have names
    "back 3",
    "back",
    "back ",
    "back end",
    "back m ",
    "back M",
    "backm",
    "mark end",
    // `commit` stands alone, and no other word does for it
    "commit ",
    "commit  ",
    "commit x",
    "commit 3",
    "commit b",
    " commit",
    "commit\t",
    "Commit",
    "COMMIT",
    "commits",
    "committed",
    "commi",
    "com",
    "c",
    "co",
    "c b ok",
    "co b ok",
    "commit b ok",
    "a commit",
    "1 commit",
    // questions: a part too many or too few, another spelling
    "show ",
    "show 0",
    "shows",
    "Show",
    "news",
    "news ",
    "news 00",
    "news  0",
    "news 0 ",
    "news 0 1",
    "news m",
    "news 18446744073709551616",
    // answers are no commands
    "done 1",
    "refused line",
];

// Whether the line is read as no command.
fn is_bad_command(alloc: Global, roles: &Roles, line: &str) -> bool {
    matches!(
        read_command(alloc, roles, line.as_bytes()),
        Err(LineFault::Bad)
    )
}

// `mps_line::read_command` says `Bad` of these lines, which spell no command.
#[test]
fn a_line_that_spells_no_command_is_bad(rt: HostRuntime) {
    let roles = three_roles(&rt);
    for line in BAD_COMMANDS {
        assert!(rt;
            is_bad_command(rt.alloc(), &roles, line),
            "`{line}` is no command"
        );
    }
}

// ---- lines of a conversation

// A line, its number, if it has one, and its command. 18446744073709551615 is the greatest number, 2^64 - 1.
const NUMBERED: &[(&str, Option<u64>, &str)] = &[
    ("1 send b 5", Some(1), "send b 5"),
    ("2 send b \"4 mark m\"", Some(2), "send b \"4 mark m\""),
    ("3 choose b ok", Some(3), "choose b ok"),
    ("4 recv b x", Some(4), "recv b x"),
    ("5 pick b", Some(5), "pick b"),
    ("6 undo 3", Some(6), "undo 3"),
    ("7 rollback 3", Some(7), "rollback 3"),
    ("10 back m", Some(10), "back m"),
    ("11 commit", Some(11), "commit"),
    ("0 commit", Some(0), "commit"),
    ("18446744073709551615 commit", Some(u64::MAX), "commit"),
    ("commit", None, "commit"),
    ("0 mark m", Some(0), "mark m"),
    ("18446744073709551615 mark m", Some(u64::MAX), "mark m"),
    ("mark m", None, "mark m"),
    ("send b \"good day\"", None, "send b \"good day\""),
    ("undo 3", None, "undo 3"),
    ("news 0", None, "news 0"),
    ("show", None, "show"),
    ("stand", None, "stand"),
];

// Whether the command is written so.
fn is_written(rt: &(impl Abort + AllocGlobal), roles: &Roles, command: &Command, line: &str) -> bool
    requires { NamesRolesOf roles.now command.now }
{
    let mut text = Vec::new(rt.alloc());
    append_command(roles, command, &mut text).expect(rt, "memory");
    text.as_slice() == line.as_bytes()
}

// Whether the line is read as that number and that command, which is written again.
fn is_numbered(
    rt: &(impl Abort + AllocGlobal),
    roles: &Roles,
    row: &(&str, Option<u64>, &str),
) -> bool {
    one_numbered();
    let (number, command) = read_numbered(rt.alloc(), roles, row.0.as_bytes()).expect(rt, "a line");
    number == row.1 && is_written(rt, roles, &command, row.2)
}

// `mps_line::read_numbered` takes a number off, if the line has one, and reads the command, which is written without
// it.
#[test]
fn a_number_is_taken_off_its_command(rt: HostRuntime) {
    let roles = two_roles(&rt);
    for row in NUMBERED {
        assert!(rt;
            is_numbered(&rt, &roles, row),
            "what `{}` is read as",
            row.0
        );
    }
}

// Lines that spell nothing in a conversation.
const BAD_NUMBERED: &[&str] = &[
    // nothing, and a number alone
    "",
    "4",
    "4 ",
    // a question has no number
    "4 show",
    "4 news 0",
    // a space too many, a part too few, no name, no such role, something between
    "4  mark m",
    " 4 mark m",
    "4 mark m ",
    "4 mark",
    "4 mark end",
    "4 send z 5",
    "4 5 mark m",
    "4 a mark m",
    // no number in front, or one in another spelling
    "4a mark m",
    "4mark m",
    "4\tmark m",
    "+4 mark m",
    "-4 mark m",
    "04 mark m",
    "00 mark m",
    "04 show",
    "18446744073709551616 mark m",
    "100000000000000000000 mark m",
    // no number and no command
    "a mark m",
    "Mark m",
    "mark m 4",
    // a commit: a space too many or too few, a part too many, another spelling, of its number too
    "4  commit",
    "4 commit ",
    "4 commit x",
    "4 commit 4",
    "4 Commit",
    "4commit",
    "04 commit",
    "commit 4",
];

// Whether the line is read as none of a conversation.
fn is_bad_numbered(alloc: Global, roles: &Roles, line: &str) -> bool {
    matches!(
        read_numbered(alloc, roles, line.as_bytes()),
        Err(LineFault::Bad)
    )
}

// `mps_line::read_numbered` says `Bad` of these lines, which spell neither a command nor a number and a change.
#[test]
fn a_number_before_no_change_is_bad(rt: HostRuntime) {
    let roles = two_roles(&rt);
    for line in BAD_NUMBERED {
        assert!(rt;
            is_bad_numbered(rt.alloc(), &roles, line),
            "`{line}` is no line of a conversation"
        );
    }
}

// Lines, and for how many milliseconds the answer of which line may wait, if they say so.
const WAITS: &[(&str, Option<(u64, &str)>)] = &[
    ("wait 20000 5 recv a x", Some((20_000, "5 recv a x"))),
    ("wait 0 news 7", Some((0, "news 7"))),
    ("wait 18446744073709551615 show", Some((u64::MAX, "show"))),
    // what follows isn't read
    ("wait 5 ", Some((5, ""))),
    ("wait 5  pick a", Some((5, " pick a"))),
    ("wait 5 wait 6 pick a", Some((5, "wait 6 pick a"))),
    // no number, or one in another spelling
    ("wait 18446744073709551616 show", None),
    ("wait 05 show", None),
    ("wait +5 show", None),
    ("wait 5s show", None),
    ("wait pick a", None),
    ("wait  5 show", None),
    // another word, or nothing after the number
    ("waits 5 show", None),
    ("Wait 5 show", None),
    (" wait 5 show", None),
    ("wait5 show", None),
    ("wait 5", None),
    ("wait", None),
    ("5 show", None),
    ("", None),
];

// Whether the line is split so.
fn is_split(line: &str, want: &Option<(u64, &str)>) -> bool {
    match (split_wait(line.as_bytes()), want) {
        (Some((limit, rest)), Some((milliseconds, text))) => {
            limit == *milliseconds && rest == text.as_bytes()
        }
        (None, None) => true,
        _ => false,
    }
}

// `mps_line::split_wait` splits a line that begins with `wait` and a number.
#[test]
fn a_line_that_waits_is_split(rt: HostRuntime) {
    for (line, want) in WAITS {
        assert!(rt; is_split(line, want), "how `{line}` is split");
    }
}
