//! mps_line: a reply is read exactly where it has a reply's form, and has its code; and so are first lines.
ghost use Rattle.std.specs.Prelude.{◌≡◌, IfOk};

use mps_base::write_number;
use mps_line::laws::one_reply_line;
use mps_line::{LineFault, Reply, read_answer, read_join};
use std::alloc::{AllocGlobal, Global};
use std::process::Abort;

// The reply as it is written, and what that is read as.
fn again(alloc: Global, reply: &Reply) -> Result<(Vec<u8>, Reply), LineFault>
    ensures { IfOk result (λ r. r.1 ≡ reply.now) }
{
    one_reply_line();
    let mut line = Vec::new(alloc);
    reply.write(&mut line)?;
    let read = read_answer(alloc, &line);
    prove!(!matches!(&read, Err(LineFault::Bad)));
    Ok((line, read?))
}

// What the line is read as, in words.
fn shown(rt: &(impl Abort + AllocGlobal), reply: &Reply) -> String {
    format!(in rt.alloc(); "{reply:?}").expect(rt, "memory")
}

// The reply of the line.
fn reply(rt: &(impl Abort + AllocGlobal), line: &[u8]) -> Reply {
    read_answer(rt.alloc(), line).expect(rt, "a reply")
}

// What the reply is written as, and whether that is read as this reply.
fn written(rt: &(impl Abort + AllocGlobal), reply: &Reply) -> (Vec<u8>, bool) {
    let (line, read) = again(rt.alloc(), reply).expect(rt, "the same");
    (line, shown(rt, reply).as_str() == shown(rt, &read).as_str())
}

// A reply's line, and its code.
const REPLIES: &[(&str, u8)] = &[
    // what a step took, if it took something: values of each sort, or a label
    ("done 1", 0),
    ("done 0", 0),
    ("done 18446744073709551615 true", 0),
    ("done 2 -5", 0),
    ("done 6 ok", 0),
    ("done 3 \"good day\"", 0),
    ("done 3 \" 5 \"", 0),
    ("done 3 \"\"", 0),
    // steps that were taken back, and news
    ("undone", 0),
    ("undone 3", 0),
    ("undone 4 3 2 1", 0),
    ("undone 0 18446744073709551615", 0),
    ("news 0", 0),
    ("news 5 4", 0),
    ("news 100000 3 2 1", 0),
    // a shown session: any line that begins with a brace
    ("{}", 0),
    ("{x", 0),
    ("{\"a\": [1,  2], \"b ", 0),
    // that a connection joined
    ("joined 1 a", 0),
    ("joined 18446744073709551615 role_2", 0),
    // refusals, each with the code of FORMATS
    ("refused ended", 1),
    ("refused wrongact", 2),
    ("refused wrongpeer", 3),
    ("refused wrongsort", 4),
    ("refused nolabel", 5),
    ("refused nothingqueued", 6),
    ("refused mismatch", 7),
    ("refused nostep", 8),
    ("refused notyours", 9),
    ("refused needed 2", 10),
    ("refused nomark", 11),
    ("refused full", 12),
    ("refused memory", 13),
    ("refused line", 14),
    ("refused nosession", 15),
    ("refused norole", 16),
    ("refused taken", 17),
    ("refused final 4", 18),
    ("refused final 0", 18),
    ("refused final 18446744073709551615", 18),
    ("refused number", 19),
    ("refused busy", 20),
    ("refused journal", 21),
    ("refused elsewhere", 22),
];

// Whether the line is read as a reply, which is written and read again.
fn is_read_again(rt: &(impl Abort + AllocGlobal), line: &[u8]) -> bool {
    let (written, is_same) = written(rt, &reply(rt, line));
    is_same && written.as_slice() == line
}

// `mps_line::read_answer` reads each kind of reply, `Reply::code` gives its code, and `Reply::write` writes the same
// line again.
#[test]
fn each_kind_of_reply_is_read_and_written_again(rt: HostRuntime) {
    for (line, code) in REPLIES {
        assert_eq!(rt;
            reply(&rt, line.as_bytes()).code(),
            *code,
            "the code of {line}"
        );
        assert!(rt;
            is_read_again(&rt, line.as_bytes()),
            "`{line}` is written again"
        );
    }
}

// Lines that are no replies.
const BAD_REPLIES: &[&str] = &[
    // nothing, and `done` with a part too few, too many, or in another spelling
    "",
    " ",
    "done",
    "done ",
    "done 01",
    "done 1 ",
    "done  1",
    "done 1  5",
    "done 1 5 6",
    "done 1 05",
    "done 1 end",
    "done 1 \"x",
    "done x",
    "Done 1",
    "done 18446744073709551616",
    // `undone` and `news`: a number missing or in another spelling, a space too many
    "undone ",
    "undone  3",
    "undone 3 ",
    "undone 3  2",
    "undone 03",
    "undone 3 x",
    "undone 18446744073709551616",
    "undone3",
    "news",
    "news ",
    "news  3",
    "news 3 ",
    "news x",
    "news 3 x",
    "news 03",
    "news 3 02",
    // `joined` has a number and a name, each in its one spelling
    "joined",
    "joined 1",
    "joined 1 ",
    "joined 01 a",
    "joined 1 A",
    "joined 1 end",
    "joined 1 a b",
    "joined 18446744073709551616 a",
    // `needed` and `final` have one number, in its one spelling
    "refused",
    "refused ",
    "refused needed",
    "refused needed ",
    "refused needed 02",
    "refused needed 2 ",
    "refused needed x",
    "refused needed final",
    "refused final",
    "refused final ",
    "refused final  3",
    "refused final 02",
    "refused final 00",
    "refused final 2 ",
    "refused final 2 3",
    "refused final -2",
    "refused final x",
    "refused final 18446744073709551616",
    "refused final2",
    "refused finals 2",
    "refused fina 2",
    "refused Final 2",
    "refused  final 2",
    "final 2",
    // other refusals have no number, and no word is shorter or longer
    "refused  full",
    "refused full ",
    "refused full 3",
    "refused Full",
    "refused wrong",
    "refused it",
    "refused number ",
    "refused number 3",
    "refused journal 3",
    "refused numbers",
    // a shown session begins with its brace, and has bytes from the space to `~` alone
    " {x",
    "{x\n",
    "{\t}",
    "{\x7f}",
    "{é}",
    // commands and first lines are no replies
    "show",
    "undo 3",
    "join 1 a",
];

// Whether the line is read as no reply.
fn is_bad_reply(alloc: Global, line: &str) -> bool {
    matches!(read_answer(alloc, line.as_bytes()), Err(LineFault::Bad))
}

// `mps_line::read_answer` says `Bad` of these lines, which are no replies.
#[test]
fn a_line_that_is_no_reply_is_bad(rt: HostRuntime) {
    for line in BAD_REPLIES {
        assert!(rt; is_bad_reply(rt.alloc(), line), "`{line}` is no reply");
    }
}

// The words, and after them the numbers from 1 to this one.
fn numbered(rt: &(impl Abort + AllocGlobal), words: &[u8], last: u64) -> Vec<u8> {
    let mut line = Vec::from_slice(rt.alloc(), words).expect(rt, "memory");
    for number in 1..=last {
        line.push(b' ').expect(rt, "memory");
        write_number(number, &mut line).expect(rt, "memory");
    }
    line
}

// Words, and how many numbers stand behind them, from 1 on.
const LONG: &[(&str, u64)] = &[("undone", 1_000), ("news 7", 1_000), ("{", 20_000)];

// `mps_line::read_answer` reads replies of any length: 1,000 step numbers, and over 100,000 bytes that a brace makes a
// shown session.
#[test]
fn a_reply_of_any_length_is_read(rt: HostRuntime) {
    for (words, last) in LONG {
        let line = numbered(&rt, words.as_bytes(), *last);
        assert!(rt;
            is_read_again(&rt, &line),
            "`{words}` and its numbers are written again"
        );
    }
}

// A first line, the session that it joins, and the role.
const JOINS: &[(&str, u64, &str)] = &[
    ("join 1 a", 1, "a"),
    ("join 0 role_2", 0, "role_2"),
    ("join 18446744073709551615 join", u64::MAX, "join"),
];

// Lines that don't join: a part too few, too many or in another spelling, and other words.
const BAD_JOINS: &[&str] = &[
    "",
    "join",
    "join ",
    "join 1",
    "join 1 ",
    "join a",
    "join 01 a",
    "join 1 A",
    "join 1 end",
    "join 1  a",
    "join  1 a",
    "join 1 a ",
    "join 1 a b",
    " join 1 a",
    "Join 1 a",
    "joined 1 a",
    "join 18446744073709551616 a",
    "show",
];

// Whether the line is read as one that joins that session and role.
fn is_join(line: &str, session: u64, name: &str) -> bool {
    match read_join(line.as_bytes()) {
        Ok(pass) => pass.0 == session && pass.1.as_bytes() == name.as_bytes(),
        Err(_) => false,
    }
}

// Whether the line is read as no first one.
fn is_bad_join(line: &str) -> bool {
    matches!(read_join(line.as_bytes()), Err(LineFault::Bad))
}

// `mps_line::read_join` reads `join`, a number below 2^64 and a name, each in its one spelling, and says `Bad` of the
// other lines here.
#[test]
fn a_join_has_one_spelling(rt: HostRuntime) {
    for (line, session, name) in JOINS {
        assert!(rt; is_join(line, *session, name), "what `{line}` joins");
    }
    for line in BAD_JOINS {
        assert!(rt; is_bad_join(line), "`{line}` is no join");
    }
}
