//! mps_program, mps_words: what a call of the program prints and tells, and its exit status, on a machine in memory.
use crate::fake::Machine;
use mps_program::{ToolFault, carry_out, check_file, end_after, run_file};
use mps_words::{Merging, Order, ProtocolFile, order};
use std::alloc::Global;
use std::process::{Abort, ExitCode};
use std::rt::Files;
use std::test::Fail;

// a gives b an int, and b gives c one, here over several lines.
const RELAY: &str = "roles a b c ;\na -> b : int .\nb -> c : int .\nend\n";

// The whole relay. The last line has no LF.
const SCRIPT: &str = "a send b 5\nb recv a x\nb send c 7\nc recv b y";

// a gives b a text, and b gives a a bool.
const GREETING: &str = "roles a b ; a -> b : text . b -> a : bool . end";

// Both are given and received.
const WORDS: &str = "a send b \"good day\"\nb recv a x\nb send a true\na recv b y\n";

// In a loop, `a` chooses; at `go`, `b` answers a text.
const TALK: &str = "roles a b ; rec X . a -> b { go : b -> a : text . X , stop : end }";

// Two turns of the loop. Line 4 comes too early, and the last one after the end.
const TALKED: &str = "a choose b go\nb pick a\nb send a \"good day\"\na choose b stop\n\
    a recv b w\na choose b stop\nb pick a\nb pick a\n";

// A number goes round, and then `c` chooses.
const RING: &str = "roles a b c ; a -> b : int . b -> c : int . c -> a { ok : end , no : end }";

// Four lines that are refused in a new session of the ring.
const STRAY: &str = "b recv a x\na recv b x\na send c 5\na send b true\n";

// The ring to its end, with three lines that are refused.
const ROUND: &str = "a send b 5\nb recv a x\nb send c 7\nc recv b y\nc choose a maybe\n\
    a pick c\nc choose a ok\na pick c\na mark e\na send b 1\n";

// Two numbers into the same slot.
const TWICE: &str = "a send b 1\na send b 2\nb recv a x\nb recv a x\n";

// What goes round is taken back from `b` on, and goes round once more.
const AGAIN: &str = "a send b 5\nb recv a x\nb send c 7\nc recv b y\nc choose a ok\n\
    b rollback 2\nb recv a y\nb send c 9\nc recv b z\nc choose a no\na pick c\n";

// The last line has no LF.
const UNENDED: &str = "a send b 5\na undo 1";

// Two numbers that have nothing to do with each other.
const PAIRS: &str = "roles a b c d ; a -> b : int . c -> d : int . end";

// The files of the machine. `torn` opens and can't be read; `-` is the standard input.
const FILES: &[(&str, &str)] = &[
    ("pairs", PAIRS),
    ("ab first", "a send b 1\nc send d 2\n"),
    ("cd first", "c send d 2\na send b 1\n"),
    ("another number", "c send d 2\na send b 3\n"),
    ("torn", ""),
    ("talk", TALK),
    ("talked", TALKED),
    ("ring", RING),
    ("stray", STRAY),
    ("round", ROUND),
    ("again", AGAIN),
    ("unended", UNENDED),
    ("twice", TWICE),
    ("greeting", GREETING),
    ("words", WORDS),
    ("relay", RELAY),
    ("script", SCRIPT),
    ("-", SCRIPT),
    ("loop", "roles a b ; rec X . a -> b : int . X"),
    ("choice", "roles a b ; a -> b { l : end , r : end }"),
    ("unguarded", "roles a b ; rec X . X"),
    (
        "unmergeable",
        "roles a b c ; a -> b { l : a -> c : int . end , r : end }",
    ),
    (
        "told",
        "roles a b c ; a -> b { l : a -> c { x : end } , r : a -> c { y : end } }",
    ),
    (
        "telling",
        "a choose b l\na choose c x\nc pick a\nb pick a\n",
    ),
    ("empty", ""),
    ("scrawl", SCRAWL),
    ("scribble", SCRIBBLE),
];

// The words that the program is called with; room for so many bytes that are printed at once, of which 1,000 are
// enough; what is printed; what is told on the standard error; and the status.
struct Row(
    &'static [&'static str],
    usize,
    &'static str,
    &'static str,
    u8,
);

const RUNS: &[Row] = &[
    // a script in a file; output that can't be written; a script on the standard input; an empty one
    Row(
        &["mps_tool", "run", "relay", "script"],
        1000,
        "done 1\ndone 2 5\ndone 3\ndone 4 7\n",
        "",
        0,
    ),
    Row(
        &["mps_tool", "run", "relay", "script"],
        8,
        "",
        "refused write\n",
        4,
    ),
    Row(
        &["mps_tool", "run", "relay", "-"],
        1000,
        "done 1\ndone 2 5\ndone 3\ndone 4 7\n",
        "",
        0,
    ),
    Row(&["mps_tool", "run", "relay", "empty"], 1000, "", "", 0),
    // a file that isn't there
    Row(
        &["mps_tool", "run", "relay", "no script"],
        1000,
        "",
        "refused file no script\n",
        2,
    ),
    Row(
        &["mps_tool", "run", "no file", "script"],
        1000,
        "",
        "refused file no file\n",
        2,
    ),
    // the protocol is read and checked before the script is opened
    Row(
        &["mps_tool", "run", "unguarded", "no script"],
        1000,
        "",
        "refused protocol unguarded\n",
        3,
    ),
    Row(
        &["mps_tool", "run", "unmergeable", "no script"],
        1000,
        "",
        "refused projection c 0\n",
        3,
    ),
];

const STRICT: &[Row] = &[
    // no line is refused
    Row(
        &["mps_tool", "run", "--strict", "relay", "script"],
        1000,
        "done 1\ndone 2 5\ndone 3\ndone 4 7\n",
        "",
        0,
    ),
    // the first refused line is the last that is answered, and its number is told
    Row(
        &["mps_tool", "run", "--strict", "talk", "talked"],
        1000,
        "done 1\ndone 2 go\ndone 3\nrefused wrongact\n",
        "refused at line 4\n",
        1,
    ),
    Row(
        &["mps_tool", "run", "--strict", "ring", "stray"],
        1000,
        "refused nothingqueued\n",
        "refused at line 1\n",
        1,
    ),
    // faults are told as in any run
    Row(
        &["mps_tool", "run", "--strict", "ring", "stray"],
        8,
        "",
        "refused write\n",
        4,
    ),
    Row(
        &["mps_tool", "run", "--strict", "relay", "no script"],
        1000,
        "",
        "refused file no script\n",
        2,
    ),
];

// Refused lines don't change the status, which is 0.
const LOOPS_AND_CHOICES: &[Row] = &[
    Row(
        &["mps_tool", "run", "talk", "talked"],
        1000,
        "done 1\ndone 2 go\ndone 3\nrefused wrongact\ndone 4 \"good day\"\n\
         done 5\ndone 6 stop\nrefused ended\n",
        "",
        0,
    ),
    Row(
        &["mps_tool", "run", "ring", "stray"],
        1000,
        "refused nothingqueued\nrefused wrongact\nrefused wrongpeer\nrefused wrongsort\n",
        "",
        0,
    ),
    Row(
        &["mps_tool", "run", "ring", "round"],
        1000,
        "done 1\ndone 2 5\ndone 3\ndone 4 7\nrefused nolabel\nrefused nothingqueued\n\
         done 5\ndone 6 ok\ndone 7\nrefused ended\n",
        "",
        0,
    ),
    Row(
        &["mps_tool", "run", "loop", "twice"],
        1000,
        "done 1\ndone 2\ndone 3 1\ndone 4 2\n",
        "",
        0,
    ),
];

// On the ring: steps that are taken back and done again get new numbers; and an undo in a last line without an LF.
const TAKEN_BACK: &[Row] = &[
    Row(
        &["mps_tool", "run", "ring", "again"],
        1000,
        "done 1\ndone 2 5\ndone 3\ndone 4 7\ndone 5\nundone 5 4 3 2\n\
         done 6 5\ndone 7\ndone 8 9\ndone 9\ndone 10 no\n",
        "",
        0,
    ),
    Row(
        &["mps_tool", "run", "ring", "unended"],
        1000,
        "done 1\nundone 1\n",
        "",
        0,
    ),
];

const COMPARISONS: &[Row] = &[
    // the order across roles doesn't count, a value does
    Row(
        &["mps_tool", "same", "pairs", "ab first", "cd first"],
        1000,
        "same\n",
        "",
        0,
    ),
    Row(
        &["mps_tool", "same", "pairs", "ab first", "another number"],
        1000,
        "different\n",
        "",
        1,
    ),
    // output that can't be written; a file that isn't there
    Row(
        &["mps_tool", "same", "pairs", "ab first", "ab first"],
        4,
        "",
        "refused write\n",
        4,
    ),
    Row(
        &["mps_tool", "same", "no file", "no script", "none"],
        1000,
        "",
        "refused file no file\n",
        2,
    ),
    // the protocol is checked before a script is opened
    Row(
        &["mps_tool", "same", "unguarded", "no script", "none"],
        1000,
        "",
        "refused protocol unguarded\n",
        3,
    ),
    Row(
        &["mps_tool", "same", "unmergeable", "no script", "none"],
        1000,
        "",
        "refused projection c 0\n",
        3,
    ),
    Row(
        &["mps_tool", "same", "pairs", "no script", "none"],
        1000,
        "",
        "refused file no script\n",
        2,
    ),
    // no accepted step against seven
    Row(
        &["mps_tool", "same", "ring", "stray", "round"],
        1000,
        "different\n",
        "",
        1,
    ),
    // both scripts are opened before one is read
    Row(
        &["mps_tool", "same", "pairs", "torn", "none"],
        1000,
        "",
        "refused file none\n",
        2,
    ),
    // either script can't be read
    Row(
        &["mps_tool", "same", "pairs", "torn", "ab first"],
        1000,
        "",
        "refused read\n",
        4,
    ),
    Row(
        &["mps_tool", "same", "pairs", "ab first", "torn"],
        1000,
        "",
        "refused read\n",
        4,
    ),
];

// With `-v`, wherever it stands, the standard error is told more: why a file isn't opened or read, and how many lines
// of two scripts were refused. Where nothing is amiss it is told nothing.
const VERBOSE: &[Row] = &[
    Row(
        &["mps_tool", "-v", "run", "relay", "no script"],
        1000,
        "",
        "refused file no script\nentity not found\n",
        2,
    ),
    Row(
        &["mps_tool", "check", "--verbose", "no file"],
        1000,
        "",
        "refused file no file\nentity not found\n",
        2,
    ),
    Row(
        &["mps_tool", "-v", "same", "pairs", "torn", "ab first"],
        1000,
        "",
        "refused read\nunsupported\n",
        4,
    ),
    Row(
        &["mps_tool", "same", "ring", "stray", "round", "-v"],
        1000,
        "different\n",
        "first script: 4 of 4 lines refused\nsecond script: 3 of 10 lines refused\n",
        1,
    ),
    Row(
        &["mps_tool", "-v", "same", "pairs", "ab first", "cd first"],
        1000,
        "same\n",
        "",
        0,
    ),
    Row(
        &["mps_tool", "-v", "run", "relay", "script"],
        1000,
        "done 1\ndone 2 5\ndone 3\ndone 4 7\n",
        "",
        0,
    ),
    Row(
        &["mps_tool", "-v", "run", "greeting", "words"],
        1000,
        "done 1\ndone 2 \"good day\"\ndone 3\ndone 4 true\n",
        "",
        0,
    ),
];

// Lines that spell nothing, each for a reason of its own, and the last without an LF.
const SCRAWL: &str =
    "a send b 5\r\n\n# a note\na\tsend b 5\n a send b 5\na send  b 5\n1 a send b 5\nz mark m\n\
    a fly\na send z 5\na send b x\na send b \"\\\"\na undo 03\na mark m\nb pick";

// And more of them.
const SCRIBBLE: &str =
    "a  undo 1\na\na 1 send b 5\nb recv a end\na choose b\na mark X\na commit x\na news 007\n\
    a send b \"x\na send b \"x\ty\"\n";

// With `-v` the standard error is told why a line spells nothing. Line 14 of the first script is a command.
const UNREADABLE: &[Row] = &[
    Row(
        &["mps_tool", "-v", "run", "relay", "scrawl"],
        1000,
        "refused line\nrefused line\nrefused line\nrefused line\nrefused line\nrefused line\nrefused line\n\
         refused line\nrefused line\nrefused line\nrefused line\nrefused line\nrefused line\ndone 1\nrefused line\n",
        "line 1 is unreadable: it ends with a carriage return, and lines end with LF alone, not with CR and LF\n\
         line 2 is unreadable: it is empty\n\
         line 3 is unreadable: it looks like a comment, and a script has none\n\
         line 4 is unreadable: it has a tab, and between two words is one space\n\
         line 5 is unreadable: it begins with a space, and a line begins with its role\n\
         line 6 is unreadable: it has two spaces in a row, and between two words is one\n\
         line 7 is unreadable: it begins with a number, and a script's lines have none\n\
         line 8 is unreadable: its first word is no role of the protocol\n\
         line 9 is unreadable: after the role comes a command\n\
         line 10 is unreadable: the peer is no role of the protocol\n\
         line 11 is unreadable: a value is an int such as -5, `true` or `false`, or a text in double quotes\n\
         line 12 is unreadable: a `\\` stands in the text, and a text has none\n\
         line 13 is unreadable: no number but 0 begins with a zero\n\
         line 15 is unreadable: the form of such a line is ROLE pick PEER, with one space between two words\n",
        0,
    ),
    Row(
        &["mps_tool", "run", "relay", "scrawl", "--strict"],
        1000,
        "refused line\n",
        "refused at line 1\n",
        1,
    ),
    Row(
        &["mps_tool", "-v", "run", "relay", "scribble"],
        1000,
        "refused line\nrefused line\nrefused line\nrefused line\nrefused line\nrefused line\nrefused line\n\
         refused line\nrefused line\nrefused line\n",
        "line 1 is unreadable: it has two spaces in a row, and between two words is one\n\
         line 2 is unreadable: after the role comes a command\n\
         line 3 is unreadable: a number stands before the command, and a script's lines have none\n\
         line 4 is unreadable: a reserved word is no name\n\
         line 5 is unreadable: the form of such a line is ROLE choose PEER LABEL, with one space between two words\n\
         line 6 is unreadable: names are of small letters, digits and `_`, with a letter first\n\
         line 7 is unreadable: the form of such a line is ROLE commit, with one space between two words\n\
         line 8 is unreadable: no number but 0 begins with a zero\n\
         line 9 is unreadable: a `\"` is missing at the end of the text\n\
         line 10 is unreadable: it has a tab, and between two words is one space\n",
        0,
    ),
    // a strict run tells of no line after that with which it ends
    Row(
        &["mps_tool", "-v", "run", "relay", "scribble", "--strict"],
        1000,
        "refused line\n",
        "refused at line 1\n",
        1,
    ),
];

// A text and a truth value, as they are received, and as types name their sorts.
const GREETINGS: &[Row] = &[
    Row(
        &["mps_tool", "run", "greeting", "words"],
        1000,
        "done 1\ndone 2 \"good day\"\ndone 3\ndone 4 true\n",
        "",
        0,
    ),
    Row(
        &["mps_tool", "check", "greeting"],
        1000,
        "a : send b text . recv b bool . end\nb : recv a text . send a bool . end\n",
        "",
        0,
    ),
];

// Both words for the version, which is that of Cargo.toml in bindings/rust.
const VERSIONS: &[Row] = &[
    Row(&["mps_tool", "--version"], 1000, "mps_tool 0.2.0\n", "", 0),
    Row(&["mps_tool", "-V"], 1000, "mps_tool 0.2.0\n", "", 0),
];

const CHECKS: &[Row] = &[
    // types of a loop; output that can't be written; types of a choice
    Row(
        &["mps_tool", "check", "loop"],
        1000,
        "a : rec X . send b int . X\nb : rec X . recv a int . X\n",
        "",
        0,
    ),
    Row(&["mps_tool", "check", "loop"], 8, "", "refused write\n", 4),
    Row(
        &["mps_tool", "check", "choice"],
        1000,
        "a : choose b { l : end , r : end }\nb : pick a { l : end , r : end }\n",
        "",
        0,
    ),
    // a text without a token; a file that isn't there
    Row(
        &["mps_tool", "check", "empty"],
        1000,
        "",
        "refused text unexpected 0\n",
        3,
    ),
    Row(
        &["mps_tool", "check", "no file"],
        1000,
        "",
        "refused file no file\n",
        2,
    ),
];

// A role that takes no part in a choice, and is told of the branch by a label of its own.
const MERGED: &[Row] = &[
    Row(
        &["mps_tool", "check", "told"],
        1000,
        "",
        "refused projection c 0\n",
        3,
    ),
    Row(
        &["mps_tool", "check", "--merging", "plain", "told"],
        1000,
        "",
        "refused projection c 0\n",
        3,
    ),
    Row(
        &["mps_tool", "check", "--merging", "full", "told"],
        1000,
        "a : choose b { l : choose c { x : end } , r : choose c { y : end } }\n\
        b : pick a { l : end , r : end }\nc : pick a { x : end , y : end }\n",
        "",
        0,
    ),
    Row(
        &["mps_tool", "run", "--merging=full", "told", "telling"],
        1000,
        "done 1\ndone 2\ndone 3 x\ndone 4 l\n",
        "",
        0,
    ),
    Row(
        &[
            "mps_tool",
            "same",
            "told",
            "telling",
            "telling",
            "--merging",
            "full",
        ],
        1000,
        "same\n",
        "",
        0,
    ),
    Row(
        &["mps_tool", "same", "told", "telling", "telling"],
        1000,
        "",
        "refused projection c 0\n",
        3,
    ),
    // what no kind of merging gives a type
    Row(
        &["mps_tool", "run", "--merging=full", "unmergeable", "script"],
        1000,
        "",
        "refused projection c 0\n",
        3,
    ),
];

// Does what the words say, on a machine without a network.
fn obeyed<'a, R: Files + Input + AllocGlobal + Print + Eprint>(
    rt: &R,
    words: &'a [&'a str],
) -> Result<u8, ToolFault<'a>> {
    match order(rt.alloc(), words)? {
        Order::Offline { task, verbose } => carry_out(rt, task, verbose),
        Order::Serve { .. } | Order::Host { .. } => Err(ToolFault::Bind { why: None }),
    }
}

// What the program prints and tells where it is called with these words, and how it ends.
fn called(alloc: Global, words: &[&str], room: usize) -> (Vec<u8>, Vec<u8>, ExitCode) {
    let machine = Machine::new(alloc, FILES, room);
    let status = end_after(&machine, obeyed(&machine, words));
    let (printed, told) = machine.output();
    (printed, told, status)
}

// Each call prints, tells and ends as its row says.
fn plays(rt: &impl Abort, alloc: Global, rows: &[Row]) {
    for Row(words, room, out, err, code) in rows {
        let (printed, told, status) = called(alloc, words, *room);
        assert_eq!(rt; printed.as_slice(), out.as_bytes(), "what {words:?} prints");
        assert_eq!(rt; told.as_slice(), err.as_bytes(), "what {words:?} tells");
        assert!(rt;
            status == ExitCode::from(*code),
            "{words:?} ends with {code}"
        );
    }
}

// `mps_tool run` prints the answers, or tells one line of what went wrong, with its status.
#[test]
fn run_prints_the_answers_or_one_line_of_the_fault(rt: HostRuntime) {
    plays(&rt, rt.alloc(), RUNS)
}

// `mps_tool run --strict` ends with the first refused line, and with status 1 then.
#[test]
fn a_strict_run_ends_with_the_first_refused_line(rt: HostRuntime) {
    plays(&rt, rt.alloc(), STRICT)
}

// `mps_tool run` answers each line, refused ones too, in order: of a loop with a choice, of a choice without a loop,
// and of a loop without a choice.
#[test]
fn run_answers_each_line_of_loops_and_choices(rt: HostRuntime) {
    plays(&rt, rt.alloc(), LOOPS_AND_CHOICES)
}

// `mps_tool run` answers a rollback, and an undo in a last line without an LF.
#[test]
fn run_answers_a_rollback_and_an_undo(rt: HostRuntime) {
    plays(&rt, rt.alloc(), TAKEN_BACK)
}

// `mps_tool same` prints `same` or `different`, with status 0 or 1, or tells what went wrong.
#[test]
fn same_prints_whether_two_scripts_are_the_same(rt: HostRuntime) {
    plays(&rt, rt.alloc(), COMPARISONS)
}

// `mps_tool -v` tells the system's reason, and the lines that were refused, beside the fault's own line.
#[test]
fn a_verbose_call_tells_the_reason_beside_the_fault(rt: HostRuntime) {
    plays(&rt, rt.alloc(), VERBOSE)
}

// `mps_tool -v run` tells the number of each unreadable line, and why. A strict run tells no more than its last line.
#[test]
fn a_verbose_run_tells_why_a_line_is_unreadable(rt: HostRuntime) {
    plays(&rt, rt.alloc(), UNREADABLE)
}

// `mps_tool run` and `check` write texts and truth values, and their sorts.
#[test]
fn texts_and_truth_values_are_written_as_they_are_sent(rt: HostRuntime) {
    plays(&rt, rt.alloc(), GREETINGS)
}

// `mps_tool check`, `run` and `same` merge fully where `--merging full` is given, and plainly where not.
#[test]
fn branches_are_merged_as_the_option_says(rt: HostRuntime) {
    plays(&rt, rt.alloc(), MERGED)
}

// `mps_tool --version` and `-V` print it, with status 0.
#[test]
fn version_is_printed_with_status_0(rt: HostRuntime) {
    plays(&rt, rt.alloc(), VERSIONS)
}

// `mps_tool check` prints a line for each role, or tells the fault, with its status.
#[test]
fn check_prints_the_type_of_each_role_or_the_fault(rt: HostRuntime) {
    plays(&rt, rt.alloc(), CHECKS)
}

// Whether the program ends with this status after the fault, and tells this line alone.
fn ends_with(alloc: Global, fault: ToolFault<'_>, line: &str, code: u8) -> bool {
    let machine = Machine::new(alloc, FILES, 1000);
    let status = end_after(&machine, Err(fault));
    let (printed, told) = machine.output();
    printed.is_empty() && told.as_slice() == line.as_bytes() && status == ExitCode::from(code)
}

// `mps_program::end_after` tells why a server ended, here that nothing can be accepted, or that session 2 is lost. The
// status is 4.
#[test]
fn the_fault_that_ends_a_server_is_told_with_status_4(rt: HostRuntime) {
    let alloc = rt.alloc();
    assert!(rt;
        ends_with(alloc, ToolFault::Accept, "refused accept\n", 4),
        "nothing can be accepted"
    );
    assert!(rt;
        ends_with(alloc, ToolFault::Lost { session: 2 }, "refused lost 2\n", 4),
        "session 2 is lost"
    );
}

// `mps_words::order` refuses words that are none of the program's: nothing is printed, the standard error is told, the
// status is 2.
#[test]
fn words_of_no_command_are_told_with_status_2(rt: HostRuntime) {
    let (printed, told, status) = called(rt.alloc(), &["mps_tool", "fly"], 1000);
    assert_eq!(rt; printed.len(), 0, "the bytes that mps_tool fly prints");
    assert!(rt; told.ends_with(b"\n"), "mps_tool fly tells a line");
    assert!(rt; status == ExitCode::from(2), "mps_tool fly ends with 2");
}

// `mps_tool --help` prints how the program is used, tells no fault, and ends with 0.
#[test]
fn help_is_printed_with_status_0(rt: HostRuntime) {
    let (printed, told, status) = called(rt.alloc(), &["mps_tool", "--help"], 1000);
    assert!(rt; printed.ends_with(b"\n"), "mps_tool --help prints a line");
    assert_eq!(rt; told.len(), 0, "the bytes that mps_tool --help tells");
    assert!(rt; status == ExitCode::from(0), "mps_tool --help ends with 0");
}

// `mps_program::run_file` and `check_file` on one machine print one after the other.
#[test]
fn two_files_are_printed_one_after_the_other(rt: HostRuntime) {
    let machine = Machine::new(rt.alloc(), FILES, 1000);
    let relay = ProtocolFile {
        name: "relay",
        merging: Merging::Plain,
    };
    let done = run_file(&machine, relay, "script", false, false).is_ok()
        && check_file(&machine, relay).is_ok();
    let (printed, _) = machine.output();
    assert!(rt; done, "run_file and check_file find no fault");
    assert!(rt;
        printed.starts_with(b"done 1\n"),
        "what run_file prints comes first"
    );
    assert!(rt;
        printed.ends_with(b"c : recv b int . end\n"),
        "what check_file prints comes last"
    );
}
