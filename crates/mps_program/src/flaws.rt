//! Why a script's line spells no command. `./mps explain` says the same of each flaw, and more (tools/unreadable.py).
ghost use Rattle.std.specs.Prelude.{◌≡◌};

use mps_base::{Name, Roles, read_number};
use mps_line::{LineFault, read_script_line};
use mps_lines::Line;
use mps_wire::may_ask;
use std::alloc::Global;

// How many bytes a text has at most.
const LONGEST_TEXT: usize = 256;

// How many bytes a name has at most.
const LONGEST_NAME: usize = 32;

const COMMENT: &str = "it looks like a comment, and a script has none";

const SPACE_AT_END: &str = "it ends with a space";

const TWO_SPACES: &str = "it has two spaces in a row, and between two words is one";

// A word that comes after a verb.
#[derive(Clone, Copy)]
enum Part {
    Peer,
    Name,
    Number,
    Value,
}

// A verb, the words that come after it, and what is said of a line where one is missing or too many.
struct Form {
    verb: &'static [u8],
    parts: &'static [Part],
    told: &'static str,
}

const FORMS: &[Form] = &[
    Form {
        verb: b"send",
        parts: &[Part::Peer, Part::Value],
        told: "the form of such a line is ROLE send PEER VALUE, with one space between two words",
    },
    Form {
        verb: b"recv",
        parts: &[Part::Peer, Part::Name],
        told: "the form of such a line is ROLE recv PEER SLOT, with one space between two words",
    },
    Form {
        verb: b"choose",
        parts: &[Part::Peer, Part::Name],
        told: "the form of such a line is ROLE choose PEER LABEL, with one space between two words",
    },
    Form {
        verb: b"pick",
        parts: &[Part::Peer],
        told: "the form of such a line is ROLE pick PEER, with one space between two words",
    },
    Form {
        verb: b"mark",
        parts: &[Part::Name],
        told: "the form of such a line is ROLE mark NAME, with one space between two words",
    },
    Form {
        verb: b"commit",
        parts: &[],
        told: "the form of such a line is ROLE commit, with one space between two words",
    },
    Form {
        verb: b"undo",
        parts: &[Part::Number],
        told: "the form of such a line is ROLE undo NUMBER, with one space between two words",
    },
    Form {
        verb: b"rollback",
        parts: &[Part::Number],
        told: "the form of such a line is ROLE rollback NUMBER, with one space between two words",
    },
    Form {
        verb: b"back",
        parts: &[Part::Name],
        told: "the form of such a line is ROLE back NAME, with one space between two words",
    },
    Form {
        verb: b"news",
        parts: &[Part::Number],
        told: "the form of such a line is ROLE news NUMBER, with one space between two words",
    },
    Form {
        verb: b"show",
        parts: &[],
        told: "the form of such a line is ROLE show, with one space between two words",
    },
];

/// Why the line spells no command of one of the roles; none where it spells one, or there is no memory to read it.
pub(crate) fn flaw_of(alloc: Global, roles: &Roles, line: &Line) -> Option<&'static str> {
    match line {
        Line::TooLong => Some("a line has 512 bytes at most"),
        Line::NotAscii => Some("all bytes of a line are ASCII, 127 at most"),
        Line::Text(bytes) => match read_script_line(alloc, roles, bytes.as_slice()) {
            Ok((_, command)) if may_ask(false, &command) => None,
            Err(LineFault::Memory) => None,
            _ => Some(reason(roles, bytes.as_slice())),
        },
    }
}

// Why the line is no command: first what its bytes tell, then what its words do, from the left.
fn reason(roles: &Roles, line: &[u8]) -> &'static str {
    match flaw_of_bytes(line) {
        Some(why) => why,
        None => flaw_of_words(roles, line),
    }
}

// Whether the bytes begin as comments do in other languages.
fn begins_comment(bytes: &[u8]) -> bool {
    match bytes {
        [b'#' | b';' | b'%', ..] => true,
        [b'/', b'/', ..] => true,
        [b'-', b'-', ..] => true,
        _ => false,
    }
}

// What is wrong with the bytes, if that can be told without the words.
fn flaw_of_bytes(line: &[u8]) -> Option<&'static str> {
    if line.is_empty() {
        return Some("it is empty");
    }
    if begins_comment(line) {
        return Some(COMMENT);
    }
    match line.iter().position(|&byte| byte < b' ' || byte > b'~') {
        Some(k) => Some(flaw_of_byte(&line[k..])),
        None => None,
    }
}

// Why no line has the first of these bytes, which are the rest of a line.
fn flaw_of_byte(rest: &[u8]) -> &'static str {
    match rest {
        [b'\r'] => {
            "it ends with a carriage return, and lines end with LF alone, not with CR and LF"
        }
        [b'\t', ..] => "it has a tab, and between two words is one space",
        _ => "it has a control character",
    }
}

// The first word, and what comes after it, beginning with the space. Where there is no space, all is the word.
fn first_word(line: &[u8]) -> (&[u8], &[u8]) {
    match line.iter().position(|&byte| byte == b' ') {
        Some(k) => (&line[..k], &line[k..]),
        None => (line, &[]),
    }
}

// What comes after the first byte, which is a space where there is one.
fn past_space(bytes: &[u8]) -> &[u8] {
    match bytes {
        [_, rest @ ..] => rest,
        [] => &[],
    }
}

// Whether the bytes are digits, one at least.
fn are_digits(bytes: &[u8]) -> bool {
    !bytes.is_empty()
        && bytes
            .iter()
            .position(|byte| !byte.is_ascii_digit())
            .is_none()
}

// What is wrong with the words of a line that spells no command, found from the left.
fn flaw_of_words(roles: &Roles, line: &[u8]) -> &'static str {
    let (name, after) = first_word(line);
    if roles.find_spelled(name).is_none() {
        return flaw_of_role(name);
    }
    let rest = past_space(after);
    let (verb, left) = first_word(rest);
    for form in FORMS {
        if form.verb == verb {
            return flaw_of_parts(roles, form, left);
        }
    }
    flaw_of_verb(rest, verb)
}

// Why a line can't begin with this word, which is no role's name.
fn flaw_of_role(name: &[u8]) -> &'static str {
    if name.is_empty() {
        return "it begins with a space, and a line begins with its role";
    }
    if are_digits(name) {
        return "it begins with a number, and a script's lines have none";
    }
    "its first word is no role of the protocol"
}

// Why what comes after the role is no command. `verb` is the first word of it.
fn flaw_of_verb(rest: &[u8], verb: &[u8]) -> &'static str {
    if rest.starts_with(b" ") {
        return TWO_SPACES;
    }
    if are_digits(verb) {
        return "a number stands before the command, and a script's lines have none";
    }
    "after the role comes a command"
}

// What is wrong with what is left after the verb, word by word; the form of such a line, where nothing else is found.
fn flaw_of_parts(roles: &Roles, form: &Form, left: &[u8]) -> &'static str {
    let mut left = left;
    for part in form.parts {
        if left.is_empty() {
            return form.told;
        }
        let rest = past_space(left);
        if let Some(why) = flaw_of_blank(rest) {
            return why;
        }
        let (word, after) = match part {
            Part::Value => (rest, b"".as_slice()),
            _ => first_word(rest),
        };
        if let Some(why) = flaw_of_part(roles, *part, word) {
            return why;
        }
        left = after;
    }
    needless(left).unwrap_or(form.told)
}

// What is wrong where a word begins, if it begins with a space or the line ends there.
fn flaw_of_blank(rest: &[u8]) -> Option<&'static str> {
    match rest.iter().position(|&byte| byte != b' ') {
        None => Some(SPACE_AT_END),
        Some(0) => None,
        Some(_) => Some(TWO_SPACES),
    }
}

// What is wrong with what is left at the end of a line, if it is spaces alone or a comment.
fn needless(left: &[u8]) -> Option<&'static str> {
    match left.iter().position(|&byte| byte != b' ') {
        None => Some(SPACE_AT_END),
        Some(k) if begins_comment(&left[k..]) => Some(COMMENT),
        Some(_) => None,
    }
}

// What is wrong with a word in the place of that part, if something is.
fn flaw_of_part(roles: &Roles, part: Part, word: &[u8]) -> Option<&'static str> {
    match part {
        Part::Peer if roles.find_spelled(word).is_some() => None,
        Part::Peer => Some("the peer is no role of the protocol"),
        Part::Name => flaw_of_name(word),
        Part::Number => flaw_of_number(word),
        Part::Value => flaw_of_value(word),
    }
}

// The front of the word, of as many bytes as a name may have.
fn longest_front(word: &[u8]) -> &[u8] {
    &word[..word.len().min(LONGEST_NAME)]
}

// What is wrong with a slot, a label or the name of a mark, if something is.
fn flaw_of_name(word: &[u8]) -> Option<&'static str> {
    if Name::read(word).is_some() {
        return None;
    }
    if is_reserved(word) {
        return Some("a reserved word is no name");
    }
    if Name::read(longest_front(word)).is_some() {
        return Some("names have 32 letters at most");
    }
    Some("names are of small letters, digits and `_`, with a letter first")
}

// Whether the word is reserved: no name is spelled so, though its letters are those of names.
fn is_reserved(word: &[u8]) -> bool {
    match word {
        b"roles" | b"rec" | b"end" | b"int" | b"bool" | b"text" | b"true" | b"false" => true,
        _ => false,
    }
}

// What is wrong with a number, if something is.
fn flaw_of_number(word: &[u8]) -> Option<&'static str> {
    if !are_digits(word) {
        return Some("a number has nothing but digits");
    }
    if word.len() > 1 && word.starts_with(b"0") {
        return Some("no number but 0 begins with a zero");
    }
    if read_number(word).is_none() {
        return Some("the greatest number is 18446744073709551615");
    }
    None
}

// What is wrong with the value that is sent, if something is. All that comes after it in the line is given too.
fn flaw_of_value(rest: &[u8]) -> Option<&'static str> {
    if let Some(text) = rest.strip_prefix(b"\"") {
        return flaw_of_text(text);
    }
    let (word, after) = first_word(rest);
    if !after.is_empty() {
        return Some(flaw_after_value(after));
    }
    let digits = word.strip_prefix(b"-").unwrap_or(word);
    if are_digits(digits) {
        return Some(flaw_of_int(word, digits));
    }
    if word == b"true".as_slice() || word == b"false".as_slice() {
        return None;
    }
    Some("a value is an int such as -5, `true` or `false`, or a text in double quotes")
}

// Why these digits, which may stand behind a `-`, are no int.
fn flaw_of_int(word: &[u8], digits: &[u8]) -> &'static str {
    if word == b"-0".as_slice() || (digits.len() > 1 && digits.starts_with(b"0")) {
        return "no int but 0 begins with a zero";
    }
    "an int is from -9223372036854775808 to 9223372036854775807"
}

// Why what comes after a value, beginning with a space, may not stand there.
fn flaw_after_value(after: &[u8]) -> &'static str {
    needless(after).unwrap_or(
        "nothing comes after a value: a text of several words stands in double quotes",
    )
}

// What is wrong with a text whose first quote was read, if something is. All that comes after it in the line is given
// too.
fn flaw_of_text(text: &[u8]) -> Option<&'static str> {
    let (inside, after) = match text.iter().position(|&byte| byte == b'"') {
        Some(k) => (&text[..k], Some(&text[k + 1..])),
        None => (text, None),
    };
    if inside.contains(&b'\\') {
        return Some("a `\\` stands in the text, and a text has none");
    }
    let Some(after) = after else {
        return Some("a `\"` is missing at the end of the text");
    };
    if after.ends_with(b"\"") {
        return Some("a `\"` stands in the text, and a text has none");
    }
    if !after.is_empty() {
        return Some(flaw_after_value(after));
    }
    if inside.len() > LONGEST_TEXT {
        return Some("a text has 256 bytes at most");
    }
    None
}
