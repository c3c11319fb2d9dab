//! mps_base: names, variables, values, numbers and roles are read exactly where they are spelled so; copies are equal.
use crate::words::name;
use mps_base::*;
use std::alloc::{AllocGlobal, Global};
use std::process::Abort;

// The value that the bytes spell.
fn value(rt: &(impl Abort + AllocGlobal), bytes: &[u8]) -> Value {
    Value::read(rt.alloc(), bytes).expect(rt, "a value")
}

// Whether the value is spelled so.
fn is_written(rt: &(impl Abort + AllocGlobal), value: &Value, text: &[u8]) -> bool {
    let mut bytes = Vec::new(rt.alloc());
    value.write(&mut bytes).expect(rt, "memory");
    bytes.as_slice() == text
}

// One letter, a digit and `_`, the most bytes (32), the front of a reserved word, and a digit at the end.
const NAMES: &[&str] = &["a", "a_1", "abcdefghijklmnopqrstuvwxyz_01234", "ends", "x0"];

// Bytes that are no name, each for one reason.
const NO_NAMES: &[&str] = &[
    // nothing; no small letter first; a byte that no name has
    "",
    "A",
    "1a",
    "_a",
    "a-b",
    "a b",
    // 33 bytes
    "abcdefghijklmnopqrstuvwxyz_012345",
    // the reserved words
    "roles",
    "rec",
    "end",
    "int",
    "bool",
    "text",
    "true",
    "false",
];

// `mps_base::Name::read` gives a name exactly where the bytes are one, and the name has these bytes.
#[test]
fn a_name_is_read_where_the_bytes_are_one(rt: HostRuntime) {
    for good in NAMES {
        let name = name(&rt, good);
        assert_eq!(rt;
            name.as_bytes(),
            good.as_bytes(),
            "the bytes of the name `{good}`"
        );
        assert!(rt; name.is(&name), "`{good}` is itself");
    }
    for bad in NO_NAMES {
        assert!(rt; Name::read(bad.as_bytes()).is_none(), "`{bad}` is no name");
    }
}

// One letter, a digit and `_`, the most bytes (32), and a word that is reserved in small letters.
const VARIABLES: &[&str] = &["X", "A_1", "ABCDEFGHIJKLMNOPQRSTUVWXYZ_01234", "END"];

// Bytes that are no variable, each for one reason.
const NO_VARIABLES: &[&str] = &[
    // nothing; no capital first; a byte that no variable has
    "",
    "x",
    "Xy",
    "1A",
    "_A",
    "A-B",
    "A B",
    // a reserved word; 33 bytes
    "end",
    "ABCDEFGHIJKLMNOPQRSTUVWXYZ_012345",
];

// `mps_base::VarName::read` gives a variable exactly where the bytes are one, and the variable has these bytes.
#[test]
fn a_variable_is_read_where_the_bytes_are_one(rt: HostRuntime) {
    for good in VARIABLES {
        let variable = VarName::read(good.as_bytes()).expect(&rt, "a variable");
        assert_eq!(rt;
            variable.as_bytes(),
            good.as_bytes(),
            "the bytes of the variable `{good}`"
        );
        assert!(rt; variable.is(&variable), "`{good}` is itself");
    }
    for bad in NO_VARIABLES {
        assert!(rt;
            VarName::read(bad.as_bytes()).is_none(),
            "`{bad}` is no variable"
        );
    }
}

// Values as they are spelled.
const VALUES: &[&str] = &[
    // ints, the greatest and the least (2^63 - 1 and -2^63) among them
    "0",
    "7",
    "-1",
    "9223372036854775807",
    "-9223372036854775808",
    // truth values
    "true",
    "false",
    // texts: of no bytes, with a space, with the last byte that a text may have
    "\"\"",
    "\"good day\"",
    "\"~!0\"",
];

// Bytes that spell no value.
const NO_VALUES: &[&str] = &[
    // no int: no digit, a sign or a zero too many, a blank, one past the greatest and the least
    "",
    "-",
    "-0",
    "+5",
    "007",
    "-01",
    "1 ",
    "9223372036854775808",
    "-9223372036854775809",
    // no truth value
    "True",
    "truer",
    // no text: a quote is missing, or a byte stands in it that no text has
    "\"",
    "\"open",
    "\"a\"b\"",
    "\"a\\b\"",
    "\"tab\t\"",
    "\"\u{e9}\"",
    // a name is no value
    "name",
];

// Whether the text is that of a value and of its copy.
fn is_spelled(rt: &(impl Abort + AllocGlobal), text: &[u8]) -> bool {
    let value = value(rt, text);
    let copied = value.copy(rt.alloc()).expect(rt, "memory");
    is_written(rt, &value, text) && is_written(rt, &copied, text)
}

// Whether the text is no value's.
fn is_no_value(alloc: Global, text: &[u8]) -> bool {
    matches!(Value::read(alloc, text), Err(ValueFault::Bad))
}

// `mps_base::Value::read` gives a value exactly where the bytes spell one. `write` gives the same bytes, of a copy too.
#[test]
fn a_value_is_read_and_written_as_it_is_spelled(rt: HostRuntime) {
    for text in VALUES {
        assert!(rt; is_spelled(&rt, text.as_bytes()), "the value `{text}`");
    }
    for text in NO_VALUES {
        assert!(rt;
            is_no_value(rt.alloc(), text.as_bytes()),
            "`{text}` is no value"
        );
    }
}

// So many letters between quotes.
fn quoted(rt: &(impl Abort + AllocGlobal), count: usize) -> Vec<u8> {
    let mut quoted = vec![in rt.alloc(); b'x'; count].expect(rt, "memory");
    quoted.insert(0, b'"').expect(rt, "memory");
    quoted.push(b'"').expect(rt, "memory");
    quoted
}

// The text of so many letters, if they are few enough.
fn text_of(rt: &(impl Abort + AllocGlobal), count: usize) -> Option<Text> {
    Text::new(vec![in rt.alloc(); b'x'; count].expect(rt, "memory"))
}

// `mps_base::Value::read` and `Text::new` make no text of 257 bytes; of 256, the most, there is one, and a copy.
#[test]
fn a_text_has_at_most_256_bytes(rt: HostRuntime) {
    assert!(rt;
        is_no_value(rt.alloc(), &quoted(&rt, 257)),
        "no value of 257 bytes"
    );
    let text = text_of(&rt, 256).expect(&rt, "a text");
    let copied = text.copy(rt.alloc()).expect(&rt, "memory");
    assert_eq!(rt; copied.as_bytes().len(), 256, "the copy of 256 bytes");
    assert!(rt; text_of(&rt, 257).is_none(), "no text of 257 bytes");
}

// `mps_base::Value::read`: each text of 0 to 256 letters, in quotes, is read, and written and copied as it was read.
#[test]
fn a_text_of_each_length_is_read_and_written(rt: HostRuntime) {
    for count in 0..257 {
        assert!(rt;
            is_spelled(&rt, &quoted(&rt, count)),
            "a text of {count} letters"
        );
    }
}

// A value and its sort. In quotes `true` is a text.
const SORTS: &[(&str, Sort)] = &[
    ("5", Sort::Int),
    ("true", Sort::Bool),
    ("\"true\"", Sort::Text),
];

// Whether the value is of the sort.
fn is_of(value: &Value, sort: Sort) -> bool {
    value.sort() == sort && value.fits(sort)
}

// `mps_base::Value::sort` and `Value::fits`: a value is of its own sort, and an int does not fit bool.
#[test]
fn a_value_fits_its_own_sort(rt: HostRuntime) {
    for (text, sort) in SORTS {
        assert!(rt;
            is_of(&value(&rt, text.as_bytes()), *sort),
            "the sort of `{text}`"
        );
    }
    assert!(rt; !Value::Int(1).fits(Sort::Bool), "an int is no bool");
}

// The least number, one more, and the greatest, 2^64 - 1.
const NUMBERS: &[(&str, u64)] = &[("0", 0), ("1", 1), ("18446744073709551615", u64::MAX)];

// No digit, a sign, a zero too many, a letter, and 2^64.
const NO_NUMBERS: &[&str] = &["", "-1", "+1", "01", "00", "1a", "18446744073709551616"];

// Whether the text is that of the number.
fn is_number_text(rt: &(impl Abort + AllocGlobal), text: &[u8], number: u64) -> bool {
    let mut out = Vec::from_slice(rt.alloc(), b"#").expect(rt, "memory");
    write_number(number, &mut out).expect(rt, "memory");
    read_number(text) == Some(number) && out.as_slice().get(1..) == Some(text)
}

// `mps_base::read_number` reads just the numbers below 2^64, in one spelling each. `write_number` appends it, here
// after a `#`.
#[test]
fn a_number_below_2_to_the_64_is_read_and_written(rt: HostRuntime) {
    for (text, number) in NUMBERS {
        assert!(rt;
            is_number_text(&rt, text.as_bytes(), *number),
            "the number `{text}`"
        );
    }
    for bad in NO_NUMBERS {
        assert_eq!(rt; read_number(bad.as_bytes()), None, "`{bad}` is no number");
    }
}

// Nine names, one more than there may be roles.
const LETTERS: &[&str] = &["a", "b", "c", "d", "e", "f", "g", "h", "i"];

// So many names, from a on.
fn letters(rt: &(impl Abort + AllocGlobal), count: usize) -> Vec<Name> {
    let mut names = Vec::new(rt.alloc());
    for text in LETTERS.iter().take(count) {
        names.push(name(rt, text)).expect(rt, "memory");
    }
    names
}

// How many roles a copy of the roles of so many names has, or why these are none.
fn counted(rt: &(impl Abort + AllocGlobal), count: usize) -> Result<usize, RoleFault> {
    match Roles::of(rt.alloc(), &letters(rt, count)) {
        Ok(roles) => Ok(roles.copy(rt.alloc()).expect(rt, "memory").count()),
        Err(fault) => Err(fault),
    }
}

// Whether the role at the place is found by its name and has it.
fn is_found(roles: &Roles, name: &Name, place: usize) -> bool {
    match roles.find(name) {
        Some(role) => role.index() == place && roles.name(role) == *name,
        None => false,
    }
}

// How many names there are, and how many roles they make, or the fault: roles are 2 to 8.
const COUNTS: &[(usize, Result<usize, RoleFault>)] = &[
    (0, Err(RoleFault::RoleCount)),
    (1, Err(RoleFault::RoleCount)),
    (2, Ok(2)),
    (8, Ok(8)),
    (9, Err(RoleFault::RoleCount)),
];

// Whether two of three roles with one name are refused.
fn is_double(rt: &(impl Abort + AllocGlobal)) -> bool {
    let (a, b) = (name(rt, "a"), name(rt, "b"));
    matches!(
        Roles::of(rt.alloc(), &[a, b, a]),
        Err(RoleFault::DoubleRole)
    )
}

// `mps_base::Roles::of` takes 2 to 8 names, all of them different, and a copy has as many.
#[test]
fn two_to_eight_different_names_are_roles(rt: HostRuntime) {
    for (names, wanted) in COUNTS {
        assert_eq!(rt; counted(&rt, *names), *wanted, "{names} names");
    }
    assert!(rt; is_double(&rt), "a name twice");
}

// The roles a, b and c.
fn three(rt: &(impl Abort + AllocGlobal)) -> Roles {
    Roles::of(rt.alloc(), &letters(rt, 3)).expect(rt, "roles")
}

// Not the name of any of a, b and c: nothing, another name, a capital, more letters, a reserved word.
const NO_ROLES: &[&[u8]] = &[b"", b"d", b"C", b"cc", b"end"];

// `mps_base::Roles::find` and `find_spelled` give the role of that name, here c at place 2, and none where no role has
// it.
#[test]
fn a_role_is_found_by_its_name(rt: HostRuntime) {
    let roles = three(&rt);
    let (c, d) = (name(&rt, "c"), name(&rt, "d"));
    assert!(rt;
        is_found(&roles, &c, 2) && roles.find(&d).is_none(),
        "c is found at place 2, and d is not"
    );
    assert_eq!(rt;
        roles.find_spelled(b"c"),
        roles.find(&c),
        "c is found as it is spelled"
    );
    for bytes in NO_ROLES {
        assert!(rt; roles.find_spelled(bytes).is_none(), "{bytes:?} is no role");
    }
}

// How the step is shown.
fn shown(rt: &(impl Abort + AllocGlobal), step: &Step) -> String {
    format!(in rt.alloc(); "{step:?}").expect(rt, "memory")
}

// Whether the step and its copy are shown alike.
fn is_copied(rt: &(impl Abort + AllocGlobal), step: &Step) -> bool {
    let copied = step.copy(rt.alloc()).expect(rt, "memory");
    shown(rt, step).as_str() == shown(rt, &copied).as_str()
}

// A step of this act and its copy are shown alike.
fn copies(rt: &(impl Abort + AllocGlobal), act: Act) {
    let (id, role) = (StepId::new(4), Role::new(2));
    assert!(rt; is_copied(rt, &Step { id, role, act }), "the copied step");
}

// `mps_base::Step::copy` gives an equal step, whatever its act: an output, an input, a mark, a commit. Its numbers
// stand for any.
#[test]
fn a_copied_step_is_equal(rt: HostRuntime) {
    let label = name(&rt, "yes");
    let message = Message::Value(value(&rt, b"\"good day\""));
    let to = Role::new(1);
    copies(&rt, Act::Out { to, message });
    let from = Role::new(0);
    let slot = Some(label);
    copies(&rt, Act::In { from, slot });
    copies(&rt, Act::Mark(label));
    copies(&rt, Act::Commit);
}

// Whether the message is this number.
fn is_number(message: &Message, number: i64) -> bool {
    match message {
        Message::Value(Value::Int(found)) => *found == number,
        _ => false,
    }
}

// Whether the message is this label.
fn is_label(message: &Message, label: &Name) -> bool {
    match message {
        Message::Label(found) => found.is(label),
        Message::Value(_) => false,
    }
}

// A copy of the message.
fn copy_of(rt: &(impl Abort + AllocGlobal), message: &Message) -> Message {
    message.copy(rt.alloc()).expect(rt, "memory")
}

// `mps_base::Message::copy` gives an equal message: two ints, which stand for any, and a label.
#[test]
fn a_copied_message_is_equal(rt: HostRuntime) {
    for number in [5, 7] {
        let copied = copy_of(&rt, &Message::Value(Value::Int(number)));
        assert!(rt; is_number(&copied, number), "the copy of {number}");
    }
    let label = name(&rt, "yes");
    assert!(rt;
        is_label(&copy_of(&rt, &Message::Label(label)), &label),
        "the copied label"
    );
}

// Whether the name of this letter is a role's at the place.
fn is_at(rt: &impl Abort, roles: &Roles, text: &str, place: usize) -> bool {
    let name = name(rt, text);
    let again = name;
    is_found(roles, &name, place) && again.is(&name) && again.as_bytes() == text.as_bytes()
}

// `mps_base::Roles::copy` has a, b and c at the places 0, 1 and 2.
#[test]
fn copied_roles_keep_their_places(rt: HostRuntime) {
    let copied = three(&rt).copy(rt.alloc()).expect(&rt, "memory");
    assert_eq!(rt; copied.count(), 3, "three roles");
    for (letter, place) in LETTERS.iter().take(3).zip(0..) {
        assert!(rt;
            is_at(&rt, &copied, letter, place),
            "the place of `{letter}`"
        );
    }
}

// Puts the token after the text.
fn put(rt: &impl Abort, text: &mut Vec<u8>, token: &[u8]) {
    push_token(text, token).expect(rt, "memory");
}

// `mps_base::push_token` puts one space between two tokens, and none before the first. The law
// `spacing::written_spaced` says so of all tokens, where the first isn't empty; its call does nothing: it shows that
// others can call it so.
#[test]
fn one_space_stands_between_two_tokens(rt: HostRuntime) {
    let mut text = Vec::new(rt.alloc());
    put(&rt, &mut text, b"a");
    put(&rt, &mut text, b"->");
    put(&rt, &mut text, b"b");
    assert_eq!(rt;
        text.as_slice(),
        b"a -> b".as_slice(),
        "what a, -> and b give: a -> b"
    );
    spacing::written_spaced();
}
