//! mps_text: a text is read as its protocol, or its first fault is named with its byte; what is written is read again.
use crate::words::name;
use mps_base::{Sort, VarName};
use mps_global::{Branches, Global, Protocol, check};
use mps_text::{
    MAX_TEXT_BYTES, TextFault, TextKind, first_tokens, one_fault, one_protocol, protocol_or_fault,
    read_protocol, write_protocol, written_reads,
};
use std::alloc::AllocGlobal;
use std::process::Abort;

// The kind of a fault, and the byte at which it begins.
type Fault = (TextKind, usize);

// A text, and that byte of its fault.
type Row = (&'static [u8], usize);

// The text has that fault, or is read as a protocol where none is given.
fn has_fault(rt: &(impl Abort + AllocGlobal), text: &[u8], wanted: Option<Fault>) {
    let fault = read_protocol(rt.alloc(), text).err();
    let shown = String::from_utf8_lossy(rt.alloc(), text).expect(rt, "memory");
    assert_eq!(rt;
        fault.map(|fault| (fault.kind, fault.at)),
        wanted,
        "the fault of `{shown}`"
    );
}

// Each text has a fault of that kind, at its byte.
fn have_faults(rt: &(impl Abort + AllocGlobal), kind: TextKind, rows: &[Row]) {
    for row in rows {
        has_fault(rt, row.0, Some((kind, row.1)));
    }
}

// The protocol that the text says.
fn protocol(rt: &(impl Abort + AllocGlobal), text: &[u8]) -> Protocol {
    read_protocol(rt.alloc(), text).expect(rt, "a protocol")
}

// The bytes after those that are there.
fn add(rt: &impl Abort, text: &mut Vec<u8>, bytes: &[u8]) {
    text.extend_from_slice(bytes).expect(rt, "memory");
}

// So many times `a -> b : int . `, and the rest.
fn add_messages(rt: &impl Abort, text: &mut Vec<u8>, messages: usize, rest: &[u8]) {
    for _ in 0..messages {
        add(rt, text, b"a -> b : int . ");
    }
    add(rt, text, rest);
}

// `roles a b ; `, so many times `a -> b : int . `, and the rest.
fn chain(rt: &(impl Abort + AllocGlobal), messages: usize, rest: &[u8]) -> Vec<u8> {
    let mut text = Vec::new(rt.alloc());
    add(rt, &mut text, b"roles a b ; ");
    add_messages(rt, &mut text, messages, rest);
    text
}

// The labels of a choice with what stands around them: 7 bytes each up to `l9`.
const LABELS: &[&[u8]] = &[
    b"{ l1 : ",
    b", l2 : ",
    b", l3 : ",
    b", l4 : ",
    b", l5 : ",
    b", l6 : ",
    b", l7 : ",
    b", l8 : ",
    b", l9 : ",
    b", l10 : ",
    b", l11 : ",
    b", l12 : ",
    b", l13 : ",
    b", l14 : ",
    b", l15 : ",
    b", l16 : ",
    b", l17 : ",
];

// A choice of the labels `l1`, `l2` and so on, each with so many messages and then `end`.
fn choice(rt: &(impl Abort + AllocGlobal), branches: &[usize]) -> Vec<u8> {
    let mut text = Vec::new(rt.alloc());
    add(rt, &mut text, b"roles a b ; a -> b ");
    for (label, messages) in LABELS.iter().zip(branches) {
        add(rt, &mut text, label);
        add_messages(rt, &mut text, *messages, b"end ");
    }
    add(rt, &mut text, b"}");
    text
}

// Texts that spell a protocol within the limits; `check` may refuse it.
const PROTOCOLS: &[&[u8]] = &[
    // one space between two tokens, no blank where none is needed, each kind of blank
    b"roles a b ; end",
    b"roles a b;a->b:int.b->a:bool.a->b:text.end",
    b"\troles\r\na\tb\n;\r end\n",
    // the most roles, and the longest name
    b"roles a b c d e f g h ; end",
    b"roles abcdefghijklmnopqrstuvwxyz_01234 b ; end",
    // variables, also one without a `rec`
    b"roles a b ; X",
    b"roles a b;rec X.rec Y_2.X",
    // choices, also in one another; the longest label and the longest variable
    b"roles a b;a->b{l:end}",
    b"roles a b;a->b\n{\tabcdefghijklmnopqrstuvwxyz_01234:X,m:b->a{n:end,o:end}\r}",
    b"roles a b ; ABCDEFGHIJKLMNOPQRSTUVWXYZ_01234",
];

// `mps_text::read_protocol` reads these texts, which spell protocols. What a text is read as, the next two tests look
// at, of others.
#[test]
fn a_text_that_spells_a_protocol_is_read(rt: HostRuntime) {
    for text in PROTOCOLS {
        has_fault(&rt, text, None);
    }
}

// What stands after the message, if it is this one.
fn after_message<'a>(node: &'a Global, from: &[u8], to: &[u8], of: Sort) -> Option<&'a Global> {
    match node {
        Global::Message {
            sender,
            receiver,
            sort,
            next,
        } if sender.is_spelled(from) && receiver.is_spelled(to) && sort.is(of) => Some(next),
        _ => None,
    }
}

// `mps_text::read_protocol` reads the roles in order, and each message with its roles and its sort, down to the end.
#[test]
fn messages_are_read_in_order(rt: HostRuntime) {
    let protocol = protocol(&rt, b"roles a b c ; a -> b : int . b -> c : text . end");
    assert!(rt; check(&protocol).is_ok(), "a protocol without faults");
    let roles = [name(&rt, "a"), name(&rt, "b"), name(&rt, "c")];
    assert!(rt;
        protocol.roles.as_slice() == roles.as_slice(),
        "the roles in order"
    );
    // what stands after the first message, which is the second, and what stands after that
    let second = after_message(&protocol.body, b"a", b"b", Sort::Int);
    let last = after_message(second.expect(&rt, "a message"), b"b", b"c", Sort::Text);
    assert!(rt; matches!(last, Some(Global::End)), "the end comes last");
}

// The loop of the variable of these letters, if it is one.
fn body_of_loop<'a>(node: &'a Global, letters: &[u8]) -> Option<&'a Global> {
    match node {
        Global::Rec(bound, body) if bound.as_bytes() == letters => Some(body),
        _ => None,
    }
}

// The branches of the choice, if it is one of these roles.
fn branches_of<'a>(node: &'a Global, from: &[u8], to: &[u8]) -> Option<&'a Branches> {
    match node {
        Global::Choice {
            sender,
            receiver,
            branches,
        } if sender.is_spelled(from) && receiver.is_spelled(to) => Some(branches),
        _ => None,
    }
}

// What stands after the first label, and the other branches, if it is this label.
fn after_label<'a>(branches: &'a Branches, letters: &[u8]) -> Option<(&'a Global, &'a Branches)> {
    match branches {
        Branches::More {
            label,
            next,
            others,
        } if label.is_spelled(letters) => Some((next, others)),
        _ => None,
    }
}

// `mps_text::read_protocol` reads a `rec` with its variable, and the branches of a choice in order, each with what
// follows it.
#[test]
fn branches_and_loops_are_read_in_order(rt: HostRuntime) {
    let protocol = protocol(&rt, b"roles a b ; rec X . a -> b { go : X , stop : end }");
    assert!(rt; check(&protocol).is_ok(), "a protocol without faults");
    let body = body_of_loop(&protocol.body, b"X").expect(&rt, "a loop");
    let branches = branches_of(body, b"a", b"b").expect(&rt, "a choice");
    let (go, others) = after_label(branches, b"go").expect(&rt, "a branch");
    assert!(rt; matches!(go, Global::Var(_)), "go leads back to X");
    let (stop, others) = after_label(others, b"stop").expect(&rt, "a branch");
    assert!(rt;
        matches!((stop, others), (Global::End, Branches::NoMore)),
        "stop ends, and is the last branch"
    );
}

// Texts with a token that may not stand there, or that end where one is missing; and its byte, or the length.
const UNEXPECTED: &[Row] = &[
    // the first token, and the heading
    (b"", 0),
    (b" \n\t\r ", 5),
    (b"; end", 0),
    (b"rolesa b ; end", 0),
    (b"roles", 5),
    (b"roles a", 7),
    (b"roles a ; end", 8),
    (b"roles a end ; end", 8),
    (b"roles a true ; end", 8),
    (b"roles int b ; end", 6),
    (b"roles X b ; end", 6),
    (b"roles a b c d e f g h i ; end", 22),
    (b"roles a b , end", 10),
    // where a global type begins
    (b"roles a b ;", 11),
    (b"roles a b ; ;", 12),
    (b"roles a b ; int", 12),
    (b"roles a b ; roles", 12),
    (b"roles a b ; }", 12),
    // recursion
    (b"roles a b ; rec x . x", 16),
    (b"roles a b ; rec rec . end", 16),
    (b"roles a b ; rec X X", 18),
    (b"roles a b ; rec X .", 19),
    // messages
    (b"roles a b ; end2x", 17),
    (b"roles a b ; a : int . end", 14),
    (b"roles a b ; a -> : int . end", 17),
    (b"roles a b ; a -> X : int . end", 17),
    (b"roles a b ; a -> int : int . end", 17),
    (b"roles a b ; a -> b end", 19),
    (b"roles a b ; a -> b : bot . end", 21),
    (b"roles a b ; a -> b : X . end", 21),
    (b"roles a b ; a -> b : int end", 25),
    (b"roles a b ; a -> b : int .", 26),
    (b"roles a b ; a -> b : int . \n", 28),
    // branches
    (b"roles a b ; a -> b {", 20),
    (b"roles a b ; a -> b { }", 21),
    (b"roles a b ; a -> b { , l : end }", 21),
    (b"roles a b ; a -> b { end : end }", 21),
    (b"roles a b ; a -> b { L : end }", 21),
    (b"roles a b ; a -> b { l end }", 23),
    (b"roles a b ; a -> b { l : }", 25),
    (b"roles a b ; a -> b { l : end ; }", 29),
    (b"roles a b ; a -> b { l : end m : end }", 29),
    (b"roles a b ; a -> b { l : end , }", 31),
    (b"roles a b ; a -> b { l : end , int : end }", 31),
    (b"roles a b ; a -> b { l : a -> b : int }", 38),
    (b"roles a b ; a -> b { l : end , m : end", 38),
];

// `mps_text::read_protocol` names the first token that can't follow those before it, or the end, as Unexpected.
#[test]
fn a_missing_or_misplaced_token_is_unexpected(rt: HostRuntime) {
    have_faults(&rt, TextKind::Unexpected, UNEXPECTED);
}

// Texts with bytes that are no token, and the byte at which these begin.
const MALFORMED: &[Row] = &[
    // in the heading, and right after it
    (b"\0roles a b ; end", 0),
    (b"Roles a b ; end", 0),
    (b"roles _a b ; end", 6),
    (b"roles a \x80", 8),
    (b"roles\ta\tb\t;\r\n9", 13),
    // a name and a variable of 33 bytes, one more than they may have
    (b"roles abcdefghijklmnopqrstuvwxyz_012345 b ; end", 6),
    (b"roles ABCDEFGHIJKLMNOPQRSTUVWXYZ_012345 b ; end", 6),
    // in the global type
    (b"roles a b ; \"", 12),
    (b"roles a b ; Xx", 12),
    (b"roles a b ; a>b", 13),
    (b"roles a b ; a - b : int . end", 14),
    (b"roles a b ; a -", 14),
    (b"roles a b ; rec Xy . Xy", 16),
    (b"roles a b ; a -> Bc : int . end", 17),
    (b"roles a b;a->b:int.enD", 19),
    (b"roles a b ; a -> b { l-m : end }", 22),
    (b"roles a b ; a -> b { l : end , 2 : end }", 31),
    // after a whole protocol
    (b"roles a b ; end\x0b", 15),
    (b"roles a b ; end\xff", 15),
    (b"roles a b ; end 9x", 16),
    (b"roles a b ; a -> b { l : end } -", 31),
];

// `mps_text::read_protocol` names the first bytes that are no token as Word, also after a whole protocol.
#[test]
fn bytes_that_are_no_token_are_a_word(rt: HostRuntime) {
    have_faults(&rt, TextKind::Word, MALFORMED);
}

// Texts with a token after a whole protocol, and its byte.
const TRAILING: &[Row] = &[
    // after `end`
    (b"roles a b ; end end", 16),
    (b"roles a b ; end}", 15),
    (b"roles a b ; end .", 16),
    (b"roles a b ; end roles", 16),
    // the token X stands before the malformed word, and the first fault is named
    (b"roles a b ; end X 9x", 16),
    // after a variable, and after a choice
    (b"roles a b ; X Y", 14),
    (b"roles a b ; rec X . X ->", 22),
    (b"roles a b ; a -> b { l : end } }", 31),
];

// `mps_text::read_protocol` names a token after a whole protocol as Trailing.
#[test]
fn a_token_after_a_protocol_is_trailing(rt: HostRuntime) {
    have_faults(&rt, TextKind::Trailing, TRAILING);
}

// How many messages a chain has, what stands after them, and the fault. With the 12 bytes in front and 15 for each
// message the node after 64 of them, at level 65, begins at byte 972.
const CHAINS: &[(usize, &[u8], Option<Fault>)] = &[
    // 63 messages and the end are 64 levels, the most
    (63, b"end", None),
    (64, b"end", Some((TextKind::TooDeep, 972))),
    (300, b"end", Some((TextKind::TooDeep, 972))),
    // `}` begins no node, so it is at no level
    (64, b"}", Some((TextKind::Unexpected, 972))),
];

// `mps_text::read_protocol` reads 64 levels and 65,536 bytes (MAX_TEXT_BYTES), and names the node or the byte after
// them.
#[test]
fn a_text_over_a_limit_is_refused_at_its_byte(rt: HostRuntime) {
    for row in CHAINS {
        has_fault(&rt, &chain(&rt, row.0, row.1), row.2);
    }
    let blanks = vec![in rt.alloc(); b' '; MAX_TEXT_BYTES + 1].expect(&rt, "memory");
    has_fault(&rt, &blanks, Some((TextKind::TooLong, 65536)));
    // as many blanks as a text may have bytes: a token is missing at their end
    has_fault(&rt, &blanks[1..], Some((TextKind::Unexpected, 65536)));
}

// How many messages stand after each label where there are 256 nodes, the most: the choice, seven branches of 31
// messages and an end, and one of 30 and an end.
const MOST: &[usize] = &[31, 31, 31, 31, 31, 31, 31, 30];

// How many messages stand after each label, and the fault. It is at the last `end`: after 19 bytes in front, 7 for each
// label, 15 for each message, and 4 for each other `end`.
const CHOICES: &[(&[usize], Fault)] = &[
    // 257 nodes
    (
        &[31, 31, 31, 31, 31, 31, 31, 31],
        (TextKind::TooManyNodes, 3823),
    ),
    // node 257, at level 65: the number of nodes is told
    (
        &[31, 31, 31, 31, 31, 31, 63],
        (TextKind::TooManyNodes, 3827),
    ),
    // node 256, at level 65
    (&[30, 31, 31, 31, 31, 31, 63], (TextKind::TooDeep, 3812)),
];

// `mps_text::read_protocol` reads 256 nodes in all, and names the token that begins one more.
#[test]
fn the_257th_node_is_named(rt: HostRuntime) {
    let most = protocol(&rt, &choice(&rt, MOST));
    assert!(rt;
        check(&most).is_ok(),
        "a protocol of 256 nodes has no fault"
    );
    for row in CHOICES {
        has_fault(&rt, &choice(&rt, row.0), Some(row.1));
    }
}

// Protocols in their written form; `check` refuses some of them, which is not looked at here.
const WRITTEN: &[&[u8]] = &[
    b"roles a b c ; a -> b : int . b -> c : int . end",
    b"roles a b c ; a -> b : int . b -> c : int . c -> a { ok : end , no : end }",
    b"roles a b c d ; a -> b : int . c -> d : int . end",
    b"roles a b ; rec X . a -> b : int . X",
    b"roles a b ; rec X . a -> b { go : b -> a : text . X , stop : end }",
    b"roles a b ; a -> b { l : b -> a { m : X , n : end } }",
    b"roles a b ; a -> b : bool . end",
    b"roles a b c ; a -> b { l : a -> c : int . end , r : end }",
    b"roles a b c ; a -> b { l : a -> c : int . end , r : a -> c : int . end }",
    b"roles a b ; rec X . X",
    b"roles a b c ; rec X . a -> b : int . X",
    b"roles a b c ; rec X . a -> c : int . rec Y . a -> b : int . X",
    b"roles a b ; a -> b { l : end , l : end }",
    b"roles a b ; rec X . a -> b : int . rec X . a -> b : int . X",
    b"roles a b ; rec X . rec Y . X",
    b"roles a b ; z -> z : int . X",
    b"roles a a ; end",
    b"roles a b c ; a -> b : int . a -> b { l : a -> c : int . end , r : end }",
    b"roles a b ; a -> z : int . end",
    b"roles a b ; a -> a : int . end",
    b"roles a b ; a -> b : int . X",
];

// The protocol that the text says is written so, and read again.
fn is_written(rt: &(impl Abort + AllocGlobal), text: &[u8], wanted: &[u8]) {
    let written = write_protocol(rt.alloc(), &protocol(rt, text)).expect(rt, "memory");
    assert!(rt; written.as_slice() == wanted, "the text in its one form");
    has_fault(rt, &written, None);
}

// The text of a protocol is written as it was read.
fn stays(rt: &(impl Abort + AllocGlobal), text: &[u8]) {
    is_written(rt, text, text);
}

// `mps_text::write_protocol` writes a protocol in its one form, which is read again. `loose` has other blanks.
#[test]
fn a_protocol_is_written_in_its_one_form(rt: HostRuntime) {
    for text in WRITTEN {
        stays(&rt, text);
    }
    let loose = b"\nroles a\tb;a->b{l:end,m:X}\r";
    is_written(&rt, loose, b"roles a b ; a -> b { l : end , m : X }");
    // the most nodes, more branches than a choice may have, and the most levels
    stays(&rt, &choice(&rt, MOST));
    stays(&rt, &choice(&rt, &[0; 17]));
    stays(&rt, &chain(&rt, 63, b"end"));
}

// So many messages, and then a choice without branches.
fn deep(rt: &(impl Abort + AllocGlobal), count: usize) -> Global {
    let (sender, receiver) = (name(rt, "a"), name(rt, "b"));
    let mut body = Global::Choice {
        sender,
        receiver,
        branches: Branches::NoMore,
    };
    for _ in 0..count {
        let made = Global::message(rt.alloc(), sender, receiver, Sort::Int, body);
        body = made.expect(rt, "memory");
    }
    body
}

// `mps_text::write_protocol` writes trees that no text spells, here 20,000 messages and a choice without branches.
#[test]
fn a_tree_that_no_text_spells_is_written(rt: HostRuntime) {
    let roles = vec![in rt.alloc(); name(&rt, "a"), name(&rt, "b")].expect(&rt, "memory");
    let protocol = Protocol {
        roles,
        body: deep(&rt, 20000),
    };
    let written = write_protocol(rt.alloc(), &protocol).expect(&rt, "memory");
    assert!(rt;
        written.as_slice() == chain(&rt, 20000, b"a -> b { }").as_slice(),
        "20,000 messages and a choice"
    );
}

// `mps_text::TextFault` is displayed with its byte and kind. The laws `one_protocol`, `one_fault`, `protocol_or_fault`,
// `written_reads` and `first_tokens` are called last: a law's call does nothing, it shows that others can call it so.
#[test]
fn a_fault_is_shown_with_byte_and_kind(rt: HostRuntime) {
    let fault = TextFault {
        at: 25,
        kind: TextKind::Unexpected,
    };
    let shown = format!(in rt.alloc(); "{fault}").expect(&rt, "memory");
    assert_eq!(rt;
        shown.as_str(),
        "at byte 25: this token, or the end of the text, may not stand here",
        "the fault as it is shown"
    );
    one_protocol();
    one_fault();
    protocol_or_fault();
    written_reads();
    first_tokens();
}
