//! mps_global: `check` names a protocol's first fault, and deep and wide trees are dropped.
use crate::projections::{Part, branches, chain, in_front, more, protocol};
use crate::words::name;
use mps_base::Sort::Int;
use mps_global::{Branches, Global, GlobalFault, check, protocol_laws, size_laws};
use std::alloc::AllocGlobal;
use std::process::Abort;

// What `check` answers.
type Checked = Result<(), GlobalFault>;

// The check of what these roles may say is answered so.
fn is_checked(rt: &(impl Abort + AllocGlobal), roles: &[&str], body: Global, answer: Checked) {
    assert_eq!(rt;
        check(&protocol(rt, roles, body)),
        answer,
        "of the roles {roles:?}"
    );
}

// A message from `a` to `b`.
const SENT: &Part<'static> = &Part::Sent("a", "b", Int);

// So many of the part, one after the other.
fn many(rt: &(impl Abort + AllocGlobal), count: u32, part: &Part<'_>) -> Global {
    let mut body = Global::End;
    for _ in 0..count {
        body = in_front(rt, part, body);
    }
    body
}

const TWO: &[&str] = &["a", "b"];

// As many roles as there may be, and one more.
const EIGHT: &[&str] = &["a", "b", "c", "d", "e", "f", "g", "h"];

const NINE: &[&str] = &["a", "b", "c", "d", "e", "f", "g", "h", "i"];

// Roles, how many messages stand before the end, and the fault. With the end 63 are 64 levels, and 255 are 256 nodes.
const LEVELS: &[(&[&str], u32, Checked)] = &[
    // the fewest roles, and the most
    (TWO, 0, Ok(())),
    (EIGHT, 1, Ok(())),
    // the most levels, and more; then more nodes, which are told before levels
    (TWO, 63, Ok(())),
    (TWO, 64, Err(GlobalFault::TooDeep)),
    (TWO, 255, Err(GlobalFault::TooDeep)),
    (TWO, 256, Err(GlobalFault::TooManyNodes)),
    // the number of roles is told first, and then a name that stands twice
    (&["a"], 256, Err(GlobalFault::RoleCount)),
    (NINE, 0, Err(GlobalFault::RoleCount)),
    (&["a", "a"], 256, Err(GlobalFault::DoubleRole)),
    (&["b", "a", "b"], 0, Err(GlobalFault::DoubleRole)),
];

// `mps_global::check` allows 2 to 8 roles, 256 nodes and 64 levels, and names the first limit that is passed.
#[test]
fn the_first_limit_that_is_passed_is_named(rt: HostRuntime) {
    for (roles, messages, answer) in LEVELS {
        let found = check(&protocol(&rt, roles, many(&rt, *messages, SENT)));
        assert_eq!(rt; found, *answer, "{messages} messages of {roles:?}");
    }
}

// Messages of the roles a, b and c, one after the other, and the answer. No role is called z.
const MESSAGES: &[(&[Part<'static>], Checked)] = &[
    (
        &[Part::Sent("a", "b", Int), Part::Sent("b", "c", Int)],
        Ok(()),
    ),
    // one of the two is no role, also in the second message
    (&[Part::Sent("z", "b", Int)], Err(GlobalFault::UnknownRole)),
    (&[Part::Sent("a", "z", Int)], Err(GlobalFault::UnknownRole)),
    (
        &[Part::Sent("a", "b", Int), Part::Sent("a", "z", Int)],
        Err(GlobalFault::UnknownRole),
    ),
    // an unknown role is told before a message to itself, the first message before the second
    (&[Part::Sent("z", "z", Int)], Err(GlobalFault::UnknownRole)),
    (
        &[Part::Sent("a", "a", Int), Part::Sent("a", "z", Int)],
        Err(GlobalFault::SelfMessage),
    ),
    (
        &[Part::Sent("z", "z", Int), Part::Var("X")],
        Err(GlobalFault::UnknownRole),
    ),
];

// What these roles may say, which ends where no part is left, is checked so.
fn are_checked(
    rt: &(impl Abort + AllocGlobal),
    roles: &[&str],
    rows: &[(&[Part<'static>], Checked)],
) {
    for (row, (parts, answer)) in rows.iter().enumerate() {
        let found = check(&protocol(rt, roles, chain(rt, parts)));
        assert_eq!(rt; found, *answer, "row {row} (from 0)");
    }
}

// `mps_global::check` refuses a message of an unknown role, or of a role to itself, and names the first fault.
#[test]
fn a_message_of_unknown_or_equal_roles_is_refused(rt: HostRuntime) {
    are_checked(&rt, &NINE[..3], MESSAGES);
}

// As many labels as a choice may have.
const SIXTEEN: &[&str] = &[
    "l1", "l2", "l3", "l4", "l5", "l6", "l7", "l8", "l9", "l10", "l11", "l12", "l13", "l14", "l15",
    "l16",
];

// One label more.
const LABELS: &[&str] = &[
    "l1", "l2", "l3", "l4", "l5", "l6", "l7", "l8", "l9", "l10", "l11", "l12", "l13", "l14", "l15",
    "l16", "l17",
];

// 17 labels, of which the last is the first once more.
const FIRST_TWICE: &[&str] = &[
    "l1", "l2", "l3", "l4", "l5", "l6", "l7", "l8", "l9", "l10", "l11", "l12", "l13", "l14", "l15",
    "l16", "l1",
];

// Choices of the roles a, b and c, and the answer. No role is called z.
const CHOICES: &[(&[Part<'static>], Checked)] = &[
    // 16 labels, and 17
    (&[Part::Choice("a", "b", SIXTEEN)], Ok(())),
    (
        &[Part::Choice("a", "b", LABELS)],
        Err(GlobalFault::TooManyBranches),
    ),
    // a label twice, which is told before that there are too many
    (
        &[Part::Choice("a", "b", &["l", "m", "l"])],
        Err(GlobalFault::DoubleLabel),
    ),
    (
        &[Part::Choice("a", "b", FIRST_TWICE)],
        Err(GlobalFault::DoubleLabel),
    ),
    // no label
    (&[Part::Choice("a", "b", &[])], Err(GlobalFault::NoBranches)),
    // the roles are looked at before the labels
    (
        &[Part::Choice("a", "z", &["l", "l"])],
        Err(GlobalFault::UnknownRole),
    ),
    (
        &[Part::Choice("a", "a", &["l", "l"])],
        Err(GlobalFault::SelfMessage),
    ),
    // in the second branch
    (
        &[
            Part::Choice("a", "b", &["l", "m"]),
            Part::Choice("b", "a", &["l", "l"]),
        ],
        Err(GlobalFault::DoubleLabel),
    ),
];

// `mps_global::check` refuses a choice for its roles before its labels: one unknown, or both the same; then a label
// twice, more than 16, or none.
#[test]
fn the_roles_of_a_choice_are_checked_before_its_labels(rt: HostRuntime) {
    are_checked(&rt, &NINE[..3], CHOICES);
}

// Loops of the roles a and b, and the answer.
const VARIABLES: &[(&[Part<'static>], Checked)] = &[
    (
        &[Part::Rec("X"), Part::Sent("a", "b", Int), Part::Var("X")],
        Ok(()),
    ),
    // no `rec` of X
    (
        &[Part::Sent("a", "b", Int), Part::Var("X")],
        Err(GlobalFault::Unbound),
    ),
    (&[Part::Var("X")], Err(GlobalFault::Unbound)),
    // a `rec` of X in one of X
    (
        &[
            Part::Rec("X"),
            Part::Sent("a", "b", Int),
            Part::Rec("X"),
            Part::Sent("a", "b", Int),
            Part::Var("X"),
        ],
        Err(GlobalFault::Shadowed),
    ),
    // the message to z comes before the inner `rec`
    (
        &[Part::Rec("X"), Part::Sent("a", "z", Int), Part::Rec("X")],
        Err(GlobalFault::UnknownRole),
    ),
    // no message between a variable and its `rec`
    (
        &[Part::Rec("X"), Part::Var("X")],
        Err(GlobalFault::Unguarded),
    ),
    (
        &[Part::Rec("X"), Part::Rec("Y"), Part::Var("X")],
        Err(GlobalFault::Unguarded),
    ),
    (
        &[
            Part::Rec("X"),
            Part::Sent("a", "b", Int),
            Part::Rec("Y"),
            Part::Var("Y"),
        ],
        Err(GlobalFault::Unguarded),
    ),
    // a choice between them is enough
    (
        &[
            Part::Rec("X"),
            Part::Rec("Y"),
            Part::Choice("a", "b", &["l"]),
            Part::Var("X"),
        ],
        Ok(()),
    ),
];

// `mps_global::check` refuses a variable without its `rec` or right behind it, and a `rec` in one of its name. The laws
// `size_laws`, of the count of nodes and levels, and `protocol_laws`, of protocols without a fault, are called last: a
// law's call does nothing, it shows that others can call it so.
#[test]
fn a_variable_without_a_guarded_loop_is_refused(rt: HostRuntime) {
    are_checked(&rt, &NINE[..2], VARIABLES);
    size_laws();
    protocol_laws();
}

// A choice with one branch, which holds one, and so on.
const NESTED: &Part<'static> = &Part::Choice("a", "b", &["l"]);

// `mps_global::check` and dropping of `Global`: 150,000 levels run the stack out where a function calls itself for
// each, as one that drops a tree may. 63 choices in one another and the end are 64 levels, the most that `check`
// allows.
#[test]
fn a_deep_protocol_is_checked_and_dropped(rt: HostRuntime) {
    is_checked(&rt, TWO, many(&rt, 63, NESTED), Ok(()));
    is_checked(&rt, TWO, many(&rt, 64, NESTED), Err(GlobalFault::TooDeep));
    is_checked(
        &rt,
        TWO,
        many(&rt, 150_000, NESTED),
        Err(GlobalFault::TooManyNodes),
    );
    is_checked(
        &rt,
        NINE,
        many(&rt, 150_000, SENT),
        Err(GlobalFault::RoleCount),
    );
}

// So many branches of one label, of which each has so many choices in one another.
fn wide(rt: &(impl Abort + AllocGlobal), count: u32, levels: u32) -> Branches {
    let mut branches = Branches::NoMore;
    for _ in 0..count {
        branches = more(rt, "l", many(rt, levels, NESTED), branches);
    }
    branches
}

// A role's choice between these branches, with another role or by itself.
fn choice(rt: &impl Abort, from: &str, to: &str, branches: Branches) -> Global {
    Global::Choice {
        sender: name(rt, from),
        receiver: name(rt, to),
        branches,
    }
}

// `mps_global::check` and dropping of `Branches`: 150,000 branches run the stack out where a function calls itself for
// each, as one that drops a tree may. 300 branches with 300 choices in one another are deep and wide.
#[test]
fn a_wide_protocol_is_checked_and_dropped(rt: HostRuntime) {
    drop(wide(&rt, 150_000, 0));
    let body = choice(&rt, "l", "l", wide(&rt, 300, 300));
    is_checked(&rt, TWO, body, Err(GlobalFault::TooManyNodes));
}

// Whether the branches have these labels, and each ends.
fn are_ends(branches: &Branches, labels: &[&str]) -> bool {
    let mut rest = labels.iter();
    for (label, next) in branches.iter() {
        let is_label = rest
            .next()
            .is_some_and(|text| label.is_spelled(text.as_bytes()));
        if !is_label || !matches!(next, Global::End) {
            return false;
        }
    }
    rest.next().is_none()
}

// `mps_global::Branches::iter` gives each label with what follows it, in order.
#[test]
fn branches_are_walked_in_order(rt: HostRuntime) {
    let labels = &["l", "m", "n"];
    assert!(rt;
        are_ends(&branches(&rt, labels, Global::End), labels),
        "the labels l, m and n, each with an end"
    );
}

// A choice of eight labels. After the last of them come so many messages, and after each other 31.
fn eight(rt: &(impl Abort + AllocGlobal), last: u32) -> Global {
    let mut branches = Branches::NoMore;
    let mut messages = last;
    for label in LABELS[..8].iter().rev() {
        branches = more(rt, label, many(rt, messages, SENT), branches);
        messages = 31;
    }
    choice(rt, "a", "b", branches)
}

// `mps_global::check` counts the nodes of all branches, of which there may be 256: the choice, seven branches of 31
// messages and an end, and one of 30 and an end.
#[test]
fn the_nodes_of_all_branches_count(rt: HostRuntime) {
    is_checked(&rt, TWO, eight(&rt, 30), Ok(()));
    is_checked(&rt, TWO, eight(&rt, 31), Err(GlobalFault::TooManyNodes));
}
