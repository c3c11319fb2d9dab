//! mps_local: a local type's first fault is found, the limits first, in types of any size.
use crate::words::{name, variable};
use mps_base::{Role, Sort};
use mps_local::{
    Branches, Local, LocalFault, first_fault, local_fault_laws, local_size_laws,
    projections_have_no_fault,
};
use std::alloc::AllocGlobal;
use std::process::Abort;

// A node, with what comes after it left out.
#[derive(Clone, Copy)]
enum Part<'a> {
    Var(&'a str),
    Rec(&'a str),
    Sends,
    Takes,
    // the last of the labels goes on, each other one ends
    Chooses(&'a [&'a str]),
    Picks(&'a [&'a str]),
}

// The branch of these letters, and then the others.
fn more(rt: &(impl Abort + AllocGlobal), letters: &str, next: Local, others: Branches) -> Branches {
    Branches::more(rt.alloc(), name(rt, letters), next, others).expect(rt, "memory")
}

// Branches of these labels, of which the last goes on with `next`.
fn branches(rt: &(impl Abort + AllocGlobal), labels: &[&str], next: Local) -> Branches {
    let mut branches = Branches::NoMore;
    let mut body = next;
    for k in 0..labels.len() {
        branches = more(rt, labels[labels.len() - 1 - k], body, branches);
        body = Local::End;
    }
    branches
}

// The node in front of `next`.
fn in_front(rt: &(impl Abort + AllocGlobal), part: &Part<'_>, next: Local) -> Local {
    let peer = Role::new(1);
    let made = match part {
        Part::Var(letters) => return Local::Var(variable(rt, letters)),
        Part::Rec(letters) => Local::rec(rt.alloc(), variable(rt, letters), next),
        Part::Sends => Local::send(rt.alloc(), peer, Sort::Int, next),
        Part::Takes => Local::recv(rt.alloc(), peer, Sort::Text, next),
        Part::Chooses(labels) => {
            return Local::Select {
                peer,
                branches: branches(rt, labels, next),
            };
        }
        Part::Picks(labels) => {
            return Local::Branch {
                peer,
                branches: branches(rt, labels, next),
            };
        }
    };
    made.expect(rt, "memory")
}

// The parts, one after the other, and then the end.
fn chain(rt: &(impl Abort + AllocGlobal), parts: &[Part<'_>]) -> Local {
    let mut body = Local::End;
    for k in 0..parts.len() {
        body = in_front(rt, &parts[parts.len() - 1 - k], body);
    }
    body
}

// So many of the part in front of `next`.
fn many(rt: &(impl Abort + AllocGlobal), count: u32, part: &Part<'_>, next: Local) -> Local {
    let mut body = next;
    for _ in 0..count {
        body = in_front(rt, part, body);
    }
    body
}

// The type has that first fault, or none.
fn has_fault(rt: &impl Abort, t: Local, fault: Option<LocalFault>) {
    assert_eq!(rt; first_fault(&t), fault, "the first fault");
}

// So many outputs and then the parts, of that row, have that first fault, or none.
fn tells(
    rt: &(impl Abort + AllocGlobal),
    row: usize,
    count: u32,
    parts: &[Part<'_>],
    fault: Option<LocalFault>,
) {
    let found = first_fault(&many(rt, count, &Part::Sends, chain(rt, parts)));
    assert_eq!(rt; found, fault, "row {row} (from 0) after {count} outputs");
}

// 17 labels, one more than a choice may have.
const LABELS: &[&str] = &[
    "l1", "l2", "l3", "l4", "l5", "l6", "l7", "l8", "l9", "l10", "l11", "l12", "l13", "l14", "l15",
    "l16", "l17",
];

// As many labels as a choice may have, and then as many others.
const FIRST_SIXTEEN: &[&str] = &[
    "l1", "l2", "l3", "l4", "l5", "l6", "l7", "l8", "l9", "l10", "l11", "l12", "l13", "l14", "l15",
    "l16",
];

const LAST_SIXTEEN: &[&str] = &[
    "l2", "l3", "l4", "l5", "l6", "l7", "l8", "l9", "l10", "l11", "l12", "l13", "l14", "l15",
    "l16", "l17",
];

// 17 labels, of which the last is the first once more.
const FIRST_TWICE: &[&str] = &[
    "l1", "l2", "l3", "l4", "l5", "l6", "l7", "l8", "l9", "l10", "l11", "l12", "l13", "l14", "l15",
    "l16", "l1",
];

// For each fault of a node, in their order, a type that has it.
const FAULTY: &[(&[Part<'static>], LocalFault)] = &[
    // a label twice, which is told before that there are too many
    (&[Part::Chooses(&["l", "m", "l"])], LocalFault::DoubleLabel),
    (&[Part::Picks(FIRST_TWICE)], LocalFault::DoubleLabel),
    // 17 branches, and none
    (&[Part::Picks(LABELS)], LocalFault::TooManyBranches),
    (&[Part::Chooses(&[])], LocalFault::NoBranches),
    // no `rec` of Y
    (
        &[Part::Rec("X"), Part::Takes, Part::Var("Y")],
        LocalFault::Unbound,
    ),
    // a `rec` of X in one of X
    (
        &[
            Part::Rec("X"),
            Part::Sends,
            Part::Rec("X"),
            Part::Takes,
            Part::Var("X"),
        ],
        LocalFault::Shadowed,
    ),
    // no act between a `rec` and its variable, though another `rec`
    (&[Part::Rec("X"), Part::Var("X")], LocalFault::Unguarded),
    (
        &[
            Part::Rec("X"),
            Part::Sends,
            Part::Rec("Y"),
            Part::Rec("Z"),
            Part::Var("Y"),
        ],
        LocalFault::Unguarded,
    ),
];

// `mps_local::first_fault` names each kind of fault that a node may have, near the root and deep below it.
#[test]
fn each_kind_of_fault_is_named(rt: HostRuntime) {
    for (k, row) in FAULTY.iter().enumerate() {
        tells(&rt, k, 0, row.0, Some(row.1));
        // below 50 outputs, so that few of the 64 levels are left
        tells(&rt, k, 50, row.0, Some(row.1));
    }
}

// A choice between the two has that first fault.
fn tells_of_choice(
    rt: &(impl Abort + AllocGlobal),
    left: &[Part<'_>],
    right: &[Part<'_>],
    fault: LocalFault,
) {
    let others = more(rt, "m", chain(rt, right), Branches::NoMore);
    let branches = more(rt, "l", chain(rt, left), others);
    let peer = Role::new(0);
    has_fault(rt, Local::Branch { peer, branches }, Some(fault));
}

// A `rec` or a choice with a fault, another fault below it, and the fault that is named: that of the upper one.
const FAULT_BELOW: &[(&[Part<'static>], LocalFault)] = &[
    (
        &[Part::Chooses(&["l", "l"]), Part::Var("X")],
        LocalFault::DoubleLabel,
    ),
    (
        &[Part::Picks(&["l", "l"]), Part::Var("X")],
        LocalFault::DoubleLabel,
    ),
    (
        &[Part::Picks(LABELS), Part::Chooses(&["l", "l"])],
        LocalFault::TooManyBranches,
    ),
    (
        &[Part::Rec("X"), Part::Picks(LABELS), Part::Rec("X")],
        LocalFault::TooManyBranches,
    ),
    (
        &[
            Part::Rec("X"),
            Part::Takes,
            Part::Rec("X"),
            Part::Chooses(&[]),
        ],
        LocalFault::Shadowed,
    ),
    (
        &[Part::Rec("X"), Part::Rec("X"), Part::Var("X")],
        LocalFault::Shadowed,
    ),
    (
        &[Part::Rec("X"), Part::Sends, Part::Rec("X"), Part::Var("Y")],
        LocalFault::Shadowed,
    ),
];

// `mps_local::first_fault`: of two branches with a fault the left one's is named, and of two nodes on a path the upper
// one's.
#[test]
fn the_first_fault_in_preorder_is_named(rt: HostRuntime) {
    for first in FAULTY {
        for second in FAULTY {
            tells_of_choice(&rt, first.0, second.0, first.1);
        }
    }
    for (k, row) in FAULT_BELOW.iter().enumerate() {
        tells(&rt, k, 0, row.0, Some(row.1));
    }
}

// How many outputs stand before the end, and the fault. With the end 63 are 64 levels, and 255 are 256 nodes.
const LENGTHS: &[(u32, Option<LocalFault>)] = &[
    (63, None),
    (64, Some(LocalFault::TooDeep)),
    (255, Some(LocalFault::TooDeep)),
    (256, Some(LocalFault::TooManyNodes)),
];

// `mps_local::first_fault` tells limits first: 64 outputs and a faulty node are too many levels, 256 and one too many
// nodes.
#[test]
fn limits_are_named_before_other_faults(rt: HostRuntime) {
    for (k, row) in FAULTY.iter().enumerate() {
        tells(&rt, k, 64, row.0, Some(LocalFault::TooDeep));
        tells(&rt, k, 256, row.0, Some(LocalFault::TooManyNodes));
    }
    for (k, row) in LENGTHS.iter().enumerate() {
        tells(&rt, k, row.0, &[], row.1);
    }
}

// A choice of three labels, of which the one in that place has so many outputs after it, and each
// other one ends.
fn uneven(rt: &(impl Abort + AllocGlobal), place: usize, count: u32) -> Local {
    let mut branches = Branches::NoMore;
    for k in 0..3usize {
        let below = if 2 - k == place { count } else { 0 };
        let next = many(rt, below, &Part::Sends, Local::End);
        branches = more(rt, LABELS[2 - k], next, branches);
    }
    let peer = Role::new(1);
    Local::Select { peer, branches }
}

// `mps_local::first_fault` finds the deepest of three branches: the choice, 62 outputs and the end are 64 levels, the
// most.
#[test]
fn levels_are_counted_in_the_deepest_branch(rt: HostRuntime) {
    for place in 0..3usize {
        let (most, more) = (uneven(&rt, place, 62), uneven(&rt, place, 63));
        assert_eq!(rt; first_fault(&most), None, "branch {place}");
        assert_eq!(rt;
            first_fault(&more),
            Some(LocalFault::TooDeep),
            "branch {place}"
        );
    }
}

// A loop of so many inputs.
fn inputs(rt: &(impl Abort + AllocGlobal), count: u32) -> Local {
    let last = Local::Var(variable(rt, "X"));
    in_front(rt, &Part::Rec("X"), many(rt, count, &Part::Takes, last))
}

// A choice of 16 labels. After 15 of them stands a loop of 14 inputs, which has 16 nodes, and
// after the last one a loop of so many.
fn loops(rt: &(impl Abort + AllocGlobal), last: u32) -> Local {
    let mut branches = more(rt, "l16", inputs(rt, last), Branches::NoMore);
    for k in 0..15usize {
        branches = more(rt, LABELS[14 - k], inputs(rt, 14), branches);
    }
    let peer = Role::new(1);
    Local::Branch { peer, branches }
}

// `mps_local::first_fault` counts all branches: the choice and 15 loops have 241 nodes, a loop of 13 inputs makes 256,
// the most.
#[test]
fn nodes_are_counted_over_all_branches(rt: HostRuntime) {
    has_fault(&rt, loops(&rt, 13), None);
    has_fault(&rt, loops(&rt, 14), Some(LocalFault::TooManyNodes));
}

// Types without a fault.
const FAULTLESS: &[&[Part<'static>]] = &[
    // the end alone, and a loop
    &[],
    &[Part::Rec("X"), Part::Sends, Part::Var("X")],
    // two `rec`s before one act, and one `rec` after the act
    &[
        Part::Rec("X"),
        Part::Rec("Y"),
        Part::Picks(&["l", "m"]),
        Part::Var("X"),
    ],
    &[Part::Rec("X"), Part::Takes, Part::Rec("Y"), Part::Var("X")],
    // the most labels, and the same labels in two choices
    &[
        Part::Chooses(FIRST_SIXTEEN),
        Part::Picks(LAST_SIXTEEN),
        Part::Sends,
    ],
    &[Part::Chooses(&["l", "m"]), Part::Chooses(&["l", "m"])],
];

// `mps_local::first_fault` finds none in these. The laws `local_fault_laws`, `local_size_laws` and
// `projections_have_no_fault` are called last: a law's call does nothing, it shows that others can call it so.
#[test]
fn a_type_without_a_fault_has_none(rt: HostRuntime) {
    for (k, parts) in FAULTLESS.iter().enumerate() {
        tells(&rt, k, 0, parts, None);
    }
    local_fault_laws();
    local_size_laws();
    projections_have_no_fault();
}

// So many of the part and then a variable are too many nodes.
fn is_too_long(rt: &(impl Abort + AllocGlobal), count: u32, part: &Part<'_>) {
    let last = Local::Var(variable(rt, "Y"));
    has_fault(
        rt,
        many(rt, count, part, last),
        Some(LocalFault::TooManyNodes),
    );
}

// A choice of so many labels, after each of which the type ends.
fn wide(rt: &(impl Abort + AllocGlobal), count: u32) -> Local {
    let mut branches = Branches::NoMore;
    for _ in 0..count {
        branches = more(rt, "l", Local::End, branches);
    }
    let peer = Role::new(9);
    Local::Select { peer, branches }
}

// `mps_local::first_fault` takes types of any size: so many nodes run the stack out where a function calls itself for
// each.
#[test]
fn a_type_of_any_size_is_checked(rt: HostRuntime) {
    is_too_long(&rt, 1_000_000, &Part::Sends);
    is_too_long(&rt, 1_000_000, &Part::Takes);
    is_too_long(&rt, 1_000_000, &Part::Rec("X"));
    is_too_long(&rt, 100_000, &Part::Picks(&["l"]));
    has_fault(&rt, wide(&rt, 100_000), Some(LocalFault::TooManyNodes));
}
