//! mps_local: what a role does that takes no part in a choice, by plain and by full merging.
ghost use Rattle.std.specs.Prelude.{◌≡◌, ◌<◌, IfOk, length};
ghost use Rattle.mps_local.specs.Local.{plain};
ghost use Rattle.mps_local.specs.Shape.{AllPeers};

use crate::projections::is_written;
use mps_base::{Role, Roles};
use mps_global::{Protocol, check};
use mps_local::{Local, Merging, ProjectFault, project_all_by, project_by};
use mps_text::read_protocol;
use std::alloc::AllocGlobal;
use std::process::Abort;

// What `c`, the role at place 2, does in the protocol, or why it has no type.
fn part_of_c(
    rt: &(impl Abort + AllocGlobal),
    merging: Merging,
    protocol: &Protocol,
) -> Result<Local, ProjectFault>
    ensures { IfOk result
        (λ t. AllPeers (λ peer. peer < length protocol.now.roles.items) (plain t)) }
{
    assert!(rt;
        check(protocol).is_ok() && protocol.roles.len() > 2,
        "a protocol without faults of three roles"
    );
    project_by(rt.alloc(), merging, protocol, Role::new(2))
}

// Whether `c` has no type, since that choice can't be merged.
fn is_refused(
    rt: &(impl Abort + AllocGlobal),
    merging: Merging,
    text: &str,
    choice: usize,
) -> bool {
    let protocol = read_protocol(rt.alloc(), text.as_bytes()).expect(rt, "a protocol");
    let fault = ProjectFault::Unmergeable {
        role: Role::new(2),
        choice,
    };
    part_of_c(rt, merging, &protocol).err() == Some(fault)
}

// Whether the type of `c` is written so.
fn does(rt: &(impl Abort + AllocGlobal), merging: Merging, text: &str, wanted: &str) -> bool {
    let protocol = read_protocol(rt.alloc(), text.as_bytes()).expect(rt, "a protocol");
    let roles = Roles::of(rt.alloc(), &protocol.roles).expect(rt, "roles");
    match part_of_c(rt, merging, &protocol) {
        Ok(t) => is_written(rt, &roles, &t, wanted),
        Err(_) => false,
    }
}

// A protocol, and the type that `c` has by full merging alone.
struct Told(&'static str, &'static str);

const TOLD: &[Told] = &[
    Told(
        "roles a b c ; a -> b { l : a -> c { x : end } , r : a -> c { y : end } }",
        "pick a { x : end , y : end }",
    ),
    // a loop of three roles that ends
    Told(
        "roles a b c ; rec X . a -> b { more : a -> c { more : c -> a : int . X } , stop : a -> c { stop : end } }",
        "rec X . pick a { more : send a int . X , stop : end }",
    ),
    // the labels of the first branch in their order, then those that the second has besides
    Told(
        "roles a b c ; a -> b { l : a -> c { y : end , x : end } , r : a -> c { w : end , x : end , z : end } }",
        "pick a { y : end , x : end , w : end , z : end }",
    ),
    // what follows a label of both is merged
    Told(
        "roles a b c ; a -> b { l : a -> c { x : b -> c { p : end } } , r : a -> c { x : b -> c { q : end } } }",
        "pick a { x : pick b { p : end , q : end } }",
    ),
    // after the same acts, in a loop of its own
    Told(
        "roles a b c ; a -> b { l : a -> c : int . rec X . c -> a { go : a -> c { x : X } } , r : a -> c : int . rec X . c -> a { go : a -> c { y : end } } }",
        "recv a int . rec X . choose a { go : pick a { x : X , y : end } }",
    ),
    // three branches, merged from the first on
    Told(
        "roles a b c ; a -> b { l : a -> c { x : end } , m : a -> c { y : end } , r : a -> c { x : end , z : end } }",
        "pick a { x : end , y : end , z : end }",
    ),
    // 16 labels, as many as a choice may have
    Told(
        "roles a b c ; a -> b { l : a -> c { l0 : end , l1 : end , l2 : end , l3 : end , l4 : end , l5 : end , l6 : end , l7 : end } , \
        r : a -> c { l8 : end , l9 : end , l10 : end , l11 : end , l12 : end , l13 : end , l14 : end , l15 : end } }",
        "pick a { l0 : end , l1 : end , l2 : end , l3 : end , l4 : end , l5 : end , l6 : end , l7 : end , \
        l8 : end , l9 : end , l10 : end , l11 : end , l12 : end , l13 : end , l14 : end , l15 : end }",
    ),
];

// `mps_local::project_by` gives c, which takes no part in the choice, one pick for the labels that tell it of the
// branch, by full merging; by plain merging it has no type, and the first choice is named.
#[test]
fn a_role_may_be_told_by_labels_of_its_own(rt: HostRuntime) {
    for Told(text, wanted) in TOLD {
        assert!(rt;
            is_refused(&rt, Merging::Plain, text, 0),
            "plainly no type in {text}"
        );
        assert!(rt;
            does(&rt, Merging::Full, text, wanted),
            "by full merging in {text}"
        );
    }
}

// A protocol in which `c` has no type by either kind of merging, and the choice that is named.
struct Apart(&'static str, usize);

const APART: &[Apart] = &[
    // the end and an input: `c` would wait for ever
    Apart(
        "roles a b c ; a -> b { l : a -> c { x : end } , r : end }",
        0,
    ),
    Apart(
        "roles a b c ; a -> b { l : a -> c : int . end , r : end }",
        0,
    ),
    // what `c` does itself, where it can't know the branch
    Apart(
        "roles a b c ; a -> b { l : c -> a { x : end } , r : c -> a { y : end } }",
        0,
    ),
    Apart(
        "roles a b c ; a -> b { l : c -> a { x : end , y : end } , r : c -> a { y : end , x : end } }",
        0,
    ),
    Apart(
        "roles a b c ; a -> b { l : c -> a : int . end , r : c -> b : int . end }",
        0,
    ),
    Apart(
        "roles a b c ; a -> b { l : c -> a : int . end , r : c -> a : text . end }",
        0,
    ),
    // labels of two peers, a label and a value, values of two sorts
    Apart(
        "roles a b c ; a -> b { l : a -> c { x : end } , r : b -> c { y : end } }",
        0,
    ),
    Apart(
        "roles a b c ; a -> b { l : a -> c { x : end } , r : a -> c : int . end }",
        0,
    ),
    Apart(
        "roles a b c ; a -> b { l : a -> c : int . end , r : a -> c : bool . end }",
        0,
    ),
    // a loop and none, and loops of two names
    Apart(
        "roles a b c ; a -> b { l : rec X . a -> c { x : X } , r : a -> c { y : end } }",
        0,
    ),
    Apart(
        "roles a b c ; a -> b { l : rec X . a -> c { x : X } , r : rec Y . a -> c { x : Y } }",
        0,
    ),
    // below a label of both
    Apart(
        "roles a b c ; a -> b { l : a -> c { x : a -> c : int . end } , r : a -> c { x : end } }",
        0,
    ),
    // a choice in a branch comes before the one that holds it
    Apart(
        "roles a b c ; a -> b { l : a -> b { l : end , r : a -> c { x : end } } , r : end }",
        1,
    ),
    // 17 labels
    Apart(
        "roles a b c ; a -> b { l : a -> c { l0 : end , l1 : end , l2 : end , l3 : end , l4 : end , l5 : end , l6 : end , l7 : end } , \
        r : a -> c { l8 : end , l9 : end , l10 : end , l11 : end , l12 : end , l13 : end , l14 : end , l15 : end , l16 : end } }",
        0,
    ),
];

// `mps_local::project_by` names the choice where no type stands for its branches.
#[test]
fn what_differs_in_more_than_labels_is_not_merged(rt: HostRuntime) {
    for Apart(text, choice) in APART {
        assert!(rt;
            is_refused(&rt, Merging::Plain, text, *choice),
            "plainly no type in {text}"
        );
        assert!(rt;
            is_refused(&rt, Merging::Full, text, *choice),
            "fully no type in {text}"
        );
    }
}

// A protocol, and the type that `c` has by either kind of merging.
const SAME: &[Told] = &[
    Told(
        "roles a b c ; a -> b { l : b -> c { x : end } , r : b -> c { x : end } }",
        "pick b { x : end }",
    ),
    Told(
        "roles a b c ; rec X . a -> b { l : c -> a { x : X , y : end } , r : c -> a { x : X , y : end } }",
        "rec X . choose a { x : X , y : end }",
    ),
];

// `mps_local::project_by` gives by full merging what plain merging gives.
#[test]
fn full_merging_gives_what_plain_merging_does(rt: HostRuntime) {
    for Told(text, wanted) in SAME {
        assert!(rt;
            does(&rt, Merging::Plain, text, wanted),
            "plainly in {text}"
        );
        assert!(rt; does(&rt, Merging::Full, text, wanted), "fully in {text}");
    }
}

// What each role does in the protocol, or the fault of the first that has no type.
fn types_of(
    rt: &(impl Abort + AllocGlobal),
    merging: Merging,
    text: &str,
) -> Result<Vec<Local>, ProjectFault> {
    let protocol = read_protocol(rt.alloc(), text.as_bytes()).expect(rt, "a protocol");
    assert!(rt; check(&protocol).is_ok(), "a protocol without faults");
    project_all_by(rt.alloc(), merging, &protocol)
}

// Whether the role at that place is the first without a type, for choice 0.
fn first_without(rt: &(impl Abort + AllocGlobal), merging: Merging, text: &str, role: u8) -> bool {
    let fault = ProjectFault::Unmergeable {
        role: Role::new(role),
        choice: 0,
    };
    types_of(rt, merging, text).err() == Some(fault)
}

// c and d are told of a's choice by labels of their own.
const TWO_ARE_TOLD: &str =
    "roles a b c d ; a -> b { l : a -> c { x : a -> d { x : end } } , r : a -> c { y : a -> d { y : end } } }";

// c is, and d is not.
const ONE_IS_TOLD: &str =
    "roles a b c d ; a -> b { l : a -> c { x : d -> a : int . end } , r : a -> c { y : end } }";

// `mps_local::project_all_by` gives all roles their types by the merging that is asked for, or names the first that has
// none.
#[test]
fn all_roles_are_projected_by_one_kind(rt: HostRuntime) {
    let types = types_of(&rt, Merging::Full, TWO_ARE_TOLD).expect(&rt, "types");
    assert_eq!(rt; types.len(), 4, "fully all have one");
    assert!(rt;
        first_without(&rt, Merging::Plain, TWO_ARE_TOLD, 2),
        "plainly c has none"
    );
    assert!(rt;
        first_without(&rt, Merging::Full, ONE_IS_TOLD, 3),
        "fully d has none"
    );
}
