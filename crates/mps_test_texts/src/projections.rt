//! mps_local: each role's projection, or the first choice that can't be merged; and deep and wide types.
ghost use Rattle.std.specs.Prelude.{◌≡◌, ◌<◌, IfOk, length};
ghost use Rattle.mps_local.specs.Local.{plain, plain_branches};
ghost use Rattle.mps_local.specs.Shape.{AllPeers, AllBranchPeers};

use crate::words::{name, variable};
use mps_base::Sort::{self, Bool, Int, Text};
use mps_base::{Name, Role, Roles};
use mps_global::{Branches, Global, Protocol, check};
use mps_local::{Local, ProjectFault, project, project_all, projection_laws, write_local};
use std::alloc::AllocGlobal;
use std::process::Abort;

// A node, with what comes after it left out.
#[derive(Clone, Copy)]
pub(crate) enum Part<'a> {
    Var(&'a str),
    Rec(&'a str),
    Sent(&'a str, &'a str, Sort),
    // the last of the labels goes on, each other one ends
    Choice(&'a str, &'a str, &'a [&'a str]),
}

// The branch of these letters, and then the others.
pub(crate) fn more(
    rt: &(impl Abort + AllocGlobal),
    letters: &str,
    next: Global,
    others: Branches,
) -> Branches {
    Branches::more(rt.alloc(), name(rt, letters), next, others).expect(rt, "memory")
}

// Branches of these labels, of which the last goes on with `next`.
pub(crate) fn branches(rt: &(impl Abort + AllocGlobal), labels: &[&str], next: Global) -> Branches {
    let mut branches = Branches::NoMore;
    let mut body = next;
    for k in 0..labels.len() {
        branches = more(rt, labels[labels.len() - 1 - k], body, branches);
        body = Global::End;
    }
    branches
}

// The node in front of `next`.
pub(crate) fn in_front(rt: &(impl Abort + AllocGlobal), part: &Part<'_>, next: Global) -> Global {
    let made = match part {
        Part::Var(letters) => Ok(Global::Var(variable(rt, letters))),
        Part::Rec(letters) => Global::rec(rt.alloc(), variable(rt, letters), next),
        Part::Sent(from, to, sort) => {
            Global::message(rt.alloc(), name(rt, from), name(rt, to), *sort, next)
        }
        Part::Choice(from, to, labels) => Ok(Global::Choice {
            sender: name(rt, from),
            receiver: name(rt, to),
            branches: branches(rt, labels, next),
        }),
    };
    made.expect(rt, "memory")
}

// The parts, one after the other, and then the end.
pub(crate) fn chain(rt: &(impl Abort + AllocGlobal), parts: &[Part<'_>]) -> Global {
    let mut body = Global::End;
    for k in 0..parts.len() {
        body = in_front(rt, &parts[parts.len() - 1 - k], body);
    }
    body
}

// The protocol of roles whose names are these letters.
pub(crate) fn protocol(
    rt: &(impl Abort + AllocGlobal),
    letters: &[&str],
    body: Global,
) -> Protocol {
    let mut roles = Vec::new(rt.alloc());
    for role in letters {
        roles.push(name(rt, role)).expect(rt, "memory");
    }
    Protocol { roles, body }
}

const THREE: [&str; 3] = ["a", "b", "c"];

// What the role of that place does in a protocol without faults, or why it has no type.
fn projected(
    rt: &(impl Abort + AllocGlobal),
    protocol: &Protocol,
    role: u8,
) -> Result<Local, ProjectFault>
    ensures { IfOk result
        (λ t. AllPeers (λ peer. peer < length protocol.now.roles.items) (plain t)) }
{
    assert!(rt;
        check(protocol).is_ok() && usize::from(role) < protocol.roles.len(),
        "a role of a protocol without faults"
    );
    project(rt.alloc(), protocol, Role::new(role))
}

// Among `a`, `b` and `c` the role has no type, since the branches of that choice differ for it.
fn fails_at(rt: &(impl Abort + AllocGlobal), body: Global, role: u8, choice: usize) {
    let protocol = protocol(rt, &THREE, body);
    let fault = ProjectFault::Unmergeable {
        role: Role::new(role),
        choice,
    };
    assert!(rt;
        projected(rt, &protocol, role).err() == Some(fault),
        "no type for the role at place {role}, for choice {choice}"
    );
}

/// Whether the type is written so.
pub(crate) fn is_written(
    rt: &(impl Abort + AllocGlobal),
    roles: &Roles,
    t: &Local,
    text: &str,
) -> bool
    requires { AllPeers (λ peer. peer < length roles.now) (plain t.now) }
{
    let written = write_local(rt.alloc(), roles, t).expect(rt, "memory");
    written.as_slice() == text.as_bytes()
}

// The type of the role, and a copy, is written so in the protocol of roles whose names are these
// letters.
fn does(rt: &(impl Abort + AllocGlobal), letters: &[&str], body: Global, role: u8, text: &str) {
    let protocol = protocol(rt, letters, body);
    let roles = Roles::of(rt.alloc(), &protocol.roles).expect(rt, "roles");
    let t = projected(rt, &protocol, role).expect(rt, "a type");
    let copy = t.copy(rt.alloc()).expect(rt, "memory");
    let are_so = is_written(rt, &roles, &t, text) && is_written(rt, &roles, &copy, text);
    assert!(rt; are_so, "the type of the role at place {role}: {text}");
}

// a gives b ints without end, and c does nothing.
const LOOP: [Part<'static>; 3] = [Part::Rec("X"), Part::Sent("a", "b", Int), Part::Var("X")];

// a chooses for b; at `r` a gives c an int, and at `l` it does not.
const ONE: [Part<'static>; 2] = [
    Part::Choice("a", "b", &["l", "r"]),
    Part::Sent("a", "c", Int),
];

// The choice of ONE after a message, which is no choice and isn't counted.
const BEHIND: [Part<'static>; 3] = [
    Part::Sent("a", "b", Int),
    Part::Choice("a", "b", &["l", "r"]),
    Part::Sent("a", "c", Int),
];

// At `r` b chooses for a, and the int comes at the second `r` alone: choice 1 is the one whose branches differ for c.
const INNER: [Part<'static>; 3] = [
    Part::Choice("a", "b", &["l", "r"]),
    Part::Choice("b", "a", &["l", "r"]),
    Part::Sent("a", "c", Int),
];

// c takes choice 0 itself, so its branches may differ. Those of choice 1, between others, may not.
const OWN: [Part<'static>; 3] = [
    Part::Choice("a", "c", &["l", "r"]),
    Part::Choice("b", "a", &["l", "r"]),
    Part::Sent("a", "c", Int),
];

// a gives b an int, b gives c one, and c tells a `ok` or `no`.
const RELAY: [Part<'static>; 3] = [
    Part::Sent("a", "b", Int),
    Part::Sent("b", "c", Int),
    Part::Choice("c", "a", &["ok", "no"]),
];

// a gives b an int, and b gives c one.
const MESSAGES: [Part<'static>; 2] = [Part::Sent("a", "b", Int), Part::Sent("b", "c", Int)];

// In a loop a gives c an int; then, behind a `rec` to which nothing leads back, it gives b one.
const LOOPS: [Part<'static>; 5] = [
    Part::Rec("X"),
    Part::Sent("a", "c", Int),
    Part::Rec("Y"),
    Part::Sent("a", "b", Int),
    Part::Var("X"),
];

// A choice of one label: c does the same in all branches.
const TOLD: [Part<'static>; 2] = [Part::Choice("a", "b", &["l"]), Part::Sent("a", "c", Int)];

// At `r` a and b are in a loop for ever. c takes no part, which is `end` for it, as it is at `l`.
const IDLE: [Part<'static>; 4] = [
    Part::Choice("a", "b", &["l", "r"]),
    Part::Rec("X"),
    Part::Sent("a", "b", Int),
    Part::Var("X"),
];

// What a, b and c may say, and the choice that can't be merged for c. Choices are counted in preorder, from 0.
const CHOICES: &[(&[Part<'static>], usize)] = &[(&ONE, 0), (&BEHIND, 0), (&INNER, 1), (&OWN, 1)];

// `mps_local::project` names the choice of others whose branches differ for c, the role at place 2. The law
// `projection_laws` says that a role's type names other roles alone, and has no more nodes or levels than the protocol;
// its call does nothing: it shows that others can call it so.
#[test]
fn the_choice_whose_branches_differ_is_named(rt: HostRuntime) {
    for row in CHOICES {
        fails_at(&rt, chain(&rt, row.0), 2, row.1);
    }
    projection_laws();
}

// What a, b and c may say, the place of a role, and its type.
const TYPES: &[(&[Part<'static>], u8, &str)] = &[
    (&ONE, 0, "choose b { l : end , r : send c int . end }"),
    (&ONE, 1, "pick a { l : end , r : end }"),
    (&RELAY, 0, "send b int . pick c { ok : end , no : end }"),
    (&RELAY, 1, "recv a int . send c int . end"),
    (&RELAY, 2, "recv b int . choose a { ok : end , no : end }"),
    (&MESSAGES, 0, "send b int . end"),
    (&MESSAGES, 1, "recv a int . send c int . end"),
    (&MESSAGES, 2, "recv b int . end"),
    (&LOOP, 0, "rec X . send b int . X"),
    (&LOOP, 1, "rec X . recv a int . X"),
    (&LOOP, 2, "end"),
    (&LOOPS, 0, "rec X . send c int . rec Y . send b int . X"),
    (&LOOPS, 1, "rec X . rec Y . recv a int . X"),
    (&LOOPS, 2, "rec X . recv a int . rec Y . X"),
    (&TOLD, 0, "choose b { l : send c int . end }"),
    (&TOLD, 2, "recv a int . end"),
    (&IDLE, 2, "end"),
];

// `mps_local::project` gives the role's local type. It is compared as text (`write_local`), and so is a copy.
#[test]
fn each_role_has_its_local_type(rt: HostRuntime) {
    for row in TYPES {
        does(&rt, &THREE, chain(&rt, row.0), row.1, row.2);
    }
}

// What `a`, `b` and `c` do, or the fault of the first that can't be projected.
fn types_of(
    rt: &(impl Abort + AllocGlobal),
    parts: &[Part<'_>],
) -> Result<Vec<Local>, ProjectFault> {
    let protocol = protocol(rt, &THREE, chain(rt, parts));
    assert!(rt; check(&protocol).is_ok(), "a protocol without faults");
    project_all(rt.alloc(), &protocol)
}

// `mps_local::project_all` gives the types of a, b and c in order: in RELAY a sends to b, b receives from a, and c from
// b. In ONE a and b have types and c, at place 2, has none, which is named with the choice, 0. That the first of
// several roles is named this doesn't show.
#[test]
fn all_roles_are_projected_in_order(rt: HostRuntime) {
    let types = types_of(&rt, &RELAY).expect(&rt, "types");
    let peers = match types.as_slice() {
        [
            Local::Send { peer: a, .. },
            Local::Recv { peer: b, .. },
            Local::Recv { peer: c, .. },
        ] => { Some((a.index(), b.index(), c.index())) }
        _ => None,
    };
    assert_eq!(rt;
        peers,
        Some((1, 0, 1)),
        "the peers of a's send and of b's and c's receipts"
    );
    let of_c = ProjectFault::Unmergeable {
        role: Role::new(2),
        choice: 0,
    };
    assert!(rt;
        types_of(&rt, &ONE).err() == Some(of_c),
        "no type for c, for choice 0"
    );
}

// A choice of `a` between these two, in a loop in a loop.
fn chosen(rt: &(impl Abort + AllocGlobal), left: &[Part<'_>], right: &[Part<'_>]) -> Global {
    let right = more(rt, "r", chain(rt, right), Branches::NoMore);
    let choice = Global::Choice {
        sender: name(rt, "a"),
        receiver: name(rt, "b"),
        branches: more(rt, "l", chain(rt, left), right),
    };
    let inner = in_front(rt, &Part::Rec("Y"), choice);
    in_front(rt, &Part::Rec("X"), inner)
}

// What `c` may do after a choice of others, and how its type is written then.
type Way = (&'static [Part<'static>], &'static str);

const INT: Way = (
    &[Part::Sent("a", "c", Int)],
    "rec X . rec Y . recv a int . end",
);

const BOOL: Way = (
    &[Part::Sent("a", "c", Bool)],
    "rec X . rec Y . recv a bool . end",
);

const OF_B: Way = (
    &[Part::Sent("b", "c", Int)],
    "rec X . rec Y . recv b int . end",
);

const GIVES: Way = (
    &[Part::Sent("c", "a", Int)],
    "rec X . rec Y . send a int . end",
);

const X: Way = (
    &[Part::Choice("a", "c", &["x"])],
    "rec X . rec Y . pick a { x : end }",
);

const Y: Way = (
    &[Part::Choice("a", "c", &["y"])],
    "rec X . rec Y . pick a { y : end }",
);

const X_OF_B: Way = (
    &[Part::Choice("b", "c", &["x"])],
    "rec X . rec Y . pick b { x : end }",
);

const CHOOSES: Way = (
    &[Part::Choice("c", "a", &["x"])],
    "rec X . rec Y . choose a { x : end }",
);

const OUTER: Way = (
    &[Part::Sent("a", "c", Int), Part::Var("X")],
    "rec X . rec Y . recv a int . X",
);

const INNER_ONE: Way = (
    &[Part::Sent("a", "c", Int), Part::Var("Y")],
    "rec X . rec Y . recv a int . Y",
);

// The third role has a type where both branches are the same to it, and none where they differ in
// one thing alone: the sort, the peer, the label, the variable or the kind of action.
const DIFFERENT: &[(Way, Way)] = &[
    (INT, BOOL),
    (INT, OF_B),
    (INT, GIVES),
    (X, Y),
    (X, X_OF_B),
    (X, CHOOSES),
    (OUTER, INNER_ONE),
];

// The third role has no type where `a` chooses between these two.
fn differ(rt: &(impl Abort + AllocGlobal), one: &Way, other: &Way) {
    fails_at(rt, chosen(rt, one.0, other.0), 2, 0);
}

// The third role has its type where `a` chooses between two that are the same to it.
fn is_same(rt: &(impl Abort + AllocGlobal), way: &Way) {
    does(rt, &THREE, chosen(rt, way.0, way.0), 2, way.1);
}

// `mps_local::project` merges branches for c, the role at place 2, where they are equal for it, and names choice 0
// where not.
#[test]
fn branches_that_are_equal_for_a_role_are_merged(rt: HostRuntime) {
    for pair in DIFFERENT {
        differ(&rt, &pair.0, &pair.1);
        differ(&rt, &pair.1, &pair.0);
        is_same(&rt, &pair.0);
        is_same(&rt, &pair.1);
    }
}

const EIGHT: [&str; 8] = ["a", "b", "c", "d", "e", "f", "g", "h"];

// What the roles after the second do in each branch: a relay of values of all sorts.
const PASSED_ON: [Part<'static>; 6] = [
    Part::Sent("a", "c", Int),
    Part::Sent("c", "d", Bool),
    Part::Sent("d", "e", Text),
    Part::Sent("e", "f", Int),
    Part::Sent("f", "g", Bool),
    Part::Sent("g", "h", Text),
];

const SIXTEEN: [&str; 16] = [
    "l0", "l1", "l2", "l3", "l4", "l5", "l6", "l7", "l8", "l9", "l10", "l11", "l12", "l13", "l14",
    "l15",
];

// A choice of `a` between 16 labels, of which each has a value of its own sort for `b`.
fn wide_choice(rt: &(impl Abort + AllocGlobal)) -> Global {
    let mut branches = Branches::NoMore;
    for k in 0..16usize {
        let place = 15 - k;
        let sort = [Int, Bool, Text][place % 3];
        let next = in_front(rt, &Part::Sent("a", "b", sort), chain(rt, &PASSED_ON));
        branches = more(rt, SIXTEEN[place], next, branches);
    }
    Global::Choice {
        sender: name(rt, "a"),
        receiver: name(rt, "b"),
        branches,
    }
}

// What `a` gives after each label.
const GIVEN: &str = "choose b { \
    l0 : send b int . send c int . end , l1 : send b bool . send c int . end , \
    l2 : send b text . send c int . end , l3 : send b int . send c int . end , \
    l4 : send b bool . send c int . end , l5 : send b text . send c int . end , \
    l6 : send b int . send c int . end , l7 : send b bool . send c int . end , \
    l8 : send b text . send c int . end , l9 : send b int . send c int . end , \
    l10 : send b bool . send c int . end , l11 : send b text . send c int . end , \
    l12 : send b int . send c int . end , l13 : send b bool . send c int . end , \
    l14 : send b text . send c int . end , l15 : send b int . send c int . end }";

// What `b` takes after each label.
const TAKEN: &str = "pick a { \
    l0 : recv a int . end , l1 : recv a bool . end , \
    l2 : recv a text . end , l3 : recv a int . end , \
    l4 : recv a bool . end , l5 : recv a text . end , \
    l6 : recv a int . end , l7 : recv a bool . end , \
    l8 : recv a text . end , l9 : recv a int . end , \
    l10 : recv a bool . end , l11 : recv a text . end , \
    l12 : recv a int . end , l13 : recv a bool . end , \
    l14 : recv a text . end , l15 : recv a int . end }";

// The place of a role, from a to h, and its type.
const WIDE: &[(u8, &str)] = &[
    (0, GIVEN),
    (1, TAKEN),
    (2, "recv a int . send d bool . end"),
    (3, "recv c bool . send e text . end"),
    (4, "recv d text . send f int . end"),
    (5, "recv e int . send g bool . end"),
    (6, "recv f bool . send h text . end"),
    (7, "recv g text . end"),
];

// `mps_local::project` merges 16 branches, the most a choice may have, for each of six roles that do the same in all of
// them.
#[test]
fn sixteen_equal_branches_are_merged(rt: HostRuntime) {
    for row in WIDE {
        does(&rt, &EIGHT, wide_choice(&rt), row.0, row.1);
    }
}

// How many nodes or branches run the stack out where a function calls itself for each.
const MANY: usize = 100_000;

// Branches of one more label, `l`.
fn and(
    rt: &(impl Abort + AllocGlobal),
    next: Local,
    others: mps_local::Branches,
) -> mps_local::Branches
    ensures { AllPeers (λ peer. peer < 2) (plain next)
        → AllBranchPeers (λ peer. peer < 2) (plain_branches others)
        → AllBranchPeers (λ peer. peer < 2) (plain_branches result) }
{
    mps_local::Branches::more(rt.alloc(), name(rt, "l"), next, others).expect(rt, "memory")
}

// A choice of one label, an input after it and an output after that.
fn turn(rt: &(impl Abort + AllocGlobal), next: Local) -> Local {
    let peer = Role::new(1);
    let sent = Local::send(rt.alloc(), peer, Int, next).expect(rt, "memory");
    let got = Local::recv(rt.alloc(), peer, Int, sent).expect(rt, "memory");
    Local::Select {
        peer,
        branches: and(rt, got, mps_local::Branches::NoMore),
    }
}

// `mps_local::Local` of 300,000 nodes in one another, 3 for each of MANY turns, is dropped at the end of the test,
// which must not run out of stack.
#[test]
fn a_deep_local_type_is_dropped(rt: HostRuntime) {
    let mut tree = Local::End;
    for _ in 0..MANY {
        tree = turn(&rt, tree);
    }
    assert!(rt; matches!(&tree, Local::Select { .. }), "a tree of choices");
}

// So many outputs to the second role, one after the other.
fn sends(rt: &(impl Abort + AllocGlobal), count: usize) -> Local
    ensures { AllPeers (λ peer. peer < 2) (plain result) }
{
    let mut tree = Local::End;
    for _ in 0..count {
        tree = Local::send(rt.alloc(), Role::new(1), Int, tree).expect(rt, "memory");
    }
    tree
}

// So many choices of one branch, each in the one before it.
fn choices(rt: &(impl Abort + AllocGlobal), count: usize) -> Local
    ensures { AllPeers (λ peer. peer < 2) (plain result) }
{
    let peer = Role::new(1);
    let mut tree = Local::End;
    for _ in 0..count {
        let branches = and(rt, tree, mps_local::Branches::NoMore);
        tree = Local::Select { peer, branches };
    }
    tree
}

// A choice of so many branches, of which each ends.
fn choice(rt: &(impl Abort + AllocGlobal), count: usize) -> Local
    ensures { AllPeers (λ peer. peer < 2) (plain result) }
{
    let peer = Role::new(1);
    let mut branches = mps_local::Branches::NoMore;
    for _ in 0..count {
        branches = and(rt, Local::End, branches);
    }
    Local::Branch { peer, branches }
}

// The roles `a` and `b`.
fn two_roles(rt: &(impl Abort + AllocGlobal)) -> Roles
    ensures { length result ≡ 2 }
{
    Roles::of(rt.alloc(), &[name(rt, "a"), name(rt, "b")]).expect(rt, "roles")
}

// The text of the type is so long, where `a` and `b` are the roles.
fn is_so_long(rt: &(impl Abort + AllocGlobal), t: Local, length: usize)
    requires { AllPeers (λ peer. peer < 2) (plain t) }
{
    let text = write_local(rt.alloc(), &two_roles(rt), &t).expect(rt, "memory");
    assert_eq!(rt; text.len(), length, "the length of the text");
}

// `mps_local::write_local` writes types of 100,000 nodes or branches. Of so long a text the length is looked at, token
// by token.
#[test]
fn deep_and_wide_types_are_written(rt: HostRuntime) {
    is_so_long(
        &rt,
        sends(&rt, MANY),
        "send b int . ".len() * MANY + "end".len(),
    );
    is_so_long(
        &rt,
        choices(&rt, MANY),
        "choose b { l :  }".len() * MANY + "end".len(),
    );
    let commas = ", ".len() * (MANY - 1);
    is_so_long(
        &rt,
        choice(&rt, MANY),
        "pick b { }".len() + "l : end ".len() * MANY + commas,
    );
}

// An output of that place in front of the type: two peers and three sorts take turns.
fn output(rt: &(impl Abort + AllocGlobal), place: usize, next: Local) -> Local {
    let peer = Role::new([1, 2][place % 2]);
    let sort = [Int, Bool, Text][place % 3];
    Local::send(rt.alloc(), peer, sort, next).expect(rt, "memory")
}

// So many outputs, one after the other.
fn outputs(rt: &(impl Abort + AllocGlobal), count: usize) -> Local {
    let mut tree = Local::End;
    for place in 0..count {
        tree = output(rt, place, tree);
    }
    tree
}

// So many branches, with an output after each: three labels take turns.
fn output_branches(rt: &(impl Abort + AllocGlobal), count: usize) -> mps_local::Branches {
    let mut branches = mps_local::Branches::NoMore;
    for place in 0..count {
        let label = name(rt, ["l", "r", "again"][place % 3]);
        let next = output(rt, place, Local::End);
        branches = mps_local::Branches::more(rt.alloc(), label, next, branches).expect(
            rt, "memory",
        );
    }
    branches
}

// Whether both types send the same values to the same peers, in the same order, and then end.
fn send_alike(one: &Local, other: &Local) -> bool {
    let (mut one, mut other) = (one, other);
    loop {
        match (one, other) {
            (Local::End, Local::End) => return true,
            (
                Local::Send { peer, sort, next },
                Local::Send {
                    peer: to,
                    sort: of,
                    next: rest,
                },
            ) => {
                if !peer.is(*to) || *sort != *of {
                    return false;
                }
                one = next;
                other = rest;
            }
            _ => return false,
        }
    }
}

// Whether both have the same labels in the same order, and the types after them send alike.
fn choose_alike(one: &mps_local::Branches, other: &mps_local::Branches) -> bool {
    let (mut ones, mut others) = (one.iter(), other.iter());
    while let Some((label, next)) = ones.next() {
        match others.next() {
            Some((name, rest)) if label.is(name) && send_alike(next, rest) => {}
            _ => return false,
        }
    }
    others.next().is_none()
}

// Whether both are choices that are made, which choose alike.
fn make_choices_alike(one: &Local, other: &Local) -> bool {
    match (one, other) {
        (
            Local::Select { branches, .. },
            Local::Select {
                branches: copied,
                ..
            },
        ) => { choose_alike(branches, copied) }
        _ => false,
    }
}

// `mps_local::Local::copy` and `Branches::copy` give equal types, of 100,000 nodes in one another or as many branches.
#[test]
fn deep_and_wide_types_are_copied(rt: HostRuntime) {
    let deep = outputs(&rt, MANY);
    let copied = deep.copy(rt.alloc()).expect(&rt, "memory");
    assert!(rt; send_alike(&deep, &copied), "the outputs");
    let branches = output_branches(&rt, MANY);
    let copied = branches.copy(rt.alloc()).expect(&rt, "memory");
    assert!(rt; choose_alike(&branches, &copied), "the branches");
    let wide = Local::Select {
        peer: Role::new(1),
        branches,
    };
    let copied = wide.copy(rt.alloc()).expect(&rt, "memory");
    assert!(rt; make_choices_alike(&wide, &copied), "the choice");
}

// So many outputs to the second role, and then an input from the third.
fn ends_with_another(rt: &(impl Abort + AllocGlobal), count: usize) -> Local {
    let last = Local::recv(rt.alloc(), Role::new(2), Text, Local::End);
    let mut tree = last.expect(rt, "memory");
    for _ in 0..count {
        tree = Local::send(rt.alloc(), Role::new(1), Int, tree).expect(rt, "memory");
    }
    tree
}

// How many roles there are, which one it is, and whether the second is another one among them.
const OTHERS: &[(usize, usize, bool)] = &[(2, 0, true), (2, 1, false), (1, 0, false)];

// The type that names the second role names others alone where it is another one.
fn names_another(rt: &impl Abort, t: Local, row: &(usize, usize, bool)) {
    assert!(rt;
        t.names_others(row.0, row.1) == row.2,
        "roles, role and whether it is another: {row:?}"
    );
}

// `mps_local::Local::names_others`: the types name the role at place 1, `end` names none, and the last type place 2
// besides.
#[test]
fn a_type_that_names_its_own_role_is_told(rt: HostRuntime) {
    for row in OTHERS {
        // so many nodes run the stack out where a function calls itself for each
        names_another(&rt, sends(&rt, 1_000_000), row);
        names_another(&rt, choices(&rt, MANY), row);
        names_another(&rt, choice(&rt, MANY), row);
        names_another(&rt, Local::End, &(row.0, row.1, true));
    }
    names_another(&rt, ends_with_another(&rt, 1_000_000), &(2, 0, false));
}
