//! mps_table: a table shows at each node what the type allows there, and a type with a fault is refused by it.
ghost use Rattle.std.specs.Prelude.{IfSome};
ghost use Rattle.mps_table.specs.Graph.{IsNode};

use crate::words::{more, variable};
use mps_base::Sort::{self, Bool, Int, Text};
use mps_base::{Name, Role};
use mps_local::{Branches, Local, LocalFault};
use mps_table::{Expect, Node, Table, compile};
use std::alloc::AllocGlobal;
use std::process::Abort;

// The roles by their places.
const A: u8 = 0;

const B: u8 = 1;

const C: u8 = 2;

const D: u8 = 3;

const E: u8 = 4;

const F: u8 = 5;

const G: u8 = 6;

const H: u8 = 7;

// A node with one way on, with what comes after it left out; or none.
#[derive(Clone, Copy)]
enum Part {
    Nothing,
    Rec(&'static str),
    Send(u8, Sort),
    Recv(u8, Sort),
}

// A label, the node after it, and the variable that stands then, or `end`.
type Arm = (&'static str, Part, &'static str);

// The node in front of `next`.
fn in_front(rt: &(impl Abort + AllocGlobal), part: &Part, next: Local) -> Local {
    let made = match part {
        Part::Nothing => Ok(next),
        Part::Rec(letters) => Local::rec(rt.alloc(), variable(rt, letters), next),
        Part::Send(to, sort) => Local::send(rt.alloc(), Role::new(*to), *sort, next),
        Part::Recv(from, sort) => Local::recv(rt.alloc(), Role::new(*from), *sort, next),
    };
    made.expect(rt, "memory")
}

// The variable of these letters, or `end`.
fn last(rt: &impl Abort, letters: &str) -> Local {
    if letters == "end" {
        Local::End
    } else {
        Local::Var(variable(rt, letters))
    }
}

// The branches in front of the others.
fn in_front_of(rt: &(impl Abort + AllocGlobal), arms: &[Arm], others: Branches) -> Branches {
    let mut branches = others;
    for k in 0..arms.len() {
        let arm = &arms[arms.len() - 1 - k];
        let next = in_front(rt, &arm.1, last(rt, arm.2));
        branches = more(rt, arm.0, next, branches);
    }
    branches
}

// A choice of these labels that is made.
fn chooses(rt: &(impl Abort + AllocGlobal), peer: u8, arms: &[Arm]) -> Local {
    Local::Select {
        peer: Role::new(peer),
        branches: in_front_of(rt, arms, Branches::NoMore),
    }
}

// A choice of these labels that is taken.
fn picks(rt: &(impl Abort + AllocGlobal), peer: u8, arms: &[Arm]) -> Local {
    Local::Branch {
        peer: Role::new(peer),
        branches: in_front_of(rt, arms, Branches::NoMore),
    }
}

// The parts, one after the other, in front of `next`.
fn chain(rt: &(impl Abort + AllocGlobal), parts: &[Part], next: Local) -> Local {
    let mut body = next;
    for k in 0..parts.len() {
        body = in_front(rt, &parts[parts.len() - 1 - k], body);
    }
    body
}

// The node that such a choice leads to from a node, if it does.
fn next(table: &Table, node: Node, choice: Option<usize>) -> Option<Node>
    requires { IsNode table.now node }
    ensures { IfSome result (λ after. IsNode table.now after) }
{
    match choice {
        None => match table.expect(node) {
            Expect::Send(..) | Expect::Recv(..) => Some(table.after(node, None)),
            _ => None,
        },
        Some(place) => match table.expect(node) {
            Expect::Select(_, labels) | Expect::Branch(_, labels) if place < labels.len() => {
                Some(table.after(node, Some(place)))
            }
            _ => None,
        },
    }
}

// The node that these choices lead to from the first one.
fn reached(table: &Table, choices: &[Option<usize>]) -> Option<Node>
    ensures { IfSome result (λ node. IsNode table.now node) }
{
    let mut node = table.first();
    for choice in choices {
        node = next(table, node, *choice)?;
    }
    Some(node)
}

// What stands at a node: the peer, the sort and the labels of what is expected there.
#[derive(Clone, Copy)]
enum Shown<'a> {
    NoNode,
    End,
    Send(u8, Sort),
    Recv(u8, Sort),
    Choose(u8, &'a [&'a str]),
    Pick(u8, &'a [&'a str]),
}

// The choices that lead to a node, and what stands there.
type Row = (&'static [Option<usize>], Shown<'static>);

// Whether these are the labels.
pub(super) fn are_labels(labels: &[Name], texts: &[&str]) -> bool {
    for (label, text) in labels.iter().zip(texts) {
        if !label.is_spelled(text.as_bytes()) {
            return false;
        }
    }
    labels.len() == texts.len()
}

// Whether what is expected is shown so.
fn is_shown(expect: Expect<'_>, shown: &Shown<'_>) -> bool {
    match expect {
        Expect::End => matches!(shown, Shown::End),
        Expect::Send(peer, sort) => {
            matches!(shown, Shown::Send(to, of) if peer.is(Role::new(*to)) && sort.is(*of))
        }
        Expect::Recv(peer, sort) => {
            matches!(shown, Shown::Recv(to, of) if peer.is(Role::new(*to)) && sort.is(*of))
        }
        Expect::Select(peer, labels) => match shown {
            Shown::Choose(to, texts) => peer.is(Role::new(*to)) && are_labels(labels, texts),
            _ => false,
        },
        Expect::Branch(peer, labels) => match shown {
            Shown::Pick(to, texts) => peer.is(Role::new(*to)) && are_labels(labels, texts),
            _ => false,
        },
    }
}

// Whether this stands at the node that the choices lead to.
fn shows(table: &Table, choices: &[Option<usize>], shown: &Shown<'_>) -> bool {
    // what an `Expect` may hold: the prover covers a function with one only where it names these
    let _held: Option<(Role, Sort, Name)> = None;
    match reached(table, choices) {
        Some(node) => is_shown(table.expect(node), shown),
        None => matches!(shown, Shown::NoNode),
    }
}

// The table of the type.
fn table_of(rt: &(impl Abort + AllocGlobal), t: &Local) -> Table {
    compile(rt.alloc(), t).expect(rt, "a table")
}

// Each row is shown in the table of the type.
fn shows_each(rt: &(impl Abort + AllocGlobal), t: Local, rows: &[Row]) {
    let table = table_of(rt, &t);
    for (place, row) in rows.iter().enumerate() {
        assert!(rt; shows(&table, row.0, &row.1), "row {place} (from 0)");
    }
}

// Ways through the type of the test, and what stands there. A label is named by its place, a value by None.
const CHAIN: &[Row] = &[
    (&[], Shown::Send(B, Int)),
    (&[None], Shown::Pick(C, &["ok", "no"])),
    (&[None, Some(0)], Shown::End),
    (&[None, Some(1)], Shown::End),
    // there is no third label, and no label to choose at first
    (&[None, Some(2)], Shown::NoNode),
    (&[Some(0)], Shown::NoNode),
];

// Two labels, and the end behind each.
const OK_OR_NO: &[Arm] = &[("ok", Part::Nothing, "end"), ("no", Part::Nothing, "end")];

// `mps_table::compile` of `send b int . pick c { ok : end , no : end }` gives a table that shows at each node what is
// allowed there.
#[test]
fn a_table_shows_each_node_of_a_chain(rt: HostRuntime) {
    let t = in_front(&rt, &Part::Send(B, Int), picks(&rt, C, OK_OR_NO));
    shows_each(&rt, t, CHAIN);
}

// An output in a loop, or none more.
const ROUND: &[Arm] = &[
    ("go", Part::Send(B, Int), "X"),
    ("stop", Part::Nothing, "end"),
];

// Ways round the loop, and what stands there.
const ROUNDS: &[Row] = &[
    (&[], Shown::Choose(B, &["go", "stop"])),
    (&[Some(0)], Shown::Send(B, Int)),
    (&[Some(0), None], Shown::Choose(B, &["go", "stop"])),
    (&[Some(0), None, Some(0)], Shown::Send(B, Int)),
    (&[Some(0), None, Some(0), None, Some(1)], Shown::End),
];

// `mps_table::compile` of `rec X . choose b { go : send b int . X , stop : end }` gives a table whose loop leads back
// to its choice.
#[test]
fn a_loop_leads_back_to_its_choice(rt: HostRuntime) {
    let round = chooses(&rt, B, ROUND);
    shows_each(&rt, in_front(&rt, &Part::Rec("X"), round), ROUNDS);
}

// `rec X . recv a bool . rec Y .`
const TURN_BEGINS: &[Part] = &[Part::Rec("X"), Part::Recv(A, Bool), Part::Rec("Y")];

// A text for a and then the inner loop again; the outer loop again; the end.
const TURN: &[Arm] = &[
    ("inner", Part::Send(A, Text), "Y"),
    ("outer", Part::Nothing, "X"),
    ("out", Part::Nothing, "end"),
];

// The pick behind both loops.
const PICK: Shown<'static> = Shown::Pick(A, &["inner", "outer", "out"]);

// Ways through both loops, and what stands there.
const TURNS: &[Row] = &[
    (&[], Shown::Recv(A, Bool)),
    (&[None], PICK),
    (&[None, Some(0)], Shown::Send(A, Text)),
    (&[None, Some(0), None], PICK),
    (&[None, Some(1)], Shown::Recv(A, Bool)),
    (&[None, Some(1), None], PICK),
    (&[None, Some(2)], Shown::End),
];

// `mps_table::compile` of two loops, one in the other, gives a table in which each leads back to its own beginning.
#[test]
fn each_of_two_loops_leads_back_to_its_own_beginning(rt: HostRuntime) {
    shows_each(&rt, chain(&rt, TURN_BEGINS, picks(&rt, A, TURN)), TURNS);
}

// `rec X . rec Y . send b int .`
const HEADS: &[Part] = &[Part::Rec("X"), Part::Rec("Y"), Part::Send(B, Int)];

// Back to either loop.
const BACK: &[Arm] = &[("x", Part::Nothing, "X"), ("y", Part::Nothing, "Y")];

// `mps_table::compile` makes no nodes of two `rec`s before one act: both variables lead to the first node, the output.
#[test]
fn two_loops_before_one_act_share_its_node(rt: HostRuntime) {
    let table = table_of(&rt, &chain(&rt, HEADS, picks(&rt, B, BACK)));
    for choices in [[None, Some(0)], [None, Some(1)]] {
        assert!(rt;
            reached(&table, &choices) == Some(table.first()),
            "after {choices:?}"
        );
    }
}

// Behind each of 16 labels, as many as there may be, one input, each sort and each of eight roles in turn.
const INPUTS: &[Arm] = &[
    ("a", Part::Recv(A, Int), "end"),
    ("b", Part::Recv(B, Bool), "end"),
    ("c", Part::Recv(C, Text), "end"),
    ("d", Part::Recv(D, Int), "end"),
    ("e", Part::Recv(E, Bool), "end"),
    ("f", Part::Recv(F, Text), "end"),
    ("g", Part::Recv(G, Int), "end"),
    ("h", Part::Recv(H, Bool), "end"),
    ("i", Part::Recv(A, Text), "end"),
    ("j", Part::Recv(B, Int), "end"),
    ("k", Part::Recv(C, Bool), "end"),
    ("l", Part::Recv(D, Text), "end"),
    ("m", Part::Recv(E, Int), "end"),
    ("n", Part::Recv(F, Bool), "end"),
    ("o", Part::Recv(G, Text), "end"),
    ("p", Part::Recv(H, Int), "end"),
];

// The labels.
const LETTERS: &[&str] = &[
    "a", "b", "c", "d", "e", "f", "g", "h", "i", "j", "k", "l", "m", "n", "o", "p",
];

// Ways to the first label, those in the middle and the last, and what stands there. Place 16 is one too many.
const WIDE: &[Row] = &[
    (&[], Shown::Choose(H, LETTERS)),
    (&[Some(0)], Shown::Recv(A, Int)),
    (&[Some(7)], Shown::Recv(H, Bool)),
    (&[Some(8)], Shown::Recv(A, Text)),
    (&[Some(15)], Shown::Recv(H, Int)),
    (&[Some(15), None], Shown::End),
    (&[Some(16)], Shown::NoNode),
];

// `mps_table::compile` of a choice of 16 labels gives a table that shows them in order, and behind each what is allowed
// there.
#[test]
fn a_table_shows_sixteen_labels_in_order(rt: HostRuntime) {
    shows_each(&rt, chooses(&rt, H, INPUTS), WIDE);
}

// Behind each label but h one output.
const OUTPUTS_BEFORE: &[Arm] = &[
    ("a", Part::Send(A, Int), "end"),
    ("b", Part::Send(B, Bool), "end"),
    ("c", Part::Send(C, Text), "end"),
    ("d", Part::Send(D, Int), "end"),
    ("e", Part::Send(E, Bool), "end"),
    ("f", Part::Send(F, Text), "end"),
    ("g", Part::Send(G, Int), "end"),
];

const OUTPUTS_AFTER: &[Arm] = &[
    ("i", Part::Send(A, Text), "end"),
    ("j", Part::Send(B, Int), "end"),
    ("k", Part::Send(C, Bool), "end"),
    ("l", Part::Send(D, Text), "end"),
    ("m", Part::Send(E, Int), "end"),
    ("n", Part::Send(F, Bool), "end"),
    ("o", Part::Send(G, Text), "end"),
    ("p", Part::Send(H, Int), "end"),
];

// Sixteen labels after the eighth of sixteen; after each other one an output.
fn choice_below_another(rt: &(impl Abort + AllocGlobal)) -> Local {
    let others = in_front_of(rt, OUTPUTS_AFTER, Branches::NoMore);
    let eighth = more(rt, "h", picks(rt, G, INPUTS), others);
    Local::Select {
        peer: Role::new(H),
        branches: in_front_of(rt, OUTPUTS_BEFORE, eighth),
    }
}

// Ways to labels of both choices, of which the second stands behind h, at place 7.
const WIDE_BELOW_ANOTHER: &[Row] = &[
    (&[], Shown::Choose(H, LETTERS)),
    (&[Some(0)], Shown::Send(A, Int)),
    (&[Some(6)], Shown::Send(G, Int)),
    (&[Some(7)], Shown::Pick(G, LETTERS)),
    (&[Some(8)], Shown::Send(A, Text)),
    (&[Some(15)], Shown::Send(H, Int)),
    (&[Some(16)], Shown::NoNode),
    (&[Some(7), Some(0)], Shown::Recv(A, Int)),
    (&[Some(7), Some(7)], Shown::Recv(H, Bool)),
    (&[Some(7), Some(15)], Shown::Recv(H, Int)),
    (&[Some(7), Some(15), None], Shown::End),
    (&[Some(7), Some(16)], Shown::NoNode),
];

// `mps_table::compile` keeps the labels of a choice and of one behind its eighth label apart, 16 of each.
#[test]
fn the_labels_of_two_choices_are_kept_apart(rt: HostRuntime) {
    shows_each(&rt, choice_below_another(&rt), WIDE_BELOW_ANOTHER);
}

// So many of the part and then the end.
fn many(rt: &(impl Abort + AllocGlobal), count: usize, part: &Part) -> Local {
    let mut body = Local::End;
    for _ in 0..count {
        body = in_front(rt, part, body);
    }
    body
}

// What stands in the five chains.
const FIVE: [(&str, u8, Sort); 5] = [
    ("a", A, Int),
    ("b", B, Bool),
    ("c", C, Text),
    ("d", D, Int),
    ("e", E, Bool),
];

// A choice of five labels. After the last stand so many inputs and after each other one 50, all
// of one sort, and then the end.
fn five_chains(rt: &(impl Abort + AllocGlobal), last: usize) -> Local {
    let mut branches = Branches::NoMore;
    for k in 0..5usize {
        let count = if k == 0 { last } else { 50 };
        let (label, from, sort) = FIVE[4 - k];
        branches = more(
            rt,
            label,
            many(rt, count, &Part::Recv(from, sort)),
            branches,
        );
    }
    let peer = Role::new(B);
    Local::Select { peer, branches }
}

// The table shows this 50 times after the label of that place, and then the end.
fn walks(rt: &impl Abort, table: &Table, place: usize, shown: &Shown<'_>) {
    let mut way = [None; 51];
    way[0] = Some(place);
    for count in 1..51usize {
        assert!(rt;
            shows(table, &way[..count], shown),
            "branch {place}, node {count}"
        );
    }
    assert!(rt;
        shows(table, &way, &Shown::End),
        "the end of branch {place}"
    );
}

// `mps_table::compile` makes a table of 256 nodes, the most: the choice, and five times 50 inputs and an end. 257 are a
// fault.
#[test]
fn a_type_of_256_nodes_is_walked_to_its_end(rt: HostRuntime) {
    let table = table_of(&rt, &five_chains(&rt, 50));
    for (place, (_, from, sort)) in FIVE.iter().enumerate() {
        walks(&rt, &table, place, &Shown::Recv(*from, *sort));
    }
    assert!(rt;
        shows(&table, &[Some(5)], &Shown::NoNode),
        "no branch at place 5"
    );
    refuses(&rt, five_chains(&rt, 51), LocalFault::TooManyNodes);
}

// The type is refused for this fault.
fn refuses(rt: &(impl Abort + AllocGlobal), t: Local, fault: LocalFault) {
    assert_eq!(rt;
        compile(rt.alloc(), &t).err(),
        Some(fault),
        "a type with {fault:?}"
    );
}

// A choice of so many branches of one label, of which each ends.
fn wide(rt: &(impl Abort + AllocGlobal), count: usize) -> Local {
    let mut branches = Branches::NoMore;
    for _ in 0..count {
        branches = more(rt, "l", Local::End, branches);
    }
    let peer = Role::new(B);
    Local::Branch { peer, branches }
}

// `mps_table::compile` makes a table of 64 levels (63 outputs and the end), and else names the first fault, of types of
// any size.
#[test]
fn a_type_with_a_fault_has_no_table(rt: HostRuntime) {
    let output = Part::Send(B, Int);
    shows_each(&rt, many(&rt, 63, &output), &[]);
    refuses(&rt, many(&rt, 64, &output), LocalFault::TooDeep);
    refuses(&rt, many(&rt, 1_000_000, &output), LocalFault::TooManyNodes);
    refuses(&rt, wide(&rt, 100_000), LocalFault::TooManyNodes);
    let idle = in_front(&rt, &Part::Rec("X"), last(&rt, "X"));
    refuses(&rt, idle, LocalFault::Unguarded);
    refuses(&rt, last(&rt, "X"), LocalFault::Unbound);
}

// A label twice, and behind the first a variable without a `rec`: the fault of the choice comes first.
const DOUBLE: &[Arm] = &[("l", Part::Nothing, "X"), ("l", Part::Nothing, "end")];

// One label more than a choice may have.
const SEVENTEEN: &[Arm] = &[
    ("a", Part::Nothing, "end"),
    ("b", Part::Nothing, "end"),
    ("c", Part::Nothing, "end"),
    ("d", Part::Nothing, "end"),
    ("e", Part::Nothing, "end"),
    ("f", Part::Nothing, "end"),
    ("g", Part::Nothing, "end"),
    ("h", Part::Nothing, "end"),
    ("i", Part::Nothing, "end"),
    ("j", Part::Nothing, "end"),
    ("k", Part::Nothing, "end"),
    ("l", Part::Nothing, "end"),
    ("m", Part::Nothing, "end"),
    ("n", Part::Nothing, "end"),
    ("o", Part::Nothing, "end"),
    ("p", Part::Nothing, "end"),
    ("q", Part::Nothing, "end"),
];

// `mps_table::compile` names what is wrong with the labels of a choice, or with a `rec` in one of the same variable.
#[test]
fn the_fault_of_a_choice_or_a_loop_is_named(rt: HostRuntime) {
    refuses(&rt, chooses(&rt, B, &[]), LocalFault::NoBranches);
    refuses(&rt, picks(&rt, B, DOUBLE), LocalFault::DoubleLabel);
    refuses(&rt, picks(&rt, B, SEVENTEEN), LocalFault::TooManyBranches);
    let twice = [Part::Rec("X"), Part::Rec("X")];
    refuses(
        &rt,
        chain(&rt, &twice, last(&rt, "X")),
        LocalFault::Shadowed,
    );
}
