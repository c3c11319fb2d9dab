//! mps_monitor: a command is allowed, or refused for the first violation, and leads to the node of what comes next.
ghost use Rattle.std.specs.Prelude.{IfOk};
ghost use Rattle.mps_table.specs.Graph.{IsNode};

use crate::words::{name, value, variable};
use mps_base::{Message, Name, Role, Sort, Value};
use mps_local::{Branches, Local};
use mps_monitor::*;
use mps_table::{Expect, Node, Table, compile};
use std::alloc::AllocGlobal;
use std::process::Abort;

// Two peers. The types of the constants below name b, and c is another role for them; the pick of ANSWERED names c.
const B: u8 = 1;

const C: u8 = 2;

// What a role asks for: its peer's place, and the label or the value as it is spelled.
#[derive(Clone, Copy, Debug)]
enum Ask {
    Send(u8, &'static str),
    Choose(u8, &'static str),
    Receive(u8),
    Pick(u8),
    Mark,
    Commit,
}

// What a message says: the label, or the value as it is spelled.
#[derive(Clone, Copy, Debug)]
enum Said {
    Value(&'static str),
    Label(&'static str),
}

// What a message may say: values of each sort, and labels.
const INT: Option<Said> = Some(Said::Value("7"));

const TRUTH: Option<Said> = Some(Said::Value("true"));

// A text, as it is spelled.
const TEXT: &str = "\"so be it\"";

const WORDS: Option<Said> = Some(Said::Value(TEXT));

const OK: Option<Said> = Some(Said::Label("ok"));

const NO: Option<Said> = Some(Said::Label("no"));

const MORE: Option<Said> = Some(Said::Label("more"));

const OKAY: Option<Said> = Some(Said::Label("okay"));

// The names of these letters.
fn names(rt: &(impl Abort + AllocGlobal), texts: &[&str]) -> Vec<Name> {
    let mut names = Vec::new(rt.alloc());
    for text in texts {
        names.push(name(rt, text)).expect(rt, "memory");
    }
    names
}

// The command that is asked for.
fn command(rt: &(impl Abort + AllocGlobal), ask: Ask) -> Forward {
    match ask {
        Ask::Send(to, text) => Forward::Send {
            to: Role::new(to),
            value: value(rt, text),
        },
        Ask::Choose(to, label) => Forward::Choose {
            to: Role::new(to),
            label: name(rt, label),
        },
        Ask::Receive(from) => Forward::Receive {
            from: Role::new(from),
            slot: name(rt, "x"),
        },
        Ask::Pick(from) => Forward::Pick {
            from: Role::new(from),
        },
        Ask::Mark => Forward::Mark {
            name: name(rt, "m"),
        },
        Ask::Commit => Forward::Commit,
    }
}

// The message that waits first, if one does.
fn message(rt: &(impl Abort + AllocGlobal), said: Option<Said>) -> Option<Message> {
    match said {
        None => None,
        Some(Said::Value(text)) => Some(Message::Value(value(rt, text))),
        Some(Said::Label(label)) => Some(Message::Label(name(rt, label))),
    }
}

// What a type begins with, and its first peer's place.
#[derive(Clone, Copy)]
enum Kind {
    End,
    Gives(u8, Sort),
    Takes(u8, Sort),
    Chooses(u8),
    Picks(u8),
}

// What a type may begin with: outputs and inputs of each sort, and choices, all with b.
const GIVES: Kind = Kind::Gives(B, Sort::Int);

const GIVES_TRUTH: Kind = Kind::Gives(B, Sort::Bool);

const GIVES_TEXT: Kind = Kind::Gives(B, Sort::Text);

const TAKES: Kind = Kind::Takes(B, Sort::Int);

const TAKES_TRUTH: Kind = Kind::Takes(B, Sort::Bool);

const TAKES_TEXT: Kind = Kind::Takes(B, Sort::Text);

const CHOOSES: Kind = Kind::Chooses(B);

const PICKS: Kind = Kind::Picks(B);

// What a type of that kind expects, with these labels where it has some.
fn expected(kind: Kind, labels: &[Name]) -> Expect<'_> {
    match kind {
        Kind::End => Expect::End,
        Kind::Gives(peer, sort) => Expect::Send(Role::new(peer), sort),
        Kind::Takes(peer, sort) => Expect::Recv(Role::new(peer), sort),
        Kind::Chooses(peer) => Expect::Select(Role::new(peer), labels),
        Kind::Picks(peer) => Expect::Branch(Role::new(peer), labels),
    }
}

// What is answered: how the role goes on, or the violation.
type Answer = Result<Advance, Violation>;

const NEXT: Answer = Ok(Advance::Next);

const STAY: Answer = Ok(Advance::Stay);

const ENDED: Answer = Err(Violation::Ended);

const WRONG_ACT: Answer = Err(Violation::WrongAct);

const WRONG_PEER: Answer = Err(Violation::WrongPeer);

const WRONG_SORT: Answer = Err(Violation::WrongSort);

const NO_LABEL: Answer = Err(Violation::NoLabel);

const NOTHING_QUEUED: Answer = Err(Violation::NothingQueued);

const MISMATCH: Answer = Err(Violation::Mismatch);

// What a type begins with, what is asked for, what the message says that waits first, and the
// answer.
#[derive(Clone, Copy)]
struct Row(Kind, Ask, Option<Said>, Answer);

// The labels of a choice, and what is answered.
#[derive(Clone, Copy)]
struct Judged<'a>(&'a [&'a str], &'a [Row]);

// Whether the command of the row is answered so, where a choice has these labels.
fn is_answered(rt: &(impl Abort + AllocGlobal), labels: &[Name], row: &Row) -> bool {
    // what an `Expect` may hold: the prover covers a function with one only where it names these
    let _held: Option<(Role, Sort, Name)> = None;
    let command = command(rt, row.1);
    let first = message(rt, row.2);
    judge(expected(row.0, labels), &command, first.as_ref()) == row.3
}

// Each row is answered so, where a choice has the labels.
fn are_answered(rt: &(impl Abort + AllocGlobal), judged: &Judged<'_>) {
    let labels = names(rt, judged.0);
    for (place, row) in judged.1.iter().enumerate() {
        assert!(rt; is_answered(rt, &labels, row), "row {place} (from 0)");
    }
}

// Whatever waits, a role that has ended may do nothing but mark and commit.
const AT_THE_END: &Judged<'static> = &Judged(
    &[],
    &[
        Row(Kind::End, Ask::Send(B, "1"), None, ENDED),
        Row(Kind::End, Ask::Choose(B, "ok"), None, ENDED),
        Row(Kind::End, Ask::Receive(B), INT, ENDED),
        Row(Kind::End, Ask::Pick(B), OK, ENDED),
        Row(Kind::End, Ask::Pick(B), None, ENDED),
        Row(Kind::End, Ask::Mark, None, STAY),
        Row(Kind::End, Ask::Commit, None, STAY),
    ],
);

// `mps_monitor::judge` answers `Ended` to each act where the type has ended, and lets marks and commits pass.
#[test]
fn only_marks_and_commits_are_allowed_after_the_end(rt: HostRuntime) {
    are_answered(&rt, AT_THE_END);
}

// Where b is to be given an int. The kind of act is judged first, then the peer, then the sort; not what waits.
const GIVING: &Judged<'static> = &Judged(
    &[],
    &[
        Row(GIVES, Ask::Send(B, "1"), None, NEXT),
        Row(GIVES, Ask::Send(B, "1"), TRUTH, NEXT),
        Row(GIVES, Ask::Send(B, "true"), None, WRONG_SORT),
        Row(GIVES, Ask::Send(C, "1"), None, WRONG_PEER),
        Row(GIVES, Ask::Send(C, "true"), None, WRONG_PEER),
        Row(GIVES, Ask::Choose(B, "ok"), None, WRONG_ACT),
        Row(GIVES, Ask::Choose(C, "ok"), None, WRONG_ACT),
        Row(GIVES, Ask::Receive(C), None, WRONG_ACT),
        Row(GIVES, Ask::Pick(B), OK, WRONG_ACT),
        Row(GIVES, Ask::Mark, None, STAY),
        Row(GIVES, Ask::Commit, None, STAY),
    ],
);

// `mps_monitor::judge` allows the value of that sort for that peer, and else names the first violation.
#[test]
fn the_expected_send_is_allowed(rt: HostRuntime) {
    are_answered(&rt, GIVING);
}

// Where an int is to be taken from b. The kind of act is judged first, then the peer, then what waits.
const TAKING: &Judged<'static> = &Judged(
    &[],
    &[
        Row(TAKES, Ask::Receive(B), INT, NEXT),
        Row(TAKES, Ask::Receive(B), TRUTH, MISMATCH),
        Row(TAKES, Ask::Receive(B), OK, MISMATCH),
        Row(TAKES, Ask::Receive(B), None, NOTHING_QUEUED),
        Row(TAKES, Ask::Receive(C), None, WRONG_PEER),
        Row(TAKES, Ask::Receive(C), TRUTH, WRONG_PEER),
        Row(TAKES, Ask::Pick(B), None, WRONG_ACT),
        Row(TAKES, Ask::Pick(C), OK, WRONG_ACT),
        Row(TAKES, Ask::Send(C, "true"), INT, WRONG_ACT),
        Row(TAKES, Ask::Mark, INT, STAY),
        Row(TAKES, Ask::Commit, INT, STAY),
    ],
);

// `mps_monitor::judge` allows the receipt where an int waits first, and else names the first violation.
#[test]
fn the_expected_receipt_is_allowed(rt: HostRuntime) {
    are_answered(&rt, TAKING);
}

// Values of each sort, given and taken where one of the same sort or of another is expected.
const OF_EACH_SORT: &Judged<'static> = &Judged(
    &[],
    &[
        Row(GIVES_TEXT, Ask::Send(B, TEXT), None, NEXT),
        Row(GIVES_TRUTH, Ask::Send(B, "false"), None, NEXT),
        Row(GIVES, Ask::Send(B, TEXT), None, WRONG_SORT),
        Row(GIVES_TRUTH, Ask::Send(B, TEXT), None, WRONG_SORT),
        Row(GIVES_TEXT, Ask::Send(B, "0"), None, WRONG_SORT),
        Row(TAKES_TEXT, Ask::Receive(B), WORDS, NEXT),
        Row(TAKES_TRUTH, Ask::Receive(B), WORDS, MISMATCH),
        Row(TAKES, Ask::Receive(B), WORDS, MISMATCH),
        Row(TAKES_TRUTH, Ask::Receive(B), TRUTH, NEXT),
    ],
);

// `mps_monitor::judge` compares a value's sort with the expected one; another is `WrongSort` to the sender, `Mismatch`
// to the other.
#[test]
fn a_value_of_another_sort_is_refused(rt: HostRuntime) {
    are_answered(&rt, OF_EACH_SORT);
}

// The labels of the choices below.
const LABELS: &[&str] = &["ok", "no", "more"];

// Where a label is to be chosen for b. Of labels that begin like one none is taken for it.
const CHOOSING: &Judged<'static> = &Judged(
    LABELS,
    &[
        Row(CHOOSES, Ask::Choose(B, "ok"), None, Ok(Advance::Into(0))),
        Row(CHOOSES, Ask::Choose(B, "no"), None, Ok(Advance::Into(1))),
        Row(CHOOSES, Ask::Choose(B, "more"), OK, Ok(Advance::Into(2))),
        Row(CHOOSES, Ask::Choose(B, "okay"), None, NO_LABEL),
        Row(CHOOSES, Ask::Choose(B, "o"), None, NO_LABEL),
        Row(CHOOSES, Ask::Choose(C, "ok"), None, WRONG_PEER),
        Row(CHOOSES, Ask::Choose(C, "okay"), None, WRONG_PEER),
        Row(CHOOSES, Ask::Send(C, "1"), None, WRONG_ACT),
        Row(CHOOSES, Ask::Pick(B), OK, WRONG_ACT),
        Row(CHOOSES, Ask::Receive(B), INT, WRONG_ACT),
        Row(CHOOSES, Ask::Mark, None, STAY),
        Row(CHOOSES, Ask::Commit, None, STAY),
    ],
);

// `mps_monitor::judge` leads into the branch of the label, by its place from 0, and else names the first violation.
#[test]
fn a_choice_leads_into_the_branch_of_its_label(rt: HostRuntime) {
    are_answered(&rt, CHOOSING);
}

// Where a label is to be picked from b.
const PICKING: &Judged<'static> = &Judged(
    LABELS,
    &[
        Row(PICKS, Ask::Pick(B), OK, Ok(Advance::Into(0))),
        Row(PICKS, Ask::Pick(B), NO, Ok(Advance::Into(1))),
        Row(PICKS, Ask::Pick(B), MORE, Ok(Advance::Into(2))),
        Row(PICKS, Ask::Pick(B), OKAY, MISMATCH),
        Row(PICKS, Ask::Pick(B), INT, MISMATCH),
        Row(PICKS, Ask::Pick(B), None, NOTHING_QUEUED),
        Row(PICKS, Ask::Pick(C), None, WRONG_PEER),
        Row(PICKS, Ask::Pick(C), OKAY, WRONG_PEER),
        Row(PICKS, Ask::Receive(B), None, WRONG_ACT),
        Row(PICKS, Ask::Choose(B, "ok"), OK, WRONG_ACT),
        Row(PICKS, Ask::Send(B, "1"), None, WRONG_ACT),
        Row(PICKS, Ask::Mark, OKAY, STAY),
        Row(PICKS, Ask::Commit, OKAY, STAY),
    ],
);

// `mps_monitor::judge` leads into the branch of the label that waits first, by its place from 0, and else names the
// first violation.
#[test]
fn a_pick_leads_into_the_branch_of_the_label_that_waits(rt: HostRuntime) {
    are_answered(&rt, PICKING);
}

// A label twice, and no label at all. No type without a fault has either.
const IN_THE_FIRST: &Judged<'static> = &Judged(
    &["ok", "no", "no"],
    &[Row(CHOOSES, Ask::Choose(B, "no"), None, Ok(Advance::Into(1)))],
);

const IN_NONE: &Judged<'static> = &Judged(
    &[],
    &[Row(CHOOSES, Ask::Choose(B, "no"), None, NO_LABEL)],
);

// `mps_monitor::judge` takes labels as they come: of two that are the same, the first. Where there is none, it answers
// `NoLabel`. The law `the_machine_moves_the_same` says that the first message that waits is enough to tell what a step
// moves; its call does nothing: it shows that others can call it so.
#[test]
fn of_two_labels_that_are_the_same_the_first_is_taken(rt: HostRuntime) {
    are_answered(&rt, IN_THE_FIRST);
    are_answered(&rt, IN_NONE);
    the_machine_moves_the_same();
}

// Types with that peer, one of each kind, tell commands with the other apart.
fn tell_apart(rt: &(impl Abort + AllocGlobal), peer: u8, other: u8) {
    let (next, into) = if peer == other {
        (NEXT, Ok(Advance::Into(1)))
    } else {
        (WRONG_PEER, WRONG_PEER)
    };
    let rows = [
        Row(
            Kind::Gives(peer, Sort::Int),
            Ask::Send(other, "1"),
            None,
            next,
        ),
        Row(Kind::Takes(peer, Sort::Int), Ask::Receive(other), INT, next),
        Row(Kind::Chooses(peer), Ask::Choose(other, "no"), None, into),
        Row(Kind::Picks(peer), Ask::Pick(other), NO, into),
    ];
    are_answered(rt, &Judged(LABELS, &rows));
}

// `mps_monitor::judge` allows an act with the very peer of the type, among 8, and refuses it with each other one as
// `WrongPeer`.
#[test]
fn a_peer_is_told_from_each_other_role(rt: HostRuntime) {
    for peer in 0..8u8 {
        for other in 0..8u8 {
            tell_apart(&rt, peer, other);
        }
    }
}

// As many labels as a choice may have.
const SIXTEEN: &[&str] = &[
    "l1", "l2", "l3", "l4", "l5", "l6", "l7", "l8", "l9", "l10", "l11", "l12", "l13", "l14", "l15",
    "l16",
];

// The first two labels and the last two, one that isn't there, and the front of all, chosen and picked.
const OF_SIXTEEN: &Judged<'static> = &Judged(
    SIXTEEN,
    &[
        Row(CHOOSES, Ask::Choose(B, "l1"), None, Ok(Advance::Into(0))),
        Row(CHOOSES, Ask::Choose(B, "l2"), None, Ok(Advance::Into(1))),
        Row(CHOOSES, Ask::Choose(B, "l15"), None, Ok(Advance::Into(14))),
        Row(CHOOSES, Ask::Choose(B, "l16"), None, Ok(Advance::Into(15))),
        Row(CHOOSES, Ask::Choose(B, "l17"), None, NO_LABEL),
        Row(CHOOSES, Ask::Choose(B, "l"), None, NO_LABEL),
        Row(
            PICKS,
            Ask::Pick(B),
            Some(Said::Label("l1")),
            Ok(Advance::Into(0)),
        ),
        Row(
            PICKS,
            Ask::Pick(B),
            Some(Said::Label("l2")),
            Ok(Advance::Into(1)),
        ),
        Row(
            PICKS,
            Ask::Pick(B),
            Some(Said::Label("l15")),
            Ok(Advance::Into(14)),
        ),
        Row(
            PICKS,
            Ask::Pick(B),
            Some(Said::Label("l16")),
            Ok(Advance::Into(15)),
        ),
        Row(PICKS, Ask::Pick(B), Some(Said::Label("l17")), MISMATCH),
        Row(PICKS, Ask::Pick(B), Some(Said::Label("l")), MISMATCH),
    ],
);

// `mps_monitor::judge` finds labels among the most, 16, at their places, here l1, l2, l15 and l16, and finds neither
// l17, which isn't there, nor l, the front of all.
#[test]
fn labels_among_sixteen_are_found_at_their_places(rt: HostRuntime) {
    are_answered(&rt, OF_SIXTEEN);
}

// What is asked for, what the message says that waits first, and why it is not allowed.
#[derive(Clone, Copy, Debug)]
struct Asked(Ask, Option<Said>, Option<Violation>);

// The node to which the table goes from this one where it is asked so, or why it does not.
fn step(
    rt: &(impl Abort + AllocGlobal),
    table: &Table,
    node: Node,
    asked: &Asked,
) -> Result<Node, Violation>
    requires { IsNode table.now node }
    ensures { IfOk result (IsNode table.now) }
{
    let command = command(rt, asked.0);
    let first = message(rt, asked.1);
    next_node(table, node, &command, first.as_ref())
}

// The table answers each row so, where it is asked for them one after the other, from its first
// node on.
fn goes_by(rt: &(impl Abort + AllocGlobal), table: &Table, rows: &[Asked]) {
    let mut node = table.first();
    for asked in rows {
        match step(rt, table, node, asked) {
            Ok(next) => {
                assert!(rt; asked.2.is_none(), "{asked:?} is allowed");
                node = next;
            }
            Err(violation) => assert_eq!(rt;
                asked.2,
                Some(violation),
                "the violation of {asked:?}"
            ),
        }
    }
}

// The table of the type answers each row so, where it is asked for them one after the other.
fn goes(rt: &(impl Abort + AllocGlobal), t: &Local, rows: &[Asked]) {
    let table = compile(rt.alloc(), t).expect(rt, "a table");
    goes_by(rt, &table, rows);
}

// A label, the act after it if there is one, and whether the loop's variable stands there then, or
// the end.
type Arm = (&'static str, Kind, bool);

// The type after the label.
fn after_label(rt: &(impl Abort + AllocGlobal), arm: &Arm) -> Local {
    let next = if arm.2 {
        Local::Var(variable(rt, "X"))
    } else {
        Local::End
    };
    let made = match arm.1 {
        Kind::Gives(to, sort) => Local::send(rt.alloc(), Role::new(to), sort, next),
        Kind::Takes(from, sort) => Local::recv(rt.alloc(), Role::new(from), sort, next),
        _ => return next,
    };
    made.expect(rt, "memory")
}

// The branch and then the others.
fn more(rt: &(impl Abort + AllocGlobal), arm: &Arm, others: Branches) -> Branches {
    Branches::more(rt.alloc(), name(rt, arm.0), after_label(rt, arm), others).expect(rt, "memory")
}

// Branches of these labels.
fn branches(rt: &(impl Abort + AllocGlobal), arms: &[Arm]) -> Branches {
    let mut branches = Branches::NoMore;
    for arm in arms.iter().rev() {
        branches = more(rt, arm, branches);
    }
    branches
}

// A choice of these labels that is made.
fn chooses(rt: &(impl Abort + AllocGlobal), peer: u8, arms: &[Arm]) -> Local {
    Local::Select {
        peer: Role::new(peer),
        branches: branches(rt, arms),
    }
}

// A choice of these labels that is taken.
fn picks(rt: &(impl Abort + AllocGlobal), peer: u8, arms: &[Arm]) -> Local {
    Local::Branch {
        peer: Role::new(peer),
        branches: branches(rt, arms),
    }
}

// After each label an output to the role of its place, among eight.
const SIXTEEN_ARMS: &[Arm] = &[
    ("l1", Kind::Gives(0, Sort::Int), false),
    ("l2", Kind::Gives(1, Sort::Int), false),
    ("l3", Kind::Gives(2, Sort::Int), false),
    ("l4", Kind::Gives(3, Sort::Int), false),
    ("l5", Kind::Gives(4, Sort::Int), false),
    ("l6", Kind::Gives(5, Sort::Int), false),
    ("l7", Kind::Gives(6, Sort::Int), false),
    ("l8", Kind::Gives(7, Sort::Int), false),
    ("l9", Kind::Gives(0, Sort::Int), false),
    ("l10", Kind::Gives(1, Sort::Int), false),
    ("l11", Kind::Gives(2, Sort::Int), false),
    ("l12", Kind::Gives(3, Sort::Int), false),
    ("l13", Kind::Gives(4, Sort::Int), false),
    ("l14", Kind::Gives(5, Sort::Int), false),
    ("l15", Kind::Gives(6, Sort::Int), false),
    ("l16", Kind::Gives(7, Sort::Int), false),
];

// The command leads in the type to an output to that role, and to none to the sixth.
fn leads_to(rt: &(impl Abort + AllocGlobal), t: &Local, asked: Asked, to: u8) {
    let rows = [
        asked,
        Asked(Ask::Send(5, "1"), None, Some(Violation::WrongPeer)),
        Asked(Ask::Send(to, "1"), None, None),
    ];
    goes(rt, t, &rows);
}

// `mps_monitor::next_node` leads to the node behind the label, here behind l1, l8, l9 and l16: there an output to the
// role of its place is allowed.
#[test]
fn labels_among_sixteen_lead_to_their_nodes(rt: HostRuntime) {
    for (text, to) in [("l1", 0), ("l8", 7), ("l9", 0), ("l16", 7)] {
        let chosen = Asked(Ask::Choose(B, text), None, None);
        leads_to(&rt, &chooses(&rt, B, SIXTEEN_ARMS), chosen, to);
        let picked = Asked(Ask::Pick(B), Some(Said::Label(text)), None);
        leads_to(&rt, &picks(&rt, B, SIXTEEN_ARMS), picked, to);
    }
}

// The branches of the loop in the test.
const IN_TURNS: &[Arm] = &[
    ("ok", Kind::Gives(B, Sort::Int), true),
    ("no", Kind::Takes(B, Sort::Bool), false),
    ("more", Kind::End, true),
];

// Steps one after the other: those refused stay where they are, and so do a mark and a commit.
const ROUNDS: &[Asked] = &[
    Asked(Ask::Send(B, "1"), None, Some(Violation::WrongAct)),
    Asked(Ask::Choose(B, "okay"), None, Some(Violation::NoLabel)),
    Asked(Ask::Choose(B, "ok"), None, None),
    Asked(Ask::Choose(B, "ok"), None, Some(Violation::WrongAct)),
    Asked(Ask::Mark, None, None),
    Asked(Ask::Commit, None, None),
    Asked(Ask::Send(B, "1"), None, None),
    Asked(Ask::Choose(B, "more"), None, None),
    Asked(Ask::Choose(B, "more"), None, None),
    Asked(Ask::Choose(B, "no"), None, None),
    Asked(Ask::Receive(B), INT, Some(Violation::Mismatch)),
    Asked(Ask::Receive(B), TRUTH, None),
    Asked(Ask::Mark, None, None),
    Asked(Ask::Choose(B, "ok"), None, Some(Violation::Ended)),
];

// `mps_monitor::next_node` goes round `rec X . choose b { ok : send b int . X, no : recv b bool . end, more : X }` and
// out of it.
#[test]
fn the_node_after_a_loop_is_its_beginning(rt: HostRuntime) {
    let turns = Local::rec(rt.alloc(), variable(&rt, "X"), chooses(&rt, B, IN_TURNS));
    goes(&rt, &turns.expect(&rt, "memory"), ROUNDS);
}

// The branches of the pick in the test.
const ANSWERED: &[Arm] = &[
    ("ok", Kind::Gives(B, Sort::Int), false),
    ("no", Kind::Gives(C, Sort::Bool), false),
];

// A label that isn't there, then `no`, and what stands behind it alone.
const BEHIND_NO: &[Asked] = &[
    Asked(Ask::Pick(C), MORE, Some(Violation::Mismatch)),
    Asked(Ask::Pick(C), NO, None),
    Asked(Ask::Send(B, "true"), None, Some(Violation::WrongPeer)),
    Asked(Ask::Send(C, "true"), None, None),
    Asked(Ask::Pick(C), NO, Some(Violation::Ended)),
];

// `mps_monitor::next_node` goes into the branch picked in `pick c { ok : send b int . end, no : send c bool . end }`.
#[test]
fn a_picked_label_leads_to_the_node_behind_it(rt: HostRuntime) {
    goes(&rt, &picks(&rt, C, ANSWERED), BEHIND_NO);
}
