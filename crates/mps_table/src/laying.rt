//! Laying a local type out as a table.
ghost use Rattle.std.specs.Prelude.{◌≡◌, ◌+◌, ◌<◌, ◌≤◌, ◌^◌, [], ◌∷◌, length, IfOk, OnOk};
ghost use Rattle.mps_local.specs.Local.{plain, plain_branches};
ghost use Rattle.mps_local.specs.Actions.{labels};
ghost use Rattle.mps_table.specs.Private.Laying.{size, branch_size, all_labels, branch_labels, start, starts};
ghost use Rattle.mps_table.specs.Private.Drafts.{places_of, Adds, Lays, LaysBranches, IsLaidOut, row_count};
ghost use Rattle.mps_table.specs.Private.Drafts.{label_count};

use crate::expect::Node;
use crate::row::TableRow;
use mps_base::{Name, VarName};
use mps_local::{Branches, Local};
use std::alloc::{AllocError, Global};

// The variables of the `rec`s around a tree, spelled out, with their nodes; the nearest first.
#[derive(Clone, Copy)]
enum Bound<'a> {
    Nothing,
    Inside(&'a [u8], Node, &'a Bound<'a>),
}

/// The lists of a table, as far as they are made. A `Table` is sound at any moment, and these only when all rows are laid.
#[derive(Drop)]
pub(crate) struct Draft {
    pub(crate) rows: Vec<TableRow>,
    pub(crate) labels: Vec<Name>,
    pub(crate) targets: Vec<Node>,
}

// The node of a variable: that of the nearest `rec` of it, as `bound` lists them. One without a `rec` would get node 0;
// no closed type has such a variable. It does not allocate.
fn node_of(name: &VarName, bound: &Bound<'_>) -> Node
    ensures { result ≡ places_of bound.now name.now }
{
    match bound {
        Bound::Nothing => Node::new(0),
        Bound::Inside(other, node, outer) => {
            if name.as_bytes() == *other {
                *node
            } else {
                node_of(name, outer)
            }
        }
    }
}

// The node of a type whose rows begin at the place `at`. A variable has no row, and takes the node of its `rec`; a
// `rec` has none either, and takes the node of its body. So recursion in the type is a jump back in the table.
fn start(tree: &Local, bound: &Bound<'_>, at: usize) -> Node
    requires few { at ≤ 256 }
    ensures { result ≡ start (places_of bound.now) at (plain tree.now) }
{
    match tree {
        Local::Var(name) => node_of(name, bound),
        Local::Rec(_, body) => start(body, bound, at),
        // at most 256, so it fits
        _ => Node::new(at as u16),
    }
}

// How many rows a type has: one for each action and each end, none for a `rec` or a variable. So the place where the
// next branch begins is known before the rows are there.
#[cycle(size)]
fn size(tree: &Local) -> usize
    requires few { size (plain tree.now) ≤ 256 }
    ensures { result ≡ size (plain tree.now) }
{
    match tree {
        Local::End => 1,
        Local::Var(_) => 0,
        Local::Rec(_, body) => size(body),
        Local::Send { next, .. } | Local::Recv { next, .. } => size(next) + 1,
        Local::Select { branches, .. } | Local::Branch { branches, .. } => branch_size(branches)
            + 1,
    }
}

// `size` for the types of a choice's branches, added up: their rows come one after the other.
#[cycle(size)]
fn branch_size(branches: &Branches) -> usize
    requires few { branch_size (plain_branches branches.now) ≤ 256 }
    ensures { result ≡ branch_size (plain_branches branches.now) }
{
    match branches {
        Branches::NoMore => 0,
        Branches::More { next, others, .. } => size(next) + branch_size(others),
    }
}

/// Lays a closed type out in rows, the first at place 0, and returns the lists with the node of the type. It fails only
/// when out of memory.
pub(crate) fn laid_out(alloc: Global, tree: &Local) -> Result<(Draft, Node), AllocError>
    requires rows { size (plain tree.now) ≤ 256 }
    requires labels { length (all_labels (plain tree.now)) ≤ 256 }
    ensures { IfOk result (λ r. IsLaidOut r.0 r.1 (plain tree.now)) }
{
    let outside = Bound::Nothing;
    let mut draft = Draft::new(alloc);
    draft.lay(tree, &outside)?;
    Ok((draft, start(tree, &outside, 0)))
}

impl Draft {
    // The draft before any row: three empty lists, which do not allocate yet.
    fn new(alloc: Global) -> Draft
        ensures rows { result.rows.items ≡ [] }
        ensures labels { result.labels.items ≡ [] }
        ensures targets { result.targets.items ≡ [] }
    {
        Draft {
            rows: Vec::new(alloc),
            labels: Vec::new(alloc),
            targets: Vec::new(alloc),
        }
    }

    // Appends the rows and labels of a type, node by node in preorder; `bound` has the nodes of the variables that are
    // bound around it. It fails only when out of memory: some may be appended then, and the draft is dropped.
    #[cycle(lay)]
    fn lay(&mut self, tree: &Local, bound: &Bound<'_>) -> Result<(), AllocError>
        requires rows { row_count self.old + size (plain tree.now) ≤ 256 }
        requires labels { label_count self.old + length (all_labels (plain tree.now)) ≤ 256 }
        ensures { OnOk result (Lays self.old self.new (places_of bound.now) (plain tree.now)) }
    {
        match tree {
            Local::End => self.push_row(TableRow::End),
            Local::Var(_) => Ok(()),
            Local::Rec(name, body) => {
                // the variable leads to where the body begins, whose rows come next
                let node = start(body, &*bound, self.rows.len());
                self.lay(body, &Bound::Inside(name.as_bytes(), node, &*bound))
            }
            Local::Send { peer, sort, next } => {
                // what follows begins right after this row, unless it is a variable
                let node = start(next, &*bound, self.rows.len() + 1);
                self.push_row(TableRow::Send {
                    peer: *peer,
                    sort: *sort,
                    next: node,
                })?;
                self.lay(next, &*bound)
            }
            Local::Recv { peer, sort, next } => {
                let node = start(next, &*bound, self.rows.len() + 1);
                self.push_row(TableRow::Recv {
                    peer: *peer,
                    sort: *sort,
                    next: node,
                })?;
                self.lay(next, &*bound)
            }
            Local::Select { peer, branches } => {
                let (first, count) = self.lay_labels(branches, &*bound)?;
                self.push_row(TableRow::Select {
                    peer: *peer,
                    first,
                    count,
                })?;
                self.lay_branches(branches, &*bound)
            }
            Local::Branch { peer, branches } => {
                let (first, count) = self.lay_labels(branches, &*bound)?;
                self.push_row(TableRow::Branch {
                    peer: *peer,
                    first,
                    count,
                })?;
                self.lay_branches(branches, &*bound)
            }
        }
    }

    // `lay` for the types of a choice's branches, in order, whose labels are there already. After an error some rows
    // may be appended.
    #[cycle(lay)]
    fn lay_branches(&mut self, branches: &Branches, bound: &Bound<'_>) -> Result<(), AllocError>
        requires rows { row_count self.old + branch_size (plain_branches branches.now) ≤ 256 }
        requires labels { label_count self.old
            + length (branch_labels (plain_branches branches.now)) ≤ 256 }
        ensures { OnOk result
            (LaysBranches self.old self.new (places_of bound.now) (plain_branches branches.now)) }
    {
        match branches {
            Branches::NoMore => Ok(()),
            Branches::More { next, others, .. } => {
                self.lay(next, &*bound)?;
                self.lay_branches(others, &*bound)
            }
        }
    }

    // Appends the labels of the choice whose row comes next, each with the node that follows it, and returns the place
    // of the first and how many they are, both at most 256. After an error some labels may be appended.
    fn lay_labels(
        &mut self,
        branches: &Branches,
        bound: &Bound<'_>,
    ) -> Result<(u16, u16), AllocError>
        requires rows { row_count self.old + branch_size (plain_branches branches.now) < 256 }
        requires labels { label_count self.old + length (labels (plain_branches branches.now)) ≤ 256 }
        ensures adds { OnOk result (Adds self.old self.new [] (labels (plain_branches branches.now))
            (starts (places_of bound.now) (row_count self.old + 1)
            (plain_branches branches.now))) }
        ensures place { IfOk result (λ r. r.0 ≡ label_count self.old) }
        ensures count { IfOk result (λ r. r.1 ≡ length (labels (plain_branches branches.now))) }
    {
        let first = self.labels.len();
        let at = self.rows.len() + 1;
        self.push_labels(branches, bound, at)?;
        let count = self.labels.len() - first;
        Ok((first as u16, count as u16))
    }

    // The recursion of `lay_labels`: appends the labels of branches whose rows begin at the place `at`, each with its
    // node. After an error some labels may be appended.
    fn push_labels(
        &mut self,
        branches: &Branches,
        bound: &Bound<'_>,
        at: usize,
    ) -> Result<(), AllocError>
        requires few { at + branch_size (plain_branches branches.now) ≤ 256 }
        ensures { OnOk result (Adds self.old self.new [] (labels (plain_branches branches.now))
            (starts (places_of bound.now) at (plain_branches branches.now))) }
    {
        match branches {
            Branches::NoMore => Ok(()),
            Branches::More {
                label,
                next,
                others,
            } => {
                self.push_label(*label, start(next, bound, at))?;
                self.push_labels(others, bound, at + size(next))
            }
        }
    }

    // Appends a row. Apart, so that its contract says `Adds`, by which the proof of `lay` goes. It fails only when out
    // of memory, and appends nothing then.
    fn push_row(&mut self, row: TableRow) -> Result<(), AllocError>
        ensures { OnOk result (Adds self.old self.new (row ∷ []) [] []) }
    {
        Ok(self.rows.push(row)?)
    }

    // Appends a label, and at the same place of its own list the node that follows it. When out of memory one of the
    // lists may be longer by one; the draft is dropped then.
    fn push_label(&mut self, label: Name, node: Node) -> Result<(), AllocError>
        ensures { OnOk result (Adds self.old self.new [] (label ∷ []) (node ∷ [])) }
    {
        self.labels.push(label)?;
        Ok(self.targets.push(node)?)
    }
}
