//! The table of a local type.
ghost use Rattle.std.specs.Prelude.{◌≡◌, ◌+◌, ◌≤◌, ℕ, Option, Some, length, slice_get, slice_range, option_map};
ghost use Rattle.std.specs.Prelude.{option_and_then};
ghost use Rattle.mps_local.specs.Local.{LocalType};
ghost use Rattle.mps_local.specs.Unfolding.{unfolded};
ghost use Rattle.mps_local.specs.Actions.{Begins, type_left};
ghost use Rattle.mps_table.specs.Graph.{IsNode, HasNext, shown, next_of};
ghost use Rattle.mps_table.specs.Private.Graph.{IsWithin, LeadsWithin};
ghost use Rattle.mps_table.specs.Standing.{StandsFor};
ghost use Rattle.mps_table.specs.Expects.{head_of, Allows};

use crate::expect::{Expect, Node};
use crate::row::TableRow;
use mps_base::Name;
use std::marker::Model;

/// A local type as a table: a node for each of its actions and ends. What stands at a node is found
/// without walking.
#[derive(Debug, Drop)]
pub struct Table {
    pub(crate) rows: Vec<TableRow>,
    pub(crate) labels: Vec<Name>,
    pub(crate) targets: Vec<Node>,
    pub(crate) first: Node,
}

impl Model for Table {
    ghost use Rattle.mps_table.specs.Graph.{Graph};
    ghost use Rattle.mps_table.specs.Private.Graph.{IsSound};

    ghost Value = { Graph };

    ghost view = { λ t. record {
      rows = t.rows.items;
      labels = t.labels.items;
      targets = t.targets.items;
      first = t.first;
    } };

    ghost invariant = { λ t. IsSound t.rows.items t.labels.items t.targets.items t.first };
}

impl Table {
    /// The node that stands for the whole type: where its role stands when a session is opened.
    pub fn first(&self) -> Node
        ensures first { result ≡ self.now.first }
        ensures node { IsNode self.now result }
    {
        self.first
    }

    /// What a role may do first at a node of this table, labels borrowed from it. O(1), and it does not allocate.
    pub fn expect(&self, node: Node) -> Expect<'_>
        requires node { IsNode self.now node }
        ensures row { option_map (shown self.now) (slice_get self.now.rows node)
            ≡ Some (head_of result) }
        ensures next { (choice : Option ℕ) → Allows choice (head_of result)
            → HasNext self.now node choice }
        ensures begins { (t : LocalType) → StandsFor self.now node t
            → Begins (head_of result) (unfolded t) }
    {
        self.shown(self.row(node))
    }

    /// The node after an action: after a value with no `choice`, after a label with its place among the node's labels.
    /// The action has to be one that `expect` gives for the node. O(1).
    pub fn after(&self, node: Node, choice: Option<usize>) -> Node
        requires action { HasNext self.now node choice }
        ensures node { IsNode self.now result }
        ensures next { option_and_then (next_of self.now choice) (slice_get self.now.rows node)
            ≡ Some result }
        ensures follows { (t u : LocalType) → StandsFor self.now node t
            → type_left t choice ≡ Some u → StandsFor self.now result u }
    {
        match (choice, self.row(node)) {
            (None, TableRow::Send { next, .. } | TableRow::Recv { next, .. }) => next,
            (Some(place), TableRow::Select { first, .. } | TableRow::Branch { first, .. }) => {
                self.targets[usize::from(first) + place]
            }
            _ => unreachable!(),
        }
    }

    // A copy of the row at a node of this table. Apart, since its contract says for callers that the row's labels and
    // next nodes are in range.
    fn row(&self, node: Node) -> TableRow
        requires { IsNode self.now node }
        ensures row { slice_get self.now.rows node ≡ Some result }
        ensures labels { IsWithin (length self.now.labels) result }
        ensures targets { IsWithin (length self.now.targets) result }
        ensures leads { LeadsWithin (length self.now.rows) result }
    {
        self.rows[node.index()]
    }

    // What a row says as an `Expect`, its labels looked up in the table. Apart from `expect`, so that its contract is
    // about any row.
    fn shown(&self, row: TableRow) -> Expect<'_>
        requires within { IsWithin (length self.now.labels) row }
        ensures { head_of result ≡ shown self.now row }
    {
        match row {
            TableRow::End => Expect::End,
            TableRow::Send { peer, sort, .. } => Expect::Send(peer, sort),
            TableRow::Recv { peer, sort, .. } => Expect::Recv(peer, sort),
            TableRow::Select { peer, first, count } => Expect::Select(
                peer,
                self.labels_at(first, count),
            ),
            TableRow::Branch { peer, first, count } => Expect::Branch(
                peer,
                self.labels_at(first, count),
            ),
        }
    }

    // The `count` labels from the place `first` on, borrowed, as the row of a choice has both; they are in range.
    fn labels_at(&self, first: u16, count: u16) -> &[Name]
        requires { first + count ≤ length self.now.labels }
        ensures { result.now ≡ slice_range self.now.labels first (first + count) }
    {
        let first = usize::from(first);
        &self.labels[first..first + usize::from(count)]
    }
}
