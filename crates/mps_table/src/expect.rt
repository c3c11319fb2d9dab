//! What a node of a table stands for.
ghost use Rattle.std.specs.Prelude.{◌≡◌, ◌<◌, ◌^◌};

use mps_base::{Name, Role, Sort};
use std::marker::Model;

/// A node of the table that gave it: a place in the local type of a role.
#[derive(Clone, Copy, Debug, PartialEq, Eq)]
pub struct Node(u16);

impl Model for Node {
    ghost use Rattle.std.specs.Prelude.{ℕ};

    ghost Value = { ℕ };

    ghost view = { λ n. n.0 };

    ghost inverse = { λ n. record { 0 = n } };
}

impl Node {
    /// The node at this place of a table, from 0. Any number is taken: a table has at most 256 nodes, and may have no
    /// such node.
    pub const fn new(index: u16) -> Node
        ensures { result ≡ index }
    {
        Node(index)
    }

    /// The place of the node as a number, of which `Node::new` makes the node again: for whoever stores 16 bits.
    pub fn number(self) -> u16
        ensures { result ≡ self }
    {
        self.0
    }

    /// The place of the node as an index of its table's rows, below 2^16.
    pub(crate) fn index(self) -> usize
        ensures place { result ≡ self }
        ensures small { result < 2 ^ 16 }
    {
        usize::from(self.0)
    }
}

/// What a role may do first at a node; labels in the order of the branches.
#[derive(Clone, Copy, Debug)]
pub enum Expect<'a> {
    /// Its local type has ended.
    End,
    /// It gives the peer a value of the sort.
    Send(Role, Sort),
    /// It takes a value of the sort from the peer.
    Recv(Role, Sort),
    /// It chooses one of the labels, and tells the peer.
    Select(Role, &'a [Name]),
    /// It takes one of the labels from the peer.
    Branch(Role, &'a [Name]),
}
