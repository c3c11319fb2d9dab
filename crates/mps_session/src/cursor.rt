//! Where a role stands in its local type.

use mps_table::{Node, Table};

/// A role's table, and the node at which the role stands. What the role did is in the history.
#[derive(Drop)]
pub(crate) struct Cursor {
    pub(crate) table: Table,
    pub(crate) node: Node,
}
