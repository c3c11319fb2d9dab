//! What stands at the nodes of a table.
use crate::expect::Node;
use mps_base::{Role, Sort};

/// How the type of a node begins, and what follows.
#[derive(Clone, Copy, Debug)]
pub(crate) enum TableRow {
    End,
    Send { peer: Role, sort: Sort, next: Node },
    Recv { peer: Role, sort: Sort, next: Node },
    // of a choice the place of its first label, and how many there are
    Select { peer: Role, first: u16, count: u16 },
    Branch { peer: Role, first: u16, count: u16 },
}
