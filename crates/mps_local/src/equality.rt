//! When two local types are the same.
ghost use Rattle.std.specs.Prelude.{◌≡◌};
ghost use Rattle.mps_local.specs.Local.{plain, plain_branches};
ghost use Rattle.mps_local.specs.Merged.{same, same_branches};

use crate::{Branches, Local};

/// Whether two types are the same tree, with the same names of variables: so `rec X . X` and `rec Y . Y` differ, though
/// they mean the same. For merging, which asks for equal trees. The recursion is as deep as the smaller tree.
#[cycle(same)]
pub(crate) fn same(one: &Local, other: &Local) -> bool
    ensures { result ≡ same (plain one.now) (plain other.now) }
{
    match (one, other) {
        (Local::End, Local::End) => true,
        (Local::Var(x), Local::Var(y)) => x.is(y),
        (Local::Rec(x, body), Local::Rec(y, other_body)) => x.is(y) && same(body, other_body),
        (
            Local::Send { peer, sort, next },
            Local::Send {
                peer: other_peer,
                sort: other_sort,
                next: other_next,
            },
        )
        | (
            Local::Recv { peer, sort, next },
            Local::Recv {
                peer: other_peer,
                sort: other_sort,
                next: other_next,
            },
        ) => peer.is(*other_peer) && sort.is(*other_sort) && same(next, other_next),
        (
            Local::Select { peer, branches },
            Local::Select {
                peer: other_peer,
                branches: other_branches,
            },
        )
        | (
            Local::Branch { peer, branches },
            Local::Branch {
                peer: other_peer,
                branches: other_branches,
            },
        ) => peer.is(*other_peer) && same_branches(branches, other_branches),
        _ => false,
    }
}

// Whether both have the same labels in the same order, and after each the same type. The same labels in another order
// differ.
#[cycle(same)]
fn same_branches(one: &Branches, other: &Branches) -> bool
    ensures { result ≡ same_branches (plain_branches one.now) (plain_branches other.now) }
{
    match (one, other) {
        (Branches::NoMore, Branches::NoMore) => true,
        (
            Branches::More {
                label,
                next,
                others,
            },
            Branches::More {
                label: other_label,
                next: other_next,
                others: other_branches,
            },
        ) => label.is(other_label)
            && same(next, other_next)
            && same_branches(others, other_branches),
        _ => false,
    }
}
