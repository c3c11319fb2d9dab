//! Tables of local types.
ghost use Rattle.std.specs.Prelude.{◌≡◌, ◌≤◌, ℕ, List, true, [], None, Some, Err, IfOk, OnOk, IsOkUnless, length};
ghost use Rattle.mps_global.specs.Global.{GlobalType};
ghost use Rattle.mps_global.specs.Faults.{fault_of};
ghost use Rattle.mps_local.specs.Local.{plain};
ghost use Rattle.mps_local.specs.Projection.{projection};
ghost use Rattle.mps_local.specs.Shape.{node_count};
ghost use Rattle.mps_local.specs.Loops.{is_closed, is_guarded};
ghost use Rattle.mps_local.specs.LocalFaults.{local_fault_of};
ghost use Rattle.mps_local.specs.declared.faults.LocalFault.{LocalFault};
ghost use Rattle.mps_local.specs.declared.merging.Merging.{Merging};
ghost use Rattle.mps_table.specs.Sizes.{acts_and_ends, labels_of_choices};
ghost use Rattle.mps_table.specs.Standing.{StandsFor};

use crate::laying::{Draft, laid_out};
use crate::table::Table;
use mps_local::{Local, LocalFault, first_fault};
use std::alloc::{AllocError, Global};

/// The table of a local type of any size, or the type's first fault; `Memory` only where it has none. It allocates a
/// row for each action and end, and an entry for each label; after an error nothing is left of them. Nothing goes more
/// than 257 nodes deep into the type.
pub fn compile(alloc: Global, tree: &Local) -> Result<Table, LocalFault>
    ensures table { IfOk result (λ table. StandsFor table table.first (plain tree.now)) }
    ensures rows { IfOk result
        (λ table. length table.rows ≡ length (acts_and_ends (plain tree.now))) }
    ensures labels { IfOk result
        (λ table. length table.labels ≡ length (labels_of_choices (plain tree.now))) }
    ensures ok { OnOk result (local_fault_of (plain tree.now) ≡ None) }
    ensures fault { (fault : LocalFault) → local_fault_of (plain tree.now) ≡ Some fault
        → result ≡ Err fault }

    // Memory comes last.
    ensures memory { local_fault_of (plain tree.now) ≡ None
        → IsOkUnless result LocalFault.Memory }

    // What a role does in a protocol without faults has none.
    ensures projected { (merging : Merging) (roles : List (List ℕ)) (role : ℕ)
        (protocol : GlobalType) → fault_of roles protocol ≡ None
        → projection merging roles role protocol ≡ Some (plain tree.now)
        → IsOkUnless result LocalFault.Memory }
{
    match first_fault(tree) {
        Some(fault) => Err(fault),
        None => Ok(table_of(alloc, tree)?),
    }
}

// Makes the table of a type without faults: at most 256 nodes, closed, each variable guarded. Apart from `compile`, so
// that it needs these as its premises alone. It fails only when out of memory.
fn table_of(alloc: Global, tree: &Local) -> Result<Table, AllocError>
    requires few { node_count (plain tree.now) ≤ 256 }
    requires closed { is_closed [] (plain tree.now) ≡ true }
    requires guarded { is_guarded (plain tree.now) ≡ true }
    ensures table { IfOk result (λ table. StandsFor table table.first (plain tree.now)) }
    ensures rows { IfOk result
        (λ table. length table.rows ≡ length (acts_and_ends (plain tree.now))) }
    ensures labels { IfOk result
        (λ table. length table.labels ≡ length (labels_of_choices (plain tree.now))) }
{
    let (draft, first) = laid_out(alloc, tree)?;
    let Draft {
        rows,
        labels,
        targets,
    } = draft;
    Ok(Table {
        rows,
        labels,
        targets,
        first,
    })
}
