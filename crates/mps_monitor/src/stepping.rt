//! The step of a role that stands at a node of its table.
ghost use Rattle.std.specs.Prelude.{◌≡◌, Some, None, Ok, IfOk, OnOk, IfErr, IsTrue};
ghost use Rattle.std.specs.Option.{option_copied};
ghost use Rattle.mps_command.specs.Acts.{act_of};
ghost use Rattle.mps_local.specs.Local.{LocalType};
ghost use Rattle.mps_local.specs.Unfolding.{unfolded};
ghost use Rattle.mps_machine.specs.Rule.{type_after};
ghost use Rattle.mps_machine.specs.Violations.{act_fault};
ghost use Rattle.mps_table.specs.Graph.{IsNode};
ghost use Rattle.mps_table.specs.Standing.{StandsFor};
ghost use Rattle.mps_monitor.specs.Verdicts.{moved_by, is_idle};

use crate::verdict::{Advance, judge};
use mps_base::{Message, Name, Role, Sort};
use mps_command::{Forward, Violation};
use mps_table::{Node, Table};

/// The node to which a role at `node` of its table goes on by the step, or the first reason why its type doesn't allow
/// it; after a mark or a commit the same node. `first` is the first message that waits from the peer whom the step
/// names, if one does. O(labels), and it does not allocate.
#[inline(always)]
pub fn next_node(
    table: &Table,
    node: Node,
    step: &Forward,
    first: Option<&Message>,
) -> Result<Node, Violation>
    requires { IsNode table.now node }
    ensures violation { IfErr result (λ fault. (t : LocalType) → StandsFor table.now node t
        → act_fault (unfolded t) (act_of step.now)
        (moved_by step.now (option_copied first.entry))
        ≡ Some fault) }
    ensures allowed { OnOk result ((t : LocalType) → StandsFor table.now node t
        → act_fault (unfolded t) (act_of step.now)
        (moved_by step.now (option_copied first.entry))
        ≡ None) }
    ensures idle { IsTrue (is_idle step.now) → result ≡ Ok node }
    ensures follows { IfOk result (λ next. (t u : LocalType) → StandsFor table.now node t
        → type_after (unfolded t) (act_of step.now)
        (moved_by step.now (option_copied first.entry))
        ≡ Some u
        → StandsFor table.now next u) }
    ensures node { IfOk result (IsNode table.now) }
{
    // what an `Expect` may hold: the prover covers a function with one only where it names these
    let _held: Option<(Role, Sort, Name)> = None;
    let expected = table.expect(node);
    match judge(expected, step, first)? {
        Advance::Stay => Ok(node),
        Advance::Next => Ok(table.after(node, None)),
        Advance::Into(place) => Ok(table.after(node, Some(place))),
    }
}
