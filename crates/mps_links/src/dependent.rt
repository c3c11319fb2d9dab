//! The least step that depends on another.
ghost use Rattle.std.specs.Prelude.{◌≡◌, ℕ, ◌==◌, IsSome, Some, None};
ghost use Rattle.std.specs.List.{find};
ghost use Rattle.std.specs.Option.{option_map};
ghost use Rattle.mps_history.specs.Steps.{step_of};
ghost use Rattle.mps_history.specs.Dependence.{least, dependents};
ghost use Rattle.mps_arena.specs.KeyedSteps.{steps};
ghost use Rattle.mps_arena.specs.Neighbours.{CanGo};

use crate::order::{earlier, with_number};
use mps_arena::{Arena, steps_are_sound};
use mps_base::StepId;

/// The least number of another step that depends on this one, or `None`. Dependence spreads through a role's next step
/// and through a receipt, so the least is one of these two. O(1); it does not allocate. Unproved: it looks at no other
/// step.
pub fn least_dependent(arena: &Arena, id: StepId) -> Option<StepId>
    requires present { IsSome (step_of (steps arena.now.keyed_steps) id) }
    ensures least { result ≡ least (dependents (steps arena.now.keyed_steps) id) }
    // a step on which nothing depends may be removed
    ensures free { result ≡ None → (k : ℕ)
        → option_map (λ e. e.key) (find (λ e. e.step.id == id) arena.now.keyed_steps) ≡ Some k
        → CanGo arena.now.keyed_steps k }
{
    // for the proof alone
    steps_are_sound(arena);
    let key = arena.by_id(id)?;
    let next = with_number(arena, arena.next_of_role(key));
    let receipt = with_number(arena, arena.receipt(key));
    let first = earlier(next, receipt)?;
    Some(first.id)
}
