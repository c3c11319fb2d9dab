//! What holds of each arena.
ghost use Rattle.mps_arena.specs.KeyedSteps.{AreSound};

use crate::arena::Arena;

/// The steps of an arena are sound: numbers rise, no key stands twice, and no receipt comes before its send. The call
/// does nothing when run; proofs call it to learn so from the arena's invariant.
#[inline(always)]
pub fn steps_are_sound(arena: &Arena)
    ensures { AreSound arena.now.keyed_steps }
{
    // its clause `sound` says so
    let _ = arena.len();
}
