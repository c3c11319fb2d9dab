//! Of two steps the one that comes earlier, and the one that comes later.
ghost use Rattle.std.specs.Prelude.{◌≡◌, List, IfSome, IsSome};
ghost use Rattle.mps_arena.specs.KeyedSteps.{KeyedStep, keyed_at};
ghost use Rattle.mps_links.specs.Private.Numbered.{key_of, HasNumber};
ghost use Rattle.mps_links.specs.Private.Order.{earlier, later};

use mps_arena::{Arena, Key, steps_are_sound};
use mps_base::StepId;

/// A step's key, with its number.
#[derive(Clone, Copy, Debug, PartialEq, Eq)]
pub(crate) struct NumberedKey {
    pub(crate) key: Key,
    pub(crate) id: StepId,
}

/// The key with the number of its step, or `None` without a key. The number is read once, and then compared several
/// times.
pub(crate) fn with_number(arena: &Arena, key: Option<Key>) -> Option<NumberedKey>
    requires { IfSome key (λ key. IsSome (keyed_at key arena.now.keyed_steps)) }
    ensures key { key_of result ≡ key }
    ensures number { HasNumber arena.now.keyed_steps result }
{
    let key = key?;
    // for the proof alone
    steps_are_sound(arena);
    let id = arena.get(key).id;
    Some(NumberedKey { key, id })
}

/// The key without its number, or `None`: what callers outside need of the comparison.
pub(crate) fn key_of(newest: Option<NumberedKey>) -> Option<Key>
    ensures { result ≡ key_of newest }
{
    Some(newest?.key)
}

/// The step with the smaller number; with one alone that one, with none `None`. So a minimum begins with `None`.
pub(crate) fn earlier(a: Option<NumberedKey>, b: Option<NumberedKey>) -> Option<NumberedKey>
    ensures { (es : List KeyedStep) → HasNumber es a → HasNumber es b
        → (key_of result ≡ earlier es (key_of a) (key_of b)) × HasNumber es result }
{
    match (a, b) {
        (_, None) => a,
        (None, _) => b,
        (Some(first), Some(second)) => { if first.id.is_before(second.id) { a } else { b } }
    }
}

/// The step with the larger number; with one alone that one, with none `None`. So a maximum begins with `None`.
pub(crate) fn later(a: Option<NumberedKey>, b: Option<NumberedKey>) -> Option<NumberedKey>
    ensures { (es : List KeyedStep) → HasNumber es a → HasNumber es b
        → (key_of result ≡ later es (key_of a) (key_of b)) × HasNumber es result }
{
    match (a, b) {
        (_, None) => a,
        (None, _) => b,
        (Some(one), Some(other)) => { if one.id.is_before(other.id) { b } else { a } }
    }
}
