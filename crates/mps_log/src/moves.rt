//! The steps of a log, one after the other.
ghost use Rattle.std.specs.Prelude.{◌≡◌, IsSome, Some, List};
ghost use Rattle.std.specs.Iterator.{YieldsFirstBy, item_count};
ghost use Rattle.std.specs.Option.{option_copied, option_and_then};
ghost use Rattle.mps_arena.specs.KeyedSteps.{keyed_at, AreSound};
ghost use Rattle.mps_log.specs.Shown.{moved_of, shown};

use crate::log::taken_at;
use mps_arena::{Arena, Key};
use mps_base::{Act, Message, Step};
use std::marker::Model;

/// The steps of a log that are left to show, the oldest first, each with the message that it gave or took. A mark
/// moves none, nor does a commit.
#[derive(Drop)]
pub struct Moves<'a> {
    arena: &'a Arena,
    // the first that is left
    at: Option<Key>,
}

impl<'a> Model for Moves<'a> {
    ghost use Rattle.std.specs.Prelude.{List};
    ghost use Rattle.mps_log.specs.Shown.{Moved};
    ghost use Rattle.mps_log.specs.Private.Shown.{left_of, IsWalk};

    ghost Value = { List Moved };

    ghost view = { left_of };

    ghost invariant = { IsWalk };
}

impl<'a> Moves<'a> {
    /// An iterator over all steps of a log's arena, from the oldest. It does not allocate.
    pub(crate) fn of(arena: &'a Arena) -> Moves<'a>
        requires { AreSound arena.now.keyed_steps }
        ensures { result ≡ shown arena.now.keyed_steps arena.now.keyed_steps }
    {
        Moves {
            arena,
            at: arena.first(),
        }
    }
}

impl<'a> Iterator for Moves<'a> {
    type Item = (&'a Step, Option<&'a Message>);

    ghost next_gives = { YieldsFirstBy (λ item. (item.0.now, option_copied item.1)) (λ left. left) };

    ghost remaining = { item_count (λ left. left) };

    // The next step in order, with the message that it gave or took, or `None` at the end. O(1).
    fn next(&mut self) -> Option<(&'a Step, Option<&'a Message>)> {
        let key = self.at?;
        let arena = self.arena;
        self.at = arena.next(key);
        Some((arena.get(key), moved_at(arena, key)))
    }
}

/// The message that the step of the key gave or took, borrowed; `None` for a mark and a commit. The step has to be
/// there.
pub(crate) fn moved_at(arena: &Arena, key: Key) -> Option<&Message>
    requires { IsSome (keyed_at key arena.now.keyed_steps) }
    ensures { option_copied result
        ≡ option_and_then (moved_of arena.now.keyed_steps) (keyed_at key arena.now.keyed_steps) }
{
    match &arena.get(key).act {
        Act::Out { message, .. } => Some(message),
        Act::In { .. } => taken_at(arena, key),
        _ => None,
    }
}
