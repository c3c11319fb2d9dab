//! The messages that wait from one role to another, one after the other.
ghost use Rattle.std.specs.Prelude.{◌≡◌};
ghost use Rattle.std.specs.Iterator.{YieldsFirstRef, item_count};
ghost use Rattle.mps_history.specs.Steps.{unreceived};
ghost use Rattle.mps_arena.specs.KeyedSteps.{steps, AreSound};
ghost use Rattle.mps_arena.specs.Neighbours.{first_waiting};

use crate::log::message_at;
use mps_arena::{Arena, Key};
use mps_base::{Message, Role};
use std::marker::Model;

/// The messages from one role to another that are left to show, in the order in which they were sent.
#[derive(Drop)]
pub struct Queue<'a> {
    arena: &'a Arena,
    from: Role,
    to: Role,
    // the send of the first that is left
    at: Option<Key>,
}

impl<'a> Model for Queue<'a> {
    ghost use Rattle.std.specs.Prelude.{List};
    ghost use Rattle.mps_base.specs.declared.action.Message.{Message};

    ghost Value = { List Message };

    ghost use Rattle.mps_log.specs.Private.Queued.{left_of, IsQueue};

    ghost view = { left_of };

    ghost invariant = { IsQueue };
}

impl<'a> Queue<'a> {
    /// An iterator over all messages that wait from one role to another, where `first` is the first send that isn't
    /// received. It does not allocate.
    pub(crate) fn of(arena: &'a Arena, from: Role, to: Role, first: Option<Key>) -> Queue<'a>
        requires sound { AreSound arena.now.keyed_steps }
        requires first { first ≡ first_waiting arena.now.keyed_steps from to }
        ensures { result ≡ unreceived from to (steps arena.now.keyed_steps) }
    {
        Queue {
            arena,
            from,
            to,
            at: first,
        }
    }
}

impl<'a> Iterator for Queue<'a> {
    type Item = &'a Message;

    ghost next_gives = { YieldsFirstRef (λ left. left) };

    ghost remaining = { item_count (λ left. left) };

    // The next message in order of sending, or `None` at the end. O(1).
    fn next(&mut self) -> Option<&'a Message> {
        let key = self.at?;
        let arena = self.arena;
        self.at = arena.next_send(key);
        // each key that the walk comes to is a send's
        let Some(message) = message_at(arena, key) else {
            unreachable!()
        };
        Some(message)
    }
}
