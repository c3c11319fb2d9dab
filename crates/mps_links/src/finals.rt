//! The least marked commit.
ghost use Rattle.std.specs.Prelude.{◌≡◌, ◌<◌, ◌==◌, ◌&&◌, IsSome, Some, if◌then◌else◌};
ghost use Rattle.mps_history.specs.Commits.{is_commit};
ghost use Rattle.mps_history.specs.Dependence.{least};
ghost use Rattle.mps_arena.specs.Keys.{first_key};
ghost use Rattle.mps_arena.specs.KeyedSteps.{KeyedStep, keys_of, keyed_at};
ghost use Rattle.mps_links.specs.Marks.{is_marked, AreMarksClosed, marked_commits};

use crate::order::{earlier, with_number};
use mps_arena::{Arena, Key, steps_are_sound};
use mps_base::{Act, Role, StepId};

// The key itself where its step is a commit, else `other`: one step of the fold in `first_final_of`.
fn commit_or(arena: &Arena, key: Key, other: Option<Key>) -> Option<Key>
    requires { IsSome (keyed_at key arena.now.keyed_steps) }
    ensures { (e : KeyedStep) → keyed_at key arena.now.keyed_steps ≡ Some e
        → result ≡ (if is_commit e.step.act then Some key else other) }
{
    match &arena.get(key).act {
        Act::Commit => Some(key),
        _ => other,
    }
}

// The role's earliest marked commit, or `None`: a walk from its last step back to the first unmarked one. Marks are
// closed, so the role's marked steps are its last. O(marked steps of the role).
fn first_final_of(arena: &Arena, role: Role) -> Option<Key>
    requires small { role < 8 }
    requires closed { AreMarksClosed arena.now.keyed_steps }
    ensures { result ≡ first_key (keys_of
        (λ s. s.role == role && (is_marked arena.now.keyed_steps s.id && is_commit s.act)) arena.now.keyed_steps) }
{
    let mut first = None;
    let mut at = arena.last_of(role);
    // no role has more steps than that, so the walk comes to its end
    for _ in 0..arena.len() {
        let Some(key) = at else {
            return first;
        };
        // for the proof alone
        steps_are_sound(arena);
        if !arena.marked(key) {
            return first;
        }
        first = commit_or(arena, key, first);
        at = arena.prev_of_role(key);
    }
    first
}

/// The least number of a marked commit, or `None`, where marks are closed: each step that depends on a marked one is
/// marked. It does not allocate. Unproved: O(marked steps), it looks at no unmarked step but one of each role.
pub fn least_final(arena: &Arena) -> Option<StepId>
    requires closed { AreMarksClosed arena.now.keyed_steps }
    ensures least { result ≡ least (marked_commits arena.now.keyed_steps) }
{
    // for the proof alone
    steps_are_sound(arena);
    let mut first = None;
    for role in 0..8 {
        let own = first_final_of(arena, Role::new(role));
        first = earlier(first, with_number(arena, own));
    }
    Some(first?.id)
}
