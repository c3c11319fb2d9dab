//! Marked steps: a step and all that depends on it, the newest marked one, and all marks taken off.
ghost use Rattle.std.specs.Prelude.{◌≡◌, ◌<◌, ◌==◌, ◌&&◌, map, length, [], None, Some, IsSome, IfSome};
ghost use Rattle.mps_history.specs.Steps.{step_of, within};
ghost use Rattle.mps_history.specs.Dependence.{consequences};
ghost use Rattle.mps_arena.specs.Keys.{last_key};
ghost use Rattle.mps_arena.specs.KeyedSteps.{steps, keys_of};
ghost use Rattle.mps_arena.specs.Neighbours.{CanGo};
ghost use Rattle.mps_links.specs.Marks.{marked_keys, is_marked, AreMarksClosed, marked_by, unmarked};
ghost use Rattle.mps_links.specs.Private.Numbered.{key_of, HasNumber};
ghost use Rattle.mps_links.specs.Private.RoleMarks.{unmarked_of, AreLastMarked};

use crate::order::{NumberedKey, key_of, later, with_number};
use crate::pending::{Pending, unmarked_next};
use mps_arena::{Arena, Key, steps_are_sound};
use mps_base::{Role, StepId};

/// Marks the step of that number and all that depend on it, its causal future, and returns how many. It goes along the
/// role's steps from that one on, then along those of each other role from its first receipt of a marked send on, and does
/// not allocate. Unproved: O(marked steps), it looks at none that it doesn't mark.
pub fn mark_from(arena: &mut Arena, id: StepId) -> usize
    requires present { IsSome (step_of (steps arena.old.keyed_steps) id) }
    requires unmarked { marked_keys arena.old.keyed_steps ≡ [] }
    ensures marks { arena.new.keyed_steps
        ≡ map (marked_by (consequences (steps arena.old.keyed_steps) id)) arena.old.keyed_steps }
    ensures count { result ≡ length (within (steps arena.old.keyed_steps)
        (consequences (steps arena.old.keyed_steps) id)) }
    ensures closed { AreMarksClosed arena.new.keyed_steps }
    ensures issued { arena.new.issued ≡ arena.old.issued }
    ensures space { arena.new.has_space ≡ arena.old.has_space }
    ensures key { arena.new.next_key ≡ arena.old.next_key }
{
    let len = arena.len();
    // the clause `present` says that there is one
    let first = arena.by_id(id).unwrap();
    let mut walk = Some(first);
    let mut pending = Pending::new();
    // one more is marked in each round; after the last all are
    for count in 0..len {
        // for the proof alone
        steps_are_sound(arena);
        let Some(key) = pending.next(arena, walk) else {
            return count;
        };
        walk = unmarked_next(arena, key);
        pending.follow(arena, key);
        arena.set_mark(key, true);
    }
    len
}

// The role's newest marked step with its number, or `None`. Marks are closed, so it can only be the role's last step.
// O(1).
fn newest_marked_of(arena: &Arena, role: Role) -> Option<NumberedKey>
    requires small { role < 8 }
    requires closed { AreMarksClosed arena.now.keyed_steps }
    ensures newest { key_of result ≡ last_key None (keys_of
        (λ s. s.role == role && is_marked arena.now.keyed_steps s.id) arena.now.keyed_steps) }
    ensures number { HasNumber arena.now.keyed_steps result }
{
    let key = arena.last_of(role)?;
    // for the proof alone
    steps_are_sound(arena);
    if !arena.marked(key) {
        return None;
    }
    with_number(arena, Some(key))
}

// The newest step of all, where it is marked: then none that is marked is newer. `None` says nothing. O(1).
fn newest_if_marked(arena: &Arena) -> Option<Key>
    ensures { IfSome result (λ key. last_key None (marked_keys arena.now.keyed_steps) ≡ Some key) }
{
    let key = arena.last()?;
    // for the proof alone
    steps_are_sound(arena);
    if !arena.marked(key) {
        return None;
    }
    Some(key)
}

/// The newest marked step, or `None`, where marks are closed. So nothing depends on it, and it may be removed. O(1):
/// where an unmarked step is newer, the last steps of 8 roles are compared.
pub fn newest_marked(arena: &Arena) -> Option<Key>
    requires closed { AreMarksClosed arena.now.keyed_steps }
    ensures newest { result ≡ last_key None (marked_keys arena.now.keyed_steps) }
    ensures none { result ≡ None → marked_keys arena.now.keyed_steps ≡ [] }
    ensures free { IfSome result (λ key. CanGo arena.now.keyed_steps key) }
{
    // for the proof alone
    steps_are_sound(arena);
    if let Some(key) = newest_if_marked(arena) {
        return Some(key);
    }
    let mut newest = None;
    for role in 0..8 {
        newest = later(newest, newest_marked_of(arena, Role::new(role)));
    }
    key_of(newest)
}

// Clears the marks of a role, from its last step back to the first unmarked one. O(marked steps of the role). Marks are
// closed, so none stands before that.
fn unmark_role(arena: &mut Arena, role: Role)
    requires small { role < 8 }
    requires last { AreLastMarked role arena.old.keyed_steps }
    ensures keyed_steps { arena.new.keyed_steps ≡ map (unmarked_of role) arena.old.keyed_steps }
    ensures issued { arena.new.issued ≡ arena.old.issued }
    ensures space { arena.new.has_space ≡ arena.old.has_space }
    ensures key { arena.new.next_key ≡ arena.old.next_key }
{
    let mut at = arena.last_of(role);
    // no role has more steps than that, so the walk comes to its end
    for _ in 0..arena.len() {
        let Some(key) = at else {
            return;
        };
        // for the proof alone
        steps_are_sound(arena);
        if !arena.marked(key) {
            return;
        }
        at = arena.prev_of_role(key);
        arena.set_mark(key, false);
    }
}

/// Clears all marks, where marks are closed. It does not allocate, and can't fail. Unproved: O(marked steps), no
/// unmarked step is looked at but one of each role.
pub fn unmark(arena: &mut Arena)
    requires closed { AreMarksClosed arena.old.keyed_steps }
    ensures keyed_steps { arena.new.keyed_steps ≡ map unmarked arena.old.keyed_steps }
    ensures none { marked_keys arena.new.keyed_steps ≡ [] }
    ensures issued { arena.new.issued ≡ arena.old.issued }
    ensures space { arena.new.has_space ≡ arena.old.has_space }
    ensures key { arena.new.next_key ≡ arena.old.next_key }
{
    // for the proof alone
    steps_are_sound(arena);
    for role in 0..8 {
        unmark_role(arena, Role::new(role));
    }
}
