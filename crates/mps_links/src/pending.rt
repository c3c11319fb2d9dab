//! What is still to be marked.
ghost use Rattle.std.specs.Prelude.{◌≡◌, ◌⊎◌, ◌<◌, List, IsSome, IfSome, Some, None, length, replicate};
ghost use Rattle.std.specs.Option.{option_map};
ghost use Rattle.mps_arena.specs.KeyedSteps.{KeyedStep, keyed_at};
ghost use Rattle.mps_arena.specs.Neighbours.{next_of_role_in, receipt_in};
ghost use Rattle.mps_links.specs.Private.Numbered.{keys_alone, HaveNumbers};
ghost use Rattle.mps_links.specs.Private.Pending.{unless_marked, with_receipt, IsUnmarkedFirst, AreFirstsMarked};

use crate::order::{NumberedKey, earlier, with_number};
use mps_arena::{Arena, Key, steps_are_sound};

// The place, from 0, of the role whose step has the key, as an index of arrays; the step has to be there.
fn role_at(arena: &Arena, key: Key) -> usize
    requires { IsSome (keyed_at key arena.now.keyed_steps) }
    ensures role { option_map (λ e. e.step.role) (keyed_at key arena.now.keyed_steps) ≡ Some result }
    ensures small { result < 8 }
{
    // for the proof alone
    steps_are_sound(arena);
    arena.get(key).role.index()
}

/// The role's next step after that of the key, or `None` where there is none, or it is marked. O(1).
pub(crate) fn unmarked_next(arena: &Arena, key: Key) -> Option<Key>
    ensures { result ≡ unless_marked arena.now.keyed_steps (next_of_role_in arena.now.keyed_steps key) }
{
    let next = arena.next_of_role(key)?;
    if arena.marked(next) { None } else { Some(next) }
}

/// Of each role the first receipt of a marked send, in `mark_from`. All of the role's steps from there on depend on a
/// marked step. Such a receipt may be marked already.
#[derive(Drop)]
pub(crate) struct Pending {
    firsts: [Option<NumberedKey>; 8],
}

impl Pending {
    /// What is pending before any step is marked: no receipt. It is kept inline, and does not allocate.
    pub(crate) fn new() -> Pending
        ensures size { length result.firsts ≡ 8 }
        ensures keys { keys_alone result.firsts ≡ replicate 8 None }
        ensures numbers { (es : List KeyedStep) → HaveNumbers es result.firsts }
    {
        Pending { firsts: [None; 8] }
    }

    /// The step that is to be marked next: that at which the walk through a role's steps stands or, where it has
    /// ended, a first receipt; `None` where all are marked. O(1): 8 receipts are looked at.
    #[inline(always)]
    pub(crate) fn next(&self, arena: &Arena, walk: Option<Key>) -> Option<Key>
        requires size { length self.now.firsts ≡ 8 }
        requires numbers { HaveNumbers arena.now.keyed_steps self.now.firsts }
        ensures next { IfSome result (λ k. walk ≡ Some k
            ⊎ (walk ≡ None) × IsUnmarkedFirst arena.now.keyed_steps (keys_alone self.now.firsts) k) }
        ensures ended { result ≡ None → walk ≡ None }
        ensures none { result ≡ None → AreFirstsMarked arena.now.keyed_steps (keys_alone self.now.firsts) }
    {
        match walk {
            Some(key) => Some(key),
            None => self.unmarked(arena),
        }
    }

    // A first receipt that isn't marked, or `None`. O(1): those of 8 roles are looked at.
    fn unmarked(&self, arena: &Arena) -> Option<Key>
        requires size { length self.now.firsts ≡ 8 }
        requires numbers { HaveNumbers arena.now.keyed_steps self.now.firsts }
        ensures first { IfSome result
            (IsUnmarkedFirst arena.now.keyed_steps (keys_alone self.now.firsts)) }
        ensures none { result ≡ None → AreFirstsMarked arena.now.keyed_steps (keys_alone self.now.firsts) }
    {
        for role in 0..8usize {
            if let Some(first) = self.firsts[role] {
                if !arena.marked(first.key) {
                    return Some(first.key);
                }
            }
        }
        None
    }

    /// Takes note of the receipt of a step that is being marked, if it has one: the earlier one of its role stays. O(1).
    #[inline(always)]
    pub(crate) fn follow(&mut self, arena: &Arena, key: Key)
        requires size { length self.old.firsts ≡ 8 }
        requires numbers { HaveNumbers arena.now.keyed_steps self.old.firsts }
        ensures size { length self.new.firsts ≡ 8 }
        ensures keys { keys_alone self.new.firsts
            ≡ with_receipt arena.now.keyed_steps (receipt_in arena.now.keyed_steps key) (keys_alone self.old.firsts) }
        ensures numbers { HaveNumbers arena.now.keyed_steps self.new.firsts }
    {
        if let Some(receipt) = arena.receipt(key) {
            let role = role_at(arena, receipt);
            let receipt = with_number(arena, Some(receipt));
            self.firsts[role] = earlier(self.firsts[role], receipt);
        }
    }
}
