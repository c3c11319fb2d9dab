//! What a session tells of itself: its roles, its steps, and how each role and each queue stands.
ghost use Rattle.std.specs.Prelude.{◌≡◌, ◌+◌, ◌<◌, ◌≤◌, ℕ, List, length, slice_get, IfSome};
ghost use Rattle.std.specs.List.{AllByRecursion};
ghost use Rattle.std.specs.Map.Iter.{deref_pair};
ghost use Rattle.std.specs.Option.{option_copied, option_map};
ghost use Rattle.mps_base.specs.declared.value.Value.{Value};
ghost use Rattle.mps_local.specs.Actions.{head};
ghost use Rattle.mps_history.specs.Slots.{value_in};
ghost use Rattle.mps_history.specs.Steps.{newest_of};
ghost use Rattle.mps_machine.specs.Machine as machine;
ghost use Rattle.mps_session.specs.Answers.{as_step};
ghost use Rattle.mps_session.specs.Peers.{HavePeers, IsKnown, IsHeadKnown};
ghost use Rattle.mps_session.specs.SessionState.{session_view, moves_of};
ghost use Rattle.mps_table.specs.Expects.{head_of};

use crate::session::Session;
use mps_base::{Act, Message, Name, Role, Sort, Step, StepId, Value};
use mps_log::{Moves, Queue};
use mps_table::Expect;

impl Session {
    /// What the role may do first by its type, labels in the order of the branches; a mark or a commit is always
    /// allowed besides. O(1), and it does not allocate.
    pub fn expect(&self, role: Role) -> Expect<'_>
        requires { role < length self.now.types }
        ensures head { head_of result ≡ head ((session_view self.now).participant role).to_come }
        ensures known { IsHeadKnown (length self.now.types) (head_of result) }
    {
        // what an `Expect` may hold: the prover covers a function with one only where it names these
        let _held: Option<(Role, Sort, Name)> = None;
        let cursor = &self.configuration.cursors[role.index()];
        cursor.table.expect(cursor.node)
    }

    /// How many roles the session has, 2 to 8. The clause `peers` says that each peer of a role's type is another of
    /// them.
    pub fn roles(&self) -> usize
        ensures count { result ≡ length self.now.types }
        ensures some { 2 ≤ result }
        ensures few { result ≤ 8 }
        ensures peers { HavePeers self.now.types }
    {
        self.types.len()
    }

    /// How many numbers were given out: also to steps that were taken back since, so it never falls; at most 100,000.
    pub fn issued(&self) -> u64
        ensures { result + 1 ≡ self.now.state.next }
    {
        self.configuration.log.issued() as u64
    }

    /// How many steps survive, O(1). The clause `sound` says that their numbers rise and were given out, and that the
    /// view that is shown is their replay.
    pub fn len(&self) -> usize
        ensures count { result ≡ length self.now.state.history }
        ensures sound { machine.IsSound self.now.types self.now.state }
    {
        self.configuration.log.len()
    }

    /// The k-th surviving step, from 0: its number, its role and its act; or `None` where not so many survive. O(k);
    /// `moves` walks over all in O(steps).
    pub fn step(&self, k: usize) -> Option<(StepId, Role, &Act)>
        ensures { option_map as_step result ≡ slice_get self.now.state.history k }
    {
        let step = self.configuration.log.step(k)?;
        Some((step.id, step.role, &step.act))
    }

    /// An iterator over the surviving steps in order, each with the message that it gave or took. It is the log's,
    /// borrows the session, and does not allocate.
    pub fn moves(&self) -> Moves<'_>
        ensures moves { result ≡ moves_of self.now }
        ensures known { AllByRecursion (λ m. IsKnown (length self.now.types) m.0) result }
    {
        self.configuration.log.moves()
    }

    /// The role's newest surviving step, with the message that it gave or took, borrowed; `None` where it has none. O(1), by
    /// the log.
    pub fn newest_of(&self, role: Role) -> Option<(&Step, Option<&Message>)>
        requires { role < length self.now.types }
        ensures newest { option_map (λ item. (item.0.now, option_copied item.1)) result
            ≡ newest_of role (moves_of self.now) }
        ensures known { IfSome result (λ item. IsKnown (length self.now.types) item.0.now) }
    {
        self.configuration.log.newest_of(role)
    }

    /// The role's value in the slot, borrowed; `None` where the slot isn't bound. O(1), by the log; the contract is of
    /// the machine's view, of which callers know.
    pub fn slot(&self, role: Role, slot: &Name) -> Option<&Value>
        requires { role < length self.now.types }
        ensures { option_copied result
            ≡ value_in slot.now ((session_view self.now).participant role).store }
    {
        self.configuration.log.value(role, slot)
    }

    /// The k-th message that waits from one role to another, from 0; `None` where not so many wait, or either is no
    /// role of the session. O(k), by the log; the contract is of the machine's view. `waiting` walks over all in
    /// O(messages).
    pub fn message(&self, from: Role, to: Role, k: usize) -> Option<&Message>
        ensures { option_copied result
            ≡ slice_get ((session_view self.now).queue from to) k }
    {
        self.configuration.log.message(from, to, k)
    }

    /// An iterator over the messages that wait from one role to another, in order of sending; empty where either is no
    /// role of the session. It is the log's, and does not allocate; the contract is of the machine's view.
    pub fn waiting(&self, from: Role, to: Role) -> Queue<'_>
        ensures { result ≡ (session_view self.now).queue from to }
    {
        self.configuration.log.waiting(from, to)
    }

    /// How many slots of the role are bound, for `binding` to list. O(1), by the log; the contract is of the machine's
    /// view.
    pub fn slots(&self, role: Role) -> usize
        requires { role < length self.now.types }
        ensures { result ≡ length ((session_view self.now).participant role).store }
    {
        self.configuration.log.slots(role)
    }

    /// The role's slot that was first bound as the k-th, from 0, and the value in it; `None` where fewer are bound.
    /// O(1), by the log; the contract is of the machine's view.
    pub fn binding(&self, role: Role, k: usize) -> Option<(&Name, &Value)>
        requires { role < length self.now.types }
        ensures { option_map (deref_pair {K = List ℕ} {X = Value}) result
            ≡ slice_get ((session_view self.now).participant role).store k }
    {
        self.configuration.log.binding(role, k)
    }
}
