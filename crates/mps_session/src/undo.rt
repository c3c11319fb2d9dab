//! Steps undone.
ghost use Rattle.std.specs.Prelude.{◌≡◌, ◌==◌, [], ◌∷◌, Ok, Err, ◌<◌, Some, None, length, vec_len, IfOk, IfErr, IfSome};
ghost use Rattle.std.specs.Prelude.{OnOk, OnErr};
ghost use Rattle.std.specs.List.{find};
ghost use Rattle.std.specs.Option.{option_map};
ghost use Rattle.mps_base.specs.declared.action.Step.{Step};
ghost use Rattle.mps_history.specs.Commits.{is_commit};
ghost use Rattle.mps_history.specs.Steps.{step_of};
ghost use Rattle.mps_machine.specs.Machine as machine;
ghost use Rattle.mps_machine.specs.Machine.{owner_fault};
ghost use Rattle.mps_machine.specs.Answering.{IsServed};
ghost use Rattle.mps_machine.specs.Rule.{rule};
ghost use Rattle.mps_arena.specs.KeyedSteps.{steps, keyed_at, AreSound};
ghost use Rattle.mps_arena.specs.Neighbours.{CanGo};
ghost use Rattle.mps_session.specs.Answers.{undo_answer};
ghost use Rattle.mps_session.specs.Private.Configurations.{lists_of, state_of};
ghost use Rattle.mps_session.specs.Private.Leaving.{HasLeft};
ghost use Rattle.mps_session.specs.SessionState.{session_view};

use crate::configuration::Configuration;
use crate::session::Session;
use mps_base::{Act, Role, StepId};
use mps_command::{Refusal, StepIds};
use mps_log::Key;
use mps_table::Node;

// Whether the act is a commit, which no undo and no rollback takes back.
#[inline(always)]
fn is_commit(act: &Act) -> bool
    ensures { result ≡ is_commit act.now }
{
    match act {
        Act::Commit => true,
        Act::Out { .. } | Act::In { .. } | Act::Mark(_) => false,
    }
}

impl Configuration {
    /// The key of the role's own step of that number; `NoStep` where no step of the number survives, else `NotYours`
    /// where it is another role's. For undos and rollbacks alike. O(1).
    pub(crate) fn own_step(&self, role: Role, id: StepId) -> Result<Key, Refusal>
        ensures own { OnOk result (owner_fault role
            (step_of (steps (lists_of self.now).keyed_steps) id) ≡ None) }
        ensures key { IfOk result (λ key.
            option_map (λ e. e.key) (find (λ e. e.step.id == id) (lists_of self.now).keyed_steps)
            ≡ Some key) }
        ensures sound { OnOk result (AreSound (lists_of self.now).keyed_steps) }
        ensures fault { IfErr result (λ refusal. owner_fault role
            (step_of (steps (lists_of self.now).keyed_steps) id) ≡ Some refusal) }
    {
        let Some(key) = self.log.by_id(id) else {
            return Err(Refusal::NoStep);
        };
        if self.log.get(key).role == role {
            Ok(key)
        } else {
            Err(Refusal::NotYours)
        }
    }

    /// The key of the role's own step of that number, where it may be undone alone; else the first that applies of
    /// `NoStep`, `NotYours`, `Final` for a commit, `Needed` with the least step that depends on it. O(1); nothing
    /// changes.
    pub(crate) fn free_step(&self, role: Role, id: StepId) -> Result<Key, Refusal>
        ensures own { OnOk result (owner_fault role
            (step_of (steps (lists_of self.now).keyed_steps) id) ≡ None) }
        ensures key { IfOk result (λ key.
            option_map (λ e. e.key) (find (λ e. e.step.id == id) (lists_of self.now).keyed_steps)
            ≡ Some key) }
        ensures can { IfOk result (λ key. CanGo (lists_of self.now).keyed_steps key) }
        ensures free { OnOk result (machine.undo (state_of (lists_of self.now)) role id
            ≡ machine.undone (state_of (lists_of self.now)) id) }
        ensures fault { IfErr result (λ refusal. machine.undo (state_of (lists_of self.now)) role id
            ≡ (Err refusal, state_of (lists_of self.now))) }
    {
        let key = self.own_step(role, id)?;
        if is_commit(&self.log.get(key).act) {
            return Err(Refusal::Final { by: id });
        }
        match self.log.least_dependent(id) {
            Some(by) => Err(Refusal::Needed { by }),
            None => Ok(key),
        }
    }

    /// Removes a step that is the last of its role and, if it is a send or a choice, isn't received, moves its role
    /// back to the node from before it, and returns its number. It does not allocate, and can't fail.
    #[inline(always)]
    pub(crate) fn remove(&mut self, key: Key) -> StepId
        requires can { CanGo (lists_of self.old).keyed_steps key }
        requires role { IfSome (keyed_at key (lists_of self.old).keyed_steps)
            (λ e. e.step.role < vec_len self.old.cursors) }
        ensures id { IfSome (keyed_at key (lists_of self.old).keyed_steps)
            (λ e. result ≡ e.step.id) }
        ensures left { IfSome (keyed_at key (lists_of self.old).keyed_steps)
            (λ e. HasLeft e (lists_of self.old) (lists_of self.new)) }
    {
        let role = self.log.get(key).role;
        let node = Node::new(self.log.before(key).at);
        let id = self.log.remove(key).id;
        self.stand_at(role, node);
        id
    }
}

impl Session {
    /// Removes the role's own step of that number. The refusal is the first that applies: `NoStep`, `NotYours`, `Final`
    /// for a commit, `Needed` with the least step that depends on it; it changes nothing. It does not allocate, and the
    /// number isn't given out again.
    pub fn undo(&mut self, role: Role, id: StepId) -> Result<(), Refusal>
        requires { role < length self.old.types }
        ensures answer { undo_answer id result ≡ (machine.undo self.old.state role id).0 }
        ensures state { self.new.state ≡ (machine.undo self.old.state role id).1 }
        ensures types { self.new.types ≡ self.old.types }
        // the undone act is allowed in the view that is left, and leads back to the view from before
        ensures back { OnOk result ((s : Step) → step_of self.old.state.history id ≡ Some s
            → rule (session_view self.new) s ≡ Some (session_view self.old)) }
        ensures err { OnErr result (self.new.state ≡ self.old.state) }
    {
        let key = self.configuration.free_step(role, id)?;
        self.configuration.remove(key);
        Ok(())
    }

    /// `undo` with the number as a list, the form in which all changes are answered. It does not allocate. It has the
    /// clause `served`, as `attempt_forward` has, so that `attempt` is proved alike in its arms.
    #[inline(always)]
    pub(crate) fn attempt_undo(&mut self, role: Role, id: StepId) -> Result<StepIds, Refusal>
        requires { role < length self.old.types }
        ensures served { IsServed ⊥ result self.old.state self.new.state
            (machine.undo self.old.state role id) }
        ensures id { IfOk result (λ ids. ids ≡ id ∷ []) }
        ensures types { self.new.types ≡ self.old.types }
    {
        self.undo(role, id)?;
        Ok(StepIds::one(id))
    }
}
