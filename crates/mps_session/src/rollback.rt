//! Steps undone with all that depend on them.
ghost use Rattle.std.specs.Prelude.{◌≡◌, ◌≢◌, ◌+◌, ◌<◌, ◌≤◌, ◌++◌, [], List, reverse, length, Some, None, unwrap_or};
ghost use Rattle.std.specs.Prelude.{vec_len, vec_capacity, IsSome, IfOk, IfErr, OnOk, OnErr, ⊤};
ghost use Rattle.std.specs.List.{AllByRecursion};
ghost use Rattle.std.specs.Option.{option_map};
ghost use Rattle.std.specs.Result.{result_err};
ghost use Rattle.mps_command.specs.declared.answer.Refusal.TheVariants.{Final, Memory};
ghost use Rattle.mps_history.specs.Steps.{numbers, step_of, steps_of, within, without};
ghost use Rattle.mps_history.specs.Dependence.{consequences, least};
ghost use Rattle.mps_local.specs.Local.{LocalType};
ghost use Rattle.mps_machine.specs.Machine as machine;
ghost use Rattle.mps_machine.specs.Machine.{since_mark, final_fault};
ghost use Rattle.mps_machine.specs.Answering.{IsAnswer, IsServed};
ghost use Rattle.mps_machine.specs.Rule.{replay};
ghost use Rattle.mps_arena.specs.KeyedSteps.{steps};
ghost use Rattle.mps_links.specs.Marks.{marked_keys, marked_commits, marked_steps, unmarked_steps, AreMarksClosed};
ghost use Rattle.mps_session.specs.Answers.{once};
ghost use Rattle.mps_session.specs.Private.FirstNumber.{first_number};
ghost use Rattle.mps_session.specs.Private.Configurations.{lists_of};
ghost use Rattle.mps_session.specs.Private.Invariant.{Holds};
ghost use Rattle.mps_session.specs.SessionState.{session_view};
ghost use Rattle.mps_session.specs.NumberSets.{is_among};

use crate::configuration::Configuration;
use crate::session::Session;
use mps_base::{Name, Role, StepId};
use mps_command::{Refusal, StepIds};
use std::alloc::{AllocError, Global};

// Two empty lists: one with room for `count` numbers, and one for their copy. A single number is copied without a list,
// so the second has no room then. Out of memory is the only error.
fn space_for(alloc: Global, count: usize) -> Result<(Vec<StepId>, Vec<StepId>), AllocError>
    ensures none { IfOk result (λ space. vec_len space.0 ≡ 0) }
    ensures first { IfOk result (λ space. space.0.items ≡ []) }
    ensures first_space { IfOk result (λ space. count ≤ vec_capacity space.0) }
    ensures copy { IfOk result (λ space. space.1.items ≡ []) }
    ensures copy_space { IfOk result (λ space. count ≢ 1 → count ≤ vec_capacity space.1) }
{
    let copied = if count == 1 { 0 } else { count };
    Ok((
        Vec::with_capacity(alloc, count)?,
        Vec::with_capacity(alloc, copied)?,
    ))
}

// The numbers as an answer, and a copy of them for a gist, in the memory reserved for it: it can't fail. A single
// number is stored without a list in the answer, so its list is the copy.
fn with_copy(ids: Vec<StepId>, space: Vec<StepId>) -> (StepIds, Vec<StepId>)
    requires empty { space.items ≡ [] }
    requires space { vec_len ids ≢ 1 → vec_len ids ≤ vec_capacity space }
    ensures first { result.0 ≡ ids.items }
    ensures copy { result.1.items ≡ ids.items }
{
    if let [id] = ids.as_slice() {
        return (StepIds::one(*id), ids);
    }
    let mut copy = space;
    // never: there is space for all
    if copy.extend_from_slice(&ids).is_err() {
        unreachable!()
    }
    (StepIds::of(ids), copy)
}

// No numbers, twice, for a return to a mark that takes nothing back: as `with_copy` gives them. It does not allocate.
fn nothing(alloc: Global) -> (StepIds, Vec<StepId>)
    ensures first { result.0 ≡ [] }
    ensures copy { result.1.items ≡ [] }
{
    (StepIds::of(Vec::new(alloc)), Vec::new(alloc))
}

impl Configuration {
    // Room for the numbers of the chosen steps, `count` of them, and for their copy; or why the steps stay: `Final`
    // with the least commit among them, else `Memory`. Steps stay chosen either way.
    fn space_for_chosen(&self, count: usize) -> Result<(Vec<StepId>, Vec<StepId>), Refusal>
        requires { AreMarksClosed (lists_of self.now).keyed_steps }
        ensures none { IfOk result (λ space. vec_len space.0 ≡ 0) }
        ensures first { IfOk result (λ space. space.0.items ≡ []) }
        ensures first_space { IfOk result (λ space. count ≤ vec_capacity space.0) }
        ensures copy { IfOk result (λ space. space.1.items ≡ []) }
        ensures copy_space { IfOk result (λ space. count ≢ 1 → count ≤ vec_capacity space.1) }
        ensures free { OnOk result
            (least (marked_commits (lists_of self.now).keyed_steps) ≡ None) }
        ensures fault { IfErr result (λ refusal. unwrap_or
            (option_map Final (least (marked_commits (lists_of self.now).keyed_steps))) Memory
            ≡ refusal) }
    {
        if let Some(by) = self.log.least_final() {
            return Err(Refusal::Final { by });
        }
        Ok(space_for(self.alloc, count)?)
    }

    /// Removes the step of that number and all that depend on it, the newest first, and returns their numbers, with a
    /// copy for a journal. The refusal is `Final` with the least commit among them, else `Memory`; it changes nothing,
    /// and no step stays chosen.
    #[inline(never)]
    pub(crate) fn take_back(&mut self, id: StepId) -> Result<(StepIds, Vec<StepId>), Refusal>
        requires present { IsSome (step_of (steps (lists_of self.old).keyed_steps) id) }
        requires unmarked { marked_keys (lists_of self.old).keyed_steps ≡ [] }
        requires members { AllByRecursion
            (λ e. e.step.role < length (lists_of self.old).cursors) (lists_of self.old).keyed_steps }
        ensures numbers { IfOk result (λ ids. ids.0 ≡ reverse (numbers
            (within (steps (lists_of self.old).keyed_steps)
            (consequences (steps (lists_of self.old).keyed_steps) id)))) }
        ensures copy { IfOk result (λ ids. ids.1.items ≡ ids.0) }
        ensures history { OnOk result (steps (lists_of self.new).keyed_steps
            ≡ without (steps (lists_of self.old).keyed_steps)
            (consequences (steps (lists_of self.old).keyed_steps) id)) }
        ensures issued { (lists_of self.new).issued ≡ (lists_of self.old).issued }
        ensures unmarked { marked_keys (lists_of self.new).keyed_steps ≡ [] }
        ensures holds { (types : List LocalType) → Holds types (lists_of self.old)
            → Holds types (lists_of self.new) }
        ensures free { OnOk result
            (final_fault (steps (lists_of self.old).keyed_steps) id ≡ None) }
        ensures fault { IfErr result (λ refusal. unwrap_or
            (final_fault (steps (lists_of self.old).keyed_steps) id) Memory ≡ refusal) }
        ensures err { OnErr result (lists_of self.new ≡ lists_of self.old) }
    {
        let count = self.log.choose_from(id);
        match self.space_for_chosen(count) {
            // nothing fails from here on
            Ok((mut ids, space)) => {
                self.remove_chosen(&mut ids);
                Ok(with_copy(ids, space))
            }
            Err(refusal) => {
                self.log.choose_none();
                Err(refusal)
            }
        }
    }

    /// `Ok` where no commit is among the step of that number and all that depend on it, else `Final` with the least:
    /// what `take_back` would refuse, lack of memory aside. It chooses steps on the way, and none stays chosen. It does
    /// not allocate.
    pub(crate) fn unless_final(&mut self, id: StepId) -> Result<(), Refusal>
        requires present { IsSome (step_of (steps (lists_of self.old).keyed_steps) id) }
        requires unmarked { marked_keys (lists_of self.old).keyed_steps ≡ [] }
        ensures fault { result_err result ≡ final_fault (steps (lists_of self.old).keyed_steps) id }
        ensures kept { lists_of self.new ≡ lists_of self.old }
    {
        // how many they are isn't needed
        self.log.choose_from(id);
        let by = self.log.least_final();
        self.log.choose_none();
        match by {
            Some(by) => Err(Refusal::Final { by }),
            None => Ok(()),
        }
    }

    /// Removes the chosen steps, the newest first, so that none is left on which another depends, and appends their
    /// numbers to `ids`, which has room. It can't fail.
    pub(crate) fn remove_chosen(&mut self, ids: &mut Vec<StepId>)
        requires closed { AreMarksClosed (lists_of self.old).keyed_steps }
        requires members { AllByRecursion
            (λ e. e.step.role < length (lists_of self.old).cursors) (lists_of self.old).keyed_steps }
        requires space { vec_len ids.old + length (marked_keys (lists_of self.old).keyed_steps)
            ≤ vec_capacity ids.old }
        ensures numbers { ids.new.items ≡ ids.old.items
            ++ reverse (numbers (marked_steps (lists_of self.old).keyed_steps)) }
        ensures history { steps (lists_of self.new).keyed_steps
            ≡ unmarked_steps (lists_of self.old).keyed_steps }
        ensures issued { (lists_of self.new).issued ≡ (lists_of self.old).issued }
        ensures unmarked { marked_keys (lists_of self.new).keyed_steps ≡ [] }
        ensures holds { (types : List LocalType) → Holds types (lists_of self.old)
            → Holds types (lists_of self.new) }
    {
        while let Some(key) = self.log.newest_chosen() {
            let id = self.remove(key);
            ids.push_reserved(id);
        }
    }

    /// The number of the role's first step after its last mark of the name: `None` without such a mark, `Some(None)`
    /// where no step of the role follows it. O(1).
    pub(crate) fn first_after(&self, role: Role, name: &Name) -> Option<Option<StepId>>
        requires { role < 8 }
        ensures { result ≡ option_map first_number
            (since_mark name.now (steps_of role (steps (lists_of self.now).keyed_steps))) }
    {
        let mark = self.log.last_mark(role, name)?;
        let Some(next) = self.log.next_of_role(mark) else {
            return Some(None);
        };
        Some(Some(self.log.get(next).id))
    }
}

impl Session {
    /// Removes the role's own step of that number and all that depend on it, its causal future, and returns their
    /// numbers, the newest first. The refusal is the first that applies: `NoStep`, `NotYours`, `Final` with the least
    /// commit among them, `Memory`; it changes nothing.
    pub fn rollback(&mut self, role: Role, id: StepId) -> Result<StepIds, Refusal>
        requires { role < length self.old.types }
        ensures answer { IsAnswer result (machine.rollback self.old.state role id).0 }
        ensures state { OnOk result (self.new.state
            ≡ (machine.rollback self.old.state role id).1) }
        ensures types { self.new.types ≡ self.old.types }
        // the steps that were undone are allowed in the view that is left, and lead back to the view from before
        ensures back { OnOk result (replay (session_view self.new)
            (within self.old.state.history (consequences self.old.state.history id))
            ≡ Some (session_view self.old)) }
        ensures err { OnErr result (self.new.state ≡ self.old.state) }
    {
        // the copy is for journals
        let (ids, _) = self.attempt_rollback(role, id)?;
        Ok(ids)
    }

    /// `rollback` with a copy of the numbers besides, for a journal; allocated before anything changes.
    #[inline(always)]
    pub(crate) fn attempt_rollback(
        &mut self,
        role: Role,
        id: StepId,
    ) -> Result<(StepIds, Vec<StepId>), Refusal>
        requires { role < length self.old.types }
        ensures served { IsServed ⊤ (once result) self.old.state self.new.state
            (machine.rollback self.old.state role id) }
        ensures copy { IfOk result (λ ids. ids.1.items ≡ ids.0) }
        ensures types { self.new.types ≡ self.old.types }
        ensures back { OnOk result (replay (session_view self.new)
            (within self.old.state.history (consequences self.old.state.history id))
            ≡ Some (session_view self.old)) }
    {
        // the key isn't needed: what depends on the step is asked by its number
        self.configuration.own_step(role, id)?;
        self.configuration.take_back(id)
    }

    /// Returns the role to its last mark of the name: its first step after the mark is removed, if there is one, with
    /// all that depend on it; their numbers are returned, the newest first. The mark stays. The refusal is `NoMark`,
    /// `Final` with the least commit among them, or `Memory`; it changes nothing.
    pub fn back(&mut self, role: Role, name: &Name) -> Result<StepIds, Refusal>
        requires { role < length self.old.types }
        ensures answer { IsAnswer result (machine.back self.old.state role name.now).0 }
        ensures state { OnOk result (self.new.state
            ≡ (machine.back self.old.state role name.now).1) }
        ensures types { self.new.types ≡ self.old.types }
        // the steps that were undone are allowed in the view that is left, and lead back to the view from before
        ensures back { IfOk result (λ ids. replay (session_view self.new)
            (within self.old.state.history (is_among ids)) ≡ Some (session_view self.old)) }
        ensures err { OnErr result (self.new.state ≡ self.old.state) }
    {
        // the copy is for journals
        let (ids, _) = self.attempt_back(role, name)?;
        Ok(ids)
    }

    /// `back` with a copy of the numbers besides, for a journal; allocated before anything changes.
    #[inline(always)]
    pub(crate) fn attempt_back(
        &mut self,
        role: Role,
        name: &Name,
    ) -> Result<(StepIds, Vec<StepId>), Refusal>
        requires { role < length self.old.types }
        ensures served { IsServed ⊤ (once result) self.old.state self.new.state
            (machine.back self.old.state role name.now) }
        ensures copy { IfOk result (λ ids. ids.1.items ≡ ids.0) }
        ensures types { self.new.types ≡ self.old.types }
        ensures back { IfOk result (λ ids. replay (session_view self.new)
            (within self.old.state.history (is_among ids.0)) ≡ Some (session_view self.old)) }
    {
        match self.configuration.first_after(role, name) {
            None => Err(Refusal::NoMark),
            Some(None) => Ok(nothing(self.configuration.alloc)),
            Some(Some(id)) => self.configuration.take_back(id),
        }
    }
}
