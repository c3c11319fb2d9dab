//! Steps forward: sends, receipts, choices, picks, marks and commits.
ghost use Rattle.std.specs.Prelude.{◌≡◌, ◌≢◌, ◌+◌, ◌<◌, length, IfOk, OnOk, OnErr, Err, [], ◌∷◌, Ok, ⊤, Some, None};
ghost use Rattle.mps_base.specs.declared.action.Act.TheVariants.{Commit};
ghost use Rattle.mps_command.specs.Acts.{act_of};
ghost use Rattle.mps_command.specs.declared.answer.Refusal.TheVariants.{Violation as Violates, Final};
ghost use Rattle.mps_command.specs.declared.answer.Violation.TheVariants.{Mismatch};
ghost use Rattle.mps_fidelity.specs.Fidelity.{AreOfOneProtocol};
ghost use Rattle.mps_machine.specs.Answering.{IsAnswer, IsServed};
ghost use Rattle.mps_machine.specs.Machine as machine;
ghost use Rattle.mps_machine.specs.Undoing.{IsNewest};
ghost use Rattle.mps_session.specs.Answers.{once, taken_of, IsSent};
ghost use Rattle.mps_session.specs.Private.Configurations.{taken_from};

use crate::configuration::once_more;
use crate::session::Session;
use mps_base::{Role, StepId};
use mps_command::{Done, Forward, Refusal};

impl Session {
    /// Does a step of the role, and returns its number and the message that it took, if it took one. The refusal is the
    /// first that applies: the violation of the role's type, `Full`, `Memory`. A refusal changes nothing.
    pub fn forward(&mut self, role: Role, step: Forward) -> Result<Done, Refusal>
        requires { role < length self.old.types }
        // In a session of one protocol no answer is Mismatch.
        ensures never_mismatch { AreOfOneProtocol self.old.types → result ≢ Err (Violates Mismatch) }
        ensures answer { IsAnswer result
            (machine.forward self.old.types self.old.state role (act_of step)).0 }
        ensures state { OnOk result (self.new.state
            ≡ (machine.forward self.old.types self.old.state role (act_of step)).1) }
        ensures types { self.new.types ≡ self.old.types }
        // On a new step of any kind nothing depends, and without it the history is the old one.
        ensures newest { IfOk result (λ done. IsNewest self.old.state.history self.new.state.history done.id) }
        // A step that is no commit and then its undo change nothing, but that the number isn't given out again.
        ensures undone { act_of step ≢ Commit → IfOk result (λ done. machine.undo self.new.state role done.id
            ≡ (Ok (done.id ∷ []), record self.old.state { next = self.old.state.next + 1 })) }
        // An undo of a commit is refused, and names it.
        ensures stays { act_of step ≡ Commit → IfOk result (λ done. machine.undo self.new.state role done.id
            ≡ (Err (Final done.id), self.new.state)) }
        ensures err { OnErr result (self.new.state ≡ self.old.state) }
    {
        // reads a field, since the proof needs what the session keeps, and not its value alone
        let _ = &self.types;
        // the step that gave the message is told for gists alone
        let (done, _) = self.attempt_forward(role, &step)?;
        Ok(done)
    }

    /// `forward` on a borrowed step, which tells besides the number of the step whose message was taken, if one was:
    /// journals keep that in place of the message.
    #[inline(always)]
    pub(crate) fn attempt_forward(
        &mut self,
        role: Role,
        step: &Forward,
    ) -> Result<(Done, Option<StepId>), Refusal>
        requires { role < length self.old.types }
        ensures served { IsServed ⊤ (once result) self.old.state self.new.state
            (machine.forward self.old.types self.old.state role (act_of step.now)) }
        ensures source { IfOk result (λ told. told.0.got ≡ taken_of self.old.state.history told.1) }
        ensures sent { IfOk result (λ told. IsSent self.old.state.history told.1) }
        ensures types { self.new.types ≡ self.old.types }
    {
        match step {
            Forward::Receive { from, .. } | Forward::Pick { from } => {
                self.attempt_receipt(role, *from, step)
            }
            Forward::Send { .. }
            | Forward::Choose { .. }
            | Forward::Mark { .. }
            | Forward::Commit => { self.attempt_other(role, step) }
        }
    }

    // `attempt_forward` for a receipt or a pick: one look at the front of the queue serves the verdict, the answer and
    // the number of the sender's step. The message is copied before anything changes, so a refusal changes nothing.
    #[inline(always)]
    fn attempt_receipt(
        &mut self,
        role: Role,
        from: Role,
        step: &Forward,
    ) -> Result<(Done, Option<StepId>), Refusal>
        requires role { role < length self.old.types }
        requires takes { taken_from step.now ≡ Some from }
        ensures served { IsServed ⊤ (once result) self.old.state self.new.state
            (machine.forward self.old.types self.old.state role (act_of step.now)) }
        ensures source { IfOk result (λ told. told.0.got ≡ taken_of self.old.state.history told.1) }
        ensures sent { IfOk result (λ told. IsSent self.old.state.history told.1) }
        ensures types { self.new.types ≡ self.old.types }
    {
        let configuration = &self.configuration;
        let (source, first) = match configuration.log.first_sent(from, role) {
            Some((source, first)) => (Some(source), Some(first)),
            None => (None, None),
        };
        let node = configuration.allowed(role, step, first)?;
        // copied before anything changes, since memory may run out
        let got = once_more(configuration.alloc, first)?;
        let id = self.configuration.act(role, step, node)?;
        Ok((Done { id, got }, source))
    }

    // `attempt_forward` for a send, a choice, a mark or a commit, which take no message, so that no queue is looked at.
    // A refusal changes nothing.
    #[inline(always)]
    fn attempt_other(
        &mut self,
        role: Role,
        step: &Forward,
    ) -> Result<(Done, Option<StepId>), Refusal>
        requires role { role < length self.old.types }
        requires takes { taken_from step.now ≡ None }
        ensures served { IsServed ⊤ (once result) self.old.state self.new.state
            (machine.forward self.old.types self.old.state role (act_of step.now)) }
        ensures source { IfOk result (λ told. told.0.got ≡ taken_of self.old.state.history told.1) }
        ensures sent { IfOk result (λ told. IsSent self.old.state.history told.1) }
        ensures types { self.new.types ≡ self.old.types }
    {
        let node = self.configuration.allowed(role, step, None)?;
        let id = self.configuration.act(role, step, node)?;
        Ok((Done { id, got: None }, None))
    }
}
