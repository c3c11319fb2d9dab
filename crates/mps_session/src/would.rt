//! Whether a command would be refused.
ghost use Rattle.std.specs.Prelude.{◌≡◌, ◌≢◌, ◌<◌, Err, length};
ghost use Rattle.std.specs.Result.{result_err};
ghost use Rattle.mps_command.specs.declared.answer.Refusal.TheVariants.{Violation as Violates};
ghost use Rattle.mps_command.specs.declared.answer.Violation.TheVariants.{Mismatch};
ghost use Rattle.mps_command.specs.declared.command.Change.TheVariants as changes;
ghost use Rattle.mps_fidelity.specs.Fidelity.{AreOfOneProtocol};
ghost use Rattle.mps_machine.specs.Faults.{fault, refusal_in};
ghost use Rattle.mps_machine.specs.Machine as machine;

use crate::session::Session;
use mps_base::{Name, Role, StepId};
use mps_command::{Command, Forward, Refusal};

impl Session {
    /// Why the role's command would be refused, lack of memory or numbers aside; `Ok` for a question. The session is as
    /// before when it returns; it is borrowed exclusively, since steps are chosen on the way. It does not allocate.
    pub fn would(&mut self, role: Role, command: &Command) -> Result<(), Refusal>
        requires { role < length self.old.types }
        // In a session of one protocol no answer is Mismatch.
        ensures never_mismatch { AreOfOneProtocol self.old.types → result ≢ Err (Violates Mismatch) }
        ensures fault { result_err result ≡ fault self.old.types self.old.state role command.now }
        ensures kept { self.new ≡ self.old }
    {
        // reads a field, since the proof needs what the session keeps, and not its value alone
        let _ = &self.types;
        match command {
            Command::Forward(step) => self.would_forward(role, step),
            Command::Undo(id) => self.would_undo(role, *id),
            Command::Rollback(id) => self.would_rollback(role, *id),
            Command::Back(name) => self.would_back(role, name),
            Command::News(_) | Command::Show | Command::Stand => Ok(()),
        }
    }

    // `would` for a step: the violation of the role's type, if there is one. A step is refused for nothing else but
    // lack of numbers or memory.
    fn would_forward(&self, role: Role, step: &Forward) -> Result<(), Refusal>
        requires { role < length self.now.types }
        ensures { result_err result ≡ refusal_in
            (machine.serve self.now.types self.now.state role (changes.Forward step.now)).0 }
    {
        let configuration = &self.configuration;
        let first = configuration.first_for(role, step);
        match configuration.verdict(role, step, first) {
            Ok(_) => Ok(()),
            Err(fault) => Err(Refusal::Violation(fault)),
        }
    }

    // `would` for an undo: all of its refusals, since an undo needs no memory. Apart, as the other three, each of one
    // `Change`.
    fn would_undo(&self, role: Role, id: StepId) -> Result<(), Refusal>
        requires { role < length self.now.types }
        ensures { result_err result ≡ refusal_in
            (machine.serve self.now.types self.now.state role (changes.Undo id)).0 }
    {
        self.configuration.free_step(role, id)?;
        Ok(())
    }

    // `would` for a rollback: `NoStep`, `NotYours` or `Final`, in that order.
    fn would_rollback(&mut self, role: Role, id: StepId) -> Result<(), Refusal>
        requires { role < length self.old.types }
        ensures fault { result_err result ≡ refusal_in
            (machine.serve self.old.types self.old.state role (changes.Rollback id)).0 }
        ensures kept { self.new ≡ self.old }
    {
        self.configuration.own_step(role, id)?;
        self.configuration.unless_final(id)
    }

    // `would` for a return to the last mark of the name: `NoMark` or `Final`, in that order.
    fn would_back(&mut self, role: Role, name: &Name) -> Result<(), Refusal>
        requires { role < length self.old.types }
        ensures fault { result_err result ≡ refusal_in
            (machine.serve self.old.types self.old.state role (changes.Back name.now)).0 }
        ensures kept { self.new ≡ self.old }
    {
        match self.configuration.first_after(role, name) {
            None => Err(Refusal::NoMark),
            Some(None) => Ok(()),
            Some(Some(id)) => self.configuration.unless_final(id),
        }
    }
}
