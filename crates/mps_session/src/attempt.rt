//! A change that a borrowed `Command` asks for: how rooms call a session.
ghost use Rattle.std.specs.Prelude.{◌≡◌, ◌<◌, ℕ, List, [], ◌∷◌, Ok, None, Some, length, IsSome, IfOk, OnErr};
ghost use Rattle.mps_base.specs.declared.action.Step.{Step};
ghost use Rattle.mps_command.specs.Changes.{change_of};
ghost use Rattle.mps_command.specs.declared.command.Change.{Change};
ghost use Rattle.mps_command.specs.declared.command.Command.TheVariants as commands;
ghost use Rattle.mps_command.specs.declared.command.Forward.{Forward};
ghost use Rattle.mps_machine.specs.Machine as machine;
ghost use Rattle.mps_machine.specs.Answering.{IsChanged};
ghost use Rattle.mps_session.specs.Answers.{answer_of, once, source_of, taken_of, IsGistFor, IsSent};

use crate::gist::Gist;
use crate::session::Session;
use mps_base::{Role, StepId};
use mps_command::{Answer, Command, Done, Refusal, StepIds};

// The answer and the gist of a new step: the gist names the step whose message was taken, in place of a copy of the
// message. Apart, as `undid` and `took_back`: each arm of `attempt` has its clauses `gist`, `sent` and `kind` from its
// own.
#[inline(always)]
fn stepped(told: (Done, Option<StepId>)) -> (Answer, Gist)
    ensures answer { result.0 ≡ machine.stepped (Ok told.0) }
    ensures gist { (h : List Step) → told.0.got ≡ taken_of h told.1 → result.0 ≡ answer_of h result.1 }
    ensures sent { (h : List Step) → IsSent h told.1 → IsSent h (source_of result.1) }
    ensures kind { (step : Forward) → IsGistFor (commands.Forward step) result.1 }
{
    let (done, source) = told;
    let gist = Gist::Stepped {
        id: done.id,
        source,
    };
    (Answer::Done(done), gist)
}

// The answer and the gist of an undo: the number of the one step. It does not allocate. Apart, as `stepped`.
#[inline(always)]
fn undid(id: StepId, told: StepIds) -> (Answer, Gist)
    ensures answer { result.0 ≡ machine.removed (Ok told) }
    ensures gist { (h : List Step) → told ≡ id ∷ [] → result.0 ≡ answer_of h result.1 }
    ensures sent { source_of result.1 ≡ None }
    ensures kind { IsGistFor (commands.Undo id) result.1 }
{
    (Answer::Undone(told), Gist::Undid(id))
}

// The answer and the gist of a rollback or a return: each has a list of the numbers, allocated before the steps went.
#[inline(always)]
fn took_back(told: (StepIds, Vec<StepId>)) -> (Answer, Gist)
    ensures answer { result.0 ≡ machine.removed (Ok told.0) }
    ensures gist { (h : List Step) → told.1.items ≡ told.0 → result.0 ≡ answer_of h result.1 }
    ensures sent { source_of result.1 ≡ None }
    ensures rollback { (n : ℕ) → IsGistFor (commands.Rollback n) result.1 }
    ensures back { (name : List ℕ) → IsGistFor (commands.Back name) result.1 }
{
    let (ids, copy) = told;
    (Answer::Undone(ids), Gist::TookBack(copy))
}

impl Session {
    /// Makes the change that the role asks for, or says why not. Returned are the answer and its gist, a shorter form
    /// for a journal. All memory is asked for before anything changes, so a refusal, `Memory` among them, changes
    /// nothing. The command may not be a question.
    #[inline(always)]
    pub fn attempt(&mut self, role: Role, command: &Command) -> Result<(Answer, Gist), Refusal>
        requires role { role < length self.old.types }
        requires change { IsSome (change_of command.now) }
        ensures accepted { (change : Change) → change_of command.now ≡ Some change
            → IsChanged self.old.types role change (once result) self.old.state self.new.state }
        // by the steps from before, the answer can be told from its gist
        ensures gist { IfOk result (λ told. told.0 ≡ answer_of self.old.state.history told.1) }
        ensures kind { IfOk result (λ told. IsGistFor command.now told.1) }
        ensures sent { IfOk result (λ told. IsSent self.old.state.history (source_of told.1)) }
        ensures types { self.new.types ≡ self.old.types }
        ensures err { OnErr result (self.new.state ≡ self.old.state) }
    {
        match command {
            Command::Forward(step) => Ok(stepped(self.attempt_forward(role, step)?)),
            Command::Undo(id) => Ok(undid(*id, self.attempt_undo(role, *id)?)),
            Command::Rollback(id) => Ok(took_back(self.attempt_rollback(role, *id)?)),
            Command::Back(name) => Ok(took_back(self.attempt_back(role, name)?)),
            // excluded by the clause `change`
            Command::News(_) | Command::Show | Command::Stand => unreachable!(),
        }
    }
}
