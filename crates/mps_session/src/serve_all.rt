//! Lists of changes.
ghost use Rattle.std.specs.Prelude.{◌≡◌, ◌<◌, Some, length, IfOk, OnErr, vec_len};
ghost use Rattle.std.specs.List.{AllByRecursion};
ghost use Rattle.mps_machine.specs.Rule.{replay};
ghost use Rattle.mps_machine.specs.Undoing.{UndoesSteps, RefusesNeeded, RefusesFinal, RemovesFutures, ReturnsToMarks};
ghost use Rattle.mps_machine.specs.Undoing.{KeepsCommits};
ghost use Rattle.mps_machine.specs.View.{opening};
ghost use Rattle.mps_session.specs.Runs.{AreServed};
ghost use Rattle.mps_session.specs.SessionState.{session_view};

use crate::session::Session;
use mps_base::Role;
use mps_command::{Answer, Change};
use std::alloc::AllocError;

impl Session {
    /// Makes changes, each of its role, in turn, and returns their answers, refusals among them. The list of answers is
    /// allocated first: out of memory for it is the only error, and then no change is made.
    ///
    /// What binds the code is `served`: with the clauses of `forward`, `undo`, `rollback` and `back` it says what is
    /// answered and what is left. `undone`, `refused`, `refused_final`, `kept`, `removed` and `returned` are laws of
    /// the machine, said here of the state that is reached.
    pub fn serve_all(&mut self, requests: Vec<(Role, Change)>) -> Result<Vec<Answer>, AllocError>
        requires { AllByRecursion (λ request. request.0 < length self.old.types) requests.items }
        // each is answered as the machine answers it, in the state that the one before it left
        ensures served { IfOk result (λ answers. AreServed self.old.types
            requests.items answers.items self.old.state self.new.state) }
        ensures count { IfOk result (λ answers. vec_len answers ≡ vec_len requests) }
        ensures types { self.new.types ≡ self.old.types }
        // after them the session is what replaying its surviving steps gives
        ensures replayed { replay (opening self.new.types) self.new.state.history
            ≡ Some (session_view self.new) }
        // a step and then its undo change nothing but the next number; a commit stays
        ensures undone { UndoesSteps self.new.types self.new.state }
        // an undo is refused as needed exactly where another surviving step depends on the step, which is no commit
        ensures refused { RefusesNeeded self.new.state }
        // an undo is refused as final exactly where the step is a commit, and a rollback exactly where it would remove
        // one
        ensures refused_final { RefusesFinal self.new.state }
        // whatever is asked for later, a surviving commit stays, and so does all that it depends on
        ensures kept { KeepsCommits self.new.types self.new.state }
        // a rollback removes exactly the chosen step and all that depend on it
        ensures removed { RemovesFutures self.new.state }
        // a return to a mark is a rollback of the role's first step after its last mark of the name
        ensures returned { ReturnsToMarks self.new.state }
        ensures err { OnErr result (self.new.state ≡ self.old.state) }
    {
        let mut answers = Vec::with_capacity(self.configuration.alloc, requests.len())?;
        for (role, change) in requests {
            answers.push_reserved(self.serve(role, change));
        }
        Ok(answers)
    }
}
