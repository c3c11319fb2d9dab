//! A `Change` of any kind, with one `Answer`, refusals among the answers: one request of `serve_all`.
ghost use Rattle.std.specs.Prelude.{◌≡◌, ◌<◌, length};
ghost use Rattle.mps_command.specs.Changes.{command_of};
ghost use Rattle.mps_machine.specs.Answering.{IsChanged, result_of};

use crate::session::Session;
use mps_base::Role;
use mps_command::{Answer, Change, Command};

// The command that asks for the change: the same cases without the questions. Nothing is copied or allocated.
fn command_of(change: Change) -> Command
    ensures { result ≡ command_of change }
{
    match change {
        Change::Forward(step) => Command::Forward(step),
        Change::Undo(id) => Command::Undo(id),
        Change::Rollback(id) => Command::Rollback(id),
        Change::Back(name) => Command::Back(name),
    }
}

impl Session {
    /// Makes the change that the role asks for, and returns the answer, a refusal as an answer too: one way for all
    /// kinds of changes, for lists of them. An undo needs no memory. A refusal changes nothing.
    pub fn serve(&mut self, role: Role, change: Change) -> Answer
        requires { role < length self.old.types }
        ensures served { IsChanged self.old.types role change (result_of result)
            self.old.state self.new.state }
        ensures types { self.new.types ≡ self.old.types }
    {
        // a gist is made too, and dropped: there is one way, that of `attempt`
        match self.attempt(role, &command_of(change)) {
            Ok((answer, _)) => answer,
            Err(refusal) => Answer::Refused(refusal),
        }
    }
}
