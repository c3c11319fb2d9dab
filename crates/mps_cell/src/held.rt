//! A pass that gives a role's commands.

use crate::pass::Pass;
use mps_base::Roles;
use mps_command::Refusal;
use mps_room::{Answer, Caller, Command};
use std::sync::Wait;

/// A pass, with what it waits by.
#[derive(Drop)]
pub struct Held<'r, 'a, R: Wait> {
    pub rt: &'r R,
    pub pass: Pass<'a>,
}

impl<'r, 'a, R: Wait> Caller for Held<'r, 'a, R> {
    ghost use Rattle.std.proofs.Common.{ap, true};
    ghost use Rattle.mps_room.specs.Numbers.{last_of, kept_of, keeps_newest};
    ghost use Rattle.mps_cell.specs.Openings.{Opening};
    ghost use Rattle.mps_cell.specs.Calls.{Calls, calls_grow};

    ghost names = { λ h. h.pass.opening.names };

    ghost role = { λ h. h.pass.role };

    ghost made = { λ h. h.pass.made };

    ghost calls = { λ h c a k. Calls h.pass c a k.pass };

    ghost last = { λ h. last_of h.pass.newest };

    ghost kept = { λ h. kept_of h.pass.newest };

    ghost may_tell = { λ _. true };

    // The names of the session's roles, 2 to 8, in order, which the pass borrows from its cell.
    fn roles(&self) -> &Roles {
        self.pass.names()
    }

    // Calls the room by the pass, and waits for its turn; no clause says that it comes.
    fn call(&mut self, command: Command) -> Answer {
        self.pass.call(self.rt, command)
    }

    // The number of the pass's newest accepted numbered command, 0 before the first.
    fn last(&self) -> u64 {
        self.pass.numbers().last()
    }

    // The answer to the pass's newest accepted numbered command, or `None` before the first.
    fn kept(&self) -> Option<&Answer> {
        self.pass.numbers().kept()
    }

    // Calls the room by the pass, waits for its turn, and stores an accepted answer under the number. A refusal changes
    // nothing, so the number may come again.
    fn call_next(&mut self, number: u64, command: Command) -> Result<(), Refusal> {
        match self.pass.call(self.rt, command) {
            Answer::Refused(refusal) => Err(refusal),
            answer => {
                self.pass.keep(number, answer);
                Ok(())
            }
        }
    }

    // Always: nothing is recorded outside the room, so no record is lost.
    fn may_tell(&self) -> bool {
        true
    }

    ghost keeps = { λ h some. keeps_newest h.pass.newest some };

    ghost same_names = { λ h c a k t. ap (λ (o : Opening). o.names) t.pass.opening };

    ghost same_role = { λ h c a k t. t.pass.role };

    ghost grows = { λ h c a k t. calls_grow h.pass c a k.pass t };
}
