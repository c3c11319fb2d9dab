//! A room with one caller.
ghost use Rattle.std.specs.Prelude.{◌≡◌, ◌<◌, length};

use crate::caller::Caller;
use crate::numbers::Numbers;
use crate::room::Room;
use mps_base::{Role, Roles};
use mps_command::{Answer, Command, Refusal};

/// A room, who calls it for one of its roles, and the newest of the caller's numbered commands.
#[derive(Drop)]
pub struct Solo {
    pub room: Room,
    pub role: Role,
    pub numbers: Numbers,
    ghost known: { role < length room.types },
}

impl Solo {
    /// A caller for this one role of the room, without an accepted numbered command yet. It takes the room, and does
    /// not allocate.
    pub fn new(room: Room, role: Role) -> Solo
        requires { role < length room.types }
        ensures room { result.room ≡ room }
        ensures role { result.role ≡ role }
        ensures numbers { result.numbers.newest ≡ None }
    {
        Solo {
            room,
            role,
            numbers: Numbers::new(),
        }
    }
}

impl Caller for Solo {
    ghost use Rattle.std.specs.Prelude.{true};
    ghost use Rattle.mps_room.specs.Numbers.{last_of, kept_of, keeps_newest};
    ghost use Rattle.mps_room.specs.Solos.{IsSoloCall, names_of, role_of, made_of, same_names, same_role, made_grows};

    ghost names = { names_of };

    ghost role = { role_of };

    ghost made = { made_of };

    ghost calls = { IsSoloCall };

    ghost last = { λ s. last_of s.numbers.newest };

    ghost kept = { λ s. kept_of s.numbers.newest };

    ghost may_tell = { λ _. true };

    // The names of the room's roles, 2 to 8, in order.
    fn roles(&self) -> &Roles {
        self.room.names()
    }

    // Applies the command to the room at once, for the role: a `Solo` owns its room, so it never waits.
    fn call(&mut self, command: Command) -> Answer {
        self.room.apply(self.role, command)
    }

    // The number of the newest accepted numbered command, 0 before the first.
    fn last(&self) -> u64 {
        self.numbers.last()
    }

    // The answer to the newest accepted numbered command, or `None` before the first.
    fn kept(&self) -> Option<&Answer> {
        self.numbers.kept()
    }

    // Applies the command to the room at once, and stores an accepted answer under the number. A refusal changes
    // nothing, so the number may come again.
    fn call_next(&mut self, number: u64, command: Command) -> Result<(), Refusal> {
        match self.room.apply(self.role, command) {
            Answer::Refused(refusal) => Err(refusal),
            answer => {
                self.numbers.keep(number, answer);
                Ok(())
            }
        }
    }

    // Always: nothing is recorded outside the room, so no record is lost.
    fn may_tell(&self) -> bool {
        true
    }

    ghost keeps = { λ s some. keeps_newest s.numbers.newest some };

    ghost same_names = { same_names };

    ghost same_role = { same_role };

    ghost grows = { made_grows };
}
