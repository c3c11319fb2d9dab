//! A caller that leaves the others of its session their part of it.
ghost use Rattle.std.specs.Prelude.{◌≡◌};
ghost use Rattle.mps_hub.specs.Shares.{is_over, is_used_up, may_change, one_fewer};

use crate::bells::Bell;
use mps_base::{Role, Roles};
use mps_command::{Answer, Command, Forward, Refusal};
use mps_keeper::Recordable;
use mps_room::Caller;
use std::sync::{Mutex, MutexGuard, Wait};
use std::thread;
use std::time::{Clock, Duration};

// For how many microseconds whoever waited for its turn to show the state leaves the room to those that wait for it, and were
// woken just before.
const BREATH: u64 = 200;

/// A caller that leaves the others of its session their part: it makes no more entries than are left of its share, and
/// takes turns at showing the state, which takes long where much was done. So whoever gives commands waits for one that
/// shows it, however many do. Where answers may wait it rings for whom its accepted commands let go on.
#[derive(Drop)]
pub struct Sharing<'t, R, C> {
    pub rt: &'t R,
    /// Who may show the state, where turns are taken at that.
    pub turn: Option<&'t Mutex<()>>,
    /// How many entries it may still make, if these are counted.
    pub left: Option<u64>,
    // the bells of the session's roles, where answers may wait
    pub(crate) bells: Option<&'t [Bell]>,
    pub inner: C,
}

// Whether the command asks for a change that there may be: clients undo step 0, which there never is, to learn their number.
fn may_change(command: &Command) -> bool
    ensures { result ≡ may_change command.now }
{
    match command {
        Command::News(_) | Command::Show | Command::Stand => false,
        Command::Undo(id) => id.number() != 0,
        Command::Forward(_) | Command::Rollback(_) | Command::Back(_) => true,
    }
}

// To whom the command gives something, if it is accepted.
fn called_by(command: &Command) -> Option<Role> {
    match command {
        Command::Forward(Forward::Send { to, .. } | Forward::Choose { to, .. }) => Some(*to),
        _ => None,
    }
}

// Rings for all but this role, since steps were taken back.
fn tell_others(bells: &[Bell], own: Role) {
    for (place, bell) in bells.iter().enumerate() {
        if place != own.index() {
            bell.tell();
        }
    }
}

impl<'t, R: Wait + Clock, C> Sharing<'t, R, C> {
    // Whether the command is refused since no entry is left.
    fn is_over(&self, command: &Command) -> bool
        ensures { result ≡ is_over self.now.left command.now }
    {
        self.left == Some(0) && may_change(command)
    }

    // Counts one entry more.
    fn count(&mut self)
        ensures left { self.new.left ≡ one_fewer self.old.left }
        ensures inner { self.new.inner ≡ self.old.inner }
    {
        if let Some(left) = self.left {
            self.left = Some(left.saturating_sub(1));
        }
    }

    // Rings for those that this role's accepted command lets go on: the peer that it gave something, and where steps were taken
    // back all others. It comes after the call: who wakes sees what it did.
    fn ring(&self, own: Role, called: Option<Role>, answer: &Answer) {
        let Some(bells) = self.bells else {
            return;
        };
        if let Answer::Undone(_) = answer {
            return tell_others(bells, own);
        }
        let Some(called) = called else {
            return;
        };
        if let Some(bell) = bells.get(called.index()) {
            bell.call();
        }
    }

    // Waits for the turn to show the state. Whoever had to wait lets those pass that wait for the room.
    fn wait_for_turn(&self) -> Option<MutexGuard<'t, ()>> {
        let turn = self.turn?;
        if let Some(taken) = turn.try_lock() {
            return Some(taken);
        }
        let taken = turn.lock(self.rt);
        thread::sleep(self.rt, Duration::from_micros(BREATH));
        Some(taken)
    }
}

impl<'t, R: Wait + Clock, C: Recordable> Caller for Sharing<'t, R, C> {
    ghost use Rattle.mps_hub.specs.Shares.{IsSharedCall};
    ghost use Rattle.mps_hub.specs.SharedCalls.{keeps_value, keeps_made};

    ghost names = { λ s. C.names s.inner };

    ghost role = { λ s. C.role s.inner };

    ghost made = { λ s. C.made s.inner };

    ghost calls = { λ s c a t. IsSharedCall C.calls s.left s.inner c a t.left t.inner };

    ghost last = { λ s. C.last s.inner };

    ghost kept = { λ s. C.kept s.inner };

    ghost may_tell = { λ s. C.may_tell s.inner };

    fn roles(&self) -> &Roles {
        self.inner.roles()
    }

    fn call(&mut self, command: Command) -> Answer {
        if self.is_over(&command) {
            return Answer::Refused(Refusal::Full);
        }
        let own = self.inner.own_role();
        let called = called_by(&command);
        let answer = match command {
            Command::Show => {
                let _turn = self.wait_for_turn();
                self.inner.call(Command::Show)
            }
            command => self.inner.call(command),
        };
        if matches!(answer, Answer::Done(_) | Answer::Undone(_)) {
            self.count();
            self.ring(own, called, &answer);
        }
        answer
    }

    fn last(&self) -> u64 {
        self.inner.last()
    }

    fn kept(&self) -> Option<&Answer> {
        self.inner.kept()
    }

    fn call_next(&mut self, number: u64, command: Command) -> Result<(), Refusal> {
        if self.is_over(&command) {
            return Err(Refusal::Full);
        }
        let own = self.inner.own_role();
        let called = called_by(&command);
        self.inner.call_next(number, command)?;
        self.count();
        if let Some(answer) = self.inner.kept() {
            self.ring(own, called, answer);
        }
        Ok(())
    }

    fn may_tell(&self) -> bool {
        self.inner.may_tell()
    }

    ghost keeps = { λ s. C.keeps s.inner };

    ghost same_names = { λ s c a t h. keeps_value C.calls C.names C.same_names s.left s.inner c a t.left t.inner h };

    ghost same_role = { λ s c a t h. keeps_value C.calls C.role C.same_role s.left s.inner c a t.left t.inner h };

    ghost grows = { λ s c a t h. keeps_made C.calls C.made C.role C.grows s.left s.inner c a t.left t.inner h };
}

impl<'t, R: Wait + Clock, C: Recordable> Recordable for Sharing<'t, R, C> {
    ghost seen = { λ s. C.seen s.inner };

    fn own_role(&self) -> Role {
        self.inner.own_role()
    }

    fn seen(&self) -> u64 {
        self.inner.seen()
    }
}
