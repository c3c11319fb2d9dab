//! Passes, with which the roles of a session call it.
ghost use Rattle.std.specs.Prelude.{◌≡◌, ◌<◌, ◌≤◌, length, true, false, OnOk, OnErr, IfOk, IfErr, Some, None, get_or};
ghost use Rattle.std.specs.Ordering.{nat_cmp};
ghost use Rattle.mps_cell.specs.Views.{part_of, fresh_part};
ghost use Rattle.mps_cell.specs.Rule.{resting};
ghost use Rattle.mps_cell.specs.Private.Rule.{IsResting};
ghost use Rattle.mps_cell.specs.Calls.{Calls, KeepsSeen, LearnsLength, known, carried};
ghost use Rattle.mps_cell.specs.Meetings.{HasSeen, ReachesBoth};
ghost use Rattle.mps_cell.specs.Cells.{fresh};

use crate::meeting::meet_seats;
use crate::origin::Origin;
use crate::rule::{Journaled, Look};
use crate::turns::{finish, take, try_take};
use crate::view::SeatView;
use atomic_table::{Seat, Shared};
use mps_base::{Role, Roles};
use mps_room::{Answer, Command, Numbers, Room};
use std::cmp::Ordering;
use std::marker::Model;
use std::sync::Wait;
use std::sync::atomic::AtomicU64;
use thiserror::Error;

/// The table of a cell, as its passes share it.
pub type SharedTable = Shared<Room, SeatView, Origin, Journaled>;

/// The one pass of a role, with which it calls its cell. It may go to any thread.
#[derive(Drop)]
pub struct Pass<'a> {
    shared: &'a SharedTable,
    // 1 where a call may sleep until the room is back
    waiting: &'a AtomicU64,
    names: &'a Roles,
    seat: Seat<Room, SeatView>,
    role: Role,
    seen: u64,
    numbers: Numbers,
}

impl<'a> Model for Pass<'a> {
    ghost use Rattle.mps_cell.specs.Calls.{Known, known, carried};
    ghost use Rattle.mps_cell.specs.Private.Rule.{IsSeated};
    ghost use Rattle.std.specs.Coded.{codes};
    ghost use Rattle.mps_local.specs.Private.Codes.{coded_local};

    ghost Value = { Known };

    ghost coded = { Prim.hlevel (codes, coded_local) };

    ghost view = { λ p. carried (known p.seat.table_id p.seat.me.0) p.numbers.newest };

    ghost invariant = { λ p. IsSeated p.seat.table_id p.seat.me p.shared.now.table_id p.role p.seen p.names.now };
}

/// Something that runs while the room is out: tests give one, to hold a call up.
pub trait Pause {
    // What runs between taking the room and answering in it.
    fn pause(&mut self);
}

/// No pause.
#[derive(Drop)]
pub struct Straight;

impl Pause for Straight {
    // Does nothing: the pause of `call`.
    fn pause(&mut self) {}
}

/// The room was out, or another call came between the look and the try. The word showed that the journal has `found`
/// entries.
#[derive(Clone, Copy, Debug, PartialEq, Eq, Error)]
#[error("another call came first; the journal has {found} entries")]
pub struct Busy {
    pub found: u64,
}

/// What a pass knew when it left its cell.
#[derive(Drop)]
pub struct Leave {
    seat: Seat<Room, SeatView>,
}

impl Model for Leave {
    ghost use Rattle.mps_cell.specs.Calls.{Known, known};
    ghost use Rattle.mps_cell.specs.Private.Rule.{IsResting};
    ghost use Rattle.std.specs.Coded.{codes};
    ghost use Rattle.mps_local.specs.Private.Codes.{coded_local};

    ghost Value = { Known };

    ghost coded = { Prim.hlevel (codes, coded_local) };

    ghost view = { λ p. known p.seat.table_id p.seat.me.0 };

    ghost invariant = { λ p. IsResting p.seat.me };
}

impl Leave {
    // Takes the seat out for `close_with`, which joins what it knows.
    pub(crate) fn into_seat(self) -> Seat<Room, SeatView>
        ensures free { IsResting result.me }
        ensures known { self ≡ known result.table_id result.me.0 }
    {
        let Leave { seat } = self;
        seat
    }
}

impl<'a> Pass<'a> {
    // The pass of a role on this seat, as it is dealt: it has seen the entries that the cell began with, and has the
    // numbers that its role had by then.
    pub(crate) fn fresh(
        shared: &'a SharedTable,
        waiting: &'a AtomicU64,
        names: &'a Roles,
        seat: Seat<Room, SeatView>,
        role: Role,
        begun: u64,
        numbers: Numbers,
    ) -> Pass<'a>
        requires cell { seat.table_id ≡ shared.now.table_id }
        requires word { shared.now.table_id.words ≡ 1 }
        requires names { names.now ≡ (part_of seat.me.0.parts).opening.names }
        requires seat { seat.me ≡ resting (fresh_part (part_of seat.me.0.parts).opening role) false }
        requires some { role < length (part_of seat.me.0.parts).opening.types }
        requires begun { begun ≡ length (part_of seat.me.0.parts).opening.begun }
        requires newest { numbers.newest ≡ get_or (part_of seat.me.0.parts).opening.newest role None }
        ensures fresh { result ≡ fresh seat.table_id (part_of seat.me.0.parts).opening role }
    {
        Pass {
            shared,
            waiting,
            names,
            seat,
            role,
            seen: begun,
            numbers,
        }
    }

    /// Calls the room for the role, and returns the answer: `call_with` without a pause. It waits while another pass
    /// has the room: it looks 100 times, then sleeps. No clause says that its turn comes (no fairness).
    pub fn call<R: Wait>(&mut self, rt: &R, command: Command) -> Answer
        ensures call { Calls self.old command result self.new }
        ensures numbers { self.new.newest ≡ self.old.newest }
    {
        self.call_with(rt, command, &mut Straight)
    }

    /// `call` with a pause between taking the room and answering in it: for tests that hold a call up.
    pub fn call_with<R: Wait, P: Pause>(
        &mut self,
        rt: &R,
        command: Command,
        pause: &mut P,
    ) -> Answer
        ensures call { Calls self.old command result self.new }
        ensures numbers { self.new.newest ≡ self.old.newest }
    {
        take(rt, self.shared, self.waiting, &mut self.seat);
        pause.pause();
        finish(
            self.shared,
            self.waiting,
            &mut self.seat,
            &mut self.seen,
            self.role,
            command,
        )
    }

    /// Calls the room if no other pass has it, and never waits. `Busy` where another has it, or another call came
    /// between the look and the try; nothing changes then.
    pub fn try_call(&mut self, command: Command) -> Result<Answer, Busy>
        ensures call { IfOk result (λ answer. Calls self.old command answer self.new) }
        ensures numbers { OnOk result (self.new.newest ≡ self.old.newest) }
        ensures busy { IfErr result (λ busy. LearnsLength self.old busy.found self.new) }
        ensures was_out { OnErr result (self.new.was_out ≡ true) }
    {
        let (found, won) = try_take(self.shared, &mut self.seat);
        if !won {
            return Err(Busy { found });
        }
        Ok(finish(
            self.shared,
            self.waiting,
            &mut self.seat,
            &mut self.seen,
            self.role,
            command,
        ))
    }

    /// How many entries, of all roles, the journal has, by one atomic load: no fewer than this pass was told of before,
    /// and without that of a call that is under way. `seen` stays at the last call's. It never waits, and does not allocate.
    pub fn front(&mut self) -> u64
        ensures told { LearnsLength self.old result self.new }
    {
        let word = self.shared.load::<Look>(&mut self.seat, 0);
        word / 2
    }

    /// How many entries the journal had after this pass's last call; at first those that the cell began with.
    pub fn seen(&self) -> u64
        ensures seen { result ≡ length self.now.seen }
    {
        self.seen
    }

    /// The role for which this pass calls; a cell deals one pass for each.
    pub fn role(&self) -> Role
        ensures role { result ≡ self.now.role }
    {
        self.role
    }

    /// The names of the session's roles, 2 to 8, in order, which the pass borrows from its cell.
    pub fn names(&self) -> &Roles
        ensures names { result.now ≡ self.now.opening.names }
    {
        self.names
    }

    /// The newest of the pass's accepted numbered commands, with its answer, by which a command that is sent again is
    /// answered.
    pub fn numbers(&self) -> &Numbers
        ensures numbers { result.now.newest ≡ self.now.newest }
    {
        &self.numbers
    }

    // Stores the answer to a numbered command under its number, and drops the one before it. For `Held`, whose callers
    // have checked the number, and which doesn't see the field.
    pub(crate) fn keep(&mut self, number: u64, answer: Answer)
        ensures keep { self.new ≡ carried self.old (Some (record { number = number; answer = answer })) }
    {
        self.numbers.keep(number, answer);
    }

    /// Gives up the pass, and returns what it knows without the borrow of its cell, for `close_with`. Its numbered
    /// command is dropped.
    pub fn leave(self) -> Leave
        ensures known { result ≡ carried self.entry None }
    {
        let Pass {
            shared: _,
            waiting: _,
            names: _,
            seat,
            role: _,
            seen: _,
            numbers: _,
        } = self;
        Leave { seat }
    }
}

/// Compares how many entries two passes of one cell have seen. The journal that the one saw is a prefix of what the
/// other saw. It never waits, and does not allocate.
pub fn meet(first: &mut Pass<'_>, second: &mut Pass<'_>) -> Ordering
    requires cell { second.old.cell ≡ first.old.cell }
    ensures first { KeepsSeen first.old first.new }
    ensures second { KeepsSeen second.old second.new }
    ensures order { result ≡ nat_cmp (length first.old.seen) (length second.old.seen) }
    ensures shorter { length first.old.seen ≤ length second.old.seen
        → HasSeen first.old second.old }
    ensures longer { length second.old.seen ≤ length first.old.seen
        → HasSeen second.old first.old }
    ensures reported { ReachesBoth first.old second.old first.new.reported }
    ensures same_reported { second.new.reported ≡ first.new.reported }
{
    meet_seats(first.shared, &mut first.seat, &mut second.seat);
    first.seen.cmp(&second.seen)
}
