//! A seat takes the room, answers a command in it, and gives it back.
ghost use Rattle.std.specs.Prelude.{◌≡◌, ◌<◌, ◌∷◌, [], length, MatchBool};
ghost use Rattle.mps_room.specs.Journal.{grown};
ghost use Rattle.mps_cell.specs.Openings.{IsLegalIn, MayAnswerIn, room_of};
ghost use Rattle.mps_cell.specs.Views.{part_of};
ghost use Rattle.mps_cell.specs.Rule.{journal_in};
ghost use Rattle.mps_cell.specs.Private.Rule.{IsResting, Took, Missed, HasRoom, HasAnswered, Gave};

use crate::pass::SharedTable;
use crate::rule::{Give, Look, Take};
use crate::view::SeatView;
use atomic_table::Seat;
use mps_base::Role;
use mps_room::{Answer, Command, Room};
use std::sync::Wait;
use std::sync::atomic::AtomicU64;
use std::sync::atomic::Ordering::SeqCst;
use std::thread::yield_now;

// How often a pass looks whether the room is back, and yields to other threads, before it sleeps.
const LOOKS: u32 = 100;

// One atomic load and, where the room is there, one compare-and-exchange, which takes it. Returned are the journal's
// length that the word showed, and whether the room was taken. It never waits.
pub(crate) fn try_take(shared: &SharedTable, seat: &mut Seat<Room, SeatView>) -> (u64, bool)
    requires cell { seat.old.table_id ≡ shared.now.table_id }
    requires word { shared.now.table_id.words ≡ 1 }
    requires free { IsResting seat.old.me }
    ensures cell { seat.new.table_id ≡ seat.old.table_id }
    ensures tried { MatchBool result.1
        (Took seat.old.me seat.new.me) (Missed seat.old.me result.0 seat.new.me) }
{
    let found = shared.load::<Look>(seat, 0);
    if found % 2 == 1 {
        return (found / 2, false);
    }
    let again = shared.compare_exchange::<Take>(seat, 0, found, found + 1);
    (again / 2, again == found)
}

// Takes the room, and waits while another pass has it. The first try stands here, the waiting apart, so that the usual
// call is short.
#[inline(never)]
pub(crate) fn take<R: Wait>(
    rt: &R,
    shared: &SharedTable,
    waiting: &AtomicU64,
    seat: &mut Seat<Room, SeatView>,
)
    requires cell { seat.old.table_id ≡ shared.now.table_id }
    requires word { shared.now.table_id.words ≡ 1 }
    requires free { IsResting seat.old.me }
    ensures cell { seat.new.table_id ≡ seat.old.table_id }
    ensures took { Took seat.old.me seat.new.me }
{
    if !try_take(shared, seat).1 {
        take_later(rt, shared, waiting, seat);
    }
}

// The waiting of `take`: it looks again for a while, and then sleeps until a pass gives the room back. No clause says
// that its turn comes.
#[inline(never)]
fn take_later<R: Wait>(
    rt: &R,
    shared: &SharedTable,
    waiting: &AtomicU64,
    seat: &mut Seat<Room, SeatView>,
)
    requires cell { seat.old.table_id ≡ shared.now.table_id }
    requires word { shared.now.table_id.words ≡ 1 }
    requires free { IsResting seat.old.me }
    ensures cell { seat.new.table_id ≡ seat.old.table_id }
    ensures took { Took seat.old.me seat.new.me }
{
    if try_take_soon(shared, seat).1 {
        return;
    }
    for _ in rt.forever() {
        // before the try: where that fails, whoever has the room finds the flag raised (tests/wakeups)
        waiting.store(1, SeqCst);
        if try_take(shared, seat).1 {
            return;
        }
        // only while the flag is raised: once it is lowered the room may be back
        waiting.park(rt, 1);
        if try_take_soon(shared, seat).1 {
            // others may sleep on, and the flag was lowered to wake this call (tests/wakeups)
            waiting.store(1, SeqCst);
            return;
        }
    }
    unreachable!()
}

// `try_take` once the room is back, or after 100 looks with a yield after each: most calls are shorter than going to
// sleep.
fn try_take_soon(shared: &SharedTable, seat: &mut Seat<Room, SeatView>) -> (u64, bool)
    requires cell { seat.old.table_id ≡ shared.now.table_id }
    requires word { shared.now.table_id.words ≡ 1 }
    requires free { IsResting seat.old.me }
    ensures cell { seat.new.table_id ≡ seat.old.table_id }
    ensures tried { MatchBool result.1
        (Took seat.old.me seat.new.me) (Missed seat.old.me result.0 seat.new.me) }
{
    for _ in 0..LOOKS {
        if shared.peek(0) % 2 == 0 {
            break;
        }
        yield_now();
    }
    try_take(shared, seat)
}

// Answers the role's command in the room that was taken, and gives the room back. `seen` becomes the journal's length.
// For `call` and `try_call` alike.
pub(crate) fn finish(
    shared: &SharedTable,
    waiting: &AtomicU64,
    seat: &mut Seat<Room, SeatView>,
    seen: &mut u64,
    role: Role,
    command: Command,
) -> Answer
    requires cell { seat.old.table_id ≡ shared.now.table_id }
    requires word { shared.now.table_id.words ≡ 1 }
    requires room { HasRoom seat.old.me }
    requires role { role ≡ (part_of seat.old.me.0.parts).role }
    requires some { role < length (part_of seat.old.me.0.parts).opening.types }
    ensures cell { seat.new.table_id ≡ seat.old.table_id }
    ensures answer { MayAnswerIn (part_of seat.old.me.0.parts).opening
        (journal_in seat.old.me.1) role command result }
    ensures gave { Gave seat.old.me
        (grown (journal_in seat.old.me.1) role command result) seat.new.me }
    ensures count { seen.new ≡ length (grown (journal_in seat.old.me.1) role command result) }
    ensures legal { IsLegalIn (part_of seat.old.me.0.parts).opening
        (grown (journal_in seat.old.me.1) role command result) }
{
    let answer = answer_in(shared, seat, seen, role, command);
    give_back(shared, waiting, seat, *seen);
    answer
}

// Gives the room back: stores the journal's length in the word, and wakes one pass where the flag says that some may
// sleep. The order of the three is what keeps a sleeper from being missed.
#[inline(never)]
fn give_back(
    shared: &SharedTable,
    waiting: &AtomicU64,
    seat: &mut Seat<Room, SeatView>,
    entries: u64,
)
    requires cell { seat.old.table_id ≡ shared.now.table_id }
    requires word { shared.now.table_id.words ≡ 1 }
    requires room { HasAnswered seat.old.me }
    requires count { entries ≡ length (journal_in seat.old.me.1) }
    ensures cell { seat.new.table_id ≡ seat.old.table_id }
    ensures gave { Gave seat.old.me (journal_in seat.old.me.1) seat.new.me }
{
    // before the look at the flag: a call that raises it after that look finds the room back (tests/wakeups)
    shared.store::<Give>(seat, 0, 2 * entries);
    if waiting.load(SeqCst) == 1 {
        // before the wake-up: the call that is woken raises it again for those that sleep on (tests/wakeups)
        waiting.store(0, SeqCst);
        // else the calls that sleep are never woken (tests/wakeups)
        waiting.wake_one();
    }
}

// Answers the command in the room, which stays the seat's. `seen` becomes the journal's length. Apart from `finish`, so
// that the seat lends the room no more at its end: by the clause `room` `give_back` may be called then.
fn answer_in(
    shared: &SharedTable,
    seat: &mut Seat<Room, SeatView>,
    seen: &mut u64,
    role: Role,
    command: Command,
) -> Answer
    requires cell { seat.old.table_id ≡ shared.now.table_id }
    requires word { shared.now.table_id.words ≡ 1 }
    requires room { HasRoom seat.old.me }
    requires some { role < length (part_of seat.old.me.0.parts).opening.types }
    ensures cell { seat.new.table_id ≡ seat.old.table_id }
    ensures answer { MayAnswerIn (part_of seat.old.me.0.parts).opening
        (journal_in seat.old.me.1) role command result }
    ensures room { seat.new.me ≡ (
      seat.old.me.0,
      (
        0,
        room_of (part_of seat.old.me.0.parts).opening
            (grown (journal_in seat.old.me.1) role command result),
      ) ∷ [],
    ) }
    ensures count { seen.new ≡ length (grown (journal_in seat.old.me.1) role command result) }
    ensures legal { IsLegalIn (part_of seat.old.me.0.parts).opening
        (grown (journal_in seat.old.me.1) role command result) }
{
    let room = seat.slot_mut(shared, 0);
    let answer = room.apply(role, command);
    *seen = room.entries();
    answer
}
