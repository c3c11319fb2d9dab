//! A value that one thread at a time has. Whoever has it sees it as it was at first, and gives it back so. Rule, table,
//! key, seat and slot are words of atomic_table here.
ghost use Rattle.std.specs.Prelude.{◌≡◌};
ghost use Rattle.mps_hub.specs.Private.Lock.{HasOut};

use atomic_table::{Play, Seat, Shared, TableRule};
use std::snapshot::Snapshot;
use std::sync::Wait;

/// The rule: where the word is 0 the value is at home, and clauses see it as it was at first.
pub(crate) struct Steady;

impl<T> TableRule<T, T, Snapshot<T>> for Steady {
    ghost use Rattle.mps_hub.specs.Private.Lock.{IsSteady};

    ghost holds = { λ about. IsSteady about.value };

    ghost first = { λ about. about.value };
}

// The value is taken, where it is at home.
struct TakeOut;

impl<T> Play<T, T> for TakeOut {
    ghost use Rattle.mps_hub.specs.Private.Lock.{TakesOut};

    ghost then = { TakesOut };
}

// The value is put back.
struct PutBack;

impl<T> Play<T, T> for PutBack {
    ghost use Rattle.mps_hub.specs.Private.Lock.{PutsBack};

    ghost then = { PutsBack };
}

// Takes the value out. It waits until it is at home. No contract asks the caller to put it back: tests/wakeups reads
// what the desk does.
pub(crate) fn take_out<T, R: Wait>(rt: &R, shared: &Shared<T, T, Snapshot<T>, Steady>) -> Seat<T, T>
    requires word { shared.now.table_id.words ≡ 1 }
    ensures cell { result.table_id ≡ shared.now.table_id }
    ensures out { HasOut shared.now.key.value result.me }
{
    for _ in rt.forever() {
        let (found, seat) = shared.swap_new_seat::<TakeOut>(0, 1);
        if found == 0 {
            return seat;
        }
        // only while the value is out: it may have been put back since
        shared.park(rt, 0, 1);
    }
    unreachable!()
}

// Puts the value back, and wakes a thread that may wait for it.
pub(crate) fn put_back<T>(shared: &Shared<T, T, Snapshot<T>, Steady>, mut seat: Seat<T, T>)
    requires word { shared.now.table_id.words ≡ 1 }
    requires cell { seat.table_id ≡ shared.now.table_id }
    requires out { HasOut shared.now.key.value seat.me }
{
    // before the wake-up: a thread that is woken before it finds the value out, and sleeps again (tests/wakeups)
    shared.store::<PutBack>(&mut seat, 0, 0);
    // else a thread that found the value out may sleep for ever (tests/wakeups)
    shared.wake_one(0);
}
