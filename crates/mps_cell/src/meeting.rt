//! Two seats meet.
ghost use Rattle.std.specs.Prelude.{◌≡◌};
ghost use Rattle.mps_cell.specs.Private.Rule.{IsResting, Met};

use crate::pass::SharedTable;
use crate::rule::{Divide, Gather, Look, SplitFirst};
use crate::view::SeatView;
use atomic_table::Seat;
use mps_room::Room;

// Lets two seats learn from each other: the second's knowledge is joined to the first's, one atomic load relates both
// to the room's journal, and then it is split again. Both go on as before. It never waits.
pub(crate) fn meet_seats(
    shared: &SharedTable,
    first: &mut Seat<Room, SeatView>,
    second: &mut Seat<Room, SeatView>,
)
    requires first { first.old.table_id ≡ shared.now.table_id }
    requires second { second.old.table_id ≡ shared.now.table_id }
    requires word { shared.now.table_id.words ≡ 1 }
    requires first_free { IsResting first.old.me }
    requires second_free { IsResting second.old.me }
    ensures first { first.new.table_id ≡ first.old.table_id }
    ensures second { second.new.table_id ≡ second.old.table_id }
    ensures met { Met first.old.me second.old.me first.new.me second.new.me }
{
    let other = shared.split_seat::<SplitFirst>(second);
    shared.join_seat::<Gather>(first, other);
    shared.load::<Look>(first, 0);
    *second = shared.split_seat::<Divide>(first);
}
