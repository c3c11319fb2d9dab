//! The rule of a cell's table, and what each step tells the seat that takes it. Rule, table, key, step, seat and slot
//! are words of atomic_table here: a step is an operation on the table, and the slot holds the room.

use crate::origin::Origin;
use crate::view::SeatView;
use atomic_table::{Join, Play, Split, TableRule};
use mps_room::Room;

/// The rule: there is one legal journal, whose length the word shows, and what each seat knows of it is true.
pub struct Journaled;

impl TableRule<Room, SeatView, Origin> for Journaled {
    ghost use Rattle.mps_cell.specs.Private.Origins.{opening_in};
    ghost use Rattle.mps_cell.specs.Rule.{IsJournaled};
    ghost use Rattle.mps_cell.specs.Views.{first_view};

    ghost holds = { λ k. IsJournaled (opening_in k) };

    ghost first = { λ k. first_view (opening_in k) };
}

/// A look at the word.
pub(crate) struct Look;

impl Play<Room, SeatView> for Look {
    ghost use Rattle.mps_cell.specs.Rule.{Looks};

    ghost then = { Looks };
}

/// A try to take the room.
pub(crate) struct Take;

impl Play<Room, SeatView> for Take {
    ghost use Rattle.mps_cell.specs.Rule.{Tries};

    ghost then = { Tries };
}

/// The room is given back, with one entry more or as it was.
pub(crate) struct Give;

impl Play<Room, SeatView> for Give {
    ghost use Rattle.mps_cell.specs.Rule.{Gives};

    ghost then = { Gives };
}

/// The first part of a seat goes to a new seat.
pub(crate) struct SplitFirst;

impl Split<SeatView> for SplitFirst {
    ghost use Rattle.mps_cell.specs.Views.{without_first, first_alone};

    ghost left = { without_first };

    ghost right = { first_alone };
}

/// The parts of the second seat go to the first.
pub(crate) struct Gather;

impl Join<SeatView> for Gather {
    ghost use Rattle.mps_cell.specs.Views.{both_parts, spent};

    ghost both = { both_parts };

    ghost spent = { spent };
}

/// The first part of a seat stays, and the others go to a new seat.
pub(crate) struct Divide;

impl Split<SeatView> for Divide {
    ghost use Rattle.mps_cell.specs.Views.{first_stays, others_go};

    ghost left = { first_stays };

    ghost right = { others_go };
}
