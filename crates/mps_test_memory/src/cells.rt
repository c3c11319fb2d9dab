//! mps_cell: cells and their passes answer as with ample memory, or report that memory ran out and change nothing.
ghost use Rattle.std.specs.Prelude.{◌≡◌, false, IfSome, All};

use crate::outcomes::{Came, Outcome, Until, answered, came_to, refused};
use crate::parties::{Passes, compared, opened};
use crate::rows::Row;
use mps_cell::{Cell, Pass, PassFault, meet};
use std::alloc::Global;
use std::cmp::Ordering;
use std::sync::Wait;

// A new cell of the protocol.
fn cell(alloc: Global) -> Option<Cell>
    ensures given { IfSome result (λ c. c.given ≡ false) }
{
    let (names, session) = opened(alloc)?;
    Cell::open(alloc, names, session).ok()
}

// All passes of the cell.
fn all_passes<'r, 'c, R: Wait>(
    rt: &'r R,
    alloc: Global,
    cell: &'c mut Cell,
) -> Option<Passes<'r, 'c, R>> {
    match cell.passes() {
        Ok(all) => Some(Passes { rt, alloc, all }),
        Err(_) => None,
    }
}

// Asks passes of the cells for the command of the row.
fn passes_asked<R: Wait>(
    rt: &R,
    alloc: Global,
    row: &Row<'_>,
    until: Until,
    first: &mut Cell,
    second: &mut Cell,
) -> Option<Outcome> {
    let mut first = all_passes(rt, alloc, first)?;
    let mut second = all_passes(rt, alloc, second)?;
    compared(alloc, row, until, &mut first, &mut second)
}

/// Asks a pass for the command of the row.
pub fn pass_asked<R: Wait>(rt: &R, alloc: Global, row: &Row<'_>, until: Until) -> Option<Outcome> {
    let mut first = cell(alloc)?;
    let mut second = cell(alloc)?;
    passes_asked(rt, alloc, row, until, &mut first, &mut second)
}

/// Opens a cell.
pub fn opens_a_cell(alloc: Global, until: Until) -> Option<Outcome> {
    let (names, session) = opened(alloc)?;
    if until == Until::Before {
        return Some(Outcome::Reached);
    }
    let made = Cell::open(alloc, names, session).is_ok();
    if until == Until::After {
        return Some(Outcome::Reached);
    }
    if made { answered(true) } else { refused(true) }
}

fn handed_out(cell: &mut Cell) -> Came {
    match cell.passes() {
        Ok(all) => came_to(all.len() == 3),
        Err(PassFault::Memory) => Came::Memory,
        Err(_) => Came::Other,
    }
}

// Whether its passes count as given.
fn are_given(cell: &mut Cell) -> bool {
    matches!(cell.passes(), Err(PassFault::Given))
}

// Hands out the passes of the cell.
fn hands_out(cell: &mut Cell, until: Until) -> Option<Outcome> {
    if until == Until::Before {
        return Some(Outcome::Reached);
    }
    let handed = handed_out(cell);
    if until == Until::After {
        return Some(Outcome::Reached);
    }
    match handed {
        Came::Memory => refused(are_given(cell)),
        handed => answered(handed == Came::Wanted),
    }
}

/// Hands out the passes of a cell. Where memory ran out, they count as given.
pub fn hands_out_passes(alloc: Global, until: Until) -> Option<Outcome> {
    let mut cell = cell(alloc)?;
    hands_out(&mut cell, until)
}

// Has the pass ask for the length of the journal.
fn length_asked(pass: &mut Pass<'_>, until: Until) -> Option<Outcome> {
    if until == Until::Before {
        return Some(Outcome::Reached);
    }
    let length = pass.front();
    if until == Until::After {
        return Some(Outcome::Reached);
    }
    answered(length == 0)
}

/// Has a pass ask for the length of the journal.
pub fn asks_for_the_length(alloc: Global, until: Until) -> Option<Outcome> {
    let mut cell = cell(alloc)?;
    let mut all = cell.passes().ok()?;
    length_asked(all.get_mut(0)?, until)
}

// The last of these passes of the cell.
#[tactic(auto, using(crate::proofs::Popping::popped_rest, crate::proofs::Popping::popped_last))]
fn last<'a>(cell: &'a Cell, all: &mut Vec<Pass<'a>>) -> Option<Pass<'a>>
    requires all { All (λ p. p.cell ≡ cell.now.cell) all.old.items }
    ensures rest { All (λ p. p.cell ≡ cell.now.cell) all.new.items }
    ensures last { IfSome result (λ p. p.cell ≡ cell.now.cell) }
{
    let _ = cell;
    all.pop()
}

/// Has two passes of a cell meet.
pub fn has_two_meet(alloc: Global, until: Until) -> Option<Outcome> {
    let mut cell = cell(alloc)?;
    let deal = cell.deal()?;
    let mut all = cell.passes_of(deal).ok()?;
    two_meet(&cell, &mut all, until)
}

// Has the two passes meet.
fn passes_meet(first: &mut Pass<'_>, second: &mut Pass<'_>, until: Until) -> Option<Outcome>
    requires { second.old.cell ≡ first.old.cell }
{
    if until == Until::Before {
        return Some(Outcome::Reached);
    }
    let order = meet(first, second);
    if until == Until::After {
        return Some(Outcome::Reached);
    }
    answered(order == Ordering::Equal)
}

// Has the last two of these passes of the cell meet.
fn two_meet<'a>(cell: &'a Cell, all: &mut Vec<Pass<'a>>, until: Until) -> Option<Outcome>
    requires { All (λ p. p.cell ≡ cell.now.cell) all.old.items }
{
    let mut second = last(cell, all)?;
    let mut first = last(cell, all)?;
    passes_meet(&mut first, &mut second, until)
}
