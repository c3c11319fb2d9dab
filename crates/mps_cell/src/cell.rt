//! Cells: one room, which its passes call.
ghost use Rattle.std.specs.Prelude.{◌≡◌, ◌≤◌, length, [], vec_capacity};
ghost use Rattle.mps_cell.specs.Private.Origins.{opening_in};
ghost use Rattle.mps_room.specs.Numbers.{newest_of};
ghost use Rattle.mps_cell.specs.Views.{first_view};
ghost use Rattle.mps_cell.specs.Cells.{fresh_below};

use crate::origin::Origin;
use crate::pass::{Leave, Pass, SharedTable};
use crate::rule::{Journaled, SplitFirst};
use crate::view::SeatView;
use atomic_table::{Refused as NotMade, Seat, Table};
use mps_base::{Role, Roles};
use mps_room::{Numbers, Room};
use mps_session::Session;
use std::alloc::{AllocError, Global};
use std::marker::Model;
use std::snapshot::Snapshot;
use std::sync::atomic::AtomicU64;
use thiserror::Error;

/// Why no passes are handed out.
#[derive(Clone, Copy, Debug, PartialEq, Eq, Error)]
pub enum PassFault {
    #[error("the passes were handed out before")]
    Given,
    #[error("out of memory")]
    Memory,
}

/// The right to the passes of one cell.
#[derive(Drop)]
pub struct Deal {
    // the seat of all roles
    first: Seat<Room, SeatView>,
    // of each role
    numbers: Vec<Numbers>,
}

impl Model for Deal {
    ghost use Rattle.std.specs.Prelude.{◌≡◌, []};
    ghost use Rattle.std.specs.Coded.{codes};
    ghost use Rattle.mps_local.specs.Private.Codes.{coded_local};
    ghost use Rattle.mps_cell.specs.Cells.{Dealt};
    ghost use Rattle.mps_room.specs.Numbers.{newest_of};

    ghost Value = { Dealt };

    ghost coded = { Prim.hlevel (codes, coded_local) };

    ghost view = { λ d. record {
      cell = d.first.table_id;
      view = d.first.me.0;
      newest = newest_of d.numbers.items;
    } };

    ghost invariant = { λ d. d.first.me.1 ≡ [] };
}

impl Deal {
    // Takes the deal apart for `passes_of`: the seat that all passes are split from, and each role's numbers. The
    // fields are private to the module, so the deal can't be made anew.
    fn into_parts(self) -> (Seat<Room, SeatView>, Vec<Numbers>)
        ensures cell { result.0.table_id ≡ self.cell }
        ensures seat { result.0.me ≡ (self.view, []) }
        ensures newest { newest_of result.1.items ≡ self.newest }
    {
        let Deal { first, numbers } = self;
        (first, numbers)
    }
}

/// One room, which a pass for each role calls.
#[derive(Drop)]
pub struct Cell {
    // until the passes are asked for
    deal: Option<Deal>,
    names: Roles,
    // how many entries the journal had as it was opened
    begun: u64,
    table: Table<Room, SeatView, Origin, Journaled, Global>,
    // 1 where a call may sleep until the room is back
    waiting: AtomicU64,
    alloc: Global,
}

impl Model for Cell {
    ghost use Rattle.std.specs.Option.{is_none};
    ghost use Rattle.std.specs.Coded.{codes};
    ghost use Rattle.mps_local.specs.Private.Codes.{coded_local};
    ghost use Rattle.mps_cell.specs.Private.Origins.{opening_in};
    ghost use Rattle.mps_cell.specs.Cells.{Opened, IsOpened};

    ghost Value = { Opened };

    ghost coded = { Prim.hlevel (codes, coded_local) };

    ghost view = { λ c. record {
      cell = c.table.shared.table_id;
      opening = opening_in c.table.shared.key;
      given = is_none c.deal;
    } };

    ghost invariant = { λ c. IsOpened c.table.shared.table_id (opening_in c.table.shared.key) c.names c.begun c.deal };
}

impl Cell {
    ghost use Rattle.std.specs.Prelude.{◌≡◌, true, false, IfOk, IfSome, IsSome, IsErrOf, ◌↔◌, length, All};
    ghost use Rattle.mps_machine.specs.Machine.{initial};
    ghost use Rattle.mps_cell.specs.Meetings.{HasAllOf};
    ghost use Rattle.mps_cell.specs.Cells.{fresh_below, Closes, IsDealOf, opened_with};
    ghost use Rattle.mps_cell.specs.Openings.{opening_of};
    ghost use Rattle.mps_cell.specs.declared.cell.PassFault.TheVariants.{Given};

    /// A cell with a room of this session, before its first step. The session's number, for those that have several, is
    /// 0. It fails only when out of memory.
    pub fn open(alloc: Global, names: Roles, session: Session) -> Result<Cell, AllocError>
        requires count { length names ≡ length session.types }
        requires fresh { session.state ≡ initial }
        ensures opening { IfOk result (λ c. c.opening ≡ opened_with names session.types 0) }
        ensures given { IfOk result (λ c. c.given ≡ false) }
    {
        Cell::open_numbered(alloc, names, session, 0)
    }

    /// `open` for a server of several sessions: the number tells the passes of this session from those of others. It
    /// fails only when out of memory.
    pub fn open_numbered(
        alloc: Global,
        names: Roles,
        session: Session,
        number: u64,
    ) -> Result<Cell, AllocError>
        requires count { length names ≡ length session.types }
        requires fresh { session.state ≡ initial }
        ensures opening { IfOk result (λ c. c.opening ≡ opened_with names session.types number) }
        ensures given { IfOk result (λ c. c.given ≡ false) }
    {
        let numbers = Numbers::of_each(alloc, names.count())?;
        let room = Room::open(alloc, names, session);
        Cell::open_with(alloc, room, numbers, number)
    }

    /// A cell around a room that may have a journal already, as a restored one; `numbers` are the newest accepted
    /// numbered commands of its roles, in order. It fails only when out of memory, and drops the room.
    pub fn open_with(
        alloc: Global,
        room: Room,
        numbers: Vec<Numbers>,
        number: u64,
    ) -> Result<Cell, AllocError>
        requires count { length numbers.items ≡ length room.types }
        ensures opening { IfOk result (λ c. c.opening ≡ opening_of room numbers.items number) }
        ensures given { IfOk result (λ c. c.given ≡ false) }
    {
        let names = room.names().copy(alloc)?;
        let begun = room.entries();
        let origin = Origin {
            room: Snapshot::of(&room),
            numbers: Snapshot::of(&numbers),
            session: number,
        };
        let mut slots = Vec::with_capacity(alloc, 1)?;
        slots.push_reserved(room);
        match Table::new(alloc, &[2 * begun], slots, &origin) {
            Ok((table, first)) => Ok(Cell {
                deal: Some(Deal { first, numbers }),
                names,
                begun,
                table,
                waiting: AtomicU64::new(0),
                alloc,
            }),
            Err(NotMade { slots: _ }) => Err(AllocError),
        }
    }

    /// Takes the right to make the passes, once in the cell's life; later calls get `None`. Apart from `passes_of`,
    /// which borrows the cell for as long as the passes live.
    pub fn deal(&mut self) -> Option<Deal>
        ensures cell { self.new.cell ≡ self.old.cell }
        ensures opening { self.new.opening ≡ self.old.opening }
        ensures given { self.new.given ≡ true }
        ensures once { IsSome result ↔ (self.old.given ≡ false) }
        ensures deal { IfSome result (IsDealOf self.old.cell self.old.opening) }
    {
        self.deal.take()
    }

    /// One pass for each role, in order; they borrow the cell. It fails only when out of memory, and then the deal is
    /// used up.
    #[tactic(auto, using(crate::proofs::Dealing::all_fresh))]
    pub fn passes_of(&self, deal: Deal) -> Result<Vec<Pass<'_>>, AllocError>
        requires deal { IsDealOf self.now.cell self.now.opening deal }
        ensures passes { IfOk result (λ v. v.items
            ≡ fresh_below self.now.cell self.now.opening (length self.now.opening.types)) }
        ensures of_cell { IfOk result (λ v. All (λ p. p.cell ≡ self.now.cell) v.items) }
    {
        let all = Vec::with_capacity(self.alloc, self.names.count())?;
        let (first, numbers) = deal.into_parts();
        Ok(hand_out(
            &self.table.shared,
            &self.waiting,
            &self.names,
            self.begun,
            first,
            numbers,
            all,
        ))
    }

    /// `deal` and `passes_of` in one: one pass for each role, in order, once in the cell's life. `Given` where the deal
    /// was taken before, by this or by `deal`; `Memory` uses it up too. The passes borrow the cell mutably, and nothing is
    /// known of it afterwards: who wants `close_with` calls `deal` and `passes_of`.
    pub fn passes(&mut self) -> Result<Vec<Pass<'_>>, PassFault>
        ensures given { IsErrOf result Given ↔ (self.old.given ≡ true) }
        ensures passes { IfOk result (λ v. v.items
            ≡ fresh_below self.old.cell self.old.opening (length self.old.opening.types)) }
    {
        let Some(deal) = self.deal() else {
            return Err(PassFault::Given);
        };
        let Ok(all) = self.passes_of(deal) else {
            return Err(PassFault::Memory);
        };
        Ok(all)
    }

    /// Ends the cell, and returns its room, or `None` where a call never gave it back. No pass is left then, as each
    /// borrows the cell.
    pub fn close(self) -> Option<Room>
        ensures room { IfSome result (Closes self.opening) }
    {
        let Cell {
            deal: _,
            names: _,
            begun: _,
            table,
            waiting: _,
            alloc: _,
        } = self;
        let mut closed = table.close();
        let word = closed.word(0);
        let room = closed.take(0);
        closed.free();
        if word % 2 == 0 { Some(room) } else { None }
    }

    /// `close` with what one pass left with: then the contract tells that the room has all that this pass saw and made.
    pub fn close_with(self, leave: Leave) -> Option<Room>
        requires cell { leave.cell ≡ self.cell }
        ensures room { IfSome result (Closes self.opening) }
        ensures holds { IfSome result (λ room. HasAllOf leave room.journal) }
    {
        let Cell {
            deal: _,
            names: _,
            begun: _,
            table,
            waiting: _,
            alloc: _,
        } = self;
        let mut closed = table.close_with(leave.into_seat());
        let word = closed.word(0);
        let room = closed.take(0);
        closed.free();
        if word % 2 == 0 { Some(room) } else { None }
    }
}

// The loop of `passes_of`, over the parts of the cell and its deal: makes a pass for each role, in order, of its part of
// the first seat and its newest numbered command, if any. `begun` is how many entries the journal had as the cell was
// opened. `all` comes empty with space for them, so it can't fail.
fn hand_out<'a>(
    shared: &'a SharedTable,
    waiting: &'a AtomicU64,
    names: &'a Roles,
    begun: u64,
    mut first: Seat<Room, SeatView>,
    numbers: Vec<Numbers>,
    mut all: Vec<Pass<'a>>,
) -> Vec<Pass<'a>>
    requires cell { first.table_id ≡ shared.now.table_id }
    requires word { shared.now.table_id.words ≡ 1 }
    requires first { first.me ≡ (first_view (opening_in shared.now.key), []) }
    requires count { length numbers.items ≡ length (opening_in shared.now.key).types }
    requires newest { newest_of numbers.items ≡ (opening_in shared.now.key).newest }
    requires begun { begun ≡ length (opening_in shared.now.key).begun }
    requires names { names.now ≡ (opening_in shared.now.key).names }
    requires few { length numbers.items ≤ 8 }
    requires none { all.items ≡ [] }
    requires space { length numbers.items ≤ vec_capacity all }
    ensures passes { result.items ≡ fresh_below shared.now.table_id (opening_in shared.now.key)
        (length (opening_in shared.now.key).types) }
{
    for own in numbers {
        let seat = shared.split_seat::<SplitFirst>(&mut first);
        let role = Role::new(all.len() as u8);
        all.push_reserved(Pass::fresh(shared, waiting, names, seat, role, begun, own));
    }
    all
}
