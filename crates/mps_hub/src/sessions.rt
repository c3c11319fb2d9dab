//! The sessions of a server.
ghost use Rattle.std.specs.Prelude.{◌≡◌, ◌≢◌, ◌+◌, ◌≤◌, ◌^◌, ◌↔◌, [], true, false, map, length, vec_capacity, IfOk};
ghost use Rattle.std.specs.Prelude.{IfErr, IfSome, IsSome, IsErrOf, All, None};
ghost use Rattle.std.specs.Option.{is_some, option_map};
ghost use Rattle.mps_local.specs.Local.{plain};
ghost use Rattle.mps_machine.specs.Machine.{initial};
ghost use Rattle.mps_cell.specs.Cells.{IsDealOf};
ghost use Rattle.mps_cell.specs.Openings.{opening_of};
ghost use Rattle.mps_cell.specs.declared.cell.PassFault.TheVariants.{Given};
ghost use Rattle.mps_session.specs.Peers.{KeepsShut};
ghost use Rattle.mps_hub.specs.Halls.{AreCellsAround, AreCellsOf, AreCellsWith, AreClosed, AreDeals, AreRoomsOf, IsNew};
ghost use Rattle.mps_hub.specs.Places.{IsOfCell};

use crate::desk::{Desk, Row};
use crate::shares::Shares;
use crate::waiting::Waits;
use mps_base::Roles;
use mps_cell::{Cell, Deal, Pass, PassFault};
use mps_keeper::RestoredRoom;
use mps_local::{Local, copy_all};
use mps_room::Room;
use mps_session::{OpenFault, Session};
use std::alloc::{AllocError, Global};
use std::marker::Model;

/// The right to the passes of a hub.
#[derive(Drop)]
pub struct HubDeal {
    deals: Vec<Deal>,
}

impl Model for HubDeal {
    ghost use Rattle.std.specs.Prelude.{List};
    ghost use Rattle.std.specs.Coded.{codes};
    ghost use Rattle.mps_local.specs.Private.Codes.{coded_local};
    ghost use Rattle.mps_cell.specs.Cells.{Dealt};

    ghost Value = { List Dealt };

    ghost coded = { Prim.hlevel (codes, coded_local) };

    ghost view = { λ d. d.deals.items };
}

/// The sessions of a server, a cell for each, numbered from the first on.
#[derive(Drop)]
pub struct Hub {
    names: Roles,
    first: u64,
    cells: Vec<Cell>,
    // until the passes are asked for
    deals: Option<Vec<Deal>>,
    // what each role may make, if that is limited
    shares: Option<Shares>,
    // by what answers wait, if they may
    waits: Option<Waits>,
}

impl Model for Hub {
    ghost use Rattle.std.specs.Prelude.{◌<◌, ◌+◌, ◌^◌, IfSome, length};
    ghost use Rattle.std.specs.Option.{is_none, is_some, option_map};
    ghost use Rattle.std.specs.Coded.{codes};
    ghost use Rattle.mps_local.specs.Private.Codes.{coded_local};
    ghost use Rattle.mps_hub.specs.Halls.{Hall, AreDeals};
    ghost use Rattle.mps_hub.specs.Private.Places.{AreNumbered};

    ghost Value = { Hall };

    ghost coded = { Prim.hlevel (codes, coded_local) };

    ghost view = { λ h. record {
      names = h.names;
      first = h.first;
      cells = h.cells.items;
      given = is_none h.deals;
      share = option_map (λ s. s.most) h.shares;
      waits = is_some h.waits;
    } };

    ghost invariant = { λ h. AreNumbered h.names h.first h.cells.items × (h.first + length h.cells.items < 2 ^ 64)
        × IfSome h.deals (λ v. AreDeals h.cells.items v.items) };
}

// A cell around the room, of the session with this number, and the right to its passes.
fn cell_of(alloc: Global, room: RestoredRoom, number: u64) -> Result<(Cell, Deal), AllocError>
    ensures opening { IfOk result (λ r. r.0.opening ≡ opening_of room.room room.numbers.items number) }
    ensures deal { IfOk result (λ r. IsDealOf r.0.cell r.0.opening r.1) }
{
    let RestoredRoom { room, numbers } = room;
    let mut cell = Cell::open_with(alloc, room, numbers, number)?;
    match cell.deal() {
        Some(deal) => Ok((cell, deal)),
        None => unreachable!(),
    }
}

// A session with these types, in which nothing was done yet.
fn session_of(alloc: Global, types: &[Local]) -> Result<Session, OpenFault>
    ensures new { IfOk result (λ s. s ≡ record { types = map plain types.now; state = initial }) }
    ensures fault { IfErr result (λ fault. fault ≢ OpenFault.Memory → KeepsShut (map plain types.now) fault) }
{
    Session::open(alloc, copy_all(alloc, types)?)
}

// A room of these names for each session, in order.
fn rooms_of(
    alloc: Global,
    names: &Roles,
    sessions: Vec<Session>,
) -> Result<Vec<RestoredRoom>, AllocError>
    requires { All (IsNew names.now) sessions.items }
    ensures { IfOk result (λ rooms. AreRoomsOf names.now sessions.items rooms.items) }
{
    let mut rooms = Vec::with_capacity(alloc, sessions.len())?;
    for session in sessions {
        rooms.push_reserved(RestoredRoom::new(alloc, names.copy(alloc)?, session)?);
    }
    Ok(rooms)
}

// So many sessions with these types.
fn sessions_of(alloc: Global, types: &[Local], n: u64) -> Result<Vec<Session>, OpenFault>
    ensures count { IfOk result (λ v. length v.items ≡ n) }
    ensures all { IfOk result (λ v. All (λ s. s ≡ record { types = map plain types.now; state = initial }) v.items) }
    ensures fault { IfErr result (λ fault. fault ≢ OpenFault.Memory → KeepsShut (map plain types.now) fault) }
{
    let mut made = Vec::with_capacity(alloc, n as usize)?;
    for _ in 0..n {
        made.push_reserved(session_of(alloc, types)?);
    }
    Ok(made)
}

impl Hub {
    /// Opens so many sessions of these roles with these types, numbered from 1. A fault says why no session has these
    /// types, or that memory ran out.
    pub fn open(
        alloc: Global,
        names: &Roles,
        types: &[Local],
        sessions: u64,
    ) -> Result<Hub, OpenFault>
        requires some { (1 ≤ sessions) × (sessions ≤ 16) }
        requires named { length names.now ≡ length types.now }
        ensures names { IfOk result (λ h. h.names ≡ names.now) }
        ensures first { IfOk result (λ h. h.first ≡ 1) }
        ensures given { IfOk result (λ h. h.given ≡ false) }
        ensures share { IfOk result (λ h. h.share ≡ None) }
        ensures waits { IfOk result (λ h. h.waits ≡ false) }
        ensures cells { IfOk result (λ h. AreCellsWith names.now (map plain types.now) 1 sessions h.cells) }
        ensures fault { IfErr result (λ fault. fault ≢ OpenFault.Memory → KeepsShut (map plain types.now) fault) }
    {
        let made = sessions_of(alloc, types, sessions)?;
        Ok(Hub::of(alloc, names, made)?)
    }

    /// A hub of these sessions, in their order, numbered from 1, in which nothing was done yet. Where memory runs out they
    /// are dropped.
    pub fn of(alloc: Global, names: &Roles, sessions: Vec<Session>) -> Result<Hub, AllocError>
        requires some { (1 ≤ length sessions.items) × (length sessions.items ≤ 16) }
        requires new { All (IsNew names.now) sessions.items }
        ensures names { IfOk result (λ h. h.names ≡ names.now) }
        ensures first { IfOk result (λ h. h.first ≡ 1) }
        ensures given { IfOk result (λ h. h.given ≡ false) }
        ensures share { IfOk result (λ h. h.share ≡ None) }
        ensures waits { IfOk result (λ h. h.waits ≡ false) }
        ensures cells { IfOk result (λ h. AreCellsOf names.now 1 sessions.items h.cells) }
    {
        Hub::of_numbered(alloc, names, 1, sessions)
    }

    /// A hub of these sessions, in their order, in which nothing was done yet, where the first has that number, and those
    /// after it the next ones. Where memory runs out they are dropped.
    #[tactic(auto, using(crate::proofs::Cells::new_rooms_named))]
    pub fn of_numbered(
        alloc: Global,
        names: &Roles,
        first: u64,
        sessions: Vec<Session>,
    ) -> Result<Hub, AllocError>
        requires number { first ≤ 2 ^ 63 }
        requires some { (1 ≤ length sessions.items) × (length sessions.items ≤ 16) }
        requires new { All (IsNew names.now) sessions.items }
        ensures names { IfOk result (λ h. h.names ≡ names.now) }
        ensures first { IfOk result (λ h. h.first ≡ first) }
        ensures given { IfOk result (λ h. h.given ≡ false) }
        ensures share { IfOk result (λ h. h.share ≡ None) }
        ensures waits { IfOk result (λ h. h.waits ≡ false) }
        ensures cells { IfOk result (λ h. AreCellsOf names.now first sessions.items h.cells) }
    {
        let rooms = rooms_of(alloc, names, sessions)?;
        Hub::of_restored(alloc, names, first, rooms)
    }

    /// A hub of these rooms, in their order, each with its roles' numbered commands, where the first session has that
    /// number, and those after it the next ones. Where memory runs out they are dropped.
    #[tactic(auto, using(crate::proofs::Cells::numbered))]
    pub fn of_restored(
        alloc: Global,
        names: &Roles,
        first: u64,
        rooms: Vec<RestoredRoom>,
    ) -> Result<Hub, AllocError>
        requires number { first ≤ 2 ^ 63 }
        requires some { (1 ≤ length rooms.items) × (length rooms.items ≤ 16) }
        requires named { All (λ r. r.room.names ≡ names.now) rooms.items }
        ensures names { IfOk result (λ h. h.names ≡ names.now) }
        ensures first { IfOk result (λ h. h.first ≡ first) }
        ensures given { IfOk result (λ h. h.given ≡ false) }
        ensures share { IfOk result (λ h. h.share ≡ None) }
        ensures waits { IfOk result (λ h. h.waits ≡ false) }
        ensures cells { IfOk result (λ h. AreCellsAround first rooms.items h.cells) }
    {
        let mut cells = Vec::with_capacity(alloc, rooms.len())?;
        let mut deals = Vec::with_capacity(alloc, rooms.len())?;
        for room in rooms {
            let (cell, deal) = cell_of(alloc, room, first + cells.len() as u64)?;
            cells.push_reserved(cell);
            deals.push_reserved(deal);
        }
        Ok(Hub {
            names: names.copy(alloc)?,
            first,
            cells,
            deals: Some(deals),
            shares: None,
            waits: None,
        })
    }

    /// The same hub, where each role may make just its share of the entries of its session, if there are shares, which are
    /// those of the hub's sessions, in their order.
    pub fn sharing(mut self, shares: Option<Shares>) -> Hub
        ensures names { result.names ≡ self.names }
        ensures first { result.first ≡ self.first }
        ensures cells { result.cells ≡ self.cells }
        ensures given { result.given ≡ self.given }
        ensures share { result.share ≡ option_map (λ s. s.most) shares }
        ensures waits { result.waits ≡ self.waits }
    {
        self.shares = shares;
        self
    }

    /// The same hub, where answers may wait, if there is something by which they do.
    pub fn waiting(mut self, waits: Option<Waits>) -> Hub
        ensures names { result.names ≡ self.names }
        ensures first { result.first ≡ self.first }
        ensures cells { result.cells ≡ self.cells }
        ensures given { result.given ≡ self.given }
        ensures share { result.share ≡ self.share }
        ensures waits { result.waits ≡ is_some waits }
    {
        self.waits = waits;
        self
    }

    /// The right to the passes, once in the hub's life. `desk_of` makes the desk for it, and the hub stays known
    /// beside.
    pub fn deal(&mut self) -> Option<HubDeal>
        ensures names { self.new.names ≡ self.old.names }
        ensures first { self.new.first ≡ self.old.first }
        ensures cells { self.new.cells ≡ self.old.cells }
        ensures share { self.new.share ≡ self.old.share }
        ensures waits { self.new.waits ≡ self.old.waits }
        ensures given { self.new.given ≡ true }
        ensures once { IsSome result ↔ (self.old.given ≡ false) }
        ensures deal { IfSome result (AreDeals self.old.cells) }
    {
        Some(HubDeal {
            deals: self.deals.take()?,
        })
    }

    /// The number of the first session.
    pub fn first(&self) -> u64
        ensures { result ≡ self.now.first }
    {
        self.first
    }

    /// How many sessions there are.
    pub fn sessions(&self) -> u64
        ensures { result ≡ length self.now.cells }
    {
        self.cells.len() as u64
    }

    /// The desk, with all passes.
    pub fn desk_of(&self, alloc: Global, deal: HubDeal) -> Result<Desk<'_>, AllocError>
        requires deal { AreDeals self.now.cells deal }
        ensures desk { IfOk result (λ d. d ≡ record {
          names = self.now.names;
          first = self.now.first;
          cells = self.now.cells;
          share = self.now.share;
          waits = self.now.waits;
        }) }
    {
        let HubDeal { deals } = deal;
        let names = &self.names;
        let rows = rows_of(alloc, self.cells.as_slice(), names.count(), deals)?;
        Desk::new(
            alloc,
            names,
            self.first,
            rows,
            self.shares.as_ref(),
            self.waits.as_ref(),
        )
    }

    /// Both in one: the desk, once in the hub's life. After an out-of-memory answer later calls are told that it was
    /// given.
    pub fn desk(&mut self, alloc: Global) -> Result<Desk<'_>, PassFault>
        ensures given { IsErrOf result Given ↔ (self.old.given ≡ true) }
        ensures desk { IfOk result (λ d. d ≡ record {
          names = self.old.names;
          first = self.old.first;
          cells = self.old.cells;
          share = self.old.share;
          waits = self.old.waits;
        }) }
    {
        let Some(deal) = self.deal() else {
            return Err(PassFault::Given);
        };
        let Ok(desk) = self.desk_of(alloc, deal) else {
            return Err(PassFault::Memory);
        };
        Ok(desk)
    }

    /// The room of each session, in order, if it is at home. Where memory runs out the rooms are dropped.
    pub fn close(self, alloc: Global) -> Result<Vec<Option<Room>>, AllocError>
        ensures { IfOk result (λ rooms. AreClosed self.cells rooms.items) }
    {
        let Hub {
            names: _,
            first: _,
            cells,
            deals: _,
            shares: _,
            waits: _,
        } = self;
        let rooms = Vec::with_capacity(alloc, cells.len())?;
        Ok(close_all(cells, rooms))
    }
}

// Closes the cells in order.
fn close_all(cells: Vec<Cell>, mut rooms: Vec<Option<Room>>) -> Vec<Option<Room>>
    requires none { rooms.items ≡ [] }
    requires space { length cells.items ≤ vec_capacity rooms }
    ensures { AreClosed cells.items result.items }
{
    for cell in cells {
        rooms.push_reserved(cell.close());
    }
    rooms
}

// A row for each cell, in order.
fn rows_of<'a>(
    alloc: Global,
    cells: &'a [Cell],
    roles: usize,
    deals: Vec<Deal>,
) -> Result<Vec<Row<'a>>, AllocError>
    requires { AreDeals cells.now deals.items }
    ensures { IfOk result (λ rows. rows.items ≡ cells.now) }
{
    let mut rows = Vec::with_capacity(alloc, cells.len())?;
    for deal in deals {
        let cell = &cells[rows.len()];
        let passes = cell.passes_of(deal)?;
        rows.push(row_of(alloc, cell, roles, passes)?)?;
    }
    Ok(rows)
}

// The row of this cell, with these passes.
fn row_of<'a>(
    alloc: Global,
    cell: &Cell,
    roles: usize,
    mut passes: Vec<Pass<'a>>,
) -> Result<Row<'a>, AllocError>
    requires { All (IsOfCell cell.now) passes.items }
    ensures { IfOk result (λ r. r ≡ cell.now) }
{
    let mut row = Row::new(alloc, cell, roles)?;
    while let Some(pass) = passes.pop() {
        row.give(pass);
    }
    Ok(row)
}
