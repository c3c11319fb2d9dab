//! The passes that are not in use, which one thread at a time has.
ghost use Rattle.std.specs.Prelude.{◌≡◌, ◌≢◌, ◌+◌, ◌<◌, ◌≤◌, ◌^◌, ◌↔◌, Some, None, IfOk, IfSome, IsNone, IsErrOf, All, length};
ghost use Rattle.std.specs.Prelude.{slice_set};
ghost use Rattle.std.specs.Option.{is_some, option_map};
ghost use Rattle.mps_hub.specs.Places.{IsAtPlace, IsOfCell, IsOfSession, HasSuchRole, IsPassOf, IsSession, Offer};
ghost use Rattle.mps_hub.specs.Private.Places.{AreNumbered, AtHome};

use crate::lock::{Steady, put_back, take_out};
use crate::shares::Shares;
use crate::waiting::Waits;
use atomic_table::{Refused as NotMade, Table};
use mps_base::{Name, Roles};
use mps_cell::{Cell, Pass};
use std::alloc::{AllocError, Global};
use std::marker::Model;
use std::snapshot::Snapshot;
use std::sync::{Mutex, Wait};
use thiserror::Error;

/// Why no pass is given. The first that applies is told.
#[derive(Clone, Copy, Debug, PartialEq, Eq, Error)]
pub enum JoinFault {
    #[error("no session has that number")]
    NoSession,
    #[error("the sessions have no role of that name")]
    NoRole,
    #[error("the pass is in use")]
    Taken,
}

/// The passes of one session that are not in use, each at its role.
#[derive(Drop)]
pub(crate) struct Row<'a> {
    cell: Snapshot<Cell>,
    passes: Vec<Option<Pass<'a>>>,
}

impl<'a> Model for Row<'a> {
    ghost use Rattle.std.specs.Coded.{codes};
    ghost use Rattle.mps_local.specs.Private.Codes.{coded_local};
    ghost use Rattle.mps_cell.specs.Cells.{Opened};
    ghost use Rattle.mps_hub.specs.Private.Places.{AtHome};

    ghost Value = { Opened };

    ghost coded = { Prim.hlevel (codes, coded_local) };

    ghost view = { λ r. r.cell.value };

    ghost invariant = { λ r. AtHome r.cell.value r.passes.items };
}

impl<'a> Row<'a> {
    // The row of a session with this cell, with no pass yet.
    pub(crate) fn new(alloc: Global, cell: &Cell, roles: usize) -> Result<Row<'a>, AllocError>
        ensures { IfOk result (λ r. r ≡ cell.now) }
    {
        let mut passes = Vec::with_capacity(alloc, roles)?;
        for _ in 0..roles {
            passes.push_reserved(None);
        }
        Ok(Row {
            cell: Snapshot::of(cell),
            passes,
        })
    }

    // The pass of this role, if it is there.
    fn take(&mut self, role: usize) -> Option<Pass<'a>>
        ensures same { self.new ≡ self.old }
        ensures cell { IfSome result (IsOfCell self.old) }
        ensures role { IfSome result (λ p. p.role ≡ role) }
    {
        if role >= self.passes.len() {
            return None;
        }
        self.passes[role].take()
    }

    // Puts a pass of the session to its own place.
    pub(crate) fn give(&mut self, pass: Pass<'a>)
        requires { IsOfCell self.old pass }
        ensures { self.new ≡ self.old }
    {
        put_home(&mut self.passes, pass);
    }
}

// Puts a pass to the place of its role.
fn put_home<'a>(passes: &mut Vec<Option<Pass<'a>>>, pass: Pass<'a>)
    ensures { passes.new.items ≡ slice_set passes.old.items pass.entry.role (Some pass.entry) }
{
    let role = pass.role().index();
    if role < passes.len() {
        passes[role] = Some(pass);
    }
}

// A row for each session, in order.
#[derive(Drop)]
struct Places<'a> {
    rows: Vec<Row<'a>>,
}

impl<'a> Model for Places<'a> {
    ghost use Rattle.std.specs.Prelude.{List};
    ghost use Rattle.std.specs.Coded.{codes};
    ghost use Rattle.mps_local.specs.Private.Codes.{coded_local};
    ghost use Rattle.mps_cell.specs.Cells.{Opened};

    ghost Value = { List Opened };

    ghost coded = { Prim.hlevel (codes, coded_local) };

    ghost view = { λ p. p.rows.items };
}

impl<'a> Places<'a> {
    // The pass of this role in the row at that place, if it is there.
    fn take(&mut self, place: usize, role: usize) -> Option<Pass<'a>>
        requires { place < length self.old }
        ensures same { self.new ≡ self.old }
        ensures cell { IfSome result (IsAtPlace self.old place) }
        ensures role { IfSome result (λ p. p.role ≡ role) }
    {
        self.rows[place].take(role)
    }

    // Puts a pass of the row at that place to its own place.
    fn give(&mut self, place: usize, pass: Pass<'a>)
        requires place { place < length self.old }
        requires pass { IsAtPlace self.old place pass }
        ensures { self.new ≡ self.old }
    {
        self.rows[place].give(pass);
    }
}

// A turn for each of so many sessions.
fn turns_of(alloc: Global, sessions: usize) -> Result<Vec<Mutex<()>>, AllocError>
    ensures { IfOk result (λ turns. length turns.items ≡ sessions) }
{
    let mut turns = Vec::with_capacity(alloc, sessions)?;
    for _ in 0..sessions {
        turns.push_reserved(Mutex::new(()));
    }
    Ok(turns)
}

/// The passes of a hub that are not in use. Each connection takes one and gives it back.
#[derive(Drop)]
pub struct Desk<'a> {
    names: &'a Roles,
    first: u64,
    sessions: u64,
    table: Table<Places<'a>, Places<'a>, Snapshot<Places<'a>>, Steady, Global>,
    // who may show the state, of each session
    turns: Vec<Mutex<()>>,
    // what each role may make, if that is limited
    shares: Option<&'a Shares>,
    // by what answers wait, if they may
    waits: Option<&'a Waits>,
}

impl<'a> Model for Desk<'a> {
    ghost use Rattle.std.specs.Coded.{codes};
    ghost use Rattle.std.specs.Option.{is_some, option_map};
    ghost use Rattle.mps_local.specs.Private.Codes.{coded_local};
    ghost use Rattle.mps_hub.specs.Places.{Offer};
    ghost use Rattle.mps_hub.specs.Private.Places.{IsDesk};

    ghost Value = { Offer };

    ghost coded = { Prim.hlevel (codes, coded_local) };

    ghost view = { λ d. record {
      names = d.names.now;
      first = d.first;
      cells = d.table.shared.key.value;
      share = option_map (λ s. s.now.most) d.shares;
      waits = is_some d.waits;
    } };

    ghost invariant = { λ d. IsDesk d.table.shared.table_id d.names.now d.first d.sessions d.table.shared.key.value };
}

impl<'a> Desk<'a> {
    // A desk with these names, over these rows, of which the first is of the session of that number.
    pub(crate) fn new(
        alloc: Global,
        names: &'a Roles,
        first: u64,
        rows: Vec<Row<'a>>,
        shares: Option<&'a Shares>,
        waits: Option<&'a Waits>,
    ) -> Result<Desk<'a>, AllocError>
        requires numbered { AreNumbered names.now first rows.items }
        requires fits { first + length rows.items < 2 ^ 64 }
        ensures { IfOk result (λ d. d ≡ record {
          names = names.now;
          first = first;
          cells = rows.entry.items;
          share = option_map (λ s. s.now.most) shares.entry;
          waits = is_some waits.entry;
        }) }
    {
        let sessions = rows.len() as u64;
        let turns = turns_of(alloc, rows.len())?;
        let places = Places { rows };
        let about = Snapshot::of(&places);
        let mut slots = Vec::with_capacity(alloc, 1)?;
        slots.push_reserved(places);
        match Table::new(alloc, &[0], slots, &about) {
            Ok((table, _)) => Ok(Desk {
                names,
                first,
                sessions,
                table,
                turns,
                shares,
                waits,
            }),
            Err(NotMade { slots: _ }) => Err(AllocError),
        }
    }

    // Whose turn it is to show the state of the session at that place.
    pub(crate) fn turn_at(&self, place: usize) -> Option<&Mutex<()>> {
        self.turns.get(place)
    }

    // What each role may make, if that is limited.
    pub(crate) fn shares(&self) -> Option<&'a Shares>
        ensures { option_map (λ s. s.now.most) result ≡ self.now.share }
    {
        self.shares
    }

    // By what answers wait, if they may.
    pub(crate) fn waits(&self) -> Option<&'a Waits>
        ensures { is_some result ≡ self.now.waits }
    {
        self.waits
    }

    // The names of the roles.
    pub(crate) fn roles(&self) -> &Roles
        ensures { result.now ≡ self.now.names }
    {
        self.names
    }

    /// The number of the first session. There are numbers for all.
    pub fn first(&self) -> u64
        ensures first { result ≡ self.now.first }
        ensures fits { result + length self.now.cells < 2 ^ 64 }
    {
        self.first
    }

    /// The place of the session of that number, if there is one.
    pub fn place_of(&self, session: u64) -> Option<usize>
        ensures some { IfSome result (λ place. place < length self.now.cells) }
        ensures place { IfSome result (λ place. session ≡ self.now.first + place) }
        ensures none { IsNone result ↔ ¬ IsSession self.now.first (length self.now.cells) session }
    {
        if session < self.first || session - self.first >= self.sessions {
            return None;
        }
        Some((session - self.first) as usize)
    }

    // Takes the pass of that session and role, if it is there.
    pub(crate) fn take_role<R: Wait>(&self, rt: &R, session: u64, role: usize) -> Option<Pass<'a>>
        requires { IsSession self.now.first (length self.now.cells) session }
        ensures of_session { IfSome result (IsOfSession self.now session) }
        ensures role { IfSome result (λ p. p.role ≡ role) }
    {
        let mut seat = take_out(rt, &self.table.shared);
        let places = seat.slot_mut(&self.table.shared, 0);
        let found = places.take((session - self.first) as usize, role);
        put_back(&self.table.shared, seat);
        found
    }

    /// Takes the pass of the role of that name in the session of that number. It waits while another thread has the
    /// passes out, which is for one look, and does not allocate.
    pub fn take<R: Wait>(&self, rt: &R, session: u64, name: &Name) -> Result<Pass<'a>, JoinFault>
        ensures pass { IfOk result (IsPassOf self.now session name.now) }
        ensures no_session { IsErrOf result JoinFault.NoSession
            ↔ ¬ IsSession self.now.first (length self.now.cells) session }
        ensures no_role { IsErrOf result JoinFault.NoRole
            ↔ (IsSession self.now.first (length self.now.cells) session
            × All (λ other. other ≢ name.now) self.now.names) }
        ensures taken { IsErrOf result JoinFault.Taken → HasSuchRole self.now session name.now }
    {
        if self.place_of(session).is_none() {
            return Err(JoinFault::NoSession);
        }
        let Some(role) = self.names.find(name) else {
            return Err(JoinFault::NoRole);
        };
        match self.take_role(rt, session, role.index()) {
            Some(pass) => Ok(pass),
            None => Err(JoinFault::Taken),
        }
    }

    /// Puts a pass of that session back. It waits as `take` does, and does not allocate.
    pub fn give<R: Wait>(&self, rt: &R, session: u64, pass: Pass<'a>)
        requires session { IsSession self.now.first (length self.now.cells) session }
        requires pass { IsOfSession self.now session pass }
    {
        let mut seat = take_out(rt, &self.table.shared);
        let places = seat.slot_mut(&self.table.shared, 0);
        places.give((session - self.first) as usize, pass);
        put_back(&self.table.shared, seat);
    }
}
