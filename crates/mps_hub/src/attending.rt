//! One connection, over any reader and writer.
ghost use Rattle.std.specs.Prelude.{◌≡◌, ◌≢◌, ◌-◌, ◌<◌, ◌≤◌, ◌^◌, ℕ, List, OnOk, IfOk, IfErr, Err, true, false, length, vec_capacity};
ghost use Rattle.std.specs.Option.{option_map};
ghost use Rattle.mps_line.specs.Codes.{code_of};
ghost use Rattle.mps_line.specs.Replies.{SpellsReply};
ghost use Rattle.mps_lines.specs.Lines.{ended};
ghost use Rattle.mps_hub.specs.Connections.{HasAttended, EndsForNoLoss, RepliesToFirst, SendingBrokeOff, WasSent};
ghost use Rattle.mps_keeper.specs.Holds.{keeper_of, records_of, whole_of};
ghost use Rattle.mps_hub.specs.Private.Connections.{CameOfJoining, IsAnsweredFirst};
ghost use Rattle.mps_hub.specs.First.{IsJoin};
ghost use Rattle.mps_hub.specs.Places.{IsKeptBy, IsPassOf, keeper_at};
ghost use Rattle.mps_hub.specs.Shares.{IsLeftOf};

use crate::bells::Bell;
use crate::desk::{Desk, JoinFault};
use crate::first::{asked_for, first_line};
use crate::sharing::Sharing;
use crate::waiting::RoleVigil;
use mps_base::{Name, Role};
use mps_cell::{Held, Pass};
use mps_dev::{Discard, Failed, Sink, Source};
use mps_keeper::{Disk, Gate, Guest, Hold, Keeper, LONGEST_LINE};
use mps_line::Reply;
use mps_room::Caller;
use mps_wire::sending::send_all;
use mps_wire::{Ending, Vigil, converse_waiting};
use std::alloc::{AllocError, Global};
use std::fs::File;
use std::net::TcpStream;
use std::sync::Wait;
use std::time::Clock;

/// How a connection ended.
#[derive(Clone, Copy, Debug, PartialEq, Eq)]
pub enum Attended {
    /// No first line came, so nothing was answered.
    NoLine,
    /// It didn't join: its first line was refused, or the answer to it couldn't be written.
    TurnedAway,
    /// It joined, and its conversation ended so.
    Conversed(Ending),
    /// Memory ran out before its first line was answered.
    Memory,
    /// What its role was shown before is not recorded, so its first line wasn't answered.
    Unrecorded,
}

// Why a reply was not sent.
#[derive(Clone, Copy, PartialEq, Eq)]
enum Unsent {
    Write,
    Memory,
}

// The text of the reply, with its LF.
fn text_of(alloc: Global, reply: &Reply) -> Result<Vec<u8>, AllocError>
    ensures { IfOk result (λ text. (words : List ℕ) × SpellsReply words reply.now × (text.items ≡ ended words)) }
{
    let mut text = Vec::new(alloc);
    reply.write(&mut text)?;
    text.push(b'\n')?;
    Ok(text)
}

// Writes the reply with its LF. Where memory runs out nothing is written.
fn send<W: Sink>(alloc: Global, writer: &mut W, reply: &Reply) -> Result<(), Unsent>
    requires { W.failed_calls writer.old < 2 ^ 62 }
    ensures sent { OnOk result (WasSent W.Sink writer.old writer.new reply.now) }
    ensures broken_off { result ≡ Err Unsent.Write → SendingBrokeOff W.Sink writer.old writer.new reply.now }
    ensures memory { result ≡ Err Unsent.Memory → writer.new ≡ writer.old }
{
    let Ok(text) = text_of(alloc, reply) else {
        return Err(Unsent::Memory);
    };
    match send_all(writer, text.as_slice()) {
        Ok(()) => Ok(()),
        Err(Failed) => Err(Unsent::Write),
    }
}

// Answers a first line that gets no pass.
pub(crate) fn refuse<W: Sink>(alloc: Global, writer: &mut W, reply: &Reply) -> Attended
    requires writes { W.failed_calls writer.old < 2 ^ 62 }
    requires refusal { code_of reply.now ≢ 0 }
    ensures { IsAnsweredFirst W.Sink writer.old writer.new reply.now result }
{
    match send(alloc, writer, reply) {
        Ok(()) => Attended::TurnedAway,
        Err(Unsent::Write) => Attended::TurnedAway,
        Err(Unsent::Memory) => Attended::Memory,
    }
}

// A first line that got its pass.
#[derive(Drop)]
struct Admitted<'s, 'd, S: Sink, D> {
    session: u64,
    // of the session
    place: usize,
    name: Name,
    pass: Pass<'d>,
    keeper: Option<&'s Keeper<S, D>>,
}

/// Who is told which session a connection joins, before it is told so itself.
pub trait Usher {
    fn joined(&self, session: u64);
}

/// No usher.
#[derive(Drop)]
pub struct NoUsher;

impl Usher for NoUsher {
    fn joined(&self, _session: u64) {}
}

/// A role's pass in a connection.
pub type PassGuest<'g, 'k, 'r, 'a, G, H, S, D> = Guest<
    'g,
    G,
    Hold<'k, H, S, D>,
    Sharing<'r, H, Held<'r, 'a, H>>,
>;

// Says that it joined, and converses. The pass stays one of its cell.
fn converse_joined<
    'g,
    'k,
    'r,
    'a,
    G: Gate + 'static,
    H: Wait + Clock + Eprint + 'static,
    S: Sink + 'static,
    D: Disk + 'static,
    V: Vigil,
    R: Source,
    W: Sink,
>(
    alloc: Global,
    caller: &mut PassGuest<'g, 'k, 'r, 'a, G, H, S, D>,
    vigil: &mut V,
    joined: &Reply,
    reader: &mut R,
    writer: &mut W,
) -> Attended
    requires reads { R.calls reader.old < 2 ^ 62 }
    requires writes { W.failed_calls writer.old < 2 ^ 61 }
    ensures cell { caller.new.inner.inner.pass.cell ≡ caller.old.inner.inner.pass.cell }
    ensures opening { caller.new.inner.inner.pass.opening ≡ caller.old.inner.inner.pass.opening }
    ensures conversed { CameOfJoining ⟦<PassGuest<'static, 'static, 'static, 'static, G, H, S, D> as Caller>⟧
        (V.waits vigil.old) R.Source W.Sink joined.now caller.old reader.old writer.old caller.new reader.new writer.new result }
    ensures told { records_of caller.old.recorder ≡ false → whole_of caller.old.recorder ≡ true → EndsForNoLoss result }
{
    if !caller.may_tell() {
        return Attended::Unrecorded;
    }
    let role = caller.inner.inner.pass.role();
    if caller.recorder.make_space(role).is_err() {
        return Attended::Memory;
    }
    match send(alloc, writer, joined) {
        Ok(()) => Attended::Conversed(converse_waiting(alloc, caller, vigil, reader, writer)),
        Err(Unsent::Write) => Attended::TurnedAway,
        Err(Unsent::Memory) => Attended::Memory,
    }
}

/// What the connections of a server share.
#[derive(Drop)]
pub struct Serving<'s, 'd, H, G, S: Sink, D> {
    pub rt: &'s H,
    pub alloc: Global,
    /// The passes that are not in use.
    pub desk: &'s Desk<'d>,
    /// What runs before each command.
    pub gate: &'s G,
    /// What records the sessions, in their order. With no keepers nothing is recorded; else a session without one can't
    /// be joined.
    pub keepers: &'s [Option<Keeper<S, D>>],
}

// No keepers.
fn no_keepers() -> &'static [Option<Keeper<Discard, File>>]
    ensures { length result.now ≡ 0 }
{
    &[]
}

impl<'s, 'd, H, G> Serving<'s, 'd, H, G, Discard, File> {
    /// Of sessions that aren't recorded.
    pub fn unrecorded(
        rt: &'s H,
        alloc: Global,
        desk: &'s Desk<'d>,
        gate: &'s G,
    ) -> Serving<'s, 'd, H, G, Discard, File>
        ensures desk { result.desk.now ≡ desk.now }
        ensures none { length result.keepers.now ≡ 0 }
    {
        Serving {
            rt,
            alloc,
            desk,
            gate,
            keepers: no_keepers(),
        }
    }
}

impl<
    's,
    'd,
    H: Wait + Clock + Eprint + 'static,
    G: Gate + 'static,
    S: Sink + 'static,
    D: Disk + 'static,
> Serving<'s, 'd, H, G, S, D> {
    // What records the session at that place, if something does.
    fn keeper_at(&self, place: usize) -> Option<&'s Keeper<S, D>>
        ensures { option_map (λ k. k.now) result ≡ keeper_at self.now.keepers.now place }
    {
        match self.keepers.get(place) {
            Some(keeper) => keeper.as_ref(),
            None => None,
        }
    }

    // The pass that the line asks for and what records its session, or the reply that says why there is none. Not inlined, so
    // that the conversation's stack needn't keep space for it.
    #[inline(never)]
    fn admit(&self, kept: &[u8]) -> Result<Admitted<'s, 'd, S, D>, Reply>
        ensures joins { IfOk result (λ a. IsJoin kept.now a.session a.name) }
        ensures pass { IfOk result (λ a. IsPassOf self.now.desk.now a.session a.name a.pass) }
        ensures keeper { IfOk result (λ a. IsKeptBy self.now.keepers.now (a.session - self.now.desk.now.first)
            (option_map (λ k. k.now) a.keeper)) }
        ensures reply { IfErr result (RepliesToFirst self.now.desk.now self.now.keepers.now kept.now) }
        ensures refusal { IfErr result (λ reply. code_of reply ≢ 0) }
    {
        let Some((session, name)) = asked_for(kept) else {
            return Err(Reply::BadLine);
        };
        let Some(place) = self.desk.place_of(session) else {
            return Err(Reply::NoSession);
        };
        let keeper = self.keeper_at(place);
        if keeper.is_none() && !self.keepers.is_empty() {
            return Err(Reply::NoSession);
        }
        match self.desk.take(self.rt, session, &name) {
            Ok(pass) => Ok(Admitted {
                session,
                place,
                name,
                pass,
                keeper,
            }),
            Err(JoinFault::NoSession) => Err(Reply::NoSession),
            Err(JoinFault::NoRole) => Err(Reply::NoRole),
            Err(JoinFault::Taken) => Err(Reply::Taken),
        }
    }

    // How many entries the role of the session at that place may still make, if that is limited.
    fn left(&self, place: usize, role: Role) -> Option<u64>
        ensures { IsLeftOf self.now.desk.now.share result }
    {
        match self.desk.shares() {
            Some(shares) => Some(shares.left(place, role)),
            None => None,
        }
    }

    // Stores how many are left to it.
    fn keep_left(&self, place: usize, role: Role, left: Option<u64>) {
        if let (Some(shares), Some(left)) = (self.desk.shares(), left) {
            shares.keep(place, role, left);
        }
    }

    // The bells of the session at that place, where answers may wait.
    fn bells_of(&self, place: usize) -> Option<&'d [Bell]> {
        match self.desk.waits() {
            Some(waits) => Some(waits.bells_of(place)),
            None => None,
        }
    }

    // Space for a line that is recorded, so that none is lost for want of memory.
    fn line_space(&self) -> Result<Vec<u8>, AllocError>
        ensures { 0 < length self.now.keepers.now → IfOk result (λ line. LONGEST_LINE ≤ vec_capacity line) }
    {
        if self.keepers.is_empty() {
            Ok(Vec::new(self.alloc))
        } else {
            Vec::with_capacity(self.alloc, LONGEST_LINE)
        }
    }

    /// Attends to one connection: to its first line and, where that joins, to its conversation. The pass goes back to
    /// the desk then, however the conversation ended.
    ///
    /// The first line is `join SESSION ROLE`, of 512 bytes at most. The gate runs before each command; `connection` is
    /// the number that it is told. What the commands change is recorded by the session's keeper, where it has one, and
    /// nothing is answered that isn't recorded. Where memory runs out over the first line, nothing is answered.
    pub fn attend<R: Source, W: Sink>(
        &self,
        connection: u64,
        reader: &mut R,
        writer: &mut W,
    ) -> Attended
        requires reads { R.calls reader.old < 2 ^ 61 }
        requires writes { W.failed_calls writer.old < 2 ^ 61 }
        ensures attended { HasAttended ⟦<PassGuest<'static, 'static, 'static, 'static, G, H, S, D> as Caller>⟧
            (λ c. c.inner.inner.pass) (λ c. keeper_of c.recorder) (λ c. c.inner.left) R.Source W.Sink
            self.now.desk.now self.now.keepers.now reader.old writer.old reader.new writer.new result }
        ensures told { length self.now.keepers.now ≡ 0 → EndsForNoLoss result }
    {
        self.attend_with(connection, &NoUsher, None, reader, writer)
    }

    /// The same, where the usher is told which session is joined, and the client is looked at while an answer waits, by its
    /// connection.
    pub fn attend_with<U: Usher, R: Source, W: Sink>(
        &self,
        connection: u64,
        usher: &U,
        stream: Option<&TcpStream>,
        reader: &mut R,
        writer: &mut W,
    ) -> Attended
        requires reads { R.calls reader.old < 2 ^ 61 }
        requires writes { W.failed_calls writer.old < 2 ^ 61 }
        ensures attended { HasAttended ⟦<PassGuest<'static, 'static, 'static, 'static, G, H, S, D> as Caller>⟧
            (λ c. c.inner.inner.pass) (λ c. keeper_of c.recorder) (λ c. c.inner.left) R.Source W.Sink
            self.now.desk.now self.now.keepers.now reader.old writer.old reader.new writer.new result }
        ensures told { length self.now.keepers.now ≡ 0 → EndsForNoLoss result }
    {
        let Ok(line) = self.line_space() else {
            return Attended::Memory;
        };
        let first = match first_line(self.alloc, reader) {
            Ok(Some(first)) => first,
            Ok(None) => return Attended::NoLine,
            Err(_) => return Attended::Memory,
        };
        match self.admit(first.as_slice()) {
            Ok(admitted) => {
                let Admitted {
                    session,
                    place,
                    name,
                    pass,
                    keeper,
                } = admitted;
                usher.joined(session);
                let rt = self.rt;
                let role = pass.role();
                let sharing = Sharing {
                    rt,
                    turn: self.desk.turn_at(place),
                    left: self.left(place, role),
                    bells: self.bells_of(place),
                    inner: Held { rt, pass },
                };
                let mut hold = Hold::new(rt, keeper);
                // else a server whose session another one took over might tell what isn't so any more
                hold.confirm();
                let mut guest = Guest::new(self.gate, connection, hold, sharing, line);
                let joined = Reply::Joined { session, name };
                let mut vigil = RoleVigil::new(rt, self.desk.waits(), place, role, stream);
                let ended = converse_joined(
                    self.alloc, &mut guest, &mut vigil, &joined, reader, writer,
                );
                // before the pass is there for the next connection
                self.keep_left(place, role, guest.inner.left);
                self.desk.give(rt, session, guest.inner.inner.pass);
                ended
            }
            Err(reply) => refuse(self.alloc, writer, &reply),
        }
    }
}
