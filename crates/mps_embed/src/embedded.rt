//! A room that is called line by line, for any of its roles.
ghost use Rattle.std.specs.Prelude.{◌≡◌, ◌<◌, ◌≤◌, ◌≢◌, ℕ, [], List, Some, None, true, false, All, length, slice_get, slice_set};
ghost use Rattle.std.specs.Prelude.{IfOk, IfErr, OnOk, OnErr};
ghost use Rattle.std.specs.Io.{StartsWith};
ghost use Rattle.mps_base.specs.Appends.{AppendsSuch};
ghost use Rattle.mps_keeper.specs.Trails.{RecordedOn};
ghost use Rattle.mps_line.specs.Replies.{SpellsReply};
ghost use Rattle.mps_line.specs.declared.write_replies.Reply.TheVariants.{NoRole as Nobody, Unkept as Lost};
ghost use Rattle.mps_local.specs.declared.merging.Merging.TheVariants.{Plain};
ghost use Rattle.mps_machine.specs.Machine.{initial};
ghost use Rattle.mps_open.specs.Faults.{GivesNoSession};
ghost use Rattle.mps_room.specs.Numbers.{last_of};
ghost use Rattle.mps_room.specs.Callers.{entries_of};
ghost use Rattle.mps_embed.specs.Diaries.{taken_in, whole_in};
ghost use Rattle.mps_embed.specs.Embedded.{IsAnswered, IsNewRoomOf, IsOnlyTold, newest_at};
ghost use Rattle.mps_wire.specs.declared.reply.Outcome.TheVariants.{Reply as Said};
ghost use Rattle.std.specs.Option.{is_some};

use crate::diary::Diary;
use mps_base::Role;
use mps_dev::Sink;
use mps_keeper::laws::a_guest_is_answered_as_its_caller;
use mps_keeper::{Book, Guest, RestoredRoom, Unguarded};
use mps_line::Reply;
use mps_open::{Fault, Merging, open_text_by};
use mps_room::{Caller, Numbers, Room, Solo};
use mps_wire::{Outcome, take_line, write_outcome};
use std::alloc::{AllocError, Global};
use std::marker::Model;
use std::mem;

/// A room, of each role the newest of its numbered commands, what records its commands, if something does, and the reply to
/// the newest line.
#[derive(Drop)]
pub struct Embedded<W: Sink> {
    // the room, the role that spoke last, the newest numbered command of that role, and what records all
    pub(crate) guest: Guest<'static, Unguarded, Diary<W>, Solo>,
    // those of the other roles
    pub(crate) numbers: Vec<Numbers>,
    pub(crate) outcome: Outcome,
    // where a text is made before it is copied
    pub(crate) text: Vec<u8>,
    pub(crate) alloc: Global,
}

impl<W: Sink> Model for Embedded<W> {
    ghost use Rattle.std.specs.Coded.{codes};
    ghost use Rattle.std.specs.Prelude.{◌≡◌, length, slice_set};
    ghost use Rattle.mps_local.specs.Private.Codes.{coded_local};
    ghost use Rattle.mps_embed.specs.Diaries.{records_of, taken_of, whole_of};
    ghost use Rattle.mps_embed.specs.Embedded.{EmbeddedState};
    ghost use Rattle.mps_room.specs.Numbers.{kept_of};
    ghost use Rattle.mps_wire.specs.Conversations.{reply_of};

    ghost Value = { EmbeddedState };

    ghost coded = { Prim.hlevel (codes, coded_local) };

    ghost view = { λ e. record {
      room = e.guest.inner.room;
      numbers = slice_set e.numbers.items e.guest.inner.role e.guest.inner.numbers;
      reply = reply_of e.outcome (kept_of e.guest.inner.numbers.newest);
      records = records_of e.guest.recorder;
      taken = taken_of e.guest.recorder;
      whole = whole_of e.guest.recorder;
    } };

    ghost invariant = { λ e. length e.numbers.items ≡ length e.guest.inner.room.types };
}

// Makes this role the one that speaks: its numbers are swapped into `solo`, and those of the role before back into the
// list. So one caller serves all roles without copies. O(1); it does not allocate. Apart from `run`, whose proof cites
// its clauses.
fn turn_to(solo: &mut Solo, numbers: &mut Vec<Numbers>, role: Role)
    requires known { role < length solo.old.room.types }
    requires each { length numbers.old.items ≡ length solo.old.room.types }
    ensures room { solo.new.room ≡ solo.old.room }
    ensures role { solo.new.role ≡ role }
    ensures each { length numbers.new.items ≡ length numbers.old.items }
    ensures numbers { slice_get (slice_set numbers.old.items solo.old.role solo.old.numbers) role
        ≡ Some solo.new.numbers }
    ensures same { slice_set numbers.new.items solo.new.role solo.new.numbers
        ≡ slice_set numbers.old.items solo.old.role solo.old.numbers }
{
    // the first swap puts those of the old role back, the second takes those of the new one
    mem::swap(&mut solo.numbers, &mut numbers[solo.role.index()]);
    solo.role = role;
    mem::swap(&mut solo.numbers, &mut numbers[role.index()]);
}

// Replaces the newest outcome, and drops the one before it. Apart, so that the drop has a contract of its own.
fn replace_outcome(outcome: &mut Outcome, newest: Outcome)
    ensures { outcome.new ≡ newest }
{
    *outcome = newest;
}

// The outcome, where it may be told.
fn told(outcome: Outcome, whole: bool) -> Outcome
    ensures told { whole ≡ true → result ≡ outcome }
    ensures lost { whole ≡ false → result ≡ Said Lost }
{
    if whole {
        outcome
    } else {
        Outcome::Reply(Reply::Unkept)
    }
}

impl<W: Sink + Drop> Embedded<W> {
    /// A room of a new session of the protocol that the text spells, by plain merging; before the first line its answer is
    /// `refused norole`. Nothing is recorded. The error is the first fault of text or protocol, or `Memory` where memory ran
    /// out before one was found.
    pub fn open(alloc: Global, text: &[u8]) -> Result<Embedded<W>, Fault>
        ensures opened { IfOk result (IsNewRoomOf Plain text.now) }
        ensures fault { IfErr result (GivesNoSession Plain text.now) }
    {
        Embedded::open_by(alloc, Merging::Plain, text)
    }

    /// `open` by the merging that is given.
    pub fn open_by(alloc: Global, merging: Merging, text: &[u8]) -> Result<Embedded<W>, Fault>
        ensures opened { IfOk result (IsNewRoomOf merging text.now) }
        ensures fault { IfErr result (GivesNoSession merging text.now) }
    {
        let (roles, session) = open_text_by(alloc, merging, text)?;
        let restored = RestoredRoom::new(alloc, roles, session)?;
        Ok(Embedded::of_restored(alloc, restored, None, Vec::new(alloc)))
    }

    /// The room as it is restored, whose further commands the book takes, if there is one. Lines for it are made in `line`:
    /// with space for `LONGEST_LINE` bytes none is lost for want of memory. Before its first line the answer is `refused
    /// norole`.
    pub fn of_restored(
        alloc: Global,
        restored: RestoredRoom,
        book: Option<Book<W>>,
        line: Vec<u8>,
    ) -> Embedded<W>
        ensures room { result.room ≡ restored.room }
        ensures numbers { result.numbers ≡ restored.numbers.items }
        ensures reply { result.reply ≡ Nobody }
        ensures records { result.records ≡ is_some book }
        ensures taken { result.taken ≡ taken_in book }
        ensures whole { result.whole ≡ whole_in book }
    {
        let RestoredRoom { room, numbers } = restored;
        // looked at for the proof alone: there is a role
        let _some = room.names().count();
        let mut numbers = numbers;
        // any role, since `line` turns to the one that speaks
        let mut solo = Solo::new(room, Role::new(0));
        mem::swap(&mut solo.numbers, &mut numbers[0]);
        let mut guest = Guest::new(&Unguarded, 1, Diary::new(None), solo, line);
        guest.recorder = Diary::new(book);
        Embedded {
            guest,
            numbers,
            outcome: Outcome::Reply(Reply::NoRole),
            text: Vec::new(alloc),
            alloc,
        }
    }
}

impl<W: Sink> Embedded<W> {
    // Runs the line as a command of the role, and stores the outcome. `line` has looked the role up. Apart from
    // `line`, whose clauses are this one's at the place that was found.
    fn run(&mut self, role: Role, line: &[u8])
        requires known { role < length self.old.room.types }
        ensures answered { self.old.whole ≡ true → IsAnswered self.old role line.now self.new }
        ensures recorded { self.old.records ≡ true → self.new.whole ≡ true
            → RecordedOn self.old.room.names self.old.taken self.new.taken (last_of (newest_at self.old role))
            (last_of (newest_at self.new role)) (entries_of role self.old.room.journal)
            (entries_of role self.new.room.journal) }
        ensures lost { self.old.whole ≡ false → IsOnlyTold Lost self.old self.new }
        ensures records { self.new.records ≡ self.old.records }
        ensures idle { self.old.records ≡ false → self.new.whole ≡ self.old.whole }
    {
        if !self.guest.may_tell() {
            replace_outcome(&mut self.outcome, Outcome::Reply(Reply::Unkept));
            return;
        }
        // for the proof alone
        a_guest_is_answered_as_its_caller::<Unguarded, Diary<W>, Solo>();
        turn_to(&mut self.guest.inner, &mut self.numbers, role);
        let outcome = take_line(self.alloc, &mut self.guest, false, line);
        let outcome = told(outcome, self.guest.may_tell());
        replace_outcome(&mut self.outcome, outcome);
    }

    /// Runs the line, at most 512 bytes, as a command of the role of that name; its answer is there until the next
    /// line. Where no role has the name the answer is `refused norole`, and nothing is run. It can't fail: out of
    /// memory is an answer too.
    ///
    /// Where accepted commands are recorded, one is before its answer is there. Where it can't be, the answer is `refused
    /// journal`, to it and from then on to each line, of which nothing is run any more: the room may have that one command
    /// that what recorded the others hasn't.
    pub fn line(&mut self, role: &[u8], line: &[u8])
        ensures known { (place : ℕ) → slice_get self.old.room.names place ≡ Some role.now
            → self.old.whole ≡ true → IsAnswered self.old place line.now self.new }
        ensures recorded { (place : ℕ) → slice_get self.old.room.names place ≡ Some role.now
            → self.old.records ≡ true → self.new.whole ≡ true
            → RecordedOn self.old.room.names self.old.taken self.new.taken (last_of (newest_at self.old place))
            (last_of (newest_at self.new place)) (entries_of place self.old.room.journal)
            (entries_of place self.new.room.journal) }
        ensures lost { (place : ℕ) → slice_get self.old.room.names place ≡ Some role.now
            → self.old.whole ≡ false → IsOnlyTold Lost self.old self.new }
        ensures unknown { All (λ name. name ≢ role.now) self.old.room.names → IsOnlyTold Nobody self.old self.new }
        ensures records { self.new.records ≡ self.old.records }
        ensures idle { self.old.records ≡ false → self.new.whole ≡ self.old.whole }
    {
        let names = self.guest.inner.room.names();
        // looked at for the proof alone: there is a name for each type
        let _few = names.count();
        match names.find_spelled(role) {
            Some(place) => self.run(place, line),
            None => replace_outcome(&mut self.outcome, Outcome::Reply(Reply::NoRole)),
        }
    }

    /// Appends the answer to the newest line, without a line break; it may be asked for again. Out of memory is the
    /// only error: a part may stand in `out` then, and the answer isn't lost.
    pub fn write_answer(&self, out: &mut Vec<u8>) -> Result<(), AllocError>
        ensures ok { OnOk result (AppendsSuch (λ text. SpellsReply text self.now.reply) out.old.items out.new.items) }
        ensures err { OnErr result (StartsWith out.new.items out.old.items) }
    {
        write_outcome(&self.guest, &self.outcome, out)
    }

    /// The room, to read, as the lines so far have left it.
    pub fn room(&self) -> &Room
        ensures { result.now ≡ self.now.room }
    {
        &self.guest.inner.room
    }
}
