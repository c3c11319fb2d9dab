//! Rooms.
ghost use Rattle.std.specs.Prelude.{◌≡◌, ◌<◌, ◌≤◌, ℕ, false, [], length, slice_get, Ok, None, IfOk};
ghost use Rattle.std.specs.Option.{option_map};
ghost use Rattle.mps_command.specs.declared.command.Command.TheVariants as commands;
ghost use Rattle.mps_machine.specs.Machine.{initial};
ghost use Rattle.mps_room.specs.Journal.{grown, is_accepted, news, answer_to, run, IsLegal, MayAnswer};
ghost use Rattle.mps_show.specs.Shown.{show_text, shown};
ghost use Rattle.serde_json.specs.View.{view};
ghost use Rattle.serde_json.specs.Written.{compact_text};

use crate::entry::Entry;
use crate::heard::Heard;
use crate::journal::Journal;
use crate::news::news;
use crate::shown::{shown_text, stand_text};
use crate::steps::Steps;
use mps_base::{Role, Roles};
use mps_command::{Answer, Command, Refusal, StepIds};
use mps_session::Session;
use mps_show::show;
use serde_json::Value as Json;
use std::alloc::{AllocError, Global};
use std::marker::Model;

/// How many entries a journal has at most; then changes are refused as `Full`, and questions still answered.
pub const MAX_ENTRIES: usize = 100_000;

/// A session with the names of its roles, and a journal of what it accepted.
#[derive(Drop)]
pub struct Room {
    pub(crate) names: Roles,
    pub(crate) session: Session,
    pub(crate) journal: Journal,
    pub(crate) steps: Steps,
    // what each role hears of
    pub(crate) heard: Heard,
    pub(crate) alloc: Global,
}

impl Model for Room {
    ghost use Rattle.std.specs.Coded.{codes};
    ghost use Rattle.std.specs.Prelude.{map};
    ghost use Rattle.mps_local.specs.Private.Codes.{coded_local};
    ghost use Rattle.mps_room.specs.Private.Rooms.{IsRoom};
    ghost use Rattle.mps_room.specs.Private.Narrow.{journal_of};
    ghost use Rattle.mps_room.specs.RoomState.{RoomState};

    ghost Value = { RoomState };

    ghost coded = { Prim.hlevel (codes, coded_local) };

    ghost view = { λ r. record { names = r.names; types = r.session.types; journal = journal_of r.journal.entries } };

    ghost invariant = { λ r. IsRoom r.names r.session r.steps.owners.items r.steps.places.items r.heard.count
        (map (λ l. l.items) r.heard.lists) r.journal.entries };
}

impl Room {
    /// A room of a session before its first step, with an empty journal. It does not allocate.
    pub fn open(alloc: Global, names: Roles, session: Session) -> Room
        requires count { length names ≡ length session.types }
        requires fresh { session.state ≡ initial }
        ensures { result ≡ record { names = names; types = session.types; journal = [] } }
    {
        let heard = Heard::new(alloc, names.count());
        Room {
            names,
            session,
            journal: Journal::new(alloc),
            steps: Steps::new(alloc),
            heard,
            alloc,
        }
    }

    /// The names of the session's roles, 2 to 8, in order. The clause `count` says that there is one for each type.
    pub fn names(&self) -> &Roles
        ensures names { result.now ≡ self.now.names }
        ensures count { length result.now ≡ length self.now.types }
    {
        &self.names
    }

    /// The session, to read. It is as the commands of the journal leave it, each with the answer that it gets after
    /// those before it: so it can be restored from the journal.
    pub fn session(&self) -> &Session
        ensures types { result.now.types ≡ self.now.types }
        ensures state { result.now.state ≡ run self.now.types self.now.journal }
        ensures legal { IsLegal self.now.names self.now.types self.now.journal }
    {
        &self.session
    }

    /// How many entries the journal has, at most 100,000; it never falls. The clause `legal` serves callers that need
    /// it for a proof alone, and write `let _legal = room.entries()`.
    pub fn entries(&self) -> u64
        ensures count { result ≡ length self.now.journal }
        ensures legal { IsLegal self.now.names self.now.types self.now.journal }
    {
        self.journal.len() as u64
    }

    /// The k-th entry, from 0, or `None` past the end. It is made anew from its stored form of 16 bytes; texts and
    /// lists of numbers allocate. It fails only when out of memory.
    pub fn entry(&self, k: u64) -> Result<Option<Entry>, AllocError>
        ensures entry { IfOk result (λ entry. entry ≡ slice_get self.now.journal k) }
        // past the end nothing asks for memory
        ensures none { length self.now.journal ≤ k → result ≡ Ok None }
    {
        let Some((role, command)) = self.command(k)? else {
            return Ok(None);
        };
        let Some(answer) = self.journal.answer(k as usize, self.alloc)? else {
            return Ok(None);
        };
        Ok(Some(Entry {
            role,
            command,
            answer,
        }))
    }

    /// The role and the command of the k-th entry, from 0, or `None` past the end: `entry` without the answer, which
    /// writers of journal files don't need. It fails only when out of memory.
    pub fn command(&self, k: u64) -> Result<Option<(Role, Command)>, AllocError>
        ensures command { IfOk result (λ asked. asked
            ≡ option_map (λ entry. (entry.role, entry.command)) (slice_get self.now.journal k)) }
        // past the end nothing asks for memory
        ensures none { length self.now.journal ≤ k → result ≡ Ok None }
    {
        self.journal.asked(k as usize, self.alloc)
    }

    /// How many entries the journal has, and which of the role's steps the entries of others took back after the first
    /// `known` entries. It fails only when out of memory. Unproved: it visits those entries alone in which another role
    /// took back one of its steps.
    pub fn news(&self, role: Role, known: u64) -> Result<(u64, StepIds), AllocError>
        ensures length { IfOk result (λ told. told.0 ≡ length self.now.journal) }
        ensures ids { IfOk result (λ told. told.1 ≡ news self.now.journal role known) }
    {
        let ids = news(
            self.alloc,
            &self.journal,
            &self.steps,
            self.heard.list(role),
            role,
            known,
        )?;
        Ok((self.journal.len() as u64, StepIds::of(ids)))
    }

    /// The state of the session as a JSON value, for programs that go on with its parts: an object of its history, its
    /// queues and its roles. O(roles * steps). It fails only when out of memory.
    pub fn show(&self) -> Result<Json, AllocError>
        ensures shown { IfOk result (λ v. view v
            ≡ shown self.now.names self.now.types (run self.now.types self.now.journal).history) }
        ensures text { IfOk result (λ v. compact_text (view v)
            ≡ show_text self.now.names self.now.types (run self.now.types self.now.journal).history) }
    {
        show(self.alloc, &self.names, &self.session)
    }

    /// Answers the role's command. What is accepted joins the journal with its answer. All memory is asked for before
    /// anything changes, so a refusal changes nothing; out of memory is not reported where the command would be refused
    /// anyway.
    #[inline(always)]
    pub fn apply(&mut self, role: Role, command: Command) -> Answer
        requires { role < length self.old.types }
        ensures answer { MayAnswer result
            (answer_to self.old.names self.old.types self.old.journal role command) }
        ensures journal { self.new.journal ≡ grown self.old.journal role command result }
        ensures names { self.new.names ≡ self.old.names }
        ensures types { self.new.types ≡ self.old.types }
    {
        match command {
            Command::News(known) => self.answer_news(role, known),
            Command::Show => self.answer_show(),
            Command::Stand => self.answer_stand(role),
            _ => self.change(role, command),
        }
    }

    /// The answer to the question which of the role's steps others took back after the first `known` entries; `Refused`
    /// with `Memory` when out of memory. Not inlined, so that `apply` keeps no space for it.
    #[inline(never)]
    pub fn answer_news(&self, role: Role, known: u64) -> Answer
        ensures answer { MayAnswer result
            (answer_to self.now.names self.now.types self.now.journal role (commands.News known)) }
        ensures asked { is_accepted result ≡ false }
    {
        match self.news(role, known) {
            Ok((length, ids)) => Answer::News { length, ids },
            Err(_) => Answer::Refused(Refusal::Memory),
        }
    }

    /// The answer to the question how the session stands, as one line of JSON; `Refused` with `Memory` when out of
    /// memory. Not inlined, so that `apply` keeps no space for it.
    #[inline(never)]
    pub fn answer_show(&self) -> Answer
        ensures answer { (role : ℕ) → MayAnswer result
            (answer_to self.now.names self.now.types self.now.journal role commands.Show) }
        ensures asked { is_accepted result ≡ false }
    {
        match shown_text(self.alloc, &self.names, &self.session) {
            Ok(text) => Answer::Shown(text),
            Err(_) => Answer::Refused(Refusal::Memory),
        }
    }

    /// The answer to the question how the role stands, as one line of JSON: what its type allows next, its newest step, and
    /// its slots; `Refused` with `Memory` when out of memory. O(slots). Not inlined, so that `apply` keeps no space for it.
    #[inline(never)]
    pub fn answer_stand(&self, role: Role) -> Answer
        requires { role < length self.now.types }
        ensures answer { MayAnswer result
            (answer_to self.now.names self.now.types self.now.journal role commands.Stand) }
        ensures asked { is_accepted result ≡ false }
    {
        match stand_text(self.alloc, &self.names, &self.session, role) {
            Ok(text) => Answer::Shown(text),
            Err(_) => Answer::Refused(Refusal::Memory),
        }
    }
}
