//! mps_session, mps_room, mps_cell: a command of any role is answered as with ample memory, or it is reported that
//! memory ran out, and nothing has changed.
ghost use Rattle.std.specs.Prelude.{◌≡◌, ◌<◌, length, IfSome};
ghost use Rattle.mps_machine.specs.Machine.{initial};

use crate::outcomes::{Came, Outcome, Until, answered, came_to, refused};
use crate::rows::{HEARD, PROTOCOL, Row};
use mps_base::{Role, Roles, StepId};
use mps_cell::Pass;
use mps_command::{Answer, Command, Forward, Refusal, StepIds};
use mps_global::Protocol;
use mps_line::{append_answer, read_script_line};
use mps_room::Room;
use mps_session::{Session, open_protocol};
use mps_show::write_show;
use mps_text::read_protocol;
use std::alloc::Global;
use std::sync::Wait;

/// Who answers the commands of any role.
pub trait Party {
    /// The answer. None where it can't be asked for.
    fn ask(&mut self, role: Role, command: Command) -> Option<Answer>;

    /// How it stands, as text.
    fn state(&mut self) -> Option<Vec<u8>>;
}

/// The roles of the protocol of the rows, and a new session of it.
pub fn opened(alloc: Global) -> Option<(Roles, Session)>
    ensures new { IfSome result (λ r. r.1.state ≡ initial) }
    ensures names { IfSome result (λ r. length r.0 ≡ length r.1.types) }
{
    opened_of(alloc, PROTOCOL)
}

// The roles of the protocol, and a new session of it.
fn opened_from(alloc: Global, protocol: &Protocol) -> Option<(Roles, Session)>
    ensures new { IfSome result (λ r. r.1.state ≡ initial) }
    ensures names { IfSome result (λ r. length r.0 ≡ length r.1.types) }
{
    let Ok(session) = open_protocol(alloc, protocol) else {
        return None;
    };
    match Roles::of(alloc, protocol.roles.as_slice()) {
        Ok(names) if names.count() == session.roles() => Some((names, session)),
        _ => None,
    }
}

/// The roles of this protocol, and a new session of it.
pub fn opened_of(alloc: Global, text: &[u8]) -> Option<(Roles, Session)>
    ensures new { IfSome result (λ r. r.1.state ≡ initial) }
    ensures names { IfSome result (λ r. length r.0 ≡ length r.1.types) }
{
    match read_protocol(alloc, text) {
        Ok(protocol) => opened_from(alloc, &protocol),
        Err(_) => None,
    }
}

/// A session by itself.
#[derive(Drop)]
pub struct Alone {
    alloc: Global,
    names: Roles,
    session: Session,
}

impl Alone {
    /// A new session of the protocol.
    pub fn new(alloc: Global) -> Option<Alone> {
        let (names, session) = opened(alloc)?;
        Some(Alone {
            alloc,
            names,
            session,
        })
    }
}

fn undone(ids: Result<StepIds, Refusal>) -> Answer {
    match ids {
        Ok(ids) => Answer::Undone(ids),
        Err(refusal) => Answer::Refused(refusal),
    }
}

// The answer to a step.
fn step_answer(session: &mut Session, role: Role, step: Forward) -> Answer
    requires { role < length session.old.types }
{
    match session.forward(role, step) {
        Ok(done) => Answer::Done(done),
        Err(refusal) => Answer::Refused(refusal),
    }
}

// The answer to an undo.
fn undo_answer(session: &mut Session, role: Role, id: StepId) -> Answer
    requires { role < length session.old.types }
{
    match session.undo(role, id) {
        Ok(_) => Answer::Undone(StepIds::one(id)),
        Err(refusal) => Answer::Refused(refusal),
    }
}

// The session's answer by the call for that command.
fn session_answer(session: &mut Session, role: Role, command: Command) -> Option<Answer>
    requires { role < length session.old.types }
{
    match command {
        Command::Forward(step) => Some(step_answer(session, role, step)),
        Command::Undo(id) => Some(undo_answer(session, role, id)),
        Command::Rollback(id) => Some(undone(session.rollback(role, id))),
        Command::Back(name) => Some(undone(session.back(role, &name))),
        Command::News(_) | Command::Show | Command::Stand => None,
    }
}

impl Party for Alone {
    fn ask(&mut self, role: Role, command: Command) -> Option<Answer> {
        if role.index() >= self.session.roles() {
            return None;
        }
        session_answer(&mut self.session, role, command)
    }

    fn state(&mut self) -> Option<Vec<u8>> {
        if self.names.count() != self.session.roles() {
            return None;
        }
        let mut text = Vec::new(self.alloc);
        write_show(&self.names, &self.session, &mut text).ok()?;
        text.extend_from_slice(&self.session.issued().to_le_bytes())
            .ok()?;
        Some(text)
    }
}

/// A room.
#[derive(Drop)]
pub struct Roomed {
    alloc: Global,
    room: Room,
}

impl Roomed {
    /// A new room of this protocol.
    pub fn new(alloc: Global, text: &[u8]) -> Option<Roomed> {
        let (names, session) = opened_of(alloc, text)?;
        let room = Room::open(alloc, names, session);
        Some(Roomed { alloc, room })
    }
}

impl Party for Roomed {
    fn ask(&mut self, role: Role, command: Command) -> Option<Answer> {
        if role.index() >= self.room.session().roles() {
            return None;
        }
        Some(self.room.apply(role, command))
    }

    fn state(&mut self) -> Option<Vec<u8>> {
        let mut text = Vec::new(self.alloc);
        append_answer(&self.ask(Role::new(0), Command::Show)?, &mut text).ok()?;
        text.extend_from_slice(&self.room.entries().to_le_bytes())
            .ok()?;
        text.extend_from_slice(&self.room.session().issued().to_le_bytes())
            .ok()?;
        Some(text)
    }
}

/// All passes of a cell, with what they wait by.
#[derive(Drop)]
pub struct Passes<'r, 'c, R: Wait> {
    pub rt: &'r R,
    pub alloc: Global,
    pub all: Vec<Pass<'c>>,
}

impl<'r, 'c, R: Wait> Party for Passes<'r, 'c, R> {
    fn ask(&mut self, role: Role, command: Command) -> Option<Answer> {
        let pass = self.all.get_mut(role.index())?;
        Some(pass.call(self.rt, command))
    }

    fn state(&mut self) -> Option<Vec<u8>> {
        let pass = self.all.get_mut(0)?;
        let mut text = Vec::new(self.alloc);
        append_answer(&pass.call(self.rt, Command::Show), &mut text).ok()?;
        text.extend_from_slice(&pass.front().to_le_bytes()).ok()?;
        Some(text)
    }
}

// The answer to a line of a script.
fn asked<P: Party>(alloc: Global, names: &Roles, party: &mut P, line: &str) -> Option<Answer> {
    let (role, command) = read_script_line(alloc, names, line.as_bytes()).ok()?;
    party.ask(role, command)
}

fn is_refused(answer: &Answer) -> bool {
    matches!(answer, Answer::Refused(_))
}

// Whether the line is not refused.
fn is_done<P: Party>(alloc: Global, names: &Roles, party: &mut P, line: &str) -> bool {
    match asked(alloc, names, party, line) {
        Some(answer) => !is_refused(&answer),
        None => false,
    }
}

// Whether none of the lines is refused.
fn are_done<P: Party>(alloc: Global, names: &Roles, party: &mut P, lines: &[&str]) -> bool {
    for line in lines {
        if !is_done(alloc, names, party, line) {
            return false;
        }
    }
    true
}

fn text_of(alloc: Global, answer: &Answer) -> Option<Vec<u8>> {
    let mut text = Vec::new(alloc);
    append_answer(answer, &mut text).ok()?;
    Some(text)
}

// Whether the answers have the same text.
fn are_same(alloc: Global, first: &Answer, second: &Answer) -> Option<bool> {
    let first = text_of(alloc, first)?;
    Some(first == text_of(alloc, second)?)
}

// Whether the parties stand alike.
fn stand_alike<P: Party, Q: Party>(first: &mut P, second: &mut Q) -> Option<bool> {
    let first = first.state()?;
    Some(first == second.state()?)
}

// Whether both parties stand as they have to after their answers, which are the same.
fn are_alike<P: Party, Q: Party>(
    alloc: Global,
    first: (&mut P, &Answer),
    second: (&mut Q, &Answer),
) -> Option<bool> {
    if are_same(alloc, first.1, second.1)? {
        stand_alike(first.0, second.0)
    } else {
        Some(false)
    }
}

// Whether the party stands as before.
fn stands<P: Party>(party: &mut P, before: &[u8]) -> Option<bool> {
    Some(party.state()?.as_slice() == before)
}

// Whether the party, which was told that memory ran out, stands as before, and now answers as the other did.
fn goes_on<P: Party, Q: Party>(
    alloc: Global,
    names: &Roles,
    line: &str,
    before: &[u8],
    first: &mut P,
    second: (&mut Q, &Answer),
) -> Option<bool> {
    if !stands(first, before)? {
        return Some(false);
    }
    let answer = asked(alloc, names, first, line)?;
    are_alike(alloc, (first, &answer), second)
}

/// Whether the answer is that memory ran out.
pub fn ran_out(answer: &Answer) -> bool {
    matches!(answer, Answer::Refused(Refusal::Memory))
}

// What it comes to that the first is answered so, where the second, which is asked with ample memory, is answered so.
fn judged<P: Party, Q: Party>(
    alloc: Global,
    names: &Roles,
    line: &str,
    before: &[u8],
    first: (&mut P, &Answer),
    second: (&mut Q, &Answer),
) -> Option<Outcome> {
    if ran_out(first.1) {
        refused(goes_on(alloc, names, line, before, first.0, second)?)
    } else {
        answered(are_alike(alloc, first, second)?)
    }
}

// What it comes to that the first is answered so: the second is asked too, with ample memory.
fn judged_beside<P: Party, Q: Party>(
    alloc: Global,
    names: &Roles,
    line: &str,
    before: &[u8],
    until: Until,
    first: (&mut P, &Answer),
    second: &mut Q,
) -> Option<Outcome> {
    if until == Until::After {
        return Some(Outcome::Reached);
    }
    let wanted = asked(alloc, names, second, line)?;
    judged(alloc, names, line, before, first, (second, &wanted))
}

// Asks the first for the command of the line, where that is how it stands before, and compares it with the second.
fn compared_at<P: Party, Q: Party>(
    alloc: Global,
    names: &Roles,
    line: &str,
    before: &[u8],
    until: Until,
    first: &mut P,
    second: &mut Q,
) -> Option<Outcome> {
    let (role, command) = read_script_line(alloc, names, line.as_bytes()).ok()?;
    if until == Until::Before {
        return Some(Outcome::Reached);
    }
    let answer = first.ask(role, command)?;
    judged_beside(alloc, names, line, before, until, (first, &answer), second)
}

// Has both do the row's lines, asks the first for the row's command, and compares it with the second.
fn compared_by<P: Party, Q: Party>(
    alloc: Global,
    names: &Roles,
    row: &Row<'_>,
    until: Until,
    first: &mut P,
    second: &mut Q,
) -> Option<Outcome> {
    let Row(_, lines, line) = row;
    if !are_done(alloc, names, first, lines) || !are_done(alloc, names, second, lines) {
        return None;
    }
    let before = first.state()?;
    compared_at(alloc, names, line, before.as_slice(), until, first, second)
}

/// Asks the first for the command of the row, and compares it with the second, which is asked with ample memory.
pub fn compared<P: Party, Q: Party>(
    alloc: Global,
    row: &Row<'_>,
    until: Until,
    first: &mut P,
    second: &mut Q,
) -> Option<Outcome> {
    let names = names(alloc)?;
    compared_by(alloc, &names, row, until, first, second)
}

/// The names of the protocol's roles.
pub fn names(alloc: Global) -> Option<Roles> {
    Some(opened(alloc)?.0)
}

/// Asks a session for the command of the row.
pub fn session_asked(alloc: Global, row: &Row<'_>, until: Until) -> Option<Outcome> {
    let mut first = Alone::new(alloc)?;
    let mut second = Alone::new(alloc)?;
    compared(alloc, row, until, &mut first, &mut second)
}

/// Asks a room for the command of the row.
pub fn room_asked(alloc: Global, row: &Row<'_>, until: Until) -> Option<Outcome> {
    let mut first = Roomed::new(alloc, PROTOCOL)?;
    let mut second = Roomed::new(alloc, PROTOCOL)?;
    compared(alloc, row, until, &mut first, &mut second)
}

// Whether the room gives the fourth entry, which is c's receipt of the text.
fn entry_found(room: &Room) -> Came {
    match room.entry(3) {
        Ok(entry) => came_to(entry.is_some()),
        Err(_) => Came::Memory,
    }
}

// Asks the room for an entry.
fn entry_asked(room: &Room, until: Until) -> Option<Outcome> {
    if until == Until::Before {
        return Some(Outcome::Reached);
    }
    let found = entry_found(room);
    if until == Until::After {
        return Some(Outcome::Reached);
    }
    match found {
        Came::Memory => refused(entry_found(room) != Came::Memory),
        found => answered(found == Came::Wanted),
    }
}

// Whether the lines after which c has heard the text are done.
fn is_heard(alloc: Global, party: &mut Roomed) -> bool {
    match names(alloc) {
        Some(names) => are_done(alloc, &names, party, HEARD),
        None => false,
    }
}

/// Asks a room for the entry of a receipt of a text.
pub fn gives_an_entry(alloc: Global, until: Until) -> Option<Outcome> {
    let mut party = Roomed::new(alloc, PROTOCOL)?;
    if is_heard(alloc, &mut party) {
        entry_asked(&party.room, until)
    } else {
        None
    }
}
