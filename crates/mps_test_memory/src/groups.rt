//! The calls that are made, by groups.

use crate::calls::*;
use crate::cells::{asks_for_the_length, hands_out_passes, has_two_meet, opens_a_cell, pass_asked};
use crate::lines::{
    TOLD, attends, converses, reads_a_command, reads_an_answer, writes_a_show, writes_an_answer,
};
use crate::outcomes::{Outcome, Until};
use crate::parties::{gives_an_entry, room_asked, session_asked};
use crate::rows::{PROTOCOL, ROOM_ROWS, ROWS, Row, VERDICT};
use crate::three::three_asked;
use std::alloc::Global;
use std::sync::Wait;
use std::time::Clock;

/// A group of calls.
#[derive(Clone, Copy, PartialEq, Eq)]
pub enum Group {
    /// Commands to a session, by the calls that it has for them.
    Session,
    /// Commands to a room.
    Room,
    /// Commands to a pass of a cell.
    Pass,
    /// Other calls.
    Other,
}

/// The groups with their words.
pub const GROUPS: &[(&str, Group)] = &[
    ("session", Group::Session),
    ("room", Group::Room),
    ("pass", Group::Pass),
    ("call", Group::Other),
];

// A call that is no command.
#[derive(Clone, Copy)]
enum Call {
    ReadProtocol,
    Roles,
    Project,
    Compile,
    Open,
    OpenProtocol,
    Entry,
    Three,
    OpenCell,
    Passes,
    ReadCommand,
    ReadText,
    ReadNumbers,
    WriteAnswer,
    WriteShow,
    Converse,
    ConverseCut,
    Attend,
    Would,
    Same,
    Untried,
    Length,
    Meet,
    LeastDependent,
    MarkFrom,
    LeastFinal,
}

// The other calls, with their names.
const CALLS: &[(&str, Call)] = &[
    ("read_protocol", Call::ReadProtocol),
    ("Roles::of", Call::Roles),
    ("project", Call::Project),
    ("compile", Call::Compile),
    ("Session::open", Call::Open),
    ("open_protocol", Call::OpenProtocol),
    ("Room::entry", Call::Entry),
    ("Room::apply-three", Call::Three),
    ("Cell::open", Call::OpenCell),
    ("Cell::passes", Call::Passes),
    ("read_command", Call::ReadCommand),
    ("read_answer-text", Call::ReadText),
    ("read_answer-numbers", Call::ReadNumbers),
    ("write_answer", Call::WriteAnswer),
    ("write_show", Call::WriteShow),
    ("converse", Call::Converse),
    ("converse-cut", Call::ConverseCut),
    ("attend", Call::Attend),
    ("Session::would", Call::Would),
    ("same", Call::Same),
    ("Session::rollback-same", Call::Untried),
    ("Pass::front", Call::Length),
    ("meet", Call::Meet),
    ("least_dependent", Call::LeastDependent),
    ("mark_from", Call::MarkFrom),
    ("least_final", Call::LeastFinal),
];

/// The group of that word.
pub fn named(word: &[u8]) -> Option<Group> {
    for (name, group) in GROUPS {
        if name.as_bytes() == word {
            return Some(*group);
        }
    }
    None
}

// The k-th row of a group that is asked, from 0.
fn row(group: Group, k: usize) -> Option<&'static Row<'static>> {
    match ROWS.get(k) {
        Some(row) => Some(row),
        None if group == Group::Session => None,
        None => ROOM_ROWS.get(usize::wrapping_sub(k, ROWS.len())),
    }
}

/// The name of the group's k-th call, from 0.
pub fn name(group: Group, k: usize) -> Option<&'static str> {
    match group {
        Group::Other => Some(CALLS.get(k)?.0),
        asked => Some(row(asked, k)?.0),
    }
}

// Makes a call that is no command.
fn call_made<R: Wait + Clock + Eprint + 'static>(
    rt: &R,
    alloc: Global,
    call: Call,
    until: Until,
) -> Option<Outcome> {
    match call {
        Call::ReadProtocol => reads_a_protocol(alloc, until),
        Call::Roles => makes_roles(alloc, until),
        Call::Project => projects(alloc, until),
        Call::Compile => compiles(alloc, until),
        Call::Open => opens_a_session(alloc, until),
        Call::OpenProtocol => opens_a_protocol(alloc, until),
        Call::Entry => gives_an_entry(alloc, until),
        Call::Three => three_asked(alloc, until),
        Call::OpenCell => opens_a_cell(alloc, until),
        Call::Passes => hands_out_passes(alloc, until),
        Call::ReadCommand => reads_a_command(alloc, until),
        Call::ReadText => reads_an_answer(alloc, TOLD, until),
        Call::ReadNumbers => reads_an_answer(alloc, b"undone 4 3 2 1", until),
        Call::WriteAnswer => writes_an_answer(alloc, until),
        Call::WriteShow => writes_a_show(alloc, until),
        Call::Converse => converses(alloc, PROTOCOL, b"send b 5\n", until),
        Call::ConverseCut => converses(alloc, VERDICT, b"send b 5\nund", until),
        Call::Attend => attends(rt, alloc, until),
        Call::Would => asks_whether(alloc, until),
        Call::Same => compares(alloc, until),
        Call::Untried => rolls_back_beside(alloc, until),
        Call::Length => asks_for_the_length(alloc, until),
        Call::Meet => has_two_meet(alloc, until),
        Call::LeastDependent => finds_a_dependent(alloc, until),
        Call::MarkFrom => marks_from(alloc, until),
        Call::LeastFinal => finds_a_commit(alloc, until),
    }
}

/// Makes the group's k-th call, from 0.
pub fn made<R: Wait + Clock + Eprint + 'static>(
    rt: &R,
    alloc: Global,
    group: Group,
    k: usize,
    until: Until,
) -> Option<Outcome> {
    match group {
        Group::Session => session_asked(alloc, row(group, k)?, until),
        Group::Room => room_asked(alloc, row(group, k)?, until),
        Group::Pass => pass_asked(rt, alloc, row(group, k)?, until),
        Group::Other => call_made(rt, alloc, CALLS.get(k)?.1, until),
    }
}
