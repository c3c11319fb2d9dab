//! mps_room and mps_wire, as a user calls them: a room's commands, and a role's conversation.
ghost use Rattle.std.specs.Prelude.{◌≡◌, length, IfOk};
ghost use Rattle.mps_machine.specs.Machine.{initial};

use crate::sessions::RELAY;
use mps_base::{Role, Roles, StepId};
use mps_command::{Answer, Command, Refusal};
use mps_dev::{Pieces, Short};
use mps_room::{Caller, Room, Solo, Told, call_numbered};
use mps_session::{Session, open_protocol};
use mps_text::read_protocol;
use mps_wire::{Ending, converse};
use std::alloc::Global;
use std::test::Fail;

// The roles of the relay, and a new session of it.
pub(crate) fn relay(alloc: Global) -> Result<(Roles, Session), Fail>
    ensures new { IfOk result (λ r. r.1.state ≡ initial) }
    ensures names { IfOk result (λ r. length r.0 ≡ 3) }
    ensures types { IfOk result (λ r. length r.1.types ≡ 3) }
{
    let protocol = read_protocol(alloc, RELAY)?;
    let session = open_protocol(alloc, &protocol)?;
    let names = Roles::of(alloc, protocol.roles.as_slice())?;
    if names.count() != 3 || session.roles() != 3 {
        return Err("three roles".into());
    }
    Ok((names, session))
}

// mps_room: `Room::open`, `apply` and `news`, `Solo::new` and `call_numbered`: the calls that its README shows. No step
// has the number 1 or 2, and nothing is in the journal yet.
#[test]
fn the_calls_that_mps_room_shows_are_answered(rt: HostRuntime) -> Result<(), Fail> {
    let alloc = rt.alloc();
    let (names, session) = relay(alloc)?;
    let (a, b) = (Role::new(0), Role::new(1));
    let mut room = Room::open(alloc, names, session);
    let answer = room.apply(a, Command::Undo(StepId::new(1)));
    assert!(rt;
        matches!(answer, Answer::Refused(Refusal::NoStep)),
        "the undo of 1 finds no step"
    );
    let (length, ids) = room.news(b, 0)?;
    assert_eq!(rt; length, 0, "the count of entries in the news");
    assert!(rt; ids.as_slice().is_empty(), "no step was taken back");
    let mut caller = Solo::new(room, a);
    let told = call_numbered(&mut caller, 1, Command::Undo(StepId::new(2)));
    assert!(rt;
        matches!(told, Told::Refused(Refusal::NoStep)),
        "the numbered undo of 2 finds no step"
    );
    Ok(())
}

// mps_wire: `converse` runs a line of a role, and writes its answer, as the tour shows.
#[test]
fn a_conversation_of_the_tour_is_answered(rt: HostRuntime) -> Result<(), Fail> {
    let alloc = rt.alloc();
    let (names, session) = relay(alloc)?;
    let a = Role::new(0);
    let mut reader = Pieces::new(
        vec![in alloc; Vec::from_slice(alloc, b"send b 5\n")?]?,
        None,
    );
    let mut writer = Short::new(alloc, 99)?;
    let mut caller = Solo::new(Room::open(alloc, names, session), a);
    let ending = converse(alloc, &mut caller, &mut reader, &mut writer);
    assert!(rt; ending == Ending::Closed, "the end of what is said");
    assert_eq!(rt;
        writer.bytes(),
        b"done 1\n".as_slice(),
        "the answer to the send"
    );
    Ok(())
}
