//! What the tests of this crate share: protocols, commands and answers as text.
ghost use Rattle.std.specs.Prelude.{◌≡◌, length, IfOk};
ghost use Rattle.mps_machine.specs.Machine.{initial};

use mps_base::{Role, Roles};
use mps_command::{Answer, Command};
use mps_line::{append_answer, read_script_line};
use mps_room::Room;
use mps_session::{Session, open_protocol};
use mps_text::read_protocol;
use std::alloc::Global;
use std::test::Fail;

// a gives b an int, b gives c an int, and c tells a `ok` or `no`.
pub(crate) const VERDICT: &str =
    "roles a b c ; a -> b : int . b -> c : int . c -> a { ok : end , no : end }";

// a gives b an int, and c gives d one.
pub(crate) const TWO_PAIRS: &str = "roles a b c d ; a -> b : int . c -> d : int . end";

// A new session of the protocol, and the names of its roles.
pub(crate) fn opened(alloc: Global, protocol: &str) -> Result<(Roles, Session), Fail>
    ensures new { IfOk result (λ r. r.1.state ≡ initial) }
    ensures named { IfOk result (λ r. length r.0 ≡ length r.1.types) }
{
    let protocol = read_protocol(alloc, protocol.as_bytes())?;
    let names = Roles::of(alloc, protocol.roles.as_slice())?;
    let session = open_protocol(alloc, &protocol)?;
    if names.count() == session.roles() {
        Ok((names, session))
    } else {
        Err("a name for each role".into())
    }
}

// A new room of the protocol.
pub(crate) fn room(alloc: Global, protocol: &str) -> Result<Room, Fail> {
    let (names, session) = opened(alloc, protocol)?;
    Ok(Room::open(alloc, names, session))
}

// The role of a script's line, and its command.
pub(crate) fn asked(alloc: Global, names: &Roles, line: &str) -> Result<(Role, Command), Fail> {
    Ok(read_script_line(alloc, names, line.as_bytes())?)
}

// The answer as its line.
pub(crate) fn told(alloc: Global, answer: &Answer) -> Result<String, Fail> {
    let mut text = Vec::new(alloc);
    append_answer(answer, &mut text)?;
    Ok(String::from_utf8(text)?)
}
