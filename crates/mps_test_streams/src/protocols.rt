//! What the tests of this crate share: new sessions of protocols, and their opening types.
ghost use Rattle.std.specs.Prelude.{◌≡◌, length, IfOk};
ghost use Rattle.mps_machine.specs.Machine.{initial};

use mps_base::{Name, Roles};
use mps_global::check;
use mps_local::{Local, project_all};
use mps_session::Session;
use mps_text::read_protocol;
use std::alloc::Global;
use std::test::Fail;

// a gives b an int, and then b gives c one.
pub(crate) const RELAY: &str = "roles a b c ; a -> b : int . b -> c : int . end";

// a gives b an int, b gives c an int, and c tells a `ok` or `no`.
pub(crate) const VERDICT: &str =
    "roles a b c ; a -> b : int . b -> c : int . c -> a { ok : end , no : end }";

// The type of each role of the protocol.
pub(crate) fn types(alloc: Global, protocol: &str) -> Result<Vec<Local>, Fail> {
    let protocol = read_protocol(alloc, protocol.as_bytes())?;
    check(&protocol)?;
    Ok(project_all(alloc, &protocol)?)
}

// The name of these letters.
pub(crate) fn name(text: &str) -> Result<Name, Fail> {
    Ok(Name::read(text.as_bytes()).ok_or("a name")?)
}

// So many names: a, b and so on.
pub(crate) fn names(alloc: Global, count: usize) -> Result<Roles, Fail>
    ensures { IfOk result (λ names. length names ≡ count) }
{
    let mut names = Vec::new(alloc);
    for text in ["a", "b", "c", "d"] {
        names.push(name(text)?)?;
    }
    let roles = Roles::of(alloc, names.as_slice().get(..count).ok_or("few names")?)?;
    if roles.count() == count {
        Ok(roles)
    } else {
        Err("as many names".into())
    }
}

// A new session of the protocol, and the names of its roles.
pub(crate) fn opened(alloc: Global, protocol: &str) -> Result<(Roles, Session), Fail>
    ensures new { IfOk result (λ r. r.1.state ≡ initial) }
    ensures named { IfOk result (λ r. length r.0 ≡ length r.1.types) }
{
    let session = Session::open(alloc, types(alloc, protocol)?)?;
    let names = names(alloc, session.roles())?;
    Ok((names, session))
}
