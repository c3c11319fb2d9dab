//! mps_session, as a user calls it: a session of a protocol or of types, in which a step is taken back.
use mps_base::{Role, Value};
use mps_command::Forward;
use mps_global::check;
use mps_local::project_all;
use mps_session::{Expect, Session, open_protocol};
use mps_text::read_protocol;
use std::test::Fail;

// a gives b an int, and b gives c one.
pub(crate) const RELAY: &[u8] = b"roles a b c ; a -> b : int . b -> c : int . end";

// mps_session: `open_protocol`, `Session::forward`, `undo` and `len`: a session of a protocol, as the tour opens it. A
// send and its undo leave no step.
#[test]
fn takes_a_step_back(rt: HostRuntime) -> Result<(), Fail> {
    let alloc = rt.alloc();
    let protocol = read_protocol(alloc, RELAY)?;
    let mut session = open_protocol(alloc, &protocol)?;
    if session.roles() != 3 {
        return Err("three roles".into());
    }
    let (a, b) = (Role::new(0), Role::new(1));
    let value = Value::Int(5);
    let done = session.forward(a, Forward::Send { to: b, value })?;
    session.undo(a, done.id)?;
    assert_eq!(rt; session.len(), 0, "no step is left");
    Ok(())
}

// mps_session: `Session::open`, `forward`, `expect` and `undo`: the calls that its README shows. After its one send a's
// type has ended, until that is undone.
#[test]
fn a_type_ends_after_its_only_send(rt: HostRuntime) -> Result<(), Fail> {
    let alloc = rt.alloc();
    let protocol = read_protocol(alloc, RELAY)?;
    check(&protocol)?;
    let types = project_all(alloc, &protocol)?;
    let mut session = Session::open(alloc, types)?;
    if session.roles() != 3 {
        return Err("three roles".into());
    }
    let (a, b) = (Role::new(0), Role::new(1));
    let value = Value::Int(5);
    let done = session.forward(a, Forward::Send { to: b, value })?;
    let next = session.expect(a);
    assert!(rt; matches!(next, Expect::End), "a's type has ended");
    session.undo(a, done.id)?;
    Ok(())
}
