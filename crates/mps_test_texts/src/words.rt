//! What the tests of this crate share: names, variables and lists of roles, of letters.

use mps_base::{Name, Roles, VarName};
use std::alloc::AllocGlobal;
use std::process::Abort;

// The name of these letters.
pub(crate) fn name(rt: &impl Abort, letters: &str) -> Name {
    Name::read(letters.as_bytes()).expect(rt, "a name")
}

// The variable of these letters.
pub(crate) fn variable(rt: &impl Abort, letters: &str) -> VarName {
    VarName::read(letters.as_bytes()).expect(rt, "a variable")
}

// The roles a and b.
pub(crate) fn two_roles(rt: &(impl Abort + AllocGlobal)) -> Roles {
    Roles::of(rt.alloc(), &[name(rt, "a"), name(rt, "b")]).expect(rt, "roles")
}

// The roles a, b and c.
pub(crate) fn three_roles(rt: &(impl Abort + AllocGlobal)) -> Roles {
    let names = [name(rt, "a"), name(rt, "b"), name(rt, "c")];
    Roles::of(rt.alloc(), &names).expect(rt, "roles")
}
