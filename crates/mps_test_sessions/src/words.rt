//! What the tests of this crate share: names, variables, values and branches, as they are spelled.

use mps_base::{Name, Value, VarName};
use mps_local::{Branches, Local};
use std::alloc::AllocGlobal;
use std::process::Abort;

// The name of these letters.
pub(crate) fn name(rt: &impl Abort, letters: &str) -> Name {
    Name::read(letters.as_bytes()).expect(rt, "a name")
}

// The variable of these letters.
pub(crate) fn variable(rt: &impl Abort, letters: &str) -> VarName {
    VarName::read(letters.as_bytes()).expect(rt, "a variable")
}

// The value that is spelled so.
pub(crate) fn value(rt: &(impl Abort + AllocGlobal), text: &str) -> Value {
    Value::read(rt.alloc(), text.as_bytes()).expect(rt, "a value")
}

// The branch of the label in front of the others.
pub(crate) fn more(
    rt: &(impl Abort + AllocGlobal),
    label: &str,
    next: Local,
    others: Branches,
) -> Branches {
    Branches::more(rt.alloc(), name(rt, label), next, others).expect(rt, "memory")
}
