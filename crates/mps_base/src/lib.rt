//! Names, roles, sorts, values, messages and steps of a multiparty session.
//!
//! `Roles` are the 2 to 8 names of a session, and a `Role` is a place among them. A `Value` is an int, a truth value
//! or a `Text`; a `Step` is a number, a role and an `Act`. Each has one spelling, which is read and written here.
//!
//! ```
//! let name = Name::read(b"alice");
//! let value = Value::read(alloc, b"\"good day\"")?;
//! ```
#![tactic(auto)]

pub mod action;
mod inline;
pub mod name;
pub mod number;
pub mod roles;
pub mod spacing;
pub mod spelling;
pub mod value;
pub mod variable;

pub use action::{Act, Message, Role, Step, StepId};
pub use name::Name;
pub use number::{read_number, write_number};
pub use roles::{MAX_ROLES, MIN_ROLES, RoleFault, Roles};
pub use spacing::push_token;
pub use spelling::ValueFault;
pub use value::{Sort, Text, Value};
pub use variable::VarName;
