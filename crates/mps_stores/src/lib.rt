//! The names that each role's steps bind, each with the key of the step that bound it last: the slots of its receipts,
//! or the names of its marks.
//!
//! The main type is `Stores`. A step that binds a name again remembers which one did before, so it can be undone.
//!
//! ```
//! let older = stores.bind(role, &name, arena.reserve_one()?)?;
//! stores.unbind(role, &name, older);
//! ```
#![tactic(auto)]

mod laws;
mod store;
mod stores;

pub use laws::{
    bindings_are_steps, bindings_come_back, idle_steps_may_go, idle_steps_may_join,
    marks_leave_stores,
};
pub use stores::Stores;
