//! What depends on a step of an arena, found from link to link.
//!
//! `least_dependent` names the least step that depends on a step. `mark_from` marks a step and all that depend on it,
//! `newest_marked` gives them one by one, so that they can be removed, the newest first, and `least_final` names the
//! least commit among them.
//!
//! ```
//! let count = mark_from(arena, id);
//! let newest = newest_marked(arena);
//! unmark(arena);
//! ```
#![tactic(auto)]

mod dependent;
mod finals;
mod laws;
mod marking;
mod order;
mod pending;

pub use dependent::least_dependent;
pub use finals::least_final;
pub use laws::{marked_steps_go, marks_stay_closed};
pub use marking::{mark_from, newest_marked, unmark};
