//! The surviving steps of a session as nodes with links: an ordered list in which each neighbour is found at once.
//!
//! The main type is `Arena`. A step joins at the end, and leaves from anywhere once no later step of its role
//! stands and its message wasn't received. Each look-up reads one link.
//!
//! ```
//! let key = arena.reserve_one()?;
//! let id = arena.add(role, act, Before { at, bound: None }, source);
//! let step = arena.remove(key);
//! ```
#![tactic(auto)]

mod arena;
mod ends;
mod laws;
mod links;
mod node;

pub use arena::Arena;
pub use laws::steps_are_sound;
pub use mps_base::Step;
pub use node::{Before, Key, Link};
