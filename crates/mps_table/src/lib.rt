//! Local types as flat tables of nodes, in which recursion is a step back.
//!
//! The main type is `Table`, with a `Node` for each action and each end of a type. `Expect` is what a role may do at a
//! node.
//!
//! ```
//! let table = compile(alloc, &local)?;
//! if let Expect::Select(_, labels) = table.expect(table.first()) {
//!     // the first of `labels` leads to `table.after(table.first(), Some(0))`
//! }
//! ```
#![tactic(auto)]

pub mod compiling;
pub mod expect;
pub mod laws;
mod laying;
mod row;
pub mod table;

pub use compiling::compile;
pub use expect::{Expect, Node};
pub use laws::nodes_lead;
pub use mps_local::LocalFault;
pub use table::Table;
