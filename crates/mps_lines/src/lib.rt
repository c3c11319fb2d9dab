//! Lines from bytes that come in pieces.
//!
//! The main type is `Lines`: it is fed pieces of any length, and gives each line once, in order, the same lines
//! whatever the pieces. Of a line over 512 bytes it keeps no more than 513.
//!
//! ```
//! let mut lines = Lines::new(alloc);
//! lines.feed(b"a send b 5\nb re")?;
//! let first = lines.next_line()?; // Some(Line::Text("a send b 5"))
//! let none = lines.next_line()?;
//! ```
#![tactic(auto)]

pub mod laws;
pub mod line;
pub mod lines;
pub mod split;

pub use line::Line;
pub use lines::Lines;
pub use split::{MAX_LINE, MOST_KEPT, keep, line_end};
