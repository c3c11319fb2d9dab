//! What a server does, told line by line and counted, for whoever looks after it.
//!
//! ```
//! let watch = Watch::new(alloc, Some(Detail::Events))?;
//! let mut answers = Ear::new(rt, &watch, watch.came(), Side::Answers);
//! answers.hear(b"joined 1 a\n");
//! watch.counts.write(alloc, false, &mut text)?; // for Prometheus
//! ```
#![tactic(auto)]

pub mod counts;
pub mod ear;
pub mod laws;
pub mod metrics;
pub mod times;
pub mod values;
pub mod watch;

pub use counts::{Answers, Count, Counts, Tally};
pub use ear::{Ear, Side};
pub use times::Times;
pub use values::value;
pub use watch::{Detail, Ended, Health, Watch};
