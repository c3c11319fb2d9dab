//! A server's sessions, which connections share: each connection has the one pass that it joined with.
//!
//! `Hub` has a cell for each session, `Desk` the passes that are not in use, and `serve_recorded` accepts connections
//! and attends to each in a thread of its own; `serve` does so without journals.
//!
//! ```
//! let mut hub = Hub::open(alloc, &roles, &types, sessions)?;
//! let desk = hub.desk(alloc)?;
//! let served = serve(rt, alloc, &listener, &desk, connections)?;
//! ```
#![tactic(auto)]

pub mod attending;
mod bells;
pub mod desk;
pub mod door;
pub mod first;
pub mod hosting;
pub mod laws;
mod limits;
mod lobby;
pub(crate) mod lock;
pub mod lookout;
mod overhearing;
mod patience;
pub mod register;
pub mod server;
pub mod sessions;
pub mod shares;
pub mod sharing;
pub mod waiting;

pub use attending::{Attended, NoUsher, PassGuest, Serving, Usher};
pub use desk::{Desk, JoinFault};
pub use door::{Arrival, Coming, Door, MAX_OPEN, Street, Waker};
pub use hosting::{Host, Hosting, NotOpened, OpenSession, host_all};
pub use limits::Limits;
pub use lookout::Lookout;
pub use mps_keeper::{Gate, RestoredRoom, Unguarded};
pub use overhearing::Watcher;
pub use patience::FIRST_LINE;
pub use register::{Queue, Register};
pub use server::{ServeFault, Served, first_lost, serve, serve_door, serve_recorded, serve_with};
pub use sessions::{Hub, HubDeal};
pub use shares::Shares;
pub use sharing::Sharing;
pub use waiting::Waits;
