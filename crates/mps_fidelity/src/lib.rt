//! Session fidelity: in a session of one protocol each message that waits is one that its receiver expects.
//!
//! Definitions and laws; there is no code here. The main definition is `AreOfOneProtocol`, which says that types are
//! the projections of one protocol without faults. The main law is `sessions_are_faithful`: after any commands, undos
//! and rollbacks among them, the first message in each queue is one that its receiver's type allows.
#![tactic(auto)]

pub mod examples;
pub mod laws;
