//! Protocols as text.
//!
//! `read_protocol` reads a text of at most 65,536 bytes as a `Protocol`, or names its first fault and the byte at which
//! it stands. `write_protocol` writes a protocol so that it is read again.
//!
//! ```
//! let protocol = read_protocol(alloc, b"roles a b ; a -> b : int . end")?;
//! let text = write_protocol(alloc, &protocol)?;
//! ```
#![tactic(auto)]

mod fault;
mod lexing;
mod reading;
mod writing;

pub use fault::{TextFault, TextKind};
pub use reading::{
    MAX_TEXT_BYTES, first_tokens, one_fault, one_protocol, protocol_or_fault, read_protocol,
};
pub use writing::{write_protocol, written_reads};
