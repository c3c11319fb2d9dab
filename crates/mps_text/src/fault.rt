//! What is wrong with a text.

use thiserror::Error;

/// The kind of a fault.
#[derive(Clone, Copy, Debug, PartialEq, Eq, Error)]
pub enum TextKind {
    #[error("the text has more than 65536 bytes")]
    TooLong,
    #[error("no token begins here, or the word is malformed")]
    Word,
    #[error("this token, or the end of the text, may not stand here")]
    Unexpected,
    #[error("the protocol has more than 256 nodes")]
    TooManyNodes,
    #[error("the protocol is more than 64 nodes deep")]
    TooDeep,
    #[error("the text goes on after the protocol")]
    Trailing,
    #[error("out of memory")]
    Memory,
}

/// The first fault of a text, and the byte at which it begins.
#[derive(Clone, Copy, Debug, PartialEq, Eq, Error)]
#[error("at byte {at}: {kind}")]
pub struct TextFault {
    pub at: usize,
    pub kind: TextKind,
}
