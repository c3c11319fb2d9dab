//! One line.
use bytes::Bytes;

/// What a line is reported as, without the LF that ended it.
#[derive(Debug, PartialEq, Eq, Drop)]
pub enum Line {
    /// The bytes of a line: at most `MAX_LINE`, each below 128. They share the block in which they
    /// came, which is given back when no line and no `Lines` has a part of it.
    Text(Bytes),
    /// More than `MAX_LINE` bytes.
    TooLong,
    /// At most `MAX_LINE` bytes, and one of them is 128 or more.
    NotAscii,
}
