//! What the tests of mps_wire share: what comes over a stream piece by piece, and what answers it.
use mps_lines::MAX_LINE;
use std::alloc::Global;
use std::test::Fail;

// From which read on reads fail, if they do, and how many bytes of answers are taken.
#[derive(Clone, Copy)]
pub(crate) struct Way {
    pub fails_from: Option<u64>,
    pub room: usize,
}

// Reads that do not fail, and so much room.
pub(crate) fn room(room: usize) -> Way {
    Way {
        fails_from: None,
        room,
    }
}

// Reads that fail from this one on, and room for a thousand bytes.
pub(crate) fn fails_from(read: usize) -> Way {
    Way {
        fails_from: Some(read as u64),
        room: 1_000,
    }
}

// A piece for each text.
pub(crate) fn in_pieces(alloc: Global, texts: &[&str]) -> Result<Vec<Vec<u8>>, Fail> {
    let mut pieces = Vec::new(alloc);
    for text in texts {
        pieces.push(Vec::from_slice(alloc, text.as_bytes())?)?;
    }
    Ok(pieces)
}

// The text in one piece.
pub(crate) fn in_one_piece(alloc: Global, text: &str) -> Result<Vec<Vec<u8>>, Fail> {
    in_pieces(alloc, &[text])
}

// The text in two pieces, of which the first has so many bytes.
pub(crate) fn in_two_pieces(alloc: Global, text: &str, at: usize) -> Result<Vec<Vec<u8>>, Fail> {
    let (front, rest) = text.split_at_checked(at).ok_or("a place")?;
    in_pieces(alloc, &[front, rest])
}

// The text in pieces of one byte.
pub(crate) fn in_single_bytes(alloc: Global, text: &str) -> Result<Vec<Vec<u8>>, Fail> {
    let mut pieces = Vec::new(alloc);
    for byte in text.as_bytes() {
        pieces.push(vec![in alloc; *byte]?)?;
    }
    Ok(pieces)
}

// The line and an LF after what is there.
pub(crate) fn add_line(text: &mut Vec<u8>, line: &str) -> Result<(), Fail> {
    text.extend_from_slice(line.as_bytes())?;
    Ok(text.push(b'\n')?)
}

// The answers to the lines whose LF is among the first so many bytes.
pub(crate) fn told_by(alloc: Global, rows: &[(&str, &str)], at: usize) -> Result<Vec<u8>, Fail> {
    let mut told = Vec::new(alloc);
    let mut left = at;
    for (line, want) in rows {
        if left <= line.len() {
            return Ok(told);
        }
        add_line(&mut told, want)?;
        left -= line.len() + 1;
    }
    Ok(told)
}

// A line of so many bytes that is no command, and the line after it, cut after 512 bytes.
pub(crate) fn cut_long_line(
    alloc: Global,
    length: usize,
    line: &str,
) -> Result<Vec<Vec<u8>>, Fail> {
    let mut rest = vec![in alloc; b'a'; length.saturating_sub(MAX_LINE)]?;
    rest.push(b'\n')?;
    add_line(&mut rest, line)?;
    Ok(vec![in alloc; vec![in alloc; b'a'; MAX_LINE]?, rest]?)
}

// So many pieces, each of one byte, an LF.
pub(crate) fn empty_lines(alloc: Global, count: usize) -> Result<Vec<Vec<u8>>, Fail> {
    let mut pieces = Vec::new(alloc);
    for _ in 0..count {
        pieces.push(vec![in alloc; b'\n']?)?;
    }
    Ok(pieces)
}

// The answers to so many lines that are no commands.
pub(crate) fn refused_lines(alloc: Global, count: usize) -> Result<Vec<u8>, Fail> {
    let mut text = Vec::new(alloc);
    for _ in 0..count {
        text.extend_from_slice(b"refused line\n")?;
    }
    Ok(text)
}
