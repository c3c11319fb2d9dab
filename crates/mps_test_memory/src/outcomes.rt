//! How far a run goes, and what it comes to.

/// How far a run goes.
#[derive(Clone, Copy, PartialEq, Eq)]
pub enum Until {
    /// To the call.
    Before,
    /// To the end of the call.
    After,
    /// To the end.
    Over,
}

/// What a run comes to.
#[derive(Clone, Copy, PartialEq, Eq)]
pub enum Outcome {
    /// It went as far as it was to.
    Reached,
    /// The call was answered as with ample memory.
    Answered,
    /// The answer was that memory ran out. Nothing had changed, and the next call was answered as with ample memory.
    Memory,
    /// The answer was another one, or something had changed.
    Other,
}

/// What a call by itself comes to.
#[derive(Clone, Copy, PartialEq, Eq)]
pub enum Came {
    /// To the answer with ample memory.
    Wanted,
    /// To the answer that memory ran out.
    Memory,
    /// To another one.
    Other,
}

/// What a call comes to that is answered as with ample memory, or isn't.
pub fn came_to(is_wanted: bool) -> Came {
    if is_wanted { Came::Wanted } else { Came::Other }
}

/// How far a run goes, by its word.
const UNTILS: &[(&str, Until)] = &[
    ("before", Until::Before),
    ("after", Until::After),
    ("whole", Until::Over),
];

/// How far a run of that word goes.
pub fn until_named(word: &[u8]) -> Option<Until> {
    for (name, until) in UNTILS {
        if name.as_bytes() == word {
            return Some(*until);
        }
    }
    None
}

/// What it comes to where the answer is, or isn't, that of ample memory.
pub fn answered(is_wanted: bool) -> Option<Outcome> {
    Some(if is_wanted {
        Outcome::Answered
    } else {
        Outcome::Other
    })
}

/// What it comes to after an answer that memory ran out, where the state and the next answer are, or aren't, what they
/// have to be.
pub fn refused(is_wanted: bool) -> Option<Outcome> {
    Some(if is_wanted {
        Outcome::Memory
    } else {
        Outcome::Other
    })
}
