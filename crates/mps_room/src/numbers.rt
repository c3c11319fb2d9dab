//! Numbers of commands, by which a caller that lost an answer asks again.
ghost use Rattle.std.specs.Prelude.{◌≡◌, Some, None, IfOk, All, length};
ghost use Rattle.std.specs.Option.{option_map};
ghost use Rattle.mps_room.specs.Numbers.{last_of, kept_of, IsPosition};

use mps_command::{Answer, Refusal};
use std::alloc::{AllocError, Global};

/// What came of a command with a number.
#[derive(Clone, Copy, Debug, PartialEq, Eq)]
pub enum Told {
    /// It had the next number, and was called and accepted. Its answer is kept.
    Fresh,
    /// It had the last number, so nothing was called. The answer that is kept is that number's, whatever the command asks for.
    Kept,
    /// It had any other number, so nothing was called.
    Wrong,
    /// It had the next number, and was called and refused. The number may come again.
    Refused(Refusal),
}

/// Where a number stands.
#[derive(Clone, Copy, Debug, PartialEq, Eq)]
pub enum Position {
    /// It is that of the newest numbered command that was accepted.
    Last,
    /// It is the one after that.
    Next,
    /// It is neither.
    Elsewhere,
}

impl Position {
    /// Where a number stands, by the number of the newest accepted command, 0 where none was: `Next` is `last` + 1,
    /// `Last` is `last` itself unless it is 0. At 2^64 - 1 there is no next.
    pub fn of(last: u64, number: u64) -> Position
        ensures { IsPosition last number result }
    {
        if number == last && number != 0 {
            return Position::Last;
        }
        if number.checked_sub(1) == Some(last) {
            return Position::Next;
        }
        Position::Elsewhere
    }
}

/// A numbered command that was accepted: its number, and its answer.
#[derive(Debug, Drop)]
pub struct Numbered {
    pub number: u64,
    pub answer: Answer,
}

/// The newest of a caller's numbered commands that were accepted.
#[derive(Debug, Drop)]
pub struct Numbers {
    pub newest: Option<Numbered>,
}

impl Numbers {
    /// The state of a caller without an accepted numbered command: the last number is 0, and no answer is kept.
    pub fn new() -> Numbers
        ensures { result.newest ≡ None }
    {
        Numbers { newest: None }
    }

    /// `Numbers::new` for so many callers, in one list. It fails only when out of memory.
    pub fn of_each(alloc: Global, callers: usize) -> Result<Vec<Numbers>, AllocError>
        ensures count { IfOk result (λ each. length each.items ≡ callers) }
        ensures none { IfOk result (λ each. All (λ n. n.newest ≡ None) each.items) }
    {
        let mut each = Vec::with_capacity(alloc, callers)?;
        for _ in 0..callers {
            each.push_reserved(Numbers::new());
        }
        Ok(each)
    }

    /// The number of the newest accepted numbered command, 0 before the first: by it `Position::of` judges the next
    /// one.
    pub fn last(&self) -> u64
        ensures { result ≡ last_of self.now.newest }
    {
        match &self.newest {
            Some(newest) => newest.number,
            None => 0,
        }
    }

    /// The answer to the newest accepted numbered command, borrowed; `None` before the first.
    pub fn kept(&self) -> Option<&Answer>
        ensures { option_map (λ a. a.now) result ≡ kept_of self.now.newest }
    {
        match &self.newest {
            Some(newest) => Some(&newest.answer),
            None => None,
        }
    }

    /// Stores the answer under its number, and drops the one before it: one is enough, since only the last number may
    /// come again.
    #[inline(always)]
    pub fn keep(&mut self, number: u64, answer: Answer)
        ensures { self.new.newest ≡ Some (record { number = number; answer = answer }) }
    {
        self.newest = Some(Numbered { number, answer });
    }
}
