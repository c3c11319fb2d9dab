//! The lines of a journal's file, one after the other.
ghost use Rattle.std.specs.Prelude.{◌≡◌, ℕ, List, Option, IfOk, OnErr, IsTrue, ◌↔◌, false};
ghost use Rattle.std.specs.Option.{option_map};
ghost use Rattle.mps_keeper.specs.Chains.{IsClosed, IsSpaced, IsTorn, Reads};
ghost use Rattle.mps_base.specs.Values.{IsShown};
ghost use Rattle.std.specs.List.{AllByRecursion};
ghost use Rattle.mps_keeper.specs.declared.chain.Chain.{Chain as ChainOf};

use crate::keeper::LONGEST_LINE;
use mps_seal::Seal;

/// A line doesn't end in the seal that it has to have.
#[derive(Clone, Copy, Debug, PartialEq, Eq)]
pub(crate) struct WrongSeal;

/// How far a file's lines were read: the seal of the newest, and whether the lines that follow have to have theirs.
#[derive(Clone, Copy, Debug)]
pub struct Chain {
    pub seal: Seal,
    pub is_sealed: bool,
}

// Whether each byte is one of those that lines have.
fn are_shown(bytes: &[u8]) -> bool
    ensures { IsTrue result ↔ AllByRecursion IsShown bytes.now }
{
    bytes.iter().all(|&byte| is_shown(byte))
}

// Whether the byte stands for a character that is shown.
fn is_shown(byte: u8) -> bool
    ensures { IsTrue result ↔ IsShown byte }
{
    (b' '..=b'~').contains(&byte)
}

// Whether the line begins with a space.
fn is_spaced(line: &[u8]) -> bool
    ensures { IsTrue result ↔ IsSpaced line.now }
{
    matches!(line, [b' ', ..])
}

impl Chain {
    // Before the first line, where this is the seal before it.
    pub(crate) fn new(seal: Seal) -> Chain
        ensures seal { result.seal ≡ seal }
        ensures unsealed { result.is_sealed ≡ false }
    {
        Chain {
            seal,
            is_sealed: false,
        }
    }

    // Whether the line ends in the seal that it has to have: its own, or that of the mark.
    fn is_closed(&self, line: &[u8]) -> bool
        ensures { IsTrue result ↔ IsClosed self.now line.now }
    {
        if self.is_sealed {
            self.seal.read(line).is_some()
        } else {
            self.seal.alone(line).is_some()
        }
    }

    // Whether the rest, which no LF ends, may be what a write left that broke off: a front of a line, which isn't one whose
    // LF was changed.
    pub(crate) fn is_torn(&self, rest: &[u8]) -> bool
        ensures { IsTrue result ↔ IsTorn self.now rest.now }
    {
        match rest.split_last() {
            Some((_, front)) => {
                rest.len() < LONGEST_LINE && are_shown(rest) && !self.is_closed(front)
            }
            None => true,
        }
    }

    // What the line says, or nothing where it is the mark. A line whose seal is wrong leaves all as it was.
    pub(crate) fn read<'l>(&mut self, line: &'l [u8]) -> Result<Option<&'l [u8]>, WrongSeal>
        ensures ok { IfOk result (λ body. Reads self.old line.now (option_map (λ b. b.now) body) self.new) }
        ensures err { OnErr result
            ((body : Option (List ℕ)) (after : ChainOf) → Reads self.old line.now body after → ⊥) }
    {
        if self.is_sealed {
            return match self.seal.read(line) {
                Some((body, seal)) => {
                    self.seal = seal;
                    Ok(Some(body))
                }
                None => Err(WrongSeal),
            };
        }
        if !is_spaced(line) {
            self.seal = self.seal.next(line);
            return Ok(Some(line));
        }
        match self.seal.alone(line) {
            Some(seal) => {
                self.seal = seal;
                self.is_sealed = true;
                Ok(None)
            }
            None => Err(WrongSeal),
        }
    }
}
