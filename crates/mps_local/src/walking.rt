//! The branches of a choice, one after the other.
ghost use Rattle.std.specs.Prelude.{◌≡◌};
ghost use Rattle.mps_local.specs.Local.{plain_branches};
ghost use Rattle.mps_local.specs.Arms.{arms_left};

use crate::{Branches, Local};
use mps_base::Name;

/// The branches that are still to come, each a label and what follows it.
#[derive(Clone, Copy)]
pub struct Arms<'a> {
    rest: &'a Branches,
}

impl Branches {
    /// An iterator over the branches in order, each a label and what follows it. It borrows the type, and does not
    /// allocate.
    pub fn iter(&self) -> Arms<'_>
        ensures { arms_left result ≡ plain_branches self.now }
    {
        Arms { rest: self }
    }
}

impl<'a> Iterator for Arms<'a> {
    ghost use Rattle.std.specs.Iterator.{at_most};
    ghost use Rattle.mps_local.specs.Arms.{arms_left, arm_count, GivesArm};

    type Item = (&'a Name, &'a Local);

    ghost next_gives = { GivesArm };

    ghost remaining = { λ s. at_most (arm_count (arms_left s)) };

    // The next branch as its label and what follows it, borrowed from the type, or `None` at the end. O(1).
    fn next(&mut self) -> Option<(&'a Name, &'a Local)> {
        match self.rest {
            Branches::NoMore => None,
            Branches::More {
                label,
                next,
                others,
            } => {
                self.rest = others;
                Some((label, next))
            }
        }
    }
}
