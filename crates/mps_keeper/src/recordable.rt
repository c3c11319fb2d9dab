//! Callers whose commands can be recorded.
ghost use Rattle.std.specs.Prelude.{length};

use crate::recorder::Recordable;
use mps_base::Role;
use mps_cell::Held;
use mps_room::Solo;
use std::sync::Wait;

impl Recordable for Solo {
    ghost seen = { λ s. length s.room.journal };

    fn own_role(&self) -> Role {
        self.role
    }

    fn seen(&self) -> u64 {
        self.room.entries()
    }
}

impl<'r, 'a, R: Wait> Recordable for Held<'r, 'a, R> {
    ghost seen = { λ h. length h.pass.seen };

    fn own_role(&self) -> Role {
        self.pass.role()
    }

    fn seen(&self) -> u64 {
        self.pass.seen()
    }
}
