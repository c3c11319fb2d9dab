//! What holds of conversations of passes.
ghost use Rattle.mps_wire.specs.Fidelity.{MeetsNoMismatch};

use crate::attending::PassGuest;
use mps_cell::Held;
use mps_dev::Sink;
use mps_keeper::{Disk, Gate};
use mps_room::Caller;
use std::sync::Wait;
use std::time::Clock;

/// No call of a pass is answered `Mismatch`, in a connection or without one, where the opening types of its cell are
/// those of one protocol without faults. So no line that answers its conversation is `refused mismatch`: the law
/// `no_conversation_meets_a_mismatch` of mps_wire.
pub fn a_pass_meets_no_mismatch<
    H: Wait + Clock + Eprint + 'static,
    G: Gate + 'static,
    S: Sink + 'static,
    D: Disk + 'static,
>()
    ensures alone { MeetsNoMismatch ⟦<Held<'static, 'static, H> as Caller>⟧ (λ h. h.pass.opening.types) }
    ensures connected { MeetsNoMismatch ⟦<PassGuest<'static, 'static, 'static, 'static, G, H, S, D> as Caller>⟧
        (λ g. g.inner.inner.pass.opening.types) }
{}
