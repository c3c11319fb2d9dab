//! Which runs of undos alone and of steps alone come to the same as a run of any commands.
ghost use Rattle.std.specs.Prelude.{List};
ghost use Rattle.mps_local.specs.Local.{LocalType};
ghost use Rattle.mps_machine.specs.Machine.{initial, Request, after};
ghost use Rattle.mps_machine.specs.Runs.{survivors, LeadsForward, LeadsBackAndForth};

/// A law: wherever any commands lead, undos and rollbacks among them, steps alone lead too, numbers aside: as many as
/// survive. From any state that commands lead to, undos and then steps do (the parabolic lemma of Danos, Krivine,
/// CONCUR 2004).
pub fn undos_then_steps_suffice()
    ensures from_the_start { (types : List LocalType) (requests : List Request)
        → LeadsForward types (survivors types requests) }
    ensures from_anywhere { (types : List LocalType) (before requests : List Request)
        → let from = after types initial before in LeadsBackAndForth types from (after types from requests) }
{}
