//! Worked replies, which show that the definitions say what they mean.
ghost use Rattle.mps_wire.specs.Examples.{ANumberIsAnsweredOnce, ANumberHasOneReply};

use mps_room::examples::worked_journals;

/// What a conversation replies to numbered commands, as worked out by hand: tests of the definitions, checked by the
/// prover.
pub fn worked_replies()
    ensures a_number_is_answered_once { ANumberIsAnsweredOnce }
    ensures a_number_has_one_reply { ANumberHasOneReply }
{
    // for the proof alone
    worked_journals();
}
