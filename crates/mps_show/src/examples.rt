//! Worked states, which show that the definitions say what they mean.
ghost use Rattle.mps_show.specs.Examples.{AMessageThatWaitsIsShown, AReceivedMessageIsShown, ALabelThatWaitsIsShown};
ghost use Rattle.mps_show.specs.Examples.{ARoleIsToldHowItStands, ARoleWithoutStepsIsTold};

/// What is shown of short sessions, as texts that were written out by hand: tests of the definitions, checked by the
/// prover.
pub fn worked_states()
    ensures a_message_that_waits_is_shown { AMessageThatWaitsIsShown }
    ensures a_received_message_is_shown { AReceivedMessageIsShown }
    ensures a_label_that_waits_is_shown { ALabelThatWaitsIsShown }
    ensures a_role_is_told_how_it_stands { ARoleIsToldHowItStands }
    ensures a_role_without_steps_is_told { ARoleWithoutStepsIsTold }
{}
