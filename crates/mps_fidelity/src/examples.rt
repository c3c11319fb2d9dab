//! Worked protocols and sessions, which show that the definitions say what they mean, and that
//! types have to be those of one protocol.
ghost use Rattle.std.specs.Prelude.{◌≡◌, None};
ghost use Rattle.mps_local.specs.Examples.{three, relay, loops, rounds};
ghost use Rattle.mps_local.specs.Projection.{projection};
ghost use Rattle.mps_local.specs.declared.merging.Merging.TheVariants.{Plain, Full};
ghost use Rattle.mps_machine.specs.Examples.{a, b, c, verdict};
ghost use Rattle.mps_fidelity.specs.Examples.{DoInIt, loop_types, merging, merging_types, aside, aside_types, unmerged};
ghost use Rattle.mps_fidelity.specs.Examples.{heard_late, heard_late_types, told_apart, told_apart_types};
ghost use Rattle.mps_fidelity.specs.Examples.{first_branch_types, round_types};
ghost use Rattle.mps_fidelity.specs.Examples.{AnotherAnswerIsGiven, RoundsGoOn, EitherBranchIsTaken, TypesHaveToFit};
ghost use Rattle.mps_fidelity.specs.Examples.{ThreeLeaveTogether, AnotherBranchIsTaken, SortsHaveToAgree, BranchesHaveToAgree, LabelsHaveToUnite};
ghost use Rattle.mps_fidelity.specs.Examples.{OneHasToReceiveFirst};

/// What three roles do in protocols without faults, and what they are answered there, as worked out by hand: tests of
/// the definitions, checked by the prover.
pub fn worked_protocols()
    ensures relay { DoInIt Plain relay verdict }
    ensures loop_in_a_loop { DoInIt Plain loops loop_types }
    ensures choice_in_a_loop { DoInIt Plain merging merging_types }
    ensures idle_loop { DoInIt Plain aside aside_types }
    ensures loop_of_three { DoInIt Full rounds round_types }
    ensures heard_late { DoInIt Full heard_late heard_late_types }
    ensures told_apart { DoInIt Full told_apart told_apart_types }
    ensures another_answer_is_given { AnotherAnswerIsGiven }
    ensures rounds_go_on { RoundsGoOn }
    ensures either_branch_is_taken { EitherBranchIsTaken }
    ensures three_leave_together { ThreeLeaveTogether }
    ensures another_branch_is_taken { AnotherBranchIsTaken }
{}

/// Counterexamples: where types aren't the projections of one protocol, a message that isn't expected may wait, or
/// messages in both directions. So the laws need their premise that types fit each other, and that branches are
/// compared.
pub fn premises_are_needed()
    ensures types_have_to_fit { TypesHaveToFit }
    ensures sorts_have_to_agree { SortsHaveToAgree }
    ensures no_type_without_comparing { projection Plain three c unmerged ≡ None }
    ensures no_type_with_labels { projection Full three c unmerged ≡ None }
    ensures branches_have_to_agree { BranchesHaveToAgree }
    ensures labels_have_to_unite { LabelsHaveToUnite }
    ensures one_has_to_receive_first { OneHasToReceiveFirst }
{}
