//! Worked sessions, which show that the definitions say what they mean.
ghost use Rattle.mps_machine.specs.Examples.{AnUndoWaitsForTheReceipt, ARollbackRemovesAllThatDepends};
ghost use Rattle.mps_machine.specs.Examples.{ARollbackLeavesWhatCameBefore, ARollbackLeavesTheStrangers};
ghost use Rattle.mps_machine.specs.Examples.{AReceiptUndoneTakesTheSameMessageAgain, AnUndoneSendIsGone};
ghost use Rattle.mps_machine.specs.Examples.{AReceiptIntoAUsedSlotIsUndone, TheLeastDependentIsNamedASend};
ghost use Rattle.mps_machine.specs.Examples.{TheLeastDependentIsNamedAReceipt, AReturnToAMarkLeavesTheMark};
ghost use Rattle.mps_machine.specs.Examples.{NumbersAreNeverUsedAgain, RefusalsAreNamed, TheFirstViolationIsTold};
ghost use Rattle.mps_machine.specs.Examples.{AChoiceIsMadeAndPicked, ALoopIsGoneRound};
ghost use Rattle.mps_machine.specs.Examples.{AMessageOfAnotherSortIsAMismatch, TheMessageWaitsAgain};
ghost use Rattle.mps_machine.specs.Examples.{TheSlotHasItsOldValue};
ghost use Rattle.mps_machine.specs.Examples.{AHundredThousandNumbersAreGivenOut, AMarkMayHaveTheLastNumber};
ghost use Rattle.mps_machine.specs.Examples.{AReturnIsToTheLastMarkOfTheName, AnotherRolesStepIsNotYours};
ghost use Rattle.mps_machine.specs.Examples.{AChoiceIsOfOnePeer, AnUnexpectedMessageIsAMismatch, ASlotKeepsItsPlace};
ghost use Rattle.mps_machine.specs.Examples.{ACommitStandsInTheWay, TheFirstReasonAgainstAnUndoIsTold};
ghost use Rattle.mps_machine.specs.Examples.{ACommitLeavesTheStrangers, WhatCameAfterACommitCanBeUndone};
ghost use Rattle.mps_machine.specs.Examples.{ACommitIsAllowedAtTheEnd, AnEmptyReturnIsNeverFinal};
ghost use Rattle.mps_machine.specs.Examples.{TheLeastCommitIsNamed, EitherRollbackMayComeFirst};
ghost use Rattle.mps_machine.specs.Examples.{ADetourLeavesNoTrace, StrangersMayChangePlaces};

/// What the machine answers in short sessions, as worked out by hand: tests of the definitions, checked by the prover.
pub fn worked_sessions()
    ensures an_undo_waits_for_the_receipt { AnUndoWaitsForTheReceipt }
    ensures a_rollback_removes_all_that_depends { ARollbackRemovesAllThatDepends }
    ensures a_rollback_leaves_what_came_before { ARollbackLeavesWhatCameBefore }
    ensures a_rollback_leaves_the_strangers { ARollbackLeavesTheStrangers }
    ensures a_receipt_undone_takes_the_same_message_again { AReceiptUndoneTakesTheSameMessageAgain }
    ensures an_undone_send_is_gone { AnUndoneSendIsGone }
    ensures a_receipt_into_a_used_slot_is_undone { AReceiptIntoAUsedSlotIsUndone }
    ensures the_least_dependent_is_named_a_send { TheLeastDependentIsNamedASend }
    ensures the_least_dependent_is_named_a_receipt { TheLeastDependentIsNamedAReceipt }
    ensures a_return_to_a_mark_leaves_the_mark { AReturnToAMarkLeavesTheMark }
    ensures numbers_are_never_used_again { NumbersAreNeverUsedAgain }
    ensures refusals_are_named { RefusalsAreNamed }
    ensures the_first_violation_is_told { TheFirstViolationIsTold }
    ensures a_choice_is_made_and_picked { AChoiceIsMadeAndPicked }
    ensures a_loop_is_gone_round { ALoopIsGoneRound }
    ensures a_message_of_another_sort_is_a_mismatch { AMessageOfAnotherSortIsAMismatch }
    ensures the_message_waits_again { TheMessageWaitsAgain }
    ensures the_slot_has_its_old_value { TheSlotHasItsOldValue }
    ensures a_hundred_thousand_numbers_are_given_out { AHundredThousandNumbersAreGivenOut }
    ensures a_mark_may_have_the_last_number { AMarkMayHaveTheLastNumber }
    ensures a_return_is_to_the_last_mark_of_the_name { AReturnIsToTheLastMarkOfTheName }
    ensures another_roles_step_is_not_yours { AnotherRolesStepIsNotYours }
    ensures a_choice_is_of_one_peer { AChoiceIsOfOnePeer }
    ensures an_unexpected_message_is_a_mismatch { AnUnexpectedMessageIsAMismatch }
    ensures a_slot_keeps_its_place { ASlotKeepsItsPlace }
    ensures a_commit_stands_in_the_way { ACommitStandsInTheWay }
    ensures the_first_reason_against_an_undo_is_told { TheFirstReasonAgainstAnUndoIsTold }
    ensures a_commit_leaves_the_strangers { ACommitLeavesTheStrangers }
    ensures what_came_after_a_commit_can_be_undone { WhatCameAfterACommitCanBeUndone }
    ensures a_commit_is_allowed_at_the_end { ACommitIsAllowedAtTheEnd }
    ensures an_empty_return_is_never_final { AnEmptyReturnIsNeverFinal }
    ensures the_least_commit_is_named { TheLeastCommitIsNamed }
    ensures either_rollback_may_come_first { EitherRollbackMayComeFirst }
    ensures a_detour_leaves_no_trace { ADetourLeavesNoTrace }
    ensures strangers_may_change_places { StrangersMayChangePlaces }
{}
