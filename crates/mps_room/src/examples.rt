//! Worked journals, which show that the definitions say what they mean.
ghost use Rattle.mps_room.specs.Examples.{TheNewsIsWhatOthersTookBack, AnOwnUndoIsNoNews, AFullJournalAcceptsNothing};
ghost use Rattle.mps_room.specs.Examples.{ANumberIsCalledOnce, ANumberIsToldOneThing};

/// What is answered after short journals, and what numbered commands come to, as worked out by hand: tests of the
/// definitions, checked by the prover.
pub fn worked_journals()
    ensures the_news_is_what_others_took_back { TheNewsIsWhatOthersTookBack }
    ensures an_own_undo_is_no_news { AnOwnUndoIsNoNews }
    ensures a_full_journal_accepts_nothing { AFullJournalAcceptsNothing }
    ensures a_number_is_called_once { ANumberIsCalledOnce }
    ensures a_number_is_told_one_thing { ANumberIsToldOneThing }
{}
