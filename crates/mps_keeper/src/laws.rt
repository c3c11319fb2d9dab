//! Laws of a recorded journal.
ghost use Rattle.std.specs.Prelude.{◌≡◌, ◌≢◌, ℕ, List, [], ◌∷◌, ◌++◌, ◌⊎◌, All, Bool, Option, true, false, ◌*◌, ◌≤◌};
ghost use Rattle.mps_command.specs.declared.command.Command.{Command};
ghost use Rattle.mps_command.specs.declared.answer.Answer.{Answer};
ghost use Rattle.mps_command.specs.declared.answer.Answer.TheVariants.{Refused};
ghost use Rattle.mps_command.specs.declared.answer.Refusal.TheVariants.{Memory};
ghost use Rattle.mps_local.specs.Local.{LocalType};
ghost use Rattle.mps_room.specs.Journal.{grown, answer_to, IsLegal, MayAnswer};
ghost use Rattle.mps_room.specs.declared.entry.Entry.{Entry};
ghost use Rattle.mps_base.specs.RoleLists.{AreDistinct};
ghost use Rattle.mps_room.specs.declared.numbers.Numbered.{Numbered};
ghost use Rattle.mps_keeper.specs.Chains.{ReadsAll};
ghost use Rattle.mps_keeper.specs.declared.chain.Chain.{Chain};
ghost use Rattle.mps_keeper.specs.Restarted.{newest_after};
ghost use Rattle.mps_seal.specs.Seals.{all_sealed, seal_after};
ghost use Rattle.mps_keeper.specs.Restored.{KeepsAccepted, LinesRestored, Standing};
ghost use Rattle.mps_keeper.specs.Trails.{RecordedOn, SpellEntries, WrittenIsRecorded};
ghost use Rattle.mps_keeper.specs.declared.guest.Guest.{Guest as GuestOf};
ghost use Rattle.mps_keeper.specs.declared.keeper.TheConstants.{LONGEST_LINE};
ghost use Rattle.mps_keeper.specs.declared.restore.TheConstants.{MOST_BYTES};
ghost use Rattle.mps_room.specs.declared.room.TheConstants.{MAX_ENTRIES};
ghost use Rattle.mps_wire.specs.Answers.{AnswersBrokenOff, AnswersLines};
ghost use Rattle.mps_wire.specs.Conversations.{ConversesLine, ConversesBrokenOff, RepliesTo};
ghost use Rattle.mps_line.specs.declared.write_replies.Reply.{Reply};

use crate::gate::Gate;
use crate::guest::Guest;
use crate::keeper::LONGEST_LINE;
use crate::recorder::{Recordable, Recorder};
use crate::restore::MOST_BYTES;
use mps_line::laws::one_journal_line;
use mps_room::{Caller, MAX_ENTRIES};
use mps_seal::laws::one_line;

/// The commands of a legal journal, run again from the opening: after those before it each gets the answer that it
/// had, and leaves the journal that it left, unless memory runs out.
pub fn a_legal_journal_runs_again()
    ensures answer { (names : List (List ℕ)) (types : List LocalType) (before : List Entry) (e : Entry)
        (after : List Entry)
        → IsLegal names types (before ++ e ∷ after) → (answer : Answer)
        → MayAnswer answer (answer_to names types before e.role e.command)
        → (answer ≡ e.answer) ⊎ (answer ≡ Refused Memory) }
    ensures journal { (names : List (List ℕ)) (types : List LocalType) (before : List Entry) (e : Entry)
        (after : List Entry)
        → IsLegal names types (before ++ e ∷ after) → grown before e.role e.command e.answer ≡ before ++ e ∷ [] }
{}

/// Lines that restore a session leave each role the answer to an accepted command, or none, if it had such before.
pub fn restored_roles_keep_no_refusal()
    ensures { (names : List (List ℕ)) (types : List LocalType) (before : Standing) (lines : List (List ℕ))
        (after : Standing)
        → All KeepsAccepted before.newest → LinesRestored names types before lines after
        → All KeepsAccepted after.newest }
{}

/// Where nothing was lost, what the keeper took while a conversation was answered, whose lines may wait or may not, are the lines of the commands that
/// it made, in order and with their numbers. So it is where the last answer breaks off. And whatever was lost:
/// what was written to a conversation are the answers to the first of its lines, up to where nothing was lost.
pub fn what_is_answered_is_recorded<G: Gate + 'static, K: Recorder, C: Recordable>()
    ensures whole { (waits : Bool) (asked : List (List ℕ)) (before : GuestOf G K C) (out : List ℕ) (after : GuestOf G K C)
        → AnswersLines (ConversesLine ⟦<Guest<'static, G, K, C> as Caller>⟧ waits) asked before out after
        → K.records before.recorder ≡ true → K.whole after.recorder ≡ true
        → RecordedOn (C.names before.inner) (K.taken before.recorder) (K.taken after.recorder)
        (C.last before.inner) (C.last after.inner) (C.made before.inner) (C.made after.inner) }
    ensures broken_off { (waits : Bool) (asked : List (List ℕ)) (before : GuestOf G K C) (out : List ℕ) (after : GuestOf G K C)
        → AnswersBrokenOff (ConversesLine ⟦<Guest<'static, G, K, C> as Caller>⟧ waits)
        (ConversesBrokenOff ⟦<Guest<'static, G, K, C> as Caller>⟧ waits) asked before out after
        → K.records before.recorder ≡ true → K.whole after.recorder ≡ true
        → RecordedOn (C.names before.inner) (K.taken before.recorder) (K.taken after.recorder)
        (C.last before.inner) (C.last after.inner) (C.made before.inner) (C.made after.inner) }
    ensures told { (waits : Bool) (asked : List (List ℕ)) (before : GuestOf G K C) (written : List ℕ) (after : GuestOf G K C)
        → AnswersBrokenOff (ConversesLine ⟦<Guest<'static, G, K, C> as Caller>⟧ waits)
        (ConversesBrokenOff ⟦<Guest<'static, G, K, C> as Caller>⟧ waits) asked before written after
        → K.records before.recorder ≡ true → K.whole before.recorder ≡ true
        → WrittenIsRecorded ⟦<Guest<'static, G, K, C> as Caller>⟧ waits (λ r. K.taken r.recorder) asked before written after }
{}

/// Recording changes no answer: what a guest is replied to a line, its caller is, and is left so. Where nothing was lost its
/// command is recorded, if it made one. Once something is lost it stays lost; and where nothing is recorded the recorder stays
/// as it was.
pub fn a_guest_is_answered_as_its_caller<G: Gate + 'static, K: Recorder, C: Recordable>()
    ensures replies { (waits : Bool) (line : List ℕ) (before : GuestOf G K C) (reply : Reply) (after : GuestOf G K C)
        → RepliesTo ⟦<Guest<'static, G, K, C> as Caller>⟧ waits line before reply after
        → RepliesTo ⟦<C as Caller>⟧ waits line before.inner reply after.inner }
    ensures recorded { (waits : Bool) (line : List ℕ) (before : GuestOf G K C) (reply : Reply) (after : GuestOf G K C)
        → RepliesTo ⟦<Guest<'static, G, K, C> as Caller>⟧ waits line before reply after
        → K.records before.recorder ≡ true → K.whole after.recorder ≡ true
        → RecordedOn (C.names before.inner) (K.taken before.recorder) (K.taken after.recorder)
        (C.last before.inner) (C.last after.inner) (C.made before.inner) (C.made after.inner) }
    ensures once { (waits : Bool) (line : List ℕ) (before : GuestOf G K C) (reply : Reply) (after : GuestOf G K C)
        → RepliesTo ⟦<Guest<'static, G, K, C> as Caller>⟧ waits line before reply after
        → K.whole after.recorder ≡ true → K.whole before.recorder ≡ true }
    ensures same { (waits : Bool) (line : List ℕ) (before : GuestOf G K C) (reply : Reply) (after : GuestOf G K C)
        → RepliesTo ⟦<Guest<'static, G, K, C> as Caller>⟧ waits line before reply after
        → K.records after.recorder ≡ K.records before.recorder }
    ensures idle { (waits : Bool) (line : List ℕ) (before : GuestOf G K C) (reply : Reply) (after : GuestOf G K C)
        → RepliesTo ⟦<Guest<'static, G, K, C> as Caller>⟧ waits line before reply after
        → K.records before.recorder ≡ false → after.recorder ≡ before.recorder }
{}

/// What was recorded of a legal journal, restored in a session in which nothing was done yet, is that journal: each entry
/// in its place, of its role, with its command and its answer. And each role's newest numbered command, with its answer,
/// is the one of its newest line with a number.
pub fn a_restart_gives_the_journal_back()
    ensures journal { (names : List (List ℕ)) (types : List LocalType) (journal : List Entry) (lines : List (List ℕ))
        (numbers : List (Option ℕ)) (newest : List (Option Numbered)) (after : Standing)
        → AreDistinct names → IsLegal names types journal → SpellEntries names lines numbers journal
        → LinesRestored names types (record { journal = []; newest = newest }) lines after
        → after.journal ≡ journal }
    ensures newest { (names : List (List ℕ)) (types : List LocalType) (journal : List Entry) (lines : List (List ℕ))
        (numbers : List (Option ℕ)) (newest : List (Option Numbered)) (after : Standing)
        → AreDistinct names → IsLegal names types journal → SpellEntries names lines numbers journal
        → LinesRestored names types (record { journal = []; newest = newest }) lines after
        → after.newest ≡ newest_after newest numbers journal }
{
    one_journal_line();
}

/// What a `Book` writes after the mark is read as the lines that it was given.
pub fn sealed_lines_are_read()
    ensures lines { (seal : List ℕ) (lines bodies : List (List ℕ)) (after : Chain)
        → ReadsAll (record { seal = seal; is_sealed = true }) (all_sealed seal lines) bodies after → bodies ≡ lines }
    ensures chain { (seal : List ℕ) (lines bodies : List (List ℕ)) (after : Chain)
        → ReadsAll (record { seal = seal; is_sealed = true }) (all_sealed seal lines) bodies after
        → after ≡ record { seal = seal_after seal lines; is_sealed = true } }
{
    one_line();
}

/// The lines of a journal with as many entries as a room has at most, each the longest that there is, are no more bytes
/// than are read.
pub fn a_full_journal_is_read()
    ensures { MAX_ENTRIES * LONGEST_LINE ≤ MOST_BYTES }
{}
