//! What holds of the answers to whole scripts and conversations.
ghost use Rattle.std.specs.Prelude.{◌≡◌, ◌≢◌, ◌++◌, ℕ, Bool, List, [], Some, codes, length, slice_get};
ghost use Rattle.std.specs.List.{AllByRecursion};
ghost use Rattle.mps_fidelity.specs.Fidelity.{AreOfOneProtocol};
ghost use Rattle.mps_line.specs.JournalLines.{CanBeWritten};
ghost use Rattle.mps_local.specs.Local.{LocalType};
ghost use Rattle.mps_room.specs.Journal.{IsLegal};
ghost use Rattle.mps_room.specs.declared.entry.Entry.{Entry};
ghost use Rattle.mps_session.specs.Peers.{HavePeers};
ghost use Rattle.mps_wire.specs.Answers.{AnswersBytes, AnswersBrokenOff, AnswersLines, BreaksOffAnywhere};
ghost use Rattle.mps_wire.specs.Answers.{OfAllLines, OfWholeLines};
ghost use Rattle.mps_wire.specs.Fidelity.{HasNoMismatch, MeetsNoMismatch};
ghost use Rattle.mps_wire.specs.Making.{accepted_broken_off, accepted_lines};
ghost use Rattle.mps_wire.specs.Conversations.{ConversesLine, ConversesBrokenOff};
ghost use Rattle.mps_lines.specs.Lines.{IsSplit};
ghost use Rattle.mps_wire.specs.Script.{AnswersLine};

use mps_line::laws::one_reply_line;
use mps_room::{Caller, Solo};

/// A law: where the opening types are those of one protocol without faults, no line that answers a script is `refused
/// mismatch`, whether the script is answered to its end, read no further, or what was written breaks off.
pub fn no_script_meets_a_mismatch()
    ensures whole { (names : List (List ℕ)) (types : List LocalType)
        (bytes out rest : List ℕ) (lines : List (List ℕ)) (after : List Entry)
        → AreOfOneProtocol types
        → OfAllLines bytes (λ asked. AnswersLines (AnswersLine names types) asked [] out after) → IsSplit out lines rest
        → AllByRecursion (λ line. line ≢ codes "refused mismatch") lines }
    ensures stopped { (names : List (List ℕ)) (types : List LocalType)
        (bytes kept out rest : List ℕ) (lines : List (List ℕ)) (after : List Entry)
        → AreOfOneProtocol types
        → AnswersBytes (AnswersLine names types) [] bytes kept out after → IsSplit out lines rest
        → AllByRecursion (λ line. line ≢ codes "refused mismatch") lines }
    ensures broken_off { (names : List (List ℕ)) (types : List LocalType)
        (bytes written rest : List ℕ) (lines : List (List ℕ))
        → AreOfOneProtocol types
        → OfWholeLines bytes (λ asked. BreaksOffAnywhere (AnswersLine names types) [] asked written)
        → IsSplit written lines rest
        → AllByRecursion (λ line. line ≢ codes "refused mismatch") lines }
    ensures broken_off_at_end { (names : List (List ℕ)) (types : List LocalType)
        (bytes written rest : List ℕ) (lines : List (List ℕ))
        → AreOfOneProtocol types
        → OfAllLines bytes (λ asked. BreaksOffAnywhere (AnswersLine names types) [] asked written)
        → IsSplit written lines rest
        → AllByRecursion (λ line. line ≢ codes "refused mismatch") lines }
{
    // for the proof alone
    one_reply_line();
}

/// A law: the accepted commands of a conversation are, in order, the entries that its caller made, whether its lines
/// may wait or not, and are answered to their end or the last answer breaks off.
pub fn a_conversation_makes_its_commands<C: Caller>()
    ensures whole { (waits : Bool) (lines : List (List ℕ)) (before : C) (out : List ℕ) (after : C)
        (a : AnswersLines (ConversesLine C.Caller waits) lines before out after)
        → C.made after ≡ C.made before ++ accepted_lines C.Caller waits lines before out after a }
    ensures broken_off { (waits : Bool) (lines : List (List ℕ)) (before : C) (out : List ℕ) (after : C)
        (a : AnswersBrokenOff (ConversesLine C.Caller waits) (ConversesBrokenOff C.Caller waits) lines before out after)
        → C.made after ≡ C.made before ++ accepted_broken_off C.Caller waits lines before out after a }
{}

/// A law: where no call of a caller is refused with `Mismatch` in sessions of one protocol, no line that answers a
/// conversation with this caller is `refused mismatch` there.
pub fn no_conversation_meets_a_mismatch<C: Caller>()
    ensures whole { (types : C → List LocalType) → MeetsNoMismatch C.Caller types
        → (waits : Bool) (asked : List (List ℕ)) (before : C) (out : List ℕ) (after : C) (lines : List (List ℕ))
        (rest : List ℕ)
        → HasNoMismatch C.Caller types before → AnswersLines (ConversesLine C.Caller waits) asked before out after
        → IsSplit out lines rest → AllByRecursion (λ line. line ≢ codes "refused mismatch") lines }
    ensures broken_off { (types : C → List LocalType) → MeetsNoMismatch C.Caller types
        → (waits : Bool) (asked : List (List ℕ)) (before : C) (out : List ℕ) (after : C) (lines : List (List ℕ))
        (rest : List ℕ)
        → HasNoMismatch C.Caller types before
        → AnswersBrokenOff (ConversesLine C.Caller waits) (ConversesBrokenOff C.Caller waits) asked before out after
        → IsSplit out lines rest → AllByRecursion (λ line. line ≢ codes "refused mismatch") lines }
{
    // for the proof alone
    one_reply_line();
}

/// A law: a room's caller meets the premise of `no_conversation_meets_a_mismatch`: none of its calls is refused with
/// `Mismatch` in a session of one protocol.
pub fn a_room_meets_no_mismatch()
    ensures { MeetsNoMismatch ⟦<Solo as Caller>⟧ (λ s. s.room.types) }
{}

/// A law: each entry of a journal can be written as a line, where each peer that an opening type names is another of
/// the roles: an accepted command names one of them.
pub fn each_entry_can_be_written()
    ensures { (names : List (List ℕ)) (types : List LocalType) (j : List Entry) (k : ℕ) (entry : Entry)
        → HavePeers types → length names ≡ length types → IsLegal names types j → slice_get j k ≡ Some entry
        → CanBeWritten names entry.role entry.command }
{}
