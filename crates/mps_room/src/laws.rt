//! What holds of a room's answers.
ghost use Rattle.std.specs.Prelude.{◌≢◌, ℕ, List};
ghost use Rattle.mps_command.specs.declared.answer.Answer.{Answer};
ghost use Rattle.mps_command.specs.declared.answer.Answer.TheVariants.{Refused};
ghost use Rattle.mps_command.specs.declared.answer.Refusal.TheVariants.{Violation as Violates};
ghost use Rattle.mps_command.specs.declared.answer.Violation.TheVariants.{Mismatch};
ghost use Rattle.mps_command.specs.declared.command.Command.{Command};
ghost use Rattle.mps_fidelity.specs.Fidelity.{AreOfOneProtocol};
ghost use Rattle.mps_local.specs.Local.{LocalType};
ghost use Rattle.mps_room.specs.Journal.{answer_to, MayAnswer};
ghost use Rattle.mps_room.specs.Numbers.{IsNumbered};
ghost use Rattle.mps_room.specs.OneAnswer.{HasOneAnswer, ComesToTheSame};
ghost use Rattle.mps_room.specs.declared.entry.Entry.{Entry};
ghost use Rattle.mps_room.specs.declared.numbers.Told.{Told};

use crate::caller::Caller;

/// A law: where the opening types are those of one protocol without faults, no command is refused with `Mismatch`,
/// after any journal.
pub fn no_answer_is_a_mismatch()
    ensures { (names : List (List ℕ)) (types : List LocalType) (j : List Entry) (role : ℕ)
        (command : Command) (answer : Answer) → AreOfOneProtocol types
        → MayAnswer answer (answer_to names types j role command) → answer ≢ Refused (Violates Mismatch) }
{}

/// A law: where the call of a command has one answer, the command under a number has one outcome: the same is told, and
/// the same last number and kept answer are left.
pub fn a_numbered_command_has_one_outcome<C: Caller>()
    ensures { (c : C) (n : ℕ) (command : Command) (d e : C) (told other : Told)
        → HasOneAnswer C.calls c command
        → IsNumbered C.calls C.last C.kept c n command d told
        → IsNumbered C.calls C.last C.kept c n command e other
        → ComesToTheSame C.last C.kept d told e other }
{}
