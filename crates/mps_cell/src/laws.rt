//! What holds of passes, whatever they call.
ghost use Rattle.std.specs.Prelude.{◌≢◌};
ghost use denote.Param.Send.{IsSend};
ghost use denote.Ref.{NamedLft};
ghost use Rattle.mps_command.specs.declared.answer.Answer.{Answer};
ghost use Rattle.mps_command.specs.declared.answer.Answer.TheVariants.{Refused};
ghost use Rattle.mps_command.specs.declared.answer.Refusal.TheVariants.{Violation as Violates};
ghost use Rattle.mps_command.specs.declared.answer.Violation.TheVariants.{Mismatch};
ghost use Rattle.mps_command.specs.declared.command.Command.{Command};
ghost use Rattle.mps_fidelity.specs.Fidelity.{AreOfOneProtocol};
ghost use Rattle.mps_cell.specs.Calls.{Known, Calls};
ghost use Rattle.mps_cell.specs.contracts.pass.Pass as pass;
ghost use Rattle.mps_cell.specs.contracts.pass.Leave as leave;

/// A law: where the opening types are those of one protocol without faults, no call of a pass is refused with
/// `Mismatch`, whatever other passes did.
pub fn no_call_is_a_mismatch()
    ensures other { (before : Known) (command : Command) (answer : Answer) (after : Known)
        → AreOfOneProtocol before.opening.types → Calls before command answer after
        → answer ≢ Refused (Violates Mismatch) }
{}

/// A law: a pass may go to another thread, and so may what it leaves with. The body is empty: the bounds of the clauses
/// are checked.
pub fn passes_may_cross_threads()
    ensures pass { (κ : NamedLft) → IsSend (pass.the_row κ) }
    ensures leave { IsSend leave.the_row }
{}
