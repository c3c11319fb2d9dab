//! Who gives commands for a role.
ghost use Rattle.std.specs.Prelude.{◌≡◌, ◌≢◌, ◌+◌, ℕ, Bool, List, Option, Some, IsSome};
ghost use Rattle.std.specs.Option.{option_map};
ghost use Rattle.mps_command.specs.Changes.{change_of};
ghost use Rattle.mps_command.specs.declared.answer.Answer.{Answer as Response};
ghost use Rattle.mps_command.specs.declared.command.Command.{Command as Asked};
ghost use Rattle.mps_room.specs.Journal.{grown};
ghost use Rattle.mps_room.specs.Numbers.{IsNumbered, came_of};
ghost use Rattle.mps_room.specs.declared.entry.Entry.{Entry};

use crate::numbers::{Position, Told};
use mps_base::Roles;
use mps_command::{Answer, Command, Refusal};

/// Who gives commands for one role, and is answered. A caller that may have to wait for others has the runtime that it
/// waits by.
///
/// A command that asks for a change may have a number, which lets whoever lost the answer ask for it again: a command
/// with the last number isn't called, and its answer is `kept`.
pub trait Caller {
    // The names of the roles.
    ghost names: { Self → List (List ℕ) };

    // The role that it calls for.
    ghost role: { Self → ℕ };

    // The entries that it made.
    ghost made: { Self → List Entry };

    // What one call tells, of the caller before, the command, the answer and the caller after.
    ghost calls: { Self → Asked → Response → Self → Type 0 };

    // The number of the newest numbered command that was accepted, 0 at first.
    ghost last: { Self → ℕ };

    // The answer to the newest numbered command that was accepted, if there is one.
    ghost kept: { Self → Option Response };

    // Whether what it was answered may be told on.
    ghost may_tell: { Self → Bool };

    /// The names of the session's roles, 2 to 8, by which lines are read and written.
    fn roles(&self) -> &Roles
        ensures { result.now ≡ names self.now };

    /// Gives a command without a number, and returns the answer, a refusal as an answer too. The last number and the
    /// answer that is `kept` stay.
    fn call(&mut self, command: Command) -> Answer
        ensures call { calls self.old command result self.new }
        ensures last { last self.new ≡ last self.old }
        ensures kept { kept self.new ≡ kept self.old };

    /// The number of the newest numbered command that was accepted; 0 before the first, which has the number 1.
    fn last(&self) -> u64
        ensures { result ≡ last self.now };

    /// The answer to the newest numbered command that was accepted, or `None` before the first. One answer is stored,
    /// not all.
    fn kept(&self) -> Option<&Answer>
        ensures { option_map (λ a. a.now) result ≡ kept self.now };

    /// Gives a command that asks for a change, with the next number, `last` + 1. An accepted answer is `kept` under
    /// it. A refusal changes nothing, so the number may come again; it is returned, and an accepted answer isn't,
    /// since that stays with the caller.
    fn call_next(&mut self, number: u64, command: Command) -> Result<(), Refusal>
        requires next { number ≡ last self.old + 1 }
        requires change { IsSome (change_of command) }
        ensures { IsNumbered calls last kept self.old number command self.new (came_of result) };

    /// Whether what the caller was answered may be sent to the client: not where its record was lost, so that no client
    /// is told of a step that a restart would forget.
    fn may_tell(&self) -> bool
        ensures { result ≡ may_tell self.now };

    // The answer to the newest numbered command is kept.
    ghost keeps: { (c : Self) → last c ≢ 0 → (answer : Response) × (kept c ≡ Some answer) };

    // No call changes the names.
    ghost same_names: { (c : Self) (x : Asked) (a : Response) (d : Self) → calls c x a d → names d ≡ names c };

    // No call changes the role.
    ghost same_role: { (c : Self) (x : Asked) (a : Response) (d : Self) → calls c x a d → role d ≡ role c };

    // A call adds just an accepted command, with its answer.
    ghost grows: { (c : Self) (x : Asked) (a : Response) (d : Self) → calls c x a d
        → made d ≡ grown (made c) (role c) x a };
}

/// Gives a command that asks for a change at most once by its number, so that a client that lost an answer may send it
/// again. The next number is called, and an accepted answer `kept`; the last number isn't called again; any other
/// number is `Wrong`, and changes nothing.
pub fn call_numbered<C: Caller>(caller: &mut C, number: u64, command: Command) -> Told
    requires { IsSome (change_of command) }
    ensures { IsNumbered C.calls C.last C.kept caller.old number command caller.new result }
{
    match Position::of(caller.last(), number) {
        Position::Last => Told::Kept,
        Position::Elsewhere => Told::Wrong,
        Position::Next => match caller.call_next(number, command) {
            Ok(()) => Told::Fresh,
            Err(refusal) => Told::Refused(refusal),
        },
    }
}
