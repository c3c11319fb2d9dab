//! Lines whose answer waits for what others do.
ghost use Rattle.std.specs.Prelude.{◌≡◌, ℕ, Bool, true, false, Option, IfNone, IfSome};
ghost use Rattle.mps_command.specs.declared.answer.Answer.{Answer as Response};
ghost use Rattle.mps_line.specs.declared.write_replies.Reply.{Reply as Said};
ghost use Rattle.mps_wire.specs.Conversations.{IsNothingYet, LooksInVain, RepliesTo, RepliesInTime, reply_of};

use crate::reply::{Outcome, take_line};
use mps_command::{Answer, Refusal, Violation};
use mps_line::{Reply, split_wait};
use mps_lines::MAX_LINE;
use mps_room::Caller;
use std::alloc::Global;
use std::time::Duration;

/// What an answer waits for that only says that there is nothing yet.
#[derive(Clone, Copy, Debug, PartialEq, Eq)]
pub enum Awaited {
    /// A message to the role.
    Message,
    /// Steps of the role that others take back.
    News,
}

/// By what the answers to lines wait, where they may.
pub trait Vigil {
    // Whether answers may wait.
    ghost waits: { Self → Bool };

    /// Whether answers may wait. Else a line that wants to is unreadable.
    fn waits(&self) -> bool
        ensures { result ≡ waits self.now };

    /// A line came whose answer may wait so long. What others do from now on isn't missed.
    fn begin(&mut self, limit: Duration)
        ensures { waits self.new ≡ waits self.old };

    /// Sleeps until what is awaited may be there, and then says `true`; or `false` where the answer waits no longer.
    fn rest(&mut self, awaited: Awaited) -> bool
        ensures { waits self.new ≡ waits self.old };

    /// The line has its answer.
    fn end(&mut self)
        ensures { waits self.new ≡ waits self.old };
}

/// No answer waits.
#[derive(Clone, Copy, Debug)]
pub struct NoVigil;

impl Vigil for NoVigil {
    ghost waits = { λ _. false };

    fn waits(&self) -> bool {
        false
    }

    fn begin(&mut self, _limit: Duration) {}

    fn rest(&mut self, _awaited: Awaited) -> bool {
        false
    }

    fn end(&mut self) {}
}

// How often a line's call is made at most. No wait is so long.
const TRIES: u64 = u64::MAX;

// What the outcome waits for, if it only says that there is nothing yet.
fn still_awaited(outcome: &Outcome) -> Option<Awaited>
    ensures some { IfSome result (λ _. (kept : Option Response) → IsNothingYet (reply_of outcome.now kept)) }
    ensures none { IfNone result ((reply : Said) → outcome.now ≡ Outcome.Reply reply → IsNothingYet reply → ⊥) }
{
    match outcome {
        Outcome::Reply(
            Reply::Answer(Answer::Refused(Refusal::Violation(Violation::NothingQueued))),
        ) => Some(Awaited::Message),
        Outcome::Reply(Reply::Answer(Answer::News { length: _, ids }))
            if ids.as_slice().is_empty() => Some(Awaited::News),
        _ => None,
    }
}

// Makes the call of a line, and again as long as it only says that there is nothing yet and the vigil goes on.
#[inline(never)]
fn take_in_time<C: Caller, V: Vigil>(
    alloc: Global,
    caller: &mut C,
    vigil: &mut V,
    limit: Duration,
    line: &[u8],
) -> Outcome
    ensures waits { V.waits vigil.new ≡ V.waits vigil.old }
    ensures replies { (looks : ℕ) × (mid : C) × LooksInVain C.Caller line.now looks caller.old mid
        × RepliesTo C.Caller true line.now mid (reply_of result (C.kept caller.new)) caller.new }
{
    // before the first call: what comes after it ends the rest
    vigil.begin(limit);
    for _ in 0..TRIES {
        let outcome = take_line(alloc, caller, true, line);
        let goes_on = match still_awaited(&outcome) {
            Some(awaited) => vigil.rest(awaited),
            None => false,
        };
        if !goes_on {
            vigil.end();
            return outcome;
        }
    }
    vigil.end();
    take_line(alloc, caller, true, line)
}

/// Runs a line as `take_line` does. Where answers may wait, `stand` may be asked, and a line `wait MILLISECONDS LINE` is run
/// as LINE, and again as long as its answer would only say that there is nothing yet and the vigil goes on.
pub fn take_line_waiting<C: Caller, V: Vigil>(
    alloc: Global,
    caller: &mut C,
    vigil: &mut V,
    line: &[u8],
) -> Outcome
    ensures waits { V.waits vigil.new ≡ V.waits vigil.old }
    ensures replies { RepliesInTime C.Caller (V.waits vigil.old) line.now caller.old
        (reply_of result (C.kept caller.new)) caller.new }
{
    let waits = vigil.waits();
    if line.len() > MAX_LINE || !waits {
        return take_line(alloc, caller, waits, line);
    }
    match split_wait(line) {
        Some((limit, rest)) => take_in_time(
            alloc,
            caller,
            vigil,
            Duration::from_millis(limit),
            rest,
        ),
        None => take_line(alloc, caller, waits, line),
    }
}
