//! Whether what a role expects allows a command, or why not.
ghost use Rattle.std.specs.Prelude.{◌≡◌, ◌↔◌, ℕ, List, None, Some, Ok, IfOk, OnOk, IfErr, IsTrue};
ghost use Rattle.std.specs.Option.{option_copied};
ghost use Rattle.mps_base.specs.declared.action.Act.TheVariants as acts;
ghost use Rattle.mps_base.specs.declared.action.Message.TheVariants as messages;
ghost use Rattle.mps_command.specs.Acts.{act_of};
ghost use Rattle.mps_command.specs.declared.command.Forward.{Forward as Forwarded};
ghost use Rattle.mps_local.specs.Actions.{Begins, Sends, Receives, Chooses, Picks};
ghost use Rattle.mps_local.specs.Local.{LocalType};
ghost use Rattle.mps_machine.specs.Rule.{moved};
ghost use Rattle.mps_machine.specs.View.{View};
ghost use Rattle.mps_machine.specs.Violations.{act_fault};
ghost use Rattle.mps_table.specs.Expects.{head_of};
ghost use Rattle.mps_monitor.specs.Verdicts.{moved_by, peer_of, waiting_from, is_idle, GoesOn, IsOffered};
ghost use Rattle.mps_monitor.specs.Private.Verdicts.{place_of_label, IsVerdict};

use mps_base::{Message, Name, Role, Sort, Value};
use mps_command::{Forward, Violation};
use mps_table::Expect;

/// How a role goes on in its local type after an allowed command.
#[derive(Clone, Copy, Debug, PartialEq, Eq)]
pub enum Advance {
    /// Not at all: a mark and a commit are no acts of the type.
    Stay,
    /// Past the value that it gives or takes.
    Next,
    /// Into the branch of that place.
    Into(usize),
}

/// How a role that expects this goes on by the step, or the first reason why its type doesn't allow it, in the order of
/// `Violation`. `first` is the first message that waits from the peer whom the step names, if one does. O(labels), and
/// it does not allocate.
#[inline(always)]
pub fn judge(
    expected: Expect<'_>,
    step: &Forward,
    first: Option<&Message>,
) -> Result<Advance, Violation>
    ensures violation { IfErr result (λ fault. (t : LocalType)
        → Begins (head_of expected.entry) t
        → act_fault t (act_of step.now) (moved_by step.now (option_copied first.entry))
        ≡ Some fault) }
    ensures allowed { OnOk result ((t : LocalType)
        → Begins (head_of expected.entry) t
        → act_fault t (act_of step.now) (moved_by step.now (option_copied first.entry))
        ≡ None) }
    ensures advance { IfOk result (λ a. (t : LocalType)
        → Begins (head_of expected.entry) t
        → GoesOn a t (act_of step.now) (moved_by step.now (option_copied first.entry))) }
    ensures stay { (result ≡ Ok Advance.Stay) ↔ IsTrue (is_idle step.now) }
    ensures offered { IfOk result (λ a. IsOffered a (head_of expected.entry)) }
{
    match step {
        Forward::Mark { .. } | Forward::Commit => Ok(Advance::Stay),
        Forward::Send { to, value } => match expected {
            Expect::End => Err(Violation::Ended),
            Expect::Send(peer, sort) => judge_send(peer, sort, *to, value),
            _ => Err(Violation::WrongAct),
        },
        Forward::Choose { to, label } => match expected {
            Expect::End => Err(Violation::Ended),
            Expect::Select(peer, labels) => judge_choice(peer, &*labels, *to, label),
            _ => Err(Violation::WrongAct),
        },
        Forward::Receive { from, .. } => match expected {
            Expect::End => Err(Violation::Ended),
            Expect::Recv(peer, sort) => judge_receipt(peer, sort, *from, first),
            _ => Err(Violation::WrongAct),
        },
        Forward::Pick { from } => match expected {
            Expect::End => Err(Violation::Ended),
            Expect::Branch(peer, labels) => judge_pick(peer, &*labels, *from, first),
            _ => Err(Violation::WrongAct),
        },
    }
}

/// A law: the message that a step gives or takes by `moved_by`, which is told only the first message that waits, is the
/// one that the machine moves, which has the whole view.
pub fn the_machine_moves_the_same()
    ensures { (v : View) (p : ℕ) (step : Forwarded)
        → moved v p (act_of step) ≡ moved_by step (waiting_from v p (peer_of step)) }
{}

// Whether a role whose type is an output of `sort` to `peer` may send the value to `to`; else `WrongPeer`, and only
// then `WrongSort`.
fn judge_send(peer: Role, sort: Sort, to: Role, value: &Value) -> Result<Advance, Violation>
    ensures { IsVerdict (Sends peer sort) (acts.Out to (messages.Value value.now))
        (Some (messages.Value value.now)) result }
{
    if !to.is(peer) {
        return Err(Violation::WrongPeer);
    }
    if !value.fits(sort) {
        return Err(Violation::WrongSort);
    }
    Ok(Advance::Next)
}

// Whether a role whose type is a selection of one of the labels at `peer` may choose `label` and tell `to`; else
// `WrongPeer`, and only then `NoLabel`. The branch's place is returned.
#[tactic(auto, using(crate::proofs::Labels::a_label, crate::proofs::Labels::not_a_label))]
fn judge_choice(peer: Role, labels: &[Name], to: Role, label: &Name) -> Result<Advance, Violation>
    ensures { IsVerdict (Chooses peer labels.now) (acts.Out to (messages.Label label.now))
        (Some (messages.Label label.now)) result }
{
    if !to.is(peer) {
        return Err(Violation::WrongPeer);
    }
    match place_of_label(labels, label) {
        None => Err(Violation::NoLabel),
        Some(place) => Ok(Advance::Into(place)),
    }
}

// Whether a role whose type is an input of `sort` from `peer` may receive from `from`, where `first` waits; else
// `WrongPeer`, then `NothingQueued`, then `Mismatch` for a label or a value of another sort.
fn judge_receipt(
    peer: Role,
    sort: Sort,
    from: Role,
    first: Option<&Message>,
) -> Result<Advance, Violation>
    ensures { (slot : List ℕ) → IsVerdict (Receives peer sort) (acts.In from (Some slot))
        (option_copied first.entry) result }
{
    if !from.is(peer) {
        return Err(Violation::WrongPeer);
    }
    match first {
        None => Err(Violation::NothingQueued),
        Some(Message::Value(value)) if value.fits(sort) => Ok(Advance::Next),
        Some(_) => Err(Violation::Mismatch),
    }
}

// Whether a role whose type is a branching at `peer` may take the label `first` that waits from `from`; else
// `WrongPeer`, then `NothingQueued`, then `Mismatch` for a value or a label of no branch. The branch's place is
// returned.
#[tactic(auto, using(crate::proofs::Labels::a_label, crate::proofs::Labels::not_a_label))]
fn judge_pick(
    peer: Role,
    labels: &[Name],
    from: Role,
    first: Option<&Message>,
) -> Result<Advance, Violation>
    ensures { IsVerdict (Picks peer labels.now) (acts.In from None)
        (option_copied first.entry) result }
{
    if !from.is(peer) {
        return Err(Violation::WrongPeer);
    }
    match first {
        None => Err(Violation::NothingQueued),
        Some(Message::Value(_)) => Err(Violation::Mismatch),
        Some(Message::Label(label)) => match place_of_label(labels, label) {
            None => Err(Violation::Mismatch),
            Some(place) => Ok(Advance::Into(place)),
        },
    }
}

// The first place at which the label stands, from 0, or `None`. At most 16 labels are compared.
fn place_of_label(labels: &[Name], label: &Name) -> Option<usize>
    ensures { result ≡ place_of_label labels.now label.now }
{
    labels.iter().position(|other| other.is(label))
}
