//! What a session keeps of its roles and its steps, and how an act changes it.
ghost use Rattle.std.specs.Prelude.{◌≡◌, ◌+◌, ◌<◌, Some, None, vec_len, slice_set, IfOk, OnOk, OnErr, IfErr};
ghost use Rattle.std.specs.Option.{option_copied};
ghost use Rattle.mps_command.specs.Acts.{act_of};
ghost use Rattle.mps_local.specs.Local.{LocalType};
ghost use Rattle.mps_machine.specs.Machine.{most_numbers, taken};
ghost use Rattle.mps_monitor.specs.Verdicts.{moved_by};
ghost use Rattle.mps_table.specs.Graph.{IsNode};
ghost use Rattle.mps_session.specs.Private.Configurations.{lists_of, IsReady, cursor_of, moved_in, StandsAt, fault_in};
ghost use Rattle.mps_session.specs.Private.Configurations.{LeadsTo, HasActed, IsBarred};
ghost use Rattle.mps_session.specs.Private.Cursors.{went};

use crate::cursor::Cursor;
use crate::session::MAX_NUMBERS;
use mps_base::{Message, Role, StepId};
use mps_command::{Forward, Refusal, Violation};
use mps_log::Log;
use mps_monitor::next_node;
use mps_table::Node;
use std::alloc::{AllocError, Global};

/// Where each role stands, and the steps that survive, with the queues, slots and marks that they lead to.
#[derive(Drop)]
pub(crate) struct Configuration {
    pub(crate) cursors: Vec<Cursor>,
    pub(crate) log: Log,
    pub(crate) alloc: Global,
}

impl Configuration {
    /// The first message that waits for the role from the peer whom a receipt or pick names; `None` for other steps.
    /// For `would` alone: where a step is taken, `attempt_receipt` asks for the message together with its step.
    pub(crate) fn first_for(&self, role: Role, step: &Forward) -> Option<&Message>
        ensures moved { moved_by step.now (option_copied result)
            ≡ moved_in (lists_of self.now) role (act_of step.now) }
        ensures taken { option_copied result
            ≡ taken (act_of step.now) (moved_in (lists_of self.now) role (act_of step.now)) }
    {
        match step {
            Forward::Receive { from, .. } | Forward::Pick { from } => {
                self.log.message(*from, role, 0)
            }
            Forward::Send { .. }
            | Forward::Choose { .. }
            | Forward::Mark { .. }
            | Forward::Commit => None,
        }
    }

    /// The node to which the role goes on by the step, or why its type doesn't allow it; nothing changes. `first` is
    /// the first message that waits for the role, if the step would take one.
    #[inline(always)]
    pub(crate) fn verdict(
        &self,
        role: Role,
        step: &Forward,
        first: Option<&Message>,
    ) -> Result<Node, Violation>
        requires role { role < vec_len self.now.cursors }
        requires stands { IsNode (cursor_of (lists_of self.now) role).table
            (cursor_of (lists_of self.now) role).node }
        requires first { moved_by step.now (option_copied first)
            ≡ moved_in (lists_of self.now) role (act_of step.now) }
        ensures violation { IfErr result (λ fault. (t : LocalType)
            → StandsAt (lists_of self.now) role t
            → fault_in (lists_of self.now) role (act_of step.now) t ≡ Some fault) }
        ensures allowed { OnOk result ((t : LocalType)
            → StandsAt (lists_of self.now) role t
            → fault_in (lists_of self.now) role (act_of step.now) t ≡ None) }
        ensures follows { IfOk result (LeadsTo (lists_of self.now) role (act_of step.now)) }
    {
        let cursor = &self.cursors[role.index()];
        next_node(&cursor.table, cursor.node, step, first)
    }

    /// The node to which the role goes on by the step, or why it is refused: its type doesn't allow it, else `Full`, as
    /// 100,000 numbers were given out. Nothing changes. `first` is the first message that waits, if the step would take
    /// one.
    #[inline(always)]
    pub(crate) fn allowed(
        &self,
        role: Role,
        step: &Forward,
        first: Option<&Message>,
    ) -> Result<Node, Refusal>
        requires role { role < vec_len self.now.cursors }
        requires stands { IsNode (cursor_of (lists_of self.now) role).table
            (cursor_of (lists_of self.now) role).node }
        requires first { moved_by step.now (option_copied first)
            ≡ moved_in (lists_of self.now) role (act_of step.now) }
        ensures barred { IfErr result (IsBarred (lists_of self.now) role (act_of step.now)) }
        ensures allowed { OnOk result ((t : LocalType)
            → StandsAt (lists_of self.now) role t
            → fault_in (lists_of self.now) role (act_of step.now) t ≡ None) }
        ensures numbers { OnOk result ((lists_of self.now).issued < most_numbers) }
        ensures follows { IfOk result (LeadsTo (lists_of self.now) role (act_of step.now)) }
    {
        let node = match self.verdict(role, step, first) {
            Ok(node) => node,
            Err(fault) => return Err(Refusal::Violation(fault)),
        };
        if self.log.issued() as u64 >= MAX_NUMBERS {
            return Err(Refusal::Full);
        }
        Ok(node)
    }

    /// Does a step that `allowed` has allowed, moves the role to `node`, and returns the step's number. Out of memory
    /// is the only error, and changes nothing.
    #[inline(always)]
    pub(crate) fn act(
        &mut self,
        role: Role,
        step: &Forward,
        node: Node,
    ) -> Result<StepId, AllocError>
        requires role { role < vec_len self.old.cursors }
        requires ready { IsReady (lists_of self.old) role (act_of step.now) }
        ensures id { IfOk result (λ id. id ≡ (lists_of self.old).issued + 1) }
        ensures acted { OnOk result (HasActed role (act_of step.now) node
            (lists_of self.old) (lists_of self.new)) }
        ensures err { OnErr result (lists_of self.new ≡ lists_of self.old) }
    {
        let at = self.cursors[role.index()].node.number();
        let id = match step {
            Forward::Send { to, value } => {
                // the step is lent, and the log keeps a value of its own
                let value = value.copy(self.alloc)?;
                self.log.send(role, *to, Message::Value(value), at)?
            }
            Forward::Choose { to, label } => {
                self.log.send(role, *to, Message::Label(*label), at)?
            }
            Forward::Receive { from, slot } => self.log.receive(role, *from, Some(slot), at)?,
            Forward::Pick { from } => self.log.receive(role, *from, None, at)?,
            Forward::Mark { name } => self.log.mark(role, *name, at)?,
            Forward::Commit => self.log.commit(role, at)?,
        };
        self.stand_at(role, node);
        Ok(id)
    }

    /// Moves the role to that node of its table: what a step does last, and what its removal undoes. It can't fail.
    pub(crate) fn stand_at(&mut self, role: Role, node: Node)
        requires { role < vec_len self.old.cursors }
        ensures cursors { self.new.cursors.items ≡ slice_set self.old.cursors.items role
            (went node (cursor_of (lists_of self.old) role)) }
        ensures log { self.new.log ≡ self.old.log }
    {
        self.cursors[role.index()].node = node;
    }
}

/// A copy of an optional message; only a text allocates. Apart from `Message::copy`, so that both kinds are written
/// straight into the result: a message in between would be cleared at each receipt.
#[inline(always)]
pub(crate) fn once_more(
    alloc: Global,
    message: Option<&Message>,
) -> Result<Option<Message>, AllocError>
    ensures { IfOk result (λ copy. copy ≡ option_copied message.entry) }
{
    match message {
        Some(Message::Value(value)) => Ok(Some(Message::Value(value.copy(alloc)?))),
        Some(Message::Label(label)) => Ok(Some(Message::Label(*label))),
        None => Ok(None),
    }
}
