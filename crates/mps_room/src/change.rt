//! Changes of a room.
ghost use Rattle.std.specs.Prelude.{◌≡◌, ◌≢◌, ℕ, ◌+◌, true, false, [], ◌∷◌, ◌++◌, ◌<◌, ◌≤◌, Option, map, length};
ghost use Rattle.std.specs.Prelude.{vec_len, vec_capacity, slice_index_or, IsSome, IsTrue, IfErr, IfOk, OnOk, OnErr, ◌↔◌};
ghost use Rattle.std.specs.Result.{result_err};
ghost use Rattle.mps_command.specs.Changes.{change_of};
ghost use Rattle.mps_command.specs.declared.answer.Answer.TheVariants.{Refused};
ghost use Rattle.mps_room.specs.Journal.{grown, most_entries, answer_to, refusal_of, undone_by, MayAnswer};
ghost use Rattle.mps_room.specs.Private.Heard.{hears, with_place, takes_others};
ghost use Rattle.mps_room.specs.Private.Forms.{narrow_answer, narrow, source_place, Fits};
ghost use Rattle.mps_room.specs.Private.Owners.{owns, owners_after, is_step, HasSpace};
ghost use Rattle.mps_room.specs.Private.Rooms.{IsLack};

use crate::heard::Heard;
use crate::journal::Journal;
use crate::room::{MAX_ENTRIES, Room};
use crate::steps::Steps;
use mps_base::{Role, StepId};
use mps_command::{Answer, Command, Refusal};
use mps_session::Gist;
use std::slice;

// Reserves memory for one more entry, and for the indexes beside it: a new step's, or, for a rollback or a return, each
// other role's list. The error is `Full` at 100,000 entries, else `Memory`; no entry, step or list is changed. Apart from
// `change`, so that each `?` leads to one place, where the session's own refusal comes first.
#[inline(always)]
fn reserve_entry(
    journal: &mut Journal,
    steps: &mut Steps,
    heard: &mut Heard,
    role: Role,
    command: &Command,
) -> Result<(), Refusal>
    requires hearers { heard.old.count ≤ 8 }
    requires lists { length heard.old.lists ≡ 8 }
    ensures journal { journal.new.entries ≡ journal.old.entries }
    ensures owners { steps.new.owners.items ≡ steps.old.owners.items }
    ensures places { steps.new.places.items ≡ steps.old.places.items }
    ensures hearers { heard.new.count ≡ heard.old.count }
    ensures lists { length heard.new.lists ≡ 8 }
    ensures heard { map (λ l. l.items) heard.new.lists ≡ map (λ l. l.items) heard.old.lists }
    ensures few { OnOk result (length journal.old.entries < most_entries) }
    ensures space { OnOk result (journal.new.has_space ≡ true) }
    ensures list_space { OnOk result (takes_others command.now ≡ true → journal.new.has_list_space ≡ true) }
    ensures step_space { OnOk result (is_step command.now ≡ true → HasSpace steps.new) }
    ensures heard_space { OnOk result
        (takes_others command.now ≡ true → (k : ℕ) (d : _) → k < heard.new.count → k ≢ role
        → vec_len (slice_index_or heard.new.lists k d) < vec_capacity (slice_index_or heard.new.lists k d)) }
    ensures lack { IfErr result (IsLack (length journal.old.entries)) }
{
    if journal.len() >= MAX_ENTRIES {
        return Err(Refusal::Full);
    }
    journal.reserve_one()?;
    match command {
        Command::Forward(_) => steps.reserve_one()?,
        Command::Rollback(_) | Command::Back(_) => {
            journal.reserve_list()?;
            heard.reserve(role)?;
        }
        // an undo takes back a step of the role's own, of which nobody hears
        _ => {}
    }
    Ok(())
}

// Updates the indexes beside the journal: a new step's owner and place, or, for a rollback or a return, the lists of the
// roles that lost steps. Memory was reserved, so it can't fail. Apart from `keep`, as the choice by the command: its arms
// change different lists.
#[inline(always)]
fn note(
    steps: &mut Steps,
    heard: &mut Heard,
    role: Role,
    command: &Command,
    gist: &Gist,
    place: u32,
)
    requires fits { (source : Option ℕ) × Fits command.now gist.now source }
    requires step_space { is_step command.now ≡ true → HasSpace steps.old }
    requires hearers { heard.old.count ≤ 8 }
    requires lists { length heard.old.lists ≡ 8 }
    requires heard_space { takes_others command.now ≡ true → (k : ℕ) (d : _) → k < heard.old.count → k ≢ role
        → vec_len (slice_index_or heard.old.lists k d) < vec_capacity (slice_index_or heard.old.lists k d) }
    ensures owners { steps.new.owners.items ≡ owners_after steps.old.owners.items role (narrow_answer gist.now) }
    ensures places { steps.new.places.items ≡ owners_after steps.old.places.items place (narrow_answer gist.now) }
    ensures hearers { heard.new.count ≡ heard.old.count }
    ensures lists { length heard.new.lists ≡ 8 }
    ensures heard { takes_others command.now ≡ true → (p : ℕ) (d : _) → p < heard.old.count
        → (slice_index_or heard.new.lists p d).items
        ≡ with_place (hears (owns steps.old.owners.items p) p role (undone_by (narrow_answer gist.now))) place
        (slice_index_or heard.old.lists p d).items }
    ensures unheard { takes_others command.now ≡ false → heard.new.lists ≡ heard.old.lists }
{
    match command {
        Command::Forward(_) => steps.push(role, place),
        Command::Rollback(_) | Command::Back(_) => {
            heard.note(steps, role, undone_by(gist), place);
        }
        _ => {}
    }
}

// Appends the entry of an accepted command, and updates the indexes beside the journal. Memory was reserved, so it can't
// fail. Apart from `change`, whose proof goes on from its clauses.
#[inline(always)]
fn keep(
    journal: &mut Journal,
    steps: &mut Steps,
    heard: &mut Heard,
    role: Role,
    command: &Command,
    gist: Gist,
)
    requires fits { Fits command.now gist (source_place steps.old.places.items gist) }
    requires few { length journal.old.entries < most_entries }
    requires space { journal.old.has_space ≡ true }
    requires list_space { takes_others command.now ≡ true → journal.old.has_list_space ≡ true }
    requires step_space { is_step command.now ≡ true → HasSpace steps.old }
    requires hearers { heard.old.count ≤ 8 }
    requires lists { length heard.old.lists ≡ 8 }
    requires heard_space { takes_others command.now ≡ true → (k : ℕ) (d : _) → k < heard.old.count → k ≢ role
        → vec_len (slice_index_or heard.old.lists k d) < vec_capacity (slice_index_or heard.old.lists k d) }
    ensures journal { journal.new.entries ≡ journal.old.entries
        ++ narrow role command.now gist (source_place steps.old.places.items gist) ∷ [] }
    ensures owners { steps.new.owners.items ≡ owners_after steps.old.owners.items role (narrow_answer gist) }
    ensures places { steps.new.places.items
        ≡ owners_after steps.old.places.items (length journal.old.entries) (narrow_answer gist) }
    ensures hearers { heard.new.count ≡ heard.old.count }
    ensures lists { length heard.new.lists ≡ 8 }
    ensures heard { takes_others command.now ≡ true → (p : ℕ) (d : _) → p < heard.old.count
        → (slice_index_or heard.new.lists p d).items
        ≡ with_place (hears (owns steps.old.owners.items p) p role (undone_by (narrow_answer gist)))
        (length journal.old.entries) (slice_index_or heard.old.lists p d).items }
    ensures unheard { takes_others command.now ≡ false → heard.new.lists ≡ heard.old.lists }
{
    // a journal has at most 100,000 entries
    let place = journal.len() as u32;
    let sent_at = match &gist {
        Gist::Stepped { source, .. } => steps.place_of(*source),
        Gist::Undid(_) | Gist::TookBack(_) => None,
    };
    note(steps, heard, role, command, &gist, place);
    journal.push(role, command, gist, sent_at);
}

// The numbers of the steps that were taken back, by the gist of an answer; none for a new step.
fn undone_by(gist: &Gist) -> &[StepId]
    ensures { result.now ≡ undone_by (narrow_answer gist.now) }
{
    match gist {
        Gist::Stepped { .. } => &[],
        Gist::Undid(id) => slice::from_ref(id),
        Gist::TookBack(ids) => ids.as_slice(),
    }
}

// Whether it asks for a change, and not how things stand.
fn is_change(command: &Command) -> bool
    ensures { IsTrue result ↔ IsSome (change_of command.now) }
{
    !matches!(command, Command::News(_) | Command::Show | Command::Stand)
}

impl Room {
    /// Answers a command that asks for a change. Memory for the entry is reserved first, then the session changes, then
    /// the entry is stored: so what is accepted is always in the journal, and a refusal changes nothing.
    #[inline(always)]
    pub(crate) fn change(&mut self, role: Role, command: Command) -> Answer
        requires role { role < length self.old.types }
        requires change { IsSome (change_of command) }
        ensures answer { MayAnswer result
            (answer_to self.old.names self.old.types self.old.journal role command) }
        ensures journal { self.new.journal ≡ grown self.old.journal role command result }
        ensures names { self.new.names ≡ self.old.names }
        ensures types { self.new.types ≡ self.old.types }
    {
        if let Err(lack) = reserve_entry(
            &mut self.journal,
            &mut self.steps,
            &mut self.heard,
            role,
            &command,
        ) {
            return Answer::Refused(self.refused(role, &command, lack));
        }
        match self.session.attempt(role, &command) {
            Ok((answer, gist)) => {
                // nothing fails here: memory is reserved
                keep(
                    &mut self.journal,
                    &mut self.steps,
                    &mut self.heard,
                    role,
                    &command,
                    gist,
                );
                answer
            }
            Err(refusal) => Answer::Refused(refusal),
        }
    }

    /// Why the role's command would be refused, lack of memory aside: `Full` where the journal has no space for a change that
    /// the session would accept. `Ok` for a question. The room is as before when it returns; it is borrowed exclusively,
    /// since steps are chosen on the way. It does not allocate.
    pub fn would(&mut self, role: Role, command: &Command) -> Result<(), Refusal>
        requires { role < length self.old.types }
        ensures refusal { result_err result
            ≡ refusal_of (answer_to self.old.names self.old.types self.old.journal role command.now) }
        ensures kept { self.new ≡ self.old }
    {
        if let Err(refusal) = self.session.would(role, command) {
            return Err(refusal);
        }
        if !is_change(command) {
            return Ok(());
        }
        if self.journal.len() >= MAX_ENTRIES {
            return Err(Refusal::Full);
        }
        Ok(())
    }

    // The refusal of a change for which the journal has no space or memory: the session's own, if it would refuse
    // anyway, else `lack`. So being full never hides another reason. Nothing changes; the borrow is exclusive, since
    // `would` chooses steps on the way.
    fn refused(&mut self, role: Role, command: &Command, lack: Refusal) -> Refusal
        requires role { role < length self.old.types }
        requires change { IsSome (change_of command.now) }
        requires lack { IsLack (length self.old.journal) lack }
        ensures refused { MayAnswer (Refused result)
            (answer_to self.old.names self.old.types self.old.journal role command.now) }
        ensures kept { self.new ≡ self.old }
    {
        if let Err(refusal) = self.session.would(role, command) {
            return refusal;
        }
        lack
    }
}
