//! The journal of a room, as it is kept.
ghost use Rattle.std.specs.Prelude.{◌≡◌, ℕ, ◌+◌, ◌*◌, ◌<◌, ◌≤◌, ◌^◌, ◌++◌, ◌∷◌, [], true, None, Ok, length, map, slice_get};
ghost use Rattle.std.specs.Prelude.{vec_len, vec_capacity, IfOk, OnOk};
ghost use Rattle.std.specs.Option.{option_map};
ghost use Rattle.mps_base.specs.Names.{IsName};
ghost use Rattle.mps_command.specs.declared.command.Command.TheVariants as commands;
ghost use Rattle.mps_command.specs.declared.command.Forward.TheVariants as steps;
ghost use Rattle.mps_room.specs.Journal.{most_entries};
ghost use Rattle.mps_room.specs.Private.Forms.{lists_of, narrow, narrow_in, step_done, word_in, word_of};
ghost use Rattle.mps_room.specs.Private.Forms.{Fits, HasList, HasWord, TakesSuch};
ghost use Rattle.mps_room.specs.Private.Heard.{takes_others};
ghost use Rattle.mps_room.specs.Private.Narrow.{message_at, message_of, taken_at, with_message};
ghost use Rattle.mps_session.specs.declared.gist.Gist.TheVariants as gists;

use crate::form::{Form, Pair};
use mps_base::value::MAX_TEXT;
use mps_base::{Message, Name, Role, StepId, Value};
use mps_command::{Answer, Command, Done, Forward, StepIds};
use mps_session::Gist;
use std::alloc::{AllocError, Global};
use std::marker::Model;

/// The entries of a journal, in 16 bytes each, with the bytes of all their names and texts one after the other, and the
/// lists of what rollbacks and returns took back. A journal is mostly written, so an entry is made only for whoever asks
/// for it.
#[derive(Drop)]
pub(crate) struct Journal {
    forms: Vec<Form>,
    words: Vec<u8>,
    lists: Vec<Vec<StepId>>,
}

impl Model for Journal {
    ghost use Rattle.std.specs.Prelude.{map, nat_le, nat_lt, ◌&&◌, vec_len, vec_capacity, ◌+◌};
    ghost use Rattle.mps_room.specs.Private.Forms.{narrow_in, AreForms, Kept};

    ghost Value = { Kept };

    ghost view = { λ j. record {
      entries = map (narrow_in j.words.items (map (λ l. l.items) j.lists.items)) j.forms.items;
      has_space = nat_lt (vec_len j.forms) (vec_capacity j.forms)
          && nat_le (vec_len j.words + 256) (vec_capacity j.words);
      has_list_space = nat_lt (vec_len j.lists) (vec_capacity j.lists);
    } };

    ghost invariant = { λ j. AreForms j.forms.items j.words.items (map (λ l. l.items) j.lists.items) };
}

impl Journal {
    /// Without entries. It does not allocate.
    pub(crate) fn new(alloc: Global) -> Journal
        ensures { result.entries ≡ [] }
    {
        Journal {
            forms: Vec::new(alloc),
            words: Vec::new(alloc),
            lists: Vec::new(alloc),
        }
    }

    /// How many entries there are.
    pub(crate) fn len(&self) -> usize
        ensures { result ≡ length self.now.entries }
    {
        self.forms.len()
    }

    /// Reserves memory for one more entry, with the longest text. It asks first whether there is any, since most often there
    /// is, and `reserve` is a call. Out of memory is the only error; the entries are unchanged then.
    #[inline(always)]
    pub(crate) fn reserve_one(&mut self) -> Result<(), AllocError>
        ensures entries { self.new.entries ≡ self.old.entries }
        ensures space { OnOk result (self.new.has_space ≡ true) }
    {
        if self.forms.len() == self.forms.capacity() {
            self.forms.reserve(1)?;
        }
        if self.words.capacity() - self.words.len() < MAX_TEXT {
            self.words.reserve(MAX_TEXT)?;
        }
        Ok(())
    }

    /// Reserves memory for the list of one more entry. Out of memory is the only error; the entries are unchanged then.
    pub(crate) fn reserve_list(&mut self) -> Result<(), AllocError>
        ensures entries { self.new.entries ≡ self.old.entries }
        ensures space { self.new.has_space ≡ self.old.has_space }
        ensures list_space { OnOk result (self.new.has_list_space ≡ true) }
    {
        self.lists.reserve(1)
    }

    /// Appends the entry of an accepted command, by the gist of its answer and the place of the entry that sent what it
    /// took, if it took a message. Memory was reserved, so it can't fail.
    #[inline(always)]
    pub(crate) fn push(&mut self, role: Role, command: &Command, gist: Gist, sent_at: Option<u32>)
        requires fits { Fits command.now gist sent_at }
        requires few { length self.old.entries < most_entries }
        requires space { self.old.has_space ≡ true }
        requires list_space { takes_others command.now ≡ true → self.old.has_list_space ≡ true }
        ensures { self.new.entries ≡ self.old.entries ++ narrow role command.now gist sent_at ∷ [] }
    {
        let form = form_of(
            &mut self.words,
            &mut self.lists,
            role,
            command,
            gist,
            sent_at,
        );
        self.forms.push_reserved(form);
    }

    /// The role and the command of the k-th entry, from 0, made anew, or `None` past the end. Only a send of a text
    /// allocates; it fails only when out of memory.
    pub(crate) fn asked(
        &self,
        k: usize,
        alloc: Global,
    ) -> Result<Option<(Role, Command)>, AllocError>
        ensures asked { IfOk result (λ asked. asked
            ≡ option_map (λ s. (s.entry.role, s.entry.command)) (slice_get self.now.entries k)) }
        ensures none { length self.now.entries ≤ k → result ≡ Ok None }
    {
        match self.forms.get(k) {
            Some(form) => Ok(Some((form.role(), form.command(self.words.as_slice(), alloc)?))),
            None => Ok(None),
        }
    }

    /// The answer to the k-th entry's command, from 0, made anew, or `None` past the end: what a receipt took is copied from
    /// the entry of its send. Texts and lists of numbers allocate; it fails only when out of memory.
    pub(crate) fn answer(&self, k: usize, alloc: Global) -> Result<Option<Answer>, AllocError>
        ensures { IfOk result (λ answer. answer
            ≡ option_map (λ s. with_message (message_of self.now.entries s) s.entry.answer)
            (slice_get self.now.entries k)) }
    {
        let Some(form) = self.forms.get(k) else {
            return Ok(None);
        };
        Ok(Some(match form {
            Form::Sent { id, .. }
            | Form::Told { id, .. }
            | Form::Wrote { id, .. }
            | Form::Chose { id, .. }
            | Form::Marked { id, .. }
            | Form::Committed { id, .. } => done(*id, None),
            Form::Received { id, place, .. } | Form::Picked { id, place, .. } => {
                done(*id, self.message_at(*place, alloc)?)
            }
            Form::Undone { id, .. } => Answer::Undone(StepIds::one(*id)),
            Form::RolledBack { .. } | Form::WentBack { .. } => {
                let ids = form.undone(self.lists.as_slice());
                Answer::Undone(StepIds::of(Vec::from_slice(alloc, ids)?))
            }
        }))
    }

    // The message that the entry at this place gave, copied; `None` where it gave none, or there is no such entry. It fails
    // only when out of memory.
    fn message_at(&self, place: u32, alloc: Global) -> Result<Option<Message>, AllocError>
        ensures { IfOk result (λ message. message ≡ message_at self.now.entries place) }
    {
        match self.forms.get(place as usize) {
            Some(form) => form.given(self.words.as_slice(), alloc),
            None => Ok(None),
        }
    }

    /// The numbers of the steps that the entry at this place took back, borrowed; none where it is a new step, or there is
    /// no such entry.
    pub(crate) fn undone_at(&self, place: u32) -> &[StepId]
        ensures { result.now ≡ taken_at self.now.entries place }
    {
        match self.forms.get(place as usize) {
            Some(form) => form.undone(self.lists.as_slice()),
            None => &[],
        }
    }
}

// The answer to a new step of this number, with the message that it took, if it took one. It does not allocate.
fn done(id: u32, got: Option<Message>) -> Answer
    ensures { result ≡ step_done id got }
{
    Answer::Done(Done {
        id: StepId::new(u64::from(id)),
        got,
    })
}

// The form of an accepted command's entry. Its name or text joins the words, and the numbers that it took back the lists;
// memory was reserved for both.
#[inline(always)]
fn form_of(
    words: &mut Vec<u8>,
    lists: &mut Vec<Vec<StepId>>,
    role: Role,
    command: &Command,
    gist: Gist,
    sent_at: Option<u32>,
) -> Form
    requires fits { Fits command.now gist sent_at }
    requires space { vec_len words.old + 256 ≤ vec_capacity words.old }
    requires few { vec_len words.old < 2 ^ 32 }
    requires list_space { takes_others command.now ≡ true → vec_len lists.old < vec_capacity lists.old }
    requires few_lists { vec_len lists.old < 2 ^ 32 }
    ensures words { words.new.items ≡ words.old.items ++ word_of command.now }
    ensures short { length words.new.items ≤ length words.old.items + 256 }
    ensures lists { map (λ l. l.items) lists.new.items ≡ map (λ l. l.items) lists.old.items ++ lists_of gist }
    ensures form { narrow_in words.new.items (map (λ l. l.items) lists.new.items) result
        ≡ narrow role command.now gist sent_at }
    ensures word { HasWord words.new.items result }
    ensures list { HasList (length lists.new.items) result }
{
    // a role's place fits a byte
    let by = role.index() as u8;
    match command {
        Command::Forward(step) => match gist {
            Gist::Stepped { id, .. } => form_of_step(words, role, step, id, sent_at),
            // the clause `fits` excludes this and the arms like it
            _ => unreachable!(),
        },
        Command::Undo(id) => Form::Undone { role: by, id: *id },
        Command::Rollback(id) => match gist {
            Gist::TookBack(ids) => Form::RolledBack {
                role: by,
                list: keep_list(lists, ids),
                id: *id,
            },
            _ => unreachable!(),
        },
        Command::Back(mark) => match gist {
            Gist::TookBack(ids) => {
                let (size, start) = keep_name(words, mark);
                Form::WentBack {
                    role: by,
                    size,
                    start,
                    list: keep_list(lists, ids),
                }
            }
            _ => unreachable!(),
        },
        Command::News(_) | Command::Show | Command::Stand => unreachable!(),
    }
}

// `form_of` for a new step. `sent_at` is the place of the entry that sent the message: a receipt and a pick have one, other
// steps none. Apart, so that its arms are proved under `TakesSuch` alone, which is what `Fits` says of a step.
#[inline(always)]
fn form_of_step(
    words: &mut Vec<u8>,
    role: Role,
    step: &Forward,
    id: StepId,
    sent_at: Option<u32>,
) -> Form
    requires such { TakesSuch step.now sent_at }
    requires small { id < 2 ^ 32 }
    requires space { vec_len words.old + 256 ≤ vec_capacity words.old }
    requires few { vec_len words.old < 2 ^ 32 }
    ensures words { words.new.items ≡ words.old.items ++ word_in step.now }
    ensures short { length words.new.items ≤ length words.old.items + 256 }
    ensures form { (lists : _) → narrow_in words.new.items lists result
        ≡ narrow role (commands.Forward step.now) (gists.Stepped id None) sent_at }
    ensures word { HasWord words.new.items result }
    ensures list { (n : ℕ) → HasList n result }
{
    // by the clause `small` the number fits
    let id = id.number() as u32;
    match step {
        Forward::Send { to, value } => form_of_send(words, Pair::of(role, *to), value, id),
        Forward::Choose { to, label } => {
            let (size, start) = keep_name(words, label);
            Form::Chose {
                pair: Pair::of(role, *to),
                size,
                id,
                start,
            }
        }
        Forward::Receive { from, slot } => {
            let (size, start) = keep_name(words, slot);
            Form::Received {
                pair: Pair::of(role, *from),
                size,
                id,
                // the clause `such` says that there is one, as below
                place: sent_at.unwrap(),
                start,
            }
        }
        Forward::Pick { from } => Form::Picked {
            pair: Pair::of(role, *from),
            id,
            place: sent_at.unwrap(),
        },
        Forward::Mark { name } => {
            let (size, start) = keep_name(words, name);
            Form::Marked {
                role: role.index() as u8,
                size,
                id,
                start,
            }
        }
        Forward::Commit => Form::Committed {
            role: role.index() as u8,
            id,
        },
    }
}

// `form_of_step` for the send of a value, apart for the sake of its proof.
#[inline(always)]
fn form_of_send(words: &mut Vec<u8>, pair: Pair, value: &Value, id: u32) -> Form
    requires space { vec_len words.old + 256 ≤ vec_capacity words.old }
    requires few { vec_len words.old < 2 ^ 32 }
    ensures words { words.new.items ≡ words.old.items ++ word_in (steps.Send pair.peer value.now) }
    ensures short { length words.new.items ≤ length words.old.items + 256 }
    ensures form { (lists : _) → narrow_in words.new.items lists result
        ≡ narrow pair.role (commands.Forward (steps.Send pair.peer value.now)) (gists.Stepped id None) None }
    ensures word { HasWord words.new.items result }
    ensures list { (n : ℕ) → HasList n result }
{
    match value {
        Value::Int(number) => Form::Sent {
            pair,
            id,
            number: *number,
        },
        Value::Bool(truth) => Form::Told {
            pair,
            truth: *truth,
            id,
        },
        Value::Text(text) => {
            let bytes = text.as_bytes();
            Form::Wrote {
                pair,
                id,
                start: keep_word(words, bytes),
                // a text has at most 256 bytes
                size: bytes.len() as u32,
            }
        }
    }
}

// Appends the bytes of a name, for which memory was reserved, and gives how many there are and their place. The clause
// `name` is for its callers' proofs: how many there are fits a byte.
#[inline(always)]
fn keep_name(words: &mut Vec<u8>, name: &Name) -> (u8, u32)
    requires space { vec_len words.old + 256 ≤ vec_capacity words.old }
    requires few { vec_len words.old < 2 ^ 32 }
    ensures words { words.new.items ≡ words.old.items ++ name.now }
    ensures size { result.0 ≡ length name.now }
    ensures start { result.1 ≡ length words.old.items }
    ensures name { IsName name.now }
{
    let bytes = name.as_bytes();
    // a name has at most 32 bytes
    (bytes.len() as u8, keep_word(words, bytes))
}

// Appends the bytes of a name or a text, for which memory was reserved, and gives their place.
#[inline(always)]
fn keep_word(words: &mut Vec<u8>, bytes: &[u8]) -> u32
    requires space { vec_len words.old + length bytes.now ≤ vec_capacity words.old }
    requires few { vec_len words.old < 2 ^ 32 }
    ensures words { words.new.items ≡ words.old.items ++ bytes.now }
    ensures start { result ≡ length words.old.items }
{
    let start = words.len() as u32;
    let _kept = words.extend_from_slice(bytes);
    start
}

// Appends a list of numbers, for which memory was reserved, and gives its place.
fn keep_list(lists: &mut Vec<Vec<StepId>>, ids: Vec<StepId>) -> u32
    requires space { vec_len lists.old < vec_capacity lists.old }
    requires few { vec_len lists.old < 2 ^ 32 }
    ensures lists { lists.new.items ≡ lists.old.items ++ ids ∷ [] }
    ensures place { result ≡ length lists.old.items }
{
    let place = lists.len() as u32;
    lists.push_reserved(ids);
    place
}
