//! Answers and entries into a buffer of the caller's.
ghost use Rattle.std.specs.Prelude.{◌≡◌, ◌≢◌, ℕ, ◌≤◌, Some, None, [], All, length, slice_get, Ok, IfOk, OnOk, OnErr};
ghost use Rattle.std.specs.Option.{option_copied};
ghost use Rattle.mps_base.specs.Names.{IsName};
ghost use Rattle.mps_base.specs.Spaced.{spaced};
ghost use Rattle.mps_history.specs.Slots.{value_in};
ghost use Rattle.mps_local.specs.Actions.{head};
ghost use Rattle.mps_show.specs.Shown.{head_tokens};
ghost use Rattle.mps_line.specs.JournalLines.{SpellsJournalLine, CanBeWritten};
ghost use Rattle.mps_line.specs.Replies.{SpellsReply};
ghost use Rattle.mps_room.specs.declared.entry.Entry.{Entry as Kept};
ghost use Rattle.mps_embed.specs.Embedded.{front_over, IsFilled, IsForesight, IsInSlot, IsWanted};
ghost use Rattle.mps_embed.specs.Embedded.{SpellsForesight, SpellsIfSome, participant_in};
ghost use Rattle.mps_embed.specs.Kept.{IsChoiceTold};

use crate::embedded::Embedded;
use mps_base::{Name, Value};
use mps_dev::Sink;
use mps_line::Reply;
use mps_line::journal_lines::write_journal_line;
use mps_open::{Fault, choice_text};
use mps_room::Room;
use mps_show::write_expects;
use mps_wire::laws::each_entry_can_be_written;
use mps_wire::write_outcome;
use std::alloc::{AllocError, Global};

// Copies the front of the text over the front of `out`, as many bytes as both have; the rest of `out` stays, and no NUL is
// put after them. For calls that return how long the whole text is.
fn copy_front(text: &[u8], out: &mut [u8])
    ensures { out.new ≡ front_over text.now out.old }
{
    let n = text.len().min(out.len());
    out[..n].copy_from_slice(&text[..n]);
}

// A law for `put_entry`: each entry of a room's journal has a line. When run it changes nothing.
fn each_has_a_line(room: &Room)
    ensures { (k : ℕ) (entry : Kept) → slice_get room.now.journal k ≡ Some entry
        → CanBeWritten room.now.names entry.role entry.command }
{
    // looked at for the proof alone: the journal is legal, there is a name for each type, peers are roles
    let _legal = room.entries();
    let _many = room.names();
    let _peers = room.session().roles();
    each_entry_can_be_written();
}

// Replaces the buffer's content by the line of the k-th entry, from 0, or by nothing past the end. When out of memory
// the buffer may be empty.
fn put_entry(room: &Room, k: u64, text: &mut Vec<u8>) -> Result<(), AllocError>
    ensures line { (entry : Kept) → slice_get room.now.journal k ≡ Some entry
        → OnOk result (SpellsJournalLine room.now.names text.new.items entry.role None entry.command) }
    ensures past { length room.now.journal ≤ k → OnOk result (text.new.items ≡ []) }
{
    text.clear();
    let Some(asked) = room.command(k)? else {
        return Ok(());
    };
    let (role, command) = asked;
    // for the proof alone
    each_has_a_line(room);
    write_journal_line(room.names(), role, None, &command, text)
}

// Replaces the buffer's content by what is foreseen. When out of memory a part may stand there.
fn put_foresight(foretold: &Result<(), Reply>, text: &mut Vec<u8>) -> Result<(), AllocError>
    ensures { OnOk result (SpellsForesight foretold.now text.new.items) }
{
    text.clear();
    match foretold {
        Ok(()) => text.extend_from_slice(b"accepted"),
        Err(reply) => reply.write(text),
    }
}

// Replaces the buffer's content by what the type of the role of that name wants next, or by nothing. When out of memory a
// part may stand there.
fn put_expects(room: &Room, role: &[u8], text: &mut Vec<u8>) -> Result<(), AllocError>
    ensures known { (place : ℕ) → slice_get room.now.names place ≡ Some role.now → OnOk result
        (text.new.items ≡ spaced (head_tokens room.now.names (head (participant_in room.now place).to_come))) }
    ensures unknown { All (λ name. name ≢ role.now) room.now.names → OnOk result (text.new.items ≡ []) }
{
    text.clear();
    match room.names().find_spelled(role) {
        Some(place) => write_expects(room.names(), room.session(), place, text),
        None => Ok(()),
    }
}

// Appends the value, if there is one.
fn put_value(value: Option<&Value>, text: &mut Vec<u8>) -> Result<(), AllocError>
    requires { text.old.items ≡ [] }
    ensures { OnOk result (SpellsIfSome (option_copied value.entry) text.new.items) }
{
    match value {
        Some(value) => value.write(text),
        None => Ok(()),
    }
}

// Replaces the buffer's content by what stands in that slot of the role of that name, or by nothing. When out of memory a
// part may stand there.
fn put_slot(room: &Room, role: &[u8], slot: &[u8], text: &mut Vec<u8>) -> Result<(), AllocError>
    ensures known { (place : ℕ) → slice_get room.now.names place ≡ Some role.now → IsName slot.now → OnOk result
        (SpellsIfSome (value_in slot.now (participant_in room.now place).store) text.new.items) }
    ensures nameless { (IsName slot.now → ⊥) → OnOk result (text.new.items ≡ []) }
    ensures unknown { All (λ name. name ≢ role.now) room.now.names → OnOk result (text.new.items ≡ []) }
{
    text.clear();
    let Some(slot) = Name::read(slot) else {
        return Ok(());
    };
    match room.names().find_spelled(role) {
        Some(place) => put_value(room.session().slot(place, &slot), text),
        None => Ok(()),
    }
}

/// Copies the words of the choice of that number of the protocol that the text spells, as `choice_text`, over the front of
/// `out`, as much as fits. Returned is the length of the whole in bytes, 0 where the text can't be read or has not so many
/// choices. Out of memory is the only error: `out` stays.
pub fn choice_into(
    alloc: Global,
    text: &[u8],
    number: u64,
    out: &mut [u8],
) -> Result<usize, AllocError>
    ensures ok { IfOk result (IsFilled (IsChoiceTold text.now number) out.old out.new) }
    ensures err { OnErr result (out.new ≡ out.old) }
{
    let words = match choice_text(alloc, text, number) {
        Ok(words) => words,
        Err(Fault::Text { .. }) => return Ok(0),
        // for want of memory: a text that isn't read has no other fault
        Err(_) => return Err(AllocError),
    };
    copy_front(words.as_slice(), out);
    Ok(words.len())
}

impl<W: Sink> Embedded<W> {
    /// Copies the answer to the newest line over the front of `out`, as much as fits, and returns the length of the
    /// whole in bytes, as snprintf does; it may be asked for again. Out of memory is the only error: `out` stays, and
    /// the answer isn't lost.
    pub fn answer_into(&mut self, out: &mut [u8]) -> Result<usize, AllocError>
        ensures same { self.new ≡ self.old }
        ensures ok { IfOk result (IsFilled (λ text. SpellsReply text self.old.reply) out.old out.new) }
        ensures err { OnErr result (out.new ≡ out.old) }
    {
        self.text.clear();
        write_outcome(&self.guest, &self.outcome, &mut self.text)?;
        copy_front(self.text.as_slice(), out);
        Ok(self.text.len())
    }

    /// Copies the k-th entry of the journal, from 0, as a script's line over the front of `out`, as much as fits, and
    /// returns the length of the whole in bytes. Past the end that is 0, and nowhere else. Out of memory is the only
    /// error, and leaves `out` unchanged.
    pub fn entry_into(&mut self, k: u64, out: &mut [u8]) -> Result<usize, AllocError>
        ensures same { self.new ≡ self.old }
        ensures line { (entry : Kept) → slice_get self.old.room.journal k ≡ Some entry
            → IfOk result (IsFilled
            (λ text. SpellsJournalLine self.old.room.names text entry.role None entry.command) out.old out.new) }
        ensures past { length self.old.room.journal ≤ k → IfOk result (λ n. (n ≡ 0) × (out.new ≡ out.old)) }
        ensures empty { result ≡ Ok 0 → length self.old.room.journal ≤ k }
        ensures err { OnErr result (out.new ≡ out.old) }
    {
        let solo = &self.guest.inner;
        put_entry(&solo.room, k, &mut self.text)?;
        copy_front(self.text.as_slice(), out);
        Ok(self.text.len())
    }

    /// Copies what that line would be answered, were it given now, over the front of `out`, as much as fits: `accepted`, or
    /// the refusal. Returned is the length of the whole in bytes. Nothing changes. Out of memory is the only error: `out`
    /// stays.
    pub fn would_into(
        &mut self,
        role: &[u8],
        line: &[u8],
        out: &mut [u8],
    ) -> Result<usize, AllocError>
        ensures same { self.new ≡ self.old }
        ensures ok { IfOk result (IsFilled (IsForesight self.old role.now line.now) out.old out.new) }
        ensures err { OnErr result (out.new ≡ out.old) }
    {
        let foretold = self.would(role, line);
        put_foresight(&foretold, &mut self.text)?;
        copy_front(self.text.as_slice(), out);
        Ok(self.text.len())
    }

    /// Copies what the type of the role of that name wants next, as `show` has it, over the front of `out`, as much as fits:
    /// `end`, or an act's word, the peer, and a sort or labels. Returned is the length of the whole in bytes, 0 where no role
    /// has the name. Out of memory is the only error: `out` stays.
    pub fn expects_into(&mut self, role: &[u8], out: &mut [u8]) -> Result<usize, AllocError>
        ensures same { self.new ≡ self.old }
        ensures ok { IfOk result (IsFilled (IsWanted self.old role.now) out.old out.new) }
        ensures err { OnErr result (out.new ≡ out.old) }
    {
        let solo = &self.guest.inner;
        put_expects(&solo.room, role, &mut self.text)?;
        copy_front(self.text.as_slice(), out);
        Ok(self.text.len())
    }

    /// Copies the value in that slot of the role of that name, as lines have it, over the front of `out`, as much as fits.
    /// Returned is the length of the whole in bytes, 0 where there is no such role, or nothing in the slot. Out of memory is
    /// the only error: `out` stays.
    pub fn slot_into(
        &mut self,
        role: &[u8],
        slot: &[u8],
        out: &mut [u8],
    ) -> Result<usize, AllocError>
        ensures same { self.new ≡ self.old }
        ensures ok { IfOk result (IsFilled (IsInSlot self.old role.now slot.now) out.old out.new) }
        ensures err { OnErr result (out.new ≡ out.old) }
    {
        let solo = &self.guest.inner;
        put_slot(&solo.room, role, slot, &mut self.text)?;
        copy_front(self.text.as_slice(), out);
        Ok(self.text.len())
    }
}
