//! What the exports call: safe code over the room.
ghost use Rattle.std.specs.Prelude.{◌≡◌, ◌≢◌, ℕ, ◌<◌, ◌≤◌, true, false, Some, None, All, [], length, slice_get, IfOk, IfErr, OnOk};
ghost use Rattle.mps_embed.specs.Embedded.{IsAnswered, IsForesight, IsInSlot, IsNewRoomOf, IsOnlyTold, IsWanted};
ghost use Rattle.mps_embed.specs.Embedded.{newest_at};
ghost use Rattle.mps_keeper.specs.Trails.{RecordedOn};
ghost use Rattle.mps_room.specs.Callers.{entries_of};
ghost use Rattle.mps_room.specs.Numbers.{last_of};
ghost use Rattle.mps_embed.specs.Kept.{GivesNoRoom, IsChoiceTold, IsKeptRoomOf, IsStored, IsUnusable};
ghost use Rattle.mps_line.specs.JournalLines.{SpellsJournalLine};
ghost use Rattle.mps_line.specs.Replies.{SpellsReply};
ghost use Rattle.mps_line.specs.declared.write_replies.Reply.TheVariants.{NoRole as Nobody, Unkept as Lost};
ghost use Rattle.mps_open.specs.Faults.{GivesNoSession};
ghost use Rattle.mps_room.specs.declared.entry.Entry.{Entry as Kept};
ghost use Rattle.mps_c.specs.Results.{IsFilledOrLeft, length_of, merging_of};

use mps_embed::{FileFault, FileOf, FileRoom, choice_into};
use mps_open::{Fault, Merging};
use std::alloc::{AllocError, Global};
use std::io;
use std::io::ErrorKind;

/// What tells a caller in C that there was no memory for a text.
pub const NO_MEMORY: usize = usize::MAX;

// The length of a whole text in bytes, or `NO_MEMORY`: an error as a number, as C has no `Result`.
fn length_or_none(written: Result<usize, AllocError>) -> usize
    ensures { result ≡ length_of written }
{
    match written {
        Ok(length) => length,
        Err(_) => NO_MEMORY,
    }
}

/// Opens a room of a new session of the protocol that the text spells, by that kind of merging, in a box, since C holds a
/// pointer. The error is the first fault, or `Memory` where memory ran out before one was found; after it nothing is kept.
pub fn open(alloc: Global, merging: Merging, text: &[u8]) -> Result<Box<FileRoom>, Fault>
    ensures opened { IfOk result (λ made. IsNewRoomOf merging text.now made.value) }
    ensures fault { IfErr result (GivesNoSession merging text.now) }
{
    let room = FileRoom::open_by(alloc, merging, text)?;
    match Box::new(alloc, room) {
        Ok(made) => Ok(made),
        Err(_) => Err(Fault::Memory),
    }
}

// The flags, by which each accepted line is stored on the disk before it is answered, and by which branches are merged
// fully.
const SYNC: u32 = 1;

const FULL_MERGING: u32 = 2;

// The kind of merging that the flags ask for, of which there are no others.
fn merging_of(flags: u32) -> Merging
    requires { flags ≤ 3 }
    ensures { result ≡ merging_of flags }
{
    if flags >= FULL_MERGING {
        Merging::Full
    } else {
        Merging::Plain
    }
}

/// `open`, as that file of the room leaves it, which goes on to record it. Flags that aren't known are refused as an invalid
/// argument.
pub fn open_file(
    alloc: Global,
    text: &[u8],
    path: &[u8],
    session: u64,
    flags: u32,
) -> Result<Box<FileRoom>, FileFault>
    ensures opened { IfOk result (λ made. IsKeptRoomOf (merging_of flags) text.now made.value) }
    ensures known { OnOk result (flags ≤ 3) }
    ensures fault { flags ≤ 3 → IfErr result (GivesNoRoom (merging_of flags) text.now) }
    ensures flags { 3 < flags → IfErr result IsUnusable }
{
    if flags > SYNC + FULL_MERGING {
        return Err(FileFault::Unusable(io::Error::from(ErrorKind::InvalidInput)));
    }
    let of = FileOf {
        path,
        session,
        sync: flags % FULL_MERGING == SYNC,
    };
    let room = FileRoom::open_file_by(alloc, merging_of(flags), text, of)?;
    match Box::new(alloc, room) {
        Ok(made) => Ok(made),
        Err(_) => Err(FileFault::Room(Fault::Memory)),
    }
}

/// Copies as much as fits of the words of that choice of the protocol that the text spells, and returns the length of the
/// whole in bytes, 0 where there is none, or `NO_MEMORY`, with `out` unchanged.
pub fn choice(alloc: Global, text: &[u8], number: u64, out: &mut [u8]) -> usize
    ensures { IsFilledOrLeft (IsChoiceTold text.now number) out.old out.new result }
{
    length_or_none(choice_into(alloc, text, number, out))
}

/// Has the disk store all that was answered so far. Says whether it is stored.
pub fn sync(room: &mut FileRoom) -> bool
    ensures { IsStored room.old result room.new }
{
    room.sync()
}

/// Copies as much as fits of what that line would be answered, `accepted` or the refusal, and returns the length of the whole
/// in bytes, or `NO_MEMORY`, with `out` unchanged.
pub fn would(room: &mut FileRoom, role: &[u8], line: &[u8], out: &mut [u8]) -> usize
    ensures same { room.new ≡ room.old }
    ensures told { IsFilledOrLeft (IsForesight room.old role.now line.now) out.old out.new result }
{
    length_or_none(room.would_into(role, line, out))
}

/// Copies as much as fits of what the role's type wants next, and returns the length of the whole in bytes, 0 where no role
/// has the name, or `NO_MEMORY`, with `out` unchanged.
pub fn expects(room: &mut FileRoom, role: &[u8], out: &mut [u8]) -> usize
    ensures same { room.new ≡ room.old }
    ensures wanted { IsFilledOrLeft (IsWanted room.old role.now) out.old out.new result }
{
    length_or_none(room.expects_into(role, out))
}

/// Copies as much as fits of the value in the role's slot, and returns the length of the whole in bytes, 0 where there is
/// none, or `NO_MEMORY`, with `out` unchanged.
pub fn slot(room: &mut FileRoom, role: &[u8], slot: &[u8], out: &mut [u8]) -> usize
    ensures same { room.new ≡ room.old }
    ensures value { IsFilledOrLeft (IsInSlot room.old role.now slot.now) out.old out.new result }
{
    length_or_none(room.slot_into(role, slot, out))
}

/// Runs the line as a command of the role of that name, copies as much of the answer as fits, and returns the length of
/// the whole in bytes, or `NO_MEMORY`: then the line was run, and `answer` gives it again.
pub fn line(room: &mut FileRoom, role: &[u8], line: &[u8], out: &mut [u8]) -> usize
    ensures known { (place : ℕ) → slice_get room.old.room.names place ≡ Some role.now
        → room.old.whole ≡ true → IsAnswered room.old place line.now room.new }
    ensures lost { (place : ℕ) → slice_get room.old.room.names place ≡ Some role.now
        → room.old.whole ≡ false → IsOnlyTold Lost room.old room.new }
    ensures recorded { (place : ℕ) → slice_get room.old.room.names place ≡ Some role.now
        → room.old.records ≡ true → room.new.whole ≡ true
        → RecordedOn room.old.room.names room.old.taken room.new.taken (last_of (newest_at room.old place))
        (last_of (newest_at room.new place)) (entries_of place room.old.room.journal)
        (entries_of place room.new.room.journal) }
    ensures records { room.new.records ≡ room.old.records }
    ensures idle { room.old.records ≡ false → room.new.whole ≡ room.old.whole }
    ensures unknown { All (λ name. name ≢ role.now) room.old.room.names → IsOnlyTold Nobody room.old room.new }
    ensures answer { IsFilledOrLeft (λ text. SpellsReply text room.new.reply) out.old out.new result }
{
    room.line(role, line);
    length_or_none(room.answer_into(out))
}

/// Copies as much of the newest answer as fits, and returns the length of the whole in bytes, or `NO_MEMORY`, with
/// `out` unchanged. The room stays, so it may be asked for again.
pub fn answer(room: &mut FileRoom, out: &mut [u8]) -> usize
    ensures same { room.new ≡ room.old }
    ensures answer { IsFilledOrLeft (λ text. SpellsReply text room.old.reply) out.old out.new result }
{
    length_or_none(room.answer_into(out))
}

/// How many entries the journal has, at most 100,000. The borrow is exclusive, as a `Handle` lends its room so.
pub fn entries(room: &mut FileRoom) -> u64
    ensures same { room.new ≡ room.old }
    ensures count { result ≡ length room.old.room.journal }
{
    room.room().entries()
}

/// Copies as much of the k-th entry's line as fits, from 0, and returns the length of the whole in bytes: 0 past the
/// end, and nowhere else. `NO_MEMORY` leaves `out` unchanged.
pub fn entry(room: &mut FileRoom, k: u64, out: &mut [u8]) -> usize
    ensures same { room.new ≡ room.old }
    ensures line { (entry : Kept) → slice_get room.old.room.journal k ≡ Some entry
        → IsFilledOrLeft (λ text. SpellsJournalLine room.old.room.names text entry.role None entry.command)
        out.old out.new result }
    ensures past { length room.old.room.journal ≤ k → IsFilledOrLeft (λ text. text ≡ []) out.old out.new result }
    ensures empty { result ≡ 0 → length room.old.room.journal ≤ k }
{
    length_or_none(room.entry_into(k, out))
}

/// Drops the room, with its session and journal, and frees its memory. Apart from the export, so that only this file
/// knows what a room is.
pub fn close(_room: Box<FileRoom>) {}
