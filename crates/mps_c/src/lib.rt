//! Rooms for callers in C, behind a struct of one pointer that owns one. The header is bindings/c/cizhmolat.h.
#![tactic(auto)]

ghost use Rattle.std.specs.Prelude.{◌≡◌, ◌≢◌, ℕ, ◌≤◌, true, false, Some, None, All, [], length, slice_get, IfErr, OnOk};
ghost use types.Logic.{sem};
ghost use Rattle.mps_embed.specs.Embedded.{IsAnswered, IsForesight, IsInSlot, IsOnlyTold, IsWanted, newest_at};
ghost use Rattle.mps_embed.specs.Kept.{IsChoiceTold, IsStored};
ghost use Rattle.mps_line.specs.JournalLines.{SpellsJournalLine};
ghost use Rattle.mps_line.specs.Replies.{SpellsReply};
ghost use Rattle.mps_line.specs.declared.write_replies.Reply.TheVariants.{NoRole as Nobody, Unkept as Lost};
ghost use Rattle.mps_keeper.specs.Trails.{RecordedOn};
ghost use Rattle.mps_room.specs.Callers.{entries_of};
ghost use Rattle.mps_room.specs.Numbers.{last_of};
ghost use Rattle.mps_room.specs.declared.entry.Entry.{Entry as Kept};
ghost use Rattle.mps_local.specs.declared.merging.Merging.TheVariants.{Plain, Full};
ghost use Rattle.mps_open.specs.Faults.{number_of, place_of};
ghost use Rattle.mps_c.specs.Handle.{handle_owns, RoomValue, the_code};
ghost use Rattle.mps_c.specs.Results.{IsFilledOrLeft, Opens, OpensKept};

use mps_embed::FileRoom;
use mps_open::{Fault, Merging};
use std::alloc::Global;
use std::marker::Model;

mod calls;

/// What C keeps: the one pointer to a room, which the struct owns.
#[repr(C)]
pub struct Handle {
    at: *mut u8,
    ghost room: { RoomValue } by { the_code },
}

impl Model for Handle {
    ghost also_owns = { λ h. handle_owns h.at h.room };
}

impl Handle {
    ghost use Rattle.std.specs.Prelude.{◌≡◌};
    ghost use types.Logic.{sem};
    ghost use Rattle.mps_c.specs.Lending.{LendsRoom};

    // Lends the room behind the pointer. The contract is written by hand, as the code is unsafe: the handle ends with
    // the last value behind what is lent.
    fn room(&mut self) -> &mut FileRoom
        ensures* writes_back { sem 𝓛 (LendsRoom self.entry result) }
        ensures value { result.now ≡ self.old.room }
    {
        unsafe { &mut *(self.at as *mut FileRoom) }
    }
}

/// Opens a room of a new session of the protocol that the text spells, by plain merging, and stores its pointer in `room`;
/// `mps_close_at` has to free it. On `false` the fault's number and place are stored, and `room` stays; on `true` `fault`
/// and `place` stay.
#[unsafe(no_mangle)]
pub extern "C" fn mps_open(
    alloc: Global,
    text: &[u8],
    room: &mut *mut u8,
    fault: &mut u32,
    place: &mut u64,
) -> bool
    ensures opened { Opens Plain text.now result fault.new place.new }
    ensures kept { result ≡ false → room.new ≡ room.old }
    ensures untold { result ≡ true → (fault.new ≡ fault.old) × (place.new ≡ place.old) }
{
    stored(calls::open(alloc, Merging::Plain, text), room, fault, place)
}

/// `mps_open` by full merging.
#[unsafe(no_mangle)]
pub extern "C" fn mps_open_full(
    alloc: Global,
    text: &[u8],
    room: &mut *mut u8,
    fault: &mut u32,
    place: &mut u64,
) -> bool
    ensures opened { Opens Full text.now result fault.new place.new }
    ensures kept { result ≡ false → room.new ≡ room.old }
    ensures untold { result ≡ true → (fault.new ≡ fault.old) × (place.new ≡ place.old) }
{
    stored(calls::open(alloc, Merging::Full, text), room, fault, place)
}

// Stores the pointer of a room that was opened, or why there is none. Says whether there is one.
fn stored(
    opened: Result<Box<FileRoom>, Fault>,
    room: &mut *mut u8,
    fault: &mut u32,
    place: &mut u64,
) -> bool
    ensures ok { OnOk opened (result ≡ true) }
    ensures fault { IfErr opened (λ why. (result ≡ false) × (fault.new ≡ number_of why) × (place.new ≡ place_of why)) }
    ensures kept { result ≡ false → room.new ≡ room.old }
    ensures untold { result ≡ true → (fault.new ≡ fault.old) × (place.new ≡ place.old) }
{
    match opened {
        Ok(made) => {
            *room = Box::into_raw(made) as *mut u8;
            true
        }
        Err(why) => {
            *fault = why.number();
            *place = why.place();
            false
        }
    }
}

/// Opens a room of the protocol that the text spells, as the file at the path leaves it, which records its accepted lines
/// from then on. Its seals are those of a session of that number. On `false` as `mps_open`, with 64 to 68 for a fault of the
/// file, whose place is the line's number, or the system's number of its error; flags that aren't known are refused as an
/// invalid argument.
#[unsafe(no_mangle)]
pub extern "C" fn mps_open_file(
    alloc: Global,
    text: &[u8],
    path: &[u8],
    session: u64,
    flags: u32,
    room: &mut *mut u8,
    fault: &mut u32,
    place: &mut u64,
) -> bool
    ensures opened { OpensKept text.now flags result fault.new place.new }
    ensures kept { result ≡ false → room.new ≡ room.old }
    ensures untold { result ≡ true → (fault.new ≡ fault.old) × (place.new ≡ place.old) }
{
    match calls::open_file(alloc, text, path, session, flags) {
        Ok(made) => {
            *room = Box::into_raw(made) as *mut u8;
            true
        }
        Err(why) => {
            *fault = why.number();
            *place = why.place();
            false
        }
    }
}

/// Copies as much as fits of the words of that choice of the protocol that the text spells, counted from 0 as the place of
/// faults 48 to 55, with a space between two: who chooses, who is told, and the labels. Returns the length of the whole in
/// bytes, 0 where the text can't be read or has not so many choices, or SIZE_MAX when out of memory, with `out` unchanged.
#[unsafe(no_mangle)]
pub extern "C" fn mps_choice(alloc: Global, text: &[u8], number: u64, out: &mut [u8]) -> usize
    ensures { IsFilledOrLeft (IsChoiceTold text.now number) out.old out.new result }
{
    calls::choice(alloc, text, number, out)
}

/// Has the disk store all that was answered so far, where the room has a file. Where it doesn't this is `false`, and the room
/// runs no more lines.
#[unsafe(no_mangle)]
pub extern "C" fn mps_sync(handle: &mut Handle) -> bool
    ensures { IsStored handle.old.room result handle.new.room }
{
    calls::sync(handle.room())
}

/// Copies as much as fits of what that line would be answered, were it given now: `accepted`, or the refusal. Returns the
/// length of the whole in bytes, or SIZE_MAX when out of memory, with `out` unchanged.
#[unsafe(no_mangle)]
pub extern "C" fn mps_would(handle: &mut Handle, role: &[u8], line: &[u8], out: &mut [u8]) -> usize
    ensures same { handle.new.room ≡ handle.old.room }
    ensures told { IsFilledOrLeft (IsForesight handle.old.room role.now line.now) out.old out.new result }
{
    calls::would(handle.room(), role, line, out)
}

/// Copies as much as fits of what the type of the role of that name wants next, as `show` has it. Returns the length of the
/// whole in bytes, 0 where no role has the name, or SIZE_MAX when out of memory, with `out` unchanged.
#[unsafe(no_mangle)]
pub extern "C" fn mps_expects(handle: &mut Handle, role: &[u8], out: &mut [u8]) -> usize
    ensures same { handle.new.room ≡ handle.old.room }
    ensures wanted { IsFilledOrLeft (IsWanted handle.old.room role.now) out.old out.new result }
{
    calls::expects(handle.room(), role, out)
}

/// Copies as much as fits of the value in the slot of the role of that name. Returns the length of the whole in bytes, 0
/// where there is none, or SIZE_MAX when out of memory, with `out` unchanged.
#[unsafe(no_mangle)]
pub extern "C" fn mps_slot(handle: &mut Handle, role: &[u8], slot: &[u8], out: &mut [u8]) -> usize
    ensures same { handle.new.room ≡ handle.old.room }
    ensures value { IsFilledOrLeft (IsInSlot handle.old.room role.now slot.now) out.old out.new result }
{
    calls::slot(handle.room(), role, slot, out)
}

/// Runs the line as a command of the role of that name, and copies as much of the answer as fits. Returns the length of
/// the whole in bytes, or SIZE_MAX when out of memory: the line was run then, and `mps_answer` gives its answer. All
/// but the pointer is left to `calls`, which is safe code.
#[unsafe(no_mangle)]
pub extern "C" fn mps_line(handle: &mut Handle, role: &[u8], line: &[u8], out: &mut [u8]) -> usize
    ensures known { (place : ℕ) → slice_get handle.old.room.room.names place ≡ Some role.now
        → handle.old.room.whole ≡ true → IsAnswered handle.old.room place line.now handle.new.room }
    ensures lost { (place : ℕ) → slice_get handle.old.room.room.names place ≡ Some role.now
        → handle.old.room.whole ≡ false → IsOnlyTold Lost handle.old.room handle.new.room }
    ensures recorded { (place : ℕ) → slice_get handle.old.room.room.names place ≡ Some role.now
        → handle.old.room.records ≡ true → handle.new.room.whole ≡ true
        → RecordedOn handle.old.room.room.names handle.old.room.taken handle.new.room.taken
        (last_of (newest_at handle.old.room place)) (last_of (newest_at handle.new.room place))
        (entries_of place handle.old.room.room.journal) (entries_of place handle.new.room.room.journal) }
    ensures records { handle.new.room.records ≡ handle.old.room.records }
    ensures idle { handle.old.room.records ≡ false → handle.new.room.whole ≡ handle.old.room.whole }
    ensures unknown { All (λ name. name ≢ role.now) handle.old.room.room.names
        → IsOnlyTold Nobody handle.old.room handle.new.room }
    ensures answer { IsFilledOrLeft (λ text. SpellsReply text handle.new.room.reply) out.old out.new result }
{
    calls::line(handle.room(), role, line, out)
}

/// Copies as much of the newest answer as fits, and returns the length of the whole in bytes, or SIZE_MAX when out of
/// memory, with `out` unchanged. It may be asked for again.
#[unsafe(no_mangle)]
pub extern "C" fn mps_answer(handle: &mut Handle, out: &mut [u8]) -> usize
    ensures same { handle.new.room ≡ handle.old.room }
    ensures answer { IsFilledOrLeft (λ text. SpellsReply text handle.old.room.reply) out.old out.new result }
{
    calls::answer(handle.room(), out)
}

/// How many entries the journal has, at most 100,000: one for each accepted change. They have the places 0 to this
/// number less 1 for `mps_entry`.
#[unsafe(no_mangle)]
pub extern "C" fn mps_entries(handle: &mut Handle) -> u64
    ensures same { handle.new.room ≡ handle.old.room }
    ensures count { result ≡ length handle.old.room.room.journal }
{
    calls::entries(handle.room())
}

/// Copies as much of the k-th entry, from 0, as a script's line as fits, and returns the length of the whole in bytes,
/// or SIZE_MAX when out of memory, with `out` unchanged. Past the end it is 0, and nowhere else.
#[unsafe(no_mangle)]
pub extern "C" fn mps_entry(handle: &mut Handle, k: u64, out: &mut [u8]) -> usize
    ensures same { handle.new.room ≡ handle.old.room }
    ensures line { (entry : Kept) → slice_get handle.old.room.room.journal k ≡ Some entry
        → IsFilledOrLeft (λ text. SpellsJournalLine handle.old.room.room.names text entry.role None entry.command)
        out.old out.new result }
    ensures past { length handle.old.room.room.journal ≤ k → IsFilledOrLeft (λ text. text ≡ []) out.old out.new result }
    ensures empty { result ≡ 0 → length handle.old.room.room.journal ≤ k }
{
    calls::entry(handle.room(), k, out)
}

/// Drops the room at this pointer, which `mps_open` or `mps_open_file` stored, and frees its memory. Unsafe: the pointer has to own a
/// room, and no call may come with it afterwards.
#[unsafe(no_mangle)]
pub unsafe extern "C" fn mps_close_at(alloc: Global, room: *mut u8)
    ghost before: { RoomValue }
    requires* { sem 𝓛 (handle_owns room before) }
{
    calls::close(Box::from_raw(alloc, room as *mut FileRoom))
}
