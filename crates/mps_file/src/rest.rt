//! What a journal's file leads to, what it has past its whole lines, and the mark from which its lines have seals.
ghost use Rattle.std.specs.Prelude.{◌≡◌, true, ℕ, List, IfOk, OnOk};
ghost use Rattle.mps_file.specs.Rooms.{IsNewRoom, IsRestoredRoom};
ghost use Rattle.mps_local.specs.Local.{LocalType};

use crate::journal_file::JournalFile;
use crate::own_file::OwnFile;
use mps_dev::{OverRead, OverWrite};
use mps_keeper::{Book, Chain, RestoreFault, Restored, RestoredRoom};
use mps_seal::Seal;
use std::alloc::Global;
use std::io;
use std::io::{ErrorKind, Write};
use std::sync::Arc;

/// How many bytes stand past the whole lines that were read of the file: a write left them that broke off.
pub fn torn(file: &OwnFile, restored: &Restored) -> io::Result<u64> {
    Ok(file.len()?.saturating_sub(restored.bytes as u64))
}

/// Cuts so many bytes off the file, past the whole lines that were read of it. They are added to the file beside it, and
/// stored there first where that is said. Not inlined, so that a thread's stack keeps space for it only where there are any.
#[inline(never)]
pub fn cut_off(
    alloc: Global,
    file: &OwnFile,
    restored: &Restored,
    count: u64,
    beside: &OwnFile,
    sync: bool,
) -> io::Result<()> {
    let whole = restored.bytes as u64;
    let mut rest = vec![in alloc; 0u8; count as usize]?;
    file.read_exact_at(rest.as_mut_slice(), whole)?;
    let mut to = beside;
    to.write_all(rest.as_slice())?;
    if sync {
        beside.sync_all()?;
    }
    file.set_len(whole)
}

/// Brings a new room to where the file of that session of the protocol leaves it, and says how far the file was read.
pub fn restore(
    alloc: Global,
    protocol: &[u8],
    session: u64,
    file: &OwnFile,
    room: &mut RestoredRoom,
) -> Result<Restored, RestoreFault>
    ensures room { (names : List (List ℕ)) (types : List LocalType) → IsNewRoom names types room.old
        → OnOk result (IsRestoredRoom names types room.new) }
{
    let first = Seal::first(alloc, protocol, session)?;
    room.restore_from(alloc, first, &mut OverRead::new(file))
}

/// Marks the file after the lines that were read of it, where they have no seals so far. Returned is the chain after the mark.
pub fn marked(alloc: Global, file: &Arc<OwnFile, Global>, restored: &Restored) -> io::Result<Chain>
    ensures sealed { IfOk result (λ chain. chain.is_sealed ≡ true) }
    ensures same { restored.now.chain.is_sealed ≡ true → IfOk result (λ chain. chain ≡ restored.now.chain) }
{
    let chain = restored.chain;
    if chain.is_sealed {
        return Ok(chain);
    }
    let written = JournalFile::new(alloc, Arc::try_clone(file)?, false)?;
    let mut book = Book::new(OverWrite::new(written), restored.lines, chain.seal);
    if book.mark(alloc).is_err() {
        let why = book.sink().get_ref().newest_error();
        // where the system refused nothing, there was no memory for the mark
        return Err(match why.raw_os_error() {
            Some(0) => io::Error::from(ErrorKind::OutOfMemory),
            _ => why,
        });
    }
    Ok(Chain {
        seal: book.seal(),
        is_sealed: true,
    })
}
