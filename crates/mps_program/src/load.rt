//! From a source to what the sessions of its protocol begin with.
ghost use Rattle.std.specs.Prelude.{◌≡◌, ◌<◌, ◌^◌, IfOk, IfErr};
ghost use Rattle.mps_program.specs.Faults.{IsLoadFault, after_reads};
ghost use Rattle.mps_program.specs.Files.{HasReadAtMost, most_read};
ghost use Rattle.mps_program.specs.Streams.{CantLoad, HasGivenOpening, WasLoaded};

use crate::faults::ToolFault;
use crate::files::{open_file, read_text, say_why};
use mps_dev::Source;
use mps_open::{Merging, Opening};
use mps_words::ProtocolFile;
use std::alloc::Global;
use std::rt::Files;

/// Reads a protocol, checks it, and projects it to each of its roles by that kind of merging.
///
/// The text is read to its end, or one byte further than a protocol may go.
#[tactic(auto, using(crate::proofs::Causes::no_types))]
pub fn load_opening<'a, R: Source>(
    alloc: Global,
    merging: Merging,
    reader: &mut R,
) -> Result<Opening, ToolFault<'a>>
    requires { R.calls reader.old < 2 ^ 62 }
    ensures read { IfOk result (HasGivenOpening merging (R.remaining reader.old) (R.remaining reader.new)) }
    ensures fault { IfErr result (CantLoad merging (R.remaining reader.old) (R.remaining reader.new)) }
    ensures most { HasReadAtMost most_read (R.remaining reader.old) (R.remaining reader.new) }
    ensures reads { R.failed_calls reader.new ≡ after_reads result (R.failed_calls reader.old) }
{
    let text = read_text(alloc, reader)?;
    Ok(Opening::of_text(alloc, merging, text.as_slice())?)
}

/// Reads the protocol in the file, checks it, and projects it to each of its roles. That the text is this file's no
/// clause says.
pub(crate) fn load_file<'a, R: Files + AllocGlobal>(
    rt: &R,
    file: ProtocolFile<'a>,
) -> Result<Opening, ToolFault<'a>>
    ensures read { IfOk result (WasLoaded file.entry.merging) }
    ensures fault { IfErr result (IsLoadFault file.entry) }
{
    let mut reader = open_file(rt, file.name)?;
    let loaded = load_opening(rt.alloc(), file.merging, &mut reader);
    say_why(loaded, reader)
}
