//! The lines that show the types of a protocol's roles.
ghost use Rattle.std.specs.Prelude.{◌≡◌, ◌+◌, ◌<◌, ◌≤◌, ◌^◌, ◌++◌, length, map, IfOk, IfErr, OnOk};
ghost use Rattle.std.specs.Io.KnownBytes.{Appends};
ghost use Rattle.std.specs.List.{AllByRecursion};
ghost use Rattle.mps_local.specs.Local.{plain};
ghost use Rattle.mps_local.specs.Shape.{AllPeers};
ghost use Rattle.mps_program.specs.Check.{role_line, role_lines};
ghost use Rattle.mps_program.specs.Faults.{after_reads, after_writes, IsCheckFault};
ghost use Rattle.mps_program.specs.Files.{HasReadAtMost, most_read};
ghost use Rattle.mps_program.specs.Streams.{CantShow, HasShown};

use crate::faults::ToolFault;
use crate::files::{open_file, say_why, tell};
use crate::load::load_opening;
use mps_base::{Role, Roles};
use mps_dev::{OverWrite, Sink, Source};
use mps_local::{Local, write_local};
use mps_open::{Merging, Opening};
use mps_words::ProtocolFile;
use std::alloc::{AllocError, Global};
use std::io;
use std::rt::Files;

/// A line for each role, in order: its name, ` : `, and its local type.
pub fn lines_of(alloc: Global, opening: &Opening) -> Result<Vec<u8>, AllocError>
    ensures { IfOk result (λ out. out.items ≡ role_lines opening.now.roles 0 (map plain opening.now.types.items)) }
{
    let mut out = Vec::new(alloc);
    write_lines(alloc, &mut out, &opening.roles, 0, &opening.types)?;
    Ok(out)
}

// Writes the lines of the roles from that place on, which have these types, at the end of `out`. After an error some of
// them may stand there.
fn write_lines(
    alloc: Global,
    out: &mut Vec<u8>,
    roles: &Roles,
    place: usize,
    types: &[Local],
) -> Result<(), AllocError>
    requires few { length roles.now ≤ 8 }
    requires named { place + length types.now ≤ length roles.now }
    requires known { AllByRecursion
        (AllPeers (λ peer. peer < length roles.now)) (map plain types.now) }
    ensures { IfOk result (λ _. out.new.items
        ≡ out.old.items ++ role_lines roles.now place (map plain types.now)) }
{
    match types {
        [] => Ok(()),
        [t, later @ ..] => {
            write_role(alloc, out, &*roles, place, t)?;
            write_lines(alloc, out, &*roles, place + 1, later)
        }
    }
}

// Writes the line of the role at that place at the end of `out`. After an error a part of it may stand there.
fn write_role(
    alloc: Global,
    out: &mut Vec<u8>,
    roles: &Roles,
    place: usize,
    t: &Local,
) -> Result<(), AllocError>
    requires few { length roles.now ≤ 8 }
    requires named { place < length roles.now }
    requires known { AllPeers (λ peer. peer < length roles.now) (plain t.now) }
    ensures { IfOk result (λ _. out.new.items
        ≡ out.old.items ++ role_line roles.now place (plain t.now)) }
{
    let text = write_local(alloc, roles, t)?;
    // places of roles are below 8, so they fit
    out.extend_from_slice(roles.name(Role::new(place as u8)).as_bytes())?;
    out.extend_from_slice(b" : ")?;
    out.extend_from_slice(&text)?;
    out.push(b'\n')?;
    Ok(())
}

/// Reads a protocol, and writes a line for each role: its name, ` : `, and its local type by that kind of merging.
///
/// All is read and checked before the first byte is written. Where a write fails, a front of the lines may be written.
pub fn write_types<'a, R: Source, W: Sink>(
    alloc: Global,
    merging: Merging,
    reader: &mut R,
    writer: &mut W,
) -> Result<(), ToolFault<'a>>
    requires reads { R.calls reader.old < 2 ^ 62 }
    requires writes { W.failed_calls writer.old < 2 ^ 63 }
    ensures shown { OnOk result (HasShown merging (R.remaining reader.old) (R.remaining reader.new)
        (Appends (W.taken writer.old) (W.taken writer.new))) }
    ensures fault { IfErr result (CantShow merging (R.remaining reader.old) (R.remaining reader.new)
        (W.taken writer.old) (W.taken writer.new)) }
    ensures most { HasReadAtMost most_read (R.remaining reader.old) (R.remaining reader.new) }
    ensures reads { R.failed_calls reader.new ≡ after_reads result (R.failed_calls reader.old) }
    ensures writes { W.failed_calls writer.new ≡ after_writes result (W.failed_calls writer.old) }
{
    let opening = load_opening(alloc, merging, reader)?;
    let lines = lines_of(alloc, &opening)?;
    tell(writer, lines.as_slice())
}

/// Prints a line for each role of the protocol in the file: its name and its local type.
pub fn check_file<'a, R: Files + AllocGlobal + Print>(
    rt: &R,
    file: ProtocolFile<'a>,
) -> Result<(), ToolFault<'a>>
    ensures { IfErr result (IsCheckFault file.entry) }
{
    let mut reader = open_file(rt, file.name)?;
    let mut writer = OverWrite::new(io::writer(rt));
    let written = write_types(rt.alloc(), file.merging, &mut reader, &mut writer);
    say_why(written, reader)
}
