//! How a line ends in a journal's file.
ghost use Rattle.std.specs.Prelude.{◌≡◌, ◌++◌, IfOk, OnOk};
ghost use Rattle.std.specs.List.{flat_map};
ghost use Rattle.mps_lines.specs.Lines.{ended};
ghost use Rattle.mps_lines.specs.Cuts.{cut};
ghost use Rattle.mps_seal.specs.Seals.{all_sealed, next_seal, seal_after, sealed};

use mps_lines::line_end;
use mps_seal::Seal;
use std::alloc::AllocError;

// Ends the line after this seal with its own seal and an LF, and gives that seal. Where memory runs out a part of it may
// stand there.
pub(crate) fn end_line(before: &Seal, line: &mut Vec<u8>) -> Result<Seal, AllocError>
    ensures next { IfOk result (λ seal. seal ≡ next_seal before.now line.old.items) }
    ensures ok { OnOk result (line.new.items ≡ ended (sealed before.now line.old.items)) }
{
    let seal = before.close(line)?;
    line.push(b'\n')?;
    Ok(seal)
}

// Appends to `out` the lines of the text that an LF ends, each with its own seal and its LF, and gives the seal of the last; `before`
// is that of the line before them. Each is made in `line`. Where memory runs out a part of them may stand there.
pub(crate) fn end_lines(
    before: Seal,
    text: &[u8],
    line: &mut Vec<u8>,
    out: &mut Vec<u8>,
) -> Result<Seal, AllocError>
    ensures text { OnOk result
        (out.new.items ≡ out.old.items ++ flat_map ended (all_sealed before (cut text.now).lines)) }
    ensures last { IfOk result (λ seal. seal ≡ seal_after before (cut text.now).lines) }
{
    let mut seal = before;
    let mut rest = text;
    while let Some(k) = line_end(rest) {
        line.clear();
        line.extend_from_slice(&rest[..k])?;
        seal = end_line(&seal, line)?;
        out.extend_from_slice(line.as_slice())?;
        rest = &rest[k + 1..];
    }
    Ok(seal)
}
