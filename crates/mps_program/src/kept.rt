//! The text by which a folder's journals are sealed.
ghost use Rattle.std.specs.Prelude.{◌≡◌, ◌⊎◌, map, IfErr, IfOk, IsTrue};
ghost use Rattle.mps_global.specs.Global.{plain as global_type};
ghost use Rattle.mps_local.specs.Local.{plain};
ghost use Rattle.mps_program.specs.Journals.{IsFolderFault};
ghost use Rattle.mps_program.specs.Kept.{IsTextAlike};
ghost use Rattle.mps_text.specs.Grammar.{protocol_text};

use crate::faults::ToolFault;
use crate::folder::{recorder_of, text_in};
use mps_open::{Fault, Opening};
use mps_text::write_protocol;
use std::alloc::{AllocError, Global};
use std::fs::File;
use std::rt::Files;

// Whether the text spells, in the written form, a protocol whose roles have the same types but for the names of variables.
fn is_alike(alloc: Global, opening: &Opening, text: &[u8]) -> Result<bool, AllocError>
    ensures { IfOk result (λ alike. IsTrue alike
        → IsTextAlike opening.now.merging opening.now.roles (map plain opening.now.types.items) text.now) }
{
    match Opening::of_text(alloc, opening.merging, text) {
        Ok(other) => Ok(
            opening.is_alike(alloc, &other)?
                && write_protocol(alloc, &other.protocol)?.as_slice() == text,
        ),
        Err(Fault::Memory) => Err(AllocError),
        Err(_) => Ok(false),
    }
}

/// The text of the protocol by which the journals of the folder are sealed: the one that the folder has, where its roles
/// have the same types but for the names of variables, else the protocol's own. A recorder has none for all sessions.
pub(crate) fn kept_text<'a, R: Files<File = File> + AllocGlobal>(
    rt: &R,
    folder: &'a str,
    opening: &Opening,
) -> Result<Vec<u8>, ToolFault<'a>>
    ensures kept { IfOk result (λ text.
        (text.items ≡ protocol_text opening.now.protocol.roles.items (global_type opening.now.protocol.body))
        ⊎ IsTextAlike opening.now.merging opening.now.roles (map plain opening.now.types.items) text.items) }
    ensures fault { IfErr result (IsFolderFault folder.now) }
{
    let alloc = rt.alloc();
    let own = write_protocol(alloc, &opening.protocol)?;
    if recorder_of(folder)?.is_some() {
        return Ok(own);
    }
    let path = format!(in alloc; "{folder}/protocol")?;
    let Some(found) = text_in(rt, path.as_str())? else {
        return Ok(own);
    };
    // one that can't be used is told of later
    if found.as_slice() != own.as_slice() && is_alike(alloc, opening, found.as_slice())? {
        return Ok(found);
    }
    Ok(own)
}
