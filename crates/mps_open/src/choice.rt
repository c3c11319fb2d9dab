//! The choice that a fault of projection names.
ghost use Rattle.std.specs.Prelude.{◌≡◌, ◌+◌, ◌++◌, ◌∷◌, Some, length, IfOk, IfErr, OnOk, slice_get};
ghost use Rattle.mps_base.specs.Spaced.{spaced};
ghost use Rattle.mps_global.specs.Global.{plain, plain_branches};
ghost use Rattle.mps_open.specs.Choices.{IsChoiceText, choice_at, choices, choices_in, labels};
ghost use Rattle.mps_open.specs.Faults.{IsUnreadText};
ghost use Rattle.mps_open.specs.Private.Choices.{behind};

use crate::fault::Fault;
use mps_base::Name;
use mps_global::{Branches, Global};
use mps_text::read_protocol;
use std::alloc;
use std::alloc::AllocError;

// A choice: who chooses, who is told, and the branches.
#[derive(Clone, Copy)]
struct Found<'a> {
    sender: &'a Name,
    receiver: &'a Name,
    branches: &'a Branches,
}

// The choice of that number in the tree, counted from 0 in preorder; or how many are still to be passed over behind it.
#[cycle(finding)]
fn find(tree: &Global, number: u64) -> Result<Found<'_>, u64>
    ensures found { IfOk result (λ f. choice_at (plain tree.now) number
        ≡ Some (f.sender.now ∷ f.receiver.now ∷ labels (plain_branches f.branches.now))) }
    ensures none { IfErr result (λ left. number ≡ length (choices (plain tree.now)) + left) }
{
    match tree {
        Global::End | Global::Var(_) => Err(number),
        Global::Rec(_, next) | Global::Message { next, .. } => find(next, number),
        Global::Choice {
            sender,
            receiver,
            branches,
        } => {
            if number == 0 {
                return Ok(Found {
                    sender,
                    receiver,
                    branches,
                });
            }
            find_in(branches, number - 1)
        }
    }
}

// `find` in what follows labels.
#[cycle(finding)]
fn find_in(branches: &Branches, number: u64) -> Result<Found<'_>, u64>
    ensures found { IfOk result (λ f. slice_get (choices_in (plain_branches branches.now)) number
        ≡ Some (f.sender.now ∷ f.receiver.now ∷ labels (plain_branches f.branches.now))) }
    ensures none { IfErr result (λ left. number ≡ length (choices_in (plain_branches branches.now)) + left) }
{
    match branches {
        Branches::NoMore => Err(number),
        Branches::More { next, others, .. } => match find(next, number) {
            Ok(found) => Ok(found),
            Err(left) => find_in(others, left),
        },
    }
}

// Appends a space and a label for each branch. When out of memory a part may stand in `out`.
fn write_labels(branches: &Branches, out: &mut Vec<u8>) -> Result<(), AllocError>
    ensures { OnOk result (out.new.items ≡ out.old.items ++ behind (labels (plain_branches branches.now))) }
{
    match branches {
        Branches::NoMore => Ok(()),
        Branches::More { label, others, .. } => {
            out.push(b' ')?;
            out.extend_from_slice(label.as_bytes())?;
            write_labels(others, out)
        }
    }
}

// Appends the words of the choice, with a space between two. When out of memory a part may stand in `out`.
fn write_found(found: Found<'_>, out: &mut Vec<u8>) -> Result<(), AllocError>
    ensures { OnOk result (out.new.items ≡ out.old.items
        ++ spaced (found.entry.sender.now ∷ found.entry.receiver.now ∷ labels (plain_branches found.entry.branches.now))) }
{
    out.extend_from_slice(found.sender.as_bytes())?;
    out.push(b' ')?;
    out.extend_from_slice(found.receiver.as_bytes())?;
    write_labels(found.branches, out)
}

/// The words of the choice of that number of the protocol that the text spells, as a fault of projection counts choices,
/// with a space between two: who chooses, who is told, and the labels. Empty where there are not so many. The error is the
/// first fault of the text, or `Memory`; those of the protocol are no matter here.
pub fn choice_text(alloc: alloc::Global, text: &[u8], number: u64) -> Result<Vec<u8>, Fault>
    ensures words { IfOk result (λ words. IsChoiceText text.now number words.items) }
    ensures fault { IfErr result (IsUnreadText text.now) }
{
    let protocol = read_protocol(alloc, text)?;
    let mut words = Vec::new(alloc);
    if let Ok(found) = find(&protocol.body, number) {
        write_found(found, &mut words)?;
    }
    Ok(words)
}
