//! Writing a protocol.
ghost use Rattle.std.specs.Prelude.{◌≡◌, ◌+◌, ◌<◌, ℕ, List, [], ◌∷◌, ◌++◌, codes, IfOk, OnOk};
ghost use Rattle.std.specs.List.{AllByRecursion};
ghost use Rattle.mps_base.specs.Names.{IsName};
ghost use Rattle.mps_base.specs.RoleLists.{HasRoleCount};
ghost use Rattle.mps_base.specs.Spaced.{with_token, with_tokens};
ghost use Rattle.mps_global.specs.Global.{GlobalType, plain, plain_branches};
ghost use Rattle.mps_global.specs.Private.Weights.{weight, branch_weight};
ghost use Rattle.mps_text.specs.Grammar.{protocol_text, IsWithinLimits, SpellsText, SpellsOnly};
ghost use Rattle.mps_text.specs.Grammar.{HasBranches, IsSpellable, IsNamed, AreNamed};
ghost use Rattle.mps_text.specs.Private.Writing.{global_tokens, IsTodoNamed};
ghost use Rattle.mps_text.specs.Private.Writing.{todo_tokens, todo_weight, left_tokens, left_weight, branches_tokens};
ghost use Rattle.mps_text.specs.Private.Writing.{others_tokens};

use mps_base::{Name, push_token};
use mps_global::{Branches, Global, Protocol};
use std::alloc::{self, AllocError};

/// The protocol's text in a buffer of its own: its tokens with one space between two. Any protocol is written, also one
/// with faults or of any size. It fails only when out of memory.
pub fn write_protocol(alloc: alloc::Global, protocol: &Protocol) -> Result<Vec<u8>, AllocError>
    ensures text { IfOk result (λ text. text.items
        ≡ protocol_text protocol.now.roles.items (plain protocol.now.body)) }
    // With 2 to 8 roles, and a branch in each choice, it spells the protocol.
    ensures spelled { IfOk result (λ text. HasRoleCount protocol.now.roles.items
        → HasBranches (plain protocol.now.body)
        → SpellsText text.items protocol.now.roles.items (plain protocol.now.body)) }
{
    let mut out = Vec::new(alloc);
    push_token(&mut out, b"roles")?;
    write_names(&protocol.roles, &mut out)?;
    push_token(&mut out, b";")?;
    write_tree(alloc, &protocol.body, &mut out)?;
    Ok(out)
}

/// A law: a written protocol is read back. Where it has 2 to 8 roles, each choice has a branch, and it and its text are
/// within the limits, its text spells this protocol and no other, so that `read_protocol` gives it (`only`).
pub fn written_reads()
    ensures { (roles : List (List ℕ)) (tree : GlobalType) → AllByRecursion IsName roles
        → HasRoleCount roles → IsSpellable tree → IsWithinLimits (protocol_text roles tree) tree
        → SpellsOnly (protocol_text roles tree) roles tree }
{}

// Appends the names, a space before each. When out of memory some of them may stand in `out`; the caller drops it.
fn write_names(names: &[Name], out: &mut Vec<u8>) -> Result<(), AllocError>
    ensures text { OnOk result (out.new.items ≡ with_tokens out.old.items names.now) }
    ensures named { OnOk result (AllByRecursion IsName names.now) }
{
    for name in names {
        push_token(out, name.as_bytes())?;
    }
    Ok(())
}

// What is still to be written: a global type, the branches after `{`, or those after a branch.
#[derive(Clone, Copy)]
enum Todo<'a> {
    Tree(&'a Global),
    Branches(&'a Branches),
    Others(&'a Branches),
}

// Appends a global type, in a loop with a stack on the heap, since recursion would overflow on a deep tree. When out of
// memory a part may stand in `out`; the caller drops it.
#[tactic(auto, using(crate::proofs::Written::left_more, crate::proofs::Written::weight_more))]
fn write_tree(alloc: alloc::Global, tree: &Global, out: &mut Vec<u8>) -> Result<(), AllocError>
    ensures text { OnOk result
        (out.new.items ≡ with_tokens out.old.items (global_tokens (plain tree.now))) }
    ensures named { OnOk result (IsNamed (plain tree.now)) }
{
    let mut waiting = Vec::new(alloc);
    waiting.push(Todo::Tree(tree))?;
    while let Some(next) = waiting.pop() {
        write_next(next, &mut waiting, out)?;
    }
    Ok(())
}

// Pops one piece of work: appends its tokens up to the next type or branches in it, which are pushed. When out of
// memory a part may stand in `out`; the caller drops it.
fn write_next<'a>(
    next: Todo<'a>,
    waiting: &mut Vec<Todo<'a>>,
    out: &mut Vec<u8>,
) -> Result<(), AllocError>
    ensures text { OnOk result (with_tokens out.new.items (left_tokens waiting.new.items)
        ≡ with_tokens out.old.items (todo_tokens next.entry ++ left_tokens waiting.old.items)) }
    ensures less { OnOk result
        (left_weight waiting.new.items < todo_weight next.entry + left_weight waiting.old.items) }
    ensures named { OnOk result (AllByRecursion IsTodoNamed waiting.new.items
        → IsTodoNamed next.entry × AllByRecursion IsTodoNamed waiting.old.items) }
{
    match next {
        Todo::Tree(node) => write_node(node, waiting, out),
        Todo::Branches(branches) => write_branches(branches, waiting, out),
        Todo::Others(branches) => write_others(branches, waiting, out),
    }
}

// Appends a node's own tokens, and pushes the type or the branches after them. When out of memory a part may stand in
// `out`; the caller drops it.
#[tactic(auto, using(crate::proofs::Written::left_more, crate::proofs::Written::weight_more))]
fn write_node<'a>(
    node: &'a Global,
    waiting: &mut Vec<Todo<'a>>,
    out: &mut Vec<u8>,
) -> Result<(), AllocError>
    ensures text { OnOk result (with_tokens out.new.items (left_tokens waiting.new.items)
        ≡ with_tokens out.old.items
        (global_tokens (plain node.now) ++ left_tokens waiting.old.items)) }
    ensures less { OnOk result
        (left_weight waiting.new.items < weight node.now + left_weight waiting.old.items) }
    ensures named { OnOk result (AllByRecursion IsTodoNamed waiting.new.items
        → IsNamed (plain node.now) × AllByRecursion IsTodoNamed waiting.old.items) }
{
    match node {
        Global::End => push_token(out, b"end"),
        Global::Var(name) => push_token(out, name.as_bytes()),
        Global::Rec(name, body) => {
            push_token(out, b"rec")?;
            push_token(out, name.as_bytes())?;
            push_token(out, b".")?;
            Ok(waiting.push(Todo::Tree(body))?)
        }
        Global::Message {
            sender,
            receiver,
            sort,
            next,
        } => {
            write_pair(sender, receiver, out)?;
            push_token(out, b":")?;
            push_token(out, sort.word())?;
            push_token(out, b".")?;
            Ok(waiting.push(Todo::Tree(next))?)
        }
        Global::Choice {
            sender,
            receiver,
            branches,
        } => {
            write_pair(sender, receiver, out)?;
            push_token(out, b"{")?;
            Ok(waiting.push(Todo::Branches(branches))?)
        }
    }
}

// Appends the first branch's label and `:`, and pushes the other branches and, above them, its type; without a branch
// appends `}`. When out of memory a part may stand in `out`; the caller drops it.
#[tactic(auto, using(crate::proofs::Written::left_more, crate::proofs::Written::weight_more, crate::proofs::Written::branches_more))]
fn write_branches<'a>(
    branches: &'a Branches,
    waiting: &mut Vec<Todo<'a>>,
    out: &mut Vec<u8>,
) -> Result<(), AllocError>
    ensures text { OnOk result (with_tokens out.new.items (left_tokens waiting.new.items)
        ≡ with_tokens out.old.items
        (branches_tokens (plain_branches branches.now) ++ left_tokens waiting.old.items)) }
    ensures less { OnOk result (left_weight waiting.new.items
        < branch_weight branches.now + left_weight waiting.old.items) }
    ensures named { OnOk result (AllByRecursion IsTodoNamed waiting.new.items
        → AreNamed (plain_branches branches.now) × AllByRecursion IsTodoNamed waiting.old.items) }
{
    match branches {
        Branches::NoMore => push_token(out, b"}"),
        Branches::More {
            label,
            next,
            others,
        } => {
            push_token(out, label.as_bytes())?;
            push_token(out, b":")?;
            waiting.push(Todo::Others(others))?;
            Ok(waiting.push(Todo::Tree(next))?)
        }
    }
}

// Appends what comes after a branch: `,` and the next one as `write_branches` does, or `}` where there is none. When
// out of memory a part may stand in `out`; the caller drops it.
fn write_others<'a>(
    branches: &'a Branches,
    waiting: &mut Vec<Todo<'a>>,
    out: &mut Vec<u8>,
) -> Result<(), AllocError>
    ensures text { OnOk result (with_tokens out.new.items (left_tokens waiting.new.items)
        ≡ with_tokens out.old.items
        (others_tokens (plain_branches branches.now) ++ left_tokens waiting.old.items)) }
    ensures less { OnOk result (left_weight waiting.new.items
        < branch_weight branches.now + left_weight waiting.old.items) }
    ensures named { OnOk result (AllByRecursion IsTodoNamed waiting.new.items
        → AreNamed (plain_branches branches.now) × AllByRecursion IsTodoNamed waiting.old.items) }
{
    if let Branches::More { .. } = branches {
        push_token(out, b",")?;
    }
    write_branches(branches, waiting, out)
}

// Appends the sender, `->` and the receiver. When out of memory some of these may stand in `out`; the caller drops it.
fn write_pair(sender: &Name, receiver: &Name, out: &mut Vec<u8>) -> Result<(), AllocError>
    ensures text { OnOk result (out.new.items
        ≡ with_tokens out.old.items (sender.now ∷ codes "->" ∷ receiver.now ∷ [])) }
    ensures sender { OnOk result (IsName sender.now) }
    ensures receiver { OnOk result (IsName receiver.now) }
{
    push_token(out, sender.as_bytes())?;
    push_token(out, b"->")?;
    push_token(out, receiver.as_bytes())
}
