//! Local types as text.
ghost use Rattle.std.specs.Prelude.{◌≡◌, ◌<◌, ◌+◌, ◌∷◌, ◌++◌, [], codes, length, IfOk, OnOk};
ghost use Rattle.std.specs.List.{AllByRecursion};
ghost use Rattle.mps_base.specs.Sorts.{sort_word};
ghost use Rattle.mps_base.specs.Spaced.{with_tokens};
ghost use Rattle.mps_local.specs.Local.{plain, plain_branches};
ghost use Rattle.mps_local.specs.Shape.{AllPeers, AllBranchPeers};
ghost use Rattle.mps_local.specs.Text.{name_at, local_tokens, local_text};
ghost use Rattle.mps_local.specs.Private.Weights.{weight, branch_weight};
ghost use Rattle.mps_local.specs.Private.Writing.{todo_tokens, todo_weight, IsTodoKnown};
ghost use Rattle.mps_local.specs.Private.Writing.{left_tokens, left_weight, branches_tokens, others_tokens};

use crate::{Branches, Local};
use mps_base::spacing::push_token;
use mps_base::{Role, Roles, Sort, VarName};
use std::alloc::{AllocError, Global};

/// The text of a local type, whose peers are roles of these, in a buffer of its own: its tokens with one space between
/// two, and no LF. Types of any size are written. It fails only when out of memory.
#[tactic(auto, using(crate::proofs::Written::as_text))]
pub fn write_local(alloc: Global, roles: &Roles, tree: &Local) -> Result<Vec<u8>, AllocError>
    requires known { AllPeers (λ peer. peer < length roles.now) (plain tree.now) }
    ensures { IfOk result (λ text. text.items ≡ local_text roles.now (plain tree.now)) }
{
    let mut out = Vec::new(alloc);
    write_tree(alloc, roles, tree, &mut out)?;
    Ok(out)
}

// What is still to be written: a local type, the branches after `{`, or those after a branch.
#[derive(Clone, Copy)]
enum Todo<'a> {
    Tree(&'a Local),
    Branches(&'a Branches),
    Others(&'a Branches),
}

// Appends a local type, in a loop with a stack on the heap, since recursion would overflow on a deep or wide type. When
// out of memory a part may stand in `out`; the caller drops it.
#[tactic(auto, using(crate::proofs::Written::left_more, crate::proofs::Written::weight_more))]
fn write_tree(
    alloc: Global,
    roles: &Roles,
    tree: &Local,
    out: &mut Vec<u8>,
) -> Result<(), AllocError>
    requires known { AllPeers (λ peer. peer < length roles.now) (plain tree.now) }
    ensures { OnOk result (out.new.items
        ≡ with_tokens out.old.items (local_tokens roles.now (plain tree.now))) }
{
    let mut waiting = Vec::new(alloc);
    waiting.push(Todo::Tree(tree))?;
    while let Some(next) = waiting.pop() {
        write_next(&*roles, next, &mut waiting, out)?;
    }
    Ok(())
}

// Pops one piece of work: appends its tokens up to the next type or branches in it, which are pushed. When out of
// memory a part may stand in `out`; the caller drops it.
fn write_next<'a>(
    roles: &Roles,
    next: Todo<'a>,
    waiting: &mut Vec<Todo<'a>>,
    out: &mut Vec<u8>,
) -> Result<(), AllocError>
    requires known { IsTodoKnown (length roles.now) next }
    requires others { AllByRecursion (IsTodoKnown (length roles.now)) waiting.old.items }
    ensures text { OnOk result (with_tokens out.new.items (left_tokens roles.now waiting.new.items)
        ≡ with_tokens out.old.items
        (todo_tokens roles.now next.entry ++ left_tokens roles.now waiting.old.items)) }
    ensures less { OnOk result
        (left_weight waiting.new.items < todo_weight next.entry + left_weight waiting.old.items) }
    ensures known { OnOk result
        (AllByRecursion (IsTodoKnown (length roles.now)) waiting.new.items) }
{
    match next {
        Todo::Tree(node) => write_node(roles, node, waiting, out),
        Todo::Branches(branches) => write_branches(roles, branches, waiting, out),
        Todo::Others(branches) => write_others(roles, branches, waiting, out),
    }
}

// Appends a node's own tokens, and pushes the type or the branches after them. When out of memory a part may stand in
// `out`; the caller drops it.
#[tactic(auto, using(crate::proofs::Written::left_more, crate::proofs::Written::weight_more, crate::proofs::Written::more_known))]
fn write_node<'a>(
    roles: &Roles,
    node: &'a Local,
    waiting: &mut Vec<Todo<'a>>,
    out: &mut Vec<u8>,
) -> Result<(), AllocError>
    requires known { AllPeers (λ peer. peer < length roles.now) (plain node.now) }
    requires others { AllByRecursion (IsTodoKnown (length roles.now)) waiting.old.items }
    ensures text { OnOk result (with_tokens out.new.items (left_tokens roles.now waiting.new.items)
        ≡ with_tokens out.old.items
        (local_tokens roles.now (plain node.now) ++ left_tokens roles.now waiting.old.items)) }
    ensures less { OnOk result
        (left_weight waiting.new.items < weight node.now + left_weight waiting.old.items) }
    ensures known { OnOk result
        (AllByRecursion (IsTodoKnown (length roles.now)) waiting.new.items) }
{
    match node {
        Local::End => push_token(out, b"end"),
        Local::Var(name) => push_token(out, name.as_bytes()),
        Local::Rec(name, body) => {
            push_rec(out, name)?;
            Ok(waiting.push(Todo::Tree(body))?)
        }
        Local::Send { peer, sort, next } => {
            push_value(out, roles, b"send", *peer, *sort)?;
            Ok(waiting.push(Todo::Tree(next))?)
        }
        Local::Recv { peer, sort, next } => {
            push_value(out, roles, b"recv", *peer, *sort)?;
            Ok(waiting.push(Todo::Tree(next))?)
        }
        Local::Select { peer, branches } => {
            push_head(out, roles, b"choose", *peer)?;
            Ok(waiting.push(Todo::Branches(branches))?)
        }
        Local::Branch { peer, branches } => {
            push_head(out, roles, b"pick", *peer)?;
            Ok(waiting.push(Todo::Branches(branches))?)
        }
    }
}

// Appends the first branch's label and `:`, and pushes the other branches and, above them, its type; without a branch
// appends `}`. When out of memory a part may stand in `out`; the caller drops it.
#[tactic(auto, using(crate::proofs::Written::left_more, crate::proofs::Written::weight_more, crate::proofs::Written::more_known, crate::proofs::Written::branches_more))]
fn write_branches<'a>(
    roles: &Roles,
    branches: &'a Branches,
    waiting: &mut Vec<Todo<'a>>,
    out: &mut Vec<u8>,
) -> Result<(), AllocError>
    requires known { AllBranchPeers (λ peer. peer < length roles.now)
        (plain_branches branches.now) }
    requires others { AllByRecursion (IsTodoKnown (length roles.now)) waiting.old.items }
    ensures text { OnOk result (with_tokens out.new.items (left_tokens roles.now waiting.new.items)
        ≡ with_tokens out.old.items (branches_tokens roles.now (plain_branches branches.now)
        ++ left_tokens roles.now waiting.old.items)) }
    ensures less { OnOk result
        (left_weight waiting.new.items
        < branch_weight branches.now + left_weight waiting.old.items) }
    ensures known { OnOk result
        (AllByRecursion (IsTodoKnown (length roles.now)) waiting.new.items) }
{
    match branches {
        Branches::NoMore => push_token(out, b"}"),
        Branches::More {
            label,
            next,
            others,
        } => {
            push_token(out, label.as_bytes())?;
            push_token(out, b":")?;
            waiting.push(Todo::Others(others))?;
            Ok(waiting.push(Todo::Tree(next))?)
        }
    }
}

// Appends what comes after a branch: `,` and the next one as `write_branches` does, or `}` where there is none. When
// out of memory a part may stand in `out`; the caller drops it.
fn write_others<'a>(
    roles: &Roles,
    branches: &'a Branches,
    waiting: &mut Vec<Todo<'a>>,
    out: &mut Vec<u8>,
) -> Result<(), AllocError>
    requires known { AllBranchPeers (λ peer. peer < length roles.now)
        (plain_branches branches.now) }
    requires others { AllByRecursion (IsTodoKnown (length roles.now)) waiting.old.items }
    ensures text { OnOk result (with_tokens out.new.items (left_tokens roles.now waiting.new.items)
        ≡ with_tokens out.old.items (others_tokens roles.now (plain_branches branches.now)
        ++ left_tokens roles.now waiting.old.items)) }
    ensures less { OnOk result
        (left_weight waiting.new.items
        < branch_weight branches.now + left_weight waiting.old.items) }
    ensures known { OnOk result
        (AllByRecursion (IsTodoKnown (length roles.now)) waiting.new.items) }
{
    if let Branches::More { .. } = branches {
        push_token(out, b",")?;
    }
    write_branches(roles, branches, waiting, out)
}

// Appends `rec`, the variable and `.`: the tokens before a body. When out of memory some of them may stand in `out`;
// the caller drops it.
fn push_rec(out: &mut Vec<u8>, name: &VarName) -> Result<(), AllocError>
    ensures { OnOk result (out.new.items
        ≡ with_tokens out.old.items (codes "rec" ∷ name.now ∷ codes "." ∷ [])) }
{
    push_token(out, b"rec")?;
    push_token(out, name.as_bytes())?;
    push_token(out, b".")
}

// Appends `send` or `recv`, the peer, the sort and `.`: the tokens before what follows. When out of memory some of them
// may stand in `out`; the caller drops it.
fn push_value(
    out: &mut Vec<u8>,
    roles: &Roles,
    word: &[u8],
    peer: Role,
    sort: Sort,
) -> Result<(), AllocError>
    requires known { peer < length roles.now }
    ensures { OnOk result (out.new.items
        ≡ with_tokens out.old.items
        (word.now ∷ name_at roles.now peer ∷ sort_word sort ∷ codes "." ∷ [])) }
{
    push_token(out, word)?;
    push_token(out, roles.name(peer).as_bytes())?;
    push_token(out, sort.word())?;
    push_token(out, b".")
}

// Appends `choose` or `pick`, the peer and `{`: the tokens before the branches. When out of memory some of them may
// stand in `out`; the caller drops it.
fn push_head(out: &mut Vec<u8>, roles: &Roles, word: &[u8], peer: Role) -> Result<(), AllocError>
    requires known { peer < length roles.now }
    ensures { OnOk result (out.new.items
        ≡ with_tokens out.old.items (word.now ∷ name_at roles.now peer ∷ codes "{" ∷ [])) }
{
    push_token(out, word)?;
    push_token(out, roles.name(peer).as_bytes())?;
    push_token(out, b"{")
}
