//! Copies of local types, made in a loop with lists on the heap, so that no tree, long, deep or
//! wide, runs the stack out.
ghost use Rattle.std.specs.Prelude.{◌≡◌, ◌+◌, ◌<◌, ◌*◌, map, IfOk, OnOk};
ghost use Rattle.mps_local.specs.Local.{plain, plain_branches};
ghost use Rattle.mps_local.specs.Private.Weights.{weight, branch_weight};
ghost use Rattle.mps_local.specs.Private.Copying.{Stacks, stacks, nothing_made, with_tree, with_branches, last_tree};
ghost use Rattle.mps_local.specs.Private.Copying.{last_branches, without_tree, without_branches};
ghost use Rattle.mps_local.specs.Private.Copying.{with_node, with_arm, with_next, with_all, left_weight};

use crate::{Branches, Local};
use std::alloc::{AllocError, Global};

impl Local {
    /// A copy of the type, made in a loop: recursion would overflow the stack on a deep or wide type. O(nodes) time and
    /// memory. It fails only when out of memory, and drops what was made so far.
    pub fn copy(&self, alloc: Global) -> Result<Local, AllocError>
        ensures { IfOk result (λ t. plain t ≡ plain self.now) }
    {
        let mut made = make_copy(alloc, Todo::Tree(self))?;
        Ok(made.take_tree())
    }
}

impl Branches {
    /// A copy of the branches, made in a loop as `Local::copy` is. O(nodes) time and memory. It fails only when out of
    /// memory, and drops what was made so far.
    pub fn copy(&self, alloc: Global) -> Result<Branches, AllocError>
        ensures { IfOk result (λ b. plain_branches b ≡ plain_branches self.now) }
    {
        let mut made = make_copy(alloc, Todo::Branches(self))?;
        Ok(made.take_branches())
    }
}

/// Copies of the types, in order, in a vector of exactly that size. It fails only when out of memory, and drops the
/// copies made so far.
pub fn copy_all(alloc: Global, types: &[Local]) -> Result<Vec<Local>, AllocError>
    ensures { IfOk result (λ made. map plain made.items ≡ map plain types.now) }
{
    let mut made = Vec::with_capacity(alloc, types.len())?;
    for t in types {
        made.push_reserved(t.copy(alloc)?);
    }
    Ok(made)
}

// What is still to be made: a tree or branches with all that stands below, or the first node of
// one alone, below which all is made by then.
#[derive(Clone, Copy)]
enum Todo<'a> {
    Tree(&'a Local),
    Branches(&'a Branches),
    Node(&'a Local),
    Arm(&'a Branches),
}

// The trees and the branches that are made and are not yet part of another one.
#[derive(Drop)]
struct Made {
    trees: Vec<Local>,
    branches: Vec<Branches>,
}

// The loop of both copies: makes a copy of what `first` stands for. The stack `waiting` has a node below what the node
// needs, so parts are made before their whole (post-order). It fails only when out of memory.
#[tactic(auto, using(crate::proofs::Copied::all_more, crate::proofs::Copied::weight_more))]
fn make_copy(alloc: Global, first: Todo<'_>) -> Result<Made, AllocError>
    ensures { IfOk result (λ made. stacks made ≡ with_next first.entry nothing_made) }
{
    let mut made = Made {
        trees: Vec::new(alloc),
        branches: Vec::new(alloc),
    };
    let mut waiting = Vec::new(alloc);
    waiting.push(first)?;
    while let Some(next) = waiting.pop() {
        match next {
            Todo::Tree(tree) => open_tree(tree, &mut waiting)?,
            Todo::Branches(branches) => open_branches(branches, &mut waiting)?,
            Todo::Node(tree) => made.make_node(alloc, tree)?,
            Todo::Arm(branches) => made.make_arm(alloc, branches)?,
        }
    }
    Ok(made)
}

// Pushes a tree's first node, and above it what stands below in the tree, which is popped and made first. After an
// error the stack may have the node alone; the copy is given up then.
#[tactic(auto, using(crate::proofs::Copied::all_more, crate::proofs::Copied::weight_more))]
fn open_tree<'a>(tree: &'a Local, waiting: &mut Vec<Todo<'a>>) -> Result<(), AllocError>
    ensures made { OnOk result ((s : Stacks) → with_all waiting.new.items s
        ≡ with_all waiting.old.items (with_tree (plain tree.now) s)) }
    ensures less { OnOk result
        (left_weight waiting.new.items < 2 * weight tree.now + left_weight waiting.old.items) }
{
    waiting.push(Todo::Node(tree))?;
    match tree {
        Local::End | Local::Var(_) => Ok(()),
        Local::Rec(_, next) | Local::Send { next, .. } | Local::Recv { next, .. } => {
            Ok(waiting.push(Todo::Tree(next))?)
        }
        Local::Select { branches, .. } | Local::Branch { branches, .. } => {
            Ok(waiting.push(Todo::Branches(branches))?)
        }
    }
}

// Pushes the first branch, and above it the others and the branch's tree, which are popped and made first. After an
// error the stack may have some of the three; the copy is given up then.
#[tactic(auto, using(crate::proofs::Copied::all_more, crate::proofs::Copied::weight_more))]
fn open_branches<'a>(branches: &'a Branches, waiting: &mut Vec<Todo<'a>>) -> Result<(), AllocError>
    ensures made { OnOk result ((s : Stacks) → with_all waiting.new.items s
        ≡ with_all waiting.old.items (with_branches (plain_branches branches.now) s)) }
    ensures less { OnOk result
        (left_weight waiting.new.items
        < 2 * branch_weight branches.now + left_weight waiting.old.items) }
{
    waiting.push(Todo::Arm(branches))?;
    match branches {
        Branches::NoMore => Ok(()),
        Branches::More { next, others, .. } => {
            waiting.push(Todo::Branches(others))?;
            Ok(waiting.push(Todo::Tree(next))?)
        }
    }
}

impl Made {
    // Pushes a copy of this node, whose parts are those made last, on the trees that are made. It fails only when out
    // of memory; the copy is given up then.
    fn make_node(&mut self, alloc: Global, like: &Local) -> Result<(), AllocError>
        ensures { OnOk result (stacks self.new ≡ with_node like.now (stacks self.old)) }
    {
        let node = self.node(alloc, like)?;
        Ok(self.trees.push(node)?)
    }

    // A copy of this node, whose parts are those made last: they are popped, and dropped when out of memory. Apart from
    // `make_node`, so that each case needs no push of its own.
    fn node(&mut self, alloc: Global, like: &Local) -> Result<Local, AllocError>
        ensures { IfOk result (λ t. with_tree (plain t) (stacks self.new)
            ≡ with_node like.now (stacks self.old)) }
    {
        match like {
            Local::End => Ok(Local::End),
            Local::Var(name) => Ok(Local::Var(*name)),
            Local::Rec(name, _) => Local::rec(alloc, *name, self.take_tree()),
            Local::Send { peer, sort, .. } => Local::send(alloc, *peer, *sort, self.take_tree()),
            Local::Recv { peer, sort, .. } => Local::recv(alloc, *peer, *sort, self.take_tree()),
            Local::Select { peer, .. } => Ok(Local::Select {
                peer: *peer,
                branches: self.take_branches(),
            }),
            Local::Branch { peer, .. } => Ok(Local::Branch {
                peer: *peer,
                branches: self.take_branches(),
            }),
        }
    }

    // Pushes a copy of the first of these branches, made of the tree and the branches made last; or no branches where
    // there is none. It fails only when out of memory; the copy is given up then.
    fn make_arm(&mut self, alloc: Global, like: &Branches) -> Result<(), AllocError>
        ensures { OnOk result (stacks self.new ≡ with_arm like.now (stacks self.old)) }
    {
        match like {
            Branches::NoMore => Ok(self.branches.push(Branches::NoMore)?),
            Branches::More { label, .. } => {
                let (next, others) = (self.take_tree(), self.take_branches());
                let branches = Branches::more(alloc, *label, next, others)?;
                Ok(self.branches.push(branches)?)
            }
        }
    }

    // Pops the tree made last. `make_copy` has always made one; without one it would give `End`, as the definition
    // `last_tree` does, so that no proof has to show that there is one.
    fn take_tree(&mut self) -> Local
        ensures taken { plain result ≡ last_tree (stacks self.old) }
        ensures left { stacks self.new ≡ without_tree (stacks self.old) }
    {
        match self.trees.pop() {
            Some(tree) => tree,
            None => Local::End,
        }
    }

    // Pops the branches made last. `make_copy` has always made some; without any it would give `NoMore`, as the definition
    // `last_branches` does, so that no proof has to show that there are some.
    fn take_branches(&mut self) -> Branches
        ensures taken { plain_branches result ≡ last_branches (stacks self.old) }
        ensures left { stacks self.new ≡ without_branches (stacks self.old) }
    {
        match self.branches.pop() {
            Some(branches) => branches,
            None => Branches::NoMore,
        }
    }
}
