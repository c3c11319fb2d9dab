//! Local types from their parts, and their parts from them.
ghost use Rattle.std.specs.Prelude.{◌≡◌, IfOk};
ghost use Rattle.mps_local.specs.Local.{plain, plain_branches, Rec, Send, Recv, More};

use crate::{Branches, Local};
use mps_base::{Name, Role, Sort, VarName};
use std::alloc::{AllocError, Global};

impl Local {
    /// Builds `rec name . body`; in the body the variable stands for the whole. One box is allocated. When out of
    /// memory the body is dropped. Nothing is checked here: `first_fault` does that.
    pub fn rec(alloc: Global, name: VarName, body: Local) -> Result<Local, AllocError>
        ensures { IfOk result (λ t. plain t ≡ Rec name (plain body)) }
    {
        let body = Box::new(alloc, body)?;
        Ok(Local::Rec(name, body))
    }

    /// Builds an output of a value of the sort to the peer, and then `next`. One box is allocated. When out of memory
    /// `next` is dropped. Nothing is checked here: `first_fault` does that.
    pub fn send(alloc: Global, peer: Role, sort: Sort, next: Local) -> Result<Local, AllocError>
        ensures { IfOk result (λ t. plain t ≡ Send peer sort (plain next)) }
    {
        let next = Box::new(alloc, next)?;
        Ok(Local::Send { peer, sort, next })
    }

    /// Builds an input of a value of the sort from the peer, and then `next`. One box is allocated. When out of memory
    /// `next` is dropped. Nothing is checked here: `first_fault` does that.
    pub fn recv(alloc: Global, peer: Role, sort: Sort, next: Local) -> Result<Local, AllocError>
        ensures { IfOk result (λ t. plain t ≡ Recv peer sort (plain next)) }
    {
        let next = Box::new(alloc, next)?;
        Ok(Local::Recv { peer, sort, next })
    }
}

impl Branches {
    /// Builds branches from the first, a label and what follows it, and the others. Two boxes are allocated. When out
    /// of memory both trees are dropped. Equal labels are not refused here: `first_fault` does that.
    pub fn more(
        alloc: Global,
        label: Name,
        next: Local,
        others: Branches,
    ) -> Result<Branches, AllocError>
        ensures { IfOk result
            (λ b. plain_branches b ≡ More label (plain next) (plain_branches others)) }
    {
        let next = Box::new(alloc, next)?;
        let others = Box::new(alloc, others)?;
        Ok(Branches::More {
            label,
            next,
            others,
        })
    }
}
