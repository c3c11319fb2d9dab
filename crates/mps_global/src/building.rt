//! Trees from their parts.
ghost use Rattle.std.specs.Prelude.{◌≡◌, IfOk};
ghost use Rattle.mps_global.specs.Global.{plain, plain_branches, Rec, Message, More};

use crate::{Branches, Global};
use mps_base::{Name, Sort, VarName};
use std::alloc::{self, AllocError};

impl Global {
    /// Builds `rec name . body`; in the body the variable stands for the whole. One box is allocated. When out of
    /// memory the body is dropped. Nothing is checked here: `check` does that.
    pub fn rec(alloc: alloc::Global, name: VarName, body: Global) -> Result<Global, AllocError>
        ensures { IfOk result (λ g. plain g ≡ Rec name (plain body)) }
    {
        let body = Box::new(alloc, body)?;
        Ok(Global::Rec(name, body))
    }

    /// Builds `sender -> receiver : sort . next`: one message, and what follows it. One box is allocated. When out of
    /// memory `next` is dropped. Nothing is checked here: `check` does that.
    pub fn message(
        alloc: alloc::Global,
        sender: Name,
        receiver: Name,
        sort: Sort,
        next: Global,
    ) -> Result<Global, AllocError>
        ensures { IfOk result (λ g. plain g ≡ Message sender receiver sort (plain next)) }
    {
        let next = Box::new(alloc, next)?;
        Ok(Global::Message {
            sender,
            receiver,
            sort,
            next,
        })
    }
}

impl Branches {
    /// Puts a branch, a label and what follows it, in front of the others. Two boxes are allocated. When out of memory
    /// both trees are dropped. Equal labels are not refused here: `check` does that.
    pub fn more(
        alloc: alloc::Global,
        label: Name,
        next: Global,
        others: Branches,
    ) -> Result<Branches, AllocError>
        ensures { IfOk result
            (λ b. plain_branches b ≡ More label (plain next) (plain_branches others)) }
    {
        let next = Box::new(alloc, next)?;
        let others = Box::new(alloc, others)?;
        Ok(Branches::More {
            label,
            next,
            others,
        })
    }
}
