//! Passes from code to code.

pub mod apply;

ghost use Rattle.std.specs.Prelude.{◌≡◌, ◌≤◌, ℕ, List, IfOk};
ghost use Rattle.code_tree.specs.Passes.{Pass as PassData};
ghost use Rattle.code_tree.specs.Faults.{OnOwn, HasFaulted};
ghost use Rattle.code_tree.specs.declared.code.LoopHead.{LoopHead};

use crate::code::{LoopHead, Way};
use crate::fault::Given;
use std::alloc::Global;

/// A language of code: its operations, and what its loop invariants read.
pub trait Lang {
    type Op: Drop;

    type Read: Drop;
}

/// A pass from code of one language to code of another one.
pub trait Pass {
    type From: Lang;

    type To: Lang;

    type Fault: Drop;

    /// What the pass makes.
    ghost makes: { Self → PassData Self.From.Op (LoopHead Self.From.Read) Self.To.Op (LoopHead Self.To.Read) };

    /// The number of its own faults so far, counted up to 2^64 - 1.
    ghost gave: { Self → ℕ };

    /// Makes operations of an operation; each works on the items that the one before gives.
    fn op(
        &mut self,
        alloc: Global,
        point: u32,
        op: &<Self::From as Lang>::Op,
    ) -> Result<Vec<<Self::To as Lang>::Op>, Given<Self::Fault>>
        ensures made { IfOk result (λ made. made.items ≡ (makes self.old).op point op.now) }
        ensures same { makes self.new ≡ makes self.old }
        ensures own { OnOwn result (HasFaulted (gave self.old) (gave self.new)) }
        ensures never_falls { gave self.old ≤ gave self.new };

    /// Makes operations that stand where a point is passed.
    fn way(
        &mut self,
        alloc: Global,
        point: u32,
        way: Way,
    ) -> Result<Vec<<Self::To as Lang>::Op>, Given<Self::Fault>>
        ensures made { IfOk result (λ made. made.items ≡ (makes self.old).way point way) }
        ensures same { makes self.new ≡ makes self.old }
        ensures own { OnOwn result (HasFaulted (gave self.old) (gave self.new)) }
        ensures never_falls { gave self.old ≤ gave self.new };

    /// Makes the head of a loop.
    fn head(
        &mut self,
        alloc: Global,
        head: &LoopHead<<Self::From as Lang>::Read>,
    ) -> Result<LoopHead<<Self::To as Lang>::Read>, Given<Self::Fault>>
        ensures made { IfOk result (λ made. made ≡ (makes self.old).head head.now) }
        ensures same { makes self.new ≡ makes self.old }
        ensures own { OnOwn result (HasFaulted (gave self.old) (gave self.new)) }
        ensures never_falls { gave self.old ≤ gave self.new };
}
