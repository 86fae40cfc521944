//! Deciders: which rule applications are due on a branch.

ghost use Rattle.std.specs.Prelude.{◌≡◌, ◌↔◌, List, IsTrue, IfOk, IfSome, OnOk, MatchOption};
ghost use Rattle.fol.specs.declared.shapes.Shape.{Shape};
ghost use Rattle.term_pool.specs.Pools.{Extends};
ghost use Rattle.term_pool.specs.declared.node.Node.{Node};
ghost use Rattle.certificates.specs.Due.{IsSaturated};
ghost use Rattle.certificates.specs.ProofTraces.{NothingEarly, IsLate};
ghost use Rattle.tableau.specs.PoolBranches.{branch_in, IsOver};
ghost use Rattle.search.specs.Decisions.{IsCrowded, HasRoom, IsLevel, IsExtensionDue, NothingPlain, NothingLate, ShowsClosing, ShowsRows, ShowsLeaf};

use crate::trees::application::{Closing, Extension};
use crate::values::OpenValues;
use base::memory::NoMemory;
use linear_arith::rows::{LinRow, Rows};
use std::alloc::Global;
use tableau::branch::PoolBranch;
use term_pool::pool::Pool;

/// Whether a clash up to congruence closes a branch.
#[derive(Drop)]
pub enum ClosingAnswer {
    /// Nothing closes it.
    Open,
    /// This closing closes it.
    Closes(Closing),
    /// The closing would make the branch longer than the maximal length of a branch.
    TooLong,
}

/// The result of an elimination of a branch's rows.
#[derive(Drop)]
pub enum RowsAnswer {
    /// Some values satisfy the rows.
    Met,
    /// The rows have no solution, and this closing closes the branch.
    Closes(Closing),
    /// The rows have no solution, but the closing would make the branch longer than the maximal length of a branch.
    TooLong,
    /// The elimination reaches two rows whose sum overflows 128 bits.
    Wide(LinRow, LinRow),
    /// The elimination reaches the limit of 5,000 rows: these.
    TooMany(Rows),
}

/// The result for a branch on which nothing else is due.
#[derive(Drop)]
pub enum LeafAnswer {
    /// These values satisfy the branch's rows, and are whole for numbers.
    Open(OpenValues),
    /// A bound is due: a case split on a number whose value is not whole.
    Bound(Extension),
    /// The elimination that computes the values ends without them: the rows have no solution, and this closing closes
    /// the branch.
    Closes(Closing),
    /// The rows have no solution, but the closing would make the branch longer than the maximal length of a branch.
    TooLong,
    /// The elimination reaches two rows whose sum overflows 128 bits.
    Wide(LinRow, LinRow),
    /// The elimination reaches the limit of 5,000 rows: these.
    TooMany(Rows),
}

/// The deciders of what is due on a branch. Each returns a rule application that is due, or `None` if none of its kind
/// is due. `NoMemory` exactly if memory runs out.
pub trait Deciders {
    /// The shapes of the structs that formulas name.
    ghost shapes: { Self → List Shape };

    /// What is kept of the nodes of a pool is right for this pool.
    ghost knows: { Self → List Node → Type 0 };

    /// Decides whether no variable number is left above those of the branch.
    fn is_crowded(
        &mut self,
        alloc: Global,
        pool: &Pool,
        branch: &PoolBranch,
    ) -> Result<bool, NoMemory>
        requires knows { knows self.old pool.now }
        requires over { IsOver pool.now branch.now }
        ensures knows { OnOk result (knows self.new pool.now) }
        ensures shapes { OnOk result (shapes self.new ≡ shapes self.old) }
        ensures crowded { IfOk result (λ r. IsTrue r ↔ IsCrowded (branch_in pool.now branch.now)) };

    /// An application that comes before all others: an alpha or delta rule, an instance of the axioms on ranges and on
    /// whole numbers, or a case split of such an instance.
    fn early(
        &mut self,
        alloc: Global,
        pool: &mut Pool,
        branch: &PoolBranch,
    ) -> Result<Option<Extension>, NoMemory>
        requires knows { knows self.old pool.old }
        requires over { IsOver pool.old branch.now }
        requires room { HasRoom (branch_in pool.old branch.now) }
        ensures extends { Extends pool.old pool.new }
        ensures knows { OnOk result (knows self.new pool.new) }
        ensures shapes { OnOk result (shapes self.new ≡ shapes self.old) }
        ensures due { IfOk result (λ found. MatchOption found (NothingEarly (shapes self.old) (branch_in pool.old branch.now)) (IsExtensionDue (shapes self.old) pool.new (branch_in pool.old branch.now))) };

    /// Decides whether a clash up to congruence closes the branch.
    fn closing(
        &mut self,
        alloc: Global,
        pool: &mut Pool,
        branch: &PoolBranch,
    ) -> Result<ClosingAnswer, NoMemory>
        requires knows { knows self.old pool.old }
        requires over { IsOver pool.old branch.now }
        requires room { HasRoom (branch_in pool.old branch.now) }
        requires level { IsLevel (branch_in pool.old branch.now) }
        ensures extends { Extends pool.old pool.new }
        ensures knows { OnOk result (knows self.new pool.new) }
        ensures shapes { OnOk result (shapes self.new ≡ shapes self.old) }
        ensures shown { IfOk result (ShowsClosing (shapes self.old) pool.new (branch_in pool.old branch.now)) };

    /// An instance of a quantified formula (gamma rule) or of an axiom.
    fn plain(
        &mut self,
        alloc: Global,
        pool: &mut Pool,
        branch: &PoolBranch,
    ) -> Result<Option<Extension>, NoMemory>
        requires knows { knows self.old pool.old }
        requires over { IsOver pool.old branch.now }
        requires room { HasRoom (branch_in pool.old branch.now) }
        ensures extends { Extends pool.old pool.new }
        ensures knows { OnOk result (knows self.new pool.new) }
        ensures shapes { OnOk result (shapes self.new ≡ shapes self.old) }
        ensures due { IfOk result (λ found. MatchOption found (NothingPlain (shapes self.old) (branch_in pool.old branch.now)) (IsExtensionDue (shapes self.old) pool.new (branch_in pool.old branch.now))) };

    /// Decides whether to solve the branch's rows before adding anything. The result only guides the search; no
    /// contract depends on it.
    fn is_urgent(
        &mut self,
        alloc: Global,
        pool: &Pool,
        branch: &PoolBranch,
    ) -> Result<bool, NoMemory>
        requires knows { knows self.old pool.now }
        requires over { IsOver pool.now branch.now }
        ensures knows { OnOk result (knows self.new pool.now) }
        ensures shapes { OnOk result (shapes self.new ≡ shapes self.old) };

    /// An instance that a proof is likely to need and that is due; `None` does not mean that no instance is due.
    fn near(
        &mut self,
        alloc: Global,
        pool: &mut Pool,
        branch: &PoolBranch,
    ) -> Result<Option<Extension>, NoMemory>
        requires knows { knows self.old pool.old }
        requires over { IsOver pool.old branch.now }
        requires room { HasRoom (branch_in pool.old branch.now) }
        ensures extends { Extends pool.old pool.new }
        ensures knows { OnOk result (knows self.new pool.new) }
        ensures shapes { OnOk result (shapes self.new ≡ shapes self.old) }
        ensures due { IfOk result (λ found. IfSome found (IsExtensionDue (shapes self.old) pool.new (branch_in pool.old branch.now))) };

    /// A case split, or a decision on two numbers, that is due and likely to close soon; `None` does not mean that none
    /// is due.
    fn promising(
        &mut self,
        alloc: Global,
        pool: &mut Pool,
        branch: &PoolBranch,
    ) -> Result<Option<Extension>, NoMemory>
        requires knows { knows self.old pool.old }
        requires over { IsOver pool.old branch.now }
        requires room { HasRoom (branch_in pool.old branch.now) }
        requires late { IsLate (shapes self.old) (branch_in pool.old branch.now) }
        ensures extends { Extends pool.old pool.new }
        ensures knows { OnOk result (knows self.new pool.new) }
        ensures shapes { OnOk result (shapes self.new ≡ shapes self.old) }
        ensures due { IfOk result (λ found. IfSome found (IsExtensionDue (shapes self.old) pool.new (branch_in pool.old branch.now))) };

    /// Returns the result of an elimination of the branch's rows.
    fn rows(
        &mut self,
        alloc: Global,
        pool: &mut Pool,
        branch: &PoolBranch,
    ) -> Result<RowsAnswer, NoMemory>
        requires knows { knows self.old pool.old }
        requires over { IsOver pool.old branch.now }
        requires room { HasRoom (branch_in pool.old branch.now) }
        requires level { IsLevel (branch_in pool.old branch.now) }
        ensures extends { Extends pool.old pool.new }
        ensures knows { OnOk result (knows self.new pool.new) }
        ensures shapes { OnOk result (shapes self.new ≡ shapes self.old) }
        ensures shown { IfOk result (ShowsRows (shapes self.old) pool.new (branch_in pool.old branch.now)) };

    /// A case split or a cut.
    fn late(
        &mut self,
        alloc: Global,
        pool: &mut Pool,
        branch: &PoolBranch,
    ) -> Result<Option<Extension>, NoMemory>
        requires knows { knows self.old pool.old }
        requires over { IsOver pool.old branch.now }
        requires room { HasRoom (branch_in pool.old branch.now) }
        requires late { IsLate (shapes self.old) (branch_in pool.old branch.now) }
        ensures extends { Extends pool.old pool.new }
        ensures knows { OnOk result (knows self.new pool.new) }
        ensures shapes { OnOk result (shapes self.new ≡ shapes self.old) }
        ensures due { IfOk result (λ found. MatchOption found (NothingLate (branch_in pool.old branch.now)) (IsExtensionDue (shapes self.old) pool.new (branch_in pool.old branch.now))) };

    /// For a branch on which nothing else is due: values that satisfy its rows, whole ones for numbers, or a bound.
    fn leaf(
        &mut self,
        alloc: Global,
        pool: &mut Pool,
        branch: &PoolBranch,
    ) -> Result<LeafAnswer, NoMemory>
        requires knows { knows self.old pool.old }
        requires over { IsOver pool.old branch.now }
        requires room { HasRoom (branch_in pool.old branch.now) }
        requires saturated { IsSaturated (shapes self.old) (branch_in pool.old branch.now) }
        requires level { IsLevel (branch_in pool.old branch.now) }
        ensures extends { Extends pool.old pool.new }
        ensures knows { OnOk result (knows self.new pool.new) }
        ensures shapes { OnOk result (shapes self.new ≡ shapes self.old) }
        ensures shown { IfOk result (ShowsLeaf (shapes self.old) pool.new (branch_in pool.old branch.now)) };
}
