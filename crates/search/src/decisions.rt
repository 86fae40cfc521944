//! The next step on a branch: a rule application that is due, or the end of the search.

ghost use Rattle.std.specs.Prelude.{◌≡◌, IfOk, OnOk};
ghost use Rattle.term_pool.specs.Pools.{Extends};
ghost use Rattle.certificates.specs.Due.{IsNotClosed, IsSaturated};
ghost use Rattle.certificates.specs.ProofTraces.{NothingEarly, IsLate, IsShortBranch};
ghost use Rattle.tableau.specs.PoolBranches.{branch_in, IsOver};
ghost use Rattle.search.specs.Decisions.{HasRoom, IsLevel, NothingPlain, IsDecided};

use crate::deciders::{ClosingAnswer, Deciders, LeafAnswer, RowsAnswer};
use crate::trees::application::{Closing, Extension};
use crate::values::OpenValues;
use base::memory::NoMemory;
use certificates::branch::MOST_ENTRIES;
use linear_arith::rows::{LinRow, Rows};
use std::alloc::Global;
use tableau::branch::PoolBranch;
use term_pool::pool::Pool;

/// Why a search stops at a branch.
#[derive(Drop)]
pub enum Stop {
    /// The branch is saturated, and these values satisfy its rows, whole ones for numbers.
    Open(OpenValues),
    /// An elimination of the branch's rows reaches two rows whose sum overflows 128 bits.
    Wide(LinRow, LinRow),
    /// An elimination of the branch's rows reaches the limit of 5,000 rows: these.
    TooManyRows(Rows),
    /// No certificate can extend the branch.
    Full,
}

// On a long branch the search looks for a closing each time the branch has grown by this many entries, even if
// something early is due: the axiom on ranges has an instance for each term, and a long branch would be full before all
// of these are added.
const LENGTH_BETWEEN: usize = 256;

/// The next step on a branch.
#[derive(Drop)]
pub enum Decision {
    /// An application that adds formulas.
    Grows(Extension),
    /// An application that closes the branch.
    Closes(Closing),
    /// The end of the search.
    Stops(Stop),
}

/// Decides the next step on the branch, in this order: early applications, closings, instances that a proof is likely
/// to need, all instances, case splits and cuts, bounds. On a long branch closings come first from time to time.
pub(crate) fn decide<D: Deciders>(
    alloc: Global,
    deciders: &mut D,
    pool: &mut Pool,
    branch: &PoolBranch,
) -> Result<Decision, NoMemory>
    requires knows { D.knows deciders.old pool.old }
    requires over { IsOver pool.old branch.now }
    requires short { IsShortBranch (branch_in pool.old branch.now) }
    requires level { IsLevel (branch_in pool.old branch.now) }
    ensures extends { Extends pool.old pool.new }
    ensures knows { OnOk result (D.knows deciders.new pool.new) }
    ensures shapes { OnOk result (D.shapes deciders.new ≡ D.shapes deciders.old) }
    ensures decided { IfOk result (IsDecided (D.shapes deciders.old) pool.new (branch_in pool.old branch.now)) }
{
    if branch.len() == MOST_ENTRIES {
        return Ok(Decision::Stops(Stop::Full));
    }
    if deciders.is_crowded(alloc, pool, branch)? {
        return Ok(Decision::Stops(Stop::Full));
    }
    if branch.len() % LENGTH_BETWEEN == 0 {
        at_length(alloc, deciders, pool, branch)
    } else {
        with_early(alloc, deciders, pool, branch)
    }
}

// The branch may close before all early applications are done.
fn at_length<D: Deciders>(
    alloc: Global,
    deciders: &mut D,
    pool: &mut Pool,
    branch: &PoolBranch,
) -> Result<Decision, NoMemory>
    requires knows { D.knows deciders.old pool.old }
    requires over { IsOver pool.old branch.now }
    requires room { HasRoom (branch_in pool.old branch.now) }
    requires level { IsLevel (branch_in pool.old branch.now) }
    ensures extends { Extends pool.old pool.new }
    ensures knows { OnOk result (D.knows deciders.new pool.new) }
    ensures shapes { OnOk result (D.shapes deciders.new ≡ D.shapes deciders.old) }
    ensures decided { IfOk result (IsDecided (D.shapes deciders.old) pool.new (branch_in pool.old branch.now)) }
{
    match deciders.closing(alloc, pool, branch)? {
        ClosingAnswer::Closes(closing) => Ok(Decision::Closes(closing)),
        ClosingAnswer::TooLong | ClosingAnswer::Open => with_rows(alloc, deciders, pool, branch),
    }
}

// No clash closes the branch.
fn with_rows<D: Deciders>(
    alloc: Global,
    deciders: &mut D,
    pool: &mut Pool,
    branch: &PoolBranch,
) -> Result<Decision, NoMemory>
    requires knows { D.knows deciders.old pool.old }
    requires over { IsOver pool.old branch.now }
    requires room { HasRoom (branch_in pool.old branch.now) }
    requires level { IsLevel (branch_in pool.old branch.now) }
    ensures extends { Extends pool.old pool.new }
    ensures knows { OnOk result (D.knows deciders.new pool.new) }
    ensures shapes { OnOk result (D.shapes deciders.new ≡ D.shapes deciders.old) }
    ensures decided { IfOk result (IsDecided (D.shapes deciders.old) pool.new (branch_in pool.old branch.now)) }
{
    match deciders.rows(alloc, pool, branch)? {
        RowsAnswer::Closes(closing) => Ok(Decision::Closes(closing)),
        _ => with_early(alloc, deciders, pool, branch),
    }
}

// Early applications come first.
fn with_early<D: Deciders>(
    alloc: Global,
    deciders: &mut D,
    pool: &mut Pool,
    branch: &PoolBranch,
) -> Result<Decision, NoMemory>
    requires knows { D.knows deciders.old pool.old }
    requires over { IsOver pool.old branch.now }
    requires room { HasRoom (branch_in pool.old branch.now) }
    requires level { IsLevel (branch_in pool.old branch.now) }
    ensures extends { Extends pool.old pool.new }
    ensures knows { OnOk result (D.knows deciders.new pool.new) }
    ensures shapes { OnOk result (D.shapes deciders.new ≡ D.shapes deciders.old) }
    ensures decided { IfOk result (IsDecided (D.shapes deciders.old) pool.new (branch_in pool.old branch.now)) }
{
    match deciders.early(alloc, pool, branch)? {
        Some(extension) => Ok(Decision::Grows(extension)),
        None => after_early(alloc, deciders, pool, branch),
    }
}

// Nothing early is due.
fn after_early<D: Deciders>(
    alloc: Global,
    deciders: &mut D,
    pool: &mut Pool,
    branch: &PoolBranch,
) -> Result<Decision, NoMemory>
    requires knows { D.knows deciders.old pool.old }
    requires over { IsOver pool.old branch.now }
    requires room { HasRoom (branch_in pool.old branch.now) }
    requires level { IsLevel (branch_in pool.old branch.now) }
    requires early { NothingEarly (D.shapes deciders.old) (branch_in pool.old branch.now) }
    ensures extends { Extends pool.old pool.new }
    ensures knows { OnOk result (D.knows deciders.new pool.new) }
    ensures shapes { OnOk result (D.shapes deciders.new ≡ D.shapes deciders.old) }
    ensures decided { IfOk result (IsDecided (D.shapes deciders.old) pool.new (branch_in pool.old branch.now)) }
{
    match deciders.closing(alloc, pool, branch)? {
        ClosingAnswer::Closes(closing) => Ok(Decision::Closes(closing)),
        ClosingAnswer::TooLong => Ok(Decision::Stops(Stop::Full)),
        ClosingAnswer::Open => after_closing(alloc, deciders, pool, branch),
    }
}

// No clash closes the branch.
fn after_closing<D: Deciders>(
    alloc: Global,
    deciders: &mut D,
    pool: &mut Pool,
    branch: &PoolBranch,
) -> Result<Decision, NoMemory>
    requires knows { D.knows deciders.old pool.old }
    requires over { IsOver pool.old branch.now }
    requires room { HasRoom (branch_in pool.old branch.now) }
    requires level { IsLevel (branch_in pool.old branch.now) }
    requires early { NothingEarly (D.shapes deciders.old) (branch_in pool.old branch.now) }
    requires closed { IsNotClosed (branch_in pool.old branch.now) }
    ensures extends { Extends pool.old pool.new }
    ensures knows { OnOk result (D.knows deciders.new pool.new) }
    ensures shapes { OnOk result (D.shapes deciders.new ≡ D.shapes deciders.old) }
    ensures decided { IfOk result (IsDecided (D.shapes deciders.old) pool.new (branch_in pool.old branch.now)) }
{
    let is_urgent = deciders.is_urgent(alloc, pool, branch)?;
    if is_urgent {
        in_haste(alloc, deciders, pool, branch)
    } else {
        with_near(alloc, deciders, pool, branch)
    }
}

// The rows are solved first.
fn in_haste<D: Deciders>(
    alloc: Global,
    deciders: &mut D,
    pool: &mut Pool,
    branch: &PoolBranch,
) -> Result<Decision, NoMemory>
    requires knows { D.knows deciders.old pool.old }
    requires over { IsOver pool.old branch.now }
    requires room { HasRoom (branch_in pool.old branch.now) }
    requires level { IsLevel (branch_in pool.old branch.now) }
    requires early { NothingEarly (D.shapes deciders.old) (branch_in pool.old branch.now) }
    requires closed { IsNotClosed (branch_in pool.old branch.now) }
    ensures extends { Extends pool.old pool.new }
    ensures knows { OnOk result (D.knows deciders.new pool.new) }
    ensures shapes { OnOk result (D.shapes deciders.new ≡ D.shapes deciders.old) }
    ensures decided { IfOk result (IsDecided (D.shapes deciders.old) pool.new (branch_in pool.old branch.now)) }
{
    match deciders.rows(alloc, pool, branch)? {
        RowsAnswer::Met => in_haste_by_values(alloc, deciders, pool, branch),
        RowsAnswer::Closes(closing) => Ok(Decision::Closes(closing)),
        _ => with_near(alloc, deciders, pool, branch),
    }
}

// Some values satisfy the rows, which were solved first.
fn in_haste_by_values<D: Deciders>(
    alloc: Global,
    deciders: &mut D,
    pool: &mut Pool,
    branch: &PoolBranch,
) -> Result<Decision, NoMemory>
    requires knows { D.knows deciders.old pool.old }
    requires over { IsOver pool.old branch.now }
    requires room { HasRoom (branch_in pool.old branch.now) }
    requires level { IsLevel (branch_in pool.old branch.now) }
    requires early { NothingEarly (D.shapes deciders.old) (branch_in pool.old branch.now) }
    requires closed { IsNotClosed (branch_in pool.old branch.now) }
    requires late { IsLate (D.shapes deciders.old) (branch_in pool.old branch.now) }
    ensures extends { Extends pool.old pool.new }
    ensures knows { OnOk result (D.knows deciders.new pool.new) }
    ensures shapes { OnOk result (D.shapes deciders.new ≡ D.shapes deciders.old) }
    ensures decided { IfOk result (IsDecided (D.shapes deciders.old) pool.new (branch_in pool.old branch.now)) }
{
    match deciders.promising(alloc, pool, branch)? {
        Some(extension) => Ok(Decision::Grows(extension)),
        None => with_near(alloc, deciders, pool, branch),
    }
}

// Instances that a proof is likely to need come before the rows.
fn with_near<D: Deciders>(
    alloc: Global,
    deciders: &mut D,
    pool: &mut Pool,
    branch: &PoolBranch,
) -> Result<Decision, NoMemory>
    requires knows { D.knows deciders.old pool.old }
    requires over { IsOver pool.old branch.now }
    requires room { HasRoom (branch_in pool.old branch.now) }
    requires level { IsLevel (branch_in pool.old branch.now) }
    requires early { NothingEarly (D.shapes deciders.old) (branch_in pool.old branch.now) }
    requires closed { IsNotClosed (branch_in pool.old branch.now) }
    ensures extends { Extends pool.old pool.new }
    ensures knows { OnOk result (D.knows deciders.new pool.new) }
    ensures shapes { OnOk result (D.shapes deciders.new ≡ D.shapes deciders.old) }
    ensures decided { IfOk result (IsDecided (D.shapes deciders.old) pool.new (branch_in pool.old branch.now)) }
{
    match deciders.near(alloc, pool, branch)? {
        Some(extension) => Ok(Decision::Grows(extension)),
        None => after_near(alloc, deciders, pool, branch),
    }
}

// No such instance is left. If the rows have no known solution, instances may still close the branch.
fn after_near<D: Deciders>(
    alloc: Global,
    deciders: &mut D,
    pool: &mut Pool,
    branch: &PoolBranch,
) -> Result<Decision, NoMemory>
    requires knows { D.knows deciders.old pool.old }
    requires over { IsOver pool.old branch.now }
    requires room { HasRoom (branch_in pool.old branch.now) }
    requires level { IsLevel (branch_in pool.old branch.now) }
    requires early { NothingEarly (D.shapes deciders.old) (branch_in pool.old branch.now) }
    requires closed { IsNotClosed (branch_in pool.old branch.now) }
    ensures extends { Extends pool.old pool.new }
    ensures knows { OnOk result (D.knows deciders.new pool.new) }
    ensures shapes { OnOk result (D.shapes deciders.new ≡ D.shapes deciders.old) }
    ensures decided { IfOk result (IsDecided (D.shapes deciders.old) pool.new (branch_in pool.old branch.now)) }
{
    match deciders.rows(alloc, pool, branch)? {
        RowsAnswer::Met => by_values(alloc, deciders, pool, branch),
        RowsAnswer::Closes(closing) => Ok(Decision::Closes(closing)),
        _ => without_values(alloc, deciders, pool, branch),
    }
}

// Some values satisfy the rows, and no instance is left that a proof is likely to need.
fn by_values<D: Deciders>(
    alloc: Global,
    deciders: &mut D,
    pool: &mut Pool,
    branch: &PoolBranch,
) -> Result<Decision, NoMemory>
    requires knows { D.knows deciders.old pool.old }
    requires over { IsOver pool.old branch.now }
    requires room { HasRoom (branch_in pool.old branch.now) }
    requires level { IsLevel (branch_in pool.old branch.now) }
    requires late { IsLate (D.shapes deciders.old) (branch_in pool.old branch.now) }
    ensures extends { Extends pool.old pool.new }
    ensures knows { OnOk result (D.knows deciders.new pool.new) }
    ensures shapes { OnOk result (D.shapes deciders.new ≡ D.shapes deciders.old) }
    ensures decided { IfOk result (IsDecided (D.shapes deciders.old) pool.new (branch_in pool.old branch.now)) }
{
    match deciders.promising(alloc, pool, branch)? {
        Some(extension) => Ok(Decision::Grows(extension)),
        None => with_plain(alloc, deciders, pool, branch),
    }
}

// No case split is likely to close soon.
fn with_plain<D: Deciders>(
    alloc: Global,
    deciders: &mut D,
    pool: &mut Pool,
    branch: &PoolBranch,
) -> Result<Decision, NoMemory>
    requires knows { D.knows deciders.old pool.old }
    requires over { IsOver pool.old branch.now }
    requires room { HasRoom (branch_in pool.old branch.now) }
    requires level { IsLevel (branch_in pool.old branch.now) }
    requires late { IsLate (D.shapes deciders.old) (branch_in pool.old branch.now) }
    ensures extends { Extends pool.old pool.new }
    ensures knows { OnOk result (D.knows deciders.new pool.new) }
    ensures shapes { OnOk result (D.shapes deciders.new ≡ D.shapes deciders.old) }
    ensures decided { IfOk result (IsDecided (D.shapes deciders.old) pool.new (branch_in pool.old branch.now)) }
{
    match deciders.plain(alloc, pool, branch)? {
        Some(extension) => Ok(Decision::Grows(extension)),
        None => after_rows(alloc, deciders, pool, branch),
    }
}

// The elimination of the rows gave no values.
fn without_values<D: Deciders>(
    alloc: Global,
    deciders: &mut D,
    pool: &mut Pool,
    branch: &PoolBranch,
) -> Result<Decision, NoMemory>
    requires knows { D.knows deciders.old pool.old }
    requires over { IsOver pool.old branch.now }
    requires room { HasRoom (branch_in pool.old branch.now) }
    requires level { IsLevel (branch_in pool.old branch.now) }
    requires early { NothingEarly (D.shapes deciders.old) (branch_in pool.old branch.now) }
    requires closed { IsNotClosed (branch_in pool.old branch.now) }
    ensures extends { Extends pool.old pool.new }
    ensures knows { OnOk result (D.knows deciders.new pool.new) }
    ensures shapes { OnOk result (D.shapes deciders.new ≡ D.shapes deciders.old) }
    ensures decided { IfOk result (IsDecided (D.shapes deciders.old) pool.new (branch_in pool.old branch.now)) }
{
    match deciders.plain(alloc, pool, branch)? {
        Some(extension) => Ok(Decision::Grows(extension)),
        None => after_plain(alloc, deciders, pool, branch),
    }
}

// No instance is due.
fn after_plain<D: Deciders>(
    alloc: Global,
    deciders: &mut D,
    pool: &mut Pool,
    branch: &PoolBranch,
) -> Result<Decision, NoMemory>
    requires knows { D.knows deciders.old pool.old }
    requires over { IsOver pool.old branch.now }
    requires room { HasRoom (branch_in pool.old branch.now) }
    requires level { IsLevel (branch_in pool.old branch.now) }
    requires early { NothingEarly (D.shapes deciders.old) (branch_in pool.old branch.now) }
    requires closed { IsNotClosed (branch_in pool.old branch.now) }
    requires plain { NothingPlain (D.shapes deciders.old) (branch_in pool.old branch.now) }
    ensures extends { Extends pool.old pool.new }
    ensures knows { OnOk result (D.knows deciders.new pool.new) }
    ensures shapes { OnOk result (D.shapes deciders.new ≡ D.shapes deciders.old) }
    ensures decided { IfOk result (IsDecided (D.shapes deciders.old) pool.new (branch_in pool.old branch.now)) }
{
    match deciders.rows(alloc, pool, branch)? {
        RowsAnswer::Met => after_rows(alloc, deciders, pool, branch),
        RowsAnswer::Closes(closing) => Ok(Decision::Closes(closing)),
        RowsAnswer::TooLong => Ok(Decision::Stops(Stop::Full)),
        RowsAnswer::Wide(first, second) => Ok(Decision::Stops(Stop::Wide(first, second))),
        RowsAnswer::TooMany(rows) => Ok(Decision::Stops(Stop::TooManyRows(rows))),
    }
}

// Some values satisfy the rows.
fn after_rows<D: Deciders>(
    alloc: Global,
    deciders: &mut D,
    pool: &mut Pool,
    branch: &PoolBranch,
) -> Result<Decision, NoMemory>
    requires knows { D.knows deciders.old pool.old }
    requires over { IsOver pool.old branch.now }
    requires room { HasRoom (branch_in pool.old branch.now) }
    requires level { IsLevel (branch_in pool.old branch.now) }
    requires late { IsLate (D.shapes deciders.old) (branch_in pool.old branch.now) }
    requires plain { NothingPlain (D.shapes deciders.old) (branch_in pool.old branch.now) }
    ensures extends { Extends pool.old pool.new }
    ensures knows { OnOk result (D.knows deciders.new pool.new) }
    ensures shapes { OnOk result (D.shapes deciders.new ≡ D.shapes deciders.old) }
    ensures decided { IfOk result (IsDecided (D.shapes deciders.old) pool.new (branch_in pool.old branch.now)) }
{
    match deciders.late(alloc, pool, branch)? {
        Some(extension) => Ok(Decision::Grows(extension)),
        None => at_leaf(alloc, deciders, pool, branch),
    }
}

// The branch is saturated.
fn at_leaf<D: Deciders>(
    alloc: Global,
    deciders: &mut D,
    pool: &mut Pool,
    branch: &PoolBranch,
) -> Result<Decision, NoMemory>
    requires knows { D.knows deciders.old pool.old }
    requires over { IsOver pool.old branch.now }
    requires room { HasRoom (branch_in pool.old branch.now) }
    requires level { IsLevel (branch_in pool.old branch.now) }
    requires saturated { IsSaturated (D.shapes deciders.old) (branch_in pool.old branch.now) }
    ensures extends { Extends pool.old pool.new }
    ensures knows { OnOk result (D.knows deciders.new pool.new) }
    ensures shapes { OnOk result (D.shapes deciders.new ≡ D.shapes deciders.old) }
    ensures decided { IfOk result (IsDecided (D.shapes deciders.old) pool.new (branch_in pool.old branch.now)) }
{
    match deciders.leaf(alloc, pool, branch)? {
        LeafAnswer::Open(values) => Ok(Decision::Stops(Stop::Open(values))),
        LeafAnswer::Bound(extension) => Ok(Decision::Grows(extension)),
        LeafAnswer::Closes(closing) => Ok(Decision::Closes(closing)),
        LeafAnswer::TooLong => Ok(Decision::Stops(Stop::Full)),
        LeafAnswer::Wide(first, second) => Ok(Decision::Stops(Stop::Wide(first, second))),
        LeafAnswer::TooMany(rows) => Ok(Decision::Stops(Stop::TooManyRows(rows))),
    }
}
