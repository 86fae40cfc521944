//! Decides whether the steps of an explanation are valid, one after another.

ghost use Rattle.std.specs.Prelude.{◌≡◌, ◌↔◌, ◌+◌, ◌++◌, ◌≤◌, ℕ, List, length, map, IsTrue, IfOk};
ghost use Rattle.fol.specs.declared.shapes.Shape.{Shape};
ghost use Rattle.fol.specs.FormulaData.{FormulaData};
ghost use Rattle.certificates.specs.Branch.{entries_of, IsCounted};
ghost use Rattle.certificates.specs.Closes.{most_entries, IsEntry};
ghost use Rattle.certificates.specs.Rewriting.{IsRewriting};
ghost use Rattle.certificates.specs.BranchesBranch.{formulas};
ghost use Rattle.certificates.specs.ProofTraces.{AreLinks, after_links};
ghost use Rattle.tableau.specs.PoolBranches.{branch_in, IsOver};
ghost use Rattle.tableau.specs.Numbers.{formula_at, AreFormulas};
ghost use Rattle.explanations.specs.Chains.{step_in};
ghost use Rattle.step_checks.specs.Inside.{AreInsideMarks};
ghost use Rattle.step_checks.specs.Links.{formula_added, IsNamed, AreNamed, IsShallowStep, AreShallow, IsRewritten, IsNextLink};

use crate::closings::adding::{number_of, stands_before};
use crate::closings::equations::is_itself;
use crate::closings::inside::InsideMarks;
use base::memory::NoMemory;
use certificates::branch::{Branch, entry_at};
use certificates::rewriting::{Pattern, is_rewriting};
use explanations::chain::{ChainStep, Rewriting};
use fol::formula::Formula;
use std::alloc::Global;
use tableau::branch::PoolBranch;
use term_pool::pool::Pool;
use term_pool::reading::read_formula;

// Decides whether an entry is the pattern with one side of another entry, which is an equation, and the formula is the
// pattern with the other side.
fn rewrites(
    line: &Branch<'_>,
    equation: usize,
    source: usize,
    pattern: Pattern<'_>,
    formula: &Formula,
) -> bool
    requires { IsCounted line.now }
    ensures { IsTrue result
        ↔ ((e : FormulaData) × (q : FormulaData) × IsEntry (entries_of line.now) equation e × IsEntry (entries_of line.now) source q × IsRewriting pattern.entry.variable pattern.entry.formula.now e q formula.now) }
{
    match entry_at(line, equation) {
        Some(equation) => match entry_at(line, source) {
            Some(entry) => is_rewriting(pattern, equation, entry, formula),
            None => false,
        },
        None => false,
    }
}

// Decides whether replacing equals by equals in these formulas yields the formula.
fn is_rewritten(
    alloc: Global,
    pool: &Pool,
    line: &Branch<'_>,
    rewriting: Rewriting,
    formula: &Formula,
) -> Result<bool, NoMemory>
    requires { IsCounted line.now }
    ensures { IfOk result (λ known. IsTrue known ↔ IsRewritten (entries_of line.now) rewriting (formula_at pool.now rewriting.pattern) formula.now) }
{
    let read = read_formula(alloc, pool, rewriting.pattern)?;
    let pattern = Pattern {
        variable: rewriting.variable,
        formula: &read,
    };
    let known = rewrites(line, rewriting.equation, rewriting.source, pattern, formula);
    Ok(known)
}

// Decides whether the step is valid after the entries and the added formulas, which `line` has as trees.
fn is_link(
    alloc: Global,
    pool: &Pool,
    branch: &PoolBranch,
    inside: &mut InsideMarks,
    line: &Branch<'_>,
    added: &[usize],
    step: ChainStep,
    formula: &Formula,
) -> Result<bool, NoMemory>
    requires over { IsOver pool.now branch.now }
    requires inside { AreInsideMarks pool.now branch.now inside.old }
    requires counted { IsCounted line.now }
    requires line { entries_of line.now ≡ formulas (branch_in pool.now branch.now) ++ map (formula_at pool.now) added.now }
    requires added { AreFormulas pool.now added.now }
    requires named { IsNamed pool.now step }
    requires shallow { IsShallowStep pool.now step }
    requires formula { formula.now ≡ formula_added pool.now step }
    ensures inside { AreInsideMarks pool.now branch.now inside.new }
    ensures exact { IfOk result (λ known. IsTrue known ↔ IsNextLink (branch_in pool.now branch.now) (entries_of line.now) (step_in pool.now step)) }
{
    if stands_before(pool, branch, added, number_of(step)) {
        return Ok(false);
    }
    match step {
        ChainStep::Itself(number) => {
            let known = is_itself(alloc, pool, branch, inside, number)?;
            Ok(known)
        }
        ChainStep::Rewritten(rewriting) => {
            let known = is_rewritten(alloc, pool, line, rewriting, formula)?;
            Ok(known)
        }
    }
}

// Decides whether the steps are valid, one after another. `line` has the entries before, and also the results after.
pub(crate) fn are_links<'a>(
    alloc: Global,
    pool: &Pool,
    branch: &PoolBranch,
    line: &mut Branch<'a>,
    steps: &[ChainStep],
    trees: &'a [Formula],
) -> Result<bool, NoMemory>
    requires over { IsOver pool.now branch.now }
    requires counted { IsCounted line.old }
    requires line { entries_of line.old ≡ formulas (branch_in pool.now branch.now) }
    requires named { AreNamed pool.now steps.now }
    requires shallow { AreShallow pool.now steps.now }
    requires trees { trees.now ≡ map (formula_added pool.now) steps.now }
    requires short { length (entries_of line.old) + length steps.now ≤ most_entries }
    ensures exact { (shapes : List Shape) → IfOk result (λ known. IsTrue known ↔ AreLinks shapes (branch_in pool.now branch.now) (formulas (branch_in pool.now branch.now)) (map (step_in pool.now) steps.now)) }
    ensures counted { IsCounted line.new }
    ensures line { IfOk result (λ known. IsTrue known → entries_of line.new ≡ after_links (formulas (branch_in pool.now branch.now)) (map (step_in pool.now) steps.now)) }
{
    let mut inside = InsideMarks::new(alloc);
    let mut added = Vec::new(alloc);
    for i in 0..steps.len() {
        let step = steps[i];
        let tree = &trees[i];
        let known = is_link(
            alloc,
            pool,
            branch,
            &mut inside,
            line,
            added.as_slice(),
            step,
            tree,
        )?;
        if !known {
            return Ok(false);
        }
        line.push(tree);
        added.push(number_of(step))?;
    }
    Ok(true)
}
