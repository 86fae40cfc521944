//! Rows without a solution close a branch, by an explanation that has their entries with one term for each class.

ghost use Rattle.std.specs.Prelude.{◌≡◌, ◌≤ℤ◌, ℕ, ℤ, pos, List, length, map, All, IfOk, MatchOption};
ghost use Rattle.std.specs.List.{AllZip};
ghost use Rattle.fol.specs.FormulaData.{TermData};
ghost use Rattle.fol.specs.declared.shapes.Shape.{Shape};
ghost use Rattle.linear_arith.specs.Combination.{IsContradiction};
ghost use Rattle.linear_arith.specs.Inequality.{Inequality};
ghost use Rattle.term_pool.specs.declared.node.Node.{Node};
ghost use Rattle.certificates.specs.BranchesBranch.{Branch, formulas};
ghost use Rattle.certificates.specs.ProofTraces.{IsFull};
ghost use Rattle.row_reasoning.specs.Rows.{IsRowFrom};
ghost use Rattle.explanations.specs.Chains.{formula_at, IsChain};
ghost use Rattle.search.specs.Decisions.{IsClosingDue};
ghost use Rattle.row_reasoning.specs.Chosen.{AreChosen};
ghost use Rattle.row_reasoning.specs.Cited.{ArePlaced};
ghost use Rattle.closing_rules.specs.Positions.{AreBelow};

use crate::closings::closing::closing;
use base::memory::NoMemory;
use certificates::branch::MOST_ENTRIES;
use certificates::certificate::Close;
use explanations::chain::Chain;
use row_reasoning::closings::laws::rows_close;
use row_reasoning::closings::multiples::multiples;
use row_reasoning::rows::RowOrigin;
use search::trees::application::Closing;
use std::alloc::Global;

/// The closing of a branch by multipliers that combine its rows to a contradiction. `positions` gives the indexes, in the
/// explanation, of the combined rows' entries with the chosen term for each class. `None` if the explanation has more
/// formulas than a branch may have entries. `NoMemory` if memory runs out.
pub fn rows_closing(
    alloc: Global,
    chain: &Chain,
    origins: &[RowOrigin],
    multipliers: &[i128],
    positions: &[Option<usize>],
) -> Result<Option<Closing>, NoMemory>
    requires one_each { length multipliers.now ≡ length origins.now }
    requires positive { All (λ m. pos 0 ≤ℤ m) multipliers.now }
    requires below { AreBelow (length chain.now.formulas) positions.now }
    ensures { (shapes : List Shape) (ns : List Node) (b : Branch) (class : TermData → ℕ) (classes : List ℕ) (chosen : ℕ → TermData) (rows : List Inequality) → IsChain ns b chain.now → AreChosen class classes chosen → AllZip (IsRowFrom class (formulas b) classes) rows origins.now → IsContradiction rows multipliers.now → ArePlaced class chosen (formulas b) (map (formula_at ns) chain.now.formulas) origins.now multipliers.now positions.now → IfOk result (λ found. MatchOption found (IsFull shapes b) (IsClosingDue shapes ns b)) }
{
    rows_close();
    if chain.len() > MOST_ENTRIES {
        return Ok(None);
    }
    let cited = multiples(alloc, origins, multipliers, positions)?;
    closing(alloc, chain, Close::Linear(cited))
}
