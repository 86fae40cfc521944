//! What closes the formulas of an explanation closes its branch.

ghost use Rattle.std.specs.Prelude.{◌≡◌, ◌<◌, List, length, map, IfOk, MatchOption};
ghost use Rattle.fol.specs.declared.shapes.Shape.{Shape};
ghost use Rattle.fol.specs.FormulaData.{FormulaData, NotFormula};
ghost use Rattle.certificates.specs.CertView.{close_of_node};
ghost use Rattle.certificates.specs.Closes.{IsClose};
ghost use Rattle.term_pool.specs.declared.node.Node.{Node};
ghost use Rattle.certificates.specs.BranchesBranch.{Branch};
ghost use Rattle.certificates.specs.ProofTraces.{IsFull};
ghost use Rattle.explanations.specs.Chains.{formula_at, IsAt, IsChain};
ghost use Rattle.search.specs.Decisions.{IsClosingDue};

use base::memory::NoMemory;
use certificates::branch::MOST_ENTRIES;
use certificates::certificate::Close;
use explanations::chain::{Chain, ChainStep};
use search::trees::application::Closing;
use std::alloc::Global;

// A copy of the steps.
fn copied(alloc: Global, steps: &[ChainStep]) -> Result<Vec<ChainStep>, NoMemory>
    ensures { IfOk result (λ copy. copy.items ≡ steps.now) }
{
    let mut copy = Vec::new(alloc);
    for step in steps {
        copy.push(*step)?;
    }
    Ok(copy)
}

/// The closing of a branch by a closing of the formulas of an explanation over it; `None` if the explanation has more
/// formulas than a branch may have entries. `NoMemory` if memory runs out.
pub fn closing(alloc: Global, chain: &Chain, by: Close) -> Result<Option<Closing>, NoMemory>
    ensures { (shapes : List Shape) (ns : List Node) (b : Branch) → IsChain ns b chain.now → IsClose (map (formula_at ns) chain.now.formulas) (close_of_node by) → IfOk result (λ found. MatchOption found (IsFull shapes b) (IsClosingDue shapes ns b)) }
{
    if chain.len() > MOST_ENTRIES {
        return Ok(None);
    }
    let steps = copied(alloc, chain.steps())?;
    Ok(Some(Closing { chain: steps, by }))
}

/// The closing of a branch by two formulas of an explanation over it, the second of which negates the first; `None` if
/// the explanation has more formulas than a branch may have entries. `NoMemory` if memory runs out.
pub fn clash_closing(
    alloc: Global,
    chain: &Chain,
    said: usize,
    denied: usize,
) -> Result<Option<Closing>, NoMemory>
    requires said { said < length chain.now.formulas }
    requires denied { denied < length chain.now.formulas }
    ensures { (shapes : List Shape) (ns : List Node) (b : Branch) (p : FormulaData) → IsChain ns b chain.now → IsAt ns chain.now said p → IsAt ns chain.now denied (NotFormula p) → IfOk result (λ found. MatchOption found (IsFull shapes b) (IsClosingDue shapes ns b)) }
{
    if chain.len() > MOST_ENTRIES {
        return Ok(None);
    }
    closing(alloc, chain, Close::Clash(said as u32, denied as u32))
}
