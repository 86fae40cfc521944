//! Clashes that need congruence, closed by an explanation.

ghost use Rattle.std.specs.Prelude.{◌≡◌, ◌<◌, List, length, slice_get, Some, IfOk};
ghost use Rattle.fol.specs.FormulaData.{FormulaData, NotFormula, EqFormula};
ghost use Rattle.fol.specs.declared.shapes.Shape.{Shape};
ghost use Rattle.term_pool.specs.Pools.{Extends};
ghost use Rattle.term_pool.specs.declared.node.Node.{Node};
ghost use Rattle.congruence_closure.specs.Histories.{IsHistory};
ghost use Rattle.congruence_closure.specs.Links.{Linked};
ghost use Rattle.certificates.specs.BranchesBranch.{Branch};
ghost use Rattle.congruence_closure.specs.Numbers.{number_at};
ghost use Rattle.explanations.specs.Chains.{term_at, formula_at, HasPositions, IsAt, IsChain};
ghost use Rattle.explanations.specs.Graphs.{IsTermNode, IsGraph};
ghost use Rattle.explanations.specs.Derivations.{AreSaid, CanBeginAny};
ghost use Rattle.explanations.specs.Formulas.{IsFormulaNode};
ghost use Rattle.search.specs.Decisions.{ShowsClosing};

use crate::closings::closing::clash_closing;
use base::memory::NoMemory;
use explanations::chain::Chain;
use explanations::derived::alike::derive_alike;
use explanations::derived::derive::derive;
use explanations::derived::difference::Graph;
use search::deciders::ClosingAnswer;
use std::alloc::Global;
use term_pool::pool::Pool;

// The result for an explanation whose formula at `denied` negates the one at `said`.
fn clash_answer(
    alloc: Global,
    chain: &Chain,
    said: usize,
    denied: usize,
) -> Result<ClosingAnswer, NoMemory>
    requires said { said < length chain.now.formulas }
    requires denied { denied < length chain.now.formulas }
    ensures { (shapes : List Shape) (ns : List Node) (b : Branch) (p : FormulaData) → IsChain ns b chain.now → IsAt ns chain.now said p → IsAt ns chain.now denied (NotFormula p) → IfOk result (ShowsClosing shapes ns b) }
{
    let Some(closing) = clash_closing(alloc, chain, said, denied)? else {
        return Ok(ClosingAnswer::TooLong);
    };
    Ok(ClosingAnswer::Closes(closing))
}

/// The result for an explanation with a formula that negates the equation of two terms, given by their nodes, which
/// edges of the proof forest connect.
pub(crate) fn equation_answer(
    alloc: Global,
    pool: &mut Pool,
    chain: &mut Chain,
    graph: Graph<'_>,
    one: usize,
    other: usize,
    denied: usize,
) -> Result<ClosingAnswer, NoMemory>
    requires graph { IsGraph pool.old graph.nodes.now graph.links.now graph.numbers.now }
    requires history { IsHistory graph.links.now (length graph.links.now) graph.history.now }
    requires said { AreSaid pool.old chain.old graph.links.now graph.numbers.now }
    requires one { IsTermNode pool.old graph.nodes.now graph.numbers.now one }
    requires within { one < length graph.nodes.now }
    requires other_within { other < length graph.nodes.now }
    requires linked { Linked graph.links.now one other }
    requires positions { HasPositions chain.old }
    requires denied { denied < length chain.old.formulas }
    ensures extends { Extends pool.old pool.new }
    ensures shown { IfOk result (λ answer. (shapes : List Shape) (b : Branch) → IsChain pool.old b chain.old → CanBeginAny pool.old graph.entry.nodes.now b chain.old graph.entry.numbers.now → IsAt pool.old chain.old denied (NotFormula (EqFormula (term_at pool.old (number_at graph.entry.numbers.now one)) (term_at pool.old (number_at graph.entry.numbers.now other)))) → ShowsClosing shapes pool.new b answer) }
{
    let said = derive(alloc, pool, chain, graph, one, other)?;
    let answer = clash_answer(alloc, chain, said, denied)?;
    Ok(answer)
}

/// The result for an explanation with a formula, and the negation of one that is alike, given by their nodes.
pub(crate) fn alike_answer(
    alloc: Global,
    pool: &mut Pool,
    chain: &mut Chain,
    graph: Graph<'_>,
    one: usize,
    other: usize,
    said: usize,
    denied: usize,
) -> Result<ClosingAnswer, NoMemory>
    requires graph { IsGraph pool.old graph.nodes.now graph.links.now graph.numbers.now }
    requires history { IsHistory graph.links.now (length graph.links.now) graph.history.now }
    requires equations { AreSaid pool.old chain.old graph.links.now graph.numbers.now }
    requires one { IsFormulaNode pool.old graph.nodes.now graph.numbers.now one }
    requires other { IsFormulaNode pool.old graph.nodes.now graph.numbers.now other }
    requires linked { Linked graph.links.now one other }
    requires positions { HasPositions chain.old }
    requires said { slice_get chain.old.formulas said ≡ Some (number_at graph.numbers.now one) }
    requires denied { denied < length chain.old.formulas }
    ensures extends { Extends pool.old pool.new }
    ensures shown { IfOk result (λ answer. (shapes : List Shape) (b : Branch) → IsChain pool.old b chain.old → CanBeginAny pool.old graph.entry.nodes.now b chain.old graph.entry.numbers.now → IsAt pool.old chain.old denied (NotFormula (formula_at pool.old (number_at graph.entry.numbers.now other))) → ShowsClosing shapes pool.new b answer) }
{
    let position = derive_alike(alloc, pool, chain, graph, one, other, said)?;
    let answer = clash_answer(alloc, chain, position, denied)?;
    Ok(answer)
}
