//! An explanation under construction: a chain of steps.

ghost use Rattle.std.specs.Prelude.{◌≡◌, ◌<◌, ◌≤◌, List, [], ◌∷◌, ◌++◌, Some, length, nat_eq, slice_get, OnOk, IfOk, MatchOption};
ghost use Rattle.indexmap.specs.IndexMap.{get};
ghost use Rattle.fol.specs.FormulaData.{EqFormula};
ghost use Rattle.term_pool.specs.Items.{TermSort, formula_in};
ghost use Rattle.term_pool.specs.Pools.{item_at, HasPart, Extends};
ghost use Rattle.term_pool.specs.declared.node.Node.{Node};
ghost use Rattle.certificates.specs.BranchesBranch.{Branch, formulas};
ghost use Rattle.certificates.specs.Names.{above_all};
ghost use Rattle.explanations.specs.Frames.{filled, IsWay};
ghost use Rattle.explanations.specs.Chains.{term_at, IsNotAmong, IsPositionOf, ArePositions, HasPositions, Keeps, IsAt, IsChain, AreEntries, CanBegin, CanSwap, CanPutRight};

use crate::frame::{Frame, fill};
use base::memory::NoMemory;
use fol::operators::Comparison;
use indexmap::IndexMap;
use std::alloc::Global;
use std::marker::Model;
use term_pool::node::{Leaf, Node, Two};
use term_pool::numbers::{look_up, note};
use term_pool::pool::Pool;

/// The replacement of equals by equals in a formula of an explanation.
#[derive(Clone, Copy)]
pub struct Rewriting {
    /// The index of the equation.
    pub equation: usize,
    /// The index of the formula.
    pub source: usize,
    /// The variable of the pattern, which marks the replaced occurrence.
    pub variable: u32,
    /// The number of the pattern.
    pub pattern: usize,
    /// The number of the resulting formula.
    pub formula: usize,
}

/// A step that adds a formula to an explanation.
#[derive(Clone, Copy)]
pub enum ChainStep {
    /// The reflexivity axiom of a term: the formula with this number.
    Itself(usize),
    Rewritten(Rewriting),
}

/// A term and its replacement, by number.
#[derive(Clone, Copy)]
pub struct Swap {
    /// The index of their equation.
    pub equation: usize,
    pub from: usize,
    pub to: usize,
}

/// An explanation: the formulas of a branch, and after them those that steps add. After an `Err` it must not be used.
#[derive(Drop)]
pub struct Chain {
    // The numbers of the formulas.
    formulas: Vec<usize>,
    // The index of each formula.
    positions: IndexMap<usize, usize>,
    steps: Vec<ChainStep>,
    // The variable of the patterns.
    variable: u32,
}

impl Model for Chain {
    ghost use Rattle.explanations.specs.Chains.{ChainData};

    ghost Value = { ChainData };

    ghost view = { λ c. record { formulas = c.formulas.items; positions = c.positions.entries; steps = c.steps.items; variable = c.variable } };
}

// Adds a formula at the end, and returns its index.
fn stand(
    formulas: &mut Vec<usize>,
    positions: &mut IndexMap<usize, usize>,
    formula: usize,
) -> Result<usize, NoMemory>
    requires { ArePositions formulas.old.items (get nat_eq positions.old) }
    ensures positions { OnOk result (ArePositions formulas.new.items (get nat_eq positions.new)) }
    ensures formulas { OnOk result (formulas.new.items ≡ formulas.old.items ++ formula ∷ []) }
    ensures position { IfOk result (λ position. position ≡ length formulas.old.items) }
{
    let position = formulas.len();
    note(positions, formula, position)?;
    formulas.push(formula)?;
    Ok(position)
}

impl Chain {
    /// The explanation without steps over the entries with these formulas. The variable must be above all those of the
    /// entries.
    pub fn of(alloc: Global, entries: &[usize], variable: u32) -> Result<Chain, NoMemory>
        ensures formulas { IfOk result (λ chain. chain.formulas ≡ entries.now) }
        ensures variable { IfOk result (λ chain. chain.variable ≡ variable) }
        ensures positions { IfOk result HasPositions }
        ensures chain { IfOk result (λ chain. (ns : List Node) (b : Branch) → AreEntries ns entries.now b → above_all (formulas b) ≤ variable → IsChain ns b chain) }
    {
        let mut formulas = Vec::new(alloc);
        let mut positions = IndexMap::new(alloc);
        for formula in entries {
            stand(&mut formulas, &mut positions, *formula)?;
        }
        Ok(Chain {
            formulas,
            positions,
            steps: Vec::new(alloc),
            variable,
        })
    }

    /// The number of formulas.
    pub fn len(&self) -> usize
        ensures { result ≡ length self.now.formulas }
    {
        self.formulas.len()
    }

    /// The number of the formula at this index. None past the end.
    pub fn formula(&self, position: usize) -> Option<usize>
        ensures { result ≡ slice_get self.now.formulas position }
    {
        match self.formulas.get(position) {
            Some(formula) => Some(*formula),
            None => None,
        }
    }

    /// The steps, in order.
    pub fn steps(&self) -> &[ChainStep]
        ensures { result.now ≡ self.now.steps }
    {
        self.steps.as_slice()
    }

    /// An index of the formula with this number; none if the explanation does not have it.
    pub fn position(&self, formula: usize) -> Option<usize>
        requires { HasPositions self.now }
        ensures { MatchOption result (IsNotAmong self.now.formulas formula) (IsPositionOf self.now.formulas formula) }
    {
        look_up(&self.positions, formula)
    }

    // Adds a step and its formula at the end, and returns the index of the formula.
    fn add(&mut self, step: ChainStep, formula: usize) -> Result<usize, NoMemory>
        requires positions { HasPositions self.old }
        ensures positions { OnOk result (HasPositions self.new) }
        ensures formulas { OnOk result (self.new.formulas ≡ self.old.formulas ++ formula ∷ []) }
        ensures steps { OnOk result (self.new.steps ≡ self.old.steps ++ step ∷ []) }
        ensures variable { OnOk result (self.new.variable ≡ self.old.variable) }
        ensures position { IfOk result (λ position. position ≡ length self.old.formulas) }
    {
        let position = stand(&mut self.formulas, &mut self.positions, formula)?;
        self.steps.push(step)?;
        Ok(position)
    }

    /// Returns an index of the equation of a term with itself, which is added if it is missing.
    pub fn itself(&mut self, pool: &mut Pool, term: usize) -> Result<usize, NoMemory>
        requires term { HasPart pool.old (length pool.old) term TermSort }
        requires positions { HasPositions self.old }
        ensures extends { Extends pool.old pool.new }
        ensures positions { OnOk result (HasPositions self.new) }
        ensures keeps { OnOk result (Keeps self.old self.new) }
        ensures at { IfOk result (λ position. IsAt pool.new self.new position (EqFormula (term_at pool.old term) (term_at pool.old term))) }
        ensures chain { OnOk result ((b : Branch) → IsChain pool.old b self.old → CanBegin b self.old (term_at pool.old term) → IsChain pool.new b self.new) }
    {
        let formula = pool.insert(Node::Two(Two::Compare(Comparison::Eq), term, term))?;
        match self.position(formula) {
            Some(position) => Ok(position),
            None => {
                pool.one_number();
                let position = self.add(ChainStep::Itself(formula), formula)?;
                Ok(position)
            }
        }
    }

    /// Returns an index of the source formula with the one term replaced by the other in this context. The formula is
    /// added if it is missing.
    pub fn rewrite(
        &mut self,
        pool: &mut Pool,
        way: &[Frame],
        swap: Swap,
        source: usize,
    ) -> Result<usize, NoMemory>
        requires way { IsWay pool.old way.now TermSort }
        requires from { HasPart pool.old (length pool.old) swap.from TermSort }
        requires to { HasPart pool.old (length pool.old) swap.to TermSort }
        requires swap { CanSwap pool.old self.old way.now swap source }
        requires positions { HasPositions self.old }
        ensures extends { Extends pool.old pool.new }
        ensures positions { OnOk result (HasPositions self.new) }
        ensures keeps { OnOk result (Keeps self.old self.new) }
        ensures at { IfOk result (λ position. IsAt pool.new self.new position (formula_in (filled pool.old way.now (item_at pool.old swap.to)))) }
        ensures chain { OnOk result ((b : Branch) → IsChain pool.old b self.old → IsChain pool.new b self.new) }
    {
        let formula = fill(pool, way, swap.to)?;
        match self.position(formula) {
            Some(position) => Ok(position),
            None => {
                let variable = pool.insert(Node::Leaf(Leaf::Var(self.variable)))?;
                let pattern = fill(pool, way, variable)?;
                pool.one_number();
                let rewriting = Rewriting {
                    equation: swap.equation,
                    source,
                    variable: self.variable,
                    pattern,
                    formula,
                };
                let position = self.add(ChainStep::Rewritten(rewriting), formula)?;
                Ok(position)
            }
        }
    }

    /// Returns an index of the equation of the left term with the replacement of the right one, where the source is
    /// the equation of the left term with the right one. The equation is added if it is missing.
    pub fn put_right(
        &mut self,
        pool: &mut Pool,
        left: usize,
        swap: Swap,
        source: usize,
    ) -> Result<usize, NoMemory>
        requires left { HasPart pool.old (length pool.old) left TermSort }
        requires from { HasPart pool.old (length pool.old) swap.from TermSort }
        requires to { HasPart pool.old (length pool.old) swap.to TermSort }
        requires right { CanPutRight pool.old self.old left swap source }
        requires positions { HasPositions self.old }
        ensures extends { Extends pool.old pool.new }
        ensures positions { OnOk result (HasPositions self.new) }
        ensures keeps { OnOk result (Keeps self.old self.new) }
        ensures at { IfOk result (λ position. IsAt pool.new self.new position (EqFormula (term_at pool.old left) (term_at pool.old swap.to))) }
        ensures chain { OnOk result ((b : Branch) → IsChain pool.old b self.old → IsChain pool.new b self.new) }
    {
        let right = [Frame::SecondOfTwo(Two::Compare(Comparison::Eq), left)];
        self.rewrite(pool, &right, swap, source)
    }
}
