//! The deciders of a formula's search, with what they keep of the pool and of the current branch.

ghost use Rattle.std.specs.Prelude.{◌≡◌, List};
ghost use Rattle.fol.specs.declared.shapes.Shape.{Shape};
ghost use Rattle.term_pool.specs.declared.node.Node.{Node};
ghost use Rattle.axiom_instances.specs.StructRows.{HasFewFields};
ghost use Rattle.strategy.specs.Known.{shapes_of, Knows};

use crate::due::late::late_application;
use crate::due::near::near_application;
use crate::due::plain::plain_application;
use crate::due::promising::promising_application;
use crate::early::early_application;
use crate::following::{follow_above, follow_with_variable, is_past};
use crate::ranks::guess::Guess;
use crate::ranks::is_urgent;
use crate::rows::{leaf_answer, rows_answer};
use axiom_strategy::known::KnownInstances;
use base::memory::NoMemory;
use closing_rules::clashes::literal::next_literal;
use closing_rules::class_closings::closing::closing;
use closing_rules::closings::literal::literal_closing;
use ematching::heads::HeadIndex;
use ematching::instances::quantifiers::QuantifierFree;
use fol::shapes::Shapes;
use search::deciders::{ClosingAnswer, Deciders, LeafAnswer, RowsAnswer};
use search::trees::application::Extension;
use std::alloc::Global;
use tableau::branch::PoolBranch;
use tableau::state::BranchState;
use term_pool::pool::Pool;

/// The deciders over the shapes of structs. They keep the state of the current branch, which follows it, and facts on
/// the nodes of the pool, which are extended with it. After an `Err` they must not be used.
#[derive(Drop)]
pub struct FormulaDeciders<'a> {
    shapes: &'a Shapes,
    state: BranchState,
    heads: HeadIndex,
    quantifiers: QuantifierFree,
    known: KnownInstances,
    // The values from the last solution of the rows. They only guide the search; no contract depends on them.
    guess: Option<Guess>,
}

impl<'a> FormulaDeciders<'a> {
    /// The deciders before any pool. Each struct shape has fewer than 2^32 fields.
    pub fn new(alloc: Global, shapes: &'a Shapes) -> FormulaDeciders<'a>
        requires { HasFewFields shapes.now }
        ensures knows { (ns : List Node) → Knows result ns }
        ensures shapes { shapes_of result ≡ shapes.now }
    {
        FormulaDeciders {
            shapes,
            state: BranchState::new(alloc),
            heads: HeadIndex::new(alloc),
            quantifiers: QuantifierFree::new(alloc),
            known: KnownInstances::new(alloc),
            guess: None,
        }
    }
}

impl<'a> Deciders for FormulaDeciders<'a> {
    ghost shapes = { shapes_of };

    ghost knows = { Knows };

    fn is_crowded(
        &mut self,
        alloc: Global,
        pool: &Pool,
        branch: &PoolBranch,
    ) -> Result<bool, NoMemory> {
        let above = follow_above(pool, branch, &mut self.state)?;
        Ok(is_past(above))
    }

    fn early(
        &mut self,
        alloc: Global,
        pool: &mut Pool,
        branch: &PoolBranch,
    ) -> Result<Option<Extension>, NoMemory> {
        self.state.follow_entries(pool, branch)?;
        let found = early_application(
            alloc,
            pool,
            self.shapes,
            branch,
            &mut self.state,
            &mut self.known,
        )?;
        Ok(found)
    }

    fn closing(
        &mut self,
        alloc: Global,
        pool: &mut Pool,
        branch: &PoolBranch,
    ) -> Result<ClosingAnswer, NoMemory> {
        // (before the classes are updated, which this branch then does not need)
        if let Some(literal) = next_literal(pool, branch) {
            let closing = literal_closing(alloc, pool, branch, literal);
            return Ok(ClosingAnswer::Closes(closing));
        }
        let variable = follow_with_variable(alloc, pool, branch, &mut self.state)?;
        let answer = closing(alloc, pool, branch, &self.state.classes, variable)?;
        Ok(answer)
    }

    fn plain(
        &mut self,
        alloc: Global,
        pool: &mut Pool,
        branch: &PoolBranch,
    ) -> Result<Option<Extension>, NoMemory> {
        self.state.follow(alloc, pool, branch)?;
        let found = plain_application(
            alloc,
            pool,
            self.shapes,
            branch,
            &self.state.classes,
            &mut self.heads,
            &mut self.quantifiers,
            &mut self.known,
        )?;
        Ok(found)
    }

    fn is_urgent(
        &mut self,
        alloc: Global,
        pool: &Pool,
        branch: &PoolBranch,
    ) -> Result<bool, NoMemory> {
        self.state.follow(alloc, pool, branch)?;
        let found = is_urgent(alloc, pool, branch, &self.state.classes)?;
        Ok(found)
    }

    fn near(
        &mut self,
        alloc: Global,
        pool: &mut Pool,
        branch: &PoolBranch,
    ) -> Result<Option<Extension>, NoMemory> {
        self.state.follow(alloc, pool, branch)?;
        let found = near_application(
            alloc,
            pool,
            self.shapes,
            branch,
            &self.state.classes,
            &mut self.heads,
            &mut self.quantifiers,
            &mut self.known,
        )?;
        Ok(found)
    }

    fn promising(
        &mut self,
        alloc: Global,
        pool: &mut Pool,
        branch: &PoolBranch,
    ) -> Result<Option<Extension>, NoMemory> {
        self.state.follow(alloc, pool, branch)?;
        let guess = self.guess.as_ref();
        let found = promising_application(alloc, pool, branch, &self.state.classes, guess)?;
        Ok(found)
    }

    fn rows(
        &mut self,
        alloc: Global,
        pool: &mut Pool,
        branch: &PoolBranch,
    ) -> Result<RowsAnswer, NoMemory> {
        let variable = follow_with_variable(alloc, pool, branch, &mut self.state)?;
        let found = rows_answer(alloc, pool, branch, &self.state.classes, variable)?;
        self.guess = found.guess;
        Ok(found.answer)
    }

    fn late(
        &mut self,
        alloc: Global,
        pool: &mut Pool,
        branch: &PoolBranch,
    ) -> Result<Option<Extension>, NoMemory> {
        self.state.follow(alloc, pool, branch)?;
        let guess = self.guess.as_ref();
        let found = late_application(alloc, pool, branch, &self.state.classes, guess)?;
        Ok(found)
    }

    fn leaf(
        &mut self,
        alloc: Global,
        pool: &mut Pool,
        branch: &PoolBranch,
    ) -> Result<LeafAnswer, NoMemory> {
        let variable = follow_with_variable(alloc, pool, branch, &mut self.state)?;
        let answer = leaf_answer(alloc, pool, branch, &self.state.classes, variable)?;
        Ok(answer)
    }
}
