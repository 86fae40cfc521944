//! Terms that occur in the entries of a branch, also within quantifiers and their triggers.

ghost use Rattle.std.specs.Prelude.{◌≡◌, ◌↔◌, ◌+◌, ◌<◌, ◌∷◌, [], List, false, length, replicate, IsTrue, OnOk, IfOk};
ghost use Rattle.term_pool.specs.declared.node.Node.{Node};
ghost use Rattle.certificates.specs.Inside.{StandsInside};
ghost use Rattle.tableau.specs.PoolBranches.{BranchData, branch_in, IsTermNumber, IsOver};
ghost use Rattle.explanations.specs.Chains.{term_at};
ghost use Rattle.step_checks.specs.Inside.{parts_of, MarksAlso, AreEntriesMarked, IsSwept, HasRoom, AreInsideMarks};

use base::memory::NoMemory;
use std::alloc::Global;
use std::marker::Model;
use tableau::branch::PoolBranch;
use term_pool::node::Node;
use term_pool::pool::Pool;

/// Marks of the numbers that occur in the entries of a branch. They are computed once, for the first term that the
/// branch does not know outside quantifiers. After an `Err` they may still be used.
#[derive(Drop)]
pub struct InsideMarks {
    // By the number of a node; empty before they are computed.
    marks: Vec<bool>,
}

impl Model for InsideMarks {
    ghost use Rattle.std.specs.Prelude.{List, Bool};

    ghost Value = { List Bool };

    ghost view = { λ s. s.marks.items };
}

fn mark(marks: &mut [bool], number: usize)
    requires { number < length marks.old }
    ensures { MarksAlso marks.old marks.new (number ∷ []) }
{
    marks[number] = true;
}

fn mark_parts(marks: &mut [bool], node: Node)
    requires { HasRoom marks.old node }
    ensures { MarksAlso marks.old marks.new (parts_of node) }
{
    match node {
        Node::Leaf(_) => {}
        Node::One(_, a) => mark(marks, a),
        Node::Two(_, a, b) => {
            mark(marks, a);
            mark(marks, b);
        }
        Node::Three(_, a, b, c) => {
            mark(marks, a);
            mark(marks, b);
            mark(marks, c);
        }
    }
}

// Marks the parts of the number if it is marked.
fn sweep(pool: &Pool, marks: &mut [bool], number: usize)
    requires within { number < length pool.now }
    requires as_long { length marks.old ≡ length pool.now }
    ensures { (d : BranchData) → IsSwept pool.now d marks.old (number + 1) → IsSwept pool.now d marks.new number }
{
    if !marks[number] {
        return;
    }
    let Some(node) = pool.node(number) else {
        return;
    };
    mark_parts(marks, node);
}

fn mark_entry(pool: &Pool, branch: &PoolBranch, marks: &mut [bool], i: usize)
    requires over { IsOver pool.now branch.now }
    requires marks { AreEntriesMarked pool.now branch.now marks.old i }
    ensures { AreEntriesMarked pool.now branch.now marks.new (i + 1) }
{
    let Some(entry) = branch.entry(i) else {
        return;
    };
    mark(marks, entry.formula);
}

fn mark_entries(pool: &Pool, branch: &PoolBranch, marks: &mut [bool])
    requires over { IsOver pool.now branch.now }
    requires none { marks.old ≡ replicate (length pool.now) false }
    ensures { AreEntriesMarked pool.now branch.now marks.new (length branch.now.entries) }
{
    for i in 0..branch.len() {
        mark_entry(pool, branch, marks, i);
    }
}

// Marks the parts of all marked numbers. A part has a smaller number, so one descending pass is enough.
fn sweep_all(pool: &Pool, marks: &mut [bool])
    requires { length marks.old ≡ length pool.now }
    ensures { (d : BranchData) → IsSwept pool.now d marks.old (length pool.now) → IsSwept pool.now d marks.new 0 }
{
    let mut rest = marks.len();
    while rest > 0 {
        rest -= 1;
        sweep(pool, marks, rest);
    }
}

// Marks what occurs in the entries.
fn mark_inside(pool: &Pool, branch: &PoolBranch, marks: &mut [bool])
    requires over { IsOver pool.now branch.now }
    requires none { marks.old ≡ replicate (length pool.now) false }
    ensures { IsSwept pool.now branch.now marks.new 0 }
{
    mark_entries(pool, branch, marks);
    sweep_all(pool, marks);
}

// Computes the marks if there are none.
fn make(
    alloc: Global,
    pool: &Pool,
    branch: &PoolBranch,
    marks: &mut Vec<bool>,
) -> Result<(), NoMemory>
    requires over { IsOver pool.now branch.now }
    requires inside { AreInsideMarks pool.now branch.now marks.old.items }
    ensures inside { AreInsideMarks pool.now branch.now marks.new.items }
    ensures swept { OnOk result (IsSwept pool.now branch.now marks.new.items 0) }
{
    if !marks.is_empty() {
        return Ok(());
    }
    let mut inside = vec![in alloc; false; pool.len()]?;
    mark_inside(pool, branch, inside.as_mut_slice());
    *marks = inside;
    Ok(())
}

impl InsideMarks {
    /// The marks before they are computed, for any branch.
    pub fn new(alloc: Global) -> InsideMarks
        ensures { (ns : List Node) (d : BranchData) → AreInsideMarks ns d result }
    {
        InsideMarks {
            marks: Vec::new(alloc),
        }
    }

    /// Decides whether the term with this number occurs in an entry, also within a quantifier or one of its triggers.
    ///
    /// # Errors
    ///
    /// Only if memory runs out.
    pub fn stands(
        &mut self,
        alloc: Global,
        pool: &Pool,
        branch: &PoolBranch,
        term: usize,
    ) -> Result<bool, NoMemory>
        requires over { IsOver pool.now branch.now }
        requires inside { AreInsideMarks pool.now branch.now self.old }
        requires term { IsTermNumber pool.now term }
        ensures inside { AreInsideMarks pool.now branch.now self.new }
        ensures exact { IfOk result (λ stands. IsTrue stands ↔ StandsInside (branch_in pool.now branch.now) (term_at pool.now term)) }
    {
        if let Some(_) = branch.generation(pool, term) {
            return Ok(true);
        }
        make(alloc, pool, branch, &mut self.marks)?;
        pool.one_number();
        Ok(self.marks[term])
    }
}
