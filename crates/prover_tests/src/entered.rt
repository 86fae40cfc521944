//! Small branches: their formulas, and what is asked of them.

ghost use Rattle.std.specs.Prelude.{List};
ghost use Rattle.term_pool.specs.declared.node.Node.{Node};
ghost use Rattle.tableau.specs.PoolBranches.{IsOver};
ghost use Rattle.tableau.specs.Variables.{VariablesData, AreAbove};

use certificates::branches::origin::Origin;
use fol::formula::{Formula, FormulaNode, Term};
use fol::operators::Connective;
use std::alloc::Global;
use std::panic::Expect;
use std::process::Abort;
use tableau::branch::PoolBranch;
use tableau::entry::PoolEntry;
use tableau::names::variables::Variables;
use tableau::names::{NameStep, next_name};
use tableau::rules::formulas::EntryStep;
use tableau::rules::parts::next_parts;
use tableau::rules::split::next_split;
use term_pool::interning::{intern_formula, intern_term};
use term_pool::pool::Pool;
use term_pool::pool_substitution::put::{Put, put_in};
use term_pool::reading::read_formula;

// That the variable is true.
pub(crate) fn holds(rt: &impl Abort, alloc: Global, variable: u32) -> Formula {
    Formula::holds(Box::new(alloc, Term::variable(variable)).expect(rt, "memory"))
}

// A list of two formulas.
pub(crate) fn pair(
    rt: &impl Abort,
    alloc: Global,
    first: Formula,
    second: Formula,
) -> Vec<Formula> {
    let mut formulas = Vec::new(alloc);
    formulas.push(first).expect(rt, "memory");
    formulas.push(second).expect(rt, "memory");
    formulas
}

// That one of two variables is true.
pub(crate) fn either(rt: &impl Abort, alloc: Global, first: u32, second: u32) -> Formula {
    let one = holds(rt, alloc, first);
    let other = holds(rt, alloc, second);
    Formula::any_of(pair(rt, alloc, one, other))
}

// That both of two variables are true.
pub(crate) fn both(rt: &impl Abort, alloc: Global, first: u32, second: u32) -> Formula {
    let one = holds(rt, alloc, first);
    let other = holds(rt, alloc, second);
    Formula::all_of(pair(rt, alloc, one, other))
}

// That two variables are true, connected.
pub(crate) fn connected(
    rt: &impl Abort,
    alloc: Global,
    operator: Connective,
    first: u32,
    second: u32,
) -> Formula {
    let left = Box::new(alloc, holds(rt, alloc, first)).expect(rt, "memory");
    let right = Box::new(alloc, holds(rt, alloc, second)).expect(rt, "memory");
    Formula {
        node: FormulaNode::Connect(operator, left, right),
    }
}

pub(crate) fn denied(rt: &impl Abort, alloc: Global, formula: Formula) -> Formula {
    Formula::not(Box::new(alloc, formula).expect(rt, "memory"))
}

pub(crate) fn for_all(rt: &impl Abort, alloc: Global, bound: u32, body: Formula) -> Formula {
    Formula::for_all(
        bound,
        Vec::new(alloc),
        Box::new(alloc, body).expect(rt, "memory"),
    )
}

pub(crate) fn exists(rt: &impl Abort, alloc: Global, bound: u32, body: Formula) -> Formula {
    Formula::exists(
        bound,
        Vec::new(alloc),
        Box::new(alloc, body).expect(rt, "memory"),
    )
}

// Puts an entry behind the others.
fn enter(
    rt: &impl Abort,
    alloc: Global,
    pool: &mut Pool,
    branch: &mut PoolBranch,
    formula: &Formula,
    generation: usize,
    origin: Origin,
)
    requires { IsOver pool.old branch.old }
    ensures over { IsOver pool.new branch.new }
    ensures above { (v : VariablesData) → AreAbove pool.old branch.old.entries v → AreAbove pool.new branch.new.entries v }
{
    let number = intern_formula(pool, formula).expect(rt, "memory");
    let entry = PoolEntry {
        formula: number,
        generation,
        origin,
    };
    branch.push(alloc, pool, entry).expect(rt, "memory");
}

// The parts that are due.
fn due_parts(
    rt: &impl Abort,
    alloc: Global,
    pool: &mut Pool,
    branch: &PoolBranch,
) -> Option<EntryStep>
    requires { IsOver pool.old branch.now }
    ensures { IsOver pool.new branch.now }
{
    next_parts(alloc, pool, branch, 0).expect(rt, "memory")
}

// The cases into which the branch is to be split.
fn due_split(
    rt: &impl Abort,
    alloc: Global,
    pool: &mut Pool,
    branch: &PoolBranch,
) -> Option<EntryStep>
    requires { IsOver pool.old branch.now }
    ensures { IsOver pool.new branch.now }
{
    next_split(alloc, pool, branch, 0).expect(rt, "memory")
}

// The name that is due.
fn due_name(
    rt: &impl Abort,
    alloc: Global,
    pool: &mut Pool,
    branch: &PoolBranch,
    variables: &mut Variables,
) -> Option<NameStep>
    requires over { IsOver pool.old branch.now }
    requires above { AreAbove pool.old branch.now.entries variables.old }
    ensures over { IsOver pool.new branch.now }
    ensures above { AreAbove pool.new branch.now.entries variables.new }
{
    next_name(alloc, pool, branch, variables, 0).expect(rt, "memory")
}

// Where a formula stands.
fn first(rt: &impl Abort, pool: &mut Pool, branch: &PoolBranch, formula: &Formula) -> Option<usize>
    requires { IsOver pool.old branch.now }
    ensures { IsOver pool.new branch.now }
{
    let number = intern_formula(pool, formula).expect(rt, "memory");
    branch.first(pool, number)
}

// The generation of a variable.
fn generation(rt: &impl Abort, pool: &mut Pool, branch: &PoolBranch, variable: u32) -> Option<usize>
    requires { IsOver pool.old branch.now }
    ensures { IsOver pool.new branch.now }
{
    let number = intern_term(pool, &Term::variable(variable)).expect(rt, "memory");
    branch.generation(pool, number)
}

// Takes entries off the branch, all but the first ones.
fn leave(branch: &mut PoolBranch, variables: &mut Variables, count: usize)
    ensures over { (ns : List Node) → IsOver ns branch.old → IsOver ns branch.new }
    ensures above { (ns : List Node) → AreAbove ns branch.old.entries variables.old → AreAbove ns branch.new.entries variables.new }
{
    branch.truncate(count);
    variables.truncate(count);
}

// The formula with the term for the variable.
pub(crate) fn put(
    rt: &impl Abort,
    alloc: Global,
    pool: &mut Pool,
    formula: &Formula,
    variable: u32,
    term: &Term,
) -> Formula {
    let top = intern_formula(pool, formula).expect(rt, "memory");
    let term = intern_term(pool, term).expect(rt, "memory");
    assert!(rt; top < pool.len());
    let made = put_in(alloc, pool, Put { variable, term }, top).expect(rt, "memory");
    read_formula(alloc, pool, made).expect(rt, "memory")
}

// The branch with these entries.
fn branch_of(rt: &impl Abort, alloc: Global, pool: &mut Pool, entries: &[Formula]) -> PoolBranch
    ensures { IsOver pool.new result }
{
    let mut branch = PoolBranch::new(alloc);
    for entry in entries {
        enter(rt, alloc, pool, &mut branch, entry, 0, Origin::Other);
    }
    branch
}

// The formulas with these numbers.
fn formulas_of(rt: &impl Abort, alloc: Global, pool: &Pool, numbers: &[usize]) -> Vec<Formula> {
    let mut formulas = Vec::new(alloc);
    for number in numbers {
        let formula = read_formula(alloc, pool, *number).expect(rt, "memory");
        formulas.push(formula).expect(rt, "memory");
    }
    formulas
}

// The parts that are due where these entries stand.
pub(crate) fn parts_of(
    rt: &impl Abort,
    alloc: Global,
    entries: &[Formula],
) -> Option<Vec<Formula>> {
    let mut pool = Pool::new(alloc);
    let branch = branch_of(rt, alloc, &mut pool, entries);
    match due_parts(rt, alloc, &mut pool, &branch) {
        Some(step) => Some(formulas_of(rt, alloc, &pool, step.formulas.as_slice())),
        None => None,
    }
}

// The cases that are due where these entries stand.
pub(crate) fn cases_of(
    rt: &impl Abort,
    alloc: Global,
    entries: &[Formula],
) -> Option<Vec<Formula>> {
    let mut pool = Pool::new(alloc);
    let branch = branch_of(rt, alloc, &mut pool, entries);
    match due_split(rt, alloc, &mut pool, &branch) {
        Some(step) => Some(formulas_of(rt, alloc, &pool, step.formulas.as_slice())),
        None => None,
    }
}

// The entry that gets a name where these entries stand, the name, and what is said of it.
pub(crate) fn name_of(
    rt: &impl Abort,
    alloc: Global,
    entries: &[Formula],
) -> Option<(usize, u32, Formula)> {
    let mut pool = Pool::new(alloc);
    let mut variables = Variables::new(alloc);
    let branch = branch_of(rt, alloc, &mut pool, entries);
    match due_name(rt, alloc, &mut pool, &branch, &mut variables) {
        Some(step) => {
            let formula = read_formula(alloc, &pool, step.formula).expect(rt, "memory");
            Some((step.entry, step.variable, formula))
        }
        None => None,
    }
}

// What names are due where the first entry got its name by the second one and a third one follows: with all entries, and
// with so many of them.
pub(crate) fn names_of(
    rt: &impl Abort,
    alloc: Global,
    first: &Formula,
    said: &Formula,
    other: &Formula,
    kept: usize,
) -> (Option<(usize, u32)>, Option<(usize, u32)>) {
    let mut pool = Pool::new(alloc);
    let mut branch = PoolBranch::new(alloc);
    let mut variables = Variables::new(alloc);
    enter(rt, alloc, &mut pool, &mut branch, first, 0, Origin::Other);
    enter(rt, alloc, &mut pool, &mut branch, said, 0, Origin::Name(0));
    enter(rt, alloc, &mut pool, &mut branch, other, 0, Origin::Other);
    let whole = due_name(rt, alloc, &mut pool, &branch, &mut variables);
    leave(&mut branch, &mut variables, kept);
    let part = due_name(rt, alloc, &mut pool, &branch, &mut variables);
    (name_in(whole), name_in(part))
}

fn name_in(step: Option<NameStep>) -> Option<(usize, u32)> {
    match step {
        Some(step) => Some((step.entry, step.variable)),
        None => None,
    }
}

// Where variable 0 and 1 hold, 0 in entries of generations 2 and 1 around one of 1 in generation 3: of the first entries,
// as many as are kept, the first one that says that the variable holds, and the generation of the variable.
pub(crate) fn found_of(
    rt: &impl Abort,
    alloc: Global,
    kept: usize,
    variable: u32,
) -> (Option<usize>, Option<usize>) {
    let mut pool = Pool::new(alloc);
    let mut branch = PoolBranch::new(alloc);
    let zero = holds(rt, alloc, 0);
    let one = holds(rt, alloc, 1);
    enter(rt, alloc, &mut pool, &mut branch, &zero, 2, Origin::Other);
    enter(rt, alloc, &mut pool, &mut branch, &one, 3, Origin::Other);
    enter(rt, alloc, &mut pool, &mut branch, &zero, 1, Origin::Other);
    branch.truncate(kept);
    let triggered = holds(rt, alloc, variable);
    let position = first(rt, &mut pool, &branch, &triggered);
    (position, generation(rt, &mut pool, &branch, variable))
}
