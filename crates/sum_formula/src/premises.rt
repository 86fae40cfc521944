//! The premises of the verification conditions of a function.
//!
//! A function has at most 2^32 parameters, and the only error is that there is not enough memory. The Move Book,
//! "Integers", defines when a sum aborts; the Move Specification Language reference, "Requires" and "AbortsIf
//! Condition", defines `requires` and `aborts_if`.

ghost use Rattle.std.specs.Prelude.{◌≡◌, ◌^◌, ◌≤◌, ◌++◌, IfOk, OnOk, length, map};
ghost use Rattle.fol.specs.FormulaData.{ImpliesFormula};
ghost use Rattle.sum_formula.specs.Translation.{sum_term, zero_term};
ghost use Rattle.sum_formula.specs.Premises.{all_three, argument_formula, arguments_formula, at_return, entry_formulas, formula_if, range_formula, range_formulas, requires_formula, returned_term, returns_formula};

use crate::translation::{condition, greatest, join, sum, word, zero};
use base::memory::NoMemory;
use base::name::Name;
use base::types::{TypeNode, TypeTerm, Width};
use fol::copy::{copy_formula, copy_term};
use fol::formula::{Formula, FormulaNode, Term};
use fol::operators::Connective;
use std::alloc::Global;
use sum_tree::clause::{ClauseKind, SumClause};
use sum_tree::function::SumFunction;
use sum_tree::sum::{Operator, Sum, SumNode};

/// Returns the formulas that each parameter has a value of its type.
fn arguments(alloc: Global, parameters: &[Name]) -> Result<Vec<Formula>, NoMemory>
    requires { length parameters.now ≤ 2 ^ 32 }
    ensures { IfOk result (λ made. made.items ≡ map (argument_formula parameters.now) parameters.now) }
{
    let mut formulas = Vec::new(alloc);
    for name in parameters {
        let variable = Box::new(alloc, word(alloc, parameters, &zero(), name.as_slice())?)?;
        let of = TypeTerm {
            node: TypeNode::Int(Width::U64),
        };
        formulas.push(Formula::has_type(of, variable))?;
    }
    Ok(formulas)
}

/// Adds the condition of a clause at the entry, if the clause is of this kind.
fn push_if_kind(
    alloc: Global,
    kind: ClauseKind,
    parameters: &[Name],
    clause: &SumClause,
    formulas: &mut Vec<Formula>,
) -> Result<(), NoMemory>
    requires { length parameters.now ≤ 2 ^ 32 }
    ensures { OnOk result (formulas.new.items ≡ formulas.old.items ++ formula_if kind parameters.now zero_term clause.now) }
{
    if clause.kind == kind {
        formulas.push(condition(alloc, parameters, &zero(), &clause.condition)?)?;
    }
    Ok(())
}

/// Returns the conditions of the clauses of a kind at the entry.
pub fn entry_conditions(
    alloc: Global,
    kind: ClauseKind,
    function: &SumFunction,
    clauses: &[SumClause],
) -> Result<Vec<Formula>, NoMemory>
    requires { length function.now.parameters ≤ 2 ^ 32 }
    ensures { IfOk result (λ made. made.items ≡ entry_formulas kind function.now clauses.now) }
{
    let parameters = function.parameters.as_slice();
    let mut formulas = Vec::new(alloc);
    for clause in clauses {
        push_if_kind(alloc, kind, parameters, clause, &mut formulas)?;
    }
    Ok(formulas)
}

/// Returns the formula that the result of an operator at u64 values is a u64.
fn range(alloc: Global, operator: Operator, term: &Term) -> Result<Formula, NoMemory>
    ensures { IfOk result (λ made. made ≡ range_formula operator term.now) }
{
    let term = copy_term(alloc, term)?;
    match operator {
        Operator::Plus => Ok(Formula::at_most(term, Box::new(alloc, greatest())?)),
        Operator::Minus => Ok(Formula::at_most(Box::new(alloc, zero())?, term)),
    }
}

/// Adds the formulas that the value of each operator in a sum is a u64, and returns the term of the sum.
#[cycle(push_ranges)]
fn push_ranges(
    alloc: Global,
    parameters: &[Name],
    sum: &Sum,
    formulas: &mut Vec<Formula>,
) -> Result<Box<Term>, NoMemory>
    requires { length parameters.now ≤ 2 ^ 32 }
    ensures term { IfOk result (λ term. term.value ≡ sum_term parameters.now zero_term sum.now) }
    ensures formulas { OnOk result (formulas.new.items ≡ formulas.old.items ++ range_formulas parameters.now sum.now) }
{
    match &sum.node {
        SumNode::Number(number) => Ok(Box::new(alloc, Term::number(i128::from(*number)))?),
        SumNode::Word(name) => {
            let term = word(alloc, parameters, &zero(), name.as_slice())?;
            Ok(Box::new(alloc, term)?)
        }
        SumNode::Joined {
            left,
            operator,
            right,
        } => {
            let left = push_ranges(alloc, parameters, left, formulas)?;
            let right = push_ranges(alloc, parameters, right, formulas)?;
            let term = join(alloc, *operator, left, right)?;
            formulas.push(range(alloc, *operator, &term)?)?;
            Ok(term)
        }
    }
}

/// Returns the formula that the run of the body returns.
pub fn returns(alloc: Global, function: &SumFunction) -> Result<Formula, NoMemory>
    requires { length function.now.parameters ≤ 2 ^ 32 }
    ensures { IfOk result (λ made. made ≡ returns_formula function.now) }
{
    let mut formulas = Vec::new(alloc);
    push_ranges(
        alloc,
        function.parameters.as_slice(),
        &function.body,
        &mut formulas,
    )?;
    Ok(Formula::all_of(formulas))
}

/// Returns the conjunction of the premises at the entry, that the arguments have their types and meet each `requires`,
/// and this outcome of the run.
pub fn start(
    alloc: Global,
    function: &SumFunction,
    clauses: &[SumClause],
    outcome: Box<Formula>,
) -> Result<Formula, NoMemory>
    requires { length function.now.parameters ≤ 2 ^ 32 }
    ensures { IfOk result (λ made. made ≡ all_three (arguments_formula function.now) (requires_formula function.now clauses.now) outcome.value) }
{
    let arguments = arguments(alloc, function.parameters.as_slice())?;
    let met = entry_conditions(alloc, ClauseKind::Requires, function, clauses)?;
    let mut parts = Vec::with_capacity(alloc, 3)?;
    parts.push(Formula::all_of(arguments))?;
    parts.push(Formula::all_of(met))?;
    parts.push(Box::into_inner(outcome))?;
    Ok(Formula::all_of(parts))
}

/// Returns the formula that a premise implies a claim.
pub fn implication(alloc: Global, premise: &Formula, claim: Formula) -> Result<Formula, NoMemory>
    ensures { IfOk result (λ made. made ≡ ImpliesFormula premise.now claim) }
{
    let claim = Box::new(alloc, claim)?;
    let premise = copy_formula(alloc, premise)?;
    Ok(Formula {
        node: FormulaNode::Connect(Connective::Implies, premise, claim),
    })
}

/// Returns the premise of the conditions at a return.
pub fn premise_at_return(
    alloc: Global,
    function: &SumFunction,
    clauses: &[SumClause],
    returns: &Formula,
) -> Result<Box<Formula>, NoMemory>
    requires few { length function.now.parameters ≤ 2 ^ 32 }
    requires returns { returns.now ≡ returns_formula function.now }
    ensures { IfOk result (λ made. made.value ≡ at_return function.now clauses.now) }
{
    let outcome = copy_formula(alloc, returns)?;
    let premise = start(alloc, function, clauses, outcome)?;
    Ok(Box::new(alloc, premise)?)
}

/// Returns the term of the returned value.
pub fn returned_sum(alloc: Global, function: &SumFunction) -> Result<Box<Term>, NoMemory>
    requires { length function.now.parameters ≤ 2 ^ 32 }
    ensures { IfOk result (λ made. made.value ≡ returned_term function.now) }
{
    sum(
        alloc,
        function.parameters.as_slice(),
        &zero(),
        &function.body,
    )
}
