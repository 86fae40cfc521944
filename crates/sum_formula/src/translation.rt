//! Sums and the conditions of clauses as terms and formulas.
//!
//! A parameter is the variable with its number, so a function has at most 2^32 parameters. The only error is that there
//! is not enough memory. The Move Specification Language reference, "Expressions", defines the names in clauses.

ghost use Rattle.std.specs.Prelude.{◌≡◌, ◌^◌, ◌≤◌, IfOk, length};
ghost use Rattle.std.specs.List.{position};
ghost use Rattle.fol.specs.FormulaData.{LeFormula, NotFormula};
ghost use Rattle.base.specs.Names.{same_name};
ghost use Rattle.sum_formula.specs.Translation.{comparison_formula, condition_formula, free_term, greatest_term, operator_term, sum_term, word_term, zero_term};

use base::memory::NoMemory;
use base::name::Name;
use fol::formula::{Formula, Term};
use std::alloc::Global;
use sum_tree::clause::{Comparison, Condition};
use sum_tree::sum::{Operator, Sum, SumNode};

/// The greatest value of a parameter.
const MAX_U64: i128 = 0xffff_ffff_ffff_ffff;

/// Returns the term of 0.
pub fn zero() -> Term
    ensures { result ≡ zero_term }
{
    Term::number(0)
}

/// Returns the term of the greatest u64.
pub fn greatest() -> Term
    ensures { result ≡ greatest_term }
{
    Term::number(MAX_U64)
}

/// Returns the term of a name that is not that of a parameter.
fn free(alloc: Global, returned: &Term, word: &[u8]) -> Result<Term, NoMemory>
    ensures { IfOk result (λ made. made ≡ free_term returned.now word.now) }
{
    if word == b"MAX_U64".as_slice() {
        Ok(greatest())
    } else if word == b"result".as_slice() {
        returned.try_clone(alloc)
    } else {
        Ok(zero())
    }
}

/// Returns the number of the first parameter with this name.
pub fn position_of(parameters: &[Name], word: &[u8]) -> Option<usize>
    ensures { result ≡ position (same_name word.now) parameters.now }
{
    parameters.iter().position(|name| word == name.as_slice())
}

/// Returns the term of a name: the variable of a parameter, or the term of another name.
pub fn word(
    alloc: Global,
    parameters: &[Name],
    returned: &Term,
    word: &[u8],
) -> Result<Term, NoMemory>
    requires { length parameters.now ≤ 2 ^ 32 }
    ensures { IfOk result (λ made. made ≡ word_term parameters.now returned.now word.now) }
{
    match position_of(parameters, word) {
        Some(number) => Ok(Term::variable(number as u32)),
        None => free(alloc, returned, word),
    }
}

/// Returns the term of an operator at two terms.
fn operation(operator: Operator, left: Box<Term>, right: Box<Term>) -> Term
    ensures { result ≡ operator_term operator left.value right.value }
{
    match operator {
        Operator::Plus => Term::sum(left, right),
        Operator::Minus => Term::difference(left, right),
    }
}

/// Returns the term of a sum.
#[cycle(sum_term)]
pub fn sum(
    alloc: Global,
    parameters: &[Name],
    returned: &Term,
    sum_of: &Sum,
) -> Result<Box<Term>, NoMemory>
    requires { length parameters.now ≤ 2 ^ 32 }
    ensures { IfOk result (λ made. made.value ≡ sum_term parameters.now returned.now sum_of.now) }
{
    match &sum_of.node {
        SumNode::Number(number) => Ok(Box::new(alloc, Term::number(i128::from(*number)))?),
        SumNode::Word(name) => {
            let term = word(alloc, parameters, returned, name.as_slice())?;
            Ok(Box::new(alloc, term)?)
        }
        SumNode::Joined {
            left,
            operator,
            right,
        } => {
            let left = sum(alloc, parameters, returned, left)?;
            let right = sum(alloc, parameters, returned, right)?;
            join(alloc, *operator, left, right)
        }
    }
}

/// Returns the term of an operator at two terms, in a box.
pub fn join(
    alloc: Global,
    operator: Operator,
    left: Box<Term>,
    right: Box<Term>,
) -> Result<Box<Term>, NoMemory>
    ensures { IfOk result (λ made. made.value ≡ operator_term operator left.value right.value) }
{
    Ok(Box::new(alloc, operation(operator, left, right))?)
}

/// Returns the formula that the first term is not at most the second.
fn not_at_most(alloc: Global, left: Box<Term>, right: Box<Term>) -> Result<Formula, NoMemory>
    ensures { IfOk result (λ made. made ≡ NotFormula (LeFormula left.value right.value)) }
{
    let at_most = Box::new(alloc, Formula::at_most(left, right))?;
    Ok(Formula::not(at_most))
}

/// Returns the formula of a comparison of two terms.
fn comparison(
    alloc: Global,
    comparison: Comparison,
    left: Box<Term>,
    right: Box<Term>,
) -> Result<Formula, NoMemory>
    ensures { IfOk result (λ made. made ≡ comparison_formula comparison left.value right.value) }
{
    match comparison {
        Comparison::Equal => Ok(Formula::equal(left, right)),
        Comparison::Less => not_at_most(alloc, right, left),
        Comparison::Greater => not_at_most(alloc, left, right),
        Comparison::LessEqual => Ok(Formula::at_most(left, right)),
        Comparison::GreaterEqual => Ok(Formula::at_most(right, left)),
    }
}

/// Returns the formula of a clause's condition, in which `result` is the returned term.
pub fn condition(
    alloc: Global,
    parameters: &[Name],
    returned: &Term,
    condition: &Condition,
) -> Result<Formula, NoMemory>
    requires { length parameters.now ≤ 2 ^ 32 }
    ensures { IfOk result (λ made. made ≡ condition_formula parameters.now returned.now condition.now) }
{
    match condition {
        Condition::True => Ok(Formula::all_of(Vec::new(alloc))),
        Condition::False => Ok(Formula::any_of(Vec::new(alloc))),
        Condition::Compares(left, by, right) => {
            let left = sum(alloc, parameters, returned, left)?;
            let right = sum(alloc, parameters, returned, right)?;
            comparison(alloc, *by, left, right)
        }
    }
}
