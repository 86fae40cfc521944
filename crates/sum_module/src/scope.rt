//! Which words of a function and of its clauses are in scope.

ghost use Rattle.std.specs.Prelude.{◌≡◌};
ghost use Rattle.std.specs.List.{list_all};
ghost use Rattle.sum_module.specs.Scope.{all_differ, are_parameters, is_closed, is_known, knows_clause, knows_condition, knows_sum};
ghost use Rattle.base.specs.Names.{is_one_of};

use base::name::Name;
use sum_tree::clause::{ClauseKind, Condition, SumClause};
use sum_tree::function::SumFunction;
use sum_tree::sum::{Sum, SumNode};

/// Where a word occurs.
#[derive(Clone, Copy, Debug, PartialEq, Eq)]
pub enum Context {
    /// In the body of a function.
    Body,
    /// In a clause of this kind.
    InClause(ClauseKind),
}

/// The maximal number of parameters of a function.
const PARAMETER_LIMIT: usize = 8;

/// Decides whether a word is one of these names.
fn is_one_of(names: &[Name], word: &[u8]) -> bool
    ensures { result ≡ is_one_of names.now word.now }
{
    names.iter().any(|name| word == name.as_slice())
}

/// Decides whether no name occurs twice. The time is quadratic in their number.
fn all_differ(names: &[Name]) -> bool
    ensures { result ≡ all_differ names.now }
{
    let mut others = names;
    while let Some((name, rest)) = others.split_first() {
        if is_one_of(rest, name.as_slice()) {
            return false;
        }
        others = rest;
    }
    true
}

/// Decides whether a word is in scope where it occurs.
fn is_known(parameters: &[Name], context: Context, word: &[u8]) -> bool
    ensures { result ≡ is_known parameters.now context word.now }
{
    let is_parameter = is_one_of(parameters, word);
    match context {
        Context::Body => is_parameter,
        Context::InClause(kind) => {
            is_parameter
                || word == b"MAX_U64".as_slice()
                || (kind == ClauseKind::Ensures && word == b"result".as_slice())
        }
    }
}

/// Decides whether each word of a sum is in scope.
#[cycle(knows_sum)]
fn knows_sum(parameters: &[Name], context: Context, sum: &Sum) -> bool
    ensures { result ≡ knows_sum parameters.now context sum.now }
{
    match &sum.node {
        SumNode::Number(_) => true,
        SumNode::Word(word) => is_known(parameters, context, word.as_slice()),
        SumNode::Joined { left, right, .. } => {
            knows_sum(parameters, context, left) && knows_sum(parameters, context, right)
        }
    }
}

/// Decides whether each word of a condition is in scope.
fn knows_condition(parameters: &[Name], context: Context, condition: &Condition) -> bool
    ensures { result ≡ knows_condition parameters.now context condition.now }
{
    match condition {
        Condition::True | Condition::False => true,
        Condition::Compares(left, _, right) => {
            knows_sum(parameters, context, left) && knows_sum(parameters, context, right)
        }
    }
}

/// Decides whether a spec of a function with these parameters may have this clause: each of its words is a parameter or
/// `MAX_U64`, or in an `ensures` `result`.
pub fn knows_clause(parameters: &[Name], clause: &SumClause) -> bool
    ensures { result ≡ knows_clause parameters.now clause.now }
{
    let context = Context::InClause(clause.kind);
    knows_condition(parameters, context, &clause.condition)
}

/// Decides whether a spec of a function with these parameters may have each of these clauses.
pub fn knows_clauses(parameters: &[Name], clauses: &[SumClause]) -> bool
    ensures { result ≡ list_all (knows_clause parameters.now) clauses.now }
{
    clauses
        .iter()
        .all(|clause| knows_clause(parameters, clause))
}

/// Decides whether there are at most 8 parameters, each with a name of its own.
fn are_parameters(parameters: &[Name]) -> bool
    ensures { result ≡ are_parameters parameters.now }
{
    parameters.len() <= PARAMETER_LIMIT && all_differ(parameters)
}

/// Decides whether a function has at most 8 parameters, each with a name of its own, and no other words in its body.
pub fn is_closed(function: &SumFunction) -> bool
    ensures { result ≡ is_closed function.now }
{
    let parameters = function.parameters.as_slice();
    are_parameters(parameters) && knows_sum(parameters, Context::Body, &function.body)
}
