//! Clauses over sums.

ghost use Rattle.std.specs.Prelude.{◌≡◌, None, Some, MatchResult};
ghost use Rattle.sum_read.specs.FormFault.{IfNotBuilt};
ghost use Rattle.sum_read.specs.Clauses.{clause_at, clause_of, clauses_of};

use crate::condition::read_condition;
use crate::fault::FormFault;
use base::span::Span;
use std::alloc::Global;
use sum_tree::clause::{ClauseKind, SumClause};
use syntax_tree::clause::{AbortCode, Clause as ClauseTree};
use syntax_tree::spec_expression::SpecExpression;

/// Reads a clause of this kind at this offset.
fn read_at(
    alloc: Global,
    kind: ClauseKind,
    span: Span,
    condition: &SpecExpression,
) -> Result<SumClause, FormFault>
    ensures { MatchResult result (λ clause. clause_at kind span.start condition.now ≡ Some clause) (λ fault. IfNotBuilt fault (clause_at kind span.start condition.now ≡ None)) }
{
    let condition = read_condition(alloc, condition)?;
    Ok(SumClause {
        kind,
        condition,
        start: span.start,
    })
}

/// Reads a clause as a clause over sums.
fn read_clause(alloc: Global, clause: &ClauseTree) -> Result<SumClause, FormFault>
    ensures { MatchResult result (λ read. clause_of clause.now ≡ Some read) (λ fault. IfNotBuilt fault (clause_of clause.now ≡ None)) }
{
    match clause {
        ClauseTree::Requires { span, condition } => {
            read_at(alloc, ClauseKind::Requires, *span, condition)
        }
        ClauseTree::Ensures { span, condition } => {
            read_at(alloc, ClauseKind::Ensures, *span, condition)
        }
        ClauseTree::AbortsIf {
            span,
            condition,
            code,
        } => match code {
            AbortCode::Bare => read_at(alloc, ClauseKind::AbortsIf, *span, condition),
            AbortCode::Failure => Err(FormFault::NotBuilt),
            AbortCode::Code(_) => Err(FormFault::NotBuilt),
        },
        ClauseTree::Pragma { .. }
        | ClauseTree::Modifies { .. }
        | ClauseTree::Invariant { .. }
        | ClauseTree::Let { .. }
        | ClauseTree::Include(_)
        | ClauseTree::Variable(_) => Err(FormFault::NotBuilt),
    }
}

/// Reads clauses as clauses over sums.
///
/// # Errors
///
/// `NotBuilt` if and only if one of them is not one.
pub fn read_clauses(alloc: Global, clauses: &[ClauseTree]) -> Result<Vec<SumClause>, FormFault>
    ensures { MatchResult result (λ read. clauses_of clauses.now ≡ Some read.items) (λ fault. IfNotBuilt fault (clauses_of clauses.now ≡ None)) }
{
    let mut read = Vec::new(alloc);
    for clause in clauses {
        read.push(read_clause(alloc, clause)?)?;
    }
    Ok(read)
}
