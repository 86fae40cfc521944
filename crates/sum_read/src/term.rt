//! Numbers, words and operators of sums.

ghost use Rattle.std.specs.Prelude.{◌≡◌, None, Some, IfOk, MatchResult};
ghost use Rattle.sum_read.specs.FormFault.{IfNotBuilt};
ghost use Rattle.sum_read.specs.Sums.{literal_sum, number_sum, operator_of, spec_operator_of, word_sum};
ghost use Rattle.sum_tree.specs.SumData.{JoinedSum};

use crate::fault::FormFault;
use base::memory::NoMemory;
use std::alloc::Global;
use sum_tree::sum::{Operator, Sum, SumNode};
use syntax_tree::lexeme::Numeral;
use syntax_tree::literal::Literal;
use syntax_tree::operator::BinaryOperator;
use syntax_tree::path::Path;
use syntax_tree::spec_expression::operator::SpecOperator;
use tokens::token::NumberSuffix;

/// Reads a number as a sum: it must have no suffix, and be a u64.
fn read_number(alloc: Global, number: &Numeral) -> Result<Box<Sum>, FormFault>
    ensures { MatchResult result (λ sum. number_sum number.now ≡ Some sum.value) (λ fault. IfNotBuilt fault (number_sum number.now ≡ None)) }
{
    if number.literal.suffix != NumberSuffix::Absent {
        return Err(FormFault::NotBuilt);
    }
    match u64::try_from(number.literal.value) {
        Ok(value) => Ok(Box::new(
            alloc,
            Sum {
                node: SumNode::Number(value),
            },
        )?),
        Err(_) => Err(FormFault::NotBuilt),
    }
}

/// Reads a literal as a sum.
pub fn read_literal(alloc: Global, literal: &Literal) -> Result<Box<Sum>, FormFault>
    ensures { MatchResult result (λ sum. literal_sum literal.now ≡ Some sum.value) (λ fault. IfNotBuilt fault (literal_sum literal.now ≡ None)) }
{
    match literal {
        Literal::Number(number) => read_number(alloc, number),
        Literal::Truth { .. } => Err(FormFault::NotBuilt),
        Literal::Address { .. } => Err(FormFault::NotBuilt),
    }
}

/// Reads a name as a sum.
pub fn read_word(alloc: Global, path: &Path) -> Result<Box<Sum>, FormFault>
    ensures { MatchResult result (λ sum. word_sum path.now ≡ Some sum.value) (λ fault. IfNotBuilt fault (word_sum path.now ≡ None)) }
{
    match path {
        Path::Name(name) => {
            let word = SumNode::Word(name.text.try_clone(alloc)?);
            Ok(Box::new(alloc, Sum { node: word })?)
        }
        Path::Member(_, _) => Err(FormFault::NotBuilt),
        Path::Full(_, _) => Err(FormFault::NotBuilt),
    }
}

/// The operator of sums for an operator of code, if there is one.
pub fn operator_of(operator: BinaryOperator) -> Option<Operator>
    ensures { result ≡ operator_of operator }
{
    match operator {
        BinaryOperator::Add => Some(Operator::Plus),
        BinaryOperator::Subtract => Some(Operator::Minus),
        _ => None,
    }
}

/// The operator of sums for an operator of specs, if there is one.
pub fn spec_operator_of(operator: SpecOperator) -> Option<Operator>
    ensures { result ≡ spec_operator_of operator }
{
    match operator {
        SpecOperator::Equivalent => None,
        SpecOperator::Implies => None,
        SpecOperator::Range => None,
        SpecOperator::Common(operator) => operator_of(operator),
    }
}

/// The sum of two sums with this operator.
pub fn join(
    alloc: Global,
    left: Box<Sum>,
    operator: Operator,
    right: Box<Sum>,
) -> Result<Box<Sum>, NoMemory>
    ensures { IfOk result (λ sum. sum.value ≡ JoinedSum left.value operator right.value) }
{
    let node = SumNode::Joined {
        left,
        operator,
        right,
    };
    Ok(Box::new(alloc, Sum { node })?)
}
