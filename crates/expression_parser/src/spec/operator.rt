//! Readers of the operators of spec expressions.

ghost use Rattle.std.specs.Prelude.{◌≡◌};
ghost use Rattle.std.specs.Option.{option_map};
ghost use Rattle.parser_base.specs.ChainReading.{next_operator};
ghost use Rattle.expression_parser.specs.OperatorReading.{kind_operator, lengthened, opens_arguments, sign_operator, spec_joints, spec_operator_at};

use base::span::Span;
use parser_base::leaf::skip_glued;
use parser_base::operator::binary_of_sign;
use syntax_tree::operator::BinaryOperator;
use syntax_tree::spec_expression::SpecExpression;
use syntax_tree::spec_expression::ending::is_path_last;
use syntax_tree::spec_expression::level::spec_operator_level;
use syntax_tree::spec_expression::operator::SpecOperator;
use tokens::token::{Punctuation, Token, TokenKind};

/// Returns the operator that begins with a sign. For `>`, this is the comparison.
fn sign_operator(sign: Punctuation) -> Option<SpecOperator>
    ensures { result ≡ sign_operator sign }
{
    match sign {
        Punctuation::LessEqualEqualGreater => Some(SpecOperator::Equivalent),
        Punctuation::EqualEqualGreater => Some(SpecOperator::Implies),
        Punctuation::PeriodPeriod => Some(SpecOperator::Range),
        _ => match binary_of_sign(sign) {
            Some(operator) => Some(SpecOperator::Common(operator)),
            None => None,
        },
    }
}

/// Returns the operator that begins with a token.
fn kind_operator(kind: &TokenKind) -> Option<SpecOperator>
    ensures { result ≡ kind_operator kind.now }
{
    match kind {
        TokenKind::Punctuation(sign) => sign_operator(*sign),
        _ => None,
    }
}

/// Decides whether an operator that is glued to a path would open type arguments.
fn opens_arguments(operator: SpecOperator) -> bool
    ensures { result ≡ opens_arguments operator }
{
    match operator {
        SpecOperator::Common(BinaryOperator::Less | BinaryOperator::ShiftLeft) => true,
        _ => false,
    }
}

/// Completes an operator after its first sign: a `>` glued to a `>` is a shift.
fn lengthened(
    operator: SpecOperator,
    span: Span,
    tokens: &[Token],
) -> (SpecOperator, Span, &[Token])
    ensures { ((result.0, result.1), result.2.now) ≡ lengthened operator span tokens.now }
{
    match operator {
        SpecOperator::Common(BinaryOperator::Greater) => {
            match skip_glued(tokens, Punctuation::Greater) {
                Some(rest) => (SpecOperator::Common(BinaryOperator::ShiftRight), span, rest),
                None => (operator, span, tokens),
            }
        }
        _ => (operator, span, tokens),
    }
}

/// Reads an operator after an expression that ends in a path or not, if one is here. Returns the operator, its span and
/// the remaining tokens.
#[tactic(auto, unfolding(crate::specs::OperatorReading::spec_operator_at))]
fn read_operator(tokens: &[Token], after_path: bool) -> Option<(SpecOperator, Span, &[Token])>
    ensures { option_map (λ read. ((read.0, read.1), read.2.now)) result ≡ spec_operator_at after_path tokens.now }
{
    let (token, rest) = tokens.split_first()?;
    let operator = kind_operator(&token.kind)?;
    if after_path && (token.glued && opens_arguments(operator)) {
        return None;
    }
    Some(lengthened(operator, token.span, rest))
}

/// Reads the operator after an expression, if its level is at least `minimum`. Returns the operator, its span and the
/// remaining tokens.
#[tactic(auto, unfolding(parser_base::specs::ChainReading::next_operator))]
pub fn next_operator<'a>(
    left: &SpecExpression,
    minimum: usize,
    tokens: &'a [Token],
) -> Option<(SpecOperator, Span, &'a [Token])>
    ensures { option_map (λ read. ((read.0, read.1), read.2.now)) result ≡ next_operator spec_joints minimum left.now tokens.now }
{
    let (operator, span, rest) = read_operator(tokens, is_path_last(left))?;
    if minimum <= spec_operator_level(operator) {
        Some((operator, span, rest))
    } else {
        None
    }
}
