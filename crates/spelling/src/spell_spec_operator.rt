//! Writers of the operators of spec expressions.

ghost use Rattle.std.specs.Prelude.{◌≡◌, ◌++◌, OnOk};
ghost use Rattle.syntax_tree.specs.SpecOperatorSpelling.{spec_operator_spelling, quantifier_spelling};

use crate::spell_operator::spell_operator;
use base::memory::NoMemory;
use base::span::Span;
use std::alloc::Global;
use syntax_tree::lexeme::Lexemes;
use syntax_tree::spec_expression::operator::{Quantifier, SpecOperator};
use tokens::token::Punctuation;

/// Appends the tokens of a binary operator of spec expressions, whose left operand ends in a path or not.
pub fn spell_spec_operator(
    operator: SpecOperator,
    span: Span,
    after_path: bool,
    into: &mut Lexemes,
) -> Result<(), NoMemory>
    ensures { OnOk result (into.new ≡ into.old ++ spec_operator_spelling operator span after_path) }
{
    match operator {
        SpecOperator::Equivalent => into.push_sign_at(span, Punctuation::LessEqualEqualGreater),
        SpecOperator::Implies => into.push_sign_at(span, Punctuation::EqualEqualGreater),
        SpecOperator::Range => into.push_sign_at(span, Punctuation::PeriodPeriod),
        SpecOperator::Common(operator) => spell_operator(operator, span, after_path, into),
    }
}

/// Appends the word of a quantifier.
pub fn spell_quantifier(
    alloc: Global,
    quantifier: Quantifier,
    span: Span,
    into: &mut Lexemes,
) -> Result<(), NoMemory>
    ensures { OnOk result (into.new ≡ into.old ++ quantifier_spelling quantifier span) }
{
    match quantifier {
        Quantifier::ForAll => into.push_word(alloc, b"forall", Some(span)),
        Quantifier::Exists => into.push_word(alloc, b"exists", Some(span)),
    }
}
