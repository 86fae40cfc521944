//! Writers of operators.

ghost use Rattle.std.specs.Prelude.{◌≡◌, [], ◌∷◌, ◌++◌, OnOk};
ghost use Rattle.syntax_tree.specs.OperatorSpelling.{sign_of, operator_spelling, unary_spelling, use_spelling};

use base::memory::NoMemory;
use base::span::Span;
use std::alloc::Global;
use syntax_tree::lexeme::{Lexeme, Lexemes};
use syntax_tree::operator::{BinaryOperator, UnaryOperator, UseKind};
use tokens::token::{Punctuation, TokenKind};

fn operator_sign(operator: BinaryOperator) -> Punctuation
    ensures { result ≡ sign_of operator }
{
    match operator {
        BinaryOperator::Or => Punctuation::PipePipe,
        BinaryOperator::And => Punctuation::AmpersandAmpersand,
        BinaryOperator::Equal => Punctuation::EqualEqual,
        BinaryOperator::NotEqual => Punctuation::ExclaimEqual,
        BinaryOperator::Less => Punctuation::Less,
        BinaryOperator::LessEqual => Punctuation::LessEqual,
        BinaryOperator::Greater | BinaryOperator::ShiftRight => Punctuation::Greater,
        BinaryOperator::GreaterEqual => Punctuation::GreaterEqual,
        BinaryOperator::BitOr => Punctuation::Pipe,
        BinaryOperator::BitXor => Punctuation::Caret,
        BinaryOperator::BitAnd => Punctuation::Ampersand,
        BinaryOperator::ShiftLeft => Punctuation::LessLess,
        BinaryOperator::Add => Punctuation::Plus,
        BinaryOperator::Subtract => Punctuation::Minus,
        BinaryOperator::Multiply => Punctuation::Star,
        BinaryOperator::Divide => Punctuation::Slash,
        BinaryOperator::Remainder => Punctuation::Percent,
    }
}

/// Appends the tokens of a binary operator. `after_path` says whether its left operand ends in a path, after which a
/// glued `<` would open type arguments.
pub fn spell_operator(
    operator: BinaryOperator,
    span: Span,
    after_path: bool,
    into: &mut Lexemes,
) -> Result<(), NoMemory>
    ensures { OnOk result (into.new ≡ into.old ++ operator_spelling operator span after_path) }
{
    match operator {
        BinaryOperator::ShiftRight => {
            into.push_sign_at(span, Punctuation::Greater)?;
            into.push_sign_glued(Some(true), Punctuation::Greater)
        }
        BinaryOperator::Less | BinaryOperator::ShiftLeft => {
            let glued = if after_path { Some(false) } else { None };
            into.push(Lexeme {
                kind: TokenKind::Punctuation(operator_sign(operator)),
                span: Some(span),
                glued,
            })
        }
        _ => into.push_sign_at(span, operator_sign(operator)),
    }
}

/// Appends the tokens of a unary operator.
pub fn spell_unary(
    alloc: Global,
    operator: UnaryOperator,
    span: Span,
    into: &mut Lexemes,
) -> Result<(), NoMemory>
    ensures { OnOk result (into.new ≡ into.old ++ unary_spelling operator span) }
{
    match operator {
        UnaryOperator::Not => into.push_sign_at(span, Punctuation::Exclaim),
        UnaryOperator::Dereference => into.push_sign_at(span, Punctuation::Star),
        UnaryOperator::Borrow => into.push_sign_at(span, Punctuation::Ampersand),
        UnaryOperator::BorrowMutable => {
            into.push_sign_at(span, Punctuation::Ampersand)?;
            into.push_word(alloc, b"mut", None)
        }
    }
}

/// Appends the word before a local that is moved or copied.
pub fn spell_use(
    alloc: Global,
    kind: UseKind,
    span: Span,
    into: &mut Lexemes,
) -> Result<(), NoMemory>
    ensures { OnOk result (into.new ≡ into.old ++ use_spelling kind span) }
{
    match kind {
        UseKind::Move => into.push_word(alloc, b"move", Some(span)),
        UseKind::Copy => into.push_word(alloc, b"copy", Some(span)),
    }
}
