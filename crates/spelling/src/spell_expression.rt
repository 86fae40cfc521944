//! Writers of expressions, blocks and items.

ghost use Rattle.std.specs.Prelude.{◌≡◌, [], ◌∷◌, ◌++◌, None, Some, true, codes, OnOk};
ghost use Rattle.std.specs.List.{flat_map};
ghost use Rattle.tokens.specs.declared.token.Punctuation.TheVariants.{LeftParenthesis, RightParenthesis, LeftBracket, RightBrace, Exclaim, Period};
ghost use Rattle.syntax_tree.specs.Lexemes.{word, identifier, sign, comma_list};
ghost use Rattle.syntax_tree.specs.PathSpelling.{path_spelling};
ghost use Rattle.syntax_tree.specs.TypeTreeData.{maybe_arguments_of};
ghost use Rattle.syntax_tree.specs.TypeSpelling.{type_spelling, maybe_arguments_spelling};
ghost use Rattle.syntax_tree.specs.ExpressionView.{unboxed};
ghost use Rattle.syntax_tree.specs.ExpressionData.{IfExpression, maybe_expression_of, expressions_of, items_of, field_values_of};
ghost use Rattle.syntax_tree.specs.ExpressionSpelling.{annotation_spelling, maybe_loop_spec_spelling, expression_spelling, maybe_expression_spelling, else_spelling, block_spelling, items_spelling, item_spelling, initial_spelling, field_value_spelling, expression_spellings, field_value_spellings, expression_after_comma, field_value_after_comma};

use crate::spell_literal::spell_literal;
use crate::spell_operator::{spell_operator, spell_unary, spell_use};
use crate::spell_path::{spell_identifier, spell_path};
use crate::spell_pattern::spell_pattern;
use crate::spell_tokens::spell_kept_spec;
use crate::spell_type::{spell_maybe_arguments, spell_type};
use base::memory::NoMemory;
use base::span::Span;
use std::alloc::Global;
use syntax_tree::expression::ending::is_path_last;
use syntax_tree::expression::{Block, Expression, ExpressionNode, FieldValue, Item, ItemNode};
use syntax_tree::lexeme::{Identifier, Lexemes};
use syntax_tree::path::Path;
use syntax_tree::spec_tokens::KeptSpec;
use syntax_tree::types::{SourceType, TypeArguments};
use tokens::token::Punctuation;

/// Appends the tokens of a type after its colon, if there is one.
pub fn spell_annotation(
    alloc: Global,
    annotation: &Option<SourceType>,
    into: &mut Lexemes,
) -> Result<(), NoMemory>
    ensures { OnOk result (into.new ≡ into.old ++ annotation_spelling annotation.now) }
{
    match annotation {
        None => Ok(()),
        Some(annotation) => {
            into.push_sign(Punctuation::Colon)?;
            spell_type(alloc, annotation, into)
        }
    }
}

fn spell_maybe_loop_spec(
    alloc: Global,
    spec: &Option<KeptSpec>,
    into: &mut Lexemes,
) -> Result<(), NoMemory>
    ensures { OnOk result (into.new ≡ into.old ++ maybe_loop_spec_spelling spec.now) }
{
    match spec {
        None => Ok(()),
        Some(spec) => {
            spell_kept_spec(alloc, spec, into)?;
            into.push_sign(Punctuation::Semicolon)
        }
    }
}

/// Appends the tokens of a path with its type arguments, and of the bracket after them.
fn spell_head(
    alloc: Global,
    path: &Path,
    arguments: &Option<TypeArguments>,
    bracket: Punctuation,
    into: &mut Lexemes,
) -> Result<(), NoMemory>
    ensures { OnOk result (into.new ≡ into.old ++ path_spelling path.now ++ maybe_arguments_spelling (Some true) (maybe_arguments_of arguments.now) ++ sign bracket ∷ []) }
{
    spell_path(alloc, path, into)?;
    spell_maybe_arguments(alloc, Some(true), arguments, into)?;
    into.push_sign(bracket)
}

/// Appends the tokens of a vector up to its items.
fn spell_vector_head(
    alloc: Global,
    span: Span,
    arguments: &Option<TypeArguments>,
    into: &mut Lexemes,
) -> Result<(), NoMemory>
    ensures { OnOk result (into.new ≡ into.old ++ word (codes "vector") (Some span) ∷ maybe_arguments_spelling None (maybe_arguments_of arguments.now) ++ sign LeftBracket ∷ []) }
{
    into.push_word(alloc, b"vector", Some(span))?;
    spell_maybe_arguments(alloc, None, arguments, into)?;
    into.push_sign(Punctuation::LeftBracket)
}

/// Appends the tokens of an assertion up to its condition.
fn spell_assert_head(alloc: Global, span: Span, into: &mut Lexemes) -> Result<(), NoMemory>
    ensures { OnOk result (into.new ≡ into.old ++ word (codes "assert") (Some span) ∷ sign Exclaim ∷ sign LeftParenthesis ∷ []) }
{
    into.push_word(alloc, b"assert", Some(span))?;
    into.push_sign(Punctuation::Exclaim)?;
    into.push_sign(Punctuation::LeftParenthesis)
}

/// Appends the tokens of a cast after its value.
fn spell_cast_target(alloc: Global, target: &SourceType, into: &mut Lexemes) -> Result<(), NoMemory>
    ensures { OnOk result (into.new ≡ into.old ++ word (codes "as") None ∷ type_spelling target.now ++ sign RightParenthesis ∷ []) }
{
    into.push_word(alloc, b"as", None)?;
    spell_type(alloc, target, into)?;
    into.push_sign(Punctuation::RightParenthesis)
}

/// Appends the tokens of a field after its base.
fn spell_field_name(alloc: Global, field: &Identifier, into: &mut Lexemes) -> Result<(), NoMemory>
    ensures { OnOk result (into.new ≡ into.old ++ sign Period ∷ identifier field.now ∷ []) }
{
    into.push_sign(Punctuation::Period)?;
    spell_identifier(alloc, field, into)
}

/// Appends the tokens of an expression.
#[cycle(spell_expression)]
pub fn spell_expression(
    alloc: Global,
    expression: &Expression,
    into: &mut Lexemes,
) -> Result<(), NoMemory>
    ensures { OnOk result (into.new ≡ into.old ++ expression_spelling expression.now) }
{
    match &expression.node {
        ExpressionNode::Binary {
            left,
            operator,
            span,
            right,
        } => {
            spell_expression(alloc, left, into)?;
            spell_operator(*operator, *span, is_path_last(left), into)?;
            spell_expression(alloc, right, into)
        }
        ExpressionNode::Assign {
            target,
            span,
            value,
        } => {
            spell_expression(alloc, target, into)?;
            into.push_sign_at(*span, Punctuation::Equal)?;
            spell_expression(alloc, value, into)
        }
        ExpressionNode::If {
            span,
            condition,
            then_branch,
            else_branch,
        } => spell_if(alloc, *span, condition, then_branch, else_branch, into),
        ExpressionNode::While {
            span,
            condition,
            body,
        } => {
            spell_condition(alloc, b"while", *span, condition, into)?;
            spell_expression(alloc, body, into)
        }
        ExpressionNode::Loop { span, body } => {
            into.push_word(alloc, b"loop", Some(*span))?;
            spell_expression(alloc, body, into)
        }
        ExpressionNode::Return { span, value } => {
            into.push_word(alloc, b"return", Some(*span))?;
            spell_returned(alloc, value, into)
        }
        ExpressionNode::Abort { span, code } => {
            into.push_word(alloc, b"abort", Some(*span))?;
            spell_expression(alloc, code, into)
        }
        ExpressionNode::Break(span) => into.push_word(alloc, b"break", Some(*span)),
        ExpressionNode::Continue(span) => into.push_word(alloc, b"continue", Some(*span)),
        ExpressionNode::Unary {
            operator,
            span,
            operand,
        } => {
            spell_unary(alloc, *operator, *span, into)?;
            spell_expression(alloc, operand, into)
        }
        ExpressionNode::Use { kind, span, local } => {
            spell_use(alloc, *kind, *span, into)?;
            spell_identifier(alloc, local, into)
        }
        ExpressionNode::Field { base, field } => {
            spell_expression(alloc, base, into)?;
            spell_field_name(alloc, field, into)
        }
        ExpressionNode::Literal(literal) => spell_literal(alloc, literal, into),
        ExpressionNode::Path(path) => spell_path(alloc, path, into),
        ExpressionNode::Call {
            function,
            arguments,
            values,
            last_comma,
        } => {
            spell_head(
                alloc,
                function,
                arguments,
                Punctuation::LeftParenthesis,
                into,
            )?;
            spell_listed(
                alloc,
                values,
                *last_comma,
                Punctuation::RightParenthesis,
                into,
            )
        }
        ExpressionNode::Pack {
            path,
            arguments,
            fields,
            last_comma,
        } => {
            spell_head(alloc, path, arguments, Punctuation::LeftBrace, into)?;
            spell_fields(alloc, fields, *last_comma, into)
        }
        ExpressionNode::Vector {
            span,
            arguments,
            items,
            last_comma,
        } => {
            spell_vector_head(alloc, *span, arguments, into)?;
            spell_listed(alloc, items, *last_comma, Punctuation::RightBracket, into)
        }
        ExpressionNode::Assert {
            span,
            condition,
            code,
        } => {
            spell_assert_head(alloc, *span, into)?;
            spell_before(alloc, condition, Punctuation::Comma, into)?;
            spell_before(alloc, code, Punctuation::RightParenthesis, into)
        }
        ExpressionNode::Tuple {
            span,
            items,
            last_comma,
        } => {
            into.push_sign_at(*span, Punctuation::LeftParenthesis)?;
            spell_listed(
                alloc,
                items,
                *last_comma,
                Punctuation::RightParenthesis,
                into,
            )
        }
        ExpressionNode::Cast {
            span,
            value,
            target,
        } => {
            into.push_sign_at(*span, Punctuation::LeftParenthesis)?;
            spell_expression(alloc, value, into)?;
            spell_cast_target(alloc, target, into)
        }
        ExpressionNode::Block(block) => spell_block(alloc, block, into),
    }
}

/// Appends the tokens of an `if` with its branches.
#[cycle(spell_expression)]
fn spell_if(
    alloc: Global,
    span: Span,
    condition: &Expression,
    then_branch: &Expression,
    else_branch: &Option<Box<Expression>>,
    into: &mut Lexemes,
) -> Result<(), NoMemory>
    ensures { OnOk result (into.new ≡ into.old ++ expression_spelling (IfExpression span condition.now then_branch.now (maybe_expression_of (unboxed else_branch.now)))) }
{
    spell_condition(alloc, b"if", span, condition, into)?;
    spell_expression(alloc, then_branch, into)?;
    spell_else(alloc, else_branch, into)
}

/// Appends the tokens of an expression and the sign after it.
#[cycle(spell_expression)]
fn spell_before(
    alloc: Global,
    expression: &Expression,
    behind: Punctuation,
    into: &mut Lexemes,
) -> Result<(), NoMemory>
    ensures { OnOk result (into.new ≡ into.old ++ expression_spelling expression.now ++ sign behind ∷ []) }
{
    spell_expression(alloc, expression, into)?;
    into.push_sign(behind)
}

/// Appends the tokens of a condition after its word, in its parentheses.
#[cycle(spell_expression)]
fn spell_condition(
    alloc: Global,
    keyword: &[u8],
    span: Span,
    condition: &Expression,
    into: &mut Lexemes,
) -> Result<(), NoMemory>
    ensures { OnOk result (into.new ≡ into.old ++ word keyword.now (Some span) ∷ sign LeftParenthesis ∷ expression_spelling condition.now ++ sign RightParenthesis ∷ []) }
{
    into.push_word(alloc, keyword, Some(span))?;
    into.push_sign(Punctuation::LeftParenthesis)?;
    spell_before(alloc, condition, Punctuation::RightParenthesis, into)
}

#[cycle(spell_expression)]
fn spell_else(
    alloc: Global,
    branch: &Option<Box<Expression>>,
    into: &mut Lexemes,
) -> Result<(), NoMemory>
    ensures { OnOk result (into.new ≡ into.old ++ else_spelling (maybe_expression_of (unboxed branch.now))) }
{
    match branch {
        None => Ok(()),
        Some(branch) => {
            into.push_word(alloc, b"else", None)?;
            spell_expression(alloc, branch, into)
        }
    }
}

#[cycle(spell_expression)]
fn spell_returned(
    alloc: Global,
    value: &Option<Box<Expression>>,
    into: &mut Lexemes,
) -> Result<(), NoMemory>
    ensures { OnOk result (into.new ≡ into.old ++ maybe_expression_spelling (maybe_expression_of (unboxed value.now))) }
{
    match value {
        None => Ok(()),
        Some(value) => spell_expression(alloc, value, into),
    }
}

/// Appends the tokens of a list and of the closing bracket.
#[cycle(spell_expression)]
fn spell_listed(
    alloc: Global,
    expressions: &[Expression],
    last_comma: bool,
    bracket: Punctuation,
    into: &mut Lexemes,
) -> Result<(), NoMemory>
    ensures { OnOk result (into.new ≡ into.old ++ comma_list (expression_spellings (expressions_of expressions.now)) last_comma ++ sign bracket ∷ []) }
{
    spell_expressions(alloc, expressions, last_comma, into)?;
    into.push_sign(bracket)
}

/// Appends the tokens of fields and of the closing brace.
#[cycle(spell_expression)]
fn spell_fields(
    alloc: Global,
    fields: &[FieldValue],
    last_comma: bool,
    into: &mut Lexemes,
) -> Result<(), NoMemory>
    ensures { OnOk result (into.new ≡ into.old ++ comma_list (field_value_spellings (field_values_of fields.now)) last_comma ++ sign RightBrace ∷ []) }
{
    spell_field_values(alloc, fields, last_comma, into)?;
    into.push_sign(Punctuation::RightBrace)
}

#[cycle(spell_expression)]
fn spell_expressions(
    alloc: Global,
    expressions: &[Expression],
    last_comma: bool,
    into: &mut Lexemes,
) -> Result<(), NoMemory>
    ensures { OnOk result (into.new ≡ into.old ++ comma_list (expression_spellings (expressions_of expressions.now)) last_comma) }
{
    let Some((first, rest)) = expressions.split_first() else {
        return into.push_last_comma(last_comma);
    };
    spell_expression(alloc, first, into)?;
    spell_more_expressions(alloc, rest, into)?;
    into.push_last_comma(last_comma)?;
    Ok(())
}

#[cycle(spell_expression)]
#[tactic(auto, using(syntax_tree::proofs::SmallerExpressions::expression_smaller))]
fn spell_more_expressions(
    alloc: Global,
    expressions: &[Expression],
    into: &mut Lexemes,
) -> Result<(), NoMemory>
    ensures { OnOk result (into.new ≡ into.old ++ flat_map expression_after_comma expressions.now) }
{
    for one in expressions {
        into.push_sign(Punctuation::Comma)?;
        spell_expression(alloc, one, into)?;
    }
    Ok(())
}

#[cycle(spell_expression)]
fn spell_field_value(alloc: Global, field: &FieldValue, into: &mut Lexemes) -> Result<(), NoMemory>
    ensures { OnOk result (into.new ≡ into.old ++ field_value_spelling field.now) }
{
    spell_identifier(alloc, &field.name, into)?;
    match &field.value {
        None => Ok(()),
        Some(value) => {
            into.push_sign(Punctuation::Colon)?;
            spell_expression(alloc, value, into)
        }
    }
}

#[cycle(spell_expression)]
fn spell_field_values(
    alloc: Global,
    fields: &[FieldValue],
    last_comma: bool,
    into: &mut Lexemes,
) -> Result<(), NoMemory>
    ensures { OnOk result (into.new ≡ into.old ++ comma_list (field_value_spellings (field_values_of fields.now)) last_comma) }
{
    let Some((first, rest)) = fields.split_first() else {
        return into.push_last_comma(last_comma);
    };
    spell_field_value(alloc, first, into)?;
    spell_more_field_values(alloc, rest, into)?;
    into.push_last_comma(last_comma)?;
    Ok(())
}

#[cycle(spell_expression)]
#[tactic(auto, using(syntax_tree::proofs::SmallerExpressions::field_value_smaller))]
fn spell_more_field_values(
    alloc: Global,
    fields: &[FieldValue],
    into: &mut Lexemes,
) -> Result<(), NoMemory>
    ensures { OnOk result (into.new ≡ into.old ++ flat_map field_value_after_comma fields.now) }
{
    for one in fields {
        into.push_sign(Punctuation::Comma)?;
        spell_field_value(alloc, one, into)?;
    }
    Ok(())
}

/// Appends the tokens of a block.
#[cycle(spell_expression)]
pub fn spell_block(alloc: Global, block: &Block, into: &mut Lexemes) -> Result<(), NoMemory>
    ensures { OnOk result (into.new ≡ into.old ++ block_spelling block.now) }
{
    into.push_sign_at(block.span, Punctuation::LeftBrace)?;
    spell_maybe_loop_spec(alloc, &block.spec, into)?;
    spell_items(alloc, &block.items, into)?;
    spell_value(alloc, &block.value, into)?;
    into.push_sign(Punctuation::RightBrace)
}

#[cycle(spell_expression)]
fn spell_value(
    alloc: Global,
    value: &Option<Expression>,
    into: &mut Lexemes,
) -> Result<(), NoMemory>
    ensures { OnOk result (into.new ≡ into.old ++ maybe_expression_spelling (maybe_expression_of value.now)) }
{
    match value {
        None => Ok(()),
        Some(value) => spell_expression(alloc, value, into),
    }
}

#[cycle(spell_expression)]
#[tactic(auto, using(syntax_tree::proofs::SmallerExpressions::item_smaller))]
fn spell_items(alloc: Global, items: &[Item], into: &mut Lexemes) -> Result<(), NoMemory>
    ensures { OnOk result (into.new ≡ into.old ++ items_spelling (items_of items.now)) }
{
    for one in items {
        spell_item(alloc, one, into)?;
    }
    Ok(())
}

/// Appends the tokens of an item, with its semicolon.
#[cycle(spell_expression)]
pub fn spell_item(alloc: Global, item: &Item, into: &mut Lexemes) -> Result<(), NoMemory>
    ensures { OnOk result (into.new ≡ into.old ++ item_spelling item.now) }
{
    match &item.node {
        ItemNode::Expression(expression) => {
            spell_before(alloc, expression, Punctuation::Semicolon, into)
        }
        ItemNode::Let {
            span,
            pattern,
            annotation,
            value,
        } => {
            into.push_word(alloc, b"let", Some(*span))?;
            spell_pattern(alloc, pattern, into)?;
            spell_annotation(alloc, annotation, into)?;
            spell_initial(alloc, value, into)?;
            into.push_sign(Punctuation::Semicolon)
        }
    }
}

#[cycle(spell_expression)]
fn spell_initial(
    alloc: Global,
    value: &Option<Box<Expression>>,
    into: &mut Lexemes,
) -> Result<(), NoMemory>
    ensures { OnOk result (into.new ≡ into.old ++ initial_spelling (maybe_expression_of (unboxed value.now))) }
{
    match value {
        None => Ok(()),
        Some(value) => {
            into.push_sign(Punctuation::Equal)?;
            spell_expression(alloc, value, into)
        }
    }
}
