//! The forms of expressions and of spec expressions: each operator with what it joins in parentheses.

use crate::lines::push_name;
use crate::source_lines::scan;
use crate::spelled::are_spelled;
use base::memory::NoMemory;
use expression_parser::expression::read_expression;
use item_parser::spec::denoted::spec_expression;
use parser_base::explain::ParseFault;
use parser_base::fault::ReadFault;
use parser_base::marker::marker_at;
use spelling::spell_spec_expression::spell_spec_expression;
use std::alloc::Global;
use syntax_tree::expression::{Expression, ExpressionNode};
use syntax_tree::lexeme::Lexemes;
use syntax_tree::operator::BinaryOperator;
use syntax_tree::path::Path;
use syntax_tree::spec_expression::operator::{Quantifier, SpecOperator};
use syntax_tree::spec_expression::{SpecExpression, SpecNode};
use tokens::token::{TokenFault, Tokens};

fn sign(operator: BinaryOperator) -> &'static str {
    match operator {
        BinaryOperator::Or => "||",
        BinaryOperator::And => "&&",
        BinaryOperator::Equal => "==",
        BinaryOperator::NotEqual => "!=",
        BinaryOperator::Less => "<",
        BinaryOperator::LessEqual => "<=",
        BinaryOperator::Greater => ">",
        BinaryOperator::GreaterEqual => ">=",
        BinaryOperator::BitOr => "|",
        BinaryOperator::BitXor => "^",
        BinaryOperator::BitAnd => "&",
        BinaryOperator::ShiftLeft => "<<",
        BinaryOperator::ShiftRight => ">>",
        BinaryOperator::Add => "+",
        BinaryOperator::Subtract => "-",
        BinaryOperator::Multiply => "*",
        BinaryOperator::Divide => "/",
        BinaryOperator::Remainder => "%",
    }
}

fn spec_sign(operator: SpecOperator) -> &'static str {
    match operator {
        SpecOperator::Equivalent => "<==>",
        SpecOperator::Implies => "==>",
        SpecOperator::Range => "..",
        SpecOperator::Common(operator) => sign(operator),
    }
}

/// What stands before the parts of an expression; all that is written of one whose parts are left out.
fn opening(node: &ExpressionNode) -> &'static str {
    match node {
        ExpressionNode::Binary { .. } => "(",
        ExpressionNode::If { .. } => "if(",
        ExpressionNode::Return { value: None, .. } => "return",
        ExpressionNode::Return { .. } => "return ",
        ExpressionNode::Unary { .. } => "!",
        ExpressionNode::Field { .. } | ExpressionNode::Path(Path::Name(_)) => "",
        ExpressionNode::Path(_) => "path",
        ExpressionNode::Call { .. } => "call",
        ExpressionNode::Pack { .. } => "pack",
        ExpressionNode::Vector { .. } => "vector",
        ExpressionNode::Assert { .. } => "assert",
        ExpressionNode::Tuple { .. } => "tuple",
        ExpressionNode::Cast { .. } => "cast",
        ExpressionNode::Block(_) => "block",
        ExpressionNode::Loop { .. } => "loop",
        ExpressionNode::While { .. } => "while",
        ExpressionNode::Assign { .. } => "assign",
        ExpressionNode::Abort { .. } => "abort",
        ExpressionNode::Break(_) => "break",
        ExpressionNode::Continue(_) => "continue",
        ExpressionNode::Use { .. } => "use",
        ExpressionNode::Literal(_) => "literal",
    }
}

/// Writes the form of an expression, and a text behind it.
fn push_form(line: &mut String, tree: &Expression, behind: &str) -> Result<(), NoMemory> {
    line.push_str(opening(&tree.node))?;
    match &tree.node {
        ExpressionNode::Binary {
            left,
            operator,
            right,
            ..
        } => {
            push_form(line, left, sign(*operator))?;
            push_form(line, right, ")")?;
        }
        ExpressionNode::If {
            condition,
            then_branch,
            else_branch,
            ..
        } => {
            push_form(line, condition, ":")?;
            push_form(
                line,
                then_branch,
                if else_branch.is_some() { ":" } else { ")" },
            )?;
            if let Some(branch) = else_branch {
                push_form(line, branch, ")")?;
            }
        }
        ExpressionNode::Return {
            value: Some(value),
            ..
        } => push_form(line, value, "")?,
        ExpressionNode::Unary { operand, .. } => push_form(line, operand, "")?,
        ExpressionNode::Field { base, field } => {
            push_form(line, base, ".")?;
            push_name(line, &field.text)?;
        }
        ExpressionNode::Path(Path::Name(name)) => push_name(line, &name.text)?,
        _ => {}
    }
    line.push_str(behind)?;
    Ok(())
}

/// What stands before the parts of a spec expression; all that is written of one whose parts are left out.
fn spec_opening(node: &SpecNode) -> &'static str {
    match node {
        SpecNode::Binary { .. } => "(",
        SpecNode::If { .. } => "if(",
        SpecNode::Quantified {
            quantifier: Quantifier::ForAll,
            ..
        } => "forall(",
        SpecNode::Quantified { .. } => "exists(",
        SpecNode::Not { .. } => "!",
        SpecNode::Field { .. } | SpecNode::Index { .. } | SpecNode::Path(Path::Name(_)) => "",
        SpecNode::Path(_) => "path",
        SpecNode::Literal(_) => "literal",
        SpecNode::Call { .. } => "call",
        SpecNode::Pack { .. } => "pack",
        SpecNode::Parenthesized { .. } => "parentheses",
    }
}

/// Writes the form of a spec expression, and a text behind it.
fn push_spec(line: &mut String, tree: &SpecExpression, behind: &str) -> Result<(), NoMemory> {
    line.push_str(spec_opening(&tree.node))?;
    match &tree.node {
        SpecNode::Binary {
            left,
            operator,
            right,
            ..
        } => {
            push_spec(line, left, spec_sign(*operator))?;
            push_spec(line, right, ")")?;
        }
        SpecNode::If {
            condition,
            then_branch,
            else_branch,
            ..
        } => {
            push_spec(line, condition, ":")?;
            push_spec(line, then_branch, ":")?;
            push_spec(line, else_branch, ")")?;
        }
        SpecNode::Quantified { body, .. } => push_spec(line, body, ")")?,
        SpecNode::Not { operand, .. } => push_spec(line, operand, "")?,
        SpecNode::Field { base, field } => {
            push_spec(line, base, ".")?;
            push_name(line, &field.text)?;
        }
        SpecNode::Index { base, index } => {
            push_spec(line, base, "[")?;
            push_spec(line, index, "]")?;
        }
        SpecNode::Path(Path::Name(name)) => push_name(line, &name.text)?,
        _ => {}
    }
    line.push_str(behind)?;
    Ok(())
}

/// The expression that tokens begin with, and how many are left; or how many are left where reading ended.
fn form_line(alloc: Global, found: &Tokens) -> Result<String, NoMemory> {
    let budget = found.len().saturating_add(1);
    match read_expression(alloc, 0, found.as_slice(), budget) {
        Ok((expression, rest)) => {
            let mut line = String::new(alloc);
            push_form(&mut line, &expression, "")?;
            let left = rest.len();
            let more = format!(in alloc; ", {left} left")?;
            line.push_str(more.as_str())?;
            Ok(line)
        }
        Err(ReadFault::NoTree { left }) => Ok(format!(in alloc; "no expression, {left} left")?),
        Err(_) => Err(NoMemory),
    }
}

/// Why tokens were not parsed.
pub fn fault_line(alloc: Global, found: &Tokens, fault: ParseFault) -> Result<String, NoMemory> {
    match fault {
        ParseFault::Grammar(span) => Ok(format!(in alloc; "grammar at byte {span}")?),
        ParseFault::LeftOut(index) => {
            let mut line = format!(in alloc; "left out at token {index}: ")?;
            match str::from_utf8(marker_at(found.as_slice(), index)) {
                Ok(marker) => line.push_str(marker)?,
                Err(_) => line.push('?')?,
            }
            Ok(line)
        }
        ParseFault::NoMemory => Err(NoMemory),
    }
}

/// The spec expression that tokens are, and whether they spell it.
fn spec_form_line(alloc: Global, found: &Tokens) -> Result<String, NoMemory> {
    let tree = match spec_expression(alloc, found) {
        Ok(tree) => tree,
        Err(fault) => return fault_line(alloc, found, fault),
    };
    let mut spelled = Lexemes::new(alloc);
    spell_spec_expression(alloc, &tree, &mut spelled)?;
    let mut line = String::new(alloc);
    push_spec(&mut line, &tree, "")?;
    if !are_spelled(found.as_slice(), spelled.as_slice()) {
        line.push_str(", spelled otherwise")?;
    }
    Ok(line)
}

/// The expression that a text begins with, or where its reading ends.
pub fn expression_line(alloc: Global, text: &str) -> Result<String, NoMemory> {
    match scan(alloc, 0, text) {
        Ok(found) => form_line(alloc, &found),
        Err(TokenFault::NoMemory) => Err(NoMemory),
        Err(fault) => Ok(format!(in alloc; "{fault}")?),
    }
}

/// The spec expression that a text is, or where its reading ends.
pub fn condition_line(alloc: Global, text: &str) -> Result<String, NoMemory> {
    match scan(alloc, 0, text) {
        Ok(found) => spec_form_line(alloc, &found),
        Err(TokenFault::NoMemory) => Err(NoMemory),
        Err(fault) => Ok(format!(in alloc; "{fault}")?),
    }
}
