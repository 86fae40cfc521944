//! The meaning of words and signs in Move code.

ghost use Rattle.std.specs.Prelude.{◌≡◌};
ghost use Rattle.syntax_tree.specs.TypeTreeData.{maybe_arguments_of};
ghost use Rattle.scopes.specs.Meanings.{IsMeaning};
ghost use Rattle.scopes.specs.TypeMeanings.{type_meaning};
ghost use Rattle.body_names.specs.CodeForms.{annotation_meaning, call_meaning, cast_meaning, constant_leaf, declare_meaning, let_meaning, literal_meaning, local_meaning, unary_of, use_of, value_meaning, vector_meaning};
ghost use Rattle.body_names.specs.CodeSetting.{setting};

use crate::code::context::Context;
use crate::words::{address, number};
use base::name::Name;
use base::types::TypeTerm;
use program::boxed::Boxed;
use program::code::{Call, CodeBinary, CodeLeaf, CodeMany, CodeUnary, LocalUse};
use scopes::fault::NameFault;
use scopes::scope::Scope;
use scopes::types::{type_arguments, type_named};
use syntax_tree::literal::Literal;
use syntax_tree::operator::{UnaryOperator, UseKind};
use syntax_tree::path::Path;
use syntax_tree::types::{SourceType, TypeArguments};

/// Returns the unary operator that a sign means.
pub fn unary_of(operator: UnaryOperator) -> CodeUnary
    ensures { result ≡ unary_of operator }
{
    match operator {
        UnaryOperator::Not => CodeUnary::Not,
        UnaryOperator::Dereference => CodeUnary::Dereference,
        UnaryOperator::Borrow => CodeUnary::Borrow,
        UnaryOperator::BorrowMutable => CodeUnary::BorrowMutable,
    }
}

/// Returns how `move` or `copy` takes the value of a local.
pub fn use_of(kind: UseKind) -> LocalUse
    ensures { result ≡ use_of kind }
{
    match kind {
        UseKind::Move => LocalUse::Move,
        UseKind::Copy => LocalUse::Copy,
    }
}

/// Returns the value of a literal.
#[tactic(auto, unfolding(crate::specs::CodeForms::literal_meaning))]
pub fn literal(context: &Context<'_>, literal: &Literal) -> Result<CodeLeaf, NameFault>
    ensures { IsMeaning result (literal_meaning (setting context.now) literal.now) }
{
    match literal {
        Literal::Number(numeral) => Ok(CodeLeaf::Number(number(&numeral.literal)?)),
        Literal::Truth { value, .. } => Ok(CodeLeaf::Truth(*value)),
        Literal::Address { address: named, .. } => {
            Ok(CodeLeaf::Address(address(&context.types, named)?))
        }
    }
}

/// Returns the innermost local of a name.
pub fn local(kind: LocalUse, scope: &Scope, name: &Name) -> Result<CodeLeaf, NameFault>
    ensures { IsMeaning result (local_meaning kind scope.now name.now) }
{
    match scope.find(name) {
        Some(number) => Ok(CodeLeaf::Local(kind, number)),
        None => Err(NameFault::Unknown),
    }
}

fn constant(context: &Context<'_>, path: &Path) -> Result<CodeLeaf, NameFault>
    ensures { IsMeaning result (constant_leaf (setting context.now) path.now) }
{
    let id = context
        .types
        .environment
        .constant_named(context.alloc, path)?;
    let boxed = Boxed::new(context.alloc, id)?;
    Ok(CodeLeaf::Constant(boxed))
}

/// Returns the meaning of a path as a value.
#[tactic(auto, unfolding(crate::specs::CodeForms::value_meaning))]
pub fn value(context: &Context<'_>, scope: &Scope, path: &Path) -> Result<CodeLeaf, NameFault>
    ensures { IsMeaning result (value_meaning (setting context.now) scope.now path.now) }
{
    if let Path::Name(name) = path {
        if let Some(number) = scope.find(&name.text) {
            return Ok(CodeLeaf::Local(LocalUse::Plain, number));
        }
    }
    constant(context, path)
}

fn type_term(context: &Context<'_>, source: &SourceType) -> Result<Boxed<TypeTerm>, NameFault>
    ensures { IsMeaning result (type_meaning (setting context.now) source.now) }
{
    let term = type_named(context.alloc, &context.types, source)?;
    let boxed = Boxed::new(context.alloc, term)?;
    Ok(boxed)
}

/// Returns a cast to a type.
#[tactic(auto, unfolding(crate::specs::CodeForms::cast_meaning))]
pub fn cast(context: &Context<'_>, target: &SourceType) -> Result<CodeUnary, NameFault>
    ensures { IsMeaning result (cast_meaning (setting context.now) target.now) }
{
    let target = type_term(context, target)?;
    Ok(CodeUnary::Cast(target))
}

fn annotation(
    context: &Context<'_>,
    annotation: &Option<SourceType>,
) -> Result<Option<Boxed<TypeTerm>>, NameFault>
    ensures { IsMeaning result (annotation_meaning (setting context.now) annotation.now) }
{
    match annotation {
        None => Ok(None),
        Some(source) => Ok(Some(type_term(context, source)?)),
    }
}

/// Returns a `let` without a value.
#[tactic(auto, unfolding(crate::specs::CodeForms::declare_meaning))]
pub fn declaration(
    context: &Context<'_>,
    source: &Option<SourceType>,
) -> Result<CodeUnary, NameFault>
    ensures { IsMeaning result (declare_meaning (setting context.now) source.now) }
{
    let term = annotation(context, source)?;
    Ok(CodeUnary::Declare(term))
}

/// Returns a `let` with a value.
#[tactic(auto, unfolding(crate::specs::CodeForms::let_meaning))]
pub fn binding(context: &Context<'_>, source: &Option<SourceType>) -> Result<CodeBinary, NameFault>
    ensures { IsMeaning result (let_meaning (setting context.now) source.now) }
{
    let term = annotation(context, source)?;
    Ok(CodeBinary::Let(term))
}

/// Returns a call of what a path names.
#[tactic(auto, unfolding(crate::specs::CodeForms::call_meaning))]
pub fn call(
    context: &Context<'_>,
    path: &Path,
    arguments: &Option<TypeArguments>,
) -> Result<CodeMany, NameFault>
    ensures { IsMeaning result (call_meaning (setting context.now) path.now (maybe_arguments_of arguments.now)) }
{
    let callee = context.types.environment.callee_named(context.alloc, path)?;
    let types = type_arguments(context.alloc, &context.types, arguments)?;
    let boxed = Boxed::new(context.alloc, Call { callee, types })?;
    Ok(CodeMany::Call(boxed))
}

/// Returns a vector with the written type arguments.
#[tactic(auto, unfolding(crate::specs::CodeForms::vector_meaning))]
pub fn vector(
    context: &Context<'_>,
    arguments: &Option<TypeArguments>,
) -> Result<CodeMany, NameFault>
    ensures { IsMeaning result (vector_meaning (setting context.now) (maybe_arguments_of arguments.now)) }
{
    let types = type_arguments(context.alloc, &context.types, arguments)?;
    Ok(CodeMany::Vector(types))
}
