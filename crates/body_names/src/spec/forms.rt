//! The meaning of words and signs in spec expressions.

ghost use Rattle.std.specs.Prelude.{◌≡◌, [], IfOk, IfErr};
ghost use Rattle.std.specs.Option.{option_map};
ghost use Rattle.syntax_tree.specs.TypeTreeData.{maybe_arguments_of};
ghost use Rattle.program.specs.Listed.{AreSound};
ghost use Rattle.program.specs.Trees.{NoTrees};
ghost use Rattle.scopes.specs.Meanings.{IfUnknown, IsMeaning, word_meaning};
ghost use Rattle.body_names.specs.SpecForms.{call_meaning, constant_leaf, domain_trees, domain_type, greatest_value, literal_meaning, name_meaning, quantifier_of, spec_operator_of, value_meaning};
ghost use Rattle.body_names.specs.SpecSetting.{setting};

use crate::spec::context::Context;
use crate::words::{address, number, operator_of};
use base::name::Name;
use base::types::{TypeTerm, Width};
use program::boxed::Boxed;
use program::operator::{Quantifier, SpecOperator};
use program::spec::{SpecCall, SpecLeaf, SpecMany, SpecName};
use scopes::fault::NameFault;
use scopes::scope::Scope;
use scopes::types::{type_arguments, type_named};
use syntax_tree::literal::Literal;
use syntax_tree::path::Path;
use syntax_tree::spec_expression::operator::{
    Quantifier as QuantifierWord, SpecOperator as SpecSign,
};
use syntax_tree::types::{SourceType, TypeArguments};

/// Returns the operator of spec expressions that a sign means.
pub fn spec_operator_of(operator: SpecSign) -> SpecOperator
    ensures { result ≡ spec_operator_of operator }
{
    match operator {
        SpecSign::Equivalent => SpecOperator::Equivalent,
        SpecSign::Implies => SpecOperator::Implies,
        SpecSign::Range => SpecOperator::Range,
        SpecSign::Common(common) => SpecOperator::Common(operator_of(common)),
    }
}

/// Returns the quantifier that a word means.
pub fn quantifier_of(quantifier: QuantifierWord) -> Quantifier
    ensures { result ≡ quantifier_of quantifier }
{
    match quantifier {
        QuantifierWord::ForAll => Quantifier::ForAll,
        QuantifierWord::Exists => Quantifier::Exists,
    }
}

/// Returns the value of a literal.
#[tactic(auto, unfolding(crate::specs::SpecForms::literal_meaning))]
pub fn literal(context: &Context<'_>, literal: &Literal) -> Result<SpecLeaf, NameFault>
    ensures { IsMeaning result (literal_meaning ((setting context.now).types) literal.now) }
{
    match literal {
        Literal::Number(numeral) => Ok(SpecLeaf::Number(number(&numeral.literal)?)),
        Literal::Truth { value, .. } => Ok(SpecLeaf::Truth(*value)),
        Literal::Address { address: named, .. } => {
            Ok(SpecLeaf::Address(address(&context.types, named)?))
        }
    }
}

/// Returns the integer type whose greatest value a word means.
fn greatest_value(word: &[u8]) -> Option<Width>
    ensures { result ≡ greatest_value word.now }
{
    if word == b"MAX_U8".as_slice() {
        Some(Width::U8)
    } else if word == b"MAX_U16".as_slice() {
        Some(Width::U16)
    } else if word == b"MAX_U32".as_slice() {
        Some(Width::U32)
    } else if word == b"MAX_U64".as_slice() {
        Some(Width::U64)
    } else if word == b"MAX_U128".as_slice() {
        Some(Width::U128)
    } else {
        None
    }
}

fn greatest(path: &Path) -> Result<SpecLeaf, NameFault>
    ensures { IsMeaning result (option_map SpecLeaf.Max (word_meaning greatest_value path.now)) }
{
    if let Path::Name(name) = path {
        if let Some(width) = greatest_value(name.text.as_slice()) {
            return Ok(SpecLeaf::Max(width));
        }
    }
    Err(NameFault::Unknown)
}

fn constant(context: &Context<'_>, path: &Path) -> Result<SpecLeaf, NameFault>
    ensures { IsMeaning result (constant_leaf ((setting context.now).types) path.now) }
{
    match context
        .types
        .environment
        .constant_named(context.alloc, path)
    {
        Ok(id) => Ok(SpecLeaf::Constant(Boxed::new(context.alloc, id)?)),
        Err(NameFault::Unknown) => greatest(path),
        Err(NameFault::NoMemory) => Err(NameFault::NoMemory),
    }
}

/// Returns the innermost quantifier variable of a name, or else its meaning around the expression.
fn name(context: &Context<'_>, scope: &Scope, name: &Name) -> Option<SpecLeaf>
    ensures { result ≡ name_meaning ((setting context.now).outer) scope.now name.now }
{
    if let Some(number) = scope.find(name) {
        return Some(SpecLeaf::Name(SpecName::Quantified(number)));
    }
    match context.outer.find(name) {
        Some(meaning) => Some(SpecLeaf::Name(meaning)),
        None => None,
    }
}

/// Returns the meaning of a path as a value.
#[tactic(auto, unfolding(crate::specs::SpecForms::value_meaning))]
pub fn value(context: &Context<'_>, scope: &Scope, path: &Path) -> Result<SpecLeaf, NameFault>
    ensures { IsMeaning result (value_meaning (setting context.now) scope.now path.now) }
{
    if let Path::Name(word) = path {
        if let Some(leaf) = name(context, scope, &word.text) {
            return Ok(leaf);
        }
    }
    constant(context, path)
}

/// Returns the type that a variable ranges over.
#[tactic(auto, unfolding(crate::specs::SpecForms::domain_type, crate::specs::SpecForms::domain_trees))]
pub fn domain(context: &Context<'_>, source: &SourceType) -> Result<TypeTerm, NameFault>
    ensures domain { IfOk result (λ term. term ≡ domain_type ((setting context.now).types) source.now) }
    ensures trees { IfOk result (λ term. domain_trees ((setting context.now).types) source.now ≡ NoTrees) }
    ensures unknown { IfErr result (λ fault. IfUnknown fault (AreSound (domain_trees ((setting context.now).types) source.now) → ⊥)) }
{
    let term = type_named(context.alloc, &context.types, source)?;
    Ok(term)
}

/// Returns a call of what a path names.
#[tactic(auto, unfolding(crate::specs::SpecForms::call_meaning))]
pub fn call(
    context: &Context<'_>,
    path: &Path,
    arguments: &Option<TypeArguments>,
) -> Result<SpecMany, NameFault>
    ensures { IsMeaning result (call_meaning ((setting context.now).types) path.now (maybe_arguments_of arguments.now)) }
{
    let callee = context
        .types
        .environment
        .spec_callee_named(context.alloc, path)?;
    let types = type_arguments(context.alloc, &context.types, arguments)?;
    let boxed = Boxed::new(context.alloc, SpecCall { callee, types })?;
    Ok(SpecMany::Call(boxed))
}
