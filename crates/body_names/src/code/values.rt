//! Literals, paths and locals as values.

ghost use Rattle.std.specs.Prelude.{◌≡◌, [], ◌∷◌, IfOk, IfErr, OnOk};
ghost use Rattle.program.specs.Listed.{IsSound};
ghost use Rattle.scopes.specs.Meanings.{IfUnknown};
ghost use Rattle.body_names.specs.CodeAdded.{Added};
ghost use Rattle.body_names.specs.CodeForms.{leaf_tree, literal_meaning, local_meaning, use_of, value_meaning};
ghost use Rattle.body_names.specs.FirstSpans.{literal_span, path_span};
ghost use Rattle.body_names.specs.CodeSetting.{setting};

use crate::code::building::Building;
use crate::code::context::Context;
use crate::code::forms::{literal, local, use_of, value};
use crate::first_spans::{literal_span, path_span};
use base::span::Span;
use scopes::fault::NameFault;
use syntax_tree::lexeme::Identifier;
use syntax_tree::literal::Literal;
use syntax_tree::operator::UseKind;
use syntax_tree::path::Path;

/// Adds a literal.
pub fn resolve_literal(
    context: &Context<'_>,
    into: &mut Building,
    source: &Literal,
) -> Result<usize, NameFault>
    ensures added { IfOk result (λ index. Added (leaf_tree (literal_meaning (setting context.now) source.now)) (literal_span source.now ∷ []) [] [] into.old into.new index) }
    ensures scope { OnOk result (into.new.scope ≡ into.old.scope) }
    ensures unknown { IfErr result (λ fault. IfUnknown fault (IsSound (leaf_tree (literal_meaning (setting context.now) source.now)) → ⊥)) }
{
    let leaf = literal(context, source)?;
    let index = into.leaf(leaf, literal_span(source))?;
    Ok(index)
}

/// Adds the meaning of a path as a value.
pub fn resolve_value(
    context: &Context<'_>,
    into: &mut Building,
    path: &Path,
) -> Result<usize, NameFault>
    ensures added { IfOk result (λ index. Added (leaf_tree (value_meaning (setting context.now) into.old.scope path.now)) (path_span path.now ∷ []) [] [] into.old into.new index) }
    ensures scope { OnOk result (into.new.scope ≡ into.old.scope) }
    ensures unknown { IfErr result (λ fault. IfUnknown fault (IsSound (leaf_tree (value_meaning (setting context.now) into.old.scope path.now)) → ⊥)) }
{
    let leaf = value(context, &into.scope, path)?;
    let index = into.leaf(leaf, path_span(path))?;
    Ok(index)
}

/// Adds `move x` or `copy x`.
pub fn resolve_use(
    into: &mut Building,
    kind: UseKind,
    span: Span,
    name: &Identifier,
) -> Result<usize, NameFault>
    ensures added { IfOk result (λ index. Added (leaf_tree (local_meaning (use_of kind) into.old.scope name.now.text)) (span ∷ []) [] [] into.old into.new index) }
    ensures scope { OnOk result (into.new.scope ≡ into.old.scope) }
    ensures unknown { IfErr result (λ fault. IfUnknown fault (IsSound (leaf_tree (local_meaning (use_of kind) into.old.scope name.now.text)) → ⊥)) }
{
    let leaf = local(use_of(kind), &into.scope, &name.text)?;
    let index = into.leaf(leaf, span)?;
    Ok(index)
}

/// Adds the meaning, as a value, of the name of a field without a value.
pub fn resolve_shorthand(
    context: &Context<'_>,
    into: &mut Building,
    name: &Identifier,
) -> Result<usize, NameFault>
    ensures added { IfOk result (λ index. Added (leaf_tree (value_meaning (setting context.now) into.old.scope (Path.Name name.now))) (name.now.span ∷ []) [] [] into.old into.new index) }
    ensures scope { OnOk result (into.new.scope ≡ into.old.scope) }
    ensures unknown { IfErr result (λ fault. IfUnknown fault (IsSound (leaf_tree (value_meaning (setting context.now) into.old.scope (Path.Name name.now))) → ⊥)) }
{
    let path = Path::Name(Identifier {
        text: name.text.try_clone(context.alloc)?,
        span: name.span,
    });
    let index = resolve_value(context, into, &path)?;
    Ok(index)
}
