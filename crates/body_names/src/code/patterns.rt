//! Resolution of the names in patterns.

ghost use Rattle.std.specs.Prelude.{◌≡◌, ◌<◌, [], ◌∷◌, ◌++◌, length, All, IfOk, IfErr, OnOk, None};
ghost use Rattle.std.specs.Option.{option_map};
ghost use Rattle.syntax_tree.specs.TypeTreeData.{maybe_arguments_of};
ghost use Rattle.syntax_tree.specs.PatternData.{field_patterns_of, patterns_of};
ghost use Rattle.program.specs.Trees.{LeafTree};
ghost use Rattle.program.specs.Listed.{AreSound, IsSound};
ghost use Rattle.scopes.specs.Meanings.{IfUnknown};
ghost use Rattle.body_names.specs.CodeAdded.{Added, AddedAll, Closed};
ghost use Rattle.body_names.specs.CodeForms.{many_tree};
ghost use Rattle.body_names.specs.SharedWords.{fields_meaning};
ghost use Rattle.body_names.specs.PatternTrees.{field_of_pattern, field_pattern_name, field_pattern_names, field_pattern_spans, field_pattern_tree, field_pattern_trees, field_patterns_spans, fields_of_patterns, parenthesized, pattern_names, pattern_spans, pattern_tree, pattern_trees, patterns_names, patterns_own, patterns_spans};
ghost use Rattle.body_names.specs.FirstSpans.{path_span};
ghost use Rattle.body_names.specs.CodeSetting.{setting};

use crate::code::building::Building;
use crate::code::context::Context;
use crate::first_spans::path_span;
use crate::words::named_fields;
use base::memory::NoMemory;
use base::name::Name;
use base::span::Span;
use program::arena::Node;
use program::code::{CodeLeaf, CodeMany};
use program::sequence::Sequence;
use scopes::fault::NameFault;
use std::alloc::Global;
use syntax_tree::lexeme::Identifier;
use syntax_tree::path::Path;
use syntax_tree::pattern::{FieldPattern, Pattern, PatternNode};
use syntax_tree::types::TypeArguments;

/// Adds a new local.
fn bind(context: &Context<'_>, into: &mut Building, name: &Identifier) -> Result<usize, NameFault>
    ensures added { IfOk result (λ index. Added (LeafTree (CodeLeaf.Bind (length into.old.locals))) (name.now.span ∷ []) (name.now.text ∷ []) [] into.old into.new index) }
    ensures scope { OnOk result (into.new.scope ≡ into.old.scope) }
    ensures memory { IfErr result (λ fault. fault ≡ NameFault.NoMemory) }
{
    let number = into.locals.as_slice().len();
    let copy = name.text.try_clone(context.alloc)?;
    let index = into.add(Node::Leaf(CodeLeaf::Bind(number)), name.span)?;
    into.locals.push(copy)?;
    Ok(index)
}

/// Returns the field that a pattern is for.
fn field_of(field: &FieldPattern) -> &Name
    ensures { result.now ≡ field_of_pattern field.now }
{
    &field.name.text
}

/// Returns the fields that patterns are for.
fn fields_of(alloc: Global, fields: &[FieldPattern]) -> Result<Sequence<Name>, NoMemory>
    ensures { IfOk result (λ names. names ≡ fields_of_patterns (field_patterns_of fields.now)) }
{
    let mut names = Sequence::new(alloc);
    for one in fields {
        names.push(field_of(one).try_clone(alloc)?)?;
    }
    Ok(names)
}

/// Adds a struct pattern after the patterns for its fields.
fn close_unpack(
    context: &Context<'_>,
    into: &mut Building,
    path: &Path,
    arguments: &Option<TypeArguments>,
    fields: &[FieldPattern],
    parts: Sequence<usize>,
) -> Result<usize, NameFault>
    requires { All (λ x. x < length into.old.body.nodes) parts }
    ensures closed { IfOk result (λ index. Closed (option_map CodeMany.Unpack (fields_meaning (setting context.now) path.now (maybe_arguments_of arguments.now) (fields_of_patterns (field_patterns_of fields.now)))) parts (path_span path.now) into.old into.new index) }
    ensures scope { OnOk result (into.new.scope ≡ into.old.scope) }
    ensures unknown { IfErr result (λ fault. IfUnknown fault (fields_meaning (setting context.now) path.now (maybe_arguments_of arguments.now) (fields_of_patterns (field_patterns_of fields.now)) ≡ None)) }
{
    let names = fields_of(context.alloc, fields)?;
    let node = named_fields(context.alloc, &context.types, path, arguments, names)?;
    let index = into.add(Node::Many(CodeMany::Unpack(node), parts), path_span(path))?;
    Ok(index)
}

/// Resolves a pattern. The numbers of its locals continue from those before it.
#[cycle(resolve_pattern)]
pub fn resolve_pattern(
    context: &Context<'_>,
    into: &mut Building,
    pattern: &Pattern,
) -> Result<usize, NameFault>
    ensures added { IfOk result (λ index. Added (pattern_tree (setting context.now) (length into.old.locals) pattern.now) (pattern_spans pattern.now) (pattern_names pattern.now) [] into.old into.new index) }
    ensures scope { OnOk result (into.new.scope ≡ into.old.scope) }
    ensures unknown { IfErr result (λ fault. IfUnknown fault (IsSound (pattern_tree (setting context.now) (length into.old.locals) pattern.now) → ⊥)) }
{
    match &pattern.node {
        PatternNode::Bind(name) => bind(context, into, name),
        PatternNode::Ignore(span) => into.leaf(CodeLeaf::Ignore, *span),
        PatternNode::Unpack {
            path,
            arguments,
            fields,
            ..
        } => resolve_unpack(context, into, path, arguments, fields),
        PatternNode::Tuple { span, items, .. } => resolve_tuple(context, into, *span, items),
    }
}

/// Resolves a struct pattern.
#[cycle(resolve_pattern)]
fn resolve_unpack(
    context: &Context<'_>,
    into: &mut Building,
    path: &Path,
    arguments: &Option<TypeArguments>,
    fields: &[FieldPattern],
) -> Result<usize, NameFault>
    ensures added { IfOk result (λ index. Added (many_tree (option_map CodeMany.Unpack (fields_meaning (setting context.now) path.now (maybe_arguments_of arguments.now) (fields_of_patterns (field_patterns_of fields.now)))) (field_pattern_trees (setting context.now) (length into.old.locals) (field_patterns_of fields.now))) (field_patterns_spans (field_patterns_of fields.now) ++ path_span path.now ∷ []) (field_pattern_names (field_patterns_of fields.now)) [] into.old into.new index) }
    ensures scope { OnOk result (into.new.scope ≡ into.old.scope) }
    ensures unknown { IfErr result (λ fault. IfUnknown fault (IsSound (many_tree (option_map CodeMany.Unpack (fields_meaning (setting context.now) path.now (maybe_arguments_of arguments.now) (fields_of_patterns (field_patterns_of fields.now)))) (field_pattern_trees (setting context.now) (length into.old.locals) (field_patterns_of fields.now))) → ⊥)) }
{
    let parts = resolve_fields(context, into, fields)?;
    let index = close_unpack(context, into, path, arguments, fields, parts)?;
    Ok(index)
}

/// Resolves patterns in parentheses. One pattern in parentheses is that pattern.
#[cycle(resolve_pattern)]
fn resolve_tuple(
    context: &Context<'_>,
    into: &mut Building,
    span: Span,
    items: &[Pattern],
) -> Result<usize, NameFault>
    ensures added { IfOk result (λ index. Added (parenthesized CodeMany.TuplePattern (pattern_trees (setting context.now) (length into.old.locals) (patterns_of items.now))) (patterns_spans (patterns_of items.now) ++ patterns_own span (patterns_of items.now)) (patterns_names (patterns_of items.now)) [] into.old into.new index) }
    ensures scope { OnOk result (into.new.scope ≡ into.old.scope) }
    ensures unknown { IfErr result (λ fault. IfUnknown fault (IsSound (parenthesized CodeMany.TuplePattern (pattern_trees (setting context.now) (length into.old.locals) (patterns_of items.now))) → ⊥)) }
{
    let parts = resolve_patterns(context, into, items)?;
    let index = into.parenthesized(CodeMany::TuplePattern, parts, span)?;
    Ok(index)
}

/// Resolves patterns, one after another. Returns the indices of their nodes.
#[cycle(resolve_pattern)]
#[tactic(auto, using(syntax_tree::proofs::Smaller::pattern_smaller))]
fn resolve_patterns(
    context: &Context<'_>,
    into: &mut Building,
    patterns: &[Pattern],
) -> Result<Sequence<usize>, NameFault>
    ensures added { IfOk result (λ parts. AddedAll (pattern_trees (setting context.now) (length into.old.locals) (patterns_of patterns.now)) (patterns_spans (patterns_of patterns.now)) (patterns_names (patterns_of patterns.now)) [] into.old into.new parts) }
    ensures scope { OnOk result (into.new.scope ≡ into.old.scope) }
    ensures unknown { IfErr result (λ fault. IfUnknown fault (AreSound (pattern_trees (setting context.now) (length into.old.locals) (patterns_of patterns.now)) → ⊥)) }
{
    let mut parts = Sequence::new(context.alloc);
    for one in patterns {
        let part = resolve_pattern(context, into, one)?;
        parts.push(part)?;
    }
    Ok(parts)
}

/// Resolves the patterns of fields, one after another. Returns the indices of their nodes.
#[cycle(resolve_pattern)]
#[tactic(auto, using(syntax_tree::proofs::Smaller::field_pattern_smaller))]
fn resolve_fields(
    context: &Context<'_>,
    into: &mut Building,
    fields: &[FieldPattern],
) -> Result<Sequence<usize>, NameFault>
    ensures added { IfOk result (λ parts. AddedAll (field_pattern_trees (setting context.now) (length into.old.locals) (field_patterns_of fields.now)) (field_patterns_spans (field_patterns_of fields.now)) (field_pattern_names (field_patterns_of fields.now)) [] into.old into.new parts) }
    ensures scope { OnOk result (into.new.scope ≡ into.old.scope) }
    ensures unknown { IfErr result (λ fault. IfUnknown fault (AreSound (field_pattern_trees (setting context.now) (length into.old.locals) (field_patterns_of fields.now)) → ⊥)) }
{
    let mut parts = Sequence::new(context.alloc);
    for one in fields {
        let part = resolve_field(context, into, one)?;
        parts.push(part)?;
    }
    Ok(parts)
}

/// Resolves the pattern of a field: a local of its name if none is written.
#[cycle(resolve_pattern)]
fn resolve_field(
    context: &Context<'_>,
    into: &mut Building,
    field: &FieldPattern,
) -> Result<usize, NameFault>
    ensures added { IfOk result (λ index. Added (field_pattern_tree (setting context.now) (length into.old.locals) field.now) (field_pattern_spans field.now) (field_pattern_name field.now) [] into.old into.new index) }
    ensures scope { OnOk result (into.new.scope ≡ into.old.scope) }
    ensures unknown { IfErr result (λ fault. IfUnknown fault (IsSound (field_pattern_tree (setting context.now) (length into.old.locals) field.now) → ⊥)) }
{
    match &field.pattern {
        None => bind(context, into, &field.name),
        Some(pattern) => resolve_pattern(context, into, pattern),
    }
}
