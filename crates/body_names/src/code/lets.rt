//! A `let` without a value.

ghost use Rattle.std.specs.Prelude.{◌≡◌, ◌+◌, [], ◌∷◌, ◌++◌, length, IfOk, IfErr, OnOk};
ghost use Rattle.program.specs.Listed.{IsSound};
ghost use Rattle.scopes.specs.Meanings.{IfUnknown};
ghost use Rattle.body_names.specs.CodeAdded.{Added};
ghost use Rattle.body_names.specs.CodeForms.{declare_meaning, unary_tree};
ghost use Rattle.body_names.specs.PatternTrees.{pattern_names, pattern_spans, pattern_tree};
ghost use Rattle.body_names.specs.CodeSetting.{setting};

use crate::code::building::Building;
use crate::code::context::Context;
use crate::code::forms::declaration;
use crate::code::patterns::resolve_pattern;
use base::span::Span;
use program::arena::Node;
use scopes::fault::NameFault;
use syntax_tree::pattern::Pattern;
use syntax_tree::types::SourceType;

/// A resolved `let`: the index of its node, and the number after that of the last local of its pattern.
#[derive(Drop)]
pub struct Bound {
    pub index: usize,
    pub until: usize,
}

/// Resolves a `let` without a value.
pub fn declare(
    context: &Context<'_>,
    into: &mut Building,
    span: Span,
    pattern: &Pattern,
    annotation: &Option<SourceType>,
) -> Result<Bound, NameFault>
    ensures added { IfOk result (λ bound. Added (unary_tree (declare_meaning (setting context.now) annotation.now) (pattern_tree (setting context.now) (length into.old.locals) pattern.now)) ((pattern_spans pattern.now ++ []) ++ span ∷ []) (pattern_names pattern.now ++ []) [] into.old into.new bound.index) }
    ensures until { IfOk result (λ bound. bound.until ≡ length into.old.locals + length (pattern_names pattern.now)) }
    ensures scope { OnOk result (into.new.scope ≡ into.old.scope) }
    ensures unknown { IfErr result (λ fault. IfUnknown fault (IsSound (unary_tree (declare_meaning (setting context.now) annotation.now) (pattern_tree (setting context.now) (length into.old.locals) pattern.now)) → ⊥)) }
{
    let pattern = resolve_pattern(context, into, pattern)?;
    let until = into.locals.as_slice().len();
    let node = declaration(context, annotation)?;
    let index = into.add(Node::Unary(node, pattern), span)?;
    Ok(Bound { index, until })
}
