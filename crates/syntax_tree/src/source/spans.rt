//! The spans of members and modules.

ghost use Rattle.std.specs.Prelude.{◌≡◌};
ghost use Rattle.syntax_tree.specs.Spans.{entry_span, first_span, form_span, function_span, module_span, spec_span, visible_span};

use crate::clause::Spec;
use crate::member::{Attribute, Function, Visibility};
use crate::source::{SourceForm, SourceModule};
use base::span::Span;

/// Returns the span of `entry`, if a function has it, or else `span`.
fn entry_span(entry: Option<Span>, span: Span) -> Span
    ensures { result ≡ entry_span entry span }
{
    match entry {
        None => span,
        Some(entry) => entry,
    }
}

/// Returns the span of a function's `public(friend)` or `public`, if it has one, or else `span`.
fn visible_span(visibility: Visibility, span: Span) -> Span
    ensures { result ≡ visible_span visibility span }
{
    match visibility {
        Visibility::Module => span,
        Visibility::Public(public) => public,
        Visibility::Friends(public) => public,
    }
}

/// Returns the span of a function's first token.
fn function_span(function: &Function) -> Span
    ensures { result ≡ function_span function.now }
{
    visible_span(
        function.visibility,
        entry_span(function.entry, function.span),
    )
}

/// Returns the span of a spec block's first word.
fn spec_span(spec: &Spec) -> Span
    ensures { result ≡ spec_span spec.now }
{
    match spec {
        Spec::Module { span, .. } => *span,
        Spec::Named { span, .. } => *span,
        Spec::Schema(schema) => schema.span,
        Spec::Function(function) => function.span,
        Spec::Loop { span, .. } => *span,
    }
}

/// Returns the span of a member's first token.
pub fn form_span(form: &SourceForm) -> Span
    ensures { result ≡ form_span form.now }
{
    match form {
        SourceForm::Use(member) => member.span,
        SourceForm::Friend(member) => member.span,
        SourceForm::Struct(member) => member.span,
        SourceForm::Constant(member) => member.span,
        SourceForm::Function(member) => function_span(member),
        SourceForm::Spec(member) => spec_span(member),
    }
}

/// Returns the span of the first attribute, if there is one, or else `span`.
fn first_span(attributes: &[Attribute], span: Span) -> Span
    ensures { result ≡ first_span attributes.now span }
{
    match attributes.first() {
        Some(attribute) => attribute.span,
        None => span,
    }
}

/// Returns the span of a module's first token, which may be that of an attribute.
pub fn module_span(source_module: &SourceModule) -> Span
    ensures { result ≡ module_span source_module.now }
{
    first_span(&source_module.attributes, source_module.span)
}
