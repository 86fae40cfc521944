//! The first declaration of a program that leads back to itself.

ghost use Rattle.std.specs.Prelude.{◌≡◌, IfOk, MatchOption, length, slice_get};
ghost use Rattle.program.specs.Order.{IsFirst, IsFirstOrNone};
ghost use Rattle.declaration_cycles.specs.Circular.{HaveNoCycles, IsCircular, IsKindVerdict, IsSpanAmong, kinds_of, module_kind, spans_in, schema_kind, spec_function_kind, struct_kind};

use crate::graph::all_back;
use crate::kinds::{schema_edges, spec_function_edges, struct_edges};
use crate::members::module_edges;
use base::memory::NoMemory;
use base::span::Span;
use program::order::earlier;
use program::program::{ModuleId, Program};
use program::sequence::Sequence;
use std::alloc::Global;

/// The kinds of declarations that can be on a cycle.
#[derive(Clone, Copy)]
enum DeclarationKind {
    Module,
    Struct,
    SpecFunction,
    Schema,
}

/// Returns the span of the declaration of this kind at this index of its table.
fn span_of(program: &Program, kind: DeclarationKind, number: usize) -> Option<Span>
    ensures { result ≡ slice_get (spans_in program.now kind) number }
{
    match kind {
        DeclarationKind::Module => program.modules.entry(number).map(|(_, found)| found.span),
        DeclarationKind::Struct => program.structs.entry(number).map(|(_, found)| found.span),
        DeclarationKind::SpecFunction => program
            .spec_functions
            .entry(number)
            .map(|(_, found)| found.span),
        DeclarationKind::Schema => program.schemas.entry(number).map(|(_, found)| found.span),
    }
}

/// Finds the first span of the declarations of this kind at these indices.
fn first_span(program: &Program, kind: DeclarationKind, numbers: &[usize]) -> Option<Span>
    ensures { IsFirstOrNone (IsSpanAmong (spans_in program.now kind) numbers.now) result }
{
    let mut first = None;
    for number in numbers {
        first = earlier(first, span_of(program, kind, *number));
    }
    first
}

/// Finds the first module on a cycle. Returns its span.
fn first_module(
    alloc: Global,
    program: &Program,
    uses: &[Sequence<ModuleId>],
) -> Result<Option<Span>, NoMemory>
    requires { length uses.now ≡ length program.now.modules }
    ensures { IfOk result (λ found. IsKindVerdict (module_kind program.now uses.now) found) }
{
    let edges = module_edges(alloc, program, uses)?;
    let numbers = all_back(alloc, program.modules.len(), edges.as_slice())?;
    Ok(first_span(program, DeclarationKind::Module, numbers.as_slice()))
}

/// Finds the first struct on a cycle. Returns its span.
fn first_struct(alloc: Global, program: &Program) -> Result<Option<Span>, NoMemory>
    ensures { IfOk result (λ found. IsKindVerdict (struct_kind program.now) found) }
{
    let edges = struct_edges(alloc, program)?;
    let numbers = all_back(alloc, program.structs.len(), edges.as_slice())?;
    Ok(first_span(program, DeclarationKind::Struct, numbers.as_slice()))
}

/// Finds the first spec function on a cycle. Returns its span.
fn first_spec_function(alloc: Global, program: &Program) -> Result<Option<Span>, NoMemory>
    ensures { IfOk result (λ found. IsKindVerdict (spec_function_kind program.now) found) }
{
    let edges = spec_function_edges(alloc, program)?;
    let numbers = all_back(alloc, program.spec_functions.len(), edges.as_slice())?;
    Ok(first_span(program, DeclarationKind::SpecFunction, numbers.as_slice()))
}

/// Finds the first schema on a cycle. Returns its span.
fn first_schema(alloc: Global, program: &Program) -> Result<Option<Span>, NoMemory>
    ensures { IfOk result (λ found. IsKindVerdict (schema_kind program.now) found) }
{
    let edges = schema_edges(alloc, program)?;
    let numbers = all_back(alloc, program.schemas.len(), edges.as_slice())?;
    Ok(first_span(program, DeclarationKind::Schema, numbers.as_slice()))
}

/// Finds the first declaration on a cycle, and returns its span: a module leads to the modules that its `use`s name and
/// those whose members its declarations name; a struct to those in the types of its fields; a spec function to those
/// that it calls; a schema to those that it includes. `uses` has for each module, by index, the modules that its `use`s
/// name. The first declaration is the one with no other of them before it, in an earlier file or earlier in the same
/// file. Returns none if no declaration is on a cycle.
pub fn first_cycle(
    alloc: Global,
    program: &Program,
    uses: &[Sequence<ModuleId>],
) -> Result<Option<Span>, NoMemory>
    requires { length uses.now ≡ length program.now.modules }
    ensures { IfOk result (λ found. MatchOption found (HaveNoCycles (kinds_of program.now uses.now)) (IsFirst (IsCircular (kinds_of program.now uses.now)))) }
{
    let modules = first_module(alloc, program, uses)?;
    let structs = first_struct(alloc, program)?;
    let spec_functions = first_spec_function(alloc, program)?;
    let schemas = first_schema(alloc, program)?;
    Ok(earlier(earlier(modules, structs), earlier(spec_functions, schemas)))
}
