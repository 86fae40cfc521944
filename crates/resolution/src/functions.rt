//! Functions with the clauses of their loops.

ghost use Rattle.std.specs.Prelude.{◌≡◌, ℕ, ◌<◌, ◌^◌, List, [], ◌∷◌, length, map, IfOk, IfErr, OnOk};
ghost use Rattle.std.specs.List.{zip};
ghost use Rattle.syntax_tree.specs.declared.member.Function.{Function as FunctionTree};
ghost use Rattle.syntax_tree.specs.Spans.{function_span};
ghost use Rattle.syntax_tree.specs.SourceData.{SourceMemberData};
ghost use Rattle.syntax_tree.specs.declared.source.SourceForm.{SourceForm};
ghost use Rattle.scopes.specs.Meanings.{IfUnknown};
ghost use Rattle.resolution.specs.Parameters.{type_names_of};
ghost use Rattle.body_names.specs.LoopScopes.{loops_of_body};
ghost use Rattle.resolution.specs.Declarations.{HasUnknownInFunction, parameter_names_of};
ghost use Rattle.resolution.specs.Around.{around_loop};
ghost use Rattle.resolution.specs.Clauses.{placed};
ghost use Rattle.resolution.specs.Setting.{scope_of};
ghost use Rattle.resolution.specs.Faults.{IsFaultAmong};
ghost use Rattle.resolution.specs.Items.{AreKnown, HasUnknownInOne, Here, LoopItem, MemberItem, function_scope, loops_of};
ghost use Rattle.resolution.specs.Owners.{outcome_of, placed_in};
ghost use Rattle.resolution.specs.LoopParts.{AddedLoops, AddedOne};
ghost use Rattle.resolution.specs.Parts.{IsBareAs, here_of};
ghost use Rattle.resolution.specs.Programs.{FunctionOf};

use crate::clauses::around::around_loop;
use crate::clauses::clause::{is_clause, resolve_clause};
use crate::clauses::context::ClauseContext;
use crate::declarations::functions::{Head, ResolvedFunction, resolve_function};
use crate::declarations::parameters::type_names_of;
use crate::declared::{Declared, DeclaredForm};
use crate::fault::{DeclarationFault, fault_at};
use crate::members::{
    ModuleContext, clauses_of_spec, few_parameters, function_span, own_member, spec_span,
};
use base::span::Span;
use base::types::TypeTerm;
use body_names::code::body::{FunctionBody, ResolvedBody};
use body_names::code::loops::LoopScope;
use body_names::spec::outer::Outer;
use program::clause::LoopClause;
use program::declaration::{Function, Pragmas};
use program::sequence::Sequence;
use scopes::fault::NameFault;
use scopes::types::TypeContext;
use syntax_tree::clause::{Clause as ClauseTree, Spec};
use syntax_tree::member::Function as FunctionTree;

/// Adds one more clause of a loop, if it is a clause of a program.
fn add_clause(
    context: &ClauseContext<'_>,
    outer: &Outer,
    at: usize,
    block: Span,
    tree: &ClauseTree,
    into: &mut Sequence<LoopClause>,
) -> Result<(), NameFault>
    ensures added { OnOk result (AddedOne (scope_of context.now) outer.now at (placed block (tree.now ∷ [])) into.old into.new) }
    ensures unknown { IfErr result (λ fault. IfUnknown fault (HasUnknownInOne (scope_of context.now) outer.now (placed block (tree.now ∷ [])))) }
{
    if !is_clause(tree) {
        return Ok(());
    }
    let clause = resolve_clause(context, outer, block, tree)?;
    into.push(LoopClause { at, clause })?;
    Ok(())
}

/// Adds the clauses of the spec block of a loop.
fn add_block(
    context: &ClauseContext<'_>,
    outer: &Outer,
    at: usize,
    block: Span,
    trees: &[ClauseTree],
    into: &mut Sequence<LoopClause>,
) -> Result<(), NameFault>
    ensures added { OnOk result (AddedOne (scope_of context.now) outer.now at (placed block trees.now) into.old into.new) }
    ensures unknown { IfErr result (λ fault. IfUnknown fault (HasUnknownInOne (scope_of context.now) outer.now (placed block trees.now))) }
{
    for tree in trees {
        add_clause(context, outer, at, block, tree, into)?;
    }
    Ok(())
}

/// Adds the clauses of a loop.
fn add_loop(
    context: &ClauseContext<'_>,
    outcome: &TypeTerm,
    scope: &LoopScope,
    spec: &Spec,
    into: &mut Sequence<LoopClause>,
) -> Result<(), NameFault>
    ensures added { OnOk result (AddedOne (scope_of context.now) (around_loop outcome.now scope.now.names) scope.now.at (placed_in spec.now) into.old into.new) }
    ensures unknown { IfErr result (λ fault. IfUnknown fault (HasUnknownInOne (scope_of context.now) (around_loop outcome.now scope.now.names) (placed_in spec.now))) }
{
    let outer = around_loop(context.alloc, outcome, scope.names.as_slice())?;
    add_block(
        context,
        &outer,
        scope.at,
        spec_span(spec),
        clauses_of_spec(spec),
        into,
    )
}

/// Adds the clauses of loops, each with its spec block.
fn add_loops(
    context: &ClauseContext<'_>,
    outcome: &TypeTerm,
    scopes: &[LoopScope],
    loops: &[Spec],
    into: &mut Sequence<LoopClause>,
) -> Result<(), DeclarationFault>
    ensures added { OnOk result ((w : Here) (f : FunctionTree) → scope_of context.now ≡ function_scope w f → outcome.now ≡ outcome_of w.environment f → AddedLoops w f (zip scopes.now loops.now) into.old into.new) }
    ensures unknown { IfErr result (λ fault. (w : Here) (f : FunctionTree) → scope_of context.now ≡ function_scope w f → outcome.now ≡ outcome_of w.environment f → IsFaultAmong (map (LoopItem w f) (zip scopes.now loops.now)) fault) }
{
    for (index, spec) in loops.iter().enumerate() {
        if index >= scopes.len() {
            return Ok(());
        }
        match add_loop(context, outcome, &scopes[index], spec, into) {
            Ok(()) => {}
            Err(fault) => return Err(fault_at(fault, spec_span(spec))),
        }
    }
    Ok(())
}

/// Resolves the clauses of all loops of a function, whose result has this type.
fn loop_clauses(
    context: &ModuleContext<'_>,
    tree: &FunctionTree,
    outcome: &TypeTerm,
    scopes: &[LoopScope],
    loops: &[Spec],
) -> Result<Sequence<LoopClause>, DeclarationFault>
    requires few { length (type_names_of tree.now.parameters) < 2 ^ 32 }
    requires outcome { outcome.now ≡ outcome_of context.now.environment.now tree.now }
    requires scopes { scopes.now ≡ loops_of_body (parameter_names_of tree.now) tree.now.body }
    ensures added { IfOk result (AddedLoops (here_of context.now) tree.now (loops_of tree.now loops.now) []) }
    ensures unknown { IfErr result (IsFaultAmong (map (LoopItem (here_of context.now) tree.now) (loops_of tree.now loops.now))) }
{
    let mut found = Sequence::new(context.alloc);
    let names = type_names_of(context.alloc, &tree.parameters)?;
    let clauses = ClauseContext {
        alloc: context.alloc,
        types: TypeContext {
            environment: context.environment,
            parameters: names.as_slice(),
            is_spec: true,
        },
        schemas: context.schemas,
    };
    add_loops(&clauses, outcome, scopes, loops, &mut found)?;
    Ok(found)
}

/// Returns the pragmas in force for a function without pragmas.
fn plain_pragmas() -> Pragmas {
    Pragmas {
        verify: true,
        is_opaque: false,
        aborts_if_is_partial: false,
        aborts_if_is_strict: false,
    }
}

/// Resolves a function with its loops, without the clauses of its own spec blocks.
pub fn own_function(
    context: &ModuleContext<'_>,
    tree: &FunctionTree,
    loops: &[Spec],
) -> Result<Declared, DeclarationFault>
    ensures resolved { IfOk result (λ declared. (n : ℕ) → IsBareAs (FunctionOf (here_of context.now) n tree.now loops.now) declared) }
    ensures known { OnOk result ((HasUnknownInFunction context.now.environment.now tree.now → ⊥) × AreKnown (map (LoopItem (here_of context.now) tree.now) (loops_of tree.now loops.now))) }
    ensures unknown { IfErr result (λ fault. (before : List SourceMemberData) → IsFaultAmong (MemberItem (here_of context.now) before (SourceForm.Function tree.now) ∷ map (LoopItem (here_of context.now) tree.now) (loops_of tree.now loops.now)) fault) }
{
    few_parameters(&tree.parameters)?;
    let member = own_member(context, &tree.name.text)?;
    let at = function_span(tree);
    let ResolvedFunction { head, body } = match resolve_function(
        context.alloc,
        context.environment,
        tree,
    ) {
        Ok(resolved) => resolved,
        Err(fault) => return Err(fault_at(fault, at)),
    };
    let FunctionBody {
        code,
        loops: scopes,
    } = body;
    let loop_clauses = loop_clauses(context, tree, &head.result_type, &scopes, loops)?;
    let Head {
        visibility,
        type_parameters,
        parameters,
        result_type,
        acquires,
    } = head;
    let ResolvedBody { body, locals } = code;
    Ok(Declared {
        form: DeclaredForm::Function(
            member.into_function(),
            Function {
                span: at,
                visibility,
                type_parameters,
                parameters,
                result: result_type,
                acquires,
                locals,
                body,
                pragmas: plain_pragmas(),
                clauses: Sequence::new(context.alloc),
                loop_clauses,
            },
        ),
    })
}
