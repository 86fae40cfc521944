//! Resolution of the single members of a module.

ghost use Rattle.std.specs.Prelude.{◌≡◌, ℕ, ◌<◌, ◌^◌, length, IfOk, IfErr, OnOk};
ghost use Rattle.syntax_tree.specs.Spans.{function_span, spec_span};
ghost use Rattle.scopes.specs.Meanings.{IfUnknown};
ghost use Rattle.resolution.specs.Parameters.{type_names_of};
ghost use Rattle.resolution.specs.Declarations.{HasUnknownInConstant, HasUnknownInStruct};
ghost use Rattle.resolution.specs.SpecDeclarations.{HasUnknownInSchema, HasUnknownInSpecFunction};
ghost use Rattle.resolution.specs.Owners.{clauses_of_spec};
ghost use Rattle.resolution.specs.Parts.{IsBareAs, here_of};
ghost use Rattle.resolution.specs.Programs.{ConstantOf, SchemaOf, SpecFunctionOf, StructOf, own_member};

use crate::clauses::schemas::resolve_schema;
use crate::clauses::spec_functions::resolve_spec_function;
use crate::declarations::constants::resolve_constant;
use crate::declarations::structs::resolve_struct;
use crate::declared::{Declared, DeclaredForm};
use base::memory::NoMemory;
use base::name::Name;
use base::span::Span;
use body_names::spec::name_list::NameList;
use indexmap::IndexSet;
use program::program::{ModuleId, SchemaId};
use program::table::Table;
use scopes::environment::Environment;
use scopes::fault::NameFault;
use scopes::member::{MemberId, NameOfKind};
use std::alloc::Global;
use syntax_tree::clause::{Clause, Schema as SchemaTree, Spec, SpecFunction as SpecFunctionTree};
use syntax_tree::member::{
    Constant as ConstantTree, Function as FunctionTree, Struct as StructTree, TypeParameters,
    Visibility,
};
use syntax_tree::source::SourceMember;

/// A module from within: the meaning of names in it, all modules, the variables of all schemas, its members, and the
/// indices of the members by name.
#[derive(Clone, Copy)]
pub struct ModuleContext<'a> {
    pub alloc: Global,
    pub environment: &'a Environment,
    pub modules: &'a IndexSet<ModuleId>,
    pub schemas: &'a Table<SchemaId, NameList>,
    pub members: &'a [SourceMember],
    pub numbers: &'a Table<NameOfKind, usize>,
}

/// Returns the span of a spec block's keyword.
pub fn spec_span(spec: &Spec) -> Span
    ensures { result ≡ spec_span spec.now }
{
    match spec {
        Spec::Module { span, .. } => *span,
        Spec::Named { span, .. } => *span,
        Spec::Schema(schema) => schema.span,
        Spec::Function(function) => function.span,
        Spec::Loop { span, .. } => *span,
    }
}

/// Returns the span of a function's first token, attributes excluded.
pub fn function_span(tree: &FunctionTree) -> Span
    ensures { result ≡ function_span tree.now }
{
    let span = match tree.entry {
        None => tree.span,
        Some(entry) => entry,
    };
    match tree.visibility {
        Visibility::Module => span,
        Visibility::Public(public) => public,
        Visibility::Friends(public) => public,
    }
}

/// Returns the clauses of a spec block.
pub fn clauses_of_spec(spec: &Spec) -> &[Clause]
    ensures { result.now ≡ clauses_of_spec spec.now }
{
    match spec {
        Spec::Module { clauses, .. } => &clauses.items,
        Spec::Named { clauses, .. } => &clauses.items,
        Spec::Schema(schema) => &schema.clauses.items,
        Spec::Function(_) => &[],
        Spec::Loop { clauses, .. } => &clauses.items,
    }
}

/// Returns the member of the module with this name.
pub fn own_member(context: &ModuleContext<'_>, name: &Name) -> Result<MemberId, NoMemory>
    ensures { IfOk result (λ member. member ≡ own_member (here_of context.now) name.now) }
{
    Ok(MemberId {
        owner: context.environment.own().try_clone(context.alloc)?,
        name: name.try_clone(context.alloc)?,
    })
}

/// Checks that the type parameters can be numbered with 32 bits. No memory holds more.
pub fn few_parameters(parameters: &Option<TypeParameters>) -> Result<(), NoMemory>
    ensures { OnOk result (length (type_names_of parameters.now) < 2 ^ 32) }
{
    match parameters {
        None => Ok(()),
        Some(parameters) => {
            if parameters.items.len() > u32::MAX as usize {
                return Err(NoMemory);
            }
            Ok(())
        }
    }
}

/// Resolves a struct, without the clauses of its spec blocks.
pub fn own_struct(context: &ModuleContext<'_>, tree: &StructTree) -> Result<Declared, NameFault>
    ensures resolved { IfOk result (λ declared. (n : ℕ) → IsBareAs (StructOf (here_of context.now) n tree.now) declared) }
    ensures unknown { IfErr result (λ fault. IfUnknown fault (HasUnknownInStruct context.now.environment.now tree.now)) }
{
    few_parameters(&tree.parameters)?;
    let member = own_member(context, &tree.name.text)?;
    let resolved = resolve_struct(context.alloc, context.environment, tree)?;
    Ok(Declared {
        form: DeclaredForm::Struct(member.into_struct(), resolved),
    })
}

pub fn own_constant(context: &ModuleContext<'_>, tree: &ConstantTree) -> Result<Declared, NameFault>
    ensures resolved { IfOk result (IsBareAs (ConstantOf (here_of context.now) tree.now)) }
    ensures unknown { IfErr result (λ fault. IfUnknown fault (HasUnknownInConstant context.now.environment.now tree.now)) }
{
    let member = own_member(context, &tree.name.text)?;
    let resolved = resolve_constant(context.alloc, context.environment, tree)?;
    Ok(Declared {
        form: DeclaredForm::Constant(member.into_constant(), resolved),
    })
}

pub fn own_schema(context: &ModuleContext<'_>, tree: &SchemaTree) -> Result<Declared, NameFault>
    ensures resolved { IfOk result (IsBareAs (SchemaOf (here_of context.now) tree.now)) }
    ensures unknown { IfErr result (λ fault. IfUnknown fault (HasUnknownInSchema context.now.environment.now context.now.schemas.now tree.now)) }
{
    few_parameters(&tree.parameters)?;
    let member = own_member(context, &tree.name.text)?;
    let resolved = resolve_schema(context.alloc, context.environment, context.schemas, tree)?;
    Ok(Declared {
        form: DeclaredForm::Schema(member.into_schema(), resolved),
    })
}

pub fn own_spec_function(
    context: &ModuleContext<'_>,
    tree: &SpecFunctionTree,
) -> Result<Declared, NameFault>
    ensures resolved { IfOk result (IsBareAs (SpecFunctionOf (here_of context.now) tree.now)) }
    ensures unknown { IfErr result (λ fault. IfUnknown fault (HasUnknownInSpecFunction context.now.environment.now tree.now)) }
{
    few_parameters(&tree.parameters)?;
    let member = own_member(context, &tree.name.text)?;
    let resolved = resolve_spec_function(context.alloc, context.environment, tree)?;
    Ok(Declared {
        form: DeclaredForm::SpecFunction(member.into_function(), resolved),
    })
}
