//! The first spans of specifications that break a typing rule.

ghost use Rattle.std.specs.Prelude.{◌≡◌, ◌↔◌, IsTrue, IfOk, length, Some};
ghost use Rattle.std.specs.Map.{lookup};
ghost use Rattle.program.specs.declared.declaration.Schema.{Schema};
ghost use Rattle.program.specs.declared.program.SchemaId.{SchemaId};
ghost use Rattle.program.specs.Order.{IsFirstOrNone};
ghost use Rattle.program.specs.Same.{same_schema};
ghost use Rattle.body_types.specs.Plain.{AreCodeTypes};
ghost use Rattle.type_check.specs.declared.clauses.judged.ClauseRule.TheVariants.{Typing, Settling};
ghost use Rattle.type_check.specs.Including.{IsShallow};
ghost use Rattle.type_check.specs.Known.{IsKeyed, listed};
ghost use Rattle.type_check.specs.SpecFaults.{SpecBreaks};
ghost use Rattle.type_check.specs.Included.{AreIncluded};
ghost use Rattle.type_check.specs.Numbered.{AreNumbered, BreaksAmong, IsNumberOf, RootIsBroken};
ghost use Rattle.ability_rules.specs.KnownTypes.{AreKnown};

use crate::clauses::instance::Instance;
use crate::clauses::judged::JudgedClause;
use crate::schemas::broken::{BrokenInstances, JudgedInstances, broken_instances};
use crate::schemas::known::{KnownInstances, no_instances, put};
use crate::spec::functions::first_functions;
use crate::spec::roots::root_clauses;
use crate::spec::spans::span_if;
use ability_rules::polymorphic_recursion::known::VariableTypes;
use base::memory::NoMemory;
use base::span::Span;
use body_types::code::plain::CodeTypes;
use program::order::earlier;
use program::program::Program;
use std::alloc::Global;

/// The first spans where a specification breaks a rule: that of a spec block, also where a schema that it includes
/// breaks the rule, or of a spec function.
#[derive(Clone, Copy, Debug, PartialEq, Eq)]
pub struct SpecFaults {
    /// There is no typing, or a declared type is one that the declaration may not have.
    pub untyped: Option<Span>,
    /// There are typings, and a type is not determined.
    pub unsettled: Option<Span>,
}

/// The judgment of the specifications of a program.
#[derive(Drop)]
pub struct JudgedSpecifications {
    pub faults: SpecFaults,
    /// The included schemas, each once for each list of types and kind of block.
    pub instances: JudgedInstances,
}

/// The judgment of a clause of a declaration, with the number of the instance that it includes.
#[derive(Clone, Copy)]
pub(crate) struct RootClause {
    pub span: Span,
    pub is_untyped: bool,
    pub is_unsettled: bool,
    pub included: Option<usize>,
}

/// The judgments of clauses, with numbers of the instances that they include, and the instances with these numbers.
#[derive(Drop)]
struct NumberedRoots {
    roots: Vec<RootClause>,
    known: KnownInstances,
}

fn number_of(
    alloc: Global,
    known: &mut KnownInstances,
    included: &Option<Instance>,
) -> Result<Option<usize>, NoMemory>
    requires { IsKeyed known.old }
    ensures keyed { IfOk result (λ number. IsKeyed known.new) }
    ensures number { IfOk result (IsNumberOf (listed known.old) (listed known.new) included.now) }
{
    match included {
        None => Ok(None),
        Some(instance) => Ok(Some(put(alloc, known, instance)?)),
    }
}

/// Numbers the instances that clauses include.
fn number_roots(alloc: Global, judged: &[JudgedClause]) -> Result<NumberedRoots, NoMemory>
    ensures keyed { IfOk result (λ numbered. IsKeyed numbered.known) }
    ensures numbered { IfOk result (λ numbered. AreNumbered (listed numbered.known) judged.now numbered.roots.items (length judged.now)) }
{
    let mut known = no_instances(alloc);
    let mut roots = Vec::new(alloc);
    for one in judged {
        let included = number_of(alloc, &mut known, &one.included)?;
        roots.push(RootClause {
            span: one.span,
            is_untyped: one.is_untyped,
            is_unsettled: one.is_unsettled,
            included,
        })?;
    }
    Ok(NumberedRoots { roots, known })
}

/// Decides whether a clause breaks a rule itself, or includes an instance that reaches one that does.
fn is_broken(is_so: bool, included: Option<usize>, broken: &[bool]) -> bool
    ensures { IsTrue result ↔ RootIsBroken is_so included broken.now }
{
    match included {
        None => is_so,
        Some(number) => is_so || broken.get(number).copied().unwrap_or(false),
    }
}

/// The span of the first clause that has no typing, or reaches one that has none.
fn first_untyped(roots: &[RootClause], broken: &[bool]) -> Option<Span>
    ensures { IsFirstOrNone (BreaksAmong Typing broken.now roots.now) result }
{
    let mut first = None;
    for root in roots {
        let is_so = is_broken(root.is_untyped, root.included, broken);
        first = earlier(first, span_if(is_so, root.span));
    }
    first
}

/// The span of the first clause in which a type is not determined, or that reaches one.
fn first_unsettled(roots: &[RootClause], broken: &[bool]) -> Option<Span>
    ensures { IsFirstOrNone (BreaksAmong Settling broken.now roots.now) result }
{
    let mut first = None;
    for root in roots {
        let is_so = is_broken(root.is_unsettled, root.included, broken);
        first = earlier(first, span_if(is_so, root.span));
    }
    first
}

/// Finds the first spans of specifications that break a typing rule, and the schemas that are included. The types of
/// the type variables of each function are given in the order of the program. Includes of schemas must have no cycle.
pub fn judge_specifications<'a>(
    alloc: Global,
    types: &'a CodeTypes,
    program: &'a Program,
    given: &[VariableTypes<'_>],
) -> Result<JudgedSpecifications, NoMemory>
    requires types { AreCodeTypes types.now }
    requires given { AreKnown program.now given.now }
    requires shallow { (s : SchemaId) (d : Schema) → lookup (same_schema s) program.now.schemas ≡ Some d → IsShallow program.now (length program.now.schemas) s }
    ensures untyped { IfOk result (λ judged. IsFirstOrNone (SpecBreaks program.now Typing) judged.faults.untyped) }
    ensures unsettled { IfOk result (λ judged. IsFirstOrNone (SpecBreaks program.now Settling) judged.faults.unsettled) }
    ensures instances { IfOk result (λ judged. AreIncluded program.now judged.instances) }
{
    let judged = root_clauses(alloc, types, program, given)?;
    let NumberedRoots { roots, known } = number_roots(alloc, &judged)?;
    let broken = broken_instances(alloc, types, program, known)?;
    let functions = first_functions(alloc, types, program)?;
    let untyped = first_untyped(&roots, &broken.untyped);
    let unsettled = first_unsettled(&roots, &broken.unsettled);
    let BrokenInstances { instances, .. } = broken;
    Ok(JudgedSpecifications {
        faults: SpecFaults {
            untyped: earlier(untyped, functions.untyped),
            unsettled: earlier(unsettled, functions.unsettled),
        },
        instances,
    })
}
