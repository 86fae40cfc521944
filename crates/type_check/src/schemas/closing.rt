//! The transitive closure of includes: all instances that some reach.

ghost use Rattle.std.specs.Prelude.{◌≡◌, ◌↔◌, ◌<◌, ◌≤◌, IfOk, IsTrue, OnOk, length};
ghost use Rattle.body_types.specs.Plain.{AreCodeTypes};
ghost use Rattle.type_check.specs.Judged.{instance_of};
ghost use Rattle.type_check.specs.Closing.{AreReached, AreShallow, Grows};
ghost use Rattle.type_check.specs.Closed.{InstanceSays, IsAny, IsClosedLevel, IsClosedNext, IsClosedTo, Links};
ghost use Rattle.type_check.specs.SchemasInstances.{OwnerOf};
ghost use Rattle.type_check.specs.Known.{IsKeyed, listed};

use crate::clauses::instance::Instance;
use crate::clauses::judged::JudgedClause;
use crate::clauses::owner::judge_owner;
use crate::schemas::known::{KnownInstances, put};
use base::marked_cycles::edge::MarkedEdge;
use base::memory::NoMemory;
use body_types::code::plain::CodeTypes;
use program::program::Program;
use std::alloc::Global;
use type_constraints::spec::setting::Owner;

/// The instances; for those that are done, the rules that they break, the edges to the instances that they include, by
/// their numbers, and the judgments of their clauses.
#[derive(Drop)]
pub(crate) struct Closure {
    pub known: KnownInstances,
    pub untyped: Vec<bool>,
    pub unsettled: Vec<bool>,
    pub edges: Vec<MarkedEdge>,
    pub judged: Vec<Vec<JudgedClause>>,
}

/// The judgment of each clause of an instance; none where its schema is not declared.
fn judge_instance<'a>(
    alloc: Global,
    types: &'a CodeTypes,
    program: &'a Program,
    instance: &'a Instance,
) -> Result<Vec<JudgedClause>, NoMemory>
    requires { AreCodeTypes types.now }
    ensures says { IfOk result (λ judged. InstanceSays program.now (instance_of instance.now) judged.items) }
    ensures owner { IfOk result (λ judged. OwnerOf program.now (instance_of instance.now) judged.items) }
{
    match program.schemas.get(&instance.schema) {
        None => Ok(Vec::new(alloc)),
        Some(schema) => {
            let owner = Owner::Schema(schema, &instance.types);
            let clauses = schema.clauses.as_slice();
            judge_owner(alloc, types, program, owner, instance.block, clauses)
        }
    }
}

/// Appends the instances that clauses include to the others, with an edge to each from the instance with this number.
fn link(
    alloc: Global,
    known: &mut KnownInstances,
    edges: &mut Vec<MarkedEdge>,
    number: usize,
    judged: &[JudgedClause],
) -> Result<(), NoMemory>
    requires { IsKeyed known.old }
    ensures keyed { OnOk result (IsKeyed known.new) }
    ensures links { OnOk result (Links (listed known.old) (listed known.new) edges.old.items edges.new.items number judged.now) }
{
    for one in judged {
        if let Some(instance) = &one.included {
            let to = put(alloc, known, instance)?;
            edges.push(MarkedEdge {
                from: number,
                to,
                is_marked: false,
            })?;
        }
    }
    Ok(())
}

fn is_any_untyped(judged: &[JudgedClause]) -> bool
    ensures { IsTrue result ↔ IsAny (λ one. IsTrue one.is_untyped) judged.now }
{
    for one in judged {
        if one.is_untyped {
            return true;
        }
    }
    false
}

fn is_any_unsettled(judged: &[JudgedClause]) -> bool
    ensures { IsTrue result ↔ IsAny (λ one. IsTrue one.is_unsettled) judged.now }
{
    for one in judged {
        if one.is_unsettled {
            return true;
        }
    }
    false
}

/// Adds the instance with this number, which is the first that is not done.
fn close_next<'a>(
    alloc: Global,
    types: &'a CodeTypes,
    program: &'a Program,
    closure: &mut Closure,
    number: usize,
) -> Result<(), NoMemory>
    requires types { AreCodeTypes types.now }
    requires closed { IsClosedTo program.now closure.old number }
    requires within { number < length (listed closure.old.known) }
    ensures { OnOk result (IsClosedNext program.now closure.old closure.new number) }
{
    let judged = match closure.known.entries.entry(number) {
        None => Vec::new(alloc),
        Some((_, instance)) => judge_instance(alloc, types, program, instance)?,
    };
    closure.untyped.push(is_any_untyped(&judged))?;
    closure.unsettled.push(is_any_unsettled(&judged))?;
    link(
        alloc,
        &mut closure.known,
        &mut closure.edges,
        number,
        &judged,
    )?;
    closure.judged.push(judged)?;
    Ok(())
}

/// Adds all instances from the first that is not done up to `end`, which may append others.
fn close_level<'a>(
    alloc: Global,
    types: &'a CodeTypes,
    program: &'a Program,
    closure: &mut Closure,
    first: usize,
    end: usize,
) -> Result<(), NoMemory>
    requires types { AreCodeTypes types.now }
    requires closed { IsClosedTo program.now closure.old first }
    requires order { first ≤ end }
    requires end { end ≡ length (listed closure.old.known) }
    ensures { OnOk result (IsClosedLevel program.now closure.old closure.new first end) }
{
    for number in first..end {
        close_next(alloc, types, program, closure, number)?;
    }
    Ok(())
}

/// Returns all instances that these reach. Chains of includes end, so that no other instance is appended after as many
/// levels as there are schemas.
pub(crate) fn close<'a>(
    alloc: Global,
    types: &'a CodeTypes,
    program: &'a Program,
    known: KnownInstances,
) -> Result<Closure, NoMemory>
    requires types { AreCodeTypes types.now }
    requires keyed { IsKeyed known }
    requires shallow { AreShallow program.now (length program.now.schemas) (listed known) 0 }
    ensures grows { IfOk result (λ closure. Grows (listed known) (listed closure.known)) }
    ensures reached { IfOk result (λ closure. AreReached program.now (listed known) (listed closure.known)) }
    ensures closed { IfOk result (λ closure. IsClosedTo program.now closure (length (listed closure.known))) }
{
    let mut closure = Closure {
        known,
        untyped: Vec::new(alloc),
        unsettled: Vec::new(alloc),
        edges: Vec::new(alloc),
        judged: Vec::new(alloc),
    };
    let mut done = 0;
    for _ in 0..program.schemas.len() {
        let end = closure.known.entries.len();
        close_level(alloc, types, program, &mut closure, done, end)?;
        done = end;
    }
    Ok(closure)
}
