//! The instances of schemas that reach one that breaks a rule.

ghost use Rattle.std.specs.Prelude.{IfOk, length};
ghost use Rattle.body_types.specs.Plain.{AreCodeTypes};
ghost use Rattle.type_check.specs.declared.clauses.judged.ClauseRule.TheVariants.{Typing, Settling};
ghost use Rattle.type_check.specs.Closing.{AreShallow, TellBroken};
ghost use Rattle.type_check.specs.SchemasInstances.{AreInstances};
ghost use Rattle.type_check.specs.Known.{IsKeyed, listed};

use crate::clauses::judged::JudgedClause;
use crate::schemas::closing::{Closure, close};
use crate::schemas::known::KnownInstances;
use crate::schemas::leading::leading_to;
use base::memory::NoMemory;
use body_types::code::plain::CodeTypes;
use program::program::Program;
use std::alloc::Global;

/// Instances of schemas, and for each, by its number, the judgments of its clauses, in their order.
#[derive(Drop)]
pub struct JudgedInstances {
    pub known: KnownInstances,
    pub judged: Vec<Vec<JudgedClause>>,
}

/// For each instance, by its number, whether it reaches, over any number of includes, one with a clause that has no
/// typing or includes a schema that is not proper; and the same for one with a clause in which a type is not
/// determined. Also all instances that they reach, after these ones.
#[derive(Drop)]
pub struct BrokenInstances {
    pub untyped: Vec<bool>,
    pub unsettled: Vec<bool>,
    pub instances: JudgedInstances,
}

/// Judges these instances and all that they reach. Each chain of includes from them must have fewer includes than there
/// are schemas.
pub fn broken_instances<'a>(
    alloc: Global,
    types: &'a CodeTypes,
    program: &'a Program,
    known: KnownInstances,
) -> Result<BrokenInstances, NoMemory>
    requires types { AreCodeTypes types.now }
    requires keyed { IsKeyed known }
    requires shallow { AreShallow program.now (length program.now.schemas) (listed known) 0 }
    ensures untyped { IfOk result (λ broken. TellBroken program.now Typing (listed known) broken.untyped.items) }
    ensures unsettled { IfOk result (λ broken. TellBroken program.now Settling (listed known) broken.unsettled.items) }
    ensures instances { IfOk result (λ broken. AreInstances program.now (listed known) broken.instances) }
{
    let closure = close(alloc, types, program, known)?;
    let untyped = leading_to(alloc, &closure.edges, &closure.untyped)?;
    let unsettled = leading_to(alloc, &closure.edges, &closure.unsettled)?;
    let Closure { known, judged, .. } = closure;
    Ok(BrokenInstances {
        untyped,
        unsettled,
        instances: JudgedInstances { known, judged },
    })
}
