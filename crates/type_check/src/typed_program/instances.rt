//! The type tables of the clauses of included schemas.

ghost use Rattle.std.specs.Prelude.{IfOk};
ghost use Rattle.type_check.specs.Included.{AreIncluded};
ghost use Rattle.type_check.specs.Answers.{IsDetermined};
ghost use Rattle.type_check.specs.TypedProgramInstances.{AreInstanceTables};

use crate::schemas::broken::JudgedInstances;
use crate::schemas::known::KnownInstances;
use crate::typed_program::TypeTable;
use crate::typed_program::clauses::judged_tables;
use base::memory::NoMemory;
use program::program::Program;
use program::sequence::Sequence;
use std::alloc::Global;

/// The included schemas, each once for each list of types substituted for its type parameters and each kind of block,
/// with their numbers: how many come before.
#[derive(Drop)]
pub struct InstanceTables {
    pub known: KnownInstances,
    /// For each of them, by its number, the tables of the clauses of its schema, in their order.
    pub clauses: Vec<Sequence<TypeTable>>,
}

/// The tables of included schemas, made from the judgments of their clauses.
pub(crate) fn instance_tables(
    alloc: Global,
    program: &Program,
    instances: JudgedInstances,
) -> Result<InstanceTables, NoMemory>
    requires included { AreIncluded program.now instances }
    requires determined { IsDetermined program.now }
    ensures { IfOk result (AreInstanceTables program.now) }
{
    let JudgedInstances { known, judged } = instances;
    let mut clauses = Vec::new(alloc);
    for one in judged {
        clauses.push(judged_tables(alloc, one)?)?;
    }
    Ok(InstanceTables { known, clauses })
}
