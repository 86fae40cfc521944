//! Instances of schemas with their numbers.

ghost use Rattle.std.specs.Prelude.{◌≡◌, [], IfOk, length};
ghost use Rattle.std.specs.Option.{option_map};
ghost use Rattle.type_check.specs.Judged.{instance_of};
ghost use Rattle.type_check.specs.Known.{IsKeyed, IsPut, listed};

use crate::clauses::instance::Instance;
use base::memory::NoMemory;
use base::same::copy_type;
use base::types::TypeTerm;
use program::program::SchemaId;
use program::table::Table;
use std::alloc::Global;
use term_pool::interning::intern_types;
use term_pool::pool::Pool;
use type_constraints::clauses::block::Block;

/// The identity of an instance: its schema, the number of the list of its types, and the kind of its block.
#[derive(PartialEq, Eq, Hash, Drop)]
pub struct InstanceKey {
    pub schema: SchemaId,
    pub types: usize,
    pub block: Block,
}

/// Instances, each of which occurs once. The number of an instance is how many come before it.
#[derive(Drop)]
pub struct KnownInstances {
    pub pool: Pool,
    pub entries: Table<InstanceKey, Instance>,
}

/// Returns no instances.
pub fn no_instances(alloc: Global) -> KnownInstances
    ensures keyed { IsKeyed result }
    ensures none { listed result ≡ [] }
{
    KnownInstances {
        pool: Pool::new(alloc),
        entries: Table::new(alloc),
    }
}

fn copy_types(alloc: Global, types: &[TypeTerm]) -> Result<Vec<TypeTerm>, NoMemory>
    ensures { IfOk result (λ copy. copy.items ≡ types.now) }
{
    let mut copy = Vec::new(alloc);
    for of in types {
        copy.push(copy_type(alloc, of)?)?;
    }
    Ok(copy)
}

fn copy_instance(alloc: Global, instance: &Instance) -> Result<Instance, NoMemory>
    ensures { IfOk result (λ copy. instance_of copy ≡ instance_of instance.now) }
{
    Ok(Instance {
        schema: instance.schema.try_clone(alloc)?,
        types: copy_types(alloc, &instance.types)?,
        block: instance.block,
    })
}

/// Returns the number of an instance, which is appended if it is not among the others.
pub fn put(
    alloc: Global,
    known: &mut KnownInstances,
    instance: &Instance,
) -> Result<usize, NoMemory>
    requires { IsKeyed known.old }
    ensures keyed { IfOk result (λ number. IsKeyed known.new) }
    ensures put { IfOk result (IsPut (listed known.old) (listed known.new) (instance_of instance.now)) }
{
    let types = intern_types(&mut known.pool, &instance.types)?;
    let key = InstanceKey {
        schema: instance.schema.try_clone(alloc)?,
        types,
        block: instance.block,
    };
    match known.entries.number(&key) {
        Some(number) => Ok(number),
        None => {
            let number = known.entries.len();
            let copy = copy_instance(alloc, instance)?;
            known.entries.push(key, copy)?;
            Ok(number)
        }
    }
}
