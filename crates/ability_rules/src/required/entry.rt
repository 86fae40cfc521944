//! The abilities of the types in a pool. Each entry is judged once, from the judgments of its parts.

ghost use Rattle.std.specs.Prelude.{◌≡◌, ◌-◌, ◌≤◌, List, All, length, IfOk, slice_get, if◌then◌else◌};
ghost use Rattle.std.specs.Map.{lookup};
ghost use Rattle.base.specs.declared.types.StructId.{StructId};
ghost use Rattle.program.specs.declared.declaration.Struct.{Struct};
ghost use Rattle.program.specs.Same.{same_struct};
ghost use Rattle.program.specs.Sets.{both};
ghost use Rattle.program.specs.Types.{applied, declared_applied, is_phantom, of_reference, of_type, of_value};
ghost use Rattle.typing_rules.specs.Pools.{plain_type, types};
ghost use Rattle.typing_rules.specs.Required.{meets, meets_parameter, type_parameters_of};
ghost use Rattle.ability_rules.specs.Entries.{AreFrom, HasKnownParts, IsListed, TellsTypes, are_constrained_known, common_known, entry_abilities, entry_constrained, judged_at};

use base::memory::NoMemory;
use base::types::StructId;
use program::abilities::set::{all_abilities, both, no_abilities};
use program::declaration::{AbilitySet, Struct, TypeParameter};
use program::table::Table;
use std::alloc::Global;
use typing_rules::sort::Wrap;
use typing_rules::type_pool::{PlainType, PoolType, TypePool};

/// The judgment of a type: its abilities, and whether each type argument in it meets the constraint of its type
/// parameter.
#[derive(Clone, Copy, Debug, PartialEq, Eq)]
pub struct Judged {
    pub abilities: AbilitySet,
    pub is_constrained: bool,
}

/// The judgments of the entries of a pool, from the number `start` on.
#[derive(Drop)]
pub struct JudgedTypes {
    pub start: usize,
    pub judged: Vec<Judged>,
}

impl JudgedTypes {
    /// The judgment of the entry with this number.
    pub fn of(&self, number: usize) -> Judged
        requires { IsListed self.now number }
        ensures { result ≡ judged_at self.now number }
    {
        self.judged[number - self.start]
    }
}

pub(crate) fn of_value() -> AbilitySet
    ensures { result ≡ of_value }
{
    AbilitySet {
        has_copy: true,
        has_drop: true,
        has_store: true,
        has_key: false,
    }
}

pub(crate) fn of_reference() -> AbilitySet
    ensures { result ≡ of_reference }
{
    AbilitySet {
        has_copy: true,
        has_drop: true,
        ..no_abilities()
    }
}

fn of_plain(params: &[AbilitySet], plain: PlainType) -> AbilitySet
    ensures { (structs : List (StructId × Struct)) → result ≡ of_type structs params.now (plain_type plain) }
{
    match plain {
        PlainType::Signer => AbilitySet {
            has_drop: true,
            ..no_abilities()
        },
        PlainType::Param(number) => match params.get(number as usize) {
            Some(found) => *found,
            None => no_abilities(),
        },
        _ => of_value(),
    }
}

/// The abilities of a struct that declares these, where its arguments, phantom ones aside, have these in common.
pub(crate) fn applied(declared: AbilitySet, common: AbilitySet) -> AbilitySet
    ensures { result ≡ applied declared common }
{
    AbilitySet {
        has_copy: declared.has_copy && common.has_copy,
        has_drop: declared.has_drop && common.has_drop,
        has_store: declared.has_store && common.has_store,
        has_key: declared.has_key && common.has_store,
    }
}

pub(crate) fn is_phantom(parameters: &[TypeParameter], number: usize) -> bool
    ensures { result ≡ is_phantom (slice_get parameters.now number) }
{
    match parameters.get(number) {
        Some(found) => found.is_phantom,
        None => false,
    }
}

/// Decides whether each required ability is there.
pub(crate) fn meets(required: AbilitySet, having: AbilitySet) -> bool
    ensures { result ≡ meets required having }
{
    ((!required.has_copy || having.has_copy) && (!required.has_drop || having.has_drop))
        && ((!required.has_store || having.has_store) && (!required.has_key || having.has_key))
}

/// Decides whether the constraint of the type parameter with this number, if there is one, is met.
pub(crate) fn meets_parameter(
    parameters: &[TypeParameter],
    number: usize,
    having: AbilitySet,
) -> bool
    ensures { result ≡ meets_parameter (slice_get parameters.now number) having }
{
    match parameters.get(number) {
        Some(found) => meets(found.abilities, having),
        None => true,
    }
}

/// The abilities in common with these too, unless they are of a phantom argument.
fn taken(found: AbilitySet, more: AbilitySet, is_phantom: bool) -> AbilitySet
    ensures { result ≡ (if is_phantom then found else both found more) }
{
    if is_phantom { found } else { both(found, more) }
}

/// The abilities that the arguments for parameters that are not phantom have in common.
#[tactic(auto, using(crate::proofs::Common::both_joined, crate::proofs::Common::both_all, crate::proofs::Common::all_both))]
fn common(table: &JudgedTypes, parameters: &[TypeParameter], parts: &[usize]) -> AbilitySet
    requires { All (IsListed table.now) parts.now }
    ensures { result ≡ common_known (judged_at table.now) parameters.now 0 parts.now }
{
    let mut found = all_abilities();
    for (number, part) in parts.iter().enumerate() {
        let known = table.of(*part);
        found = taken(found, known.abilities, is_phantom(parameters, number));
    }
    found
}

/// Decides whether each argument meets the constraint of its parameter.
#[tactic(auto, using(crate::proofs::Common::and_joined, crate::proofs::Common::and_true))]
fn are_constrained(table: &JudgedTypes, parameters: &[TypeParameter], parts: &[usize]) -> bool
    requires { All (IsListed table.now) parts.now }
    ensures { result ≡ are_constrained_known (judged_at table.now) parameters.now 0 parts.now }
{
    let mut are = true;
    for (number, part) in parts.iter().enumerate() {
        let known = table.of(*part);
        are = are && (known.is_constrained && meets_parameter(parameters, number, known.abilities));
    }
    are
}

fn struct_abilities(
    structs: &Table<StructId, Struct>,
    table: &JudgedTypes,
    id: &StructId,
    parts: &[usize],
) -> AbilitySet
    requires { All (IsListed table.now) parts.now }
    ensures { result ≡ declared_applied (lookup (same_struct id.now) structs.now) (λ parameters. common_known (judged_at table.now) parameters 0 parts.now) }
{
    match structs.get(id) {
        Some(found) => {
            let parameters = found.type_parameters.as_slice();
            applied(found.abilities, common(table, parameters, parts))
        }
        None => no_abilities(),
    }
}

/// The type parameters of a struct; none where it is not declared.
pub(crate) fn struct_parameters<'a>(
    structs: &'a Table<StructId, Struct>,
    id: &StructId,
) -> &'a [TypeParameter]
    ensures { result.now ≡ type_parameters_of (lookup (same_struct id.now) structs.now) }
{
    match structs.get(id) {
        Some(found) => found.type_parameters.as_slice(),
        None => &[],
    }
}

fn entry_abilities(
    structs: &Table<StructId, Struct>,
    params: &[AbilitySet],
    table: &JudgedTypes,
    entry: &PoolType,
) -> AbilitySet
    requires { HasKnownParts table.now entry.now }
    ensures { result ≡ entry_abilities structs.now params.now (judged_at table.now) entry.now }
{
    match entry {
        PoolType::Plain(plain) => of_plain(params, *plain),
        PoolType::Made(Wrap::Vector, part) => both(of_value(), table.of(*part).abilities),
        PoolType::Made(_, _) => of_reference(),
        PoolType::Struct(id, parts) => struct_abilities(structs, table, id, parts.as_slice()),
        PoolType::Tuple(parts) => both(of_reference(), common(table, &[], parts.as_slice())),
    }
}

fn entry_constrained(
    structs: &Table<StructId, Struct>,
    table: &JudgedTypes,
    entry: &PoolType,
) -> bool
    requires { HasKnownParts table.now entry.now }
    ensures { result ≡ entry_constrained structs.now (judged_at table.now) entry.now }
{
    match entry {
        PoolType::Plain(_) => true,
        PoolType::Made(_, part) => table.of(*part).is_constrained,
        PoolType::Struct(id, parts) => {
            are_constrained(table, struct_parameters(structs, id), parts.as_slice())
        }
        PoolType::Tuple(parts) => are_constrained(table, &[], parts.as_slice()),
    }
}

/// Judges the types in the pool from the number `start` on, where type parameters have these abilities, by their
/// numbers. The time is linear in these entries and their parts.
pub fn judge_types(
    alloc: Global,
    structs: &Table<StructId, Struct>,
    params: &[AbilitySet],
    pool: &TypePool,
    start: usize,
) -> Result<JudgedTypes, NoMemory>
    requires within { start ≤ length pool.now }
    requires parts { AreFrom start pool.now }
    ensures start { IfOk result (λ table. table.start ≡ start) }
    ensures len { IfOk result (λ table. length table.judged.items ≡ length pool.now - start) }
    ensures known { IfOk result (λ table. TellsTypes structs.now params.now (types pool.now) table) }
{
    let mut table = JudgedTypes {
        start,
        judged: Vec::new(alloc),
    };
    for number in start..pool.len() {
        let entry = pool.entry(number);
        let judged = Judged {
            abilities: entry_abilities(structs, params, &table, entry),
            is_constrained: entry_constrained(structs, &table, entry),
        };
        table.judged.push(judged)?;
    }
    Ok(table)
}
