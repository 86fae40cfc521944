//! The functions with polymorphic recursion.

ghost use Rattle.std.specs.Prelude.{◌≡◌, ◌↔◌, ℕ, ◌≤◌, ◌+◌, ◌<◌, IsTrue, IfOk, length, slice_get, slice_index_or, Some, false};
ghost use Rattle.base.specs.declared.types.FunctionId.{FunctionId as FunctionIdData};
ghost use Rattle.program.specs.declared.declaration.Function.{Function as FunctionData};
ghost use Rattle.typing_rules.specs.Calls.{IsWrapping};
ghost use Rattle.ability_rules.specs.Rows.{FoundAt, IsNumbering};
ghost use Rattle.ability_rules.specs.KnownTypes.{AreKnown};

use crate::polymorphic_recursion::edges::edges_of;
use crate::polymorphic_recursion::known::VariableTypes;
use crate::polymorphic_recursion::rows::{Numbering, Row, rows_of};
use base::marked_cycles::on_cycle::on_marked_cycle;
use base::memory::NoMemory;
use program::program::Program;
use std::alloc::Global;

/// Decides whether a type parameter of a function was found.
fn is_any_found(row: Row, found: &[bool]) -> bool
    requires { row.first + row.parameters ≤ length found.now }
    ensures { IsTrue result ↔ ((k : ℕ) × ((k < row.parameters) × IsTrue (slice_index_or found.now (row.first + k) false))) }
{
    for number in 0..row.parameters {
        if found[row.first + number] {
            return true;
        }
    }
    false
}

/// Decides whether a type parameter of the function with this number was found.
fn is_found_at(all: Numbering<'_>, number: usize, found: &[bool]) -> bool
    requires all { IsNumbering all }
    requires found { length found.now ≡ all.count }
    ensures { FoundAt all.entry found.now number result }
{
    if let Some((id, _)) = all.program.functions.entry(number) {
        if let Some(first) = all.program.functions.number(id) {
            if let Some(row) = all.rows.get(first) {
                return is_any_found(*row, found);
            }
        }
    }
    false
}

/// Returns for each function whether a type parameter of it was found.
fn found_functions(alloc: Global, all: Numbering<'_>, found: &[bool]) -> Result<Vec<bool>, NoMemory>
    requires all { IsNumbering all }
    requires found { length found.now ≡ all.count }
    ensures len { IfOk result (λ known. length known.items ≡ length all.entry.known.now) }
    ensures found { IfOk result (λ known. (n : ℕ) → n < length known.items → FoundAt all.entry found.now n (slice_index_or known.items n false)) }
{
    let mut known = Vec::new(alloc);
    for number in 0..all.known.len() {
        known.push(is_found_at(all, number, found))?;
    }
    Ok(known)
}

/// Decides for each function of a program, in their order, whether it has polymorphic recursion: a type parameter of it
/// comes back to itself inside another type. The time is linear in the nodes, the types and their parts.
pub fn wrapping_functions(
    alloc: Global,
    program: &Program,
    known: &[VariableTypes<'_>],
) -> Result<Vec<bool>, NoMemory>
    requires { AreKnown program.now known.now }
    ensures len { IfOk result (λ found. length found.items ≡ length known.now) }
    ensures found { IfOk result (λ found. (n : ℕ) (id : FunctionIdData) (f : FunctionData) → slice_get program.now.functions n ≡ Some (id, f) → IsTrue (slice_index_or found.items n false) ↔ IsWrapping program.now id) }
{
    let (rows, count) = rows_of(alloc, program, known)?;
    let all = Numbering {
        program,
        known,
        rows: rows.as_slice(),
        count,
    };
    let edges = edges_of(alloc, all)?;
    let found = on_marked_cycle(alloc, count, &edges)?;
    found_functions(alloc, all, &found)
}
