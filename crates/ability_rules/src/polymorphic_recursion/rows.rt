//! The numbering of the vertices of each function.

ghost use Rattle.std.specs.Prelude.{◌≡◌, length, IfOk};
ghost use Rattle.ability_rules.specs.Rows.{AreRows, ParameterCount, row_end};

use crate::polymorphic_recursion::known::VariableTypes;
use base::memory::NoMemory;
use program::program::Program;
use std::alloc::Global;
use type_constraints::numbers::sum;

/// The number of a function's first type parameter, and how many it has. They are followed by the numbers of the types
/// in its pool.
#[derive(Clone, Copy, Debug, PartialEq, Eq)]
pub(crate) struct Row {
    pub(crate) first: usize,
    pub(crate) parameters: usize,
}

/// A program, what is known of each of its functions, where the numbers of each begin, and how many numbers there are.
#[derive(Clone, Copy)]
pub(crate) struct Numbering<'a> {
    pub(crate) program: &'a Program,
    pub(crate) known: &'a [VariableTypes<'a>],
    pub(crate) rows: &'a [Row],
    pub(crate) count: usize,
}

/// The number of type parameters of the function with this number.
fn parameter_count(program: &Program, number: usize) -> usize
    ensures { ParameterCount program.now number result }
{
    match program.functions.entry(number) {
        Some((_, function)) => function.type_parameters.as_slice().len(),
        None => 0,
    }
}

/// The number after all of a function's. `NoMemory` where it exceeds `usize`, as only with more types than any memory
/// holds.
fn row_end(row: Row, known: VariableTypes<'_>) -> Result<usize, NoMemory>
    ensures { IfOk result (λ count. count ≡ row_end row known.entry) }
{
    sum(sum(row.first, row.parameters)?, known.pool.len())
}

/// Returns where the numbers of each function begin, and how many there are.
pub(crate) fn rows_of(
    alloc: Global,
    program: &Program,
    known: &[VariableTypes<'_>],
) -> Result<(Vec<Row>, usize), NoMemory>
    ensures { IfOk result (λ made. AreRows program.now known.now made.0.items (length known.now) made.1) }
{
    let mut rows = Vec::new(alloc);
    let mut count = 0;
    for number in 0..known.len() {
        let row = Row {
            first: count,
            parameters: parameter_count(program, number),
        };
        count = row_end(row, known[number])?;
        rows.push(row)?;
    }
    Ok((rows, count))
}
