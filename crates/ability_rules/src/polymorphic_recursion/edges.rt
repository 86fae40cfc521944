//! The edges of the graph of type parameters and types.

ghost use Rattle.std.specs.Prelude.{◌≡◌, ◌≤◌, ◌<◌, ◌+◌, ◌++◌, ℕ, All, length, slice_get, Some, IfOk, OnOk};
ghost use Rattle.typing_rules.specs.Settings.{arity_of, callee_signature, node_arity};
ghost use Rattle.typing_rules.specs.Pools.{IsBelow};
ghost use Rattle.ability_rules.specs.declared.polymorphic_recursion.known.VariableTypes.{VariableTypes as VariableTypesData};
ghost use Rattle.ability_rules.specs.Edges.{argument_edge, argument_edges, at_entry, at_function, at_node, callee_edges, edges_of, entry_edges, is_number, node_edges, of_option, part_edges, pieces, plain_edges, type_node};
ghost use Rattle.ability_rules.specs.Rows.{IsNumbering, PartsAreBelow, row_end};
ghost use Rattle.ability_rules.specs.KnownTypes.{IsListed};

use crate::polymorphic_recursion::known::VariableTypes;
use crate::polymorphic_recursion::rows::{Numbering, Row};
use base::marked_cycles::edge::MarkedEdge;
use base::memory::NoMemory;
use program::arena::Node;
use program::code::{Callee, CodeBinary, CodeLeaf, CodeMany, CodeUnary};
use program::declaration::Function;
use std::alloc::Global;
use type_constraints::code::arity::node_arity;
use typing_rules::type_pool::{PlainType, PoolType, TypePool};

/// Appends the edges from each part of a type to the type.
fn push_parts(
    row: Row,
    number: usize,
    parts: &[usize],
    count: usize,
    into: &mut Vec<MarkedEdge>,
) -> Result<(), NoMemory>
    requires parts { All (λ m. m < number) parts.now }
    requires within { type_node row number < count }
    ensures { OnOk result (into.new.items ≡ into.old.items ++ part_edges row number parts.now) }
{
    let types = row.first + row.parameters;
    for part in parts {
        into.push(MarkedEdge {
            from: types + *part,
            to: types + number,
            is_marked: true,
        })?;
    }
    Ok(())
}

/// Appends the edge from a type parameter to the type that is just that parameter.
fn push_plain(
    row: Row,
    number: usize,
    of: PlainType,
    count: usize,
    into: &mut Vec<MarkedEdge>,
) -> Result<(), NoMemory>
    requires within { type_node row number < count }
    ensures { OnOk result (into.new.items ≡ into.old.items ++ plain_edges row number of) }
{
    if let PlainType::Param(parameter) = of {
        let parameter = parameter as usize;
        if parameter < row.parameters {
            into.push(MarkedEdge {
                from: row.first + parameter,
                to: row.first + row.parameters + number,
                is_marked: false,
            })?;
        }
    }
    Ok(())
}

/// Appends the edges to a type in a pool.
fn push_entry(
    row: Row,
    number: usize,
    entry: &PoolType,
    count: usize,
    into: &mut Vec<MarkedEdge>,
) -> Result<(), NoMemory>
    requires below { IsBelow number entry.now }
    requires within { type_node row number < count }
    ensures { OnOk result (into.new.items ≡ into.old.items ++ entry_edges row number entry.now) }
{
    match entry {
        PoolType::Plain(of) => push_plain(row, number, *of, count, into),
        PoolType::Made(_, part) => push_parts(row, number, &[*part], count, into),
        PoolType::Struct(_, parts) => push_parts(row, number, parts.as_slice(), count, into),
        PoolType::Tuple(parts) => push_parts(row, number, parts.as_slice(), count, into),
    }
}

/// Appends the edges to each type in a pool.
fn push_entries(
    row: Row,
    pool: &TypePool,
    count: usize,
    into: &mut Vec<MarkedEdge>,
) -> Result<(), NoMemory>
    requires within { (row.first + row.parameters) + length pool.now ≤ count }
    ensures edges { OnOk result (into.new.items ≡ into.old.items ++ pieces (at_entry row pool.now) (length pool.now)) }
    ensures below { OnOk result (PartsAreBelow pool.now) }
{
    for number in 0..pool.len() {
        push_entry(row, number, pool.entry(number), count, into)?;
    }
    Ok(())
}

/// Appends the edge from a type argument, if its type is known, to the type parameter that it is for.
fn push_argument(
    row: Row,
    given: VariableTypes<'_>,
    variable: usize,
    count: usize,
    to: usize,
    into: &mut Vec<MarkedEdge>,
) -> Result<(), NoMemory>
    requires variable { variable < length given.types.now }
    requires known { (q n : ℕ) → slice_get given.types.now q ≡ Some (Some n) → n < length given.pool.now }
    requires within { row_end row given ≤ count }
    ensures { OnOk result (into.new.items ≡ into.old.items ++ of_option (argument_edge row to) (slice_get given.entry.types.now variable)) }
{
    if let Some(number) = given.types[variable] {
        into.push(MarkedEdge {
            from: row.first + row.parameters + number,
            to,
            is_marked: false,
        })?;
    }
    Ok(())
}

/// Appends the edges from the type arguments of a call, from this type variable on, to the type parameters of the
/// callee.
fn push_arguments(
    row: Row,
    given: VariableTypes<'_>,
    first: usize,
    count: usize,
    to: Row,
    into: &mut Vec<MarkedEdge>,
) -> Result<(), NoMemory>
    requires variables { first + to.parameters ≤ length given.types.now }
    requires known { (q n : ℕ) → slice_get given.types.now q ≡ Some (Some n) → n < length given.pool.now }
    requires within { row_end row given ≤ count }
    requires called { to.first + to.parameters ≤ count }
    ensures { OnOk result (into.new.items ≡ into.old.items ++ argument_edges row given.entry.types.now first to) }
{
    for number in 0..to.parameters {
        push_argument(row, given, first + number, count, to.first + number, into)?;
    }
    Ok(())
}

/// Appends the edges from the type arguments of a call.
fn push_callee(
    all: Numbering<'_>,
    row: Row,
    given: VariableTypes<'_>,
    first: usize,
    callee: &Callee,
    into: &mut Vec<MarkedEdge>,
) -> Result<(), NoMemory>
    requires all { IsNumbering all }
    requires variables { first + arity_of (callee_signature all.program.now callee.now) ≤ length given.types.now }
    requires known { (q n : ℕ) → slice_get given.types.now q ≡ Some (Some n) → n < length given.pool.now }
    requires within { row_end row given ≤ all.count }
    ensures { OnOk result (into.new.items ≡ into.old.items ++ callee_edges all.entry.program.now all.entry.rows.now row given.entry.types.now first callee.now) }
{
    if let Callee::Function(id) = callee {
        if let Some(number) = all.program.functions.number(id) {
            if let Some(to) = all.rows.get(number) {
                push_arguments(row, given, first, all.count, *to, into)?;
            }
        }
    }
    Ok(())
}

/// Appends the edges from the type arguments of a node.
fn push_node(
    all: Numbering<'_>,
    row: Row,
    given: VariableTypes<'_>,
    first: usize,
    node: &Node<CodeLeaf, CodeUnary, CodeBinary, CodeMany>,
    into: &mut Vec<MarkedEdge>,
) -> Result<(), NoMemory>
    requires all { IsNumbering all }
    requires variables { first + node_arity all.program.now node.now ≤ length given.types.now }
    requires known { (q n : ℕ) → slice_get given.types.now q ≡ Some (Some n) → n < length given.pool.now }
    requires within { row_end row given ≤ all.count }
    ensures { OnOk result (into.new.items ≡ into.old.items ++ node_edges all.entry.program.now all.entry.rows.now row given.entry.types.now first node.now) }
{
    match node {
        Node::Many(form, _) => match form {
            CodeMany::Call(call) => push_callee(all, row, given, first, &call.get().callee, into),
            _ => Ok(()),
        },
        _ => Ok(()),
    }
}

/// Appends the edges from the type arguments of the nodes of a function that are read.
fn push_nodes(
    all: Numbering<'_>,
    row: Row,
    known: VariableTypes<'_>,
    function: &Function,
    into: &mut Vec<MarkedEdge>,
) -> Result<(), NoMemory>
    requires all { IsNumbering all }
    requires known { IsListed all.program.now function.now known }
    requires within { row_end row known ≤ all.count }
    ensures { OnOk result (into.new.items ≡ into.old.items ++ pieces (at_node all.entry.program.now all.entry.rows.now row function.now known.entry) (length function.now.body.nodes)) }
{
    let mut first = function.body.len() + function.locals.as_slice().len();
    for number in 0..function.body.len() {
        let node = function.body.node(number);
        if number < known.read {
            push_node(all, row, known, first, node, into)?;
        }
        first = match first.checked_add(node_arity(all.program, node)) {
            Some(next) => next,
            None => return Err(NoMemory),
        };
    }
    Ok(())
}

/// Decides whether a number is the one that was found.
fn is_number(number: usize, found: Option<usize>) -> bool
    ensures { result ≡ is_number number found }
{
    match found {
        Some(found) => found == number,
        None => false,
    }
}

/// Appends the edges of the function with this number.
fn push_function(
    all: Numbering<'_>,
    number: usize,
    into: &mut Vec<MarkedEdge>,
) -> Result<(), NoMemory>
    requires all { IsNumbering all }
    requires number { number < length all.known.now }
    ensures edges { OnOk result (into.new.items ≡ into.old.items ++ at_function all.entry.program.now all.entry.rows.now all.entry.known.now number) }
    ensures below { OnOk result ((p : VariableTypesData) → slice_get all.entry.known.now number ≡ Some p → PartsAreBelow p.pool.now) }
{
    let row = all.rows[number];
    let known = all.known[number];
    push_entries(row, known.pool, all.count, into)?;
    if let Some((id, function)) = all.program.functions.entry(number) {
        if is_number(number, all.program.functions.number(id)) {
            push_nodes(all, row, known, function, into)?;
        }
    }
    Ok(())
}

/// Returns the edges of all functions.
pub(crate) fn edges_of(alloc: Global, all: Numbering<'_>) -> Result<Vec<MarkedEdge>, NoMemory>
    requires all { IsNumbering all }
    ensures edges { IfOk result (λ edges. edges.items ≡ edges_of all.entry.program.now all.entry.rows.now all.entry.known.now) }
    ensures below { IfOk result (λ edges. (k : ℕ) → (p : VariableTypesData) → slice_get all.entry.known.now k ≡ Some p → PartsAreBelow p.pool.now) }
{
    let mut edges = Vec::new(alloc);
    for number in 0..all.known.len() {
        push_function(all, number, &mut edges)?;
    }
    Ok(edges)
}
