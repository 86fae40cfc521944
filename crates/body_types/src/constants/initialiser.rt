//! Runs of initialisers.

ghost use Rattle.std.specs.Prelude.{◌≡◌, ◌<◌, ◌≤◌, ℕ, List, All, None, Some, length, IfOk, slice_index_or, Option};
ghost use Rattle.base.specs.TypeData.{TypeData};
ghost use Rattle.program.specs.declared.arena.Node.TheVariants.{Leaf, Unary};
ghost use Rattle.program.specs.Trees.{IsBelow};
ghost use Rattle.typing_rules.specs.ConstantRuns.{cast_to, node_value, run_of, typed_number};
ghost use Rattle.typing_rules.specs.Pools.{type_of};
ghost use Rattle.body_types.specs.KnownTypes.{TellsRuns, TypesNumbers, known_type};

use crate::constants::integer::kept;
use crate::constants::operator::{joined, negated};
use base::memory::NoMemory;
use base::types::{TypeNode, TypeTerm};
use program::arena::Node;
use program::code::{Body, CodeBinary, CodeLeaf, CodeMany, CodeUnary};
use std::alloc::Global;
use typing_rules::constant::ConstantValue;
use typing_rules::type_pool::{PlainType, PoolType, TypePool};

/// The value of a leaf with this type.
fn leaf_value(of: &PoolType, leaf: &CodeLeaf) -> Option<ConstantValue>
    ensures { (values : ℕ → Option ConstantValue) (ts : List TypeData) → result ≡ node_value values (type_of ts of.now) (Leaf leaf.now) }
{
    match leaf {
        CodeLeaf::Number(number) => number_value(of, number.value),
        CodeLeaf::Truth(value) => Some(ConstantValue::Boolean(*value)),
        CodeLeaf::Address(value) => Some(ConstantValue::Place(*value)),
        _ => None,
    }
}

/// The number as a value of this type.
fn number_value(of: &PoolType, value: u128) -> Option<ConstantValue>
    ensures { (ts : List TypeData) → result ≡ typed_number (type_of ts of.now) value }
{
    match of {
        PoolType::Plain(PlainType::Int(width)) => kept(*width, value),
        _ => None,
    }
}

fn cast_to(to: &TypeTerm, value: ConstantValue) -> Option<ConstantValue>
    ensures { result ≡ cast_to to.now value }
{
    let TypeNode::Int(width) = &to.node else {
        return None;
    };
    match value {
        ConstantValue::Integer(_, number) => kept(*width, number),
        _ => None,
    }
}

/// The value of a node with one part.
fn unary_value(form: &CodeUnary, part: Option<ConstantValue>) -> Option<ConstantValue>
    ensures { (values : ℕ → Option ConstantValue) (of : TypeData) (a : ℕ) → values a ≡ part → result ≡ node_value values of (Unary form.now a) }
{
    match form {
        CodeUnary::Not => negated(part?),
        CodeUnary::Cast(to) => cast_to(to.get(), part?),
        _ => None,
    }
}

/// The value of a node with this type, given the values of its parts.
fn node_value(
    values: &[Option<ConstantValue>],
    of: &PoolType,
    node: &Node<CodeLeaf, CodeUnary, CodeBinary, CodeMany>,
) -> Option<ConstantValue>
    requires { IsBelow (length values.now) node.now }
    ensures { (ts : List TypeData) → result ≡ node_value (λ n. slice_index_or values.now n None) (type_of ts of.now) node.now }
{
    match node {
        Node::Leaf(leaf) => leaf_value(of, leaf),
        Node::Unary(form, part) => unary_value(form, values[*part]),
        Node::Binary(CodeBinary::Operator(operator), left, right) => {
            joined(*operator, values[*left], values[*right])
        }
        _ => None,
    }
}

/// The result of running each node; none where the run aborts.
fn values_of(
    alloc: Global,
    body: &Body,
    types: &[usize],
    pool: &TypePool,
) -> Result<Vec<Option<ConstantValue>>, NoMemory>
    requires types { length body.now.nodes ≤ length types.now }
    requires known { All (λ n. n < length pool.now) types.now }
    ensures len { IfOk result (λ values. length values.items ≡ length body.now.nodes) }
    ensures values { IfOk result (λ values. TellsRuns values.items body.now.nodes (known_type pool.now types.now)) }
{
    let mut values = Vec::new(alloc);
    for index in 0..body.len() {
        let of = pool.entry(types[index]);
        let value = node_value(values.as_slice(), of, body.node(index));
        values.push(value)?;
    }
    Ok(values)
}

/// Returns the result of running the initialiser; none where the run aborts. The types of its nodes are given by their
/// numbers in the pool. The time is linear in the number of nodes.
pub fn run_of(
    alloc: Global,
    body: &Body,
    types: &[usize],
    pool: &TypePool,
) -> Result<Option<ConstantValue>, NoMemory>
    requires types { length body.now.nodes ≤ length types.now }
    requires known { All (λ n. n < length pool.now) types.now }
    ensures { IfOk result (λ value. (t : ℕ → TypeData) → TypesNumbers body.now.nodes (known_type pool.now types.now) t → value ≡ run_of body.now.nodes t) }
{
    let values = values_of(alloc, body, types, pool)?;
    match values.last() {
        Some(value) => Ok(*value),
        None => Ok(None),
    }
}
