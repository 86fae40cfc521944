//! Substitution of type arguments for type parameters in types of a pool.

ghost use Rattle.std.specs.Prelude.{◌≡◌, ◌<◌, [], None, length, slice_get, IfOk, MatchOption};
ghost use Rattle.term_pool.specs.Items.{leaf_item};
ghost use Rattle.term_pool.specs.Pools.{item_at, IsMade, Extends};
ghost use Rattle.term_pool.specs.declared.node.Node.TheVariants.{Leaf as LeafNode};
ghost use Rattle.axiom_instances.specs.Puts.{types_at, IsTypesNumber, IsNextType, IsArgument, is_fixed, HasNoPut, IsPutNumber};

use base::memory::NoMemory;
use term_pool::node::{Leaf, Node, Two};
use term_pool::pool::Pool;

// The first type of a list and the rest.
fn next_type(pool: &Pool, list: usize) -> Option<(usize, usize)>
    requires { IsTypesNumber pool.now list }
    ensures { MatchOption result (types_at pool.now list ≡ []) (IsNextType pool.now list) }
{
    match pool.node(list) {
        Some(Node::Two(Two::ConsType, first, rest)) => Some((first, rest)),
        _ => None,
    }
}

// The type at this index of a list.
fn argument(pool: &Pool, list: usize, number: u32) -> Option<usize>
    requires { IsTypesNumber pool.now list }
    ensures { MatchOption result (slice_get (types_at pool.now list) number ≡ None) (IsArgument pool.now (types_at pool.now list) number) }
{
    let mut rest = list;
    let mut before = number;
    while let Some((first, after)) = next_type(pool, rest) {
        if before == 0 {
            return Some(first);
        }
        before -= 1;
        rest = after;
    }
    None
}

// Decides whether a node without parts is a type other than a type parameter, or the empty list of types.
fn is_fixed(head: Leaf) -> bool
    ensures { result ≡ is_fixed head }
{
    match head {
        Leaf::TypeBool => true,
        Leaf::TypeInt(_) => true,
        Leaf::TypeNum => true,
        Leaf::TypeAddress => true,
        Leaf::TypeSigner => true,
        Leaf::NilTypes => true,
        _ => false,
    }
}

fn put_in_leaf(pool: &Pool, args: usize, from: usize, head: Leaf) -> Option<usize>
    requires args { IsTypesNumber pool.now args }
    requires made { IsMade pool.now from (LeafNode head) }
    ensures { MatchOption result (HasNoPut (types_at pool.now args) (leaf_item head)) (IsPutNumber pool.now (types_at pool.now args) (leaf_item head)) }
{
    match head {
        Leaf::TypeParam(number) => argument(pool, args, number),
        _ => { if is_fixed(head) { Some(from) } else { None } }
    }
}

/// Returns the number of a type, or of a list of types, with the types of a list substituted for its type parameters;
/// none if one of these has no type in the list. The recursion is as deep as the type.
pub fn put_arguments(pool: &mut Pool, args: usize, from: usize) -> Result<Option<usize>, NoMemory>
    requires args { IsTypesNumber pool.old args }
    requires from { from < length pool.old }
    ensures extends { Extends pool.old pool.new }
    ensures is { IfOk result (λ found. MatchOption found (HasNoPut (types_at pool.old args) (item_at pool.old from)) (IsPutNumber pool.new (types_at pool.old args) (item_at pool.old from))) }
{
    match pool.node(from) {
        Some(Node::Leaf(head)) => Ok(put_in_leaf(pool, args, from, head)),
        Some(Node::One(head, a)) => {
            let Some(one) = put_arguments(pool, args, a)? else {
                return Ok(None);
            };
            let made = pool.insert(Node::One(head, one))?;
            Ok(Some(made))
        }
        Some(Node::Two(head, a, b)) => {
            let Some(first) = put_arguments(pool, args, a)? else {
                return Ok(None);
            };
            let Some(second) = put_arguments(pool, args, b)? else {
                return Ok(None);
            };
            let made = pool.insert(Node::Two(head, first, second))?;
            Ok(Some(made))
        }
        Some(Node::Three(head, a, b, c)) => {
            let Some(third) = put_arguments(pool, args, c)? else {
                return Ok(None);
            };
            let made = pool.insert(Node::Three(head, a, b, third))?;
            Ok(Some(made))
        }
        None => Ok(None),
    }
}
