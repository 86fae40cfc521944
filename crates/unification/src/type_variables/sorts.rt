//! Sorts of types.

ghost use Rattle.std.specs.Prelude.{◌≡◌, IsTrue};
ghost use Rattle.base.specs.TypeData.{TypeData, TypesData};
ghost use Rattle.unification.specs.Sorts.{is_of, is_integer, is_single, is_value};
ghost use Rattle.unification.specs.Slots.{Typing, value, wrapped, grouped, IsMade};

use crate::type_variables::slots::{Group, Sort, Term, Wrap};
use base::types::{TypeNode, TypeTerm};

/// Decides whether a type is of a sort.
pub fn type_is(of: &TypeTerm, sort: Sort) -> bool
    ensures { result ≡ is_of sort of.now }
{
    match sort {
        Sort::Any => true,
        Sort::Single => is_single(of),
        Sort::Value => is_value(of),
        Sort::Integer => is_integer(of),
    }
}

/// Decides whether a type is an integer type.
pub fn is_integer(of: &TypeTerm) -> bool
    ensures { result ≡ is_integer of.now }
{
    matches!(&of.node, TypeNode::Int(_))
}

fn is_single(of: &TypeTerm) -> bool
    ensures { result ≡ is_single of.now }
{
    !matches!(&of.node, TypeNode::Tuple(_))
}

fn is_value(of: &TypeTerm) -> bool
    ensures { result ≡ is_value of.now }
{
    !matches!(
        &of.node,
        TypeNode::Tuple(_) | TypeNode::Shared(_) | TypeNode::Mutable(_)
    )
}

fn wrap_is(wrap: Wrap, sort: Sort) -> bool
    ensures { (t : TypeData) → result ≡ is_of sort (wrapped wrap t) }
{
    match sort {
        Sort::Any | Sort::Single => true,
        Sort::Value => matches!(&wrap, Wrap::Vector),
        Sort::Integer => false,
    }
}

fn group_is<'a>(group: Group<'a>, sort: Sort) -> bool
    ensures { (ts : TypesData) → result ≡ is_of sort (grouped group.entry ts) }
{
    match group {
        Group::Struct(_) => !matches!(&sort, Sort::Integer),
        Group::Tuple => matches!(&sort, Sort::Any),
    }
}

/// Decides whether the type of a term that is no type variable is of a sort.
pub fn term_is<'a>(term: Term<'a>, sort: Sort) -> bool
    requires { IsMade term }
    ensures { (t : Typing) → result ≡ is_of sort (value t term.entry) }
{
    match term {
        Term::Variable(_) => false,
        Term::Closed(of) => type_is(of, sort),
        Term::Made(wrap, _) => wrap_is(wrap, sort),
        Term::Grouped(group, _, _) => group_is(group, sort),
    }
}

/// The sort of the types that are of both sorts.
pub fn both(a: Sort, b: Sort) -> Sort
    ensures both { (t : TypeData) → IsTrue (is_of result t) → IsTrue (is_of a t) × IsTrue (is_of b t) }
    ensures only { (t : TypeData) → IsTrue (is_of a t) → IsTrue (is_of b t) → IsTrue (is_of result t) }
{
    match (a, b) {
        (Sort::Any, _) => b,
        (_, Sort::Any) => a,
        (Sort::Single, _) => b,
        (_, Sort::Single) => a,
        (Sort::Value, _) => b,
        (_, Sort::Value) => a,
        (Sort::Integer, Sort::Integer) => a,
    }
}
