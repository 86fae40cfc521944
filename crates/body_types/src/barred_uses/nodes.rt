//! Decides whether visibility forbids the access at a node.

ghost use Rattle.std.specs.Prelude.{◌≡◌, ◌↔◌, ◌<◌, IsTrue, length};
ghost use Rattle.std.specs.Bool.{Decides};
ghost use Rattle.program.specs.Trees.{IsBelow};
ghost use Rattle.program.specs.Homes.{struct_home};
ghost use Rattle.unification.specs.Slots.{Meets};
ghost use Rattle.unification.specs.Numbers.{number_at};
ghost use Rattle.type_constraints.specs.Storage.{IsStorageCall, IsStorageNode};
ghost use Rattle.body_types.specs.Nodes.{CallBars, FieldBars, IsListed, NodeBars, StorageBars};

use crate::barred_uses::owners::owner_at;
use crate::barred_uses::storage::is_visible;
use base::types::StructId;
use program::arena::Node;
use program::code::{Callee, CodeBinary, CodeLeaf, CodeMany, CodeUnary};
use program::declaration::TypeParameter;
use program::home::Home;
use program::program::ModuleId;
use typing_rules::type_pool::TypePool;
use unification::type_variables::slots::Slot;

/// The module of a function, its type parameters, and what is known of the types of its type variables: the
/// representative of each, and the number of its type in the pool if all typings give it one.
#[derive(Clone, Copy)]
pub(crate) struct VariableFacts<'a> {
    pub own: &'a ModuleId,
    pub types: &'a [TypeParameter],
    pub slots: &'a [Slot<'a>],
    pub roots: &'a [usize],
    pub pool: &'a TypePool,
    pub numbers: &'a [Option<usize>],
}

/// Decides whether a struct is declared in this module.
fn is_of_module(own: &ModuleId, owner: &StructId) -> bool
    ensures { IsTrue result ↔ (struct_home owner.now ≡ own.now) }
{
    Home::of_struct(owner).is(own)
}

/// Decides whether the type of a variable is, or points at, a struct of another module.
fn field_bars<'a>(facts: VariableFacts<'a>, base: usize) -> bool
    requires known { IsListed facts.slots.now facts.roots.now facts.pool.now facts.numbers.now }
    requires within { base < length facts.slots.now }
    ensures { Decides result (FieldBars facts.entry.own.now (Meets facts.entry.slots.now) base) }
{
    match owner_at(facts.slots, facts.roots, base) {
        Some(owner) => !is_of_module(facts.own, owner),
        None => false,
    }
}

/// The number of the type of a type variable.
fn number_of(numbers: &[Option<usize>], variable: usize) -> Option<usize>
    requires { variable < length numbers.now }
    ensures { result ≡ number_at numbers.now variable }
{
    numbers[variable]
}

/// Decides whether the type of a variable is one at which the module may not use global storage.
fn storage_bars<'a>(facts: VariableFacts<'a>, first: usize) -> bool
    requires known { IsListed facts.slots.now facts.roots.now facts.pool.now facts.numbers.now }
    requires within { first < length facts.slots.now }
    ensures { Decides result (StorageBars facts.entry.own.now facts.entry.types.now (Meets facts.entry.slots.now) first) }
{
    match number_of(facts.numbers, first) {
        Some(number) => !is_visible(facts.own, facts.types, facts.pool.entry(number)),
        None => false,
    }
}

/// Decides whether visibility forbids a call whose type arguments are the type variables from `first` on.
fn call_bars<'a>(facts: VariableFacts<'a>, first: usize, callee: &Callee) -> bool
    requires known { IsListed facts.slots.now facts.roots.now facts.pool.now facts.numbers.now }
    requires within { IsStorageCall callee.now → first < length facts.slots.now }
    ensures { Decides result (CallBars facts.entry.own.now facts.entry.types.now (Meets facts.entry.slots.now) first callee.now) }
{
    match callee {
        Callee::Storage(_) => storage_bars(facts, first),
        _ => false,
    }
}

/// Decides whether visibility forbids the access at a node whose type arguments are the type variables from `first` on.
pub(crate) fn node_bars<'a>(
    facts: VariableFacts<'a>,
    variable: usize,
    first: usize,
    node: &Node<CodeLeaf, CodeUnary, CodeBinary, CodeMany>,
) -> bool
    requires known { IsListed facts.slots.now facts.roots.now facts.pool.now facts.numbers.now }
    requires variable { variable < length facts.slots.now }
    requires below { IsBelow variable node.now }
    requires within { IsStorageNode node.now → first < length facts.slots.now }
    ensures { Decides result (NodeBars facts.entry.own.now facts.entry.types.now (Meets facts.entry.slots.now) first node.now) }
{
    match node {
        Node::Unary(CodeUnary::Field(_), base) => field_bars(facts, *base),
        Node::Many(CodeMany::Call(call), _) => call_bars(facts, first, &call.get().callee),
        _ => false,
    }
}
