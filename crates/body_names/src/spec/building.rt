//! Spec expressions under construction.

ghost use Rattle.std.specs.Prelude.{◌≡◌, [], ◌∷◌, ◌++◌, length, IfOk, IfErr, OnOk};
ghost use Rattle.program.specs.Trees.{IsBelow, LeafTree};
ghost use Rattle.body_names.specs.SpecAdded.{Added, Stepped};

use base::name::Name;
use base::span::Span;
use program::arena::Node;
use program::sequence::Sequence;
use program::spec::{SpecBinary, SpecBody, SpecLeaf, SpecMany, SpecUnary};
use scopes::fault::NameFault;
use scopes::scope::{InScope, Scope};
use std::alloc::Global;

/// The spec expressions built so far.
#[derive(Drop)]
pub struct Building {
    pub body: SpecBody,
    /// The quantifier variables in scope.
    pub scope: Scope,
    /// The names of all quantifier variables so far, by number.
    pub variables: Sequence<Name>,
}

impl Building {
    /// Adds a node, whose children must be present.
    pub fn add(
        &mut self,
        node: Node<SpecLeaf, SpecUnary, SpecBinary, SpecMany>,
        span: Span,
    ) -> Result<usize, NameFault>
        requires { IsBelow (length self.old.body.nodes) node }
        ensures step { IfOk result (λ index. Stepped node span self.old self.new index) }
        ensures memory { IfErr result (λ fault. fault ≡ NameFault.NoMemory) }
    {
        let index = self.body.add(node, span)?;
        Ok(index)
    }

    /// Adds a node without children.
    pub fn leaf(&mut self, leaf: SpecLeaf, span: Span) -> Result<usize, NameFault>
        ensures added { IfOk result (λ index. Added (LeafTree leaf) (span ∷ []) [] self.old self.new index) }
        ensures scope { OnOk result (self.new.scope ≡ self.old.scope) }
        ensures memory { IfErr result (λ fault. fault ≡ NameFault.NoMemory) }
    {
        let index = self.add(Node::Leaf(leaf), span)?;
        Ok(index)
    }

    /// Adds a quantifier variable, which is not in scope yet. Returns its number.
    pub fn bind(&mut self, name: Name) -> Result<usize, NameFault>
        ensures number { IfOk result (λ number. number ≡ length self.old.variables) }
        ensures variables { OnOk result (self.new.variables ≡ self.old.variables ++ name ∷ []) }
        ensures body { self.new.body ≡ self.old.body }
        ensures scope { self.new.scope ≡ self.old.scope }
        ensures memory { IfErr result (λ fault. fault ≡ NameFault.NoMemory) }
    {
        let number = self.variables.as_slice().len();
        self.variables.push(name)?;
        Ok(number)
    }

    /// Brings a quantifier variable into scope.
    pub fn enter(&mut self, alloc: Global, name: &Name, number: usize) -> Result<(), NameFault>
        ensures scope { OnOk result (self.new.scope ≡ self.old.scope ++ record { name = name.now; number = number } ∷ []) }
        ensures body { self.new.body ≡ self.old.body }
        ensures variables { self.new.variables ≡ self.old.variables }
        ensures memory { IfErr result (λ fault. fault ≡ NameFault.NoMemory) }
    {
        self.scope.enter(InScope {
            name: name.try_clone(alloc)?,
            number,
        })?;
        Ok(())
    }
}
