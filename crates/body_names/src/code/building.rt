//! A body under construction.

ghost use Rattle.std.specs.Prelude.{◌≡◌, ◌+◌, ◌-◌, ◌^◌, ◌<◌, ◌≤◌, List, [], ◌∷◌, ◌++◌, length, take, drop, All, IfOk, IfErr, OnOk};
ghost use Rattle.program.specs.Trees.{IsBelow, LeafTree};
ghost use Rattle.body_names.specs.CodeAdded.{Added, IsParenthesized, Stepped};
ghost use Rattle.body_names.specs.CodeNames.{numbered};
ghost use Rattle.body_names.specs.LoopScopes.{begun, with_index};
ghost use Rattle.body_names.specs.declared.code.loops.LoopScope.{LoopScope};

use crate::code::loops::{LoopScope, copy_scope};
use base::memory::NoMemory;
use base::name::Name;
use base::span::Span;
use program::arena::Node;
use program::code::{Body, CodeBinary, CodeLeaf, CodeMany, CodeUnary};
use program::sequence::Sequence;
use scopes::fault::NameFault;
use scopes::scope::{InScope, Scope};
use std::alloc::Global;

/// The body built so far.
#[derive(Drop)]
pub struct Building {
    pub body: Body,
    /// The locals in scope.
    pub scope: Scope,
    /// The names of all locals so far, by number.
    pub locals: Sequence<Name>,
    /// The loops with spec blocks so far, in the order of the blocks that begin with them.
    pub loops: Vec<LoopScope>,
}

impl Building {
    /// Adds a node, whose children must be present.
    pub fn add(
        &mut self,
        node: Node<CodeLeaf, CodeUnary, CodeBinary, CodeMany>,
        span: Span,
    ) -> Result<usize, NameFault>
        requires { IsBelow (length self.old.body.nodes) node }
        ensures step { IfOk result (λ index. Stepped node span self.old self.new index) }
        ensures memory { IfErr result (λ fault. fault ≡ NameFault.NoMemory) }
    {
        let index = self.body.add(node, span)?;
        Ok(index)
    }

    /// Adds a node without children.
    pub fn leaf(&mut self, leaf: CodeLeaf, span: Span) -> Result<usize, NameFault>
        ensures added { IfOk result (λ index. Added (LeafTree leaf) (span ∷ []) [] [] self.old self.new index) }
        ensures scope { OnOk result (self.new.scope ≡ self.old.scope) }
        ensures memory { IfErr result (λ fault. fault ≡ NameFault.NoMemory) }
    {
        let index = self.add(Node::Leaf(leaf), span)?;
        Ok(index)
    }

    /// Adds a node for expressions or patterns in parentheses, after its children. One child in parentheses needs no
    /// node.
    pub fn parenthesized(
        &mut self,
        node: CodeMany,
        parts: Sequence<usize>,
        span: Span,
    ) -> Result<usize, NameFault>
        requires { All (λ x. x < length self.old.body.nodes) parts }
        ensures closed { IfOk result (λ index. IsParenthesized node parts span self.old self.new index) }
        ensures scope { OnOk result (self.new.scope ≡ self.old.scope) }
        ensures memory { IfErr result (λ fault. fault ≡ NameFault.NoMemory) }
    {
        if let [part] = parts.as_slice() {
            return Ok(*part);
        }
        let index = self.add(Node::Many(node, parts), span)?;
        Ok(index)
    }

    /// Adds a loop that begins here, whose index is not known yet. Returns its position among the loops.
    pub fn begin_loop(&mut self, alloc: Global) -> Result<usize, NameFault>
        ensures index { IfOk result (λ index. index ≡ length self.old.loops.items) }
        ensures loops { OnOk result (self.new.loops.items ≡ self.old.loops.items ++ begun self.old.scope ∷ []) }
        ensures body { OnOk result (self.new.body ≡ self.old.body) }
        ensures scope { OnOk result (self.new.scope ≡ self.old.scope) }
        ensures locals { OnOk result (self.new.locals ≡ self.old.locals) }
        ensures memory { IfErr result (λ fault. fault ≡ NameFault.NoMemory) }
    {
        let index = self.loops.len();
        let names = copy_scope(alloc, self.scope.as_slice())?;
        self.loops.push(LoopScope { at: 0, names })?;
        Ok(index)
    }

    /// Sets the index of a loop's node. There are as many spans as nodes.
    pub fn end_loop(&mut self, index: usize, at: usize)
        requires { index < length self.old.loops.items }
        ensures loops { (before : List LoopScope) (one : LoopScope) (behind : List LoopScope) → self.old.loops.items ≡ before ++ one ∷ behind → index ≡ length before → self.new.loops.items ≡ before ++ with_index at one ∷ behind }
        ensures body { self.new.body ≡ self.old.body }
        ensures scope { self.new.scope ≡ self.old.scope }
        ensures locals { self.new.locals ≡ self.old.locals }
        ensures spans { length self.old.body.spans ≡ length self.old.body.nodes }
    {
        self.body.has_spans();
        let one = &mut self.loops[index];
        one.at = at;
    }

    /// Brings locals into scope: those with the numbers from `from` up to, but not including, `until`.
    pub fn enter(&mut self, alloc: Global, from: usize, until: usize) -> Result<(), NameFault>
        requires order { from ≤ until }
        requires within { until ≤ length self.old.locals }
        ensures scope { OnOk result (self.new.scope ≡ self.old.scope ++ numbered from (take (until - from) (drop from self.old.locals))) }
        ensures body { self.new.body ≡ self.old.body }
        ensures locals { self.new.locals ≡ self.old.locals }
        ensures loops { self.new.loops.items ≡ self.old.loops.items }
        ensures memory { IfErr result (λ fault. fault ≡ NameFault.NoMemory) }
    {
        let names = &self.locals.as_slice()[from..until];
        enter_names(alloc, &mut self.scope, names, from)?;
        Ok(())
    }
}

/// Brings names into scope, with numbers from `first` on.
fn enter_names(
    alloc: Global,
    scope: &mut Scope,
    names: &[Name],
    first: usize,
) -> Result<(), NoMemory>
    requires { first + length names.now < 2 ^ 64 }
    ensures { OnOk result (scope.new ≡ scope.old ++ numbered first names.now) }
{
    for (index, name) in names.iter().enumerate() {
        scope.enter(InScope {
            name: name.try_clone(alloc)?,
            number: first + index,
        })?;
    }
    Ok(())
}
