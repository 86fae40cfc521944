//! The loops with spec blocks in code, with the names in scope before each.

ghost use Rattle.std.specs.Prelude.{◌≡◌, IfOk};
ghost use Rattle.body_names.specs.LoopScopes.{begins_with_spec};

use base::memory::NoMemory;
use program::sequence::Sequence;
use scopes::scope::InScope;
use std::alloc::Global;
use syntax_tree::expression::{Expression, ExpressionNode};

/// A loop with a spec block: the index of its node in the resolved body, and the names in scope before it, the
/// innermost last, with the numbers of the locals that they mean.
#[derive(Drop)]
pub struct LoopScope {
    pub at: usize,
    pub names: Sequence<InScope>,
}

/// Decides whether an expression is a block that begins with a spec block.
pub fn begins_with_spec(expression: &Expression) -> bool
    ensures { result ≡ begins_with_spec expression.now }
{
    match &expression.node {
        ExpressionNode::Block(block) => block.spec.is_some(),
        _ => false,
    }
}

/// Copies names in scope.
pub fn copy_scope(alloc: Global, scope: &[InScope]) -> Result<Sequence<InScope>, NoMemory>
    ensures { IfOk result (λ copy. copy ≡ scope.now) }
{
    let mut copy = Sequence::new(alloc);
    for one in scope {
        copy.push(InScope {
            name: one.name.try_clone(alloc)?,
            number: one.number,
        })?;
    }
    Ok(copy)
}
