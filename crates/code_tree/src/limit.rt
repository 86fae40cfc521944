//! The limit of the nodes of code.

ghost use Rattle.std.specs.Prelude.{◌≡◌, ◌+◌, ◌≤◌, ◌<◌, length, IfOk, OnOk, OnErr};
ghost use Rattle.program.specs.Trees.{IsBelow, at, tree_of, trees};
ghost use Rattle.code_tree.specs.Faults.{OnLimit};
ghost use Rattle.code_tree.specs.Growing.{Grown};

use crate::code::{Code, CodeNode};
use crate::fault::CodeFault;
use base::span::Span;

/// The greatest number of nodes that code may have.
pub const CODE_LIMIT: usize = 50_000;

/// Adds a node, whose parts are in the code.
#[tactic(auto, using(crate::proofs::Added::added, crate::proofs::Added::grown))]
pub fn add<O: Drop, R: Drop>(
    code: &mut Code<O, R>,
    node: CodeNode<O, R>,
    span: Span,
) -> Result<usize, CodeFault>
    requires { IsBelow (length code.old.nodes) node }
    ensures within { OnOk result (length code.new.nodes ≤ 50000) }
    ensures grown { OnOk result (Grown 1 code.old.nodes code.new.nodes) }
    ensures place { IfOk result (λ index. index < length code.new.nodes) }
    ensures tree { IfOk result (λ index. at (trees code.new.nodes) index ≡ tree_of (trees code.old.nodes) node) }
    ensures last { IfOk result (λ index. index + 1 ≡ length code.new.nodes) }
    ensures index { IfOk result (λ index. index ≡ length code.old.nodes) }
    ensures limit { OnLimit result (λ n. (n ≡ 50001) × (50000 ≤ length code.old.nodes)) }
    ensures err { OnErr result (code.new ≡ code.old) }
{
    if code.len() >= CODE_LIMIT {
        return Err(CodeFault::CodeLimit(50_001));
    }
    let index = code.add(node, span)?;
    Ok(index)
}
