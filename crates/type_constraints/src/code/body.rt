//! The constraints of bodies, node by node.

ghost use Rattle.std.specs.Prelude.{◌≡◌, ◌<◌, length, IfOk, Some, slice_get};
ghost use Rattle.typing_rules.specs.CodeConstraints.{constraints_at};
ghost use Rattle.program.specs.Trees.{IsBelow, trees};
ghost use Rattle.typing_rules.specs.Settings as S;
ghost use Rattle.program.specs.CodeNodes.{CodeNode};
ghost use Rattle.type_constraints.specs.Bodies.{AreTablesOf};
ghost use Rattle.type_constraints.specs.Seen.{seen_all};
ghost use Rattle.type_constraints.specs.CodeSettings.{is_broken, setting_of};
ghost use Rattle.type_constraints.specs.CodeKnown.{TellsBreaks};

use crate::code::breaks::breaks_of;
use crate::code::loops::loops_of;
use crate::code::node::add_node;
use crate::code::setting::{CodeSetting, Jumps};
use crate::constraint::Constraint;
use base::memory::NoMemory;
use program::arena::Node;
use program::code::{Body, CodeBinary, CodeLeaf, CodeMany, CodeUnary};
use std::alloc::Global;

/// The loops of a body, node by node: whether a `break` in the tree of each node belongs to a loop outside it, and
/// whether the node is in the body of a loop.
#[derive(Drop)]
pub struct LoopTables {
    breaks: Vec<bool>,
    loops: Vec<bool>,
}

/// Finds the loops of a body.
pub fn tables_of(alloc: Global, body: &Body) -> Result<LoopTables, NoMemory>
    ensures { IfOk result (AreTablesOf body.now.nodes) }
{
    let breaks = breaks_of(alloc, body)?;
    let loops = loops_of(alloc, body)?;
    Ok(LoopTables { breaks, loops })
}

/// Decides whether a `break` belongs to the node, if it is a `loop`.
fn is_broken(breaks: &[bool], node: &Node<CodeLeaf, CodeUnary, CodeBinary, CodeMany>) -> bool
    requires { IsBelow (length breaks.now) node.now }
    ensures { (s : S.CodeSetting) → TellsBreaks breaks.now (trees s.nodes) → result ≡ is_broken s node.now }
{
    match node {
        Node::Unary(CodeUnary::Loop, body) => breaks[*body],
        _ => false,
    }
}

/// Returns the constraints of the node with the number `index`, whose type arguments are the type variables from
/// `first` on.
pub fn node_constraints<'a>(
    alloc: Global,
    setting: CodeSetting<'a>,
    tables: &LoopTables,
    index: usize,
    first: usize,
) -> Result<Vec<Constraint<'a>>, NoMemory>
    requires within { index < length setting.body.now.nodes }
    requires tables { AreTablesOf setting.body.now.nodes tables.now }
    ensures { IfOk result (λ constraints. (node : CodeNode) → slice_get setting.entry.body.now.nodes index ≡ Some node → seen_all constraints.items ≡ constraints_at (setting_of setting.entry) index first node) }
{
    let node = setting.body.node(index);
    let jumps = Jumps {
        in_loop: tables.loops[index],
        breaks: is_broken(tables.breaks.as_slice(), node),
    };
    let mut constraints = Vec::new(alloc);
    add_node(&mut constraints, setting, index, first, jumps, node)?;
    Ok(constraints)
}
