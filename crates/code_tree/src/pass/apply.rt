//! The result of a pass, made by one loop over the nodes.

ghost use Rattle.std.specs.Prelude.{◌≡◌, ◌+◌, ◌<◌, ◌≤◌, ◌∷◌, [], length, map, All, slice_index_or, IfOk, OnOk};
ghost use Rattle.std.specs.Vec.Iter.{into_iter_items};
ghost use Rattle.program.specs.Trees.{IsBelow, at, trees, tree_of, trees_of};
ghost use Rattle.code_tree.specs.Passes.{behind, behind_all, behind_none, applied, applied_many, applied_unary};
ghost use Rattle.code_tree.specs.Faults.{HasFaulted, OnLimit, OnOwnFault, OnPassLimit};
ghost use Rattle.code_tree.specs.Growing.{AreMade, CodeNodes, Grown, chain_nodes, many_nodes, nodes_made, nodes_of_node, unary_nodes, whole};
ghost use Rattle.code_tree.specs.declared.code.LoopHead.{LoopHead};

use crate::code::{At, Code, CodeMany, CodeNode, CodeUnary};
use crate::fault::{CodeFault, PassFault};
use crate::limit::add;
use crate::pass::{Lang, Pass};
use base::memory::NoMemory;
use base::span::Span;
use program::arena::Node;
use program::sequence::Sequence;
use std::alloc::Global;
use std::vec::IntoIter;

/// Adds an operation on the items of one part.
fn add_op<O: Drop, R: Drop>(
    alloc: Global,
    code: &mut Code<O, R>,
    point: u32,
    op: O,
    part: usize,
    span: Span,
) -> Result<usize, CodeFault>
    requires { part < length code.old.nodes }
    ensures within { OnOk result (length code.new.nodes ≤ 50000) }
    ensures grown { OnOk result (Grown 1 code.old.nodes code.new.nodes) }
    ensures place { IfOk result (λ index. index < length code.new.nodes) }
    ensures index { IfOk result (λ index. index ≡ length code.old.nodes) }
    ensures tree { IfOk result (λ index. at (trees code.new.nodes) index ≡ behind point (op ∷ []) (at (trees code.old.nodes) part)) }
    ensures limit { OnLimit result (λ n. (n ≡ 50001) × (50000 ≤ length code.old.nodes)) }
{
    let mut parts = Sequence::new(alloc);
    parts.push(part)?;
    add(
        code,
        Node::Many(CodeMany::Does(At { point, op }), parts),
        span,
    )
}

/// Adds operations, each on the items that the one before gives.
#[tactic(auto, using(crate::proofs::Added::behind_begins, crate::proofs::Added::behind_goes_on, crate::proofs::Added::behind_ends))]
fn add_behind<O: Drop, R: Drop>(
    alloc: Global,
    code: &mut Code<O, R>,
    point: u32,
    ops: IntoIter<O>,
    part: usize,
    span: Span,
) -> Result<usize, CodeFault>
    requires part { part < length code.old.nodes }
    requires within { length code.old.nodes ≤ 50000 }
    ensures within { OnOk result (length code.new.nodes ≤ 50000) }
    ensures grown { OnOk result (Grown (length (into_iter_items ops)) code.old.nodes code.new.nodes) }
    ensures place { IfOk result (λ index. index < length code.new.nodes) }
    ensures last { IfOk result (λ index. part + 1 ≡ length code.old.nodes → index + 1 ≡ length code.new.nodes) }
    ensures tree { IfOk result (λ index. at (trees code.new.nodes) index ≡ behind point (into_iter_items ops) (at (trees code.old.nodes) part)) }
    ensures limit { OnLimit result (λ n. (n ≡ 50001) × (50000 < length code.old.nodes + length (into_iter_items ops))) }
{
    let mut index = part;
    for op in ops {
        index = add_op(alloc, code, point, op, index, span)?;
    }
    Ok(index)
}

/// Adds what an operation without parts became.
#[tactic(auto, using(crate::proofs::Added::grown_then))]
fn add_leaf<O: Drop, R: Drop>(
    alloc: Global,
    code: &mut Code<O, R>,
    point: u32,
    ops: Vec<O>,
    span: Span,
) -> Result<usize, CodeFault>
    ensures within { OnOk result (length code.new.nodes ≤ 50000) }
    ensures grown { OnOk result (Grown (chain_nodes ops.items) code.old.nodes code.new.nodes) }
    ensures place { IfOk result (λ index. index < length code.new.nodes) }
    ensures last { IfOk result (λ index. index + 1 ≡ length code.new.nodes) }
    ensures tree { IfOk result (λ index. at (trees code.new.nodes) index ≡ behind_none point ops.items) }
    ensures limit { OnLimit result (λ n. (n ≡ 50001) × (50000 < length code.old.nodes + chain_nodes ops.items)) }
{
    let mut ops = ops.into_iter();
    match ops.next() {
        Some(op) => {
            let index = add(code, Node::Leaf(At { point, op }), span)?;
            add_behind(alloc, code, point, ops, index, span)
        }
        None => add(
            code,
            Node::Many(CodeMany::Joins, Sequence::new(alloc)),
            span,
        ),
    }
}

/// Adds what an operation on parts became.
#[tactic(auto, using(crate::proofs::Added::grown_then))]
fn add_many<O: Drop, R: Drop>(
    alloc: Global,
    code: &mut Code<O, R>,
    point: u32,
    ops: Vec<O>,
    parts: Sequence<usize>,
    span: Span,
) -> Result<usize, CodeFault>
    requires { All (λ part. part < length code.old.nodes) parts }
    ensures within { OnOk result (length code.new.nodes ≤ 50000) }
    ensures grown { OnOk result (Grown (chain_nodes ops.items) code.old.nodes code.new.nodes) }
    ensures place { IfOk result (λ index. index < length code.new.nodes) }
    ensures last { IfOk result (λ index. index + 1 ≡ length code.new.nodes) }
    ensures tree { IfOk result (λ index. at (trees code.new.nodes) index ≡ behind_all point ops.items (trees_of (map (at (trees code.old.nodes)) parts))) }
    ensures limit { OnLimit result (λ n. (n ≡ 50001) × (50000 < length code.old.nodes + chain_nodes ops.items)) }
{
    let mut ops = ops.into_iter();
    match ops.next() {
        Some(op) => {
            let index = add(
                code,
                Node::Many(CodeMany::Does(At { point, op }), parts),
                span,
            )?;
            add_behind(alloc, code, point, ops, index, span)
        }
        None => add(code, Node::Many(CodeMany::Joins, parts), span),
    }
}

/// Returns where the parts of a node are in the result.
fn parts_in(alloc: Global, places: &[usize], parts: &[usize]) -> Result<Sequence<usize>, NoMemory>
    requires { All (λ part. part < length places.now) parts.now }
    ensures { IfOk result (λ found. found ≡ map (λ part. slice_index_or places.now part 0) parts.now) }
{
    let mut found = Sequence::new(alloc);
    for part in parts {
        found.push(places[*part])?;
    }
    Ok(found)
}

/// The code that a pass reads.
type SourceNode<P> = CodeNode<<<P as Pass>::From as Lang>::Op, <<P as Pass>::From as Lang>::Read>;

/// The code that it makes.
type Made<P> = Code<<<P as Pass>::To as Lang>::Op, <<P as Pass>::To as Lang>::Read>;

/// Adds what an operation on parts became, or the same form round them.
fn many_code<P: Pass>(
    alloc: Global,
    pass: &mut P,
    many: &CodeMany<<P::From as Lang>::Op>,
    parts: Sequence<usize>,
    code: &mut Made<P>,
    span: Span,
) -> Result<usize, PassFault<P::Fault>>
    requires { All (λ part. part < length code.old.nodes) parts }
    ensures within { OnOk result (length code.new.nodes ≤ 50000) }
    ensures grown { OnOk result (Grown (many_nodes (P.makes pass.old) many.now) code.old.nodes code.new.nodes) }
    ensures place { IfOk result (λ index. index < length code.new.nodes) }
    ensures last { IfOk result (λ index. index + 1 ≡ length code.new.nodes) }
    ensures tree { IfOk result (λ index. at (trees code.new.nodes) index ≡ applied_many (P.makes pass.old) many.now (trees_of (map (at (trees code.old.nodes)) parts))) }
    ensures limit { OnPassLimit result (λ n. (n ≡ 50001) × (50000 < length code.old.nodes + many_nodes (P.makes pass.old) many.now)) }
    ensures own { OnOwnFault result (HasFaulted (P.gave pass.old) (P.gave pass.new)) }
    ensures same { P.makes pass.new ≡ P.makes pass.old }
    ensures never_falls { P.gave pass.old ≤ P.gave pass.new }
{
    match many {
        CodeMany::Joins => Ok(add(code, Node::Many(CodeMany::Joins, parts), span)?),
        CodeMany::Does(operation) => {
            let ops = pass.op(alloc, operation.point, &operation.op)?;
            Ok(add_many(alloc, code, operation.point, ops, parts, span)?)
        }
    }
}

/// Adds what stands behind a part where a point is passed, or the same form round it.
#[tactic(auto, using(crate::proofs::Added::grown_then))]
fn unary_code<P: Pass>(
    alloc: Global,
    pass: &mut P,
    unary: CodeUnary,
    part: usize,
    code: &mut Made<P>,
    span: Span,
) -> Result<usize, PassFault<P::Fault>>
    requires part { part < length code.old.nodes }
    requires within { length code.old.nodes ≤ 50000 }
    ensures within { OnOk result (length code.new.nodes ≤ 50000) }
    ensures grown { OnOk result (Grown (unary_nodes (P.makes pass.old) unary) code.old.nodes code.new.nodes) }
    ensures place { IfOk result (λ index. index < length code.new.nodes) }
    ensures last { IfOk result (λ index. index + 1 ≡ length code.new.nodes) }
    ensures tree { IfOk result (λ index. at (trees code.new.nodes) index ≡ applied_unary (P.makes pass.old) unary (at (trees code.old.nodes) part)) }
    ensures limit { OnPassLimit result (λ n. (n ≡ 50001) × (50000 < length code.old.nodes + unary_nodes (P.makes pass.old) unary)) }
    ensures own { OnOwnFault result (HasFaulted (P.gave pass.old) (P.gave pass.new)) }
    ensures same { P.makes pass.new ≡ P.makes pass.old }
    ensures never_falls { P.gave pass.old ≤ P.gave pass.new }
{
    match unary {
        CodeUnary::Passes(point, way) => {
            let ops = pass.way(alloc, point, way)?;
            let part = add_behind(alloc, code, point, ops.into_iter(), part, span)?;
            Ok(add(code, Node::Unary(CodeUnary::Passes(point, way), part), span)?)
        }
        CodeUnary::Leaves(jump) => Ok(add(code, Node::Unary(CodeUnary::Leaves(jump), part), span)?),
        CodeUnary::Catches(jump) => Ok(add(
            code,
            Node::Unary(CodeUnary::Catches(jump), part),
            span,
        )?),
    }
}

/// Adds what a node became whose parts have become code, each at its place.
fn node_code<P: Pass>(
    alloc: Global,
    pass: &mut P,
    node: &SourceNode<P>,
    span: Span,
    code: &mut Made<P>,
    places: &[usize],
) -> Result<usize, PassFault<P::Fault>>
    requires below { IsBelow (length places.now) node.now }
    requires places { All (λ place. place < length code.old.nodes) places.now }
    requires within { length code.old.nodes ≤ 50000 }
    ensures within { OnOk result (length code.new.nodes ≤ 50000) }
    ensures grown { OnOk result (Grown (nodes_of_node (P.makes pass.old) node.now) code.old.nodes code.new.nodes) }
    ensures place { IfOk result (λ index. index < length code.new.nodes) }
    ensures last { IfOk result (λ index. index + 1 ≡ length code.new.nodes) }
    ensures tree { IfOk result (λ index. (source : CodeNodes P.From.Op (LoopHead P.From.Read)) → AreMade (P.makes pass.old) source code.old.nodes places.now
        → at (trees code.new.nodes) index ≡ applied (P.makes pass.old) (tree_of (trees source) node.now)) }
    ensures limit { OnPassLimit result (λ n. (n ≡ 50001) × (50000 < length code.old.nodes + nodes_of_node (P.makes pass.old) node.now)) }
    ensures own { OnOwnFault result (HasFaulted (P.gave pass.old) (P.gave pass.new)) }
    ensures same { P.makes pass.new ≡ P.makes pass.old }
    ensures never_falls { P.gave pass.old ≤ P.gave pass.new }
{
    match node {
        Node::Leaf(operation) => {
            let ops = pass.op(alloc, operation.point, &operation.op)?;
            Ok(add_leaf(alloc, code, operation.point, ops, span)?)
        }
        Node::Unary(unary, a) => unary_code(alloc, pass, *unary, places[*a], code, span),
        Node::Binary(head, a, b) => {
            let head = pass.head(alloc, head)?;
            Ok(add(code, Node::Binary(head, places[*a], places[*b]), span)?)
        }
        Node::If(c, a, b) => Ok(add(code, Node::If(places[*c], places[*a], places[*b]), span)?),
        Node::Many(many, parts) => {
            let parts = parts_in(alloc, places, parts.as_slice())?;
            many_code(alloc, pass, many, parts, code, span)
        }
    }
}

/// Applies a pass to code. The result has at most `CODE_LIMIT` nodes.
pub fn apply<P: Pass>(
    alloc: Global,
    pass: &mut P,
    code: &Code<<P::From as Lang>::Op, <P::From as Lang>::Read>,
) -> Result<Made<P>, PassFault<P::Fault>>
    ensures tree { IfOk result (λ made. whole made.nodes ≡ applied (P.makes pass.old) (whole code.now.nodes)) }
    ensures nodes { IfOk result (λ made. length made.nodes ≡ nodes_made (P.makes pass.old) code.now.nodes) }
    ensures within { IfOk result (λ made. length made.nodes ≤ 50000) }
    ensures limit { OnPassLimit result (λ n. (n ≡ 50001) × (50000 < nodes_made (P.makes pass.old) code.now.nodes)) }
    ensures own { OnOwnFault result (HasFaulted (P.gave pass.old) (P.gave pass.new)) }
    ensures same { P.makes pass.new ≡ P.makes pass.old }
    ensures never_falls { P.gave pass.old ≤ P.gave pass.new }
{
    let mut made = Code::new(alloc);
    let mut places = Sequence::new(alloc);
    for index in 0..code.len() {
        let place = node_code(
            alloc,
            pass,
            code.node(index),
            code.span(index),
            &mut made,
            places.as_slice(),
        )?;
        places.push(place)?;
    }
    Ok(made)
}
