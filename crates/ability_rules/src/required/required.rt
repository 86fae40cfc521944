//! The abilities that nodes require.

ghost use Rattle.std.specs.Prelude.{◌≡◌, ◌<◌, ◌≤◌, ℕ, List, [], ◌∷◌, All, length};
ghost use Rattle.std.specs.List.{list_any};
ghost use Rattle.program.specs.Trees.{IsBelow};
ghost use Rattle.program.specs.declared.arena.Node.TheVariants.{Leaf, Unary, Binary};
ghost use Rattle.program.specs.declared.code.CodeLeaf.TheVariants.{Local};
ghost use Rattle.program.specs.declared.code.CodeUnary.TheVariants.{Field};
ghost use Rattle.program.specs.CodeNodes.{CodeNode};
ghost use Rattle.typing_rules.specs.Required.{Drop, assigned_asks, form_asks, read_asks, temporary_asks};
ghost use Rattle.ability_rules.specs.Entries.{IsListed};
ghost use Rattle.ability_rules.specs.Bodies.{TellsTaken, is_lacking, node_lacks, judged_variable};
ghost use Rattle.type_constraints.specs.Storage.{IsStorage, IsStorageNode};

use crate::required::body::{JudgedBody, lacks_copy, lacks_drop, lacks_key};
use crate::required::taken::{is_local, is_place};
use program::arena::Node;
use program::code::{Body, Callee, CodeBinary, CodeLeaf, CodeMany, CodeUnary, LocalUse};
use program::operator::BinaryOperator;

/// Decides whether a value is read from an lvalue and can't be copied.
fn read_lacks<'a>(judged: JudgedBody<'a>, nodes: &Body, taken: &[bool], index: usize) -> bool
    requires within { index < length judged.variables.now }
    requires known { All (IsListed judged.table.now) judged.variables.now }
    requires node { index < length nodes.now.nodes }
    requires taken { TellsTaken taken.now nodes.now.nodes }
    ensures { result ≡ list_any (is_lacking (judged_variable judged.entry.table.now judged.entry.variables.now)) (read_asks nodes.now.nodes index) }
{
    let lacks = lacks_copy(judged, index);
    !taken[index] & lacks
}

/// Decides whether what is put into a temporary can't be dropped.
fn temporary_lacks<'a>(judged: JudgedBody<'a>, nodes: &Body, index: usize) -> bool
    requires within { index < length judged.variables.now }
    requires known { All (IsListed judged.table.now) judged.variables.now }
    requires node { index < length nodes.now.nodes }
    ensures { result ≡ list_any (is_lacking (judged_variable judged.entry.table.now judged.entry.variables.now)) (temporary_asks nodes.now.nodes index) }
{
    let is_one = is_place(nodes.node(index));
    let lacks = lacks_drop(judged, index);
    !is_one & lacks
}

/// Decides whether an old value behind a reference, or in a field, can't be dropped.
fn assigned_lacks<'a>(judged: JudgedBody<'a>, nodes: &Body, index: usize) -> bool
    requires within { index < length judged.variables.now }
    requires known { All (IsListed judged.table.now) judged.variables.now }
    requires node { index < length nodes.now.nodes }
    ensures { result ≡ list_any (is_lacking (judged_variable judged.entry.table.now judged.entry.variables.now)) (assigned_asks nodes.now.nodes index) }
{
    let is_one = is_local(nodes.node(index));
    let lacks = lacks_drop(judged, index);
    !is_one & lacks
}

/// Decides whether a field is read and can't be copied, or is taken from a temporary that can't be dropped.
fn field_lacks<'a>(
    judged: JudgedBody<'a>,
    nodes: &Body,
    taken: &[bool],
    index: usize,
    part: usize,
) -> bool
    requires within { length nodes.now.nodes ≤ length judged.variables.now }
    requires known { All (IsListed judged.table.now) judged.variables.now }
    requires node { index < length nodes.now.nodes }
    requires part { part < index }
    requires taken { TellsTaken taken.now nodes.now.nodes }
    ensures { (first : ℕ) (name : List ℕ) → result ≡ node_lacks (judged_variable judged.entry.table.now judged.entry.variables.now) nodes.now.nodes index first (Unary (Field name) part) }
{
    let reads = read_lacks(judged, nodes, taken, index);
    let drops = temporary_lacks(judged, nodes, part);
    reads | drops
}

fn unary_lacks<'a>(
    judged: JudgedBody<'a>,
    nodes: &Body,
    taken: &[bool],
    index: usize,
    form: &CodeUnary,
    part: usize,
) -> bool
    requires within { length nodes.now.nodes ≤ length judged.variables.now }
    requires known { All (IsListed judged.table.now) judged.variables.now }
    requires node { index < length nodes.now.nodes }
    requires part { part < index }
    requires taken { TellsTaken taken.now nodes.now.nodes }
    ensures { (first : ℕ) → result ≡ node_lacks (judged_variable judged.entry.table.now judged.entry.variables.now) nodes.now.nodes index first (Unary form.now part) }
{
    match form {
        CodeUnary::Dereference => read_lacks(judged, nodes, taken, index),
        CodeUnary::Field(_) => field_lacks(judged, nodes, taken, index, part),
        CodeUnary::Borrow => temporary_lacks(judged, nodes, part),
        CodeUnary::BorrowMutable => temporary_lacks(judged, nodes, part),
        CodeUnary::Discard => lacks_drop(judged, part),
        _ => false,
    }
}

/// Decides whether one of the two sides of a comparison can't be dropped.
fn sides_lack<'a>(judged: JudgedBody<'a>, left: usize, right: usize) -> bool
    requires left { left < length judged.variables.now }
    requires right { right < length judged.variables.now }
    requires known { All (IsListed judged.table.now) judged.variables.now }
    ensures { result ≡ list_any (is_lacking (judged_variable judged.entry.table.now judged.entry.variables.now)) ((left, Drop) ∷ (right, Drop) ∷ []) }
{
    let first = lacks_drop(judged, left);
    let second = lacks_drop(judged, right);
    first | second
}

fn binary_lacks<'a>(
    judged: JudgedBody<'a>,
    nodes: &Body,
    form: &CodeBinary,
    left: usize,
    right: usize,
) -> bool
    requires within { length nodes.now.nodes ≤ length judged.variables.now }
    requires known { All (IsListed judged.table.now) judged.variables.now }
    requires left { left < length nodes.now.nodes }
    requires right { right < length nodes.now.nodes }
    ensures { (n first : ℕ) → result ≡ node_lacks (judged_variable judged.entry.table.now judged.entry.variables.now) nodes.now.nodes n first (Binary form.now left right) }
{
    match form {
        CodeBinary::Operator(BinaryOperator::Equal) => sides_lack(judged, left, right),
        CodeBinary::Operator(BinaryOperator::NotEqual) => sides_lack(judged, left, right),
        CodeBinary::Assign => assigned_lacks(judged, nodes, left),
        _ => false,
    }
}

/// Decides whether a local is copied whose type lacks copy.
fn use_lacks<'a>(judged: JudgedBody<'a>, variable: usize, way: LocalUse) -> bool
    requires within { variable < length judged.variables.now }
    requires known { All (IsListed judged.table.now) judged.variables.now }
    ensures { (nodes : List CodeNode) (first local : ℕ) → result ≡ node_lacks (judged_variable judged.entry.table.now judged.entry.variables.now) nodes variable first (Leaf (Local way local)) }
{
    match way {
        LocalUse::Copy => lacks_copy(judged, variable),
        _ => false,
    }
}

fn leaf_lacks<'a>(judged: JudgedBody<'a>, variable: usize, leaf: &CodeLeaf) -> bool
    requires within { variable < length judged.variables.now }
    requires known { All (IsListed judged.table.now) judged.variables.now }
    ensures { (nodes : List CodeNode) (first : ℕ) → result ≡ node_lacks (judged_variable judged.entry.table.now judged.entry.variables.now) nodes variable first (Leaf leaf.now) }
{
    match leaf {
        CodeLeaf::Local(way, _) => use_lacks(judged, variable, *way),
        CodeLeaf::Ignore => lacks_drop(judged, variable),
        _ => false,
    }
}

/// Decides whether the type argument of a storage operation lacks key.
fn many_lacks<'a>(judged: JudgedBody<'a>, first: usize, form: &CodeMany) -> bool
    requires within { IsStorage form.now → first < length judged.variables.now }
    requires known { All (IsListed judged.table.now) judged.variables.now }
    ensures { result ≡ list_any (is_lacking (judged_variable judged.entry.table.now judged.entry.variables.now)) (form_asks form.now first) }
{
    match form {
        CodeMany::Call(call) => match &call.get().callee {
            Callee::Storage(_) => lacks_key(judged, first),
            _ => false,
        },
        _ => false,
    }
}

/// Decides whether a node, whose type arguments are the type variables from `first` on, requires an ability that a type
/// lacks.
pub(crate) fn node_lacks<'a>(
    judged: JudgedBody<'a>,
    nodes: &Body,
    taken: &[bool],
    node: &Node<CodeLeaf, CodeUnary, CodeBinary, CodeMany>,
    variable: usize,
    first: usize,
) -> bool
    requires within { length nodes.now.nodes ≤ length judged.variables.now }
    requires known { All (IsListed judged.table.now) judged.variables.now }
    requires node { variable < length nodes.now.nodes }
    requires below { IsBelow variable node.now }
    requires first { IsStorageNode node.now → first < length judged.variables.now }
    requires taken { TellsTaken taken.now nodes.now.nodes }
    ensures { result ≡ node_lacks (judged_variable judged.entry.table.now judged.entry.variables.now) nodes.now.nodes variable first node.now }
{
    match node {
        Node::Leaf(leaf) => leaf_lacks(judged, variable, leaf),
        Node::Unary(form, part) => unary_lacks(judged, nodes, taken, variable, form, *part),
        Node::Binary(form, left, right) => binary_lacks(judged, nodes, form, *left, *right),
        Node::Many(form, _) => many_lacks(judged, first, form),
        Node::If(_, _, _) => false,
    }
}
