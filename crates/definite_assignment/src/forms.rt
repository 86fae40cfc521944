//! The effects of each form of code, from those of its parts.

ghost use Rattle.std.specs.Prelude.{◌≡◌, ◌<◌, ℕ, All, List, [], ◌∷◌, length, map};
ghost use Rattle.program.specs.Trees.{IsBelow};
ghost use Rattle.typing_rules.specs.Flows.{Happens, Flow, Jump, Broken, quiet};
ghost use Rattle.typing_rules.specs.Flows.{Then, Either};
ghost use Rattle.typing_rules.specs.Pieces.{Piece, all_binds, binary_binds, binary_flow, copies, event_of_use, in_order, leaf_binds, leaf_flow, leaf_local, many_binds, many_flow, operator_flow, piece_at, piece_of, seen_flow, unary_binds, unary_flow, written_flow};
ghost use Rattle.definite_assignment.specs.Shown.{Means, Shows};
ghost use Rattle.definite_assignment.specs.Summaries.{AllStand, Stands};

use crate::effects::Effects;
use crate::sets::LocalSet;
use crate::shown::{
    aborted, bit_of, bound, broken, continued, declared, either, moved, overwritten, quiet,
    returned, scope, then, turns, used,
};
use crate::summary::{Summary, summary_at};
use program::arena::Node;
use program::code::{CodeBinary, CodeLeaf, CodeMany, CodeUnary, LocalUse};
use program::declaration::AbilitySet;
use program::operator::BinaryOperator;

/// Decides whether the type of a local has copy.
fn copies(types: &[AbilitySet], local: usize) -> bool
    ensures { result ≡ copies types.now local }
{
    match types.get(local) {
        Some(abilities) => abilities.has_copy,
        None => false,
    }
}

/// The effects of taking the value of a local.
fn use_effects(base: usize, types: &[AbilitySet], kind: LocalUse, local: usize) -> Effects
    ensures { Shows base result (Happens (event_of_use (copies types.now local) kind local ∷ [])) }
{
    match kind {
        LocalUse::Plain => {
            if copies(types, local) {
                used(base, local)
            } else {
                moved(base, local)
            }
        }
        LocalUse::Move => moved(base, local),
        LocalUse::Copy => used(base, local),
    }
}

fn leaf_effects(base: usize, types: &[AbilitySet], form: &CodeLeaf) -> Effects
    ensures { Shows base result (leaf_flow types.now form.now) }
{
    match form {
        CodeLeaf::Local(kind, local) => use_effects(base, types, *kind, *local),
        CodeLeaf::Return => returned(),
        CodeLeaf::Break => broken(),
        CodeLeaf::Continue => continued(),
        _ => quiet(),
    }
}

fn leaf_binds(base: usize, form: &CodeLeaf) -> LocalSet
    ensures { Means base result (leaf_binds form.now) }
{
    match form {
        CodeLeaf::Bind(local) => bit_of(base, *local),
        _ => LocalSet::none(),
    }
}

fn leaf_local(form: &CodeLeaf) -> Option<usize>
    ensures { result ≡ leaf_local form.now }
{
    match form {
        CodeLeaf::Local(LocalUse::Plain, local) => Some(*local),
        _ => None,
    }
}

/// The effects of the operand of a borrow or of a field access.
fn seen_effects(base: usize, part: &Summary) -> Effects
    ensures { (n : ℕ) (piece : Piece) → Stands base part.now piece → Shows base result (seen_flow n piece.flow piece.local) }
{
    match part.local {
        Some(local) => used(base, local),
        None => part.effects,
    }
}

/// The effects of the left side of an assignment.
fn written_effects(base: usize, part: &Summary) -> Effects
    ensures { (n : ℕ) (piece : Piece) → Stands base part.now piece → Shows base result (written_flow n piece.flow piece.local) }
{
    match part.local {
        Some(local) => overwritten(base, local),
        None => part.effects,
    }
}

fn unary_effects(base: usize, form: &CodeUnary, part: &Summary) -> Effects
    ensures { (n : ℕ) (piece : Piece) → Stands base part.now piece → Shows base result (unary_flow form.now n piece) }
{
    match form {
        CodeUnary::Field(_) => seen_effects(base, part),
        CodeUnary::Borrow => seen_effects(base, part),
        CodeUnary::BorrowMutable => seen_effects(base, part),
        CodeUnary::Return => then(&part.effects, &returned()),
        CodeUnary::Abort => then(&part.effects, &aborted()),
        CodeUnary::Loop => turns(&quiet(), &part.effects),
        CodeUnary::Declare(_) => declared(part.binds),
        _ => part.effects,
    }
}

fn unary_binds(form: &CodeUnary, part: &Summary) -> LocalSet
    ensures { (base : ℕ) (piece : Piece) → Stands base part.now piece → Means base result (unary_binds form.now piece) }
{
    match form {
        CodeUnary::Declare(_) => part.binds,
        _ => LocalSet::none(),
    }
}

fn operator_effects(operator: BinaryOperator, left: &Effects, right: &Effects) -> Effects
    ensures { (base : ℕ) (f g : Flow) → Shows base left.now f → Shows base right.now g → Shows base result (operator_flow operator f g) }
{
    match operator {
        BinaryOperator::And => then(left, &either(&quiet(), right)),
        BinaryOperator::Or => then(left, &either(&quiet(), right)),
        _ => then(left, right),
    }
}

fn binary_effects(base: usize, form: &CodeBinary, left: &Summary, right: &Summary) -> Effects
    ensures { (n : ℕ) (a b : Piece) → Stands base left.now a → Stands base right.now b → Shows base result (binary_flow form.now n a b) }
{
    match form {
        CodeBinary::Operator(operator) => operator_effects(
            *operator,
            &left.effects,
            &right.effects,
        ),
        CodeBinary::Assign => then(&right.effects, &written_effects(base, left)),
        CodeBinary::If => then(&left.effects, &either(&right.effects, &quiet())),
        CodeBinary::While => turns(&left.effects, &either(&broken(), &right.effects)),
        CodeBinary::Assert => then(
            &left.effects,
            &either(&quiet(), &then(&right.effects, &aborted())),
        ),
        CodeBinary::Let(_) => then(&right.effects, &bound(left.binds)),
    }
}

fn binary_binds(form: &CodeBinary, left: &Summary) -> LocalSet
    ensures { (base : ℕ) (a : Piece) → Stands base left.now a → Means base result (binary_binds form.now a) }
{
    match form {
        CodeBinary::Let(_) => left.binds,
        _ => LocalSet::none(),
    }
}

/// The effects of pieces, one after another.
fn in_order(summaries: &[Summary], parts: &[usize]) -> Effects
    requires { All (λ part. part < length summaries.now) parts.now }
    ensures { (base : ℕ) (done : List Piece) → AllStand base summaries.now done → Shows base result (in_order quiet (map (piece_at done) parts.now)) }
{
    let mut effects = quiet();
    for part in parts {
        effects = then(&effects, &summary_at(summaries, *part).effects);
    }
    effects
}

/// The locals that pieces bind.
fn all_binds(summaries: &[Summary], parts: &[usize]) -> LocalSet
    requires { All (λ part. part < length summaries.now) parts.now }
    ensures { (base : ℕ) (done : List Piece) → AllStand base summaries.now done → Means base result (all_binds (map (piece_at done) parts.now)) }
{
    let mut binds = LocalSet::none();
    for part in parts {
        binds = binds.union(summary_at(summaries, *part).binds);
    }
    binds
}

fn many_effects(form: &CodeMany, summaries: &[Summary], parts: &[usize]) -> Effects
    requires { All (λ part. part < length summaries.now) parts.now }
    ensures { (base : ℕ) (done : List Piece) → AllStand base summaries.now done → Shows base result (many_flow form.now (map (piece_at done) parts.now)) }
{
    match form {
        CodeMany::Block { .. } => scope(all_binds(summaries, parts), &in_order(summaries, parts)),
        CodeMany::Unpack(_) => quiet(),
        CodeMany::TuplePattern => quiet(),
        _ => in_order(summaries, parts),
    }
}

fn many_binds(form: &CodeMany, summaries: &[Summary], parts: &[usize]) -> LocalSet
    requires { All (λ part. part < length summaries.now) parts.now }
    ensures { (base : ℕ) (done : List Piece) → AllStand base summaries.now done → Means base result (many_binds form.now (map (piece_at done) parts.now)) }
{
    match form {
        CodeMany::Unpack(_) => all_binds(summaries, parts),
        CodeMany::TuplePattern => all_binds(summaries, parts),
        _ => LocalSet::none(),
    }
}

/// Returns the summary of a node, from those of the nodes before it.
pub fn node_summary(
    base: usize,
    types: &[AbilitySet],
    summaries: &[Summary],
    node: &Node<CodeLeaf, CodeUnary, CodeBinary, CodeMany>,
) -> Summary
    requires { IsBelow (length summaries.now) node.now }
    ensures { (done : List Piece) → AllStand base summaries.now done → Stands base result (piece_of types.now done node.now) }
{
    match node {
        Node::Leaf(form) => Summary {
            effects: leaf_effects(base, types, form),
            binds: leaf_binds(base, form),
            local: leaf_local(form),
        },
        Node::Unary(form, part) => {
            let part = summary_at(summaries, *part);
            Summary {
                effects: unary_effects(base, form, part),
                binds: unary_binds(form, part),
                local: None,
            }
        }
        Node::Binary(form, left, right) => {
            let left = summary_at(summaries, *left);
            let right = summary_at(summaries, *right);
            Summary {
                effects: binary_effects(base, form, left, right),
                binds: binary_binds(form, left),
                local: None,
            }
        }
        Node::If(condition, yes, no) => {
            let condition = summary_at(summaries, *condition);
            let yes = summary_at(summaries, *yes);
            let no = summary_at(summaries, *no);
            Summary {
                effects: then(&condition.effects, &either(&yes.effects, &no.effects)),
                binds: LocalSet::none(),
                local: None,
            }
        }
        Node::Many(form, parts) => Summary {
            effects: many_effects(form, summaries, parts.as_slice()),
            binds: many_binds(form, summaries, parts.as_slice()),
            local: None,
        },
    }
}
