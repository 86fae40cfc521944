//! The states of locals in which the parts of a node are entered.

ghost use Rattle.std.specs.Prelude.{◌≡◌, ◌+◌, ◌<◌, ℕ, Bool, All, List, [], ◌∷◌, length};
ghost use Rattle.program.specs.Trees.{IsBelow};
ghost use Rattle.typing_rules.specs.Flows.{Broken, Either, Flow, Jump, Onward};
ghost use Rattle.typing_rules.specs.Pieces.{Piece, piece_at};
ghost use Rattle.definite_assignment.specs.LocalEffects.{at_some};
ghost use Rattle.definite_assignment.specs.Shown.{Shows};
ghost use Rattle.definite_assignment.specs.Summaries.{AllStand};
ghost use Rattle.definite_assignment.specs.Views.{is_in, may, outcome_of};
ghost use Rattle.definite_assignment.specs.Entries.{at_turns, behind, binary_entries, branch_entries, entries, in_order, many_entries, unary_entries};
ghost use Rattle.definite_assignment.specs.Tables.{Gains};

use crate::effects::{Effects, from_states, turn_starts};
use crate::outcome::Ends;
use crate::shown::{broken, either, quiet};
use crate::summary::{Summary, summary_at};
use program::arena::Node;
use program::code::{CodeBinary, CodeLeaf, CodeMany, CodeUnary};

/// Adds states in which a node is entered.
fn enter(table: &mut [Ends], node: usize, states: Ends)
    requires { node < length table.old }
    ensures { (i : ℕ) → Gains i (record { part = node; states = λ state. is_in states state i } ∷ []) table.old table.new }
{
    table[node] = table[node].union(states);
}

/// The states after code that is entered in these.
fn behind(states: Ends, code: &Effects) -> Ends
    ensures { (i : ℕ) (base : ℕ) (f : Flow) (state : Bool) → i < 64 → Shows base code.now f → is_in result state i ≡ behind (base + i) f (λ s. is_in states s i) state }
{
    from_states(states, code).onward
}

/// The states at the starts of the iterations of a loop that is entered in these, each iteration of which is one piece
/// of code and then a body.
fn at_turns(states: Ends, test: &Effects, body: &Effects) -> Ends
    ensures { (i : ℕ) (base : ℕ) (f g : Flow) (state : Bool) → i < 64 → Shows base test.now f → Shows base body.now g → is_in result state i ≡ at_turns (base + i) f g (λ s. is_in states s i) state }
{
    let (lacking, having) = turn_starts(test, body);
    lacking.of(states.lacking).union(having.of(states.having))
}

/// Enters parts one after another, the first one in these states.
fn enter_in_order(table: &mut [Ends], summaries: &[Summary], parts: &[usize], states: Ends)
    requires within { All (λ part. part < length summaries.now) parts.now }
    requires same { length table.old ≡ length summaries.now }
    ensures { (i : ℕ) (base : ℕ) (pieces : List Piece) → i < 64 → AllStand base summaries.now pieces → Gains i (in_order (base + i) pieces parts.now (λ s. is_in states s i)) table.old table.new }
{
    let mut now = states;
    for part in parts {
        enter(table, *part, now);
        now = behind(now, &summary_at(summaries, *part).effects);
    }
}

/// Enters the part of a node of this form.
fn enter_unary(
    table: &mut [Ends],
    summaries: &[Summary],
    form: &CodeUnary,
    part: usize,
    states: Ends,
)
    requires within { part < length summaries.now }
    requires same { length table.old ≡ length summaries.now }
    ensures { (i : ℕ) (base : ℕ) (pieces : List Piece) → i < 64 → AllStand base summaries.now pieces → Gains i (unary_entries (base + i) pieces form.now part (λ s. is_in states s i)) table.old table.new }
{
    match form {
        CodeUnary::Declare(_) => {}
        CodeUnary::Loop => {
            let turns = at_turns(states, &quiet(), &summary_at(summaries, part).effects);
            enter_in_order(table, summaries, &[part], turns);
        }
        _ => enter_in_order(table, summaries, &[part], states),
    }
}

/// The states at the starts of the iterations of a `while` that is entered in these.
fn at_while(summaries: &[Summary], test: usize, body: usize, states: Ends) -> Ends
    requires { (test < length summaries.now) × (body < length summaries.now) }
    ensures { (i : ℕ) (base : ℕ) (pieces : List Piece) (state : Bool) → i < 64 → AllStand base summaries.now pieces → is_in result state i ≡ at_turns (base + i) (piece_at pieces test).flow (Either (Jump Broken) (piece_at pieces body).flow) (λ s. is_in states s i) state }
{
    let test = &summary_at(summaries, test).effects;
    let body = either(&broken(), &summary_at(summaries, body).effects);
    at_turns(states, test, &body)
}

/// Enters the parts of a node of this form.
fn enter_binary(
    table: &mut [Ends],
    summaries: &[Summary],
    form: &CodeBinary,
    left: usize,
    right: usize,
    states: Ends,
)
    requires within { (left < length summaries.now) × (right < length summaries.now) }
    requires same { length table.old ≡ length summaries.now }
    ensures { (i : ℕ) (base : ℕ) (pieces : List Piece) → i < 64 → AllStand base summaries.now pieces → Gains i (binary_entries (base + i) pieces form.now left right (λ s. is_in states s i)) table.old table.new }
{
    match form {
        CodeBinary::Assign => enter_in_order(table, summaries, &[right, left], states),
        CodeBinary::Let(_) => enter_in_order(table, summaries, &[right], states),
        CodeBinary::While => {
            let turns = at_while(summaries, left, right, states);
            enter_in_order(table, summaries, &[left, right], turns);
        }
        _ => enter_in_order(table, summaries, &[left, right], states),
    }
}

/// Enters a condition and its branches.
fn enter_branches(
    table: &mut [Ends],
    summaries: &[Summary],
    condition: usize,
    yes: usize,
    no: usize,
    states: Ends,
)
    requires within { (condition < length summaries.now) × (yes < length summaries.now) × (no < length summaries.now) }
    requires same { length table.old ≡ length summaries.now }
    ensures { (i : ℕ) (base : ℕ) (pieces : List Piece) → i < 64 → AllStand base summaries.now pieces → Gains i (branch_entries (base + i) pieces condition yes no (λ s. is_in states s i)) table.old table.new }
{
    let behind = behind(states, &summary_at(summaries, condition).effects);
    enter(table, condition, states);
    enter(table, yes, behind);
    enter(table, no, behind);
}

/// Enters the parts of a node of this form. Patterns are bound, not entered.
fn enter_many(
    table: &mut [Ends],
    summaries: &[Summary],
    form: &CodeMany,
    parts: &[usize],
    states: Ends,
)
    requires within { All (λ part. part < length summaries.now) parts.now }
    requires same { length table.old ≡ length summaries.now }
    ensures { (i : ℕ) (base : ℕ) (pieces : List Piece) → i < 64 → AllStand base summaries.now pieces → Gains i (many_entries (base + i) pieces form.now parts.now (λ s. is_in states s i)) table.old table.new }
{
    match form {
        CodeMany::Unpack(_) => {}
        CodeMany::TuplePattern => {}
        _ => enter_in_order(table, summaries, parts, states),
    }
}

/// Enters the parts of a node that is entered in these states.
pub fn enter_parts(
    table: &mut [Ends],
    summaries: &[Summary],
    node: &Node<CodeLeaf, CodeUnary, CodeBinary, CodeMany>,
    states: Ends,
)
    requires within { IsBelow (length summaries.now) node.now }
    requires same { length table.old ≡ length summaries.now }
    ensures { (i : ℕ) (base : ℕ) (pieces : List Piece) → i < 64 → AllStand base summaries.now pieces → Gains i (entries (base + i) pieces node.now (λ s. is_in states s i)) table.old table.new }
{
    match node {
        Node::Leaf(_) => {}
        Node::Unary(form, part) => enter_unary(table, summaries, form, *part, states),
        Node::Binary(form, left, right) => {
            enter_binary(table, summaries, form, *left, *right, states);
        }
        Node::If(condition, yes, no) => {
            enter_branches(table, summaries, *condition, *yes, *no, states);
        }
        Node::Many(form, parts) => enter_many(table, summaries, form, parts.as_slice(), states),
    }
}
