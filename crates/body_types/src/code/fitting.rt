//! Decides whether number literals fit their types.

ghost use Rattle.std.specs.Prelude.{◌≡◌, ◌<◌, ◌≤◌, ◌-◌, min, length, MatchOption};
ghost use Rattle.std.specs.Bool.{Decides};
ghost use Rattle.base.specs.TypeData.{IntType};
ghost use Rattle.typing_rules.specs.Answers.{System};
ghost use Rattle.typing_rules.specs.Fitting.{Misfits, number_fits};
ghost use Rattle.unification.specs.Choices.{IsSound, HasDefaults};
ghost use Rattle.body_types.specs.Fitting.{IsNoNumber, IsNumber, NumberMisfits, MisfitAt};
ghost use Rattle.body_types.specs.Judged.{JudgedOf, ReadsNodes, ReadsSteps};

use crate::constants::integer::greatest;
use base::types::Width;
use program::arena::Node;
use program::code::{Body, CodeBinary, CodeLeaf, CodeMany, CodeUnary};
use unification::solution::choice::{Defaulted, integer_width};

/// What is known of the nodes of code that has typings.
#[derive(Clone, Copy, Debug, PartialEq, Eq)]
pub struct Judged {
    /// The number of nodes that are read, which are the first ones.
    pub read: usize,
    /// Whether a number literal at one of them is no value of its type.
    pub misfits: bool,
}

fn fits(value: u128, width: Width) -> bool
    ensures { result ≡ number_fits value (IntType width) }
{
    value <= greatest(width)
}

/// The number literal at a node.
pub(crate) fn written_number(node: &Node<CodeLeaf, CodeUnary, CodeBinary, CodeMany>) -> Option<u128>
    ensures { MatchOption result (IsNoNumber node.now) (IsNumber node.now) }
{
    match node {
        Node::Leaf(CodeLeaf::Number(number)) => Some(number.value),
        _ => None,
    }
}

/// Decides whether a number is no value of the type of this type variable.
fn number_misfits<'a>(defaulted: &Defaulted<'a>, variable: usize, value: u128) -> bool
    requires sound { IsSound defaulted.now }
    requires within { variable < length defaulted.now.slots.items }
    ensures { (s : System) → HasDefaults s defaulted.now → variable < s.variables → Decides result (NumberMisfits s variable value) }
{
    match integer_width(defaulted, variable) {
        Some(width) => !fits(value, width),
        None => false,
    }
}

/// Decides whether a node is a number literal that is no value of its type.
fn misfit_at<'a>(body: &Body, defaulted: &Defaulted<'a>, index: usize) -> bool
    requires sound { IsSound defaulted.now }
    requires node { index < length body.now.nodes }
    requires within { index < length defaulted.now.slots.items }
    ensures { (s : System) → HasDefaults s defaulted.now → index < s.variables → Decides result (MisfitAt s body.now.nodes index) }
{
    match written_number(body.node(index)) {
        Some(value) => number_misfits(defaulted, index, value),
        None => false,
    }
}

/// Decides whether a number literal at one of the first so many nodes is no value of its type.
fn misfits<'a>(body: &Body, defaulted: &Defaulted<'a>, read: usize) -> bool
    requires sound { IsSound defaulted.now }
    requires read { read ≤ length body.now.nodes }
    requires within { length body.now.nodes ≤ length defaulted.now.slots.items }
    ensures { (s : System) → HasDefaults s defaulted.now → length body.now.nodes ≤ s.variables → ReadsNodes s body.now.nodes read → Decides result (Misfits s body.now.nodes) }
{
    for variable in 0..read {
        if misfit_at(body, defaulted, variable) {
            return true;
        }
    }
    false
}

/// The number of nodes that are read, where so many steps are: the step before the first node is that of the declared
/// types.
fn nodes_read(body: &Body, steps: usize) -> usize
    ensures { result ≡ min (steps - 1) (length body.now.nodes) }
{
    steps.saturating_sub(1).min(body.len())
}

/// Judges the nodes, where so many steps are read.
pub fn judge<'a>(body: &Body, defaulted: &Defaulted<'a>, steps: usize) -> Judged
    requires sound { IsSound defaulted.now }
    requires within { length body.now.nodes ≤ length defaulted.now.slots.items }
    ensures { (s : System) → HasDefaults s defaulted.now → length body.now.nodes ≤ s.variables → ReadsSteps s steps → JudgedOf s body.now.nodes result }
{
    let read = nodes_read(body, steps);
    Judged {
        read,
        misfits: misfits(body, defaulted, read),
    }
}
