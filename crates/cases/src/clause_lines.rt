//! The meanings of names in clauses.

use crate::lines::push_number;
use base::memory::NoMemory;
use program::arena::Node;
use program::clause::{Clause, ClauseForm, ConditionKind};
use program::spec::{SpecBody, SpecLeaf, SpecName};
use std::alloc::Global;

/// The word of a clause's form.
pub fn form_word(form: &ClauseForm) -> &'static str {
    match form {
        ClauseForm::Condition(ConditionKind::Requires, _) => "requires",
        ClauseForm::Condition(ConditionKind::Ensures, _) => "ensures",
        ClauseForm::Condition(ConditionKind::AbortsIf, _) => "aborts_if",
        ClauseForm::Condition(ConditionKind::Invariant, _) => "invariant",
        ClauseForm::Condition(ConditionKind::UpdateInvariant, _) => "update",
        ClauseForm::Modifies(_) => "modifies",
        ClauseForm::Let { is_post: true, .. } => "post",
        ClauseForm::Let { is_post: false, .. } => "let",
        ClauseForm::Include { .. } => "include",
    }
}

/// A word for what a name means, and its number among its like.
fn meaning(name: SpecName) -> (&'static str, usize) {
    match name {
        SpecName::Parameter(number) => (" parameter", number),
        SpecName::Local(number) => (" local", number),
        SpecName::Result(number) => (" result", number),
        SpecName::Let(number) => (" let", number),
        SpecName::Variable(number) => (" variable", number),
        SpecName::Field(number) => (" field", number),
        SpecName::Quantified(number) => (" quantified", number),
    }
}

/// Writes what the names in a body mean, in the order of the text.
pub fn push_names(alloc: Global, line: &mut String, body: &SpecBody) -> Result<(), NoMemory> {
    for index in 0..body.len() {
        if let Node::Leaf(SpecLeaf::Name(name)) = body.node(index) {
            let (word, number) = meaning(*name);
            line.push_str(word)?;
            push_number(alloc, line, number)?;
        }
    }
    Ok(())
}

fn push_root(alloc: Global, line: &mut String, root: usize) -> Result<(), NoMemory> {
    line.push_str(" @")?;
    push_number(alloc, line, root)
}

/// Writes the places of a clause's expressions among its nodes.
fn push_roots(alloc: Global, line: &mut String, form: &ClauseForm) -> Result<(), NoMemory> {
    match form {
        ClauseForm::Condition(_, root) => push_root(alloc, line, *root)?,
        ClauseForm::Let { value, .. } => push_root(alloc, line, *value)?,
        ClauseForm::Modifies(roots) => {
            for root in roots.as_slice() {
                push_root(alloc, line, *root)?;
            }
        }
        ClauseForm::Include { given, .. } => {
            for root in given.as_slice() {
                push_root(alloc, line, *root)?;
            }
        }
    }
    Ok(())
}

/// Writes clauses, each on a line: its word, the places of its expressions among its nodes, and what its names mean.
pub fn push_clauses(alloc: Global, lines: &mut String, clauses: &[Clause]) -> Result<(), NoMemory> {
    for clause in clauses {
        lines.push_str("  ")?;
        lines.push_str(form_word(&clause.form))?;
        push_roots(alloc, lines, &clause.form)?;
        lines.push(':')?;
        push_names(alloc, lines, &clause.body)?;
        lines.push('\n')?;
    }
    Ok(())
}
