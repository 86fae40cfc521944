//! The nodes of a pool that a proof trace needs.

ghost use Rattle.std.specs.Prelude.{◌≡◌, false, length, replicate, IfOk};
ghost use Rattle.std.specs.List.{flat_map};
ghost use Rattle.search.specs.Applications.{terms_of};
ghost use Rattle.certificate_text.specs.Marks.{MarksAlso, AreNeeded, AreInside};
ghost use Rattle.certificate_text.specs.Names.{named_by_step, named_by};

use crate::pools::marks::{mark, mark_all, mark_inside};
use base::memory::NoMemory;
use explanations::chain::ChainStep;
use search::trees::application::{PoolApplication, Reason};
use std::alloc::Global;
use term_pool::pool::Pool;

// Marks the terms of the reason.
fn mark_reason(marks: &mut [bool], reason: Reason)
    ensures { MarksAlso marks.old marks.new (terms_of reason) }
{
    match reason {
        Reason::Instance(_, term) | Reason::Bound(_, term, _) => mark(marks, term),
        Reason::Cut(left, right) => {
            mark(marks, left);
            mark(marks, right);
        }
        Reason::Parts(_) | Reason::Name(_, _) | Reason::Axiom(_) | Reason::Split(_) => {}
    }
}

fn mark_step(marks: &mut [bool], step: ChainStep)
    ensures { MarksAlso marks.old marks.new (named_by_step step) }
{
    match step {
        ChainStep::Itself(formula) => mark(marks, formula),
        ChainStep::Rewritten(rewriting) => {
            mark(marks, rewriting.pattern);
            mark(marks, rewriting.formula);
        }
    }
}

fn mark_chain(marks: &mut [bool], chain: &[ChainStep])
    ensures { MarksAlso marks.old marks.new (flat_map named_by_step chain.now) }
{
    for step in chain {
        mark_step(marks, *step);
    }
}

fn mark_application(marks: &mut [bool], application: &PoolApplication)
    ensures { MarksAlso marks.old marks.new (named_by application.now) }
{
    match application {
        PoolApplication::Grown(extension) => {
            mark_reason(marks, extension.reason);
            mark_all(marks, extension.formulas.as_slice());
        }
        PoolApplication::Closed(closing) => mark_chain(marks, closing.chain.as_slice()),
    }
}

// Marks the nodes that the trace names.
fn mark_text(marks: &mut [bool], text: &[PoolApplication])
    ensures { MarksAlso marks.old marks.new (flat_map named_by text.now) }
{
    for application in text {
        mark_application(marks, application);
    }
}

// Marks the nodes that the trace names, and their parts.
fn mark_needed(marks: &mut [bool], pool: &Pool, text: &[PoolApplication])
    requires none { marks.old ≡ replicate (length pool.now) false }
    ensures needed { AreNeeded pool.now (flat_map named_by text.now) marks.new }
    ensures inside { AreInside pool.now 0 marks.new }
{
    mark_text(marks, text);
    mark_inside(marks, pool);
}

/// Returns for each node of the pool whether the trace needs it.
pub(crate) fn needed_nodes(
    alloc: Global,
    pool: &Pool,
    text: &[PoolApplication],
) -> Result<Vec<bool>, NoMemory>
    ensures needed { IfOk result (λ marks. AreNeeded pool.now (flat_map named_by text.now) marks.items) }
    ensures inside { IfOk result (λ marks. AreInside pool.now 0 marks.items) }
{
    let mut marks = vec![in alloc; false; pool.len()]?;
    mark_needed(marks.as_mut_slice(), pool, text);
    Ok(marks)
}
