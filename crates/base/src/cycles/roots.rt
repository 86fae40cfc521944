//! The label of each number: the last index of the order at which a number reaches it.

ghost use Rattle.std.specs.Prelude.{◌≡◌, ℕ, ◌<◌, ◌≤◌, ◌+◌, [], ◌∷◌, ◌++◌, length, replicate, reverse, slice_index, slice_set, None, Some, OnOk, IfOk, Option};
ghost use Rattle.base.specs.GraphReachability.{IsWithin};
ghost use Rattle.base.specs.Labelling.{IsLabelling, NoneIsOpen, label, AreNumbers, waiting};

use crate::cycles::graph::Targets;
use crate::memory::NoMemory;
use std::alloc::Global;

/// The labels that are set, and the stack of labelled numbers whose edges are not followed yet.
#[derive(Drop)]
struct Labels {
    labels: Vec<Option<usize>>,
    work: Vec<usize>,
}

impl Labels {
    /// Sets the label `position`, which `node` has, for all numbers without a label that `node` has an edge to.
    fn label_next(
        &mut self,
        sources: &[Targets],
        order: &[usize],
        node: usize,
        position: usize,
    ) -> Result<(), NoMemory>
        requires within { IsWithin sources.now }
        requires node { node < length sources.now }
        requires labels { IsLabelling sources.now order.now position self.old.labels.items (node ∷ reverse self.old.work.items) NoneIsOpen }
        ensures labels { OnOk result (IsLabelling sources.now order.now position self.new.labels.items (reverse self.new.work.items) NoneIsOpen) }
        ensures less { OnOk result (waiting self.new.labels.items self.new.work.items ≤ waiting self.old.labels.items self.old.work.items) }
    {
        for source in sources[node].as_slice() {
            if self.labels[*source].is_none() {
                self.labels[*source] = Some(position);
                self.work.push(*source)?;
            }
        }
        Ok(())
    }

    /// Sets the label `position` for the number at this index of the order and for all numbers without a label that it
    /// reaches, if the number itself has no label yet.
    fn label_from(
        &mut self,
        sources: &[Targets],
        order: &[usize],
        position: usize,
    ) -> Result<(), NoMemory>
        requires within { IsWithin sources.now }
        requires numbers { AreNumbers sources.now order.now }
        requires position { position < length order.now }
        requires work { self.old.work.items ≡ [] }
        requires labels { IsLabelling sources.now order.now (position + 1) self.old.labels.items [] NoneIsOpen }
        ensures work { OnOk result (self.new.work.items ≡ []) }
        ensures labels { OnOk result (IsLabelling sources.now order.now position self.new.labels.items [] NoneIsOpen) }
    {
        let root = order[position];
        if self.labels[root].is_some() {
            return Ok(());
        }
        self.labels[root] = Some(position);
        self.work.push(root)?;
        while let Some(node) = self.work.pop() {
            self.label_next(sources, order, node, position)?;
        }
        Ok(())
    }
}

/// Returns so many empty labels.
fn no_labels(alloc: Global, count: usize) -> Result<Vec<Option<usize>>, NoMemory>
    ensures { IfOk result (λ labels. labels.items ≡ replicate count None) }
{
    let mut labels = Vec::new(alloc);
    for _ in 0..count {
        labels.push(None)?;
    }
    Ok(labels)
}

/// Returns for each number the last index of the order at which a number reaches it along `sources`.
pub(crate) fn label_all(
    alloc: Global,
    sources: &[Targets],
    order: &[usize],
) -> Result<Vec<Option<usize>>, NoMemory>
    requires within { IsWithin sources.now }
    requires numbers { AreNumbers sources.now order.now }
    ensures { IfOk result (λ labels. IsLabelling sources.now order.now 0 labels.items [] NoneIsOpen) }
{
    let mut given = Labels {
        labels: no_labels(alloc, sources.len())?,
        work: Vec::new(alloc),
    };
    for position in (0..order.len()).rev() {
        given.label_from(sources, order, position)?;
    }
    Ok(given.labels)
}
