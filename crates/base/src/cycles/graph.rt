//! Graphs over numbers.

ghost use Rattle.std.specs.Prelude.{◌≡◌, ◌<◌, ◌-◌, [], ◌∷◌, ◌++◌, length, replicate, take, slice_index_or, slice_set, OnOk, OnErr, IfOk};
ghost use Rattle.base.specs.GraphReachability.{AreMirrored};

use crate::memory::NoMemory;
use std::alloc::Global;
use std::marker::Model;

/// The targets of the edges of one number, in order.
#[derive(Drop)]
pub(crate) struct Targets {
    items: Vec<usize>,
}

impl Model for Targets {
    ghost use Rattle.std.specs.Prelude.{List, ℕ};

    ghost Value = { List ℕ };

    ghost view = { λ t. t.items.items };
}

impl Targets {
    /// Returns the targets, in order.
    pub(crate) fn as_slice(&self) -> &[usize]
        ensures { result.now ≡ self.now }
    {
        self.items.as_slice()
    }

    /// Adds a target at the end. After `NoMemory` the targets are unchanged.
    fn push(&mut self, target: usize) -> Result<(), NoMemory>
        ensures ok { OnOk result (self.new ≡ self.old ++ target ∷ []) }
        ensures err { OnErr result (self.new ≡ self.old) }
    {
        self.items.push(target)?;
        Ok(())
    }

    /// Removes the last target.
    fn drop_last(&mut self)
        ensures { self.new ≡ take (length self.old - 1) self.old }
    {
        let _ = self.items.pop();
    }
}

/// Returns an empty list of targets for each of so many numbers.
fn no_targets(alloc: Global, count: usize) -> Result<Vec<Targets>, NoMemory>
    ensures { IfOk result (λ targets. targets.items ≡ replicate count []) }
{
    let mut targets = Vec::new(alloc);
    for _ in 0..count {
        let none = Targets {
            items: Vec::new(alloc),
        };
        targets.push(none)?;
    }
    Ok(targets)
}

/// A graph over the numbers from 0 on. Contracts see the list of the targets of each number.
#[derive(Drop)]
pub struct Graph {
    targets: Vec<Targets>,
    sources: Vec<Targets>,
}

impl Model for Graph {
    ghost use Rattle.std.specs.Prelude.{List, ℕ};
    ghost use Rattle.base.specs.GraphReachability.{AreMirrored};

    ghost Value = { List (List ℕ) };

    ghost view = { λ g. g.targets.items };

    ghost invariant = { λ g. AreMirrored g.targets.items g.sources.items };
}

impl Graph {
    /// Returns the graph with so many numbers and no edges.
    pub fn new(alloc: Global, count: usize) -> Result<Graph, NoMemory>
        ensures { IfOk result (λ graph. graph ≡ replicate count []) }
    {
        let targets = no_targets(alloc, count)?;
        let sources = no_targets(alloc, count)?;
        Ok(Graph { targets, sources })
    }

    /// The number of vertices.
    pub fn len(&self) -> usize
        ensures { result ≡ length self.now }
    {
        self.targets.len()
    }

    /// Adds an edge, as the last one of `from`. After `NoMemory` the graph is unchanged.
    pub fn add_edge(&mut self, from: usize, to: usize) -> Result<(), NoMemory>
        requires from { from < length self.old }
        requires to { to < length self.old }
        ensures ok { OnOk result (self.new ≡ slice_set self.old from (slice_index_or self.old from [] ++ to ∷ [])) }
        ensures err { OnErr result (self.new ≡ self.old) }
    {
        self.sources[to].push(from)?;
        let added = self.targets[from].push(to);
        if added.is_err() {
            self.sources[to].drop_last();
        }
        added
    }

    /// Returns the targets of each number, and its sources, the numbers with an edge to it.
    pub(crate) fn sides(&self) -> (&[Targets], &[Targets])
        ensures targets { result.0.now ≡ self.now }
        ensures mirrored { AreMirrored self.now result.1.now }
    {
        (self.targets.as_slice(), self.sources.as_slice())
    }
}
