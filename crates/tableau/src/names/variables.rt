//! Upper bounds of the variables of a branch, and the entries that have a name.

ghost use Rattle.std.specs.Prelude.{◌≡◌, ◌↔◌, List, ◌+◌, ◌<◌, ◌≤◌, ◌^◌, ◌-◌, length, map, take, slice_index_or, IsTrue, IfOk, OnOk, MatchOption};
ghost use Rattle.term_pool.specs.declared.node.Node.{Node};
ghost use Rattle.certificates.specs.Names.{above_all};
ghost use Rattle.certificates.specs.BranchesBranch.{formulas};
ghost use Rattle.certificates.specs.Due.{IsNamed};
ghost use Rattle.tableau.specs.PoolBranches.{branch_in, entry_in, IsOver};
ghost use Rattle.tableau.specs.declared.entry.PoolEntry.{PoolEntry};
ghost use Rattle.tableau.specs.Variables.{above_own, above_entries, name_key, AreNodesAbove, IsNextAbove, AreEntriesAbove, AreNames, AreAbove};

use crate::branch::PoolBranch;
use crate::log::Log;
use base::memory::NoMemory;
use certificates::branches::origin::Origin;
use std::alloc::Global;
use std::marker::Model;
use term_pool::node::{Leaf, Node, Two};
use term_pool::pool::Pool;

/// Upper bounds of all variables, free and bound, of the items of a pool and of the entries of a branch, and the
/// entries that have a name. It visits each node and each entry once, on demand. When entries are removed from the
/// branch, they must be removed here too. After an `Err` it must not be used.
#[derive(Drop)]
pub struct Variables {
    // The bound of the item of each node, by its number.
    nodes: Vec<u64>,
    // For each entry the bound of the entries up to it.
    entries: Vec<u64>,
    // A change for each entry, with the key one above the number of the entry that it names, or 0.
    names: Log,
}

impl Model for Variables {
    ghost use Rattle.tableau.specs.Variables.{VariablesData};

    ghost Value = { VariablesData };

    ghost view = { λ v. record { nodes = v.nodes.items; entries = v.entries.items; names = v.names } };
}

// One above the variable that the node is or binds.
fn above_own(node: Node) -> u64
    ensures { result ≡ above_own node }
{
    match node {
        Node::Leaf(Leaf::Var(variable)) => u64::from(variable) + 1,
        Node::Two(Two::Quantify(_, variable), _, _) => u64::from(variable) + 1,
        _ => 0,
    }
}

// The bound of the first node that was not visited.
fn next_above(pool: &Pool, nodes: &[u64]) -> Option<u64>
    requires { AreNodesAbove pool.now nodes.now }
    ensures { MatchOption result (length pool.now ≤ length nodes.now) (IsNextAbove pool.now nodes.now) }
{
    let Some(node) = pool.node(nodes.len()) else {
        return None;
    };
    let own = above_own(node);
    match node {
        Node::Leaf(_) => Some(own),
        Node::One(_, a) => Some(nodes[a]),
        Node::Two(_, a, b) => Some(own.max(nodes[a]).max(nodes[b])),
        Node::Three(_, a, b, c) => Some(nodes[a].max(nodes[b]).max(nodes[c])),
    }
}

// Visits the nodes that were added.
fn look_at_nodes(pool: &Pool, nodes: &mut Vec<u64>) -> Result<(), NoMemory>
    requires { AreNodesAbove pool.now nodes.old.items }
    ensures above { OnOk result (AreNodesAbove pool.now nodes.new.items) }
    ensures all { OnOk result (length pool.now ≤ length nodes.new.items) }
{
    while let Some(above) = next_above(pool, nodes.as_slice()) {
        nodes.push(above)?;
    }
    Ok(())
}

// The key in the log for the entry that is named.
fn name_key(origin: Origin) -> usize
    ensures is { result ≡ name_key origin }
    ensures few { result ≤ 2 ^ 32 }
{
    match origin {
        Origin::Name(entry) => entry as usize + 1,
        Origin::Other => 0,
    }
}

// The last number, or 0 if there is none.
fn last_or_zero(numbers: &[u64]) -> u64
    ensures { result ≡ slice_index_or numbers.now (length numbers.now - 1) 0 }
{
    match numbers.last() {
        Some(number) => *number,
        None => 0,
    }
}

// Visits the nodes and the entries that were added. Returns the bound of all entries.
fn look(
    pool: &Pool,
    branch: &PoolBranch,
    nodes: &mut Vec<u64>,
    entries: &mut Vec<u64>,
    names: &mut Log,
) -> Result<u64, NoMemory>
    requires over { IsOver pool.now branch.now }
    requires nodes { AreNodesAbove pool.now nodes.old.items }
    requires entries { AreEntriesAbove pool.now branch.now.entries entries.old.items }
    requires names { AreNames branch.now.entries (length entries.old.items) names.old }
    ensures nodes { OnOk result (AreNodesAbove pool.now nodes.new.items) }
    ensures entries { OnOk result (AreEntriesAbove pool.now branch.now.entries entries.new.items) }
    ensures names { OnOk result (AreNames branch.now.entries (length entries.new.items) names.new) }
    ensures all { OnOk result (length branch.now.entries ≤ length entries.new.items) }
    ensures is { IfOk result (λ above. above ≡ above_entries pool.now branch.now.entries) }
{
    look_at_nodes(pool, nodes)?;
    let mut above = last_or_zero(entries.as_slice());
    while let Some(entry) = branch.entry(entries.len()) {
        above = above.max(nodes[entry.formula]);
        let key = name_key(entry.origin);
        names.write(key + 1, key, entries.len())?;
        entries.push(above)?;
    }
    Ok(above)
}

impl Variables {
    /// The bounds before any node or entry was visited.
    pub fn new(alloc: Global) -> Variables
        ensures { (ns : List Node) (es : List PoolEntry) → AreAbove ns es result }
    {
        Variables {
            nodes: Vec::new(alloc),
            entries: Vec::new(alloc),
            names: Log::new(alloc),
        }
    }

    /// Returns the least number above those of all variables of the branch, free and bound. It visits each entry.
    pub fn above_all(&mut self, pool: &Pool, branch: &PoolBranch) -> Result<u64, NoMemory>
        requires over { IsOver pool.now branch.now }
        requires above { AreAbove pool.now branch.now.entries self.old }
        ensures above { OnOk result (AreAbove pool.now branch.now.entries self.new) }
        ensures all { OnOk result (length branch.now.entries ≤ length self.new.entries) }
        ensures is { IfOk result (λ above. above ≡ above_all (formulas (branch_in pool.now branch.now))) }
    {
        look(
            pool,
            branch,
            &mut self.nodes,
            &mut self.entries,
            &mut self.names,
        )
    }

    /// Decides whether an entry names the variable that the entry with this number binds.
    pub fn is_named(&self, entry: usize) -> bool
        requires { entry < length self.now.entries }
        ensures { (ns : List Node) (es : List PoolEntry) → AreAbove ns es self.now → length es ≤ length self.now.entries → IsTrue result ↔ IsNamed (map (entry_in ns) es) entry }
    {
        self.names.value(entry + 1).is_some()
    }

    /// Removes all entries but the first `count`. It takes time linear in what it removes.
    pub fn truncate(&mut self, count: usize)
        ensures { (ns : List Node) (es : List PoolEntry) → AreAbove ns es self.old → AreAbove ns (take count es) self.new }
    {
        self.entries.truncate(count);
        self.names.truncate(count);
    }
}
