//! Instances to try first: those triggered by a read on the branch that does not just read back a write.

ghost use Rattle.std.specs.Prelude.{length, IfOk, IfSome, OnOk};
ghost use Rattle.term_pool.specs.Pools.{Extends};
ghost use Rattle.tableau.specs.PoolBranches.{branch_in, IsOver};
ghost use Rattle.tableau.specs.Terms.{AreBranchTerms, AreClassesOf};
ghost use Rattle.axiom_instances.specs.StructRows.{HasFewFields};
ghost use Rattle.axiom_strategy.specs.Due.{IsDueStep, IsAxiomStep, AsksOfSome};
ghost use Rattle.axiom_strategy.specs.Askers.{AreAskers, asks_at};
ghost use Rattle.axiom_strategy.specs.Families.{HasVariable};
ghost use Rattle.axiom_strategy.specs.Known.{AreKnownInstances};

use crate::askers::{Asker, next_of};
use crate::due::{AxiomStep, WantedAxioms};
use crate::known::KnownInstances;
use crate::next::all_askers;
use crate::typings::typings;
use axiom_instances::reading::{TermForm, term_form};
use base::keyed_lists::pairs::Pairs;
use base::memory::NoMemory;
use congruence_closure::branch_classes::BranchClasses;
use fol::operators::{Binary, Ternary, Unary};
use fol::shapes::Shapes;
use std::alloc::Global;
use tableau::branch::PoolBranch;
use term_pool::pool::Pool;

// ---- reads other than read-backs

// Decides whether a term is the length of this vector.
fn is_length_of(pool: &Pool, term: usize, vector: usize) -> bool {
    match term_form(pool, term) {
        TermForm::Unary(Unary::Len, of) => of == vector,
        _ => false,
    }
}

// Decides whether a read is a read-back: it reads at the very index of the last write.
fn is_plain(pool: &Pool, from: usize, position: usize) -> bool {
    match term_form(pool, from) {
        TermForm::Ternary(Ternary::Store, _, key, _) => key == position,
        TermForm::Ternary(Ternary::Set, _, at, _) => at == position,
        TermForm::Binary(Binary::Push, vector, _) => is_length_of(pool, position, vector),
        _ => false,
    }
}

// The memory or vector that a term reads, and the key or index.
fn read_in(pool: &Pool, term: usize) -> Option<(usize, usize)> {
    match term_form(pool, term) {
        TermForm::Binary(Binary::Select, memory, key) => Some((memory, key)),
        TermForm::Binary(Binary::At, vector, position) => Some((vector, position)),
        _ => None,
    }
}

// The classes of two numbers, if both are known.
fn both_classes(classes: &BranchClasses, one: usize, other: usize) -> Option<(usize, usize)> {
    if !classes.is_known(one) {
        return None;
    }
    if !classes.is_known(other) {
        return None;
    }
    Some((classes.class(one), classes.class(other)))
}

// The pairs of classes of what is read and of the index, for the terms that are reads but no read-backs.
fn near_reads(
    alloc: Global,
    pool: &Pool,
    classes: &BranchClasses,
    terms: &[usize],
) -> Result<Pairs, NoMemory> {
    let mut reads = Pairs::new(alloc);
    for number in terms {
        let Some((from, position)) = read_in(pool, *number) else {
            continue;
        };
        if is_plain(pool, from, position) {
            continue;
        }
        if let Some((of, at)) = both_classes(classes, from, position) {
            reads.add(of, at)?;
        }
    }
    Ok(reads)
}

// ---- their triggers

// Decides whether something of the first term's class is so read at the second term's class.
fn is_read(classes: &BranchClasses, reads: &Pairs, from: usize, position: usize) -> bool {
    match both_classes(classes, from, position) {
        Some((of, at)) => reads.has(of, at),
        None => false,
    }
}

// Decides whether a trigger is relevant: a trigger by a read or by a store is relevant only if there is such a read,
// and any other trigger always is.
fn is_near(pool: &Pool, classes: &BranchClasses, reads: &Pairs, asker: Asker) -> bool {
    match asker {
        Asker::Read(term, key) => is_read(classes, reads, term, key),
        Asker::Term(term) => match term_form(pool, term) {
            TermForm::Ternary(Ternary::Store, _, key, _) => is_read(classes, reads, term, key),
            _ => true,
        },
        _ => true,
    }
}

// The first due instance of one of these triggers that is relevant; `None` if there is none.
fn near_triggered(
    alloc: Global,
    pool: &mut Pool,
    shapes: &Shapes,
    known: &mut KnownInstances,
    branch: &PoolBranch,
    classes: &BranchClasses,
    reads: &Pairs,
    askers: &[Asker],
) -> Result<Option<AxiomStep>, NoMemory>
    requires few { HasFewFields shapes.now }
    requires over { IsOver pool.old branch.now }
    requires askers { AreAskers pool.old askers.now }
    requires known { AreKnownInstances shapes.now pool.old known.old }
    ensures extends { Extends pool.old pool.new }
    ensures known { OnOk result (AreKnownInstances shapes.now pool.new known.new) }
    ensures due { IfOk result (λ found. IfSome found (IsDueStep pool.new (branch_in pool.old branch.now) WantedAxioms.All (AsksOfSome (length askers.now) (asks_at shapes.now pool.old askers.now)))) }
{
    let wanted = WantedAxioms::All;
    for i in 0..askers.len() {
        let asker = askers[i];
        if !is_near(pool, classes, reads, asker) {
            continue;
        }
        if let Some(step) = next_of(alloc, pool, shapes, known, branch, wanted, asker)? {
            return Ok(Some(step));
        }
    }
    Ok(None)
}

/// Returns a due instance of an axiom of the table. This is a heuristic choice: it passes over an instance triggered by
/// a read or a store unless something of the class of what is read, or of the store, is read at the index's class by a
/// term of the branch that is no read-back (a read of what was just stored, set or pushed). Only that the instance is
/// due is a clause; `None` does not mean that no instance is due. `classes` are those of the branch, `terms` are the
/// numbers of its terms, `known` belongs to the pool or to an earlier state of it, some variable is free in none of the
/// branch's entries, and each struct shape has fewer than 2^32 fields. `NoMemory` if memory runs out.
pub fn near_axiom(
    alloc: Global,
    pool: &mut Pool,
    shapes: &Shapes,
    known: &mut KnownInstances,
    branch: &PoolBranch,
    classes: &BranchClasses,
    terms: &[usize],
) -> Result<Option<AxiomStep>, NoMemory>
    requires few { HasFewFields shapes.now }
    requires over { IsOver pool.old branch.now }
    requires classes { AreClassesOf pool.old branch.now classes.now }
    requires terms { AreBranchTerms pool.old (branch_in pool.old branch.now) terms.now }
    requires known { AreKnownInstances shapes.now pool.old known.old }
    requires room { HasVariable (branch_in pool.old branch.now) }
    ensures extends { Extends pool.old pool.new }
    ensures known { OnOk result (AreKnownInstances shapes.now pool.new known.new) }
    ensures due { IfOk result (λ found. IfSome found (IsAxiomStep pool.new shapes.now (branch_in pool.new branch.now) WantedAxioms.All)) }
{
    let found = typings(alloc, pool, branch)?;
    let askers = all_askers(alloc, pool, branch, classes, terms, found.as_slice())?;
    let reads = near_reads(alloc, pool, classes, terms)?;
    near_triggered(
        alloc,
        pool,
        shapes,
        known,
        branch,
        classes,
        &reads,
        askers.as_slice(),
    )
}
