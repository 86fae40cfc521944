//! Memories and vectors that are read, and the terms at which they are read.

ghost use Rattle.std.specs.Prelude.{◌≡◌, ◌++◌, List, length, map, IfOk, OnOk};
ghost use Rattle.std.specs.List.{flat_map};
ghost use Rattle.tableau.specs.PoolBranches.{branch_in, IsOver};
ghost use Rattle.congruence_closure.specs.Known.{IsKnown};
ghost use Rattle.base.specs.Lists.{list_in};
ghost use Rattle.tableau.specs.Terms.{IsBranchTerm, AreBranchTerms, AreClassesOf};
ghost use Rattle.axiom_strategy.specs.Families.{AskAll, AsksOfReads, AsksOfItems};
ghost use Rattle.axiom_strategy.specs.Keyed.{AreListed};
ghost use Rattle.axiom_strategy.specs.Typings.{AreTypings};
ghost use Rattle.axiom_strategy.specs.Vectors.{AreMoreAskers};
ghost use Rattle.axiom_strategy.specs.Reads.{select_parts, at_parts, read_parts, made_of, IsMember, IsReadOf, IsReadIndex, reads_in, keys_in, read_asker, item_asker, IsReadAsker};

use crate::askers::Asker;
use crate::keyed::KeyedSets;
use crate::typings::Typing;
use axiom_instances::reading::{TermForm, term_form};
use base::keyed_lists::lists::Lists;
use base::memory::NoMemory;
use congruence_closure::branch_classes::BranchClasses;
use fol::operators::{Binary, Ternary, Unary};
use std::alloc::Global;
use tableau::branch::PoolBranch;
use term_pool::pool::Pool;

/// The kind of a read.
#[derive(Clone, Copy)]
pub enum Reading {
    /// A memory at a key.
    OfMemory,
    /// A vector at an index.
    OfVector,
}

/// The terms of a branch by class; and, by the class of a memory or a vector, the classes at which it is read.
#[derive(Drop)]
pub struct ReadIndex {
    members: Lists,
    memories: KeyedSets,
    vectors: KeyedSets,
}

// ---- forms

// The memory and the key of a term of this form, if it reads a memory.
fn select_parts(form: TermForm) -> Option<(usize, usize)>
    ensures { result ≡ select_parts form }
{
    match form {
        TermForm::Binary(Binary::Select, memory, key) => Some((memory, key)),
        _ => None,
    }
}

// The vector and the index of a term of this form, if it reads a vector.
fn at_parts(form: TermForm) -> Option<(usize, usize)>
    ensures { result ≡ at_parts form }
{
    match form {
        TermForm::Binary(Binary::At, vector, position) => Some((vector, position)),
        _ => None,
    }
}

fn read_parts(reading: Reading, form: TermForm) -> Option<(usize, usize)>
    ensures { result ≡ read_parts reading form }
{
    match reading {
        Reading::OfMemory => select_parts(form),
        Reading::OfVector => at_parts(form),
    }
}

// For a term of this form that is made of another one: the kind of its reads, and what it is made of.
fn made_of(form: TermForm) -> Option<(Reading, usize)>
    ensures { result ≡ made_of form }
{
    match form {
        TermForm::Unary(Unary::Pop, vector) => Some((Reading::OfVector, vector)),
        TermForm::Binary(Binary::Push, vector, _) => Some((Reading::OfVector, vector)),
        TermForm::Ternary(Ternary::Store, memory, _, _) => Some((Reading::OfMemory, memory)),
        TermForm::Ternary(Ternary::Set, vector, _, _) => Some((Reading::OfVector, vector)),
        _ => None,
    }
}

// ---- the index

// The terms by class.
fn members_by_class(
    alloc: Global,
    pool: &Pool,
    branch: &PoolBranch,
    classes: &BranchClasses,
    terms: &[usize],
) -> Result<Lists, NoMemory>
    requires over { IsOver pool.now branch.now }
    requires classes { AreClassesOf pool.now branch.now classes.now }
    requires terms { AreBranchTerms pool.now (branch_in pool.now branch.now) terms.now }
    ensures { IfOk result (λ lists. AreListed (IsMember classes.now terms.now) lists) }
{
    pool.one_number();
    let mut lists = Lists::new(alloc);
    for term in terms {
        let class = classes.class(*term);
        lists.add(class, *term)?;
    }
    Ok(lists)
}

// For the class of what is read, the classes at which it is read, over the terms that are reads.
fn reads_by_class(
    alloc: Global,
    pool: &Pool,
    branch: &PoolBranch,
    classes: &BranchClasses,
    terms: &[usize],
    reading: Reading,
) -> Result<KeyedSets, NoMemory>
    requires over { IsOver pool.now branch.now }
    requires classes { AreClassesOf pool.now branch.now classes.now }
    requires terms { AreBranchTerms pool.now (branch_in pool.now branch.now) terms.now }
    ensures { IfOk result (λ sets. AreListed (IsReadOf pool.now classes.now reading terms.now) sets.lists) }
{
    pool.one_number();
    let mut sets = KeyedSets::new(alloc);
    for number in terms {
        let form = term_form(pool, *number);
        let Some((from, position)) = read_parts(reading, form) else {
            continue;
        };
        let of = classes.class(from);
        let class = classes.class(position);
        sets.add(of, class)?;
    }
    Ok(sets)
}

/// Returns the index of a branch. `classes` are those of the branch, and `terms` are the numbers of its terms.
/// `NoMemory` if memory runs out.
pub fn read_index(
    alloc: Global,
    pool: &Pool,
    branch: &PoolBranch,
    classes: &BranchClasses,
    terms: &[usize],
) -> Result<ReadIndex, NoMemory>
    requires over { IsOver pool.now branch.now }
    requires classes { AreClassesOf pool.now branch.now classes.now }
    requires terms { AreBranchTerms pool.now (branch_in pool.now branch.now) terms.now }
    ensures { IfOk result (λ index. IsReadIndex pool.now (branch_in pool.now branch.now) classes.now index) }
{
    let members = members_by_class(alloc, pool, branch, classes, terms)?;
    let memories = reads_by_class(alloc, pool, branch, classes, terms, Reading::OfMemory)?;
    let vectors = reads_by_class(alloc, pool, branch, classes, terms, Reading::OfVector)?;
    Ok(ReadIndex {
        members,
        memories,
        vectors,
    })
}

impl ReadIndex {
    // The classes at which something of this class is read.
    fn positions(&self, reading: Reading, class: usize) -> &[usize]
        ensures { result.now ≡ list_in (reads_in self.now reading) class }
    {
        match reading {
            Reading::OfMemory => self.memories.lists.at(class),
            Reading::OfVector => self.vectors.lists.at(class),
        }
    }
}

// The terms of these classes.
fn terms_of(alloc: Global, members: &Lists, classes: &[usize]) -> Result<Vec<usize>, NoMemory>
    ensures { IfOk result (λ terms. terms.items ≡ flat_map (list_in members.now) classes.now) }
{
    let mut terms = Vec::new(alloc);
    for class in classes {
        terms.extend_from_slice(members.at(*class))?;
    }
    Ok(terms)
}

// The terms at whose classes a term is read.
fn keys(
    alloc: Global,
    index: &ReadIndex,
    classes: &BranchClasses,
    reading: Reading,
    term: usize,
) -> Result<Vec<usize>, NoMemory>
    requires { IsKnown classes.now term }
    ensures { IfOk result (λ keys. keys.items ≡ keys_in index.now classes.now reading term) }
{
    let class = classes.class(term);
    let positions = index.positions(reading, class);
    terms_of(alloc, &index.members, positions)
}

// ---- triggers

// Appends a trigger for a term with each of the keys.
fn add_keys(askers: &mut Vec<Asker>, term: usize, keys: &[usize]) -> Result<(), NoMemory>
    ensures { OnOk result (askers.new.items ≡ askers.old.items ++ map (read_asker term) keys.now) }
{
    for key in keys {
        askers.push(Asker::Read(term, *key))?;
    }
    Ok(())
}

// Appends the triggers for a term made of another one, with the terms at which one of the two is read.
fn add_reads(
    alloc: Global,
    askers: &mut Vec<Asker>,
    pool: &Pool,
    branch: &PoolBranch,
    classes: &BranchClasses,
    index: &ReadIndex,
    term: usize,
) -> Result<(), NoMemory>
    requires over { IsOver pool.now branch.now }
    requires classes { AreClassesOf pool.now branch.now classes.now }
    requires index { IsReadIndex pool.now (branch_in pool.now branch.now) classes.now index.now }
    requires term { IsBranchTerm pool.now (branch_in pool.now branch.now) term }
    ensures { OnOk result (AreMoreAskers askers.old.items askers.new.items (IsReadAsker pool.now (branch_in pool.now branch.now) term)) }
{
    pool.one_number();
    classes.exact();
    let form = term_form(pool, term);
    let Some((reading, base)) = made_of(form) else {
        return Ok(());
    };
    let own = keys(alloc, index, classes, reading, term)?;
    let others = keys(alloc, index, classes, reading, base)?;
    add_keys(askers, term, own.as_slice())?;
    add_keys(askers, term, others.as_slice())?;
    Ok(())
}

/// Returns the triggers for the terms made of a memory or a vector, with the terms at which one of the two is read, up
/// to classes. `classes` and `index` are those of the branch, and `terms` are the numbers of its terms. `NoMemory` if
/// memory runs out.
pub fn read_askers(
    alloc: Global,
    pool: &Pool,
    branch: &PoolBranch,
    classes: &BranchClasses,
    index: &ReadIndex,
    terms: &[usize],
) -> Result<Vec<Asker>, NoMemory>
    requires over { IsOver pool.now branch.now }
    requires classes { AreClassesOf pool.now branch.now classes.now }
    requires index { IsReadIndex pool.now (branch_in pool.now branch.now) classes.now index.now }
    requires terms { AreBranchTerms pool.now (branch_in pool.now branch.now) terms.now }
    ensures { IfOk result (λ askers. AskAll pool.now (branch_in pool.now branch.now) askers.items (AsksOfReads (branch_in pool.now branch.now))) }
{
    pool.one_number();
    let mut askers = Vec::new(alloc);
    for term in terms {
        add_reads(alloc, &mut askers, pool, branch, classes, index, *term)?;
    }
    Ok(askers)
}

// Appends a trigger for a type and a vector with each of the indexes.
fn add_positions(
    askers: &mut Vec<Asker>,
    of: usize,
    vector: usize,
    positions: &[usize],
) -> Result<(), NoMemory>
    ensures { OnOk result (askers.new.items ≡ askers.old.items ++ map (item_asker of vector) positions.now) }
{
    for position in positions {
        askers.push(Asker::Item(of, vector, *position))?;
    }
    Ok(())
}

/// Returns the triggers for the types that entries give to vectors or deny them, with these vectors and the terms at
/// which they are read, up to classes. `typings`, `classes` and `index` are those of the branch. `NoMemory` if memory
/// runs out.
pub fn item_askers(
    alloc: Global,
    pool: &Pool,
    branch: &PoolBranch,
    classes: &BranchClasses,
    index: &ReadIndex,
    typings: &[Typing],
) -> Result<Vec<Asker>, NoMemory>
    requires over { IsOver pool.now branch.now }
    requires classes { AreClassesOf pool.now branch.now classes.now }
    requires index { IsReadIndex pool.now (branch_in pool.now branch.now) classes.now index.now }
    requires typings { AreTypings pool.now (branch_in pool.now branch.now) (length branch.now.entries) typings.now }
    ensures { IfOk result (λ askers. AskAll pool.now (branch_in pool.now branch.now) askers.items (AsksOfItems (branch_in pool.now branch.now))) }
{
    pool.one_number();
    classes.exact();
    let mut askers = Vec::new(alloc);
    for typing in typings {
        let positions = keys(alloc, index, classes, Reading::OfVector, typing.term)?;
        add_positions(&mut askers, typing.of, typing.term, positions.as_slice())?;
    }
    Ok(askers)
}
