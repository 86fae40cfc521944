//! Extensions that are due.

ghost use Rattle.std.specs.Prelude.{◌≡◌, ◌<◌, ◌∷◌, [], List, IfOk};
ghost use Rattle.fol.specs.FormulaData.{FormulaData};
ghost use Rattle.fol.specs.declared.shapes.Shape.{Shape};
ghost use Rattle.term_pool.specs.declared.node.Node.{Node};
ghost use Rattle.certificates.specs.Closes.{most_entries};
ghost use Rattle.certificates.specs.BranchesBranch.{Branch};
ghost use Rattle.certificates.specs.Due.{InstanceDue, AxiomDue};
ghost use Rattle.certificates.specs.ProofTraces.{generation_at, IsSplitTime};
ghost use Rattle.tableau.specs.PoolBranches.{branch_in, IsTermNumber};
ghost use Rattle.tableau.specs.Numbers.{IsNumberOf};
ghost use Rattle.tableau.specs.Steps.{ArePartsDue, AreCasesDue};
ghost use Rattle.tableau.specs.Names.{IsNameStep};
ghost use Rattle.search.specs.Applications.{term_at};
ghost use Rattle.search.specs.Decisions.{IsExtensionDue};

use axioms::axiom::Axiom;
use base::memory::NoMemory;
use search::trees::application::{Extension, Reason};
use std::alloc::Global;
use tableau::branch::PoolBranch;
use tableau::names::NameStep;
use tableau::rules::formulas::EntryStep;

// The generation of the entry with this number; 0 if there is no such entry.
fn generation_of(branch: &PoolBranch, entry: usize) -> usize
    ensures { (ns : List Node) → result ≡ generation_at (branch_in ns branch.now) entry }
{
    match branch.entry(entry) {
        Some(entry) => entry.generation,
        None => 0,
    }
}

// A list of one formula.
fn one(alloc: Global, formula: usize) -> Result<Vec<usize>, NoMemory>
    ensures { IfOk result (λ formulas. formulas.items ≡ formula ∷ []) }
{
    let mut formulas = Vec::new(alloc);
    formulas.push(formula)?;
    Ok(formulas)
}

/// The application of the alpha rule to an entry: it adds the entry's conjuncts.
pub fn parts_application(branch: &PoolBranch, step: EntryStep) -> Extension
    ensures { (shapes : List Shape) (ns : List Node) → ArePartsDue ns (branch_in ns branch.now) step.entry step.formulas.items → IsExtensionDue shapes ns (branch_in ns branch.now) result }
{
    Extension {
        reason: Reason::Parts(step.entry),
        generation: generation_of(branch, step.entry),
        formulas: step.formulas,
    }
}

/// The application of the beta rule to an entry: it splits the branch into the entry's cases.
pub fn split_application(branch: &PoolBranch, step: EntryStep) -> Extension
    ensures { (shapes : List Shape) (ns : List Node) → AreCasesDue ns (branch_in ns branch.now) step.entry step.formulas.items → IsSplitTime shapes (branch_in ns branch.now) step.entry → IsExtensionDue shapes ns (branch_in ns branch.now) result }
{
    Extension {
        reason: Reason::Split(step.entry),
        generation: generation_of(branch, step.entry),
        formulas: step.formulas,
    }
}

/// The application of the delta rule to an entry: it adds the entry's body for its Skolem name. The branch has fewer
/// than 4,000 entries. `NoMemory` if memory runs out.
pub fn name_application(
    alloc: Global,
    branch: &PoolBranch,
    step: NameStep,
) -> Result<Extension, NoMemory>
    requires { step.entry < most_entries }
    ensures { IfOk result (λ extension. (shapes : List Shape) (ns : List Node) → IsNameStep ns (branch_in ns branch.now) step → IsExtensionDue shapes ns (branch_in ns branch.now) extension) }
{
    let formulas = one(alloc, step.formula)?;
    Ok(Extension {
        reason: Reason::Name(step.entry as u32, step.variable),
        generation: generation_of(branch, step.entry),
        formulas,
    })
}

/// The application that adds the instance of an axiom with this number and generation. `NoMemory` if memory runs out.
pub fn axiom_application(
    alloc: Global,
    name: Axiom,
    formula: usize,
    generation: usize,
) -> Result<Extension, NoMemory>
    ensures { IfOk result (λ extension. (shapes : List Shape) (ns : List Node) (b : Branch) (p : FormulaData) → IsNumberOf ns p formula → AxiomDue shapes b name p generation → IsExtensionDue shapes ns b extension) }
{
    let formulas = one(alloc, formula)?;
    Ok(Extension {
        reason: Reason::Axiom(name),
        generation,
        formulas,
    })
}

/// The application of the gamma rule to an entry: it adds the instance for a term, with this number and generation.
/// `NoMemory` if memory runs out.
pub fn instance_application(
    alloc: Global,
    entry: usize,
    term: usize,
    formula: usize,
    generation: usize,
) -> Result<Extension, NoMemory>
    ensures { IfOk result (λ extension. (shapes : List Shape) (ns : List Node) (b : Branch) (p : FormulaData) → IsTermNumber ns term → IsNumberOf ns p formula → InstanceDue b entry (term_at ns term) p generation → IsExtensionDue shapes ns b extension) }
{
    let formulas = one(alloc, formula)?;
    Ok(Extension {
        reason: Reason::Instance(entry, term),
        generation,
        formulas,
    })
}
