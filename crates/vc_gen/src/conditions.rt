//! The verification conditions of a function.

ghost use Rattle.std.specs.Prelude.{◌≡◌, ◌^◌, ◌≤◌, ◌++◌, All, IfOk, OnOk, length, map};
ghost use Rattle.std.specs.List.{flat_map};
ghost use Rattle.fol.specs.FormulaData.{ImpliesFormula};
ghost use Rattle.ref_sem.specs.Bodies.{HasU64Body};
ghost use Rattle.sum_formula.specs.Premises.{returns_formula};
ghost use Rattle.vc_gen.specs.Decided.{Decide};
ghost use Rattle.vc_gen.specs.Keys.{has_kind, key_at, keys_of};
ghost use Rattle.vc_gen.specs.Supposed.{SupposesTypes};
ghost use Rattle.vc_gen.specs.declared.condition.VerificationCondition.{VerificationCondition};
ghost use Rattle.vc_gen.specs.Conditions.{aborts_condition, at_each_return, at_no_return, condition_if, conditions_at_return, conditions_of, conditions_under};

use crate::condition::VerificationCondition;
use base::condition::{ConditionKey, ConditionKind};
use base::memory::NoMemory;
use fol::formula::{Formula, Term};
use std::alloc::Global;
use sum_formula::premises::{
    entry_conditions, implication, premise_at_return, returned_sum, returns, start,
};
use sum_formula::translation::{condition, zero};
use sum_tree::clause::{ClauseKind, SumClause};
use sum_tree::function::SumFunction;

/// The condition stating that a premise implies a claim.
fn condition_that(
    alloc: Global,
    kind: ConditionKind,
    start: u32,
    premise: &Formula,
    claim: Formula,
) -> Result<VerificationCondition, NoMemory>
    ensures { IfOk result (λ made. made ≡ record { key = key_at kind start; formula = ImpliesFormula premise.now claim }) }
{
    let formula = implication(alloc, premise, claim)?;
    let check = None;
    let key = ConditionKey { kind, start, check };
    Ok(VerificationCondition { key, formula })
}

/// Appends the condition of an `ensures` clause; a clause of another kind adds nothing.
fn push_if_ensures(
    alloc: Global,
    function: &SumFunction,
    premise: &Formula,
    returned: &Term,
    clause: &SumClause,
    conditions: &mut Vec<VerificationCondition>,
) -> Result<(), NoMemory>
    requires { length function.now.parameters ≤ 2 ^ 32 }
    ensures { OnOk result (conditions.new.items ≡ conditions.old.items ++ condition_if ClauseKind.Ensures (at_each_return function.now premise.now returned.now) clause.now) }
{
    if clause.kind == ClauseKind::Ensures {
        let parameters = function.parameters.as_slice();
        let claim = condition(alloc, parameters, returned, &clause.condition)?;
        conditions.push(condition_that(
            alloc,
            ConditionKind::Ensures,
            clause.start,
            premise,
            claim,
        )?)?;
    }
    Ok(())
}

/// Appends the condition of an `aborts_if` clause at returns; a clause of another kind adds nothing.
fn push_if_aborts_if(
    alloc: Global,
    function: &SumFunction,
    premise: &Formula,
    clause: &SumClause,
    conditions: &mut Vec<VerificationCondition>,
) -> Result<(), NoMemory>
    requires { length function.now.parameters ≤ 2 ^ 32 }
    ensures { OnOk result (conditions.new.items ≡ conditions.old.items ++ condition_if ClauseKind.AbortsIf (at_no_return function.now premise.now) clause.now) }
{
    if clause.kind == ClauseKind::AbortsIf {
        let parameters = function.parameters.as_slice();
        let refused = condition(alloc, parameters, &zero(), &clause.condition)?;
        let claim = Formula::not(Box::new(alloc, refused)?);
        conditions.push(condition_that(
            alloc,
            ConditionKind::AbortsIf,
            clause.start,
            premise,
            claim,
        )?)?;
    }
    Ok(())
}

/// Appends the conditions of the `ensures` clauses.
fn push_ensures(
    alloc: Global,
    function: &SumFunction,
    clauses: &[SumClause],
    premise: &Formula,
    returned: &Term,
    conditions: &mut Vec<VerificationCondition>,
) -> Result<(), NoMemory>
    requires { length function.now.parameters ≤ 2 ^ 32 }
    ensures { OnOk result (conditions.new.items ≡ conditions.old.items ++ flat_map (condition_if ClauseKind.Ensures (at_each_return function.now premise.now returned.now)) clauses.now) }
{
    for clause in clauses {
        push_if_ensures(alloc, function, premise, returned, clause, conditions)?;
    }
    Ok(())
}

/// Appends the conditions of the `aborts_if` clauses at returns.
fn push_aborts_if(
    alloc: Global,
    function: &SumFunction,
    clauses: &[SumClause],
    premise: &Formula,
    conditions: &mut Vec<VerificationCondition>,
) -> Result<(), NoMemory>
    requires { length function.now.parameters ≤ 2 ^ 32 }
    ensures { OnOk result (conditions.new.items ≡ conditions.old.items ++ flat_map (condition_if ClauseKind.AbortsIf (at_no_return function.now premise.now)) clauses.now) }
{
    for clause in clauses {
        push_if_aborts_if(alloc, function, premise, clause, conditions)?;
    }
    Ok(())
}

/// The condition stating that there are no aborts except those of the `aborts_if` clauses.
fn aborts(
    alloc: Global,
    function: &SumFunction,
    clauses: &[SumClause],
    returns: Box<Formula>,
) -> Result<VerificationCondition, NoMemory>
    requires few { length function.now.parameters ≤ 2 ^ 32 }
    requires returns { returns.value ≡ returns_formula function.now }
    ensures { IfOk result (λ made. made ≡ aborts_condition function.now clauses.now) }
{
    let allowed = entry_conditions(alloc, ClauseKind::AbortsIf, function, clauses)?;
    let aborted = Box::new(alloc, Formula::not(returns))?;
    let premise = Box::new(alloc, start(alloc, function, clauses, aborted)?)?;
    let claim = Formula::any_of(allowed);
    condition_that(
        alloc,
        ConditionKind::Aborts,
        function.start,
        &premise,
        claim,
    )
}

/// The conditions of the `ensures` and of the `aborts_if` clauses under a premise.
fn under_premise(
    alloc: Global,
    function: &SumFunction,
    clauses: &[SumClause],
    premise: &Formula,
    returned: &Term,
) -> Result<Vec<VerificationCondition>, NoMemory>
    requires { length function.now.parameters ≤ 2 ^ 32 }
    ensures { IfOk result (λ made. made.items ≡ conditions_under function.now clauses.now premise.now returned.now) }
{
    let mut made = Vec::new(alloc);
    push_ensures(alloc, function, clauses, premise, returned, &mut made)?;
    push_aborts_if(alloc, function, clauses, premise, &mut made)?;
    Ok(made)
}

/// The conditions of the `ensures` and of the `aborts_if` clauses.
fn at_returns(
    alloc: Global,
    function: &SumFunction,
    clauses: &[SumClause],
    returns: &Formula,
) -> Result<Vec<VerificationCondition>, NoMemory>
    requires few { length function.now.parameters ≤ 2 ^ 32 }
    requires returns { returns.now ≡ returns_formula function.now }
    ensures { IfOk result (λ made. made.items ≡ conditions_at_return function.now clauses.now) }
{
    let premise = premise_at_return(alloc, function, clauses, returns)?;
    let returned = returned_sum(alloc, function)?;
    under_premise(alloc, function, clauses, &premise, &returned)
}

/// Decides whether there is an `aborts_if` clause.
fn has_aborts_if(clauses: &[SumClause]) -> bool
    ensures { result ≡ has_kind ClauseKind.AbortsIf clauses.now }
{
    clauses
        .iter()
        .any(|clause| clause.kind == ClauseKind::AbortsIf)
}

/// The conditions of a function with the clauses of its spec.
fn generate(
    alloc: Global,
    function: &SumFunction,
    clauses: &[SumClause],
) -> Result<Vec<VerificationCondition>, NoMemory>
    requires { length function.now.parameters ≤ 2 ^ 32 }
    ensures { IfOk result (λ made. made.items ≡ conditions_of function.now clauses.now) }
{
    let returns = Box::new(alloc, returns(alloc, function)?)?;
    let mut conditions = at_returns(alloc, function, clauses, &returns)?;
    if has_aborts_if(clauses) {
        conditions.push(aborts(alloc, function, clauses, returns)?)?;
    }
    Ok(conditions)
}

/// Returns the conditions of a function with the clauses of its spec, in the order of a report. All of them are valid
/// exactly if the function keeps its contract, and each has the premise that the parameters have values of their types.
/// The function has at most 2^32 parameters. `NoMemory` if memory runs out.
pub fn conditions(
    alloc: Global,
    function: &SumFunction,
    clauses: &[SumClause],
) -> Result<Vec<VerificationCondition>, NoMemory>
    requires { length function.now.parameters ≤ 2 ^ 32 }
    ensures keys { IfOk result (λ made. map (λ (c : VerificationCondition). c.key) made.items ≡ keys_of function.now clauses.now) }
    ensures decide { HasU64Body function.now → IfOk result (λ made. Decide function.now clauses.now made.items) }
    ensures typed { IfOk result (λ made. All (λ (c : VerificationCondition). SupposesTypes function.now.parameters c.formula) made.items) }
{
    generate(alloc, function, clauses)
}
