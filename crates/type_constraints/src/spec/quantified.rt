//! The constraints of quantifiers.

ghost use Rattle.std.specs.Prelude.{◌≡◌, ◌++◌, ◌∷◌, ◌-◌, List, ℕ, IfOk, OnOk};
ghost use Rattle.std.specs.List.{flat_map};
ghost use Rattle.base.specs.TypeData.{BoolType};
ghost use Rattle.typing_rules.specs.CodeConstraints.{has};
ghost use Rattle.typing_rules.specs.SpecConstraints.{bind_constraints, declared_variables, domain_ranges, quantified_parts, range_count};
ghost use Rattle.type_constraints.specs.Seen.{seen, seen_all};
ghost use Rattle.type_constraints.specs.SpecSettings.{setting_of};

use crate::code::written::is_proper_single;
use crate::constraint::{Constraint, PlainType, TypeForm, add, has};
use crate::spec::names::read_there;
use crate::spec::setting::SpecSetting;
use crate::spec::variables::{binds_in, variable_of_name};
use base::memory::NoMemory;
use program::spec::{Bind, Domain};
use std::alloc::Global;
use typing_rules::sort::Sort;

/// The number of ranges of a domain.
fn domain_ranges(domain: &Domain) -> usize
    ensures { result ≡ domain_ranges domain.now }
{
    match domain {
        Domain::Of(_) => 0,
        Domain::In => 1,
    }
}

/// The number of variables that range over whole numbers.
fn range_count(binds: &[Bind]) -> Result<usize, NoMemory>
    ensures { IfOk result (λ count. count ≡ range_count binds.now) }
{
    let mut count: usize = 0;
    for bind in binds {
        count = count
            .checked_add(domain_ranges(&bind.domain))
            .ok_or(NoMemory)?;
    }
    Ok(count)
}

/// The constraint of a part: of a range, which has no value, while `ranges` are left; else of a term of a trigger,
/// which has one.
fn part_constraint<'a>(ranges: usize, part: usize) -> Constraint<'a>
    ensures { (more : ℕ) (rest : List ℕ) → quantified_parts ranges (part ∷ more ∷ rest) ≡ seen result ∷ quantified_parts (ranges - 1) (more ∷ rest) }
{
    if ranges == 0 {
        Constraint::IsOf(Sort::Value, part)
    } else {
        has(part, PlainType::Nothing)
    }
}

/// Adds the constraints of the parts of a quantifier: so many ranges, then terms of triggers, and last its body.
fn add_parts<'a>(
    constraints: &mut Vec<Constraint<'a>>,
    ranges: usize,
    parts: &[usize],
) -> Result<(), NoMemory>
    ensures { OnOk result (seen_all constraints.new.items ≡ seen_all constraints.old.items ++ quantified_parts ranges parts.now) }
{
    let Some((first, rest)) = parts.split_first() else {
        return add(constraints, &[Constraint::Barred]);
    };
    let mut part = *first;
    let mut left = ranges;
    for next in rest {
        add(constraints, &[part_constraint(left, part)])?;
        left = left.saturating_sub(1);
        part = *next;
    }
    add(constraints, &[has(part, PlainType::Bool)])
}

/// Adds the constraints of the quantifier with the number `variable`.
pub fn add_quantified<'a>(
    constraints: &mut Vec<Constraint<'a>>,
    variable: usize,
    binds: &[Bind],
    parts: &[usize],
) -> Result<(), NoMemory>
    ensures { OnOk result (seen_all constraints.new.items ≡ seen_all constraints.old.items ++ has variable BoolType ∷ quantified_parts (range_count binds.now) parts.now) }
{
    let ranges = range_count(binds)?;
    add(constraints, &[has(variable, PlainType::Bool)])?;
    add_parts(constraints, ranges, parts)
}

/// Adds the constraint of a variable: it ranges over the values of its type; one with `in` over whole numbers.
fn add_variable<'a>(
    constraints: &mut Vec<Constraint<'a>>,
    setting: SpecSetting<'a>,
    bind: &'a Bind,
) -> Result<(), NoMemory>
    ensures { OnOk result (seen_all constraints.new.items ≡ seen_all constraints.old.items ++ bind_constraints (setting_of setting.entry) bind.now) }
{
    let variable = variable_of_name(setting, bind.variable)?;
    match &bind.domain {
        Domain::Of(of) => {
            if is_proper_single(&setting.program.structs, of) {
                let form = TypeForm::Read(read_there(setting.names.owner, of));
                add(constraints, &[Constraint::Has(variable, form)])
            } else {
                add(constraints, &[Constraint::Barred])
            }
        }
        Domain::In => add(constraints, &[has(variable, PlainType::Num)]),
    }
}

fn add_variables<'a>(
    constraints: &mut Vec<Constraint<'a>>,
    setting: SpecSetting<'a>,
    binds: &'a [Bind],
) -> Result<(), NoMemory>
    ensures { OnOk result (seen_all constraints.new.items ≡ seen_all constraints.old.items ++ flat_map (bind_constraints (setting_of setting.entry)) binds.now) }
{
    for bind in binds {
        add_variable(constraints, setting, bind)?;
    }
    Ok(())
}

/// Returns the constraints of the first step: the variables of quantifiers are declared with their types.
#[tactic(auto, using(crate::proofs::Sums::declared_more, crate::proofs::Sums::declared_last))]
pub fn declared_variables<'a>(
    alloc: Global,
    setting: SpecSetting<'a>,
) -> Result<Vec<Constraint<'a>>, NoMemory>
    ensures { IfOk result (λ constraints. seen_all constraints.items ≡ declared_variables (setting_of setting.entry)) }
{
    let mut constraints = Vec::new(alloc);
    for index in 0..setting.body.len() {
        let binds = binds_in(setting.body.node(index));
        add_variables(&mut constraints, setting, binds)?;
    }
    Ok(constraints)
}
