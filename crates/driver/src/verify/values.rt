//! The values of a function's parameters on an open branch.

ghost use Rattle.std.specs.Prelude.{◌≡◌, ◌≤◌, ◌<ℤ◌, ◌*ℤ◌, ◌^◌, length, pos, position, slice_index, IfOk, IfSome};
ghost use Rattle.base.specs.Names.{same_name};
ghost use Rattle.linear_arith.specs.declared.rows.Fraction.{Fraction};
ghost use Rattle.driver.specs.OpenValues.{AreValuesOf, AreWholeAt, IsNumber, IsParameterValue, IsValueAt, IsValueOf, IsWholeAt, Likely, fraction_of, is_of};
ghost use Rattle.certificates.specs.Rows.{IsWholeValue};

use base::memory::NoMemory;
use base::name::Name;
use linear_arith::numbers::floor_quotient;
use linear_arith::rows::Fraction;
use report::report::ParameterValue;
use search::values::OpenValues;
use std::alloc::Global;
use sum_formula::translation::position_of;
use term_pool::node::{Leaf, Node};
use term_pool::pool::Pool;

/// The values of the parameters, which are variables by their indexes, on a branch with these values of its classes.
pub(crate) fn values_of(
    alloc: Global,
    pool: &Pool,
    values: &OpenValues,
    parameters: &[Name],
) -> Result<Vec<ParameterValue>, NoMemory>
    requires few { length parameters.now ≤ 2 ^ 32 }
    requires whole { AreWholeAt pool.now values.now parameters.now }
    ensures { IfOk result (λ found. AreValuesOf pool.now values.now parameters.now found.items) }
{
    let mut found = Vec::new(alloc);
    for name in parameters {
        found.push(parameter_value(alloc, pool, values, parameters, name)?)?;
    }
    Ok(found)
}

// The value of the parameter with this name.
fn parameter_value(
    alloc: Global,
    pool: &Pool,
    values: &OpenValues,
    parameters: &[Name],
    name: &Name,
) -> Result<ParameterValue, NoMemory>
    requires few { length parameters.now ≤ 2 ^ 32 }
    requires whole { AreWholeAt pool.now values.now parameters.now }
    ensures { IfOk result (IsParameterValue pool.now values.now parameters.now name.now) }
{
    let number = number_of(pool, values, parameters, name.as_slice());
    let name = name.try_clone(alloc)?;
    Ok(ParameterValue { name, number })
}

// The value of the variable that is the first parameter of this name.
fn number_of(pool: &Pool, values: &OpenValues, parameters: &[Name], name: &[u8]) -> i128
    requires few { length parameters.now ≤ 2 ^ 32 }
    requires whole { AreWholeAt pool.now values.now parameters.now }
    ensures { IsValueAt pool.now values.now (position (same_name name.now) parameters.now) result }
{
    match position_of(parameters, name) {
        Some(index) => value_of(pool, values, index as u32),
        None => 0,
    }
}

// The value of a variable.
fn value_of(pool: &Pool, values: &OpenValues, variable: u32) -> i128
    requires { IsWholeAt pool.now values.now variable }
    ensures { IsValueOf pool.now values.now variable result }
{
    match pool.find(Node::Leaf(Leaf::Var(variable))) {
        Some(number) => whole_number(fraction_of(values, class_of(values, number))),
        None => 0,
    }
}

// The representative of the class of the term with this number.
fn class_of(values: &OpenValues, number: usize) -> usize
    ensures { result ≡ slice_index values.now.names.items number }
{
    values.names.get(number).copied().unwrap_or(0)
}

// The value of the class with this representative.
fn fraction_of(values: &OpenValues, name: usize) -> Option<Fraction>
    ensures { result ≡ fraction_of values.now name }
{
    let fractions = values.values.as_slice();
    match index_of(values, name) {
        Some(index) => fractions.get(index).copied(),
        None => None,
    }
}

// The index of the first value of the class with this representative.
fn index_of(values: &OpenValues, name: usize) -> Option<usize>
    ensures { result ≡ position (is_of values.now name) values.now.values }
{
    values
        .values
        .as_slice()
        .iter()
        .position(|fraction| is_of(values, name, *fraction))
}

// Decides whether the fraction is the value of the class with this representative.
fn is_of(values: &OpenValues, name: usize, fraction: Fraction) -> bool
    ensures { result ≡ is_of values.now name fraction }
{
    match values.classes.get(fraction.unknown) {
        Some(class) => *class == name,
        None => false,
    }
}

// The number equal to a whole fraction; 0 if there is no fraction.
fn whole_number(fraction: Option<Fraction>) -> i128
    requires { IfSome fraction (λ f. (pos 0 <ℤ f.denominator) × Likely (IsWholeValue f)) }
    ensures { IsNumber fraction result }
{
    match fraction {
        Some(value) => quotient(value),
        None => 0,
    }
}

// The number equal to the fraction.
fn quotient(value: Fraction) -> i128
    requires positive { pos 0 <ℤ value.denominator }
    requires whole { Likely (IsWholeValue value) }
    ensures { value.numerator ≡ result *ℤ value.denominator }
{
    floor_quotient(value.numerator, value.denominator.unsigned_abs())
}
