//! Linear combinations of classes.

ghost use Rattle.std.specs.Prelude.{◌≡◌, pos, false, not, [], ◌∷◌, IfOk, IfSome, MatchOption};
ghost use Rattle.row_reasoning.specs.Sums.{coefficient_in, IsKept, AddsUp, turn_of, turned, IsPlusMultiple, LeavesPlusMultiple, IsJoined, LeavesJoined, IsMultiple, LeavesMultiple};

use base::memory::NoMemory;
use indexmap::IndexMap;
use linear_arith::combination::plus_product;
use std::alloc::Global;

/// A constant part and the coefficients of some classes, all negated if `is_negated`: so the difference of two sums
/// takes time linear in the classes of the smaller one.
#[derive(Drop)]
pub(crate) struct LinearSum {
    pub(crate) is_negated: bool,
    pub(crate) constant: i128,
    /// Each class of an unknown has a coefficient, possibly 0.
    pub(crate) coefficients: IndexMap<usize, i128>,
}

/// The constant sum of this number.
pub(crate) fn constant(alloc: Global, number: i128) -> LinearSum
    ensures sign { result.is_negated ≡ false }
    ensures constant { result.constant ≡ number }
    ensures coefficients { result.coefficients.entries ≡ [] }
{
    LinearSum {
        is_negated: false,
        constant: number,
        coefficients: IndexMap::new(alloc),
    }
}

/// The class with the coefficient 1.
pub(crate) fn single(alloc: Global, class: usize) -> Result<LinearSum, NoMemory>
    ensures sign { IfOk result (λ sum. sum.is_negated ≡ false) }
    ensures constant { IfOk result (λ sum. sum.constant ≡ pos 0) }
    ensures coefficients { IfOk result (λ sum. sum.coefficients.entries ≡ (class, pos 1) ∷ []) }
{
    let mut coefficients = IndexMap::new(alloc);
    coefficients.insert(class, 1)?;
    Ok(LinearSum {
        is_negated: false,
        constant: 0,
        coefficients,
    })
}

// The coefficient of a class.
fn coefficient(coefficients: &IndexMap<usize, i128>, class: usize) -> i128
    ensures { result ≡ coefficient_in coefficients.now.entries class }
{
    coefficients.get(&class).copied().unwrap_or(0)
}

// Adds a multiple of the second coefficients to the first ones. Returns false if a number overflows 128 bits.
fn add_multiple(
    first: &mut IndexMap<usize, i128>,
    factor: i128,
    second: &IndexMap<usize, i128>,
) -> Result<bool, NoMemory>
    ensures { IfOk result (AddsUp factor first.old.entries second.now.entries first.new.entries) }
{
    for position in 0..second.len() {
        if let Some((class, number)) = second.get_index(position) {
            let total = coefficient(first, *class);
            let Some(sum) = plus_product(total, factor, *number) else {
                return Ok(false);
            };
            first.insert(*class, sum)?;
        }
    }
    Ok(true)
}

// The first sum plus a multiple of the second, both before their signs. `None` if a number overflows 128 bits.
fn plus_multiple(
    first: LinearSum,
    factor: i128,
    second: &LinearSum,
) -> Result<Option<LinearSum>, NoMemory>
    requires { IsKept first }
    ensures { IfOk result (λ made. MatchOption made (LeavesPlusMultiple first factor second.now) (IsPlusMultiple first factor second.now)) }
{
    let LinearSum {
        is_negated,
        constant,
        mut coefficients,
    } = first;
    let Some(constant) = plus_product(constant, factor, second.constant) else {
        return Ok(None);
    };
    if add_multiple(&mut coefficients, factor, &second.coefficients)? {
        Ok(Some(LinearSum {
            is_negated,
            constant,
            coefficients,
        }))
    } else {
        Ok(None)
    }
}

// The factor by which the second number, before its sign, is added to the first.
fn turn(first: bool, second: bool, is_difference: bool) -> i128
    ensures { result ≡ turn_of first second is_difference }
{
    match (first, second, is_difference) {
        (false, false, false) | (false, true, true) | (true, false, true) | (true, true, false) =>
            1,
        _ => -1,
    }
}

// The sign, flipped if the sum is subtracted.
fn turned(is_negated: bool, is_difference: bool) -> bool
    ensures { result ≡ turned is_negated is_difference }
{
    if is_negated {
        !is_difference
    } else {
        is_difference
    }
}

/// The sum or the difference of two sums. `None` if a number overflows 128 bits.
pub(crate) fn joined(
    first: LinearSum,
    second: LinearSum,
    is_difference: bool,
) -> Result<Option<LinearSum>, NoMemory>
    requires first { IsKept first }
    requires second { IsKept second }
    ensures is { IfOk result (λ made. MatchOption made (LeavesJoined is_difference first second) (IsJoined is_difference first second)) }
    ensures fits { IfOk result (λ made. IfSome made IsKept) }
{
    let factor = turn(first.is_negated, second.is_negated, is_difference);
    if first.coefficients.len() >= second.coefficients.len() {
        return plus_multiple(first, factor, &second);
    }
    let Some(sum) = plus_multiple(second, factor, &first)? else {
        return Ok(None);
    };
    let LinearSum {
        is_negated,
        constant,
        coefficients,
    } = sum;
    Ok(Some(LinearSum {
        is_negated: turned(is_negated, is_difference),
        constant,
        coefficients,
    }))
}

/// A multiple of a sum. `None` if a number overflows 128 bits.
pub(crate) fn multiplied(
    alloc: Global,
    factor: i128,
    sum: &LinearSum,
) -> Result<Option<LinearSum>, NoMemory>
    ensures is { IfOk result (λ made. MatchOption made (LeavesMultiple factor sum.now) (IsMultiple factor sum.now)) }
    ensures fits { IfOk result (λ made. IfSome made IsKept) }
{
    let nothing = LinearSum {
        is_negated: sum.is_negated,
        constant: 0,
        coefficients: IndexMap::new(alloc),
    };
    plus_multiple(nothing, factor, sum)
}

/// The sum with the opposite sign.
pub(crate) fn negated(sum: LinearSum) -> LinearSum
    requires { IsKept sum }
    ensures sign { result.is_negated ≡ not sum.is_negated }
    ensures constant { result.constant ≡ sum.constant }
    ensures coefficients { result.coefficients ≡ sum.coefficients }
    ensures fits { IsKept result }
{
    let LinearSum {
        is_negated,
        constant,
        coefficients,
    } = sum;
    LinearSum {
        is_negated: !is_negated,
        constant,
        coefficients,
    }
}
