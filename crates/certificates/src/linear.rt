//! Linear combinations of entries, read as rows over whole numbers.

ghost use Rattle.std.specs.Prelude.{◌≡◌, ◌↔◌, ℕ, suc, ◌+ℤ◌, ◌-ℤ◌, ◌*ℤ◌, ◌<ℤ◌, IsTrue, Some, pos, slice_get, All};
ghost use Rattle.std.specs.Option.{option_map};
ghost use Rattle.certificates.specs.Branch.{entries_of, entry_formula, IsCounted};
ghost use Rattle.certificates.specs.Linear.{kept, kept_of, numeral_of, numeral_weight, unknown_weight, weight, row_of, negated_row_of, row_of_entry, row_weight, total, MayMultiply, MayCount, IsContradiction};
ghost use Rattle.certificates.specs.LinearView.{part_of, row_data};
ghost use Rattle.certificates.specs.Unknowns.{EachUnknown, IsGone, RowGone, Cancels};

use crate::branch::{Branch, Entry, entry_at};
use crate::certificate::Multiple;
use fol::formula::{Formula, FormulaNode, Term, TermNode};
use fol::operators::{Binary, Comparison, Constant};
use fol::same::same_term;
use linear_arith::numbers::{difference, fitting, product, sum};

/// A component of a sum.
#[derive(Clone, Copy)]
pub enum Part<'a> {
    /// Its constant part.
    Constant,
    /// The coefficient of this unknown.
    Coefficient(&'a Term),
}

/// An entry as a linear constraint on two terms.
#[derive(Clone, Copy)]
pub struct Row<'a> {
    pub lesser: &'a Term,
    pub greater: &'a Term,
    /// The lesser plus the gap is at most the greater.
    pub gap: i128,
    /// The terms are equal numbers.
    pub is_equation: bool,
}

/// Decides whether the combination of these entries is the contradiction that a positive number is at most 0.
pub fn is_contradiction(branch: &Branch<'_>, multiples: &[Multiple]) -> bool
    requires { IsCounted branch.now }
    ensures { IsTrue result ↔ IsContradiction (entries_of branch.now) multiples.now }
{
    if !may_all_count(branch, multiples) {
        return false;
    }
    if !is_positive(total(Part::Constant, branch, multiples)) {
        return false;
    }
    all_cancel(branch, multiples)
}

fn is_positive(number: Option<i128>) -> bool
    ensures { IsTrue result ↔ ((n : ℕ) × (number ≡ Some (pos (suc n)))) }
{
    match number {
        Some(z) => is_above_zero(z),
        None => false,
    }
}

fn is_above_zero(number: i128) -> bool
    ensures { IsTrue result ↔ (pos 0 <ℤ number) }
{
    number > 0
}

fn may_all_count(branch: &Branch<'_>, multiples: &[Multiple]) -> bool
    requires { IsCounted branch.now }
    ensures { IsTrue result ↔ All (MayCount (entries_of branch.now)) multiples.now }
{
    for multiple in multiples {
        if !may_count(branch, *multiple) {
            return false;
        }
    }
    true
}

fn may_count(branch: &Branch<'_>, multiple: Multiple) -> bool
    requires { IsCounted branch.now }
    ensures { IsTrue result ↔ MayCount (entries_of branch.now) multiple }
{
    match row_at(branch, multiple) {
        Some(row) => row.is_equation || multiple.multiplier >= 0,
        None => false,
    }
}

// Decides whether all unknowns cancel in the combination.
fn all_cancel(branch: &Branch<'_>, multiples: &[Multiple]) -> bool
    requires { IsCounted branch.now }
    ensures { IsTrue result ↔ All (Cancels (entries_of branch.now) multiples.now) multiples.now }
{
    for multiple in multiples {
        if !row_cancels(branch, multiples, row_at(branch, *multiple)) {
            return false;
        }
    }
    true
}

// Decides whether all unknowns of the row cancel in the combination.
fn row_cancels(branch: &Branch<'_>, multiples: &[Multiple], row: Option<Row<'_>>) -> bool
    requires { IsCounted branch.now }
    ensures { IsTrue result
        ↔ RowGone (entries_of branch.now) multiples.now (option_map row_data row.entry) }
{
    match row {
        Some(row) => {
            cancels(branch, multiples, row.lesser) && cancels(branch, multiples, row.greater)
        }
        None => false,
    }
}

// Decides whether all unknowns of the term cancel in the combination.
fn cancels(branch: &Branch<'_>, multiples: &[Multiple], term: &Term) -> bool
    requires { IsCounted branch.now }
    ensures { IsTrue result
        ↔ EachUnknown (IsGone (entries_of branch.now) multiples.now) term.now }
{
    match &term.node {
        TermNode::Constant(Constant::Num(_)) => true,
        TermNode::Binary(Binary::Add, t, u) | TermNode::Binary(Binary::Sub, t, u) => {
            cancels(branch, multiples, t) && cancels(branch, multiples, u)
        }
        TermNode::Binary(Binary::Mul, t, u) => match (numeral_of(t), numeral_of(u)) {
            (Some(_), _) => cancels(branch, multiples, u),
            (None, Some(_)) => cancels(branch, multiples, t),
            (None, None) => is_zero(total(Part::Coefficient(term), branch, multiples)),
        },
        _ => is_zero(total(Part::Coefficient(term), branch, multiples)),
    }
}

fn is_zero(number: Option<i128>) -> bool
    ensures { IsTrue result ↔ (number ≡ Some (pos 0)) }
{
    match number {
        Some(z) => z == 0,
        None => false,
    }
}

// A component of the sum of the entries with their multipliers.
fn total(part: Part<'_>, branch: &Branch<'_>, multiples: &[Multiple]) -> Option<i128>
    requires { IsCounted branch.now }
    ensures { result ≡ total (part_of part.entry) (entries_of branch.now) multiples.now }
{
    let mut sum = Some(0);
    for multiple in multiples {
        let weight = row_weight(part, row_at(branch, *multiple));
        sum = kept_sum(sum, kept_product(Some(multiple.multiplier), weight));
    }
    sum
}

// The row of an entry.
fn row_at<'a>(branch: &Branch<'a>, multiple: Multiple) -> Option<Row<'a>>
    requires { IsCounted branch.now }
    ensures { option_map row_data result
        ≡ row_of_entry (slice_get (entries_of branch.now) multiple.entry) }
{
    match entry_at(branch, multiple.entry as usize) {
        Some(entry) => row_of(entry),
        None => None,
    }
}

fn row_of<'a>(entry: Entry<'a>) -> Option<Row<'a>>
    ensures { option_map row_data result ≡ row_of (entry_formula entry.entry) }
{
    match entry {
        Entry::Negated(of) => negated_row(of),
        Entry::Plain(of) => plain_row(of),
    }
}

/// The row of a formula. None if the formula is no linear constraint.
pub fn plain_row<'a>(of: &'a Formula) -> Option<Row<'a>>
    ensures { option_map row_data result ≡ row_of of.now }
{
    match &of.node {
        FormulaNode::Compare(Comparison::Le, t, u) => Some(Row {
            lesser: t,
            greater: u,
            gap: 0,
            is_equation: false,
        }),
        FormulaNode::Compare(Comparison::Eq, t, u) => Some(Row {
            lesser: t,
            greater: u,
            gap: 0,
            is_equation: true,
        }),
        FormulaNode::Not(of) => negated_row(of),
        _ => None,
    }
}

fn negated_row<'a>(of: &'a Formula) -> Option<Row<'a>>
    ensures { option_map row_data result ≡ negated_row_of of.now }
{
    match &of.node {
        FormulaNode::Compare(Comparison::Le, t, u) => Some(Row {
            lesser: u,
            greater: t,
            gap: 1,
            is_equation: false,
        }),
        _ => None,
    }
}

/// A component of the row as a sum: the lesser minus the greater, plus the gap. None if an intermediate number
/// overflows 128 bits, or if there is no row.
pub fn row_weight(part: Part<'_>, row: Option<Row<'_>>) -> Option<i128>
    ensures { result ≡ row_weight (part_of part.entry) (option_map row_data row.entry) }
{
    match row {
        Some(row) => {
            let gap = match part {
                Part::Constant => row.gap,
                Part::Coefficient(_) => 0,
            };
            kept_sum(
                kept_difference(weight(part, row.lesser), weight(part, row.greater)),
                Some(gap),
            )
        }
        None => None,
    }
}

// A component of a term as a sum.
fn weight(part: Part<'_>, term: &Term) -> Option<i128>
    ensures { result ≡ weight (part_of part.entry) term.now }
{
    match &term.node {
        TermNode::Constant(Constant::Num(i)) => numeral_weight(part, *i),
        TermNode::Binary(Binary::Add, t, u) => kept_sum(weight(part, t), weight(part, u)),
        TermNode::Binary(Binary::Sub, t, u) => kept_difference(weight(part, t), weight(part, u)),
        TermNode::Binary(Binary::Mul, t, u) => match (numeral_of(t), numeral_of(u)) {
            (Some(c), _) => kept_product(Some(c), weight(part, u)),
            (None, Some(c)) => kept_product(Some(c), weight(part, t)),
            (None, None) => Some(unknown_weight(part, term)),
        },
        _ => Some(unknown_weight(part, term)),
    }
}

fn numeral_weight(part: Part<'_>, number: i128) -> Option<i128>
    ensures { result ≡ numeral_weight (part_of part.entry) number }
{
    match part {
        Part::Constant => kept(number),
        Part::Coefficient(_) => Some(0),
    }
}

fn unknown_weight(part: Part<'_>, term: &Term) -> i128
    ensures { Some result ≡ unknown_weight (part_of part.entry) term.now }
{
    match part {
        Part::Constant => 0,
        Part::Coefficient(unknown) => { if same_term(term, unknown) { 1 } else { 0 } }
    }
}

/// The number of a numeral. None for any other term.
pub fn numeral_of(term: &Term) -> Option<i128>
    ensures { result ≡ numeral_of term.now }
{
    match &term.node {
        TermNode::Constant(Constant::Num(i)) => Some(*i),
        _ => None,
    }
}

// The number, if it fits.
fn kept(number: i128) -> Option<i128>
    ensures { result ≡ kept number }
{
    fitting(number)
}

fn kept_sum(x: Option<i128>, y: Option<i128>) -> Option<i128>
    ensures { result ≡ kept_of ◌+ℤ◌ x y }
{
    sum(x?, y?)
}

fn kept_difference(x: Option<i128>, y: Option<i128>) -> Option<i128>
    ensures { result ≡ kept_of ◌-ℤ◌ x y }
{
    difference(x?, y?)
}

fn kept_product(x: Option<i128>, y: Option<i128>) -> Option<i128>
    ensures { result ≡ kept_of ◌*ℤ◌ x y }
{
    product(x?, y?)
}
