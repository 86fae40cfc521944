//! Systems with answers that were worked out by hand.

use linear_arith::rows::{Fraction, LinAnswer, LinRow, Rows};
use linear_arith::solve;
use std::alloc::Global;
use std::panic::Expect;
use std::process::Abort;

const BIG: i128 = 1267650600228229401496703205376;

fn write_numbers(rt: &impl Abort, numbers: &[i128], text: &mut String) {
    for number in numbers {
        write!(text, " {number}").expect(rt, "memory");
    }
}

fn write_values(rt: &impl Abort, values: &[Fraction], text: &mut String) {
    for value in values {
        let unknown = value.unknown;
        let numerator = value.numerator;
        let denominator = value.denominator;
        write!(text, " {unknown}:{numerator}/{denominator}").expect(rt, "memory");
    }
}

fn write_answer(rt: &impl Abort, answer: &LinAnswer, text: &mut String) {
    match answer {
        LinAnswer::Infeasible(multipliers) => {
            write!(text, "infeasible").expect(rt, "memory");
            write_numbers(rt, multipliers.as_slice(), text);
        }
        LinAnswer::Feasible(values) => {
            write!(text, "feasible").expect(rt, "memory");
            write_values(rt, values.as_slice(), text);
        }
        LinAnswer::Wide(first, second) => {
            write!(text, "wide").expect(rt, "memory");
            write_numbers(rt, &[first.bound(), second.bound()], text);
        }
        LinAnswer::TooManyRows(rows) => {
            let count = rows.as_slice().len();
            write!(text, "rows {count}").expect(rt, "memory");
        }
    }
}

fn text_of(rt: &impl Abort, alloc: Global, rows: &[(&[i128], i128)]) -> String {
    let mut system = Rows::new(alloc);
    for (coefficients, bound) in rows {
        let coefficients = Vec::from_slice(alloc, *coefficients).expect(rt, "memory");
        system
            .push(LinRow::new(coefficients, *bound))
            .expect(rt, "memory");
    }
    let mut text = String::new(alloc);
    if system.fit() {
        let answer = solve(alloc, &system).expect(rt, "memory");
        write_answer(rt, &answer, &mut text);
    }
    text
}

// The answer to a system, as a text.
fn answers(rt: &impl Abort, alloc: Global, rows: &[(&[i128], i128)], wanted: &str) {
    let text = text_of(rt, alloc, rows);
    assert_eq!(rt; text.as_str(), wanted);
}

// The word of an answer, without what it carries.
fn answers_with(rt: &impl Abort, alloc: Global, rows: &[(&[i128], i128)], wanted: &str) {
    let text = text_of(rt, alloc, rows);
    let word = text.split(' ').next().unwrap_or("");
    assert_eq!(rt; word, wanted, "{text}");
}

#[test]
fn systems_of_one_unknown(rt: HostRuntime) {
    let a = rt.alloc();
    answers(&rt, a, &[], "feasible");
    answers(&rt, a, &[(&[], 0)], "feasible");
    answers(&rt, a, &[(&[], -1)], "infeasible 1");
    answers(&rt, a, &[(&[2], 1), (&[-2], -1)], "feasible 0:1/2");
    answers(&rt, a, &[(&[2], 5), (&[-2], -3)], "feasible 0:2/1");
    answers(&rt, a, &[(&[3], -4)], "feasible 0:-2/1");
    answers(&rt, a, &[(&[-3], -4)], "feasible 0:2/1");
    answers(&rt, a, &[(&[2], 1), (&[-3], -2)], "infeasible 3 2");
    answers(
        &rt,
        a,
        &[(&[1], -i128::MAX)],
        "feasible 0:-170141183460469231731687303715884105727/1",
    );
    answers(&rt, a, &[(&[-i128::MAX], -i128::MAX)], "feasible 0:1/1");
}

#[test]
fn systems_of_several_unknowns(rt: HostRuntime) {
    let a = rt.alloc();
    answers(&rt, a, &[(&[1, -1], -1), (&[-1, 1], 0)], "infeasible 1 1");
    answers(&rt, a, &[(&[BIG, -1], 0), (&[-1, BIG], -1)], "wide 0 -1");
    answers(
        &rt,
        a,
        &[(&[1, 1], 10), (&[-1], -3), (&[0, -1], -8)],
        "infeasible 1 1 1",
    );
    answers(
        &rt,
        a,
        &[(&[1, 1], 10), (&[1, 1], 10), (&[-1, -1], -11)],
        "infeasible 1 0 1",
    );
}

// Whether bounded systems of few unknowns have a solution was worked out by trying every corner, in
// exact fractions; the rest by hand.
#[test]
fn twenty_systems(rt: HostRuntime) {
    let a = rt.alloc();
    answers_with(
        &rt,
        a,
        &[
            (&[1, 0, 0], 4),
            (&[-1, 0, 0], 0),
            (&[0, 1, 0], 8),
            (&[0, -1, 0], 0),
            (&[0, 0, 1], 2),
            (&[0, 0, -1], 0),
            (&[4, -3, 1], -8),
            (&[4, -1, -4], -7),
        ],
        "feasible",
    );
    answers_with(
        &rt,
        a,
        &[
            (&[1, 0, 0], 8),
            (&[-1, 0, 0], 0),
            (&[0, 1, 0], 3),
            (&[0, -1, 0], 0),
            (&[0, 0, 1], 5),
            (&[0, 0, -1], 0),
            (&[4, 2, -4], -6),
            (&[-1, -4, 2], -8),
        ],
        "infeasible",
    );
    answers_with(
        &rt,
        a,
        &[
            (&[1, 0], 2),
            (&[-1, 0], 0),
            (&[0, 1], 4),
            (&[0, -1], 0),
            (&[2, -2], -6),
            (&[0, 4], -4),
            (&[-3, -1], 2),
        ],
        "infeasible",
    );
    answers_with(
        &rt,
        a,
        &[
            (&[1, 0], 3),
            (&[-1, 0], 0),
            (&[0, 1], 2),
            (&[0, -1], 0),
            (&[3, 4], 4),
            (&[1, 3], 5),
        ],
        "feasible",
    );
    answers_with(
        &rt,
        a,
        &[
            (&[1, 0, 0], 6),
            (&[-1, 0, 0], 0),
            (&[0, 1, 0], 5),
            (&[0, -1, 0], 0),
            (&[0, 0, 1], 4),
            (&[0, 0, -1], 0),
            (&[-3, 0, 4], 6),
            (&[1, 3, 0], -7),
        ],
        "infeasible",
    );
    answers_with(
        &rt,
        a,
        &[
            (&[1, 0], 8),
            (&[-1, 0], 0),
            (&[0, 1], 4),
            (&[0, -1], 0),
            (&[-2, 3], 4),
            (&[-4, -3], 1),
            (&[1, 1], 6),
        ],
        "feasible",
    );
    answers_with(
        &rt,
        a,
        &[
            (&[1, 0, 0], 9),
            (&[-1, 0, 0], 0),
            (&[0, 1, 0], 3),
            (&[0, -1, 0], 0),
            (&[0, 0, 1], 3),
            (&[0, 0, -1], 0),
            (&[3, -3, -4], 0),
            (&[3, 0, 2], 2),
            (&[-4, 3, 1], -4),
        ],
        "infeasible",
    );
    answers_with(
        &rt,
        a,
        &[
            (&[1, 0, 0], 3),
            (&[-1, 0, 0], 0),
            (&[0, 1, 0], 9),
            (&[0, -1, 0], 0),
            (&[0, 0, 1], 2),
            (&[0, 0, -1], 0),
            (&[0, -2, -1], 3),
            (&[2, 3, -3], -4),
        ],
        "feasible",
    );
    answers_with(
        &rt,
        a,
        &[
            (&[1, 0, 0], 8),
            (&[-1, 0, 0], 0),
            (&[0, 1, 0], 6),
            (&[0, -1, 0], 0),
            (&[0, 0, 1], 4),
            (&[0, 0, -1], 0),
            (&[4, 0, 2], 2),
            (&[2, -1, -2], -7),
            (&[-2, -2, -1], -2),
        ],
        "feasible",
    );
    answers_with(
        &rt,
        a,
        &[
            (&[1, 0], 9),
            (&[-1, 0], 0),
            (&[0, 1], 4),
            (&[0, -1], 0),
            (&[0, -4], -5),
            (&[2, 4], 2),
            (&[1, -2], -8),
        ],
        "infeasible",
    );
    answers_with(&rt, a, &[(&[3, 3], 2), (&[-3, -3], -1)], "feasible");
    answers_with(
        &rt,
        a,
        &[(&[1, -1], 0), (&[0, 1, -1], 0), (&[-1, 0, 1], -1)],
        "infeasible",
    );
    answers_with(
        &rt,
        a,
        &[(&[1, -1], 0), (&[0, 1, -1], 0), (&[-1, 0, 1], 0)],
        "feasible",
    );
    answers_with(&rt, a, &[(&[], 5), (&[0, 0], 0), (&[0], -2)], "infeasible");
    answers_with(
        &rt,
        a,
        &[(&[0, 0, 1], 7), (&[1], -7), (&[0, -1], 3)],
        "feasible",
    );
    answers_with(&rt, a, &[(&[-i128::MAX], 0), (&[1], -1)], "infeasible");
    answers_with(&rt, a, &[(&[-1], -i128::MAX)], "feasible");
    answers_with(&rt, a, &[(&[1], -i128::MAX), (&[-1], -i128::MAX)], "wide");
    answers_with(
        &rt,
        a,
        &[(&[-i128::MAX, 1], 0), (&[1, -i128::MAX], -1)],
        "wide",
    );
    answers_with(
        &rt,
        a,
        &[(&[i128::MAX], i128::MAX), (&[-i128::MAX], -i128::MAX)],
        "feasible",
    );
}

// Half of the range above and below: the sum of the bounds is -2^127, which is no number that fits.
#[test]
fn the_least_number_of_128_bits(rt: HostRuntime) {
    let a = rt.alloc();
    let half = i128::MIN / 2;
    answers_with(&rt, a, &[(&[1], half), (&[-1], half)], "wide");
    answers_with(&rt, a, &[(&[1], half), (&[-1], half + 1)], "infeasible");
    answers(&rt, a, &[(&[1], i128::MIN)], "");
    answers(&rt, a, &[(&[i128::MIN], 0)], "");
}
