//! Answers that are known.

ghost use Rattle.std.specs.Prelude.{◌≡◌, ◌<◌};

use crate::claims::{Claim, formula_of};
use crate::searches::{applications, first_value, found, word};
use std::marker::Brand;
use std::panic::Expect;
use std::sync::ledger::Blank;
use std::test::Fail;

#[test]
fn answers(rt: HostRuntime) -> Result<(), Fail> {
    let alloc = rt.alloc();
    for (claim, budget, wanted) in [
        (Claim::NotBoth, 20_000, "proved"),
        (Claim::NotBoth, 1, "spent"),
        (Claim::StoredLast, 20_000, "proved"),
        (Claim::AtMostZero, 20_000, "open"),
        (Claim::NotHalf, 20_000, "proved"),
        (Claim::AtMostWide, 20_000, "wide numeral"),
        (Claim::SameRead, 20_000, "proved"),
        (Claim::TrueThere, 20_000, "proved"),
        (Claim::TrueOfAll, 20_000, "proved"),
        (Claim::TrueAtOne, 20_000, "proved"),
        (Claim::TrueAtEach, 20_000, "open"),
        (Claim::EitherWay, 20_000, "proved"),
    ] {
        let formula = formula_of(&rt, alloc, claim);
        let answer = found::<Brand>(alloc, &formula, budget, Blank::new(1)).expect(&rt, "memory");
        assert_eq!(rt; word(&answer), wanted, "{claim:?}");
    }
    Ok(())
}

#[test]
fn budget_ends_after_its_steps(rt: HostRuntime) -> Result<(), Fail> {
    let alloc = rt.alloc();
    let formula = formula_of(&rt, alloc, Claim::NotBoth);
    let answer = found::<Brand>(alloc, &formula, 1, Blank::new(1)).expect(&rt, "memory");
    assert_eq!(rt; applications(&answer), 1);
    Ok(())
}

#[test]
fn value_that_is_open_breaks_the_claim(rt: HostRuntime) -> Result<(), Fail> {
    let alloc = rt.alloc();
    let formula = formula_of(&rt, alloc, Claim::AtMostZero);
    let answer = found::<Brand>(alloc, &formula, 20_000, Blank::new(1)).expect(&rt, "memory");
    let value = first_value(&answer).expect(&rt, "a value of x");
    assert!(rt; value.numerator > 0 && value.denominator > 0);
    Ok(())
}
