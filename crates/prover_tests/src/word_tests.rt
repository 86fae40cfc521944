//! Answers for formulas in words.

ghost use Rattle.std.specs.Prelude.{◌≡◌, ◌<◌};

use crate::searches::{found, word};
use crate::words::formula_of;
use std::marker::Brand;
use std::panic::Expect;
use std::sync::ledger::Blank;
use std::test::Fail;

#[test]
fn vectors_memories_and_choices(rt: HostRuntime) -> Result<(), Fail> {
    let alloc = rt.alloc();
    for (text, wanted) in [
        ("empty x:0 push x:1 push n:1 at x:1 =", "proved"),
        ("empty x:0 push x:1 push n:0 at x:0 =", "proved"),
        ("empty x:0 push x:1 push n:0 at x:1 =", "open"),
        ("empty x:0 push x:1 push len n:2 =", "proved"),
        ("empty x:0 push x:1 push pop n:0 at x:0 =", "proved"),
        ("empty x:0 push n:0 x:2 set n:0 at x:2 =", "proved"),
        ("x:0 n:1 x:1 store n:2 x:2 store n:1 select x:1 =", "proved"),
        ("x:0 n:1 x:1 store n:2 x:2 store n:1 select x:2 =", "open"),
        ("x:0 x:1 x:2 store x:3 select x:2 =", "open"),
        ("x:0 holds x:1 x:2 if x:1 = x:0 holds not or:2", "proved"),
        ("x:0 holds x:1 x:2 if x:1 =", "open"),
    ] {
        let formula = formula_of(alloc, text).expect(&rt, "a formula");
        let answer = found::<Brand>(alloc, &formula, 20_000, Blank::new(1)).expect(&rt, "memory");
        assert_eq!(rt; word(&answer), wanted, "{text}");
    }
    Ok(())
}

#[test]
fn structs(rt: HostRuntime) -> Result<(), Fail> {
    let alloc = rt.alloc();
    for (text, wanted) in [
        ("x:0 x:1 pack:2 field:2:1 x:1 =", "proved"),
        ("x:0 x:1 pack:2 field:2:1 x:0 =", "open"),
        (
            "x:0 is:num x:1 is:num x:2 is:num and:3 x:0 x:1 pack:2 x:2 put:2:0 field:2:0 x:2 = implies",
            "proved",
        ),
        ("x:0 x:1 pack:2 x:2 put:2:0 field:2:1 x:1 =", "proved"),
        (
            "x:0 is:2 x:0 x:2 put:2:0 field:2:1 x:0 field:2:1 = implies",
            "proved",
        ),
    ] {
        let formula = formula_of(alloc, text).expect(&rt, "a formula");
        let answer = found::<Brand>(alloc, &formula, 20_000, Blank::new(1)).expect(&rt, "memory");
        assert_eq!(rt; word(&answer), wanted, "{text}");
    }
    Ok(())
}

#[test]
fn whole_numbers(rt: HostRuntime) -> Result<(), Fail> {
    let alloc = rt.alloc();
    for (text, wanted) in [
        // no multiple of 3 lies between 4 and 5
        (
            "x:0 is:num n:4 n:3 x:0 * <= n:3 x:0 * n:5 <= and:3 not",
            "proved",
        ),
        ("n:4 n:3 x:0 * <= n:3 x:0 * n:5 <= and:2 not", "open"),
        ("n:2 x:0 * n:2 x:1 * n:1 + = not", "open"),
        (
            "x:0 is:num x:0 n:7 x:0 n:7 / * x:0 n:7 % + = implies",
            "proved",
        ),
        ("x:0 is:num x:0 n:7 % n:6 <= implies", "proved"),
        ("x:0 is:num x:0 n:7 % n:5 <= implies", "open"),
        ("x:0 x:1 <= x:1 x:2 <= and:2 x:0 x:2 <= implies", "proved"),
        ("x:0 x:1 <= x:1 x:2 <= and:2 x:2 x:0 <= implies", "open"),
    ] {
        let formula = formula_of(alloc, text).expect(&rt, "a formula");
        let answer = found::<Brand>(alloc, &formula, 20_000, Blank::new(1)).expect(&rt, "memory");
        assert_eq!(rt; word(&answer), wanted, "{text}");
    }
    Ok(())
}

#[test]
fn quantifiers(rt: HostRuntime) -> Result<(), Fail> {
    let alloc = rt.alloc();
    for (text, wanted) in [
        (
            "x:0 x:9 select n:0 <= x:0 x:9 select all:9:1 x:0 x:1 select n:0 <= implies",
            "proved",
        ),
        // without a trigger and without a type nothing matches
        ("x:9 n:0 <= all:9:0 x:1 n:0 <= implies", "open"),
        // its own instances match its trigger without end; their generations stop them
        (
            "x:0 x:0 x:9 select select n:0 <= x:0 x:9 select all:9:1 x:0 x:1 select n:5 <= implies",
            "open",
        ),
        // a name for what there is
        (
            "x:0 x:9 select n:0 <= some:9:0 x:0 x:8 select n:0 <= not x:0 x:8 select all:8:1 and:2 not",
            "proved",
        ),
    ] {
        let formula = formula_of(alloc, text).expect(&rt, "a formula");
        let answer = found::<Brand>(alloc, &formula, 20_000, Blank::new(1)).expect(&rt, "memory");
        assert_eq!(rt; word(&answer), wanted, "{text}");
    }
    Ok(())
}

// Rows and numerals that leave 128 bits.
#[test]
fn large_numbers(rt: HostRuntime) -> Result<(), Fail> {
    let alloc = rt.alloc();
    for (text, wanted) in [
        // -2^127 <= x has a row that leaves 128 bits
        (
            "n:-170141183460469231731687303715884105728 x:0 <= not",
            "open",
        ),
        // so has 2^100 (2^100 x) <= x
        (
            "n:1267650600228229401496703205376 n:1267650600228229401496703205376 x:0 * * x:0 <= not",
            "open",
        ),
        // no x <= -2^126 and 2^126 <= x: the sum of the two rows leaves 128 bits
        (
            "x:0 n:-85070591730234615865843651857942052864 <= n:85070591730234615865843651857942052864 x:0 <= and:2 not",
            "wide",
        ),
        // with T = 2^126 + 2^126, no T <= y, y <= z and z < T: no linear step reads what has T
        (
            "n:85070591730234615865843651857942052864 n:85070591730234615865843651857942052864 + x:1 <= x:1 x:2 <= n:85070591730234615865843651857942052864 n:85070591730234615865843651857942052864 + x:2 <= not and:3 not",
            "open",
        ),
    ] {
        let formula = formula_of(alloc, text).expect(&rt, "a formula");
        let answer = found::<Brand>(alloc, &formula, 20_000, Blank::new(1)).expect(&rt, "memory");
        assert_eq!(rt; word(&answer), wanted, "{text}");
    }
    Ok(())
}

// A branch closes before all is added that is early: an instance of an axiom for each of these numerals would fill it.
#[test]
fn long_branches_close(rt: HostRuntime) -> Result<(), Fail> {
    let alloc = rt.alloc();
    let mut text = String::new(alloc);
    for number in 0..2500 {
        let words = format!(in alloc; "n:{number} x:0 <= ").expect(&rt, "memory");
        text.push_str(words.as_str()).expect(&rt, "memory");
    }
    text.push_str("and:2500 x:1 x:1 = implies")
        .expect(&rt, "memory");
    let formula = formula_of(alloc, text.as_str()).expect(&rt, "a formula");
    let answer = found::<Brand>(alloc, &formula, 20_000, Blank::new(1)).expect(&rt, "memory");
    assert_eq!(rt; word(&answer), "proved");
    Ok(())
}
