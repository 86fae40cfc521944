//! What the texts of searches are seen to show.

use crate::searches::found;
use crate::texts::{Change, answer_of, is_open, is_spent, is_tree, search_of};
use crate::words::formula_of;
use std::marker::Brand;
use std::panic::Expect;
use std::sync::ledger::Blank;
use std::test::Fail;

// A text is a partial tree, also where nothing is left to do: with late turns, bounds and turns that close branches.
#[test]
fn texts_are_partial_trees(rt: HostRuntime) -> Result<(), Fail> {
    let alloc = rt.alloc();
    for words in [
        "x:0 n:0 <=",
        "x:0 n:0 <= x:1 n:0 <= and:2",
        "x:0 x:1 x:2 store x:3 select x:2 =",
        "x:0 n:1 x:1 store n:2 x:2 store n:1 select x:2 =",
        "empty x:0 push x:1 push n:0 at x:1 =",
        "x:0 x:1 pack:2 field:2:1 x:0 =",
        "x:0 holds x:1 x:2 if x:1 =",
        "x:0 is:num x:0 n:7 % n:5 <= implies",
        "x:0 is:num x:1 is:num n:2 x:0 * n:3 x:1 * n:1 + = and:3 not",
        "x:0 x:0 x:9 select select n:0 <= x:0 x:9 select all:9:1 x:0 x:1 select n:5 <= implies",
    ] {
        for (change, wanted) in [
            (Change::Nothing, true),
            (Change::AnotherStep, false),
            (Change::FirstTwice, false),
            (Change::NextGeneration, false),
        ] {
            let formula = formula_of(alloc, words).expect(&rt, "a formula");
            let answer = found::<Brand>(alloc, &formula, 20_000, Blank::new(1)).expect(
                &rt, "memory",
            );
            let mut search = search_of(formula, answer).expect(&rt, "a search");
            let known = is_tree(alloc, &mut search, change).expect(&rt, "memory");
            assert_eq!(rt; known, wanted, "{words} {change:?}");
        }
    }
    Ok(())
}

#[test]
fn values_leave_a_branch_open(rt: HostRuntime) -> Result<(), Fail> {
    let alloc = rt.alloc();
    for words in [
        "x:0 n:0 <=",
        "x:0 n:0 <= x:1 n:0 <= and:2",
        "n:4 n:3 x:0 * <= n:3 x:0 * n:5 <= and:2 not",
        "x:0 is:num x:0 n:7 % n:5 <= implies",
        "x:0 is:num x:1 is:num n:2 x:0 * n:3 x:1 * n:1 + = and:3 not",
        "x:9 n:0 <= all:9:0 x:1 n:0 <= implies",
    ] {
        for (change, wanted) in [
            (Change::Nothing, true),
            (Change::FirstLeftOut, false),
            (Change::OneLess, false),
        ] {
            let formula = formula_of(alloc, words).expect(&rt, "a formula");
            let answer = found::<Brand>(alloc, &formula, 20_000, Blank::new(1)).expect(
                &rt, "memory",
            );
            let mut search = search_of(formula, answer).expect(&rt, "a search");
            assert_eq!(rt; answer_of(&search), "open", "{words}");
            let known = is_open(alloc, &mut search, change).expect(&rt, "memory");
            assert_eq!(rt; known, wanted, "{words} {change:?}");
        }
    }
    Ok(())
}

// A text shows that its budget is spent, be it among the links of what would close a branch.
#[test]
fn budgets_are_spent(rt: HostRuntime) -> Result<(), Fail> {
    let alloc = rt.alloc();
    for (words, budget, wanted) in [
        ("x:0 n:0 <= n:1 x:0 <= and:2 not", 0, "spent"),
        (
            "x:0 is:num n:4 n:3 x:0 * <= n:3 x:0 * n:5 <= and:3 not",
            3,
            "spent",
        ),
        ("empty x:0 push x:1 push n:1 at x:1 =", 2, "spent"),
        ("empty x:0 push x:1 push n:1 at x:1 =", 3, "spent"),
        (
            "x:0 x:1 = x:0 x:2 select x:3 = and:2 x:1 x:2 select x:3 = implies",
            1,
            "spent",
        ),
        (
            "x:0 x:1 = x:0 x:2 select x:3 = and:2 x:1 x:2 select x:3 = implies",
            2,
            "spent in a chain",
        ),
        (
            "x:0 x:1 = x:0 x:2 select x:3 = and:2 x:1 x:2 select x:3 = implies",
            3,
            "spent in a chain",
        ),
    ] {
        for change in [Change::Nothing, Change::LastLeftOut] {
            let formula = formula_of(alloc, words).expect(&rt, "a formula");
            let answer = found::<Brand>(alloc, &formula, budget, Blank::new(1)).expect(
                &rt, "memory",
            );
            let mut search = search_of(formula, answer).expect(&rt, "a search");
            assert_eq!(rt; answer_of(&search), wanted, "{words} {budget}");
            let known = is_spent(alloc, &mut search, budget, change).expect(&rt, "memory");
            let is_whole = change == Change::Nothing || budget == 0;
            assert_eq!(rt; known, is_whole, "{words} {budget} {change:?}");
        }
    }
    Ok(())
}
