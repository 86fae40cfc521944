//! The instances that terms trigger, except for structs.

ghost use Rattle.std.specs.Prelude.{◌≡◌, [], ◌∷◌, IfOk};
ghost use Rattle.fol.specs.FormulaData.{ConstantTerm};
ghost use Rattle.term_pool.specs.Items.{TermItem};
ghost use Rattle.term_pool.specs.Pools.{IsItem, Extends};
ghost use Rattle.axiom_instances.specs.Lists.{Adds};
ghost use Rattle.axiom_instances.specs.Numbers.{IsTermNumber, IsUnary, IsBinary, IsTernary, IsIf, term_at, formula_at};
ghost use Rattle.axiom_instances.specs.Rows.{constant_rows, unary_rows, blank_row, push_rows, remainder_row, zero_row, bounds_row, turned_rows, bits_row, bits_rows, shl_row, shr_row, operator_rows, gives_whole, binary_rows, ternary_rows, if_rows, whole_row, term_rows};

use crate::nodes::{
    all_of, any_of, at_most, binary, constant, equal, implies, len, more, no_formulas, not, number,
    type_int, type_number, typed,
};
use crate::reading::{DivisorKind, TermForm, divisor_at, is_blank, is_numeral, term_form};
use crate::triggered::{Row, TriggeredList, TriggeredTerms, ask};
use axioms::axiom::{Alternative, Axiom, Equation, Exception, Fact, Rule};
use base::memory::NoMemory;
use base::types::Width;
use fol::operators::{Binary, Constant, Ternary, Unary};
use term_pool::pool::Pool;

// ---- whole numbers

fn ask_whole(pool: &mut Pool, list: &mut TriggeredList, term: usize) -> Result<(), NoMemory>
    requires { IsTermNumber pool.old term }
    ensures extends { Extends pool.old pool.new }
    ensures adds { IfOk result (λ u. Adds pool.old pool.new list.old.items.items list.new.items.items (whole_row (term_at pool.old term) ∷ [])) }
{
    let rows = [Row {
        name: Axiom::Plain(Fact::Whole),
        position: 2,
    }];
    let nodes = [type_number!(), typed!(1, 0)];
    ask(
        pool,
        list,
        TriggeredTerms::One(term),
        &[term],
        &nodes,
        &rows,
    )
}

// ---- terms without parts

fn ask_max(pool: &mut Pool, list: &mut TriggeredList, term: usize) -> Result<(), NoMemory>
    requires { IsItem pool.old term (TermItem (ConstantTerm Constant.Max)) }
    ensures extends { Extends pool.old pool.new }
    ensures adds { IfOk result (λ u. Adds pool.old pool.new list.old.items.items list.new.items.items (constant_rows Constant.Max)) }
{
    let rows = [
        Row {
            name: Axiom::Plain(Fact::MaxBound),
            position: 2,
        },
        Row {
            name: Axiom::Plain(Fact::Whole),
            position: 4,
        },
    ];
    let nodes = [
        number!(85_070_591_730_234_615_865_843_651_857_942_052_864),
        at_most!(1, 0),
        type_number!(),
        typed!(3, 0),
    ];
    ask(
        pool,
        list,
        TriggeredTerms::One(term),
        &[term],
        &nodes,
        &rows,
    )
}

fn ask_empty(pool: &mut Pool, list: &mut TriggeredList, term: usize) -> Result<(), NoMemory>
    requires { IsItem pool.old term (TermItem (ConstantTerm Constant.Empty)) }
    ensures extends { Extends pool.old pool.new }
    ensures adds { IfOk result (λ u. Adds pool.old pool.new list.old.items.items list.new.items.items (constant_rows Constant.Empty)) }
{
    let rows = [Row {
        name: Axiom::Equal(Equation::LenEmpty),
        position: 3,
    }];
    let nodes = [len!(0), number!(0), equal!(1, 2)];
    ask(
        pool,
        list,
        TriggeredTerms::One(term),
        &[term],
        &nodes,
        &rows,
    )
}

fn ask_constant(
    pool: &mut Pool,
    list: &mut TriggeredList,
    term: usize,
    constant: Constant,
) -> Result<(), NoMemory>
    requires { IsItem pool.old term (TermItem (ConstantTerm constant)) }
    ensures extends { Extends pool.old pool.new }
    ensures adds { IfOk result (λ u. Adds pool.old pool.new list.old.items.items list.new.items.items (constant_rows constant)) }
{
    match constant {
        Constant::Num(_) => ask_whole(pool, list, term),
        Constant::Max => ask_max(pool, list, term),
        Constant::Empty => ask_empty(pool, list, term),
        _ => Ok(()),
    }
}

// ---- terms of one part

fn ask_len(
    pool: &mut Pool,
    list: &mut TriggeredList,
    term: usize,
    vector: usize,
) -> Result<(), NoMemory>
    requires { IsUnary pool.old Unary.Len term vector }
    ensures extends { Extends pool.old pool.new }
    ensures adds { IfOk result (λ u. Adds pool.old pool.new list.old.items.items list.new.items.items (unary_rows Unary.Len (term_at pool.old vector))) }
{
    let rows = [
        Row {
            name: Axiom::Plain(Fact::LenFromZero),
            position: 2,
        },
        Row {
            name: Axiom::Plain(Fact::Whole),
            position: 4,
        },
    ];
    let nodes = [number!(0), at_most!(1, 0), type_number!(), typed!(3, 0)];
    ask(
        pool,
        list,
        TriggeredTerms::One(term),
        &[term],
        &nodes,
        &rows,
    )
}

fn ask_pop(
    pool: &mut Pool,
    list: &mut TriggeredList,
    term: usize,
    vector: usize,
) -> Result<(), NoMemory>
    requires { IsUnary pool.old Unary.Pop term vector }
    ensures extends { Extends pool.old pool.new }
    ensures adds { IfOk result (λ u. Adds pool.old pool.new list.old.items.items list.new.items.items (unary_rows Unary.Pop (term_at pool.old vector))) }
{
    let rows = [Row {
        name: Axiom::EqualUnless(Exception::LenPopped),
        position: 12,
    }];
    let nodes = [
        len!(1),
        number!(0),
        at_most!(2, 3),
        len!(0),
        number!(1),
        binary!(Binary::Sub, 2, 6),
        equal!(5, 7),
        no_formulas!(),
        more!(8, 9),
        more!(4, 10),
        any_of!(11),
    ];
    ask(
        pool,
        list,
        TriggeredTerms::One(term),
        &[term, vector],
        &nodes,
        &rows,
    )
}

fn ask_unary(
    pool: &mut Pool,
    list: &mut TriggeredList,
    operator: Unary,
    term: usize,
    part: usize,
) -> Result<(), NoMemory>
    requires { IsUnary pool.old operator term part }
    ensures extends { Extends pool.old pool.new }
    ensures adds { IfOk result (λ u. Adds pool.old pool.new list.old.items.items list.new.items.items (unary_rows operator (term_at pool.old part))) }
{
    match operator {
        Unary::Len => ask_len(pool, list, term, part),
        Unary::Pop => ask_pop(pool, list, term, part),
    }
}

// ---- terms of two parts

fn ask_blank(
    pool: &mut Pool,
    list: &mut TriggeredList,
    term: usize,
    memory: usize,
    key: usize,
) -> Result<(), NoMemory>
    requires { IsBinary pool.old Binary.Select term memory key }
    ensures extends { Extends pool.old pool.new }
    ensures adds { IfOk result (λ u. Adds pool.old pool.new list.old.items.items list.new.items.items (blank_row (term_at pool.old memory) (term_at pool.old key) ∷ [])) }
{
    let rows = [Row {
        name: Axiom::Equal(Equation::SelectBlank),
        position: 2,
    }];
    let nodes = [constant!(Constant::Nothing), equal!(0, 1)];
    ask(
        pool,
        list,
        TriggeredTerms::One(term),
        &[term],
        &nodes,
        &rows,
    )
}

fn ask_select(
    pool: &mut Pool,
    list: &mut TriggeredList,
    term: usize,
    memory: usize,
    key: usize,
) -> Result<(), NoMemory>
    requires { IsBinary pool.old Binary.Select term memory key }
    ensures extends { Extends pool.old pool.new }
    ensures adds { IfOk result (λ u. Adds pool.old pool.new list.old.items.items list.new.items.items (operator_rows Binary.Select (term_at pool.old memory) (term_at pool.old key))) }
{
    if is_blank(pool, memory) {
        ask_blank(pool, list, term, memory, key)
    } else {
        Ok(())
    }
}

fn ask_push(
    pool: &mut Pool,
    list: &mut TriggeredList,
    term: usize,
    vector: usize,
    item: usize,
) -> Result<(), NoMemory>
    requires { IsBinary pool.old Binary.Push term vector item }
    ensures extends { Extends pool.old pool.new }
    ensures adds { IfOk result (λ u. Adds pool.old pool.new list.old.items.items list.new.items.items (push_rows (term_at pool.old vector) (term_at pool.old item))) }
{
    let rows = [
        Row {
            name: Axiom::Equal(Equation::LenPush),
            position: 7,
        },
        Row {
            name: Axiom::Equal(Equation::AtPushed),
            position: 9,
        },
    ];
    let nodes = [
        len!(0),
        len!(1),
        number!(1),
        binary!(Binary::Add, 4, 5),
        equal!(3, 6),
        binary!(Binary::At, 0, 4),
        equal!(8, 2),
    ];
    ask(
        pool,
        list,
        TriggeredTerms::One(term),
        &[term, vector, item],
        &nodes,
        &rows,
    )
}

fn ask_remainder(
    pool: &mut Pool,
    list: &mut TriggeredList,
    term: usize,
    dividend: usize,
    divisor: usize,
) -> Result<(), NoMemory>
    requires { IsBinary pool.old Binary.Mod term dividend divisor }
    ensures extends { Extends pool.old pool.new }
    ensures adds { IfOk result (λ u. Adds pool.old pool.new list.old.items.items list.new.items.items (remainder_row (term_at pool.old dividend) (term_at pool.old divisor) ∷ [])) }
{
    let rows = [Row {
        name: Axiom::Equal(Equation::Remainder),
        position: 6,
    }];
    let nodes = [
        binary!(Binary::Div, 1, 2),
        binary!(Binary::Mul, 2, 3),
        binary!(Binary::Sub, 1, 4),
        equal!(0, 5),
    ];
    ask(
        pool,
        list,
        TriggeredTerms::One(term),
        &[term, dividend, divisor],
        &nodes,
        &rows,
    )
}

fn ask_zero_divisor(
    pool: &mut Pool,
    list: &mut TriggeredList,
    term: usize,
    dividend: usize,
    divisor: usize,
) -> Result<(), NoMemory>
    requires { IsBinary pool.old Binary.Div term dividend divisor }
    ensures extends { Extends pool.old pool.new }
    ensures adds { IfOk result (λ u. Adds pool.old pool.new list.old.items.items list.new.items.items (zero_row (term_at pool.old dividend) (term_at pool.old divisor) ∷ [])) }
{
    let rows = [Row {
        name: Axiom::Equal(Equation::DivByZero),
        position: 2,
    }];
    ask(
        pool,
        list,
        TriggeredTerms::One(term),
        &[term, divisor],
        &[equal!(0, 1)],
        &rows,
    )
}

fn ask_bounds(
    pool: &mut Pool,
    list: &mut TriggeredList,
    term: usize,
    dividend: usize,
    divisor: usize,
) -> Result<(), NoMemory>
    requires { IsBinary pool.old Binary.Div term dividend divisor }
    ensures extends { Extends pool.old pool.new }
    ensures adds { IfOk result (λ u. Adds pool.old pool.new list.old.items.items list.new.items.items (bounds_row (term_at pool.old dividend) (term_at pool.old divisor) ∷ [])) }
{
    let rows = [Row {
        name: Axiom::Plain(Fact::QuotientBounds),
        position: 12,
    }];
    let nodes = [
        binary!(Binary::Mul, 2, 0),
        at_most!(3, 1),
        binary!(Binary::Add, 3, 2),
        number!(1),
        binary!(Binary::Sub, 5, 6),
        at_most!(1, 7),
        no_formulas!(),
        more!(8, 9),
        more!(4, 10),
        all_of!(11),
    ];
    ask(
        pool,
        list,
        TriggeredTerms::One(term),
        &[term, dividend, divisor],
        &nodes,
        &rows,
    )
}

fn ask_quotient(
    pool: &mut Pool,
    list: &mut TriggeredList,
    term: usize,
    dividend: usize,
    divisor: usize,
) -> Result<(), NoMemory>
    requires { IsBinary pool.old Binary.Div term dividend divisor }
    ensures extends { Extends pool.old pool.new }
    ensures adds { IfOk result (λ u. Adds pool.old pool.new list.old.items.items list.new.items.items (operator_rows Binary.Div (term_at pool.old dividend) (term_at pool.old divisor))) }
{
    match divisor_at(pool, divisor) {
        DivisorKind::IsZero => ask_zero_divisor(pool, list, term, dividend, divisor),
        DivisorKind::IsFromOne => ask_bounds(pool, list, term, dividend, divisor),
        DivisorKind::IsOther => Ok(()),
    }
}

fn ask_turned(
    pool: &mut Pool,
    list: &mut TriggeredList,
    term: usize,
    left: usize,
    right: usize,
) -> Result<(), NoMemory>
    requires { IsBinary pool.old Binary.Mul term left right }
    ensures extends { Extends pool.old pool.new }
    ensures adds { IfOk result (λ u. Adds pool.old pool.new list.old.items.items list.new.items.items (turned_rows (term_at pool.old left) (term_at pool.old right))) }
{
    let rows = [
        Row {
            name: Axiom::Equal(Equation::MulTurned),
            position: 4,
        },
        Row {
            name: Axiom::Equal(Equation::MulByOne),
            position: 9,
        },
        Row {
            name: Axiom::Equal(Equation::MulByZero),
            position: 11,
        },
    ];
    let nodes = [
        binary!(Binary::Mul, 2, 1),
        equal!(0, 3),
        number!(1),
        binary!(Binary::Mul, 1, 5),
        number!(0),
        binary!(Binary::Add, 1, 7),
        equal!(6, 8),
        binary!(Binary::Mul, 1, 7),
        equal!(10, 7),
    ];
    ask(
        pool,
        list,
        TriggeredTerms::One(term),
        &[term, left, right],
        &nodes,
        &rows,
    )
}

fn ask_product(
    pool: &mut Pool,
    list: &mut TriggeredList,
    term: usize,
    left: usize,
    right: usize,
) -> Result<(), NoMemory>
    requires { IsBinary pool.old Binary.Mul term left right }
    ensures extends { Extends pool.old pool.new }
    ensures adds { IfOk result (λ u. Adds pool.old pool.new list.old.items.items list.new.items.items (operator_rows Binary.Mul (term_at pool.old left) (term_at pool.old right))) }
{
    if is_numeral(pool, left) {
        Ok(())
    } else if is_numeral(pool, right) {
        Ok(())
    } else {
        ask_turned(pool, list, term, left, right)
    }
}

fn ask_bits_of(
    pool: &mut Pool,
    list: &mut TriggeredList,
    width: Width,
    operator: Binary,
    term: usize,
    left: usize,
    right: usize,
) -> Result<(), NoMemory>
    requires { IsBinary pool.old operator term left right }
    ensures extends { Extends pool.old pool.new }
    ensures adds { IfOk result (λ u. Adds pool.old pool.new list.old.items.items list.new.items.items (bits_row width operator (term_at pool.old left) (term_at pool.old right) ∷ [])) }
{
    let rows = [Row {
        name: Axiom::Implied(Rule::BitsTyped),
        position: 11,
    }];
    let nodes = [
        type_int!(width),
        typed!(3, 1),
        typed!(3, 2),
        no_formulas!(),
        more!(5, 6),
        more!(4, 7),
        all_of!(8),
        typed!(3, 0),
        implies!(9, 10),
    ];
    ask(
        pool,
        list,
        TriggeredTerms::One(term),
        &[term, left, right],
        &nodes,
        &rows,
    )
}

fn ask_bits(
    pool: &mut Pool,
    list: &mut TriggeredList,
    operator: Binary,
    term: usize,
    left: usize,
    right: usize,
) -> Result<(), NoMemory>
    requires { IsBinary pool.old operator term left right }
    ensures extends { Extends pool.old pool.new }
    ensures adds { IfOk result (λ u. Adds pool.old pool.new list.old.items.items list.new.items.items (bits_rows operator (term_at pool.old left) (term_at pool.old right))) }
{
    ask_bits_of(pool, list, Width::U8, operator, term, left, right)?;
    ask_bits_of(pool, list, Width::U16, operator, term, left, right)?;
    ask_bits_of(pool, list, Width::U32, operator, term, left, right)?;
    ask_bits_of(pool, list, Width::U64, operator, term, left, right)?;
    ask_bits_of(pool, list, Width::U128, operator, term, left, right)?;
    Ok(())
}

fn ask_shl(
    pool: &mut Pool,
    list: &mut TriggeredList,
    width: Width,
    term: usize,
    left: usize,
    right: usize,
) -> Result<(), NoMemory>
    requires { IsBinary pool.old (Binary.Shl width) term left right }
    ensures extends { Extends pool.old pool.new }
    ensures adds { IfOk result (λ u. Adds pool.old pool.new list.old.items.items list.new.items.items (shl_row width (term_at pool.old left) (term_at pool.old right) ∷ [])) }
{
    let rows = [Row {
        name: Axiom::Plain(Fact::ShlTyped),
        position: 2,
    }];
    let nodes = [type_int!(width), typed!(1, 0)];
    ask(
        pool,
        list,
        TriggeredTerms::One(term),
        &[term],
        &nodes,
        &rows,
    )
}

fn ask_shr(
    pool: &mut Pool,
    list: &mut TriggeredList,
    width: Width,
    term: usize,
    left: usize,
    right: usize,
) -> Result<(), NoMemory>
    requires { IsBinary pool.old (Binary.Shr width) term left right }
    ensures extends { Extends pool.old pool.new }
    ensures adds { IfOk result (λ u. Adds pool.old pool.new list.old.items.items list.new.items.items (shr_row width (term_at pool.old left) (term_at pool.old right) ∷ [])) }
{
    let rows = [Row {
        name: Axiom::Implied(Rule::ShrTyped),
        position: 5,
    }];
    let nodes = [type_int!(width), typed!(2, 1), typed!(2, 0), implies!(3, 4)];
    ask(
        pool,
        list,
        TriggeredTerms::One(term),
        &[term, left],
        &nodes,
        &rows,
    )
}

fn ask_operator(
    pool: &mut Pool,
    list: &mut TriggeredList,
    operator: Binary,
    term: usize,
    left: usize,
    right: usize,
) -> Result<(), NoMemory>
    requires { IsBinary pool.old operator term left right }
    ensures extends { Extends pool.old pool.new }
    ensures adds { IfOk result (λ u. Adds pool.old pool.new list.old.items.items list.new.items.items (operator_rows operator (term_at pool.old left) (term_at pool.old right))) }
{
    match operator {
        Binary::Select => ask_select(pool, list, term, left, right),
        Binary::Push => ask_push(pool, list, term, left, right),
        Binary::Mul => ask_product(pool, list, term, left, right),
        Binary::Div => ask_quotient(pool, list, term, left, right),
        Binary::Mod => ask_remainder(pool, list, term, left, right),
        Binary::And | Binary::Or | Binary::Xor => {
            ask_bits(pool, list, operator, term, left, right)
        }
        Binary::Shl(width) => ask_shl(pool, list, width, term, left, right),
        Binary::Shr(width) => ask_shr(pool, list, width, term, left, right),
        Binary::Add | Binary::Sub | Binary::At => Ok(()),
    }
}

// Decides whether the values of an operator are whole numbers.
fn gives_whole(operator: Binary) -> bool
    ensures { result ≡ gives_whole operator }
{
    match operator {
        Binary::Select | Binary::At | Binary::Push => false,
        _ => true,
    }
}

fn ask_binary(
    pool: &mut Pool,
    list: &mut TriggeredList,
    operator: Binary,
    term: usize,
    left: usize,
    right: usize,
) -> Result<(), NoMemory>
    requires { IsBinary pool.old operator term left right }
    ensures extends { Extends pool.old pool.new }
    ensures adds { IfOk result (λ u. Adds pool.old pool.new list.old.items.items list.new.items.items (binary_rows operator (term_at pool.old left) (term_at pool.old right))) }
{
    ask_operator(pool, list, operator, term, left, right)?;
    if gives_whole(operator) {
        ask_whole(pool, list, term)?;
    }
    Ok(())
}

// ---- terms of three parts

fn ask_store(
    pool: &mut Pool,
    list: &mut TriggeredList,
    term: usize,
    memory: usize,
    key: usize,
    value: usize,
) -> Result<(), NoMemory>
    requires { IsTernary pool.old Ternary.Store term memory key value }
    ensures extends { Extends pool.old pool.new }
    ensures adds { IfOk result (λ u. Adds pool.old pool.new list.old.items.items list.new.items.items (ternary_rows Ternary.Store (term_at pool.old memory) (term_at pool.old key) (term_at pool.old value))) }
{
    let rows = [Row {
        name: Axiom::Equal(Equation::SelectStored),
        position: 4,
    }];
    let nodes = [binary!(Binary::Select, 0, 1), equal!(3, 2)];
    ask(
        pool,
        list,
        TriggeredTerms::One(term),
        &[term, key, value],
        &nodes,
        &rows,
    )
}

fn ask_set(
    pool: &mut Pool,
    list: &mut TriggeredList,
    term: usize,
    vector: usize,
    position: usize,
    item: usize,
) -> Result<(), NoMemory>
    requires { IsTernary pool.old Ternary.Set term vector position item }
    ensures extends { Extends pool.old pool.new }
    ensures adds { IfOk result (λ u. Adds pool.old pool.new list.old.items.items list.new.items.items (ternary_rows Ternary.Set (term_at pool.old vector) (term_at pool.old position) (term_at pool.old item))) }
{
    let rows = [
        Row {
            name: Axiom::Equal(Equation::LenSet),
            position: 6,
        },
        Row {
            name: Axiom::Cases(Alternative::AtSet),
            position: 21,
        },
    ];
    let nodes = [
        len!(0),
        len!(1),
        equal!(4, 5),
        number!(0),
        at_most!(7, 2),
        not!(8),
        at_most!(5, 2),
        type_number!(),
        typed!(11, 2),
        not!(12),
        binary!(Binary::At, 0, 2),
        equal!(14, 3),
        no_formulas!(),
        more!(15, 16),
        more!(13, 17),
        more!(10, 18),
        more!(9, 19),
        any_of!(20),
    ];
    ask(
        pool,
        list,
        TriggeredTerms::One(term),
        &[term, vector, position, item],
        &nodes,
        &rows,
    )
}

fn ask_ternary(
    pool: &mut Pool,
    list: &mut TriggeredList,
    operator: Ternary,
    term: usize,
    a: usize,
    b: usize,
    c: usize,
) -> Result<(), NoMemory>
    requires { IsTernary pool.old operator term a b c }
    ensures extends { Extends pool.old pool.new }
    ensures adds { IfOk result (λ u. Adds pool.old pool.new list.old.items.items list.new.items.items (ternary_rows operator (term_at pool.old a) (term_at pool.old b) (term_at pool.old c))) }
{
    match operator {
        Ternary::Store => ask_store(pool, list, term, a, b, c),
        Ternary::Set => ask_set(pool, list, term, a, b, c),
    }
}

fn ask_if(
    pool: &mut Pool,
    list: &mut TriggeredList,
    term: usize,
    condition: usize,
    yes: usize,
    no: usize,
) -> Result<(), NoMemory>
    requires { IsIf pool.old term condition yes no }
    ensures extends { Extends pool.old pool.new }
    ensures adds { IfOk result (λ u. Adds pool.old pool.new list.old.items.items list.new.items.items (if_rows (formula_at pool.old condition) (term_at pool.old yes) (term_at pool.old no))) }
{
    let rows = [Row {
        name: Axiom::Cases(Alternative::Choice),
        position: 16,
    }];
    let nodes = [
        equal!(0, 2),
        no_formulas!(),
        more!(4, 5),
        more!(1, 6),
        all_of!(7),
        not!(1),
        equal!(0, 3),
        more!(10, 5),
        more!(9, 11),
        all_of!(12),
        more!(13, 5),
        more!(8, 14),
        any_of!(15),
    ];
    ask(
        pool,
        list,
        TriggeredTerms::One(term),
        &[term, condition, yes, no],
        &nodes,
        &rows,
    )
}

// ---- any term except for structs

/// Adds at the end the instances that a term triggers, unless it is a pack or a field update.
pub(crate) fn ask_term(
    pool: &mut Pool,
    list: &mut TriggeredList,
    term: usize,
) -> Result<(), NoMemory>
    ensures extends { Extends pool.old pool.new }
    ensures adds { IfOk result (λ u. Adds pool.old pool.new list.old.items.items list.new.items.items (term_rows (term_at pool.old term))) }
{
    match term_form(pool, term) {
        TermForm::Constant(constant) => ask_constant(pool, list, term, constant),
        TermForm::Unary(operator, a) => ask_unary(pool, list, operator, term, a),
        TermForm::Binary(operator, a, b) => ask_binary(pool, list, operator, term, a, b),
        TermForm::Ternary(operator, a, b, c) => ask_ternary(pool, list, operator, term, a, b, c),
        TermForm::If(p, a, b) => ask_if(pool, list, term, p, a, b),
        TermForm::Pack(_, _) | TermForm::SetField(_, _, _, _) | TermForm::Other => Ok(()),
    }
}
