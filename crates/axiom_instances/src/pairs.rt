//! The instances that reads of memories and vectors trigger, and vectors of a type.

ghost use Rattle.std.specs.Prelude.{[], ◌∷◌, IfOk};
ghost use Rattle.fol.specs.FormulaData.{ConstantTerm};
ghost use Rattle.term_pool.specs.Items.{TermItem};
ghost use Rattle.term_pool.specs.Pools.{IsItem, Extends};
ghost use Rattle.axiom_instances.specs.Lists.{Adds};
ghost use Rattle.axiom_instances.specs.Numbers.{IsTermNumber, IsUnary, IsBinary, IsTernary, IsVector, term_at, type_at};
ghost use Rattle.axiom_instances.specs.PairRows.{store_read, push_read, pop_read, set_read, read_rows, item_row, item_rows, empty_typed, set_typed, push_typed, pop_typed, vector_rows, beside_rows};

use crate::nodes::{
    all_of, any_of, at_most, binary, equal, implies, len, more, no_formulas, not, number,
    type_number, typed,
};
use crate::reading::{TermForm, term_form, vector_items};
use crate::triggered::{Row, TriggeredList, TriggeredTerms, ask};
use axioms::axiom::{Axiom, Exception, Fact, Rule};
use base::memory::NoMemory;
use fol::operators::{Binary, Constant, Ternary, Unary};
use term_pool::pool::Pool;

// ---- a memory or a vector, read at a key or an index

fn ask_store_read(
    pool: &mut Pool,
    list: &mut TriggeredList,
    term: usize,
    memory: usize,
    at: usize,
    value: usize,
    key: usize,
) -> Result<(), NoMemory>
    requires term { IsTernary pool.old Ternary.Store term memory at value }
    requires key { IsTermNumber pool.old key }
    ensures extends { Extends pool.old pool.new }
    ensures adds { IfOk result (λ u. Adds pool.old pool.new list.old.items.items list.new.items.items (store_read (term_at pool.old memory) (term_at pool.old at) (term_at pool.old value) (term_at pool.old key) ∷ [])) }
{
    let rows = [Row {
        name: Axiom::EqualUnless(Exception::SelectOther),
        position: 11,
    }];
    let nodes = [
        equal!(2, 3),
        binary!(Binary::Select, 0, 3),
        binary!(Binary::Select, 1, 3),
        equal!(5, 6),
        no_formulas!(),
        more!(7, 8),
        more!(4, 9),
        any_of!(10),
    ];
    ask(
        pool,
        list,
        TriggeredTerms::Two(term, key),
        &[term, memory, at, key],
        &nodes,
        &rows,
    )
}

fn ask_push_read(
    pool: &mut Pool,
    list: &mut TriggeredList,
    term: usize,
    vector: usize,
    item: usize,
    position: usize,
) -> Result<(), NoMemory>
    requires term { IsBinary pool.old Binary.Push term vector item }
    requires key { IsTermNumber pool.old position }
    ensures extends { Extends pool.old pool.new }
    ensures adds { IfOk result (λ u. Adds pool.old pool.new list.old.items.items list.new.items.items (push_read (term_at pool.old vector) (term_at pool.old item) (term_at pool.old position) ∷ [])) }
{
    let rows = [Row {
        name: Axiom::EqualUnless(Exception::AtOtherPushed),
        position: 11,
    }];
    let nodes = [
        len!(1),
        equal!(2, 3),
        binary!(Binary::At, 0, 2),
        binary!(Binary::At, 1, 2),
        equal!(5, 6),
        no_formulas!(),
        more!(7, 8),
        more!(4, 9),
        any_of!(10),
    ];
    ask(
        pool,
        list,
        TriggeredTerms::Two(term, position),
        &[term, vector, position],
        &nodes,
        &rows,
    )
}

fn ask_pop_read(
    pool: &mut Pool,
    list: &mut TriggeredList,
    term: usize,
    vector: usize,
    position: usize,
) -> Result<(), NoMemory>
    requires term { IsUnary pool.old Unary.Pop term vector }
    requires key { IsTermNumber pool.old position }
    ensures extends { Extends pool.old pool.new }
    ensures adds { IfOk result (λ u. Adds pool.old pool.new list.old.items.items list.new.items.items (pop_read (term_at pool.old vector) (term_at pool.old position) ∷ [])) }
{
    let rows = [Row {
        name: Axiom::EqualUnless(Exception::AtPopped),
        position: 13,
    }];
    let nodes = [
        len!(1),
        number!(1),
        binary!(Binary::Sub, 3, 4),
        at_most!(5, 2),
        binary!(Binary::At, 0, 2),
        binary!(Binary::At, 1, 2),
        equal!(7, 8),
        no_formulas!(),
        more!(9, 10),
        more!(6, 11),
        any_of!(12),
    ];
    ask(
        pool,
        list,
        TriggeredTerms::Two(term, position),
        &[term, vector, position],
        &nodes,
        &rows,
    )
}

fn ask_set_read(
    pool: &mut Pool,
    list: &mut TriggeredList,
    term: usize,
    vector: usize,
    at: usize,
    item: usize,
    position: usize,
) -> Result<(), NoMemory>
    requires term { IsTernary pool.old Ternary.Set term vector at item }
    requires key { IsTermNumber pool.old position }
    ensures extends { Extends pool.old pool.new }
    ensures adds { IfOk result (λ u. Adds pool.old pool.new list.old.items.items list.new.items.items (set_read (term_at pool.old vector) (term_at pool.old at) (term_at pool.old item) (term_at pool.old position) ∷ [])) }
{
    let rows = [Row {
        name: Axiom::EqualUnless(Exception::AtOtherSet),
        position: 11,
    }];
    let nodes = [
        equal!(2, 3),
        binary!(Binary::At, 0, 3),
        binary!(Binary::At, 1, 3),
        equal!(5, 6),
        no_formulas!(),
        more!(7, 8),
        more!(4, 9),
        any_of!(10),
    ];
    ask(
        pool,
        list,
        TriggeredTerms::Two(term, position),
        &[term, vector, at, position],
        &nodes,
        &rows,
    )
}

/// Adds at the end the instances that a term triggers when it is read at a key or index.
pub(crate) fn ask_read(
    pool: &mut Pool,
    list: &mut TriggeredList,
    term: usize,
    key: usize,
) -> Result<(), NoMemory>
    requires { IsTermNumber pool.old key }
    ensures extends { Extends pool.old pool.new }
    ensures adds { IfOk result (λ u. Adds pool.old pool.new list.old.items.items list.new.items.items (read_rows (term_at pool.old term) (term_at pool.old key))) }
{
    match term_form(pool, term) {
        TermForm::Unary(operator, v) => match operator {
            Unary::Pop => ask_pop_read(pool, list, term, v, key),
            Unary::Len => Ok(()),
        },
        TermForm::Binary(operator, v, x) => match operator {
            Binary::Push => ask_push_read(pool, list, term, v, x, key),
            _ => Ok(()),
        },
        TermForm::Ternary(operator, m, i, x) => match operator {
            Ternary::Store => ask_store_read(pool, list, term, m, i, x, key),
            Ternary::Set => ask_set_read(pool, list, term, m, i, x, key),
        },
        _ => Ok(()),
    }
}

fn ask_typed_item(
    pool: &mut Pool,
    list: &mut TriggeredList,
    of: usize,
    items: usize,
    vector: usize,
    position: usize,
) -> Result<(), NoMemory>
    requires of { IsVector pool.old of items }
    requires vector { IsTermNumber pool.old vector }
    requires position { IsTermNumber pool.old position }
    ensures extends { Extends pool.old pool.new }
    ensures adds { IfOk result (λ u. Adds pool.old pool.new list.old.items.items list.new.items.items (item_row (type_at pool.old items) (term_at pool.old vector) (term_at pool.old position) ∷ [])) }
{
    let rows = [Row {
        name: Axiom::Implied(Rule::ItemTyped),
        position: 21,
    }];
    let nodes = [
        number!(0),
        at_most!(4, 2),
        not!(5),
        len!(1),
        at_most!(7, 2),
        type_number!(),
        typed!(9, 2),
        not!(10),
        binary!(Binary::At, 1, 2),
        typed!(3, 12),
        no_formulas!(),
        more!(13, 14),
        more!(11, 15),
        more!(8, 16),
        more!(6, 17),
        any_of!(18),
        typed!(0, 1),
        implies!(20, 19),
    ];
    ask(
        pool,
        list,
        TriggeredTerms::Two(vector, position),
        &[of, vector, position, items],
        &nodes,
        &rows,
    )
}

/// Adds at the end the instances that a type and a vector trigger when the vector is read at an index.
pub(crate) fn ask_item(
    pool: &mut Pool,
    list: &mut TriggeredList,
    of: usize,
    vector: usize,
    position: usize,
) -> Result<(), NoMemory>
    requires vector { IsTermNumber pool.old vector }
    requires position { IsTermNumber pool.old position }
    ensures extends { Extends pool.old pool.new }
    ensures adds { IfOk result (λ u. Adds pool.old pool.new list.old.items.items list.new.items.items (item_rows (type_at pool.old of) (term_at pool.old vector) (term_at pool.old position))) }
{
    match vector_items(pool, of) {
        Some(items) => ask_typed_item(pool, list, of, items, vector, position),
        None => Ok(()),
    }
}

// ---- a type of vectors, and a term

fn ask_empty_typed(
    pool: &mut Pool,
    list: &mut TriggeredList,
    of: usize,
    items: usize,
    term: usize,
) -> Result<(), NoMemory>
    requires of { IsVector pool.old of items }
    requires term { IsItem pool.old term (TermItem (ConstantTerm Constant.Empty)) }
    ensures extends { Extends pool.old pool.new }
    ensures adds { IfOk result (λ u. Adds pool.old pool.new list.old.items.items list.new.items.items (empty_typed (type_at pool.old items) ∷ [])) }
{
    let rows = [Row {
        name: Axiom::Plain(Fact::EmptyTyped),
        position: 2,
    }];
    ask(
        pool,
        list,
        TriggeredTerms::One(term),
        &[of, term],
        &[typed!(0, 1)],
        &rows,
    )
}

fn ask_pop_typed(
    pool: &mut Pool,
    list: &mut TriggeredList,
    of: usize,
    items: usize,
    term: usize,
    vector: usize,
) -> Result<(), NoMemory>
    requires of { IsVector pool.old of items }
    requires term { IsUnary pool.old Unary.Pop term vector }
    ensures extends { Extends pool.old pool.new }
    ensures adds { IfOk result (λ u. Adds pool.old pool.new list.old.items.items list.new.items.items (pop_typed (type_at pool.old items) (term_at pool.old vector) ∷ [])) }
{
    let rows = [Row {
        name: Axiom::Implied(Rule::PopTyped),
        position: 5,
    }];
    let nodes = [typed!(0, 2), typed!(0, 1), implies!(3, 4)];
    ask(
        pool,
        list,
        TriggeredTerms::One(term),
        &[of, term, vector],
        &nodes,
        &rows,
    )
}

fn ask_push_typed(
    pool: &mut Pool,
    list: &mut TriggeredList,
    of: usize,
    items: usize,
    term: usize,
    vector: usize,
    item: usize,
) -> Result<(), NoMemory>
    requires of { IsVector pool.old of items }
    requires term { IsBinary pool.old Binary.Push term vector item }
    ensures extends { Extends pool.old pool.new }
    ensures adds { IfOk result (λ u. Adds pool.old pool.new list.old.items.items list.new.items.items (push_typed (type_at pool.old items) (term_at pool.old vector) (term_at pool.old item) ∷ [])) }
{
    let rows = [Row {
        name: Axiom::Implied(Rule::PushTyped),
        position: 17,
    }];
    let nodes = [
        typed!(0, 3),
        typed!(1, 4),
        len!(3),
        number!(18_446_744_073_709_551_615),
        at_most!(8, 7),
        not!(9),
        no_formulas!(),
        more!(10, 11),
        more!(6, 12),
        more!(5, 13),
        all_of!(14),
        typed!(0, 2),
        implies!(15, 16),
    ];
    ask(
        pool,
        list,
        TriggeredTerms::One(term),
        &[of, items, term, vector, item],
        &nodes,
        &rows,
    )
}

fn ask_set_typed(
    pool: &mut Pool,
    list: &mut TriggeredList,
    of: usize,
    items: usize,
    term: usize,
    vector: usize,
    position: usize,
    item: usize,
) -> Result<(), NoMemory>
    requires of { IsVector pool.old of items }
    requires term { IsTernary pool.old Ternary.Set term vector position item }
    ensures extends { Extends pool.old pool.new }
    ensures adds { IfOk result (λ u. Adds pool.old pool.new list.old.items.items list.new.items.items (set_typed (type_at pool.old items) (term_at pool.old vector) (term_at pool.old position) (term_at pool.old item) ∷ [])) }
{
    let rows = [Row {
        name: Axiom::Implied(Rule::SetTyped),
        position: 12,
    }];
    let nodes = [
        typed!(0, 3),
        typed!(1, 4),
        no_formulas!(),
        more!(6, 7),
        more!(5, 8),
        all_of!(9),
        typed!(0, 2),
        implies!(10, 11),
    ];
    ask(
        pool,
        list,
        TriggeredTerms::One(term),
        &[of, items, term, vector, item],
        &nodes,
        &rows,
    )
}

fn ask_vector(
    pool: &mut Pool,
    list: &mut TriggeredList,
    of: usize,
    items: usize,
    term: usize,
) -> Result<(), NoMemory>
    requires { IsVector pool.old of items }
    ensures extends { Extends pool.old pool.new }
    ensures adds { IfOk result (λ u. Adds pool.old pool.new list.old.items.items list.new.items.items (vector_rows (type_at pool.old items) (term_at pool.old term))) }
{
    match term_form(pool, term) {
        TermForm::Constant(constant) => match constant {
            Constant::Empty => ask_empty_typed(pool, list, of, items, term),
            _ => Ok(()),
        },
        TermForm::Unary(operator, v) => match operator {
            Unary::Pop => ask_pop_typed(pool, list, of, items, term, v),
            Unary::Len => Ok(()),
        },
        TermForm::Binary(operator, v, x) => match operator {
            Binary::Push => ask_push_typed(pool, list, of, items, term, v, x),
            _ => Ok(()),
        },
        TermForm::Ternary(operator, v, i, x) => match operator {
            Ternary::Set => ask_set_typed(pool, list, of, items, term, v, i, x),
            Ternary::Store => Ok(()),
        },
        _ => Ok(()),
    }
}

/// Adds at the end the instances that a type and a term trigger when the term occurs.
pub(crate) fn ask_beside(
    pool: &mut Pool,
    list: &mut TriggeredList,
    of: usize,
    term: usize,
) -> Result<(), NoMemory>
    ensures extends { Extends pool.old pool.new }
    ensures adds { IfOk result (λ u. Adds pool.old pool.new list.old.items.items list.new.items.items (beside_rows (type_at pool.old of) (term_at pool.old term))) }
{
    match vector_items(pool, of) {
        Some(items) => ask_vector(pool, list, of, items, term),
        None => Ok(()),
    }
}
