//! The instances that a term and a type other than a struct type trigger together.

ghost use Rattle.std.specs.Prelude.{◌≡◌, [], ◌∷◌, IfOk};
ghost use Rattle.base.specs.TypeData.{BoolType, SignerType};
ghost use Rattle.term_pool.specs.Pools.{Extends};
ghost use Rattle.axiom_instances.specs.Lists.{Adds};
ghost use Rattle.axiom_instances.specs.Numbers.{IsTermNumber, IsTypeNumber, IsVector, term_at, type_at};
ghost use Rattle.axiom_instances.specs.TypeRows.{greatest_of, range_row, truth_row, length_row, type_rows};

use crate::nodes::{
    all_of, any_of, at_most, constant, equal, iff, implies, len, more, no_formulas, number,
    type_address, type_number, typed,
};
use crate::reading::{TypeForm, type_form};
use crate::triggered::{Row, TriggeredList, TriggeredTerms, ask};
use axioms::axiom::{Axiom, Equivalence, Rule};
use base::memory::NoMemory;
use base::types::Width;
use fol::operators::Constant;
use term_pool::pool::Pool;

// The greatest number of a width.
fn greatest_of(width: Width) -> Constant
    ensures { result ≡ greatest_of width }
{
    match width {
        Width::U8 => Constant::Num(255),
        Width::U16 => Constant::Num(65_535),
        Width::U32 => Constant::Num(4_294_967_295),
        Width::U64 => Constant::Num(18_446_744_073_709_551_615),
        Width::U128 => Constant::Max,
    }
}

fn ask_range(
    pool: &mut Pool,
    list: &mut TriggeredList,
    of: usize,
    term: usize,
    most: Constant,
) -> Result<(), NoMemory>
    requires of { IsTypeNumber pool.old of }
    requires term { IsTermNumber pool.old term }
    ensures extends { Extends pool.old pool.new }
    ensures adds { IfOk result (λ u. Adds pool.old pool.new list.old.items.items list.new.items.items (range_row (type_at pool.old of) (term_at pool.old term) most ∷ [])) }
{
    let rows = [Row {
        name: Axiom::Exactly(Equivalence::Range),
        position: 14,
    }];
    let nodes = [
        type_number!(),
        typed!(2, 0),
        number!(0),
        at_most!(4, 0),
        constant!(most),
        at_most!(0, 6),
        no_formulas!(),
        more!(7, 8),
        more!(5, 9),
        more!(3, 10),
        all_of!(11),
        typed!(1, 0),
        iff!(13, 12),
    ];
    ask(
        pool,
        list,
        TriggeredTerms::One(term),
        &[term, of],
        &nodes,
        &rows,
    )
}

fn ask_signer(
    pool: &mut Pool,
    list: &mut TriggeredList,
    of: usize,
    term: usize,
) -> Result<(), NoMemory>
    requires of { IsTypeNumber pool.old of }
    requires signer { type_at pool.old of ≡ SignerType }
    requires term { IsTermNumber pool.old term }
    ensures extends { Extends pool.old pool.new }
    ensures adds { IfOk result (λ u. Adds pool.old pool.new list.old.items.items list.new.items.items (type_rows SignerType (term_at pool.old term))) }
{
    let rows = [
        Row {
            name: Axiom::Exactly(Equivalence::Range),
            position: 14,
        },
        Row {
            name: Axiom::Exactly(Equivalence::Range),
            position: 17,
        },
    ];
    let nodes = [
        type_number!(),
        typed!(2, 0),
        number!(0),
        at_most!(4, 0),
        constant!(Constant::Max),
        at_most!(0, 6),
        no_formulas!(),
        more!(7, 8),
        more!(5, 9),
        more!(3, 10),
        all_of!(11),
        typed!(1, 0),
        iff!(13, 12),
        type_address!(),
        typed!(15, 0),
        iff!(16, 12),
    ];
    ask(
        pool,
        list,
        TriggeredTerms::One(term),
        &[term, of],
        &nodes,
        &rows,
    )
}

fn ask_truth(
    pool: &mut Pool,
    list: &mut TriggeredList,
    of: usize,
    term: usize,
) -> Result<(), NoMemory>
    requires of { IsTypeNumber pool.old of }
    requires bool { type_at pool.old of ≡ BoolType }
    requires term { IsTermNumber pool.old term }
    ensures extends { Extends pool.old pool.new }
    ensures adds { IfOk result (λ u. Adds pool.old pool.new list.old.items.items list.new.items.items (truth_row (term_at pool.old term) ∷ [])) }
{
    let rows = [Row {
        name: Axiom::Exactly(Equivalence::BoolTyped),
        position: 11,
    }];
    let nodes = [
        constant!(Constant::True),
        equal!(0, 2),
        constant!(Constant::False),
        equal!(0, 4),
        no_formulas!(),
        more!(5, 6),
        more!(3, 7),
        any_of!(8),
        typed!(1, 0),
        iff!(10, 9),
    ];
    ask(
        pool,
        list,
        TriggeredTerms::One(term),
        &[term, of],
        &nodes,
        &rows,
    )
}

fn ask_length(
    pool: &mut Pool,
    list: &mut TriggeredList,
    of: usize,
    items: usize,
    term: usize,
) -> Result<(), NoMemory>
    requires of { IsVector pool.old of items }
    requires term { IsTermNumber pool.old term }
    ensures extends { Extends pool.old pool.new }
    ensures adds { IfOk result (λ u. Adds pool.old pool.new list.old.items.items list.new.items.items (length_row (type_at pool.old items) (term_at pool.old term) ∷ [])) }
{
    let rows = [Row {
        name: Axiom::Implied(Rule::LenBounded),
        position: 6,
    }];
    let nodes = [
        len!(0),
        number!(18_446_744_073_709_551_615),
        at_most!(2, 3),
        typed!(1, 0),
        implies!(5, 4),
    ];
    ask(
        pool,
        list,
        TriggeredTerms::One(term),
        &[term, of],
        &nodes,
        &rows,
    )
}

/// Adds at the end the instances that a term and a type trigger together, unless the type is a struct type.
pub(crate) fn ask_typed(
    pool: &mut Pool,
    list: &mut TriggeredList,
    of: usize,
    term: usize,
) -> Result<(), NoMemory>
    requires of { IsTypeNumber pool.old of }
    requires term { IsTermNumber pool.old term }
    ensures extends { Extends pool.old pool.new }
    ensures adds { IfOk result (λ u. Adds pool.old pool.new list.old.items.items list.new.items.items (type_rows (type_at pool.old of) (term_at pool.old term))) }
{
    match type_form(pool, of) {
        TypeForm::Bool => ask_truth(pool, list, of, term),
        TypeForm::Int(width) => ask_range(pool, list, of, term, greatest_of(width)),
        TypeForm::Address => ask_range(pool, list, of, term, Constant::Max),
        TypeForm::Signer => ask_signer(pool, list, of, term),
        TypeForm::Vector(items) => ask_length(pool, list, of, items, term),
        TypeForm::Struct | TypeForm::Other => Ok(()),
    }
}
