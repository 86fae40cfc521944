//! All instances that a term triggers by itself.

ghost use Rattle.std.specs.Prelude.{IfOk};
ghost use Rattle.term_pool.specs.Pools.{Extends};
ghost use Rattle.axiom_instances.specs.Asks.{AsksOfTerm};
ghost use Rattle.axiom_instances.specs.Lists.{ListsAll};
ghost use Rattle.axiom_instances.specs.Numbers.{term_at};
ghost use Rattle.axiom_instances.specs.StructRows.{HasFewFields};

use crate::instances::{axioms_of_pack, axioms_of_plain_term};
use crate::reading::{TermForm, term_form};
use crate::struct_axioms::set_fields::{Replacement, axioms_of_set_field};
use crate::triggered::TriggeredAxiom;
use base::memory::NoMemory;
use fol::shapes::Shapes;
use std::alloc::Global;
use term_pool::pool::Pool;

/// The instances that a term on a branch triggers, under the shapes of structs, each of which has fewer than 2^32
/// fields.
pub fn axioms_of_term(
    alloc: Global,
    pool: &mut Pool,
    shapes: &Shapes,
    term: usize,
) -> Result<Vec<TriggeredAxiom>, NoMemory>
    requires { HasFewFields shapes.now }
    ensures extends { Extends pool.old pool.new }
    ensures all { IfOk result (λ found. ListsAll pool.new found.items (AsksOfTerm shapes.now (term_at pool.old term))) }
{
    match term_form(pool, term) {
        TermForm::Pack(of, parts) => axioms_of_pack(alloc, pool, shapes, term, of, parts),
        TermForm::SetField(field, of, before, value) => {
            let set = Replacement {
                term,
                field,
                of,
                before,
                value,
            };
            axioms_of_set_field(alloc, pool, shapes, set)
        }
        _ => axioms_of_plain_term(alloc, pool, term),
    }
}
