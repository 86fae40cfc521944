//! Terms chosen for the classes of a branch.

ghost use Rattle.std.specs.Prelude.{◌≡◌, ◌<◌, Some, length, nat_eq, slice_index};
ghost use Rattle.indexmap.specs.IndexMap.{get};
ghost use Rattle.row_reasoning.specs.StandIns.{HasChosen};

use base::memory::NoMemory;
use congruence_closure::branch_classes::BranchClasses;
use congruence_closure::proof_forest::History;
use indexmap::IndexMap;
use term_pool::numbers::look_up;

/// One term for each class, with the classes that explain why another term of the class equals it.
#[derive(Clone, Copy)]
pub struct Choice<'a> {
    pub classes: &'a BranchClasses,
    /// The history of these classes.
    pub history: &'a History,
    /// The representative of the class of each term, by number.
    pub names: &'a [usize],
    /// The number of the term chosen for each class.
    pub chosen: &'a IndexMap<usize, usize>,
}

/// The number of the term chosen for the class of this term.
pub(crate) fn chosen_for(choice: Choice<'_>, term: usize) -> usize
    requires named { term < length choice.names.now }
    requires chosen { HasChosen (get nat_eq choice.chosen.now) (slice_index choice.names.now term) }
    ensures { get nat_eq choice.entry.chosen.now (slice_index choice.entry.names.now term) ≡ Some result }
{
    match look_up(choice.chosen, choice.names[term]) {
        Some(chosen) => chosen,
        None => term,
    }
}
