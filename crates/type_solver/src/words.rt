//! Sorts and type constructors of the typing rules as those of the solver.

ghost use Rattle.std.specs.Prelude.{◌≡◌};
ghost use Rattle.type_solver.specs.Words.{sort_word, wrap_word};

use unification::type_variables::slots::{Sort, Wrap};

/// The same sort, as the solver names it.
pub fn sort_word(sort: typing_rules::sort::Sort) -> Sort
    ensures { result ≡ sort_word sort }
{
    match sort {
        typing_rules::sort::Sort::Single => Sort::Single,
        typing_rules::sort::Sort::Value => Sort::Value,
        typing_rules::sort::Sort::Integer => Sort::Integer,
    }
}

/// The same type constructor, as the solver names it.
pub fn wrap_word(wrap: typing_rules::sort::Wrap) -> Wrap
    ensures { result ≡ wrap_word wrap }
{
    match wrap {
        typing_rules::sort::Wrap::Vector => Wrap::Vector,
        typing_rules::sort::Wrap::Shared => Wrap::Shared,
        typing_rules::sort::Wrap::Mutable => Wrap::Mutable,
    }
}
