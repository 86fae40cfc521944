//! The types of the type variables of a typed clause, as trees.

ghost use Rattle.std.specs.Prelude.{◌≡◌, ◌+◌, ◌≤◌, ℕ, List, IfOk, MatchOption};
ghost use Rattle.std.specs.Option.{option_map};
ghost use Rattle.typing_rules.specs.Answers.{System, IsUntypable};
ghost use Rattle.typing_rules.specs.declared.type_pool.PoolType.{PoolType};
ghost use Rattle.unification.specs.Choices.{VariableSays};
ghost use Rattle.type_constraints.specs.SpecSettings.{let_of};
ghost use Rattle.body_types.specs.SpecTyped.{SpecTypingSays};
ghost use Rattle.type_check.specs.Lets.{ArgumentsSay, LetSays};

use base::memory::NoMemory;
use base::types::TypeTerm;
use body_types::spec::terms::term_of;
use body_types::spec::typing::SpecTyping;
use program::clause::ClauseForm;
use std::alloc::Global;
use type_constraints::spec::setting::LetType;
use typing_rules::type_pool::TypePool;

/// The number of type variables, if there are typings.
pub(crate) fn variable_count(typing: &SpecTyping) -> Option<usize>
    ensures { (s : System) (pool : List PoolType) → SpecTypingSays s pool typing.now → MatchOption result (IsUntypable s) (λ count. count ≡ s.variables) }
{
    match typing {
        SpecTyping::Untypable => None,
        SpecTyping::Ambiguous(numbers) => Some(numbers.len()),
        SpecTyping::Typed(numbers) => Some(numbers.as_slice().len()),
    }
}

/// The number in the pool of the type of a type variable, if it has one. `NoMemory` where there is no such type
/// variable, and there are typings.
fn number_of(typing: &SpecTyping, variable: usize) -> Result<Option<usize>, NoMemory>
    ensures { IfOk result (λ found. (s : System) (pool : List PoolType) → SpecTypingSays s pool typing.now → VariableSays s pool variable found) }
{
    match variable_count(typing) {
        None => Ok(None),
        Some(count) => {
            if variable < count {
                Ok(typing.type_of(variable))
            } else {
                Err(NoMemory)
            }
        }
    }
}

/// The types of the type variables from `first` on, before `end`; none where one of them has none. `NoMemory` also
/// where there are typings, and fewer type variables.
fn types_between(
    alloc: Global,
    typing: &SpecTyping,
    pool: &TypePool,
    first: usize,
    end: usize,
) -> Result<Option<Vec<TypeTerm>>, NoMemory>
    requires order { first ≤ end }
    requires typed { (s : System) × SpecTypingSays s pool.now typing.now }
    ensures { IfOk result (λ found. (s : System) → SpecTypingSays s pool.now typing.now → ArgumentsSay s first end (option_map (λ terms. terms.items) found)) }
{
    let mut terms = Vec::new(alloc);
    for variable in first..end {
        match number_of(typing, variable)? {
            None => return Ok(None),
            Some(number) => terms.push(term_of(alloc, pool, number)?)?,
        }
    }
    Ok(Some(terms))
}

/// The types of the last so many type variables; none where one of them has none.
pub(crate) fn last_types(
    alloc: Global,
    typing: &SpecTyping,
    pool: &TypePool,
    count: usize,
) -> Result<Option<Vec<TypeTerm>>, NoMemory>
    requires { (s : System) × SpecTypingSays s pool.now typing.now }
    ensures { IfOk result (λ found. (s : System) (first : ℕ) → SpecTypingSays s pool.now typing.now → s.variables ≡ first + count → ArgumentsSay s first (first + count) (option_map (λ terms. terms.items) found)) }
{
    match variable_count(typing) {
        // Without typings no type variable has a type.
        None => types_between(alloc, typing, pool, 0, count),
        Some(end) => {
            if end < count {
                Ok(None)
            } else {
                types_between(alloc, typing, pool, end - count, end)
            }
        }
    }
}

/// The type of the value of a `let`, if it has one. `NoMemory` also where its value is no node of the clause, and there
/// are typings.
pub(crate) fn let_of(
    alloc: Global,
    form: &ClauseForm,
    typing: &SpecTyping,
    pool: &TypePool,
) -> Result<Option<LetType>, NoMemory>
    requires { (s : System) × SpecTypingSays s pool.now typing.now }
    ensures { IfOk result (λ known. (s : System) → SpecTypingSays s pool.now typing.now → LetSays s form.now (let_of known)) }
{
    match form {
        ClauseForm::Let { is_post, value } => match number_of(typing, *value)? {
            None => Ok(None),
            Some(number) => Ok(Some(LetType {
                is_post: *is_post,
                of: term_of(alloc, pool, number)?,
            })),
        },
        _ => Ok(None),
    }
}
