//! A body with the judgments of the types of its type variables.

ghost use Rattle.std.specs.Prelude.{◌≡◌, ◌<◌, All, length};
ghost use Rattle.typing_rules.specs.Required.{Copy, Drop, Key};
ghost use Rattle.ability_rules.specs.Entries.{IsListed};
ghost use Rattle.ability_rules.specs.Bodies.{is_lacking, judged_variable};

use crate::required::entry::{Judged, JudgedTypes};

/// The numbers of the types of a body's type variables, and the judgments of the types with these numbers.
#[derive(Clone, Copy)]
pub struct JudgedBody<'a> {
    pub variables: &'a [usize],
    pub table: &'a JudgedTypes,
}

/// The judgment of the type of a variable.
pub(crate) fn known<'a>(body: JudgedBody<'a>, variable: usize) -> Judged
    requires within { variable < length body.variables.now }
    requires known { All (IsListed body.table.now) body.variables.now }
    ensures { result ≡ judged_variable body.entry.table.now body.entry.variables.now variable }
{
    body.table.of(body.variables[variable])
}

/// Decides whether a value of the variable's type can't be copied.
pub(crate) fn lacks_copy<'a>(body: JudgedBody<'a>, variable: usize) -> bool
    requires within { variable < length body.variables.now }
    requires known { All (IsListed body.table.now) body.variables.now }
    ensures { result ≡ is_lacking (judged_variable body.entry.table.now body.entry.variables.now) (variable, Copy) }
{
    !known(body, variable).abilities.has_copy
}

/// Decides whether it can't be dropped.
pub(crate) fn lacks_drop<'a>(body: JudgedBody<'a>, variable: usize) -> bool
    requires within { variable < length body.variables.now }
    requires known { All (IsListed body.table.now) body.variables.now }
    ensures { result ≡ is_lacking (judged_variable body.entry.table.now body.entry.variables.now) (variable, Drop) }
{
    !known(body, variable).abilities.has_drop
}

/// Decides whether the type lacks key, so that its values can't be in storage by themselves.
pub(crate) fn lacks_key<'a>(body: JudgedBody<'a>, variable: usize) -> bool
    requires within { variable < length body.variables.now }
    requires known { All (IsListed body.table.now) body.variables.now }
    ensures { result ≡ is_lacking (judged_variable body.entry.table.now body.entry.variables.now) (variable, Key) }
{
    !known(body, variable).abilities.has_key
}
