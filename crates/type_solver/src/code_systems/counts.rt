//! The number of type variables of code.

ghost use Rattle.std.specs.Prelude.{◌≡◌, ◌<◌, ◌+◌, IfOk, length};
ghost use Rattle.typing_rules.specs.Settings.{first_argument, variable_count};
ghost use Rattle.type_constraints.specs.CodeSettings.{setting_of};

use base::memory::NoMemory;
use type_constraints::code::arity::node_arity;
use type_constraints::code::setting::{CodeSetting, variable_of_local};
use type_constraints::numbers::sum;

/// The type variable of the first type argument of the first node. `NoMemory` where its number exceeds `usize`, as only
/// with more nodes than any memory holds.
pub fn first_of_all<'a>(setting: CodeSetting<'a>) -> Result<usize, NoMemory>
    ensures { IfOk result (λ first. first ≡ first_argument (setting_of setting.entry) 0) }
{
    variable_of_local(setting, setting.locals)
}

/// The type variable of the first type argument of the next node.
pub fn next_first<'a>(
    setting: CodeSetting<'a>,
    index: usize,
    first: usize,
) -> Result<usize, NoMemory>
    requires within { index < length setting.body.now.nodes }
    requires first { first ≡ first_argument (setting_of setting) index }
    ensures { IfOk result (λ next. next ≡ first_argument (setting_of setting.entry) (index + 1)) }
{
    let count = node_arity(setting.program, setting.body.node(index));
    sum(first, count)
}

/// The number of type variables.
pub fn variable_count<'a>(setting: CodeSetting<'a>) -> Result<usize, NoMemory>
    ensures { IfOk result (λ count. count ≡ variable_count (setting_of setting.entry)) }
{
    let mut first = first_of_all(setting)?;
    for index in 0..setting.body.len() {
        first = next_first(setting, index, first)?;
    }
    Ok(first)
}
