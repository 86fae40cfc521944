//! Settings of code.

ghost use Rattle.std.specs.Prelude.{◌≡◌, IfOk};
ghost use Rattle.typing_rules.specs.Settings.{variable_of_local};
ghost use Rattle.type_constraints.specs.CodeSettings.{setting_of};

use base::memory::NoMemory;
use base::types::TypeTerm;
use program::code::Body;
use program::program::Program;

/// The program, the nodes of a body, the number of its locals, and its result type; a constant has no result.
#[derive(Clone, Copy)]
pub struct CodeSetting<'a> {
    pub program: &'a Program,
    pub body: &'a Body,
    pub locals: usize,
    pub result: Option<&'a TypeTerm>,
}

/// The loops around a node: whether it is in the body of one, and whether, if it is a `loop` itself, a `break` belongs
/// to it.
#[derive(Clone, Copy, Debug, PartialEq, Eq)]
pub struct Jumps {
    pub in_loop: bool,
    pub breaks: bool,
}

/// The type variable of a local. `NoMemory` where its number exceeds `usize`, as only with more nodes than any memory
/// holds.
pub fn variable_of_local<'a>(setting: CodeSetting<'a>, local: usize) -> Result<usize, NoMemory>
    ensures { IfOk result (λ variable. variable ≡ variable_of_local (setting_of setting.entry) local) }
{
    match setting.body.len().checked_add(local) {
        Some(variable) => Ok(variable),
        None => Err(NoMemory),
    }
}
