//! The settings of pragmas.

ghost use Rattle.std.specs.Prelude.{◌≡◌, [], ◌∷◌, None, if◌then◌else◌};
ghost use Rattle.std.specs.Option.{option_or};
ghost use Rattle.base.specs.Names.{same_name};
ghost use Rattle.resolution.specs.Pragmas.{before_others, holding, pragmas_in, pragmas_of, pragmas_of_clause, settings_of, value_of};

use program::declaration::Pragmas;
use syntax_tree::clause::{Clause as ClauseTree, Pragma, PragmaValue};

/// The settings of pragmas, each of which may be absent.
#[derive(Clone, Copy, Debug, PartialEq, Eq)]
pub struct Settings {
    pub verify: Option<bool>,
    pub is_opaque: Option<bool>,
    pub aborts_if_is_partial: Option<bool>,
    pub aborts_if_is_strict: Option<bool>,
}

impl Settings {
    /// Returns the settings without any pragma.
    pub fn new() -> Settings
        ensures { result ≡ settings_of [] }
    {
        Settings {
            verify: None,
            is_opaque: None,
            aborts_if_is_partial: None,
            aborts_if_is_strict: None,
        }
    }
}

/// Returns the value that a pragma sets. A number sets no value, since no supported pragma has one.
fn value_of(value: &Option<PragmaValue>) -> Option<bool>
    ensures { result ≡ value_of value.now }
{
    match value {
        None => Some(true),
        Some(PragmaValue::Truth { value, .. }) => Some(*value),
        Some(PragmaValue::Number(_)) => None,
    }
}

/// Returns the value that a pragma of this name sets, or else the value before.
fn set_by(name: &[u8], word: &[u8], value: Option<bool>, before: Option<bool>) -> Option<bool>
    ensures { result ≡ option_or (if same_name name.now word.now then value else None) before }
{
    if name == word {
        value.or(before)
    } else {
        before
    }
}

/// Returns the settings after one more pragma.
fn with_pragma(before: Settings, pragma: &Pragma) -> Settings
    ensures { result ≡ before_others (settings_of (pragma.now ∷ [])) before }
{
    let name = pragma.name.text.as_slice();
    let value = value_of(&pragma.value);
    Settings {
        verify: set_by(name, b"verify", value, before.verify),
        is_opaque: set_by(name, b"opaque", value, before.is_opaque),
        aborts_if_is_partial: set_by(
            name,
            b"aborts_if_is_partial",
            value,
            before.aborts_if_is_partial,
        ),
        aborts_if_is_strict: set_by(
            name,
            b"aborts_if_is_strict",
            value,
            before.aborts_if_is_strict,
        ),
    }
}

/// Returns the settings after several pragmas.
fn with_pragmas(before: Settings, pragmas: &[Pragma]) -> Settings
    ensures { result ≡ before_others (settings_of pragmas.now) before }
{
    let mut settings = before;
    for pragma in pragmas {
        settings = with_pragma(settings, pragma);
    }
    settings
}

/// Returns the settings after a clause.
fn with_clause(before: Settings, clause: &ClauseTree) -> Settings
    ensures { result ≡ before_others (settings_of (pragmas_of_clause clause.now)) before }
{
    match clause {
        ClauseTree::Pragma { pragmas, .. } => with_pragmas(before, &pragmas.items),
        _ => before,
    }
}

/// Returns the settings after the pragmas of one more spec block of a target.
pub fn with_block(before: Settings, clauses: &[ClauseTree]) -> Settings
    ensures { result ≡ before_others (settings_of (pragmas_in clauses.now)) before }
{
    let mut settings = before;
    for clause in clauses {
        settings = with_clause(settings, clause);
    }
    settings
}

/// Returns the pragmas in force for a function, from the settings of its own blocks and those of its module.
pub fn pragmas_of(own: Settings, of_module: Settings) -> Pragmas
    ensures { result ≡ pragmas_of own of_module }
{
    Pragmas {
        verify: own.verify.or(of_module.verify).unwrap_or(true),
        is_opaque: own.is_opaque.or(of_module.is_opaque).unwrap_or(false),
        aborts_if_is_partial: own
            .aborts_if_is_partial
            .or(of_module.aborts_if_is_partial)
            .unwrap_or(false),
        aborts_if_is_strict: own
            .aborts_if_is_strict
            .or(of_module.aborts_if_is_strict)
            .unwrap_or(false),
    }
}
