//! The typing rules split into those of code and those of specifications, and the rule that a function without a typing
//! breaks.

ghost use Rattle.std.specs.Prelude.{◌↔◌, ◌⊎◌};
ghost use Rattle.base.specs.declared.span.Span.{Span};
ghost use Rattle.program.specs.declared.program.Program.{Program};
ghost use Rattle.typing_rules.specs.Faults.{BreaksTyping, IsUnsettled};
ghost use Rattle.type_check.specs.Split.{CodeBreaksTyping, CodeIsUnsettled, SpecBreaksTyping, SpecIsUnsettled};
ghost use Rattle.type_check.specs.Typed.{HasUntyped};

/// A law: a declaration that breaks a typing rule is code or a specification.
pub fn breaks_in_code_or_spec()
    ensures { (program : Program) (span : Span) → BreaksTyping program span ↔ CodeBreaksTyping program span ⊎ SpecBreaksTyping program span }
{}

/// A law: a declaration that is ambiguous is code or a specification.
pub fn unsettled_in_code_or_spec()
    ensures { (program : Program) (span : Span) → IsUnsettled program span ↔ CodeIsUnsettled program span ⊎ SpecIsUnsettled program span }
{}

/// A law: if a function is not typed, code breaks a typing rule or is ambiguous.
pub fn untyped_is_a_fault()
    ensures { (program : Program) → HasUntyped program → (span : Span) × (CodeBreaksTyping program span ⊎ CodeIsUnsettled program span) }
{}
