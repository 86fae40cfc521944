//! The rules that the typing of code breaks.

ghost use Rattle.std.specs.Prelude.{List};
ghost use Rattle.std.specs.Bool.{Decides};
ghost use Rattle.program.specs.CodeNodes.{CodeNode};
ghost use Rattle.typing_rules.specs.Answers.{System, IsAmbiguous};
ghost use Rattle.typing_rules.specs.declared.type_pool.PoolType.{PoolType};
ghost use Rattle.body_types.specs.CodeTyped.{TypingSays};
ghost use Rattle.type_check.specs.Split.{IsIllTyped};

use body_types::code::typing::CodeTyping;

/// The typing rules that a function or a constant breaks.
#[derive(Clone, Copy, Debug, PartialEq, Eq)]
pub(crate) struct BrokenRules {
    /// It has no typing, or one that breaks a rule.
    pub(crate) untyped: bool,
    /// It is ambiguous.
    pub(crate) unsettled: bool,
}

/// Decides whether there is no typing, or a number literal does not fit its type.
pub(crate) fn is_ill_typed(typing: &CodeTyping) -> bool
    ensures { (s : System) (nodes : List CodeNode) (pool : List PoolType) → TypingSays s nodes pool typing.now → Decides result (IsIllTyped s nodes) }
{
    match typing {
        CodeTyping::Untypable => true,
        CodeTyping::Ambiguous(_, judged) => judged.misfits,
        CodeTyping::Typed(_, judged) => judged.misfits,
    }
}

/// Decides whether there are typings, and a head is open or the type of a type variable is not determined.
pub(crate) fn is_ambiguous(typing: &CodeTyping) -> bool
    ensures { (s : System) (nodes : List CodeNode) (pool : List PoolType) → TypingSays s nodes pool typing.now → Decides result (IsAmbiguous s) }
{
    match typing {
        CodeTyping::Untypable => false,
        CodeTyping::Ambiguous(_, _) => true,
        CodeTyping::Typed(_, _) => false,
    }
}
