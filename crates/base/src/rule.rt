//! The rules of the language that a file can break.

ghost use Rattle.std.specs.Prelude.{◌≡◌};
ghost use Rattle.base.specs.Rules.{rule_name, rule_number};

/// A rule of the language that a file can break.
#[derive(Clone, Copy, Debug, PartialEq, Eq)]
pub enum Rule {
    /// No list of tokens spells the bytes.
    BadToken,
    /// The tokens are of no source, and contain no marker of a form that is left out.
    Grammar,
    /// The tokens are of no source, and contain a marker of a form that is left out.
    LeftOut,
    /// A name refers to no declaration: of an address, a module, a member, a type, a value, a callee or a variable of a
    /// schema.
    UnknownName,
    /// Two declarations of one kind in one module have the same name, or two parameters, type parameters or fields of
    /// one owner; or two modules have the same address and name.
    TwiceDeclared,
    /// Code calls a function that is not visible in its module, packs or unpacks a struct of another module, uses a
    /// field of one, or uses global storage at one; fields and storage whose types are inferred count too.
    NotVisible,
    /// Modules use one another in a cycle, the types of a struct's fields lead back to the struct, or spec functions or
    /// schemas use themselves.
    Cycle,
    /// A declaration or a clause has no typing; or a numeral does not fit its type, the value of a constant is not
    /// returned, or calls carry a type parameter back to itself inside another type.
    NoTyping,
    /// There are typings, and a type is not determined.
    Ambiguous,
    /// A type lacks a required ability.
    Ability,
    /// A function does not list in `acquires` a struct that it must list.
    Acquires,
    /// A local may be used without a value.
    Unassigned,
    /// A value whose type has no drop may be left behind.
    Undropped,
    /// The file contains a form that is not supported yet.
    NotBuilt,
}

impl Rule {
    /// Returns the number of the rule, which a refusal states.
    pub fn number(self) -> u32
        ensures { result ≡ rule_number self }
    {
        match self {
            Rule::BadToken => 1,
            Rule::Grammar => 2,
            Rule::LeftOut => 3,
            Rule::UnknownName => 5,
            Rule::TwiceDeclared => 6,
            Rule::NotVisible => 7,
            Rule::Cycle => 8,
            Rule::NoTyping => 9,
            Rule::Ambiguous => 10,
            Rule::Ability => 11,
            Rule::Acquires => 12,
            Rule::Unassigned => 13,
            Rule::Undropped => 14,
            Rule::NotBuilt => 18,
        }
    }

    /// Returns the name of the rule, which a refusal states.
    pub fn text(self) -> &'static [u8]
        ensures { result.now ≡ rule_name self }
    {
        match self {
            Rule::BadToken => b"BadToken",
            Rule::Grammar => b"Grammar",
            Rule::LeftOut => b"LeftOut",
            Rule::UnknownName => b"UnknownName",
            Rule::TwiceDeclared => b"TwiceDeclared",
            Rule::NotVisible => b"NotVisible",
            Rule::Cycle => b"Cycle",
            Rule::NoTyping => b"NoTyping",
            Rule::Ambiguous => b"Ambiguous",
            Rule::Ability => b"Ability",
            Rule::Acquires => b"Acquires",
            Rule::Unassigned => b"Unassigned",
            Rule::Undropped => b"Undropped",
            Rule::NotBuilt => b"NotBuilt",
        }
    }
}
