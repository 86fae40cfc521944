//! Files, modules and their members.

use crate::expression::{Block, Expression};
use crate::lexeme::Identifier;
use crate::path::{ModuleName, Path};
use crate::spec_tokens::KeptSpec;
use crate::types::SourceType;
use base::span::Span;
use std::marker::Model;
use tokens::token::Tokens;

/// An attribute: a number sign, and tokens between brackets.
#[derive(Drop)]
pub struct Attribute {
    pub span: Span,
    /// The tokens between its brackets.
    pub tokens: Tokens,
}

/// A name that a `use` imports, with its alias.
#[derive(Drop)]
pub struct Import {
    pub name: Identifier,
    pub alias: Option<Identifier>,
}

/// The names that a `use` imports between braces.
#[derive(Drop)]
pub struct Imports {
    pub items: Vec<Import>,
    pub last_comma: bool,
}

/// What a `use` imports.
#[derive(Drop)]
pub enum Imported {
    /// The module itself, with its alias.
    Module(Option<Identifier>),
    One(Import),
    Several(Imports),
}

pub struct Use {
    pub span: Span,
    pub owner: ModuleName,
    pub imported: Imported,
}

// A separate impl, so that each drop is a call and not the cases of all forms below it.
impl Drop for Use {
    fn drop(self) {
        let Use {
            span: _,
            owner,
            imported,
        } = self;
        drop(owner);
        drop(imported);
    }
}

#[derive(Drop)]
pub struct Friend {
    pub span: Span,
    pub owner: ModuleName,
}

/// An ability of a type.
#[derive(Clone, Copy, Debug, PartialEq, Eq)]
pub enum Ability {
    Copy,
    Drop,
    Store,
    Key,
}

/// The abilities of a struct, separated by commas.
#[derive(Drop)]
pub struct Abilities {
    pub items: Vec<Ability>,
    pub last_comma: bool,
}

/// A type parameter, with the abilities that its types must have.
#[derive(Drop)]
pub struct TypeParameter {
    pub is_phantom: bool,
    pub name: Identifier,
    pub abilities: Vec<Ability>,
}

/// The type parameters between `<` and `>`.
#[derive(Drop)]
pub struct TypeParameters {
    pub items: Vec<TypeParameter>,
    pub last_comma: bool,
}

/// A name with its type: a field, or a parameter.
#[derive(Drop)]
pub struct TypedName {
    pub name: Identifier,
    pub annotation: SourceType,
}

/// Names with their types, separated by commas.
#[derive(Drop)]
pub struct TypedNames {
    pub items: Vec<TypedName>,
    pub last_comma: bool,
}

pub struct Struct {
    pub span: Span,
    pub name: Identifier,
    pub parameters: Option<TypeParameters>,
    pub abilities: Option<Abilities>,
    pub fields: TypedNames,
}

// A separate impl, so that each drop is a call and not the cases of all forms below it.
impl Drop for Struct {
    fn drop(self) {
        let Struct {
            span: _,
            name,
            parameters,
            abilities,
            fields,
        } = self;
        drop(name);
        drop(parameters);
        drop(abilities);
        drop(fields);
    }
}

#[derive(Drop)]
pub struct Constant {
    pub span: Span,
    pub name: Identifier,
    pub annotation: SourceType,
    pub value: Expression,
}

/// The visibility of a function.
#[derive(Clone, Copy, Debug, PartialEq, Eq)]
pub enum Visibility {
    /// In its own module only.
    Module,
    Public(Span),
    /// Also in the friends of its module.
    Friends(Span),
}

/// The structs in the `acquires` of a function.
#[derive(Drop)]
pub struct Paths {
    pub items: Vec<Path>,
    pub last_comma: bool,
}

pub struct Function {
    pub visibility: Visibility,
    /// The span of `entry`, if the function has it.
    pub entry: Option<Span>,
    pub span: Span,
    pub name: Identifier,
    pub parameters: Option<TypeParameters>,
    pub inputs: TypedNames,
    pub result: Option<SourceType>,
    pub acquires: Option<Paths>,
    pub body: Block,
}

// A separate impl, so that each drop is a call and not the cases of all forms below it.
impl Drop for Function {
    fn drop(self) {
        let Function {
            visibility: _,
            entry: _,
            span: _,
            name,
            parameters,
            inputs,
            result,
            acquires,
            body,
        } = self;
        drop(name);
        drop(parameters);
        drop(inputs);
        drop(result);
        drop(acquires);
        drop(body);
    }
}

/// The forms of a member.
#[derive(Drop)]
pub enum MemberForm {
    Use(Use),
    Friend(Friend),
    Struct(Struct),
    Constant(Constant),
    Function(Function),
    Spec(KeptSpec),
}

/// A member of a module.
#[derive(Drop)]
pub struct Member {
    pub attributes: Vec<Attribute>,
    pub form: MemberForm,
}

#[derive(Drop)]
pub struct Module {
    pub attributes: Vec<Attribute>,
    pub span: Span,
    pub name: ModuleName,
    pub members: Vec<Member>,
}

/// The modules of a file.
#[derive(Drop)]
pub struct File {
    pub modules: Vec<Module>,
}

impl Model for Imports {
    ghost use Rattle.syntax_tree.specs.MemberData.{ImportsData};

    ghost Value = { ImportsData };

    ghost view = { λ a. record { items = a.items.items; last_comma = a.last_comma } };
}

impl Model for Abilities {
    ghost use Rattle.syntax_tree.specs.MemberData.{AbilitiesData};

    ghost Value = { AbilitiesData };

    ghost view = { λ a. record { items = a.items.items; last_comma = a.last_comma } };
}

impl Model for TypeParameter {
    ghost use Rattle.syntax_tree.specs.MemberData.{TypeParameterData};

    ghost Value = { TypeParameterData };

    ghost view = { λ a. record { is_phantom = a.is_phantom; name = a.name; abilities = a.abilities.items } };
}

impl Model for TypeParameters {
    ghost use Rattle.syntax_tree.specs.MemberData.{TypeParametersData};

    ghost Value = { TypeParametersData };

    ghost view = { λ a. record { items = a.items.items; last_comma = a.last_comma } };
}

impl Model for TypedNames {
    ghost use Rattle.std.specs.Coded.{codes};
    ghost use Rattle.syntax_tree.specs.TypeTreeCodes.{coded_source_type};
    ghost use Rattle.syntax_tree.specs.MemberData.{TypedNamesData};

    ghost Value = { TypedNamesData };

    ghost coded = { Prim.hlevel (codes, coded_source_type) };

    ghost view = { λ a. record { items = a.items.items; last_comma = a.last_comma } };
}

impl Model for Paths {
    ghost use Rattle.syntax_tree.specs.MemberData.{PathsData};

    ghost Value = { PathsData };

    ghost view = { λ a. record { items = a.items.items; last_comma = a.last_comma } };
}

impl Model for Member {
    ghost use Rattle.std.specs.Coded.{codes};
    ghost use Rattle.syntax_tree.specs.TypeTreeCodes.{coded_source_type};
    ghost use Rattle.syntax_tree.specs.ExpressionCodes.{coded_expression, coded_block};
    ghost use Rattle.syntax_tree.specs.FileData.{MemberData};

    ghost Value = { MemberData };

    ghost coded = { Prim.hlevel (codes, coded_source_type, coded_expression, coded_block) };

    ghost view = { λ a. record { attributes = a.attributes.items; form = a.form } };
}

impl Model for Module {
    ghost use Rattle.std.specs.Coded.{codes};
    ghost use Rattle.syntax_tree.specs.TypeTreeCodes.{coded_source_type};
    ghost use Rattle.syntax_tree.specs.ExpressionCodes.{coded_expression, coded_block};
    ghost use Rattle.syntax_tree.specs.FileData.{ModuleData};

    ghost Value = { ModuleData };

    ghost coded = { Prim.hlevel (codes, coded_source_type, coded_expression, coded_block) };

    ghost view = { λ a. record { attributes = a.attributes.items; span = a.span; name = a.name; members = a.members.items } };
}

impl Model for File {
    ghost use Rattle.std.specs.Coded.{codes};
    ghost use Rattle.syntax_tree.specs.TypeTreeCodes.{coded_source_type};
    ghost use Rattle.syntax_tree.specs.ExpressionCodes.{coded_expression, coded_block};
    ghost use Rattle.std.specs.Prelude.{List};
    ghost use Rattle.syntax_tree.specs.FileData.{ModuleData};

    ghost Value = { List ModuleData };

    ghost coded = { Prim.hlevel (codes, coded_source_type, coded_expression, coded_block) };

    ghost view = { λ a. a.modules.items };
}
