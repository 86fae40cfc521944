//! Spec blocks and their clauses.

use crate::lexeme::{Identifier, Numeral};
use crate::member::{TypeParameters, TypedName, TypedNames};
use crate::path::Path;
use crate::spec_expression::{SpecExpression, SpecField};
use crate::types::{SourceType, TypeArguments};
use base::span::Span;
use std::marker::Model;

/// The value of a pragma.
#[derive(Drop)]
pub enum PragmaValue {
    Truth { span: Span, value: bool },
    Number(Numeral),
}

/// A pragma, with its value if one is written.
#[derive(Drop)]
pub struct Pragma {
    pub name: Identifier,
    pub value: Option<PragmaValue>,
}

/// Pragmas, separated by commas.
#[derive(Drop)]
pub struct Pragmas {
    pub items: Vec<Pragma>,
    pub last_comma: bool,
}

/// The expression of an abort code, in a box. Contracts see the expression without the box.
#[derive(Drop)]
pub struct CodeExpression {
    pub expression: Box<SpecExpression>,
}

/// The abort code of an `aborts_if`.
#[derive(Drop)]
pub enum AbortCode {
    /// No code is written.
    Bare,
    /// The code of an abort without a code of its own.
    Failure,
    Code(CodeExpression),
}

/// The targets of a `modifies`: locations of global storage.
#[derive(Drop)]
pub struct Targets {
    pub items: Vec<SpecExpression>,
    pub last_comma: bool,
}

/// The values of the variables of a schema.
#[derive(Drop)]
pub struct Bindings {
    pub items: Vec<SpecField>,
    pub last_comma: bool,
}

pub struct Include {
    pub span: Span,
    pub schema: Path,
    pub arguments: Option<TypeArguments>,
    pub bindings: Option<Bindings>,
}

// A separate impl, so that each drop is a call and not the cases of all forms below it.
impl Drop for Include {
    fn drop(self) {
        let Include {
            span: _,
            schema,
            arguments,
            bindings,
        } = self;
        drop(schema);
        drop(arguments);
        drop(bindings);
    }
}

/// A clause of a spec block.
pub enum Clause {
    Pragma {
        span: Span,
        pragmas: Pragmas,
    },
    Requires {
        span: Span,
        condition: SpecExpression,
    },
    Ensures {
        span: Span,
        condition: SpecExpression,
    },
    AbortsIf {
        span: Span,
        condition: SpecExpression,
        code: AbortCode,
    },
    Modifies {
        span: Span,
        targets: Targets,
    },
    Invariant {
        span: Span,
        is_update: bool,
        condition: SpecExpression,
    },
    Let {
        span: Span,
        is_post: bool,
        name: Identifier,
        value: SpecExpression,
    },
    Include(Include),
    /// A variable of a schema.
    Variable(TypedName),
}

// A separate impl, so that each drop is a call and not the cases of all forms below it.
impl Drop for Clause {
    fn drop(self) {
        match self {
            Clause::Pragma { span: _, pragmas } => drop(pragmas),
            Clause::Requires { span: _, condition }
            | Clause::Ensures { span: _, condition }
            | Clause::Invariant {
                span: _,
                is_update: _,
                condition,
            } => drop(condition),
            Clause::AbortsIf {
                span: _,
                condition,
                code,
            } => {
                drop(condition);
                drop(code);
            }
            Clause::Modifies { span: _, targets } => drop(targets),
            Clause::Let {
                span: _,
                is_post: _,
                name,
                value,
            } => {
                drop(name);
                drop(value);
            }
            Clause::Include(include) => drop(include),
            Clause::Variable(variable) => drop(variable),
        }
    }
}

/// The clauses between the braces of a block.
#[derive(Drop)]
pub struct Clauses {
    pub items: Vec<Clause>,
}

pub struct Schema {
    pub span: Span,
    pub name: Identifier,
    pub parameters: Option<TypeParameters>,
    pub clauses: Clauses,
}

// A separate impl, so that each drop is a call and not the cases of all forms below it.
impl Drop for Schema {
    fn drop(self) {
        let Schema {
            span: _,
            name,
            parameters,
            clauses,
        } = self;
        drop(name);
        drop(parameters);
        drop(clauses);
    }
}

/// A spec function.
pub struct SpecFunction {
    pub span: Span,
    pub name: Identifier,
    pub parameters: Option<TypeParameters>,
    pub inputs: TypedNames,
    pub result: SourceType,
    pub body: SpecExpression,
}

// A separate impl, so that each drop is a call and not the cases of all forms below it.
impl Drop for SpecFunction {
    fn drop(self) {
        let SpecFunction {
            span: _,
            name,
            parameters,
            inputs,
            result,
            body,
        } = self;
        drop(name);
        drop(parameters);
        drop(inputs);
        drop(result);
        drop(body);
    }
}

/// A spec block.
pub enum Spec {
    /// The block of the module around it.
    Module {
        span: Span,
        clauses: Clauses,
    },
    /// The block of a struct or a function, by name.
    Named {
        span: Span,
        name: Identifier,
        clauses: Clauses,
    },
    Schema(Schema),
    Function(SpecFunction),
    /// The block of the loop of Move code around it.
    Loop {
        span: Span,
        clauses: Clauses,
    },
}

// A separate impl, so that each drop is a call and not the cases of all forms below it.
impl Drop for Spec {
    fn drop(self) {
        match self {
            Spec::Module { span: _, clauses } | Spec::Loop { span: _, clauses } => drop(clauses),
            Spec::Named {
                span: _,
                name,
                clauses,
            } => {
                drop(name);
                drop(clauses);
            }
            Spec::Schema(schema) => drop(schema),
            Spec::Function(function) => drop(function),
        }
    }
}

impl Model for Pragmas {
    ghost use Rattle.syntax_tree.specs.ClauseData.{PragmasData};

    ghost Value = { PragmasData };

    ghost view = { λ a. record { items = a.items.items; last_comma = a.last_comma } };
}

impl Model for CodeExpression {
    ghost use Rattle.std.specs.Coded.{codes};
    ghost use Rattle.syntax_tree.specs.SpecExpressionCodes.{coded_spec_expression};
    ghost use Rattle.syntax_tree.specs.SpecExpressionData.{SpecExpressionData};

    ghost Value = { SpecExpressionData };

    ghost coded = { Prim.hlevel (codes, coded_spec_expression) };

    ghost view = { λ c. c.expression.value };
}

impl Model for Targets {
    ghost use Rattle.std.specs.Coded.{codes};
    ghost use Rattle.syntax_tree.specs.SpecExpressionCodes.{coded_spec_expression};
    ghost use Rattle.syntax_tree.specs.ClauseData.{TargetsData};

    ghost Value = { TargetsData };

    ghost coded = { Prim.hlevel (codes, coded_spec_expression) };

    ghost view = { λ a. record { items = a.items.items; last_comma = a.last_comma } };
}

impl Model for Bindings {
    ghost use Rattle.std.specs.Coded.{codes};
    ghost use Rattle.syntax_tree.specs.SpecExpressionCodes.{coded_spec_field};
    ghost use Rattle.syntax_tree.specs.ClauseData.{BindingsData};

    ghost Value = { BindingsData };

    ghost coded = { Prim.hlevel (codes, coded_spec_field) };

    ghost view = { λ a. record { items = a.items.items; last_comma = a.last_comma } };
}

impl Model for Clauses {
    ghost use Rattle.std.specs.Coded.{codes};
    ghost use Rattle.std.specs.Prelude.{List};
    ghost use Rattle.syntax_tree.specs.TypeTreeCodes.{coded_source_type, coded_arguments};
    ghost use Rattle.syntax_tree.specs.SpecExpressionCodes.{coded_spec_expression, coded_spec_field};
    ghost use Rattle.syntax_tree.specs.declared.clause.Clause.{Clause};

    ghost Value = { List Clause };

    ghost coded = { Prim.hlevel (codes, coded_source_type, coded_arguments, coded_spec_expression, coded_spec_field) };

    ghost view = { λ a. a.items.items };
}
