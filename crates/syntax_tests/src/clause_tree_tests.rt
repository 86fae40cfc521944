//! Trees that are built by hand, against the tokens of the texts that they are trees of.

use crate::texts::compares;
use base::name::Name;
use base::span::Span;
use spelling::spell_clause::{spell, spell_clause};
use std::alloc::Global;
use std::panic::Expect;
use std::process::Abort;
use std::test::Fail;
use syntax_tree::clause::{
    AbortCode, Bindings, Clause, Clauses, Include, Pragma, PragmaValue, Pragmas, Schema, Spec,
    SpecFunction, Targets,
};
use syntax_tree::lexeme::{Identifier, Lexemes, Numeral};
use syntax_tree::member::{TypeParameter, TypeParameters, TypedName, TypedNames};
use syntax_tree::path::Path;
use syntax_tree::spec_expression::{SpecExpression, SpecField, SpecNode};
use syntax_tree::types::{SourceType, SourceTypeNode, TypeArguments};
use tokens::token::{NumberLiteral, NumberSuffix};

fn clause_spells(rt: &impl Abort, alloc: Global, text: &[u8], tree: Box<Clause>) {
    let mut spelled = Lexemes::new(alloc);
    spell_clause(alloc, &tree, &mut spelled).expect(rt, "memory");
    compares(rt, alloc, text, &spelled);
}

fn block_spells(rt: &impl Abort, alloc: Global, text: &[u8], tree: Box<Spec>) {
    let spelled = spell(alloc, &tree).expect(rt, "memory");
    compares(rt, alloc, text, &spelled);
}

// ---- parts of trees

fn at(start: u32, end: u32) -> Span {
    Span {
        file: 0,
        start,
        end,
    }
}

fn identifier(rt: &impl Abort, alloc: Global, text: &[u8], start: u32, end: u32) -> Identifier {
    Identifier {
        text: Name::from_slice(alloc, text).expect(rt, "memory"),
        span: at(start, end),
    }
}

fn path(rt: &impl Abort, alloc: Global, text: &[u8], start: u32, end: u32) -> Path {
    Path::Name(identifier(rt, alloc, text, start, end))
}

fn variable(
    rt: &impl Abort,
    alloc: Global,
    text: &[u8],
    start: u32,
    end: u32,
) -> Box<SpecExpression> {
    let node = SpecNode::Path(path(rt, alloc, text, start, end));
    Box::new(alloc, SpecExpression { node }).expect(rt, "memory")
}

fn named_type(
    rt: &impl Abort,
    alloc: Global,
    text: &[u8],
    start: u32,
    end: u32,
) -> Box<SourceType> {
    let node = SourceTypeNode::Named {
        path: path(rt, alloc, text, start, end),
        arguments: None,
    };
    Box::new(alloc, SourceType { node }).expect(rt, "memory")
}

fn typed(name: Identifier, annotation: Box<SourceType>) -> TypedName {
    TypedName {
        name,
        annotation: Box::into_inner(annotation),
    }
}

fn one_clause(rt: &impl Abort, alloc: Global, clause: Box<Clause>) -> Clauses {
    let mut items = Vec::new(alloc);
    items.push(Box::into_inner(clause)).expect(rt, "memory");
    Clauses { items }
}

fn one_parameter(rt: &impl Abort, alloc: Global, name: Identifier) -> Option<TypeParameters> {
    let mut items = Vec::new(alloc);
    items
        .push(TypeParameter {
            is_phantom: false,
            name,
            abilities: Vec::new(alloc),
        })
        .expect(rt, "memory");
    Some(TypeParameters {
        items,
        last_comma: false,
    })
}

// ---- the trees of the texts

fn pragmas(rt: &impl Abort, alloc: Global) -> Vec<Pragma> {
    let mut items = Vec::new(alloc);
    items
        .push(Pragma {
            name: identifier(rt, alloc, b"p", 7, 8),
            value: Some(PragmaValue::Truth {
                span: at(11, 15),
                value: true,
            }),
        })
        .expect(rt, "memory");
    let number = Numeral {
        literal: NumberLiteral {
            text: Name::from_slice(alloc, b"1").expect(rt, "memory"),
            value: 1,
            suffix: NumberSuffix::Absent,
        },
        span: at(21, 22),
    };
    items
        .push(Pragma {
            name: identifier(rt, alloc, b"q", 17, 18),
            value: Some(PragmaValue::Number(number)),
        })
        .expect(rt, "memory");
    items
}

// `pragma p = true, q = 1,;`
fn pragma_clause(rt: &impl Abort, alloc: Global) -> Box<Clause> {
    let clause = Clause::Pragma {
        span: at(0, 6),
        pragmas: Pragmas {
            items: pragmas(rt, alloc),
            last_comma: true,
        },
    };
    Box::new(alloc, clause).expect(rt, "memory")
}

// `requires a;`
fn requires_clause(rt: &impl Abort, alloc: Global) -> Box<Clause> {
    let clause = Clause::Requires {
        span: at(0, 8),
        condition: Box::into_inner(variable(rt, alloc, b"a", 9, 10)),
    };
    Box::new(alloc, clause).expect(rt, "memory")
}

// `ensures a;`
fn ensures_clause(rt: &impl Abort, alloc: Global) -> Box<Clause> {
    let clause = Clause::Ensures {
        span: at(0, 7),
        condition: Box::into_inner(variable(rt, alloc, b"a", 8, 9)),
    };
    Box::new(alloc, clause).expect(rt, "memory")
}

// `aborts_if a;`
fn aborts_if_clause(rt: &impl Abort, alloc: Global) -> Box<Clause> {
    let clause = Clause::AbortsIf {
        span: at(0, 9),
        condition: Box::into_inner(variable(rt, alloc, b"a", 10, 11)),
        code: AbortCode::Bare,
    };
    Box::new(alloc, clause).expect(rt, "memory")
}

fn targets(rt: &impl Abort, alloc: Global) -> Vec<SpecExpression> {
    let mut items = Vec::new(alloc);
    items
        .push(Box::into_inner(variable(rt, alloc, b"a", 9, 10)))
        .expect(rt, "memory");
    items
        .push(Box::into_inner(variable(rt, alloc, b"b", 12, 13)))
        .expect(rt, "memory");
    items
}

// `modifies a, b;`
fn modifies_clause(rt: &impl Abort, alloc: Global) -> Box<Clause> {
    let clause = Clause::Modifies {
        span: at(0, 8),
        targets: Targets {
            items: targets(rt, alloc),
            last_comma: false,
        },
    };
    Box::new(alloc, clause).expect(rt, "memory")
}

// `invariant update a;`
fn invariant_clause(rt: &impl Abort, alloc: Global) -> Box<Clause> {
    let clause = Clause::Invariant {
        span: at(0, 9),
        is_update: true,
        condition: Box::into_inner(variable(rt, alloc, b"a", 17, 18)),
    };
    Box::new(alloc, clause).expect(rt, "memory")
}

// `let post x = a;`
fn let_clause(rt: &impl Abort, alloc: Global) -> Box<Clause> {
    let clause = Clause::Let {
        span: at(0, 3),
        is_post: true,
        name: identifier(rt, alloc, b"x", 9, 10),
        value: Box::into_inner(variable(rt, alloc, b"a", 13, 14)),
    };
    Box::new(alloc, clause).expect(rt, "memory")
}

fn bindings(rt: &impl Abort, alloc: Global) -> Vec<SpecField> {
    let mut items = Vec::new(alloc);
    items
        .push(SpecField {
            name: identifier(rt, alloc, b"x", 15, 16),
            value: Some(Box::into_inner(variable(rt, alloc, b"a", 18, 19))),
        })
        .expect(rt, "memory");
    items
        .push(SpecField {
            name: identifier(rt, alloc, b"y", 21, 22),
            value: None,
        })
        .expect(rt, "memory");
    items
}

fn one_type(rt: &impl Abort, alloc: Global, annotation: Box<SourceType>) -> TypeArguments {
    let mut items = Vec::new(alloc);
    items.push(Box::into_inner(annotation)).expect(rt, "memory");
    TypeArguments {
        items,
        last_comma: false,
    }
}

// `include S<T> { x: a, y };`
fn include_clause(rt: &impl Abort, alloc: Global) -> Box<Clause> {
    let clause = Clause::Include(Include {
        span: at(0, 7),
        schema: path(rt, alloc, b"S", 8, 9),
        arguments: Some(one_type(rt, alloc, named_type(rt, alloc, b"T", 10, 11))),
        bindings: Some(Bindings {
            items: bindings(rt, alloc),
            last_comma: false,
        }),
    });
    Box::new(alloc, clause).expect(rt, "memory")
}

fn inner_ensures(rt: &impl Abort, alloc: Global) -> Box<Clause> {
    let clause = Clause::Ensures {
        span: at(9, 16),
        condition: Box::into_inner(variable(rt, alloc, b"a", 17, 18)),
    };
    Box::new(alloc, clause).expect(rt, "memory")
}

// `spec f { ensures a; }`
fn function_block(rt: &impl Abort, alloc: Global) -> Box<Spec> {
    let spec = Spec::Named {
        span: at(0, 4),
        name: identifier(rt, alloc, b"f", 5, 6),
        clauses: one_clause(rt, alloc, inner_ensures(rt, alloc)),
    };
    Box::new(alloc, spec).expect(rt, "memory")
}

fn inner_invariant(rt: &impl Abort, alloc: Global) -> Box<Clause> {
    let clause = Clause::Invariant {
        span: at(14, 23),
        is_update: false,
        condition: Box::into_inner(variable(rt, alloc, b"a", 24, 25)),
    };
    Box::new(alloc, clause).expect(rt, "memory")
}

// `spec module { invariant a; }`
fn module_block(rt: &impl Abort, alloc: Global) -> Box<Spec> {
    let spec = Spec::Module {
        span: at(0, 4),
        clauses: one_clause(rt, alloc, inner_invariant(rt, alloc)),
    };
    Box::new(alloc, spec).expect(rt, "memory")
}

// `spec { invariant a; }`
fn loop_block(rt: &impl Abort, alloc: Global) -> Box<Spec> {
    let clause = Clause::Invariant {
        span: at(7, 16),
        is_update: false,
        condition: Box::into_inner(variable(rt, alloc, b"a", 17, 18)),
    };
    let spec = Spec::Loop {
        span: at(0, 4),
        clauses: one_clause(rt, alloc, Box::new(alloc, clause).expect(rt, "memory")),
    };
    Box::new(alloc, spec).expect(rt, "memory")
}

fn inner_variable(rt: &impl Abort, alloc: Global) -> Box<Clause> {
    let variable = typed(
        identifier(rt, alloc, b"x", 19, 20),
        named_type(rt, alloc, b"u64", 22, 25),
    );
    Box::new(alloc, Clause::Variable(variable)).expect(rt, "memory")
}

// `spec schema S<T> { x: u64; }`
fn schema_block(rt: &impl Abort, alloc: Global) -> Box<Spec> {
    let spec = Spec::Schema(Schema {
        span: at(0, 4),
        name: identifier(rt, alloc, b"S", 12, 13),
        parameters: one_parameter(rt, alloc, identifier(rt, alloc, b"T", 14, 15)),
        clauses: one_clause(rt, alloc, inner_variable(rt, alloc)),
    });
    Box::new(alloc, spec).expect(rt, "memory")
}

fn inputs(rt: &impl Abort, alloc: Global) -> TypedNames {
    let mut items = Vec::new(alloc);
    items
        .push(typed(
            identifier(rt, alloc, b"x", 11, 12),
            named_type(rt, alloc, b"u64", 14, 17),
        ))
        .expect(rt, "memory");
    TypedNames {
        items,
        last_comma: false,
    }
}

// `spec fun g(x: u64): u64 { x }`
fn spec_function(rt: &impl Abort, alloc: Global) -> Box<Spec> {
    let spec = Spec::Function(SpecFunction {
        span: at(0, 4),
        name: identifier(rt, alloc, b"g", 9, 10),
        parameters: None,
        inputs: inputs(rt, alloc),
        result: Box::into_inner(named_type(rt, alloc, b"u64", 20, 23)),
        body: Box::into_inner(variable(rt, alloc, b"x", 26, 27)),
    });
    Box::new(alloc, spec).expect(rt, "memory")
}

#[test]
fn clauses_are_spelled(rt: HostRuntime) -> Result<(), Fail> {
    let alloc = rt.alloc();
    clause_spells(
        &rt,
        alloc,
        b"pragma p = true, q = 1,;",
        pragma_clause(&rt, alloc),
    );
    clause_spells(&rt, alloc, b"requires a;", requires_clause(&rt, alloc));
    clause_spells(&rt, alloc, b"ensures a;", ensures_clause(&rt, alloc));
    clause_spells(&rt, alloc, b"aborts_if a;", aborts_if_clause(&rt, alloc));
    clause_spells(&rt, alloc, b"modifies a, b;", modifies_clause(&rt, alloc));
    clause_spells(
        &rt,
        alloc,
        b"invariant update a;",
        invariant_clause(&rt, alloc),
    );
    clause_spells(&rt, alloc, b"let post x = a;", let_clause(&rt, alloc));
    clause_spells(
        &rt,
        alloc,
        b"include S<T> { x: a, y };",
        include_clause(&rt, alloc),
    );
    Ok(())
}

#[test]
fn blocks_are_spelled(rt: HostRuntime) -> Result<(), Fail> {
    let alloc = rt.alloc();
    block_spells(
        &rt,
        alloc,
        b"spec f { ensures a; }",
        function_block(&rt, alloc),
    );
    block_spells(
        &rt,
        alloc,
        b"spec module { invariant a; }",
        module_block(&rt, alloc),
    );
    block_spells(
        &rt,
        alloc,
        b"spec schema S<T> { x: u64; }",
        schema_block(&rt, alloc),
    );
    block_spells(
        &rt,
        alloc,
        b"spec fun g(x: u64): u64 { x }",
        spec_function(&rt, alloc),
    );
    block_spells(&rt, alloc, b"spec { invariant a; }", loop_block(&rt, alloc));
    Ok(())
}
