//! Formulas as words in postfix order: each word takes what it is made of from what the words before it left.
//!
//! Terms: `x:3` a variable, `n:-5` a whole number, `true`, `false`, `empty`, `blank`; `+`, `-`, `*`, `/`, `%`, `select`,
//! `at`, `push`; `len`, `pop`; `store`, `set`; `if` with a formula and two terms; of the struct with three fields `pack:3`,
//! `field:3:1` and `put:3:1`. Formulas: `=`, `<=`, `is:num`, `holds`, `not`, `and:2`, `or:2`, `implies`, `iff`, and `all:9:1`
//! and `some:9:0`, which bind variable 9 with one trigger of so many terms, or none.

use crate::structs::{struct_name, whole as num};
use base::memory::NoMemory;
use base::types::{TypeList, TypeNode, TypeTerm, Width};
use fol::formula::{Formula, FormulaNode, Term, TermNode, Trigger};
use fol::operators::{Binary, Connective, Constant, Quantifier, Ternary, Unary};
use std::alloc::{AllocError, AllocFailed, Global};

/// Why no formula was read.
#[derive(Clone, Copy, Debug, PartialEq, Eq)]
pub(crate) enum Fault {
    NoMemory,
    /// A word is not known, or what it takes is not there.
    Word,
}

impl From<NoMemory> for Fault {
    fn from(_error: NoMemory) -> Fault {
        Fault::NoMemory
    }
}

impl From<AllocError> for Fault {
    fn from(_error: AllocError) -> Fault {
        Fault::NoMemory
    }
}

impl<T: Drop> From<AllocFailed<T>> for Fault {
    fn from(_error: AllocFailed<T>) -> Fault {
        Fault::NoMemory
    }
}

// What the words left so far.
#[derive(Drop)]
struct Stacks {
    terms: Vec<Term>,
    formulas: Vec<Formula>,
}

// A word with its numbers or names.
#[derive(Clone, Copy)]
struct Word<'a> {
    head: &'a str,
    first: &'a str,
    second: &'a str,
}

fn word_of(text: &str) -> Word<'_> {
    let mut parts = text.split(':');
    Word {
        head: parts.next().unwrap_or(""),
        first: parts.next().unwrap_or("0"),
        second: parts.next().unwrap_or("0"),
    }
}

/// The formula that these words say.
pub(crate) fn formula_of(alloc: Global, text: &str) -> Result<Box<Formula>, Fault> {
    let mut stacks = Stacks {
        terms: Vec::new(alloc),
        formulas: Vec::new(alloc),
    };
    for word in text.split(' ') {
        take(alloc, &mut stacks, word_of(word))?;
    }
    boxed(alloc, &mut stacks)
}

// ---- what is left

fn put(stacks: &mut Stacks, node: TermNode) -> Result<(), Fault> {
    stacks.terms.push(Term { node })?;
    Ok(())
}

fn say(stacks: &mut Stacks, node: FormulaNode) -> Result<(), Fault> {
    stacks.formulas.push(Formula { node })?;
    Ok(())
}

fn last_term(stacks: &mut Stacks) -> Result<Term, Fault> {
    match stacks.terms.pop() {
        Some(term) => Ok(term),
        None => Err(Fault::Word),
    }
}

fn term(alloc: Global, stacks: &mut Stacks) -> Result<Box<Term>, Fault> {
    let term = last_term(stacks)?;
    Ok(Box::new(alloc, term)?)
}

fn last_formula(stacks: &mut Stacks) -> Result<Formula, Fault> {
    match stacks.formulas.pop() {
        Some(formula) => Ok(formula),
        None => Err(Fault::Word),
    }
}

fn boxed(alloc: Global, stacks: &mut Stacks) -> Result<Box<Formula>, Fault> {
    let formula = last_formula(stacks)?;
    Ok(Box::new(alloc, formula)?)
}

// The last terms, as many as this, in their order.
fn terms(alloc: Global, stacks: &mut Stacks, count: usize) -> Result<Vec<Term>, Fault> {
    let mut terms = Vec::new(alloc);
    for _ in 0..count {
        terms.push(last_term(stacks)?)?;
    }
    terms.reverse();
    Ok(terms)
}

// The last formulas, as many as this, in their order.
fn formulas(alloc: Global, stacks: &mut Stacks, count: usize) -> Result<Vec<Formula>, Fault> {
    let mut formulas = Vec::new(alloc);
    for _ in 0..count {
        formulas.push(last_formula(stacks)?)?;
    }
    formulas.reverse();
    Ok(formulas)
}

fn variable(text: &str) -> Result<u32, Fault> {
    match text.parse::<u32>() {
        Ok(number) => Ok(number),
        Err(_) => Err(Fault::Word),
    }
}

fn whole(text: &str) -> Result<i128, Fault> {
    match text.parse::<i128>() {
        Ok(number) => Ok(number),
        Err(_) => Err(Fault::Word),
    }
}

fn arity(text: &str) -> Result<u8, Fault> {
    match text.parse::<u8>() {
        Ok(number) => Ok(number),
        Err(_) => Err(Fault::Word),
    }
}

// ---- words

fn take(alloc: Global, stacks: &mut Stacks, word: Word<'_>) -> Result<(), Fault> {
    if let Some(node) = leaf(word)? {
        return put(stacks, node);
    }
    if let Some(operator) = binary(word.head) {
        let right = term(alloc, stacks)?;
        let left = term(alloc, stacks)?;
        return put(stacks, TermNode::Binary(operator, left, right));
    }
    match word.head {
        "len" | "pop" | "store" | "set" | "if" => take_term(alloc, stacks, word),
        "pack" | "field" | "put" => take_struct(alloc, stacks, word),
        "=" | "<=" | "is" | "holds" => take_atom(alloc, stacks, word),
        _ => take_compound(alloc, stacks, word),
    }
}

fn leaf(word: Word<'_>) -> Result<Option<TermNode>, Fault> {
    let node = match word.head {
        "x" => TermNode::Var(variable(word.first)?),
        "n" => TermNode::Constant(Constant::Num(whole(word.first)?)),
        "true" => TermNode::Constant(Constant::True),
        "false" => TermNode::Constant(Constant::False),
        "empty" => TermNode::Constant(Constant::Empty),
        "blank" => TermNode::Constant(Constant::Blank),
        _ => return Ok(None),
    };
    Ok(Some(node))
}

fn binary(head: &str) -> Option<Binary> {
    match head {
        "+" => Some(Binary::Add),
        "-" => Some(Binary::Sub),
        "*" => Some(Binary::Mul),
        "/" => Some(Binary::Div),
        "%" => Some(Binary::Mod),
        "select" => Some(Binary::Select),
        "at" => Some(Binary::At),
        "push" => Some(Binary::Push),
        _ => None,
    }
}

fn take_term(alloc: Global, stacks: &mut Stacks, word: Word<'_>) -> Result<(), Fault> {
    let last = term(alloc, stacks)?;
    match word.head {
        "len" => put(stacks, TermNode::Unary(Unary::Len, last)),
        "pop" => put(stacks, TermNode::Unary(Unary::Pop, last)),
        "if" => {
            let one = term(alloc, stacks)?;
            let test = boxed(alloc, stacks)?;
            put(stacks, TermNode::If(test, one, last))
        }
        "store" => take_ternary(alloc, stacks, Ternary::Store, last),
        _ => take_ternary(alloc, stacks, Ternary::Set, last),
    }
}

fn take_ternary(
    alloc: Global,
    stacks: &mut Stacks,
    operator: Ternary,
    value: Box<Term>,
) -> Result<(), Fault> {
    let position = term(alloc, stacks)?;
    let whole = term(alloc, stacks)?;
    put(stacks, TermNode::Ternary(operator, whole, position, value))
}

fn struct_type(alloc: Global, arity: u8) -> Result<TypeTerm, NoMemory> {
    let name = struct_name(alloc, arity)?;
    let items = Vec::new(alloc);
    Ok(TypeTerm {
        node: TypeNode::Struct(name, TypeList { items }),
    })
}

fn take_struct(alloc: Global, stacks: &mut Stacks, word: Word<'_>) -> Result<(), Fault> {
    let fields = arity(word.first)?;
    let position = variable(word.second)?;
    let of = struct_type(alloc, fields)?;
    match word.head {
        "pack" => {
            let parts = terms(alloc, stacks, usize::from(fields))?;
            put(stacks, TermNode::Pack(of, parts))
        }
        "field" => {
            let whole = term(alloc, stacks)?;
            put(stacks, TermNode::Field(of, position, whole))
        }
        _ => {
            let value = term(alloc, stacks)?;
            let whole = term(alloc, stacks)?;
            put(stacks, TermNode::SetField(of, position, whole, value))
        }
    }
}

// `num`, `bool`, `u64`, `address`, `vector` of whole numbers, or a struct by the number of its fields.
fn type_of(alloc: Global, word: &str) -> Result<TypeTerm, Fault> {
    let node = match word {
        "num" => TypeNode::Num,
        "bool" => TypeNode::Bool,
        "u64" => TypeNode::Int(Width::U64),
        "address" => TypeNode::Address,
        "vector" => TypeNode::Vector(Box::new(alloc, num())?),
        _ => return Ok(struct_type(alloc, arity(word)?)?),
    };
    Ok(TypeTerm { node })
}

fn take_atom(alloc: Global, stacks: &mut Stacks, word: Word<'_>) -> Result<(), Fault> {
    let last = term(alloc, stacks)?;
    let made = match word.head {
        "=" => Formula::equal(term(alloc, stacks)?, last),
        "<=" => Formula::at_most(term(alloc, stacks)?, last),
        "is" => Formula::has_type(type_of(alloc, word.first)?, last),
        _ => Formula::holds(last),
    };
    stacks.formulas.push(made)?;
    Ok(())
}

fn take_compound(alloc: Global, stacks: &mut Stacks, word: Word<'_>) -> Result<(), Fault> {
    match word.head {
        "not" => {
            let of = boxed(alloc, stacks)?;
            say(stacks, FormulaNode::Not(of))
        }
        "and" => {
            let parts = formulas(alloc, stacks, variable(word.first)? as usize)?;
            stacks.formulas.push(Formula::all_of(parts))?;
            Ok(())
        }
        "or" => {
            let parts = formulas(alloc, stacks, variable(word.first)? as usize)?;
            stacks.formulas.push(Formula::any_of(parts))?;
            Ok(())
        }
        "implies" => take_connected(alloc, stacks, Connective::Implies),
        "iff" => take_connected(alloc, stacks, Connective::Iff),
        "all" => take_quantified(alloc, stacks, Quantifier::ForAll, word),
        "some" => take_quantified(alloc, stacks, Quantifier::Exists, word),
        _ => Err(Fault::Word),
    }
}

fn take_connected(alloc: Global, stacks: &mut Stacks, operator: Connective) -> Result<(), Fault> {
    let right = boxed(alloc, stacks)?;
    let left = boxed(alloc, stacks)?;
    say(stacks, FormulaNode::Connect(operator, left, right))
}

fn take_quantified(
    alloc: Global,
    stacks: &mut Stacks,
    operator: Quantifier,
    word: Word<'_>,
) -> Result<(), Fault> {
    let name = variable(word.first)?;
    let count = variable(word.second)?;
    let mut triggers = Vec::new(alloc);
    if count > 0 {
        let terms = terms(alloc, stacks, count as usize)?;
        triggers.push(Trigger { terms })?;
    }
    let body = boxed(alloc, stacks)?;
    say(
        stacks,
        FormulaNode::Quantify(operator, name, triggers, body),
    )
}
