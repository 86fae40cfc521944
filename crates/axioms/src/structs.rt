//! The axioms on struct types, whose fields are given by their shapes.

ghost use Rattle.std.specs.Prelude.{◌≡◌, ◌↔◌, ◌∷◌, [], ℕ, List, Some, slice_get, length, IsTrue};
ghost use Rattle.base.specs.TypeData.{TypeData};
ghost use Rattle.fol.specs.FormulaData.{TermData, FieldTerm, SetFieldTerm, PackTerm, FormulaData, EqFormula, IsFormula, NotFormula, ImpliesFormula, IffFormula, terms_of};
ghost use Rattle.axioms.specs.Fields.{HasField, HasFields};
ghost use Rattle.axioms.specs.Structs.{AreFieldsOf, IsFieldTyped, AreFieldsTyped, ArePartsTyped, IsStructAxiom};

use crate::axiom::StructAxiom;
use crate::fields::{has_field, has_field_type, has_fields, is_put, items, struct_shape};
use crate::forms::is_untyped;
use base::same::same_type;
use base::types::{TypeNode, TypeTerm};
use fol::formula::{Formula, FormulaNode, Term, TermNode};
use fol::operators::{Comparison, Connective, Junction};
use fol::same::same_term;
use fol::shapes::Shapes;

/// Decides whether the formula is an instance of the axiom over these shapes.
pub fn is_struct_axiom(shapes: &Shapes, name: StructAxiom, formula: &Formula) -> bool
    ensures { IsTrue result ↔ IsStructAxiom shapes.now name formula.now }
{
    match name {
        StructAxiom::FieldOfPack => is_field_of_pack(shapes, formula),
        StructAxiom::FieldSet => is_field_set(shapes, formula),
        StructAxiom::FieldOfOther => is_field_of_other(shapes, formula),
        StructAxiom::PackOfFields => is_pack_of_fields(shapes, formula),
        StructAxiom::PackTyped => is_pack_typed(shapes, formula),
        StructAxiom::FieldTyped => is_field_typed(shapes, formula),
    }
}

fn is_field_of_pack(shapes: &Shapes, formula: &Formula) -> bool
    ensures { IsTrue result ↔ IsStructAxiom shapes.now StructAxiom.FieldOfPack formula.now }
{
    match &formula.node {
        FormulaNode::Compare(Comparison::Eq, left, right) => match &left.node {
            TermNode::Field(of, field, packed) => {
                is_pack_with(shapes, packed, of, *field, right)
            }
            _ => false,
        },
        _ => false,
    }
}

// Decides whether the term is a struct of this type, packed from its fields, and this one has this number.
#[tactic(auto, using(fol::specs::FormulaData::terms_of_injective))]
fn is_pack_with(shapes: &Shapes, packed: &Term, of: &TypeTerm, field: u32, item: &Term) -> bool
    ensures { IsTrue result
        ↔ ((ts : List TermData) × HasFields shapes.now of.now (length ts) × (slice_get ts field ≡ Some item.now) × (packed.now ≡ PackTerm of.now (terms_of ts))) }
{
    match &packed.node {
        TermNode::Pack(made, terms) => {
            same_type(made, of) && are_fields_with(shapes, of, terms.as_slice(), field, item)
        }
        _ => false,
    }
}

// Decides whether there are as many terms as the struct has fields, and this one has this index.
fn are_fields_with(shapes: &Shapes, of: &TypeTerm, terms: &[Term], field: u32, item: &Term) -> bool
    ensures { IsTrue result
        ↔ (HasFields shapes.now of.now (length terms.now) × (slice_get terms.now field ≡ Some item.now)) }
{
    has_fields(shapes, of, terms.len()) && is_item(terms, field, item)
}

fn is_item(terms: &[Term], number: u32, item: &Term) -> bool
    ensures { IsTrue result ↔ (slice_get terms.now number ≡ Some item.now) }
{
    match terms.get(number as usize) {
        Some(found) => same_term(found, item),
        None => false,
    }
}

#[tactic(auto, using(fol::specs::FormulaData::formulas_of_injective))]
fn is_field_set(shapes: &Shapes, formula: &Formula) -> bool
    ensures { IsTrue result ↔ IsStructAxiom shapes.now StructAxiom.FieldSet formula.now }
{
    match &formula.node {
        FormulaNode::Join(Junction::AnyOf, cases) => are_field_set(shapes, cases.as_slice()),
        _ => false,
    }
}

fn are_field_set(shapes: &Shapes, cases: &[Formula]) -> bool
    ensures { IsTrue result
        ↔ ((s : TypeData) × (k : ℕ) × (t : TermData) × (v : TermData) × HasField shapes.now s k × (cases.now ≡ NotFormula (IsFormula s t) ∷ EqFormula (FieldTerm s k (SetFieldTerm s k t v)) v ∷ [])) }
{
    if cases.len() != 2 {
        return false;
    }
    let last = &cases[1];
    match &last.node {
        FormulaNode::Compare(Comparison::Eq, left, right) => {
            is_set_field(shapes, &cases[0], left, right)
        }
        _ => false,
    }
}

// Decides whether the terms are a field of a struct in which it was replaced, and its new value, and the formula
// states that the struct does not have its type.
fn is_set_field(shapes: &Shapes, unless: &Formula, left: &Term, right: &Term) -> bool
    ensures { IsTrue result
        ↔ ((s : TypeData) × (k : ℕ) × (t : TermData) × HasField shapes.now s k × (unless.now ≡ NotFormula (IsFormula s t)) × (left.now ≡ FieldTerm s k (SetFieldTerm s k t right.now))) }
{
    match &left.node {
        TermNode::Field(of, field, set) => match &set.node {
            TermNode::SetField(found, number, inner, value) => {
                *number == *field
                    && same_type(found, of)
                    && same_term(value, right)
                    && is_untyped(unless, of, inner)
                    && has_field(shapes, of, *field)
            }
            _ => false,
        },
        _ => false,
    }
}

fn is_field_of_other(shapes: &Shapes, formula: &Formula) -> bool
    ensures { IsTrue result ↔ IsStructAxiom shapes.now StructAxiom.FieldOfOther formula.now }
{
    match &formula.node {
        FormulaNode::Compare(Comparison::Eq, left, right) => is_other_field(shapes, left, right),
        _ => false,
    }
}

fn is_other_field(shapes: &Shapes, left: &Term, right: &Term) -> bool
    ensures { IsTrue result
        ↔ IsStructAxiom shapes.now StructAxiom.FieldOfOther (EqFormula left.now right.now) }
{
    match &left.node {
        TermNode::Field(of, field, set) => match &set.node {
            TermNode::SetField(found, number, inner, _) => {
                *number != *field
                    && same_type(found, of)
                    && is_field(right, of, *field, inner)
                    && has_field(shapes, of, *field)
                    && has_field(shapes, of, *number)
            }
            _ => false,
        },
        _ => false,
    }
}

// Decides whether the term is the field with this number of the other term, as a struct of this type.
fn is_field(term: &Term, of: &TypeTerm, number: u32, inner: &Term) -> bool
    ensures { IsTrue result ↔ (term.now ≡ FieldTerm of.now number inner.now) }
{
    match &term.node {
        TermNode::Field(found, field, part) => {
            *field == number && same_type(found, of) && same_term(part, inner)
        }
        _ => false,
    }
}

#[tactic(auto, using(fol::specs::FormulaData::formulas_of_injective))]
fn is_pack_of_fields(shapes: &Shapes, formula: &Formula) -> bool
    ensures { IsTrue result ↔ IsStructAxiom shapes.now StructAxiom.PackOfFields formula.now }
{
    match &formula.node {
        FormulaNode::Join(Junction::AnyOf, cases) => are_pack_of_fields(shapes, cases.as_slice()),
        _ => false,
    }
}

fn are_pack_of_fields(shapes: &Shapes, cases: &[Formula]) -> bool
    ensures { IsTrue result
        ↔ ((s : TypeData) × (ts : List TermData) × (t : TermData) × HasFields shapes.now s (length ts) × AreFieldsOf s t ts × (cases.now ≡ NotFormula (IsFormula s t) ∷ EqFormula t (PackTerm s (terms_of ts)) ∷ [])) }
{
    if cases.len() != 2 {
        return false;
    }
    let last = &cases[1];
    match &last.node {
        FormulaNode::Compare(Comparison::Eq, left, right) => {
            is_packed_of(shapes, &cases[0], left, right)
        }
        _ => false,
    }
}

// Decides whether the second term is a struct packed from the fields of the first, and the formula states that the
// first does not have its type.
#[tactic(auto, using(fol::specs::FormulaData::terms_of_injective))]
fn is_packed_of(shapes: &Shapes, unless: &Formula, term: &Term, packed: &Term) -> bool
    ensures { IsTrue result
        ↔ ((s : TypeData) × (ts : List TermData) × HasFields shapes.now s (length ts) × AreFieldsOf s term.now ts × (unless.now ≡ NotFormula (IsFormula s term.now)) × (packed.now ≡ PackTerm s (terms_of ts))) }
{
    match &packed.node {
        TermNode::Pack(of, terms) => {
            are_all_fields(shapes, of, terms.as_slice(), term) && is_untyped(unless, of, term)
        }
        _ => false,
    }
}

// Decides whether the terms are all fields of the other term, in order.
fn are_all_fields(shapes: &Shapes, of: &TypeTerm, terms: &[Term], inner: &Term) -> bool
    ensures { IsTrue result
        ↔ (HasFields shapes.now of.now (length terms.now) × AreFieldsOf of.now inner.now terms.now) }
{
    has_fields(shapes, of, terms.len()) && are_fields_of(terms, of, inner)
}

// Decides whether the terms are the fields of the other term, in order.
#[tactic(auto, unfolding(crate::specs::Structs::AreFieldsOf))]
fn are_fields_of(terms: &[Term], of: &TypeTerm, inner: &Term) -> bool
    ensures { IsTrue result ↔ AreFieldsOf of.now inner.now terms.now }
{
    for i in 0..terms.len() {
        if !is_field_at(&terms[i], of, i, inner) {
            return false;
        }
    }
    true
}

fn is_field_at(term: &Term, of: &TypeTerm, number: usize, inner: &Term) -> bool
    ensures { IsTrue result ↔ (term.now ≡ FieldTerm of.now number inner.now) }
{
    match &term.node {
        TermNode::Field(found, field, part) => {
            *field as usize == number && same_type(found, of) && same_term(part, inner)
        }
        _ => false,
    }
}

#[tactic(auto, using(fol::specs::FormulaData::formulas_of_injective))]
fn is_pack_typed(shapes: &Shapes, formula: &Formula) -> bool
    ensures { IsTrue result ↔ IsStructAxiom shapes.now StructAxiom.PackTyped formula.now }
{
    match &formula.node {
        FormulaNode::Connect(connective, left, right) => {
            *connective == Connective::Iff && are_pack_and_parts(shapes, left, right)
        }
        _ => false,
    }
}

// Decides whether the formulas are the two sides of an axiom on the type of a struct that is packed from its fields.
#[tactic(auto, using(fol::specs::FormulaData::formulas_of_injective))]
fn are_pack_and_parts(shapes: &Shapes, left: &Formula, right: &Formula) -> bool
    ensures { IsTrue result
        ↔ IsStructAxiom shapes.now StructAxiom.PackTyped (IffFormula left.now right.now) }
{
    match (&left.node, &right.node) {
        (FormulaNode::Is(of, packed), FormulaNode::Join(Junction::AllOf, parts)) => {
            is_pack_of(shapes, of, packed, parts.as_slice())
        }
        _ => false,
    }
}

// Decides whether the term is a struct of this type packed from its fields, and the formulas state that each field has
// its type.
#[tactic(auto, using(fol::specs::FormulaData::terms_of_injective))]
fn is_pack_of(shapes: &Shapes, of: &TypeTerm, packed: &Term, parts: &[Formula]) -> bool
    ensures { IsTrue result
        ↔ ((ts : List TermData) × ArePartsTyped shapes.now of.now ts parts.now × (packed.now ≡ PackTerm of.now (terms_of ts))) }
{
    match &packed.node {
        TermNode::Pack(made, terms) => {
            same_type(made, of) && are_parts_typed(shapes, of, terms.as_slice(), parts)
        }
        _ => false,
    }
}

// Decides whether the formulas state that the terms have the types of the fields of this struct type.
#[tactic(auto, unfolding(crate::specs::Structs::ArePartsTyped))]
fn are_parts_typed(shapes: &Shapes, of: &TypeTerm, terms: &[Term], parts: &[Formula]) -> bool
    ensures { IsTrue result ↔ ArePartsTyped shapes.now of.now terms.now parts.now }
{
    match &of.node {
        TypeNode::Struct(_, args) => match struct_shape(shapes, of) {
            Some(shape) => are_fields_typed(items(args), items(&shape.fields), terms, parts),
            None => false,
        },
        _ => false,
    }
}

#[tactic(auto, unfolding(crate::specs::Structs::AreFieldsTyped))]
fn are_fields_typed(
    args: &[TypeTerm],
    fields: &[TypeTerm],
    terms: &[Term],
    parts: &[Formula],
) -> bool
    ensures { IsTrue result ↔ AreFieldsTyped args.now fields.now terms.now parts.now }
{
    if terms.len() != fields.len() || parts.len() != fields.len() {
        return false;
    }
    for i in 0..fields.len() {
        if !is_typed_by(args, &fields[i], &terms[i], &parts[i]) {
            return false;
        }
    }
    true
}

// Decides whether the formula states that the term has the type of the field.
fn is_typed_by(args: &[TypeTerm], field: &TypeTerm, term: &Term, part: &Formula) -> bool
    ensures { IsTrue result ↔ IsFieldTyped args.now field.now term.now part.now }
{
    match &part.node {
        FormulaNode::Is(of, found) => is_put(args, field, of) && same_term(found, term),
        _ => false,
    }
}

fn is_field_typed(shapes: &Shapes, formula: &Formula) -> bool
    ensures { IsTrue result ↔ IsStructAxiom shapes.now StructAxiom.FieldTyped formula.now }
{
    match &formula.node {
        FormulaNode::Connect(connective, left, right) => {
            *connective == Connective::Implies && are_struct_and_field(shapes, left, right)
        }
        _ => false,
    }
}

fn are_struct_and_field(shapes: &Shapes, left: &Formula, right: &Formula) -> bool
    ensures { IsTrue result
        ↔ IsStructAxiom shapes.now StructAxiom.FieldTyped (ImpliesFormula left.now right.now) }
{
    match (&left.node, &right.node) {
        (FormulaNode::Is(of, term), FormulaNode::Is(to, part)) => match &part.node {
            TermNode::Field(found, field, inner) => {
                same_type(found, of)
                    && same_term(inner, term)
                    && has_field_type(shapes, of, *field, to)
            }
            _ => false,
        },
        _ => false,
    }
}
