//! The constraints of nodes with one part or two.

ghost use Rattle.std.specs.Prelude.{◌≡◌, ◌++◌, ◌∷◌, ◌<◌, [], length, OnOk, slice_get, if◌then◌else◌};
ghost use Rattle.std.specs.Option.{option_copied};
ghost use Rattle.program.specs.declared.arena.Node.TheVariants.{Unary};
ghost use Rattle.typing_rules.specs.CodeConstraints.{annotated, has_written, assigned_constraints, binary_constraints, borrowed_constraints, has, let_constraints, operator_constraints, returned_constraints, unary_constraints};
ghost use Rattle.typing_rules.specs.Settings.{unit_type};
ghost use Rattle.typing_rules.specs.Constraint as D;
ghost use Rattle.typing_rules.specs.declared.sort.Sort.TheVariants.{Value};
ghost use Rattle.typing_rules.specs.declared.sort.Wrap.TheVariants.{Mutable};
ghost use Rattle.type_constraints.specs.Seen.{seen_all};
ghost use Rattle.type_constraints.specs.CodeSettings.{is_broken, setting_of};

use crate::code::setting::CodeSetting;
use crate::code::way::{add_assigned, add_borrowed};
use crate::code::written::is_proper;
use crate::constraint::{Constraint, PlainType, TypeForm, add, has};
use base::memory::NoMemory;
use base::types::{TypeTerm, Width};
use program::boxed::Boxed;
use program::code::{CodeBinary, CodeUnary};
use program::operator::BinaryOperator;
use typing_rules::sort::{Sort, Wrap};

fn add_returned<'a>(
    constraints: &mut Vec<Constraint<'a>>,
    result_type: Option<&'a TypeTerm>,
    part: usize,
) -> Result<(), NoMemory>
    ensures { OnOk result (seen_all constraints.new.items ≡ seen_all constraints.old.items ++ returned_constraints (option_copied result_type.entry) part) }
{
    match result_type {
        Some(of) => add(
            constraints,
            &[Constraint::Returns(part, TypeForm::Written(of))],
        ),
        None => add(constraints, &[Constraint::Barred]),
    }
}

fn add_loop<'a>(
    constraints: &mut Vec<Constraint<'a>>,
    breaks: bool,
    variable: usize,
    body: usize,
) -> Result<(), NoMemory>
    ensures { OnOk result (seen_all constraints.new.items ≡ seen_all constraints.old.items ++ has body unit_type ∷ (if breaks then has variable unit_type ∷ [] else [])) }
{
    if breaks {
        add(
            constraints,
            &[
                has(body, PlainType::Nothing),
                has(variable, PlainType::Nothing),
            ],
        )
    } else {
        add(constraints, &[has(body, PlainType::Nothing)])
    }
}

/// Adds the constraint that a pattern has this type, which is written.
fn add_written<'a>(
    constraints: &mut Vec<Constraint<'a>>,
    setting: CodeSetting<'a>,
    pattern: usize,
    of: &'a TypeTerm,
) -> Result<(), NoMemory>
    ensures { OnOk result (seen_all constraints.new.items ≡ seen_all constraints.old.items ++ has_written setting.entry.program.now.structs pattern of.now) }
{
    if is_proper(&setting.program.structs, of) {
        add(
            constraints,
            &[Constraint::Has(pattern, TypeForm::Written(of))],
        )
    } else {
        add(constraints, &[Constraint::Barred])
    }
}

/// Adds the constraints of a pattern with a written type.
fn add_declared<'a>(
    constraints: &mut Vec<Constraint<'a>>,
    setting: CodeSetting<'a>,
    variable: usize,
    annotation: &'a Option<Boxed<TypeTerm>>,
    pattern: usize,
) -> Result<(), NoMemory>
    ensures { OnOk result (seen_all constraints.new.items ≡ seen_all constraints.old.items ++ has variable unit_type ∷ annotated (setting_of setting.entry) pattern annotation.now) }
{
    add(constraints, &[has(variable, PlainType::Nothing)])?;
    match annotation {
        None => Ok(()),
        Some(written) => add_written(constraints, setting, pattern, written.get()),
    }
}

/// Adds the constraints of `&mut` with this operand.
fn add_mutable<'a>(
    constraints: &mut Vec<Constraint<'a>>,
    setting: CodeSetting<'a>,
    variable: usize,
    part: usize,
) -> Result<(), NoMemory>
    requires { part < length setting.body.now.nodes }
    ensures { OnOk result (seen_all constraints.new.items ≡ seen_all constraints.old.items ++ D.IsOf Value part ∷ D.MadeOf variable Mutable part ∷ borrowed_constraints setting.entry.body.now.nodes (slice_get setting.entry.body.now.nodes part)) }
{
    let made = Constraint::MadeOf(variable, Wrap::Mutable, part);
    add(constraints, &[Constraint::IsOf(Sort::Value, part), made])?;
    add_borrowed(constraints, setting.body, part)
}

/// Adds the constraints of a node with one part. A `break` belongs to it if `breaks` is true.
pub fn add_unary<'a>(
    constraints: &mut Vec<Constraint<'a>>,
    setting: CodeSetting<'a>,
    variable: usize,
    breaks: bool,
    form: &'a CodeUnary,
    part: usize,
) -> Result<(), NoMemory>
    requires within { part < length setting.body.now.nodes }
    requires breaks { breaks ≡ is_broken (setting_of setting) (Unary form.now part) }
    ensures { OnOk result (seen_all constraints.new.items ≡ seen_all constraints.old.items ++ unary_constraints (setting_of setting.entry) variable form.now part) }
{
    match form {
        CodeUnary::Not => {
            add(
                constraints,
                &[has(part, PlainType::Bool), has(variable, PlainType::Bool)],
            )
        }
        CodeUnary::Dereference => add(constraints, &[Constraint::TargetOf(variable, part)]),
        CodeUnary::Borrow => {
            let made = Constraint::MadeOf(variable, Wrap::Shared, part);
            add(constraints, &[Constraint::IsOf(Sort::Value, part), made])
        }
        CodeUnary::BorrowMutable => add_mutable(constraints, setting, variable, part),
        CodeUnary::Field(name) => add(constraints, &[Constraint::FieldOf(variable, part, name)]),
        CodeUnary::Cast(target) => {
            let from = Constraint::IsOf(Sort::Integer, part);
            let to = Constraint::IsOf(Sort::Integer, variable);
            add(
                constraints,
                &[
                    from,
                    to,
                    Constraint::Has(variable, TypeForm::Written(target.get())),
                ],
            )
        }
        CodeUnary::Return => add_returned(constraints, setting.result, part),
        CodeUnary::Abort => add(constraints, &[has(part, PlainType::Int(Width::U64))]),
        CodeUnary::Loop => add_loop(constraints, breaks, variable, part),
        CodeUnary::Discard => add(constraints, &[has(variable, PlainType::Nothing)]),
        CodeUnary::Declare(annotation) => add_declared(
            constraints,
            setting,
            variable,
            annotation,
            part,
        ),
    }
}

fn add_operator<'a>(
    constraints: &mut Vec<Constraint<'a>>,
    variable: usize,
    operator: BinaryOperator,
    left: usize,
    right: usize,
) -> Result<(), NoMemory>
    ensures { OnOk result (seen_all constraints.new.items ≡ seen_all constraints.old.items ++ operator_constraints variable operator left right) }
{
    match operator {
        BinaryOperator::Arithmetic(_) | BinaryOperator::Bitwise(_) => {
            let number = Constraint::IsOf(Sort::Integer, variable);
            add(
                constraints,
                &[
                    number,
                    Constraint::Same(left, variable),
                    Constraint::Same(right, variable),
                ],
            )
        }
        BinaryOperator::Shift(_) => {
            let number = Constraint::IsOf(Sort::Integer, variable);
            let by = has(right, PlainType::Int(Width::U8));
            add(constraints, &[number, Constraint::Same(left, variable), by])
        }
        BinaryOperator::Comparison(_) => {
            let number = Constraint::IsOf(Sort::Integer, left);
            add(
                constraints,
                &[
                    number,
                    Constraint::Same(left, right),
                    has(variable, PlainType::Bool),
                ],
            )
        }
        BinaryOperator::Equal | BinaryOperator::NotEqual => {
            let first = Constraint::IsOf(Sort::Single, left);
            let second = Constraint::IsOf(Sort::Single, right);
            let alike = Constraint::Alike(left, right);
            add(
                constraints,
                &[first, second, alike, has(variable, PlainType::Bool)],
            )
        }
        BinaryOperator::And | BinaryOperator::Or => {
            let first = has(left, PlainType::Bool);
            let second = has(right, PlainType::Bool);
            add(
                constraints,
                &[first, second, has(variable, PlainType::Bool)],
            )
        }
    }
}

/// Adds the constraints of an assignment.
fn add_assignment<'a>(
    constraints: &mut Vec<Constraint<'a>>,
    setting: CodeSetting<'a>,
    variable: usize,
    left: usize,
    right: usize,
) -> Result<(), NoMemory>
    requires { left < length setting.body.now.nodes }
    ensures { OnOk result (seen_all constraints.new.items ≡ seen_all constraints.old.items ++ has variable unit_type ∷ D.Same left right ∷ assigned_constraints setting.entry.body.now.nodes (slice_get setting.entry.body.now.nodes left)) }
{
    add(
        constraints,
        &[
            has(variable, PlainType::Nothing),
            Constraint::Same(left, right),
        ],
    )?;
    add_assigned(constraints, setting.body, left)
}

/// Adds the constraints of a `let` with a value.
fn add_let<'a>(
    constraints: &mut Vec<Constraint<'a>>,
    setting: CodeSetting<'a>,
    variable: usize,
    annotation: &'a Option<Boxed<TypeTerm>>,
    pattern: usize,
    value: usize,
) -> Result<(), NoMemory>
    ensures { OnOk result (seen_all constraints.new.items ≡ seen_all constraints.old.items ++ has variable unit_type ∷ let_constraints (setting_of setting.entry) annotation.now pattern value) }
{
    add(constraints, &[has(variable, PlainType::Nothing)])?;
    match annotation {
        None => add(constraints, &[Constraint::Same(pattern, value)]),
        Some(written) => {
            let of = written.get();
            add_written(constraints, setting, pattern, of)?;
            add(
                constraints,
                &[Constraint::Takes(value, TypeForm::Written(of))],
            )
        }
    }
}

/// Adds the constraints of a node with two parts.
pub fn add_binary<'a>(
    constraints: &mut Vec<Constraint<'a>>,
    setting: CodeSetting<'a>,
    variable: usize,
    form: &'a CodeBinary,
    left: usize,
    right: usize,
) -> Result<(), NoMemory>
    requires { left < length setting.body.now.nodes }
    ensures { OnOk result (seen_all constraints.new.items ≡ seen_all constraints.old.items ++ binary_constraints (setting_of setting.entry) variable form.now left right) }
{
    match form {
        CodeBinary::Operator(operator) => add_operator(
            constraints,
            variable,
            *operator,
            left,
            right,
        ),
        CodeBinary::Assign => add_assignment(constraints, setting, variable, left, right),
        CodeBinary::If | CodeBinary::While => {
            let condition = has(left, PlainType::Bool);
            let body = has(right, PlainType::Nothing);
            add(
                constraints,
                &[condition, body, has(variable, PlainType::Nothing)],
            )
        }
        CodeBinary::Assert => {
            let condition = has(left, PlainType::Bool);
            let code = has(right, PlainType::Int(Width::U64));
            add(
                constraints,
                &[condition, code, has(variable, PlainType::Nothing)],
            )
        }
        CodeBinary::Let(annotation) => add_let(
            constraints,
            setting,
            variable,
            annotation,
            left,
            right,
        ),
    }
}
