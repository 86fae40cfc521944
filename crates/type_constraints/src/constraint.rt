//! Typing constraints, of code and of specifications.

ghost use Rattle.std.specs.Prelude.{◌≡◌, ◌++◌, OnOk};
ghost use Rattle.typing_rules.specs.CodeConstraints.{barred_unless, has};
ghost use Rattle.type_constraints.specs.Seen.{plain_type, seen, seen_all};

use base::memory::NoMemory;
use base::name::Name;
use base::types::{StructId, TypeTerm, Width};
use typing_rules::sort::{Sort, Wrap};

/// A type of the language itself.
#[derive(Clone, Copy, Debug, PartialEq, Eq)]
pub enum PlainType {
    Bool,
    Int(Width),
    Num,
    Address,
    /// The empty tuple.
    Nothing,
}

/// A type in the signature of a function of the language itself, over its one type parameter, the item.
#[derive(Clone, Copy, Debug, PartialEq, Eq)]
pub enum BuiltinType {
    Plain(PlainType),
    Signer,
    SharedSigner,
    Item,
    SharedItem,
    MutableItem,
    Vector,
    SharedVector,
    MutableVector,
}

/// A known type, or a written one that is read as specifications read it: each integer type as `num`, and a reference
/// as the type that it points at.
#[derive(Clone, Copy)]
pub enum ReadType<'a> {
    /// A known type, as it is.
    Known(&'a TypeTerm),
    /// A written type.
    Read(&'a TypeTerm),
    /// A written type, with these types substituted for its type parameters.
    ReadIn(&'a TypeTerm, &'a [TypeTerm]),
}

/// A type as a typing rule names it.
#[derive(Clone, Copy)]
pub enum TypeForm<'a> {
    Plain(PlainType),
    /// A type that is written in the code itself.
    Written(&'a TypeTerm),
    /// A type in a specification.
    Read(ReadType<'a>),
    /// A type of a declaration, whose type parameters are the type variables from this one on, so many.
    Declared(&'a TypeTerm, usize, usize),
    /// The same, as specifications read it.
    DeclaredRead(&'a TypeTerm, usize, usize),
    /// The same for a function of the language itself.
    Builtin(BuiltinType, usize, usize),
    /// A struct, whose type arguments are the type variables from this one on, so many.
    Applied(&'a StructId, usize, usize),
}

/// A typing constraint.
#[derive(Clone, Copy)]
pub enum Constraint<'a> {
    /// Two type variables have one type.
    Same(usize, usize),
    Has(usize, TypeForm<'a>),
    /// The first type variable has the type that this constructor makes of the second's.
    MadeOf(usize, Wrap, usize),
    /// The type variable has the tuple of the types of these.
    TupleOf(usize, &'a [usize]),
    IsOf(Sort, usize),
    /// Values of the types of two variables are compared.
    Alike(usize, usize),
    /// A value of the variable's type is used where this type is required.
    Takes(usize, TypeForm<'a>),
    /// A value of the variable's type is returned where the result has this type.
    Returns(usize, TypeForm<'a>),
    /// The first type variable is the type of the field of this name of the second.
    FieldOf(usize, usize, &'a Name),
    /// The first type variable is the type that the second points at.
    TargetOf(usize, usize),
    /// A value is written, or borrowed mutably, through the variable's type, if that is a reference.
    Through(usize),
    /// A value is written to what the variable's type points at.
    Behind(usize),
    /// No typing exists.
    Barred,
}

/// Appends constraints. After `NoMemory` some of them may be there.
pub fn add<'a>(
    constraints: &mut Vec<Constraint<'a>>,
    more: &[Constraint<'a>],
) -> Result<(), NoMemory>
    ensures { OnOk result (seen_all constraints.new.items ≡ seen_all constraints.old.items ++ seen_all more.now) }
{
    for constraint in more {
        constraints.push(*constraint)?;
    }
    Ok(())
}

/// Adds no constraint if `fine` is true, and otherwise one that no typing meets.
pub fn add_unless<'a>(constraints: &mut Vec<Constraint<'a>>, fine: bool) -> Result<(), NoMemory>
    ensures { OnOk result (seen_all constraints.new.items ≡ seen_all constraints.old.items ++ barred_unless fine) }
{
    if fine {
        Ok(())
    } else {
        add(constraints, &[Constraint::Barred])
    }
}

/// A type variable has a type of the language itself.
pub fn has<'a>(variable: usize, plain: PlainType) -> Constraint<'a>
    ensures { seen result ≡ has variable (plain_type plain) }
{
    Constraint::Has(variable, TypeForm::Plain(plain))
}
