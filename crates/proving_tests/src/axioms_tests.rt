//! A formula for each axiom, and one that differs from it in one place. Formulas are spelled in Polish
//! notation, a character for each operator: the functions below say which.

use axioms::axiom::{
    Alternative, Axiom, Equation, Equivalence, Exception, Fact, Rule, StructAxiom,
};
use axioms::instance::is_axiom;
use base::memory::NoMemory;
use base::name::Name;
use base::types::{StructId, TypeList, TypeNode, TypeTerm, Width};
use fol::formula::{Formula, FormulaNode, Term, TermNode};
use fol::operators::{
    Binary, Comparison, Connective, Constant, Junction, Quantifier, Ternary, Unary,
};
use fol::shapes::{Shape, Shapes};
use std::alloc::Global;
use std::panic::Expect;
use std::test::Fail;

// What is left of a text.
#[derive(Drop)]
struct Text<'a> {
    rest: &'a [u8],
}

impl Text<'_> {
    fn take(&mut self) -> Option<u8> {
        let (first, rest) = self.rest.split_first()?;
        let first = *first;
        self.rest = rest;
        Some(first)
    }

    fn digit(&mut self) -> Option<u32> {
        match self.take()? {
            digit @ b'0'..=b'9' => Some(u32::from(digit - b'0')),
            _ => None,
        }
    }
}

fn constant(character: u8) -> Option<Constant> {
    match character {
        b'0'..=b'9' => Some(Constant::Num(i128::from(character - b'0'))),
        b'^' => Some(Constant::Num(0xffff_ffff_ffff_ffff)),
        b'@' => Some(Constant::Num(0x4000_0000_0000_0000_0000_0000_0000_0000)),
        b'M' => Some(Constant::Max),
        b'T' => Some(Constant::True),
        b'F' => Some(Constant::False),
        b'N' => Some(Constant::Nothing),
        b'B' => Some(Constant::Blank),
        b'E' => Some(Constant::Empty),
        _ => None,
    }
}

fn unary(character: u8) -> Option<Unary> {
    match character {
        b'L' => Some(Unary::Len),
        b'P' => Some(Unary::Pop),
        _ => None,
    }
}

fn binary(character: u8) -> Option<Binary> {
    match character {
        b'+' => Some(Binary::Add),
        b'-' => Some(Binary::Sub),
        b'*' => Some(Binary::Mul),
        b'/' => Some(Binary::Div),
        b'%' => Some(Binary::Mod),
        b'&' => Some(Binary::And),
        b'|' => Some(Binary::Or),
        b'X' => Some(Binary::Xor),
        b'{' => Some(Binary::Shl(Width::U8)),
        b'}' => Some(Binary::Shr(Width::U8)),
        b'S' => Some(Binary::Select),
        b'A' => Some(Binary::At),
        b'U' => Some(Binary::Push),
        _ => None,
    }
}

fn ternary(character: u8) -> Option<Ternary> {
    match character {
        b'R' => Some(Ternary::Store),
        b'Z' => Some(Ternary::Set),
        _ => None,
    }
}

// The name of the one struct that has a shape.
fn pair_name(alloc: Global) -> Result<StructId, NoMemory> {
    Ok(StructId {
        address: 1,
        module: Name::from_slice(alloc, b"m")?,
        name: Name::from_slice(alloc, b"S")?,
    })
}

// Of a type, `v` is the vector type of the next one, and `s` the struct with it as type argument.
fn read_type(alloc: Global, text: &mut Text<'_>, fuel: u32) -> Option<TypeTerm> {
    if fuel == 0 {
        return None;
    }
    let node = match text.take()? {
        b'b' => TypeNode::Bool,
        b'n' => TypeNode::Num,
        b'1' => TypeNode::Int(Width::U8),
        b'2' => TypeNode::Int(Width::U16),
        b'a' => TypeNode::Address,
        b't' => TypeNode::Param(0),
        b'v' => TypeNode::Vector(Box::new(alloc, read_type(alloc, text, fuel - 1)?).ok()?),
        b's' => {
            let argument = read_type(alloc, text, fuel - 1)?;
            let name = pair_name(alloc).ok()?;
            let mut items = Vec::new(alloc);
            items.push(argument).ok()?;
            TypeNode::Struct(name, TypeList { items })
        }
        _ => return None,
    };
    Some(TypeTerm { node })
}

// The shape of a struct with one type parameter, whose fields are a truth value and one of that type.
pub(crate) fn pair_shapes(alloc: Global) -> Result<Shapes, NoMemory> {
    let mut items = Vec::new(alloc);
    items.push(TypeTerm {
        node: TypeNode::Bool,
    })?;
    items.push(TypeTerm {
        node: TypeNode::Param(0),
    })?;
    let mut shapes = Shapes::new(alloc);
    shapes.add(Shape {
        name: pair_name(alloc)?,
        parameters: 1,
        fields: TypeList { items },
    })?;
    Ok(shapes)
}

// A small letter is a variable.
#[cycle(read)]
fn read_term(alloc: Global, text: &mut Text<'_>, fuel: u32) -> Option<Term> {
    if fuel == 0 {
        return None;
    }
    let below = fuel - 1;
    let first = text.take()?;
    let node = if let Some(constant) = constant(first) {
        TermNode::Constant(constant)
    } else if let Some(operator) = unary(first) {
        TermNode::Unary(operator, read_part(alloc, text, below)?)
    } else if let Some(operator) = binary(first) {
        let left = read_part(alloc, text, below)?;
        TermNode::Binary(operator, left, read_part(alloc, text, below)?)
    } else if let Some(operator) = ternary(first) {
        let left = read_part(alloc, text, below)?;
        let middle = read_part(alloc, text, below)?;
        TermNode::Ternary(operator, left, middle, read_part(alloc, text, below)?)
    } else {
        read_other(alloc, text, below, first)?
    };
    Some(Term { node })
}

// `K` is a struct with a number of fields, `.` a field, `:` a field replaced, `?` a choice.
#[cycle(read)]
fn read_other(alloc: Global, text: &mut Text<'_>, fuel: u32, first: u8) -> Option<TermNode> {
    match first {
        b'a'..=b'z' => Some(TermNode::Var(u32::from(first - b'a'))),
        b'K' => {
            let of = read_type(alloc, text, fuel)?;
            let count = text.digit()?;
            let mut terms = Vec::new(alloc);
            for _ in 0..count {
                terms.push(read_term(alloc, text, fuel)?).ok()?;
            }
            Some(TermNode::Pack(of, terms))
        }
        b'.' => {
            let of = read_type(alloc, text, fuel)?;
            let field = text.digit()?;
            Some(TermNode::Field(of, field, read_part(alloc, text, fuel)?))
        }
        b':' => {
            let of = read_type(alloc, text, fuel)?;
            let field = text.digit()?;
            let inner = read_part(alloc, text, fuel)?;
            Some(TermNode::SetField(of, field, inner, read_part(alloc, text, fuel)?))
        }
        b'?' => {
            let condition = read_side(alloc, text, fuel)?;
            let left = read_part(alloc, text, fuel)?;
            Some(TermNode::If(condition, left, read_part(alloc, text, fuel)?))
        }
        _ => None,
    }
}

#[cycle(read)]
fn read_part(alloc: Global, text: &mut Text<'_>, fuel: u32) -> Option<Box<Term>> {
    Box::new(alloc, read_term(alloc, text, fuel)?).ok()
}

// `I` says that a term has a type, `Y` that all, `O` that some of a number of formulas is true, `Q` that
// there is a value of the variable.
#[cycle(read)]
fn read_formula(alloc: Global, text: &mut Text<'_>, fuel: u32) -> Option<Formula> {
    if fuel == 0 {
        return None;
    }
    let below = fuel - 1;
    let node = match text.take()? {
        b'=' => read_compare(alloc, text, below, Comparison::Eq)?,
        b'<' => read_compare(alloc, text, below, Comparison::Le)?,
        b'I' => {
            let of = read_type(alloc, text, below)?;
            FormulaNode::Is(of, read_part(alloc, text, below)?)
        }
        b'H' => FormulaNode::Holds(read_part(alloc, text, below)?),
        b'!' => FormulaNode::Not(read_side(alloc, text, below)?),
        b'Y' => FormulaNode::Join(Junction::AllOf, read_list(alloc, text, below)?),
        b'O' => FormulaNode::Join(Junction::AnyOf, read_list(alloc, text, below)?),
        b'>' => read_sides(alloc, text, below, Connective::Implies)?,
        b'~' => read_sides(alloc, text, below, Connective::Iff)?,
        b'Q' => {
            let variable = u32::from(text.take()?.saturating_sub(b'a'));
            let body = read_side(alloc, text, below)?;
            FormulaNode::Quantify(Quantifier::Exists, variable, Vec::new(alloc), body)
        }
        _ => return None,
    };
    Some(Formula { node })
}

#[cycle(read)]
fn read_compare(
    alloc: Global,
    text: &mut Text<'_>,
    fuel: u32,
    comparison: Comparison,
) -> Option<FormulaNode> {
    let left = read_part(alloc, text, fuel)?;
    Some(FormulaNode::Compare(comparison, left, read_part(alloc, text, fuel)?))
}

#[cycle(read)]
fn read_sides(
    alloc: Global,
    text: &mut Text<'_>,
    fuel: u32,
    connective: Connective,
) -> Option<FormulaNode> {
    let left = read_side(alloc, text, fuel)?;
    Some(FormulaNode::Connect(connective, left, read_side(alloc, text, fuel)?))
}

#[cycle(read)]
fn read_side(alloc: Global, text: &mut Text<'_>, fuel: u32) -> Option<Box<Formula>> {
    Box::new(alloc, read_formula(alloc, text, fuel)?).ok()
}

#[cycle(read)]
fn read_list(alloc: Global, text: &mut Text<'_>, fuel: u32) -> Option<Vec<Formula>> {
    let count = text.digit()?;
    let mut formulas = Vec::new(alloc);
    for _ in 0..count {
        formulas.push(read_formula(alloc, text, fuel)?).ok()?;
    }
    Some(formulas)
}

// The formula that the text spells, whole.
pub(crate) fn read(alloc: Global, text: &str) -> Option<Formula> {
    let mut text = Text {
        rest: text.as_bytes(),
    };
    let formula = read_formula(alloc, &mut text, 20)?;
    if text.rest.is_empty() {
        Some(formula)
    } else {
        None
    }
}

// Whether the text spells an instance of the axiom.
fn is_instance(alloc: Global, shapes: &Shapes, name: Axiom, text: &str) -> Option<bool> {
    Some(is_axiom(shapes, name, &read(alloc, text)?))
}

#[test]
fn each_axiom_is_known(rt: HostRuntime) -> Result<(), Fail> {
    let alloc = rt.alloc();
    let shapes = pair_shapes(alloc).expect(&rt, "memory");
    for (name, accepted, refused) in [
        (Axiom::Equal(Equation::Itself), "=SmaSma", "=SmaSmb"),
        (Axiom::Equal(Equation::SelectStored), "=SRmavav", "=SRmavbv"),
        (Axiom::Equal(Equation::SelectBlank), "=SBaN", "=SBaB"),
        (Axiom::Equal(Equation::LenEmpty), "=LE0", "=LE1"),
        (Axiom::Equal(Equation::LenPush), "=LUvx+Lv1", "=LUvx+Lv2"),
        (Axiom::Equal(Equation::AtPushed), "=AUvxLvx", "=AUvxLwx"),
        (Axiom::Equal(Equation::LenSet), "=LZvixLv", "=LZvixLw"),
        (
            Axiom::Equal(Equation::Remainder),
            "=%tu-t*u/tu",
            "=%tu-t*u/ut",
        ),
        (Axiom::Equal(Equation::DivByZero), "=/t00", "=/t10"),
        (Axiom::Equal(Equation::MulTurned), "=*tu*ut", "=*tu*tu"),
        (Axiom::Equal(Equation::MulByOne), "=*t1+t0", "=*t1+t1"),
        (Axiom::Equal(Equation::MulByZero), "=*t00", "=*t10"),
        (
            Axiom::EqualUnless(Exception::SelectOther),
            "O2=ab=SRmavbSmb",
            "O2=aa=SRmavbSmb",
        ),
        (
            Axiom::EqualUnless(Exception::AtOtherPushed),
            "O2=iLv=AUvxiAvi",
            "O2=iLw=AUvxiAvi",
        ),
        (
            Axiom::EqualUnless(Exception::LenPopped),
            "O2<Lv0=LPv-Lv1",
            "O2<Lv1=LPv-Lv1",
        ),
        (
            Axiom::EqualUnless(Exception::AtPopped),
            "O2<-Lv1i=APviAvi",
            "O2<-Lv2i=APviAvi",
        ),
        (
            Axiom::EqualUnless(Exception::AtOtherSet),
            "O2=ij=AZvixjAvj",
            "O2=ij=AZvixjAvi",
        ),
        (
            Axiom::Cases(Alternative::AtSet),
            "O4!<0i<Lvi!Ini=AZvixix",
            "O4!<1i<Lvi!Ini=AZvixix",
        ),
        (
            Axiom::Cases(Alternative::SameItems),
            "O5!Iv1v!Iv1w=vw!=LvLwQiY3<0i!<Lvi!=AviAwi",
            "O5!Iv1v!Iv1w=vw!=LvLvQiY3<0i!<Lvi!=AviAwi",
        ),
        (
            Axiom::Cases(Alternative::SameItems),
            "O5!Ivtx!Ivty=xy!=LxLyQiY3<0i!<Lxi!=AxiAyi",
            "O5!Ivtx!Iv1y=xy!=LxLyQiY3<0i!<Lxi!=AxiAyi",
        ),
        (
            Axiom::Cases(Alternative::SameItems),
            "O5!Ivti!Ivty=iy!=LiLyQxY3<0x!<Lix!=AixAyx",
            "O5!Ivti!Ivty=iy!=LiLyQiY3<0i!<Lii!=AiiAyi",
        ),
        (
            Axiom::Cases(Alternative::Choice),
            "O2Y2Hp=?HptutY2!Hp=?Hptuu",
            "O2Y2Hp=?HptutY2!Hp=?Hptut",
        ),
        (
            Axiom::Cases(Alternative::Trichotomy),
            "O5!Int!Inu=tu<t-u1<u-t1",
            "O5!Int!Inu=tu<t-u1<u-t0",
        ),
        (
            Axiom::Implied(Rule::ItemTyped),
            ">Iv1vO4!<0i<Lvi!IniI1Avi",
            ">Iv1vO4!<0i<Lvi!IniI2Avi",
        ),
        (Axiom::Implied(Rule::LenBounded), ">Ivtv<Lv^", ">Ivtv<Lv9"),
        (
            Axiom::Implied(Rule::SetTyped),
            ">Y2Iv1vI1xIv1Zvix",
            ">Y2Iv1vI2xIv1Zvix",
        ),
        (
            Axiom::Implied(Rule::PushTyped),
            ">Y3Iv1vI1x!<^LvIv1Uvx",
            ">Y3Iv1vI1x!<9LvIv1Uvx",
        ),
        (Axiom::Implied(Rule::PopTyped), ">IvtvIvtPv", ">IvtvIvtPw"),
        (
            Axiom::Implied(Rule::BitsTyped),
            ">Y2I1xI1yI1Xxy",
            ">Y2I1xI1yI1+xy",
        ),
        (Axiom::Implied(Rule::ShrTyped), ">I1xI1}xi", ">I2xI1}xi"),
        (
            Axiom::Exactly(Equivalence::Range),
            "~IatY3Int<0t<tM",
            "~I1tY3Int<0t<tM",
        ),
        (
            Axiom::Exactly(Equivalence::BoolTyped),
            "~IbtO2=tT=tF",
            "~IbtO2=tT=tT",
        ),
        (Axiom::Plain(Fact::LenFromZero), "<0Lv", "<1Lv"),
        (
            Axiom::Plain(Fact::QuotientBounds),
            "Y2<*3/t3t<t-+*3/t331",
            "Y2<*3/t3t<t-+*3/t332",
        ),
        (
            Axiom::Plain(Fact::QuotientBounds),
            "Y2<*M/tMt<t-+*M/tMM1",
            "Y2<*0/t0t<t-+*0/t001",
        ),
        (Axiom::Plain(Fact::MaxBound), "<@M", "<^M"),
        (Axiom::Plain(Fact::Whole), "In+xy", "InUxy"),
        (Axiom::Plain(Fact::EmptyTyped), "IvtE", "IstE"),
        (Axiom::Plain(Fact::ShlTyped), "I1{xi", "I2{xi"),
        (Axiom::Plain(Fact::NothingUntyped), "!IvtN", "!IvtB"),
        (Axiom::Plain(Fact::TruthsDiffer), "!=TF", "!=TT"),
        (Axiom::Plain(Fact::TrueHolds), "HT", "HF"),
        (Axiom::Plain(Fact::FalseFails), "!HF", "!HT"),
        (Axiom::Plain(Fact::NothingFails), "!HN", "!HB"),
        (
            Axiom::OfStruct(StructAxiom::FieldOfPack),
            "=.s11Ks12xyy",
            "=.s11Ks12xyx",
        ),
        (
            Axiom::OfStruct(StructAxiom::FieldOfPack),
            "=.s10Ks12xyx",
            "=.s10Ks11xx",
        ),
        (
            Axiom::OfStruct(StructAxiom::FieldSet),
            "O2!Is1x=.s11:s11xvv",
            "O2!Is1x=.s12:s12xvv",
        ),
        (
            Axiom::OfStruct(StructAxiom::FieldOfOther),
            "=.s10:s11xv.s10x",
            "=.s11:s11xv.s11x",
        ),
        (
            Axiom::OfStruct(StructAxiom::PackOfFields),
            "O2!Is1x=xKs12.s10x.s11x",
            "O2!Is1x=xKs12.s11x.s10x",
        ),
        (
            Axiom::OfStruct(StructAxiom::PackTyped),
            "~Is1Ks12xyY2IbxI1y",
            "~Is1Ks12xyY2IbxI2y",
        ),
        (
            Axiom::OfStruct(StructAxiom::FieldTyped),
            ">IsvtxIvt.svt1x",
            ">IsvtxIv1.svt1x",
        ),
    ] {
        assert_eq!(rt;
            is_instance(alloc, &shapes, name, accepted),
            Some(true),
            "{accepted}"
        );
        assert_eq!(rt;
            is_instance(alloc, &shapes, name, refused),
            Some(false),
            "{refused}"
        );
    }
    Ok(())
}
