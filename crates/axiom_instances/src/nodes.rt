//! Macros for the nodes of templates. A part is given by its index.

macro_rules! number {
    ($value:expr) => {
        term_pool::node::Node::Leaf(term_pool::node::Leaf::Constant(fol::operators::Constant::Num($value)))
    };
}

pub(crate) use number;

macro_rules! constant {
    ($value:expr) => {
        term_pool::node::Node::Leaf(term_pool::node::Leaf::Constant($value))
    };
}

pub(crate) use constant;

macro_rules! type_number {
    () => {
        term_pool::node::Node::Leaf(term_pool::node::Leaf::TypeNum)
    };
}

pub(crate) use type_number;

macro_rules! type_address {
    () => {
        term_pool::node::Node::Leaf(term_pool::node::Leaf::TypeAddress)
    };
}

pub(crate) use type_address;

macro_rules! type_int {
    ($width:expr) => {
        term_pool::node::Node::Leaf(term_pool::node::Leaf::TypeInt($width))
    };
}

pub(crate) use type_int;

macro_rules! no_formulas {
    () => {
        term_pool::node::Node::Leaf(term_pool::node::Leaf::NilFormulas)
    };
}

pub(crate) use no_formulas;

macro_rules! len {
    ($v:expr) => {
        term_pool::node::Node::One(term_pool::node::One::Unary(fol::operators::Unary::Len), $v)
    };
}

pub(crate) use len;

macro_rules! pop {
    ($v:expr) => {
        term_pool::node::Node::One(term_pool::node::One::Unary(fol::operators::Unary::Pop), $v)
    };
}

pub(crate) use pop;

macro_rules! binary {
    ($operator:expr, $t:expr, $u:expr) => {
        term_pool::node::Node::Two(term_pool::node::Two::Binary($operator), $t, $u)
    };
}

pub(crate) use binary;

macro_rules! field {
    ($k:expr, $of:expr, $t:expr) => {
        term_pool::node::Node::Two(term_pool::node::Two::Field($k), $of, $t)
    };
}

pub(crate) use field;

macro_rules! equal {
    ($t:expr, $u:expr) => {
        term_pool::node::Node::Two(term_pool::node::Two::Compare(fol::operators::Comparison::Eq), $t, $u)
    };
}

pub(crate) use equal;

macro_rules! at_most {
    ($t:expr, $u:expr) => {
        term_pool::node::Node::Two(term_pool::node::Two::Compare(fol::operators::Comparison::Le), $t, $u)
    };
}

pub(crate) use at_most;

macro_rules! typed {
    ($of:expr, $t:expr) => {
        term_pool::node::Node::Two(term_pool::node::Two::Is, $of, $t)
    };
}

pub(crate) use typed;

macro_rules! not {
    ($p:expr) => {
        term_pool::node::Node::One(term_pool::node::One::Not, $p)
    };
}

pub(crate) use not;

macro_rules! more {
    ($p:expr, $ps:expr) => {
        term_pool::node::Node::Two(term_pool::node::Two::ConsFormula, $p, $ps)
    };
}

pub(crate) use more;

macro_rules! all_of {
    ($ps:expr) => {
        term_pool::node::Node::One(term_pool::node::One::Join(fol::operators::Junction::AllOf), $ps)
    };
}

pub(crate) use all_of;

macro_rules! any_of {
    ($ps:expr) => {
        term_pool::node::Node::One(term_pool::node::One::Join(fol::operators::Junction::AnyOf), $ps)
    };
}

pub(crate) use any_of;

macro_rules! implies {
    ($p:expr, $q:expr) => {
        term_pool::node::Node::Two(term_pool::node::Two::Connect(fol::operators::Connective::Implies), $p, $q)
    };
}

pub(crate) use implies;

macro_rules! iff {
    ($p:expr, $q:expr) => {
        term_pool::node::Node::Two(term_pool::node::Two::Connect(fol::operators::Connective::Iff), $p, $q)
    };
}

pub(crate) use iff;

macro_rules! holds {
    ($t:expr) => {
        term_pool::node::Node::One(term_pool::node::One::Holds, $t)
    };
}

pub(crate) use holds;
