//! Macros for the nodes of templates. A part is given by its index.

macro_rules! number {
    ($value:expr) => {
        term_pool::node::Node::Leaf(term_pool::node::Leaf::Constant(fol::operators::Constant::Num($value)))
    };
}

pub(crate) use number;

macro_rules! variable {
    ($n:expr) => {
        term_pool::node::Node::Leaf(term_pool::node::Leaf::Var($n))
    };
}

pub(crate) use variable;

macro_rules! no_formulas {
    () => {
        term_pool::node::Node::Leaf(term_pool::node::Leaf::NilFormulas)
    };
}

pub(crate) use no_formulas;

macro_rules! no_triggers {
    () => {
        term_pool::node::Node::Leaf(term_pool::node::Leaf::NilTriggers)
    };
}

pub(crate) use no_triggers;

macro_rules! len {
    ($v:expr) => {
        term_pool::node::Node::One(term_pool::node::One::Unary(fol::operators::Unary::Len), $v)
    };
}

pub(crate) use len;

macro_rules! at {
    ($v:expr, $i:expr) => {
        term_pool::node::Node::Two(term_pool::node::Two::Binary(fol::operators::Binary::At), $v, $i)
    };
}

pub(crate) use at;

macro_rules! equal {
    ($t:expr, $u:expr) => {
        term_pool::node::Node::Two(term_pool::node::Two::Compare(fol::operators::Comparison::Eq), $t, $u)
    };
}

pub(crate) use equal;

macro_rules! at_most {
    ($t:expr, $u:expr) => {
        term_pool::node::Node::Two(term_pool::node::Two::Compare(fol::operators::Comparison::Le), $t, $u)
    };
}

pub(crate) use at_most;

macro_rules! typed {
    ($of:expr, $t:expr) => {
        term_pool::node::Node::Two(term_pool::node::Two::Is, $of, $t)
    };
}

pub(crate) use typed;

macro_rules! not {
    ($p:expr) => {
        term_pool::node::Node::One(term_pool::node::One::Not, $p)
    };
}

pub(crate) use not;

macro_rules! more {
    ($p:expr, $ps:expr) => {
        term_pool::node::Node::Two(term_pool::node::Two::ConsFormula, $p, $ps)
    };
}

pub(crate) use more;

macro_rules! all_of {
    ($ps:expr) => {
        term_pool::node::Node::One(term_pool::node::One::Join(fol::operators::Junction::AllOf), $ps)
    };
}

pub(crate) use all_of;

macro_rules! any_of {
    ($ps:expr) => {
        term_pool::node::Node::One(term_pool::node::One::Join(fol::operators::Junction::AnyOf), $ps)
    };
}

pub(crate) use any_of;

macro_rules! exists {
    ($n:expr, $triggers:expr, $p:expr) => {
        term_pool::node::Node::Two(term_pool::node::Two::Quantify(fol::operators::Quantifier::Exists, $n), $triggers, $p)
    };
}

pub(crate) use exists;
