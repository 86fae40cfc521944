//! Macros for the nodes of templates. A part is given by its index.

macro_rules! no_formulas {
    () => {
        term_pool::node::Node::Leaf(term_pool::node::Leaf::NilFormulas)
    };
}

pub(crate) use no_formulas;

macro_rules! field {
    ($k:expr, $of:expr, $t:expr) => {
        term_pool::node::Node::Two(term_pool::node::Two::Field($k), $of, $t)
    };
}

pub(crate) use field;

macro_rules! equal {
    ($t:expr, $u:expr) => {
        term_pool::node::Node::Two(term_pool::node::Two::Compare(fol::operators::Comparison::Eq), $t, $u)
    };
}

pub(crate) use equal;

macro_rules! typed {
    ($of:expr, $t:expr) => {
        term_pool::node::Node::Two(term_pool::node::Two::Is, $of, $t)
    };
}

pub(crate) use typed;

macro_rules! not {
    ($p:expr) => {
        term_pool::node::Node::One(term_pool::node::One::Not, $p)
    };
}

pub(crate) use not;

macro_rules! more {
    ($p:expr, $ps:expr) => {
        term_pool::node::Node::Two(term_pool::node::Two::ConsFormula, $p, $ps)
    };
}

pub(crate) use more;

macro_rules! any_of {
    ($ps:expr) => {
        term_pool::node::Node::One(term_pool::node::One::Join(fol::operators::Junction::AnyOf), $ps)
    };
}

pub(crate) use any_of;
