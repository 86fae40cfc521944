//! Sums of u64 values.

use base::name::Name;
use std::marker::Model;

/// The operator of two sums.
#[derive(Clone, Copy, Debug, PartialEq, Eq)]
pub enum Operator {
    Plus,
    Minus,
}

/// A sum.
#[cycle(sum)]
pub struct Sum {
    pub node: SumNode,
}

// A separate impl, so that each drop is a call and not the cases of all forms below it.
impl Drop for Sum {
    #[cycle(drop_sum)]
    fn drop(self) {
        let Sum { node } = self;
        drop(node);
    }
}

/// The forms of a sum.
#[cycle(sum)]
#[derive(Drop)]
pub enum SumNode {
    Number(u64),
    /// A parameter; in a clause also `MAX_U64`, and in an `ensures` `result`.
    Word(Name),
    Joined {
        left: Box<Sum>,
        operator: Operator,
        right: Box<Sum>,
    },
}

impl Model for Sum {
    ghost use Rattle.sum_tree.specs.SumData.{SumData, coded_sum, sum_size};

    ghost Value = { SumData };

    ghost coded = { coded_sum };

    ghost use Rattle.sum_tree.specs.SumView.{sum_of_node};

    ghost view = { λ a. sum_of_node a.node };

    ghost size = { sum_size };

    ghost use Rattle.sum_tree.specs.SumFalls.{sum_falls};

    ghost size_decreases = { λ a h. sum_falls a.node };
}
