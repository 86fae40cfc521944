//! Functions that return sums, with their clauses, and modules of them.

use crate::clause::SumClause;
use crate::sum::Sum;
use base::name::Name;
use std::marker::Model;

/// A function of u64 parameters that returns a sum.
#[derive(Drop)]
pub struct SumFunction {
    pub name: Name,
    pub parameters: Vec<Name>,
    pub body: Sum,
    /// The index of its first byte, counted from 0 in its file.
    pub start: u32,
}

impl Model for SumFunction {
    ghost use Rattle.std.specs.Coded.{codes};
    ghost use Rattle.sum_tree.specs.SumData.{coded_sum};
    ghost use Rattle.sum_tree.specs.SumFunctionData.{SumFunctionData};

    ghost Value = { SumFunctionData };

    ghost coded = { Prim.hlevel (codes, coded_sum) };

    ghost view = { λ f. record { name = f.name; parameters = f.parameters.items; body = f.body; start = f.start } };
}

/// A function, and the clauses of its spec blocks in order.
#[derive(Drop)]
pub struct SpecifiedFunction {
    pub function: SumFunction,
    pub clauses: Vec<SumClause>,
}

impl Model for SpecifiedFunction {
    ghost use Rattle.std.specs.Coded.{codes};
    ghost use Rattle.sum_tree.specs.SumData.{coded_sum};
    ghost use Rattle.sum_tree.specs.SpecifiedData.{SpecifiedFunctionData};

    ghost Value = { SpecifiedFunctionData };

    ghost coded = { Prim.hlevel (codes, coded_sum) };

    ghost view = { λ f. record { function = f.function; clauses = f.clauses.items } };
}

/// A module, by the number of its file, its address and its name.
#[derive(Drop)]
pub struct SumModule {
    pub file: u32,
    pub address: u128,
    pub name: Name,
    pub functions: Vec<SpecifiedFunction>,
}

impl Model for SumModule {
    ghost use Rattle.std.specs.Coded.{codes};
    ghost use Rattle.sum_tree.specs.SumData.{coded_sum};
    ghost use Rattle.sum_tree.specs.SumModuleData.{SumModuleData};

    ghost Value = { SumModuleData };

    ghost coded = { Prim.hlevel (codes, coded_sum) };

    ghost view = { λ m. record { file = m.file; address = m.address; name = m.name; functions = m.functions.items } };
}
