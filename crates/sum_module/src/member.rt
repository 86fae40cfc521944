//! Members of the supported form.

ghost use Rattle.std.specs.Prelude.{◌≡◌, List, None, Some, MatchResult};
ghost use Rattle.sum_module.specs.Members.{IsFunction, IsMember, IsSpec, IsUnbuilt, functions_of, spec_of};
ghost use Rattle.sum_module.specs.Built.{IsNoFunction, IsNoSpec};
ghost use Rattle.sum_module.specs.Parameters.{IsTableOf};
ghost use Rattle.base.specs.Names.{IsSetOf};
ghost use Rattle.sum_read.specs.FormFault.{IfNotBuilt};
ghost use Rattle.syntax_tree.specs.SourceData.{SourceMemberData};

use crate::parameters::Parameters;
use crate::scope::{is_closed, knows_clauses};
use crate::seen::Seen;
use base::name::Name;
use std::alloc::Global;
use std::marker::Model;
use sum_read::clause::read_clauses;
use sum_read::fault::FormFault;
use sum_read::function::read_function;
use sum_tree::clause::SumClause;
use sum_tree::function::SumFunction;
use syntax_tree::clause::Spec as SpecTree;
use syntax_tree::member::Function as FunctionTree;
use syntax_tree::source::SourceForm;

/// Clauses over sums of a function, by its name.
#[derive(Drop)]
pub struct SumSpec {
    pub target: Name,
    pub clauses: Vec<SumClause>,
}

impl Model for SumSpec {
    ghost use Rattle.std.specs.Coded.{codes};
    ghost use Rattle.sum_tree.specs.SumData.{coded_sum};
    ghost use Rattle.sum_module.specs.SumSpecData.{SumSpecData};

    ghost Value = { SumSpecData };

    ghost coded = { Prim.hlevel (codes, coded_sum) };

    ghost view = { λ s. record { target = s.target; clauses = s.clauses.items } };
}

/// A member of the supported form.
#[derive(Drop)]
pub enum SumMember {
    Function(SumFunction),
    Spec(SumSpec),
}

/// Reads a function as a function over sums, after functions with the names that were seen.
fn read_function_member(
    alloc: Global,
    seen: &Seen,
    function: &FunctionTree,
) -> Result<SumMember, FormFault>
    ensures { (before : List SourceMemberData) → IsSetOf seen.now (functions_of before) → MatchResult result (IsFunction before function.now) (λ fault. IfNotBuilt fault (IsNoFunction before function.now)) }
{
    if seen.contains(&function.name.text) {
        return Err(FormFault::NotBuilt);
    }
    let read = read_function(alloc, function)?;
    if is_closed(&read) {
        Ok(SumMember::Function(read))
    } else {
        Err(FormFault::NotBuilt)
    }
}

/// Reads the clauses over sums of a spec block, and the name of its function.
fn read_spec(alloc: Global, tree: &SpecTree) -> Result<SumSpec, FormFault>
    ensures { MatchResult result (λ spec. spec_of tree.now ≡ Some spec) (λ fault. IfNotBuilt fault (spec_of tree.now ≡ None)) }
{
    match tree {
        SpecTree::Named { name, clauses, .. } => {
            let clauses = read_clauses(alloc, clauses.items.as_slice())?;
            Ok(SumSpec {
                target: name.text.try_clone(alloc)?,
                clauses,
            })
        }
        SpecTree::Module { .. } => Err(FormFault::NotBuilt),
        SpecTree::Schema(_) => Err(FormFault::NotBuilt),
        SpecTree::Function(_) => Err(FormFault::NotBuilt),
        SpecTree::Loop { .. } => Err(FormFault::NotBuilt),
    }
}

/// Reads the clauses over sums of a spec block of a function, in a module whose functions have these parameters.
fn read_spec_member(
    alloc: Global,
    parameters: &Parameters,
    tree: &SpecTree,
) -> Result<SumMember, FormFault>
    ensures { (members : List SourceMemberData) → IsTableOf parameters.now.table members → MatchResult result (IsSpec members tree.now) (λ fault. IfNotBuilt fault (IsNoSpec members tree.now)) }
{
    let spec = read_spec(alloc, tree)?;
    let Some(names) = parameters.get(&spec.target) else {
        return Err(FormFault::NotBuilt);
    };
    if knows_clauses(names, spec.clauses.as_slice()) {
        Ok(SumMember::Spec(spec))
    } else {
        Err(FormFault::NotBuilt)
    }
}

/// Reads a member, in a module whose functions have these parameters, after functions with the names that were seen.
///
/// # Errors
///
/// `NotBuilt` if and only if it is not of the supported form.
pub fn read_member(
    alloc: Global,
    parameters: &Parameters,
    seen: &Seen,
    form: &SourceForm,
) -> Result<SumMember, FormFault>
    ensures { (members before : List SourceMemberData) → IsTableOf parameters.now.table members → IsSetOf seen.now (functions_of before) → MatchResult result (IsMember members before form.now) (λ fault. IfNotBuilt fault (IsUnbuilt members before form.now)) }
{
    match form {
        SourceForm::Function(function) => read_function_member(alloc, seen, function),
        SourceForm::Spec(tree) => read_spec_member(alloc, parameters, tree),
        SourceForm::Use(_) => Err(FormFault::NotBuilt),
        SourceForm::Friend(_) => Err(FormFault::NotBuilt),
        SourceForm::Struct(_) => Err(FormFault::NotBuilt),
        SourceForm::Constant(_) => Err(FormFault::NotBuilt),
    }
}
