//! Readers of modules with their spec blocks as trees.

ghost use Rattle.std.specs.Prelude.{◌≡◌, ℕ, List, MatchResult};
ghost use Rattle.syntax_tree.specs.FunctionNames.{function_names};
ghost use Rattle.base.specs.Names.{IsSetOf};
ghost use Rattle.syntax_tree.specs.Members.{IsSourceForm, IsSourceMember, IsSourceModule, IsSpecOf};
ghost use Rattle.base.specs.Pairs.{Paired};
ghost use Rattle.syntax_tree.specs.Loops.{IsLoopTree, loop_specs};
ghost use Rattle.item_parser.specs.Reading.{AreOfNoModules, HasNoForm, HasNoLoopTree, HasNoMember, HasNoTree, HaveNoLoopTrees, HaveNoMembers, IsOfNoModule, slot_of_block};
ghost use Rattle.item_parser.specs.SpecFault.{IfNoSpec};

use crate::source::fault::{SpecFault, fault_of};
use crate::source::functions::{FunctionNames, function_names};
use crate::source::slots::slot_of;
use crate::spec::denoted_block::spec_block;
use std::alloc::Global;
use syntax_tree::clause::Spec;
use syntax_tree::member::{Member, MemberForm, Module};
use syntax_tree::slot::Slot;
use syntax_tree::source::loops::{LoopSpecs, loop_specs};
use syntax_tree::source::{SourceForm, SourceMember, SourceModule};
use syntax_tree::spec_tokens::KeptSpec;
use tokens::token::Token;

/// Returns the slot of a spec block, by its tokens, the first of which is its word.
pub fn slot_of_block(functions: &FunctionNames, tokens: &[Token]) -> Slot
    ensures { result ≡ slot_of_block functions.now tokens.now }
{
    match tokens.split_first() {
        Some((_, rest)) => slot_of(functions, rest),
        None => Slot::Function,
    }
}

/// Reads the tree of a spec block of a module with these functions.
fn read_spec(alloc: Global, functions: &FunctionNames, block: &KeptSpec) -> Result<Spec, SpecFault>
    ensures { (names : List (List ℕ)) → IsSetOf functions.now names → MatchResult result (IsSpecOf names block.now) (λ fault. IfNoSpec fault (HasNoTree names block.now)) }
{
    let slot = slot_of_block(functions, block.tokens.as_slice());
    match spec_block(alloc, &block.tokens, slot) {
        Ok(tree) => Ok(tree),
        Err(fault) => Err(fault_of(fault)),
    }
}

/// Reads the tree of a loop's spec block.
fn read_loop(alloc: Global, spec: &KeptSpec) -> Result<Spec, SpecFault>
    ensures { MatchResult result (IsLoopTree spec.now) (λ fault. IfNoSpec fault (HasNoLoopTree spec.now)) }
{
    match spec_block(alloc, &spec.tokens, Slot::Loop) {
        Ok(tree) => Ok(tree),
        Err(fault) => Err(fault_of(fault)),
    }
}

/// Reads the trees of the spec blocks of loops.
fn read_each_loop(alloc: Global, specs: &LoopSpecs) -> Result<Vec<Spec>, SpecFault>
    ensures { MatchResult result (λ trees. Paired IsLoopTree specs.now trees.items) (λ fault. IfNoSpec fault (HaveNoLoopTrees specs.now)) }
{
    let mut trees = Vec::new(alloc);
    for spec in specs.as_slice() {
        trees.push(read_loop(alloc, spec)?)?;
    }
    Ok(trees)
}

/// Reads the trees of the spec blocks of the loops in a member, in order.
fn read_loops(alloc: Global, form: &MemberForm) -> Result<Vec<Spec>, SpecFault>
    ensures { MatchResult result (λ trees. Paired IsLoopTree (loop_specs form.now) trees.items) (λ fault. IfNoSpec fault (HaveNoLoopTrees (loop_specs form.now))) }
{
    let specs = loop_specs(alloc, form)?;
    read_each_loop(alloc, &specs)
}

/// Converts the form of a member: a spec block gets its tree instead of its tokens.
fn read_form(
    alloc: Global,
    functions: &FunctionNames,
    form: MemberForm,
) -> Result<SourceForm, SpecFault>
    ensures { (names : List (List ℕ)) → IsSetOf functions.now names → MatchResult result (IsSourceForm names form) (λ fault. IfNoSpec fault (HasNoForm names form)) }
{
    match form {
        MemberForm::Use(u) => Ok(SourceForm::Use(u)),
        MemberForm::Friend(friend) => Ok(SourceForm::Friend(friend)),
        MemberForm::Struct(declared) => Ok(SourceForm::Struct(declared)),
        MemberForm::Constant(constant) => Ok(SourceForm::Constant(constant)),
        MemberForm::Function(function) => Ok(SourceForm::Function(function)),
        MemberForm::Spec(block) => Ok(SourceForm::Spec(read_spec(alloc, functions, &block)?)),
    }
}

/// Reads the trees of the spec blocks in a member: its own, and those of its loops.
fn read_member(
    alloc: Global,
    functions: &FunctionNames,
    member: Member,
) -> Result<SourceMember, SpecFault>
    ensures { (names : List (List ℕ)) → IsSetOf functions.now names → MatchResult result (IsSourceMember names «member») (λ fault. IfNoSpec fault (HasNoMember names «member»)) }
{
    let loops = read_loops(alloc, &member.form)?;
    let form = read_form(alloc, functions, member.form)?;
    Ok(SourceMember {
        attributes: member.attributes,
        form,
        loops,
    })
}

/// Reads the trees of the spec blocks of members.
fn read_members(
    alloc: Global,
    functions: &FunctionNames,
    members: Vec<Member>,
) -> Result<Vec<SourceMember>, SpecFault>
    ensures { (names : List (List ℕ)) → IsSetOf functions.now names → MatchResult result (λ found. Paired (IsSourceMember names) members.items found.items) (λ fault. IfNoSpec fault (HaveNoMembers names members.items)) }
{
    let mut found = Vec::new(alloc);
    for member in members {
        found.push(read_member(alloc, functions, member)?)?;
    }
    Ok(found)
}

/// Reads the trees of the spec blocks of a module.
pub fn read_module(alloc: Global, module: Module) -> Result<SourceModule, SpecFault>
    ensures { MatchResult result (IsSourceModule «module») (λ fault. IfNoSpec fault (IsOfNoModule «module»)) }
{
    let functions = function_names(alloc, module.members.as_slice())?;
    let members = read_members(alloc, &functions, module.members)?;
    Ok(SourceModule {
        attributes: module.attributes,
        span: module.span,
        name: module.name,
        members,
    })
}

/// Reads the trees of the spec blocks of modules.
pub fn read_modules(alloc: Global, modules: Vec<Module>) -> Result<Vec<SourceModule>, SpecFault>
    ensures { MatchResult result (λ found. Paired IsSourceModule modules.items found.items) (λ fault. IfNoSpec fault (AreOfNoModules modules.items)) }
{
    let mut found = Vec::new(alloc);
    for module in modules {
        found.push(read_module(alloc, module)?)?;
    }
    Ok(found)
}
