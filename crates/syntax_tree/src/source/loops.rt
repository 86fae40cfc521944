//! The spec blocks of loops.

ghost use Rattle.std.specs.Prelude.{◌≡◌, [], ◌++◌, IfOk, OnOk, map};
ghost use Rattle.syntax_tree.specs.Loops.{blocks_of_form, loop_specs, spec_of_block};

use crate::expression::Block;
use crate::member::MemberForm;
use crate::source::collect::{Blocks, collect_from_block, collect_from_expression};
use crate::spec_tokens::KeptSpec;
use base::memory::NoMemory;
use std::alloc::Global;
use std::marker::Model;

/// Spec blocks of a tree, in order.
#[derive(Drop)]
pub struct LoopSpecs<'a> {
    items: Vec<&'a KeptSpec>,
}

impl<'a> Model for LoopSpecs<'a> {
    ghost use Rattle.std.specs.Prelude.{List, map};
    ghost use Rattle.syntax_tree.specs.declared.spec_tokens.KeptSpec.{KeptSpec};

    ghost Value = { List KeptSpec };

    ghost view = { λ s. map (λ spec. spec.now) s.items.items };
}

impl<'a> LoopSpecs<'a> {
    /// Returns the empty list.
    fn new(alloc: Global) -> LoopSpecs<'a>
        ensures { result ≡ [] }
    {
        LoopSpecs {
            items: Vec::new(alloc),
        }
    }

    /// Returns the spec blocks, in order.
    pub fn as_slice(&self) -> &[&'a KeptSpec]
        ensures { map (λ spec. spec.now) result.now ≡ self.now }
    {
        self.items.as_slice()
    }

    /// Adds the spec block of a block at the end, if it has one.
    fn add(&mut self, block: &'a Block) -> Result<(), NoMemory>
        ensures { OnOk result (self.new ≡ self.old ++ spec_of_block block.now) }
    {
        if let Some(spec) = &block.spec {
            self.items.push(spec)?;
        }
        Ok(())
    }
}

/// Returns the blocks of Move code in a member, each before those in it.
pub fn blocks_of_form<'a>(alloc: Global, form: &'a MemberForm) -> Result<Blocks<'a>, NoMemory>
    ensures { IfOk result (λ found. found ≡ blocks_of_form form.now) }
{
    let mut found = Blocks::new(alloc);
    match form {
        MemberForm::Constant(constant) => collect_from_expression(&constant.value, &mut found)?,
        MemberForm::Function(function) => collect_from_block(&function.body, &mut found)?,
        MemberForm::Use(_) => {}
        MemberForm::Friend(_) => {}
        MemberForm::Struct(_) => {}
        MemberForm::Spec(_) => {}
    }
    Ok(found)
}

/// Returns the spec blocks of the loops in a member, in the order of the blocks that begin with them.
pub fn loop_specs<'a>(alloc: Global, form: &'a MemberForm) -> Result<LoopSpecs<'a>, NoMemory>
    ensures { IfOk result (λ found. found ≡ loop_specs form.now) }
{
    let blocks = blocks_of_form(alloc, form)?;
    let mut found = LoopSpecs::new(alloc);
    for block in blocks.as_slice() {
        found.add(block)?;
    }
    Ok(found)
}
