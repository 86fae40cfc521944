//! The locals that `let` declares.

ghost use Rattle.std.specs.Prelude.{◌≡◌, [], ◌∷◌, ◌++◌, OnOk, IfOk, length};
ghost use Rattle.syntax_tree.specs.PatternData.{patterns_of, field_patterns_of};
ghost use Rattle.syntax_tree.specs.ExpressionData.{items_of};
ghost use Rattle.syntax_tree.specs.Locals.{locals_of, names_of, names_of_block, names_of_field, names_of_fields, names_of_item, names_of_items, names_of_patterns};

use crate::expression::{Block, Item, ItemNode};
use crate::lexeme::Identifier;
use crate::pattern::{FieldPattern, Pattern, PatternNode};
use crate::source::collect::{Blocks, collect_from_block};
use base::memory::NoMemory;
use std::alloc::Global;
use std::marker::Model;

/// Names in a tree, in order.
#[derive(Drop)]
pub struct Names<'a> {
    items: Vec<&'a Identifier>,
}

impl<'a> Model for Names<'a> {
    ghost use Rattle.std.specs.Prelude.{List, map};
    ghost use Rattle.syntax_tree.specs.declared.lexeme.Identifier.{Identifier};

    ghost Value = { List Identifier };

    ghost view = { λ n. map (λ name. name.now) n.items.items };
}

impl<'a> Names<'a> {
    /// Returns the empty list.
    fn new(alloc: Global) -> Names<'a>
        ensures { result ≡ [] }
    {
        Names {
            items: Vec::new(alloc),
        }
    }

    /// The number of names.
    pub fn len(&self) -> usize
        ensures { result ≡ length self.now }
    {
        self.items.len()
    }

    /// Adds a name at the end.
    fn push(&mut self, name: &'a Identifier) -> Result<(), NoMemory>
        ensures { OnOk result (self.new ≡ self.old ++ name.now ∷ []) }
    {
        self.items.push(name)?;
        Ok(())
    }
}

/// Adds the names that a pattern binds.
#[cycle(collect_names)]
fn collect_names<'a>(pattern: &'a Pattern, into: &mut Names<'a>) -> Result<(), NoMemory>
    ensures { OnOk result (into.new ≡ into.old ++ names_of pattern.now) }
{
    match &pattern.node {
        PatternNode::Bind(name) => into.push(name),
        PatternNode::Ignore(_) => Ok(()),
        PatternNode::Unpack { fields, .. } => collect_from_fields(fields, into),
        PatternNode::Tuple { items, .. } => collect_from_patterns(items, into),
    }
}

#[cycle(collect_names)]
fn collect_from_field<'a>(field: &'a FieldPattern, into: &mut Names<'a>) -> Result<(), NoMemory>
    ensures { OnOk result (into.new ≡ into.old ++ names_of_field field.now) }
{
    match &field.pattern {
        None => into.push(&field.name),
        Some(pattern) => collect_names(pattern, into),
    }
}

#[cycle(collect_names)]
#[tactic(auto, using(crate::proofs::Smaller::pattern_smaller))]
fn collect_from_patterns<'a>(patterns: &'a [Pattern], into: &mut Names<'a>) -> Result<(), NoMemory>
    ensures { OnOk result (into.new ≡ into.old ++ names_of_patterns (patterns_of patterns.now)) }
{
    for one in patterns {
        collect_names(one, into)?;
    }
    Ok(())
}

#[cycle(collect_names)]
#[tactic(auto, using(crate::proofs::Smaller::field_pattern_smaller))]
fn collect_from_fields<'a>(fields: &'a [FieldPattern], into: &mut Names<'a>) -> Result<(), NoMemory>
    ensures { OnOk result (into.new ≡ into.old ++ names_of_fields (field_patterns_of fields.now)) }
{
    for one in fields {
        collect_from_field(one, into)?;
    }
    Ok(())
}

/// Adds the names that an item declares.
fn collect_from_item<'a>(item: &'a Item, into: &mut Names<'a>) -> Result<(), NoMemory>
    ensures { OnOk result (into.new ≡ into.old ++ names_of_item item.now) }
{
    match &item.node {
        ItemNode::Expression(_) => Ok(()),
        ItemNode::Let { pattern, .. } => collect_names(pattern, into),
    }
}

/// Adds the names that items declare.
fn collect_from_items<'a>(items: &'a [Item], into: &mut Names<'a>) -> Result<(), NoMemory>
    ensures { OnOk result (into.new ≡ into.old ++ names_of_items (items_of items.now)) }
{
    for one in items {
        collect_from_item(one, into)?;
    }
    Ok(())
}

/// Adds the names that a block's own items declare.
fn collect_from_own<'a>(block: &'a Block, into: &mut Names<'a>) -> Result<(), NoMemory>
    ensures { OnOk result (into.new ≡ into.old ++ names_of_block block.now) }
{
    collect_from_items(&block.items, into)
}

/// Returns the names that the `let`s of a body declare.
pub fn locals_of<'a>(alloc: Global, body: &'a Block) -> Result<Names<'a>, NoMemory>
    ensures { IfOk result (λ names. names ≡ locals_of body.now) }
{
    let mut blocks = Blocks::new(alloc);
    collect_from_block(body, &mut blocks)?;
    let mut names = Names::new(alloc);
    for block in blocks.as_slice() {
        collect_from_own(block, &mut names)?;
    }
    Ok(names)
}
