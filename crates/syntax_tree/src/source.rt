//! Files whose spec blocks are trees.

pub mod collect;
pub mod locals;
pub mod loops;
pub mod spans;
pub mod tree_spans;

use crate::clause::Spec;
use crate::member::{Attribute, Constant, Friend, Function, Struct, Use};
use crate::path::ModuleName;
use base::span::Span;
use std::marker::Model;

/// The forms of a member.
#[derive(Drop)]
pub enum SourceForm {
    Use(Use),
    Friend(Friend),
    Struct(Struct),
    Constant(Constant),
    Function(Function),
    Spec(Spec),
}

/// A member of a module.
pub struct SourceMember {
    pub attributes: Vec<Attribute>,
    pub form: SourceForm,
    /// The trees of the spec blocks of the loops in its code, in the order of the blocks that begin with them.
    pub loops: Vec<Spec>,
}

// A separate impl, so that each drop is a call and not the cases of all forms below it.
impl Drop for SourceMember {
    fn drop(self) {
        let SourceMember {
            attributes,
            form,
            loops,
        } = self;
        drop(attributes);
        drop(form);
        drop(loops);
    }
}

impl Model for SourceMember {
    ghost use Rattle.std.specs.Coded.{codes};
    ghost use Rattle.syntax_tree.specs.TypeTreeCodes.{coded_source_type, coded_arguments};
    ghost use Rattle.syntax_tree.specs.ExpressionCodes.{coded_expression, coded_block};
    ghost use Rattle.syntax_tree.specs.SpecExpressionCodes.{coded_spec_expression, coded_spec_field};
    ghost use Rattle.syntax_tree.specs.SourceData.{SourceMemberData};

    ghost Value = { SourceMemberData };

    ghost coded = { Prim.hlevel (codes, coded_source_type, coded_arguments, coded_expression, coded_block, coded_spec_expression, coded_spec_field) };

    ghost view = { λ m. record { attributes = m.attributes.items; form = m.form; loops = m.loops.items } };
}

/// A module. The spec blocks among its members are trees.
#[derive(Drop)]
pub struct SourceModule {
    pub attributes: Vec<Attribute>,
    /// The span of its word `module`.
    pub span: Span,
    pub name: ModuleName,
    pub members: Vec<SourceMember>,
}

impl Model for SourceModule {
    ghost use Rattle.std.specs.Coded.{codes};
    ghost use Rattle.syntax_tree.specs.TypeTreeCodes.{coded_source_type, coded_arguments};
    ghost use Rattle.syntax_tree.specs.ExpressionCodes.{coded_expression, coded_block};
    ghost use Rattle.syntax_tree.specs.SpecExpressionCodes.{coded_spec_expression, coded_spec_field};
    ghost use Rattle.syntax_tree.specs.SourceModuleData.{SourceModuleData};

    ghost Value = { SourceModuleData };

    ghost coded = { Prim.hlevel (codes, coded_source_type, coded_arguments, coded_expression, coded_block, coded_spec_expression, coded_spec_field) };

    ghost view = { λ m. record { attributes = m.attributes.items; span = m.span; name = m.name; members = m.members.items } };
}

/// The modules of a file.
#[derive(Drop)]
pub struct Source {
    pub modules: Vec<SourceModule>,
}

impl Model for Source {
    ghost use Rattle.std.specs.Coded.{codes};
    ghost use Rattle.std.specs.Prelude.{List};
    ghost use Rattle.syntax_tree.specs.TypeTreeCodes.{coded_source_type, coded_arguments};
    ghost use Rattle.syntax_tree.specs.ExpressionCodes.{coded_expression, coded_block};
    ghost use Rattle.syntax_tree.specs.SpecExpressionCodes.{coded_spec_expression, coded_spec_field};
    ghost use Rattle.syntax_tree.specs.SourceModuleData.{SourceModuleData};

    ghost Value = { List SourceModuleData };

    ghost coded = { Prim.hlevel (codes, coded_source_type, coded_arguments, coded_expression, coded_block, coded_spec_expression, coded_spec_field) };

    ghost view = { λ s. s.modules.items };
}
