//! Types in source text.

use crate::path::Path;
use base::span::Span;
use std::marker::Model;

/// A type in source text.
#[cycle(source_type)]
pub struct SourceType {
    pub node: SourceTypeNode,
}

// A separate impl, so that each drop is a call and not the cases of all forms below it.
impl Drop for SourceType {
    #[cycle(drop_type)]
    fn drop(self) {
        let SourceType { node } = self;
        drop(node);
    }
}

/// The forms of a type.
#[cycle(source_type)]
#[derive(Drop)]
pub enum SourceTypeNode {
    /// `&T`
    Shared {
        span: Span,
        target: Box<SourceType>,
    },
    /// `&mut T`
    Mutable {
        span: Span,
        target: Box<SourceType>,
    },
    /// A struct, a type parameter or a builtin type, by name.
    Named {
        path: Path,
        arguments: Option<TypeArguments>,
    },
    /// Types between parentheses: a single one means itself.
    Tuple {
        span: Span,
        items: Vec<SourceType>,
        last_comma: bool,
    },
}

/// The types between `<` and `>`.
#[cycle(source_type)]
#[derive(Drop)]
pub struct TypeArguments {
    pub items: Vec<SourceType>,
    /// Whether a comma follows the last of them.
    pub last_comma: bool,
}

impl Model for SourceType {
    ghost use Rattle.syntax_tree.specs.TypeTreeData.{SourceTypeData, source_type_size};
    ghost use Rattle.syntax_tree.specs.TypeTreeCodes.{coded_source_type};

    ghost Value = { SourceTypeData };

    ghost coded = { coded_source_type };

    ghost use Rattle.syntax_tree.specs.TypeTreeView.{source_type_of_node};

    ghost view = { λ a. source_type_of_node a.node };

    ghost size = { source_type_size };

    ghost use Rattle.syntax_tree.specs.TypeTreeFalls.{source_type_falls};

    ghost size_decreases = { λ a h. source_type_falls a.node };
}

impl Model for TypeArguments {
    ghost use Rattle.syntax_tree.specs.TypeTreeData.{ArgumentsData, Arguments, source_types_of, arguments_size};
    ghost use Rattle.syntax_tree.specs.TypeTreeCodes.{coded_arguments};

    ghost Value = { ArgumentsData };

    ghost coded = { coded_arguments };

    ghost view = { λ a. Arguments (source_types_of a.items.items) a.last_comma };

    ghost size = { arguments_size };

    ghost use Rattle.syntax_tree.specs.TypeTreeFalls.{arguments_fall};

    ghost size_decreases = { λ a h. arguments_fall a.items.items a.last_comma };
}
