//! Patterns of `let`s.

use crate::lexeme::Identifier;
use crate::path::Path;
use crate::types::TypeArguments;
use base::span::Span;
use std::marker::Model;

/// A pattern.
#[cycle(pattern)]
pub struct Pattern {
    pub node: PatternNode,
}

// A separate impl, so that each drop is a call and not the cases of all forms below it.
impl Drop for Pattern {
    #[cycle(drop_pattern)]
    fn drop(self) {
        let Pattern { node } = self;
        drop(node);
    }
}

/// The forms of a pattern.
#[cycle(pattern)]
#[derive(Drop)]
pub enum PatternNode {
    /// A new local.
    Bind(Identifier),
    /// `_`
    Ignore(Span),
    /// A struct that is unpacked.
    Unpack {
        path: Path,
        arguments: Option<TypeArguments>,
        fields: Vec<FieldPattern>,
        last_comma: bool,
    },
    /// Patterns between parentheses: a single one means itself.
    Tuple {
        span: Span,
        items: Vec<Pattern>,
        last_comma: bool,
    },
}

/// The pattern of a field of a struct: a local of the field's name if none is written.
#[cycle(pattern)]
#[derive(Drop)]
pub struct FieldPattern {
    pub name: Identifier,
    pub pattern: Option<Pattern>,
}

impl Model for Pattern {
    ghost use Rattle.syntax_tree.specs.PatternData.{PatternData, pattern_size};
    ghost use Rattle.syntax_tree.specs.PatternCodes.{coded_pattern};

    ghost Value = { PatternData };

    ghost coded = { coded_pattern };

    ghost use Rattle.syntax_tree.specs.PatternView.{pattern_of_node};

    ghost view = { λ a. pattern_of_node a.node };

    ghost size = { pattern_size };

    ghost use Rattle.syntax_tree.specs.PatternFalls.{pattern_falls};

    ghost size_decreases = { λ a h. pattern_falls a.node };
}

impl Model for FieldPattern {
    ghost use Rattle.syntax_tree.specs.PatternData.{FieldPatternData, field_pattern_size};
    ghost use Rattle.syntax_tree.specs.PatternCodes.{coded_field_pattern};

    ghost Value = { FieldPatternData };

    ghost coded = { coded_field_pattern };

    ghost use Rattle.syntax_tree.specs.PatternView.{field_pattern_of};

    ghost view = { λ a. field_pattern_of a.name a.pattern };

    ghost size = { field_pattern_size };

    ghost use Rattle.syntax_tree.specs.PatternFalls.{field_pattern_falls};

    ghost size_decreases = { λ a h. field_pattern_falls a.name a.pattern };
}
