//! The fields in a pack.

ghost use Rattle.std.specs.Prelude.{◌≡◌, IfOk};
ghost use Rattle.std.specs.Option.{option_map};
ghost use Rattle.syntax_tree.specs.TypeTreeData.{maybe_arguments_of};
ghost use Rattle.syntax_tree.specs.ExpressionData.{field_values_of};
ghost use Rattle.scopes.specs.Meanings.{IsMeaning};
ghost use Rattle.body_names.specs.CodeTrees.{field_of_value, fields_of_values};
ghost use Rattle.body_names.specs.SharedWords.{fields_meaning};
ghost use Rattle.body_names.specs.CodeSetting.{setting};

use crate::code::context::Context;
use crate::words::named_fields;
use base::memory::NoMemory;
use base::name::Name;
use program::code::CodeMany;
use program::sequence::Sequence;
use scopes::fault::NameFault;
use std::alloc::Global;
use syntax_tree::expression::FieldValue;
use syntax_tree::path::Path;
use syntax_tree::types::TypeArguments;

/// Returns the name of the field that is set.
fn field_of(field: &FieldValue) -> &Name
    ensures { result.now ≡ field_of_value field.now }
{
    &field.name.text
}

/// Returns the names of the fields that are set.
fn fields_of(alloc: Global, fields: &[FieldValue]) -> Result<Sequence<Name>, NoMemory>
    ensures { IfOk result (λ names. names ≡ fields_of_values (field_values_of fields.now)) }
{
    let mut names = Sequence::new(alloc);
    for one in fields {
        names.push(field_of(one).try_clone(alloc)?)?;
    }
    Ok(names)
}

/// Returns the form of a struct value.
pub fn pack(
    context: &Context<'_>,
    path: &Path,
    arguments: &Option<TypeArguments>,
    fields: &[FieldValue],
) -> Result<CodeMany, NameFault>
    ensures { IsMeaning result (option_map CodeMany.Pack (fields_meaning (setting context.now) path.now (maybe_arguments_of arguments.now) (fields_of_values (field_values_of fields.now)))) }
{
    let names = fields_of(context.alloc, fields)?;
    let node = named_fields(context.alloc, &context.types, path, arguments, names)?;
    Ok(CodeMany::Pack(node))
}
