//! The fields in a pack.

ghost use Rattle.std.specs.Prelude.{◌≡◌, IfOk};
ghost use Rattle.std.specs.Option.{option_map};
ghost use Rattle.syntax_tree.specs.TypeTreeData.{maybe_arguments_of};
ghost use Rattle.syntax_tree.specs.SpecExpressionData.{spec_fields_of};
ghost use Rattle.scopes.specs.Meanings.{IsMeaning};
ghost use Rattle.body_names.specs.SharedWords.{fields_meaning};
ghost use Rattle.body_names.specs.SpecSetting.{setting};
ghost use Rattle.body_names.specs.SpecTrees.{field_of_value, fields_of_values};

use crate::spec::context::Context;
use crate::words::named_fields;
use base::memory::NoMemory;
use base::name::Name;
use program::sequence::Sequence;
use program::spec::SpecMany;
use scopes::fault::NameFault;
use std::alloc::Global;
use syntax_tree::path::Path;
use syntax_tree::spec_expression::SpecField;
use syntax_tree::types::TypeArguments;

/// Returns the name of the field or variable that is set.
pub fn field_of(field: &SpecField) -> &Name
    ensures { result.now ≡ field_of_value field.now }
{
    &field.name.text
}

/// Returns the names of the fields that are set.
fn fields_of(alloc: Global, fields: &[SpecField]) -> Result<Sequence<Name>, NoMemory>
    ensures { IfOk result (λ names. names ≡ fields_of_values (spec_fields_of fields.now)) }
{
    let mut names = Sequence::new(alloc);
    for one in fields {
        names.push(field_of(one).try_clone(alloc)?)?;
    }
    Ok(names)
}

/// Returns the form of a struct value.
pub fn pack(
    context: &Context<'_>,
    path: &Path,
    arguments: &Option<TypeArguments>,
    fields: &[SpecField],
) -> Result<SpecMany, NameFault>
    ensures { IsMeaning result (option_map SpecMany.Pack (fields_meaning ((setting context.now).types) path.now (maybe_arguments_of arguments.now) (fields_of_values (spec_fields_of fields.now)))) }
{
    let names = fields_of(context.alloc, fields)?;
    let node = named_fields(context.alloc, &context.types, path, arguments, names)?;
    Ok(SpecMany::Pack(node))
}
