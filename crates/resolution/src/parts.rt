//! Resolution of the members of a module, in order.

ghost use Rattle.std.specs.Prelude.{◌≡◌, ℕ, ◌++◌, [], ◌∷◌, List, true, false, None, take, IfOk, IfErr, OnOk};
ghost use Rattle.std.specs.List.{filter_map};
ghost use Rattle.syntax_tree.specs.declared.clause.Spec.{Spec as SpecTree};
ghost use Rattle.syntax_tree.specs.SourceData.{SourceMemberData};
ghost use Rattle.scopes.specs.Meanings.{IfUnknown, module_meaning};
ghost use Rattle.scopes.specs.Declares.{listed};
ghost use Rattle.resolution.specs.Imports.{among_these, use_is_known};
ghost use Rattle.resolution.specs.Faults.{IsFaultAmong};
ghost use Rattle.resolution.specs.Items.{AreKnown, HasUnknownInForm, HasUnknownInOwned, HasUnknownInSpec, form_items, items_behind};
ghost use Rattle.resolution.specs.Owners.{HasUnknownInBlock, OwnerScope};
ghost use Rattle.resolution.specs.OwnersSoFar.{AreNumbers, AreOwners, IsOwnerAfter, StandsIn, blocks_before, blocks_with};
ghost use Rattle.resolution.specs.Parts.{ArePartsFrom, IsBareAs, IsMade, IsSimple, here_of};
ghost use Rattle.resolution.specs.Programs.{form_declaration, friend_of_form, friend_of_member, spec_declaration};
ghost use Rattle.base.specs.Pairs.{Paired};

use crate::clauses::context::ClauseContext;
use crate::clauses::pragmas::with_block;
use crate::clauses::resolve_block;
use crate::declarations::imports::{resolve_friend, use_is_known};
use crate::declared::Declared;
use crate::fault::{DeclarationFault, fault_at};
use crate::functions::own_function;
use crate::members::{
    ModuleContext, clauses_of_spec, own_constant, own_schema, own_spec_function, own_struct,
    spec_span,
};
use crate::owners::{Owner, owner_of};
use base::memory::NoMemory;
use program::program::ModuleId;
use program::sequence::Sequence;
use scopes::fault::NameFault;
use scopes::types::TypeContext;
use syntax_tree::clause::Spec;
use syntax_tree::member::{Friend, Use};
use syntax_tree::source::SourceForm;
use syntax_tree::source::spans::form_span;

// ---- spec blocks

/// Resolves one more spec block of an owner.
fn add_to_owner(
    context: &ModuleContext<'_>,
    owner: &mut Owner,
    spec: &Spec,
) -> Result<(), NameFault>
    ensures added { OnOk result ((w : OwnerScope) (blocks : List SpecTree) → StandsIn (here_of context.now) w → IsOwnerAfter w blocks owner.old → IsOwnerAfter w (blocks ++ spec.now ∷ []) owner.new) }
    ensures known { OnOk result ((w : OwnerScope) (blocks : List SpecTree) → StandsIn (here_of context.now) w → IsOwnerAfter w blocks owner.old → HasUnknownInBlock w blocks spec.now → ⊥) }
    ensures unknown { IfErr result (λ fault. (w : OwnerScope) (blocks : List SpecTree) → StandsIn (here_of context.now) w → IsOwnerAfter w blocks owner.old → IfUnknown fault (HasUnknownInBlock w blocks spec.now)) }
{
    if owner.parameters.len() > u32::MAX as usize {
        return Err(NameFault::NoMemory);
    }
    let clauses = ClauseContext {
        alloc: context.alloc,
        types: TypeContext {
            environment: context.environment,
            parameters: owner.parameters.as_slice(),
            is_spec: true,
        },
        schemas: context.schemas,
    };
    let trees = clauses_of_spec(spec);
    resolve_block(&clauses, spec_span(spec), trees, &mut owner.target)?;
    owner.settings = with_block(owner.settings, trees);
    Ok(())
}

/// Resolves a spec block of a member or of the module itself.
fn add_owned(
    context: &ModuleContext<'_>,
    number: usize,
    owners: &mut Vec<Owner>,
    spec: &Spec,
) -> Result<(), NameFault>
    requires numbers { AreNumbers (here_of context.now) context.now.numbers.now }
    requires owners { AreOwners (here_of context.now) (blocks_before (here_of context.now) (take number context.now.members.now)) owners.old.items }
    ensures added { OnOk result (AreOwners (here_of context.now) (blocks_with (here_of context.now) (take number context.now.members.now) spec.now) owners.new.items) }
    ensures known { OnOk result (HasUnknownInOwned (here_of context.now) (take number context.now.members.now) spec.now → ⊥) }
    ensures unknown { IfErr result (λ fault. IfUnknown fault (HasUnknownInOwned (here_of context.now) (take number context.now.members.now) spec.now)) }
{
    let count = context.members.len();
    let Some(index) = owner_of(context.alloc, context.numbers, count, spec)? else {
        return Err(NameFault::Unknown);
    };
    let owner = &mut owners[index];
    add_to_owner(context, owner, spec)?;
    Ok(())
}

/// Resolves a spec block.
fn own_spec(
    context: &ModuleContext<'_>,
    number: usize,
    owners: &mut Vec<Owner>,
    spec: &Spec,
) -> Result<Option<Declared>, NameFault>
    requires numbers { AreNumbers (here_of context.now) context.now.numbers.now }
    requires owners { AreOwners (here_of context.now) (blocks_before (here_of context.now) (take number context.now.members.now)) owners.old.items }
    ensures added { OnOk result (AreOwners (here_of context.now) (blocks_with (here_of context.now) (take number context.now.members.now) spec.now) owners.new.items) }
    ensures part { IfOk result (λ part. Paired IsBareAs (spec_declaration (here_of context.now) spec.now) (listed part)) }
    ensures known { OnOk result (HasUnknownInSpec (here_of context.now) (take number context.now.members.now) spec.now → ⊥) }
    ensures unknown { IfErr result (λ fault. IfUnknown fault (HasUnknownInSpec (here_of context.now) (take number context.now.members.now) spec.now)) }
{
    match spec {
        Spec::Schema(tree) => Ok(Some(own_schema(context, tree)?)),
        Spec::Function(tree) => Ok(Some(own_spec_function(context, tree)?)),
        Spec::Loop { .. } => Ok(None),
        Spec::Module { .. } | Spec::Named { .. } => {
            add_owned(context, number, owners, spec)?;
            Ok(None)
        }
    }
}

// ---- members

/// Checks a `use`.
fn own_use(context: &ModuleContext<'_>, tree: &Use) -> Result<(), NameFault>
    ensures known { OnOk result (use_is_known context.now.environment.now context.now.modules.now.keys tree.now ≡ true) }
    ensures unknown { IfErr result (λ fault. IfUnknown fault (use_is_known context.now.environment.now context.now.modules.now.keys tree.now ≡ false)) }
{
    if use_is_known(context.alloc, context.environment, context.modules, tree)? {
        return Ok(());
    }
    Err(NameFault::Unknown)
}

/// Resolves a friend and appends it.
fn own_friend(
    context: &ModuleContext<'_>,
    tree: &Friend,
    friends: &mut Sequence<ModuleId>,
) -> Result<(), NameFault>
    ensures found { OnOk result (friends.new ≡ friends.old ++ listed (among_these context.now.modules.now.keys (module_meaning context.now.environment.now tree.now.owner))) }
    ensures known { OnOk result ((among_these context.now.modules.now.keys (module_meaning context.now.environment.now tree.now.owner) ≡ None) → ⊥) }
    ensures unknown { IfErr result (λ fault. IfUnknown fault (among_these context.now.modules.now.keys (module_meaning context.now.environment.now tree.now.owner) ≡ None)) }
{
    let id = resolve_friend(context.alloc, context.environment, context.modules, tree)?;
    friends.push(id)?;
    Ok(())
}

/// Resolves a member that is neither a function nor a spec block. Appends the friend that it names, if any.
fn own_simple(
    context: &ModuleContext<'_>,
    form: &SourceForm,
    friends: &mut Sequence<ModuleId>,
) -> Result<Option<Declared>, NameFault>
    requires { IsSimple form.now }
    ensures simple { OnOk result (IsSimple form.now) }
    ensures part { IfOk result (λ part. (n : ℕ) (loops : List SpecTree) → Paired IsBareAs (form_declaration (here_of context.now) n form.now loops) (listed part)) }
    ensures friends { OnOk result (friends.new ≡ friends.old ++ listed (friend_of_form (here_of context.now) form.now)) }
    ensures known { OnOk result ((before : List SourceMemberData) → HasUnknownInForm (here_of context.now) before form.now → ⊥) }
    ensures unknown { IfErr result (λ fault. (before : List SourceMemberData) → IfUnknown fault (HasUnknownInForm (here_of context.now) before form.now)) }
{
    match form {
        SourceForm::Use(tree) => {
            own_use(context, tree)?;
            Ok(None)
        }
        SourceForm::Friend(tree) => {
            own_friend(context, tree, friends)?;
            Ok(None)
        }
        SourceForm::Struct(tree) => Ok(Some(own_struct(context, tree)?)),
        SourceForm::Constant(tree) => Ok(Some(own_constant(context, tree)?)),
        SourceForm::Function(_) | SourceForm::Spec(_) => unreachable!(),
    }
}

/// Resolves a member of this form with the index `number`, after the members before it.
fn own_form(
    context: &ModuleContext<'_>,
    number: usize,
    form: &SourceForm,
    loops: &[Spec],
    owners: &mut Vec<Owner>,
    friends: &mut Sequence<ModuleId>,
) -> Result<Option<Declared>, DeclarationFault>
    requires numbers { AreNumbers (here_of context.now) context.now.numbers.now }
    requires owners { AreOwners (here_of context.now) (blocks_before (here_of context.now) (take number context.now.members.now)) owners.old.items }
    ensures made { IfOk result (λ part. IsMade (here_of context.now) number (take number context.now.members.now) form.now loops.now friends.old friends.new part) }
    ensures owners { OnOk result ((m : SourceMemberData) → m.form ≡ form.now → AreOwners (here_of context.now) (blocks_before (here_of context.now) (take number context.now.members.now ++ m ∷ [])) owners.new.items) }
    ensures unknown { IfErr result (IsFaultAmong (form_items (here_of context.now) (take number context.now.members.now) form.now loops.now)) }
{
    match form {
        SourceForm::Function(tree) => Ok(Some(own_function(context, tree, loops)?)),
        SourceForm::Spec(spec) => match own_spec(context, number, owners, spec) {
            Ok(part) => Ok(part),
            Err(fault) => Err(fault_at(fault, spec_span(spec))),
        },
        _ => match own_simple(context, form, friends) {
            Ok(part) => Ok(part),
            Err(fault) => Err(fault_at(fault, form_span(form))),
        },
    }
}

/// Resolves all members of a module, in order.
pub fn own_members(
    context: &ModuleContext<'_>,
    owners: &mut Vec<Owner>,
    friends: &mut Sequence<ModuleId>,
) -> Result<Vec<Option<Declared>>, DeclarationFault>
    requires numbers { AreNumbers (here_of context.now) context.now.numbers.now }
    requires owners { AreOwners (here_of context.now) (blocks_before (here_of context.now) []) owners.old.items }
    ensures parts { IfOk result (λ parts. ArePartsFrom (here_of context.now) 0 context.now.members.now parts.items) }
    ensures friends { OnOk result (friends.new ≡ friends.old ++ filter_map (friend_of_member (here_of context.now)) context.now.members.now) }
    ensures owners { OnOk result (AreOwners (here_of context.now) (blocks_before (here_of context.now) context.now.members.now) owners.new.items) }
    ensures known { OnOk result (AreKnown (items_behind (here_of context.now) [] context.now.members.now)) }
    ensures unknown { IfErr result (IsFaultAmong (items_behind (here_of context.now) [] context.now.members.now)) }
{
    let mut parts = Vec::new(context.alloc);
    for (number, member) in context.members.iter().enumerate() {
        let part = own_form(
            context,
            number,
            &member.form,
            &member.loops,
            owners,
            friends,
        )?;
        parts.push(part)?;
    }
    Ok(parts)
}
