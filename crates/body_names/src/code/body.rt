//! Bodies of functions and values of constants with their names resolved.

ghost use Rattle.std.specs.Prelude.{◌≡◌, [], ◌++◌, IfOk, IfErr};
ghost use Rattle.program.specs.Listed.{IsSound};
ghost use Rattle.scopes.specs.Meanings.{IfUnknown};
ghost use Rattle.body_names.specs.CodeNames.{names_of, names_of_block, numbered};
ghost use Rattle.body_names.specs.CodeSpans.{spans_of, spans_of_block};
ghost use Rattle.body_names.specs.CodeResolved.{IsResolved, body_tree, constant_tree};
ghost use Rattle.body_names.specs.CodeSetting.{setting};
ghost use Rattle.body_names.specs.LoopScopes.{loops_of_body};

use crate::code::building::Building;
use crate::code::context::Context;
use crate::code::loops::LoopScope;
use crate::code::{resolve_block, resolve_code};
use base::name::Name;
use program::arena::Arena;
use program::code::Body;
use program::sequence::Sequence;
use scopes::fault::NameFault;
use scopes::scope::Scope;
use syntax_tree::expression::{Block, Expression};

/// A body with its names resolved.
#[derive(Drop)]
pub struct ResolvedBody {
    /// Its nodes. The last one is the root.
    pub body: Body,
    /// The names of its locals, by number: parameters first, then those that `let` binds, in source order.
    pub locals: Sequence<Name>,
}

/// The body of a function with its names resolved.
#[derive(Drop)]
pub struct FunctionBody {
    pub code: ResolvedBody,
    /// Its loops with spec blocks, in the order of the blocks that begin with them.
    pub loops: Vec<LoopScope>,
}

/// Returns the state before any code, in a function with these parameters.
fn begin(context: &Context<'_>, parameters: Sequence<Name>) -> Result<Building, NameFault>
    ensures nodes { IfOk result (λ building. building.body.nodes ≡ []) }
    ensures spans { IfOk result (λ building. building.body.spans ≡ []) }
    ensures scope { IfOk result (λ building. building.scope ≡ numbered 0 parameters) }
    ensures locals { IfOk result (λ building. building.locals ≡ parameters) }
    ensures loops { IfOk result (λ building. building.loops.items ≡ []) }
    ensures memory { IfErr result (λ fault. fault ≡ NameFault.NoMemory) }
{
    let count = parameters.as_slice().len();
    let mut building = Building {
        body: Arena::new(context.alloc),
        scope: Scope::new(context.alloc),
        locals: parameters,
        loops: Vec::new(context.alloc),
    };
    building.enter(context.alloc, 0, count)?;
    Ok(building)
}

/// Resolves the body of a function with parameters of these names, and finds its loops with spec blocks. `Unknown` exactly if some use in it has no meaning;
/// `NoMemory` if memory runs out first.
pub fn resolve_body(
    context: &Context<'_>,
    parameters: Sequence<Name>,
    block: &Block,
) -> Result<FunctionBody, NameFault>
    ensures resolved { IfOk result (λ resolved. IsResolved (body_tree (setting context.now) parameters block.now) (spans_of_block block.now) (parameters ++ names_of_block block.now) resolved.code) }
    ensures loops { IfOk result (λ resolved. resolved.loops.items ≡ loops_of_body parameters block.now) }
    ensures unknown { IfErr result (λ fault. IfUnknown fault (IsSound (body_tree (setting context.now) parameters block.now) → ⊥)) }
{
    let mut building = begin(context, parameters)?;
    let _last = resolve_block(context, &mut building, block)?;
    let Building {
        body,
        scope,
        locals,
        loops,
    } = building;
    drop(scope);
    Ok(FunctionBody {
        code: ResolvedBody { body, locals },
        loops,
    })
}

/// Resolves the value of a constant. `Unknown` exactly if some use in it has no meaning; `NoMemory` if memory runs out
/// first.
pub fn resolve_constant(
    context: &Context<'_>,
    value: &Expression,
) -> Result<ResolvedBody, NameFault>
    ensures resolved { IfOk result (λ resolved. IsResolved (constant_tree (setting context.now) value.now) (spans_of value.now) (names_of value.now) resolved) }
    ensures unknown { IfErr result (λ fault. IfUnknown fault (IsSound (constant_tree (setting context.now) value.now) → ⊥)) }
{
    let mut building = begin(context, Sequence::new(context.alloc))?;
    let _last = resolve_code(context, &mut building, value)?;
    let Building {
        body,
        scope,
        locals,
        loops,
    } = building;
    drop(scope);
    drop(loops);
    Ok(ResolvedBody { body, locals })
}
