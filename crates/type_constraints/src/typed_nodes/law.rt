//! Which nodes are read.

ghost use Rattle.std.specs.Prelude.{ℕ, ◌<◌, List, length};
ghost use Rattle.base.specs.TypeData.{TypeData};
ghost use Rattle.program.specs.declared.declaration.Function.{Function};
ghost use Rattle.program.specs.declared.program.Program.{Program};
ghost use Rattle.typing_rules.specs.Answers.{IsTyped, NodeIsRead};
ghost use Rattle.typing_rules.specs.CodeSystems.{function_system};

/// A law: all nodes of a typed function are read.
pub fn all_read()
    ensures { (program : Program) (f : Function) (types : List TypeData) → IsTyped (function_system program f) types → (n : ℕ) → n < length f.body.nodes → NodeIsRead (function_system program f) n }
{}
