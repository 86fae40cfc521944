//! Sources resolve to at most one program.

ghost use Rattle.std.specs.Prelude.{◌≡◌, List};
ghost use Rattle.syntax_tree.specs.SourceModuleData.{SourceModuleData};
ghost use Rattle.program.specs.declared.program.Program.{Program};
ghost use Rattle.resolution.specs.Programs.{IsProgramOf};

/// Law: two programs of the same list of sources are equal.
pub fn one_program()
    ensures { (sources : List (List SourceModuleData)) (one other : Program)
        → IsProgramOf sources one → IsProgramOf sources other → one ≡ other }
{}
