//! Laws of due traces, each the contract of a function that does nothing.

ghost use Rattle.std.specs.Prelude.{◌≡◌, List};
ghost use Rattle.std.specs.List.{AllZip, flat_map};
ghost use Rattle.term_pool.specs.declared.node.Node.{Node};
ghost use Rattle.certificates.specs.Moves.{all_moves};
ghost use Rattle.certificates.specs.ProofTraces.{Application};
ghost use Rattle.search.specs.Applications.{IsApplicationOf};
ghost use Rattle.search.specs.declared.trees.application.PoolApplication.{PoolApplication};
ghost use Rattle.certificate_text.specs.Moves.{moves_of_application, FitApplications, DueText, IsTextOf};

/// A certificate can hold the numbers of a due trace.
pub fn numbers_fit()
    ensures { (ns : List Node) (text : List PoolApplication) (due : DueText) → IsTextOf ns text due → FitApplications text }
{}

/// The moves of rule applications by number are those of the applications.
pub fn moves_by_number()
    ensures { (ns : List Node) (text : List PoolApplication) (applications : List Application) → AllZip (IsApplicationOf ns) text applications → flat_map (moves_of_application ns) text ≡ all_moves applications }
{}
