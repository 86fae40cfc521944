//! Laws of the classes of a branch as a graph, whose terms occur in the branch.

ghost use Rattle.std.specs.Prelude.{List};
ghost use Rattle.term_pool.specs.declared.node.Node.{Node};
ghost use Rattle.congruence_closure.specs.States.{AreClasses};
ghost use Rattle.certificates.specs.BranchesBranch.{Branch};
ghost use Rattle.congruence_closure.specs.Known.{BranchClassesData, IsOver, AreInEntries, AreEntriesOf};
ghost use Rattle.explanations.specs.Chains.{ChainData, IsChain};
ghost use Rattle.explanations.specs.Graphs.{IsGraph};
ghost use Rattle.explanations.specs.Derivations.{AreSaid, CanBeginAny};
ghost use Rattle.explanations.specs.BranchGraphs.{AreLow, HasEntries};

/// The nodes of the classes of a branch are a graph, if each was made for an item of an entry, and each entry is no
/// deeper than a step may add or is the negation of such a formula.
pub fn classes_are_graphs()
    ensures { (pool : List Node) (d : BranchClassesData) → AreClasses d.classes.nodes d.classes.equations d.classes.names d.classes.links → IsOver pool d → AreInEntries pool d → AreLow pool d.entries → IsGraph pool d.classes.nodes d.classes.links d.numbers }
{}

/// An explanation that begins with the entries has the equation of each edge that an equation justifies.
pub fn links_are_said()
    ensures { (pool : List Node) (d : BranchClassesData) (c : ChainData) → AreClasses d.classes.nodes d.classes.equations d.classes.names d.classes.links → IsOver pool d → HasEntries c d.entries → AreSaid pool c d.classes.links d.numbers }
{}

/// In such an explanation the reflexivity axiom of each term of a node may be added.
pub fn terms_can_begin()
    ensures { (pool : List Node) (d : BranchClassesData) (b : Branch) (c : ChainData) → AreEntriesOf pool d b → AreInEntries pool d → AreLow pool d.entries → HasEntries c d.entries → IsChain pool b c → CanBeginAny pool d.classes.nodes b c d.numbers }
{}
