//! Laws of truth, each the contract of a function with an empty body.

ghost use Rattle.fol.specs.Deciders.{SomeInterpretationReads, OneInterpretationReads, OneTestAnswersRight};

/// A law: if each test on values holds of all of them or fails of some, an instance of excluded middle, there is an
/// interpretation of each list of shapes. So validity is not vacuous in classical logic.
pub fn some_interpretation_reads()
    ensures { SomeInterpretationReads }
{}

/// A law: any two tests that decide which properties all values have give the same answers.
pub fn one_test_answers_right()
    ensures { OneTestAnswersRight }
{}

/// A law: interpretations of the same shapes, in which type parameters name the same types, are equal. So validity does
/// not depend on which of them is chosen.
pub fn one_interpretation_reads()
    ensures { OneInterpretationReads }
{}
