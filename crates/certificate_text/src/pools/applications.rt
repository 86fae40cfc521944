//! Rule applications with new numbers.

ghost use Rattle.std.specs.Prelude.{◌≡◌, map};
ghost use Rattle.std.specs.List.{AllZip};
ghost use Rattle.certificate_text.specs.Nodes.{new_number};
ghost use Rattle.certificate_text.specs.Applications.{reason_anew, step_anew, IsExtensionAnew, IsApplicationAnew};

use crate::pools::nodes::new_number;
use explanations::chain::{ChainStep, Rewriting};
use search::trees::application::{Extension, PoolApplication, Reason};

fn reason_anew(numbers: &[usize], reason: Reason) -> Reason
    ensures { result ≡ reason_anew numbers.now reason }
{
    match reason {
        Reason::Instance(entry, term) => Reason::Instance(entry, new_number(numbers, term)),
        Reason::Cut(left, right) => {
            Reason::Cut(new_number(numbers, left), new_number(numbers, right))
        }
        Reason::Bound(entry, term, most) => {
            Reason::Bound(entry, new_number(numbers, term), most)
        }
        Reason::Parts(_) | Reason::Name(_, _) | Reason::Axiom(_) | Reason::Split(_) => reason,
    }
}

fn step_anew(numbers: &[usize], step: ChainStep) -> ChainStep
    ensures { result ≡ step_anew numbers.now step }
{
    match step {
        ChainStep::Itself(formula) => ChainStep::Itself(new_number(numbers, formula)),
        ChainStep::Rewritten(rewriting) => {
            ChainStep::Rewritten(Rewriting {
                equation: rewriting.equation,
                source: rewriting.source,
                variable: rewriting.variable,
                pattern: new_number(numbers, rewriting.pattern),
                formula: new_number(numbers, rewriting.formula),
            })
        }
    }
}

fn renumber_all(numbers: &[usize], formulas: &mut [usize])
    ensures { formulas.new ≡ map (new_number numbers.now) formulas.old }
{
    for formula in formulas.iter_mut() {
        *formula = new_number(numbers, *formula);
    }
}

fn renumber_chain(numbers: &[usize], chain: &mut [ChainStep])
    ensures { chain.new ≡ map (step_anew numbers.now) chain.old }
{
    for step in chain.iter_mut() {
        *step = step_anew(numbers, *step);
    }
}

fn renumber_extension(numbers: &[usize], extension: &mut Extension)
    ensures { IsExtensionAnew numbers.now extension.old extension.new }
{
    extension.reason = reason_anew(numbers, extension.reason);
    renumber_all(numbers, extension.formulas.as_mut_slice());
}

fn renumber_application(numbers: &[usize], application: &mut PoolApplication)
    ensures { IsApplicationAnew numbers.now application.old application.new }
{
    match application {
        PoolApplication::Grown(extension) => renumber_extension(numbers, extension),
        PoolApplication::Closed(closing) => renumber_chain(numbers, closing.chain.as_mut_slice()),
    }
}

/// Renumbers the rule applications of a trace.
pub(crate) fn renumber(numbers: &[usize], text: &mut [PoolApplication])
    ensures { AllZip (IsApplicationAnew numbers.now) text.old text.new }
{
    for application in text.iter_mut() {
        renumber_application(numbers, application);
    }
}
