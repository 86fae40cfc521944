//! The length in bytes of the certificate of a proof trace.

ghost use Rattle.std.specs.Prelude.{◌≡◌, ◌+◌, ◌<◌, List, length};
ghost use Rattle.std.specs.List.{AllZip};
ghost use Rattle.certificates.specs.CertView.{close_of_node};
ghost use Rattle.certificates.specs.Lengths.{capped, formula_length, list_length, compared_length, close_length, move_length, moves_length, IsLengthOf};
ghost use Rattle.certificates.specs.Moves.{all_moves};
ghost use Rattle.certificates.specs.ProofTraces.{Application};
ghost use Rattle.search.specs.Applications.{formulas_of, IsApplicationOf};
ghost use Rattle.certificate_text.specs.Moves.{first_of, move_of_extension, link_move, moves_of_closing, moves_of_application, FitsExtension, FitsApplication, FitApplications};
ghost use Rattle.certificate_text.specs.Lengths.{AreLengths};

use crate::lengths::items::{formula_len, left_len, sum, term_len};
use crate::trees::laws::moves_by_number;
use certificates::bytes::laws::lengths_of_moves;
use certificates::certificate::Close;
use explanations::chain::ChainStep;
use search::trees::application::{Closing, Extension, PoolApplication, Reason};
use term_pool::pool::Pool;

// The number of bytes of all formulas that the extension adds.
fn formulas_len(pool: &Pool, lens: &[u64], extension: &Extension) -> u64
    requires { AreLengths pool.now lens.now }
    ensures { result ≡ capped (list_length (formulas_of pool.now extension.now)) }
{
    let mut total = 0;
    for number in extension.formulas.as_slice() {
        total = sum(total, formula_len(pool, lens, *number));
    }
    total
}

// The number of bytes of the first formula that the extension adds.
fn first_len(pool: &Pool, lens: &[u64], extension: &Extension) -> u64
    requires lengths { AreLengths pool.now lens.now }
    requires some { 0 < length extension.now.formulas.items }
    ensures { result ≡ capped (formula_length (first_of (formulas_of pool.now extension.now))) }
{
    formula_len(pool, lens, extension.formulas[0])
}

// The number of bytes of the left side of the first formula that the extension adds, if that is a comparison.
fn compared_len(pool: &Pool, lens: &[u64], extension: &Extension) -> u64
    requires lengths { AreLengths pool.now lens.now }
    requires some { 0 < length extension.now.formulas.items }
    ensures { result ≡ capped (compared_length (first_of (formulas_of pool.now extension.now))) }
{
    left_len(pool, lens, extension.formulas[0])
}

// The number of bytes of the move of an extension.
fn extension_len(pool: &Pool, lens: &[u64], extension: &Extension) -> u64
    requires lengths { AreLengths pool.now lens.now }
    requires fits { FitsExtension extension.now }
    ensures { result ≡ capped (move_length (move_of_extension pool.now extension.now)) }
{
    match extension.reason {
        Reason::Parts(_) | Reason::Split(_) => sum(9, formulas_len(pool, lens, extension)),
        Reason::Name(_, _) => sum(9, first_len(pool, lens, extension)),
        Reason::Instance(_, number) => {
            let term = term_len(pool, lens, number);
            sum(5, sum(term, first_len(pool, lens, extension)))
        }
        Reason::Axiom(_) => sum(5, first_len(pool, lens, extension)),
        Reason::Cut(_, _) => sum(1, first_len(pool, lens, extension)),
        Reason::Bound(_, _, _) => sum(17, compared_len(pool, lens, extension)),
    }
}

// The number of bytes of the move of an explanation step.
fn link_len(pool: &Pool, lens: &[u64], link: ChainStep) -> u64
    requires { AreLengths pool.now lens.now }
    ensures { result ≡ capped (move_length (link_move pool.now link)) }
{
    match link {
        ChainStep::Itself(number) => sum(5, formula_len(pool, lens, number)),
        ChainStep::Rewritten(rewriting) => sum(9, formula_len(pool, lens, rewriting.formula)),
    }
}

fn close_len(by: &Close) -> u64
    ensures { result ≡ capped (close_length (close_of_node by.now)) }
{
    match by {
        Close::Linear(multiples) => sum(5, (multiples.len() as u64).saturating_mul(20)),
        Close::Clash(_, _) => 9,
        Close::False(_) => 5,
    }
}

// The number of bytes of the moves of the explanation and of the closing move.
fn closing_len(pool: &Pool, lens: &[u64], closing: &Closing) -> u64
    requires { AreLengths pool.now lens.now }
    ensures { result ≡ capped (moves_length (moves_of_closing pool.now closing.now)) }
{
    let mut total = close_len(&closing.by);
    for link in closing.chain.as_slice() {
        total = sum(total, link_len(pool, lens, *link));
    }
    total
}

fn application_len(pool: &Pool, lens: &[u64], application: &PoolApplication) -> u64
    requires lengths { AreLengths pool.now lens.now }
    requires fits { FitsApplication application.now }
    ensures { result ≡ capped (moves_length (moves_of_application pool.now application.now)) }
{
    match application {
        PoolApplication::Grown(extension) => extension_len(pool, lens, extension),
        PoolApplication::Closed(closing) => closing_len(pool, lens, closing),
    }
}

/// The number of bytes of the certificate of the trace, or 2^64 - 1 if it is greater; `lens` are the lengths of the
/// pool's items. It takes time linear in the trace, and allocates no memory.
pub fn certificate_len(pool: &Pool, lens: &[u64], text: &[PoolApplication]) -> u64
    requires lengths { AreLengths pool.now lens.now }
    requires fits { FitApplications text.now }
    ensures { (applications : List Application) → AllZip (IsApplicationOf pool.now) text.now applications → IsLengthOf (all_moves applications) result }
{
    moves_by_number();
    lengths_of_moves();
    let mut total = 1;
    for application in text {
        total = sum(total, application_len(pool, lens, application));
    }
    total
}
