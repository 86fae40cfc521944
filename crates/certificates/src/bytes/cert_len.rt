//! The lengths of a formula and a certificate in bytes, computed without allocation.

ghost use Rattle.std.specs.Prelude.{◌≡◌, length};
ghost use Rattle.certificates.specs.FormulaBytes.{term_bytes, formula_bytes};
ghost use Rattle.certificates.specs.Lengths.{capped, IsLengthOf};

use crate::bytes::lengths::{self, sum};
use crate::bytes::moves::moves_len;
use crate::certificate::Cert;
use fol::formula::{Formula, Term};

/// The number of bytes of the certificate, or 2^64 - 1 if it is greater: those of the tree of steps with these moves.
/// If the moves are not those of a tree, the number is arbitrary.
#[tactic(auto, using(crate::proofs::LengthLaws::is_length))]
pub fn cert_len(cert: &Cert) -> u64
    ensures { IsLengthOf cert.now result }
{
    sum(1, moves_len(cert.moves.as_slice()))
}

/// The number of bytes of the formula, or 2^64 - 1 if it is greater.
#[tactic(auto, using(crate::proofs::LengthLaws::formula_long))]
pub fn formula_len(formula: &Formula) -> u64
    ensures { result ≡ capped (length (formula_bytes formula.now)) }
{
    lengths::formula_len(formula)
}

/// The number of bytes of the term, or 2^64 - 1 if it is greater.
#[tactic(auto, using(crate::proofs::LengthLaws::term_long))]
pub fn term_len(term: &Term) -> u64
    ensures { result ≡ capped (length (term_bytes term.now)) }
{
    lengths::term_len(term)
}
