//! The certificate of a proof trace.

ghost use Rattle.std.specs.Prelude.{◌≡◌, List, IfOk};
ghost use Rattle.std.specs.List.{AllZip};
ghost use Rattle.fol.specs.declared.shapes.Shape.{Shape};
ghost use Rattle.fol.specs.FormulaData.{FormulaData};
ghost use Rattle.certificates.specs.Closes.{Certifies};
ghost use Rattle.certificates.specs.Moves.{all_moves};
ghost use Rattle.certificates.specs.ProofTraces.{Application, IsProof};
ghost use Rattle.search.specs.Applications.{IsApplicationOf};
ghost use Rattle.certificate_text.specs.Moves.{FitApplications};

use crate::trees::laws::moves_by_number;
use crate::trees::moves::add_moves;
use base::memory::NoMemory;
use certificates::branches::laws::proofs_are_certified;
use certificates::certificate::Cert;
use search::trees::application::PoolApplication;
use std::alloc::Global;
use term_pool::pool::Pool;

/// Returns the moves of a trace. If its rule applications are due in a search and leave no branch open, the moves are
/// a certificate of the formula of the search.
///
/// # Errors
///
/// Only if memory ran out.
pub fn certificate(alloc: Global, pool: &Pool, text: &[PoolApplication]) -> Result<Cert, NoMemory>
    requires { FitApplications text.now }
    ensures moves { (applications : List Application) → AllZip (IsApplicationOf pool.now) text.now applications → IfOk result (λ cert. cert ≡ all_moves applications) }
    ensures certifies { (shapes : List Shape) (p : FormulaData) (applications : List Application) → AllZip (IsApplicationOf pool.now) text.now applications → IsProof shapes p applications → IfOk result (λ cert. Certifies shapes cert p) }
{
    moves_by_number();
    proofs_are_certified();
    let mut moves = Vec::new(alloc);
    for application in text {
        add_moves(&mut moves, alloc, pool, application)?;
    }
    Ok(Cert { moves })
}
