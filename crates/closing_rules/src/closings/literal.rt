//! The closing by a clash that does not need congruence has no explanation.

ghost use Rattle.std.specs.Prelude.{◌≤◌, List, length};
ghost use Rattle.fol.specs.declared.shapes.Shape.{Shape};
ghost use Rattle.certificates.specs.CertView.{close_of_node};
ghost use Rattle.certificates.specs.Closes.{most_entries, IsClose};
ghost use Rattle.certificates.specs.BranchesBranch.{formulas};
ghost use Rattle.tableau.specs.PoolBranches.{branch_in};
ghost use Rattle.search.specs.Decisions.{IsClosingDue};
ghost use Rattle.closing_rules.specs.Literal.{IsLiteralClash};

use crate::clashes::clash::Clash;
use certificates::certificate::Close;
use search::trees::application::Closing;
use std::alloc::Global;
use tableau::branch::PoolBranch;
use term_pool::pool::Pool;

// The closing rule for a clash that does not need congruence.
fn close_of(pool: &Pool, branch: &PoolBranch, clash: Clash) -> Close
    requires clash { IsLiteralClash (branch_in pool.now branch.now) clash }
    requires short { length branch.now.entries ≤ most_entries }
    ensures { IsClose (formulas (branch_in pool.now branch.now)) (close_of_node result) }
{
    match clash {
        Clash::Opposed(said, denied) => Close::Clash(said as u32, denied as u32),
        Clash::Differing(entry) => Close::False(entry as u32),
        Clash::False(entry) => Close::False(entry as u32),
    }
}

/// The closing of a branch by a clash that does not need congruence.
pub fn literal_closing(alloc: Global, pool: &Pool, branch: &PoolBranch, clash: Clash) -> Closing
    requires clash { IsLiteralClash (branch_in pool.now branch.now) clash }
    requires short { length branch.now.entries ≤ most_entries }
    ensures { (shapes : List Shape) → IsClosingDue shapes pool.now (branch_in pool.now branch.now) result }
{
    Closing {
        chain: Vec::new(alloc),
        by: close_of(pool, branch, clash),
    }
}
