//! The expected effect of a formula on a branch.

/// The expected effect of adding a formula to a branch, as far as a shallow look shows.
#[derive(Clone, Copy, Debug, PartialEq, Eq)]
pub enum Outlook {
    /// The formula closes the branch at once.
    Closed,
    /// The formula is false in the last solution of the branch's rows.
    Violated,
    /// Nothing is known.
    Open,
    /// The formula is true in this solution.
    Held,
    /// The formula is already on the branch, up to congruence.
    Stands,
}

// The index of an outlook in the order from the worst to the best.
fn position(outlook: Outlook) -> u32 {
    match outlook {
        Outlook::Closed => 0,
        Outlook::Violated => 1,
        Outlook::Open => 2,
        Outlook::Held => 3,
        Outlook::Stands => 4,
    }
}

/// The outlook of the conjunction of two formulas.
pub fn both(left: Outlook, right: Outlook) -> Outlook {
    if position(left) <= position(right) {
        left
    } else {
        right
    }
}

/// The outlook of the disjunction of two formulas.
pub fn either(left: Outlook, right: Outlook) -> Outlook {
    if position(left) <= position(right) {
        right
    } else {
        left
    }
}

/// The outlook of the negation of a formula.
pub fn denied(outlook: Outlook) -> Outlook {
    match outlook {
        Outlook::Closed => Outlook::Stands,
        Outlook::Violated => Outlook::Held,
        Outlook::Open => Outlook::Open,
        Outlook::Held => Outlook::Violated,
        Outlook::Stands => Outlook::Closed,
    }
}
