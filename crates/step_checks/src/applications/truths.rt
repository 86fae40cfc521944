//! Truth values, and comparisons of numbers.

ghost use Rattle.std.specs.Prelude.{◌≡◌, ◌↔◌, IsTrue};

// Decides whether the truth value is false.
pub(crate) fn is_false(known: bool) -> bool
    ensures { IsTrue result ↔ (IsTrue known → ⊥) }
{
    !known
}

// Decides whether all truth values are true.
pub(crate) fn are_all(one: bool, two: bool, three: bool, four: bool) -> bool
    ensures { IsTrue result ↔ (IsTrue one × IsTrue two × IsTrue three × IsTrue four) }
{
    if !one {
        return false;
    }
    if !two {
        return false;
    }
    if !three {
        return false;
    }
    four
}

// Decides whether two numbers are equal.
pub(crate) fn is_same(left: u64, right: u64) -> bool
    ensures { IsTrue result ↔ (left ≡ right) }
{
    left == right
}

// Decides whether two lists of numbers are equal.
pub(crate) fn are_same(left: &[usize], right: &[usize]) -> bool
    ensures { IsTrue result ↔ (left.now ≡ right.now) }
{
    left == right
}
