//! Marks: the entries of a branch before which nothing is due, so that a search does not revisit them.

ghost use Rattle.std.specs.Prelude.{◌≡◌};
ghost use Rattle.tableau.specs.States.{no_marks, last_of};

/// Numbers of entries before which no rule of a kind is due.
#[derive(Clone, Copy)]
pub struct Marks {
    /// No parts are due before this entry.
    pub parts: usize,
    /// No name is due before this entry.
    pub names: usize,
    /// No split of an instance of the range axiom is due before this entry.
    pub ranges: usize,
}

// The marks of a branch of which nothing is known.
fn first_marks() -> Marks
    ensures { result ≡ no_marks }
{
    Marks {
        parts: 0,
        names: 0,
        ranges: 0,
    }
}

/// The last marks; if there are none, those of a branch of which nothing is known.
pub(crate) fn last_marks(marks: &[Marks]) -> Marks
    ensures { result ≡ last_of marks.now }
{
    match marks.last() {
        Some(last) => *last,
        None => first_marks(),
    }
}
