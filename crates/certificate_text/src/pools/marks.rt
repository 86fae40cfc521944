//! Marks on the nodes of a pool.

ghost use Rattle.std.specs.Prelude.{◌≡◌, ◌<◌, ◌∷◌, [], ℕ, List, length};
ghost use Rattle.std.specs.List.{Contains};
ghost use Rattle.certificate_text.specs.Marks.{parts_of, parts_at, IsMarked, MarksAlso, IsNeeded, AreInside};

use term_pool::node::Node;
use term_pool::pool::Pool;

/// Marks the number, if it is within the marks.
pub(crate) fn mark(marks: &mut [bool], number: usize)
    ensures { MarksAlso marks.old marks.new (number ∷ []) }
{
    if number < marks.len() {
        marks[number] = true;
    }
}

/// Marks the numbers that are within the marks.
pub(crate) fn mark_all(marks: &mut [bool], numbers: &[usize])
    ensures { MarksAlso marks.old marks.new numbers.now }
{
    for number in numbers {
        mark(marks, *number);
    }
}

fn mark_parts(marks: &mut [bool], node: Node)
    ensures { MarksAlso marks.old marks.new (parts_of node) }
{
    match node {
        Node::Leaf(_) => {}
        Node::One(_, a) => mark(marks, a),
        Node::Two(_, a, b) => {
            mark(marks, a);
            mark(marks, b);
        }
        Node::Three(_, a, b, c) => {
            mark(marks, a);
            mark(marks, b);
            mark(marks, c);
        }
    }
}

// Marks the parts of the node with this number.
fn mark_parts_at(marks: &mut [bool], pool: &Pool, number: usize)
    ensures marks { MarksAlso marks.old marks.new (parts_at pool.now number) }
    ensures earlier { (a : ℕ) → Contains (parts_at pool.now number) a → a < number }
{
    if let Some(node) = pool.node(number) {
        mark_parts(marks, node);
    }
}

/// Marks the parts of the marked nodes. A part has a smaller number, so one descending pass finds them all.
pub(crate) fn mark_inside(marks: &mut [bool], pool: &Pool)
    requires len { length marks.old ≡ length pool.now }
    ensures len { length marks.new ≡ length marks.old }
    ensures kept { (i : ℕ) → IsMarked marks.old i → IsMarked marks.new i }
    ensures inside { AreInside pool.now 0 marks.new }
    ensures needed { (names : List ℕ) → ((i : ℕ) → IsMarked marks.old i → IsNeeded pool.now names i) → (i : ℕ) → IsMarked marks.new i → IsNeeded pool.now names i }
{
    let mut rest = marks.len();
    while rest > 0 {
        rest -= 1;
        if marks[rest] {
            mark_parts_at(marks, pool, rest);
        }
    }
}
