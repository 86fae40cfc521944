//! Contexts: head symbols with a hole, and the item that results when the hole is filled.

ghost use Rattle.std.specs.Prelude.{◌≡◌, ◌<◌, length, IfOk};
ghost use Rattle.term_pool.specs.Items.{sort_of};
ghost use Rattle.term_pool.specs.Pools.{item_at, IsItem, Extends};
ghost use Rattle.explanations.specs.Frames.{node_with, filled, IsWay};

use base::memory::NoMemory;
use term_pool::node::{Node, One, Three, Two};
use term_pool::pool::Pool;

/// A head symbol with a hole for one of its parts, and the numbers of the other parts.
#[derive(Clone, Copy)]
pub enum Frame {
    Only(One),
    FirstOfTwo(Two, usize),
    SecondOfTwo(Two, usize),
    FirstOfThree(Three, usize, usize),
    SecondOfThree(Three, usize, usize),
    ThirdOfThree(Three, usize, usize),
}

// The node with this part in the hole.
fn node_with(frame: Frame, part: usize) -> Node
    ensures { result ≡ node_with frame part }
{
    match frame {
        Frame::Only(head) => Node::One(head, part),
        Frame::FirstOfTwo(head, b) => Node::Two(head, part, b),
        Frame::SecondOfTwo(head, a) => Node::Two(head, a, part),
        Frame::FirstOfThree(head, b, c) => Node::Three(head, part, b, c),
        Frame::SecondOfThree(head, a, c) => Node::Three(head, a, part, c),
        Frame::ThirdOfThree(head, a, b) => Node::Three(head, a, b, part),
    }
}

/// Returns the number of the formula of this context with this part in its hole. The outermost frame comes first.
pub fn fill(pool: &mut Pool, way: &[Frame], part: usize) -> Result<usize, NoMemory>
    requires part { part < length pool.old }
    requires way { IsWay pool.old way.now (sort_of (item_at pool.old part)) }
    ensures extends { Extends pool.old pool.new }
    ensures is { IfOk result (λ number. IsItem pool.new number (filled pool.old way.now (item_at pool.old part))) }
{
    let mut number = part;
    let mut rest = way.len();
    while rest > 0 {
        rest -= 1;
        number = pool.insert(node_with(way[rest], number))?;
    }
    Ok(number)
}
