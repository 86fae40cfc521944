//! Given proof traces.

use crate::bounds::bound::BoundGrounds;
use search::trees::application::{Closing, Extension};
use search::values::OpenValues;

/// The grounds on which an application may come where it is.
#[derive(Drop)]
pub enum Grounds {
    /// No grounds beside the branch.
    Nothing,
    /// Values that satisfy the rows of the branch: a late application may come there.
    Late(OpenValues),
    /// An elimination of the rows of the branch, and the values chosen after it: a bound may come there.
    Bound(BoundGrounds),
}

/// An extension, with the grounds on which it may come where it is.
#[derive(Drop)]
pub struct GivenExtension {
    pub extension: Extension,
    pub grounds: Grounds,
}

/// An application of a trace.
#[derive(Drop)]
pub enum GivenApplication {
    Grown(GivenExtension),
    Closed(Closing),
}

/// A closing of the current branch; the trace ends within its explanation.
#[derive(Drop)]
pub struct GivenChain {
    pub closing: Closing,
    /// The number of steps of the explanation that count.
    pub links: usize,
}

/// A proof trace, in depth-first order: it follows the first branch and, after a closing, continues with the next open
/// one.
#[derive(Drop)]
pub struct GivenTree {
    pub applications: Vec<GivenApplication>,
    /// The closing within whose explanation the trace ends, if it does.
    pub chain: Option<GivenChain>,
}
