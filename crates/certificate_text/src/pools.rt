//! The pool of the nodes that a proof trace needs, with the numbers of the trace renumbered.

pub(crate) mod applications;
pub mod compact;
pub(crate) mod marks;
pub(crate) mod needs;
pub(crate) mod nodes;
