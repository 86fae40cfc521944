//! The steps that extend a branch, by number.

use search::trees::application::Extension;

/// An extension of a branch, and the number of the branch to continue with among those it leaves: 0 if there is only
/// one.
#[derive(Drop)]
pub struct GrownStep {
    pub extension: Extension,
    pub case: usize,
}
