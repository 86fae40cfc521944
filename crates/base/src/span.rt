//! Spans of source files.

/// The bytes of a file from `start` on and before `end`. Files are counted from 0 in the order of the words that name
/// them, bytes from 0 in their file.
#[derive(Clone, Copy, Debug, PartialEq, Eq)]
pub struct Span {
    pub file: u32,
    pub start: u32,
    pub end: u32,
}
