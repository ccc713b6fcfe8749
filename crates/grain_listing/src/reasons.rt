//! Which line makes a listing none, and why.

use grain_literals::Reason;

/// A line that makes a listing none, and why. Lines are counted from 1; the line of a listing that
/// is too long is 0.
#[derive(Clone, Copy, Debug, PartialEq, Eq)]
pub struct BadLine {
    pub line: usize,
    pub reason: Reason,
}
