//! The blocks in which instructions stand.

/// A block of code: the main one, or a function by its number, from 0 on.
#[derive(Clone, Copy, Debug, PartialEq, Eq)]
pub enum Block {
    Main,
    Function(usize),
}
