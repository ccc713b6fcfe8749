//! Positions in a script's source.

ghost use Rattle.std.specs.Prelude.{◌≡◌, ◌<◌};
ghost use Rattle.grain_fault.specs.Places.{line_of, column_of, is_nowhere, place_at};

/// A line and a column of a script's source, or none. Lines count from 1; column 0 is the start of
/// a line.
#[derive(Clone, Copy, Debug, PartialEq, Eq)]
pub struct Position {
    line: u16,
    column: u16,
}

impl Position {
    /// No position.
    pub const NONE: Position = Position { line: 0, column: 0 };

    /// The position of a line, at least 1, and a column.
    pub fn new(line: u16, position: u16) -> Position
        requires { 0 < line }
        ensures { result ≡ place_at line position }
    {
        Position {
            line,
            column: position,
        }
    }

    /// Whether there is no position.
    pub fn is_none(&self) -> bool
        ensures { result ≡ is_nowhere self.now }
    {
        self.line == 0
    }

    /// The line, if there is a position.
    pub fn line(&self) -> Option<usize>
        ensures { result ≡ line_of self.now }
    {
        if self.line == 0 {
            None
        } else {
            Some(self.line as usize)
        }
    }

    /// The column, if there is a position and it is not the start of a line.
    pub fn position(&self) -> Option<usize>
        ensures { result ≡ column_of self.now }
    {
        if self.line == 0 || self.column == 0 {
            None
        } else {
            Some(self.column as usize)
        }
    }
}
