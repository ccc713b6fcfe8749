//! The cursors of the innermost frame.

ghost use Rattle.std.specs.Borrow.{sem};
ghost use Rattle.std.specs.Prelude.{◌≡◌, ◌<◌, ◌≤◌, ◌-◌, drop, Some, ◌∷◌, length, is_ok, if◌then◌else◌};
ghost use Rattle.std.specs.Option.{option_copied};
ghost use Rattle.grain_stack.specs.Entries.{first_of};
ghost use Rattle.grain_stack.specs.Lending.{LendsCursor};

use super::Stacks;
use crate::cursors::Cursor;
use grain_value::OutOfMemory;

impl Stacks {
    /// One cursor more, the innermost of the frame. After want of memory the stacks are as they
    /// were.
    pub fn push_cursor(&mut self, cursor: Cursor) -> Result<(), OutOfMemory>
        ensures { self.new ≡ (if is_ok result
            then record self.old { cursors = cursor ∷ self.old.cursors }
            else self.old) }
    {
        let depth = self.outer.len();
        self.cursors.push(depth, cursor)?;
        Ok(())
    }

    /// Takes the frame's innermost cursor.
    pub fn pop_cursor(&mut self) -> Cursor
        requires there { 0 < length self.old.cursors }
        ensures { self.old ≡ record self.new {
          cursors =
              result ∷ self.new.cursors;
        } }
    {
        self.cursors.pop()
    }

    /// How many cursors the frame has. It looks at one of another frame at most.
    pub fn cursors(&self) -> usize
        ensures { result ≡ length self.now.cursors }
    {
        let depth = self.outer.len();
        self.cursors.count(depth)
    }

    /// The frame's innermost cursor, if it has one.
    #[inline(always)]
    pub fn innermost_cursor(&self) -> Option<&Cursor>
        ensures { option_copied result ≡ first_of self.now.cursors }
    {
        let depth = self.outer.len();
        self.cursors.innermost(depth)
    }

    /// The frame's innermost cursor, to be changed.
    #[inline(always)]
    pub fn cursor_mut(&mut self) -> &mut Cursor
        requires there { 0 < length self.old.cursors }
        ensures* writes_back { sem 𝓛 (LendsCursor self.entry result) }
        ensures value { Some result.now ≡ first_of self.old.cursors }
    {
        self.cursors.newest_mut()
    }

    /// Keeps the first `count` of the frame's cursors, those that were pushed first.
    pub fn cut_cursors(&mut self, count: usize)
        requires there { count ≤ length self.old.cursors }
        ensures { self.new ≡ record self.old {
          cursors =
              drop (length self.old.cursors - count) self.old.cursors;
        } }
    {
        let depth = self.outer.len();
        self.cursors.cut(depth, count);
    }
}
