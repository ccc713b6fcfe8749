//! Cursors over ranges, which are advanced in place.

ghost use Rattle.std.specs.Prelude.{IfSome};
ghost use Rattle.grain_stack.specs.Ranges.{HasNext, Passes};

use crate::cursors::{Cursor, Left};

impl Cursor {
    /// The integer that comes first, where a range is left of which it is not the last, and one more
    /// can be counted. It says nothing of other cursors.
    #[inline(always)]
    pub fn next_integer(&self) -> Option<i64>
        ensures { IfSome result (λ z. HasNext self.now z) }
    {
        match &self.left {
            Left::Range { from, to, .. } => {
                if *from < *to && self.counter < i64::MAX {
                    Some(*from)
                } else {
                    None
                }
            }
            _ => None,
        }
    }

    /// The integer that comes first is no longer left, and is counted.
    #[inline(always)]
    pub fn pass(&mut self, first: i64)
        requires { HasNext self.old first }
        ensures { Passes self.old first self.new }
    {
        match &mut self.left {
            Left::Range { from, .. } => *from = first + 1,
            _ => unreachable!(),
        }
        self.counter += 1;
    }
}
