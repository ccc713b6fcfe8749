//! The handlers of the innermost frame.

ghost use Rattle.std.specs.Borrow.{sem};
ghost use Rattle.std.specs.Prelude.{◌≡◌, ◌<◌, ◌≤◌, ◌-◌, drop, Some, ◌∷◌, length, is_ok, if◌then◌else◌};
ghost use Rattle.std.specs.Option.{option_copied};
ghost use Rattle.grain_stack.specs.Entries.{first_of};
ghost use Rattle.grain_stack.specs.Lending.{LendsHandler};

use super::Stacks;
use crate::handlers::Handler;
use grain_value::OutOfMemory;

impl Stacks {
    /// One handler more, the innermost of the frame. After want of memory the stacks are as they
    /// were.
    pub fn push_handler(&mut self, handler: Handler) -> Result<(), OutOfMemory>
        ensures { self.new ≡ (if is_ok result
            then record self.old { handlers = handler ∷ self.old.handlers }
            else self.old) }
    {
        let depth = self.outer.len();
        self.handlers.push(depth, handler)?;
        Ok(())
    }

    /// Takes the frame's innermost handler.
    pub fn pop_handler(&mut self) -> Handler
        requires there { 0 < length self.old.handlers }
        ensures { self.old ≡ record self.new {
          handlers =
              result ∷ self.new.handlers;
        } }
    {
        self.handlers.pop()
    }

    /// The frame's innermost handler, if it has one.
    pub fn innermost_handler(&self) -> Option<&Handler>
        ensures { option_copied result ≡ first_of self.now.handlers }
    {
        let depth = self.outer.len();
        self.handlers.innermost(depth)
    }

    /// How many handlers the frame has. It looks at one of another frame at most.
    pub fn handlers(&self) -> usize
        ensures { result ≡ length self.now.handlers }
    {
        let depth = self.outer.len();
        self.handlers.count(depth)
    }

    /// The frame's innermost handler, to be changed.
    pub fn handler_mut(&mut self) -> &mut Handler
        requires there { 0 < length self.old.handlers }
        ensures* writes_back { sem 𝓛 (LendsHandler self.entry result) }
        ensures value { Some result.now ≡ first_of self.old.handlers }
    {
        self.handlers.newest_mut()
    }

    /// Keeps the first `count` of the frame's handlers, those that were pushed first.
    pub fn cut_handlers(&mut self, count: usize)
        requires there { count ≤ length self.old.handlers }
        ensures { self.new ≡ record self.old {
          handlers =
              drop (length self.old.handlers - count) self.old.handlers;
        } }
    {
        let depth = self.outer.len();
        self.handlers.cut(depth, count);
    }
}
