//! The operands of the innermost frame.

ghost use Rattle.std.specs.Prelude.{◌≡◌, ◌<◌, ◌≤◌, ◌+◌, ◌++◌, ◌∷◌, [], length, take, is_ok, if◌then◌else◌, OnOk, OnErr, IfOk, map, reverse};
ghost use Rattle.grain_value.specs.Operands.{top, below, under, rotated, read_write, arguments};
ghost use Rattle.grain_value.specs.declared.values.Dynamic.TheVariants as dynamic;

use super::Stacks;
use grain_value::{Dynamic, Held, OutOfMemory};
use std::alloc::Global;

impl Stacks {
    /// How many operands the frame has.
    #[inline(always)]
    pub fn height(&self) -> usize
        ensures { result ≡ length self.now.operands }
    {
        self.slots.len() - self.bottom
    }

    /// The frame's operands, the newest last.
    #[inline(always)]
    pub fn frame_operands(&self) -> &[Held]
        ensures { result.now ≡ self.now.operands }
    {
        &self.slots.as_slice()[self.bottom..]
    }

    /// One operand more, for which the frame has room.
    #[inline(always)]
    pub fn push(&mut self, held: Held)
        requires room { length self.old.operands < self.old.room }
        ensures { self.new ≡ record self.old { operands = self.old.operands ++ held ∷ [] } }
    {
        self.slots.push(held);
    }

    /// One operand more, an integer, for which the frame has room. It may answer false, and then
    /// has done nothing.
    #[inline(always)]
    pub fn push_int(&mut self, integer: i64) -> bool
        requires room { length self.old.operands < self.old.room }
        ensures { self.new ≡ (if result
            then record self.old {
              operands =
                  self.old.operands ++ read_write (dynamic.Int integer) ∷ [];
            }
            else self.old) }
    {
        self.slots.push_int(integer)
    }

    /// One operand more, a copy of a value that may be written, for which the frame has room. After
    /// want of memory the stacks are as they were.
    pub fn push_copy(&mut self, alloc: Global, value: &Dynamic) -> Result<(), OutOfMemory>
        requires room { length self.old.operands < self.old.room }
        ensures { self.new ≡ (if is_ok result
            then record self.old { operands = self.old.operands ++ read_write value.now ∷ [] }
            else self.old) }
    {
        let copy = value.copy(alloc)?;
        self.push(Held::read_write(copy));
        Ok(())
    }

    /// Takes the last operand.
    #[inline(always)]
    pub fn pop(&mut self) -> Held
        requires there { 0 < length self.old.operands }
        ensures value { result ≡ top self.old.operands }
        ensures rest { self.new ≡ record self.old { operands = below self.old.operands } }
    {
        self.slots.pop()
    }

    /// The last operand goes. Its memory, if it has any, is given back only once its slot is used
    /// again, so this is for values that have none.
    #[inline(always)]
    pub fn drop_top(&mut self)
        requires there { 0 < length self.old.operands }
        ensures { self.new ≡ record self.old { operands = below self.old.operands } }
    {
        self.slots.drop_last();
    }

    /// The last operand.
    #[inline(always)]
    pub fn top(&self) -> &Held
        requires there { 0 < length self.now.operands }
        ensures { result.now ≡ top self.now.operands }
    {
        self.slots.at(self.slots.len() - 1)
    }

    /// The operand that has `depth` others above it.
    #[inline(always)]
    pub fn peek(&self, depth: usize) -> &Held
        requires there { depth < length self.now.operands }
        ensures { result.now ≡ top (under depth self.now.operands) }
    {
        self.slots.at(self.slots.len() - 1 - depth)
    }

    /// Moves the last operand below `under` others.
    pub fn rotate(&mut self, under: usize)
        requires there { under < length self.old.operands }
        ensures { self.new ≡ record self.old { operands = rotated under self.old.operands } }
    {
        self.slots.rotate(under);
    }

    /// Keeps the first `height` operands.
    pub fn cut(&mut self, height: usize)
        requires there { height ≤ length self.old.operands }
        ensures { self.new ≡ record self.old { operands = take height self.old.operands } }
    {
        let length = self.slots.len();
        prove!(self.bottom <= length && height <= length - self.bottom);
        self.slots.truncate(self.bottom + height);
    }

    /// Takes the last `count` operands, the newest first. After want of memory the stacks are as they
    /// were.
    pub fn take_off(&mut self, alloc: Global, count: usize) -> Result<Vec<Held>, OutOfMemory>
        requires there { count ≤ length self.old.operands }
        ensures taken { IfOk result
            (λ taken. taken.items ≡ reverse (arguments count self.old.operands)) }
        ensures left { self.new ≡ (if is_ok result
            then record self.old { operands = under count self.old.operands }
            else self.old) }
    {
        self.slots.take_off(alloc, count)
    }

    /// Puts values, which can be written, in the place of the operand that has `depth` others above
    /// it. The frame may then have more operands than room for them. After want of memory the
    /// stacks are as they were.
    pub fn spread(
        &mut self,
        alloc: Global,
        depth: usize,
        values: Vec<Dynamic>,
    ) -> Result<(), OutOfMemory>
        requires there { depth < length self.old.operands }
        ensures operands { OnOk result (self.new.operands ≡ under (depth + 1) self.old.operands
            ++ map read_write values.items ++ arguments depth self.old.operands) }
        ensures others { self.new ≡ record self.old { operands = self.new.operands } }
        ensures refused { OnErr result (self.new ≡ self.old) }
    {
        self.slots.spread(alloc, depth, values)
    }

    /// Writes an integer in the place of the last two operands.
    #[inline(always)]
    pub fn answer_int(&mut self, integer: i64)
        requires there { 2 ≤ length self.old.operands }
        ensures { self.new ≡ record self.old {
          operands =
              under 2 self.old.operands ++ read_write (dynamic.Int integer) ∷ [];
        } }
    {
        self.slots.answer_int(integer);
    }

    /// Writes a truth value in the place of the last two operands.
    #[inline(always)]
    pub fn answer_bool(&mut self, truth: bool)
        requires there { 2 ≤ length self.old.operands }
        ensures { self.new ≡ record self.old {
          operands =
              under 2 self.old.operands ++ read_write (dynamic.Bool truth) ∷ [];
        } }
    {
        self.slots.answer_bool(truth);
    }

    /// Writes an integer in the place of the last operand.
    #[inline(always)]
    pub fn put_int(&mut self, integer: i64)
        requires there { 0 < length self.old.operands }
        ensures { self.new ≡ record self.old {
          operands =
              below self.old.operands ++ read_write (dynamic.Int integer) ∷ [];
        } }
    {
        self.slots.put_int(integer);
    }

    /// Writes a truth value in the place of the last operand.
    #[inline(always)]
    pub fn put_bool(&mut self, truth: bool)
        requires there { 0 < length self.old.operands }
        ensures { self.new ≡ record self.old {
          operands =
              below self.old.operands ++ read_write (dynamic.Bool truth) ∷ [];
        } }
    {
        self.slots.put_bool(truth);
    }
}
