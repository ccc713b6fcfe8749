//! The operands of all frames, in slots that are made ahead.

ghost use Rattle.std.specs.Prelude.{◌≡◌, ◌<◌, ◌≤◌, ◌+◌, ◌++◌, ◌∷◌, [], length, take, is_ok, OnOk, IfOk, slice_set, if◌then◌else◌, map, reverse};
ghost use Rattle.grain_value.specs.declared.values.Dynamic.TheVariants as dynamic;
ghost use Rattle.grain_value.specs.Operands.{top, below, under, rotated, read_write, arguments};
ghost use Rattle.grain_stack.specs.Filled.{operand_at};

mod arguments;

use grain_value::{Dynamic, Held, OutOfMemory};
use std::alloc::Global;
use std::marker::Model;
use std::mem;

/// Operands in slots. The operands are the slots below `height`; a slot at or above it keeps a
/// value that owns no memory, so that a number is written there without a look at what it replaces.
#[derive(Drop)]
pub struct Slots {
    slots: Vec<Held>,
    height: usize,
}

impl Model for Slots {
    ghost use Rattle.std.specs.Prelude.{◌≤◌, length};
    ghost use Rattle.grain_stack.specs.Filled.{Filled, filled};
    ghost use Rattle.std.specs.Coded.{codes};
    ghost use Rattle.grain_value.specs.laws.TreeCode.{coded_tree};

    ghost Value = { Filled };

    ghost coded = { Prim.hlevel (codes, coded_tree) };

    ghost view = { λ s. filled s.height s.slots.items };

    ghost invariant = { λ s. s.height ≤ length s.slots.items };
}

impl Slots {
    /// No operands and no slots. It takes no memory.
    pub fn new(alloc: Global) -> Slots
        ensures { result ≡ record { operands = []; slots = 0 } }
    {
        Slots {
            slots: Vec::new(alloc),
            height: 0,
        }
    }

    /// How many operands there are.
    #[inline(always)]
    pub fn len(&self) -> usize
        ensures value { result ≡ length self.now.operands }
        ensures within { result ≤ self.now.slots }
    {
        self.height
    }

    /// The operands.
    #[inline(always)]
    pub fn as_slice(&self) -> &[Held]
        ensures { result.now ≡ self.now.operands }
    {
        &self.slots[..self.height]
    }

    /// Makes slots for `more` further operands. After want of memory the operands are as they were.
    #[inline(always)]
    pub fn reserve(&mut self, more: usize) -> Result<(), OutOfMemory>
        ensures operands { self.new.operands ≡ self.old.operands }
        ensures slots { self.old.slots ≤ self.new.slots }
        ensures room { OnOk result (length self.old.operands + more ≤ self.new.slots) }
    {
        if self.slots.len() - self.height < more {
            self.make(more)?;
        }
        Ok(())
    }

    // Makes `more` further slots.
    #[cold]
    #[inline(never)]
    fn make(&mut self, more: usize) -> Result<(), OutOfMemory>
        ensures operands { self.new.operands ≡ self.old.operands }
        ensures slots { self.old.slots ≤ self.new.slots }
        ensures room { OnOk result (self.old.slots + more ≤ self.new.slots) }
    {
        'make: for _ in 0..more {
            self.slots.push(Held::read_write(Dynamic::Unit))?;
        }
        Ok(())
    }

    /// One operand more, for which there is a slot.
    #[inline(always)]
    pub fn push(&mut self, held: Held)
        requires room { length self.old.operands < self.old.slots }
        ensures { self.new ≡ record self.old { operands = self.old.operands ++ held ∷ [] } }
    {
        let place = self.height;
        self.slots[place] = held;
        self.height = place + 1;
    }

    /// One operand more, an integer, for which there is a slot. It may answer false, and then has
    /// done nothing.
    #[inline(always)]
    pub fn push_int(&mut self, integer: i64) -> bool
        requires room { length self.old.operands < self.old.slots }
        ensures { self.new ≡ (if result
            then record self.old {
              operands =
                  self.old.operands ++ read_write (dynamic.Int integer) ∷ [];
            }
            else self.old) }
    {
        let place = self.height;
        let slot = &mut self.slots[place];
        match &mut slot.value {
            Dynamic::Int(number) => *number = integer,
            other => {
                if !other.owns_no_memory() {
                    return false;
                }
                *other = Dynamic::Int(integer);
            }
        }
        slot.read_only = false;
        self.height = place + 1;
        true
    }

    // More operands, the newest first, for which there are slots.
    fn push_all(&mut self, taken: Vec<Held>)
        requires room { length self.old.operands + length taken.items ≤ self.old.slots }
        ensures { self.new ≡ record self.old {
          operands = self.old.operands ++ reverse taken.items;
        } }
    {
        let mut taken = taken;
        'push: while let Some(held) = taken.pop() {
            self.push(held);
        }
    }

    // More operands, which can be written, for which there are slots.
    fn push_values(&mut self, values: Vec<Dynamic>)
        requires room { length self.old.operands + length values.items ≤ self.old.slots }
        ensures { self.new ≡ record self.old {
          operands = self.old.operands ++ map read_write values.items;
        } }
    {
        'push: for value in values {
            self.push(Held::read_write(value));
        }
    }

    /// Takes the last `count` operands, the newest first. After want of memory the operands are as
    /// they were.
    pub fn take_off(&mut self, alloc: Global, count: usize) -> Result<Vec<Held>, OutOfMemory>
        requires there { count ≤ length self.old.operands }
        ensures taken { IfOk result
            (λ taken. taken.items ≡ reverse (arguments count self.old.operands)) }
        ensures left { self.new ≡ (if is_ok result
            then record self.old { operands = under count self.old.operands }
            else self.old) }
    {
        let mut taken = Vec::with_capacity(alloc, count)?;
        'take: for _ in 0..count {
            match taken.push(self.pop()) {
                Ok(()) => {}
                Err(_) => unreachable!(),
            }
        }
        Ok(taken)
    }

    /// Puts values, which can be written, in the place of the operand that has `depth` others above
    /// it. After want of memory the operands are as they were.
    pub fn spread(
        &mut self,
        alloc: Global,
        depth: usize,
        values: Vec<Dynamic>,
    ) -> Result<(), OutOfMemory>
        requires there { depth < length self.old.operands }
        ensures operands { self.new.operands ≡ (if is_ok result
            then under (depth + 1) self.old.operands ++ map read_write values.items
            ++ arguments depth self.old.operands
            else self.old.operands) }
        ensures slots { self.old.slots ≤ self.new.slots }
    {
        self.reserve(values.len())?;
        let above = self.take_off(alloc, depth)?;
        drop(self.pop());
        self.push_values(values);
        self.push_all(above);
        Ok(())
    }

    /// Takes the last operand.
    #[inline(always)]
    pub fn pop(&mut self) -> Held
        requires there { 0 < length self.old.operands }
        ensures value { result ≡ top self.old.operands }
        ensures rest { self.new ≡ record self.old { operands = below self.old.operands } }
    {
        self.height -= 1;
        mem::replace(
            &mut self.slots[self.height],
            Held::read_write(Dynamic::Unit),
        )
    }

    /// The last operand goes. Its memory, if it has any, is given back only once its slot is used
    /// again.
    #[inline(always)]
    pub fn drop_last(&mut self)
        requires there { 0 < length self.old.operands }
        ensures { self.new ≡ record self.old { operands = below self.old.operands } }
    {
        self.height -= 1;
    }

    /// The last operands go, as many as are said. Their memory, if they have any, is given back
    /// only once their slots are used again.
    #[inline(always)]
    pub fn drop_last_of(&mut self, count: usize)
        requires there { count ≤ length self.old.operands }
        ensures { self.new ≡ record self.old { operands = under count self.old.operands } }
    {
        self.height -= count;
    }

    /// Keeps the first `height` operands.
    #[inline(always)]
    pub fn truncate(&mut self, height: usize)
        requires there { height ≤ length self.old.operands }
        ensures { self.new ≡ record self.old { operands = take height self.old.operands } }
    {
        'drop: while self.height > height {
            self.height -= 1;
            self.slots[self.height].value.forget();
        }
    }

    /// The operand at an index.
    #[inline(always)]
    pub fn at(&self, index: usize) -> &Held
        requires there { index < length self.now.operands }
        ensures { result.now ≡ operand_at index self.now.operands }
    {
        &self.slots[index]
    }

    /// Moves the last operand below `under` others.
    pub fn rotate(&mut self, under: usize)
        requires there { under < length self.old.operands }
        ensures { self.new ≡ record self.old { operands = rotated under self.old.operands } }
    {
        let first = self.height - (under + 1);
        self.slots[first..self.height].rotate_right(1);
    }

    /// Writes an integer in the place of the last two operands.
    #[inline(always)]
    pub fn answer_int(&mut self, integer: i64)
        requires there { 2 ≤ length self.old.operands }
        ensures { self.new ≡ record self.old {
          operands =
              under 2 self.old.operands ++ read_write (dynamic.Int integer) ∷ [];
        } }
    {
        let place = self.height - 2;
        let slot = &mut self.slots[place];
        slot.value.set_int(integer);
        slot.read_only = false;
        self.height = place + 1;
    }

    /// Writes a truth value in the place of the last two operands.
    #[inline(always)]
    pub fn answer_bool(&mut self, truth: bool)
        requires there { 2 ≤ length self.old.operands }
        ensures { self.new ≡ record self.old {
          operands =
              under 2 self.old.operands ++ read_write (dynamic.Bool truth) ∷ [];
        } }
    {
        let place = self.height - 2;
        let slot = &mut self.slots[place];
        slot.value.set_bool(truth);
        slot.read_only = false;
        self.height = place + 1;
    }

    /// Writes an integer in the place of the last operand.
    #[inline(always)]
    pub fn put_int(&mut self, integer: i64)
        requires there { 0 < length self.old.operands }
        ensures { self.new ≡ record self.old {
          operands =
              below self.old.operands ++ read_write (dynamic.Int integer) ∷ [];
        } }
    {
        let last = &mut self.slots[self.height - 1];
        last.value.set_int(integer);
        last.read_only = false;
    }

    /// Writes a truth value in the place of the last operand.
    #[inline(always)]
    pub fn put_bool(&mut self, truth: bool)
        requires there { 0 < length self.old.operands }
        ensures { self.new ≡ record self.old {
          operands =
              below self.old.operands ++ read_write (dynamic.Bool truth) ∷ [];
        } }
    {
        let last = &mut self.slots[self.height - 1];
        last.value.set_bool(truth);
        last.read_only = false;
    }

    /// Makes the operand at an index one that can be written.
    #[inline(always)]
    pub fn make_read_write(&mut self, index: usize)
        requires there { index < length self.old.operands }
        ensures { self.new ≡ record self.old {
          operands = slice_set self.old.operands index
              (read_write (operand_at index self.old.operands).value);
        } }
    {
        self.slots[index].read_only = false;
    }
}
