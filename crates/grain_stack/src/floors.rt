//! The floors of the frames that wait for the frames that they called.

ghost use Rattle.std.specs.Prelude.{◌≡◌, ◌<◌, ◌-◌, ◌++◌, ◌∷◌, [], length, take, is_ok, if◌then◌else◌};

use grain_value::OutOfMemory;
use std::alloc::Global;
use std::marker::Model;

/// Where a frame's operands begin, how many it may have, and whether it has noted a fault.
#[derive(Clone, Copy)]
pub struct Floor {
    pub bottom: usize,
    pub room: usize,
    pub noted: bool,
}

/// The floors of the frames that wait, the newest last. After them lie floors that were taken off,
/// whose places the next ones take.
#[derive(Drop)]
pub struct Floors {
    floors: Vec<Floor>,
    height: usize,
}

impl Model for Floors {
    ghost use Rattle.std.specs.Prelude.{List, ◌≤◌, length, take};
    ghost use Rattle.grain_stack.specs.declared.floors.Floor.{Floor};

    ghost Value = { List Floor };

    ghost view = { λ s. take s.height s.floors.items };

    ghost invariant = { λ s. s.height ≤ length s.floors.items };
}

impl Floors {
    /// No floors. It takes no memory.
    pub fn new(alloc: Global) -> Floors
        ensures { result ≡ [] }
    {
        Floors {
            floors: Vec::new(alloc),
            height: 0,
        }
    }

    /// How many floors there are, which is less than `usize::MAX`.
    #[inline(always)]
    pub fn len(&self) -> usize
        ensures value { result ≡ length self.now }
        ensures bounded { result < 18446744073709551615 }
    {
        // a vector is never that long, so its length bounds the height
        let _places = self.floors.len();
        self.height
    }

    /// One floor more. After want of memory they are as they were.
    #[inline(always)]
    pub fn push(&mut self, floor: Floor) -> Result<(), OutOfMemory>
        ensures { self.new ≡ (if is_ok result then self.old ++ floor ∷ [] else self.old) }
    {
        if self.height == self.floors.len() {
            return self.grow(floor.bottom, floor.room, floor.noted);
        }
        let place = &mut self.floors[self.height];
        place.bottom = floor.bottom;
        place.room = floor.room;
        place.noted = floor.noted;
        self.height += 1;
        Ok(())
    }

    // The same where there is no place that was left.
    #[cold]
    #[inline(never)]
    fn grow(&mut self, bottom: usize, room: usize, noted: bool) -> Result<(), OutOfMemory>
        ensures { self.new ≡ (if is_ok result
            then self.old ++ record { bottom = bottom; room = room; noted = noted } ∷ []
            else self.old) }
    {
        self.floors.truncate(self.height);
        self.floors.push(Floor {
            bottom,
            room,
            noted,
        })?;
        self.height += 1;
        Ok(())
    }

    /// Takes the newest floor.
    #[inline(always)]
    pub fn pop(&mut self) -> Floor
        requires there { 0 < length self.old }
        ensures rest { self.new ≡ take (length self.old - 1) self.old }
        ensures last { self.old ≡ self.new ++ result ∷ [] }
    {
        self.height -= 1;
        self.floors[self.height]
    }
}
