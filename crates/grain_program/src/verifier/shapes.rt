//! What the verifier knows of the frame at an address.

ghost use Rattle.std.specs.Prelude.{◌≡◌, ◌<◌, ◌≤◌, ◌^◌, length, IfOk, Some, None, replicate, slice_set};
ghost use Rattle.grain_program.specs.Numbered.{numbered_at};

use crate::code::effects::{Effect, Looping};
use grain_value::OutOfMemory;
use std::alloc::Global;
use std::marker::Model;

/// How many operands and how many cursors there are, and the number of the list of handlers.
#[derive(Clone, Copy, Debug, PartialEq, Eq)]
pub struct NumberedShape {
    pub height: u32,
    pub cursors: u32,
    pub list: u32,
}

impl NumberedShape {
    ghost use Rattle.std.specs.Prelude.{List};
    ghost use Rattle.grain_program.specs.Shapes.{TryHandler, at_target};
    ghost use Rattle.grain_program.specs.Numbered.{shape_of};

    /// The shape with which an instruction of this effect comes to its target that leaves this one
    /// where it goes on.
    pub fn at_target(self, effect: Effect) -> NumberedShape
        ensures exact { (lists : List (List TryHandler)) →
            shape_of lists result ≡ at_target effect (shape_of lists self) }
        ensures lower { result.height ≤ self.height }
        ensures same { result.list ≡ self.list }
    {
        match effect.looping {
            Looping::Keep | Looping::Begin | Looping::Leave => self,
            Looping::Advance => NumberedShape {
                height: self.height.saturating_sub(effect.gives),
                cursors: self.cursors.saturating_sub(1),
                list: self.list,
            },
        }
    }
}

/// The place of an address in the table: the height and one, the number of cursors, and the number of
/// the list, where a shape is known, and else zeros.
#[derive(Clone, Copy, Debug, PartialEq, Eq)]
pub struct Cell {
    pub height: u32,
    pub cursors: u32,
    pub list: u32,
}

/// Shapes by address, as far as they are known.
#[derive(Drop)]
pub struct Shapes {
    cells: Vec<Cell>,
}

impl Model for Shapes {
    ghost use Rattle.std.specs.Prelude.{List, Option, map};
    ghost use Rattle.grain_program.specs.declared.verifier.shapes.NumberedShape.{NumberedShape};
    ghost use Rattle.grain_program.specs.Numbered.{shape_in};

    ghost Value = { List (Option NumberedShape) };

    ghost view = { λ s. map shape_in s.cells.items };
}

impl Shapes {
    /// A table of len addresses, with no shape.
    pub fn new(alloc: Global, len: usize) -> Result<Shapes, OutOfMemory>
        ensures { IfOk result (λ shapes. shapes ≡ replicate len None) }
    {
        let unknown = Cell {
            height: 0,
            cursors: 0,
            list: 0,
        };
        let cells = vec![in alloc; unknown; len]?;
        Ok(Shapes { cells })
    }

    /// The shape at the address, where it is known.
    pub fn get(&self, address: usize) -> Option<NumberedShape>
        ensures { result ≡ numbered_at self.now address }
    {
        match self.cells.get(address) {
            Some(cell) => {
                if cell.height == 0 {
                    None
                } else {
                    Some(NumberedShape {
                        height: cell.height - 1,
                        cursors: cell.cursors,
                        list: cell.list,
                    })
                }
            }
            None => None,
        }
    }

    /// Notes the shape at the address.
    pub fn put(&mut self, address: usize, shape: NumberedShape)
        requires within { address < length self.old }
        requires small { shape.height < 2 ^ 16 }
        ensures { self.new ≡ slice_set self.old address (Some shape) }
    {
        self.cells[address] = Cell {
            height: shape.height + 1,
            cursors: shape.cursors,
            list: shape.list,
        };
    }
}
