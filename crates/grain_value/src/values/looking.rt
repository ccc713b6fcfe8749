//! What a value is, and values that are replaced.

ghost use Rattle.std.specs.Prelude.{◌≡◌, option_copied};
ghost use Rattle.grain_value.specs.Looking.{is_unit, truth_of, integer_of, character_of, text_of, cell_of, pointer_of, owns_no_memory};
ghost use Rattle.grain_value.specs.Cells.{flat};
ghost use Rattle.grain_value.specs.Operands.{left_behind};
ghost use Rattle.grain_value.specs.declared.values.Dynamic.TheVariants as dynamic;

use super::{Dynamic, FnPtr};
use crate::stores::Store;
use crate::texts::Text;
use std::mem;

impl Dynamic {
    /// Whether the value is unit.
    pub fn is_unit(&self) -> bool
        ensures { result ≡ is_unit self.now }
    {
        matches!(self, Dynamic::Unit)
    }

    /// The truth value, if the value is one.
    pub fn as_bool(&self) -> Option<bool>
        ensures { result ≡ truth_of self.now }
    {
        match self {
            Dynamic::Bool(truth) => Some(*truth),
            _ => None,
        }
    }

    /// The integer, if the value is one.
    pub fn as_int(&self) -> Option<i64>
        ensures { result ≡ integer_of self.now }
    {
        match self {
            Dynamic::Int(integer) => Some(*integer),
            _ => None,
        }
    }

    /// The character, if the value is one.
    pub fn as_char(&self) -> Option<char>
        ensures { result ≡ character_of self.now }
    {
        match self {
            Dynamic::Char(character) => Some(*character),
            _ => None,
        }
    }

    /// The text, if the value is one.
    pub fn as_text(&self) -> Option<&Text>
        ensures { option_copied result ≡ text_of self.now }
    {
        match self {
            Dynamic::Text(text) => Some(text),
            _ => None,
        }
    }

    /// The pointer to a function, if the value is one.
    pub fn as_pointer(&self) -> Option<&FnPtr>
        ensures { option_copied result ≡ pointer_of self.now }
    {
        match self {
            Dynamic::Pointer(pointer) => Some(pointer),
            _ => None,
        }
    }

    /// The number of the cell, if the value is one.
    pub fn as_cell(&self) -> Option<usize>
        ensures { result ≡ cell_of self.now }
    {
        match self {
            Dynamic::Cell(number) => Some(*number),
            _ => None,
        }
    }

    /// The value as it is read: of a cell what the cell holds, and any other value itself. There is
    /// nothing where the content of the cell is lent.
    #[inline(always)]
    pub fn flat<'v>(&'v self, cells: &'v Store) -> Option<&'v Dynamic>
        ensures { option_copied result ≡ flat cells.now self.now }
    {
        match self {
            Dynamic::Cell(cell) => cells.find(*cell),
            value => Some(value),
        }
    }

    /// Whether the value owns no memory: a unit, a truth value, an integer, a character, a range,
    /// a host's value and a cell own none.
    #[inline(always)]
    pub fn owns_no_memory(&self) -> bool
        ensures { result ≡ owns_no_memory self.now }
    {
        match self {
            Dynamic::Text(_)
            | Dynamic::Array(_)
            | Dynamic::Blob(_)
            | Dynamic::Map(_)
            | Dynamic::Pointer(_) => false,
            _ => true,
        }
    }

    /// Becomes this integer. If it is an integer already, the number alone is written.
    #[inline(always)]
    pub fn set_int(&mut self, integer: i64)
        ensures { self.new ≡ dynamic.Int integer }
    {
        match self {
            Dynamic::Int(place) => *place = integer,
            _ => *self = Dynamic::Int(integer),
        }
    }

    /// Becomes this truth value. If it is one already, the truth alone is written.
    #[inline(always)]
    pub fn set_bool(&mut self, truth: bool)
        ensures { self.new ≡ dynamic.Bool truth }
    {
        match self {
            Dynamic::Bool(place) => *place = truth,
            _ => *self = Dynamic::Bool(truth),
        }
    }

    /// Becomes unit, unless it owns no memory: then it stays.
    #[inline(always)]
    pub fn forget(&mut self)
        ensures { self.new ≡ left_behind self.old }
    {
        match self {
            Dynamic::Text(_)
            | Dynamic::Array(_)
            | Dynamic::Blob(_)
            | Dynamic::Map(_)
            | Dynamic::Pointer(_) => self.become_unit(),
            _ => {}
        }
    }

    #[cold]
    #[inline(never)]
    fn become_unit(&mut self)
        ensures { self.new ≡ dynamic.Unit }
    {
        *self = Dynamic::Unit;
    }

    /// Takes the value, and leaves unit.
    pub fn take(&mut self) -> Dynamic
        ensures value { result ≡ self.old }
        ensures rest { self.new ≡ dynamic.Unit }
    {
        mem::replace(self, Dynamic::Unit)
    }

    // How many arrays, maps and pointers stand inside one another in the value, at most.
    pub(crate) fn levels(&self) -> usize {
        match self {
            Dynamic::Array(array) => array.levels,
            Dynamic::Map(map) => map.levels,
            Dynamic::Pointer(FnPtr { name: _, curry }) => curry.levels,
            _ => 0,
        }
    }
}
