//! The types of values.

ghost use Rattle.std.specs.Prelude.{◌≡◌, IfOk};
ghost use Rattle.grain_value.specs.Cells.{seen};
ghost use Rattle.grain_value.specs.Writing.{kind_of, type_name_of, foreign_name};

use super::Dynamic;
use crate::memory::OutOfMemory;
use crate::stores::Store;
use crate::texts::Text;
use std::alloc::Global;

impl Dynamic {
    /// The number of the value's kind: 0 unit, 1 bool, 2 integer, 3 character, 4 text, 5 array,
    /// 6 blob, 7 map, 8 pointer, 9 range, and that of a host's value, which is 16 or more. A cell
    /// has the kind of its content, which has to be there; while it is lent unit stands for it.
    pub fn kind(&self, cells: &Store) -> u32
        ensures { result ≡ kind_of (seen cells.now self.now) }
    {
        match self {
            Dynamic::Cell(cell) => match cells.standing(*cell) {
                Some(content) => content.own_kind(),
                None => 0,
            },
            value => value.own_kind(),
        }
    }

    /// The same of a value that is no cell: a cell counts as unit.
    pub fn own_kind(&self) -> u32
        ensures { result ≡ kind_of self.now }
    {
        match self {
            Dynamic::Unit | Dynamic::Cell(_) => 0,
            Dynamic::Bool(_) => 1,
            Dynamic::Int(_) => 2,
            Dynamic::Char(_) => 3,
            Dynamic::Text(_) => 4,
            Dynamic::Array(_) => 5,
            Dynamic::Blob(_) => 6,
            Dynamic::Map(_) => 7,
            Dynamic::Pointer(_) => 8,
            Dynamic::Range { .. } => 9,
            Dynamic::Foreign { kind, .. } => *kind,
        }
    }

    /// The name of the value's type, as `i64`, `string`, `Fn` or, of a host's value of kind 16,
    /// `foreign(16)`. Of a cell it is that of its content, as with `kind`.
    pub fn type_name(&self, alloc: Global, cells: &Store) -> Result<Text, OutOfMemory>
        ensures { IfOk result (λ name. name ≡ type_name_of (seen cells.now self.now)) }
    {
        match self {
            Dynamic::Cell(cell) => match cells.standing(*cell) {
                Some(content) => content.own_type_name(alloc),
                None => Text::copy_of(alloc, "()"),
            },
            value => value.own_type_name(alloc),
        }
    }

    /// The same of a value that is no cell: a cell counts as unit.
    pub fn own_type_name(&self, alloc: Global) -> Result<Text, OutOfMemory>
        ensures { IfOk result (λ name. name ≡ type_name_of self.now) }
    {
        match self {
            Dynamic::Unit | Dynamic::Cell(_) => Text::copy_of(alloc, "()"),
            Dynamic::Bool(_) => Text::copy_of(alloc, "bool"),
            Dynamic::Int(_) => Text::copy_of(alloc, "i64"),
            Dynamic::Char(_) => Text::copy_of(alloc, "char"),
            Dynamic::Text(_) => Text::copy_of(alloc, "string"),
            Dynamic::Array(_) => Text::copy_of(alloc, "array"),
            Dynamic::Blob(_) => Text::copy_of(alloc, "blob"),
            Dynamic::Map(_) => Text::copy_of(alloc, "map"),
            Dynamic::Pointer(_) => Text::copy_of(alloc, "Fn"),
            Dynamic::Range { .. } => Text::copy_of(alloc, "range"),
            Dynamic::Foreign { kind, .. } => foreign_name(alloc, *kind),
        }
    }
}

// The name of the type of a host's values of this kind.
fn foreign_name(alloc: Global, kind: u32) -> Result<Text, OutOfMemory>
    ensures { IfOk result (λ name. name ≡ foreign_name kind) }
{
    let mut name = Text::copy_of(alloc, "foreign(")?;
    name.push_number(u64::from(kind))?;
    name.push_str(")")?;
    Ok(name)
}
