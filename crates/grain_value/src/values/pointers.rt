//! Pointers to functions.

ghost use Rattle.std.specs.Prelude.{◌≡◌, ◌++◌, ◌∷◌, [], is_ok, if◌then◌else◌};
ghost use Rattle.grain_value.specs.View.{tree};
ghost use Rattle.grain_value.specs.Pointers.{is_pointer_name, begins_with_letter, all_word_bytes, Named};

use super::{Array, Dynamic, FnPtr, ValueFault};
use crate::memory::OutOfMemory;
use crate::texts::Text;
use std::alloc::Global;

impl FnPtr {
    /// A pointer to the functions of this name, with no values. `BadName` unless the name has ASCII
    /// letters, digits and `_` only, and its first character other than `_` is a letter.
    pub fn new(alloc: Global, name: &str) -> Result<FnPtr, ValueFault>
        ensures { Named name.now result }
    {
        if !is_pointer_name(name.as_bytes()) {
            return Err(ValueFault::BadName);
        }
        let name = Text::copy_of(alloc, name)?;
        let curry = Array::new(alloc);
        Ok(FnPtr { name, curry })
    }

    /// The name of the functions.
    pub fn fn_name(&self) -> &str
        ensures { result.now ≡ self.now.name }
    {
        self.name.as_str()
    }

    /// The values that stand before the arguments of a call.
    pub fn curry(&self) -> &Array
        ensures { result.now ≡ self.now.curry }
    {
        &self.curry
    }

    /// A further value before the arguments of a call. After want of memory, and where the value
    /// nests too deep (`MOST_LEVELS`), the pointer is as it was.
    pub fn add_curry(&mut self, value: Dynamic) -> Result<(), OutOfMemory>
        ensures { self.new ≡ (if is_ok result
            then record self.old { curry = self.old.curry ++ tree value ∷ [] }
            else self.old) }
    {
        self.curry.push(value)
    }
}

// Whether a pointer may lead to functions of this name.
fn is_pointer_name(name: &[u8]) -> bool
    ensures { result ≡ is_pointer_name name.now }
{
    begins_with_letter(name) && all_word_bytes(name)
}

// Whether the first byte other than `_` is a letter.
fn begins_with_letter(name: &[u8]) -> bool
    ensures { result ≡ begins_with_letter name.now }
{
    for byte in name {
        if *byte != b'_' {
            return byte.is_ascii_alphabetic();
        }
    }
    false
}

// Whether all bytes are letters, digits or `_`.
fn all_word_bytes(name: &[u8]) -> bool
    ensures { result ≡ all_word_bytes name.now }
{
    for byte in name {
        if !(byte.is_ascii_alphanumeric() || *byte == b'_') {
            return false;
        }
    }
    true
}
