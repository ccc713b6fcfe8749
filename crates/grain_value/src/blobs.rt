//! Byte strings.

ghost use Rattle.std.specs.Prelude.{◌≡◌, ◌==◌, ◌<◌, ◌^◌, ◌++◌, ◌∷◌, [], length, is_ok, IfOk, if◌then◌else◌, slice_get, slice_set};

use crate::memory::OutOfMemory;
use std::alloc::Global;
use std::marker::Model;

/// A byte string. Clauses see the list of its bytes.
#[derive(Drop)]
pub struct Blob {
    bytes: Vec<u8>,
}

impl Model for Blob {
    ghost use Rattle.std.specs.Prelude.{ℕ, List};

    ghost Value = { List ℕ };

    ghost view = { λ b. b.bytes.items };
}

impl Blob {
    /// No bytes. It takes no memory.
    pub fn new(alloc: Global) -> Blob
        ensures { result ≡ [] }
    {
        Blob {
            bytes: Vec::new(alloc),
        }
    }

    /// The bytes of a vector, taken as they are.
    pub fn from_vec(bytes: Vec<u8>) -> Blob
        ensures { result ≡ bytes.items }
    {
        Blob { bytes }
    }

    /// An equal byte string.
    pub fn copy(&self, alloc: Global) -> Result<Blob, OutOfMemory>
        ensures { IfOk result (λ blob. blob ≡ self.now) }
    {
        let bytes = self.bytes.as_slice().to_vec(alloc)?;
        Ok(Blob { bytes })
    }

    /// How many bytes there are.
    pub fn len(&self) -> usize
        ensures value { result ≡ length self.now }
        ensures small { result < 2 ^ 63 }
    {
        self.bytes.len()
    }

    /// Whether there are no bytes.
    pub fn is_empty(&self) -> bool
        ensures { result ≡ (length self.now == 0) }
    {
        self.bytes.is_empty()
    }

    /// The byte at the index, if there is one.
    pub fn get(&self, index: usize) -> Option<u8>
        ensures { result ≡ slice_get self.now index }
    {
        self.bytes.get(index).copied()
    }

    /// The bytes as a slice.
    pub fn as_slice(&self) -> &[u8]
        ensures { result.now ≡ self.now }
    {
        &self.bytes
    }

    /// Puts a byte in the place of the one at the index. Past the end nothing changes.
    pub fn set(&mut self, index: usize, byte: u8)
        ensures { self.new ≡ slice_set self.old index byte }
    {
        if let Some(place) = self.bytes.get_mut(index) {
            *place = byte;
        }
    }

    /// Puts a byte at the end. After want of memory the bytes are as they were.
    pub fn push(&mut self, byte: u8) -> Result<(), OutOfMemory>
        ensures { self.new ≡ (if is_ok result then self.old ++ byte ∷ [] else self.old) }
    {
        self.bytes.push(byte)?;
        Ok(())
    }
}
