//! What an index names in a value.

ghost use Rattle.std.specs.Prelude.{◌≡◌, Option, Some, None};
ghost use Rattle.grain_value.specs.Locating.{entry_index, located_among, locate};

use super::{Dynamic, ValueFault};

/// What an index names in a value.
#[derive(Clone, Copy, Debug, PartialEq, Eq)]
pub enum Spot {
    /// An element of an array, by its number.
    Item(usize),
    /// A key that is there, which is the index itself.
    Key,
    /// A byte of a byte string, by its number.
    Byte(usize),
    /// A character of a text, by its number.
    Character(usize),
    /// A bit of an integer, 0 the lowest.
    Bit(u32),
}

impl Dynamic {
    /// What the index names in the value. Arrays, byte strings, texts and integers have an integer as
    /// index, of which a negative one counts from the end: of a text it counts characters, of an
    /// integer its 64 bits. A map has a text. `Bounds` where the value has nothing there, `NoKey`
    /// where a map does not have the key, `WrongType` where the index is of another type, and
    /// `NotIndexable` where the value has no index at all.
    pub fn locate(&self, index: &Dynamic) -> Result<Spot, ValueFault>
        ensures { result ≡ locate self.now index.now }
    {
        match self {
            Dynamic::Array(array) => {
                let place = located_among(array.len(), index)?;
                Ok(Spot::Item(place))
            }
            Dynamic::Blob(blob) => {
                let place = located_among(blob.len(), index)?;
                Ok(Spot::Byte(place))
            }
            Dynamic::Text(text) => {
                let place = located_among(text.char_count(), index)?;
                Ok(Spot::Character(place))
            }
            Dynamic::Int(_) => {
                let place = located_among(64, index)?;
                Ok(Spot::Bit(place as u32))
            }
            Dynamic::Map(map) => match index {
                Dynamic::Text(key) => match map.get(key.as_str()) {
                    Some(_) => Ok(Spot::Key),
                    None => Err(ValueFault::NoKey),
                },
                _ => Err(ValueFault::WrongType),
            },
            _ => Err(ValueFault::NotIndexable),
        }
    }
}

// Which of the entries the index names.
fn located_among(length: usize, index: &Dynamic) -> Result<usize, ValueFault>
    ensures { result ≡ located_among length index.now }
{
    let Dynamic::Int(index) = index else {
        return Err(ValueFault::WrongType);
    };
    let index = *index;
    match entry_index(length, index) {
        Some(place) => Ok(place),
        None => Err(ValueFault::Bounds { length, index }),
    }
}

// Which of `length` entries an integer names: a negative one counts from the end.
fn entry_index(length: usize, index: i64) -> Option<usize>
    ensures { result ≡ entry_index length index }
{
    let distance = index.unsigned_abs() as usize;
    if index >= 0 {
        if distance < length {
            Some(distance)
        } else {
            None
        }
    } else {
        length.checked_sub(distance)
    }
}
