//! How much a value holds.

ghost use Rattle.std.specs.Prelude.{◌≡◌, option_map};
ghost use Rattle.grain_value.specs.View.{tree};
ghost use Rattle.grain_value.specs.Sizes.{array_sizes, map_sizes, inner_sizes, data_sizes, counted, plus, is_over, limits_sizes, too_large};

use super::{Array, Dynamic, Limits, Map};
use crate::stores::Store;

/// Elements of arrays, values of maps and bytes of texts. Each stops at `usize::MAX`.
type Sizes = (usize, usize, usize);

/// How much an array holds, as elements of arrays, values of maps and bytes of texts. Each element
/// counts, and so does what stands in it; a blob in it counts as an array of its bytes. Each of the
/// three numbers stops at `usize::MAX`.
#[cycle(sizes)]
pub fn calc_array_sizes(array: &Array) -> (usize, usize, usize)
    ensures { result ≡ counted (array_sizes array.now) }
{
    let mut total = (0, 0, 0);
    for value in &array.values {
        let one = added((1, 0, 0), inner_sizes(value));
        total = added(total, one);
    }
    total
}

/// How much a map holds, in the same three numbers. Each value counts as one, and so does what
/// stands in it; a blob in it counts as an array of its bytes.
#[cycle(sizes)]
pub fn calc_map_sizes(map: &Map) -> (usize, usize, usize)
    ensures { result ≡ counted (map_sizes map.now) }
{
    let mut total = (0, 0, 0);
    for (_, value) in map.pairs.iter() {
        let one = added((0, 1, 0), inner_sizes(value));
        total = added(total, one);
    }
    total
}

/// How much a value holds, in the same three numbers: those of an array or a map, the length of a
/// blob as the first, the bytes of a text as the third, and nothing for every other value. A cell
/// is measured by what it holds; while that is lent it counts nothing.
pub fn calc_data_sizes(value: &Dynamic, cells: &Store) -> (usize, usize, usize)
    ensures { result ≡ counted (data_sizes cells.now value.now) }
{
    match value.flat(cells) {
        Some(Dynamic::Array(array)) => calc_array_sizes(array),
        Some(Dynamic::Blob(blob)) => (blob.len(), 0, 0),
        Some(Dynamic::Map(map)) => calc_map_sizes(map),
        Some(Dynamic::Text(text)) => (0, 0, text.len()),
        _ => (0, 0, 0),
    }
}

// What a value adds to the array or map in which it stands, beside its place there.
#[cycle(sizes)]
fn inner_sizes(value: &Dynamic) -> Sizes
    ensures { result ≡ counted (inner_sizes (tree value.now)) }
{
    match value {
        Dynamic::Array(array) => calc_array_sizes(array),
        Dynamic::Blob(blob) => (blob.len().saturating_add(1), 0, 0),
        Dynamic::Map(map) => calc_map_sizes(map),
        Dynamic::Text(text) => (0, 0, text.len()),
        _ => (0, 0, 0),
    }
}

// Two sizes together.
fn added(a: Sizes, b: Sizes) -> Sizes
    ensures { result ≡ counted (plus a b) }
{
    (
        a.0.saturating_add(b.0),
        a.1.saturating_add(b.1),
        a.2.saturating_add(b.2),
    )
}

impl Limits {
    /// Whether any size of values is limited.
    pub fn limit_sizes(&self) -> bool
        ensures { result ≡ limits_sizes self.now }
    {
        self.text > 0 || self.array > 0 || self.map > 0
    }

    /// What of these sizes is over its limit, if anything is: of elements of arrays, values of maps and
    /// bytes of texts. The texts are looked at first, and then the arrays.
    pub fn too_large(&self, sizes: (usize, usize, usize)) -> Option<&'static str>
        ensures { option_map (λ what. what.now) result ≡ too_large self.now sizes }
    {
        let (arrays, maps, text) = sizes;
        if is_over(self.text, text) {
            Some("Length of string")
        } else if is_over(self.array, arrays) {
            Some("Size of array/BLOB")
        } else if is_over(self.map, maps) {
            Some("Size of object map")
        } else {
            None
        }
    }
}

// Whether a size is over a limit. A limit of 0 is none.
fn is_over(limit: usize, size: usize) -> bool
    ensures { result ≡ is_over limit size }
{
    limit > 0 && size > limit
}
