//! Script values, held values, and the limits of a run.

ghost use Rattle.std.specs.Prelude.{◌≡◌, false};

mod arrays;
mod copies;
mod locating;
mod looking;
mod maps;
mod parts;
mod paths;
mod pointers;
mod sizes;
mod types;
mod value_faults;
mod writing;

use crate::blobs::Blob;
use crate::texts::Text;
pub use locating::Spot;
pub use paths::{Path, PathStep};
pub use sizes::{calc_array_sizes, calc_data_sizes, calc_map_sizes};
use std::alloc::Global;
use std::collections::BTreeMap;
use std::marker::Model;
pub use value_faults::ValueFault;

/// A script value.
#[cycle(values)]
#[derive(Drop)]
pub enum Dynamic {
    /// No value.
    Unit,
    /// A truth value.
    Bool(bool),
    /// An integer.
    Int(i64),
    /// A character.
    Char(char),
    /// A text.
    Text(Text),
    /// A list of values.
    Array(Array),
    /// A byte string.
    Blob(Blob),
    /// Values by key.
    Map(Map),
    /// A pointer to a function.
    Pointer(FnPtr),
    /// The integers from one to another. The last belongs to it if it is inclusive.
    Range { from: i64, to: i64, inclusive: bool },
    /// A value of the host's own: its kind, which is 16 or more, and its number.
    Foreign { kind: u32, number: u64 },
    /// A cell of the store, by its number. Closures share what it holds.
    Cell(usize),
}

/// A pointer to a function: its name, and the values that stand before the arguments of a call.
#[cycle(values)]
#[derive(Drop)]
pub struct FnPtr {
    /// The name of the functions, which a run looks up at each call.
    pub name: Text,
    /// The values that stand before the arguments of a call.
    pub curry: Array,
}

/// A list of values. Clauses see the list of their trees.
#[cycle(values)]
#[derive(Drop)]
pub struct Array {
    values: Vec<Dynamic>,
    // how many arrays, maps and pointers stand inside one another here, this one counted, at most
    levels: usize,
}

impl Model for Array {
    ghost use Rattle.std.specs.Prelude.{List};
    ghost use Rattle.grain_value.specs.Tree.{Tree, pack, weights};
    ghost use Rattle.grain_value.specs.laws.TreeCode.{coded_array};

    ghost Value = { List Tree };

    ghost coded = { coded_array };

    ghost use Rattle.grain_value.specs.View.{trees};

    ghost view = { λ a. trees a.values.items };

    ghost size = { λ ts. weights (pack ts) };

    ghost use Rattle.grain_value.specs.laws.Falls.{depth_le-weights};

    ghost size_decreases = { λ a h. depth_le-weights a.values.items };
}

/// Values by key. Clauses see the pairs of a key and its value's tree, in ascending order of the
/// keys, by bytes.
#[cycle(values)]
#[derive(Drop)]
pub struct Map {
    // the allocator of `pairs`
    alloc: Global,
    pairs: BTreeMap<String, Dynamic>,
    // how many arrays, maps and pointers stand inside one another here, this one counted, at most
    levels: usize,
}

impl Model for Map {
    ghost use Rattle.std.specs.Prelude.{ℕ, List};
    ghost use Rattle.grain_value.specs.Tree.{Tree, pack_fields, field_weights};
    ghost use Rattle.grain_value.specs.laws.TreeCode.{coded_map};

    ghost Value = { List (List ℕ × Tree) };

    ghost coded = { coded_map };

    ghost use Rattle.grain_value.specs.View.{entries_view};

    ghost view = { λ a. entries_view a.pairs.entries };

    ghost size = { λ es. field_weights (pack_fields es) };

    ghost use Rattle.grain_value.specs.laws.Falls.{depth_le-field_weights};

    ghost size_decreases = { λ a h. depth_le-field_weights a.pairs.entries };
}

/// How many arrays, maps and pointers may stand inside one another, and how many blocks of a
/// fragment, in what is made or copied: the call answers that there is no memory for what would nest
/// deeper. So what goes through a value, as a drop does, goes no deeper than this on the process's own
/// stack, or twice as deep where something was put inside it (`Dynamic::put_at`).
pub const MOST_LEVELS: usize = 1024;

/// A value in an operand or a scope entry. One that is read-only may not be assigned to.
#[derive(Drop)]
pub struct Held {
    /// What is held.
    pub value: Dynamic,
    /// Whether it may not be assigned to.
    pub read_only: bool,
}

/// How much a run may take. A size limit of 0 is no limit.
#[derive(Clone, Copy, Debug, PartialEq, Eq)]
pub struct Limits {
    /// Operations, at least 1.
    pub operations: u64,
    /// Compiled calls within one another.
    pub levels: usize,
    /// Entries of a scope.
    pub variables: usize,
    /// Modules that are loaded.
    pub modules: usize,
    /// Bytes of a text.
    pub text: usize,
    /// Elements of an array.
    pub array: usize,
    /// Entries of a map.
    pub map: usize,
}

impl Held {
    /// The value, held so that it may be written.
    pub fn read_write(value: Dynamic) -> Held
        ensures { (result.value ≡ value) × (result.read_only ≡ false) }
    {
        Held {
            value,
            read_only: false,
        }
    }
}
