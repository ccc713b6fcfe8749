//! The values of the script machine: texts, lists, held values, places inside values, scopes, the
//! store of cells, sizes and limits.
#![tactic(auto)]

mod appending;
mod blobs;
mod lists;
mod memory;
mod names;
mod natives;
mod pooled;
mod quoting;
mod scopes;
mod stores;
mod texts;
mod tokens;
mod values;

pub use blobs::Blob;
pub use lists::List;
pub use memory::OutOfMemory;
pub use names::Name;
pub use natives::{Kinds, Native};
pub use pooled::Pools;
pub use scopes::{Entry, Scope};
pub use stores::{Cell, Store};
pub use texts::Text;
pub use tokens::Token;
pub use values::{
    Array, Dynamic, FnPtr, Held, Limits, MOST_LEVELS, Map, Path, PathStep, Spot, ValueFault,
    calc_array_sizes, calc_data_sizes, calc_map_sizes,
};
