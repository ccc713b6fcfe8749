//! Instructions and their bytes, and the parts of a program.

pub mod bytes;
pub mod caps;
pub mod chains;
pub mod descriptors;
pub mod effects;
pub mod fields;
pub mod functions;
pub mod instruction_set;
pub mod numbers;
pub mod parts;
pub mod pools;
pub mod switches;
