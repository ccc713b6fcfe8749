//! Listings: programs as texts, and how they are read.
#![tactic(auto)]

mod assembler;
mod block_lines;
mod blocks;
mod chain_lines;
mod chain_words;
mod code_lines;
mod flags;
mod headers;
mod host_lines;
mod later;
mod laws;
mod limits;
mod line_rules;
mod linking;
mod listings;
mod pool_lines;
mod reading;
mod reasons;
mod settings;
mod switch_lines;
mod switch_linking;
mod switch_words;
mod table;

pub use grain_literals::Reason;
pub use laws::{instructions_are_read, stops_are_read};
pub use listings::Listing;
pub use reading::{MOST_BYTES, read};
pub use reasons::BadLine;
pub use table::{Line, instructions_are_in_the_table, line_of};
