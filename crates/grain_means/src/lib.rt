//! What a program means, and laws of that meaning. The definitions are in `specs/`.
#![tactic(auto)]

mod laws;

pub use laws::{
    both_readings, bound_places, catches, contained, core_agrees, counted, leaves_places,
    marks_pass, one_end, one_meaning, provided, reads_along, receiver_stays, slow_end,
    stays_written, walk_ends, walk_rows, written_paths,
};
