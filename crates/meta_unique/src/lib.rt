//! Tables that find what was put into them: an interned list, a list of lists that overlap, and slots that are found by probing. Each call
//! works for every element type and every hash.
#![tactic(auto)]

mod constant_hash;
mod names;
mod probing;
mod steps;
mod unique_seq_table;
mod unique_table;

pub use constant_hash::{generate_table, simple_hash};
pub use names::{name_slots, same_slots};
pub use probing::{can_probe, probe, probe_counted, visits_each};
pub use steps::Steps;
pub use unique_seq_table::UniqueSeqTable;
pub use unique_table::UniqueTable;
