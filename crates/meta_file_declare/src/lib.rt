//! What the items of a file declare: types and kinds, formats and instructions, and groups of settings.
//!
//! `declare` makes declarations of items, or says which item is the first that is wrong, and why. `place_of_fault` says which item a fault
//! of those declarations is about.
#![tactic(auto)]

mod adding;
mod declaring;
mod formats;
mod groups;
mod insts;
mod laws;
mod marks;
mod open_group;
mod operands;
mod places;
mod refused;
mod texts;

pub use declaring::declare;
pub use insts::Insts;
pub use laws::{
    each_name_has_its_argument, faults_have_their_items, items_say_one_thing, one_declaration,
    right_items_declare, settings_stand_alone,
};
pub use places::{laid_setting, place_of_fault};
pub use refused::DeclareError;
