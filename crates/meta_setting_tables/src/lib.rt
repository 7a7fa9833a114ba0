//! The tables of a group of settings: descriptors of its entries, the values of its enums, default bytes, masks of its presets, and the
//! slots of its names.
#![tactic(auto)]

mod default_bytes;
mod descriptor;
mod entries;
mod entry_values;
mod enumerators;
mod group_laws;
mod group_tables;
mod names;
mod parts;
mod preset_masks;
mod setting_bytes;
mod shape;

pub use descriptor::{Descriptor, Detail};
pub use group_laws::{
    a_preset_applied_twice_is_applied_once, built_groups_have_tables,
    built_groups_have_well_formed_tables, one_group_has_the_parts, one_table_of_a_group,
};
pub use group_tables::GroupTables;
pub use parts::{GroupParts, group_from_parts};
