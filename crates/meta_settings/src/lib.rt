//! Groups of settings: their declarations, their layout in bytes and bits, and presets, as in the crate's `cdsl/settings.rs`.
//!
//! A contract sees a builder as a `GroupDeclaration`, which has what the builder was given, and a built group as a `Layout`.
#![tactic(auto)]

mod builder;
mod entry;
mod fault;
mod first_named;
mod group;
mod index;
mod isa;
mod laws;
mod layout;
mod preset;
mod proto;
mod setting;
mod value_names;

pub use builder::SettingGroupBuilder;
pub use fault::is_plain_description;
pub use group::SettingGroup;
pub use index::{BoolSettingIndex, PresetIndex, PresetType};
pub use isa::TargetIsa;
pub use laws::{one_group_fault, presets_turn_on_what_they_name, settings_have_their_places};
pub use preset::{Preset, SettingNames};
pub use proto::ProtoSpecificSetting;
pub use setting::{BoolSetting, Setting, SpecificSetting};
pub use value_names::ValueNames;
