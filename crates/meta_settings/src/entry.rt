use super::index::PresetType;
use super::value_names::ValueNames;
use meta_types::Text;
use std::marker::Model;

/// What the rules look at in an entry of a group: its name and description, the values of an enum, and what a preset names.
#[derive(Drop)]
pub(crate) struct Entry<'a> {
    pub(crate) name: &'a Text,
    pub(crate) description: &'a Text,
    pub(crate) values: Option<&'a ValueNames>,
    pub(crate) args: &'a [PresetType],
}

impl<'a> Model for Entry<'a> {
    ghost use Rattle.std.specs.Prelude.{option_map};
    ghost use Rattle.meta_settings.specs.GroupDeclaration.{Entry as EntryValue};

    ghost Value = { EntryValue };

    ghost view = { λ e. record {
      name = e.name.now;
      description = e.description.now;
      values = option_map (λ v. v.now) e.values;
      args = e.args.now;
    } };
}
