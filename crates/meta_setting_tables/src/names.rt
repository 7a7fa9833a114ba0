ghost use Rattle.std.specs.Prelude.{◌↔◌, IfOk, IsTrue};
ghost use Rattle.meta_types.specs.SharedNames.{AreDistinct};
ghost use Rattle.meta_setting_tables.specs.declared.descriptor.Descriptor.{Descriptor};
ghost use Rattle.meta_setting_tables.specs.GroupTables.{names_in};
ghost use Rattle.meta_setting_tables.specs.WellFormed.{AreWellNamed};

use super::descriptor::Descriptor;
use meta_settings::is_plain_description;
use meta_types::{EarlierNames, Text, are_names, is_name};
use std::alloc::{AllocError, Global};

/// Whether no two of the entries have the same name or the same camel case.
fn have_distinct_names(alloc: Global, entries: &[Descriptor]) -> Result<bool, AllocError>
    ensures { IfOk result (λ b. IsTrue b ↔ AreDistinct (names_in entries.now)) }
{
    let mut earlier = EarlierNames::new(alloc);
    for entry in entries {
        if earlier.add(alloc, &entry.name)?.is_some() {
            return Ok(false);
        }
    }
    Ok(true)
}

/// Whether the names of the group, the entries and the enumerators may be declared, no description needs an escape, and no two entries
/// share a name.
pub(crate) fn are_well_named(
    alloc: Global,
    name: &Text,
    entries: &[Descriptor],
    enumerators: &[Text],
) -> Result<bool, AllocError>
    ensures { IfOk result (λ b. IsTrue b ↔ AreWellNamed name.now entries.now enumerators.now) }
{
    if !is_name(name) {
        return Ok(false);
    }
    if !entries.iter().all(|entry| is_name(&entry.name)) {
        return Ok(false);
    }
    if !are_names(enumerators) {
        return Ok(false);
    }
    if !entries
        .iter()
        .all(|entry| is_plain_description(&entry.description))
    {
        return Ok(false);
    }
    have_distinct_names(alloc, entries)
}
