ghost use Rattle.std.specs.Prelude.{◌↔◌, ◌<◌, IfOk, IfSome, IfNone, IsTrue};
ghost use Rattle.meta_setting_tables.specs.GroupTables.{GroupContents};
ghost use Rattle.meta_setting_tables.specs.WellFormed.{IsWellFormedGroup};
ghost use Rattle.meta_setting_tables.specs.Parts.{HasGroupParts, AreGoodParts};

use super::descriptor::Descriptor;
use super::entries::{are_placed, have_their_values};
use super::group_tables::GroupTables;
use super::names::are_well_named;
use super::setting_bytes::{are_good_defaults, are_good_masks};
use super::shape::Shape;
use meta_types::Text;
use std::alloc::{AllocError, Global};

const MAX_ENTRIES: usize = 65_535;

const MAX_BOOLEANS: usize = 248;

/// The most bytes that the settings of a group may take.
const MAX_BYTES: usize = 255;

const MAX_ENUMERATORS: usize = 65_535;

/// The parts of the tables of a group: all but the slots of the names of its entries, which follow from the names.
#[derive(Debug, Drop)]
pub struct GroupParts {
    /// The name of the group.
    pub name: Text,
    /// The entries: the settings by byte and bit, then the presets.
    pub descriptors: Vec<Descriptor>,
    /// The names of the values of all enums, in one list.
    pub enumerators: Vec<Text>,
    /// The default bytes, one for each setting byte.
    pub defaults: Vec<u8>,
    /// The masks of the presets, preset after preset, each with one mask for each setting byte.
    pub preset_masks: Vec<u8>,
}

fn are_good(alloc: Global, parts: &GroupParts) -> Result<bool, AllocError>
    ensures { IfOk result (λ b. IsTrue b ↔ AreGoodParts parts.now) }
{
    let entries = parts.descriptors.as_slice();
    let enumerators = parts.enumerators.as_slice();
    if entries.len() > MAX_ENTRIES {
        return Ok(false);
    }
    let shape = Shape::of(entries);
    if shape.booleans > MAX_BOOLEANS
        || shape.bytes > MAX_BYTES
        || enumerators.len() > MAX_ENUMERATORS
    {
        return Ok(false);
    }
    if !are_placed(&shape, entries) {
        return Ok(false);
    }
    if !are_good_defaults(&shape, entries, parts.defaults.as_slice()) {
        return Ok(false);
    }
    if !are_good_masks(&shape, entries, parts.preset_masks.as_slice()) {
        return Ok(false);
    }
    if !are_well_named(alloc, &parts.name, entries, enumerators)? {
        return Ok(false);
    }
    have_their_values(alloc, entries, enumerators)
}

/// Makes the tables of a group that has these parts. It answers `None` exactly if some part breaks a rule: a limit is passed, a name can't
/// be declared, a description needs an escape, two entries share a name, an entry doesn't stand where the layout rule puts it, an enum's
/// values are missing, or the default bytes or masks aren't those of such entries. The cost is the length of the parts, and for each name
/// the logarithm of their count.
pub fn group_from_parts(alloc: Global, parts: GroupParts) -> Result<Option<GroupTables>, AllocError>
    ensures some { IfOk result (λ o. IfSome o (HasGroupParts parts)) }
    ensures well_formed { IfOk result (λ o. IfSome o IsWellFormedGroup) }
    ensures none { IfOk result (λ o. IfNone o ((t : GroupContents) → IsWellFormedGroup t → HasGroupParts parts t → ⊥)) }
{
    if !are_good(alloc, &parts)? {
        return Ok(None);
    }
    Ok(Some(GroupTables::with_parts(alloc, parts)?))
}
