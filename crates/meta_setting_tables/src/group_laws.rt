ghost use Rattle.std.specs.Prelude.{◌≡◌, ◌<◌, ℕ, Bool, List, length, All};
ghost use Rattle.meta_types.specs.SharedNames.{AreDifferentNames};
ghost use Rattle.meta_settings.specs.GroupDeclaration.{GroupDeclaration};
ghost use Rattle.meta_settings.specs.GroupFaults.{IsValidGroup};
ghost use Rattle.meta_settings.specs.LaidOut.{built_of};
ghost use Rattle.meta_settings.specs.Layout.{Layout};
ghost use Rattle.meta_setting_tables.specs.BuiltLayout.{IsBuiltLayout};
ghost use Rattle.meta_setting_tables.specs.FoundSetting.{entry_names};
ghost use Rattle.meta_setting_tables.specs.GroupTables.{GroupContents, AreTablesOfGroup, Applies};
ghost use Rattle.meta_setting_tables.specs.PresetMasks.{AreJoined};
ghost use Rattle.meta_setting_tables.specs.WellFormed.{IsWellFormedGroup};
ghost use Rattle.meta_setting_tables.specs.declared.parts.GroupParts.{GroupParts};
ghost use Rattle.meta_setting_tables.specs.Parts.{HasGroupParts};

use meta_settings::presets_turn_on_what_they_name;

/// A group that is built of a valid declaration has tables: its layout meets what `GroupTables::of` requires. No two of its entries have
/// the same name, so that a name finds at most one entry.
pub fn built_groups_have_tables()
    ensures layout { (d : GroupDeclaration) → IsValidGroup d → IsBuiltLayout (built_of d) }
    ensures names { (d : GroupDeclaration) → IsValidGroup d → AreDifferentNames (entry_names (built_of d)) }
{
    presets_turn_on_what_they_name();
}

/// The tables of a group that is built of a valid declaration are well-formed, if its default bytes are below 256.
pub fn built_groups_have_well_formed_tables()
    ensures { (d : GroupDeclaration) (t : GroupContents) → IsValidGroup d → AreTablesOfGroup (built_of d) t
        → All (λ b. b < 256) t.defaults → IsWellFormedGroup t }
{
    built_groups_have_tables();
}

/// Parts determine a well-formed group: at most one has these parts, since slots follow from names.
pub fn one_group_has_the_parts()
    ensures { (parts : GroupParts) (s t : GroupContents) → IsWellFormedGroup s → IsWellFormedGroup t
        → HasGroupParts parts s → HasGroupParts parts t → s ≡ t }
{}

/// A group determines its tables: two tables of the same group are equal.
pub fn one_table_of_a_group()
    ensures { (g : Layout) (s t : GroupContents) → AreTablesOfGroup g s → AreTablesOfGroup g t → s ≡ t }
{}

/// A preset that is applied twice changes nothing the second time. This holds of tables, where its masks are joined with the setting bytes,
/// and of what the group means, if the setting bytes are below 256.
pub fn a_preset_applied_twice_is_applied_once()
    ensures joined { (masks old once twice : List ℕ) → length masks ≡ length old → AreJoined old masks once
        → AreJoined once masks twice → twice ≡ once }
    ensures meaning { (g : Layout) (e : ℕ) (old once twice : List ℕ) (first second : Bool) → All (λ b. b < 256) once
        → All (λ b. b < 256) twice
        → Applies g e old once first → Applies g e once twice second → twice ≡ once }
{}
