ghost use Rattle.std.specs.Prelude.{◌≡◌, ◌++◌, [], IfOk, OnOk, All, length, map};
ghost use Rattle.std.specs.List.{AllZip};
ghost use Rattle.meta_inst.specs.Faults.{names_of};
ghost use Rattle.meta_shared.specs.CoreFormats.{core_formats};
ghost use Rattle.meta_shared.specs.CoreNames.{core_names};
ghost use Rattle.meta_shared.specs.Formats.{name_at};
ghost use Rattle.meta_shared.specs.Kinds.{EntitiesHoldNoVariable, ImmediatesHoldNoVariable};
ghost use Rattle.meta_shared.specs.Rows.{FitsNames, builder_name, named_format};
ghost use Rattle.meta_shared.specs.Settings.{IsSharedGroup};
ghost use Rattle.meta_shared.specs.OpsFormats.{ops_formats};
ghost use Rattle.meta_shared.specs.OpsNames.{ops_names};

use super::declaring::push_tables;
use super::entities::EntityRefs;
use super::formats::Formats;
use super::immediates::Immediates;
use super::instructions::core_instructions;
use super::names::Names;
use super::ops_tables::ops_tables;
use super::settings;
use meta_build::Declarations;
use meta_inst::AllInstructions;
use meta_operands::FormatTable;
use meta_typevar::TypeVars;
use std::alloc::{AllocError, Global};

/// Adds the 163 instructions, and the variables that they name. The list and the registry must be empty.
fn add_instructions(
    alloc: Global,
    vars: &mut TypeVars,
    all: &mut AllInstructions,
    formats: &Formats,
    imm: &Immediates,
    entities: &EntityRefs,
) -> Result<(), AllocError>
    requires no_variable { vars.old ≡ [] }
    requires no_instruction { all.old ≡ [] }
    requires immediates { ImmediatesHoldNoVariable imm.now }
    requires entities { EntitiesHoldNoVariable entities.now }
    ensures names { OnOk result (map builder_name all.new ≡ core_names ++ ops_names) }
    ensures fit { OnOk result (AllZip (FitsNames vars.new formats.now) (core_formats ++ ops_formats) all.new) }
{
    let roots = core_instructions(alloc, vars, all, formats, imm, entities)?;
    let names = Names::new(formats, imm, entities, &roots);
    push_tables(alloc, &names, vars, all, &ops_tables())?;
    Ok(())
}

/// Declares the shared instruction set: 36 formats, 163 instructions, and the group of settings `shared`.
pub fn define(alloc: Global) -> Result<Declarations, AllocError>
    ensures formats { IfOk result (λ d. length d.set.formats ≡ 36) }
    ensures instructions { IfOk result (λ d. length d.set.instructions ≡ 163) }
    ensures names { IfOk result (λ d. names_of d.set ≡ core_names ++ ops_names) }
    ensures of_formats { IfOk result (λ d. map (named_format d.set.formats) d.set.instructions
        ≡ map name_at (core_formats ++ ops_formats)) }
    ensures groups { IfOk result (λ d. length d.groups ≡ 1) }
    ensures group { IfOk result (λ d. All IsSharedGroup d.groups) }
{
    let entities = EntityRefs::new(alloc)?;
    let imm = Immediates::new(alloc)?;
    let mut table = FormatTable::new(alloc);
    let formats = Formats::new(alloc, &mut table, &imm, &entities)?;
    let (mut vars, mut all) = (TypeVars::new(alloc), AllInstructions::new(alloc));
    add_instructions(alloc, &mut vars, &mut all, &formats, &imm, &entities)?;
    let mut groups = Vec::new(alloc);
    groups.push(settings::define(alloc)?)?;
    Ok(Declarations::new(vars, table, all, groups))
}
