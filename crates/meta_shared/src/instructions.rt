ghost use Rattle.std.specs.Prelude.{◌≡◌, ◌≤◌, IfOk, OnOk, length, map, []};
ghost use Rattle.std.specs.List.{AllZip};
ghost use Rattle.meta_shared.specs.CoreFormats.{core_formats};
ghost use Rattle.meta_shared.specs.CoreNames.{core_names};
ghost use Rattle.meta_shared.specs.Kinds.{EntitiesHoldNoVariable, ImmediatesHoldNoVariable};
ghost use Rattle.meta_shared.specs.Roots.{AreNumberedRoots, AreRoots};
ghost use Rattle.meta_shared.specs.Rows.{FitsNames, builder_name};

use super::core_tables::core_tables;
use super::declaring::push_tables;
use super::entities::EntityRefs;
use super::formats::Formats;
use super::immediates::Immediates;
use super::names::Names;
use super::roots::Roots;
use meta_inst::AllInstructions;
use meta_typevar::TypeVars;
use std::alloc::{AllocError, Global};

/// Adds the root variables, those that the instructions derive from them, and the instructions 1 to 72. The registry and the list must be
/// empty, and no kind may be one of values. After an error a part of the variables and of the instructions may have been added.
pub fn core_instructions(
    alloc: Global,
    vars: &mut TypeVars,
    all: &mut AllInstructions,
    formats: &Formats,
    imm: &Immediates,
    entities: &EntityRefs,
) -> Result<Roots, AllocError>
    requires no_variable { vars.old ≡ [] }
    requires no_instruction { all.old ≡ [] }
    requires immediates { ImmediatesHoldNoVariable imm.now }
    requires entities { EntitiesHoldNoVariable entities.now }

    // Each root is of the variables, is underived and has its set. No two roots are the same variable.
    ensures roots { IfOk result (AreRoots vars.new) }
    ensures numbers { IfOk result AreNumberedRoots }
    ensures few { OnOk result (length vars.new ≤ 100) }

    // The instructions have their names in order. Each is of its format, and names only these variables.
    ensures names { OnOk result (map builder_name all.new ≡ core_names) }
    ensures count { OnOk result (length all.new ≡ 72) }
    ensures fit { OnOk result (AllZip (FitsNames vars.new formats.now) core_formats all.new) }
{
    let roots = Roots::new(alloc, vars)?;
    let names = Names::new(formats, imm, entities, &roots);
    push_tables(alloc, &names, vars, all, &core_tables())?;
    Ok(roots)
}
