ghost use Rattle.std.specs.Prelude.{◌≡◌, ◌≢◌, ◌↔◌, ℕ, List, Option, IfOk, IfErr, OnOk, All, length, slice_get, Some};
ghost use Rattle.meta_types.specs.declared.fault.DefinitionError.TheVariants.{OutOfMemory};
ghost use Rattle.meta_inst.specs.Inference.{GivesResults};
ghost use Rattle.meta_inst.specs.Tables.{Allows};
ghost use Rattle.meta_settings.specs.Layout.{Layout};
ghost use Rattle.meta_setting_tables.specs.BuiltLayout.{IsBuiltLayout};
ghost use Rattle.meta_setting_tables.specs.GroupTables.{GroupContents, AreTablesOfGroup};
ghost use Rattle.meta_setting_tables.specs.WellFormed.{IsWellFormedGroup};
ghost use Rattle.meta_build.specs.AllDeclared.{HasFirstFault, AreValid};
ghost use Rattle.meta_gen.specs.Inferred.{InfersOpcode};
ghost use Rattle.meta_gen.specs.TablesOf.{AcceptsOpcode};
ghost use Rattle.meta_gen.specs.WholeTables.{AreWholeTablesOf};
ghost use Rattle.meta_gen.specs.WellFormed.{IsWellFormed};

use super::opcode_tables::OpcodeTables;
use super::tables::Tables;
use meta_build::{Built, Declarations, build_all};
use meta_setting_tables::{GroupTables, built_groups_have_tables};
use meta_settings::SettingGroup;
use meta_types::DefinitionError;
use std::alloc::{AllocError, Global};

fn group_tables(alloc: Global, groups: &[SettingGroup]) -> Result<Vec<GroupTables>, AllocError>
    requires { (k : ℕ) (g : Layout) → slice_get groups.now k ≡ Some g → IsBuiltLayout g }
    ensures count { IfOk result (λ v. length v.items ≡ length groups.now) }
    ensures tables { IfOk result (λ v. (k : ℕ) (g : Layout) (t : GroupContents) → slice_get groups.now k ≡ Some g
        → slice_get v.items k ≡ Some t → AreTablesOfGroup g t) }
    ensures well_formed { IfOk result (λ v. All IsWellFormedGroup v.items) }
{
    let mut tables = Vec::with_capacity(alloc, groups.len())?;
    for k in 0..groups.len() {
        tables.push(GroupTables::of(alloc, &groups[k])?)?;
    }
    Ok(tables)
}

/// Makes the tables of what is built of declarations. They stand in place of what the crate's `gen_inst.rs` and `gen_settings.rs` write.
///
/// The tables hold each instruction under its name, in order: opcode 1 is the first. Read by the decoding, they allow exactly what the
/// declarations accept, and give exactly the results that the declarations infer. They hold each group of settings, in order.
pub fn tables_of(alloc: Global, built: &Built<'_>) -> Result<Tables, AllocError>
    ensures tables { IfOk result (λ t. AreWholeTablesOf built.now.declared t) }
    ensures well_formed { IfOk result IsWellFormed }
    ensures acceptance { IfOk result (λ t. (op : ℕ) (c e : Option ℕ) (rs vs : List ℕ)
        → (Allows t.opcodes op c e rs vs ↔ AcceptsOpcode built.now.declared.set op c e rs vs)) }
    ensures inference { IfOk result (λ t. (op : ℕ) (c e : Option ℕ) (numbers : List ℕ)
        → (GivesResults t.opcodes op c e numbers ↔ InfersOpcode built.now.declared.set op c e numbers)) }
{
    built_groups_have_tables();
    let _declarations = built.declarations();
    let opcodes = OpcodeTables::of(alloc, built)?;
    let groups = group_tables(alloc, built.groups())?;
    Ok(Tables::new(opcodes, groups))
}

/// Makes the tables of declarations, as `tables_of` does. Declarations with a fault are refused, and no others: the error is their first
/// fault, with its numbers. `OutOfMemory` may come in any case.
pub fn generate(alloc: Global, declarations: &Declarations) -> Result<Tables, DefinitionError>
    ensures refused { IfErr result (λ e. e ≢ OutOfMemory → HasFirstFault declarations.now e) }
    ensures valid { OnOk result (AreValid declarations.now) }
    ensures tables { IfOk result (λ t. AreWholeTablesOf declarations.now t) }
    ensures well_formed { IfOk result IsWellFormed }
    ensures acceptance { IfOk result (λ t. (op : ℕ) (c e : Option ℕ) (rs vs : List ℕ)
        → (Allows t.opcodes op c e rs vs ↔ AcceptsOpcode declarations.now.set op c e rs vs)) }
    ensures inference { IfOk result (λ t. (op : ℕ) (c e : Option ℕ) (numbers : List ℕ)
        → (GivesResults t.opcodes op c e numbers ↔ InfersOpcode declarations.now.set op c e numbers)) }
{
    let built = build_all(alloc, declarations)?;
    Ok(tables_of(alloc, &built)?)
}
