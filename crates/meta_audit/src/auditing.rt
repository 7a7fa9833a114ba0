ghost use Rattle.std.specs.Prelude.{◌≡◌, ◌≢◌, ◌↔◌, ℕ, List, Option, IfOk, IfErr, OnOk};
ghost use Rattle.meta_types.specs.declared.fault.DefinitionError.TheVariants.{OutOfMemory};
ghost use Rattle.meta_inst.specs.Tables.{Allows};
ghost use Rattle.meta_gen.specs.Found.{FindsName};
ghost use Rattle.meta_gen.specs.TablesOf.{AcceptsOpcode};
ghost use Rattle.meta_build.specs.AllDeclared.{HasFirstFault, AreValid};
ghost use Rattle.meta_gen.specs.WholeTables.{AreWholeTablesOf, FindsSetting};
ghost use Rattle.meta_gen.specs.WellFormed.{IsWellFormed};
ghost use Rattle.meta_audit.specs.Verdict.{IsComparison, IsAuditVerdict, FindsOpcode, FindsSettingIn};

use super::groups::first_other_group;
use super::laws::{
    comparisons_are_verdicts, meant_tables_mean_the_declarations, one_verdict,
    tables_of_declarations_are_meant,
};
use super::opcodes::same_opcode;
use super::verdict::Verdict;
use meta_gen::{Declarations, Tables, generate};
use meta_types::DefinitionError;
use std::alloc::Global;

fn compared(own: &Tables, other: &Tables) -> Verdict
    ensures comparison { IsComparison own.now other.now result }
    ensures own_well_formed { IsWellFormed own.now }
    ensures well_formed { IsWellFormed other.now }
{
    let count = own.opcode_count();
    if other.opcode_count() != count {
        return Verdict::Opcodes;
    }
    for place in 0..count {
        if !same_opcode(own.opcodes(), other.opcodes(), place) {
            return Verdict::Opcode(u64::from(place) + 1);
        }
    }
    match first_other_group(own, other) {
        Some(group) => Verdict::Group(group as u64),
        None => Verdict::Yes,
    }
}

/// The verdict on tables that are compared with declarations. `own` are the tables of these.
pub(crate) fn verdict_beside(declarations: &Declarations, own: &Tables, tables: &Tables) -> Verdict
    requires { AreWholeTablesOf declarations.now own.now }
    ensures { IsAuditVerdict declarations.now tables.now result }
{
    comparisons_are_verdicts();
    let _variables = declarations.vars();
    compared(own, tables)
}

/// Compares tables, whoever made them, with declarations.
///
/// The declarations are refused exactly as `generate` refuses them. Otherwise the verdict is `Opcodes` if there are more or fewer opcodes
/// than instructions; or the number of the first opcode that doesn't mean its instruction; or that of the first group of settings whose
/// entries have other names, or that only one side has; and else `Yes`. It depends on what the tables mean, by the decoding, and not on how
/// they express it. The names of formats, bits 3 and 4 of the flags, and all of settings but the names of entries are left out.
pub fn audit(
    alloc: Global,
    declarations: &Declarations,
    tables: &Tables,
) -> Result<Verdict, DefinitionError>
    ensures refused { IfErr result (λ e. e ≢ OutOfMemory → HasFirstFault declarations.now e) }
    ensures valid { OnOk result (AreValid declarations.now) }

    // There is one verdict, and it is `Yes` for the tables of the declarations.
    ensures verdict { IfOk result (λ v. IsAuditVerdict declarations.now tables.now v) }
    ensures one { IfOk result (λ v. (w : Verdict) → IsAuditVerdict declarations.now tables.now w → v ≡ w) }
    ensures own_tables { AreWholeTablesOf declarations.now tables.now → IfOk result (λ v. v ≡ Verdict.Yes) }

    // After `Yes` the tables allow exactly what the declarations accept, and a name finds in them what it finds in the declarations.
    ensures acceptance { IfOk result (λ v. v ≡ Verdict.Yes → (op : ℕ) (c e : Option ℕ) (rs vs : List ℕ)
        → (Allows tables.now.opcodes op c e rs vs ↔ AcceptsOpcode declarations.now.set op c e rs vs)) }
    ensures names { IfOk result (λ v. v ≡ Verdict.Yes → (name : List ℕ) (answer : Option ℕ)
        → (FindsOpcode tables.now.opcodes name answer ↔ FindsName declarations.now.set name answer)) }
    ensures settings { IfOk result (λ v. v ≡ Verdict.Yes → (group : ℕ) (name : List ℕ) (answer : Option ℕ)
        → (FindsSettingIn tables.now group name answer ↔ FindsSetting declarations.now group name answer)) }
{
    one_verdict();
    tables_of_declarations_are_meant();
    meant_tables_mean_the_declarations();
    let _variables = declarations.vars();
    let _count = tables.opcode_count();
    let own = generate(alloc, declarations)?;
    Ok(verdict_beside(declarations, &own, tables))
}
