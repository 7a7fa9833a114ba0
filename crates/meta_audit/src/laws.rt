ghost use Rattle.std.specs.Prelude.{◌≡◌, ◌↔◌, ℕ, List, Option};
ghost use Rattle.meta_typevar.specs.Registry.{HoldTypeSets};
ghost use Rattle.meta_inst.specs.Tables.{Allows};
ghost use Rattle.meta_gen.specs.Found.{FindsName};
ghost use Rattle.meta_gen.specs.TablesOf.{AcceptsOpcode};
ghost use Rattle.meta_build.specs.AllDeclared.{Declared, AreValid};
ghost use Rattle.meta_gen.specs.WholeTables.{WholeTables, AreWholeTablesOf, FindsSetting};
ghost use Rattle.meta_gen.specs.WellFormed.{IsWellFormed};
ghost use Rattle.meta_audit.specs.AuditLine.{IsAuditLine};
ghost use Rattle.meta_audit.specs.declared.verdict.Verdict.{Verdict};
ghost use Rattle.meta_audit.specs.Verdict.{IsComparison, IsAuditVerdict, FindsOpcode, FindsSettingIn};

use meta_table_reader::a_text_reads_as_one;

/// The verdict on tables, by those of declarations, is the verdict on them for the declarations.
pub(crate) fn comparisons_are_verdicts()
    ensures { (d : Declared) (own t : WholeTables) (v : Verdict) → HoldTypeSets d.set.vars → AreWholeTablesOf d own → IsWellFormed own
        → IsWellFormed t → IsComparison own t v → IsAuditVerdict d t v }
{}

/// There is at most one verdict on tables that are compared with declarations.
pub fn one_verdict()
    ensures { (d : Declared) (t : WholeTables) (v w : Verdict) → IsAuditVerdict d t v → IsAuditVerdict d t w → v ≡ w }
{}

/// The verdict on the tables of declarations is `Yes`. The type variables must have type sets, as those of `Declarations` always do.
pub fn tables_of_declarations_are_meant()
    ensures { (d : Declared) (t : WholeTables) → HoldTypeSets d.set.vars → AreWholeTablesOf d t → IsAuditVerdict d t Verdict.Yes }
{}

/// If the verdict is `Yes`, the tables mean the declarations, whoever made them. The decoding allows exactly the numbers, of all numbers,
/// that the declarations accept. A name finds in the tables what has the name in the declarations.
pub fn meant_tables_mean_the_declarations()
    ensures acceptance { (d : Declared) (t : WholeTables) → AreValid d → IsWellFormed t → IsAuditVerdict d t Verdict.Yes
        → (op : ℕ) (c e : Option ℕ) (rs vs : List ℕ) → (Allows t.opcodes op c e rs vs ↔ AcceptsOpcode d.set op c e rs vs) }
    ensures names { (d : Declared) (t : WholeTables) → IsWellFormed t → IsAuditVerdict d t Verdict.Yes → (name : List ℕ) (answer : Option ℕ)
        → (FindsOpcode t.opcodes name answer ↔ FindsName d.set name answer) }
    ensures settings { (d : Declared) (t : WholeTables) → AreValid d → IsAuditVerdict d t Verdict.Yes
        → (group : ℕ) (name : List ℕ) (answer : Option ℕ) → (FindsSettingIn t group name answer ↔ FindsSetting d group name answer) }
{}

/// A text that is compared with declarations has at most one line.
pub fn one_audit_line()
    ensures { (d : Declared) (text one other : List ℕ) → IsAuditLine d text one → IsAuditLine d text other → one ≡ other }
{
    a_text_reads_as_one();
}
