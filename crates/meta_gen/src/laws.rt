ghost use Rattle.std.specs.Prelude.{◌≡◌};
ghost use Rattle.meta_typevar.specs.Registry.{HoldTypeSets};
ghost use Rattle.meta_build.specs.AllDeclared.{Declared};
ghost use Rattle.meta_gen.specs.WholeTables.{WholeTables, AreWholeTablesOf};

use super::opcode_laws::one_table_of_an_instruction_set;
use meta_setting_tables::one_table_of_a_group;

/// Declarations determine their tables: two tables of the same declarations are equal in all parts. The type variables must have type sets,
/// as those of `Declarations` always do.
pub fn one_table_of_declarations()
    ensures { (d : Declared) (one other : WholeTables) → HoldTypeSets d.set.vars → AreWholeTablesOf d one
        → AreWholeTablesOf d other → one ≡ other }
{
    one_table_of_an_instruction_set();
    one_table_of_a_group();
}
