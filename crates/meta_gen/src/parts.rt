ghost use Rattle.std.specs.Prelude.{◌≡◌, List, All, IfOk, IfSome, IfNone};
ghost use Rattle.meta_setting_tables.specs.GroupTables.{GroupContents};
ghost use Rattle.meta_setting_tables.specs.WellFormed.{IsWellFormedGroup};
ghost use Rattle.meta_gen.specs.declared.parts.TableParts.{TableParts};
ghost use Rattle.meta_gen.specs.Parts.{HaveGroupParts, HasParts};
ghost use Rattle.meta_gen.specs.WellFormed.{IsWellFormed};
ghost use Rattle.meta_gen.specs.WholeTables.{WholeTables};

use super::constraint::{Constraint, OpcodeConstraints};
use super::opcode_laws::one_table_has_the_parts;
use super::opcode_parts::opcodes_from_parts;
use super::tables::Tables;
use meta_setting_tables::{GroupParts, GroupTables, group_from_parts, one_group_has_the_parts};
use meta_types::Text;
use meta_typevar::Masks;
use std::alloc::{AllocError, Global};

/// The parts that tables are made of: all but the slots of names, which follow from the names.
#[derive(Debug, Drop)]
pub struct TableParts {
    /// The name of each opcode, from opcode 1 on.
    pub names: Vec<Text>,
    /// The name of each opcode's format.
    pub formats: Vec<Text>,
    /// The type sets. Constraints name them by their places here.
    pub type_sets: Vec<Masks>,
    /// The one list of operand constraints of all opcodes.
    pub operand_constraints: Vec<Constraint>,
    /// The constraints of each opcode.
    pub constraints: Vec<OpcodeConstraints>,
    /// The parts of each group of settings, from group 0 on.
    pub groups: Vec<GroupParts>,
}

fn groups_from_parts(
    alloc: Global,
    parts: Vec<GroupParts>,
) -> Result<Option<Vec<GroupTables>>, AllocError>
    ensures some { IfOk result (λ o. IfSome o (λ v. HaveGroupParts parts.items v.items)) }
    ensures well_formed { IfOk result (λ o. IfSome o (λ v. All IsWellFormedGroup v.items)) }
    ensures none { IfOk result (λ o. IfNone o ((groups : List GroupContents) → All IsWellFormedGroup groups
        → ¬ HaveGroupParts parts.items groups)) }
{
    let mut groups = Vec::with_capacity(alloc, parts.len())?;
    for part in parts {
        match group_from_parts(alloc, part)? {
            Some(group) => groups.push(group)?,
            None => return Ok(None),
        }
    }
    Ok(Some(groups))
}

/// Makes the tables that have these parts, and the slots of their names. It answers `None` exactly if no well-formed tables have these
/// parts. The cost is the length of the parts, and the logarithm of the count of names for each name.
pub fn tables_from_parts(alloc: Global, parts: TableParts) -> Result<Option<Tables>, AllocError>
    ensures some { IfOk result (λ o. IfSome o (HasParts parts)) }
    ensures well_formed { IfOk result (λ o. IfSome o IsWellFormed) }
    ensures none { IfOk result (λ o. IfNone o ((t : WholeTables) → IsWellFormed t → ¬ HasParts parts t)) }
{
    let Some(opcodes) = opcodes_from_parts(
        alloc,
        parts.names,
        parts.formats,
        parts.type_sets,
        parts.operand_constraints,
        parts.constraints,
    )?
    else {
        return Ok(None);
    };
    let Some(groups) = groups_from_parts(alloc, parts.groups)? else {
        return Ok(None);
    };
    Ok(Some(Tables::new(opcodes, groups)))
}

/// Parts determine well-formed tables: at most one has all these parts, since slots follow from names.
pub fn one_table_has_all_parts()
    ensures { (parts : TableParts) (one other : WholeTables) → IsWellFormed one → IsWellFormed other
        → HasParts parts one → HasParts parts other → one ≡ other }
{
    one_table_has_the_parts();
    one_group_has_the_parts();
}
