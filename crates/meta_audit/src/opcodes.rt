ghost use Rattle.std.specs.Prelude.{◌≡◌, ◌↔◌, ◌<◌, ◌+◌, ℕ, length, IsTrue};
ghost use Rattle.meta_inst.specs.Tables.{result_count, value_count};
ghost use Rattle.meta_gen.specs.Constraint.{entry_of};
ghost use Rattle.meta_gen.specs.WellFormedOpcodes.{IsWellFormedOpcodes};
ghost use Rattle.meta_audit.specs.Comparison.{SamePlace, SameEntry, SameOpcode};

use super::controls::same_control;
use super::places::Places;
use meta_gen::{OpcodeConstraints, OpcodeTables};

/// Whether at each operand of the one entry the same numbers pass as at that of the other.
fn same_operands(
    own: &OpcodeTables,
    other: &OpcodeTables,
    entry: OpcodeConstraints,
    other_entry: OpcodeConstraints,
) -> bool
    requires own { IsWellFormedOpcodes own.now }
    requires other { IsWellFormedOpcodes other.now }
    ensures { IsTrue result ↔ ((k : ℕ) → k < result_count entry.flags + value_count entry.flags
        → SamePlace own.now other.now entry.typeset_offset entry.second_offset (entry.constraint_offset + k)
        (other_entry.constraint_offset + k)) }
{
    let start = entry.constraint_offset as usize;
    let other_start = other_entry.constraint_offset as usize;
    let count = entry.result_count() + entry.value_count();
    for k in 0..count {
        let places = Places {
            own,
            other,
            at: start + k,
            other_at: other_start + k,
        };
        if !places.same(entry.typeset_offset, entry.second_offset) {
            return false;
        }
    }
    true
}

fn same_entry(
    own: &OpcodeTables,
    other: &OpcodeTables,
    entry: OpcodeConstraints,
    other_entry: OpcodeConstraints,
) -> bool
    requires own { IsWellFormedOpcodes own.now }
    requires other { IsWellFormedOpcodes other.now }
    ensures { IsTrue result ↔ SameEntry own.now other.now (entry_of entry) (entry_of other_entry) }
{
    if other_entry.result_count() != entry.result_count() {
        return false;
    }
    if other_entry.value_count() != entry.value_count() {
        return false;
    }
    if !same_control(own, other, entry.typeset_offset, other_entry.typeset_offset) {
        return false;
    }
    if !same_control(own, other, entry.second_offset, other_entry.second_offset) {
        return false;
    }
    same_operands(own, other, entry, other_entry)
}

/// Whether the opcodes of the place, which is that of an opcode in both, have one name and mean the same.
pub(crate) fn same_opcode(own: &OpcodeTables, other: &OpcodeTables, place: u16) -> bool
    requires own { IsWellFormedOpcodes own.now }
    requires other { IsWellFormedOpcodes other.now }
    requires within { place < length own.now.entries }
    requires other_within { place < length other.now.entries }
    ensures { IsTrue result ↔ SameOpcode own.now other.now place }
{
    let opcode = place + 1;
    let Some(name) = own.opcode_name(opcode) else {
        return false;
    };
    let Some(other_name) = other.opcode_name(opcode) else {
        return false;
    };
    if other_name != name {
        return false;
    }
    let Some(entry) = own.constraints(opcode) else {
        return false;
    };
    let Some(other_entry) = other.constraints(opcode) else {
        return false;
    };
    same_entry(own, other, entry, other_entry)
}
