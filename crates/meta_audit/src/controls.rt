ghost use Rattle.std.specs.Prelude.{◌≡◌, ◌↔◌, ℕ, Option, IsTrue, IfSome, IfNone};
ghost use Rattle.meta_inst.specs.Tables.{ControlNumberFits};
ghost use Rattle.meta_gen.specs.WellFormedOpcodes.{IsWellFormedOpcodes};
ghost use Rattle.meta_audit.specs.Comparison.{SameControl};

use super::forms::same_masks;
use meta_gen::OpcodeTables;

/// The base from which the numbers of types count. All of them are greater.
pub(crate) const LEAST: u16 = 112;

/// A number above those of all types, of which the greatest is 380.
pub(crate) const END: u16 = 384;

/// A number that the control of this offset can have, or `Some(None)` if there is no such control. It is `None` if there is such a control,
/// and its type set contains nothing.
pub(crate) fn some_control(tables: &OpcodeTables, offset: u16) -> Option<Option<u16>>
    ensures some { IfSome result (λ c. ControlNumberFits tables.now offset c) }
    ensures none { IfNone result ((c : Option ℕ) → ¬ ControlNumberFits tables.now offset c) }
{
    if tables.control_fits(offset, None) {
        return Some(None);
    }
    for n in LEAST..END {
        if tables.control_fits(offset, Some(n)) {
            return Some(Some(n));
        }
    }
    None
}

/// Whether the same numbers fit an offset of the one and an offset of the other. If both have type sets with the same masks, no number is
/// tested.
pub(crate) fn same_control(
    own: &OpcodeTables,
    other: &OpcodeTables,
    offset: u16,
    other_offset: u16,
) -> bool
    requires own { IsWellFormedOpcodes own.now }
    requires other { IsWellFormedOpcodes other.now }
    ensures { IsTrue result ↔ SameControl own.now other.now offset other_offset }
{
    let is_absent = own.control_fits(offset, None);
    if other.control_fits(other_offset, None) != is_absent {
        return false;
    }
    if is_absent {
        return true;
    }
    if same_masks(own, other, offset, other_offset) {
        return true;
    }
    for n in LEAST..END {
        if own.control_fits(offset, Some(n)) != other.control_fits(other_offset, Some(n)) {
            return false;
        }
    }
    true
}
