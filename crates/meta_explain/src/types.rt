ghost use Rattle.std.specs.Prelude.{◌↔◌, IsTrue, IfOk};
ghost use Rattle.meta_inst.specs.Tables.{PassesAt};
ghost use Rattle.meta_explain.specs.Listed.{AreListed, IsLess};
ghost use Rattle.meta_explain.specs.Parts.{numbers_of};
ghost use Rattle.meta_explain.specs.Search.{TypesAlonePass, SomePasses};
ghost use Rattle.meta_explain.specs.Wanted.{AreOfControl};

use super::control_types::ControlTypes;
use meta_gen::OpcodeTables;
use std::alloc::{AllocError, Global};

/// The least number of a type.
pub(crate) const FIRST_TYPE: u16 = 116;

/// The number after the greatest number of a type.
pub(crate) const TYPES_END: u16 = 381;

/// The numbers that fit a control with this type set offset, in rising order.
pub(crate) fn control_types(
    alloc: Global,
    tables: &OpcodeTables,
    offset: u16,
) -> Result<Vec<u16>, AllocError>
    ensures { IfOk result (λ v. AreOfControl tables.now offset v.items) }
{
    let mut types = Vec::new(alloc);
    for number in FIRST_TYPE..TYPES_END {
        if tables.control_fits(offset, Some(number)) {
            types.push(number)?;
        }
    }
    Ok(types)
}

/// The numbers that pass the operand constraint at the place, in rising order.
pub(crate) fn types_at(
    alloc: Global,
    tables: &OpcodeTables,
    controls: ControlTypes,
    place: usize,
) -> Result<Vec<u16>, AllocError>
    requires { TypesAlonePass tables.now (numbers_of controls) }
    ensures { IfOk result (λ v. AreListed IsLess (PassesAt tables.now (numbers_of controls) place) v.items) }
{
    let mut types = Vec::new(alloc);
    for number in FIRST_TYPE..TYPES_END {
        if tables.operand_passes(controls.ctrl, controls.second, place, number) {
            types.push(number)?;
        }
    }
    Ok(types)
}

/// Whether some number passes the operand constraint at the place.
pub(crate) fn has_type_at(tables: &OpcodeTables, controls: ControlTypes, place: usize) -> bool
    requires { TypesAlonePass tables.now (numbers_of controls) }
    ensures { IsTrue result ↔ SomePasses tables.now (numbers_of controls) place }
{
    for number in FIRST_TYPE..TYPES_END {
        if tables.operand_passes(controls.ctrl, controls.second, place, number) {
            return true;
        }
    }
    false
}
