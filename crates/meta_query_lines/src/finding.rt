ghost use Rattle.std.specs.Prelude.{◌≡◌, ◌++◌, ℕ, List, Some, IfSome, OnOk, map, slice_get, string_bytes};
ghost use Rattle.meta_types.specs.TypeNumber.{IsTypeNumber};
ghost use Rattle.meta_explain.specs.declared.found.Found.{Found};
ghost use Rattle.meta_query_lines.specs.Request.{controls_text};
ghost use Rattle.meta_query_lines.specs.SettingLine.{list_of_names};
ghost use Rattle.meta_query_lines.specs.Explanation.{opcode_text, found_text, AreFound};

use super::listed::{push_comma, push_dash};
use meta_explain::{ControlTypes, Found, find, push_type, types_alone_pass};
use meta_gen::OpcodeTables;
use std::alloc::{AllocError, Global};

/// Adds the name of an opcode.
pub(crate) fn push_opcode(
    out: &mut String,
    tables: &OpcodeTables,
    opcode: u16,
) -> Result<(), AllocError>
    ensures { OnOk result (string_bytes out.new ≡ string_bytes out.old ++ opcode_text tables.now opcode) }
{
    match tables.opcode_name(opcode) {
        Some(name) => out.push_str(name.as_str()),
        None => Ok(()),
    }
}

/// Adds the controls as a line of `accept` has them.
fn push_controls(out: &mut String, controls: ControlTypes) -> Result<(), AllocError>
    requires control { IfSome controls.ctrl IsTypeNumber }
    requires second { IfSome controls.second IsTypeNumber }
    ensures { OnOk result (string_bytes out.new ≡ string_bytes out.old ++ controls_text controls) }
{
    let Some(control) = controls.ctrl else {
        return out.push_str("-");
    };
    push_type(out, control)?;
    let Some(second) = controls.second else {
        return Ok(());
    };
    out.push_str("/")?;
    push_type(out, second)
}

fn push_found_one(out: &mut String, tables: &OpcodeTables, found: Found) -> Result<(), AllocError>
    requires control { IfSome found.controls.ctrl IsTypeNumber }
    requires second { IfSome found.controls.second IsTypeNumber }
    ensures { OnOk result (string_bytes out.new ≡ string_bytes out.old ++ found_text tables.now found) }
{
    push_opcode(out, tables, found.opcode)?;
    out.push_str(" ")?;
    push_controls(out, found.controls)
}

/// Adds what is found, as a list.
fn push_found(out: &mut String, tables: &OpcodeTables, found: &[Found]) -> Result<(), AllocError>
    requires { (k : ℕ) (x : Found) → slice_get found.now k ≡ Some x
        → IfSome x.controls.ctrl IsTypeNumber × IfSome x.controls.second IsTypeNumber }
    ensures { OnOk result (string_bytes out.new ≡ string_bytes out.old ++ list_of_names (map (found_text tables.now) found.now)) }
{
    for k in 0..found.len() {
        push_comma(out, k)?;
        push_found_one(out, tables, found[k])?;
    }
    push_dash(out, found.len())
}

/// Adds the instructions and controls that accept these types, of which `None` stands for any type.
pub(crate) fn push_find(
    alloc: Global,
    out: &mut String,
    tables: &OpcodeTables,
    results: &[Option<u16>],
    values: &[Option<u16>],
) -> Result<(), AllocError>
    ensures { OnOk result ((text : List ℕ) × AreFound tables.now results.now values.now text
        × (string_bytes out.new ≡ string_bytes out.old ++ text)) }
{
    types_alone_pass();
    let _count = tables.opcode_count();
    let found = find(alloc, tables, results, values)?;
    push_found(out, tables, &found)
}
