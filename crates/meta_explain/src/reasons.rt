ghost use Rattle.std.specs.Prelude.{◌≡◌, ◌++◌, All, Contains, IfSome, OnOk, slice_get, string_bytes};
ghost use Rattle.std.specs.Fmt.{decimal};
ghost use Rattle.meta_types.specs.TypeNumber.{IsTypeNumber};
ghost use Rattle.meta_inst.specs.Controls.{which_of};
ghost use Rattle.meta_inst.specs.Tables.{FreeOf};
ghost use Rattle.meta_gen.specs.Demand.{number_constraint_demanded};
ghost use Rattle.meta_explain.specs.Options.{AreTypes};
ghost use Rattle.meta_explain.specs.Texts.{place_text, held_text, wants_text, control_letter, demand_text};

use super::control_types::ControlTypes;
use super::explained::Wanted;
use super::part::Part;
use super::texts::{push_optional, push_set, push_type};
use super::types::control_types;
use meta_gen::{Demand, OpcodeTables, Which};
use std::alloc::AllocError;

fn push_count(out: &mut String, count: usize) -> Result<(), AllocError>
    ensures { OnOk result (string_bytes out.new ≡ string_bytes out.old ++ decimal count) }
{
    write!(out, "{count}")
}

/// The number of the type of the operand at the place. `None` if there are fewer operands.
fn operand_at(results: &[u16], values: &[u16], place: usize) -> Option<u16>
    ensures { result ≡ slice_get (results.now ++ values.now) place }
{
    if place < results.len() {
        return Some(results[place]);
    }
    values.get(place - results.len()).copied()
}

fn letter(which: Which) -> &'static str
    ensures { result.now ≡ control_letter (which_of which) }
{
    match which {
        Which::First => "T",
        Which::Second => "U",
    }
}

/// Adds the part, such as `control`, `result 0` or `value 1`, if there are so many results.
pub fn push_place(out: &mut String, part: Part, result_count: usize) -> Result<(), AllocError>
    ensures { OnOk result (string_bytes out.new ≡ string_bytes out.old ++ place_text part result_count) }
{
    match part {
        Part::Control => out.push_str("control"),
        Part::Second => out.push_str("second control"),
        Part::ResultCount => out.push_str("results"),
        Part::ValueCount => out.push_str("values"),
        Part::Operand(place) => {
            if place < result_count {
                return write!(out, "result {place}");
            }
            let place = place - result_count;
            write!(out, "value {place}")
        }
    }
}

/// Adds what the part has, such as `has i64`: the type of the control or of the operand, `-` if there is none, or the count. Types are given
/// by their numbers.
pub fn push_held(
    out: &mut String,
    part: Part,
    controls: ControlTypes,
    results: &[u16],
    values: &[u16],
) -> Result<(), AllocError>
    requires control { IfSome controls.ctrl IsTypeNumber }
    requires second { IfSome controls.second IsTypeNumber }
    requires operands { All IsTypeNumber (results.now ++ values.now) }
    ensures { OnOk result (string_bytes out.new ≡ string_bytes out.old ++ held_text part controls results.now values.now) }
{
    out.push_str("has ")?;
    match part {
        Part::Control => push_optional(out, controls.ctrl),
        Part::Second => push_optional(out, controls.second),
        Part::ResultCount => push_count(out, results.len()),
        Part::ValueCount => push_count(out, values.len()),
        Part::Operand(place) => push_optional(out, operand_at(results, values, place)),
    }
}

/// Adds what the part has to be, such as `wants ints 8..64`: `-` for no control, the types as `push_set` writes them, or the count.
pub fn push_wants(out: &mut String, wanted: &Wanted) -> Result<(), AllocError>
    requires { AreTypes wanted.now }
    ensures { OnOk result (string_bytes out.new ≡ string_bytes out.old ++ wants_text wanted.now) }
{
    out.push_str("wants ")?;
    match wanted {
        Wanted::Nothing => out.push_str("-"),
        Wanted::Types(numbers) => push_set(out, numbers),
        Wanted::Count(count) => push_count(out, *count),
    }
}

/// Adds what an operand is that may be any type of the type set at this place.
fn push_free(out: &mut String, tables: &OpcodeTables, set: u16) -> Result<(), AllocError>
    requires { Contains tables.now.operand_constraints (FreeOf set) }
    ensures { OnOk result (string_bytes out.new ≡ string_bytes out.old ++ demand_text tables.now.type_sets (FreeOf set)) }
{
    let _count = tables.opcode_count();
    let numbers = control_types(*out.allocator(), tables, set)?;
    out.push_str("(")?;
    push_set(out, &numbers)?;
    out.push_str(")")
}

/// Adds what an operand is that the tables have with this demand: `i32` for a type, `(ints 8..64)` for any type of a set, as `push_set`
/// writes it, `T` for the control, `U` for the second control, and `narrower(T)` for what a function gives of it.
pub fn push_demand(
    out: &mut String,
    tables: &OpcodeTables,
    demand: Demand,
) -> Result<(), AllocError>
    requires { Contains tables.now.operand_constraints (number_constraint_demanded demand) }
    ensures { OnOk result (string_bytes out.new ≡ string_bytes out.old
        ++ demand_text tables.now.type_sets (number_constraint_demanded demand)) }
{
    let _count = tables.opcode_count();
    match demand {
        Demand::Number(number) => push_type(out, number),
        Demand::OfSet(set) => push_free(out, tables, set),
        Demand::Controlling(which) => out.push_str(letter(which)),
        Demand::By(which, derived_func) => {
            let function = derived_func.name();
            let control = letter(which);
            write!(out, "{function}({control})")
        }
    }
}
