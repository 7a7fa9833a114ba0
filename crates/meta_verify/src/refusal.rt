ghost use Rattle.std.specs.Prelude.{◌≡◌, ◌++◌, ℕ, List, OnOk, string_bytes, map, slice_get, All};
ghost use Rattle.meta_types.specs.TypeNumber.{IsTypeNumber};
ghost use Rattle.meta_explain.specs.Options.{AreTypes};
ghost use Rattle.meta_verify.specs.Defined.{environment_of, AreTypeNumbers};
ghost use Rattle.meta_verify.specs.Numbers.{typed_value_of, applied, controls_in, HasNumbers};
ghost use Rattle.meta_verify.specs.Why.{value_at, value_part, refusal_text, IsRefusedIn, IsToldOf};

use super::defined::look_up;
use super::known::KnownTypes;
use super::lists::Lists;
use super::mistake::put_numbers;
use super::statement::{Application, TypedNumber};
use meta_explain::{
    ControlTypes, Explained, Part, Wanted, explain, push_held, push_place, push_wants,
};
use meta_gen::Tables;
use std::alloc::{AllocError, Global};

fn get_value(values: &[u32], place: usize) -> Option<u32>
    ensures { result ≡ slice_get values.now place }
{
    values.get(place).copied()
}

/// The value at the place among the results and then the values.
fn operand_at(results: &[TypedNumber], values: &[u32], place: usize) -> Option<u32>
    ensures { result ≡ slice_get (map (λ r. r.value) (map typed_value_of results.now) ++ values.now) place }
{
    if place < results.len() {
        return Some(results[place].value);
    }
    get_value(values, place - results.len())
}

/// The value at the part, if the part is an operand: a result or a value.
fn value_at(application: &Application<'_>, part: Part) -> Option<u32>
    ensures { result ≡ value_at (applied application.now) part }
{
    match part {
        Part::Operand(place) => operand_at(&application.results, &application.values, place),
        Part::Control | Part::Second | Part::ResultCount | Part::ValueCount => None,
    }
}

/// Adds the value at the part and a space, such as `v4 `, or nothing if the part is no operand.
fn push_value(application: &Application<'_>, part: Part, out: &mut String) -> Result<(), AllocError>
    ensures { OnOk result (string_bytes out.new ≡ string_bytes out.old ++ value_part (value_at (applied application.now) part)) }
{
    match value_at(application, part) {
        Some(value) => write!(out, "v{value} "),
        None => Ok(()),
    }
}

fn controls_of(application: &Application<'_>) -> ControlTypes
    ensures { result ≡ controls_in application.now }
{
    ControlTypes {
        ctrl: application.control,
        second: application.second,
    }
}

/// The numbers of the types of an application: of its results, and of its values.
#[derive(Clone, Copy)]
struct OperandTypes<'a> {
    results: &'a [u16],
    values: &'a [u16],
}

/// Adds what is told: the part with its value, what it has, and what it has to be.
fn push_reason(
    application: &Application<'_>,
    types: OperandTypes<'_>,
    part: Part,
    wanted: &Wanted,
    out: &mut String,
) -> Result<(), AllocError>
    requires numbers { HasNumbers application.now }
    requires operands { All IsTypeNumber (types.results.now ++ types.values.now) }
    requires wanted { AreTypes wanted.now }
    ensures { OnOk result (string_bytes out.new ≡ string_bytes out.old
        ++ refusal_text (applied application.now) (controls_in application.now) types.entry.results.now types.entry.values.now part wanted.now) }
{
    let controls = controls_of(application);
    out.push_str(" ")?;
    push_place(out, part, application.results.len())?;
    out.push_str(": ")?;
    push_value(application, part, out)?;
    push_held(out, part, controls, types.results, types.values)?;
    out.push_str(", ")?;
    push_wants(out, wanted)
}

/// Adds why the instruction refuses what is stated: after a space the first part that fails, what it has, and what it has to be.
pub(crate) fn push_why_refused(
    alloc: Global,
    types: &KnownTypes,
    tables: &Tables,
    application: &Application<'_>,
    out: &mut String,
) -> Result<(), AllocError>
    requires known { AreTypeNumbers types.now }
    requires numbers { HasNumbers application.now }
    requires refused { IsRefusedIn tables.now.opcodes (environment_of types.now) (applied application.now) }
    ensures { OnOk result ((more : List ℕ) × IsToldOf tables.now.opcodes (environment_of types.now) (applied application.now) more
        × (string_bytes out.new ≡ string_bytes out.old ++ more)) }
{
    let _opcodes = tables.opcode_count();
    let Some(opcode) = tables.find_opcode(application.name) else {
        return Ok(());
    };
    let mut lists = Lists::new(alloc);
    if look_up(types, &application.values, &mut lists.value_numbers)?.is_some() {
        return Ok(());
    }
    put_numbers(&application.results, &mut lists.result_numbers)?;
    let controls = controls_of(application);
    let numbers = OperandTypes {
        results: &lists.result_numbers,
        values: &lists.value_numbers,
    };
    let explained = explain(
        alloc,
        tables.opcodes(),
        opcode,
        controls,
        numbers.results,
        numbers.values,
    )?;
    match explained {
        Some(Explained::Refuse(part, wanted)) => {
            push_reason(application, numbers, part, &wanted, out)
        }
        Some(Explained::Accept) => Ok(()),
        None => Ok(()),
    }
}
