ghost use Rattle.std.specs.Prelude.{◌≡◌, ◌++◌, map, Some, None, IfSome, OnOk, All, string_bytes};
ghost use Rattle.std.specs.Option.{option_map};
ghost use Rattle.meta_types.specs.TypeParts.{name_of};
ghost use Rattle.meta_types.specs.TypeNumber.{type_with, IsTypeNumber};
ghost use Rattle.meta_verify.specs.Statement.{value_text};
ghost use Rattle.meta_verify.specs.Numbers.{typed_value_of, applied, IsTypedNumber, HasNumbers};
ghost use Rattle.meta_asm.specs.Short.{shortened, short_results, short_result_text, joined, then_part, control_written, values_written};
ghost use Rattle.meta_asm.specs.Short.{results_part, parameter_text, short_application};
ghost use Rattle.meta_asm.specs.ShortWritten.{manner_in, before_place};

use super::manner::Manner;
use meta_types::ValueType;
use meta_verify::{Application, TypedNumber};
use std::alloc::AllocError;

fn push_type(number: u16, out: &mut String) -> Result<(), AllocError>
    requires { IsTypeNumber number }
    ensures { OnOk result (string_bytes out.new ≡ string_bytes out.old ++ name_of (type_with number)) }
{
    match ValueType::from_number(number) {
        Some(t) => write!(out, "{t}"),
        None => Ok(()),
    }
}

/// Adds a value, such as `v1`.
fn push_value(value: u32, out: &mut String) -> Result<(), AllocError>
    ensures { OnOk result (string_bytes out.new ≡ string_bytes out.old ++ value_text value) }
{
    write!(out, "v{value}")
}

/// Adds a result: `v1`, or with its type `v1:i32`.
fn push_result(r: TypedNumber, is_opened: bool, out: &mut String) -> Result<(), AllocError>
    requires { IsTypedNumber r }
    ensures { OnOk result (string_bytes out.new ≡ string_bytes out.old ++ short_result_text (shortened is_opened (typed_value_of r))) }
{
    push_value(r.value, out)?;
    if is_opened {
        out.push_str(":")?;
        return push_type(r.number, out);
    }
    Ok(())
}

/// Adds what stands before an element of a list: `, `, or nothing before the first.
fn push_comma(place: usize, out: &mut String) -> Result<(), AllocError>
    ensures { OnOk result (string_bytes out.new ≡ string_bytes out.old ++ before_place place) }
{
    if place == 0 {
        return Ok(());
    }
    out.push_str(", ")
}

/// Adds the results, separated by a comma and a space.
fn push_joined_results(
    manner: &Manner<'_>,
    results: &[TypedNumber],
    out: &mut String,
) -> Result<(), AllocError>
    requires { All IsTypedNumber results.now }
    ensures { OnOk result (string_bytes out.new ≡ string_bytes out.old
        ++ joined (map short_result_text (short_results (manner_in manner.now).opened (map typed_value_of results.now)))) }
{
    for k in 0..results.len() {
        push_comma(k, out)?;
        push_result(results[k], manner.is_opened(k), out)?;
    }
    Ok(())
}

/// Adds what stands before the name: the results and ` = `, or nothing if there are no results.
fn push_results(
    manner: &Manner<'_>,
    results: &[TypedNumber],
    out: &mut String,
) -> Result<(), AllocError>
    requires { All IsTypedNumber results.now }
    ensures { OnOk result (string_bytes out.new ≡ string_bytes out.old
        ++ results_part (map short_result_text (short_results (manner_in manner.now).opened (map typed_value_of results.now)))) }
{
    if results.is_empty() {
        return Ok(());
    }
    push_joined_results(manner, results, out)?;
    out.push_str(" = ")
}

/// Adds what stands after the name if there is one controlling type: `.i32`, or nothing if it is left out.
fn push_alone(leaves_out: bool, number: u16, out: &mut String) -> Result<(), AllocError>
    requires { IsTypeNumber number }
    ensures { OnOk result (string_bytes out.new
        ≡ string_bytes out.old ++ then_part 46 (control_written leaves_out (Some (type_with number)) None)) }
{
    if leaves_out {
        return Ok(());
    }
    out.push_str(".")?;
    push_type(number, out)
}

/// Adds what stands after the name for the controlling types: `.i32`, `.i32/i64`, or nothing.
fn push_control(
    leaves_out: bool,
    control: Option<u16>,
    second: Option<u16>,
    out: &mut String,
) -> Result<(), AllocError>
    requires control { IfSome control IsTypeNumber }
    requires second { IfSome second IsTypeNumber }
    ensures { OnOk result (string_bytes out.new
        ≡ string_bytes out.old ++ then_part 46 (control_written leaves_out (option_map type_with control) (option_map type_with second))) }
{
    let Some(number) = control else {
        return Ok(());
    };
    let Some(other) = second else {
        return push_alone(leaves_out, number, out);
    };
    out.push_str(".")?;
    push_type(number, out)?;
    out.push_str("/")?;
    push_type(other, out)
}

/// Adds the values, separated by a comma and a space.
fn push_joined_values(values: &[u32], out: &mut String) -> Result<(), AllocError>
    ensures { OnOk result (string_bytes out.new ≡ string_bytes out.old ++ joined (map value_text values.now)) }
{
    for k in 0..values.len() {
        push_comma(k, out)?;
        push_value(values[k], out)?;
    }
    Ok(())
}

/// Adds what comes next, for the values: ` v0, v1`, or nothing.
fn push_values(values: &[u32], out: &mut String) -> Result<(), AllocError>
    ensures { OnOk result (string_bytes out.new ≡ string_bytes out.old ++ then_part 32 (values_written (map value_text values.now))) }
{
    if values.is_empty() {
        return Ok(());
    }
    out.push_str(" ")?;
    push_joined_values(values, out)
}

/// Adds the line of an application, with the types left out that its manner leaves out.
pub(crate) fn push_application(
    manner: &Manner<'_>,
    application: &Application<'_>,
    out: &mut String,
) -> Result<(), AllocError>
    requires named { manner.now.name.now ≡ application.now.name.now }
    requires known { HasNumbers application.now }
    ensures { OnOk result (string_bytes out.new
        ≡ string_bytes out.old ++ short_application (manner_in manner.now) (applied application.now)) }
{
    push_results(manner, &application.results, out)?;
    out.push_str(manner.name.as_str())?;
    push_control(
        manner.leaves_out,
        application.control,
        application.second,
        out,
    )?;
    push_values(&application.values, out)
}

pub(crate) fn push_parameter(parameter: TypedNumber, out: &mut String) -> Result<(), AllocError>
    requires { IsTypedNumber parameter }
    ensures { OnOk result (string_bytes out.new ≡ string_bytes out.old ++ parameter_text (typed_value_of parameter)) }
{
    out.push_str("param ")?;
    push_value(parameter.value, out)?;
    out.push_str(" ")?;
    push_type(parameter.number, out)
}
