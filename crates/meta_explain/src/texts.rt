ghost use Rattle.std.specs.Prelude.{◌≡◌, ◌++◌, All, IfSome, OnOk, string_bytes};
ghost use Rattle.meta_types.specs.TypeNumber.{IsTypeNumber};
ghost use Rattle.meta_explain.specs.Texts.{type_text, optional_text, next_text, more_text, alternatives_text, set_text};

use super::sets::{are_all_among, least_masks, push_item, type_of};
use std::alloc::AllocError;

/// Adds the name of the type with this number.
pub fn push_type(out: &mut String, number: u16) -> Result<(), AllocError>
    requires { IsTypeNumber number }
    ensures { OnOk result (string_bytes out.new ≡ string_bytes out.old ++ type_text number) }
{
    let value_type = type_of(number);
    write!(out, "{value_type}")
}

/// Adds the name of the type, or `-` if there is none.
pub(crate) fn push_optional(out: &mut String, number: Option<u16>) -> Result<(), AllocError>
    requires { IfSome number IsTypeNumber }
    ensures { OnOk result (string_bytes out.new ≡ string_bytes out.old ++ optional_text number) }
{
    match number {
        Some(number) => push_type(out, number),
        None => out.push_str("-"),
    }
}

/// Adds the names of the types with these numbers, each after `|`.
fn push_more(out: &mut String, numbers: &[u16]) -> Result<(), AllocError>
    requires { All IsTypeNumber numbers.now }
    ensures { OnOk result (string_bytes out.new ≡ string_bytes out.old ++ more_text numbers.now) }
{
    for number in numbers {
        push_next(out, *number)?;
    }
    Ok(())
}

fn push_next(out: &mut String, number: u16) -> Result<(), AllocError>
    requires { IsTypeNumber number }
    ensures { OnOk result (string_bytes out.new ≡ string_bytes out.old ++ next_text number) }
{
    out.push_str("|")?;
    push_type(out, number)
}

/// Adds the names of the types with these numbers, separated by `|`, or `none` if there are none.
pub fn push_alternatives(out: &mut String, numbers: &[u16]) -> Result<(), AllocError>
    requires { All IsTypeNumber numbers.now }
    ensures { OnOk result (string_bytes out.new ≡ string_bytes out.old ++ alternatives_text numbers.now) }
{
    match numbers {
        [] => out.push_str("none"),
        [first, rest @ ..] => {
            push_type(out, *first)?;
            push_more(out, rest)
        }
    }
}

/// Adds the types with these numbers: `none`, or the name of the only one. Several that are exactly the set of one `type` item of the
/// language are written as that item has it, such as `lanes 1..4, ints 8..64`. Any others are written by their names, as
/// `push_alternatives` writes them.
pub fn push_set(out: &mut String, numbers: &[u16]) -> Result<(), AllocError>
    requires { All IsTypeNumber numbers.now }
    ensures { OnOk result (string_bytes out.new ≡ string_bytes out.old ++ set_text numbers.now) }
{
    if numbers.len() < 2 {
        return push_alternatives(out, numbers);
    }
    let masks = least_masks(numbers);
    if !are_all_among(masks, numbers) {
        return push_alternatives(out, numbers);
    }
    push_item(out, masks)
}
