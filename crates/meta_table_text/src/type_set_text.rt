ghost use Rattle.std.specs.Prelude.{◌≡◌, ◌++◌, ◌∷◌, [], ℕ, List, IfOk, OnOk, map, string_bytes};
ghost use Rattle.std.specs.Fmt.{decimal};
ghost use Rattle.std.specs.Option.{option_map};
ghost use Rattle.meta_table_text.specs.TypeSetText.{parted_after, held, members, part_of, masks_text, set_or_nothing, set_comment};
ghost use Rattle.meta_table_text.specs.TypeSetText.{set_block};

use meta_typevar::Masks;
use std::alloc::AllocError;

/// The powers of two that a mask can hold.
const POWERS: [u16; 16] = [
    1, 2, 4, 8, 16, 32, 64, 128, 256, 512, 1024, 2048, 4096, 8192, 16384, 32768,
];

/// Adds `before` and a number if the mask holds the number, and answers what stands before the next number.
fn push_number<'a>(
    out: &mut String,
    mask: u16,
    number: u16,
    before: &'a str,
) -> Result<&'a str, AllocError>
    ensures { IfOk result (λ next. (rest : List ℕ)
        → string_bytes out.new ++ parted_after next.now (map decimal (held mask rest))
        ≡ string_bytes out.old ++ parted_after before.now (map decimal (held mask (number ∷ rest)))) }
{
    if mask & number != number {
        return Ok(before);
    }
    write!(out, "{before}{number}")?;
    Ok(", ")
}

/// Adds the numbers that the mask holds, separated by a comma and a space.
fn push_held(out: &mut String, mask: u16, numbers: &[u16]) -> Result<(), AllocError>
    ensures { OnOk result (string_bytes out.new ≡ string_bytes out.old ++ parted_after [] (map decimal (held mask numbers.now))) }
{
    let mut before = "";
    for number in numbers {
        before = push_number(out, mask, *number, before)?;
    }
    Ok(())
}

/// Adds the powers of two that the mask holds.
#[tactic(auto, unfolding(crate::specs::TypeSetText::members))]
fn push_members(out: &mut String, mask: u16) -> Result<(), AllocError>
    ensures { OnOk result (string_bytes out.new ≡ string_bytes out.old ++ members mask) }
{
    push_held(out, mask, &POWERS)
}

/// Adds the text `before`, the members of a mask and `}`. It adds nothing if the mask is empty.
#[tactic(auto, unfolding(crate::specs::TypeSetText::part_of))]
fn push_part(out: &mut String, before: &str, mask: u16) -> Result<(), AllocError>
    ensures { OnOk result (string_bytes out.new ≡ string_bytes out.old ++ part_of before.now mask) }
{
    if mask == 0 {
        return Ok(());
    }
    out.push_str(before)?;
    push_members(out, mask)?;
    out.push_str("}")
}

#[tactic(auto, unfolding(crate::specs::TypeSetText::masks_text))]
fn push_set_text(out: &mut String, masks: &Masks) -> Result<(), AllocError>
    ensures { OnOk result (string_bytes out.new ≡ string_bytes out.old ++ masks_text masks.now) }
{
    out.push_str("TypeSet(lanes={")?;
    push_members(out, masks.lanes)?;
    out.push_str("}")?;
    push_part(out, ", ints={", u16::from(masks.ints))?;
    push_part(out, ", floats={", u16::from(masks.floats))?;
    out.push_str(")")
}

fn push_set_or_nothing(out: &mut String, masks: Option<&Masks>) -> Result<(), AllocError>
    ensures { OnOk result (string_bytes out.new ≡ string_bytes out.old ++ set_or_nothing (option_map (λ m. m.now) masks.entry)) }
{
    match masks {
        Some(masks) => push_set_text(out, masks),
        None => Ok(()),
    }
}

/// Adds the comment that says what a type set is for, and the type set, if there is one.
#[tactic(auto, unfolding(crate::specs::TypeSetText::set_comment))]
pub(crate) fn push_set_comment(
    out: &mut String,
    about: &str,
    masks: Option<&Masks>,
) -> Result<(), AllocError>
    ensures { OnOk result (string_bytes out.new ≡ string_bytes out.old ++ set_comment about.now
        (set_or_nothing (option_map (λ m. m.now) masks.entry))) }
{
    out.push_str("        // ")?;
    out.push_str(about)?;
    push_set_or_nothing(out, masks)?;
    out.push_str("\n")
}

#[tactic(auto, unfolding(crate::specs::TypeSetText::set_block, crate::specs::TypeSetText::mask_lines))]
pub(crate) fn push_set(out: &mut String, masks: &Masks) -> Result<(), AllocError>
    ensures { OnOk result (string_bytes out.new ≡ string_bytes out.old ++ set_block masks.now) }
{
    let (lanes, dynamic_lanes) = (masks.lanes, masks.dynamic_lanes);
    let (ints, floats) = (masks.ints, masks.floats);
    write!(
        out,
        "    ir::instructions::ValueTypeSet {{
        lanes: ScalarBitSet::<u16>({lanes}),
        dynamic_lanes: ScalarBitSet::<u16>({dynamic_lanes}),
        ints: ScalarBitSet::<u8>({ints}),
        floats: ScalarBitSet::<u8>({floats}),
"
    )?;
    push_set_comment(out, "", Some(masks))?;
    out.push_str("    }\n    ,\n")
}
