ghost use Rattle.std.specs.Prelude.{◌≡◌, ◌++◌, ◌||◌, ℕ, List, OnOk, IfOk, string_bytes};
ghost use Rattle.std.specs.Char.{is_ascii_uppercase, encode_utf8};
ghost use Rattle.meta_rust_insts.specs.Members.{member_filled};
ghost use Rattle.meta_rust_insts.specs.EntityWord.{last_part, mark_before, snake_from, snake_case, entity_word};
ghost use Rattle.meta_rust_insts.specs.MapMethod.{mapped_value, mapped_below, mapped, mapped_values, mapped_or_kept};
ghost use Rattle.meta_rust_insts.specs.MapMethod.{immediate_mapper, mapped_field, mapped_members, map_arm};

use super::held::{Values, blocks_of, raw_block_member, values_of};
use super::members::{PLAIN, REBUILT, REBUILT_HOLES, pattern, push_kept, push_member};
use meta_operands::{FormatField, InstructionFormat, OperandKindFields};
use meta_text::{fill, push_text};
use std::alloc::{AllocError, Global};

/// The blocks with their arguments: one alone, or two.
const MAPPED_CALL: &str = "                    destination: mapper.map_block_call(destination),\n";

const MAPPED_CALLS: &str =
    "                    blocks: [mapper.map_block_call(blocks[0]), mapper.map_block_call(blocks[1])],\n";

const MAPPED_BLOCK: &str = "                    $member$: mapper.map_block($member$),\n";

/// Adds the mapped value at a place of the array, after a comma if others come before it.
#[tactic(auto, unfolding(crate::specs::MapMethod::mapped_value))]
fn push_mapped_value(out: &mut String, place: u32) -> Result<(), AllocError>
    ensures { OnOk result (string_bytes out.new ≡ string_bytes out.old ++ mapped_value place) }
{
    if place == 0 {
        return push_text(out, "mapper.map_value(args[0])");
    }
    write!(out, ", mapper.map_value(args[{place}])")
}

/// The mapped values of an array of `count`, separated by a comma and a space.
fn mapped_elements(alloc: Global, count: u32) -> Result<String, AllocError>
    ensures { IfOk result (λ text. string_bytes text ≡ mapped_below count) }
{
    let mut text = String::new(alloc);
    for place in 0..count {
        push_mapped_value(&mut text, place)?;
    }
    Ok(text)
}

#[tactic(auto, unfolding(crate::specs::MapMethod::mapped))]
fn push_mapped(out: &mut String, member: &str, word: &str) -> Result<(), AllocError>
    ensures { OnOk result (string_bytes out.new ≡ string_bytes out.old ++ mapped member.now word.now) }
{
    write!(
        out,
        "                    {member}: mapper.map_{word}({member}),\n"
    )
}

#[tactic(auto, unfolding(crate::specs::MapMethod::mapped_values))]
fn push_mapped_values(alloc: Global, out: &mut String, values: Values) -> Result<(), AllocError>
    ensures { OnOk result (string_bytes out.new ≡ string_bytes out.old ++ mapped_values values) }
{
    match values {
        Values::Absent => Ok(()),
        Values::One => push_mapped(out, "arg", "value"),
        Values::Several(count) => {
            let elements = mapped_elements(alloc, count)?;
            let elements = elements.as_str();
            write!(out, "                    args: [{elements}],\n")
        }
        Values::Listed => push_mapped(out, "args", "value_list"),
    }
}

/// The last part of a path, such as `StackSlot` of `ir::StackSlot`.
fn last_part(path: &str) -> &str
    ensures { result.now ≡ last_part path.now }
{
    match path.rsplit_once("::") {
        Some((_, last)) => last,
        None => path,
    }
}

/// What stands before a letter: a `_` before a capital, if a capital came before it in the name.
fn mark_before(later: bool, c: char) -> &'static str
    ensures { result.now ≡ mark_before later c }
{
    if later && c.is_ascii_uppercase() {
        "_"
    } else {
        ""
    }
}

fn push_letter(out: &mut String, later: bool, c: char) -> Result<(), AllocError>
    ensures { OnOk result ((rest : List ℕ)
        → string_bytes out.new ++ snake_from (later || is_ascii_uppercase c) rest
        ≡ string_bytes out.old ++ snake_from later (encode_utf8 c ++ rest)) }
{
    let (mark, letter) = (mark_before(later, c), c.to_ascii_lowercase());
    write!(out, "{mark}{letter}")
}

/// The name in small letters, with a `_` before each capital but the first: `stack_slot` of `StackSlot`. It stands in place of the crate
/// `heck`.
fn snake_case(alloc: Global, name: &str) -> Result<String, AllocError>
    ensures { IfOk result (λ word. string_bytes word ≡ snake_case name.now) }
{
    let mut word = String::with_capacity(alloc, name.len())?;
    let mut later = false;
    for c in name.chars() {
        push_letter(&mut word, later, c)?;
        later = later || c.is_ascii_uppercase();
    }
    Ok(word)
}

/// The word by which the mapper's method names entities of this Rust type: `stack_slot` of `ir::StackSlot`. Blocks are mapped with their
/// arguments.
fn entity_word(alloc: Global, rust_type: &str) -> Result<String, AllocError>
    ensures { IfOk result (λ word. string_bytes word ≡ entity_word rust_type.now) }
{
    let word = snake_case(alloc, last_part(rust_type))?;
    if word.as_str() == "block" {
        return String::from_str(alloc, "block_call");
    }
    Ok(word)
}

/// Adds a member that is a value of this Rust type, which the instruction itself holds.
fn push_immediate(out: &mut String, member: &str, rust_type: &str) -> Result<(), AllocError>
    ensures { OnOk result (string_bytes out.new ≡ string_bytes out.old ++ mapped_or_kept member.now (immediate_mapper rust_type.now)) }
{
    if rust_type == "ir::MemFlags" {
        return push_mapped(out, member, "mem_flags");
    }
    push_kept(out, member)
}

/// Adds a field: entities, lists of values and the flags of memory operations are mapped, and all else stays.
#[tactic(auto, unfolding(crate::specs::MapMethod::mapped_field))]
fn push_mapped_field(alloc: Global, out: &mut String, field: &FormatField) -> Result<(), AllocError>
    ensures { OnOk result (string_bytes out.new ≡ string_bytes out.old ++ mapped_field field.now) }
{
    let (member, rust_type) = (field.member.as_str(), field.kind.rust_type.as_str());
    match &field.kind.fields {
        OperandKindFields::EntityRef => {
            let word = entity_word(alloc, rust_type)?;
            push_mapped(out, member, word.as_str())
        }
        OperandKindFields::VariableArgs => push_mapped(out, member, "value_list"),
        OperandKindFields::ImmValue => push_immediate(out, member, rust_type),
        OperandKindFields::ImmEnum(_) | OperandKindFields::TypeVar(_) => push_kept(out, member),
    }
}

fn mapped_members(alloc: Global, format: &InstructionFormat) -> Result<String, AllocError>
    ensures { IfOk result (λ text. string_bytes text ≡ mapped_members (member_filled MAPPED_BLOCK.now) format.now) }
{
    let fields = format.imm_fields.as_slice();
    let mut text = String::new(alloc);
    push_mapped_values(alloc, &mut text, values_of(format))?;
    text.push_str(blocks_of(format).text(MAPPED_CALL, MAPPED_CALLS))?;
    push_member(&mut text, MAPPED_BLOCK, raw_block_member(format))?;
    for field in fields {
        push_mapped_field(alloc, &mut text, field)?;
    }
    Ok(text)
}

pub(crate) fn push_map_arm(
    alloc: Global,
    out: &mut String,
    format: &InstructionFormat,
) -> Result<(), AllocError>
    ensures { OnOk result (string_bytes out.new ≡ string_bytes out.old ++ map_arm format.now) }
{
    let pattern = pattern(alloc, "opcode", PLAIN, PLAIN, PLAIN, format)?;
    let members = mapped_members(alloc, format)?;
    fill(
        out,
        REBUILT,
        &REBUILT_HOLES,
        &[format.name.as_str(), pattern.as_str(), members.as_str()],
    )
}
