ghost use Rattle.std.specs.Prelude.{◌≡◌, ◌↔◌, ◌++◌, ◌∷◌, [], ℕ, List, IsTrue, IfSome, IfNone, count_by, map};
ghost use Rattle.std.specs.List.{list_any};
ghost use Rattle.meta_operands.specs.Operand.{is_varargs_operand};
ghost use Rattle.meta_inst.specs.FormatMatch.{is_value_operand, is_block_operand, is_raw_block_operand, field_names};
ghost use Rattle.meta_inst.specs.FormatMatch.{format_field_name, MatchesFormat};

use meta_operands::{FormatField, InstructionFormat, Operand};

fn value_count(operands: &[Operand]) -> usize
    ensures { result ≡ count_by is_value_operand operands.now }
{
    let mut count = 0;
    for operand in operands {
        if operand.is_value() {
            count += 1;
        }
    }
    count
}

fn block_count(operands: &[Operand]) -> usize
    ensures { result ≡ count_by is_block_operand operands.now }
{
    let mut count = 0;
    for operand in operands {
        if operand.kind.is_block() {
            count += 1;
        }
    }
    count
}

fn raw_block_count(operands: &[Operand]) -> usize
    ensures { result ≡ count_by is_raw_block_operand operands.now }
{
    let mut count = 0;
    for operand in operands {
        if operand.kind.is_raw_block() {
            count += 1;
        }
    }
    count
}

fn has_varargs(operands: &[Operand]) -> bool
    ensures { result ≡ list_any is_varargs_operand operands.now }
{
    operands.iter().any(|o| o.is_varargs())
}

/// The fields that are left after the one that holds the operand, or all if no field holds it. `None` if the first field isn't the one that
/// holds it.
fn fields_after<'a>(fields: &'a [FormatField], operand: &Operand) -> Option<&'a [FormatField]>
    ensures left { IfSome result (λ rest. map format_field_name fields.now
        ≡ field_names (operand.now ∷ []) ++ map format_field_name rest.now) }
    ensures other { IfNone result ((names : List (List ℕ))
        → field_names (operand.now ∷ []) ++ names ≡ map format_field_name fields.now → ⊥) }
{
    let kind = &operand.kind;
    if kind.is_block() || kind.is_raw_block() || !operand.is_immediate_or_entityref() {
        return Some(fields);
    }
    let (field, rest) = fields.split_first()?;
    if field.kind.rust_field_name != operand.kind.rust_field_name {
        return None;
    }
    Some(rest)
}

/// Whether the operands that fields hold have the names of these fields, in order and one for one.
fn are_fields(operands: &[Operand], fields: &[FormatField]) -> bool
    ensures { IsTrue result ↔ (field_names operands.now ≡ map format_field_name fields.now) }
{
    let mut left = fields;
    for operand in operands {
        let Some(rest) = fields_after(left, operand) else {
            return false;
        };
        left = rest;
    }
    left.is_empty()
}

/// Whether the inputs match the format (`verify_format` of the crate's `cdsl/instructions.rs`).
pub(crate) fn matches_format(inputs: &[Operand], format: &InstructionFormat) -> bool
    ensures { IsTrue result ↔ MatchesFormat format.now inputs.now }
{
    if value_count(inputs) != format.num_value_operands as usize {
        return false;
    }
    if block_count(inputs) != format.num_block_operands as usize {
        return false;
    }
    if raw_block_count(inputs) != format.num_raw_block_operands as usize {
        return false;
    }
    if !are_fields(inputs, format.imm_fields.as_slice()) {
        return false;
    }
    if format.has_value_list {
        return true;
    }
    !has_varargs(inputs)
}
