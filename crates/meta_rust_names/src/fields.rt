ghost use Rattle.std.specs.Prelude.{◌≡◌, ◌++◌, OnOk, IfOk};
ghost use Rattle.meta_rust_insts.specs.Held.{values_of, blocks_of, has_raw_block, values_member, blocks_member};
ghost use Rattle.meta_rust_insts.specs.Held.{raw_block_member};
ghost use Rattle.std.specs.List.{list_any};
ghost use Rattle.meta_rust_names.specs.Known.{known};
ghost use Rattle.meta_rust_names.specs.Forms.{is_named, is_numbered};
ghost use Rattle.meta_rust_names.specs.Fields.{is_table_constant, is_always_taken, asks_pool, is_mapped_field, holds_operands};
ghost use Rattle.meta_rust_names.specs.Fields.{asks_mapper, is_method_variable, is_member, is_member_of, is_parameter_of};
ghost use Rattle.meta_rust_names.specs.Fields.{is_of_format, taken_why, field_name_why, field_type_why, field_refused, fields_refused};

use super::comments::{comment_why, type_why};
use super::names::{Names, is_named, is_numbered};
use super::refused::{Part, RefusedName, Why, or_why, push_refused};
use super::variants::variant_why;
use super::words::word_why;
use meta_operands::{FormatField, InstructionFormat, OperandKindFields};
use meta_types::Place;
use std::alloc::{AllocError, Global};

#[tactic(auto, unfolding(crate::specs::Fields::is_table_constant))]
fn is_table_constant(name: &[u8]) -> bool
    ensures { result ≡ is_table_constant name.now }
{
    is_named(b"OPCODE_FORMAT", name)
        || is_named(b"OPCODE_HASH_TABLE", name)
        || is_named(b"TYPE_SETS", name)
        || is_named(b"OPERAND_CONSTRAINTS", name)
        || is_named(b"OPCODE_CONSTRAINTS", name)
}

/// Whether the name is one that each format has itself.
#[tactic(auto, unfolding(crate::specs::Fields::is_always_taken))]
fn is_always_taken(name: &[u8]) -> bool
    ensures { result ≡ is_always_taken name.now }
{
    is_named(b"opcode", name) || is_named(b"ctrl_typevar", name) || is_named(b"state", name)
}

/// Whether the method that clones asks the pool.
fn asks_pool(format: &InstructionFormat) -> bool
    ensures { result ≡ asks_pool format.now }
{
    format.has_value_list || format.num_block_operands != 0
}

/// Whether the method that maps asks the mapper of the field.
fn is_mapped_field(field: &FormatField) -> bool
    ensures { result ≡ is_mapped_field field.now }
{
    match &field.kind.fields {
        OperandKindFields::EntityRef => true,
        OperandKindFields::VariableArgs => true,
        OperandKindFields::ImmValue => field.kind.rust_type.as_str() == "ir::MemFlags",
        OperandKindFields::ImmEnum(_) => false,
        OperandKindFields::TypeVar(_) => false,
    }
}

fn has_mapped_field(fields: &[FormatField]) -> bool
    ensures { result ≡ list_any is_mapped_field fields.now }
{
    fields.iter().any(|f| is_mapped_field(f))
}

fn holds_operands(format: &InstructionFormat) -> bool
    ensures { result ≡ holds_operands format.now }
{
    format.has_value_list
        || format.num_value_operands != 0
        || format.num_block_operands != 0
        || format.num_raw_block_operands != 0
}

/// Whether the method that maps asks the mapper. It looks at each field, so it is asked once a format.
fn asks_mapper(format: &InstructionFormat) -> bool
    ensures { result ≡ asks_mapper format.now }
{
    holds_operands(format) || has_mapped_field(format.imm_fields.as_slice())
}

/// Whether a method of the format has a variable of the name, where this says whether it asks the mapper.
#[tactic(auto, unfolding(crate::specs::Fields::is_method_variable))]
fn is_method_variable(format: &InstructionFormat, uses_mapper: bool, name: &[u8]) -> bool
    requires { uses_mapper ≡ asks_mapper format.now }
    ensures { result ≡ is_method_variable format.now name.now }
{
    (asks_pool(format) && is_named(b"pool", name)) || (uses_mapper && is_named(b"mapper", name))
}

#[tactic(auto, unfolding(crate::specs::Fields::is_member_of))]
fn is_member_of(format: &InstructionFormat, name: &[u8]) -> bool
    ensures { result ≡ is_member_of format.now name.now }
{
    is_values_member(format, name)
        || is_blocks_member(format, name)
        || is_raw_block_member(format, name)
}

fn is_values_member(format: &InstructionFormat, name: &[u8]) -> bool
    ensures { result ≡ is_member (values_member (values_of format.now)) name.now }
{
    if format.has_value_list {
        return is_named(b"args", name);
    }
    if format.num_value_operands == 0 {
        return false;
    }
    if format.num_value_operands == 1 {
        return is_named(b"arg", name);
    }
    is_named(b"args", name)
}

fn is_blocks_member(format: &InstructionFormat, name: &[u8]) -> bool
    ensures { result ≡ is_member (blocks_member (blocks_of format.now)) name.now }
{
    if format.num_block_operands == 0 {
        return false;
    }
    if format.num_block_operands == 1 {
        return is_named(b"destination", name);
    }
    is_named(b"blocks", name)
}

fn is_raw_block_member(format: &InstructionFormat, name: &[u8]) -> bool
    ensures { result ≡ is_member (raw_block_member (has_raw_block format.now)) name.now }
{
    if format.num_raw_block_operands == 0 {
        return false;
    }
    is_named(b"block", name)
}

/// Whether the name is that of a parameter of the constructor, for a value or a block.
#[tactic(auto, unfolding(crate::specs::Fields::is_parameter_of))]
fn is_parameter_of(format: &InstructionFormat, name: &[u8]) -> bool
    ensures { result ≡ is_parameter_of format.now name.now }
{
    if !format.has_value_list && is_numbered(b"arg", format.num_value_operands, name) {
        return true;
    }
    if is_numbered(b"block", format.num_block_operands, name) {
        return true;
    }
    is_numbered(b"block", format.num_raw_block_operands, name)
}

#[tactic(auto, unfolding(crate::specs::Fields::is_of_format))]
fn is_of_format(format: &InstructionFormat, uses_mapper: bool, name: &[u8]) -> bool
    requires { uses_mapper ≡ asks_mapper format.now }
    ensures { result ≡ is_of_format format.now name.now }
{
    if is_always_taken(name) {
        return true;
    }
    if is_method_variable(format, uses_mapper, name) {
        return true;
    }
    if is_member_of(format, name) {
        return true;
    }
    is_parameter_of(format, name)
}

/// Whether something beside a field has the name, and what, where these are the names of earlier fields.
#[tactic(auto, unfolding(crate::specs::Fields::taken_why))]
fn taken_why(
    alloc: Global,
    format: &InstructionFormat,
    uses_mapper: bool,
    names: &Names,
    name: &str,
) -> Result<Option<Why>, AllocError>
    requires { uses_mapper ≡ asks_mapper format.now }
    ensures { IfOk result (λ why. why ≡ taken_why format.now (known names.now) name.now) }
{
    if is_table_constant(name.as_bytes()) {
        return Ok(Some(Why::InScope));
    }
    if is_of_format(format, uses_mapper, name.as_bytes()) {
        return Ok(Some(Why::OfFormat));
    }
    if names.meets(alloc, name)? {
        return Ok(Some(Why::EarlierField));
    }
    Ok(None)
}

/// Why a field can't have its name, where these are the names of earlier fields.
#[tactic(auto, unfolding(crate::specs::Fields::field_name_why))]
fn field_name_why(
    alloc: Global,
    format: &InstructionFormat,
    uses_mapper: bool,
    names: &Names,
    field: &FormatField,
) -> Result<Option<Why>, AllocError>
    requires { uses_mapper ≡ asks_mapper format.now }
    ensures { IfOk result (λ why. why ≡ field_name_why format.now (known names.now) field.now) }
{
    let name = field.member.as_str();
    let taken = taken_why(alloc, format, uses_mapper, names, name)?;
    let variant = or_why(variant_why(&field.kind, name.as_bytes()), taken);
    Ok(or_why(word_why(name.as_bytes()), variant))
}

#[tactic(auto, unfolding(crate::specs::Fields::field_type_why))]
fn field_type_why(rust_type: &str) -> Option<Why>
    ensures { result ≡ field_type_why rust_type.now }
{
    or_why(type_why(rust_type), comment_why(rust_type))
}

#[tactic(auto, unfolding(crate::specs::Fields::field_refused))]
fn push_field(
    alloc: Global,
    out: &mut Vec<RefusedName>,
    format: &InstructionFormat,
    uses_mapper: bool,
    place: Place,
    names: &Names,
    number: usize,
    field: &FormatField,
) -> Result<(), AllocError>
    requires { uses_mapper ≡ asks_mapper format.now }
    ensures { OnOk result (out.new.items ≡ out.old.items ++ field_refused format.now place (known names.now) (number, field.now)) }
{
    let number = number as u64;
    let why = field_name_why(alloc, format, uses_mapper, names, field)?;
    push_refused(out, place, Part::Field(number), why)?;
    push_refused(
        out,
        place,
        Part::FieldType(number),
        field_type_why(field.kind.rust_type.as_str()),
    )
}

pub(crate) fn push_fields(
    alloc: Global,
    out: &mut Vec<RefusedName>,
    format: &InstructionFormat,
    fields: &[FormatField],
    place: Place,
) -> Result<(), AllocError>
    ensures { OnOk result (out.new.items ≡ out.old.items ++ fields_refused format.now place fields.now) }
{
    let uses_mapper = asks_mapper(format);
    let mut names = Names::new(alloc);
    for number in 0..fields.len() {
        let field = &fields[number];
        push_field(
            alloc,
            out,
            format,
            uses_mapper,
            place,
            &names,
            number,
            field,
        )?;
        names.add_forms(alloc, field.member.as_str())?;
    }
    Ok(())
}
