ghost use Rattle.std.specs.Prelude.{◌≡◌, ◌++◌, IfOk, OnOk, map, string_bytes};
ghost use Rattle.std.specs.List.{flat_map};
ghost use Rattle.meta_rust_insts.specs.ReadMethods.{typevar_arm, values_arm};
ghost use Rattle.meta_rust_insts.specs.Arms.{method_arm};
ghost use Rattle.meta_rust_insts.specs.DataImpl.{reading_methods, whole_methods, data_impl_text};

use super::deep_clone_method::push_clone_arm;
use super::eq_method::push_eq_arm;
use super::hash_method::push_hash_arm;
use super::held::{Values, values_of};
use super::map_method::push_map_arm;
use meta_operands::InstructionFormat;
use meta_text::fill;
use std::alloc::{AllocError, Global};

/// A method of `InstructionData` that is a match with an arm for each format.
#[derive(Clone, Copy)]
enum Method {
    /// `opcode`: the opcode.
    Opcode,
    /// `typevar_operand`: the value whose type may control.
    TypevarOperand,
    /// `arguments`: the values.
    Arguments,
    /// `arguments_mut`: the values, to be changed.
    ArgumentsMut,
    /// `eq`: whether two instructions are equal.
    Eq,
    /// `hash`: feeds an instruction to a hasher.
    Hash,
    /// `deep_clone`: a copy with lists of its own.
    DeepClone,
    /// `map`: the instruction whose operands a mapper has mapped.
    Map,
}

const READING: &str = "impl InstructionData {
    /// Get the opcode of this instruction.
    pub fn opcode(&self) -> Opcode {
        match *self {
$opcode$        }
    }

    /// Get the controlling type variable operand.
    pub fn typevar_operand(&self, pool: &ir::ValueListPool) -> Option<Value> {
        match *self {
$typevar_operand$        }
    }

    /// Get the value arguments to this instruction.
    pub fn arguments<'a>(&'a self, pool: &'a ir::ValueListPool) -> &'a [Value] {
        match *self {
$arguments$        }
    }

    /// Get mutable references to the value arguments to this
    pub fn arguments_mut<'a>(&'a mut self, pool: &'a mut ir::ValueListPool) -> &'a mut [Value] {
        match *self {
$arguments_mut$        }
    }

";

const READING_HOLES: [&str; 4] = ["opcode", "typevar_operand", "arguments", "arguments_mut"];

/// The methods that take an instruction as a whole. Instructions of different formats differ, so `eq` needs no other arm for a pair.
const WHOLE: &str = "    /// Compare two `InstructionData` for equality.
    pub fn eq(&self, other: &Self, pool: &ir::ValueListPool) -> bool {
        if ::core::mem::discriminant(self) != ::core::mem::discriminant(other) {
            return false;
        }
        match (self, other) {
$eq$            _ => unreachable!()
        }
    }

    /// Hash an `InstructionData`.
    pub fn hash<H: ::core::hash::Hasher>(&self, state: &mut H, pool: &ir::ValueListPool) {
        match *self {
$hash$        }
    }

    /// Deep-clone an `InstructionData`, including any referenced lists.
    pub fn deep_clone(&self, pool: &mut ir::ValueListPool) -> Self {
        match *self {
$deep_clone$        }
    }
    /// Map some functions, described by the given `InstructionMapper`, over each of the
    pub fn map(&self, mut mapper: impl crate::ir::instructions::InstructionMapper) -> Self {
        match *self {
$map$        }
    }
}
";

const WHOLE_HOLES: [&str; 4] = ["eq", "hash", "deep_clone", "map"];

/// Adds the arm of the format of this name in `typevar_operand`: the value at the designated place, if one is designated.
fn push_typevar_arm(
    out: &mut String,
    name: &str,
    designated: Option<usize>,
    values: Values,
) -> Result<(), AllocError>
    ensures { OnOk result (string_bytes out.new ≡ string_bytes out.old ++ typevar_arm name.now designated values) }
{
    let Some(place) = designated else {
        return write!(out, "            Self::{name} {{ .. }} => None,\n");
    };
    match values {
        Values::Absent => write!(out, "            Self::{name} {{ .. }} => None,\n"),
        Values::One => write!(
            out,
            "            Self::{name} {{ arg, .. }} => Some(arg),\n"
        ),
        Values::Several(count) => write!(
            out,
            "            Self::{name} {{ args: ref args_arity{count}, .. }} => Some(args_arity{count}[{place}]),\n"
        ),
        Values::Listed => write!(
            out,
            "            Self::{name} {{ ref args, .. }} => args.get({place}, pool),\n"
        ),
    }
}

/// Adds the arm of the format of this name in `arguments` or `arguments_mut` (`gen_arguments_method` of `gen_inst.rs`). `mark` comes after
/// `&` or `ref `. The function `one` makes a slice of one value, and the method `list` one of a list.
fn push_values_arm(
    out: &mut String,
    name: &str,
    values: Values,
    mark: &str,
    one: &str,
    list: &str,
) -> Result<(), AllocError>
    ensures { OnOk result (string_bytes out.new ≡ string_bytes out.old ++ values_arm name.now values mark.now one.now list.now) }
{
    match values {
        Values::Absent => write!(out, "            Self::{name} {{ .. }} => &{mark}[],\n"),
        Values::One => write!(
            out,
            "            Self::{name} {{ ref {mark}arg, .. }} => {one}(arg),\n"
        ),
        Values::Several(count) => write!(
            out,
            "            Self::{name} {{ args: ref {mark}args_arity{count}, .. }} => args_arity{count},\n"
        ),
        Values::Listed => write!(
            out,
            "            Self::{name} {{ ref {mark}args, .. }} => args.{list}(pool),\n"
        ),
    }
}

#[tactic(auto, unfolding(crate::specs::ReadMethods::opcode_arm))]
fn push_arm(
    alloc: Global,
    out: &mut String,
    method: Method,
    format: &InstructionFormat,
) -> Result<(), AllocError>
    ensures { OnOk result (string_bytes out.new ≡ string_bytes out.old ++ method_arm method format.now) }
{
    let name = format.name.as_str();
    match method {
        Method::Opcode => write!(
            out,
            "            Self::{name} {{ opcode, .. }} => opcode,\n"
        ),
        Method::TypevarOperand => {
            push_typevar_arm(out, name, format.typevar_operand, values_of(format))
        }
        Method::Arguments => {
            let (one, list) = ("core::slice::from_ref", "as_slice");
            push_values_arm(out, name, values_of(format), "", one, list)
        }
        Method::ArgumentsMut => {
            let (one, list) = ("core::slice::from_mut", "as_mut_slice");
            push_values_arm(out, name, values_of(format), "mut ", one, list)
        }
        Method::Eq => push_eq_arm(alloc, out, format),
        Method::Hash => push_hash_arm(alloc, out, format),
        Method::DeepClone => push_clone_arm(alloc, out, format),
        Method::Map => push_map_arm(alloc, out, format),
    }
}

fn arms(alloc: Global, method: Method, formats: &[&InstructionFormat]) -> Result<String, AllocError>
    ensures { IfOk result (λ text. string_bytes text ≡ flat_map (method_arm method) (map (λ f. f.now) formats.now)) }
{
    let mut text = String::new(alloc);
    for format in formats {
        push_arm(alloc, &mut text, method, format)?;
    }
    Ok(text)
}

fn push_reading_methods(
    alloc: Global,
    out: &mut String,
    formats: &[&InstructionFormat],
) -> Result<(), AllocError>
    ensures { OnOk result (string_bytes out.new ≡ string_bytes out.old ++ reading_methods (map (λ f. f.now) formats.now)) }
{
    let opcode = arms(alloc, Method::Opcode, formats)?;
    let typevar_operand = arms(alloc, Method::TypevarOperand, formats)?;
    let arguments = arms(alloc, Method::Arguments, formats)?;
    let arguments_mut = arms(alloc, Method::ArgumentsMut, formats)?;
    fill(
        out,
        READING,
        &READING_HOLES,
        &[
            opcode.as_str(),
            typevar_operand.as_str(),
            arguments.as_str(),
            arguments_mut.as_str(),
        ],
    )
}

fn push_whole_methods(
    alloc: Global,
    out: &mut String,
    formats: &[&InstructionFormat],
) -> Result<(), AllocError>
    ensures { OnOk result (string_bytes out.new ≡ string_bytes out.old ++ whole_methods (map (λ f. f.now) formats.now)) }
{
    let eq = arms(alloc, Method::Eq, formats)?;
    let hash = arms(alloc, Method::Hash, formats)?;
    let deep_clone = arms(alloc, Method::DeepClone, formats)?;
    let map = arms(alloc, Method::Map, formats)?;
    fill(
        out,
        WHOLE,
        &WHOLE_HOLES,
        &[
            eq.as_str(),
            hash.as_str(),
            deep_clone.as_str(),
            map.as_str(),
        ],
    )
}

/// Adds the implementation of `InstructionData`, as `gen_instruction_data_impl` of the crate's `gen_inst.rs` writes it. The formats are
/// those in use, by their names. The methods are `opcode`, `typevar_operand`, `arguments`, `arguments_mut`, `eq`, `hash`, `deep_clone` and
/// `map`. Each is a match with an arm for each format, in order. The text doesn't end with an empty line.
///
/// A format may have at most two blocks, and at most one block without arguments. A format with more is written as if it had two, or one.
#[tactic(auto, unfolding(crate::specs::DataImpl::data_impl_text))]
pub fn push_data_impl(
    alloc: Global,
    out: &mut String,
    formats: &[&InstructionFormat],
) -> Result<(), AllocError>
    ensures { OnOk result (string_bytes out.new ≡ string_bytes out.old ++ data_impl_text (map (λ f. f.now) formats.now)) }
{
    push_reading_methods(alloc, out, formats)?;
    push_whole_methods(alloc, out, formats)
}
