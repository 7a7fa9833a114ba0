ghost use Rattle.std.specs.Prelude.{◌≡◌, ◌++◌, ◌∷◌, [], if◌then◌else◌, IfOk, OnOk, Some};
ghost use Rattle.std.specs.Fmt.{DisplaysOnOk};
ghost use Rattle.meta_operands.specs.Operand.{is_immediate_or_entityref_operand};
ghost use Rattle.meta_inst.specs.FormatMatch.{is_value_operand};
ghost use Rattle.meta_inst.specs.Content.{ctrl_number, control_numbers, places_where, snake_name_of, more_names_text};
ghost use Rattle.meta_inst.specs.Content.{outputs_text, inputs_text};

use super::controls::Controls;
use super::marks::Marks;
use super::operands::Operands;
use super::polymorphic::PolymorphicInfo;
use meta_operands::{FormatId, Operand};
use meta_types::Text;
use meta_typevar::TypeVar;
use std::alloc::{AllocError, Global};
use std::fmt;
use std::marker::Model;

/// A built instruction: it has no fault by itself, and its control is known (`InstructionContent` of the crate's `cdsl/instructions.rs`).
#[derive(Drop)]
pub struct InstructionContent {
    pub(crate) name: Text,
    pub(crate) camel_name: Text,
    pub(crate) doc: Text,
    pub(crate) operands_in: Vec<Operand>,
    pub(crate) operands_out: Vec<Operand>,
    pub(crate) format: FormatId,
    pub(crate) polymorphic_info: Option<PolymorphicInfo>,
    pub(crate) value_opnums: Vec<usize>,
    pub(crate) imm_opnums: Vec<usize>,
    pub(crate) value_results: Vec<usize>,
    pub(crate) marks: Marks,
    pub(crate) value_operands: Operands,
}

/// A built instruction, which is owned. In the crate it is reference-counted.
pub type Instruction = InstructionContent;

impl Model for InstructionContent {
    ghost use Rattle.meta_inst.specs.Built.{BuiltInstruction};

    ghost Value = { BuiltInstruction };

    ghost view = { λ c. record {
      name = c.name;
      camel_name = c.camel_name;
      doc = c.doc;
      operands_in = c.operands_in.items;
      operands_out = c.operands_out.items;
      format = c.format;
      polymorphic_info = c.polymorphic_info;
      value_opnums = c.value_opnums.items;
      imm_opnums = c.imm_opnums.items;
      value_results = c.value_results.items;
      marks = c.marks;
      value_operands = c.value_operands;
    } };
}

fn push_place(places: &mut Vec<usize>, place: usize, holds: bool) -> Result<(), AllocError>
    ensures { OnOk result (places.new.items ≡ (if holds then (places.old.items ++ place ∷ []) else places.old.items)) }
{
    if holds {
        places.push(place)?;
    }
    Ok(())
}

pub(crate) fn value_places(alloc: Global, operands: &[Operand]) -> Result<Vec<usize>, AllocError>
    ensures { IfOk result (λ v. v.items ≡ places_where is_value_operand operands.now) }
{
    let mut places = Vec::with_capacity(alloc, operands.len())?;
    for place in 0..operands.len() {
        push_place(&mut places, place, operands[place].is_value())?;
    }
    Ok(places)
}

/// The places of the operands that are immediates or entity references, in order.
pub(crate) fn immediate_places(
    alloc: Global,
    operands: &[Operand],
) -> Result<Vec<usize>, AllocError>
    ensures { IfOk result (λ v. v.items ≡ places_where is_immediate_or_entityref_operand operands.now) }
{
    let mut places = Vec::new(alloc);
    for place in 0..operands.len() {
        push_place(
            &mut places,
            place,
            operands[place].is_immediate_or_entityref(),
        )?;
    }
    Ok(places)
}

pub(crate) fn copied_operands(
    alloc: Global,
    operands: &[Operand],
) -> Result<Vec<Operand>, AllocError>
    ensures { IfOk result (λ v. v.items ≡ operands.now) }
{
    let mut copied = Vec::with_capacity(alloc, operands.len())?;
    for operand in operands {
        copied.push(operand.copy(alloc)?)?;
    }
    Ok(copied)
}

impl InstructionContent {
    /// The name, in snake case.
    pub fn name(&self) -> &Text
        ensures { result.now ≡ self.now.name }
    {
        &self.name
    }

    /// The name in camel case.
    pub fn camel_name(&self) -> &Text
        ensures { result.now ≡ self.now.camel_name }
    {
        &self.camel_name
    }

    /// The documentation.
    pub fn doc(&self) -> &Text
        ensures { result.now ≡ self.now.doc }
    {
        &self.doc
    }

    /// The inputs, in order.
    pub fn operands_in(&self) -> &[Operand]
        ensures { result.now ≡ self.now.operands_in }
    {
        self.operands_in.as_slice()
    }

    /// The outputs, in order.
    pub fn operands_out(&self) -> &[Operand]
        ensures { result.now ≡ self.now.operands_out }
    {
        self.operands_out.as_slice()
    }

    /// The format, by its number in the table of formats.
    pub fn format(&self) -> FormatId
        ensures { result ≡ self.now.format }
    {
        self.format
    }

    /// The control of the instruction and what goes with it. `None` exactly if the instruction isn't polymorphic.
    pub fn polymorphic_info(&self) -> Option<PolymorphicInfo>
        ensures { result ≡ self.now.polymorphic_info }
    {
        self.polymorphic_info
    }

    /// The type variable that is the control. `None` exactly if the instruction isn't polymorphic.
    pub fn ctrl_typevar(&self) -> Option<TypeVar>
        ensures { result ≡ ctrl_number self.now.polymorphic_info }
    {
        match self.polymorphic_info {
            Some(info) => Some(info.ctrl_typevar),
            None => None,
        }
    }

    /// The control and the second control of the instruction.
    pub fn controls(&self) -> Controls
        ensures { result ≡ control_numbers self.now }
    {
        let control = self.ctrl_typevar();
        self.value_operands().controls(control)
    }

    /// The places of the values among the inputs, from 0.
    pub fn value_opnums(&self) -> &[usize]
        ensures { result.now ≡ self.now.value_opnums }
    {
        self.value_opnums.as_slice()
    }

    /// The places of the immediates and entity references among the inputs, from 0. Blocks are entity references.
    pub fn imm_opnums(&self) -> &[usize]
        ensures { result.now ≡ self.now.imm_opnums }
    {
        self.imm_opnums.as_slice()
    }

    /// The places of the values among the outputs, from 0.
    pub fn value_results(&self) -> &[usize]
        ensures { result.now ≡ self.now.value_results }
    {
        self.value_results.as_slice()
    }

    /// The value operands: the type variables of the results and then of the value inputs, and which value is the designated one.
    pub fn value_operands(&self) -> &Operands
        ensures { result.now ≡ self.now.value_operands }
    {
        &self.value_operands
    }

    /// Whether the instruction ends a block.
    pub fn is_terminator(&self) -> bool
        ensures { result ≡ self.now.marks.is_terminator }
    {
        self.marks.is_terminator
    }

    /// Whether the instruction branches to a block.
    pub fn is_branch(&self) -> bool
        ensures { result ≡ self.now.marks.is_branch }
    {
        self.marks.is_branch
    }

    /// Whether the instruction calls a function.
    pub fn is_call(&self) -> bool
        ensures { result ≡ self.now.marks.is_call }
    {
        self.marks.is_call
    }

    /// Whether the instruction returns from the function.
    pub fn is_return(&self) -> bool
        ensures { result ≡ self.now.marks.is_return }
    {
        self.marks.is_return
    }

    /// Whether the instruction may read memory.
    pub fn can_load(&self) -> bool
        ensures { result ≡ self.now.marks.can_load }
    {
        self.marks.can_load
    }

    /// Whether the instruction may write memory.
    pub fn can_store(&self) -> bool
        ensures { result ≡ self.now.marks.can_store }
    {
        self.marks.can_store
    }

    /// Whether the instruction may trap.
    pub fn can_trap(&self) -> bool
        ensures { result ≡ self.now.marks.can_trap }
    {
        self.marks.can_trap
    }

    /// Whether the instruction has effects beside those of the other marks.
    pub fn other_side_effects(&self) -> bool
        ensures { result ≡ self.now.marks.other_side_effects }
    {
        self.marks.other_side_effects
    }

    /// Whether the effects of the instruction are idempotent: done twice they are the same as once.
    pub fn side_effects_idempotent(&self) -> bool
        ensures { result ≡ self.now.marks.side_effects_idempotent }
    {
        self.marks.side_effects_idempotent
    }

    /// Whether the written instruction builder has a second method for this instruction, which takes an immediate for the last value input.
    pub fn inst_builder_imm_method(&self) -> bool
        ensures { result ≡ self.now.marks.inst_builder_imm_method }
    {
        self.marks.inst_builder_imm_method
    }

    /// The name in the written Rust source. `return` is written `return_`, since it is a keyword.
    pub fn snake_name(&self) -> &str
        ensures { result.now ≡ snake_name_of self.now.name }
    {
        if self.name.as_str() == "return" {
            return "return_";
        }
        self.name.as_str()
    }
}

fn write_more<W: fmt::Write>(f: &mut fmt::Formatter<W>, operands: &[Operand]) -> fmt::Result
    ensures { DisplaysOnOk W.write_str_gives f.old result (Some (more_names_text operands.now)) f.new }
{
    for operand in operands {
        f.write_str(", ")?;
        f.write_str(operand.name.as_str())?;
    }
    Ok(())
}

fn write_outputs<W: fmt::Write>(f: &mut fmt::Formatter<W>, operands: &[Operand]) -> fmt::Result
    ensures { DisplaysOnOk W.write_str_gives f.old result (Some (outputs_text operands.now)) f.new }
{
    let Some((first, rest)) = operands.split_first() else {
        return Ok(());
    };
    f.write_str(first.name.as_str())?;
    write_more(f, rest)?;
    f.write_str(" = ")
}

fn write_inputs<W: fmt::Write>(f: &mut fmt::Formatter<W>, operands: &[Operand]) -> fmt::Result
    ensures { DisplaysOnOk W.write_str_gives f.old result (Some (inputs_text operands.now)) f.new }
{
    let Some((first, rest)) = operands.split_first() else {
        return Ok(());
    };
    f.write_str(" ")?;
    f.write_str(first.name.as_str())?;
    write_more(f, rest)
}

/// Writes the instruction as in `a = iadd x, y`.
impl fmt::Display for InstructionContent {
    ghost use Rattle.std.specs.Prelude.{Some};
    ghost use Rattle.meta_inst.specs.Content.{instruction_text};

    ghost output = { λ content. Some (instruction_text content) };

    fn fmt<W: fmt::Write>(&self, f: &mut fmt::Formatter<W>) -> fmt::Result {
        write_outputs(f, self.operands_out.as_slice())?;
        f.write_str(self.name.as_str())?;
        write_inputs(f, self.operands_in.as_slice())
    }
}
