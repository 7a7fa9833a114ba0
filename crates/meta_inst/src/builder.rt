ghost use Rattle.std.specs.Prelude.{◌≡◌, ◌≢◌, ◌↔◌, ◌<◌, ◌∷◌, [], List, length, true, IsTrue, IsSome, IfSome, IfNone, IfOk, IfErr, OnOk};
ghost use Rattle.std.specs.Prelude.{Some, None};
ghost use Rattle.meta_inst.specs.Builder.{inputs_of, outputs_of};
ghost use Rattle.meta_types.specs.declared.fault.DefinitionError.TheVariants.{OutOfMemory};
ghost use Rattle.meta_typevar.specs.declared.content.TypeVarContent.{TypeVarContent};
ghost use Rattle.meta_types.specs.CamelCase.{camel_case_of};
ghost use Rattle.meta_operands.specs.Operand.{is_immediate_or_entityref_operand, variables_of};
ghost use Rattle.meta_operands.specs.declared.format.InstructionFormat.{InstructionFormat};
ghost use Rattle.meta_inst.specs.Marks.{no_marks, terminator, branch, returning};
ghost use Rattle.meta_inst.specs.Operands.{AreOf, SecondIsOf};
ghost use Rattle.meta_inst.specs.InstructionSet.{FitsBuilder, instruction_of_builder};
ghost use Rattle.meta_inst.specs.FoundControl.{IsFound, IsOf, AreOperandsOf};
ghost use Rattle.meta_inst.specs.InstructionFaults.{TakesNoImmediate, ControlRule, KeepsRulesBefore, IsFirstOwnFault, IsWellMade};
ghost use Rattle.meta_inst.specs.FormatMatch.{is_value_operand};
ghost use Rattle.meta_inst.specs.Content.{places_where, operand_list, content_of, IsPolymorphicInfoOf};

use super::checks::{bad_output, too_many};
use super::content::{InstructionContent, copied_operands, immediate_places, value_places};
use super::format_match::matches_format;
use super::marks::Marks;
use super::operands::{Controlling, Operands};
use super::polymorphic::PolymorphicInfo;
use meta_operands::{FormatId, FormatTable, InstructionFormat, Operand};
use meta_types::{DefinitionError, Place, Text, camel_case, is_name};
use meta_typevar::{TypeVar, TypeVars};
use std::alloc::{AllocError, Global};
use std::marker::Model;

/// An instruction that is being declared.
#[derive(Drop)]
pub struct InstructionBuilder {
    name: Text,
    doc: Text,
    format: FormatId,
    operands_in: Option<Vec<Operand>>,
    operands_out: Option<Vec<Operand>>,
    marks: Marks,
    second: Option<TypeVar>,
}

#[derive(Drop)]
struct Texts {
    name: Text,
    camel_name: Text,
    doc: Text,
}

/// The places of the operands of a built instruction: the values and the immediates among its inputs, and the values among its outputs.
#[derive(Drop)]
struct Places {
    value_opnums: Vec<usize>,
    imm_opnums: Vec<usize>,
    value_results: Vec<usize>,
}

#[derive(Drop)]
struct OperandLists {
    inputs: Vec<Operand>,
    outputs: Vec<Operand>,
}

impl Model for InstructionBuilder {
    ghost use Rattle.std.specs.Prelude.{option_map};
    ghost use Rattle.meta_inst.specs.Builder.{Builder};

    ghost Value = { Builder };

    ghost view = { λ b. record {
      name = b.name;
      doc = b.doc;
      format = b.format;
      operands_in = option_map (λ v. v.items) b.operands_in;
      operands_out = option_map (λ v. v.items) b.operands_out;
      marks = b.marks;
      second = b.second;
    } };
}

impl InstructionBuilder {
    /// Makes an instruction with this name, documentation and format. It has no operands yet.
    pub fn new(_alloc: Global, name: Text, doc: Text, format: FormatId) -> Self
        ensures { result ≡ record {
          name = name;
          doc = doc;
          format = format;
          operands_in = None;
          operands_out = None;
          marks = no_marks;
          second = None;
        } }
    {
        InstructionBuilder {
            name,
            doc,
            format,
            operands_in: None,
            operands_out: None,
            marks: Marks::none(),
            second: None,
        }
    }

    /// The name that was given.
    pub fn name(&self) -> &Text
        ensures { result.now ≡ self.now.name }
    {
        &self.name
    }

    /// The format that was given.
    pub fn format(&self) -> FormatId
        ensures { result ≡ self.now.format }
    {
        self.format
    }

    /// The inputs that were given. The list is empty if they weren't set.
    pub fn inputs(&self) -> &[Operand]
        ensures { result.now ≡ inputs_of self.now }
    {
        match &self.operands_in {
            Some(operands) => operands.as_slice(),
            None => &[],
        }
    }

    /// The outputs that were given. The list is empty if they weren't set.
    pub fn outputs(&self) -> &[Operand]
        ensures { result.now ≡ outputs_of self.now }
    {
        match &self.operands_out {
            Some(operands) => operands.as_slice(),
            None => &[],
        }
    }

    /// Whether the inputs were set.
    pub fn has_operands_in(&self) -> bool
        ensures { IsTrue result ↔ IsSome self.now.operands_in }
    {
        self.operands_in.is_some()
    }

    /// Whether the outputs were set.
    pub fn has_operands_out(&self) -> bool
        ensures { IsTrue result ↔ IsSome self.now.operands_out }
    {
        self.operands_out.is_some()
    }

    /// Sets the inputs, which must not have been set before.
    pub fn operands_in(mut self, operands: Vec<Operand>) -> Self
        requires { self.operands_in ≡ None }
        ensures { result ≡ record self { operands_in = Some operands.items } }
    {
        self.operands_in = Some(operands);
        self
    }

    /// Sets the outputs, which must not have been set before.
    pub fn operands_out(mut self, operands: Vec<Operand>) -> Self
        requires { self.operands_out ≡ None }
        ensures { result ≡ record self { operands_out = Some operands.items } }
    {
        self.operands_out = Some(operands);
        self
    }

    /// Whether a second control was named.
    pub fn has_second_control(&self) -> bool
        ensures { IsTrue result ↔ IsSome self.now.second }
    {
        self.second.is_some()
    }

    /// The second control, if one was named.
    pub fn second(&self) -> Option<TypeVar>
        ensures { result ≡ self.now.second }
    {
        self.second
    }

    /// Names the second control, which must not have been named before.
    pub fn second_control(mut self, tv: TypeVar) -> Self
        requires { self.second ≡ None }
        ensures { result ≡ record self { second = Some tv } }
    {
        self.second = Some(tv);
        self
    }

    /// Marks the instruction as one that ends a block.
    pub fn terminates_block(mut self) -> Self
        ensures { result ≡ record self { marks = terminator self.marks } }
    {
        self.marks.is_terminator = true;
        self
    }

    /// Marks the instruction as a branch, which also ends a block.
    pub fn branches(mut self) -> Self
        ensures { result ≡ record self { marks = branch self.marks } }
    {
        self.marks.is_branch = true;
        self.marks.is_terminator = true;
        self
    }

    /// Marks the instruction as a call.
    pub fn call(mut self) -> Self
        ensures { result ≡ record self { marks = record self.marks { is_call = true } } }
    {
        self.marks.is_call = true;
        self
    }

    /// Marks the instruction as a return, which also ends a block.
    pub fn returns(mut self) -> Self
        ensures { result ≡ record self { marks = returning self.marks } }
    {
        self.marks.is_return = true;
        self.marks.is_terminator = true;
        self
    }

    /// Marks the instruction as one that may read memory.
    pub fn can_load(mut self) -> Self
        ensures { result ≡ record self { marks = record self.marks { can_load = true } } }
    {
        self.marks.can_load = true;
        self
    }

    /// Marks the instruction as one that may write memory.
    pub fn can_store(mut self) -> Self
        ensures { result ≡ record self { marks = record self.marks { can_store = true } } }
    {
        self.marks.can_store = true;
        self
    }

    /// Marks the instruction as one that may trap.
    pub fn can_trap(mut self) -> Self
        ensures { result ≡ record self { marks = record self.marks { can_trap = true } } }
    {
        self.marks.can_trap = true;
        self
    }

    /// Marks the instruction as one with effects beside those of the other marks.
    pub fn other_side_effects(mut self) -> Self
        ensures { result ≡ record self { marks = record self.marks { other_side_effects = true } } }
    {
        self.marks.other_side_effects = true;
        self
    }

    /// Marks the effects of the instruction as idempotent: done twice they are the same as once.
    pub fn side_effects_idempotent(mut self) -> Self
        ensures { result ≡ record self { marks = record self.marks { side_effects_idempotent = true } } }
    {
        self.marks.side_effects_idempotent = true;
        self
    }

    /// Says whether the written instruction builder gets a second method for this instruction, which takes an immediate for the last value
    /// input.
    pub fn inst_builder_imm_method(mut self, enabled: bool) -> Self
        ensures { result ≡ record self { marks = record self.marks { inst_builder_imm_method = enabled } } }
    {
        self.marks.inst_builder_imm_method = enabled;
        self
    }
    /// Whether the format is of the table `formats`, and the type variable of each value operand and the second control are of the registry
    /// `vars`.
    pub fn fits(&self, vars: &TypeVars, formats: &FormatTable) -> bool
        ensures { IsTrue result ↔ FitsBuilder vars.now formats.now self.now }
    {
        if !formats.is_of(self.format) {
            return false;
        }
        if !are_operands_of(vars, self.outputs()) {
            return false;
        }
        if let Some(second) = self.second {
            if !vars.is_of(second) {
                return false;
            }
        }
        are_operands_of(vars, self.inputs())
    }

    /// Whether the instruction asks for a method that takes an immediate, but can't have one.
    fn has_bad_imm_method(&self, format: &InstructionFormat, results: usize, values: usize) -> bool
        ensures { IsTrue result ↔ ((self.now.marks.inst_builder_imm_method ≡ true) × TakesNoImmediate format.now results values) }
    {
        if !self.marks.inst_builder_imm_method {
            return false;
        }
        if format.has_value_list {
            return true;
        }
        results != 1 || values < 2
    }

    /// The first fault of the instruction's form: a bad name, a bad output, or inputs that don't match the format. The types of operands
    /// aren't looked at.
    fn form_fault(&self, formats: &FormatTable, number: u64) -> Option<DefinitionError>
        requires { self.now.format < length formats.now }
        ensures none { IfNone result ((vars : List TypeVarContent) → KeepsRulesBefore vars formats.now self.now ControlRule) }
        ensures found { IfSome result (λ e. (vars : List TypeVarContent) → IsFirstOwnFault vars formats.now self.now number e) }
    {
        if !is_name(self.name()) {
            return Some(DefinitionError::BadName(Place::Instruction(number)));
        }
        if let Some(place) = bad_output(self.outputs()) {
            return Some(DefinitionError::BadOutput(number, place as u64));
        }
        if !matches_format(self.inputs(), formats.get(self.format())) {
            return Some(DefinitionError::FormatMismatch(number));
        }
        None
    }

    /// The first fault that the instruction has by itself in its operands, if its form has no fault. The operands, and what was found of
    /// the control, are given.
    fn operands_fault(
        &self,
        vars: &TypeVars,
        formats: &FormatTable,
        operands: &Operands,
        control: &Controlling,
        number: u64,
    ) -> Option<DefinitionError>
        requires fits { FitsBuilder vars.now formats.now self.now }
        requires form { KeepsRulesBefore vars.now formats.now self.now ControlRule }
        requires operands { AreOperandsOf vars.now formats.now self.now operands.now }
        requires found { IsFound vars.now (instruction_of_builder vars.now formats.now self.now) control.now }
        requires control { IsOf vars.now control.now }
        ensures none { IfNone result (IsWellMade vars.now formats.now self.now) }
        ensures found { IfSome result (IsFirstOwnFault vars.now formats.now self.now number) }
    {
        if control.is_missing() {
            return Some(DefinitionError::NoControl(number));
        }
        if operands.has_bad_second(vars) {
            return Some(DefinitionError::BadSecond(number));
        }
        if let Some(place) = operands.bad_derivation(vars, control) {
            return Some(DefinitionError::BadDerivation(number, place as u64));
        }
        let results = operands.result_count();
        let values = operands.variables().len() - results;
        if let Some(count) = too_many(results, values) {
            return Some(DefinitionError::TooManyOperands(number, count as u64));
        }
        if self.has_bad_imm_method(formats.get(self.format()), results, values) {
            return Some(DefinitionError::BadImmMethod(number));
        }
        None
    }

    fn texts(&self, alloc: Global) -> Result<Texts, AllocError>
        ensures name { IfOk result (λ t. t.name ≡ self.now.name) }
        ensures camel_name { IfOk result (λ t. t.camel_name ≡ camel_case_of self.now.name) }
        ensures doc { IfOk result (λ t. t.doc ≡ self.now.doc) }
    {
        Ok(Texts {
            name: self.name.copy(alloc)?,
            camel_name: camel_case(alloc, &self.name)?,
            doc: self.doc.copy(alloc)?,
        })
    }

    fn places(&self, alloc: Global) -> Result<Places, AllocError>
        ensures value_opnums { IfOk result (λ p. p.value_opnums.items ≡ places_where is_value_operand (inputs_of self.now)) }
        ensures imm_opnums { IfOk result (λ p. p.imm_opnums.items ≡ places_where is_immediate_or_entityref_operand (inputs_of self.now)) }
        ensures value_results { IfOk result (λ p. p.value_results.items ≡ places_where is_value_operand (outputs_of self.now)) }
    {
        Ok(Places {
            value_opnums: value_places(alloc, self.inputs())?,
            imm_opnums: immediate_places(alloc, self.inputs())?,
            value_results: value_places(alloc, self.outputs())?,
        })
    }

    fn operands(&self, alloc: Global) -> Result<OperandLists, AllocError>
        ensures inputs { IfOk result (λ o. o.inputs.items ≡ inputs_of self.now) }
        ensures outputs { IfOk result (λ o. o.outputs.items ≡ outputs_of self.now) }
    {
        Ok(OperandLists {
            inputs: copied_operands(alloc, self.inputs())?,
            outputs: copied_operands(alloc, self.outputs())?,
        })
    }

    fn content(
        &self,
        alloc: Global,
        value_operands: Operands,
        polymorphic_info: Option<PolymorphicInfo>,
    ) -> Result<InstructionContent, AllocError>
        ensures { (formats : List InstructionFormat) → value_operands ≡ operand_list formats self.now
            → IfOk result (λ c. c ≡ content_of formats self.now polymorphic_info) }
    {
        let texts = self.texts(alloc)?;
        let places = self.places(alloc)?;
        let operands = self.operands(alloc)?;
        Ok(InstructionContent {
            name: texts.name,
            camel_name: texts.camel_name,
            doc: texts.doc,
            operands_in: operands.inputs,
            operands_out: operands.outputs,
            format: self.format,
            polymorphic_info,
            value_opnums: places.value_opnums,
            imm_opnums: places.imm_opnums,
            value_results: places.value_results,
            marks: self.marks,
            value_operands,
        })
    }

    /// Builds the instruction. One with a fault by itself is refused, and no other: the error is its first fault, with `number` as the
    /// number of the instruction. The faults are a bad name, a bad output, inputs that don't match the format, a missing control, a bad
    /// second control, a bad derivation, too many operands, and a bad immediate method. `OutOfMemory` may come in any case. The instruction
    /// must be of the registries, which `fits` tests. In the crate the call is private, takes the builder, and panics.
    pub fn build(
        &self,
        alloc: Global,
        vars: &TypeVars,
        formats: &FormatTable,
        number: u64,
    ) -> Result<InstructionContent, DefinitionError>
        requires { FitsBuilder vars.now formats.now self.now }
        ensures refused { IfErr result (λ e. e ≢ OutOfMemory → IsFirstOwnFault vars.now formats.now self.now number e) }
        ensures well_made { OnOk result (IsWellMade vars.now formats.now self.now) }
        ensures content { IfOk result (λ c. c ≡ content_of formats.now self.now c.polymorphic_info) }
        ensures control { IfOk result (λ c. IsPolymorphicInfoOf vars.now formats.now self.now c.polymorphic_info) }
    {
        if let Some(fault) = self.form_fault(formats, number) {
            return Err(fault);
        }
        let operands = Operands::of(alloc, self, formats)?;
        let control = operands.control(vars);
        if let Some(fault) = self.operands_fault(vars, formats, &operands, &control, number) {
            return Err(fault);
        }
        let polymorphic_info = operands.polymorphic_info(vars, &control);
        Ok(self.content(alloc, operands, polymorphic_info)?)
    }
}

fn is_operand_of(vars: &TypeVars, operand: &Operand) -> bool
    ensures { IsTrue result ↔ AreOf vars.now (variables_of (operand.now ∷ [])) }
{
    match operand.type_var() {
        Some(tv) => vars.is_of(tv),
        None => true,
    }
}

fn are_operands_of(vars: &TypeVars, operands: &[Operand]) -> bool
    ensures { IsTrue result ↔ AreOf vars.now (variables_of operands.now) }
{
    for operand in operands {
        if !is_operand_of(vars, operand) {
            return false;
        }
    }
    true
}
