ghost use Rattle.std.specs.Prelude.{◌≡◌, ◌≢◌, ◌↔◌, ◌≤◌, ◌+◌, ◌^◌, ◌<◌, ℕ, List, Option, IsTrue, IsSome, IfSome, IfNone, IfOk, length, map};
ghost use Rattle.std.specs.Prelude.{take, drop, slice_get, Contains, None, Some};
ghost use Rattle.meta_lists.specs.First.{IsFirst};
ghost use Rattle.meta_typevar.specs.Registry.{HoldTypeSets};
ghost use Rattle.meta_inst.specs.InstructionSet.{InstructionSet};
ghost use Rattle.meta_inst.specs.Which.{both};
ghost use Rattle.meta_inst.specs.Tables.{TableContents, at_opcode, Allows, SetContains, ControlNumberFits, NumberPasses, PassesAt};
ghost use Rattle.meta_gen.specs.TablesOf.{AreTablesOf, AcceptsOpcode};
ghost use Rattle.meta_gen.specs.Constraint.{number_constraint_of, entry_of};
ghost use Rattle.meta_gen.specs.WellFormedOpcodes.{AreWellFormedParts, IsWellFormedOpcodes};
ghost use Rattle.meta_gen.specs.Contents.{contents_of, IsOpcode, IsOpcodeNamed, AllPass};
ghost use Rattle.meta_unique.specs.NameSlots.{AreNameSlots, NameAnswers, IsNameLookup};
ghost use Rattle.meta_gen.specs.Found.{IsDeclaredAs, FindsName};
ghost use Rattle.meta_gen.specs.Inferred.{InfersControl, InfersOpcode, HasControlType};
ghost use Rattle.meta_gen.specs.InfersResults.{InfersResults};
ghost use Rattle.meta_inst.specs.Inference.{GivesAt, GivesResults};

use super::constraint::{
    Constraint, ControlNumbers, Demand, NO_TYPE_SET, OpcodeConstraints, given,
};
use super::entries::entries;
use super::masks::masks_of;
use super::names::{copied_formats, copied_names};
use super::same_opcodes::{same_constraints, same_entries, same_masks};
use meta_build::Built;
use meta_types::{Text, same_texts};
use meta_typevar::Masks;
use meta_unique::{Steps, name_slots, probe, probe_counted, same_slots, simple_hash};
use std::alloc::{AllocError, Global};
use std::marker::Model;
use std::sync::ledger::Ledger;

/// The tables of an instruction set. For each opcode, from 1, they have its name, the name of its format and its constraints. Beside these
/// they have the type sets and the one list of operand constraints, which the constraints refer to, and the slots by which a name is looked
/// up. They are well-formed: no reference points to something that is missing.
#[derive(Debug, Drop)]
pub struct OpcodeTables {
    names: Vec<Text>,
    formats: Vec<Text>,
    type_sets: Vec<Masks>,
    operand_constraints: Vec<Constraint>,
    constraints: Vec<OpcodeConstraints>,
    opcode_slots: Vec<Option<u16>>,
}

impl Model for OpcodeTables {
    ghost use Rattle.meta_inst.specs.Tables.{TableContents};
    ghost use Rattle.meta_gen.specs.Contents.{contents_of, AreKept};

    ghost Value = { TableContents };

    ghost view = { λ t. contents_of (record {
      names = t.names.items;
      formats = t.formats.items;
      slots = t.opcode_slots.items;
    }) t.type_sets.items t.operand_constraints.items t.constraints.items };

    ghost invariant = { λ t. AreKept (contents_of (record {
      names = t.names.items;
      formats = t.formats.items;
      slots = t.opcode_slots.items;
    }) t.type_sets.items t.operand_constraints.items t.constraints.items) };
}

const FIRST_OPCODE: u16 = 1;

fn opcode_slots(alloc: Global, names: &[Text]) -> Result<Vec<Option<u16>>, AllocError>
    requires { length names.now ≤ 4095 }
    ensures slots { IfOk result (λ v. AreNameSlots 1 names.now v.items) }
    ensures vacant { IfOk result (λ v. Contains v.items None) }
{
    let mut borrowed = Vec::with_capacity(alloc, names.len())?;
    for name in names {
        borrowed.push(name.as_bytes())?;
    }
    name_slots(alloc, &borrowed, FIRST_OPCODE)
}

impl OpcodeTables {
    /// Makes the tables of what is built of declarations. They hold each instruction under its name, in order: opcode 1 is the first. Read
    /// by the decoding, they allow exactly what the declarations accept, and give exactly the results that the declarations infer.
    pub fn of(alloc: Global, built: &Built<'_>) -> Result<OpcodeTables, AllocError>
        ensures tables { IfOk result (λ t. AreTablesOf built.now.declared.set t) }
        ensures well_formed { IfOk result IsWellFormedOpcodes }
        ensures acceptance { IfOk result (λ t. (op : ℕ) (c e : Option ℕ) (rs vs : List ℕ)
            → (Allows t op c e rs vs ↔ AcceptsOpcode built.now.declared.set op c e rs vs)) }
        ensures inference { IfOk result (λ t. (op : ℕ) (c e : Option ℕ) (numbers : List ℕ)
            → (GivesResults t op c e numbers ↔ InfersOpcode built.now.declared.set op c e numbers)) }
    {
        let declarations = built.declarations();
        let instructions = declarations.instructions();
        let parts = entries(alloc, declarations.vars(), built)?;
        let masks = masks_of(alloc, built.type_sets())?;
        let names = copied_names(alloc, instructions)?;
        let format_names = copied_formats(alloc, declarations.formats(), instructions)?;
        OpcodeTables::new(
            alloc,
            names,
            format_names,
            masks,
            parts.constraints,
            parts.entries,
        )
    }

    pub(crate) fn new(
        alloc: Global,
        names: Vec<Text>,
        formats: Vec<Text>,
        type_sets: Vec<Masks>,
        operand_constraints: Vec<Constraint>,
        constraints: Vec<OpcodeConstraints>,
    ) -> Result<OpcodeTables, AllocError>
        requires { AreWellFormedParts names.items formats.items type_sets.items
            (map number_constraint_of operand_constraints.items) (map entry_of constraints.items) }
        ensures parts { IfOk result (λ t. t ≡ contents_of
            (record { names = names.items; formats = formats.items; slots = t.opcode_slots }) type_sets.items
            operand_constraints.items constraints.items) }
        ensures slots { IfOk result (λ t. AreNameSlots 1 names.items t.opcode_slots) }
        ensures well_formed { IfOk result IsWellFormedOpcodes }
    {
        let opcode_slots = opcode_slots(alloc, &names)?;
        Ok(OpcodeTables {
            names,
            formats,
            type_sets,
            operand_constraints,
            constraints,
            opcode_slots,
        })
    }

    /// How many opcodes there are, at most 4,095. They are the numbers from 1 to this count.
    pub fn opcode_count(&self) -> u16
        ensures count { result ≡ length self.now.entries }
        ensures named { length self.now.names ≡ length self.now.entries }
        ensures few { length self.now.entries ≤ 4095 }
        ensures well_formed { IsWellFormedOpcodes self.now }
    {
        self.constraints.len() as u16
    }

    /// Whether these tables and the others are equal in all parts.
    pub fn same(&self, other: &OpcodeTables) -> bool
        ensures { IsTrue result ↔ (self.now ≡ other.now) }
    {
        if !same_texts(&self.names, &other.names) {
            return false;
        }
        if !same_texts(&self.formats, &other.formats) {
            return false;
        }
        if !same_slots(&self.opcode_slots, &other.opcode_slots) {
            return false;
        }
        if !same_masks(&self.type_sets, &other.type_sets) {
            return false;
        }
        if !same_constraints(&self.operand_constraints, &other.operand_constraints) {
            return false;
        }
        same_entries(&self.constraints, &other.constraints)
    }

    /// The type sets. Constraints name them by their places here.
    pub fn type_sets(&self) -> &[Masks]
        ensures { result.now ≡ self.now.type_sets }
    {
        &self.type_sets
    }

    /// The one list of operand constraints. The constraints of an opcode say where its own begin.
    pub fn operand_constraints(&self) -> &[Constraint]
        ensures { map number_constraint_of result.now ≡ self.now.operand_constraints }
    {
        &self.operand_constraints
    }

    /// The constraints of an opcode. `None` exactly if `opcode` isn't 1 to `opcode_count`.
    pub fn constraints(&self, opcode: u16) -> Option<OpcodeConstraints>
        ensures opcode { IsSome result ↔ IsOpcode self.now opcode }
        ensures entry { IfSome result (λ e. at_opcode self.now.entries opcode ≡ Some (entry_of e)) }
        ensures meaning { (d : InstructionSet) → AreTablesOf d self.now → IfSome result (λ e. IsDeclaredAs d self.now opcode (entry_of e)) }
    {
        if opcode == 0 {
            return None;
        }
        self.constraints.get(opcode as usize - 1).copied()
    }

    /// The name of an opcode. `None` exactly if `opcode` isn't 1 to `opcode_count`.
    pub fn opcode_name(&self, opcode: u16) -> Option<&Text>
        ensures opcode { IsSome result ↔ IsOpcode self.now opcode }
        ensures name { IfSome result (λ name. at_opcode self.now.names opcode ≡ Some name.now) }
        ensures none { IfNone result (at_opcode self.now.names opcode ≡ None) }
    {
        if opcode == 0 {
            return None;
        }
        self.names.get(opcode as usize - 1)
    }

    /// The name of the format of an opcode. `None` exactly if `opcode` isn't 1 to `opcode_count`.
    pub fn opcode_format(&self, opcode: u16) -> Option<&Text>
        ensures opcode { IsSome result ↔ IsOpcode self.now opcode }
        ensures format { IfSome result (λ name. at_opcode self.now.formats opcode ≡ Some name.now) }
        ensures none { IfNone result (at_opcode self.now.formats opcode ≡ None) }
    {
        if opcode == 0 {
            return None;
        }
        self.formats.get(opcode as usize - 1)
    }

    /// The slots that a look-up of a name probes. The place of each opcode follows from the hash of its name and from the opcodes before
    /// it.
    pub fn opcode_slots(&self) -> &[Option<u16>]
        ensures slots { result.now ≡ self.now.opcode_slots }
        ensures names { AreNameSlots 1 self.now.names self.now.opcode_slots }
    {
        &self.opcode_slots
    }

    fn has_name(&self, opcode: u16, name: &[u8]) -> bool
        ensures { NameAnswers 1 self.now.names name.now opcode result }
    {
        match self.opcode_name(opcode) {
            Some(own) => own.as_bytes() == name,
            None => false,
        }
    }

    /// The opcode that has the name, of which there is at most one. `None` exactly if no opcode has it. The cost is the length of the name,
    /// and that of the look-up in the slots.
    pub fn find_opcode(&self, name: &[u8]) -> Option<u16>
        ensures found { IfSome result (IsFirst (IsOpcodeNamed self.now.names name.now)) }
        ensures finds { (op : ℕ) → at_opcode self.now.names op ≡ Some name.now → result ≡ Some op }
        ensures none { IfNone result ((k : ℕ) → at_opcode self.now.names k ≢ Some name.now) }
        ensures findings { (d : InstructionSet) → AreTablesOf d self.now → FindsName d name.now result }
    {
        probe(
            &self.opcode_slots,
            simple_hash(name),
            |opcode| self.has_name(opcode, name),
        )
    }

    /// Finds an opcode as `find_opcode` does. `steps` rises by the number of slots that were looked at.
    pub fn find_opcode_counted<L: Ledger>(&self, name: &[u8], steps: &mut Steps<L>) -> Option<u16>
        ensures found { IfSome result (IsFirst (IsOpcodeNamed self.now.names name.now)) }
        ensures finds { (op : ℕ) → at_opcode self.now.names op ≡ Some name.now → result ≡ Some op }
        ensures none { IfNone result ((k : ℕ) → at_opcode self.now.names k ≢ Some name.now) }
        ensures findings { (d : InstructionSet) → AreTablesOf d self.now → FindsName d name.now result }
        ensures steps { (last : ℕ) × IsNameLookup 1 self.now.names self.now.opcode_slots name.now result last
            × (steps.new ≡ steps.old + (last + 1)) }
        ensures most { steps.new ≤ steps.old + length self.now.opcode_slots }
    {
        probe_counted(
            &self.opcode_slots,
            simple_hash(name),
            |opcode| self.has_name(opcode, name),
            steps,
        )
    }

    /// Whether the opcode accepts these types, given by their numbers: `ctrl` is the controlling type, `results` and `values` the types of
    /// the value results and value inputs. There is no second controlling type. The answer is false if a number isn't that of a type, or
    /// `opcode` isn't an opcode.
    pub fn accepts(&self, opcode: u16, ctrl: Option<u16>, results: &[u16], values: &[u16]) -> bool
        ensures decoding { IsTrue result ↔ Allows self.now opcode ctrl None results.now values.now }
        ensures meaning { (d : InstructionSet) → HoldTypeSets d.vars → AreTablesOf d self.now
            → (IsTrue result ↔ AcceptsOpcode d opcode ctrl None results.now values.now) }
    {
        self.accepts2(opcode, ctrl, None, results, values)
    }

    /// Whether the opcode accepts these types, as `accepts`, with `second` as the number of the second controlling type. An opcode with a
    /// second control needs one, and any other has none.
    pub fn accepts2(
        &self,
        opcode: u16,
        ctrl: Option<u16>,
        second: Option<u16>,
        results: &[u16],
        values: &[u16],
    ) -> bool
        ensures decoding { IsTrue result ↔ Allows self.now opcode ctrl second results.now values.now }
        ensures meaning { (d : InstructionSet) → HoldTypeSets d.vars → AreTablesOf d self.now
            → (IsTrue result ↔ AcceptsOpcode d opcode ctrl second results.now values.now) }
    {
        let Some(entry) = self.constraints(opcode) else {
            return false;
        };
        if results.len() != entry.result_count() {
            return false;
        }
        if values.len() != entry.value_count() {
            return false;
        }
        if !self.control_fits(entry.typeset_offset, ctrl) {
            return false;
        }
        if !self.control_fits(entry.second_offset, second) {
            return false;
        }
        let controls = ControlNumbers { ctrl, second };
        let offset = entry.constraint_offset as usize;
        if !self.all_pass(controls, offset, results) {
            return false;
        }
        self.all_pass(controls, offset + results.len(), values)
    }

    /// The controlling type, if it can be read off the designated value: `value` itself, the number of that value's type. It is `None`
    /// unless the designated value's variable is the control of the opcode and its type set contains the type.
    pub fn infer_control(&self, opcode: u16, value: u16) -> Option<u16>
        ensures value { IfSome result (λ n. n ≡ value) }
        ensures some { IsSome result ↔ InfersControl self.now opcode value }
        ensures meaning { (d : InstructionSet) → HoldTypeSets d.vars → AreTablesOf d self.now
            → IfSome result (λ n. (c e : Option ℕ) (rs vs : List ℕ) → Allows self.now opcode c e rs vs → HasControlType d opcode c vs) }
    {
        let entry = self.constraints(opcode)?;
        if entry.designated_controls() && self.set_contains(entry.typeset_offset, value) {
            Some(value)
        } else {
            None
        }
    }

    /// Infers the types of the results, as `infer_results2`, without a second controlling type.
    pub fn infer_results(&self, opcode: u16, ctrl: Option<u16>, out: &mut [u16; 7]) -> Option<usize>
        ensures { InfersResults self.now opcode ctrl None out.old result out.new }
    {
        self.infer_results2(opcode, ctrl, None, out)
    }

    /// Infers the types of an opcode's results from the numbers of its controlling types. It answers how many results there are, and writes
    /// the number of each one's type to the front of `out`: 0 if a result can have several types. `None` if the opcode can't have these
    /// controlling types, or some result can have no type under them. Then no types are accepted with them.
    pub fn infer_results2(
        &self,
        opcode: u16,
        ctrl: Option<u16>,
        second: Option<u16>,
        out: &mut [u16; 7],
    ) -> Option<usize>
        ensures { InfersResults self.now opcode ctrl second out.old result out.new }
    {
        self.infer_into(ControlNumbers { ctrl, second }, opcode, out)
    }

    /// Writes the numbers that the constraints of the results give to the front of `out`, and answers how many there are. `None`, with
    /// nothing written, if the controlling numbers don't fit or a constraint gives nothing.
    fn infer_into(&self, controls: ControlNumbers, opcode: u16, out: &mut [u16; 7]) -> Option<usize>
        ensures given { IfSome result (λ count. GivesResults self.now opcode controls.ctrl controls.second (take count out.new)) }
        ensures few { IfSome result (λ count. count ≤ 7) }
        ensures rest { IfSome result (λ count. drop count out.new ≡ drop count out.old) }
        ensures none { IfNone result ((numbers : List ℕ) → ¬ GivesResults self.now opcode controls.ctrl controls.second numbers) }
        ensures unchanged { IfNone result (out.new ≡ out.old) }
    {
        let entry = self.constraints(opcode)?;
        if !self.control_fits(entry.typeset_offset, controls.ctrl) {
            return None;
        }
        if !self.control_fits(entry.second_offset, controls.second) {
            return None;
        }
        let mut numbers = *out;
        let offset = entry.constraint_offset as usize;
        let count = entry.result_count();
        for k in 0..count {
            numbers[k] = self.given_at(controls, offset + k)?;
        }
        *out = numbers;
        Some(count)
    }

    fn given_at(&self, controls: ControlNumbers, place: usize) -> Option<u16>
        ensures some { IfSome result (λ n. GivesAt self.now (both controls.ctrl controls.second) place n) }
        ensures none { IfNone result ((n : ℕ) → ¬ GivesAt self.now (both controls.ctrl controls.second) place n) }
    {
        match self.operand_constraints.get(place) {
            Some(constraint) => given(controls, *constraint),
            None => None,
        }
    }

    /// Whether there is a type set at the place `set`, and it contains the type with this number.
    pub fn set_contains(&self, set: u16, number: u16) -> bool
        ensures { IsTrue result ↔ SetContains self.now set number }
    {
        match self.type_sets.get(set as usize) {
            Some(masks) => masks.contains(number),
            None => false,
        }
    }

    /// Whether a controlling number fits an opcode with this type set offset. If the offset is `NO_TYPE_SET`, there must be no number; else
    /// there must be one, and the type set at the offset must contain it.
    pub fn control_fits(&self, offset: u16, ctrl: Option<u16>) -> bool
        ensures { IsTrue result ↔ ControlNumberFits self.now offset ctrl }
    {
        if offset == NO_TYPE_SET {
            return ctrl.is_none();
        }
        match ctrl {
            Some(number) => self.set_contains(offset, number),
            None => false,
        }
    }

    fn passes(&self, controls: ControlNumbers, constraint: Constraint, number: u16) -> bool
        ensures { IsTrue result ↔ NumberPasses self.now (both controls.ctrl controls.second) (number_constraint_of constraint) number }
    {
        match constraint.demanded() {
            Demand::Number(wanted) => number == wanted,
            Demand::OfSet(set) => self.set_contains(set, number),
            Demand::Controlling(which) => controls.of(which) == Some(number),
            Demand::By(which, derived_func) => match controls.of(which) {
                Some(from) => derived_func.relates_number(from, number),
                None => false,
            },
        }
    }

    fn passes_at(&self, controls: ControlNumbers, place: usize, number: u16) -> bool
        ensures { IsTrue result ↔ PassesAt self.now (both controls.ctrl controls.second) place number }
    {
        match self.operand_constraints.get(place) {
            Some(constraint) => self.passes(controls, *constraint, number),
            None => false,
        }
    }

    /// Whether the number of a type passes the constraint under the numbers of the controlling types.
    pub fn constraint_passes(
        &self,
        ctrl: Option<u16>,
        second: Option<u16>,
        constraint: Constraint,
        number: u16,
    ) -> bool
        ensures { IsTrue result ↔ NumberPasses self.now (both ctrl second) (number_constraint_of constraint) number }
    {
        self.passes(ControlNumbers { ctrl, second }, constraint, number)
    }

    /// Whether there is an operand constraint at `place` of the one list, and the number of a type passes it under the numbers of the
    /// controlling types.
    pub fn operand_passes(
        &self,
        ctrl: Option<u16>,
        second: Option<u16>,
        place: usize,
        number: u16,
    ) -> bool
        ensures { IsTrue result ↔ PassesAt self.now (both ctrl second) place number }
    {
        self.passes_at(ControlNumbers { ctrl, second }, place, number)
    }

    fn all_pass(&self, controls: ControlNumbers, offset: usize, numbers: &[u16]) -> bool
        requires { offset < 2 ^ 32 }
        ensures { IsTrue result ↔ AllPass self.now (both controls.ctrl controls.second) offset numbers.now }
    {
        for (k, number) in numbers.iter().enumerate() {
            if !self.passes_at(controls, offset + k, *number) {
                return false;
            }
        }
        true
    }
}
