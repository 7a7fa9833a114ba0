ghost use Rattle.std.specs.Prelude.{◌≡◌, ◌↔◌, ◌<◌, ◌≤◌, ◌^◌, Some, IsTrue, IfSome, OnOk, length, slice_get};
ghost use Rattle.meta_inst.specs.Controls.{which_of};
ghost use Rattle.meta_inst.specs.Tables.{SameNumber, ControlNumberFits};
ghost use Rattle.meta_gen.specs.WellFormedOpcodes.{IsWellFormedOpcodes};
ghost use Rattle.meta_gen.specs.Constraint.{number_constraint_of, entry_of};
ghost use Rattle.meta_explain.specs.Parts.{numbers_of};
ghost use Rattle.meta_explain.specs.Found.{control_place};
ghost use Rattle.meta_explain.specs.Search.{TypesAlonePass, CanPass, AllCanPass, Tells, offset_of, IsFoundIn, IsWithin, Adds};
ghost use Rattle.meta_explain.specs.declared.found.Found.{Found};

use super::control_types::ControlTypes;
use super::found::Found;
use super::types::{FIRST_TYPE, TYPES_END, has_type_at};
use meta_gen::{Constraint, Demand, NO_TYPE_SET, OpcodeConstraints, OpcodeTables, Which};
use std::alloc::AllocError;

/// Whether what is asked for passes the operand constraint at the place. `None` asks for any type.
fn can_pass(tables: &OpcodeTables, controls: ControlTypes, place: usize, asked: Option<u16>) -> bool
    requires { TypesAlonePass tables.now (numbers_of controls) }
    ensures { IsTrue result ↔ CanPass tables.now (numbers_of controls) place asked }
{
    match asked {
        Some(number) => tables.operand_passes(controls.ctrl, controls.second, place, number),
        None => has_type_at(tables, controls, place),
    }
}

/// Whether what is asked for passes the operand constraint at each place from the offset on.
pub(crate) fn all_can_pass(
    tables: &OpcodeTables,
    controls: ControlTypes,
    offset: usize,
    asked: &[Option<u16>],
) -> bool
    requires offset { offset < 2 ^ 32 }
    requires types { TypesAlonePass tables.now (numbers_of controls) }
    ensures { IsTrue result ↔ AllCanPass tables.now (numbers_of controls) offset asked.now }
{
    for (k, number) in asked.iter().enumerate() {
        if !can_pass(tables, controls, offset + k, *number) {
            return false;
        }
    }
    true
}

/// Whether the constraint asks for this controlling type itself.
fn asks_for(constraint: Constraint, which: Which) -> bool
    ensures { IsTrue result → number_constraint_of constraint ≡ SameNumber (which_of which) }
{
    match constraint.demanded() {
        Demand::Controlling(own) => own == which,
        Demand::Number(_) | Demand::OfSet(_) | Demand::By(_, _) => false,
    }
}

/// Whether the operand constraint at the place asks for this controlling type itself.
fn is_control_at(tables: &OpcodeTables, which: Which, place: usize) -> bool
    ensures { IsTrue result → slice_get tables.now.operand_constraints place ≡ Some (SameNumber (which_of which)) }
{
    match tables.operand_constraints().get(place) {
        Some(constraint) => asks_for(*constraint, which),
        None => false,
    }
}

/// The controlling type that is told by what is asked for: its number is asked for where an operand has to be that type. It is `None` also
/// if no such operand is asked for.
fn told_at(tables: &OpcodeTables, which: Which, offset: usize, asked: &[Option<u16>]) -> Option<u16>
    requires { offset < 2 ^ 32 }
    ensures { IfSome result (Tells tables.now (which_of which) offset asked.now) }
{
    for (k, number) in asked.iter().enumerate() {
        if number.is_some() && is_control_at(tables, which, offset + k) {
            return *number;
        }
    }
    None
}

/// The places of some controls in the order of controls: no control is at 0, and the type with the number `n` at `n + 1`.
#[derive(Clone, Copy)]
pub(crate) struct Places {
    /// The first place.
    pub(crate) from: u32,
    /// The place after the last.
    pub(crate) end: u32,
}

/// The control at a place.
fn control_at(place: u32) -> Option<u16>
    requires { place ≤ 65536 }
    ensures { control_place result ≡ place }
{
    if place == 0 {
        None
    } else {
        Some((place - 1) as u16)
    }
}

/// The offset of the type set of a control.
pub(crate) fn offset_of(entry: OpcodeConstraints, which: Which) -> u16
    ensures { result ≡ offset_of (entry_of entry) (which_of which) }
{
    match which {
        Which::First => entry.typeset_offset,
        Which::Second => entry.second_offset,
    }
}

/// A search in one opcode, which has as many results and values as are asked for.
#[derive(Clone, Copy)]
pub(crate) struct Search<'a> {
    pub(crate) tables: &'a OpcodeTables,
    pub(crate) opcode: u16,
    pub(crate) entry: OpcodeConstraints,
    /// The results that are asked for. `None` asks for any type.
    pub(crate) results: &'a [Option<u16>],
    /// The values that are asked for.
    pub(crate) values: &'a [Option<u16>],
}

impl Search<'_> {
    /// The controlling type that is told by what is asked for.
    fn told(&self, which: Which) -> Option<u16>
        requires { length self.now.results.now ≤ 7 }
        ensures { IfSome result (λ n. (x : Found) → IsFoundIn self.now x → numbers_of x.controls (which_of which) ≡ Some n) }
    {
        let offset = self.entry.constraint_offset as usize;
        if let Some(number) = told_at(self.tables, which, offset, self.results) {
            return Some(number);
        }
        told_at(self.tables, which, offset + self.results.len(), self.values)
    }

    /// The places where the control can stand of what is found.
    fn places(&self, which: Which) -> Places
        requires { length self.now.results.now ≤ 7 }
        ensures within { (x : Found) → IsFoundIn self.now x → IsWithin result (numbers_of x.controls (which_of which)) }
        ensures few { result.end ≤ 65537 }
    {
        if offset_of(self.entry, which) == NO_TYPE_SET {
            return Places { from: 0, end: 1 };
        }
        match self.told(which) {
            Some(number) => Places {
                from: u32::from(number) + 1,
                end: u32::from(number) + 2,
            },
            None => Places {
                from: u32::from(FIRST_TYPE) + 1,
                end: u32::from(TYPES_END) + 1,
            },
        }
    }

    /// Adds the opcode with these controls if it is found with them.
    fn push_if_found(
        &self,
        controls: ControlTypes,
        found: &mut Vec<Found>,
    ) -> Result<(), AllocError>
        requires few { length self.now.results.now ≤ 7 }
        requires well_formed { IsWellFormedOpcodes self.now.tables.now }
        requires fits { ControlNumberFits self.now.tables.now self.now.entry.typeset_offset controls.ctrl }
        ensures { OnOk result (Adds (λ x. IsFoundIn self.now x × (x.controls ≡ controls)) found.old.items found.new.items) }
    {
        if !self
            .tables
            .control_fits(self.entry.second_offset, controls.second)
        {
            return Ok(());
        }
        let offset = self.entry.constraint_offset as usize;
        if !all_can_pass(self.tables, controls, offset, self.results) {
            return Ok(());
        }
        if !all_can_pass(
            self.tables,
            controls,
            offset + self.results.len(),
            self.values,
        ) {
            return Ok(());
        }
        found.push(Found {
            opcode: self.opcode,
            controls,
        })?;
        Ok(())
    }

    /// Adds the opcode with each two controls of which this is the first and with which it is found.
    fn push_under(&self, ctrl: Option<u16>, found: &mut Vec<Found>) -> Result<(), AllocError>
        requires few { length self.now.results.now ≤ 7 }
        requires well_formed { IsWellFormedOpcodes self.now.tables.now }
        ensures { OnOk result (Adds (λ x. IsFoundIn self.now x × (x.controls.ctrl ≡ ctrl)) found.old.items found.new.items) }
    {
        if !self.tables.control_fits(self.entry.typeset_offset, ctrl) {
            return Ok(());
        }
        let places = self.places(Which::Second);
        for place in places.from..places.end {
            let second = control_at(place);
            self.push_if_found(ControlTypes { ctrl, second }, found)?;
        }
        Ok(())
    }

    /// Adds the opcode with all controls with which it is found.
    pub(crate) fn push_all(&self, found: &mut Vec<Found>) -> Result<(), AllocError>
        requires few { length self.now.results.now ≤ 7 }
        requires well_formed { IsWellFormedOpcodes self.now.tables.now }
        ensures { OnOk result (Adds (IsFoundIn self.now) found.old.items found.new.items) }
    {
        let places = self.places(Which::First);
        for place in places.from..places.end {
            self.push_under(control_at(place), found)?;
        }
        Ok(())
    }
}
