ghost use Rattle.std.specs.Prelude.{◌≡◌, ◌↔◌, ◌⊎◌, ◌≤◌, List, ◌++◌, ◌∷◌, [], ◌<◌, ℕ, IsTrue, MatchBool, OnOk, IfOk, IfSome, IfNone, length};
ghost use Rattle.std.specs.Prelude.{slice_get, take, Some};
ghost use Rattle.meta_typevar.specs.declared.content.TypeVarContent.{TypeVarContent};
ghost use Rattle.meta_typevar.specs.Registry.{sets_of, variable_at, IsRegistry};
ghost use Rattle.meta_operands.specs.Operand.{variables_of};
ghost use Rattle.meta_inst.specs.Builder.{inputs_of, outputs_of};
ghost use Rattle.meta_inst.specs.InstructionSet.{instruction_of_builder, begins_with_value};
ghost use Rattle.meta_inst.specs.Instruction.{IsDesignated};
ghost use Rattle.meta_inst.specs.Content.{control_kept, operand_list};
ghost use Rattle.meta_inst.specs.Control.{IsBadlyDerived};
ghost use Rattle.meta_inst.specs.Which.{both};
ghost use Rattle.meta_inst.specs.Controls.{AreControlsOf, controls_at};
ghost use Rattle.meta_inst.specs.FoundControl.{IsFoundIn, MayNot, control_number, control_in, IsBadAt, IsFirstBadAt, IsOf};
ghost use Rattle.std.specs.Ordering.{nat_cmp};
ghost use Rattle.std.specs.BTreeMap.{get};
ghost use Rattle.meta_inst.specs.Operands.{AreInputCounts, AreOf, SecondIsOf, IsAlone, HasOneType, LetsControl, CanControl, Uses};
ghost use Rattle.meta_inst.specs.Operands.{UsesNowhere, IsNoSecond, HasSeveralTypes, AllHaveOneType, instruction_of_operands};
ghost use Rattle.meta_inst.specs.Operands.{designated_number, first_number};

use super::builder::InstructionBuilder;
use super::checks::MAX_OPERANDS;
use super::controls::Controls;
use super::input_counts::InputCounts;
use super::polymorphic::PolymorphicInfo;
use meta_operands::{FormatTable, Operand};
use meta_typevar::{TypeVar, TypeVars};
use std::alloc::{AllocError, Global};
use std::marker::Model;

/// How many value operands have room at first. Few instructions have more.
const FEW_OPERANDS: usize = 8;

fn push_variables(out: &mut Vec<TypeVar>, operands: &[Operand]) -> Result<(), AllocError>
    ensures { OnOk result (out.new.items ≡ out.old.items ++ variables_of operands.now) }
{
    for operand in operands {
        push_variable(out, operand)?;
    }
    Ok(())
}

fn push_variable(out: &mut Vec<TypeVar>, operand: &Operand) -> Result<(), AllocError>
    ensures { OnOk result (out.new.items ≡ out.old.items ++ variables_of (operand.now ∷ [])) }
{
    if let Some(tv) = operand.type_var() {
        out.push(tv)?;
    }
    Ok(())
}

fn begins_with_value(operands: &[Operand]) -> bool
    ensures { result ≡ begins_with_value operands.now }
{
    match operands.first() {
        Some(first) => first.type_var().is_some(),
        None => false,
    }
}

fn has_one_type(vars: &TypeVars, tv: TypeVar) -> bool
    requires { tv < length vars.now }
    ensures { IsTrue result ↔ HasOneType vars.now tv }
{
    tv.root(vars).fixed_type(vars).is_some()
}

fn is_underived(vars: &TypeVars, tv: TypeVar) -> bool
    requires { tv < length vars.now }
    ensures { IsTrue result ↔ ((variable_at vars.now tv).chain ≡ []) }
{
    vars.content(tv).base.is_none()
}

/// Whether the variable at this place, which is that of an input, stands at no other input. It is used if there are few inputs.
fn stands_alone(variables: &[TypeVar], from: usize, place: usize) -> bool
    requires input { from ≤ place }
    requires within { place < length variables.now }
    ensures { IsTrue result ↔ IsAlone variables.now from place }
{
    for j in from..variables.len() {
        if j != place && variables[j] == variables[place] {
            return false;
        }
    }
    true
}

/// The counts of the inputs' variables if there are more inputs than an instruction may have.
fn counted_inputs(alloc: Global, inputs: &[TypeVar]) -> Result<Option<InputCounts>, AllocError>
    ensures { IfOk result (λ o. IfSome o (λ c. AreInputCounts inputs.now (get nat_cmp c.counts))) }
{
    if inputs.len() <= MAX_OPERANDS {
        return Ok(None);
    }
    Ok(Some(InputCounts::of(alloc, inputs)?))
}

fn lets_control(vars: &TypeVars, operands: &Operands, controls: &Controls, place: usize) -> bool
    requires variables { AreOf vars.now operands.now.variables }
    requires within { place < length operands.now.variables }
    ensures { (n : ℕ) → slice_get operands.now.variables place ≡ Some n
        → (IsTrue result ↔ LetsControl vars.now controls.now operands.now.variables operands.now.result_count place n) }
{
    let tv = operands.variables()[place];
    if controls.is_control(tv.root(vars)) {
        return true;
    }
    if has_one_type(vars, tv) {
        return true;
    }
    is_underived(vars, tv) && operands.is_alone(place)
}

/// Whether `v` can be the control: it is underived and isn't the second control, and the variable of each operand allows it beside that.
fn may_control(vars: &TypeVars, operands: &Operands, v: TypeVar) -> bool
    requires variables { AreOf vars.now operands.now.variables }
    requires of { v < length vars.now }
    ensures { IsTrue result ↔ CanControl vars.now operands.now.second operands.now.variables operands.now.result_count v }
{
    if !is_underived(vars, v) {
        return false;
    }
    let controls = operands.controls(Some(v));
    if controls.is_second(v) {
        return false;
    }
    for place in 0..operands.variables().len() {
        if !lets_control(vars, operands, &controls, place) {
            return false;
        }
    }
    true
}

fn is_polymorphic(vars: &TypeVars, variables: &[TypeVar]) -> bool
    requires { AreOf vars.now variables.now }
    ensures { MatchBool result (HasSeveralTypes vars.now variables.now) (AllHaveOneType vars.now variables.now) }
{
    for place in 0..variables.len() {
        if !has_one_type(vars, variables[place]) {
            return true;
        }
    }
    false
}

/// Whether some variable has the root of `s`.
fn is_used(vars: &TypeVars, variables: &[TypeVar], s: TypeVar) -> bool
    requires variables { AreOf vars.now variables.now }
    requires of { s < length vars.now }
    ensures { MatchBool result (Uses vars.now variables.now s) (UsesNowhere vars.now variables.now s) }
{
    let root = s.root(vars);
    for place in 0..variables.len() {
        if variables[place].root(vars) == root {
            return true;
        }
    }
    false
}

/// Whether `s` can't be a second control: it is derived, or no variable has its root, or nothing is polymorphic.
fn is_no_second(vars: &TypeVars, variables: &[TypeVar], s: TypeVar) -> bool
    requires variables { AreOf vars.now variables.now }
    requires of { s < length vars.now }
    ensures { IsTrue result ↔ IsNoSecond vars.now variables.now s }
{
    if !is_underived(vars, s) {
        return true;
    }
    if !is_used(vars, variables, s) {
        return true;
    }
    !is_polymorphic(vars, variables)
}

fn eligible(vars: &TypeVars, operands: &Operands, candidate: Option<TypeVar>) -> Option<TypeVar>
    requires variables { AreOf vars.now operands.now.variables }
    requires of { IfSome candidate (λ v. v < length vars.now) }
    ensures some { IfSome result (λ v. (candidate ≡ Some v)
        × CanControl vars.now operands.now.second operands.now.variables operands.now.result_count v) }
    ensures none { IfNone result (MayNot vars.now operands.now.second operands.now.variables operands.now.result_count candidate) }
{
    let v = candidate?;
    if may_control(vars, operands, v) {
        Some(v)
    } else {
        None
    }
}

/// What controls an instruction.
#[derive(Drop)]
pub enum Controlling {
    /// The instruction isn't polymorphic: each of its operands has one type.
    NotPolymorphic,
    /// This variable is the control.
    By(TypeVar),
    /// The instruction is polymorphic, and neither the variable of the designated value nor that of the first output can be the control.
    Missing,
}

impl Controlling {
    pub(crate) fn is_missing(&self) -> bool
        ensures { IsTrue result ↔ (self.now ≡ Controlling.Missing) }
    {
        match self {
            Controlling::NotPolymorphic | Controlling::By(_) => false,
            Controlling::Missing => true,
        }
    }

    fn variable(&self) -> Option<TypeVar>
        ensures { result ≡ control_number self.now }
    {
        match self {
            Controlling::By(v) => Some(*v),
            Controlling::NotPolymorphic | Controlling::Missing => None,
        }
    }
}

/// What controls an instruction with these operands: the variable of the designated value if it can be the control, and else that of the
/// first output.
fn control_of(
    vars: &TypeVars,
    operands: &Operands,
    designated: Option<TypeVar>,
    first: Option<TypeVar>,
) -> Controlling
    requires variables { AreOf vars.now operands.now.variables }
    requires designated { IfSome designated (λ v. v < length vars.now) }
    requires first { IfSome first (λ v. v < length vars.now) }
    ensures { IsFoundIn vars.now operands.now.second operands.now.variables operands.now.result_count designated first result }
{
    if !is_polymorphic(vars, operands.variables()) {
        return Controlling::NotPolymorphic;
    }
    if let Some(v) = eligible(vars, operands, designated) {
        return Controlling::By(v);
    }
    if let Some(v) = eligible(vars, operands, first) {
        return Controlling::By(v);
    }
    Controlling::Missing
}

/// Whether the variable is derived and has no fixed type, and its parent isn't a control.
fn is_badly_derived(vars: &TypeVars, controls: &Controls, tv: TypeVar) -> bool
    requires of { tv < length vars.now }
    requires controls { AreControlsOf vars.now controls.now }
    ensures { IsTrue result ↔ IsBadlyDerived (sets_of vars.now) (controls_at vars.now controls.now) (variable_at vars.now tv) }
{
    let Some(parent) = vars.content(tv).base else {
        return false;
    };
    if controls.is_control(parent.type_var) {
        return false;
    }
    tv.fixed_type(vars).is_none()
}

fn first_bad(vars: &TypeVars, controls: &Controls, variables: &[TypeVar]) -> Option<usize>
    requires variables { AreOf vars.now variables.now }
    requires controls { AreControlsOf vars.now controls.now }
    ensures found { IfSome result (IsFirstBadAt vars.now controls.now variables.now) }
    ensures none { IfNone result ((k : ℕ) → IsBadAt vars.now controls.now variables.now k → ⊥) }
{
    for place in 0..variables.len() {
        if is_badly_derived(vars, controls, variables[place]) {
            return Some(place);
        }
    }
    None
}

/// The value operands of an instruction, as the checks of its declaration need them: the type variables of the results and then of the
/// value inputs.
#[derive(Drop)]
pub struct Operands {
    variables: Vec<TypeVar>,
    result_count: usize,
    // if there are more inputs than an instruction may have
    input_counts: Option<InputCounts>,
    designated: Option<usize>,
    begins_with_value: bool,
    second: Option<TypeVar>,
}

impl Model for Operands {
    ghost use Rattle.std.specs.Prelude.{◌≤◌, length, drop, IfSome};
    ghost use Rattle.std.specs.Ordering.{nat_cmp};
    ghost use Rattle.std.specs.BTreeMap.{get};
    ghost use Rattle.meta_inst.specs.Operands.{OperandList, AreInputCounts};

    ghost Value = { OperandList };

    ghost view = { λ o. record {
      variables = o.variables.items;
      result_count = o.result_count;
      designated = o.designated;
      begins_with_value = o.begins_with_value;
      second = o.second;
    } };

    ghost invariant = { λ o. (o.result_count ≤ length o.variables.items)
        × IfSome o.input_counts (λ c. AreInputCounts (drop o.result_count o.variables.items) (get nat_cmp c.counts)) };
}

impl Operands {
    ghost use Rattle.meta_inst.specs.Control.{HasBadSecond, HasBadDerivation, IsFirstBadDerivation};
    ghost use Rattle.meta_inst.specs.FoundControl.{IsFound};
    ghost use Rattle.meta_inst.specs.InstructionSet.{instruction_of_builder, FitsBuilder};
    ghost use Rattle.meta_inst.specs.Builder.{inputs_of, outputs_of};

    /// The value operands of the instruction, whose format must be of the table.
    pub fn of(
        alloc: Global,
        builder: &InstructionBuilder,
        formats: &FormatTable,
    ) -> Result<Operands, AllocError>
        requires { builder.now.format < length formats.now }
        ensures operands { IfOk result (λ o. o ≡ operand_list formats.now builder.now) }
        ensures meaning { IfOk result (λ o. (vars : List TypeVarContent)
            → instruction_of_operands vars o ≡ instruction_of_builder vars formats.now builder.now) }
        ensures fits { IfOk result (λ o. (vars : List TypeVarContent) → FitsBuilder vars formats.now builder.now → AreOf vars o.variables) }
        ensures variables { IfOk result (λ o. o.variables ≡ variables_of (outputs_of builder.now) ++ variables_of (inputs_of builder.now)) }
        ensures result_count { IfOk result (λ o. o.result_count ≡ length (variables_of (outputs_of builder.now))) }
        ensures second { IfOk result (λ o. o.second ≡ builder.now.second) }
    {
        let mut variables = Vec::with_capacity(alloc, FEW_OPERANDS)?;
        push_variables(&mut variables, builder.outputs())?;
        let result_count = variables.len();
        push_variables(&mut variables, builder.inputs())?;
        let input_counts = counted_inputs(alloc, variables.split_at(result_count).1)?;
        Ok(Operands {
            variables,
            result_count,
            input_counts,
            designated: formats.get(builder.format()).typevar_operand,
            begins_with_value: begins_with_value(builder.outputs()),
            second: builder.second(),
        })
    }

    /// The type variables of the results and then of the value inputs.
    pub fn variables(&self) -> &[TypeVar]
        ensures { result.now ≡ self.now.variables }
    {
        self.variables.as_slice()
    }

    /// How many results there are.
    pub fn result_count(&self) -> usize
        ensures count { result ≡ self.now.result_count }
        ensures within { self.now.result_count ≤ length self.now.variables }
    {
        self.result_count
    }

    /// The second control, if one is named.
    pub fn second(&self) -> &Option<TypeVar>
        ensures { result.now ≡ self.now.second }
    {
        &self.second
    }

    pub(crate) fn controls(&self, control: Option<TypeVar>) -> Controls
        ensures { result ≡ both control self.now.second }
    {
        Controls::new(control, self.second)
    }

    /// The type variable of the designated value, if the instruction has one.
    pub fn designated(&self) -> Option<TypeVar>
        ensures { result ≡ designated_number self.now }
    {
        let place = self.designated?;
        let values = self.variables.split_at(self.result_count).1;
        values.get(place).copied()
    }

    /// The type variable of the first result, if there is a result.
    pub fn first_result(&self) -> Option<TypeVar>
        ensures { result ≡ slice_get (take self.now.result_count self.now.variables) 0 }
    {
        let results = self.variables.split_at(self.result_count).0;
        results.first().copied()
    }

    /// The type variable of the first output if that is a value.
    fn first(&self) -> Option<TypeVar>
        ensures { result ≡ first_number self.now }
    {
        if self.begins_with_value {
            self.first_result()
        } else {
            None
        }
    }

    /// Whether the variable at this place is that of a value input, and stands at no other one.
    fn is_alone(&self, place: usize) -> bool
        requires { place < length self.now.variables }
        ensures { IsTrue result ↔ IsAlone self.now.variables self.now.result_count place }
    {
        if place < self.result_count {
            return false;
        }
        match &self.input_counts {
            Some(counts) => counts.is_once(self.variables[place]),
            None => stands_alone(&self.variables, self.result_count, place),
        }
    }

    /// This function does nothing. Its contract says what a registry keeps, and that the results are among the variables.
    fn holds_with(&self, vars: &TypeVars)
        ensures registry { IsRegistry vars.now }
        ensures within { self.now.result_count ≤ length self.now.variables }
    {
        let _count = vars.len();
        let _results = self.result_count();
    }

    /// What controls the instruction: the variable of the designated value if it can be the control, and else that of the first output
    /// (`verify_polymorphic` of the crate's `cdsl/instructions.rs`). The variables must be of the registry.
    pub fn control(&self, vars: &TypeVars) -> Controlling
        requires variables { AreOf vars.now self.now.variables }
        requires second { SecondIsOf vars.now self.now.second }
        ensures found { IsFound vars.now (instruction_of_operands vars.now self.now) result }
        ensures of_registry { IsOf vars.now result }
    {
        self.holds_with(vars);
        control_of(vars, self, self.designated(), self.first())
    }

    /// Whether a second control is named, but can't be one.
    pub fn has_bad_second(&self, vars: &TypeVars) -> bool
        requires variables { AreOf vars.now self.now.variables }
        requires second { SecondIsOf vars.now self.now.second }
        ensures { IsTrue result ↔ HasBadSecond (sets_of vars.now) (instruction_of_operands vars.now self.now) }
    {
        self.holds_with(vars);
        match self.second() {
            Some(s) => is_no_second(vars, self.variables(), *s),
            None => false,
        }
    }

    /// The place, among results and then values, of the first operand with a bad derivation: its variable is derived and has no fixed type,
    /// and its parent isn't a control. `None` exactly if there is no such operand. The variables and the controls must be of the registry.
    pub fn bad_derivation(&self, vars: &TypeVars, control: &Controlling) -> Option<usize>
        requires variables { AreOf vars.now self.now.variables }
        requires control { IsOf vars.now control.now }
        requires second { SecondIsOf vars.now self.now.second }
        ensures found { IfSome result (IsFirstBadDerivation (sets_of vars.now)
            (instruction_of_operands vars.now self.now) (control_in vars.now control.now)) }
        ensures none { IfNone result ((k : ℕ) → HasBadDerivation (sets_of vars.now)
            (instruction_of_operands vars.now self.now) (control_in vars.now control.now) k → ⊥) }
    {
        self.holds_with(vars);
        let controls = self.controls(control.variable());
        first_bad(vars, &controls, self.variables())
    }

    fn is_designated(&self, tv: TypeVar) -> bool
        ensures { IsTrue result ↔ (designated_number self.now ≡ Some tv) }
    {
        self.designated() == Some(tv)
    }

    pub(crate) fn polymorphic_info(
        &self,
        vars: &TypeVars,
        control: &Controlling,
    ) -> Option<PolymorphicInfo>
        requires variables { AreOf vars.now self.now.variables }
        requires second { SecondIsOf vars.now self.now.second }
        requires control { IsOf vars.now control.now }
        ensures kept { control_kept vars.now result ≡ control_in vars.now control.now }
        ensures of_registry { IfSome result (λ p. p.ctrl_typevar < length vars.now) }
        ensures second { IfSome result (λ p. p.second_typevar ≡ self.now.second) }
        ensures designated { IfSome result (λ p. IsTrue p.use_typevar_operand
            ↔ IsDesignated (instruction_of_operands vars.now self.now) (variable_at vars.now p.ctrl_typevar)) }
    {
        self.holds_with(vars);
        match control {
            Controlling::By(v) => Some(PolymorphicInfo {
                use_typevar_operand: self.is_designated(*v),
                ctrl_typevar: *v,
                second_typevar: self.second,
            }),
            Controlling::NotPolymorphic | Controlling::Missing => None,
        }
    }
}
