ghost use Rattle.std.specs.Prelude.{◌≡◌, ◌≢◌, ◌<◌, ◌-◌, ◌^◌, ◌∷◌, ◌++◌, [], ℕ, List, IfOk, OnOk, IsTrue, length, codes};
ghost use Rattle.std.specs.List.{AllZip};
ghost use Rattle.meta_types.specs.Function.{Narrower};
ghost use Rattle.meta_types.specs.DerivedFunc.{function_of};
ghost use Rattle.meta_types.specs.declared.derived_func.DerivedFunc.{DerivedFunc};
ghost use Rattle.meta_typevar.specs.Image.{can_derive};
ghost use Rattle.meta_typevar.specs.Registry.{variable_at, coded_at, IsKept};
ghost use Rattle.meta_typevar.specs.TypeSetParts.{TypeSetParts};
ghost use Rattle.meta_typevar.specs.Variable.{underived, longer};
ghost use Rattle.meta_typevar.specs.declared.content.TypeVarContent.{TypeVarContent};
ghost use Rattle.meta_query.specs.Shapes.{inputs_for, outputs_for};
ghost use Rattle.meta_query.specs.Synth.{IsValueOf, Extends, root_with, derived_for};

use super::shape::Shape;
use meta_operands::{Operand, OperandKind};
use meta_types::Text;
use meta_typevar::{TypeVar, TypeVars};
use std::alloc::{AllocError, Global};

#[derive(Drop)]
pub(crate) struct Values {
    pub(crate) inputs: Vec<Operand>,
    pub(crate) outputs: Vec<Operand>,
}

fn value(alloc: Global, name: &str, tv: TypeVar) -> Result<Operand, AllocError>
    ensures { IfOk result (λ o. (vars : List TypeVarContent) → tv < length vars → IsValueOf vars (name.now, variable_at vars tv) o) }
{
    let kind = OperandKind::of(alloc, tv)?;
    Ok(Operand::new(Text::new(alloc, name)?, kind))
}

fn one_value(alloc: Global, name: &str, tv: TypeVar) -> Result<Vec<Operand>, AllocError>
    ensures { IfOk result (λ v. (vars : List TypeVarContent) → tv < length vars
        → AllZip (IsValueOf vars) ((name.now, variable_at vars tv) ∷ []) v.items) }
{
    let mut values = Vec::new(alloc);
    values.push(value(alloc, name, tv)?)?;
    Ok(values)
}

fn two_values(alloc: Global, tv: TypeVar) -> Result<Vec<Operand>, AllocError>
    ensures { IfOk result (λ v. (vars : List TypeVarContent) → tv < length vars
        → AllZip (IsValueOf vars) ((codes "x", variable_at vars tv) ∷ (codes "y", variable_at vars tv) ∷ []) v.items) }
{
    let mut values = one_value(alloc, "x", tv)?;
    values.push(value(alloc, "y", tv)?)?;
    Ok(values)
}

/// The values of an instruction that compares two values of `x`.
fn comparing(alloc: Global, vars: &mut TypeVars, x: TypeVar) -> Result<Values, AllocError>
    requires room { length vars.old < 2 ^ 32 - 1 }
    requires of { x < length vars.old }
    requires root { variable_at vars.old x ≡ underived x }
    requires fresh { (f : DerivedFunc) (m : ℕ) → m < length vars.old
        → variable_at vars.old m ≢ longer (variable_at vars.old x) (function_of f) }
    ensures inputs { IfOk result (λ v. AllZip (IsValueOf vars.new) (inputs_for Shape.Comparing x) v.inputs.items) }
    ensures outputs { IfOk result (λ v. AllZip (IsValueOf vars.new) (outputs_for Shape.Comparing x) v.outputs.items) }
    ensures added { (s : TypeSetParts) → IsKept vars.old x (root_with s x)
        → OnOk result (vars.new ≡ vars.old ++ derived_for Shape.Comparing s x) }
    ensures grows { OnOk result (Extends 1 vars.old vars.new) }
{
    let truthy = x.as_truthy(vars)?;
    let inputs = two_values(alloc, x)?;
    let outputs = one_value(alloc, "a", truthy)?;
    Ok(Values { inputs, outputs })
}

/// The values of an instruction that takes a value with fewer bits than `x`.
fn widening(alloc: Global, vars: &mut TypeVars, x: TypeVar) -> Result<Values, AllocError>
    requires room { length vars.old < 2 ^ 32 - 1 }
    requires of { x < length vars.old }
    requires root { variable_at vars.old x ≡ underived x }
    requires derivable { IsTrue (can_derive Narrower (coded_at vars.old x)) }
    requires fresh { (f : DerivedFunc) (m : ℕ) → m < length vars.old
        → variable_at vars.old m ≢ longer (variable_at vars.old x) (function_of f) }
    ensures inputs { IfOk result (λ v. AllZip (IsValueOf vars.new) (inputs_for Shape.Widening x) v.inputs.items) }
    ensures outputs { IfOk result (λ v. AllZip (IsValueOf vars.new) (outputs_for Shape.Widening x) v.outputs.items) }
    ensures added { (s : TypeSetParts) → IsKept vars.old x (root_with s x)
        → OnOk result (vars.new ≡ vars.old ++ derived_for Shape.Widening s x) }
    ensures grows { OnOk result (Extends 1 vars.old vars.new) }
{
    let narrower = x.narrower(vars)?;
    let inputs = one_value(alloc, "x", narrower)?;
    let outputs = one_value(alloc, "a", x)?;
    Ok(Values { inputs, outputs })
}

/// The values of an instruction that takes a value of `x` and gives one.
fn copying(alloc: Global, x: TypeVar) -> Result<Values, AllocError>
    ensures inputs { IfOk result (λ v. (vars : List TypeVarContent) → x < length vars
        → variable_at vars x ≡ underived x → AllZip (IsValueOf vars) (inputs_for Shape.Copying x) v.inputs.items) }
    ensures outputs { IfOk result (λ v. (vars : List TypeVarContent) → x < length vars
        → variable_at vars x ≡ underived x → AllZip (IsValueOf vars) (outputs_for Shape.Copying x) v.outputs.items) }
{
    let inputs = one_value(alloc, "x", x)?;
    let outputs = one_value(alloc, "a", x)?;
    Ok(Values { inputs, outputs })
}

/// The values of an instruction with this shape and the root variable `x`. At most one variable is added.
pub(crate) fn values_of(
    alloc: Global,
    vars: &mut TypeVars,
    shape: Shape,
    x: TypeVar,
) -> Result<Values, AllocError>
    requires room { length vars.old < 2 ^ 32 - 1 }
    requires of { x < length vars.old }
    requires root { variable_at vars.old x ≡ underived x }
    requires derivable { shape ≡ Shape.Widening → IsTrue (can_derive Narrower (coded_at vars.old x)) }
    requires fresh { (f : DerivedFunc) (m : ℕ) → m < length vars.old
        → variable_at vars.old m ≢ longer (variable_at vars.old x) (function_of f) }
    ensures inputs { IfOk result (λ v. AllZip (IsValueOf vars.new) (inputs_for shape x) v.inputs.items) }
    ensures outputs { IfOk result (λ v. AllZip (IsValueOf vars.new) (outputs_for shape x) v.outputs.items) }
    ensures added { (s : TypeSetParts) → IsKept vars.old x (root_with s x) → OnOk result (vars.new ≡ vars.old ++ derived_for shape s x) }
    ensures grows { OnOk result (Extends 1 vars.old vars.new) }
{
    match shape {
        Shape::Bare => Ok(Values {
            inputs: Vec::new(alloc),
            outputs: Vec::new(alloc),
        }),
        Shape::Copying => copying(alloc, x),
        Shape::Comparing => comparing(alloc, vars, x),
        Shape::Widening => widening(alloc, vars, x),
    }
}
