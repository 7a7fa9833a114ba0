ghost use Rattle.std.specs.Prelude.{◌≡◌, ◌<◌, ◌≤◌, IfOk, IfSome, length, slice_get, Some};
ghost use Rattle.meta_typevar.specs.Registry.{sets_of, variable_at};
ghost use Rattle.meta_inst.specs.Controls.{AreControlsOf};
ghost use Rattle.meta_inst.specs.Operands.{AreOf};
ghost use Rattle.meta_gen.specs.Entries.{IsHeld, IsFreeNumber, HoldFree, HasConstraint, AreConstrained, Describes, AreDescribed};

use super::constraint::{Constraint, Demand};
use meta_inst::Controls;
use meta_typevar::{TypeSet, TypeVar, TypeVars};
use meta_unique::UniqueTable;
use std::alloc::{AllocError, Global};

pub(crate) fn set_place(vars: &TypeVars, tv: TypeVar, type_sets: &UniqueTable<'_, TypeSet>) -> u16
    requires of_registry { tv < length vars.now }
    requires few { length type_sets.now ≤ 4095 }
    requires held { IsHeld type_sets.now (sets_of vars.now (variable_at vars.now tv).root) }
    ensures below { result < 65535 }
    ensures set { slice_get type_sets.now result ≡ Some (sets_of vars.now (variable_at vars.now tv).root) }
{
    let root = tv.root(vars);
    type_sets.index_of(root.get_raw_typeset(vars)) as u16
}

/// The constraint of an operand with this variable, under these controls: its fixed type if it has one; else the control that it is; else
/// the function that leads to it from a control; else its type set.
fn constraint_of(
    vars: &TypeVars,
    controls: &Controls,
    tv: TypeVar,
    type_sets: &UniqueTable<'_, TypeSet>,
) -> Constraint
    requires of_registry { tv < length vars.now }
    requires controls { AreControlsOf vars.now controls.now }
    requires few { length type_sets.now ≤ 4095 }
    requires constrained { HasConstraint vars.now controls.now tv }
    requires held { IsFreeNumber vars.now controls.now tv → IsHeld type_sets.now (sets_of vars.now (variable_at vars.now tv).root) }
    ensures { Describes vars.now controls.now type_sets.now tv result }
{
    if let Some(fixed) = tv.fixed_type(vars) {
        return Constraint::Concrete(fixed.number());
    }
    if let Some(which) = controls.find(tv) {
        return Constraint::from(Demand::Controlling(which));
    }
    match vars.content(tv).base {
        Some(parent) => {
            let which = controls.which(parent.type_var);
            Constraint::from(Demand::By(which, parent.derived_func))
        }
        None => Constraint::Free(set_place(vars, tv, type_sets)),
    }
}

/// The constraint of the next operand. If it has the variable of the operand before, it has that one's constraint.
fn next_constraint(
    vars: &TypeVars,
    controls: &Controls,
    before: &Option<(TypeVar, Constraint)>,
    tv: TypeVar,
    type_sets: &UniqueTable<'_, TypeSet>,
) -> Constraint
    requires of_registry { tv < length vars.now }
    requires controls { AreControlsOf vars.now controls.now }
    requires few { length type_sets.now ≤ 4095 }
    requires constrained { HasConstraint vars.now controls.now tv }
    requires held { IsFreeNumber vars.now controls.now tv → IsHeld type_sets.now (sets_of vars.now (variable_at vars.now tv).root) }
    requires before { IfSome before.now (λ p. Describes vars.now controls.now type_sets.now p.0 p.1) }
    ensures { Describes vars.now controls.now type_sets.now tv result }
{
    match before {
        Some((other, constraint)) if *other == tv => *constraint,
        _ => constraint_of(vars, controls, tv, type_sets),
    }
}

pub(crate) fn constraints_of(
    alloc: Global,
    vars: &TypeVars,
    controls: &Controls,
    variables: &[TypeVar],
    type_sets: &UniqueTable<'_, TypeSet>,
) -> Result<Vec<Constraint>, AllocError>
    requires variables { AreOf vars.now variables.now }
    requires controls { AreControlsOf vars.now controls.now }
    requires few { length type_sets.now ≤ 4095 }
    requires constrained { AreConstrained vars.now controls.now variables.now }
    requires held { HoldFree vars.now controls.now type_sets.now variables.now }
    ensures { IfOk result (λ v. AreDescribed vars.now controls.now type_sets.now v.items variables.now) }
{
    let mut constraints = Vec::with_capacity(alloc, variables.len())?;
    let mut before = None;
    for place in 0..variables.len() {
        let tv = variables[place];
        let constraint = next_constraint(vars, controls, &before, tv, type_sets);
        constraints.push(constraint)?;
        before = Some((tv, constraint));
    }
    Ok(constraints)
}
