ghost use Rattle.std.specs.Prelude.{◌≡◌, ◌↔◌, IsTrue, IfSome, IfNone};
ghost use Rattle.meta_inst.specs.Tables.{FreeOf};
ghost use Rattle.meta_gen.specs.Constraint.{number_constraint_of};
ghost use Rattle.meta_inst.specs.Controls.{which_of};
ghost use Rattle.meta_audit.specs.Comparison.{SameMasks, NamesNoSet, AreOneForm, HaveOneForm, reads, ReadsAt};

use meta_gen::{Constraint, Demand, OpcodeTables, Which, equal_constraints};

/// Whether there are type sets at these places, one of each tables, and they have the same masks.
pub(crate) fn same_masks(own: &OpcodeTables, other: &OpcodeTables, set: u16, other_set: u16) -> bool
    ensures { IsTrue result ↔ SameMasks own.now other.now set other_set }
{
    let Some(masks) = own.type_sets().get(set as usize) else {
        return false;
    };
    let Some(other_masks) = other.type_sets().get(other_set as usize) else {
        return false;
    };
    masks == other_masks
}

fn named_set(constraint: Constraint) -> Option<u16>
    ensures some { IfSome result (λ set. number_constraint_of constraint ≡ FreeOf set) }
    ensures none { IfNone result (NamesNoSet (number_constraint_of constraint)) }
{
    match constraint {
        Constraint::Free(set) => Some(set),
        _ => None,
    }
}

/// Whether the constraints are equal, or differ only in the places of type sets with the same masks.
fn are_one_form(
    own: &OpcodeTables,
    other: &OpcodeTables,
    constraint: Constraint,
    other_constraint: Constraint,
) -> bool
    ensures { IsTrue result ↔ AreOneForm own.now other.now (number_constraint_of constraint) (number_constraint_of other_constraint) }
{
    equal_constraints();
    match (named_set(constraint), named_set(other_constraint)) {
        (Some(set), Some(other_set)) => same_masks(own, other, set, other_set),
        (None, None) => constraint == other_constraint,
        _ => false,
    }
}

/// Whether there are such constraints at these places, one of each tables.
pub(crate) fn have_one_form(
    own: &OpcodeTables,
    other: &OpcodeTables,
    at: usize,
    other_at: usize,
) -> bool
    ensures { IsTrue result ↔ HaveOneForm own.now other.now at other_at }
{
    let Some(constraint) = own.operand_constraints().get(at) else {
        return false;
    };
    let Some(other_constraint) = other.operand_constraints().get(other_at) else {
        return false;
    };
    are_one_form(own, other, *constraint, *other_constraint)
}

/// Whether what passes the constraint depends on the number of this control.
fn reads(which: Which, constraint: Constraint) -> bool
    ensures { result ≡ reads (which_of which) (number_constraint_of constraint) }
{
    match (constraint.demanded(), which) {
        (Demand::Controlling(Which::First), Which::First) => true,
        (Demand::Controlling(Which::Second), Which::Second) => true,
        (Demand::By(Which::First, _), Which::First) => true,
        (Demand::By(Which::Second, _), Which::Second) => true,
        _ => false,
    }
}

/// Whether there is a constraint at this place, and what passes it depends on the number of this control.
pub(crate) fn reads_at(tables: &OpcodeTables, which: Which, at: usize) -> bool
    ensures { IsTrue result ↔ ReadsAt (which_of which) tables.now at }
{
    match tables.operand_constraints().get(at) {
        Some(constraint) => reads(which, *constraint),
        None => false,
    }
}
