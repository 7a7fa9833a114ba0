ghost use Rattle.std.specs.Prelude.{◌≡◌, ◌↔◌, IsTrue, map};
ghost use Rattle.meta_gen.specs.Constraint.{number_constraint_of, entry_of};

use super::constraint::{Constraint, OpcodeConstraints};
use meta_typevar::Masks;

pub(crate) fn same_masks(one: &[Masks], other: &[Masks]) -> bool
    ensures { IsTrue result ↔ (one.now ≡ other.now) }
{
    one == other
}

pub(crate) fn same_constraints(one: &[Constraint], other: &[Constraint]) -> bool
    ensures { IsTrue result ↔ (map number_constraint_of one.now ≡ map number_constraint_of other.now) }
{
    one == other
}

pub(crate) fn same_entries(one: &[OpcodeConstraints], other: &[OpcodeConstraints]) -> bool
    ensures { IsTrue result ↔ (map entry_of one.now ≡ map entry_of other.now) }
{
    one == other
}
