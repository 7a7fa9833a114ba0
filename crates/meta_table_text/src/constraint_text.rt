ghost use Rattle.std.specs.Prelude.{◌≡◌, ◌++◌, ◌∷◌, List, IfOk, OnOk, map, string_bytes};
ghost use Rattle.meta_gen.specs.declared.constraint.Constraint.{Constraint};
ghost use Rattle.meta_inst.specs.Controls.{which_of};
ghost use Rattle.meta_gen.specs.Constraint.{number_constraint_of};
ghost use Rattle.meta_table_text.specs.TypeSetText.{parted_after};
ghost use Rattle.meta_table_text.specs.ConstraintText.{type_text, control_mark, constraint_text, constraint_line, quoted};
ghost use Rattle.meta_table_text.specs.ConstraintText.{constraints_comment};

use meta_gen::{Constraint, Demand, Which};
use meta_types::{Text, ValueType, there_are_153_types};
use std::alloc::{AllocError, Global};

/// The name in Rust source of the type with this number. It is empty if no type has it.
#[tactic(auto, unfolding(crate::specs::ConstraintText::type_text))]
fn type_name(alloc: Global, number: u16) -> Result<Text, AllocError>
    ensures { IfOk result (λ t. t ≡ type_text number) }
{
    there_are_153_types();
    match ValueType::from_number(number) {
        Some(found) => found.rust_name(alloc),
        None => Text::new(alloc, ""),
    }
}

fn control_mark(which: Which) -> &'static str
    ensures { result.now ≡ control_mark (which_of which) }
{
    match which {
        Which::First => "",
        Which::Second => "2",
    }
}

fn push_constraint_text(
    alloc: Global,
    out: &mut String,
    constraint: Constraint,
) -> Result<(), AllocError>
    ensures { OnOk result (string_bytes out.new ≡ string_bytes out.old ++ constraint_text (number_constraint_of constraint)) }
{
    match constraint.demanded() {
        Demand::Number(number) => {
            let text = type_name(alloc, number)?;
            let name = text.as_str();
            write!(out, "Concrete({name})")
        }
        Demand::OfSet(set) => write!(out, "Free({set})"),
        Demand::Controlling(which) => {
            let mark = control_mark(which);
            write!(out, "Same{mark}")
        }
        Demand::By(which, function) => {
            let (function, mark) = (function.camel_name(), control_mark(which));
            write!(out, "{function}{mark}")
        }
    }
}

#[tactic(auto, unfolding(crate::specs::ConstraintText::constraint_line))]
pub(crate) fn push_constraint(
    alloc: Global,
    out: &mut String,
    constraint: Constraint,
) -> Result<(), AllocError>
    ensures { OnOk result (string_bytes out.new ≡ string_bytes out.old ++ constraint_line (number_constraint_of constraint)) }
{
    out.push_str("    OperandConstraint::")?;
    push_constraint_text(alloc, out, constraint)?;
    out.push_str(",\n")
}

/// Adds `before` and a constraint between single quotes, and answers what stands before the next constraint.
#[tactic(auto, unfolding(crate::specs::ConstraintText::quoted))]
fn push_next<'a>(
    alloc: Global,
    out: &mut String,
    constraint: Constraint,
    before: &'a str,
) -> Result<&'a str, AllocError>
    ensures { IfOk result (λ next. (rest : List Constraint)
        → string_bytes out.new ++ parted_after next.now (map quoted (map number_constraint_of rest))
        ≡ string_bytes out.old ++ parted_after before.now (map quoted (map number_constraint_of (constraint ∷ rest)))) }
{
    out.push_str(before)?;
    out.push_str("'")?;
    push_constraint_text(alloc, out, constraint)?;
    out.push_str("'")?;
    Ok(", ")
}

#[tactic(auto, unfolding(crate::specs::ConstraintText::constraints_comment))]
pub(crate) fn push_constraints_comment(
    alloc: Global,
    out: &mut String,
    constraints: &[Constraint],
) -> Result<(), AllocError>
    ensures { OnOk result (string_bytes out.new ≡ string_bytes out.old ++ constraints_comment (map number_constraint_of constraints.now)) }
{
    out.push_str("        // Constraints=[")?;
    let mut before = "";
    for constraint in constraints {
        before = push_next(alloc, out, *constraint, before)?;
    }
    out.push_str("]\n")
}
