ghost use Rattle.std.specs.Prelude.{◌≡◌, ◌≢◌, ◌↔◌, ◌+◌, ℕ, map, get_or, false, IsSome, IfSome, IfNone, None, Some};
ghost use Rattle.std.specs.List.{list_any};
ghost use Rattle.meta_inst.specs.Tables.{OpcodeNumbers, at_opcode};
ghost use Rattle.meta_gen.specs.Constraint.{number_constraint_of, entry_of};
ghost use Rattle.meta_gen.specs.Contents.{IsOpcode};
ghost use Rattle.meta_gen.specs.declared.constraint.Constraint.{Constraint as ConstraintForm};
ghost use Rattle.meta_asm.specs.Manners.{is_open, is_control, manner_of, value_constraints, result_constraints};
ghost use Rattle.meta_asm.specs.ShortWritten.{manner_in};

use meta_gen::{Constraint, Demand, NO_TYPE_SET, OpcodeConstraints, Tables, constraints_from};
use meta_types::Text;

/// Whether a result under this constraint is written with its type, since the constraint allows several.
fn is_open(constraint: Constraint) -> bool
    ensures { result ≡ is_open (number_constraint_of constraint) }
{
    match constraint.demanded() {
        Demand::Number(_) => false,
        Demand::OfSet(_) => true,
        Demand::Controlling(_) => false,
        Demand::By(_, derived_func) => derived_func.is_relation(),
    }
}

/// Whether a value under this constraint always has the controlling type.
pub(crate) fn is_control(constraint: Constraint) -> bool
    ensures { result ≡ is_control (number_constraint_of constraint) }
{
    matches!(constraint, Constraint::Same)
}

fn result_constraints(tables: &Tables, entry: OpcodeConstraints) -> &[Constraint]
    ensures { map number_constraint_of result.now ≡ result_constraints tables.now.opcodes (entry_of entry) }
{
    let place = entry.constraint_offset as usize;
    constraints_from(tables.operand_constraints(), place, entry.result_count())
}

pub(crate) fn value_constraints(tables: &Tables, entry: OpcodeConstraints) -> &[Constraint]
    ensures { map number_constraint_of result.now ≡ value_constraints tables.now.opcodes (entry_of entry) }
{
    let place = entry.constraint_offset as usize + entry.result_count();
    constraints_from(tables.operand_constraints(), place, entry.value_count())
}

/// Whether some value has the controlling type.
fn has_control(constraints: &[Constraint]) -> bool
    ensures { result ≡ list_any (λ (c : ConstraintForm). is_control (number_constraint_of c)) constraints.now }
{
    constraints.iter().any(|c| is_control(*c))
}

/// Whether the control of an opcode with this entry is left out, if there is no second control.
fn leaves_out(tables: &Tables, entry: OpcodeConstraints) -> bool
    ensures { result ≡ (manner_of tables.now.opcodes (entry_of entry)).leaves_out }
{
    if !entry.designated_controls() {
        return false;
    }
    if entry.second_offset != NO_TYPE_SET {
        return false;
    }
    has_control(value_constraints(tables, entry))
}

/// How the lines of an opcode are written: its name, and which types are left out.
#[derive(Clone, Copy)]
pub struct Manner<'t> {
    /// The name of the opcode.
    pub name: &'t Text,
    /// Whether the controlling type is left out if there is no second one. It is if some value has that type.
    pub leaves_out: bool,
    /// The constraints of the results. They say whether a result is written with its type.
    pub results: &'t [Constraint],
}

impl<'t> Manner<'t> {
    /// How the lines of an opcode are written. `None` exactly if `opcode` isn't 1 to `opcode_count`.
    pub fn of(tables: &'t Tables, opcode: u16) -> Option<Manner<'t>>
        ensures opcode { IsSome result ↔ IsOpcode tables.now.opcodes opcode }
        ensures name { IfSome result (λ m. at_opcode tables.now.opcodes.names opcode ≡ Some m.name.now) }
        ensures manner { IfSome result (λ m. (entry : OpcodeNumbers) × (at_opcode tables.now.opcodes.entries opcode ≡ Some entry)
            × (manner_in m ≡ manner_of tables.now.opcodes entry)) }
        ensures results { IfSome result (λ m. (entry : OpcodeNumbers) × (at_opcode tables.now.opcodes.entries opcode ≡ Some entry)
            × (map number_constraint_of m.results.now ≡ result_constraints tables.now.opcodes entry)) }
        ensures none { IfNone result (at_opcode tables.now.opcodes.names opcode ≡ None) }
    {
        let name = tables.opcode_name(opcode)?;
        let entry = tables.constraints(opcode)?;
        Some(Manner {
            name,
            leaves_out: leaves_out(tables, entry),
            results: result_constraints(tables, entry),
        })
    }

    /// Whether the result at this place, from 0, is written with its type.
    pub fn is_opened(&self, place: usize) -> bool
        ensures { result ≡ get_or (manner_in self.now).opened place false }
    {
        match self.results.get(place) {
            Some(constraint) => is_open(*constraint),
            None => false,
        }
    }
}
