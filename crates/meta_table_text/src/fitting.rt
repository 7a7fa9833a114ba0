ghost use Rattle.std.specs.Prelude.{◌≡◌, ◌↔◌, IsTrue, map};
ghost use Rattle.std.specs.List.{list_all};
ghost use Rattle.meta_inst.specs.Controls.{which_of};
ghost use Rattle.meta_gen.specs.Constraint.{number_constraint_of};
ghost use Rattle.meta_table_text.specs.Fits.{IsSmall, LacksSecondSet, HasNoSecondSet, is_first, asks_of_no_second, Fits};

use super::version::Version;
use meta_gen::{Constraint, Demand, NO_TYPE_SET, Tables, Which};

fn is_small(tables: &Tables) -> bool
    ensures { IsTrue result ↔ IsSmall tables.now.opcodes }
{
    tables.opcode_count() <= 255 && tables.type_sets().len() <= 255
}

fn lacks_second_set(tables: &Tables, opcode: u16) -> bool
    ensures { IsTrue result ↔ LacksSecondSet tables.now.opcodes opcode }
{
    match tables.constraints(opcode) {
        Some(entry) => entry.second_offset == NO_TYPE_SET,
        None => true,
    }
}

fn has_no_second_set(tables: &Tables) -> bool
    ensures { IsTrue result ↔ HasNoSecondSet tables.now.opcodes }
{
    for before in 0..tables.opcode_count() {
        if !lacks_second_set(tables, before + 1) {
            return false;
        }
    }
    true
}

fn is_first(which: Which) -> bool
    ensures { result ≡ is_first (which_of which) }
{
    match which {
        Which::First => true,
        Which::Second => false,
    }
}

fn asks_of_no_second(constraint: Constraint) -> bool
    ensures { result ≡ asks_of_no_second (number_constraint_of constraint) }
{
    match constraint.demanded() {
        Demand::Number(_) => true,
        Demand::OfSet(_) => true,
        Demand::Controlling(which) => is_first(which),
        Demand::By(which, _) => is_first(which),
    }
}

fn all_ask_of_no_second(constraints: &[Constraint]) -> bool
    ensures { result ≡ list_all asks_of_no_second (map number_constraint_of constraints.now) }
{
    for constraint in constraints {
        if !asks_of_no_second(*constraint) {
            return false;
        }
    }
    true
}

/// Whether tables fit the version: its text then has all that they hold. All tables fit version 3. Version 2 takes at most 255 opcodes and
/// 255 type sets. Version 1 takes these without second controls, in opcodes and in constraints.
pub fn fits(version: Version, tables: &Tables) -> bool
    ensures { IsTrue result ↔ Fits version tables.now }
{
    match version {
        Version::One => {
            is_small(tables)
                && has_no_second_set(tables)
                && all_ask_of_no_second(tables.operand_constraints())
        }
        Version::Two => is_small(tables),
        Version::Three => true,
    }
}
