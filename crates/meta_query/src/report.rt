ghost use Rattle.std.specs.Prelude.{◌≡◌, IfOk, length, string_bytes};
ghost use Rattle.meta_typevar.specs.Registry.{HoldTypeSets};
ghost use Rattle.meta_build.specs.AllDeclared.{Declared};
ghost use Rattle.meta_gen.specs.WholeTables.{AreWholeTablesOf};
ghost use Rattle.meta_query.specs.Synth.{IsSynth};
ghost use Rattle.meta_query.specs.Summary.{CountsTo, IsFoundByName, TakesEverywhere, i64_number, IsSummary, IsSummaryOf, lengths_text};
ghost use Rattle.meta_query.specs.Summary.{summary_line};

use super::counting::{found_count, taking_count};
use meta_gen::Tables;
use meta_types::{Int, LaneType};
use std::alloc::{AllocError, Global};

/// What the summary of tables counts.
#[derive(Clone, Copy)]
struct Counts {
    opcodes: u16,
    type_sets: usize,
    constraints: usize,
    slots: usize,
    found: u16,
    accepted: u16,
}

impl Counts {
    fn of(tables: &Tables) -> Counts
        ensures opcodes { result.opcodes ≡ length tables.now.opcodes.entries }
        ensures type_sets { result.type_sets ≡ length tables.now.opcodes.type_sets }
        ensures constraints { result.constraints ≡ length tables.now.opcodes.operand_constraints }
        ensures slots { result.slots ≡ length tables.now.opcodes.opcode_slots }
        ensures found { CountsTo (IsFoundByName tables.now.opcodes) (length tables.now.opcodes.entries) result.found }
        ensures accepted { CountsTo (TakesEverywhere tables.now.opcodes i64_number) (length tables.now.opcodes.entries) result.accepted }
    {
        let number = LaneType::Int(Int::I64).number();
        Counts {
            opcodes: tables.opcode_count(),
            type_sets: tables.type_sets().len(),
            constraints: tables.operand_constraints().len(),
            slots: tables.opcode_slots().len(),
            found: found_count(tables),
            accepted: taking_count(tables, number),
        }
    }

    #[tactic(auto, unfolding(crate::specs::Summary::lengths_text))]
    fn lengths(&self, alloc: Global) -> Result<String, AllocError>
        ensures { IfOk result (λ text. string_bytes text
            ≡ lengths_text self.now.opcodes self.now.type_sets self.now.constraints self.now.slots) }
    {
        let opcodes = self.opcodes;
        let type_sets = self.type_sets;
        let constraints = self.constraints;
        let slots = self.slots;
        format!(in alloc;
            "{opcodes} opcodes, {type_sets} type sets, {constraints} constraints, {slots} slots"
        )
    }
}

/// The summary line, without its end, with these lengths.
#[tactic(auto, unfolding(crate::specs::Summary::summary_line))]
fn line(
    alloc: Global,
    n: u32,
    lengths: &str,
    found: u16,
    accepted: u16,
) -> Result<String, AllocError>
    ensures { IfOk result (λ line. string_bytes line ≡ summary_line n lengths.now found accepted) }
{
    format!(in alloc; "synth {n}: {lengths}, {found} found, {accepted} accepted")
}

/// One line, without its end, on the tables of the declarations of `n`: how many opcodes, type sets, operand constraints and slots there
/// are; how many opcodes are found by their names; and how many accept `i64` as their control, if they have one, and as every result and
/// value. An opcode with a second control isn't counted among the last.
pub fn summary(alloc: Global, n: u32, tables: &Tables) -> Result<String, AllocError>
    ensures line { IfOk result (λ line. IsSummary n tables.now.opcodes (string_bytes line)) }
    ensures of_synth { IfOk result (λ line. (d : Declared) → HoldTypeSets d.set.vars → IsSynth n d
        → AreWholeTablesOf d tables.now → IsSummaryOf n d.set tables.now.opcodes (string_bytes line)) }
{
    let counts = Counts::of(tables);
    let lengths = counts.lengths(alloc)?;
    line(alloc, n, lengths.as_str(), counts.found, counts.accepted)
}
