ghost use Rattle.std.specs.Prelude.{◌≡◌, ◌+◌, ◌<◌, ◌-◌, ◌^◌, ◌++◌, ◌∷◌, [], IfOk, OnOk, length, true};
ghost use Rattle.std.specs.List.{list_all};
ghost use Rattle.meta_shared.specs.Words.{AreMeant, Grows, is_derivable, derived_count};
ghost use Rattle.meta_shared.specs.Rows.{IsOperandOf, AreOperandsOfRows, IsBuilderOf, AddsRows, with_mark, marks_added, derived_among};
ghost use Rattle.meta_shared.specs.Rows.{derived_in_row, derived_in, rows_in, are_derivable, is_derivable_row};

use super::names::Names;
use super::row::{Mark, OperandRow, Row};
use meta_inst::{AllInstructions, InstructionBuilder, InstructionGroupBuilder};
use meta_operands::Operand;
use meta_types::Text;
use meta_typevar::TypeVars;
use std::alloc::{AllocError, Global};

fn operand(
    alloc: Global,
    names: &Names<'_>,
    vars: &mut TypeVars,
    row: &OperandRow,
) -> Result<Operand, AllocError>
    requires meant { AreMeant vars.old names.now }
    requires room { length vars.old < 2 ^ 32 - 1 }
    requires derivable { is_derivable row.now.word ≡ true }
    ensures operand { IfOk result (IsOperandOf vars.new names.now row.now) }
    ensures grows { OnOk result (Grows (derived_count row.now.word) vars.old vars.new) }
{
    let name = Text::new(alloc, row.name)?;
    let kind = names.kind(alloc, vars, row.word)?;
    let operand = Operand::new(name, kind);
    let Some(doc) = row.doc else {
        return Ok(operand);
    };
    let doc = Text::new(alloc, doc)?;
    Ok(operand.with_doc(doc))
}

fn operands(
    alloc: Global,
    names: &Names<'_>,
    vars: &mut TypeVars,
    rows: &[OperandRow],
) -> Result<Vec<Operand>, AllocError>
    requires meant { AreMeant vars.old names.now }
    requires room { length vars.old + derived_among rows.now < 2 ^ 32 - 1 }
    requires derivable { are_derivable rows.now ≡ true }
    ensures operands { IfOk result (λ v. AreOperandsOfRows vars.new names.now rows.now v.items) }
    ensures grows { OnOk result (Grows (derived_among rows.now) vars.old vars.new) }
{
    let mut operands = Vec::new(alloc);
    for row in rows {
        operands.push(operand(alloc, names, vars, row)?)?;
    }
    Ok(operands)
}

fn with_mark(builder: InstructionBuilder, mark: Mark) -> InstructionBuilder
    ensures { result ≡ record builder { marks = with_mark builder.marks mark } }
{
    match mark {
        Mark::Branch => builder.branches(),
        Mark::Terminator => builder.terminates_block(),
        Mark::Call => builder.call(),
        Mark::Return => builder.returns(),
        Mark::Load => builder.can_load(),
        Mark::Store => builder.can_store(),
        Mark::Trap => builder.can_trap(),
        Mark::OtherEffect => builder.other_side_effects(),
        Mark::Idempotent => builder.side_effects_idempotent(),
        Mark::ImmMethod => builder.inst_builder_imm_method(true),
    }
}

fn with_marks(mut builder: InstructionBuilder, marks: &[Mark]) -> InstructionBuilder
    ensures { result ≡ record builder { marks = marks_added builder.marks marks.now } }
{
    for mark in marks {
        builder = with_mark(builder, *mark);
    }
    builder
}

fn instruction(
    alloc: Global,
    names: &Names<'_>,
    vars: &mut TypeVars,
    row: &Row,
) -> Result<InstructionBuilder, AllocError>
    requires meant { AreMeant vars.old names.now }
    requires room { length vars.old + derived_in_row row.now < 2 ^ 32 - 1 }
    requires derivable { is_derivable_row row.now ≡ true }
    ensures builder { IfOk result (IsBuilderOf vars.new names.now row.now) }
    ensures grows { OnOk result (Grows (derived_in_row row.now) vars.old vars.new) }
{
    let inputs = operands(alloc, names, vars, row.inputs)?;
    let outputs = operands(alloc, names, vars, row.outputs)?;
    let name = Text::new(alloc, row.name)?;
    let doc = Text::new(alloc, row.doc)?;
    let builder = InstructionBuilder::new(alloc, name, doc, names.formats.id(row.format));
    let builder = builder.operands_in(inputs).operands_out(outputs);
    Ok(with_marks(builder, row.marks))
}

fn push(all: &mut AllInstructions, builder: InstructionBuilder) -> Result<(), AllocError>
    ensures { OnOk result (all.new ≡ all.old ++ builder ∷ []) }
{
    let mut group = InstructionGroupBuilder::new(all);
    group.push(builder)
}

/// Adds the instructions of the rows, in order. The variables that they derive from the roots are added too.
fn push_rows(
    alloc: Global,
    names: &Names<'_>,
    vars: &mut TypeVars,
    all: &mut AllInstructions,
    rows: &[Row],
) -> Result<(), AllocError>
    requires meant { AreMeant vars.old names.now }
    requires room { length vars.old + derived_in rows.now < 2 ^ 32 - 1 }
    requires derivable { list_all is_derivable_row rows.now ≡ true }
    ensures rows { OnOk result (AddsRows vars.new names.now rows.now all.old all.new) }
    ensures grows { OnOk result (Grows (derived_in rows.now) vars.old vars.new) }
{
    for row in rows {
        push(all, instruction(alloc, names, vars, row)?)?;
    }
    Ok(())
}

/// Adds the instructions of the tables, in order. The type variables that they derive from the roots are added too. After an error a part
/// of both may have been added.
pub fn push_tables(
    alloc: Global,
    names: &Names<'_>,
    vars: &mut TypeVars,
    all: &mut AllInstructions,
    tables: &[&'static [Row]],
) -> Result<(), AllocError>
    requires meant { AreMeant vars.old names.now }
    requires room { length vars.old + derived_in (rows_in tables.now) < 2 ^ 32 - 1 }
    requires derivable { list_all is_derivable_row (rows_in tables.now) ≡ true }
    ensures rows { OnOk result (AddsRows vars.new names.now (rows_in tables.now) all.old all.new) }
    ensures grows { OnOk result (Grows (derived_in (rows_in tables.now)) vars.old vars.new) }
{
    for rows in tables {
        push_rows(alloc, names, vars, all, rows)?;
    }
    Ok(())
}
