ghost use Rattle.std.specs.Prelude.{◌≡◌, ◌+◌, ◌<◌, ◌-◌, ◌^◌, ◌++◌, ◌∷◌, [], IfOk, OnOk, None, length};
ghost use Rattle.meta_inst.specs.Marks.{no_marks};
ghost use Rattle.meta_query.specs.Shapes.{AreNumbered, format_of};
ghost use Rattle.meta_query.specs.Seeds.{name_of_number};
ghost use Rattle.meta_query.specs.Synth.{IsInstruction, Extends, variables_of_number};

use super::formats::Formats;
use super::seed::{add_root, seed_of, shape_of};
use super::shape::Shape;
use super::values::values_of;
use meta_inst::InstructionBuilder;
use meta_types::Text;
use meta_typevar::TypeVars;
use std::alloc::{AllocError, Global};

fn name_of(alloc: Global, number: u16) -> Result<Text, AllocError>
    ensures { IfOk result (λ name. name ≡ name_of_number number) }
{
    let name = format!(in alloc; "op_{number}")?;
    Text::new(alloc, name.as_str())
}

fn without_values(
    alloc: Global,
    formats: &Formats,
    shape: Shape,
    number: u16,
) -> Result<InstructionBuilder, AllocError>
    requires { AreNumbered formats.now }
    ensures { IfOk result (λ b. b ≡ record {
      name = name_of_number number;
      doc = [];
      format = format_of shape;
      operands_in = None;
      operands_out = None;
      marks = no_marks;
      second = None;
    }) }
{
    let name = name_of(alloc, number)?;
    let doc = Text::new(alloc, "")?;
    Ok(InstructionBuilder::new(alloc, name, doc, formats.of(shape)))
}

/// The instruction with this number in the declarations of `n`. Its root variable is added, and at most one variable that is derived from
/// it.
pub(crate) fn instruction(
    alloc: Global,
    vars: &mut TypeVars,
    formats: &Formats,
    n: u32,
    number: u16,
) -> Result<InstructionBuilder, AllocError>
    requires formats { AreNumbered formats.now }
    requires room { length vars.old + 1 < 2 ^ 32 - 1 }
    ensures instruction { IfOk result (IsInstruction vars.new n number (length vars.old)) }
    ensures added { OnOk result (vars.new ≡ vars.old ++ variables_of_number n number (length vars.old)) }
    ensures grows { OnOk result (Extends 2 vars.old vars.new) }
{
    let seed = seed_of(n, number);
    let shape = shape_of(seed);
    let x = add_root(alloc, vars, seed)?;
    // The clause of this call says that they are a registry.
    let _count = vars.len();
    let values = values_of(alloc, vars, shape, x)?;
    let builder = without_values(alloc, formats, shape, number)?;
    let builder = builder.operands_in(values.inputs);
    Ok(builder.operands_out(values.outputs))
}
