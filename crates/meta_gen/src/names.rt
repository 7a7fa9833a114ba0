ghost use Rattle.std.specs.Prelude.{◌≡◌, ◌<◌, ℕ, IfOk, length, map, slice_get, Some};
ghost use Rattle.meta_inst.specs.Builder.{Builder};
ghost use Rattle.meta_gen.specs.TablesOf.{AreFormatNames};

use meta_inst::AllInstructions;
use meta_operands::FormatTable;
use meta_types::Text;
use std::alloc::{AllocError, Global};

pub(crate) fn copied_names(
    alloc: Global,
    instructions: &AllInstructions,
) -> Result<Vec<Text>, AllocError>
    ensures { IfOk result (λ v. v.items ≡ map (λ (b : Builder). b.name) instructions.now) }
{
    let mut names = Vec::new(alloc);
    for k in 0..instructions.len() {
        names.push(instructions.get(k).name().copy(alloc)?)?;
    }
    Ok(names)
}

pub(crate) fn copied_formats(
    alloc: Global,
    formats: &FormatTable,
    instructions: &AllInstructions,
) -> Result<Vec<Text>, AllocError>
    requires { (k : ℕ) (b : Builder) → slice_get instructions.now k ≡ Some b → b.format < length formats.now }
    ensures { IfOk result (λ v. AreFormatNames formats.now instructions.now v.items) }
{
    let mut names = Vec::new(alloc);
    for k in 0..instructions.len() {
        let format = formats.get(instructions.get(k).format());
        names.push(format.name.copy(alloc)?)?;
    }
    Ok(names)
}
