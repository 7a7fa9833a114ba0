ghost use Rattle.std.specs.Prelude.{◌≡◌, ◌++◌, IfOk, OnOk, map, string_bytes};
ghost use Rattle.std.specs.List.{flat_map};
ghost use Rattle.meta_rust_insts.specs.FormatsText.{entry_text, told_arm, formats_text};
ghost use Rattle.meta_rust_insts.specs.InUse.{formats_in};

use meta_build::Built;
use meta_operands::InstructionFormat;
use meta_text::fill;
use std::alloc::{AllocError, Global};

/// The enum of the formats, and how the data of an instruction gives its format (`gen_formats`).
const FORMATS: &str = "/// An instruction format
#[derive(Copy, Clone, PartialEq, Eq, Debug)]
pub enum InstructionFormat {
$entries$}

impl<'a> From<&'a InstructionData> for InstructionFormat {
    fn from(inst: &'a InstructionData) -> Self {
        match *inst {
$arms$        }
    }
}

";

const FORMATS_HOLES: [&str; 2] = ["entries", "arms"];

const ENTRY: &str = "    /// $format$\n    $name$,\n";

const ENTRY_HOLES: [&str; 2] = ["format", "name"];

const ARM: &str = "            InstructionData::$name$ { .. } => Self::$name$,\n";

const ARM_HOLES: [&str; 1] = ["name"];

/// The formats that the declared instructions use, sorted by their names.
pub fn formats_in_use<'d>(
    alloc: Global,
    built: &Built<'d>,
) -> Result<Vec<&'d InstructionFormat>, AllocError>
    ensures { IfOk result (λ v. map (λ f. f.now) v.items ≡ formats_in built.now) }
{
    let declarations = built.declarations();
    // by the contract of `instructions`, their formats are of the table
    let _instructions = declarations.instructions();
    let table = declarations.formats();
    let mut formats = Vec::with_capacity(alloc, built.formats().len())?;
    for id in built.formats() {
        formats.push(table.get(*id))?;
    }
    Ok(formats)
}

#[tactic(auto, using(crate::proofs::EnumTemplates::entry_steps))]
fn entries(alloc: Global, formats: &[&InstructionFormat]) -> Result<String, AllocError>
    ensures { IfOk result (λ text. string_bytes text ≡ flat_map entry_text (map (λ f. f.now) formats.now)) }
{
    let mut text = String::new(alloc);
    for format in formats {
        let shown = format.to_string(alloc)?;
        fill(
            &mut text,
            ENTRY,
            &ENTRY_HOLES,
            &[shown.as_str(), format.name.as_str()],
        )?;
    }
    Ok(text)
}

#[tactic(auto, using(crate::proofs::EnumTemplates::told_steps))]
fn told_arms(alloc: Global, formats: &[&InstructionFormat]) -> Result<String, AllocError>
    ensures { IfOk result (λ text. string_bytes text ≡ flat_map told_arm (map (λ f. f.now) formats.now)) }
{
    let mut text = String::new(alloc);
    for format in formats {
        fill(&mut text, ARM, &ARM_HOLES, &[format.name.as_str()])?;
    }
    Ok(text)
}

/// Adds the text of the formats in use, by their names: the enum `InstructionFormat`, and how the data of an instruction gives its format.
/// The text ends with an empty line. It is that of `gen_formats` of the crate's `gen_inst.rs`.
pub fn push_formats(alloc: Global, out: &mut String, built: &Built<'_>) -> Result<(), AllocError>
    ensures { OnOk result (string_bytes out.new ≡ string_bytes out.old ++ formats_text built.now) }
{
    let formats = formats_in_use(alloc, built)?;
    let entries = entries(alloc, formats.as_slice())?;
    let arms = told_arms(alloc, formats.as_slice())?;
    fill(
        out,
        FORMATS,
        &FORMATS_HOLES,
        &[entries.as_str(), arms.as_str()],
    )
}
