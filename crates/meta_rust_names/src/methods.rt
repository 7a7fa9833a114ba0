ghost use Rattle.std.specs.Prelude.{◌≡◌, ◌||◌, ◌++◌, ◌∷◌, [], ℕ, List, OnOk, IfOk, slice_get};
ghost use Rattle.meta_rust_names.specs.Known.{known};
ghost use Rattle.meta_rust_names.specs.Methods.{is_base_method, name_of_format, format_names, is_among, three_names};
ghost use Rattle.meta_rust_names.specs.Methods.{instruction_methods, imm_methods_of, imm_methods};

use super::names::Names;
use meta_inst::InstructionContent;
use meta_operands::{FormatId, FormatTable};
use std::alloc::{AllocError, Global};

/// Whether the name is that of a method of `InstBuilderBase`.
#[tactic(auto, unfolding(crate::specs::Methods::is_base_method))]
pub(crate) fn is_base_method(name: &[u8]) -> bool
    ensures { result ≡ is_base_method name.now }
{
    name == b"build".as_slice()
        || name == b"build_imm_const".as_slice()
        || name == b"data_flow_graph".as_slice()
        || name == b"data_flow_graph_mut".as_slice()
}

fn add_one(alloc: Global, names: &mut Names, name: &str) -> Result<(), AllocError>
    ensures { OnOk result ((text : List ℕ) → known names.new text ≡ (is_among (name.now ∷ []) text || known names.old text)) }
{
    names.add(String::from_str(alloc, name)?)
}

fn add_format(
    alloc: Global,
    names: &mut Names,
    formats: &FormatTable,
    id: FormatId,
) -> Result<(), AllocError>
    ensures { OnOk result ((text : List ℕ) → known names.new text
        ≡ (is_among (name_of_format (slice_get formats.now id)) text || known names.old text)) }
{
    if !formats.is_of(id) {
        return Ok(());
    }
    add_one(alloc, names, formats.get(id).name.as_str())
}

pub(crate) fn format_names(
    alloc: Global,
    formats: &FormatTable,
    ids: &[FormatId],
) -> Result<Names, AllocError>
    ensures { IfOk result (λ names. (text : List ℕ) → known names text ≡ is_among (format_names formats.now ids.now) text) }
{
    let mut names = Names::new(alloc);
    for id in ids {
        add_format(alloc, &mut names, formats, *id)?;
    }
    Ok(names)
}

pub(crate) fn instruction_methods(
    alloc: Global,
    instructions: &[InstructionContent],
) -> Result<Names, AllocError>
    ensures { IfOk result (λ names. (text : List ℕ) → known names text ≡ is_among (instruction_methods instructions.now) text) }
{
    let mut names = Names::new(alloc);
    for instruction in instructions {
        add_one(alloc, &mut names, instruction.snake_name())?;
    }
    Ok(names)
}

fn add_after(alloc: Global, names: &mut Names, name: &str, letters: &str) -> Result<(), AllocError>
    ensures { OnOk result ((text : List ℕ) → known names.new text
        ≡ (is_among ((name.now ++ letters.now) ∷ []) text || known names.old text)) }
{
    names.add(format!(in alloc; "{name}{letters}")?)
}

/// Adds the names of the methods of the instruction that take an immediate for its last value.
fn add_three(alloc: Global, names: &mut Names, name: &str) -> Result<(), AllocError>
    ensures { OnOk result ((text : List ℕ) → known names.new text ≡ (is_among (three_names name.now) text || known names.old text)) }
{
    add_after(alloc, names, name, "_imm")?;
    add_after(alloc, names, name, "_imm_u")?;
    add_after(alloc, names, name, "_imm_s")
}

fn add_imm_methods(
    alloc: Global,
    names: &mut Names,
    instruction: &InstructionContent,
) -> Result<(), AllocError>
    ensures { OnOk result ((text : List ℕ) → known names.new text
        ≡ (is_among (imm_methods_of instruction.now) text || known names.old text)) }
{
    if !instruction.inst_builder_imm_method() {
        return Ok(());
    }
    add_three(alloc, names, instruction.snake_name())
}

pub(crate) fn imm_methods(
    alloc: Global,
    instructions: &[InstructionContent],
) -> Result<Names, AllocError>
    ensures { IfOk result (λ names. (text : List ℕ) → known names text ≡ is_among (imm_methods instructions.now) text) }
{
    let mut names = Names::new(alloc);
    for instruction in instructions {
        add_imm_methods(alloc, &mut names, instruction)?;
    }
    Ok(names)
}
