ghost use Rattle.std.specs.Prelude.{◌≡◌, ◌<◌, ◌∷◌, [], ◌++◌, map, IsTrue, IfOk, OnOk, length, string_bytes};
ghost use Rattle.std.specs.List.{flat_map};
ghost use Rattle.std.specs.Option.{option_copied};
ghost use Rattle.meta_text.specs.Filled.{filled, fits};
ghost use Rattle.meta_rust_insts.specs.OpcodeItems.{inferring_input, inferred_line, opcode_text};
ghost use Rattle.meta_rust_insts.specs.OpcodesText.{HaveFormats, number_type, each_opcode, opcodes_part, opcodes_text};

use super::accessors::accessors;
use meta_build::Built;
use meta_inst::InstructionContent;
use meta_operands::{FormatTable, InstructionFormat, Operand};
use meta_text::fill;
use std::alloc::{AllocError, Global};

/// The enum of the opcodes, its methods, and the function that gives the names (`gen_opcodes`).
const OPCODES: &str = "/// An instruction opcode.
#[repr($type$)]
#[derive(Copy, Clone, PartialEq, Eq, Debug, Hash)]
pub enum Opcode {
$opcodes$}

impl Opcode {
$accessors$    /// All cranelift opcodes.
    pub fn all() -> &'static [Opcode] {
        return &[
$listed$        ];
    }

}

fn opcode_name(opc: Opcode) -> &'static str {
    match opc {
$named$    }
}

";

const OPCODES_HOLES: [&str; 5] = ["type", "opcodes", "accessors", "listed", "named"];

/// An instruction in the list of all opcodes, and the arm that gives its name.
const LISTED: &str = "            Opcode::$Name$,\n";

const NAMED: &str = "        Opcode::$Name$ => \"$name$\",\n";

const NAME_HOLES: [&str; 2] = ["Name", "name"];

/// The most opcodes whose numbers, which begin with 1, a `u8` holds.
const MAX_IN_A_BYTE: usize = 255;

fn number_type(count: usize) -> &'static str
    ensures { result.now ≡ number_type count }
{
    if count > MAX_IN_A_BYTE { "u16" } else { "u8" }
}

/// The input from whose type the control of the instruction, of this format, is inferred; `None` if it isn't inferred.
fn inferring_input<'i>(
    format: &InstructionFormat,
    instruction: &'i InstructionContent,
) -> Option<&'i Operand>
    ensures { option_copied result ≡ inferring_input format.now instruction.now }
{
    let info = instruction.polymorphic_info()?;
    if !info.use_typevar_operand {
        return None;
    }
    let place = instruction.value_opnums().get(format.typevar_operand?)?;
    instruction.operands_in().get(*place)
}

fn inferred(alloc: Global, input: Option<&Operand>) -> Result<String, AllocError>
    ensures { IfOk result (λ text. string_bytes text ≡ inferred_line (option_copied input.entry)) }
{
    let mut text = String::new(alloc);
    let Some(input) = input else {
        return Ok(text);
    };
    let name = input.name.as_str();
    write!(&mut text, "    /// Type inferred from `{name}`.\n")?;
    Ok(text)
}

#[tactic(auto, unfolding(crate::specs::OpcodeItems::opcode_lines))]
fn push_opcode(
    alloc: Global,
    out: &mut String,
    formats: &FormatTable,
    instruction: &InstructionContent,
    number: &str,
) -> Result<(), AllocError>
    requires { instruction.now.format < length formats.now }
    ensures { OnOk result (string_bytes out.new ≡ string_bytes out.old ++ opcode_text formats.now number.now instruction.now) }
{
    let format = formats.get(instruction.format());
    let shown = instruction.to_string(alloc)?;
    let inferred = inferred(alloc, inferring_input(format, instruction))?;
    let (shown, inferred) = (shown.as_str(), inferred.as_str());
    let (format, name) = (format.name.as_str(), instruction.camel_name().as_str());
    write!(
        out,
        "    /// `{shown}`. ({format})
{inferred}    {name}{number},
"
    )
}

fn for_each_name(
    alloc: Global,
    line: &str,
    instructions: &[InstructionContent],
) -> Result<String, AllocError>
    requires { IsTrue (fits line.now (map (λ h. h.now) NAME_HOLES)) }
    ensures { IfOk result (λ text. string_bytes text
        ≡ flat_map (λ c. filled line.now (map (λ h. h.now) NAME_HOLES) (c.camel_name ∷ c.name ∷ [])) instructions.now) }
{
    let mut text = String::new(alloc);
    for instruction in instructions {
        fill(
            &mut text,
            line,
            &NAME_HOLES,
            &[
                instruction.camel_name().as_str(),
                instruction.name().as_str(),
            ],
        )?;
    }
    Ok(text)
}

/// The instructions in the enum. The first has its number.
fn each_opcode(
    alloc: Global,
    formats: &FormatTable,
    instructions: &[InstructionContent],
) -> Result<String, AllocError>
    requires { HaveFormats formats.now instructions.now }
    ensures { IfOk result (λ text. string_bytes text ≡ each_opcode formats.now instructions.now) }
{
    let mut text = String::new(alloc);
    let Some((first, later)) = instructions.split_first() else {
        return Ok(text);
    };
    push_opcode(alloc, &mut text, formats, first, " = 1")?;
    for instruction in later {
        push_opcode(alloc, &mut text, formats, instruction, "")?;
    }
    Ok(text)
}

/// Adds the text of these instructions, whose numbers have this type.
fn push_part(
    alloc: Global,
    out: &mut String,
    formats: &FormatTable,
    instructions: &[InstructionContent],
    repr: &str,
) -> Result<(), AllocError>
    requires { HaveFormats formats.now instructions.now }
    ensures { OnOk result (string_bytes out.new ≡ string_bytes out.old ++ opcodes_part repr.now formats.now instructions.now) }
{
    let opcodes = each_opcode(alloc, formats, instructions)?;
    let accessors = accessors(alloc, instructions)?;
    let listed = for_each_name(alloc, LISTED, instructions)?;
    let named = for_each_name(alloc, NAMED, instructions)?;
    fill(
        out,
        OPCODES,
        &OPCODES_HOLES,
        &[
            repr,
            opcodes.as_str(),
            accessors.as_str(),
            listed.as_str(),
            named.as_str(),
        ],
    )
}

/// Adds the text of the opcodes: the enum `Opcode`, its methods, and the function that gives the names. The numbers of the opcodes are `u8`
/// for at most 255 instructions, and else `u16`. The text ends with an empty line. It is that of `gen_opcodes` of the crate's
/// `gen_inst.rs`, without the tables `OPCODE_FORMAT` and `OPCODE_HASH_TABLE`.
pub fn push_opcodes(alloc: Global, out: &mut String, built: &Built<'_>) -> Result<(), AllocError>
    ensures { OnOk result (string_bytes out.new ≡ string_bytes out.old ++ opcodes_text built.now) }
{
    let declarations = built.declarations();
    // by the contract of `instructions`, their formats are of the table
    let _instructions = declarations.instructions();
    let instructions = built.instructions();
    push_part(
        alloc,
        out,
        declarations.formats(),
        instructions,
        number_type(instructions.len()),
    )
}
