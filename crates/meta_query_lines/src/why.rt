ghost use Rattle.std.specs.Prelude.{◌≡◌, ◌++◌, List, ℕ, OnOk, map, string_bytes};
ghost use Rattle.std.specs.Option.{option_map};
ghost use Rattle.meta_types.specs.TypeParts.{number_of};
ghost use Rattle.meta_explain.specs.Options.{AreTypes, TellsTypes};
ghost use Rattle.meta_explain.specs.declared.explained.Explained.{Explained};
ghost use Rattle.meta_explain.specs.declared.explained.Explained.TheVariants.{Refuse};
ghost use Rattle.meta_query_lines.specs.Explanation.{named_after, part_name, why_text, asked_controls, IsWhy};
ghost use Rattle.meta_query_lines.specs.Told.{told_by};

use super::listed::push_text;
use super::question::Question;
use super::told::operand_name;
use meta_explain::{Explained, Part, Wanted, explain, push_held, push_place, push_wants};
use meta_gen::{Reply, Tables};
use meta_inst::InstructionContent;
use meta_types::Text;
use std::alloc::{AllocError, Global};

fn push_named(out: &mut String, name: Option<&Text>) -> Result<(), AllocError>
    ensures { OnOk result (string_bytes out.new ≡ string_bytes out.old ++ named_after (option_map (λ name. name.now) name.entry)) }
{
    match name {
        Some(name) => {
            let name = name.as_str();
            write!(out, " {name}")
        }
        None => Ok(()),
    }
}

/// Adds the name of the operand that the part is, after a blank, if it is known.
fn push_part_name(
    out: &mut String,
    told: Option<&[InstructionContent]>,
    opcode: u16,
    part: Part,
) -> Result<(), AllocError>
    ensures { OnOk result (string_bytes out.new ≡ string_bytes out.old
        ++ part_name (told_by told.entry) opcode part) }
{
    match part {
        Part::Operand(k) => push_named(out, operand_name(told, opcode, k)),
        Part::Control | Part::Second | Part::ResultCount | Part::ValueCount => Ok(()),
    }
}

/// Adds why what is asked is refused: the part that fails first, and what it has to be.
fn push_refusal(
    out: &mut String,
    told: Option<&[InstructionContent]>,
    opcode: u16,
    question: &Question<'_>,
    part: Part,
    wanted: &Wanted,
) -> Result<(), AllocError>
    requires { AreTypes wanted.now }
    ensures { OnOk result (string_bytes out.new ≡ string_bytes out.old
        ++ why_text (told_by told.entry) opcode (asked_controls question.now)
        (map number_of question.now.results) (map number_of question.now.values) (Refuse part wanted.now)) }
{
    let controls = question.controls();
    let (results, values) = (question.results(), question.values());
    out.push_str("refuse ")?;
    push_place(out, part, results.len())?;
    push_part_name(out, told, opcode, part)?;
    out.push_str(": ")?;
    push_held(out, part, controls, results, values)?;
    out.push_str(", ")?;
    push_wants(out, wanted)
}

fn push_explained_for(
    out: &mut String,
    told: Option<&[InstructionContent]>,
    opcode: u16,
    question: &Question<'_>,
    why: &Explained,
) -> Result<(), AllocError>
    requires { TellsTypes why.now }
    ensures { OnOk result (string_bytes out.new ≡ string_bytes out.old
        ++ why_text (told_by told.entry) opcode (asked_controls question.now)
        (map number_of question.now.results) (map number_of question.now.values) why.now) }
{
    match why {
        Explained::Accept => out.push_str("accept"),
        Explained::Refuse(part, wanted) => push_refusal(out, told, opcode, question, *part, wanted),
    }
}

/// Adds `accept`, or why the types of the question are refused, by the tables and the names of operands, if these are known.
pub(crate) fn push_why(
    alloc: Global,
    out: &mut String,
    tables: &Tables,
    told: Option<&[InstructionContent]>,
    question: &Question<'_>,
) -> Result<(), AllocError>
    ensures { OnOk result ((text : List ℕ)
        × IsWhy tables.now.opcodes (told_by told.entry) question.now text
        × (string_bytes out.new ≡ string_bytes out.old ++ text)) }
{
    let _count = tables.opcode_count();
    let Some(opcode) = tables.find_opcode(question.name()) else {
        return push_text(out, &Reply::Unknown);
    };
    let explained = explain(
        alloc,
        tables.opcodes(),
        opcode,
        question.controls(),
        question.results(),
        question.values(),
    )?;
    match explained {
        Some(why) => push_explained_for(out, told, opcode, question, &why),
        None => Ok(()),
    }
}
