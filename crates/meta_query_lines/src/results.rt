ghost use Rattle.std.specs.Prelude.{◌≡◌, ◌++◌, ℕ, List, OnOk, string_bytes};
ghost use Rattle.meta_query_lines.specs.Inference.{IsResultWord, IsResultsLine};
ghost use Rattle.meta_query_lines.specs.Answer.{GivenReply};
ghost use Rattle.meta_gen.specs.Reply.{reply_text};
ghost use Rattle.meta_gen.specs.declared.reply.Reply.{Reply};

use super::inference::Inference;
use meta_gen::{Reply, Tables};
use meta_types::ValueType;
use std::alloc::AllocError;

/// Adds the word for the number of a result: the name of the type, or `?` if no type has the number.
fn push_word(out: &mut String, number: u16) -> Result<(), AllocError>
    ensures { OnOk result ((word : List ℕ) × IsResultWord number word × (string_bytes out.new ≡ string_bytes out.old ++ word)) }
{
    match ValueType::from_number(number) {
        Some(t) => write!(out, "{t}"),
        None => out.push_str("?"),
    }
}

fn push_results(out: &mut String, numbers: &[u16]) -> Result<(), AllocError>
    ensures { OnOk result ((line : List ℕ) × IsResultsLine numbers.now line × (string_bytes out.new ≡ string_bytes out.old ++ line)) }
{
    if numbers.is_empty() {
        return out.push_str("results -");
    }
    out.push_str("results ")?;
    push_word(out, numbers[0])?;
    for k in 1..numbers.len() {
        out.push_str(",")?;
        push_word(out, numbers[k])?;
    }
    Ok(())
}

pub(crate) fn push_inferred(
    out: &mut String,
    tables: &Tables,
    asked: &Inference<'_>,
) -> Result<(), AllocError>
    ensures { OnOk result ((reply : Reply) × GivenReply tables.now.opcodes asked.now reply
        × (string_bytes out.new ≡ string_bytes out.old ++ reply_text reply)) }
{
    let Some(opcode) = tables.find_opcode(asked.name()) else {
        return out.push_str(Reply::Unknown.text());
    };
    let mut numbers = [0; 7];
    match tables.infer_results2(
        opcode,
        asked.control_number(),
        asked.second_number(),
        &mut numbers,
    ) {
        Some(count) => push_results(out, &numbers[..count]),
        None => out.push_str(Reply::Refuse.text()),
    }
}
