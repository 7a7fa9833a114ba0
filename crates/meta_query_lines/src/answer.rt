ghost use Rattle.std.specs.Prelude.{◌≡◌, ◌++◌, ◌<◌, ℕ, List, length, IfOk, OnOk, string_bytes};
ghost use Rattle.meta_lines.specs.Lines.{lines_of};
ghost use Rattle.meta_lines.specs.Words.{pieces_of};
ghost use Rattle.meta_query_lines.specs.Question.{question_words};
ghost use Rattle.meta_query_lines.specs.Inference.{inference_words};
ghost use Rattle.meta_gen.specs.Reply.{reply_text, AllowedReply};
ghost use Rattle.meta_query_lines.specs.Answer.{SettingReply, IsTableReply, IsLineAnswer, IsWrittenAnswer, AreWrittenAnswers};
ghost use Rattle.meta_gen.specs.declared.reply.Reply.{Reply};

use super::form::{AcceptWords, InferWords, QueryForm, form_of};
use super::inference::Inference;
use super::question::Question;
use super::results::push_inferred;
use super::setting_line::push_setting_line;
use meta_gen::{Reply, Tables};
use meta_lines::Lines;
use meta_types::Text;
use std::alloc::{AllocError, Global};

fn accept_reply(tables: &Tables, question: &Question<'_>) -> Reply
    ensures { AllowedReply tables.now.opcodes question.now result }
{
    let Some(opcode) = tables.find_opcode(question.name()) else {
        return Reply::Unknown;
    };
    if tables.accepts2(
        opcode,
        question.control_number(),
        question.second_number(),
        question.results(),
        question.values(),
    ) {
        Reply::Accept
    } else {
        Reply::Refuse
    }
}

pub(crate) fn push_setting_reply(
    alloc: Global,
    out: &mut String,
    tables: &Tables,
    name: &[u8],
) -> Result<(), AllocError>
    ensures { OnOk result ((reply : Reply) × SettingReply tables.now name.now reply
        × (string_bytes out.new ≡ string_bytes out.old ++ reply_text reply)) }
{
    match push_setting_line(alloc, out, tables, name)? {
        true => Ok(()),
        false => out.push_str(Reply::Unknown.text()),
    }
}

/// The reply of the tables to a line `accept` with these words. `question` is only room, which the line's question is read into.
fn question_reply<'l>(
    tables: &Tables,
    question: &mut Question<'l>,
    words: AcceptWords<'l>,
) -> Result<Reply, AllocError>
    ensures { IfOk result (λ reply. (line : List ℕ)
        → pieces_of 32 line ≡ question_words words.entry.name.now words.entry.control.now words.entry.results.now
        words.entry.values.now → 0 < length words.entry.name.now → IsTableReply tables.now line reply) }
{
    if question.read(words)? {
        Ok(accept_reply(tables, question))
    } else {
        Ok(Reply::Bad)
    }
}

/// Adds the reply of the tables to a line `accept` with these words. `question` is only room, which the line's question is read into.
fn push_accepted<'l>(
    out: &mut String,
    tables: &Tables,
    question: &mut Question<'l>,
    words: AcceptWords<'l>,
) -> Result<(), AllocError>
    ensures { OnOk result ((line : List ℕ) → pieces_of 32 line
        ≡ question_words words.entry.name.now words.entry.control.now words.entry.results.now words.entry.values.now
        → 0 < length words.entry.name.now → (reply : Reply) × IsTableReply tables.now line reply
        × (string_bytes out.new ≡ string_bytes out.old ++ reply_text reply)) }
{
    let reply = question_reply(tables, question, words)?;
    out.push_str(reply.text())
}

pub(crate) fn push_inference(
    out: &mut String,
    tables: &Tables,
    words: InferWords<'_>,
) -> Result<(), AllocError>
    ensures { OnOk result ((line : List ℕ) → pieces_of 32 line
        ≡ inference_words words.entry.name.now words.entry.control.now → 0 < length words.entry.name.now
        → (reply : Reply) × IsTableReply tables.now line reply × (string_bytes out.new ≡ string_bytes out.old ++ reply_text reply)) }
{
    match Inference::of(words) {
        Some(asked) => push_inferred(out, tables, &asked),
        None => out.push_str(Reply::Bad.text()),
    }
}

/// Adds the reply of the tables to a line. `question` is only room, which the line's question is read into.
fn push_reply<'l>(
    alloc: Global,
    out: &mut String,
    tables: &Tables,
    question: &mut Question<'l>,
    line: &'l [u8],
) -> Result<(), AllocError>
    ensures { OnOk result ((reply : Reply) × IsTableReply tables.now line.now reply
        × (string_bytes out.new ≡ string_bytes out.old ++ reply_text reply)) }
{
    let Some(form) = form_of(line) else {
        return out.push_str(Reply::Bad.text());
    };
    match form {
        QueryForm::Accept(words) => push_accepted(out, tables, question, words),
        QueryForm::Infer(words) => push_inference(out, tables, words),
        QueryForm::Setting(name) => push_setting_reply(alloc, out, tables, name),
    }
}

/// The answer to one line, given without its LF and the CR before that, by the tables alone. `None` exactly if the line is empty. Beside
/// the look-up of a name, the cost is the length of the line and of the answer, and for a preset one pass over the settings of its group.
pub fn answer_line(alloc: Global, tables: &Tables, line: &[u8]) -> Result<Option<Text>, AllocError>
    ensures { IfOk result (λ answer. IsLineAnswer (IsTableReply tables.now) line.now answer) }
{
    if line.is_empty() {
        return Ok(None);
    }
    let mut text = String::new(alloc);
    let mut question = Question::empty(alloc);
    push_reply(alloc, &mut text, tables, &mut question, line)?;
    Ok(Some(Text::new(alloc, text.as_str())?))
}

/// Adds the answer to a line, and an LF. `question` is only room, which the line's question is read into.
fn push_answer<'l>(
    alloc: Global,
    out: &mut String,
    tables: &Tables,
    question: &mut Question<'l>,
    line: &'l [u8],
) -> Result<(), AllocError>
    ensures { OnOk result ((text : List ℕ) × IsWrittenAnswer (IsTableReply tables.now) line.now text
        × (string_bytes out.new ≡ string_bytes out.old ++ text)) }
{
    if line.is_empty() {
        return Ok(());
    }
    push_reply(alloc, out, tables, question, line)?;
    out.push_str("\n")
}

/// Adds the answers to the lines of an input, each with an LF. If memory runs out, nothing is said of what the text then has.
pub fn push_answers(
    alloc: Global,
    out: &mut String,
    tables: &Tables,
    input: &[u8],
) -> Result<(), AllocError>
    ensures { OnOk result ((answers : List ℕ) × AreWrittenAnswers (IsTableReply tables.now)
        (lines_of input.now) answers × (string_bytes out.new ≡ string_bytes out.old ++ answers)) }
{
    let mut question = Question::empty(alloc);
    for line in Lines::new(input) {
        push_answer(alloc, out, tables, &mut question, line)?;
    }
    Ok(())
}
