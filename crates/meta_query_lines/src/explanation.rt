ghost use Rattle.std.specs.Prelude.{◌≡◌, ◌++◌, ◌<◌, ◌∷◌, [], ℕ, List, Option, codes, length, OnOk, string_bytes};
ghost use Rattle.meta_inst.specs.Built.{BuiltInstruction};
ghost use Rattle.meta_lines.specs.Lines.{lines_of};
ghost use Rattle.meta_lines.specs.Words.{pieces_of};
ghost use Rattle.meta_query_lines.specs.Query.{Asked, Asks};
ghost use Rattle.meta_query_lines.specs.Question.{question_words};
ghost use Rattle.meta_query_lines.specs.RequestForm.{optional_word, form_words};
ghost use Rattle.meta_query_lines.specs.Explanation.{IsExplanation};
ghost use Rattle.meta_query_lines.specs.Explained.{IsLineText, AreExplained};
ghost use Rattle.meta_query_lines.specs.Told.{told_by};

use super::answer::{push_inference, push_setting_reply};
use super::finding::push_find;
use super::form::{AcceptWords, QueryForm, form_of};
use super::listed::push_text;
use super::naming::push_names;
use super::question::Question;
use super::request::{FindWords, RequestForm, TypesWords, request_form};
use super::sought::read_sought;
use super::type_lists::push_types;
use super::why::push_why;
use meta_explain::ControlTypes;
use meta_gen::{Reply, Tables};
use meta_inst::InstructionContent;
use meta_lines::{Lines, parse_control};
use std::alloc::{AllocError, Global};

/// Room that what lines ask is read into.
#[derive(Drop)]
struct Room<'l> {
    question: Question<'l>,
    results: Vec<Option<u16>>,
    values: Vec<Option<u16>>,
}

fn push_accepted<'l>(
    alloc: Global,
    out: &mut String,
    tables: &Tables,
    told: Option<&[InstructionContent]>,
    question: &mut Question<'l>,
    words: AcceptWords<'l>,
) -> Result<(), AllocError>
    ensures { OnOk result ((line : List ℕ) → pieces_of 32 line
        ≡ question_words words.entry.name.now words.entry.control.now words.entry.results.now words.entry.values.now
        → 0 < length words.entry.name.now → (text : List ℕ)
        × IsExplanation tables.now (told_by told.entry) line text
        × (string_bytes out.new ≡ string_bytes out.old ++ text)) }
{
    if question.read(words)? {
        push_why(alloc, out, tables, told, question)
    } else {
        push_text(out, &Reply::Bad)
    }
}

fn push_types_line(
    alloc: Global,
    out: &mut String,
    tables: &Tables,
    words: TypesWords<'_>,
) -> Result<(), AllocError>
    ensures { OnOk result ((told : Option (List BuiltInstruction)) (line : List ℕ)
        → pieces_of 32 line ≡ codes "types" ∷ words.entry.name.now ∷ optional_word words.entry.control
        → 0 < length words.entry.name.now → (text : List ℕ) × IsExplanation tables.now told line text
        × (string_bytes out.new ≡ string_bytes out.old ++ text)) }
{
    let Some(word) = words.control else {
        return push_types(alloc, out, tables.opcodes(), words.name, None);
    };
    let Some(controls) = parse_control(word) else {
        return push_text(out, &Reply::Bad);
    };
    let controls = ControlTypes {
        ctrl: controls.control,
        second: controls.second,
    };
    push_types(alloc, out, tables.opcodes(), words.name, Some(controls))
}

fn push_find_line(
    alloc: Global,
    out: &mut String,
    tables: &Tables,
    room: &mut Room<'_>,
    words: FindWords<'_>,
) -> Result<(), AllocError>
    ensures { OnOk result ((told : Option (List BuiltInstruction)) (line : List ℕ)
        → pieces_of 32 line ≡ codes "find" ∷ words.entry.results.now ∷ words.entry.values.now ∷ []
        → (text : List ℕ) × IsExplanation tables.now told line text
        × (string_bytes out.new ≡ string_bytes out.old ++ text)) }
{
    if !read_sought(&mut room.results, words.results)? {
        return push_text(out, &Reply::Bad);
    }
    if !read_sought(&mut room.values, words.values)? {
        return push_text(out, &Reply::Bad);
    }
    push_find(alloc, out, tables.opcodes(), &room.results, &room.values)
}

/// Adds the answer to a line that asks nothing of `query`. `room` is only room.
fn push_request<'l>(
    alloc: Global,
    out: &mut String,
    tables: &Tables,
    told: Option<&[InstructionContent]>,
    room: &mut Room<'l>,
    line: &'l [u8],
) -> Result<(), AllocError>
    ensures { OnOk result (((q : Asked) → ¬ Asks line.now q) → (text : List ℕ)
        × IsExplanation tables.now (told_by told.entry) line.now text
        × (string_bytes out.new ≡ string_bytes out.old ++ text)) }
{
    let Some(form) = request_form(line) else {
        return push_text(out, &Reply::Bad);
    };
    match form {
        RequestForm::Types(words) => push_types_line(alloc, out, tables, words),
        RequestForm::Find(words) => push_find_line(alloc, out, tables, room, words),
        RequestForm::Names(name) => push_names(alloc, out, tables.opcodes(), told, name),
    }
}

/// Adds the answer to a line. `room` is only room.
fn push_explanation<'l>(
    alloc: Global,
    out: &mut String,
    tables: &Tables,
    told: Option<&[InstructionContent]>,
    room: &mut Room<'l>,
    line: &'l [u8],
) -> Result<(), AllocError>
    ensures { OnOk result ((text : List ℕ)
        × IsExplanation tables.now (told_by told.entry) line.now text
        × (string_bytes out.new ≡ string_bytes out.old ++ text)) }
{
    let Some(form) = form_of(line) else {
        return push_request(alloc, out, tables, told, room, line);
    };
    match form {
        QueryForm::Accept(words) => {
            push_accepted(alloc, out, tables, told, &mut room.question, words)
        }
        QueryForm::Infer(words) => push_inference(out, tables, words),
        QueryForm::Setting(name) => push_setting_reply(alloc, out, tables, name),
    }
}

/// Adds the answer to a line, and an LF, if the line isn't empty. `room` is only room.
fn push_line<'l>(
    alloc: Global,
    out: &mut String,
    tables: &Tables,
    told: Option<&[InstructionContent]>,
    room: &mut Room<'l>,
    line: &'l [u8],
) -> Result<(), AllocError>
    ensures { OnOk result ((text : List ℕ)
        × IsLineText (IsExplanation tables.now (told_by told.entry)) line.now text
        × (string_bytes out.new ≡ string_bytes out.old ++ text)) }
{
    if line.is_empty() {
        return Ok(());
    }
    push_explanation(alloc, out, tables, told, room, line)?;
    out.push_str("\n")
}

/// Adds the answers to the lines of an input, each with an LF, by tables. The lines are those of `query`, of which `accept` says why types are
/// refused, and
///
/// - `types NAME`: the controls under which the instruction accepts anything, and how its operands go by them,
/// - `types NAME CONTROL`: what each operand may be under these controls,
/// - `find RESULTS VALUES`: the instructions and controls that accept these types, of which `?` stands for any type,
/// - `list`, `list MARK`, `list FORMAT`: the names of instructions.
///
/// `instructions` are those of which the tables were made, in order. Without them, as for tables that were read, operands have no names and
/// no word is a mark. A line of `accept` costs at most twice what it costs in `push_answers`, beside the text of a reason. If memory runs
/// out, nothing is said of what the text then has.
pub fn push_explained(
    alloc: Global,
    out: &mut String,
    tables: &Tables,
    instructions: Option<&[InstructionContent]>,
    input: &[u8],
) -> Result<(), AllocError>
    ensures { OnOk result ((answers : List ℕ)
        × AreExplained tables.now (told_by instructions.entry) (lines_of input.now) answers
        × (string_bytes out.new ≡ string_bytes out.old ++ answers)) }
{
    let mut room = Room {
        question: Question::empty(alloc),
        results: Vec::new(alloc),
        values: Vec::new(alloc),
    };
    for line in Lines::new(input) {
        push_line(alloc, out, tables, instructions, &mut room, line)?;
    }
    Ok(())
}
