ghost use Rattle.std.specs.Prelude.{◌≡◌, ◌≢◌, ◌≤◌, ◌++◌, ℕ, List, [], ◌∷◌, true, false, None, length, IfOk, IfSome, IfNone, string_bytes};
ghost use Rattle.meta_text.specs.Outside.{longest_input};
ghost use Rattle.meta_lines.specs.Lines.{lines_of};
ghost use Rattle.meta_gen.specs.Reply.{AllowedReply};
ghost use Rattle.meta_verify.specs.Defined.{definitions};
ghost use Rattle.meta_verify.specs.Wrong.{Feeds};
ghost use Rattle.meta_verify.specs.Environment.{nothing_defined};
ghost use Rattle.meta_verify.specs.Why.{IsFoundWrong};
ghost use Rattle.meta_asm.specs.Manners.{IsMannerIn};
ghost use Rattle.meta_asm.specs.Reading.{ReadsIn};
ghost use Rattle.meta_asm.specs.Listing.{AddsShortForm, AddsLine, IsShortened, IsSpelled};
ghost use Rattle.meta_asm.specs.Why.{IsExplainedShort};

use super::print::push_line;
use super::reader::read_line;
use meta_gen::Tables;
use meta_lines::Lines;
use meta_run::Answer;
use meta_verify::{Checker, Reason, WrongLine, accepted, explained_line, rejection, wrong_line};
use std::alloc::{AllocError, Global};

/// Feeds the checker a line, and adds its short form and LF if it is right and has one.
fn push_short_form(
    alloc: Global,
    tables: &Tables,
    checker: &mut Checker,
    line: &[u8],
    out: &mut String,
) -> Result<Option<Reason>, AllocError>
    ensures fed { IfOk result (λ answer.
        Feeds (AllowedReply tables.now.opcodes) (definitions checker.old) line.now answer (definitions checker.new)) }
    ensures added { IfOk result (λ answer. answer ≡ None → AddsShortForm tables.now.opcodes
        (definitions checker.old) line.now (definitions checker.new) (string_bytes out.old) (string_bytes out.new)) }
{
    if !push_line(alloc, tables, checker, line, out)? {
        return checker.feed(tables, line);
    }
    out.push_str("\n")?;
    checker.feed(tables, line)
}

/// Adds the short forms of the lines of an input, up to the first wrong line, which is the answer. Checker and text are new; then the checker
/// knows what the lines before the wrong one define.
fn push_short_forms<'a>(
    alloc: Global,
    tables: &Tables,
    input: &'a [u8],
    checker: &mut Checker,
    text: &mut String,
) -> Result<Option<WrongLine<'a>>, AllocError>
    requires within { length input.now ≤ longest_input }
    requires new { definitions checker.old ≡ nothing_defined }
    requires empty { string_bytes text.old ≡ [] }
    ensures right { IfOk result (λ o. IfNone o (IsShortened (AllowedReply tables.now.opcodes) (IsMannerIn tables.now.opcodes)
        input.now false (string_bytes text.new))) }
    ensures wrong { IfOk result (λ o. IfSome o
        (IsFoundWrong (AllowedReply tables.now.opcodes) (lines_of input.now) (definitions checker.new))) }
{
    let mut number: usize = 0;
    for line in Lines::new(input) {
        number += 1;
        if let Some(reason) = push_short_form(alloc, tables, checker, line, text)? {
            return Ok(Some(WrongLine {
                number,
                line,
                reason,
            }));
        }
    }
    Ok(None)
}

/// Writes the short forms of the lines of an input, or says which is the first wrong line, and why.
pub(crate) fn shortened(alloc: Global, tables: &Tables, input: &[u8]) -> Result<Answer, AllocError>
    requires within { length input.now ≤ longest_input }
    ensures { IfOk result (λ answer. IsShortened (AllowedReply tables.now.opcodes) (IsMannerIn tables.now.opcodes)
        input.now answer.is_rejection (string_bytes answer.text)) }
{
    let mut checker = Checker::new(alloc);
    let mut text = String::new(alloc);
    match push_short_forms(alloc, tables, input, &mut checker, &mut text)? {
        None => Ok(accepted(text)),
        Some(wrong) => Ok(rejection(wrong_line(alloc, wrong.number, wrong.reason)?)),
    }
}

/// Writes the same, and of the first wrong line also what is told of it.
pub(crate) fn explained_short(
    alloc: Global,
    tables: &Tables,
    input: &[u8],
) -> Result<Answer, AllocError>
    requires within { length input.now ≤ longest_input }
    ensures { IfOk result (λ answer. IsExplainedShort (AllowedReply tables.now.opcodes) (IsMannerIn tables.now.opcodes)
        tables.now.opcodes input.now answer.is_rejection (string_bytes answer.text)) }
{
    let mut checker = Checker::new(alloc);
    let mut text = String::new(alloc);
    match push_short_forms(alloc, tables, input, &mut checker, &mut text)? {
        None => Ok(accepted(text)),
        Some(wrong) => Ok(rejection(explained_line(alloc, tables, &checker, wrong)?)),
    }
}

/// Feeds the checker the line that the text reads as, and adds it with LF. The answer is false if the text reads as no line. An empty text
/// is skipped.
fn push_read_line(
    alloc: Global,
    tables: &Tables,
    checker: &mut Checker,
    text: &[u8],
    out: &mut String,
) -> Result<bool, AllocError>
    ensures added { IfOk result (λ reads. reads ≡ true → AddsLine tables.now.opcodes
        (definitions checker.old) text.now (definitions checker.new) (string_bytes out.old) (string_bytes out.new)) }
    ensures some { IfOk result (λ reads. reads ≡ false → text.now ≢ []) }
    ensures unread { IfOk result (λ reads. reads ≡ false
        → (line : List ℕ) → ¬ ReadsIn tables.now.opcodes (definitions checker.old) text.now line) }
{
    if text.is_empty() {
        return Ok(true);
    }
    let Some(line) = read_line(alloc, tables, checker, text)? else {
        return Ok(false);
    };
    // A line that is read is right.
    let _none = checker.feed(tables, line.as_bytes())?;
    out.push_str(line.as_str())?;
    out.push_str("\n")?;
    Ok(true)
}

/// Writes the lines that those of an input read as, or says which is the first that reads as no line.
pub(crate) fn spelled(alloc: Global, tables: &Tables, input: &[u8]) -> Result<Answer, AllocError>
    requires within { length input.now ≤ longest_input }
    ensures { IfOk result (λ answer. IsSpelled (AllowedReply tables.now.opcodes) (IsMannerIn tables.now.opcodes)
        input.now answer.is_rejection (string_bytes answer.text)) }
{
    let mut checker = Checker::new(alloc);
    let mut text = String::new(alloc);
    let mut number: usize = 0;
    for line in Lines::new(input) {
        number += 1;
        if !push_read_line(alloc, tables, &mut checker, line, &mut text)? {
            return Ok(rejection(wrong_line(alloc, number, Reason::Bad)?));
        }
    }
    Ok(accepted(text))
}
