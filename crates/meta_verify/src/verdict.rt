ghost use Rattle.std.specs.Prelude.{◌≡◌, ◌≤◌, ℕ, List, false, length, IfOk, IfSome, IfNone, string_bytes};
ghost use Rattle.meta_text.specs.Outside.{longest_input};
ghost use Rattle.meta_lines.specs.Lines.{lines_of};
ghost use Rattle.meta_gen.specs.Reply.{AllowedReply};
ghost use Rattle.meta_verify.specs.Environment.{nothing_defined};
ghost use Rattle.meta_verify.specs.Defined.{definitions};
ghost use Rattle.meta_verify.specs.Verdict.{wrong_text, right_text, AreRight, IsVerdict};
ghost use Rattle.meta_verify.specs.Why.{explained_text, IsTold, IsExplainedVerdict, IsFoundWrong};
ghost use Rattle.meta_verify.specs.Wrong.{IsWrong};

use super::answers::{accepted, rejection};
use super::checker::Checker;
use super::reason::Reason;
use meta_gen::Tables;
use meta_lines::Lines;
use meta_run::Answer;
use std::alloc::{AllocError, Global};

/// A wrong line of an input.
#[derive(Clone, Copy, Debug)]
pub struct WrongLine<'a> {
    /// The number of the line, from 1.
    pub number: usize,
    /// The line.
    pub line: &'a [u8],
    /// Why it is wrong.
    pub reason: Reason,
}

/// The text that says which line is the first wrong one, by its number, from 1, and why: `line 3: refused`. What is told after the reason
/// stands before the end of the line.
pub fn told_line(
    alloc: Global,
    number: usize,
    reason: Reason,
    more: &str,
) -> Result<String, AllocError>
    ensures { IfOk result (λ text. string_bytes text ≡ explained_text number reason more.now) }
{
    let mut text = format!(in alloc; "line {number}: ")?;
    reason.push(&mut text)?;
    text.push_str(more)?;
    text.push_str("\n")?;
    Ok(text)
}

/// The text that says which line is the first wrong one, by its number, from 1, and why.
pub fn wrong_line(alloc: Global, number: usize, reason: Reason) -> Result<String, AllocError>
    ensures { IfOk result (λ text. string_bytes text ≡ wrong_text number reason) }
{
    told_line(alloc, number, reason, "")
}

/// The same with what is told of the line after the reason, by the tables and after the lines that were fed to the checker, as
/// `Checker::push_why` adds it.
pub fn explained_line(
    alloc: Global,
    tables: &Tables,
    checker: &Checker,
    wrong: WrongLine<'_>,
) -> Result<String, AllocError>
    requires { IsWrong (AllowedReply tables.now.opcodes) (definitions checker.now) wrong.line.now wrong.reason }
    ensures { IfOk result (λ text. (more : List ℕ)
        × IsTold tables.now.opcodes (definitions checker.now) wrong.entry.line.now wrong.entry.reason more
        × (string_bytes text ≡ explained_text wrong.entry.number wrong.entry.reason more)) }
{
    let mut more = String::new(alloc);
    checker.push_why(tables, wrong.line, wrong.reason, &mut more)?;
    told_line(alloc, wrong.number, wrong.reason, more.as_str())
}

/// The first wrong line of an input, by the tables. The checker is new; then it knows what the lines before that line define.
fn first_wrong<'a>(
    tables: &Tables,
    input: &'a [u8],
    checker: &mut Checker,
) -> Result<Option<WrongLine<'a>>, AllocError>
    requires within { length input.now ≤ longest_input }
    requires new { definitions checker.old ≡ nothing_defined }
    ensures right { IfOk result (λ o. IfNone o (AreRight (AllowedReply tables.now.opcodes) (lines_of input.now))) }
    ensures wrong { IfOk result (λ o. IfSome o
        (IsFoundWrong (AllowedReply tables.now.opcodes) (lines_of input.now) (definitions checker.new))) }
{
    let mut number: usize = 0;
    for line in Lines::new(input) {
        number += 1;
        if let Some(reason) = checker.feed(tables, line)? {
            return Ok(Some(WrongLine {
                number,
                line,
                reason,
            }));
        }
    }
    Ok(None)
}

/// The answer that no line is wrong.
fn right(alloc: Global) -> Result<Answer, AllocError>
    ensures { IfOk result (λ answer. (answer.is_rejection ≡ false) × (string_bytes answer.text ≡ right_text)) }
{
    Ok(accepted(String::from_str(alloc, "ok\n")?))
}

/// Says of the lines of an input whether each is right by the tables, or which is the first wrong one, and why.
pub(crate) fn verdict(alloc: Global, tables: &Tables, input: &[u8]) -> Result<Answer, AllocError>
    requires within { length input.now ≤ longest_input }
    ensures { IfOk result (λ answer. IsVerdict (AllowedReply tables.now.opcodes) input.now answer.is_rejection (string_bytes answer.text)) }
{
    let mut checker = Checker::new(alloc);
    match first_wrong(tables, input, &mut checker)? {
        None => right(alloc),
        Some(wrong) => Ok(rejection(wrong_line(alloc, wrong.number, wrong.reason)?)),
    }
}

/// Says the same, and of the first wrong line also what is told of it.
pub(crate) fn explained_verdict(
    alloc: Global,
    tables: &Tables,
    input: &[u8],
) -> Result<Answer, AllocError>
    requires within { length input.now ≤ longest_input }
    ensures { IfOk result (λ answer. IsExplainedVerdict (AllowedReply tables.now.opcodes) tables.now.opcodes input.now
        answer.is_rejection (string_bytes answer.text)) }
{
    let mut checker = Checker::new(alloc);
    match first_wrong(tables, input, &mut checker)? {
        None => right(alloc),
        Some(wrong) => Ok(rejection(explained_line(alloc, tables, &checker, wrong)?)),
    }
}
