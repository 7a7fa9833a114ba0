ghost use Rattle.std.specs.Prelude.{◌≡◌, ◌⊎◌, ◌++◌, ℕ, List, [], true, false, IfOk, IfSome, IfNone, string_bytes};
ghost use Rattle.meta_gen.specs.Reply.{AllowedReply};
ghost use Rattle.meta_verify.specs.Numbers.{stated, HasNumbers, HasTypeNumbers};
ghost use Rattle.meta_verify.specs.Numbers as numbers;
ghost use Rattle.meta_verify.specs.Statement as spec;
ghost use Rattle.meta_verify.specs.Defined.{definitions};
ghost use Rattle.meta_verify.specs.Wrong.{LacksName, IsWrong};
ghost use Rattle.meta_verify.specs.declared.reason.Reason.{Reason};
ghost use Rattle.meta_asm.specs.Reading.{IsShortIn};
ghost use Rattle.meta_asm.specs.ShortWritten.{AddsShort};

use super::manner::Manner;
use super::push::{push_application, push_parameter};
use meta_gen::Tables;
use meta_types::Text;
use meta_verify::{Application, Checker, Statement};
use std::alloc::{AllocError, Global};

/// Adds the short form of an application, as `push_short` does.
fn push_applied(
    tables: &Tables,
    application: &Application<'_>,
    out: &mut String,
) -> Result<bool, AllocError>
    requires { HasNumbers application.now }
    ensures written { IfOk result (λ is_written. is_written ≡ true → AddsShort tables.now.opcodes
        (spec.OfApplication (numbers.applied application.now)) (string_bytes out.old) (string_bytes out.new)) }
    ensures unnamed { IfOk result (λ is_written. is_written ≡ false
        → LacksName (AllowedReply tables.now.opcodes) (spec.OfApplication (numbers.applied application.now))) }
    ensures kept { IfOk result (λ is_written. is_written ≡ false → out.new ≡ out.old) }
{
    let Some(opcode) = tables.find_opcode(application.name) else {
        return Ok(false);
    };
    let Some(manner) = Manner::of(tables, opcode) else {
        return Ok(false);
    };
    push_application(&manner, application, out)?;
    Ok(true)
}

/// Adds the short form of a statement, by the tables. It answers false, and adds nothing, exactly if no opcode has the name. If memory runs
/// out, nothing is said of what the text then has. The cost is the length of the text and of a look-up.
pub fn push_short(
    tables: &Tables,
    statement: &Statement<'_>,
    out: &mut String,
) -> Result<bool, AllocError>
    requires { HasTypeNumbers statement.now }
    ensures written { IfOk result (λ is_written. is_written ≡ true
        → AddsShort tables.now.opcodes (stated statement.now) (string_bytes out.old) (string_bytes out.new)) }
    ensures unnamed { IfOk result (λ is_written. is_written ≡ false → LacksName (AllowedReply tables.now.opcodes) (stated statement.now)) }
    ensures kept { IfOk result (λ is_written. is_written ≡ false → out.new ≡ out.old) }
{
    match statement {
        Statement::Parameter(parameter) => {
            push_parameter(*parameter, out)?;
            Ok(true)
        }
        Statement::Applied(application) => push_applied(tables, application, out),
    }
}

/// Adds the short form of a line to a text, as `print_line` makes it. It answers false, and adds nothing, exactly if `print_line` answers
/// `None`. If memory runs out, nothing is said of what the text then has.
pub fn push_line(
    alloc: Global,
    tables: &Tables,
    checker: &Checker,
    line: &[u8],
    out: &mut String,
) -> Result<bool, AllocError>
    ensures written { IfOk result (λ is_written. is_written ≡ true → (text : List ℕ)
        × IsShortIn tables.now.opcodes (definitions checker.now) line.now text × (string_bytes out.new ≡ string_bytes out.old ++ text)) }
    ensures wrong { IfOk result (λ is_written. is_written ≡ false → (line.now ≡ [])
        ⊎ ((reason : Reason) × IsWrong (AllowedReply tables.now.opcodes) (definitions checker.now) line.now reason)) }
    ensures kept { IfOk result (λ is_written. is_written ≡ false → out.new ≡ out.old) }
{
    let Some(statement) = Statement::parse(alloc, line)? else {
        return Ok(false);
    };
    if checker.mistake(tables, &statement)?.is_some() {
        return Ok(false);
    }
    push_short(tables, &statement, out)
}

/// The short form of a line, by the tables, after the lines that were fed to the checker. `None` exactly if the line is empty or `feed`
/// would answer a reason.
pub fn print_line(
    alloc: Global,
    tables: &Tables,
    checker: &Checker,
    line: &[u8],
) -> Result<Option<Text>, AllocError>
    ensures short { IfOk result (λ o. IfSome o (λ text. IsShortIn tables.now.opcodes (definitions checker.now) line.now text)) }
    ensures none { IfOk result (λ o. IfNone o ((line.now ≡ [])
        ⊎ ((reason : Reason) × IsWrong (AllowedReply tables.now.opcodes) (definitions checker.now) line.now reason))) }
{
    let mut out = String::new(alloc);
    if !push_line(alloc, tables, checker, line, &mut out)? {
        return Ok(None);
    }
    Ok(Some(Text::new(alloc, out.as_str())?))
}
