ghost use Rattle.std.specs.Prelude.{◌≡◌, ◌<◌, ◌≢◌, ℕ, List, All, true, false, IfOk, IfSome, IfNone, Some, Option};
ghost use Rattle.std.specs.Option.{option_map};
ghost use Rattle.std.specs.List.{position};
ghost use Rattle.meta_lists.specs.First.{IsFirst};
ghost use Rattle.meta_types.specs.TypeParts.{number_of};
ghost use Rattle.meta_inst.specs.Tables.{OpcodeNumbers, at_opcode};
ghost use Rattle.meta_gen.specs.Constraint.{number_constraint_of, entry_of};
ghost use Rattle.meta_gen.specs.Contents.{IsOpcodeNamed};
ghost use Rattle.meta_gen.specs.Reply.{AllowedReply};
ghost use Rattle.meta_verify.specs.Statement as spec;
ghost use Rattle.meta_verify.specs.Defined.{definitions};
ghost use Rattle.meta_verify.specs.Wrong.{IsRight};
ghost use Rattle.meta_asm.specs.Short.{Manner as spec_Manner, short_application};
ghost use Rattle.meta_asm.specs.Manners.{manner_of, is_control, IsMannerIn};
ghost use Rattle.meta_asm.specs.Reading.{IsShortIn, ReadsIn};
ghost use Rattle.meta_asm.specs.Parts.{HasShortParts};
ghost use Rattle.meta_asm.specs.Read.{IsReadBy};
ghost use Rattle.meta_asm.specs.Written.{HasWritten};

use super::manner::{Manner, is_control, value_constraints};
use super::parts::{ShortParts, parts_of};
use super::print::print_line;
use super::results::results_word;
use super::words::{Words, control_word, line_of, values_word};
use super::written::{Written, written_of};
use meta_gen::{Constraint, OpcodeConstraints, Tables};
use meta_types::Text;
use meta_verify::Checker;
use std::alloc::{AllocError, Global};
use std::str;

/// An opcode that a text names: its entry, and whether its control is left out if it stands alone.
#[derive(Clone, Copy)]
struct Named {
    opcode: u16,
    entry: OpcodeConstraints,
    leaves_out: bool,
}

fn find_named(tables: &Tables, name: &[u8]) -> Option<Named>
    ensures first { IfSome result (λ n. IsFirst (IsOpcodeNamed tables.now.opcodes.names name.now) n.opcode) }
    ensures entry { IfSome result (λ n. at_opcode tables.now.opcodes.entries n.opcode ≡ Some (entry_of n.entry)) }
    ensures manner { IfSome result (λ n. n.leaves_out ≡ (manner_of tables.now.opcodes (entry_of n.entry)).leaves_out) }
    ensures none { IfNone result ((op : ℕ) (entry : OpcodeNumbers)
        → at_opcode tables.now.opcodes.names op ≡ Some name.now → at_opcode tables.now.opcodes.entries op ≢ Some entry) }
{
    let opcode = tables.find_opcode(name)?;
    let entry = tables.constraints(opcode)?;
    let manner = Manner::of(tables, opcode)?;
    Some(Named {
        opcode,
        entry,
        leaves_out: manner.leaves_out,
    })
}

/// The place of the first value that has the controlling type, by the constraints of the values.
fn control_place(constraints: &[Constraint]) -> Option<usize>
    ensures { result ≡ position (λ c. is_control (number_constraint_of c)) constraints.now }
{
    constraints.iter().position(|c| is_control(*c))
}

/// The number of the controlling type: as it is written, or else that of the value that has it.
fn control_of(tables: &Tables, checker: &Checker, named: Named, written: &Written) -> Option<u16>
    ensures { (m : spec_Manner) (a : spec.Application)
        → IsReadBy tables.now.opcodes (definitions checker.now) named.opcode (entry_of named.entry) m a
        → named.leaves_out ≡ m.leaves_out → HasWritten m a written.now → result ≡ option_map number_of a.control }
{
    if written.control.is_some() {
        return written.control;
    }
    if !named.leaves_out {
        return None;
    }
    let place = control_place(value_constraints(tables, named.entry))?;
    let value = written.values.get(place)?;
    checker.type_of(*value)
}

/// The line of the application that the parts write, with its types, if they are those of an application that is right.
fn line_with_types(
    alloc: Global,
    tables: &Tables,
    checker: &Checker,
    named: Named,
    parts: ShortParts<'_>,
) -> Result<Option<Vec<u8>>, AllocError>
    ensures { IfOk result (λ o. (line : List ℕ) (m : spec_Manner) (a : spec.Application)
        → spec.IsStatement line (spec.OfApplication a)
        → IsReadBy tables.now.opcodes (definitions checker.now) named.opcode (entry_of named.entry) m a
        → named.leaves_out ≡ m.leaves_out → HasShortParts m a parts.entry → option_map (λ l. l.items) o ≡ Some line) }
{
    let values = values_word(alloc, parts.values)?;
    let Some(written) = written_of(alloc, parts, &values)? else {
        return Ok(None);
    };
    let control = control_of(tables, checker, named, &written);
    let mut numbers = [0; 7];
    let Some(count) = tables.infer_results2(named.opcode, control, written.second, &mut numbers)
    else {
        return Ok(None);
    };
    let Some(results) = results_word(alloc, parts.results, &numbers[..count])? else {
        return Ok(None);
    };
    let control = control_word(alloc, parts.control, control)?;
    let words = Words {
        name: parts.name,
        control: &control,
        results: &results,
        values: &values,
    };
    Ok(Some(line_of(alloc, words)?))
}

/// The line of the application whose short form the text is, if there is one.
fn spelled_out(
    alloc: Global,
    tables: &Tables,
    checker: &Checker,
    text: &[u8],
) -> Result<Option<Vec<u8>>, AllocError>
    ensures { IfOk result (λ o. (line : List ℕ) (m : spec_Manner) (a : spec.Application)
        → IsRight (AllowedReply tables.now.opcodes) (definitions checker.now) line (spec.OfApplication a)
        → IsMannerIn tables.now.opcodes a.name m → text.now ≡ short_application m a → option_map (λ l. l.items) o ≡ Some line) }
{
    let _opcodes = tables.opcode_count();
    let parts = parts_of(text);
    match find_named(tables, parts.name) {
        Some(named) => line_with_types(alloc, tables, checker, named, parts),
        None => Ok(None),
    }
}

fn is_short_form(
    alloc: Global,
    tables: &Tables,
    checker: &Checker,
    line: &[u8],
    text: &[u8],
) -> Result<bool, AllocError>
    ensures short { IfOk result (λ is. is ≡ true → IsShortIn tables.now.opcodes (definitions checker.now) line.now text.now) }
    ensures other { IfOk result (λ is. is ≡ false → ¬ IsShortIn tables.now.opcodes (definitions checker.now) line.now text.now) }
{
    match print_line(alloc, tables, checker, line)? {
        Some(short) => Ok(short.as_bytes() == text),
        None => Ok(false),
    }
}

fn text_of(alloc: Global, line: &[u8]) -> Result<Option<Text>, AllocError>
    ensures some { IfOk result (λ o. IfSome o (λ t. t ≡ line.now)) }
    ensures none { IfOk result (λ o. IfNone o (¬ All (λ b. b < 128) line.now)) }
{
    match str::from_utf8(line) {
        Ok(line) => Ok(Some(Text::new(alloc, line)?)),
        Err(_) => Ok(None),
    }
}

/// The line that the text reads as, by the tables, after the lines of the checker. It is `None` exactly if the text reads as no line. At
/// most one line has this short form. The cost is the length of the text, and a look-up for each value.
pub fn read_line(
    alloc: Global,
    tables: &Tables,
    checker: &Checker,
    text: &[u8],
) -> Result<Option<Text>, AllocError>
    ensures line { IfOk result (λ o. IfSome o (λ line. ReadsIn tables.now.opcodes (definitions checker.now) text.now line)) }
    ensures none { IfOk result (λ o. IfNone o ((line : List ℕ) → ¬ ReadsIn tables.now.opcodes (definitions checker.now) text.now line)) }
{
    let _opcodes = tables.opcode_count();
    if is_short_form(alloc, tables, checker, text, text)? {
        return text_of(alloc, text);
    }
    let Some(line) = spelled_out(alloc, tables, checker, text)? else {
        return Ok(None);
    };
    if !is_short_form(alloc, tables, checker, &line, text)? {
        return Ok(None);
    }
    text_of(alloc, &line)
}
