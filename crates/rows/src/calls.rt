use meta_asm::print_line;
use meta_flags::{FlagError, FlagValue, Flags};
use meta_gen::Tables;
use meta_query_lines::push_explained;
use meta_table_reader::{TextError, read_tables};
use meta_table_text::{Version, table_text};
use meta_verify::Checker;
use rows_base::{Answer, Case, Outside, Trouble, number, write_bytes};
use std::alloc::Global;
use std::str;

fn lines_of(input: &[u8]) -> Result<&str, Trouble> {
    match str::from_utf8(input) {
        Ok(text) => Ok(text.strip_suffix('\n').unwrap_or(text)),
        Err(_) => Err(Trouble::NoCase),
    }
}

fn write_change(case: &mut Case<'_>, outcome: Result<(), FlagError>) {
    match outcome {
        Ok(()) => case.text("Ok"),
        Err(error) => case.debugged(&error),
    }
}

fn write_value(case: &mut Case<'_>, outcome: Result<FlagValue<'_>, FlagError>) {
    match outcome {
        Ok(FlagValue::Bool(truth)) => case.field("Bool ", &truth),
        Ok(FlagValue::Num(number)) => case.field("Num ", &number),
        Ok(FlagValue::Enum(text)) => case.field("Enum ", &text.as_str()),
        Err(error) => case.debugged(&error),
    }
}

fn write_toml(alloc: Global, outside: Outside, flags: &Flags<'_>, case: &mut Case<'_>) -> Answer {
    let mut sink = outside.sink(alloc)?;
    match flags.write_toml(alloc, &mut sink) {
        Ok(()) => case.text("Ok"),
        Err(error) => case.debugged(&error),
    }
    let taken = lines_of(sink.bytes())?;
    if !taken.is_empty() {
        case.field("\n", &taken);
    }
    Ok(())
}

fn write_call(
    alloc: Global,
    outside: Outside,
    flags: &mut Flags<'_>,
    line: &str,
    case: &mut Case<'_>,
) -> Answer {
    let (call, after) = line.split_once(' ').unwrap_or((line, ""));
    let (name, value) = after.split_once(' ').unwrap_or((after, ""));
    match call {
        "set" => write_change(case, flags.set(name.as_bytes(), value.as_bytes())),
        "enable" => write_change(case, flags.enable(after.as_bytes())),
        "get" => write_value(case, flags.get(after.as_bytes())),
        "toml" => case.text(lines_of(flags.toml(alloc)?.as_bytes())?),
        "write" => write_toml(alloc, outside, flags, case)?,
        _ => return Err(Trouble::NoCase),
    }
    Ok(())
}

/// Writes the answers of the calls that the lines of the input name, on the values of a group of the tables, or `None` if there is no such
/// group. A call is `set NAME VALUE`, `enable NAME`, `get NAME`, `toml`, or `write`, which writes to a sink.
pub(crate) fn write_calls(
    alloc: Global,
    outside: Outside,
    tables: &Tables,
    input: &[u8],
    case: &mut Case<'_>,
) -> Answer {
    let lines = lines_of(input)?;
    match Flags::new(alloc, tables, case.number())? {
        Some(mut flags) => {
            for line in lines.split('\n') {
                case.separate('\n');
                write_call(alloc, outside, &mut flags, line, case)?;
            }
        }
        None => case.text("None"),
    }
    Ok(())
}

/// Feeds a line to a checker, and writes why it is wrong, or `-`. A line `type V` asks for the type of a value.
fn write_fed_line(
    alloc: Global,
    tables: &Tables,
    checker: &mut Checker,
    line: &str,
    case: &mut Case<'_>,
) -> Answer {
    if let Some(value) = line.strip_prefix("type ") {
        case.number_or_dash(checker.type_of(number(value)?));
        return Ok(());
    }
    match checker.feed(tables, line.as_bytes())? {
        Some(reason) => {
            let mut said = String::new(alloc);
            reason.push(&mut said)?;
            case.text(said.as_str());
        }
        None => case.letter('-'),
    }
    Ok(())
}

/// Feeds the lines of the input to a checker. `fed` writes why each is wrong, and another word, before it is fed, its short form or `none`.
pub(crate) fn write_fed(
    alloc: Global,
    tables: &Tables,
    input: &[u8],
    word: &str,
    case: &mut Case<'_>,
) -> Answer {
    let lines = lines_of(input)?;
    let mut checker = Checker::new(alloc);
    for line in lines.split('\n') {
        case.separate('\n');
        if word == "fed" {
            write_fed_line(alloc, tables, &mut checker, line, case)?;
            continue;
        }
        match print_line(alloc, tables, &checker, line.as_bytes())? {
            Some(text) => case.text(text.as_str()),
            None => case.text("none"),
        }
        let _reason = checker.feed(tables, line.as_bytes())?;
    }
    Ok(())
}

/// Reads the text of the tables, and writes what the tables that were read answer to the lines of the input. They have no names of operands,
/// and no marks.
pub(crate) fn write_explained(
    alloc: Global,
    tables: &Tables,
    input: &[u8],
    case: &mut Case<'_>,
) -> Answer {
    let text = table_text(alloc, Version::Three, tables)?;
    let read = match read_tables(alloc, text.as_bytes()) {
        Ok(read) => read,
        Err(TextError::Refused) => return Err(Trouble::NoCase),
        Err(TextError::OutOfMemory) => return Err(Trouble::OutOfMemory),
    };
    let mut answers = String::new(alloc);
    push_explained(alloc, &mut answers, &read, None, input)?;
    write_bytes(case, answers.as_bytes());
    Ok(())
}
