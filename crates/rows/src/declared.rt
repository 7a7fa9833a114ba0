use super::asking::PATH;
use super::calls::{write_calls, write_explained, write_fed};
use super::describing::ask_description;
use super::each::write_readings;
use meta_audit::audit;
use meta_build::Declarations;
use meta_file_declare::declare;
use meta_file_reader::read_items;
use meta_gen::{Tables, generate};
use meta_program::{LoadError, load};
use rows_base::{Answer, Case, Outside, Trouble};
use rows_tables::write_written;
use std::alloc::Global;

#[derive(Clone, Copy)]
pub(crate) enum Declared<'d> {
    Made(&'d Declarations),
    /// The declarations of a file: how the file behaves, and its text.
    File(Outside, &'d [u8]),
}

pub(crate) fn loaded(alloc: Global, text: &[u8]) -> Result<Declarations, Trouble> {
    match load(alloc, PATH, text) {
        Ok(declarations) => Ok(declarations),
        Err(LoadError::Memory) => Err(Trouble::OutOfMemory),
        Err(LoadError::Refused(_)) => Err(Trouble::NoCase),
    }
}

pub(crate) fn declared_by(alloc: Global, text: &[u8]) -> Result<Declarations, Trouble> {
    let Ok(read) = read_items(alloc, text) else {
        return Err(Trouble::NoCase);
    };
    match declare(alloc, &read.items) {
        Ok(declarations) => Ok(declarations),
        Err(_) => Err(Trouble::NoCase),
    }
}

/// Writes what the auditor says of the tables of declarations, which it is asked several times.
fn write_audited(alloc: Global, declarations: &Declarations, case: &mut Case<'_>) -> Answer {
    let tables = generate(alloc, declarations)?;
    let times: u32 = case.number();
    for time in 1..=times {
        let verdict = audit(alloc, declarations, &tables)?;
        if time == times {
            case.debugged(&verdict);
        }
    }
    Ok(())
}

/// Writes how many opcodes the tables of declarations have, which are made several times.
fn write_generated(alloc: Global, declarations: &Declarations, case: &mut Case<'_>) -> Answer {
    let mut count = 0;
    for _ in 0..case.number::<u32>() {
        count = generate(alloc, declarations)?.opcode_count();
    }
    case.shown(&count);
    case.text(" opcodes");
    Ok(())
}

fn ask_tables(
    alloc: Global,
    outside: Outside,
    tables: &Tables,
    input: &[u8],
    word: &str,
    case: &mut Case<'_>,
) -> Answer {
    match word {
        "reread" => write_readings(alloc, tables, input, case),
        "calls" => write_calls(alloc, outside, tables, input, case),
        "fed" | "shortened" => write_fed(alloc, tables, input, word, case),
        "explained" => write_explained(alloc, tables, input, case),
        _ => rows_tables::ask_tables(alloc, tables, word, case),
    }
}

/// Writes what a word asks of declarations, of their texts or of their tables.
pub(crate) fn ask_declared(
    alloc: Global,
    outside: Outside,
    declarations: &Declarations,
    input: &[u8],
    word: &str,
    case: &mut Case<'_>,
) -> Answer {
    match word {
        "audited" => write_audited(alloc, declarations, case),
        "generated" => write_generated(alloc, declarations, case),
        "written" => write_written(alloc, outside, declarations, case),
        "described" | "describable" | "describes" => {
            ask_description(alloc, declarations, input, word, case)
        }
        _ => {
            let tables = generate(alloc, declarations)?;
            ask_tables(alloc, outside, &tables, input, word, case)
        }
    }
}
