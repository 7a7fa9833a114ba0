use meta_build::{Built, Declarations, build_all};
use meta_gen::tables_of;
use meta_rust_text::{
    builder_text, instructions_text, settings_text, types_text, write_builder, write_instructions,
    write_settings, write_types,
};
use meta_table_text::{Version, table_text, write_tables};
use meta_text::{MemorySink, WriteError};
use rows_base::{Answer, Case, Outside, Trouble};
use std::alloc::Global;

/// The text of a name as it is made in memory, and the answer of its writer, which writes it to a sink.
fn write(
    alloc: Global,
    name: &str,
    built: &Built<'_>,
    sink: &mut MemorySink,
) -> Result<(String, Result<(), WriteError>), Trouble> {
    Ok(match name {
        "tables" => {
            let tables = tables_of(alloc, built)?;
            let text = table_text(alloc, Version::Three, &tables)?;
            (text, write_tables(alloc, &tables, sink))
        }
        "types" => (types_text(alloc)?, write_types(alloc, sink)),
        "settings" => {
            let text = settings_text(alloc, built.groups())?;
            (text, write_settings(alloc, built, sink))
        }
        "instructions" => {
            let text = instructions_text(alloc, built)?;
            (text, write_instructions(alloc, built, sink))
        }
        "builder" => (
            builder_text(alloc, built)?,
            write_builder(alloc, built, sink),
        ),
        _ => return Err(Trouble::BadLine),
    })
}

/// Writes what the writer of a text does, by the name of the text: whether its sink took all of what is made in memory, or how many bytes
/// of its front it took before a fault.
fn write_name(alloc: Global, outside: Outside, built: &Built<'_>, case: &mut Case<'_>) -> Answer {
    let mut sink = outside.sink(alloc)?;
    let (text, answer) = write(alloc, case.word(), built, &mut sink)?;
    match answer {
        Ok(()) if sink.bytes() == text.as_bytes() => case.text("all"),
        Err(WriteError::WriteFault) if text.as_bytes().starts_with(sink.bytes()) => {
            case.field("front ", &sink.bytes().len());
        }
        Err(WriteError::OutOfMemory) => return Err(Trouble::OutOfMemory),
        _ => return Err(Trouble::Differ),
    }
    Ok(())
}

/// The same of the texts of declarations.
pub fn write_written(
    alloc: Global,
    outside: Outside,
    declarations: &Declarations,
    case: &mut Case<'_>,
) -> Answer {
    write_name(alloc, outside, &build_all(alloc, declarations)?, case)
}
