ghost use Rattle.std.specs.Prelude.{◌≡◌, IfOk, IfSome, IfNone, IsErrOf, string_bytes};
ghost use Rattle.meta_gen.specs.Parts.{HasParts};
ghost use Rattle.meta_gen.specs.WholeTables.{WholeTables};
ghost use Rattle.meta_table_text.specs.Fits.{Fits};
ghost use Rattle.meta_table_text.specs.TableText.{table_text};
ghost use Rattle.meta_table_reader.specs.Readable.{AreShown, IsReadIn, Reads, refused_line};
ghost use Rattle.meta_table_reader.specs.declared.reading.TextError.TheVariants.{OutOfMemory};

use super::cursor::Cursor;
use super::groups::groups;
use super::opcode_parts::{opcode_parts, version_of};
use meta_gen::{TableParts, Tables, one_table_has_all_parts, tables_from_parts};
use meta_table_text::{Version, fits, table_text};
use std::alloc::{AllocError, Global};
use thiserror::Error;

/// Why a text isn't read as tables.
#[derive(Clone, Copy, Debug, Drop, PartialEq, Eq, Error)]
pub enum TextError {
    /// The text isn't that of well-formed tables, in any version that they fit.
    #[error("Refused")]
    Refused,
    /// Memory ran out.
    #[error("OutOfMemory")]
    OutOfMemory,
}

/// The parts of tables that the text seems to have. If it is the text of tables in this version, these are their parts; else they say
/// nothing.
fn table_parts(alloc: Global, text: &[u8], version: Version) -> Result<TableParts, AllocError>
    ensures { IfOk result (λ parts. (t : WholeTables) → AreShown version t → text.now ≡ table_text version t → HasParts parts t) }
{
    let mut cursor = Cursor::new(text);
    let opcodes = opcode_parts(alloc, &mut cursor, version)?;
    let groups = groups(alloc, &mut cursor)?;
    Ok(TableParts {
        names: opcodes.names.names,
        formats: opcodes.names.formats,
        type_sets: opcodes.type_sets,
        operand_constraints: opcodes.operand_constraints,
        constraints: opcodes.constraints,
        groups,
    })
}

/// The tables, if they fit the version and the text is theirs in it.
fn accepted(
    alloc: Global,
    version: Version,
    text: &[u8],
    tables: Tables,
) -> Result<Option<Tables>, AllocError>
    ensures some { IfOk result (λ o. IfSome o (λ t. (t ≡ tables) × Fits version tables × (text.now ≡ table_text version tables))) }
    ensures none { IfOk result (λ o. IfNone o (Fits version tables → text.now ≡ table_text version tables → ⊥)) }
{
    if !fits(version, &tables) {
        return Ok(None);
    }
    let written = table_text(alloc, version, &tables)?;
    let is_text = written.as_bytes() == text;
    if !is_text {
        return Ok(None);
    }
    Ok(Some(tables))
}

/// The tables that the text reads as in this version, which its first line names. `None` if it isn't the text of tables.
fn read_in(alloc: Global, version: Version, text: &[u8]) -> Result<Option<Tables>, AllocError>
    ensures some { IfOk result (λ o. IfSome o (IsReadIn version text.now)) }
    ensures none { IfOk result (λ o. IfNone o ((t : WholeTables) → ¬ IsReadIn version text.now t)) }
{
    one_table_has_all_parts();
    let parts = table_parts(alloc, text, version)?;
    match tables_from_parts(alloc, parts)? {
        Some(tables) => accepted(alloc, version, text, tables),
        None => Ok(None),
    }
}

/// The tables that the text reads as. `None` exactly if it isn't the text of tables.
fn read(alloc: Global, text: &[u8]) -> Result<Option<Tables>, AllocError>
    ensures some { IfOk result (λ o. IfSome o (Reads text.now)) }
    ensures none { IfOk result (λ o. IfNone o ((t : WholeTables) → ¬ Reads text.now t)) }
{
    let cursor = Cursor::new(text);
    let version = version_of(&cursor);
    read_in(alloc, version, text)
}

/// Reads the text of tables, in any version that they fit.
///
/// The error is `Refused` exactly if the text isn't that of tables; no line is named. The cost is one pass over the text, and what it takes
/// to make the tables and their text again, which is compared. The memory is in proportion to the text.
pub fn read_tables(alloc: Global, text: &[u8]) -> Result<Tables, TextError>
    ensures found { IfOk result (λ t. Reads text.now t) }
    ensures refused { IsErrOf result TextError.Refused → (t : WholeTables) → ¬ Reads text.now t }
{
    match read(alloc, text) {
        Ok(Some(tables)) => Ok(tables),
        Ok(None) => Err(TextError::Refused),
        Err(_) => Err(TextError::OutOfMemory),
    }
}

/// The line that programs write if a text isn't that of tables: `refused`.
pub fn refused(alloc: Global) -> Result<String, AllocError>
    ensures line { IfOk result (λ out. string_bytes out ≡ refused_line) }
{
    String::from_str(alloc, "refused\n")
}
