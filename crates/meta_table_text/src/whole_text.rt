ghost use Rattle.std.specs.Prelude.{◌≡◌, ◌≤◌, OnOk, IfOk, IsErrOf, string_bytes};
ghost use Rattle.meta_text.specs.Outside.{Rose, with_more, TookPart};
ghost use Rattle.meta_table_text.specs.declared.version.Version.TheVariants.{Three};
ghost use Rattle.meta_table_text.specs.TableText.{table_text};

use super::group_text::push_group;
use super::opcode_lists::push_opcodes;
use super::version::Version;
use meta_gen::Tables;
use meta_text::{Sink, WriteError, write_whole};
use std::alloc::{AllocError, Global};

/// The text of tables in a version. It takes the place of what the crate's `gen_inst.rs` and `gen_settings.rs` write of tables. Tables that
/// don't fit the version have a text too, but other tables can have the same one.
///
/// The text is made in one pass over the tables.
#[tactic(auto, unfolding(crate::specs::TableText::table_text))]
pub fn table_text(alloc: Global, version: Version, tables: &Tables) -> Result<String, AllocError>
    ensures { IfOk result (λ text. string_bytes text ≡ table_text version tables.now) }
{
    let mut out = String::new(alloc);
    push_opcodes(alloc, &mut out, version, tables)?;
    for group in 0..tables.group_count() {
        push_group(alloc, &mut out, tables, group)?;
    }
    Ok(out)
}

/// Writes the text of the tables, in version 3, to the sink.
///
/// `OutOfMemory` comes before anything is written. `WriteFault` comes only if a write failed; the sink then took the beginning of the text,
/// and not all of it.
pub fn write_tables<K: Sink>(alloc: Global, tables: &Tables, sink: &mut K) -> Result<(), WriteError>
    ensures ok { OnOk result (K.taken sink.new ≡ with_more (K.taken sink.old) (table_text Three tables.now)) }
    ensures in_part { IsErrOf result WriteError.WriteFault → TookPart (table_text Three tables.now) (K.taken sink.old) (K.taken sink.new) }
    ensures memory { IsErrOf result WriteError.OutOfMemory → sink.new ≡ sink.old }
    ensures fault { IsErrOf result WriteError.WriteFault → Rose (K.faults sink.old) (K.faults sink.new) }
    ensures counted { K.faults sink.old ≤ K.faults sink.new }
{
    match table_text(alloc, Version::Three, tables) {
        Ok(text) => write_whole(sink, text.as_bytes()),
        Err(_) => Err(WriteError::OutOfMemory),
    }
}
