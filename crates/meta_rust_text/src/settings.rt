ghost use Rattle.std.specs.Prelude.{map};
ghost use Rattle.meta_settings.specs.LaidOut.{built_of};
ghost use Rattle.meta_rust_text.specs.SettingsText.{settings_text};
ghost use Rattle.meta_rust_text.specs.Written.{WritesMade};

use super::group_texts::settings_text;
use super::written::write_made;
use meta_build::Built;
use meta_text::{Sink, WriteError};
use std::alloc::Global;

/// Writes the text of the groups of settings to the sink, as `settings_text` makes it. The crate's `gen_group` of `gen_settings.rs` writes
/// it too.
///
/// `OutOfMemory` comes before anything is written. `WriteFault` comes only where a write failed; the sink has then taken a front of the
/// text.
pub fn write_settings<K: Sink>(
    alloc: Global,
    built: &Built<'_>,
    sink: &mut K,
) -> Result<(), WriteError>
    ensures { WritesMade K.taken K.faults (settings_text (map built_of built.now.declared.groups)) result sink.old sink.new }
{
    write_made(settings_text(alloc, built.groups()), sink)
}
