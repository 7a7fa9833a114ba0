ghost use Rattle.std.specs.Prelude.{◌≡◌, ◌++◌, ◌≤◌, OnOk, IfOk, IsErrOf, string_bytes};
ghost use Rattle.meta_text.specs.Outside.{Rose, with_more, TookPart};
ghost use Rattle.meta_flags.specs.Served.{served_in};
ghost use Rattle.meta_flags.specs.Held.{value_of};
ghost use Rattle.meta_flags.specs.Toml.{toml_line, toml_text};

use super::flag_value::FlagValue;
use super::held::Flags;
use meta_text::{Sink, WriteError, write_whole};
use meta_types::Text;
use std::alloc::{AllocError, Global};

pub(crate) fn push_line(
    out: &mut String,
    name: &Text,
    value: FlagValue<'_>,
) -> Result<(), AllocError>
    ensures { OnOk result (string_bytes out.new ≡ string_bytes out.old ++ toml_line name.now (value_of value.entry)) }
{
    let name = name.as_str();
    match value {
        FlagValue::Bool(truth) => write!(out, "{name} = {truth}\n"),
        FlagValue::Num(number) => write!(out, "{name} = {number}\n"),
        FlagValue::Enum(text) => {
            let text = text.as_str();
            write!(out, "{name} = \"{text}\"\n")
        }
    }
}

impl<'t> Flags<'t> {
    /// All values as text: `[GROUP]`, and for each setting, in order of the entries, a line `NAME = true`, `NAME = 12` or `NAME = "speed"`.
    pub fn toml(&self, alloc: Global) -> Result<String, AllocError>
        ensures { IfOk result (λ text. string_bytes text ≡ toml_text (served_in self.now.group) self.now.state) }
    {
        let mut out = String::new(alloc);
        self.push_toml(&mut out)?;
        Ok(out)
    }

    /// Writes all values to the sink, as the text of `toml`.
    ///
    /// `OutOfMemory` comes before anything is written. `WriteFault` comes only where a write failed; the sink has then taken a front of the
    /// text.
    pub fn write_toml<K: Sink>(&self, alloc: Global, sink: &mut K) -> Result<(), WriteError>
        ensures ok { OnOk result (K.taken sink.new ≡ with_more (K.taken sink.old) (toml_text (served_in self.now.group) self.now.state)) }
        ensures in_part { IsErrOf result WriteError.WriteFault
            → TookPart (toml_text (served_in self.now.group) self.now.state) (K.taken sink.old) (K.taken sink.new) }
        ensures memory { IsErrOf result WriteError.OutOfMemory → sink.new ≡ sink.old }
        ensures fault { IsErrOf result WriteError.WriteFault → Rose (K.faults sink.old) (K.faults sink.new) }
        ensures counted { K.faults sink.old ≤ K.faults sink.new }
    {
        match self.toml(alloc) {
            Ok(text) => write_whole(sink, text.as_bytes()),
            Err(_) => Err(WriteError::OutOfMemory),
        }
    }
}
