ghost use Rattle.std.specs.Prelude.{◌≡◌, ℕ, ◌+◌, ◌-◌, ◌^◌, ◌<◌, ◌++◌, [], ◌∷◌, OnOk, OnErr};
ghost use Rattle.std.specs.List.{flat_map};
ghost use Rattle.meta_text.specs.Lines.{indented, text_of, empty_line};
ghost use Rattle.meta_text.specs.Writes.{Writes};
ghost use Rattle.meta_text.specs.LineWriter.{sink_of, sink_name, level_of, without_blanks, after_comma, arm_mark, line_text, block_text};
ghost use Rattle.meta_text.specs.LineWriter.{end_text, arm_text};

use crate::outside::Sink;
use crate::whole::{WriteError, write_whole};
use meta_types::Text;

/// Writes lines to a sink, each at its level: four spaces a level. It stands in place of `Formatter` of the crate `cranelift_srcgen`.
///
/// The calls take no memory. Their only error is `WriteFault`, which comes only where a write failed. The sink has then taken a front of
/// the text, and the level is as before.
#[derive(Drop)]
pub struct LineWriter<'a, K> {
    sink: &'a mut K,
    level: u32,
}

impl<'a, K: Sink> LineWriter<'a, K> {
    /// Makes a writer at level 0, which has written nothing yet.
    pub fn new(sink: &'a mut K) -> LineWriter<'a, K>
        ensures sink { sink_of result ≡ sink.old }
        ensures same_sink { sink_name result ≡ sink.entry.ghost_name }
        ensures level { level_of result ≡ 0 }
    {
        LineWriter { sink, level: 0 }
    }

    /// The level of the next line.
    pub fn level(&self) -> u32
        ensures { result ≡ level_of self.now }
    {
        self.level
    }

    /// Puts the next lines one level further in.
    pub fn indent(&mut self)
        requires { level_of self.old < 2 ^ 32 - 1 }
        ensures level { level_of self.new ≡ level_of self.old + 1 }
        ensures sink { sink_of self.new ≡ sink_of self.old }
        ensures same_sink { sink_name self.new ≡ sink_name self.old }
    {
        self.level += 1;
    }

    /// Puts the next lines one level further out.
    pub fn outdent(&mut self)
        requires { 0 < level_of self.old }
        ensures level { level_of self.new + 1 ≡ level_of self.old }
        ensures sink { sink_of self.new ≡ sink_of self.old }
        ensures same_sink { sink_name self.new ≡ sink_name self.old }
    {
        self.level -= 1;
    }

    /// Writes a line at the current level.
    pub fn line(&mut self, text: &[u8]) -> Result<(), WriteError>
        ensures writes { Writes K.taken K.faults (line_text (level_of self.old) text.now) result (sink_of self.old) (sink_of self.new) }
        ensures level { level_of self.new ≡ level_of self.old }
        ensures same_sink { sink_name self.new ≡ sink_name self.old }
    {
        put_line(self.sink, self.level, text, b"\n")
    }

    /// Writes a line with nothing on it, not even spaces.
    pub fn empty_line(&mut self) -> Result<(), WriteError>
        ensures writes { Writes K.taken K.faults (text_of (empty_line ∷ [])) result (sink_of self.old) (sink_of self.new) }
        ensures level { level_of self.new ≡ level_of self.old }
        ensures same_sink { sink_name self.new ≡ sink_name self.old }
    {
        put(self.sink, b"\n")
    }

    /// Begins a block with the line `HEAD {`, without the blanks at the end of the head. The lines of the block are one level further in.
    pub fn block(&mut self, head: &[u8]) -> Result<(), WriteError>
        requires { level_of self.old < 2 ^ 32 - 1 }
        ensures writes { Writes K.taken K.faults (block_text (level_of self.old) head.now) result (sink_of self.old) (sink_of self.new) }
        ensures level { OnOk result (level_of self.new ≡ level_of self.old + 1) }
        ensures level_kept { OnErr result (level_of self.new ≡ level_of self.old) }
        ensures same_sink { sink_name self.new ≡ sink_name self.old }
    {
        let written = put_line(self.sink, self.level, without_blanks(head), b" {\n");
        if written.is_ok() {
            self.level += 1;
        }
        written
    }

    /// Ends a block with the line `}`, one level further out. The next lines are at that level too.
    pub fn end(&mut self) -> Result<(), WriteError>
        requires { 0 < level_of self.old }
        ensures writes { Writes K.taken K.faults (end_text (level_of self.old - 1)) result (sink_of self.old) (sink_of self.new) }
        ensures level { OnOk result (level_of self.new + 1 ≡ level_of self.old) }
        ensures level_kept { OnErr result (level_of self.new ≡ level_of self.old) }
        ensures same_sink { sink_name self.new ≡ sink_name self.old }
    {
        let written = put_line(self.sink, self.level - 1, b"}", b"\n");
        if written.is_ok() {
            self.level -= 1;
        }
        written
    }

    /// Writes an arm of a match on one line: `NAME { F, G } => BODY,`, or `NAME => BODY,` if there are no fields.
    pub fn arm(&mut self, name: &[u8], fields: &[Text], body: &[u8]) -> Result<(), WriteError>
        ensures writes { Writes K.taken K.faults (arm_text (level_of self.old) name.now fields.now body.now) result
            (sink_of self.old) (sink_of self.new) }
        ensures level { level_of self.new ≡ level_of self.old }
        ensures same_sink { sink_name self.new ≡ sink_name self.old }
    {
        put_arm(self.sink, self.level, name, fields, body)
    }
}

/// The bytes without the blanks at their end.
fn without_blanks(bytes: &[u8]) -> &[u8]
    ensures { result.now ≡ without_blanks bytes.now }
{
    let mut end = bytes.len();
    while end > 0 {
        if bytes[end - 1] != b' ' {
            return bytes.split_at(end).0;
        }
        end -= 1;
    }
    &[]
}

fn put<K: Sink>(sink: &mut K, bytes: &[u8]) -> Result<(), WriteError>
    ensures { Writes K.taken K.faults bytes.now result sink.old sink.new }
{
    write_whole(sink, bytes)
}

fn put_both<K: Sink>(sink: &mut K, front: &[u8], back: &[u8]) -> Result<(), WriteError>
    ensures { Writes K.taken K.faults (front.now ++ back.now) result sink.old sink.new }
{
    put(sink, front)?;
    put(sink, back)
}

fn put_level<K: Sink>(sink: &mut K, level: u32) -> Result<(), WriteError>
    ensures { Writes K.taken K.faults (indented level []) result sink.old sink.new }
{
    let mut left = level;
    while left > 0 {
        put(sink, b"    ")?;
        left -= 1;
    }
    Ok(())
}

fn put_line<K: Sink>(sink: &mut K, level: u32, text: &[u8], end: &[u8]) -> Result<(), WriteError>
    ensures { Writes K.taken K.faults (indented level (text.now ++ end.now)) result sink.old sink.new }
{
    put_level(sink, level)?;
    put_both(sink, text, end)
}

/// Writes each field after a comma.
fn put_fields<K: Sink>(sink: &mut K, fields: &[Text]) -> Result<(), WriteError>
    ensures { Writes K.taken K.faults (flat_map after_comma fields.now) result sink.old sink.new }
{
    for field in fields {
        put_both(sink, b", ", field.as_bytes())?;
    }
    Ok(())
}

/// Writes what stands on the line of an arm before its body.
fn put_arm_head<K: Sink>(
    sink: &mut K,
    level: u32,
    name: &[u8],
    fields: &[Text],
) -> Result<(), WriteError>
    ensures { Writes K.taken K.faults (indented level (name.now ++ arm_mark fields.now)) result sink.old sink.new }
{
    match fields {
        [] => put_line(sink, level, name, b" => "),
        [first, others @ ..] => {
            put_line(sink, level, name, b" { ")?;
            put(sink, first.as_bytes())?;
            put_fields(sink, others)?;
            put(sink, b" } => ")
        }
    }
}

fn put_arm<K: Sink>(
    sink: &mut K,
    level: u32,
    name: &[u8],
    fields: &[Text],
    body: &[u8],
) -> Result<(), WriteError>
    ensures { Writes K.taken K.faults (arm_text level name.now fields.now body.now) result sink.old sink.new }
{
    put_arm_head(sink, level, name, fields)?;
    put_both(sink, body, b",\n")
}
