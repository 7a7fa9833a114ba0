use super::expect::expect;
use meta_text::{
    LineWriter, MemorySink, NeverFails, ReadOutcome, Sink, Source, WriteError, WriteOutcome,
    read_whole,
};
use meta_types::Text;
use std::test::Fail;

/// A function with a match of two arms.
const LINES: &[u8] = b"// Lines.

fn f(self) {
    match self {
        Self::Unary { opcode, args } => 1,
        _ => 0,
    }
}
";

fn write_lines<K: Sink>(sink: &mut K, fields: &[Text]) -> Result<(), WriteError> {
    let mut writer = LineWriter::new(sink);
    writer.line(b"// Lines.")?;
    writer.empty_line()?;
    writer.block(b"fn f(self)  ")?;
    writer.block(b"match self")?;
    writer.arm(b"Self::Unary", fields, b"1")?;
    writer.arm(b"_", &[], b"0")?;
    writer.end()?;
    writer.end()
}

#[test]
fn lines_stand_at_their_levels(rt: HostRuntime) -> Result<(), Fail> {
    let fields = [
        Text::new(rt.alloc(), "opcode")?,
        Text::new(rt.alloc(), "args")?,
    ];
    let none = Vec::new(rt.alloc());
    let mut sink = MemorySink::new(rt.alloc(), 200, 7, none)?;
    let written = write_lines(&mut sink, &fields);
    expect(&rt, written.is_ok() && sink.bytes() == LINES, (0, 0));
    Ok(())
}

#[test]
fn a_refused_call_keeps_the_level(rt: HostRuntime) -> Result<(), Fail> {
    let none = Vec::new(rt.alloc());
    let mut sink = MemorySink::new(rt.alloc(), 9, 7, none)?;
    let mut writer = LineWriter::new(&mut sink);
    writer.indent();
    let written = writer.block(b"loop");
    let is_kept = written == Err(WriteError::WriteFault) && writer.level() == 1;
    expect(
        &rt,
        is_kept && sink.bytes() == b"    loop ".as_slice(),
        (1, 9),
    );
    Ok(())
}

#[test]
fn what_never_fails(rt: HostRuntime) -> Result<(), Fail> {
    let mut both = NeverFails::new(b"accept".to_vec(rt.alloc())?);
    let mut buffer = *b"....";
    let is_got = both.read(&mut buffer) == ReadOutcome::Got(4) && buffer == *b"acce";
    let is_taken = both.write(b"refuse\n") == WriteOutcome::Wrote(7);
    let is_left = match read_whole(rt.alloc(), &mut both) {
        Ok(bytes) => bytes.as_slice() == b"pt".as_slice(),
        Err(_) => false,
    };
    let is_at_end = both.read(&mut buffer) == ReadOutcome::End;
    expect(&rt, is_got && is_taken && is_left && is_at_end, (4, 7));
    Ok(())
}
