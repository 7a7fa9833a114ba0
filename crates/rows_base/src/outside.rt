use super::case::Case;
use super::escapes::write_bytes;
use super::trouble::Trouble;
use meta_text::{MemorySink, MemorySource};
use std::alloc::Global;

/// How the source and the sink of a run behave: the bytes that each call may give or take, the number of the call that fails, or 0, and the
/// room of the sink.
#[derive(Clone, Copy)]
pub struct Outside {
    pub source_step: usize,
    pub failing_read: u64,
    pub room: usize,
    pub sink_step: usize,
    pub failing_write: u64,
}

impl Outside {
    /// A source and a sink that never fail, with this room.
    pub fn with_room(room: usize) -> Outside {
        Outside {
            source_step: 5_000,
            failing_read: 0,
            room,
            sink_step: 5_000,
            failing_write: 0,
        }
    }

    /// Takes the words on the source: `STEP FAIL`.
    pub fn take_source(&mut self, case: &mut Case<'_>) {
        self.source_step = case.number();
        self.failing_read = case.number();
    }

    /// Takes the words on the sink: `ROOM STEP FAIL`.
    pub fn take_sink(&mut self, case: &mut Case<'_>) {
        self.room = case.number();
        self.sink_step = case.number();
        self.failing_write = case.number();
    }

    /// Makes a source of these bytes.
    pub fn source(self, alloc: Global, input: &[u8]) -> Result<MemorySource, Trouble> {
        if self.source_step == 0 {
            return Err(Trouble::NoCase);
        }
        let fails = vec![in alloc; self.failing_read]?;
        Ok(MemorySource::new(input.to_vec(alloc)?, self.source_step, fails))
    }

    /// Makes a sink.
    pub fn sink(self, alloc: Global) -> Result<MemorySink, Trouble> {
        if self.sink_step == 0 {
            return Err(Trouble::NoCase);
        }
        let fails = vec![in alloc; self.failing_write]?;
        Ok(MemorySink::new(alloc, self.room, self.sink_step, fails)?)
    }
}

/// Writes how a run ended: its status, and what its sink took, `-` if that is nothing.
pub fn write_ended(case: &mut Case<'_>, code: u8, taken: &[u8]) {
    case.shown(&code);
    case.letter(' ');
    let start = case.written();
    write_bytes(case, taken);
    case.end_list(start);
}
