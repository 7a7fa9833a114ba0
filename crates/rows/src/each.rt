use super::asking::{PATH, sum_of};
use meta_file_syntax::Bytes;
use meta_gen::Tables;
use meta_program::{LoadError, load};
use meta_table_reader::{TextError, read_tables};
use rows_base::{Answer, Case, Trouble, number};
use std::alloc::{AllocError, Global};
use std::str;

/// Which texts are made of one: its fronts that end with a line; all its fronts, with the whole text; or the text with one byte changed by
/// these bits.
#[derive(Clone, Copy)]
pub(crate) enum Each {
    Line,
    Front,
    Change(u8),
}

pub(crate) trait Counting {
    fn count(&mut self, alloc: Global, text: &[u8]) -> Answer;
}

fn ends_line(front: &[u8]) -> bool {
    front.is_empty() || front.ends_with(b"\n")
}

/// The text, in which the byte between the two parts is changed.
fn changed(alloc: Global, front: &[u8], rest: &[u8], bits: u8) -> Result<Vec<u8>, AllocError> {
    let mut text = front.to_vec(alloc)?;
    if let [byte, after @ ..] = rest {
        text.push(*byte ^ bits)?;
        text.extend_from_slice(after)?;
    }
    Ok(text)
}

/// Counts each such text that is made of one, at the places from the first up to the last, which is left out.
fn count_each<C: Counting>(
    alloc: Global,
    text: &[u8],
    each: Each,
    (first, last): (usize, usize),
    counting: &mut C,
) -> Answer {
    for at in first..last {
        if at > text.len() {
            break;
        }
        let (front, rest) = text.split_at(at);
        match each {
            Each::Line if !ends_line(front) => {}
            Each::Change(_) if rest.is_empty() => {}
            Each::Line | Each::Front => counting.count(alloc, front)?,
            Each::Change(bits) => counting.count(alloc, &changed(alloc, front, rest, bits)?)?,
        }
    }
    Ok(())
}

/// How many texts declare something without a fault, how many are refused with a line that the text has, and how many in another way; and
/// all messages, each with a line feed.
#[derive(Drop)]
struct Loads {
    declared: u32,
    refused: u32,
    astray: u32,
    messages: Vec<u8>,
}

fn line_count(text: &[u8]) -> usize {
    let mut count: usize = 1;
    for (place, byte) in text.iter().enumerate() {
        if *byte == b'\n' && place.saturating_add(1) < text.len() {
            count = count.saturating_add(1);
        }
    }
    count
}

/// The number of the line in a message, which begins with the path.
fn line_in(message: &[u8]) -> Result<usize, Trouble> {
    let Some(after) = message.strip_prefix(PATH.as_bytes()) else {
        return Err(Trouble::NoCase);
    };
    let Ok(after) = str::from_utf8(after) else {
        return Err(Trouble::NoCase);
    };
    let Some((line, _)) = after.strip_prefix(':').unwrap_or("").split_once(": ") else {
        return Err(Trouble::NoCase);
    };
    number(line)
}

fn is_within(message: &[u8], text: &[u8]) -> bool {
    match line_in(message) {
        Ok(line) => line > 0 && line <= line_count(text),
        Err(_) => false,
    }
}

impl Loads {
    fn count_message(&mut self, message: &[u8], text: &[u8]) -> Result<(), AllocError> {
        self.messages.extend_from_slice(message)?;
        self.messages.push(b'\n')?;
        if is_within(message, text) {
            self.refused = self.refused.saturating_add(1);
        } else {
            self.astray = self.astray.saturating_add(1);
        }
        Ok(())
    }
}

/// Why the text is refused, or none if it declares something without a fault.
fn refusal(alloc: Global, text: &[u8]) -> Result<Option<Bytes>, Trouble> {
    match load(alloc, PATH, text) {
        Ok(_) => Ok(None),
        Err(LoadError::Refused(message)) => Ok(Some(message)),
        Err(LoadError::Memory) => Err(Trouble::OutOfMemory),
    }
}

impl Counting for Loads {
    fn count(&mut self, alloc: Global, text: &[u8]) -> Answer {
        match refusal(alloc, text)? {
            None => self.declared = self.declared.saturating_add(1),
            Some(message) => self.count_message(message.as_slice(), text)?,
        }
        Ok(())
    }
}

pub(crate) fn write_loads(alloc: Global, text: &[u8], each: Each, case: &mut Case<'_>) -> Answer {
    let mut loads = Loads {
        declared: 0,
        refused: 0,
        astray: 0,
        messages: Vec::new(alloc),
    };
    let places = (0, text.len().saturating_add(1));
    count_each(alloc, text, each, places, &mut loads)?;
    case.shown(&loads.declared);
    case.field(" declared, ", &loads.refused);
    case.field(" refused, ", &loads.astray);
    case.text(" astray, ");
    case.text(sum_of(alloc, &loads.messages)?.as_str());
    Ok(())
}

/// How many texts read as no tables, as other tables than these, and as these.
#[derive(Drop)]
struct Readings<'t> {
    tables: &'t Tables,
    refused: u32,
    different: u32,
    same: u32,
}

impl Counting for Readings<'_> {
    fn count(&mut self, alloc: Global, text: &[u8]) -> Answer {
        match read_tables(alloc, text) {
            Ok(read) if read.same(self.tables) => self.same = self.same.saturating_add(1),
            Ok(_) => self.different = self.different.saturating_add(1),
            Err(TextError::Refused) => self.refused = self.refused.saturating_add(1),
            Err(TextError::OutOfMemory) => return Err(Trouble::OutOfMemory),
        }
        Ok(())
    }
}

/// Reads the texts that are made of one, and writes how many read as what. The next words say which texts: `lines`, `fronts` or `changes`,
/// and the places. A change is one of the last bit.
pub(crate) fn write_readings(
    alloc: Global,
    tables: &Tables,
    text: &[u8],
    case: &mut Case<'_>,
) -> Answer {
    let each = match case.word() {
        "lines" => Each::Line,
        "fronts" => Each::Front,
        "changes" => Each::Change(1),
        _ => return Err(Trouble::BadLine),
    };
    let places = (case.number(), case.number());
    let mut readings = Readings {
        tables,
        refused: 0,
        different: 0,
        same: 0,
    };
    count_each(alloc, text, each, places, &mut readings)?;
    case.shown(&readings.refused);
    case.field(" refused, ", &readings.different);
    case.field(" different, ", &readings.same);
    case.text(" same");
    Ok(())
}
