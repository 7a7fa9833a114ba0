use super::case::Case;
use super::lookups::items_of;
use super::trouble::{Answer, Trouble};
use super::words::{number, numbers_of};
use meta_unique::{UniqueSeqTable, UniqueTable};
use std::alloc::{AllocError, Global};

/// An element that is neither a number nor a text.
#[derive(Clone, PartialEq, Eq, Drop)]
struct Element {
    number: u16,
}

/// Tables of the same lists, as numbers, as texts and as elements.
#[derive(Drop)]
pub(crate) struct Lists<'l> {
    numbers: UniqueSeqTable<u16>,
    texts: UniqueSeqTable<&'l str>,
    elements: UniqueSeqTable<Element>,
}

fn elements_of(alloc: Global, list: &str) -> Result<Vec<Element>, Trouble> {
    let mut elements = Vec::new(alloc);
    for number in numbers_of(alloc, list, "")? {
        elements.push(Element { number })?;
    }
    Ok(elements)
}

impl<'l> Lists<'l> {
    pub(crate) fn new(alloc: Global) -> Lists<'l> {
        Lists {
            numbers: UniqueSeqTable::new(alloc),
            texts: UniqueSeqTable::new(alloc),
            elements: UniqueSeqTable::new(alloc),
        }
    }

    /// Begins tables anew, and writes how many elements there are then.
    pub(crate) fn begin(&mut self, alloc: Global, case: &mut Case<'_>) {
        *self = Lists::new(alloc);
        case.shown(&self.numbers.len());
    }

    /// Adds a list, and writes where it stands, and how many elements there are then.
    pub(crate) fn add(&mut self, alloc: Global, case: &mut Case<'l>) -> Answer {
        let list = case.word();
        let place = self.texts.add(&items_of(alloc, list)?)?;
        let len = self.texts.len();
        if self.add_numbers(alloc, list)? != (place, len) {
            return Err(Trouble::Differ);
        }
        case.shown(&place);
        case.field(" ", &len);
        Ok(())
    }

    /// Adds a list as numbers and as elements: where both stand, and how many there are of each then.
    fn add_numbers(&mut self, alloc: Global, list: &str) -> Result<(usize, usize), Trouble> {
        let place = self.numbers.add(&numbers_of(alloc, list, "")?)?;
        let len = self.numbers.len();
        let elements = elements_of(alloc, list)?;
        if self.elements.add(&elements)? != place || self.elements.len() != len {
            return Err(Trouble::Differ);
        }
        Ok((place, len))
    }

    pub(crate) fn write_all(&self, case: &mut Case<'_>) -> Answer {
        let (mut texts, mut elements) = (self.texts.iter(), self.elements.iter());
        for wanted in self.numbers.iter() {
            let (Some(text), Some(element)) = (texts.next(), elements.next()) else {
                return Err(Trouble::Differ);
            };
            if case.value(number::<u16>(text)) != *wanted || element.number != *wanted {
                return Err(Trouble::Differ);
            }
            case.separate(',');
            case.shown(wanted);
        }
        Ok(())
    }
}

/// Writes the index of each name of a list, how many entries there are, and the entries.
pub(crate) fn write_interned(alloc: Global, case: &mut Case<'_>) -> Answer {
    let names = items_of(alloc, case.word())?;
    let mut table = UniqueTable::new(alloc);
    intern(&names, &mut table, case);
    Ok(())
}

fn intern<'n>(names: &'n [&'n str], table: &mut UniqueTable<'n, &'n str>, case: &mut Case<'_>) {
    for name in names {
        case.separate(',');
        let index = case.value(table.add(name));
        case.shown(&index);
    }
    case.field("|", &table.len());
    case.letter('|');
    let start = case.written();
    for entry in table.iter() {
        case.item(start, entry);
    }
}

/// `count` different numbers. An odd factor makes different numbers of different ones.
fn scattered(alloc: Global, count: u32) -> Result<Vec<u32>, AllocError> {
    let mut numbers = Vec::new(alloc);
    for number in 0..count {
        numbers.push(number.wrapping_mul(0x9e37_79b1))?;
    }
    Ok(numbers)
}

/// Adds numbers to a table, each of which has to have its place as its index, and answers how many entries there are.
fn intern_in_order<'n>(
    numbers: &'n [u32],
    table: &mut UniqueTable<'n, u32>,
) -> Result<usize, Trouble> {
    for (index, number) in numbers.iter().enumerate() {
        if table.add(number)? != index {
            return Err(Trouble::Differ);
        }
    }
    Ok(table.len())
}

/// Writes how many entries there are after `COUNT` different numbers were added, and after they were added again.
pub(crate) fn write_interned_twice(alloc: Global, case: &mut Case<'_>) -> Answer {
    let numbers = scattered(alloc, case.number())?;
    let mut table = UniqueTable::new(alloc);
    let once = case.value(intern_in_order(&numbers, &mut table));
    let twice = case.value(intern_in_order(&numbers, &mut table));
    case.shown(&once);
    case.field(" ", &twice);
    Ok(())
}
