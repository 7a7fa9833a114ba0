ghost use Rattle.std.specs.Int.{IsPowerOfTwo};
ghost use Rattle.std.specs.Prelude.{◌≡◌, ℕ, length, Contains, None};

use super::case::Case;
use super::trouble::{Answer, Trouble};
use super::words::numbers_of;
use meta_unique::{Steps, can_probe, generate_table, probe, probe_counted, simple_hash};
use std::alloc::{AllocError, Global};
use std::cell::Cell;
use std::marker::Brand;
use std::sync::ledger::{Blank, Ledger};

/// The slots of a list. A word that is no number, such as `-`, is a vacant slot.
fn listed(alloc: Global, list: &str) -> Result<Vec<Option<u16>>, AllocError> {
    let mut slots = Vec::new(alloc);
    if !list.is_empty() {
        for item in list.split(',') {
            slots.push(item.parse().ok())?;
        }
    }
    Ok(slots)
}

/// Writes what is found in slots for a wanted number, from a start on. A wanted word that is no number, such as `any`, fits every number.
pub(crate) fn write_probed(alloc: Global, case: &mut Case<'_>) -> Answer {
    let slots = listed(alloc, case.word())?;
    let (start, wanted) = (case.number(), case.word().parse::<u16>().ok());
    if !can_probe(&slots) {
        return Err(Trouble::NoCase);
    }
    case.number_or_dash(probe(&slots, start, |number| {
        wanted.is_none() || wanted == Some(number)
    }));
    Ok(())
}

/// Writes the place of each name among the names of a list, and how many names it was compared with.
pub(crate) fn write_finds(alloc: Global, case: &mut Case<'_>) -> Answer {
    let names = items_of(alloc, case.word())?;
    let slots = slots_of_names(alloc, &names)?;
    find_each(&slots, &names, case.word(), case)
}

fn find_each(slots: &[Option<u16>], names: &[&str], wanted: &str, case: &mut Case<'_>) -> Answer {
    if !can_probe(slots) {
        return Err(Trouble::NoCase);
    }
    for wanted in wanted.split(',') {
        let compared = Cell::new(0u16);
        let place = probe(slots, simple_hash(wanted.as_bytes()), |place| {
            compared.set(compared.get().saturating_add(1));
            names.get(usize::from(place)) == Some(&wanted)
        });
        case.separate(' ');
        case.number_or_dash(place);
        case.field(":", &compared.get());
    }
    Ok(())
}

/// Writes how many slots `COUNT` items have that all have the hash 0, and how many items are looked at until each is found.
pub(crate) fn write_colliding(alloc: Global, case: &mut Case<'_>) -> Answer {
    let count = case.number();
    let slots = slots_of_count(alloc, count, 0)?;
    case.shown(&slots.len());
    case.text(" slots:");
    for item in 0..count {
        let looked_at = case.value(looked_at(slots.as_slice(), item));
        case.field(" ", &looked_at);
    }
    Ok(())
}

fn looked_at(slots: &[Option<u16>], item: u16) -> Result<u16, Trouble> {
    if !can_probe(slots) {
        return Err(Trouble::NoCase);
    }
    let count = Cell::new(0u16);
    let matches = |number: u16| {
        count.set(count.get().saturating_add(1));
        number == item
    };
    if found::<_, Brand>(slots, matches, Blank::new(1)) != Some(item) {
        return Err(Trouble::Differ);
    }
    Ok(count.get())
}

/// What is found from the first slot on. The slots looked at are counted in a new ledger.
fn found<M: Fn(u16) -> bool + Drop, L: Ledger>(
    slots: &[Option<u16>],
    matches: M,
    blank: Blank,
) -> Option<u16>
    requires power { IsPowerOfTwo (length slots.now) }
    requires vacant { Contains slots.now None }
    requires callable { (number : ℕ) → M.pre matches number }
    requires name { blank.name ≡ L.name }
    requires parts { blank.parts ≡ L.parts }
    requires one { blank.parts ≡ 1 }
{
    let mut steps = Steps::<L>::new(blank);
    probe_counted(slots, 0, matches, &mut steps)
}

/// The items of a list, which are separated by commas.
pub(crate) fn items_of<'t>(alloc: Global, list: &'t str) -> Result<Vec<&'t str>, AllocError> {
    if list.is_empty() {
        return Ok(Vec::new(alloc));
    }
    list.split(',').collect(alloc)
}

fn hash_at(hashes: &[usize], place: u16) -> usize {
    hashes.get(usize::from(place)).copied().unwrap_or(0)
}

fn copied(alloc: Global, slots: &[Option<&u16>]) -> Result<Vec<Option<u16>>, AllocError> {
    let mut copied = Vec::new(alloc);
    for slot in slots {
        copied.push(slot.copied())?;
    }
    Ok(copied)
}

/// The slots of items of these hashes, in which each is named by its place.
fn slots_of(alloc: Global, hashes: &[usize]) -> Result<Vec<Option<u16>>, Trouble> {
    let Ok(count) = u16::try_from(hashes.len()) else {
        return Err(Trouble::NoCase);
    };
    let places: Vec<u16> = (0..count).collect(alloc)?;
    if places.len() > 65535 {
        return Err(Trouble::NoCase);
    }
    let slots = generate_table(alloc, &places, |place| hash_at(hashes, *place))?;
    Ok(copied(alloc, &slots)?)
}

pub(crate) fn slots_of_names(alloc: Global, names: &[&str]) -> Result<Vec<Option<u16>>, Trouble> {
    let mut hashes = Vec::new(alloc);
    for name in names {
        hashes.push(simple_hash(name.as_bytes()))?;
    }
    slots_of(alloc, &hashes)
}

/// The slots of `count` items, whose hashes are the multiples of a number.
pub(crate) fn slots_of_count(
    alloc: Global,
    count: u16,
    factor: u16,
) -> Result<Vec<Option<u16>>, Trouble> {
    let mut hashes = Vec::new(alloc);
    for number in 0..count {
        hashes.push(usize::from(number.wrapping_mul(factor)))?;
    }
    slots_of(alloc, &hashes)
}

/// Writes the items in the slots, `-` in a vacant one: of the names of a list, or of items of the hashes of a list.
pub(crate) fn write_slots(alloc: Global, are_names: bool, case: &mut Case<'_>) -> Answer {
    let list = case.word();
    let slots = if are_names {
        slots_of_names(alloc, &items_of(alloc, list)?)?
    } else {
        slots_of(alloc, &numbers_of(alloc, list, "")?)?
    };
    for slot in slots.as_slice() {
        case.separate(',');
        case.number_or_dash(*slot);
    }
    Ok(())
}

pub(crate) fn write_size(alloc: Global, case: &mut Case<'_>) -> Answer {
    let slots = slots_of_count(alloc, case.number(), 1)?;
    case.shown(&slots.len());
    Ok(())
}
