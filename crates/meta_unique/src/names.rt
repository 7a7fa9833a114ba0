ghost use Rattle.std.specs.Prelude.{◌≡◌, ◌↔◌, ◌+◌, ◌≤◌, ◌<◌, length, map, Contains, None, IfOk, IsTrue};
ghost use Rattle.std.specs.Option.{option_copied};
ghost use Rattle.meta_unique.specs.Interning.{pointed_to};
ghost use Rattle.meta_unique.specs.NameSlots.{HashesTo, AreNameSlots, numbers_from};

use super::constant_hash::{generate_table, simple_hash};
use std::alloc::{AllocError, Global};

fn numbers(alloc: Global, first: u16, count: usize) -> Result<Vec<u16>, AllocError>
    requires { first + count ≤ 65536 }
    ensures { IfOk result (λ v. v.items ≡ numbers_from first count) }
{
    let mut numbers = Vec::with_capacity(alloc, count)?;
    for place in 0..count {
        numbers.push(first + place as u16)?;
    }
    Ok(numbers)
}

fn pointed_at(alloc: Global, slots: &[Option<&u16>]) -> Result<Vec<Option<u16>>, AllocError>
    ensures { IfOk result (λ v. v.items ≡ map option_copied slots.now) }
{
    let mut copies = Vec::with_capacity(alloc, slots.len())?;
    for slot in slots {
        copies.push(slot.copied())?;
    }
    Ok(copies)
}

fn hash_at(names: &[&[u8]], first: u16, number: u16) -> usize
    requires low { first ≤ number }
    requires high { number < first + length names.now }
    ensures { HashesTo first (pointed_to names.now) number result }
{
    let name = names[(number - first) as usize];
    simple_hash(name)
}

/// Makes the slots of names, of which there may be at most 65,535. Names have numbers from `first` on, and the slots hold these numbers.
/// The probe of a name begins at its `simple_hash`.
pub fn name_slots(
    alloc: Global,
    names: &[&[u8]],
    first: u16,
) -> Result<Vec<Option<u16>>, AllocError>
    requires few { length names.now ≤ 65535 }
    requires numbered { first + length names.now ≤ 65536 }
    ensures slots { IfOk result (λ v. AreNameSlots first (pointed_to names.now) v.items) }
    ensures vacant { IfOk result (λ v. Contains v.items None) }
{
    let numbers = numbers(alloc, first, names.len())?;
    let table = generate_table(alloc, numbers.as_slice(), |number| {
        hash_at(names, first, *number)
    })?;
    pointed_at(alloc, table.as_slice())
}

/// Whether both have the same slots, in the same order.
pub fn same_slots(one: &[Option<u16>], other: &[Option<u16>]) -> bool
    ensures { IsTrue result ↔ (one.now ≡ other.now) }
{
    one == other
}
