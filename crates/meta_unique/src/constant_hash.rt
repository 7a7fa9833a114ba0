ghost use Rattle.std.specs.Prelude.{◌≡◌, ℕ, ◌≤◌, ◌<◌, length, map, Contains, None, Some, IfOk, slice_set, replicate};
ghost use Rattle.std.specs.Fn.{FnReturnsAt};
ghost use Rattle.std.specs.Int.{IsPowerOfTwo};
ghost use Rattle.std.specs.Option.{option_copied};
ghost use Rattle.meta_unique.specs.Probing.{IsVacant, IsTaken};
ghost use Rattle.meta_unique.specs.Slots.{IsTableSize, IsFirstFree, IsSlots};
ghost use Rattle.meta_unique.specs.SimpleHash.{simple_hash_of};

use std::alloc::{AllocError, Global};

/// The hash of a name, below 2^32. In the crate it is a call of another crate of Cranelift.
pub fn simple_hash(name: &[u8]) -> usize
    ensures { result ≡ simple_hash_of name.now }
{
    name.iter().fold(5381u32, |h, byte| {
        (h ^ *byte as u32).wrapping_add(h.rotate_right(6))
    }) as usize
}

/// Makes the slots of a hash table for the items, of which there may be at most 65,535. The count of slots is the least power of two above
/// the count of items and a fifth of it, so that some slot stays vacant. In order, each item goes into the first vacant slot of the probe
/// from its hash. In the crate's `constant_hash.rs` the items are an iterator.
pub fn generate_table<'c, T, H: Fn(&T) -> usize + Drop>(
    alloc: Global,
    items: &'c [T],
    hash_function: H,
) -> Result<Vec<Option<&'c T>>, AllocError>
    requires few { length items.now ≤ 65535 }
    requires callable { (p : _) → Contains items.now p.now → H.pre hash_function p }
    ensures slots { IfOk result (λ table. IsSlots (FnReturnsAt H.Fn hash_function) items.now (map option_copied table.items)) }
    ensures vacant { IfOk result (λ table. Contains (map option_copied table.items) None) }
{
    let mut table = vacant_slots(alloc, table_size(items.len()))?;
    for item in items {
        let slot = first_vacant(table.as_slice(), hash_function(item));
        place(&mut table, slot, item);
    }
    Ok(table)
}

fn table_size(count: usize) -> usize
    requires { count ≤ 65535 }
    ensures { IsTableSize count result }
{
    (count + count / 5 + 1).next_power_of_two()
}

fn vacant_slots<X: Drop>(alloc: Global, size: usize) -> Result<Vec<Option<X>>, AllocError>
    ensures { IfOk result (λ table. table.items ≡ replicate size None) }
{
    let mut table = Vec::with_capacity(alloc, size)?;
    for _slot in 0..size {
        table.push(None)?;
    }
    Ok(table)
}

fn first_vacant<X>(slots: &[Option<X>], start: usize) -> usize
    requires power { IsPowerOfTwo (length slots.now) }
    requires vacant { (slot : ℕ) × IsVacant slots.now slot }
    ensures vacant { IsVacant slots.now result }
    ensures first { IsFirstFree (length slots.now) start (IsTaken slots.now) result }
{
    let mut slot = start % slots.len();
    let mut passed = 0usize;
    'walk: while slots[slot].is_some() {
        passed += 1;
        slot = (slot + passed) % slots.len();
    }
    slot
}

fn place<'c, T>(table: &mut Vec<Option<&'c T>>, slot: usize, item: &'c T)
    requires { slot < length table.old.items }
    ensures { map option_copied table.new.items ≡ slice_set (map option_copied table.old.items) slot (Some item.now) }
{
    table[slot] = Some(item);
}
