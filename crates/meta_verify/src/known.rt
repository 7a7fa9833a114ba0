ghost use Rattle.std.specs.Prelude.{◌≡◌, ℕ, ◌<◌, ◌≤◌, nat_eq, true, length, slice_index, None, Some, if◌then◌else◌, OnOk, OnErr};
ghost use Rattle.meta_types.specs.TypeNumber.{IsTypeNumber};
ghost use Rattle.meta_verify.specs.Defined.{known_number};

use std::alloc::{AllocError, Global};
use std::collections::BTreeMap;

/// How far after the values of the list a value may be to come into it. So the list has at most this many places for each value.
const NEAR: usize = 16;

/// Whether the value is too far after those of the list to come into it.
fn is_far(near: &[u16], value: u32) -> bool
    ensures { result ≡ true → length near.now ≤ value }
{
    let (place, len) = (value as usize, near.len());
    place >= len && place - len >= NEAR
}

/// Makes the list long enough to have a place for the value. New places have 0.
fn make_room(near: &mut Vec<u16>, value: u32) -> Result<(), AllocError>
    ensures room { OnOk result (value < length near.new.items) }
    ensures same { (v : ℕ) → slice_index near.new.items v ≡ slice_index near.old.items v }
{
    let place = value as usize;
    if place < near.len() {
        return Ok(());
    }
    near.resize(place + 1, 0)
}

/// The numbers of the types of the values that are defined. Lists of lines mostly count their values from 0 on, and such a value is looked
/// up by its place. Whatever values are chosen, a look-up takes no longer than one in an ordered map.
#[derive(Drop)]
pub(crate) struct KnownTypes {
    /// The numbers for the first values, by value: 0 for a value that isn't in the list.
    near: Vec<u16>,
    others: BTreeMap<u32, u16>,
}

impl KnownTypes {
    pub(crate) fn new(alloc: Global) -> KnownTypes
        ensures { (v : ℕ) → known_number result v ≡ None }
    {
        KnownTypes {
            near: Vec::new(alloc),
            others: BTreeMap::new(alloc),
        }
    }

    pub(crate) fn get(&self, value: u32) -> Option<u16>
        ensures { result ≡ known_number self.now value }
    {
        let number = self.near.get(value as usize).copied().unwrap_or(0);
        if number != 0 {
            return Some(number);
        }
        self.others.get(&value).copied()
    }

    /// Defines the value. If memory runs out, nothing changes.
    pub(crate) fn insert(&mut self, value: u32, number: u16) -> Result<(), AllocError>
        requires { IsTypeNumber number }
        ensures defined { OnOk result ((v : ℕ) → known_number self.new v
            ≡ (if nat_eq value v then Some number else known_number self.old v)) }
        ensures kept { OnErr result ((v : ℕ) → known_number self.new v ≡ known_number self.old v) }
    {
        if is_far(&self.near, value) {
            self.others.insert(value, number)?;
            return Ok(());
        }
        make_room(&mut self.near, value)?;
        self.near[value as usize] = number;
        Ok(())
    }

    pub(crate) fn remove(&mut self, value: u32)
        ensures { (v : ℕ) → known_number self.new v ≡ (if nat_eq value v then None else known_number self.old v) }
    {
        let place = value as usize;
        if place < self.near.len() {
            self.near[place] = 0;
        }
        self.others.remove(&value);
    }
}
