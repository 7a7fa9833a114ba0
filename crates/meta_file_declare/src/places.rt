ghost use Rattle.std.specs.Prelude.{◌≡◌, ◌<◌, ◌≤◌, ◌++◌, IfSome, slice_get, length};
ghost use Rattle.std.specs.List.{position};
ghost use Rattle.meta_file_declare.specs.Places.{is_group, places_of, before_group, laid_places, place_of_entry};
ghost use Rattle.meta_file_declare.specs.Places.{place_of_inst, item_of_place, named_by};
ghost use Rattle.meta_file_declare.specs.Places.{place_of_fault};
ghost use Rattle.meta_file_declare.specs.Sorts.{is_of};

use meta_file_syntax::Item;
use meta_types::{DefinitionError, Place};

#[derive(Clone, Copy)]
enum Sort {
    Group,
    Setting,
    Preset,
    Format,
    Inst,
    /// A setting that has a byte of its own: an enum or a number.
    Valued,
    Bool,
}

fn is_of(sort: Sort, item: &Item) -> bool
    ensures { result ≡ is_of sort item.now }
{
    match (sort, item) {
        (Sort::Group, Item::Group(_)) => true,
        (Sort::Setting, Item::Bool(_) | Item::Num(_) | Item::Enum(_)) => true,
        (Sort::Preset, Item::Preset(_)) => true,
        (Sort::Format, Item::Format(_)) => true,
        (Sort::Inst, Item::Inst(_)) => true,
        (Sort::Valued, Item::Num(_) | Item::Enum(_)) => true,
        (Sort::Bool, Item::Bool(_)) => true,
        _ => false,
    }
}

fn count_of(sort: Sort, items: &[Item]) -> u64
    ensures { result ≡ length (places_of (is_of sort) items.now) }
{
    let mut count = 0;
    for item in items {
        if is_of(sort, item) {
            count += 1;
        }
    }
    count
}

/// The place of the n-th item of the sort. Both are from 0.
fn nth(sort: Sort, items: &[Item], n: u64) -> Option<usize>
    ensures place { result ≡ slice_get (places_of (is_of sort) items.now) n }
    ensures within { IfSome result (λ place. place < length items.now) }
{
    let mut left = n;
    for (place, item) in items.iter().enumerate() {
        if is_of(sort, item) {
            if left == 0 {
                return Some(place);
            }
            left -= 1;
        }
    }
    None
}

fn group_place(items: &[Item]) -> Option<usize>
    ensures place { result ≡ position is_group items.now }
    ensures within { IfSome result (λ place. place < length items.now) }
{
    items.iter().position(|item| is_of(Sort::Group, item))
}

#[tactic(auto, using(crate::proofs::BeforeGroup::before_found, crate::proofs::BeforeGroup::before_none))]
fn before_group(items: &[Item]) -> &[Item]
    ensures items { result.now ≡ before_group items.now }
    ensures shorter { length result.now ≤ length items.now }
{
    match group_place(items) {
        Some(place) => items.split_at(place).0,
        None => items,
    }
}

/// The place of the n-th item of those of the first sort and then those of the second. Both are from 0.
fn nth_of_both(first: Sort, second: Sort, items: &[Item], n: u64) -> Option<usize>
    ensures place { result ≡ slice_get (places_of (is_of first) items.now ++ places_of (is_of second) items.now) n }
    ensures within { IfSome result (λ place. place < length items.now) }
{
    let count = count_of(first, items);
    if n < count {
        return nth(first, items, n);
    }
    nth(second, items, n - count)
}

/// The place of the item that declares a setting of a group, among the items after the one that opens the group. `setting` is its number in
/// the layout of the group, from 0: enums and numbers come first, then booleans, each in order of declaration. `None` if the group has no
/// such setting.
pub fn laid_setting(after: &[Item], setting: u64) -> Option<usize>
    ensures { result ≡ slice_get (laid_places (before_group after.now)) setting }
{
    nth_of_both(Sort::Valued, Sort::Bool, before_group(after), setting)
}

fn place_of_entry(items: &[Item], group: u64, entry: u64) -> Option<usize>
    ensures { result ≡ place_of_entry items.now group entry }
{
    let place = nth(Sort::Group, items, group)?;
    let (_, after) = items.split_at(place + 1);
    let within = nth_of_both(Sort::Setting, Sort::Preset, before_group(after), entry)?;
    Some(place + 1 + within)
}

/// The place of the item that declares the instruction with this number, from 1.
fn place_of_inst(items: &[Item], number: u64) -> Option<usize>
    ensures { result ≡ place_of_inst items.now number }
{
    if number == 0 {
        return None;
    }
    nth(Sort::Inst, items, number - 1)
}

fn item_of_place(items: &[Item], place: &Place) -> Option<usize>
    ensures { result ≡ item_of_place items.now place.now }
{
    match place {
        Place::Instruction(number) => place_of_inst(items, *number),
        Place::Format(number) => nth(Sort::Format, items, *number),
        Place::Group(group) => nth(Sort::Group, items, *group),
        Place::Entry(group, entry) => place_of_entry(items, *group, *entry),
    }
}

/// What a fault names. `count` is the count of declared instructions.
fn named_by(count: u64, fault: &DefinitionError) -> Option<Place>
    ensures { result ≡ named_by count fault.now }
{
    match fault {
        DefinitionError::BadName(place) | DefinitionError::DuplicateName(place, _) => Some(*place),
        DefinitionError::BadEnum(group, entry) | DefinitionError::BadPreset(group, entry) => {
            Some(Place::Entry(*group, *entry))
        }
        DefinitionError::TooManySettings(group, _, _, _) => Some(Place::Group(*group)),
        DefinitionError::BadOutput(number, _)
        | DefinitionError::FormatMismatch(number)
        | DefinitionError::NoControl(number)
        | DefinitionError::BadSecond(number)
        | DefinitionError::BadDerivation(number, _)
        | DefinitionError::TooManyOperands(number, _)
        | DefinitionError::BadImmMethod(number) => Some(Place::Instruction(*number)),
        DefinitionError::BadFormat(number) | DefinitionError::FormatClash(number, _) => {
            Some(Place::Format(*number))
        }
        DefinitionError::TooManyOpcodes(_) => Some(Place::Instruction(4096)),
        DefinitionError::TooManyTypeSets(_) => Some(Place::Instruction(count)),
        DefinitionError::OutOfMemory => None,
    }
}

/// The place of the item, from 0, that a fault is about. These items must make the declarations. It is the item that declares the
/// instruction, format, group, setting or preset that the fault names; if there are too many instructions, the first that is one too many;
/// and if there are too many type sets, the last instruction. `None` if the fault names what the items don't have, as `OutOfMemory` does.
/// The first fault of the declarations always names what they have (`faults_have_their_items`).
pub fn place_of_fault(items: &[Item], fault: &DefinitionError) -> Option<usize>
    ensures { result ≡ place_of_fault items.now fault.now }
{
    let place = named_by(count_of(Sort::Inst, items), fault)?;
    item_of_place(items, &place)
}
