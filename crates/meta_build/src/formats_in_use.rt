ghost use Rattle.std.specs.Prelude.{◌≡◌, ◌<◌, ◌++◌, ◌∷◌, [], MatchBool, OnOk, IfOk, IfSome, IfNone, None, Some, length, cond};
ghost use Rattle.std.specs.HashMap.{get};
ghost use Rattle.meta_operands.specs.Structure.{structure_of, same_structure};
ghost use Rattle.meta_operands.specs.declared.structure.FormatStructure.{FormatStructure};
ghost use Rattle.meta_build.specs.FormatsUsed.{IsAmong, IsNotAmong, IsOfTable, ClashesWithNone, IsFirstToClash};
ghost use Rattle.meta_build.specs.FormatsIndexed.{AreIndexed, IsFirstOf};

use super::formats::UsedFormat;
use meta_operands::{FormatId, FormatStructure, FormatTable, InstructionFormat};
use meta_types::Text;
use std::alloc::{AllocError, Global};
use std::collections::{BTreeMap, HashMap};

/// The formats in use so far, no two of which clash, and how each is found among them.
#[derive(Drop)]
pub(crate) struct FormatsInUse<'f> {
    formats: &'f FormatTable,
    used: Vec<UsedFormat>,
    // Whether each format of the table is among them.
    is_used: Vec<bool>,
    // The place of each, by its name and by its structure.
    by_name: BTreeMap<&'f Text, usize>,
    by_structure: HashMap<FormatStructure, usize>,
}

fn first_place(one: Option<usize>, other: Option<usize>) -> Option<usize>
    ensures none { IfNone result ((one ≡ None) × (other ≡ None)) }
    ensures first { IfSome result (IsFirstOf one other) }
{
    match (one, other) {
        (Some(one), Some(other)) => Some(one.min(other)),
        (None, place) => place,
        (place, None) => place,
    }
}

fn put_structure(
    alloc: Global,
    places: &mut HashMap<FormatStructure, usize>,
    format: &InstructionFormat,
    place: usize,
) -> Result<(), AllocError>
    ensures { OnOk result ((s : FormatStructure)
        → get same_structure places.new s ≡ cond (same_structure (structure_of format.now) s) (Some place)
        (get same_structure places.old s)) }
{
    places.insert(format.structure(alloc)?, place)?;
    Ok(())
}

impl<'f> FormatsInUse<'f> {
    pub(crate) fn new(alloc: Global, formats: &'f FormatTable) -> Result<Self, AllocError>
        ensures formats { IfOk result (λ f. f.formats.now ≡ formats.now) }
        ensures used { IfOk result (λ f. f.used.items ≡ []) }
        ensures indexed { IfOk result AreIndexed }
    {
        Ok(FormatsInUse {
            formats,
            used: Vec::new(alloc),
            is_used: vec![in alloc; false; formats.len()]?,
            by_name: BTreeMap::new(alloc),
            by_structure: HashMap::new(alloc),
        })
    }

    pub(crate) fn contains(&self, id: FormatId) -> bool
        requires of_table { id < length self.now.formats.now }
        requires indexed { AreIndexed self.now }
        ensures { MatchBool result (IsAmong self.now.used.items id) (IsNotAmong self.now.used.items id) }
    {
        self.is_used[id.number() as usize]
    }

    /// The first of these formats that clashes with the format: they have the same name or the same structure.
    pub(crate) fn first_clash(&self, format: &UsedFormat) -> Option<FormatId>
        requires of_table { IsOfTable self.now.formats.now format.now }
        requires indexed { AreIndexed self.now }
        ensures none { IfNone result (ClashesWithNone self.now.formats.now self.now.used.items format.now.id) }
        ensures some { IfSome result (λ g. IsFirstToClash self.now.formats.now self.now.used.items format.now.id g) }
    {
        let name = &self.formats.get(format.id).name;
        let of_name = self.by_name.get(&name).copied();
        let of_structure = self.by_structure.get(&format.structure).copied();
        match first_place(of_name, of_structure) {
            Some(place) => Some(self.used[place].id),
            None => None,
        }
    }

    /// Adds the format at the end. It must not clash with any of these. After an error the list must not be used again.
    pub(crate) fn add(&mut self, alloc: Global, format: UsedFormat) -> Result<(), AllocError>
        requires of_table { IsOfTable self.old.formats.now format }
        requires apart { ClashesWithNone self.old.formats.now self.old.used.items format.id }
        requires indexed { AreIndexed self.old }
        ensures formats { OnOk result (self.new.formats.now ≡ self.old.formats.now) }
        ensures added { OnOk result (self.new.used.items ≡ self.old.used.items ++ format ∷ []) }
        ensures indexed { OnOk result (AreIndexed self.new) }
    {
        let place = self.used.len();
        let content = self.formats.get(format.id);
        self.is_used[format.id.number() as usize] = true;
        self.used.push(format)?;
        self.by_name.insert(&content.name, place)?;
        put_structure(alloc, &mut self.by_structure, content, place)
    }

    pub(crate) fn into_used(self) -> Vec<UsedFormat>
        ensures { result.items ≡ self.entry.used.items }
    {
        self.used
    }
}
