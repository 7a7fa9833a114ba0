ghost use Rattle.std.specs.Prelude.{◌≡◌, ◌<◌, All, IfOk, Some, length, map, string_bytes};
ghost use Rattle.meta_build.specs.AllDeclared.{Declared, AreValid};
ghost use Rattle.meta_file_declare.specs.Places.{place_of_inst, place_of_group};
ghost use Rattle.meta_rust_names.specs.AllRefused.{refused_names};
ghost use Rattle.meta_program.specs.File.{Declares, AreReadOf};
ghost use Rattle.meta_program.specs.Places.{setting_of, setting_after, place_in_group, place_of_name, ArePlaces};
ghost use Rattle.meta_program.specs.Told.{why_said, told, HasLine, AreTold};

use super::loading::line_of;
use super::paths::shown_path;
use super::plan::Names;
use meta_build::{Built, Declarations, build_all, one_first_fault};
use meta_file_declare::laid_setting;
use meta_file_load::located;
use meta_file_reader::{ReadError, ReadItems, read_items, what_is_read};
use meta_file_syntax::{Bytes, Item};
use meta_rust_names::{Part, RefusedName, refused_names};
use meta_types::{DefinitionError, Place};
use std::alloc::{AllocError, Global};

/// The places of the items, from 0, that declare instructions and formats and open groups. Some calls are lent the items and don't read
/// them; their contracts do.
#[derive(Drop)]
pub(crate) struct ItemPlaces {
    insts: Vec<usize>,
    formats: Vec<usize>,
    groups: Vec<usize>,
}

/// The setting of its group to which the part belongs, as the group is laid out, if it belongs to one.
fn setting_of(part: Part) -> Option<u64>
    ensures { result ≡ setting_of part }
{
    match part {
        Part::Setting(setting) | Part::SettingType(setting) | Part::Value(setting, _) => {
            Some(setting)
        }
        _ => None,
    }
}

/// The place of the item that declares a setting of the group which the item at this place opens.
#[tactic(auto, using(crate::proofs::Within::setting_within))]
fn setting_after(items: &[Item], setting: u64, opener: usize) -> Option<usize>
    requires { opener < length items.now }
    ensures { result ≡ setting_after items.now setting opener }
{
    let (_, after) = items.split_at(opener + 1);
    let within = laid_setting(after, setting)?;
    Some(opener + 1 + within)
}

impl ItemPlaces {
    pub(crate) fn of(alloc: Global, items: &[Item]) -> Result<ItemPlaces, AllocError>
        ensures { IfOk result (λ places. ArePlaces places items.now) }
    {
        let mut insts = Vec::new(alloc);
        let mut formats = Vec::new(alloc);
        let mut groups = Vec::new(alloc);
        for (place, item) in items.iter().enumerate() {
            match item {
                Item::Inst(_) => insts.push(place)?,
                Item::Format(_) => formats.push(place)?,
                Item::Group(_) => groups.push(place)?,
                _ => {}
            }
        }
        Ok(ItemPlaces {
            insts,
            formats,
            groups,
        })
    }

    /// The place of the item that declares the instruction of this number, from 1.
    fn of_inst(&self, _items: &[Item], number: u64) -> Option<usize>
        requires { ArePlaces self.now _items.now }
        ensures { result ≡ place_of_inst _items.now number }
    {
        let place = number.checked_sub(1)?;
        self.insts.get(place as usize).copied()
    }

    fn of_group(&self, _items: &[Item], group: u64) -> Option<usize>
        requires { ArePlaces self.now _items.now }
        ensures { result ≡ place_of_group _items.now group }
    {
        self.groups.get(group as usize).copied()
    }

    #[tactic(auto, using(crate::proofs::Within::group_within))]
    fn of_setting(&self, items: &[Item], group: u64, setting: u64) -> Option<usize>
        requires { ArePlaces self.now items.now }
        ensures { result ≡ place_in_group items.now group (Some setting) }
    {
        let opener = self.of_group(items, group)?;
        setting_after(items, setting, opener)
    }

    fn in_group(&self, items: &[Item], group: u64, setting: Option<u64>) -> Option<usize>
        requires { ArePlaces self.now items.now }
        ensures { result ≡ place_in_group items.now group setting }
    {
        match setting {
            Some(setting) => self.of_setting(items, group, setting),
            None => self.of_group(items, group),
        }
    }

    pub(crate) fn of_name(&self, items: &[Item], name: &RefusedName) -> Option<usize>
        requires { ArePlaces self.now items.now }
        ensures { result ≡ place_of_name items.now name.now }
    {
        match name.place {
            Place::Instruction(number) => self.of_inst(items, number),
            Place::Format(number) => self.formats.get(number as usize).copied(),
            Place::Group(group) => self.in_group(items, group, setting_of(name.part)),
            Place::Entry(_, _) => None,
        }
    }
}

/// Which part of an item has the name, and why Rust refuses it, as a warning or a refusal.
fn why_said(alloc: Global, names: Names, name: &RefusedName) -> Result<String, AllocError>
    ensures { IfOk result (λ why. string_bytes why ≡ why_said names name.now) }
{
    match names {
        Names::Warn => format!(in alloc; "warning: {name}"),
        Names::Refuse => format!(in alloc; "{name}"),
    }
}

/// The message of a name, which an item declares. The path is as a message shows it.
fn told(
    alloc: Global,
    path: &[u8],
    names: Names,
    items: &ReadItems,
    places: &ItemPlaces,
    name: &RefusedName,
) -> Result<Bytes, AllocError>
    requires places { ArePlaces places.now items.now.items.items }
    requires line { HasLine items.now.items.items items.now.lines.items name.now }
    ensures { IfOk result (λ message. Some message ≡ told path.now names items.now.items.items items.now.lines.items name.now) }
{
    let Some(place) = places.of_name(&items.items, name) else {
        unreachable!()
    };
    let line = line_of(&items.lines, place);
    let why = why_said(alloc, names, name)?;
    located(alloc, path, line, why.as_bytes())
}

fn all_told(
    alloc: Global,
    path: &[u8],
    names: Names,
    items: &ReadItems,
    refused: &[RefusedName],
) -> Result<Vec<Bytes>, AllocError>
    requires { All (HasLine items.now.items.items items.now.lines.items) refused.now }
    ensures { IfOk result (λ messages. map Some messages.items
        ≡ map (told path.now names items.now.items.items items.now.lines.items) refused.now) }
{
    let places = ItemPlaces::of(alloc, &items.items)?;
    let mut messages = Vec::new(alloc);
    for name in refused {
        messages.push(told(alloc, path, names, items, &places, name)?)?;
    }
    Ok(messages)
}

/// The items of a text that makes declarations.
fn items_of(alloc: Global, text: &[u8]) -> Result<ReadItems, AllocError>
    requires { (d : Declared) × Declares text.now d }
    ensures read { IfOk result (λ r. AreReadOf text.now r.items.items r.lines.items) }
    ensures lines { IfOk result (λ r. length r.lines.items ≡ length r.items.items) }
{
    match read_items(alloc, text) {
        Ok(items) => Ok(items),
        Err(ReadError::Memory) => Err(AllocError),
        Err(ReadError::Refused(_)) => unreachable!(),
    }
}

/// The messages of the names of what is built of the declarations that a text makes. The text is read only if there are such names.
fn told_of(
    alloc: Global,
    path: &str,
    names: Names,
    text: &[u8],
    built: &Built<'_>,
) -> Result<Vec<Bytes>, AllocError>
    requires { Declares text.now built.now.declared }
    ensures { IfOk result (λ messages. AreTold path.now names text.now built.now.declared messages.items) }
{
    // The clause of `declarations` says that this is what is built of them.
    let _declarations = built.declarations();
    let refused = refused_names(alloc, built)?;
    if refused.is_empty() {
        return Ok(Vec::new(alloc));
    }
    what_is_read();
    let items = items_of(alloc, text)?;
    let shown = shown_path(alloc, path)?;
    all_told(alloc, shown.as_bytes(), names, &items, &refused)
}

/// Makes the messages, in order, of all names that Rust refuses in the valid declarations that a text makes. A message is `PATH:LINE: WHY`,
/// without a line feed, with the path as `shown_path` shows it, and the line of the item that declares what has the name
/// (`names_have_their_items`). In a warning, `warning: ` stands before WHY.
pub fn names_told(
    alloc: Global,
    path: &str,
    names: Names,
    text: &[u8],
    declarations: &Declarations,
) -> Result<Vec<Bytes>, AllocError>
    requires declares { Declares text.now declarations.now }
    requires valid { AreValid declarations.now }
    ensures { IfOk result (λ messages. AreTold path.now names text.now declarations.now messages.items) }
{
    one_first_fault();
    match build_all(alloc, declarations) {
        Ok(built) => told_of(alloc, path, names, text, &built),
        Err(DefinitionError::OutOfMemory) => Err(AllocError),
        Err(_) => unreachable!(),
    }
}
