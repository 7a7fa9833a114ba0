ghost use Rattle.std.specs.Prelude.{◌≡◌, [], None, Some, OnOk, true};
ghost use Rattle.std.specs.Str.{is_utf8};
ghost use Rattle.meta_file_types.specs.Texts.{are_texts};
ghost use Rattle.meta_file_declare.specs.Texts.{item_texts};
ghost use Rattle.meta_file_declare.specs.OpenGroup.{group_in, known_in, IsKeptOpen, groups_so_far, closed_by, empty_group, groups_after};
ghost use Rattle.meta_file_declare.specs.Wrong.{misplaced, wrong_with};
ghost use Rattle.meta_file_syntax.specs.Named.{name_bytes};

use super::open_group::OpenGroup;
use super::texts::{is_text_item, text_from};
use meta_file_syntax::{Item, Name};
use meta_file_types::Reason;
use meta_settings::SettingGroupBuilder;
use std::alloc::{AllocError, Global};

/// The groups so far: those that are closed, and the one that is open.
#[derive(Drop)]
pub(crate) struct Groups {
    pub(crate) done: Vec<SettingGroupBuilder>,
    pub(crate) current: Option<OpenGroup>,
}

impl Groups {
    pub(crate) fn new(alloc: Global) -> Groups
        ensures done { result.done.items ≡ [] }
        ensures none_open { result.current ≡ None }
    {
        Groups {
            done: Vec::new(alloc),
            current: None,
        }
    }

    pub(crate) fn close(&mut self) -> Result<(), AllocError>
        ensures done { OnOk result (self.new.done.items ≡ closed_by self.old.done.items (group_in self.old.current)) }
        ensures none_open { self.new.current ≡ None }
    {
        if let Some(group) = self.current.take() {
            self.done.push(group.builder)?;
        }
        Ok(())
    }

    fn open_group(&mut self, alloc: Global, name: &Name) -> Result<(), AllocError>
        requires { is_utf8 (name_bytes name.now) ≡ true }
        ensures done { OnOk result (self.new.done.items ≡ closed_by self.old.done.items (group_in self.old.current)) }
        ensures opened { OnOk result (group_in self.new.current ≡ Some (empty_group (name_bytes name.now))) }
        ensures kept { OnOk result (IsKeptOpen self.new.current) }
    {
        self.close()?;
        let name = text_from(alloc, name.as_slice())?;
        self.current = Some(OpenGroup::new(alloc, name));
        Ok(())
    }

    /// Adds what an item declares. Nothing may be wrong with it.
    #[tactic(auto, using(crate::proofs::TextParts::group_name))]
    pub(crate) fn add(&mut self, alloc: Global, item: &Item) -> Result<(), AllocError>
        requires kept { IsKeptOpen self.old.current }
        requires texts { are_texts (item_texts item.now) ≡ true }
        ensures kept { OnOk result (IsKeptOpen self.new.current) }
        ensures added { OnOk result (groups_so_far self.new.done.items (group_in self.new.current)
            ≡ groups_after (groups_so_far self.old.done.items (group_in self.old.current)) item.now) }
    {
        let Item::Group(name) = item else {
            return match &mut self.current {
                Some(group) => group.add(alloc, item),
                None => Ok(()),
            };
        };
        self.open_group(alloc, name)
    }
}

/// Why an item, whose texts are UTF-8, can't stand after the open group.
fn misplaced<'i>(current: &Option<OpenGroup>, item: &'i Item) -> Option<Reason<'i>>
    requires { IsKeptOpen current.now }
    ensures { result ≡ misplaced (known_in current.now) item.now }
{
    match (item, current) {
        (
            Item::Type(_)
            | Item::Alias(_)
            | Item::Kind(_)
            | Item::Format(_)
            | Item::Inst(_)
            | Item::Group(_),
            _,
        ) => None,
        (_, None) => Some(Reason::NoGroup),
        (Item::Preset(item), Some(group)) => {
            let name = group.missing_in(item.args.as_slice())?;
            Some(Reason::NoEntry(name))
        }
        (Item::Bool(_) | Item::Num(_) | Item::Enum(_), Some(_)) => None,
    }
}

pub(crate) fn wrong_with<'i>(current: &Option<OpenGroup>, item: &'i Item) -> Option<Reason<'i>>
    requires { IsKeptOpen current.now }
    ensures { result ≡ wrong_with (known_in current.now) item.now }
{
    if !is_text_item(item) {
        return Some(Reason::NotText);
    }
    misplaced(current, item)
}
