ghost use Rattle.std.specs.Prelude.{◌≡◌, ◌<◌, ◌≤◌, ◌+◌, ◌^◌, ℕ, List, IfOk, OnOk, OnErr, true};
ghost use Rattle.std.specs.List.{filter_map};
ghost use Rattle.meta_settings.specs.GroupDeclaration.{entry_count};
ghost use Rattle.meta_settings.specs.Declaring.{with_setting, with_preset};
ghost use Rattle.meta_file_declare.specs.FirstNumbers.{number_in, or_of};
ghost use Rattle.meta_file_declare.specs.Named.{meant};
ghost use Rattle.meta_file_declare.specs.Wrong.{missing_in};
ghost use Rattle.meta_file_declare.specs.OpenGroup.{IsKept, known_of, empty_group, with_item};
ghost use Rattle.meta_file_types.specs.Texts.{are_texts};
ghost use Rattle.meta_file_syntax.specs.declared.items.Item.TheVariants as an_item;
ghost use Rattle.meta_file_declare.specs.Texts.{names_in, item_texts};
ghost use Rattle.meta_file_declare.specs.Said.{bool_setting, num_setting, enum_setting, preset_of};

use super::texts::{comment_text, doc_from, name_texts, text_from};
use meta_file_syntax::{BoolItem, EnumItem, Item, Name, NumItem, PresetItem};
use meta_file_types::SpelledName;
use meta_settings::{BoolSettingIndex, PresetIndex, PresetType, SettingGroupBuilder};
use meta_types::Text;
use std::alloc::{AllocError, Global};
use std::collections::BTreeMap;

/// The number of a name, if it has one. The cost is the logarithm of the count of names.
fn number_of<N: Copy>(numbers: &BTreeMap<Vec<u8>, N>, name: &[u8]) -> Option<N>
    ensures { result ≡ number_in numbers.now name.now }
{
    numbers.get(name).copied()
}

fn add_first<N: Copy + Drop>(
    alloc: Global,
    numbers: &mut BTreeMap<Vec<u8>, N>,
    name: &[u8],
    number: N,
) -> Result<(), AllocError>
    ensures { OnOk result ((q : List ℕ) → number_in numbers.new q ≡ or_of (number_in numbers.old q) q name.now number) }
{
    if numbers.contains_key(name) {
        return Ok(());
    }
    let key = Vec::from_slice(alloc, name)?;
    numbers.insert(key, number)?;
    Ok(())
}

/// The open group: what is declared of it so far, and what names stand for in its presets.
#[derive(Drop)]
pub(crate) struct OpenGroup {
    pub(crate) builder: SettingGroupBuilder,
    /// The numbers of its booleans and of its presets, by their names. Of several with the same name it has the first.
    booleans: BTreeMap<Vec<u8>, BoolSettingIndex>,
    presets: BTreeMap<Vec<u8>, PresetIndex>,
}

impl OpenGroup {
    pub(crate) fn new(alloc: Global, name: Text) -> OpenGroup
        ensures group { result.builder ≡ empty_group name }
        ensures kept { IsKept result }
    {
        OpenGroup {
            builder: SettingGroupBuilder::new(alloc, name),
            booleans: BTreeMap::new(alloc),
            presets: BTreeMap::new(alloc),
        }
    }

    fn meant(&self, name: &[u8]) -> Option<PresetType>
        requires { IsKept self.now }
        ensures { result ≡ meant (known_of self.now.builder) name.now }
    {
        if let Some(index) = number_of(&self.booleans, name) {
            return Some(PresetType::from(index));
        }
        let index = number_of(&self.presets, name)?;
        Some(PresetType::from(index))
    }

    pub(crate) fn missing_in<'i>(&self, names: &'i [Name]) -> Option<SpelledName<'i>>
        requires { IsKept self.now }
        ensures { result ≡ missing_in (known_of self.now.builder) names.now }
    {
        for name in names {
            if self.meant(name.as_slice()).is_none() {
                return Some(SpelledName::of(name));
            }
        }
        None
    }

    fn all_meant(&self, alloc: Global, names: &[Name]) -> Result<Vec<PresetType>, AllocError>
        requires { IsKept self.now }
        ensures { IfOk result (λ v. v.items ≡ filter_map (meant (known_of self.now.builder)) (names_in names.now)) }
    {
        let mut meant = Vec::new(alloc);
        for name in names {
            if let Some(named) = self.meant(name.as_slice()) {
                meant.push(named)?;
            }
        }
        Ok(meant)
    }

    fn check_room(&self) -> Result<(), AllocError>
        ensures room { OnOk result (entry_count self.now.builder + 1 < 2 ^ 32) }
        ensures full { OnErr result (2 ^ 32 ≤ entry_count self.now.builder + 1) }
    {
        if self.builder.has_room() {
            return Ok(());
        }
        Err(AllocError)
    }

    #[tactic(auto, using(crate::proofs::TextParts::bool_name, crate::proofs::TextParts::bool_comment, crate::proofs::TextParts::bool_docs))]
    fn add_bool(&mut self, alloc: Global, item: &BoolItem) -> Result<(), AllocError>
        requires kept { IsKept self.old }
        requires texts { are_texts (item_texts (an_item.Bool item.now)) ≡ true }
        ensures added { OnOk result (self.new.builder ≡ with_setting self.old.builder (bool_setting item.now)) }
        ensures kept { OnOk result (IsKept self.new) }
    {
        self.check_room()?;
        let name = text_from(alloc, item.name.as_slice())?;
        let description = doc_from(alloc, &item.docs)?;
        let comment = comment_text(alloc, &item.comment)?;
        let index = self
            .builder
            .add_bool(name, description, comment, item.default)?;
        add_first(alloc, &mut self.booleans, item.name.as_slice(), index)?;
        Ok(())
    }

    #[tactic(auto, using(crate::proofs::TextParts::num_name, crate::proofs::TextParts::num_comment, crate::proofs::TextParts::num_docs))]
    fn add_num(&mut self, alloc: Global, item: &NumItem) -> Result<(), AllocError>
        requires kept { IsKept self.old }
        requires texts { are_texts (item_texts (an_item.Num item.now)) ≡ true }
        ensures added { OnOk result (self.new.builder ≡ with_setting self.old.builder (num_setting item.now)) }
        ensures kept { OnOk result (IsKept self.new) }
    {
        self.check_room()?;
        let name = text_from(alloc, item.name.as_slice())?;
        let description = doc_from(alloc, &item.docs)?;
        let comment = comment_text(alloc, &item.comment)?;
        self.builder
            .add_num(name, description, comment, item.default)
    }

    #[tactic(auto, using(crate::proofs::TextParts::enum_name, crate::proofs::TextParts::enum_comment, crate::proofs::TextParts::enum_docs, crate::proofs::TextParts::enum_values))]
    fn add_enum(&mut self, alloc: Global, item: &EnumItem) -> Result<(), AllocError>
        requires kept { IsKept self.old }
        requires texts { are_texts (item_texts (an_item.Enum item.now)) ≡ true }
        ensures added { OnOk result (self.new.builder ≡ with_setting self.old.builder (enum_setting item.now)) }
        ensures kept { OnOk result (IsKept self.new) }
    {
        self.check_room()?;
        let name = text_from(alloc, item.name.as_slice())?;
        let description = doc_from(alloc, &item.docs)?;
        let comment = comment_text(alloc, &item.comment)?;
        let values = name_texts(alloc, item.values.as_slice())?;
        self.builder.add_enum(name, description, comment, values)
    }

    #[tactic(auto, using(crate::proofs::TextParts::preset_name, crate::proofs::TextParts::preset_docs))]
    fn add_preset(&mut self, alloc: Global, item: &PresetItem) -> Result<(), AllocError>
        requires kept { IsKept self.old }
        requires texts { are_texts (item_texts (an_item.Preset item.now)) ≡ true }
        ensures added { OnOk result (self.new.builder ≡ with_preset self.old.builder (preset_of (known_of self.old.builder) item.now)) }
        ensures kept { OnOk result (IsKept self.new) }
    {
        self.check_room()?;
        let name = text_from(alloc, item.name.as_slice())?;
        let description = doc_from(alloc, &item.docs)?;
        let meant = self.all_meant(alloc, item.args.as_slice())?;
        let index = self.builder.add_preset(name, description, meant)?;
        add_first(alloc, &mut self.presets, item.name.as_slice(), index)?;
        Ok(())
    }
}

impl OpenGroup {
    /// Adds the setting or the preset that an item declares. Any other item adds nothing.
    pub(crate) fn add(&mut self, alloc: Global, item: &Item) -> Result<(), AllocError>
        requires kept { IsKept self.old }
        requires texts { are_texts (item_texts item.now) ≡ true }
        ensures added { OnOk result (self.new.builder ≡ with_item self.old.builder item.now) }
        ensures kept { OnOk result (IsKept self.new) }
    {
        match item {
            Item::Type(_)
            | Item::Alias(_)
            | Item::Kind(_)
            | Item::Format(_)
            | Item::Inst(_)
            | Item::Group(_) => Ok(()),
            Item::Bool(item) => self.add_bool(alloc, item),
            Item::Num(item) => self.add_num(alloc, item),
            Item::Enum(item) => self.add_enum(alloc, item),
            Item::Preset(item) => self.add_preset(alloc, item),
        }
    }
}
