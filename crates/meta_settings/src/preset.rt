ghost use Rattle.std.specs.Prelude.{◌≡◌, ◌<◌, ◌+◌, ◌/◌, ℕ, List, [], IfOk, All, length};
ghost use Rattle.meta_settings.specs.PresetLayout.{HasAll, IsLayoutOf, IsLayoutOn, names_turned_on};
ghost use Rattle.meta_settings.specs.TurnedOn.{turned_on, built_preset};
ghost use Rattle.meta_settings.specs.GroupFaults.{AreMet};

use super::first_named::{BooleanNumbers, FirstNamed};
use super::group::SettingGroup;
use super::index::PresetType;
use super::proto::ProtoPreset;
use super::setting::Setting;
use meta_types::Text;
use std::alloc::{AllocError, Global};
use std::marker::Model;

/// A preset: a name for booleans that are turned on together. Only `SettingGroupBuilder::build` makes one.
#[derive(Debug, Drop, PartialEq, Eq, Hash)]
pub struct Preset {
    name: Text,
    description: Text,
    booleans: BooleanNumbers,
}

impl Model for Preset {
    ghost use Rattle.meta_settings.specs.Layout.{BuiltPreset};

    ghost Value = { BuiltPreset };

    ghost view = { λ p. record { name = p.name; description = p.description; booleans = p.booleans } };

    ghost inverse = { λ v. record { name = v.name; description = v.description; booleans = v.booleans } };
}

/// The numbers of the booleans that these names turn on. `earlier` has the presets that are declared before.
fn turned_on(
    alloc: Global,
    args: &[PresetType],
    earlier: &[Preset],
) -> Result<BooleanNumbers, AllocError>
    requires { AreMet 256 (length earlier.now) args.now }
    ensures { IfOk result (λ b. b ≡ turned_on earlier.now args.now) }
{
    let mut named = FirstNamed::new(alloc);
    for arg in args {
        match arg {
            PresetType::BoolSetting(index) => named.add(index.number() as u8)?,
            PresetType::OtherPreset(index) => {
                named.add_all(earlier[index.number() as usize].booleans())?
            }
        }
    }
    Ok(named.numbers())
}

impl Preset {
    pub(crate) fn of(
        alloc: Global,
        declared: &ProtoPreset,
        earlier: &[Preset],
    ) -> Result<Preset, AllocError>
        requires { AreMet 256 (length earlier.now) declared.now.args }
        ensures { IfOk result (λ p. p ≡ built_preset earlier.now declared.now) }
    {
        Ok(Preset {
            name: declared.name.copy(alloc)?,
            description: declared.description.copy(alloc)?,
            booleans: turned_on(alloc, &declared.args, earlier)?,
        })
    }

    /// The name of the preset.
    pub fn name(&self) -> &Text
        ensures { result.now ≡ self.now.name }
    {
        &self.name
    }

    /// The description of the preset.
    pub fn description(&self) -> &Text
        ensures { result.now ≡ self.now.description }
    {
        &self.description
    }

    pub(crate) fn booleans(&self) -> &[u8]
        ensures { result.now ≡ self.now.booleans }
    {
        self.booleans.as_slice()
    }
}

/// Turns on the bits of these booleans. Boolean 0 has bit 0 of the byte `start`.
fn turn_on_all(layout: &mut [(u8, u8)], start: u8, numbers: &[u8])
    requires { All (λ b. start + b / 8 < length layout.old) numbers.now }
    ensures { (size : ℕ) → IsLayoutOn start size [] layout.old → IsLayoutOn start size numbers.now layout.new }
{
    for number in numbers {
        let (at, bit) = (start as usize + *number as usize / 8, *number % 8);
        let (mask, value) = layout[at];
        layout[at] = (mask | 1 << bit, value | 1 << bit);
    }
}

fn empty_layout(alloc: Global, size: u8) -> Result<Vec<(u8, u8)>, AllocError>
    ensures { (start : ℕ) → IfOk result (λ v. IsLayoutOn start size [] v.items) }
{
    let mut layout = Vec::new(alloc);
    for _ in 0..size {
        layout.push((0, 0))?;
    }
    Ok(layout)
}

impl Preset {
    /// For each setting byte of the group, a mask of the bits that the preset turns on, and their value, which is the same as the mask. The
    /// preset must be of the group, which `SettingGroup::has` tests.
    pub fn layout(&self, alloc: Global, group: &SettingGroup) -> Result<Vec<(u8, u8)>, AllocError>
        requires { HasAll group.now self.now }
        ensures { IfOk result (λ v. IsLayoutOf group.now self.now v.items) }
    {
        let mut layout = empty_layout(alloc, group.settings_size())?;
        turn_on_all(&mut layout, group.bool_start_byte_offset(), self.booleans());
        Ok(layout)
    }

    /// The names of the booleans that the preset turns on, each once, in the order in which they are first named. A named preset stands for
    /// its own names, in their order. The preset must be of the group, which `SettingGroup::has` tests.
    pub fn setting_names<'a>(&'a self, group: &'a SettingGroup) -> SettingNames<'a>
        requires { HasAll group.now self.now }
        ensures { result ≡ names_turned_on group.now self.now }
    {
        SettingNames {
            numbers: self.booleans(),
            booleans: group.booleans(),
        }
    }
}

/// An iterator over names of booleans. A contract sees the names that are left.
#[derive(Drop)]
pub struct SettingNames<'a> {
    numbers: &'a [u8],
    booleans: &'a [Setting],
}

impl<'a> Model for SettingNames<'a> {
    ghost use Rattle.std.specs.Prelude.{List, ℕ, All, length, ◌<◌, map};
    ghost use Rattle.meta_settings.specs.PresetLayout.{boolean_name};

    ghost Value = { List (List ℕ) };

    ghost view = { λ n. map (boolean_name n.booleans.now) n.numbers.now };

    ghost invariant = { λ n. All (λ b. b < length n.booleans.now) n.numbers.now };
}

impl<'a> Iterator for SettingNames<'a> {
    ghost use Rattle.std.specs.Iterator.{YieldsFirstBy, item_count};

    type Item = &'a str;

    ghost next_gives = { YieldsFirstBy (λ name. name.now) (λ left. left) };

    ghost remaining = { item_count (λ left. left) };

    fn next(&mut self) -> Option<&'a str> {
        let (number, rest) = self.numbers.split_first()?;
        self.numbers = rest;
        Some(self.booleans[*number as usize].name().as_str())
    }
}
