ghost use Rattle.std.specs.Prelude.{◌≡◌, ◌↔◌, IsTrue};
ghost use Rattle.meta_setting_tables.specs.declared.descriptor.Detail.TheVariants.{Preset};
ghost use Rattle.meta_setting_tables.specs.WellFormed.{describes_own_byte, is_boolean};
ghost use Rattle.meta_setting_tables.specs.EntryValues.{is_on};

use meta_types::Text;

/// What kind of entry an entry of a group is (`detail::Detail` in the text that `gen_settings.rs` writes).
#[derive(Clone, Copy, Debug, PartialEq, Eq)]
pub enum Detail {
    /// A boolean. `bit` is its bit in its byte, below 8.
    Bool { bit: u8 },
    /// An enum. `last` is the number of its last value, one less than the count of its values. `enumerators` is the place of its first
    /// value among the enumerators of the group; the other values follow, in order.
    Enum { last: u8, enumerators: u16 },
    /// A number.
    Num,
    /// A preset.
    Preset,
}

impl Detail {
    /// Whether the two are the same kind of entry, with the same numbers.
    pub fn same(self, other: Detail) -> bool
        ensures { IsTrue result ↔ (self ≡ other) }
    {
        self == other
    }

    /// Whether the entry is a preset.
    pub fn is_preset(self) -> bool
        ensures { IsTrue result ↔ (self ≡ Preset) }
    {
        match self {
            Detail::Bool { .. } => false,
            Detail::Enum { .. } => false,
            Detail::Num => false,
            Detail::Preset => true,
        }
    }

    pub(crate) fn has_own_byte(self) -> bool
        ensures { result ≡ describes_own_byte self }
    {
        match self {
            Detail::Bool { .. } | Detail::Preset => false,
            Detail::Enum { .. } | Detail::Num => true,
        }
    }

    pub(crate) fn is_boolean(self) -> bool
        ensures { result ≡ is_boolean self }
    {
        match self {
            Detail::Bool { .. } => true,
            Detail::Enum { .. } | Detail::Num | Detail::Preset => false,
        }
    }
}

/// An entry of a group of settings: its name, its description and its kind (`detail::Descriptor` in the text that `gen_settings.rs`
/// writes).
#[derive(Debug, Drop)]
pub struct Descriptor {
    /// The name of the entry.
    pub name: Text,
    /// The description of the entry, which needs no escape.
    pub description: Text,
    /// Of a setting, the place of its byte, below 255. Of a preset, the place of its first mask among the masks of the group: it has one
    /// mask for each setting byte.
    pub offset: u32,
    /// The kind of entry.
    pub detail: Detail,
}

impl Descriptor {
    /// Whether the entry is a boolean whose bit is on in these setting bytes, which may be the masks of a preset.
    pub fn is_on(&self, bytes: &[u8]) -> bool
        ensures { result ≡ is_on bytes.now self.now.offset self.now.detail }
    {
        let Detail::Bool { bit } = self.detail else {
            return false;
        };
        match bytes.get(self.offset as usize) {
            Some(byte) => bit < 8 && byte >> bit & 1 == 1,
            None => false,
        }
    }

    /// Whether this descriptor and the other are equal in all parts.
    pub fn same(&self, other: &Descriptor) -> bool
        ensures { IsTrue result ↔ (self.now ≡ other.now) }
    {
        if self.name != other.name {
            return false;
        }
        if self.description != other.description {
            return false;
        }
        if self.offset != other.offset {
            return false;
        }
        self.detail.same(other.detail)
    }
}

pub(crate) fn same_descriptors(one: &[Descriptor], other: &[Descriptor]) -> bool
    ensures { IsTrue result ↔ (one.now ≡ other.now) }
{
    if one.len() != other.len() {
        return false;
    }
    for k in 0..one.len() {
        if !one[k].same(&other[k]) {
            return false;
        }
    }
    true
}
