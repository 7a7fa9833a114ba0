ghost use Rattle.std.specs.Prelude.{◌≡◌};
ghost use Rattle.meta_table_text.specs.Version.{version_number, none_of, offset_shown};

use meta_gen::NO_TYPE_SET;

/// A version of the text of tables. Earlier versions have less in them, and tables for which that isn't enough don't fit them.
#[derive(Clone, Copy, Debug, PartialEq, Eq)]
pub enum Version {
    /// Takes at most 255 opcodes and 255 type sets, and no second control.
    One,
    /// Takes at most 255 opcodes and 255 type sets.
    Two,
    /// Takes all tables.
    Three,
}

impl Version {
    /// The number of the version in the first line of the text: 1 to 3.
    pub fn number(self) -> u8
        ensures { result ≡ version_number self }
    {
        match self {
            Version::One => 1,
            Version::Two => 2,
            Version::Three => 3,
        }
    }

    /// What stands in the text for no type set: 255 in versions 1 and 2, and 65,535 in version 3.
    pub fn none(self) -> u16
        ensures { result ≡ none_of self }
    {
        match self {
            Version::One | Version::Two => 255,
            Version::Three => NO_TYPE_SET,
        }
    }

    /// What stands in the text for the place of a type set, or for no type set.
    pub(crate) fn shown(self, offset: u16) -> u16
        ensures { result ≡ offset_shown self offset }
    {
        if offset == NO_TYPE_SET {
            self.none()
        } else {
            offset
        }
    }
}
