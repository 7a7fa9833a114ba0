ghost use Rattle.std.specs.Prelude.{◌≡◌};

use meta_file_syntax::Name;
use std::marker::Model;

/// A list as an item spells it: the bytes of a word, or functions. A contract sees the list.
#[derive(Drop)]
pub struct Spelled<'i, T: Copy> {
    things: &'i [T],
}

impl<'i, T: Copy> Model for Spelled<'i, T> {
    ghost use Rattle.std.specs.Prelude.{List};

    ghost Value = { List T };

    ghost view = { λ s. s.things.now };
}

impl<'i, T: Copy> Spelled<'i, T> {
    /// The list as it stands in an item.
    pub fn of(things: &'i [T]) -> Spelled<'i, T>
        ensures { result ≡ things.now }
    {
        Spelled { things }
    }

    /// The list, in the item.
    pub fn as_slice(&self) -> &'i [T]
        ensures { result.now ≡ self.now }
    {
        self.things
    }
}

/// A name as an item spells it. A contract sees the name.
#[derive(Drop)]
pub struct SpelledName<'i> {
    name: &'i Name,
}

impl<'i> Model for SpelledName<'i> {
    ghost use Rattle.meta_file_syntax.specs.declared.name.Name.{Name};

    ghost Value = { Name };

    ghost view = { λ s. s.name.now };
}

impl<'i> SpelledName<'i> {
    /// The name as it stands in an item.
    pub fn of(name: &'i Name) -> SpelledName<'i>
        ensures { result ≡ name.now }
    {
        SpelledName { name }
    }

    /// The name, in the item.
    pub fn name(&self) -> &'i Name
        ensures { result.now ≡ self.now }
    {
        self.name
    }
}
