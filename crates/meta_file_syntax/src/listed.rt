use std::marker::Model;

/// A list in a file. A contract sees the list.
#[derive(Drop)]
pub struct Listed<T: Drop> {
    things: Vec<T>,
}

impl<T: Drop> Model for Listed<T> {
    ghost use Rattle.std.specs.Prelude.{List};

    ghost Value = { List T };

    ghost view = { λ l. l.things.items };
}

ghost use Rattle.std.specs.Prelude.{◌≡◌};

impl<T: Drop> Listed<T> {
    /// Makes a list of these things.
    pub fn of(things: Vec<T>) -> Listed<T>
        ensures { result ≡ things.items }
    {
        Listed { things }
    }

    /// The things, in order.
    pub fn as_slice(&self) -> &[T]
        ensures { result.now ≡ self.now }
    {
        self.things.as_slice()
    }
}
