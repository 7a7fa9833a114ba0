use super::bytes::Bytes;

/// A name: a word, or a text in quotes.
#[derive(Drop)]
pub enum Name {
    /// A word that isn't a keyword.
    Plain(Bytes),
    /// A text in quotes.
    Quoted(Bytes),
}

ghost use Rattle.std.specs.Prelude.{◌≡◌};
ghost use Rattle.meta_file_syntax.specs.Named.{name_bytes};

impl Name {
    /// The bytes of the name: those of the word, or of the text.
    pub fn as_slice(&self) -> &[u8]
        ensures { result.now ≡ name_bytes self.now }
    {
        match self {
            Name::Plain(word) => word.as_slice(),
            Name::Quoted(text) => text.as_slice(),
        }
    }
}
