ghost use Rattle.std.specs.Prelude.{◌≡◌};
ghost use Rattle.meta_file_syntax.specs.Keywords.{keyword_of, keyword_text};

use super::words::{with_word, word_at};

/// A keyword: a word that begins an item.
#[derive(Clone, Copy, PartialEq, Eq)]
pub enum Keyword {
    /// `type`
    Type,
    /// `kind`
    Kind,
    /// `format`
    Format,
    /// `inst`
    Inst,
    /// `group`
    Group,
    /// `bool`
    Bool,
    /// `num`
    Num,
    /// `enum`
    Enum,
    /// `preset`
    Preset,
}

/// The keywords in the order of the variants, and their words.
const KEYWORDS: [(Keyword, &[u8]); 9] = [
    (Keyword::Type, b"type"),
    (Keyword::Kind, b"kind"),
    (Keyword::Format, b"format"),
    (Keyword::Inst, b"inst"),
    (Keyword::Group, b"group"),
    (Keyword::Bool, b"bool"),
    (Keyword::Num, b"num"),
    (Keyword::Enum, b"enum"),
    (Keyword::Preset, b"preset"),
];

impl Keyword {
    /// The keyword as a word.
    pub fn as_slice(self) -> &'static [u8]
        ensures { result.now ≡ keyword_text self }
    {
        word_at(&KEYWORDS, self as usize)
    }

    /// The keyword with this word, if there is one.
    #[tactic(auto, unfolding(crate::specs::Keywords::keyword_of))]
    pub fn of(word: &[u8]) -> Option<Keyword>
        ensures { result ≡ keyword_of word.now }
    {
        with_word(&KEYWORDS, word)
    }
}
