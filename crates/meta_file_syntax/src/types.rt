use super::bytes::Bytes;
use super::docs::Docs;
use super::listed::Listed;
use super::words::{with_word, word_at};
use meta_types::{DERIVED_FUNCS, DerivedFunc};

/// A type: a word, or what functions derive from it, such as `narrower(lane_of(Any))`.
#[derive(Drop)]
pub struct TypeExpr {
    /// The functions in the order in which they are written. The last one is applied to the word, and each other one to what the next one
    /// gives.
    pub functions: Listed<DerivedFunc>,
    /// The word of the type that the functions are applied to.
    pub word: Bytes,
}

/// A dimension: what a part of a type set is about.
#[derive(Clone, Copy, PartialEq, Eq)]
pub enum Dimension {
    /// `lanes`
    Lanes,
    /// `dynamic`: the least lane counts of dynamic vectors.
    Dynamic,
    /// `ints`
    Ints,
    /// `floats`
    Floats,
}

/// A number of a part, or a range of numbers, such as `8` or `8..64`.
#[derive(Clone, Copy)]
pub struct Span {
    /// The number, or the lower end of the range.
    pub low: u16,
    /// The upper end of the range, which is in it. `None` for a single number.
    pub high: Option<u16>,
}

/// The numbers of a part.
#[derive(Drop)]
pub enum Members {
    /// `all`
    All,
    /// `none`
    Nothing,
    /// Numbers and ranges, at least one.
    Spans(Listed<Span>),
}

/// A part of a type set: a dimension and its numbers, such as `lanes 1..4`.
#[derive(Drop)]
pub struct Part {
    /// The dimension of the part.
    pub dimension: Dimension,
    /// The numbers of the part.
    pub members: Members,
}

/// The type set of a type variable.
#[derive(Drop)]
pub enum SetExpr {
    /// Parts, at least one.
    Parts(Listed<Part>),
    /// `like WORD`: the type set of another variable.
    Like(Bytes),
}

/// A type variable: `type WORD: PART, PART`. After these stands the text that is shown, if it isn't the word.
#[derive(Drop)]
pub struct TypeItem {
    /// The lines of documentation above the variable.
    pub docs: Docs,
    /// The word that names the variable.
    pub word: Bytes,
    /// The text that is shown. `None` if it is the word.
    pub shown: Option<Bytes>,
    /// The type set of the variable.
    pub set: SetExpr,
}

/// An alias, which is another word for a type: `type WORD = TYPE`.
#[derive(Drop)]
pub struct AliasItem {
    /// The lines of documentation above the alias.
    pub docs: Docs,
    /// The word that the alias declares.
    pub word: Bytes,
    /// The type that the word stands for.
    pub means: TypeExpr,
}

ghost use Rattle.std.specs.Prelude.{◌≡◌};
ghost use Rattle.meta_file_syntax.specs.Words.{function_named, dimension_text, dimension_of};

/// The derived function with this name in snake case, such as `lane_of`. `None` if there is no such function.
pub fn function_named(name: &[u8]) -> Option<DerivedFunc>
    ensures { result ≡ function_named name.now }
{
    for function in DERIVED_FUNCS {
        if name == function.name().as_bytes() {
            return Some(function);
        }
    }
    None
}

/// The dimensions in the order of the variants, and their words.
const DIMENSIONS: [(Dimension, &[u8]); 4] = [
    (Dimension::Lanes, b"lanes"),
    (Dimension::Dynamic, b"dynamic"),
    (Dimension::Ints, b"ints"),
    (Dimension::Floats, b"floats"),
];

impl Dimension {
    /// The dimension as a word.
    pub fn as_slice(self) -> &'static [u8]
        ensures { result.now ≡ dimension_text self }
    {
        word_at(&DIMENSIONS, self as usize)
    }

    /// The dimension with this word, if there is one.
    #[tactic(auto, unfolding(crate::specs::Words::dimension_of))]
    pub fn of(word: &[u8]) -> Option<Dimension>
        ensures { result ≡ dimension_of word.now }
    {
        with_word(&DIMENSIONS, word)
    }
}
