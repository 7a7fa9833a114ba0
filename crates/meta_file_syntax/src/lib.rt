//! The tokens and the items of a file of declarations.
//!
//! Tokens are words, texts in quotes, signs and lines of documentation, with their lines. `tokens_of` reads them, and `write_tokens` writes
//! them in a canonical form. Items are trees. `spell` gives the tokens of items, and `write_items` their text.
#![tactic(auto)]

mod bytes;
mod docs;
mod encoding;
mod flaw;
mod formats;
mod insts;
mod items;
mod keyword;
mod kinds;
mod listed;
mod name;
mod scanner;
mod speller;
mod spelling;
mod squeezing;
mod token;
mod tokens;
mod types;
mod words;
mod writing;

pub use bytes::Bytes;
pub use docs::Docs;
pub use flaw::Flaw;
pub use formats::{FormatItem, Slot};
pub use insts::{InstItem, Mark, Operand, Property};
pub use items::{BoolItem, EnumItem, Item, NumItem, PresetItem};
pub use keyword::Keyword;
pub use kinds::{EnumValue, KindItem, Sort};
pub use listed::Listed;
pub use name::Name;
pub use spelling::{spell, write_items};
pub use token::Token;
pub use tokens::{Tokens, tokens_of};
pub use types::{
    AliasItem, Dimension, Members, Part, SetExpr, Span, TypeExpr, TypeItem, function_named,
};
pub use words::{with_word, word_at};
pub use writing::{what_is_laid_is_read, write_escaped, write_tokens};
