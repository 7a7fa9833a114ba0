//! What the items of a file declare of types and kinds: words, type variables, and kinds of operands.
//!
//! `Types` keeps what the items so far declare, in a registry of type variables. `add` adds an item, or says what is wrong with it.
//! `type_var` and `operand_kind` say what a type or an operand of an instruction means.
#![tactic(auto)]

mod adding;
mod given;
mod kinds;
mod laws;
mod plain;
mod refused;
mod sets;
mod spelled;
mod texts;
mod types;
mod words;

pub use given::{GivenKind, has_own_meaning};
pub use laws::{a_plain_word_means_one_type, what_is_meant_stays};
pub use plain::{PlainRoot, add_plain_root};
pub use refused::{ItemError, Reason};
pub use spelled::{Spelled, SpelledName};
pub use texts::{are_lines, is_text, shown_or};
pub use types::Types;
